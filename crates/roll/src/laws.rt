// What the definitions promise, held by a function's contract.
ghost use Rattle.roll.specs.Laws.{ReadsRolls, PacksRolls, WritesRows};

/// The law of rolls, at any place of a slice and for any limits: what is accepted is the packed roll of the texts read
/// from it, and every packed roll of texts within the limits is accepted and read back.
pub fn rolls_stand()
    ensures reads { ReadsRolls }
    ensures packs { PacksRolls }
{}

/// What has been written stands there, and the rest is as it was.
pub fn writing_stands()
    ensures { WritesRows }
{}
