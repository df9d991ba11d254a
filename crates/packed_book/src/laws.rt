// What the definitions promise, held by a function's contract.
ghost use Rattle.packed_book.specs.Laws.{ReadsBooks, PacksBooks, WrittenBack};

/// The law of packed books: what is accepted is the packed book of the policy read from it, which is lawful; every
/// packed book of a lawful policy is accepted and read back; and a book that is read and packed again is the same bytes.
pub fn books_stand()
    ensures reads { ReadsBooks }
    ensures packs { PacksBooks }
    ensures written { WrittenBack }
{}
