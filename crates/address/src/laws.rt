// What the definitions promise, each held by a function's contract.
ghost use Rattle.address.specs.Examples.{Bares};
ghost use Rattle.address.specs.Laws.{QuotedParts, Trimming, Addresses};

/// Quoted parts are what RFC 5322 says, stated without the scanner.
pub fn quoted_parts_stand()
    ensures { QuotedParts }
{}

/// Trimming takes the blanks at both ends and nothing else.
pub fn trimming_stands()
    ensures { Trimming }
{}

/// What other layers use of bares, domains and containment.
pub fn addresses_stand()
    ensures { Addresses }
{}

/// The worked examples of bares.
pub fn bares_stand()
    ensures { Bares }
{}
