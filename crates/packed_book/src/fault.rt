// Why a book is not opened. Places are offsets in the book's bytes.
ghost use Rattle.std.specs.Prelude.{◌≡◌};
ghost use Rattle.email_policy.specs.declared.fault.PolicyFault.TheVariants.{Key, Record};
ghost use Rattle.packed_book.specs.declared.fault.OpenFault.TheVariants.{InPolicy};

use email_policy::{KeyFault, PolicyFault, RecordFault};

/// The first fault of a packed book.
#[derive(Clone, Copy, PartialEq, Eq, Debug)]
pub enum OpenFault {
    /// The book is too large, the number of lists is missing or too large, or a key is not all there.
    Size(usize),
    /// A key or a record is refused.
    InPolicy(PolicyFault),
    /// A key does not come after the one before it.
    Order(usize),
    /// Bytes follow the last list.
    LeftOver(usize),
}

impl From<KeyFault> for OpenFault {
    ghost from_gives = { λ e r. r ≡ InPolicy (Key e) };

    fn from(e: KeyFault) -> OpenFault {
        OpenFault::InPolicy(PolicyFault::Key(e))
    }
}

impl From<RecordFault> for OpenFault {
    ghost from_gives = { λ e r. r ≡ InPolicy (Record e) };

    fn from(e: RecordFault) -> OpenFault {
        OpenFault::InPolicy(PolicyFault::Record(e))
    }
}

impl From<PolicyFault> for OpenFault {
    ghost from_gives = { λ e r. r ≡ InPolicy e };

    fn from(e: PolicyFault) -> OpenFault {
        OpenFault::InPolicy(e)
    }
}
