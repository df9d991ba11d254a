// Why a policy is refused. Places are offsets in the caller's slice.
ghost use Rattle.std.specs.Prelude.{◌≡◌};
ghost use Rattle.email_policy.specs.Ends.{record_place};
ghost use Rattle.email_policy.specs.declared.fault.RecordFault.TheVariants.{InRoll};
ghost use Rattle.email_policy.specs.declared.fault.KeyFault.TheVariants.{InText};
ghost use Rattle.email_policy.specs.declared.fault.PolicyFault.TheVariants.{Key as of_key, Record as of_record};

use address::TextFault;
use roll::RollFault;

/// What a fault is about.
#[derive(Clone, Copy, PartialEq, Eq, Debug)]
pub enum Layer {
    Text,
    Roll,
    Record,
    Book,
    Router,
}

/// Which argument of a call a fault is about.
#[derive(Clone, Copy, PartialEq, Eq, Debug)]
pub enum Part {
    To,
    Cc,
    Author,
    Bot,
    Scratch,
    Tray,
    Key,
    Record,
    Book,
}

/// The first fault of a packed record.
#[derive(Clone, Copy, PartialEq, Eq, Debug)]
pub enum RecordFault {
    /// The bit map, or a field byte, is missing or out of range.
    Field(usize),
    /// A roll is not whole, or a text of it holds a byte that no text may hold.
    InRoll(RollFault),
    /// The record has a byte at its limit.
    TooLong(usize),
    /// Bytes follow the last field.
    LeftOver(usize),
}

/// The first fault of a key.
#[derive(Clone, Copy, PartialEq, Eq, Debug)]
pub enum KeyFault {
    TooLong(usize),
    InText(TextFault),
    /// There is no `@` outside the quoted parts.
    NoAt(usize),
    /// A side of the `@` is empty, the right one has no dot, or there is a blank.
    Sides(usize),
    NoBare(usize),
}

/// The first fault of a key with its record.
#[derive(Clone, Copy, PartialEq, Eq, Debug)]
pub enum PolicyFault {
    Key(KeyFault),
    Record(RecordFault),
    /// A cc text has the bare of the key; the place is that of the text's length.
    OwnAddress(usize),
}

impl RecordFault {
    /// Where the fault stands in the caller's slice.
    pub fn place(&self) -> usize
        ensures { result ≡ record_place self.now }
    {
        match self {
            RecordFault::Field(at) | RecordFault::TooLong(at) | RecordFault::LeftOver(at) => *at,
            RecordFault::InRoll(fault) => fault.place(),
        }
    }
}

impl From<RollFault> for RecordFault {
    ghost from_gives = { λ e r. r ≡ InRoll e };

    fn from(e: RollFault) -> RecordFault {
        RecordFault::InRoll(e)
    }
}

impl From<TextFault> for KeyFault {
    ghost from_gives = { λ e r. r ≡ InText e };

    fn from(e: TextFault) -> KeyFault {
        KeyFault::InText(e)
    }
}

impl From<KeyFault> for PolicyFault {
    ghost from_gives = { λ e r. r ≡ of_key e };

    fn from(e: KeyFault) -> PolicyFault {
        PolicyFault::Key(e)
    }
}

impl From<RecordFault> for PolicyFault {
    ghost from_gives = { λ e r. r ≡ of_record e };

    fn from(e: RecordFault) -> PolicyFault {
        PolicyFault::Record(e)
    }
}
