// Why a call is refused. Places are offsets in the caller's slice.
ghost use Rattle.std.specs.Prelude.{◌≡◌};
ghost use Rattle.email_router.specs.declared.fault.RouterFault.TheVariants.{Roll, Text};

use address::TextFault;
use roll::RollFault;

/// A roll of incoming addresses.
#[derive(Clone, Copy, PartialEq, Eq, Debug)]
pub enum Incoming {
    To,
    Cc,
}

/// A text of its own.
#[derive(Clone, Copy, PartialEq, Eq, Debug)]
pub enum Person {
    Author,
    Bot,
}

/// The first fault of a call.
#[derive(Clone, Copy, PartialEq, Eq, Debug)]
pub enum RouterFault {
    /// The roll is not whole, or one of its texts holds a byte that no text may hold.
    Roll(Incoming, RollFault),
    /// The text has a byte at this place, where it is too long.
    TooLong(Person, usize),
    /// The text holds a byte that no text may hold.
    Text(Person, TextFault),
    /// So many slots are needed.
    Scratch(usize),
    /// So many bytes are needed.
    Tray(usize),
}

impl From<(Incoming, RollFault)> for RouterFault {
    ghost from_gives = { λ e r. r ≡ Roll e.0 e.1 };

    fn from(e: (Incoming, RollFault)) -> RouterFault {
        RouterFault::Roll(e.0, e.1)
    }
}

impl From<(Person, TextFault)> for RouterFault {
    ghost from_gives = { λ e r. r ≡ Text e.0 e.1 };

    fn from(e: (Person, TextFault)) -> RouterFault {
        RouterFault::Text(e.0, e.1)
    }
}
