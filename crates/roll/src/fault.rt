// Why a roll is refused.
ghost use Rattle.std.specs.Prelude.{◌≡◌};
ghost use Rattle.roll.specs.declared.fault.RollFault.TheVariants.{InText};
ghost use Rattle.roll.specs.Faults.{roll_place};

use address::TextFault;

/// The leftmost fault of a roll, by its place in the caller's slice.
#[derive(Clone, Copy, PartialEq, Eq, Debug)]
pub enum RollFault {
    /// The count is missing or out of range.
    Count(usize),
    /// The length of a text is missing or too large, or runs past the end.
    Length(usize),
    /// Bytes follow the last text.
    LeftOver(usize),
    /// A text holds a byte that no text may hold.
    InText(TextFault),
}

impl From<TextFault> for RollFault {
    ghost from_gives = { λ e r. r ≡ InText e };

    fn from(e: TextFault) -> RollFault {
        RollFault::InText(e)
    }
}

impl RollFault {
    /// Where the fault stands in the caller's slice.
    pub fn place(&self) -> usize
        ensures { result ≡ roll_place self.now }
    {
        match self {
            RollFault::Count(at) | RollFault::Length(at) | RollFault::LeftOver(at) => *at,
            RollFault::InText(fault) => fault.place,
        }
    }
}
