// Faults as numbers, for those who do not know the enums.
ghost use Rattle.std.specs.Prelude.{◌≡◌};
ghost use Rattle.email_policy.specs.Reports.{record_report, key_report, policy_report, reported};

use crate::fault::{KeyFault, Layer, Part, PolicyFault, RecordFault};
use roll::RollFault;

/// A fault's number, what it is about, the argument, and the offset in that.
#[derive(Clone, Copy, PartialEq, Eq, Debug)]
pub struct Report {
    pub number: u8,
    pub layer: Layer,
    pub part: Part,
    pub place: usize,
}

impl Report {
    fn new(number: u8, layer: Layer, part: Part, place: usize) -> Report
        ensures { result ≡ reported number layer part place }
    {
        Report {
            number,
            layer,
            part,
            place,
        }
    }
}

/// The number of a fault of a record: 12 for a bad byte in a text, else 11.
impl From<RecordFault> for Report {
    ghost from_gives = { λ f r. r ≡ record_report f };

    fn from(fault: RecordFault) -> Report {
        match fault {
            RecordFault::InRoll(RollFault::InText(bad)) => Report::new(
                12,
                Layer::Text,
                Part::Record,
                bad.place,
            ),
            RecordFault::InRoll(fault) => Report::new(11, Layer::Roll, Part::Record, fault.place()),
            fault => Report::new(11, Layer::Record, Part::Record, fault.place()),
        }
    }
}

/// The number of a fault of a key: 7 to 10, in the order of the questions.
impl From<KeyFault> for Report {
    ghost from_gives = { λ f r. r ≡ key_report f };

    fn from(fault: KeyFault) -> Report {
        match fault {
            KeyFault::TooLong(at) => Report::new(7, Layer::Book, Part::Key, at),
            KeyFault::InText(fault) => Report::new(7, Layer::Text, Part::Key, fault.place),
            KeyFault::NoAt(at) => Report::new(8, Layer::Book, Part::Key, at),
            KeyFault::Sides(at) => Report::new(9, Layer::Book, Part::Key, at),
            KeyFault::NoBare(at) => Report::new(10, Layer::Book, Part::Key, at),
        }
    }
}

/// The number of the fault of the key or the record, and 13 for a list's own address in its cc.
impl From<PolicyFault> for Report {
    ghost from_gives = { λ f r. r ≡ policy_report f };

    fn from(fault: PolicyFault) -> Report {
        match fault {
            PolicyFault::Key(fault) => fault.into(),
            PolicyFault::Record(fault) => fault.into(),
            PolicyFault::OwnAddress(at) => Report::new(13, Layer::Book, Part::Record, at),
        }
    }
}
