// Faults as numbers.
ghost use Rattle.std.specs.Prelude.{◌≡◌};
ghost use Rattle.email_router.specs.Reports.{roll_number, roll_part, person_part, router_report};

use crate::fault::{Incoming, Person, RouterFault};
use email_policy::{Layer, Part, Report};
use roll::RollFault;

fn roll_number(roll: Incoming) -> u8
    ensures { result ≡ roll_number roll }
{
    match roll {
        Incoming::To => 1,
        Incoming::Cc => 2,
    }
}

impl From<Incoming> for Part {
    ghost from_gives = { λ roll r. r ≡ roll_part roll };

    fn from(roll: Incoming) -> Part {
        match roll {
            Incoming::To => Part::To,
            Incoming::Cc => Part::Cc,
        }
    }
}

impl From<Person> for Part {
    ghost from_gives = { λ person r. r ≡ person_part person };

    fn from(person: Person) -> Part {
        match person {
            Person::Author => Part::Author,
            Person::Bot => Part::Bot,
        }
    }
}

/// The number of the question that was answered no: 1 and 2 for the rolls, 3 for a length, 4 for a byte, 5 for the
/// scratch and 6 for the tray.
impl From<RouterFault> for Report {
    ghost from_gives = { λ fault r. r ≡ router_report fault };

    fn from(fault: RouterFault) -> Report {
        let (number, layer, part, place) = match fault {
            RouterFault::Roll(roll, RollFault::InText(bad)) => (
                4,
                Layer::Text,
                Part::from(roll),
                bad.place,
            ),
            RouterFault::Roll(roll, fault) => (
                roll_number(roll),
                Layer::Roll,
                Part::from(roll),
                fault.place(),
            ),
            RouterFault::TooLong(person, at) => (3, Layer::Router, Part::from(person), at),
            RouterFault::Text(person, bad) => (4, Layer::Text, Part::from(person), bad.place),
            RouterFault::Scratch(needed) => (5, Layer::Router, Part::Scratch, needed),
            RouterFault::Tray(needed) => (6, Layer::Router, Part::Tray, needed),
        };
        Report {
            number,
            layer,
            part,
            place,
        }
    }
}
