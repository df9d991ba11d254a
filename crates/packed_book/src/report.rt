// What each fault says to those who read numbers.
ghost use Rattle.std.specs.Prelude.{◌≡◌};
ghost use Rattle.packed_book.specs.Reports.{open_report, tray_report};

use crate::fault::OpenFault;
use crate::write::TrayTooShort;
use email_policy::{Layer, Part, Report};

/// The number of the fault of a key or a record, else 16 for a size, 17 for the order and 18 for what is left over. The
/// part is the book, whatever is at fault in it.
impl From<OpenFault> for Report {
    ghost from_gives = { λ f r. r ≡ open_report f };

    fn from(fault: OpenFault) -> Report {
        let (number, place) = match fault {
            OpenFault::Size(at) => (16, at),
            OpenFault::InPolicy(fault) => {
                return Report {
                    part: Part::Book,
                    ..Report::from(fault)
                };
            }
            OpenFault::Order(at) => (17, at),
            OpenFault::LeftOver(at) => (18, at),
        };
        Report {
            number,
            layer: Layer::Book,
            part: Part::Book,
            place,
        }
    }
}

/// The number 6, with the length needed as its place.
impl From<TrayTooShort> for Report {
    ghost from_gives = { λ t r. r ≡ tray_report t };

    fn from(short: TrayTooShort) -> Report {
        Report {
            number: 6,
            layer: Layer::Router,
            part: Part::Tray,
            place: short.needed,
        }
    }
}
