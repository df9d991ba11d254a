// How a report is printed.
ghost use Rattle.std.specs.Prelude.{Some};
ghost use Rattle.email_policy.specs.Words.{layer_word, part_word, reported_words};

use crate::fault::{Layer, Part};
use crate::report::Report;
use std::fmt;

impl fmt::Display for Layer {
    ghost output = { λ l. Some (layer_word l) };

    fn fmt<W: fmt::Write>(&self, f: &mut fmt::Formatter<W>) -> fmt::Result {
        f.write_str(match self {
            Layer::Text => "text",
            Layer::Roll => "roll",
            Layer::Record => "record",
            Layer::Book => "book",
            Layer::Router => "router",
        })
    }
}

impl fmt::Display for Part {
    ghost output = { λ p. Some (part_word p) };

    fn fmt<W: fmt::Write>(&self, f: &mut fmt::Formatter<W>) -> fmt::Result {
        f.write_str(match self {
            Part::To => "to",
            Part::Cc => "cc",
            Part::Author => "author",
            Part::Bot => "bot",
            Part::Scratch => "scratch",
            Part::Tray => "tray",
            Part::Key => "key",
            Part::Record => "record",
            Part::Book => "book",
        })
    }
}

impl fmt::Display for Report {
    ghost output = { λ r. Some (reported_words r) };

    fn fmt<W: fmt::Write>(&self, f: &mut fmt::Formatter<W>) -> fmt::Result {
        write!(
            f,
            "fault {} {} {} {}",
            self.number, self.layer, self.part, self.place
        )
    }
}
