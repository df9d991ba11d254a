// One line of input, and what is printed for it.
ghost use Rattle.std.specs.Prelude.{◌≡◌, IfOk, OnErr, None, string_bytes, vec_items};
ghost use Rattle.packed_book.specs.Ends.{whole_book};
ghost use Rattle.replay.specs.Lines.{passed_over, asked, read_line, with_ok, opened_by, given, write_given, resolve_given, called, shown, UnlessMemory};
ghost use Rattle.replay.specs.Turns.{opened, gives, Shows};

use crate::answer::{address_line, resolved_lines, written_line};
use crate::turn::{Call, LineFault, Turn, read_turn};
use email_policy::Report;
use packed_book::check_book;
use std::alloc::{AllocError, Global};

/// What became of a line.
#[derive(Clone, Copy, PartialEq, Eq, Debug)]
pub enum Outcome {
    Done,
    Unreadable,
}

/// What is printed for a line, and what became of it.
#[derive(Drop)]
pub struct Printed {
    pub outcome: Outcome,
    pub text: Vec<u8>,
}

fn is_passed_over(line: &[u8]) -> bool
    ensures { result ≡ passed_over line.now }
{
    matches!(line, [] | [b'#', ..])
}

/// Turns that are run in order, with the packed book that is open, by its bytes.
#[derive(Drop)]
pub struct Session {
    heap: Global,
    packed: Option<Vec<u8>>,
}

impl Session {
    /// A session in which no packed book is open.
    pub fn new(heap: Global) -> Session
        ensures { opened result ≡ None }
    {
        Session { heap, packed: None }
    }

    fn open(&mut self, book: Vec<u8>) -> Result<String, AllocError>
        ensures ok { IfOk result (λ s. gives (string_bytes s) self.new ≡ opened_by (opened self.old) book.items (whole_book book.items)) }
        ensures err { OnErr result (opened self.new ≡ opened self.old) }
    {
        match check_book(book.as_slice()) {
            Ok(()) => {
                let line = String::from_str(self.heap, "accepted\n")?;
                self.packed = Some(book);
                Ok(line)
            }
            Err(fault) => format!(in self.heap; "{}\n", Report::from(fault)),
        }
    }

    fn write_packed(&self, tray: &mut [u8]) -> Result<String, LineFault>
        ensures { UnlessMemory (λ s. gives (string_bytes s) self.now) result (write_given (opened self.now) tray.old) }
    {
        let book = self.packed.as_ref().ok_or(LineFault::NoPackedBook)?;
        written_line(self.heap, book.as_slice(), tray)
    }

    fn resolve_packed(&self, call: Call) -> Result<Vec<u8>, LineFault>
        ensures { UnlessMemory (λ v. gives (vec_items v) self.now) result (resolve_given (opened self.now) (called call)) }
    {
        let book = self.packed.as_ref().ok_or(LineFault::NoPackedBook)?;
        resolved_lines(self.heap, book.as_slice(), &call)
    }

    fn answer(&mut self, turn: Turn) -> Result<Vec<u8>, LineFault>
        ensures value { UnlessMemory (λ v. gives (vec_items v) self.new) result (given (opened self.old) (asked turn)) }
        ensures err { OnErr result (opened self.new ≡ opened self.old) }
    {
        match turn {
            Turn::Address { text } => Ok(address_line(self.heap, text.as_slice())?.into_bytes()),
            Turn::Open { book } => Ok(self.open(book)?.into_bytes()),
            Turn::WritePacked { mut tray } => {
                Ok(self.write_packed(tray.as_mut_slice())?.into_bytes())
            }
            Turn::ResolvePacked { call } => self.resolve_packed(call),
        }
    }

    fn run(&mut self, line: &[u8]) -> Result<Vec<u8>, LineFault>
        ensures value { UnlessMemory (λ v. gives (vec_items v) self.new) result (with_ok (read_line line.now) (given (opened self.old))) }
        ensures err { OnErr result (opened self.new ≡ opened self.old) }
    {
        let turn = read_turn(self.heap, line)?;
        self.answer(turn)
    }

    /// Does what the line asks for, and gives what is to be printed.
    pub fn replay(&mut self, number: u64, line: &[u8]) -> Result<Printed, AllocError>
        ensures { IfOk result (λ p. Shows p self.new (shown (opened self.old) number line.now)) }
    {
        if is_passed_over(line) {
            return Ok(Printed {
                outcome: Outcome::Done,
                text: Vec::new(self.heap),
            });
        }
        let (outcome, text) = match self.run(line) {
            Ok(text) => (Outcome::Done, text),
            Err(LineFault::NoMemory(error)) => return Err(error),
            Err(fault) => (
                Outcome::Unreadable,
                format!(in self.heap; "unreadable {number}: {fault}\n")?.into_bytes(),
            ),
        };
        Ok(Printed { outcome, text })
    }
}
