// What is printed for a turn.
ghost use Rattle.std.specs.Prelude.{◌≡◌, ◌-◌, ◌^◌, ◌==◌, min, ◌++◌, length, IfOk, Some, Ok, Err, MatchResult, string_bytes, vec_items};
ghost use Rattle.std.specs.List.{list_all};
ghost use Rattle.std.specs.Option.{option_map};
ghost use Rattle.address.specs.Text.{small};
ghost use Rattle.address.specs.Address.{domain as domain_of};
ghost use Rattle.packed_book.specs.Ends.{whole_book};
ghost use Rattle.replay.specs.Lines.{address_line, line_of, domain_word, said_of, written_out, with_tray, slots_word, resolve_line, if_answered, called, resolved_by, UnlessMemory};
ghost use Rattle.replay.specs.Turns.{WrittenOut};
ghost use Rattle.replay.specs.People.{answer_lines};
ghost use Rattle.packed_book.specs.Reading.{read_book};
ghost use Rattle.packed_book.specs.Reports.{tray_report};
ghost use Rattle.email_router.specs.Given.{given, given_by};
ghost use Rattle.email_router.specs.Opened.{opened};

use crate::hex::{Hex, hex_len};
use crate::people::{people_room, push_people};
use crate::turn::{Call, LineFault};
use address::{address_part, domain};
use email_policy::{PolicySource, Report};
use email_router::{RouterFault, resolve_positive_recipients, resolve_recipients};
use grants::Pass;
use packed_book::{OpenFault, TrayTooShort, first_hour, write_book};
use std::alloc::{AllocError, Global};
use std::fmt;

// A domain in hex, or `none`.
#[derive(Clone, Copy)]
struct Domain<'a>(Option<&'a [u8]>);

impl fmt::Display for Domain<'_> {
    ghost output = { λ d. Some (domain_word (option_map (λ x. x.now) d.0)) };

    fn fmt<W: fmt::Write>(&self, f: &mut fmt::Formatter<W>) -> fmt::Result {
        match self.0 {
            Some(bytes) => write!(f, "{}", Hex(bytes)),
            None => write!(f, "none"),
        }
    }
}

// How many bytes the line of an address has.
fn address_len(part: &[u8], domain: Option<&[u8]>) -> usize
    ensures { option_map (λ x. x.now) domain.entry ≡ domain_of (small part.now) → result ≡ min (length (line_of part.now)) (2 ^ 64 - 1) }
{
    hex_len(part)
        .saturating_mul(2)
        .saturating_add(domain.map_or("none".len(), hex_len))
        .saturating_add("address   \n".len())
}

/// The line for the address in a text.
pub fn address_line(heap: Global, text: &[u8]) -> Result<String, AllocError>
    ensures { IfOk result (λ s. string_bytes s ≡ address_line text.now) }
{
    let part = address_part(text);
    let mut bare = Vec::from_slice(heap, part)?;
    bare.make_ascii_lowercase();
    let domain = domain(&bare);
    let mut line = String::with_capacity(heap, address_len(part, domain))?;
    write!(
        line,
        "address {} {} {}\n",
        Hex(part),
        Hex(&bare),
        Domain(domain)
    )?;
    Ok(line)
}

// What a call that writes into a tray answered, and room for what follows; the tray is as it is after the call.
fn said(
    heap: Global,
    tray: &[u8],
    answer: Result<usize, Report>,
    room: usize,
) -> Result<String, AllocError>
    ensures { IfOk result (λ s. string_bytes s ≡ said_of (λ r. r) tray.now answer) }
{
    match answer {
        Ok(n) => {
            let written = tray.get(..n).unwrap_or(tray);
            let len = hex_len(written).saturating_add("answer ".len());
            let mut said = String::with_capacity(heap, len.saturating_add(room))?;
            write!(said, "answer {}", Hex(written))?;
            Ok(said)
        }
        Err(report) => {
            let mut said = format!(in heap; "{report}")?;
            said.reserve(room)?;
            Ok(said)
        }
    }
}

// Opens the book again and writes it out.
fn write_out(book: &[u8], tray: &mut [u8]) -> Result<Result<usize, TrayTooShort>, OpenFault>
    ensures { WrittenOut book.now tray.old tray.new result }
{
    let mut source = first_hour();
    source.open(book)?;
    Ok(write_book(&source, tray))
}

fn write_line(
    heap: Global,
    answer: Result<usize, TrayTooShort>,
    tray: &[u8],
) -> Result<String, AllocError>
    ensures { IfOk result (λ s. string_bytes s ≡ with_tray (said_of tray_report tray.now answer) tray.now) }
{
    let room = hex_len(tray).saturating_add(" tray \n".len());
    let answer = answer.map_err(|short| Report::from(short));
    let mut line = said(heap, tray, answer, room)?;
    write!(line, " tray {}\n", Hex(tray))?;
    Ok(line)
}

/// Writes the packed book out into the tray, and gives the line for it.
pub fn written_line(heap: Global, book: &[u8], tray: &mut [u8]) -> Result<String, LineFault>
    ensures { UnlessMemory (λ s. record { printed = string_bytes s; state = Some book.now }) result (written_out book.now tray.old (whole_book book.now)) }
{
    let answer = write_out(book, tray).map_err(|_| LineFault::NoPackedBook)?;
    Ok(write_line(heap, answer, tray)?)
}

fn all_zero(slots: &[u16]) -> bool
    ensures { result ≡ list_all (λ n. n == 0) slots.now }
{
    slots.iter().all(|slot| *slot == 0)
}

// What became of the slots.
fn slots_word(before: &[u16], after: &[u16]) -> &'static str
    ensures { result.now ≡ slots_word before.now after.now }
{
    if all_zero(after) {
        "zero"
    } else if before == after {
        "kept"
    } else {
        "other"
    }
}

fn resolve_line(
    heap: Global,
    before: &[u16],
    answer: Result<usize, RouterFault>,
    scratch: &[u16],
    tray: &[u8],
) -> Result<String, AllocError>
    ensures { IfOk result (λ s. string_bytes s ≡ resolve_line before.now (given answer scratch.now tray.now)) }
{
    let slots = slots_word(before, scratch);
    let room = hex_len(tray)
        .saturating_add(" tray  scratch \n".len() + slots.len())
        .saturating_add(answer.map_or(0, people_room));
    let answer = answer.map_err(|fault| Report::from(fault));
    let mut line = said(heap, tray, answer, room)?;
    write!(line, " tray {} scratch {slots}\n", Hex(tray))?;
    Ok(line)
}

// Opens the book again and asks it.
fn resolve_by(
    book: &[u8],
    call: &Call,
    scratch: &mut [u16],
    tray: &mut [u8],
) -> Result<Result<usize, RouterFault>, LineFault>
    ensures { MatchResult result (λ a. (whole_book book.now ≡ Ok tt) × (given a scratch.new tray.new ≡ given_by (called call.now).to (called call.now).cc (called call.now).author (called call.now).bot (read_book book.now) scratch.old tray.old call.now.pass)) (λ f. resolved_by book.now (called call.now) (whole_book book.now) ≡ Err f) }
{
    let mut source = first_hour();
    source.open(book).map_err(|_| LineFault::NoPackedBook)?;
    let (to, cc) = (call.to.as_slice(), call.cc.as_slice());
    let (author, bot) = (call.author.as_slice(), call.bot.as_slice());
    Ok(match call.pass {
        Pass::First => resolve_recipients(&source, to, cc, author, bot, scratch, tray),
        Pass::Positive => resolve_positive_recipients(&source, to, cc, author, bot, scratch, tray),
    })
}

// The line of a resolve, and below it the people of an answer.
fn answered_lines(
    heap: Global,
    pass: Pass,
    before: &[u16],
    answer: Result<usize, RouterFault>,
    scratch: &[u16],
    tray: &[u8],
) -> Result<Vec<u8>, AllocError>
    ensures { IfOk result (λ v. v.items ≡ resolve_line before.now (given answer scratch.now tray.now) ++ if_answered answer (answer_lines pass (opened tray.now))) }
{
    let line = resolve_line(heap, before, answer, scratch, tray)?;
    let mut lines = line.into_bytes();
    if answer.is_ok() {
        push_people(&mut lines, pass, tray)?;
    }
    Ok(lines)
}

/// Asks the packed book who is mailed, and gives the lines for it.
pub fn resolved_lines(heap: Global, book: &[u8], call: &Call) -> Result<Vec<u8>, LineFault>
    ensures { UnlessMemory (λ v. record { printed = vec_items v; state = Some book.now }) result (resolved_by book.now (called call.now) (whole_book book.now)) }
{
    let mut scratch = Vec::from_slice(heap, call.scratch.as_slice())?;
    let mut tray = Vec::from_slice(heap, call.tray.as_slice())?;
    let answer = resolve_by(book, call, scratch.as_mut_slice(), tray.as_mut_slice())?;
    Ok(answered_lines(
        heap,
        call.pass,
        call.scratch.as_slice(),
        answer,
        scratch.as_slice(),
        tray.as_slice(),
    )?)
}
