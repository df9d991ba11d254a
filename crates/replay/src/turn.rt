// Turns, as lines ask for them.
ghost use Rattle.std.specs.Prelude.{◌≡◌, ◌<◌, ◌==◌, position, IfSome, IfOk, Some, vec_items};
ghost use Rattle.std.specs.Option.{option_map};
ghost use Rattle.std.specs.Str.{bytes_eq};
ghost use Rattle.replay.specs.Lines.{parted_at, sole, both, map_ok, with_ok, bytes_or, sole_bytes, decimal_digit, number_of, byte_in, word_in, tray_of, scratch_of, leading, arguments_from, arguments, call_of, resolve_pass, resolve_asked, argued, called, address, open_book, write_asked, asked_by, read_line, asked, why_text, UnlessMemory};
ghost use Rattle.replay.specs.Hex.{unhex as unhexed};
ghost use Rattle.replay.specs.declared.turn.LineFault.TheVariants.{NoMemory};

use crate::hex::{pair, unhex};
use grants::Pass;
use std::alloc::{AllocError, Global};
use std::fmt;

/// A resolve: for which review, and what is passed.
#[derive(Drop)]
pub struct Call {
    pub pass: Pass,
    pub to: Vec<u8>,
    pub cc: Vec<u8>,
    pub author: Vec<u8>,
    pub bot: Vec<u8>,
    pub scratch: Vec<u16>,
    pub tray: Vec<u8>,
}

#[derive(Drop)]
pub enum Turn {
    /// The address in a text.
    Address { text: Vec<u8> },
    /// Opens a packed book.
    Open { book: Vec<u8> },
    /// Writes the packed book out into a tray.
    WritePacked { tray: Vec<u8> },
    /// Asks the packed book who is mailed.
    ResolvePacked { call: Call },
}

/// Why a line gives no turn.
#[derive(Clone, Copy, PartialEq, Eq, Debug)]
pub enum LineFault {
    UnknownWord,
    MissingArgument,
    ExtraArgument,
    NotHex,
    NotScratch,
    NotTray,
    NotSource,
    NoPackedBook,
    NoMemory(AllocError),
}

impl LineFault {
    pub fn why(self) -> &'static str
        ensures { result.now ≡ why_text self }
    {
        match self {
            LineFault::UnknownWord => "no such word",
            LineFault::MissingArgument => "an argument is missing",
            LineFault::ExtraArgument => "there is an argument too many",
            LineFault::NotHex => "the bytes are not lower-case hex",
            LineFault::NotScratch => "the scratch is not N:hhhh",
            LineFault::NotTray => "the tray is not N:hh",
            LineFault::NotSource => "the source is not packed",
            LineFault::NoPackedBook => "no packed book is open",
            LineFault::NoMemory(_) => "there is no memory for it",
        }
    }
}

impl fmt::Display for LineFault {
    ghost output = { λ fault. Some (why_text fault) };

    fn fmt<W: fmt::Write>(&self, f: &mut fmt::Formatter<W>) -> fmt::Result {
        f.write_str(self.why())
    }
}

impl From<AllocError> for LineFault {
    ghost from_gives = { λ e r. r ≡ NoMemory e };

    fn from(error: AllocError) -> LineFault {
        LineFault::NoMemory(error)
    }
}

fn find(line: &[u8], c: u8) -> Option<usize>
    ensures { result ≡ position (λ b. b == c) line.now }
{
    line.iter().position(|b| *b == c)
}

// What stands before the first `c`, and what follows it.
fn part(line: &[u8], c: u8) -> Option<(&[u8], &[u8])>
    ensures { option_map (λ s. (s.0.now, s.1.now)) result ≡ parted_at c line.now }
{
    let at = find(line, c)?;
    Some((&line[..at], &line[at + 1..]))
}

// The one argument that a word takes.
fn sole_argument(rest: Option<&[u8]>) -> Result<&[u8], LineFault>
    ensures { map_ok (λ x. x.now) result ≡ sole (option_map (λ x. x.now) rest.entry) }
{
    let argument = rest.ok_or(LineFault::MissingArgument)?;
    if part(argument, b' ').is_some() {
        return Err(LineFault::ExtraArgument);
    }
    Ok(argument)
}

fn bytes(heap: Global, argument: &[u8]) -> Result<Vec<u8>, LineFault>
    ensures { UnlessMemory vec_items result (bytes_or (unhexed argument.now)) }
{
    unhex(heap, argument)?.ok_or(LineFault::NotHex)
}

// The bytes of a word's one argument.
fn sole_bytes(heap: Global, rest: Option<&[u8]>) -> Result<Vec<u8>, LineFault>
    ensures { UnlessMemory vec_items result (sole_bytes (option_map (λ x. x.now) rest.entry)) }
{
    let argument = sole_argument(rest)?;
    bytes(heap, argument)
}

// Both arguments of a word that takes two.
fn both_arguments(rest: Option<&[u8]>) -> Result<(&[u8], &[u8]), LineFault>
    ensures { map_ok (λ s. (s.0.now, s.1.now)) result ≡ both (option_map (λ x. x.now) rest.entry) }
{
    let arguments = rest.ok_or(LineFault::MissingArgument)?;
    let (first, second) = part(arguments, b' ').ok_or(LineFault::MissingArgument)?;
    if part(second, b' ').is_some() {
        return Err(LineFault::ExtraArgument);
    }
    Ok((first, second))
}

fn decimal_digit(c: u8) -> Option<usize>
    ensures value { result ≡ decimal_digit c }
    ensures bound { IfSome result (λ d. d < 10) }
{
    match c {
        b'0'..=b'9' => Some(usize::from(c - b'0')),
        _ => None,
    }
}

// A number below a billion.
fn number(text: &[u8]) -> Option<usize>
    ensures { result ≡ number_of text.now }
{
    if text.is_empty() {
        return None;
    }
    let mut n = 0;
    for c in text {
        let d = decimal_digit(*c)?;
        if n >= 100_000_000 {
            return None;
        }
        n = n * 10 + d;
    }
    Some(n)
}

// One byte in hex.
fn hex_byte(text: &[u8]) -> Option<u8>
    ensures { result ≡ byte_in text.now }
{
    match text {
        [high, low] => pair(*high, *low),
        _ => None,
    }
}

// So many bytes, each holding the same.
fn tray(heap: Global, argument: &[u8]) -> Result<Vec<u8>, LineFault>
    ensures { UnlessMemory vec_items result (tray_of (parted_at 58 argument.now)) }
{
    let (count, byte) = part(argument, b':').ok_or(LineFault::NotTray)?;
    let n = number(count).ok_or(LineFault::NotTray)?;
    let b = hex_byte(byte).ok_or(LineFault::NotTray)?;
    Ok(vec![in heap; b; n]?)
}

fn write_turn(heap: Global, rest: Option<&[u8]>) -> Result<Turn, LineFault>
    ensures { UnlessMemory asked result (with_ok (both (option_map (λ x. x.now) rest.entry)) write_asked) }
{
    let (source, argument) = both_arguments(rest)?;
    if source != b"packed".as_slice() {
        return Err(LineFault::NotSource);
    }
    let tray = tray(heap, argument)?;
    Ok(Turn::WritePacked { tray })
}

// A number in four digits.
fn hex_word(text: &[u8]) -> Option<u16>
    ensures { result ≡ word_in text.now }
{
    let (high, low) = text.split_at_checked(2)?;
    let h = hex_byte(high)?;
    let l = hex_byte(low)?;
    Some(u16::from(h) * 256 + u16::from(l))
}

// So many slots, each holding the same.
fn scratch(heap: Global, argument: &[u8]) -> Result<Vec<u16>, LineFault>
    ensures { UnlessMemory vec_items result (scratch_of (parted_at 58 argument.now)) }
{
    let (count, slot) = part(argument, b':').ok_or(LineFault::NotScratch)?;
    let n = number(count).ok_or(LineFault::NotScratch)?;
    let h = hex_word(slot).ok_or(LineFault::NotScratch)?;
    Ok(vec![in heap; h; n]?)
}

// The arguments of a resolve, as they are written.
#[derive(Clone, Copy)]
struct Arguments<'a> {
    source: &'a [u8],
    to: &'a [u8],
    cc: &'a [u8],
    author: &'a [u8],
    bot: &'a [u8],
    scratch: &'a [u8],
    tray: &'a [u8],
}

// The first argument and what follows it, where another one does.
fn leading(rest: &[u8]) -> Result<(&[u8], &[u8]), LineFault>
    ensures { map_ok (λ s. (s.0.now, s.1.now)) result ≡ leading rest.now }
{
    part(rest, b' ').ok_or(LineFault::MissingArgument)
}

fn arguments_from(rest: &[u8]) -> Result<Arguments<'_>, LineFault>
    ensures { map_ok argued result ≡ arguments_from rest.now }
{
    let (source, rest) = leading(rest)?;
    let (to, rest) = leading(rest)?;
    let (cc, rest) = leading(rest)?;
    let (author, rest) = leading(rest)?;
    let (bot, rest) = leading(rest)?;
    let (scratch, rest) = leading(rest)?;
    let tray = sole_argument(Some(rest))?;
    Ok(Arguments {
        source,
        to,
        cc,
        author,
        bot,
        scratch,
        tray,
    })
}

fn all_arguments(rest: Option<&[u8]>) -> Result<Arguments<'_>, LineFault>
    ensures { map_ok argued result ≡ arguments (option_map (λ x. x.now) rest.entry) }
{
    let rest = rest.ok_or(LineFault::MissingArgument)?;
    arguments_from(rest)
}

fn read_call(heap: Global, pass: Pass, arguments: &Arguments<'_>) -> Result<Call, LineFault>
    ensures { UnlessMemory called result (call_of pass (argued arguments.now)) }
{
    let to = bytes(heap, arguments.to)?;
    let cc = bytes(heap, arguments.cc)?;
    let author = bytes(heap, arguments.author)?;
    let bot = bytes(heap, arguments.bot)?;
    let scratch = scratch(heap, arguments.scratch)?;
    let tray = tray(heap, arguments.tray)?;
    Ok(Call {
        pass,
        to,
        cc,
        author,
        bot,
        scratch,
        tray,
    })
}

fn resolve_turn(heap: Global, pass: Pass, rest: Option<&[u8]>) -> Result<Turn, LineFault>
    ensures { UnlessMemory asked result (with_ok (arguments (option_map (λ x. x.now) rest.entry)) (resolve_asked pass)) }
{
    let arguments = all_arguments(rest)?;
    if arguments.source != b"packed".as_slice() {
        return Err(LineFault::NotSource);
    }
    let call = read_call(heap, pass, &arguments)?;
    Ok(Turn::ResolvePacked { call })
}

// The review that a resolve is for, by its word.
fn resolve_pass(word: &[u8]) -> Option<Pass>
    ensures { result ≡ resolve_pass word.now }
{
    if word == b"resolve".as_slice() {
        return Some(Pass::First);
    }
    (word == b"resolve_positive".as_slice()).then_some(Pass::Positive)
}

// What a word with what follows its space asks for.
#[tactic(auto, using(crate::proofs::Trays::word_address))]
fn turn_of(heap: Global, word: &[u8], rest: Option<&[u8]>) -> Result<Turn, LineFault>
    ensures { UnlessMemory asked result (asked_by word.now (option_map (λ x. x.now) rest.entry)) }
{
    match word {
        b"address" => sole_bytes(heap, rest).map(|text| Turn::Address { text }),
        b"open" => sole_bytes(heap, rest).map(|book| Turn::Open { book }),
        b"write" => write_turn(heap, rest),
        _ => {
            let pass = resolve_pass(word).ok_or(LineFault::UnknownWord)?;
            resolve_turn(heap, pass, rest)
        }
    }
}

/// The turn that a line asks for.
pub fn read_turn(heap: Global, line: &[u8]) -> Result<Turn, LineFault>
    ensures { UnlessMemory asked result (read_line line.now) }
{
    let (word, rest) = match part(line, b' ') {
        Some((word, rest)) => (word, Some(rest)),
        None => (line, None),
    };
    turn_of(heap, word, rest)
}
