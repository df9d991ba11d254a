// The texts of a packed roll, by reading on from the middle of the slice.
ghost use Rattle.std.specs.Prelude.{◌≡◌, ◌+◌, drop};
ghost use Rattle.std.specs.List.{slice_get};
ghost use Rattle.std.specs.Option.{option_map};
ghost use Rattle.roll.specs.Reading.{read_text, texts, texts_at, texts_fault};

use crate::ends::read_word;
use crate::fault::RollFault;
use address::check_text_within;

/// What follows a place, or nothing where the slice ends before it.
pub(crate) fn tail(bytes: &[u8], at: usize) -> &[u8]
    ensures { result.now ≡ drop at bytes.now }
{
    bytes.get(at..).unwrap_or(&[])
}

/// The first text and what follows it, from which the next is read.
pub fn read_text(rest: &[u8]) -> Option<(&[u8], &[u8])>
    ensures { option_map (λ p. (p.0.now, p.1.now)) result ≡ read_text rest.now }
{
    let len = read_word(rest, 0)?;
    rest.get(2..)?.split_at_checked(len)
}

/// Text `m` of the roll at a place, found by reading the texts before it.
pub fn roll_text(bytes: &[u8], at: usize, m: usize) -> Option<&[u8]>
    ensures { option_map (λ x. x.now) result ≡ slice_get (texts_at bytes.now at) m }
{
    let count = read_word(bytes, at)?;
    if m >= count {
        return None;
    }
    let mut rest = tail(bytes, at + 2);
    for _ in 0..m {
        (_, rest) = read_text(rest)?;
    }
    read_text(rest).map(|(text, _)| text)
}

/// Refuses the first byte that no text may hold, in the texts of the roll at a place.
pub fn check_texts_at(bytes: &[u8], at: usize) -> Result<(), RollFault>
    ensures { result ≡ texts_fault (at + 2) (texts_at bytes.now at) }
{
    let Some(count) = read_word(bytes, at) else {
        return Ok(());
    };
    let mut here = at + 2;
    let mut rest = tail(bytes, here);
    for _ in 0..count {
        let Some((text, more)) = read_text(rest) else {
            return Ok(());
        };
        let end = here + 2 + text.len();
        check_text_within(bytes, here + 2, end)?;
        here = end;
        rest = more;
    }
    Ok(())
}

/// Refuses the first byte that no text may hold, in the texts of a roll.
pub fn check_texts(bytes: &[u8]) -> Result<(), RollFault>
    ensures { result ≡ texts_fault 2 (texts bytes.now) }
{
    check_texts_at(bytes, 0)
}
