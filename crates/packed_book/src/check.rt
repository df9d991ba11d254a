// Whether bytes are a packed book. Each reader goes from a place in the whole slice to the place after its part.
ghost use Rattle.std.specs.Prelude.{◌≡◌, ◌+◌, ◌≤◌, List, [], length, IfOk, Ok, Err, MatchResult};
ghost use Rattle.roll.specs.Ends.{word_at};
ghost use Rattle.email_policy.specs.Policy.{Policy};
ghost use Rattle.packed_book.specs.Ends.{key_end, key_at, policy_end, list_end, lists_end, count_end, whole_book};
ghost use Rattle.packed_book.specs.Laws.{Packed};
ghost use Rattle.packed_book.specs.Reading.{read_book};

use crate::fault::OpenFault;
use email_policy::{Record, check_key, record_end, rises};
use roll::{Limits, read_word, text_end};

/// A key as a text of a roll: only whether it is all there is asked.
const ANY_TEXT: Limits = Limits {
    least: 0,
    most: 65535,
    longest: 65535,
};

const MOST_LISTS: usize = 256;

const LONGEST_BOOK: usize = 65535;

/// The end of a key, which is all there.
fn key_end(bytes: &[u8], at: usize) -> Result<usize, OpenFault>
    ensures value { result ≡ key_end bytes.now at }
    ensures bound { IfOk result (λ e. (e ≡ at + (2 + word_at bytes.now at)) × (e ≤ length bytes.now)) }
{
    text_end(ANY_TEXT, bytes, at).map_err(|_| OpenFault::Size(at))
}

/// The key at a place, as far as it is there.
pub(crate) fn key_at(bytes: &[u8], at: usize) -> &[u8]
    ensures { result.now ≡ key_at bytes.now at }
{
    let Some(len) = read_word(bytes, at) else {
        return &[];
    };
    let end = (at + 2 + len).min(bytes.len());
    &bytes[at + 2..end]
}

/// The end of a record whose texts hold only what texts may hold; the defaults are `full`.
fn policy_end(bytes: &[u8], at: usize, full: bool) -> Result<usize, OpenFault>
    ensures value { result ≡ policy_end full bytes.now at }
    ensures bound { IfOk result (λ e. (at ≤ e) × (e ≤ length bytes.now)) }
{
    let end = record_end(bytes, at, full)?;
    Record::new(bytes, at).check_texts()?;
    Ok(end)
}

/// The end of the list at a place, after the one with the key `last`.
fn list_end(last: &[u8], bytes: &[u8], at: usize) -> Result<usize, OpenFault>
    ensures { result ≡ list_end last.now bytes.now at }
{
    let place = key_end(bytes, at)?;
    check_key(bytes, at, at + 2, place)?;
    let end = policy_end(bytes, place, false)?;
    let key = key_at(bytes, at);
    Record::new(bytes, place).check_cc(key)?;
    if !rises(last, key) {
        return Err(OpenFault::Order(at));
    }
    Ok(end)
}

/// The end of so many lists from a place on.
fn lists_end(bytes: &[u8], count: usize, at: usize) -> Result<usize, OpenFault>
    ensures { result ≡ lists_end count [] bytes.now at }
{
    let mut last: &[u8] = &[];
    let mut here = at;
    for _ in 0..count {
        let end = list_end(last, bytes, here)?;
        last = key_at(bytes, here);
        here = end;
    }
    Ok(here)
}

/// The number of lists, which is there and within the limit.
fn list_count(bytes: &[u8], at: usize) -> Result<usize, OpenFault>
    ensures { MatchResult result (λ n. (n ≡ word_at bytes.now at) × (count_end bytes.now at ≡ Ok (at + 2)) × (at + 2 ≤ length bytes.now)) (λ f. count_end bytes.now at ≡ Err f) }
{
    let count = read_word(bytes, at).ok_or(OpenFault::Size(at))?;
    if count > MOST_LISTS {
        return Err(OpenFault::Size(at));
    }
    Ok(count)
}

/// The same answer as `check_book`, with nothing said of what it means.
fn whole_book(bytes: &[u8]) -> Result<(), OpenFault>
    ensures { result ≡ whole_book bytes.now }
{
    if bytes.len() > LONGEST_BOOK {
        return Err(OpenFault::Size(LONGEST_BOOK));
    }
    let place = policy_end(bytes, 0, true)?;
    let count = list_count(bytes, place)?;
    let end = lists_end(bytes, count, place + 2)?;
    if end < bytes.len() {
        return Err(OpenFault::LeftOver(end));
    }
    Ok(())
}

/// Refuses all but a packed book, with its first fault.
pub fn check_book(bytes: &[u8]) -> Result<(), OpenFault>
    ensures value { result ≡ whole_book bytes.now }
    ensures law { MatchResult result (λ _. Packed bytes.now (read_book bytes.now)) (λ _. (p : Policy) → Packed bytes.now p → ⊥) }
{
    whole_book(bytes)
}
