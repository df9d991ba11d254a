// Where the parts of a packed roll end. Each reader goes from a place in the whole slice to the place after its part.
ghost use Rattle.std.specs.Prelude.{◌≡◌, ◌<◌, ◌≤◌, List, length, IfOk, MatchResult};
ghost use Rattle.address.specs.Text.{Text};
ghost use Rattle.roll.specs.Ends.{there, word_at, read_word, text_end, roll_end, whole, incoming};
ghost use Rattle.roll.specs.Laws.{Packed};
ghost use Rattle.roll.specs.Reading.{texts};

use crate::fault::RollFault;
use crate::limits::{INCOMING, Limits};
use crate::reading::tail;

/// Whether the `n` bytes from `at` on are all there.
pub(crate) fn is_there(bytes: &[u8], at: usize, n: usize) -> bool
    ensures { result ≡ there bytes.now at n }
{
    bytes.get(at..).is_some_and(|rest| n <= rest.len())
}

/// The number in the two bytes at a place, the high one first.
pub fn read_word(bytes: &[u8], at: usize) -> Option<usize>
    ensures { result ≡ read_word bytes.now at }
{
    let word = bytes.get(at..)?.first_chunk::<2>()?;
    Some(usize::from(u16::from_be_bytes(*word)))
}

/// The number in the two bytes at a place, of which those past the end are 0.
pub fn word_at(bytes: &[u8], at: usize) -> usize
    ensures value { result ≡ word_at bytes.now at }
    ensures small { result < 65536 }
{
    let rest = tail(bytes, at);
    let byte = |n: usize| rest.get(n).copied().unwrap_or(0);
    usize::from(u16::from_be_bytes([byte(0), byte(1)]))
}

/// Where the text at a place ends.
pub fn text_end(limits: Limits, bytes: &[u8], at: usize) -> Result<usize, RollFault>
    ensures value { result ≡ text_end limits bytes.now at }
    ensures bound { IfOk result (λ e. (at ≤ e) × (e ≤ length bytes.now)) }
{
    let len = read_word(bytes, at).ok_or(RollFault::Length(at))?;
    if len > limits.longest || !is_there(bytes, at, 2 + len) {
        return Err(RollFault::Length(at));
    }
    Ok(at + 2 + len)
}

/// Where the roll at a place ends.
pub fn roll_end(limits: Limits, bytes: &[u8], at: usize) -> Result<usize, RollFault>
    ensures value { result ≡ roll_end limits bytes.now at }
    ensures bound { IfOk result (λ e. (at ≤ e) × (e ≤ length bytes.now)) }
{
    let count = read_word(bytes, at).ok_or(RollFault::Count(at))?;
    if count < limits.least || count > limits.most {
        return Err(RollFault::Count(at));
    }
    let mut end = at + 2;
    for _ in 0..count {
        end = text_end(limits, bytes, end)?;
    }
    Ok(end)
}

/// Refuses all but a roll within the limits that is the whole slice.
fn check_within(limits: Limits, bytes: &[u8]) -> Result<(), RollFault>
    ensures { result ≡ whole limits bytes.now }
{
    let end = roll_end(limits, bytes, 0)?;
    if end < bytes.len() {
        return Err(RollFault::LeftOver(end));
    }
    Ok(())
}

/// Refuses all but a packed roll of incoming addresses.
pub fn check_roll(bytes: &[u8]) -> Result<(), RollFault>
    ensures value { result ≡ whole incoming bytes.now }
    ensures law { MatchResult result (λ _. Packed incoming bytes.now (texts bytes.now)) (λ _. (ts : List Text) → Packed incoming bytes.now ts → ⊥) }
{
    check_within(INCOMING, bytes)
}
