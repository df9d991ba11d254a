// Where the parts of a packed record end. Each reader goes from a place in the whole slice to the place after its part.
ghost use Rattle.std.specs.Prelude.{◌≡◌, ◌+◌, ◌≤◌, length, IfOk, MatchResult};
ghost use Rattle.email_policy.specs.Ends.{byte_end, part_end, map_end, if_bit, fields_end, record_end, whole_record};
ghost use Rattle.email_policy.specs.Law.{Packed};
ghost use Rattle.email_policy.specs.Policy.{ListPolicy};
ghost use Rattle.email_policy.specs.Reading.{read_policy};

use crate::fault::RecordFault;
use crate::policy::has_bit;
use roll::{Limits, roll_end};

/// A roll in a record, whose texts have no limit but the record's.
pub(crate) const IN_RECORD: Limits = Limits {
    least: 1,
    most: 32,
    longest: 65535,
};

/// A roll in a record has at most so many texts.
pub const MOST_TEXTS: usize = IN_RECORD.most;

const LONGEST_RECORD: usize = 1024;

/// The end of a field byte, at most `max`, that is there only if its bit stands.
fn byte_end(bytes: &[u8], at: usize, stands: bool, max: u8) -> Result<usize, RecordFault>
    requires { at ≤ length bytes.now }
    ensures value { result ≡ if_bit stands (byte_end max) bytes.now at }
    ensures bound { IfOk result (λ e. (at ≤ e) × (e ≤ length bytes.now)) }
{
    if !stands {
        return Ok(at);
    }
    match bytes.get(at) {
        Some(byte) if *byte <= max => Ok(at + 1),
        _ => Err(RecordFault::Field(at)),
    }
}

/// The end of a roll that is there only if its bit stands.
fn part_end(bytes: &[u8], at: usize, stands: bool) -> Result<usize, RecordFault>
    requires { at ≤ length bytes.now }
    ensures value { result ≡ if_bit stands part_end bytes.now at }
    ensures bound { IfOk result (λ e. (at ≤ e) × (e ≤ length bytes.now)) }
{
    if !stands {
        return Ok(at);
    }
    Ok(roll_end(IN_RECORD, bytes, at)?)
}

/// The end of the bit map, which has no unknown bit, and in the defaults (`full`) the first three.
fn map_end(bytes: &[u8], at: usize, full: bool) -> Result<usize, RecordFault>
    ensures value { result ≡ map_end full bytes.now at }
    ensures bound { IfOk result (λ e. (at + 1 ≡ e) × (e ≤ length bytes.now)) }
{
    match bytes.get(at) {
        Some(map) if *map < 32 && (!full || *map % 8 == 7) => Ok(at + 1),
        _ => Err(RecordFault::Field(at)),
    }
}

/// The end of the record at a place, however long it is.
fn fields_end(bytes: &[u8], at: usize, full: bool) -> Result<usize, RecordFault>
    ensures value { result ≡ fields_end full bytes.now at }
    ensures bound { IfOk result (λ e. (at ≤ e) × (e ≤ length bytes.now)) }
{
    let reply = map_end(bytes, at, full)?;
    let map = bytes[at];
    let rank = byte_end(bytes, reply, has_bit(map, 1), 7)?;
    let mute = byte_end(bytes, rank, has_bit(map, 2), 2)?;
    let cc = byte_end(bytes, mute, has_bit(map, 4), 1)?;
    let ignored = part_end(bytes, cc, has_bit(map, 8))?;
    part_end(bytes, ignored, has_bit(map, 16))
}

/// Where the record at a place ends, whatever follows it; the defaults are `full`.
pub fn record_end(bytes: &[u8], at: usize, full: bool) -> Result<usize, RecordFault>
    ensures value { result ≡ record_end full bytes.now at }
    ensures bound { IfOk result (λ e. (at ≤ e) × (e ≤ length bytes.now)) }
{
    match fields_end(bytes, at, full) {
        Ok(end) => {
            if end - at > LONGEST_RECORD {
                return Err(RecordFault::TooLong(at + LONGEST_RECORD));
            }
            Ok(end)
        }
        Err(fault) => {
            let rest = bytes.len().saturating_sub(at);
            // the leftmost fault, and at one place the limit
            if rest <= LONGEST_RECORD || fault.place() < at + LONGEST_RECORD {
                return Err(fault);
            }
            Err(RecordFault::TooLong(at + LONGEST_RECORD))
        }
    }
}

// The end of a record that is the whole slice.
fn check_whole(bytes: &[u8], full: bool) -> Result<(), RecordFault>
    ensures { result ≡ whole_record full bytes.now }
{
    let end = record_end(bytes, 0, full)?;
    if end < bytes.len() {
        return Err(RecordFault::LeftOver(end));
    }
    Ok(())
}

/// Refuses all but a record that is the whole slice. What is accepted packs the policy that is read from it, and what is
/// refused packs none.
pub fn check_record(bytes: &[u8], full: bool) -> Result<(), RecordFault>
    ensures value { result ≡ whole_record full bytes.now }
    ensures law { MatchResult result (λ _. Packed full bytes.now (read_policy bytes.now 0)) (λ _. (p : ListPolicy) → Packed full bytes.now p → ⊥) }
{
    check_whole(bytes, full)
}
