// What a key must be, and the order of keys.
ghost use Rattle.std.specs.Prelude.{◌≡◌, ◌-◌, take, drop};
ghost use Rattle.std.specs.List.{list_any};
ghost use Rattle.std.specs.Result.{result_err};
ghost use Rattle.address.specs.Text.{blank, trimmed, small};
ghost use Rattle.address.specs.Address.{bare, sides as sides_of};
ghost use Rattle.email_policy.specs.Keys.{key_text, key_form, key_fault, good_sides, before, rises as rising};

use crate::fault::KeyFault;
use address::{address_part, between, check_text_within, is_blank, same_bare, sides, trim};

const LONGEST_KEY: usize = 254;

/// Refuses a byte that no text may hold, and more bytes than a key may have.
fn check_text(bytes: &[u8], from: usize, to: usize) -> Result<(), KeyFault>
    ensures { result_err result ≡ key_text from (take (to - from) (drop from bytes.now)) }
{
    let front = to.min(from.saturating_add(LONGEST_KEY));
    check_text_within(bytes, from, front)?;
    if between(bytes, from, to).len() > LONGEST_KEY {
        return Err(KeyFault::TooLong(from + LONGEST_KEY));
    }
    Ok(())
}

/// Whether there is something before the `@`, and a domain with a dot after it.
fn good_sides(left: &[u8], right: &[u8]) -> bool
    ensures { result ≡ good_sides (left.now, right.now) }
{
    !left.is_empty() && right.contains(&b'.')
}

fn has_blank(text: &[u8]) -> bool
    ensures { result ≡ list_any blank text.now }
{
    text.iter().any(|b| is_blank(*b))
}

/// Refuses what is wrong with all of a key, said at `at`.
fn check_form(key: &[u8], at: usize) -> Result<(), KeyFault>
    ensures { result_err result ≡ key_form at (trimmed key.now) (sides_of (trimmed key.now)) (bare key.now) }
{
    let text = trim(key);
    let (left, right) = sides(text).ok_or(KeyFault::NoAt(at))?;
    if !good_sides(left, right) || has_blank(text) {
        return Err(KeyFault::Sides(at));
    }
    if address_part(key).is_empty() {
        return Err(KeyFault::NoBare(at));
    }
    Ok(())
}

/// Refuses the key that stands from one place up to another, with its first fault; what is wrong with all of it is said
/// at `at`.
pub fn check_key(bytes: &[u8], at: usize, from: usize, to: usize) -> Result<(), KeyFault>
    ensures { result_err result ≡ key_fault at from (take (to - from) (drop from bytes.now)) }
{
    check_text(bytes, from, to)?;
    check_form(between(bytes, from, to), at)
}

/// Whether `a` in small letters stands before `b` in small letters.
fn is_before_small(a: &[u8], b: &[u8]) -> bool
    ensures { result ≡ before (small a.now) (small b.now) }
{
    let small = a.iter().map(u8::to_ascii_lowercase);
    small.cmp(b.iter().map(u8::to_ascii_lowercase)).is_lt()
}

/// Whether the key `k` may follow the key `j`: by bare, and then by bytes.
pub fn rises(j: &[u8], k: &[u8]) -> bool
    ensures { result ≡ rising j.now k.now }
{
    is_before_small(address_part(j), address_part(k)) || (same_bare(j, k) && j < k)
}
