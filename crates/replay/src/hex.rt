// Bytes as lower-case hex, with `-` for no bytes.
ghost use Rattle.std.specs.Prelude.{◌≡◌, ◌-◌, ◌^◌, ◌<◌, ◌≤◌, min, length, IfSome, IfOk, IsAscii, Some, vec_items};
ghost use Rattle.std.specs.Option.{option_map};
ghost use Rattle.std.specs.List.{flat_map};
ghost use Rattle.replay.specs.Hex.{digit as digit_of, digits, digit_value, byte_of, bytes_of, unhex as unhexed, hex, HexReadsBack};

use arrayvec::ArrayVec;
use std::alloc::{AllocError, Global};
use std::{fmt, str};

fn digit(n: u8) -> u8
    requires { n < 16 }
    ensures value { result ≡ digit_of n }
    ensures ascii { result < 128 }
{
    if n < 10 { b'0' + n } else { b'a' - 10 + n }
}

// The digits of a few bytes, which fit the stack.
fn digits_of(bytes: &[u8]) -> ArrayVec<u8, 64>
    requires { length bytes.now ≤ 32 }
    ensures value { result.items ≡ flat_map digits bytes.now }
    ensures ascii { IsAscii result.items }
{
    let mut digits = ArrayVec::new();
    for b in bytes {
        digits.push(digit(*b / 16));
        digits.push(digit(*b % 16));
    }
    digits
}

/// Bytes that print in hex.
#[derive(Clone, Copy)]
pub struct Hex<'a>(pub &'a [u8]);

impl fmt::Display for Hex<'_> {
    ghost output = { λ h. Some (hex h.0.now) };

    fn fmt<W: fmt::Write>(&self, f: &mut fmt::Formatter<W>) -> fmt::Result {
        if self.0.is_empty() {
            return write!(f, "-");
        }
        // many digits to a write: one write for each byte takes seven times as long
        for bytes in self.0.chunks(32) {
            let digits = digits_of(bytes);
            let Ok(text) = str::from_utf8(digits.as_slice()) else {
                unreachable!();
            };
            f.write_str(text)?;
        }
        Ok(())
    }
}

/// How many bytes are printed in hex, for the room of a line.
pub fn hex_len(bytes: &[u8]) -> usize
    ensures { result ≡ min (length (hex bytes.now)) (2 ^ 64 - 1) }
{
    bytes.len().saturating_mul(2).max(1)
}

fn value(c: u8) -> Option<u8>
    ensures value { result ≡ digit_value c }
    ensures bound { IfSome result (λ n. n < 16) }
{
    match c {
        b'0'..=b'9' => Some(c - b'0'),
        b'a'..=b'f' => Some(c - b'a' + 10),
        _ => None,
    }
}

/// The byte of two digits.
pub fn pair(high: u8, low: u8) -> Option<u8>
    ensures { result ≡ byte_of (digit_value high) (digit_value low) }
{
    let h = value(high)?;
    let l = value(low)?;
    Some(h * 16 + l)
}

fn read_digits(heap: Global, text: &[u8]) -> Result<Option<Vec<u8>>, AllocError>
    ensures { IfOk result (λ o. option_map vec_items o ≡ bytes_of text.now) }
{
    let mut bytes = Vec::new(heap);
    let mut rest = text;
    while let [high, low, more @ ..] = rest {
        let Some(b) = pair(*high, *low) else {
            return Ok(None);
        };
        bytes.push(b)?;
        rest = more;
    }
    Ok(rest.is_empty().then_some(bytes))
}

/// The bytes of an argument, if it is hex or `-`.
pub fn unhex(heap: Global, text: &[u8]) -> Result<Option<Vec<u8>>, AllocError>
    ensures { IfOk result (λ o. option_map vec_items o ≡ unhexed text.now) }
{
    match text {
        [] => Ok(None),
        [b'-'] => Ok(Some(Vec::new(heap))),
        _ => read_digits(heap, text),
    }
}

/// What is printed can be read again.
pub fn hex_reads_back()
    ensures { HexReadsBack }
{}
