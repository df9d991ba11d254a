// Writing into a lent tray. A call that refuses leaves the tray as it was.
ghost use Rattle.std.specs.Prelude.{◌≡◌, ◌+◌, ◌<◌, ◌≤◌, true, [], ◌∷◌, map, length, nat_lt};
ghost use Rattle.roll.specs.Packing.{word, pack_text};
ghost use Rattle.roll.specs.Sizes.{roll_size, write_size, rolled};
ghost use Rattle.roll.specs.Written.{written, put, put_end};

use crate::ends::is_there;

/// Why texts are not written as a roll.
#[derive(Clone, Copy, PartialEq, Eq, Debug)]
pub enum WriteFault {
    /// There are so many texts, more than two bytes can count.
    Count(usize),
    /// The text of this number is longer than two bytes can say.
    Length(usize),
    /// The tray is too short: so many bytes are needed.
    Tray(usize),
}

/// One more than the largest number that two bytes hold.
const WORDS: usize = 65536;

fn put_word(tray: &mut [u8], at: usize, n: usize)
    requires room { at + 2 ≤ length tray.old }
    requires small { n < 65536 }
    ensures { tray.new ≡ written tray.old at (word n) }
{
    tray[at..at + 2].copy_from_slice(&(n as u16).to_be_bytes());
}

fn put_text(tray: &mut [u8], at: usize, text: &[u8]) -> usize
    requires room { at + (2 + length text.now) ≤ length tray.old }
    requires small { length text.now < 65536 }
    ensures end { result ≡ at + (2 + length text.now) }
    ensures tray { tray.new ≡ written tray.old at (pack_text text.now) }
{
    put_word(tray, at, text.len());
    let end = at + 2 + text.len();
    tray[at + 2..end].copy_from_slice(text);
    end
}

/// Writes a byte, and gives the place after it.
pub fn write_byte(tray: &mut [u8], at: usize, byte: u8) -> Option<usize>
    ensures end { result ≡ put_end true tray.old at (byte ∷ []) }
    ensures tray { tray.new ≡ put true tray.old at (byte ∷ []) }
{
    if at >= tray.len() {
        return None;
    }
    tray[at] = byte;
    Some(at + 1)
}

/// Writes a number in two bytes, the high one first, and gives the place after them.
pub fn write_word(tray: &mut [u8], at: usize, n: usize) -> Option<usize>
    ensures end { result ≡ put_end (nat_lt n 65536) tray.old at (word n) }
    ensures tray { tray.new ≡ put (nat_lt n 65536) tray.old at (word n) }
{
    if n >= WORDS || !is_there(tray, at, 2) {
        return None;
    }
    put_word(tray, at, n);
    Some(at + 2)
}

/// Writes a text with its length before it, and gives the place after it.
pub fn write_text(tray: &mut [u8], at: usize, text: &[u8]) -> Option<usize>
    ensures end { result ≡ put_end (nat_lt (length text.now) 65536) tray.old at (pack_text text.now) }
    ensures tray { tray.new ≡ put (nat_lt (length text.now) 65536) tray.old at (pack_text text.now) }
{
    if text.len() >= WORDS || !is_there(tray, at, 2 + text.len()) {
        return None;
    }
    Some(put_text(tray, at, text))
}

/// How many bytes these texts take as a roll.
fn roll_len(texts: &[&[u8]]) -> Result<usize, WriteFault>
    ensures { result ≡ roll_size (map (λ x. x.now) texts.now) }
{
    if texts.len() >= WORDS {
        return Err(WriteFault::Count(texts.len()));
    }
    let mut len = 2;
    for (i, text) in texts.iter().enumerate() {
        if text.len() >= WORDS {
            return Err(WriteFault::Length(i));
        }
        len += 2 + text.len();
    }
    Ok(len)
}

/// Writes texts as a roll at the front of the tray, and gives its length.
pub fn write_roll(texts: &[&[u8]], tray: &mut [u8]) -> Result<usize, WriteFault>
    ensures end { result ≡ write_size (map (λ x. x.now) texts.now) tray.old }
    ensures tray { tray.new ≡ rolled result (map (λ x. x.now) texts.now) tray.old }
{
    let len = roll_len(texts)?;
    if tray.len() < len {
        return Err(WriteFault::Tray(len));
    }
    put_word(tray, 0, texts.len());
    let mut end = 2;
    for text in texts {
        end = put_text(tray, end, text);
    }
    Ok(len)
}
