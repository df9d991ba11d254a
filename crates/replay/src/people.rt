// Who is mailed, in lines for people. A text is printed as the bytes it is.
ghost use Rattle.std.specs.Prelude.{◌≡◌, ◌+◌, ◌<◌, ◌≤◌, ◌++◌, length, IfOk, OnOk};
ghost use Rattle.roll.specs.Packing.{pack_texts};
ghost use Rattle.roll.specs.Reading.{texts_from, texts_at};
ghost use Rattle.email_policy.specs.Packing.{pack_part};
ghost use Rattle.email_policy.specs.Numbers.{has_bit, rank_of};
ghost use Rattle.email_policy.specs.Reading.{part_at};
ghost use Rattle.email_router.specs.Opened.{opened, opened_map};
ghost use Rattle.audience.specs.Answers.{mute};
ghost use Rattle.replay.specs.People.{text_line, roll_lines, recipient_lines, rank_line, opened_recipients, answer_lines, HasRoom};

use grants::Pass;
use roll::{read_text, read_word};
use std::alloc::AllocError;

fn push_text(lines: &mut Vec<u8>, word: &[u8], text: &[u8]) -> Result<(), AllocError>
    ensures { OnOk result (lines.new.items ≡ lines.old.items ++ text_line word.now text.now) }
{
    lines.extend_from_slice(word)?;
    lines.extend_from_slice(text)?;
    lines.push(b'\n')?;
    Ok(())
}

// A line for each text from here on, at most so many, and how many bytes were read.
fn push_texts(
    lines: &mut Vec<u8>,
    word: &[u8],
    count: usize,
    bytes: &[u8],
) -> Result<usize, AllocError>
    ensures lines { OnOk result (lines.new.items ≡ lines.old.items ++ roll_lines word.now (texts_from count bytes.now)) }
    ensures size { IfOk result (λ n. n ≡ length (pack_texts (texts_from count bytes.now))) }
    ensures bound { IfOk result (λ n. n ≤ length bytes.now) }
{
    let mut size = 0;
    let mut rest = bytes;
    for _ in 0..count {
        let Some((text, more)) = read_text(rest) else {
            return Ok(size);
        };
        push_text(lines, word, text)?;
        size += 2 + text.len();
        rest = more;
    }
    Ok(size)
}

// A line for each text of the roll at a place, where it stands there, and the place after it. An empty roll has no bytes.
fn push_roll(
    lines: &mut Vec<u8>,
    word: &[u8],
    stands: bool,
    bytes: &[u8],
    at: usize,
) -> Result<usize, AllocError>
    ensures lines { OnOk result (lines.new.items ≡ lines.old.items ++ roll_lines word.now (part_at stands bytes.now at)) }
    ensures end { IfOk result (λ end. end ≡ at + length (pack_part (part_at stands bytes.now at))) }
{
    if !stands {
        return Ok(at);
    }
    let Some(count) = read_word(bytes, at) else {
        return Ok(at);
    };
    let size = push_texts(lines, word, count, &bytes[at + 2..])?;
    Ok(if size == 0 { at } else { at + 2 + size })
}

fn has_bit(map: u8, weight: u8) -> bool
    requires { 0 < weight }
    ensures { result ≡ has_bit map weight }
{
    map / weight % 2 == 1
}

fn rank_line(rank: u8) -> &'static [u8]
    ensures { result.now ≡ rank_line (rank_of rank) }
{
    match rank {
        0 => b"  rank none\n",
        1 => b"  rank author\n",
        _ => b"  rank all\n",
    }
}

// The bit map of the answer at the front of a tray.
fn opened_map(tray: &[u8]) -> u8
    ensures { result ≡ opened_map tray.now }
{
    tray.first().copied().unwrap_or(0)
}

fn nobody_line(pass: Pass) -> &'static [u8]
    ensures { result.now ≡ answer_lines pass mute }
{
    match pass {
        Pass::First => b"  mute\n",
        Pass::Positive => b"  nothing\n",
    }
}

// The lines of To and of Cc, where the bit map is this.
fn push_recipients(lines: &mut Vec<u8>, map: u8, tray: &[u8]) -> Result<(), AllocError>
    requires { map ≡ opened_map tray.now }
    ensures { OnOk result (lines.new.items ≡ lines.old.items ++ recipient_lines (opened_recipients tray.now)) }
{
    let cc = push_roll(lines, b"  to ", has_bit(map, 2), tray, 1)?;
    push_roll(lines, b"  cc ", has_bit(map, 4), tray, cc)?;
    Ok(())
}

/// Room for the lines of an answer of so many bytes: a text's line has four bytes more than the text and its length have there, and these are two at least.
pub fn people_room(size: usize) -> usize
    ensures { HasRoom size result }
{
    size.saturating_mul(3).saturating_add(14)
}

/// The lines of the answer at the front of a tray.
#[tactic(auto, using(crate::proofs::TextLines::opened_send, crate::proofs::TextLines::opened_mute))]
pub fn push_people(lines: &mut Vec<u8>, pass: Pass, tray: &[u8]) -> Result<(), AllocError>
    ensures { OnOk result (lines.new.items ≡ lines.old.items ++ answer_lines pass (opened tray.now)) }
{
    let map = opened_map(tray);
    if !has_bit(map, 1) {
        lines.extend_from_slice(nobody_line(pass))?;
        return Ok(());
    }
    push_recipients(lines, map, tray)?;
    if let Pass::First = pass {
        lines.extend_from_slice(rank_line(map / 8))?;
    }
    Ok(())
}
