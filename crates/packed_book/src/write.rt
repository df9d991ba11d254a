// Writing any policy source out as a packed book. Each writer gives the place after its part and writes what fits, so
// that the same walk over an empty tray works out the length.
ghost use Rattle.std.specs.Prelude.{◌≡◌, ◌+◌, ◌<◌, ◌≤◌, List, length, is_some};
ghost use Rattle.std.specs.List.{slice_get, flat_map};
ghost use Rattle.std.specs.Option.{option_map};
ghost use Rattle.roll.specs.Packing.{pack_text, pack_texts};
ghost use Rattle.email_policy.specs.Lawful.{pack_entry, pack_book};
ghost use Rattle.email_policy.specs.Numbers.{weighed, reply_number, rank_number, mute_number};
ghost use Rattle.email_policy.specs.Packing.{some_text, pack_part, bit_map, pack_policy};
ghost use Rattle.email_policy.specs.Texts.{record_of, texts_of};
ghost use Rattle.packed_book.specs.Rows.{byte_row, list_row, Puts};
ghost use Rattle.packed_book.specs.Writing.{write_answer, write_tray};

use email_policy::{PolicySource, TextField, Whose, source_text, source_texts};
use roll::{write_byte, write_text, write_word};

/// The tray is shorter than the book, which needs so many bytes.
#[derive(Clone, Copy, PartialEq, Eq, Debug)]
pub struct TrayTooShort {
    pub needed: usize,
}

fn put_byte(tray: &mut [u8], at: usize, byte: Option<u8>) -> usize
    requires { at < 65536 }
    ensures end { result ≡ at + length (byte_row byte) }
    ensures tray { Puts tray.old at (byte_row byte) tray.new }
{
    match byte {
        Some(b) => {
            let _ = write_byte(tray, at, b);
            at + 1
        }
        None => at,
    }
}

fn put_text(tray: &mut [u8], at: usize, text: &[u8]) -> usize
    requires { at + (2 + length text.now) ≤ 65535 }
    ensures end { result ≡ at + length (pack_text text.now) }
    ensures tray { Puts tray.old at (pack_text text.now) tray.new }
{
    let _ = write_text(tray, at, text);
    at + (2 + text.len())
}

fn reply_byte<S: PolicySource>(source: &S, whose: Whose) -> Option<u8>
    ensures { result ≡ option_map reply_number (record_of (S.meaning source.now) whose).reply_to }
{
    match whose {
        Whose::Defaults => Some(u8::from(source.default_reply_to())),
        Whose::List(n) => source.reply_to(n).map(u8::from),
    }
}

fn rank_byte<S: PolicySource>(source: &S, whose: Whose) -> Option<u8>
    ensures { result ≡ option_map rank_number (record_of (S.meaning source.now) whose).positive_review }
{
    match whose {
        Whose::Defaults => Some(u8::from(source.default_positive_review())),
        Whose::List(n) => source.positive_review(n).map(u8::from),
    }
}

fn mute_byte<S: PolicySource>(source: &S, whose: Whose) -> Option<u8>
    ensures { result ≡ option_map mute_number (record_of (S.meaning source.now) whose).mute_all }
{
    match whose {
        Whose::Defaults => Some(u8::from(source.default_mute_all())),
        Whose::List(n) => source.mute_all(n).map(u8::from),
    }
}

/// How many texts a roll has.
fn text_count<S: PolicySource>(source: &S, whose: Whose, field: TextField) -> usize
    ensures value { result ≡ length (texts_of field (record_of (S.meaning source.now) whose)) }
    ensures few { result ≤ 32 }
{
    source_texts(source, whose, field).count()
}

fn put_texts<S: PolicySource>(
    source: &S,
    whose: Whose,
    field: TextField,
    tray: &mut [u8],
    at: usize,
) -> usize
    requires { at + length (pack_texts (texts_of field (record_of (S.meaning source.now) whose))) ≤ 65535 }
    ensures end { result ≡ at + length (pack_texts (texts_of field (record_of (S.meaning source.now) whose))) }
    ensures tray { Puts tray.old at (pack_texts (texts_of field (record_of (S.meaning source.now) whose))) tray.new }
{
    let mut end = at;
    for text in source_texts(source, whose, field) {
        end = put_text(tray, end, text);
    }
    end
}

/// Writes a roll, or nothing where it has no text.
fn put_roll<S: PolicySource>(
    source: &S,
    whose: Whose,
    field: TextField,
    tray: &mut [u8],
    at: usize,
) -> usize
    requires { at + length (pack_part (texts_of field (record_of (S.meaning source.now) whose))) ≤ 65535 }
    ensures end { result ≡ at + length (pack_part (texts_of field (record_of (S.meaning source.now) whose))) }
    ensures tray { Puts tray.old at (pack_part (texts_of field (record_of (S.meaning source.now) whose))) tray.new }
{
    let count = text_count(source, whose, field);
    if count == 0 {
        return at;
    }
    let _ = write_word(tray, at, count);
    put_texts(source, whose, field, tray, at + 2)
}

/// The bit of a field, where it is there.
fn bit(is_there: bool, weight: u8) -> u8
    ensures value { result ≡ weighed is_there weight }
    ensures bound { result ≤ weight }
{
    if is_there { weight } else { 0 }
}

fn has_text<S: PolicySource>(source: &S, whose: Whose, field: TextField) -> bool
    ensures { result ≡ some_text (texts_of field (record_of (S.meaning source.now) whose)) }
{
    source_text(source, whose, field, 0).is_some()
}

fn bit_map<S: PolicySource>(source: &S, whose: Whose) -> u8
    ensures { result ≡ bit_map (record_of (S.meaning source.now) whose) }
{
    let reply = bit(reply_byte(source, whose).is_some(), 1);
    let rank = bit(rank_byte(source, whose).is_some(), 2);
    let mute = bit(mute_byte(source, whose).is_some(), 4);
    let cc = bit(has_text(source, whose, TextField::Cc), 8);
    let ignored = bit(has_text(source, whose, TextField::IgnoredEmails), 16);
    reply + (rank + (mute + (cc + ignored)))
}

fn put_policy<S: PolicySource>(source: &S, whose: Whose, tray: &mut [u8], at: usize) -> usize
    requires { at + length (pack_policy (record_of (S.meaning source.now) whose)) ≤ 65535 }
    ensures end { result ≡ at + length (pack_policy (record_of (S.meaning source.now) whose)) }
    ensures tray { Puts tray.old at (pack_policy (record_of (S.meaning source.now) whose)) tray.new }
{
    let reply = put_byte(tray, at, Some(bit_map(source, whose)));
    let rank = put_byte(tray, reply, reply_byte(source, whose));
    let mute = put_byte(tray, rank, rank_byte(source, whose));
    let cc = put_byte(tray, mute, mute_byte(source, whose));
    let ignored = put_roll(source, whose, TextField::Cc, tray, cc);
    put_roll(source, whose, TextField::IgnoredEmails, tray, ignored)
}

/// Writes the key and the record of list `n`.
fn put_list<S: PolicySource>(source: &S, n: usize, tray: &mut [u8], at: usize) -> usize
    requires { at + length (list_row (slice_get (S.meaning source.now).lists n)) ≤ 65535 }
    ensures end { result ≡ at + length (list_row (slice_get (S.meaning source.now).lists n)) }
    ensures tray { Puts tray.old at (list_row (slice_get (S.meaning source.now).lists n)) tray.new }
{
    let Some(key) = source.key(n) else {
        return at;
    };
    let place = put_text(tray, at, key);
    put_policy(source, Whose::List(n), tray, place)
}

fn put_lists<S: PolicySource>(source: &S, tray: &mut [u8], at: usize) -> usize
    requires { at + length (flat_map pack_entry (S.meaning source.now).lists) ≤ 65535 }
    ensures end { result ≡ at + length (flat_map pack_entry (S.meaning source.now).lists) }
    ensures tray { Puts tray.old at (flat_map pack_entry (S.meaning source.now).lists) tray.new }
{
    let mut end = at;
    // by number: a source tells everything of a list by its number
    for n in 0..source.len() {
        end = put_list(source, n, tray, end);
    }
    end
}

/// Writes the book where it fits, and gives its length in any case.
fn put_book<S: PolicySource>(source: &S, tray: &mut [u8]) -> usize
    ensures end { result ≡ length (pack_book (S.meaning source.now)) }
    ensures tray { Puts tray.old 0 (pack_book (S.meaning source.now)) tray.new }
{
    let place = put_policy(source, Whose::Defaults, tray, 0);
    let _ = write_word(tray, place, source.len());
    put_lists(source, tray, place + 2)
}

/// Writes the packed book of a source at the front of the tray, and gives its length.
pub fn write_book<S: PolicySource>(source: &S, tray: &mut [u8]) -> Result<usize, TrayTooShort>
    ensures answer { result ≡ write_answer (pack_book (S.meaning source.now)) tray.old }
    ensures tray { tray.new ≡ write_tray (pack_book (S.meaning source.now)) tray.old }
{
    let needed = put_book(source, &mut []);
    if tray.len() < needed {
        return Err(TrayTooShort { needed });
    }
    let end = put_book(source, tray);
    Ok(end)
}
