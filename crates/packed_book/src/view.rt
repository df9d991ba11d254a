// Opening books, and their lists by number.
ghost use Rattle.std.specs.Prelude.{◌≡◌, ◌<◌, ◌≤◌, true, [], ◌∷◌, length, IfSome, Some, None, MatchResult, ◌+◌, ◌^◌};
ghost use Rattle.std.specs.List.{slice_get};
ghost use Rattle.std.specs.Option as options;
ghost use Rattle.roll.specs.Ends.{word_at};
ghost use Rattle.packed_book.specs.Ends.{whole_book};
ghost use Rattle.packed_book.specs.Reading.{policy_place, next_place, count_place, entry_at, read_book};
ghost use Rattle.packed_book.specs.Views.{accepts, Places};

use crate::book::PackedBook;
use crate::check::check_book;
use crate::fault::OpenFault;
use arrayvec::ArrayVec;
use email_policy::record_end;
use roll::word_at;

/// Where the record of the list at a place begins.
pub(crate) fn policy_place(bytes: &[u8], at: usize) -> usize
    requires { at < 65536 }
    ensures { result ≡ policy_place bytes.now at }
{
    at + (2 + word_at(bytes, at))
}

/// Where the list after the one at a place begins.
fn next_place(bytes: &[u8], at: usize) -> usize
    requires { at < 65536 }
    ensures value { result ≡ next_place bytes.now at }
    ensures bound { at ≤ length bytes.now → result ≤ length bytes.now }
{
    record_end(bytes, policy_place(bytes, at), false).unwrap_or(at)
}

/// Where each of the lists begins, the first at a place.
fn places(bytes: &[u8], count: usize, at: usize) -> ArrayVec<u16, 256>
    requires small { length bytes.now ≤ 65535 }
    requires there { at ≤ length bytes.now }
    requires few { count ≤ 256 }
    ensures counted { length result.items ≡ count }
    ensures places { Places bytes.now at result.items }
{
    let mut starts = ArrayVec::new();
    let mut here = at;
    for _ in 0..count {
        let _ = starts.try_push(here as u16);
        here = next_place(bytes, here);
    }
    starts
}

/// Where the defaults end, and the number of lists stands.
fn defaults_end(bytes: &[u8]) -> usize
    ensures value { result ≡ count_place bytes.now }
    ensures bound { result ≤ length bytes.now }
{
    record_end(bytes, 0, true).unwrap_or(0)
}

/// The book before any other is opened: its defaults reply to nobody, rank none and mute nothing, and it has no lists.
pub fn first_hour<'a>() -> PackedBook<'a>
    ensures { result.bytes.now ≡ 7 ∷ 0 ∷ 0 ∷ 0 ∷ 0 ∷ 0 ∷ [] }
{
    PackedBook::index(&[7, 0, 0, 0, 0, 0])
}

impl<'a> PackedBook<'a> {
    /// An accepted book with the table of its lists.
    fn index(bytes: &'a [u8]) -> PackedBook<'a>
        requires { accepts bytes.now ≡ true }
        ensures { result.bytes.now ≡ bytes.now }
    {
        let place = defaults_end(bytes);
        let count = word_at(bytes, place);
        let starts = places(bytes, count, place + 2);
        PackedBook { bytes, starts }
    }

    /// Opens another book, if it is accepted. A refusal leaves the book that was open.
    pub fn open(&mut self, bytes: &'a [u8]) -> Result<(), OpenFault>
        ensures answer { result ≡ whole_book bytes.now }
        ensures view { MatchResult result (λ _. self.new.bytes.now ≡ bytes.now) (λ _. self.new ≡ self.old) }
    {
        check_book(bytes)?;
        *self = PackedBook::index(bytes);
        Ok(())
    }

    /// Where list `n` begins.
    pub(crate) fn entry(&self, n: usize) -> Option<usize>
        ensures small { IfSome result (λ at. at < 65536) }
        ensures list { options.MatchOption result (slice_get (read_book self.now.bytes.now).lists n ≡ None) (λ at. slice_get (read_book self.now.bytes.now).lists n ≡ Some (entry_at self.now.bytes.now at)) }
    {
        let at = *self.starts.get(n)?;
        Some(usize::from(at))
    }
}
