// A packed book with a table of where its lists begin.
ghost use Rattle.std.specs.Prelude.{◌≡◌, ◌≤◌, true, length};
ghost use Rattle.roll.specs.Laws.{Bytes};
ghost use Rattle.packed_book.specs.Views.{accepts, list_count, Indexes};

use arrayvec::ArrayVec;

/// An accepted book whose lists are found in constant time.
#[derive(Drop)]
pub struct PackedBook<'a> {
    pub(crate) bytes: &'a [u8],
    // two bytes say every place in a book
    pub(crate) starts: ArrayVec<u16, 256>,
    ghost octets: { Bytes bytes.now },
    ghost accepted: { accepts bytes.now ≡ true },
    ghost counted: { length starts.items ≡ list_count bytes.now },
    ghost few: { length starts.items ≤ 256 },
    ghost indexed: { Indexes bytes.now starts.items },
}
