// Tables of a fixed capacity, which are filled from the front.
ghost use Rattle.std.specs.Prelude.{◌≡◌, [], ◌∷◌, map};
ghost use Rattle.mail.specs.Parts.{text_in};
ghost use Rattle.mail.specs.Tables.{filled};

use crate::mailbox::Mailbox;
use arrayvec::ArrayVec;

/// Writes an item behind those of a table, where there is room.
pub fn push_within<T: Drop, const N: usize>(table: &mut ArrayVec<T, N>, item: T)
    ensures { table.new.items ≡ filled N table.old.items (item ∷ []) }
{
    let _ = table.try_push(item);
}

/// The same of the mailbox of a text.
pub fn push_text<'a, const N: usize>(table: &mut ArrayVec<Mailbox<'a>, N>, text: &'a [u8])
    ensures { map text_in table.new.items ≡ filled N (map text_in table.old.items) (text.now ∷ []) }
{
    // where there is no room, no address is looked for
    if table.is_full() {
        return;
    }
    push_within(table, Mailbox::new(text));
}
