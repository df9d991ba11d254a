// Reading the people of a mail.
ghost use Rattle.std.specs.Prelude.{◌≡◌, ◌≤◌, ◌∷◌, ◌++◌, map, length};
ghost use Rattle.roll.specs.Views.{viewed};
ghost use Rattle.mail.specs.Parts.{text_in};
ghost use Rattle.mail.specs.Tables.{filled};

use crate::mailbox::Mailbox;
use crate::table::push_text;
use arrayvec::ArrayVec;
use roll::Roll;

/// The author, and 512 addresses each of To and Cc.
pub const MOST_PEOPLE: usize = 1025;

/// The author and the texts of both rolls.
pub fn read_people<'m>(
    author: &'m [u8],
    to: &Roll<'m>,
    cc: &Roll<'m>,
) -> ArrayVec<Mailbox<'m>, MOST_PEOPLE>
    ensures { map text_in result.items ≡ author.now ∷ (viewed to.now ++ viewed cc.now) }
{
    let mut people = ArrayVec::new();
    push_text(&mut people, author);
    push_roll(&mut people, to);
    push_roll(&mut people, cc);
    people
}

/// Writes the texts of a roll behind those of a table, as far as there is room.
fn push_roll<'m, const N: usize>(table: &mut ArrayVec<Mailbox<'m>, N>, roll: &Roll<'m>)
    ensures texts { map text_in table.new.items ≡ filled N (map text_in table.old.items) (viewed roll.now) }
    ensures few { length (viewed roll.now) ≤ 512 }
{
    // by number: an iterator's laws would say what `len` and `text` promise once more
    for i in 0..roll.len() {
        if let Some(text) = roll.text(i) {
            push_text(table, text);
        }
    }
}
