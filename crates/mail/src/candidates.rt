// The roll of candidates.
ghost use Rattle.std.specs.Prelude.{◌≡◌};
ghost use Rattle.mail.specs.Rolls.{text_at, roll_texts, classes_of, preferred_of, alike_by_bare};

use crate::candidate_roll::Candidates;
use crate::letter::Mail;
use crate::list::Mailboxes;
use crate::lookup::candidate;
use crate::mailbox::Mailbox;
use keep_first::Roll;

impl<'t> Candidates<'t> {
    /// The mailbox at place `i` of the roll, that of the empty text past the last one.
    fn mailbox<'a>(&self, mail: &Mail<'_, 'a>, added: &Mailboxes<'_, 'a>, i: usize) -> Mailbox<'a>
        ensures { result.text.now ≡ text_at (roll_texts self.now mail.now added.now) i }
    {
        if i >= self.takes.len() {
            return Mailbox::default();
        }
        candidate(mail, added, self.start + i)
    }

    /// The text at place `i` of the roll, empty past the last one.
    pub fn text<'a>(&self, mail: &Mail<'_, 'a>, added: &Mailboxes<'_, 'a>, i: usize) -> &'a [u8]
        ensures { result.now ≡ text_at (roll_texts self.now mail.now added.now) i }
    {
        self.mailbox(mail, added, i).text()
    }
}

impl<'t, 'u, 'm, 'v, 's> Roll<Mail<'u, 'm>, Mailboxes<'v, 's>> for Candidates<'t> {
    ghost classes = { λ x t s. classes_of (roll_texts x t s) x.takes.now };

    ghost preferred = { λ x t s. preferred_of (roll_texts x t s) };

    ghost alike = { λ x t s. alike_by_bare (roll_texts x t s) x.takes.now };

    fn len(&self, texts: &Mail<'u, 'm>, source: &Mailboxes<'v, 's>) -> usize {
        self.takes.len()
    }

    fn takes_part(&self, texts: &Mail<'u, 'm>, source: &Mailboxes<'v, 's>, i: usize) -> bool {
        self.takes.get(i).copied().unwrap_or(false)
    }

    fn is_same(
        &self,
        texts: &Mail<'u, 'm>,
        source: &Mailboxes<'v, 's>,
        i: usize,
        j: usize,
    ) -> bool {
        let part = self.mailbox(&*texts, &*source, i).part();
        self.mailbox(&*texts, &*source, j).is_at(part)
    }

    fn is_preferred(&self, texts: &Mail<'u, 'm>, source: &Mailboxes<'v, 's>, i: usize) -> bool {
        self.text(&*texts, &*source, i).contains(&b'<')
    }
}
