// Mailboxes by their addresses and by their numbers.
ghost use Rattle.std.specs.Prelude.{◌≡◌};
ghost use Rattle.address.specs.Address.{address_part};
ghost use Rattle.keep_first.specs.Keep.{some};
ghost use Rattle.mail.specs.Letters.{candidates, texts};
ghost use Rattle.mail.specs.Addresses.{same_part};
ghost use Rattle.mail.specs.Rolls.{text_at};

use crate::letter::Mail;
use crate::list::Mailboxes;
use crate::mailbox::Mailbox;

impl<'t, 'a> Mailboxes<'t, 'a> {
    /// Whether one of the mailboxes has this address.
    pub fn has(&self, part: &[u8]) -> bool
        ensures { result ≡ some (λ t. same_part part.now (address_part t)) (texts self.now) }
    {
        self.entries.iter().any(|mailbox| mailbox.is_at(part))
    }
}

/// Candidate `k`, the empty text past the last one.
pub(crate) fn candidate<'a>(mail: &Mail<'_, 'a>, added: &Mailboxes<'_, 'a>, k: usize) -> Mailbox<'a>
    ensures { result.text.now ≡ text_at (candidates mail.now added.now) k }
{
    let first = mail.people.len();
    if k < first {
        return mail.people[k];
    }
    added.entries.get(k - first).copied().unwrap_or_default()
}
