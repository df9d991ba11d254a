// What is asked of one candidate.
ghost use Rattle.std.specs.Prelude.{◌≡◌, map};
ghost use Rattle.address.specs.Address.{same_bare};
ghost use Rattle.audience.specs.Mail.{mailable};
ghost use Rattle.keep_first.specs.Keep.{some};
ghost use Rattle.mail.specs.Letters.{letter};
ghost use Rattle.mail.specs.Marks.{marked};
ghost use Rattle.mail.specs.Parts.{text_in};
ghost use Rattle.recipients.specs.Policies.{keys_in, granted_in};
ghost use Rattle.recipients.specs.Choices.{qualifies_by};

use crate::domains::is_list_address;
use crate::policies::Policies;
use address::contains_small;
use mail::{Mail, Mailbox};

/// Whether one of the marked mailboxes has the same bare.
pub(crate) fn has_marked(mailboxes: &[Mailbox<'_>], marks: &[bool], mailbox: &Mailbox<'_>) -> bool
    ensures { result ≡ some (same_bare mailbox.now.text.now) (marked marks.now (map text_in mailboxes.now)) }
{
    mailboxes.iter().zip(marks).any(|(other, is_marked)| *is_marked && mailbox.same_bare(other))
}

impl Policies<'_, '_, '_, '_> {
    /// Whether a mailbox has an address and is free of the bot.
    pub(crate) fn is_mailable(&self, mail: &Mail<'_, '_>, mailbox: &Mailbox<'_>) -> bool
        ensures { result ≡ mailable (letter mail.now) mailbox.now.text.now }
    {
        if mailbox.is_nobody() {
            return false;
        }
        let bot = mail.bot;
        if bot.is_nobody() {
            return true;
        }
        !contains_small(mailbox.text(), bot.part())
    }

    /// Whether an address of the mail qualifies, once it is known whether individuals do.
    pub(crate) fn qualifies(
        &self,
        mail: &Mail<'_, '_>,
        individuals: bool,
        mailbox: &Mailbox<'_>,
    ) -> bool
        ensures { result ≡ qualifies_by (keys_in self.now) (letter mail.now) (granted_in self.now) individuals mailbox.now.text.now }
    {
        if !is_list_address(&self.keys, mailbox) {
            return individuals;
        }
        self.grant.every_list || has_marked(self.keys.entries, self.grant.lists, mailbox)
    }
}
