// Who takes part in To and in Cc.
ghost use Rattle.std.specs.Prelude.{◌≡◌, not, ◌&&◌, ◌∷◌};
ghost use Rattle.address.specs.Address.{same_bare};
ghost use Rattle.audience.specs.Mail.{mailable};
ghost use Rattle.keep_first.specs.Keep.{some};
ghost use Rattle.mail.specs.Letters.{letter};
ghost use Rattle.mail.specs.Marks.{marked};
ghost use Rattle.recipients.specs.Policies.{keys_in, granted_in};
ghost use Rattle.recipients.specs.Choices.{qualifies_by, apart, to_marks, cc_marks};

use crate::candidate::has_marked;
use crate::policies::Policies;
use arrayvec::ArrayVec;
use mail::{Mail, Mailbox, push_within};

/// The author, and 512 addresses in To.
pub const MOST_TO: usize = 513;

/// 512 addresses in Cc, and the texts that policies add.
pub const MOST_CC: usize = 8736;

impl Policies<'_, '_, '_, '_> {
    /// Whether the author takes part.
    fn mails_author(&self, mail: &Mail<'_, '_>) -> bool
        ensures { result ≡ ((granted_in self.now).author && mailable (letter mail.now) (letter mail.now).author) }
    {
        let author = mail.people[0];
        self.grant.author && self.is_mailable(mail, &author)
    }

    /// Whether an address of To takes part.
    fn takes_part_in_to(
        &self,
        mail: &Mail<'_, '_>,
        individuals: bool,
        mailbox: &Mailbox<'_>,
    ) -> bool
        ensures { result ≡ (qualifies_by (keys_in self.now) (letter mail.now) (granted_in self.now) individuals mailbox.now.text.now && mailable (letter mail.now) mailbox.now.text.now) }
    {
        // `qualifies` goes through every key, so it is asked last
        self.is_mailable(mail, mailbox) && self.qualifies(mail, individuals, mailbox)
    }

    /// A mark for the author and for each address of To: whether it takes part.
    pub fn mark_to(&self, mail: &Mail<'_, '_>, individuals: bool) -> ArrayVec<bool, MOST_TO>
        ensures { result.items ≡ to_marks (keys_in self.now) (letter mail.now) (granted_in self.now) individuals }
    {
        let mut marks = ArrayVec::new();
        push_within(&mut marks, self.mails_author(mail));
        for mailbox in &mail.people[1..=mail.to] {
            let in_to = self.takes_part_in_to(mail, individuals, mailbox);
            push_within(&mut marks, in_to);
        }
        marks
    }

    /// Whether an address is one of those that take part in To.
    fn is_taken(&self, mail: &Mail<'_, '_>, to: &[bool], mailbox: &Mailbox<'_>) -> bool
        ensures { result ≡ some (same_bare mailbox.now.text.now) (marked to.now ((letter mail.now).author ∷ (letter mail.now).to)) }
    {
        has_marked(&mail.people[..=mail.to], to, mailbox)
    }

    /// Whether a mailbox may be mailed and is not one of those that take part in To.
    fn is_apart(&self, mail: &Mail<'_, '_>, to: &[bool], mailbox: &Mailbox<'_>) -> bool
        ensures { result ≡ (mailable (letter mail.now) mailbox.now.text.now && not (some (same_bare mailbox.now.text.now) (marked to.now ((letter mail.now).author ∷ (letter mail.now).to)))) }
    {
        self.is_mailable(mail, mailbox) && !self.is_taken(mail, to, mailbox)
    }

    /// Whether an address of Cc takes part.
    fn takes_part_in_cc(
        &self,
        mail: &Mail<'_, '_>,
        individuals: bool,
        to: &[bool],
        mailbox: &Mailbox<'_>,
    ) -> bool
        ensures { result ≡ (qualifies_by (keys_in self.now) (letter mail.now) (granted_in self.now) individuals mailbox.now.text.now && apart (keys_in self.now) (letter mail.now) (granted_in self.now) individuals (marked to.now ((letter mail.now).author ∷ (letter mail.now).to)) mailbox.now.text.now) }
    {
        self.qualifies(mail, individuals, mailbox) && self.is_apart(mail, to, mailbox)
    }

    /// A mark for each address of Cc and each cc text: whether it takes part. The marks of To say who is mailed there.
    pub fn mark_cc(
        &self,
        mail: &Mail<'_, '_>,
        individuals: bool,
        to: &[bool],
    ) -> ArrayVec<bool, MOST_CC>
        ensures { result.items ≡ cc_marks (keys_in self.now) (letter mail.now) (granted_in self.now) individuals (marked to.now ((letter mail.now).author ∷ (letter mail.now).to)) }
    {
        let mut marks = ArrayVec::new();
        for mailbox in &mail.people[1 + mail.to..] {
            let in_cc = self.takes_part_in_cc(mail, individuals, to, mailbox);
            push_within(&mut marks, in_cc);
        }
        for mailbox in self.grant.cc.entries {
            push_within(&mut marks, self.is_apart(mail, to, mailbox));
        }
        marks
    }
}
