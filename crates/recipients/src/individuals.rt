// Individuals: how many there are.
ghost use Rattle.std.specs.Prelude.{◌≡◌, ◌&&◌, map, length};
ghost use Rattle.audience.specs.Due.{counts, individuals, few};
ghost use Rattle.audience.specs.Mail.{incoming};
ghost use Rattle.mail.specs.Letters.{letter};
ghost use Rattle.recipients.specs.Policies.{keys_in, granted_in};
ghost use Rattle.recipients.specs.Choices.{listed_by};

use crate::domains::is_list_address;
use crate::policies::Policies;
use arrayvec::ArrayVec;
use keep_first::{Roll, count};
use mail::{Candidates, Mail, Mailbox, push_within};

/// At most so many individuals are mailed; where there are more, none is.
const MAX_RELAYED_RECIPIENTS: usize = 128;

/// 512 addresses each in To and Cc.
const MOST_INCOMING: usize = 1024;

impl Policies<'_, '_, '_, '_> {
    /// Whether an incoming address is an individual's that is counted: not the bot's, and none that is mailed anyhow.
    fn is_counted(&self, mail: &Mail<'_, '_>, mailbox: &Mailbox<'_>) -> bool
        ensures { result ≡ counts (listed_by (keys_in self.now)) (letter mail.now) (granted_in self.now) mailbox.now.text.now }
    {
        if mailbox.is_nobody() {
            return false;
        }
        if mail.bot.same_bare(mailbox) {
            return false;
        }
        if self.grant.author && mail.people[0].same_bare(mailbox) {
            return false;
        }
        if is_list_address(&self.keys, mailbox) {
            return false;
        }
        !self.grant.cc.has(mailbox.part())
    }

    /// A mark for each incoming address: whether it is counted.
    fn mark_counted(&self, mail: &Mail<'_, '_>) -> ArrayVec<bool, MOST_INCOMING>
        ensures { result.items ≡ map (counts (listed_by (keys_in self.now)) (letter mail.now) (granted_in self.now)) (incoming (letter mail.now)) }
    {
        let mut marks = ArrayVec::new();
        for mailbox in &mail.people[1..] {
            push_within(&mut marks, self.is_counted(mail, mailbox));
        }
        marks
    }

    /// How many individuals are counted, each once.
    fn count_individuals(&self, mail: &Mail<'_, '_>) -> usize
        ensures { result ≡ length (individuals (listed_by (keys_in self.now)) (letter mail.now) (granted_in self.now)) }
    {
        let marks = self.mark_counted(mail);
        let roll = Candidates {
            start: 1,
            takes: marks.as_slice(),
        };
        count(&roll, mail, &self.grant.cc)
    }

    /// Whether individuals are mailed: they are granted a reply, and few.
    pub fn grants_individuals(&self, mail: &Mail<'_, '_>) -> bool
        ensures { result ≡ ((granted_in self.now).recipients && few (listed_by (keys_in self.now)) (letter mail.now) (granted_in self.now)) }
    {
        self.grant.recipients && self.count_individuals(mail) <= MAX_RELAYED_RECIPIENTS
    }
}
