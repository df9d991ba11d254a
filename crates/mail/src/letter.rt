// A mail, as far as the choice of recipients looks at it.
ghost use Rattle.std.specs.Prelude.{◌+◌, ◌<◌, ◌≤◌, length};
ghost use Rattle.mail.specs.Parts.{Short};

use crate::mailbox::Mailbox;

/// The author of the patch, the addresses of To and those of Cc, in this order, and the robot that mails the review.
#[derive(Clone, Copy)]
pub struct Mail<'t, 'm> {
    pub people: &'t [Mailbox<'m>],
    /// How many of the people are To's.
    pub to: usize,
    pub bot: Mailbox<'m>,
    ghost few: { length people.now ≤ 1025 },
    ghost few_to: { to ≤ 512 },
    ghost few_cc: { length people.now ≤ 513 + to },
    ghost counted: { to < length people.now },
    ghost short: { Short people.now },
}
