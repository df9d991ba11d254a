// Lists of mailboxes.
ghost use Rattle.mail.specs.Parts.{Short};

use crate::mailbox::Mailbox;

/// Mailboxes, none of which is longer than two bytes can say.
#[derive(Clone, Copy)]
pub struct Mailboxes<'t, 'a> {
    pub entries: &'t [Mailbox<'a>],
    ghost short: { Short entries.now },
}
