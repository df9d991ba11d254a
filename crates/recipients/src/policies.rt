// What decides who takes part, beside the mail.
use grants::Grant;
use mail::Mailboxes;

/// What the policies say of a mail: the keys of the lists, and what is granted. The mail is lent to each call.
#[derive(Clone, Copy)]
pub struct Policies<'k, 'a, 't, 's> {
    pub keys: Mailboxes<'k, 'a>,
    pub grant: Grant<'t, 's>,
}
