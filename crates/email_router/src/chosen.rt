// Who is mailed.
use mail::{Candidates, Mailboxes};

/// The candidates for To and for Cc, and the texts that policies add.
#[derive(Clone, Copy)]
pub(crate) struct Recipients<'t, 'a, 's> {
    pub(crate) to: Candidates<'t>,
    pub(crate) cc: Candidates<'t>,
    pub(crate) added: Mailboxes<'a, 's>,
}
