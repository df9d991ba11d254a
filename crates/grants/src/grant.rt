// What is granted.
ghost use Rattle.std.specs.Prelude.{◌≤◌, length};

use mail::Mailboxes;

/// What the governing policies grant: a reply to the author, to individuals, to every list address or to those of the
/// marked lists, and the cc texts.
#[derive(Clone, Copy)]
pub struct Grant<'t, 's> {
    pub author: bool,
    pub recipients: bool,
    pub every_list: bool,
    /// A mark for each list of the policy source.
    pub lists: &'t [bool],
    /// At most 32 texts of each of 256 lists and of the defaults.
    pub cc: Mailboxes<'t, 's>,
    ghost few: { length cc.entries.now ≤ 8224 },
}
