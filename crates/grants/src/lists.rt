// The lists: their keys, which of them are named, and which are replied to.
ghost use Rattle.std.specs.Prelude.{◌≡◌, ◌&&◌, [], map};
ghost use Rattle.address.specs.Address.{address_part, same_bare};
ghost use Rattle.keep_first.specs.Keep.{some};
ghost use Rattle.audience.specs.Mail.{incoming};
ghost use Rattle.mail.specs.Addresses.{same_part};
ghost use Rattle.mail.specs.Letters.{letter, texts};
ghost use Rattle.mail.specs.Parts.{text_in};
ghost use Rattle.mail.specs.Tables.{filled};
ghost use Rattle.grants.specs.Rules.{keys_of, entry_at, rule_in, replying};

use crate::pass::Pass;
use crate::rule::rule_of;
use arrayvec::ArrayVec;
use email_policy::PolicySource;
use mail::{Mail, Mailbox, Mailboxes, push_text, push_within};

/// A source has at most so many lists.
pub const MOST_LISTS: usize = 256;

/// The keys of the lists.
pub fn read_keys<'a, S: PolicySource>(source: &'a S) -> ArrayVec<Mailbox<'a>, MOST_LISTS>
    ensures { map text_in result.items ≡ keys_of (S.meaning source.now) }
{
    let mut keys = ArrayVec::new();
    // by number: a source tells everything of a list by its number
    for n in 0..source.len() {
        if let Some(key) = source.key(n) {
            push_text(&mut keys, key);
        }
    }
    keys
}

/// Whether a To or Cc address of the mail is this one.
fn is_addressed(mail: &Mail<'_, '_>, part: &[u8]) -> bool
    ensures { result ≡ some (λ t. same_part part.now (address_part t)) (incoming (letter mail.now)) }
{
    mail.people[1..].iter().any(|mailbox| mailbox.is_at(part))
}

/// A mark for each list, by its key, as far as there is room: whether the mail names it.
pub fn find_named<const N: usize>(
    keys: &Mailboxes<'_, '_>,
    mail: &Mail<'_, '_>,
) -> ArrayVec<bool, N>
    ensures { result.items ≡ filled N [] (map (λ k. some (same_bare k) (incoming (letter mail.now))) (texts keys.now)) }
{
    let mut marks = ArrayVec::new();
    for key in keys.entries.iter().take(N) {
        push_within(&mut marks, is_addressed(mail, key.part()));
    }
    marks
}

/// A mark for each list: whether it is named and its addresses are replied to.
pub fn find_replying<S: PolicySource>(
    source: &S,
    named: &[bool],
    pass: Pass,
) -> ArrayVec<bool, MOST_LISTS>
    ensures { result.items ≡ replying pass (S.meaning source.now).defaults named.now (S.meaning source.now).lists }
{
    let mut marks = ArrayVec::new();
    for (n, is_named) in named.iter().enumerate().take(source.len()) {
        push_within(&mut marks, replies_to_list(source, *is_named, n, pass));
    }
    marks
}

/// Whether list `n` is named and its addresses are replied to.
fn replies_to_list<S: PolicySource>(source: &S, is_named: bool, n: usize, pass: Pass) -> bool
    ensures { result ≡ (is_named && (rule_in pass (S.meaning source.now).defaults (entry_at (S.meaning source.now) n).policy).reply_to.list) }
{
    is_named && rule_of(source, n, pass).reply_to.list
}
