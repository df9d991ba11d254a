// The cc texts that policies add.
ghost use Rattle.std.specs.Prelude.{◌≡◌, ◌&&◌, map};
ghost use Rattle.email_policy.specs.Texts.{record_of, texts_of};
ghost use Rattle.email_policy.specs.declared.texts.TextField.TheVariants.{Cc};
ghost use Rattle.mail.specs.Parts.{text_in};
ghost use Rattle.mail.specs.Tables.{filled};
ghost use Rattle.audience.specs.Rules.{rule_of};
ghost use Rattle.grants.specs.Rules.{grant_by, entry_at};
ghost use Rattle.grants.specs.Sums.{gives_cc};

use crate::pass::Pass;
use crate::rule::rule_of;
use arrayvec::ArrayVec;
use email_policy::{PolicySource, TextField, Whose, source_texts};
use mail::{Mailbox, push_text};

/// 32 texts of each of 256 lists and of the defaults.
pub const MOST_ADDED: usize = 8224;

/// Writes the cc texts of a record behind those of a table, as far as there is room.
fn push_cc<'a, S: PolicySource, const N: usize>(
    table: &mut ArrayVec<Mailbox<'a>, N>,
    source: &'a S,
    whose: Whose,
)
    ensures { map text_in table.new.items ≡ filled N (map text_in table.old.items) (texts_of Cc (record_of (S.meaning source.now) whose)) }
{
    for text in source_texts(source, whose, TextField::Cc) {
        push_text(table, text);
    }
}

/// Whether list `n` is named and its cc texts count.
fn gives_cc<S: PolicySource>(source: &S, is_named: bool, n: usize, pass: Pass) -> bool
    ensures { result ≡ (is_named && gives_cc pass (rule_of (S.meaning source.now).defaults (entry_at (S.meaning source.now) n).policy).positive_review) }
{
    is_named && rule_of(source, n, pass).gives_cc
}

/// The cc texts of the named lists, in their order, and then those of the defaults. The marks say which lists are named.
pub fn gather_cc<'a, S: PolicySource>(
    source: &'a S,
    named: &[bool],
    pass: Pass,
) -> ArrayVec<Mailbox<'a>, MOST_ADDED>
    ensures { map text_in result.items ≡ (grant_by pass named.now (S.meaning source.now)).cc }
{
    let mut cc = ArrayVec::new();
    for (n, is_named) in named.iter().enumerate().take(source.len()) {
        if gives_cc(source, *is_named, n, pass) {
            push_cc(&mut cc, source, Whose::List(n));
        }
    }
    push_cc(&mut cc, source, Whose::Defaults);
    cc
}
