// Authors whose patches are not answered.
ghost use Rattle.std.specs.Prelude.{◌≡◌};
ghost use Rattle.address.specs.Text.{small, holds};
ghost use Rattle.keep_first.specs.Keep.{some};
ghost use Rattle.email_policy.specs.Texts.{record_of, texts_of};
ghost use Rattle.email_policy.specs.declared.texts.TextField.TheVariants.{IgnoredEmails};
ghost use Rattle.audience.specs.Rules.{ignored_texts, shut_out};
ghost use Rattle.mail.specs.Letters.{letter};

use address::contains_small;
use email_policy::{PolicySource, TextField, Whose, source_texts};
use mail::Mail;

/// Whether a record ignores the author.
fn is_ignored_by<S: PolicySource>(source: &S, whose: Whose, author: &[u8]) -> bool
    ensures { result ≡ some (λ t. holds (small author.now) (small t)) (texts_of IgnoredEmails (record_of (S.meaning source.now) whose)) }
{
    source_texts(source, whose, TextField::IgnoredEmails).any(|text| contains_small(author, text))
}

/// Whether the defaults or any list, named or not, ignore the author.
fn is_ignored_author<S: PolicySource>(source: &S, author: &[u8]) -> bool
    ensures { result ≡ some (λ t. holds (small author.now) (small t)) (ignored_texts (S.meaning source.now)) }
{
    is_ignored_by(source, Whose::Defaults, author)
        || (0..source.len()).any(|n| is_ignored_by(source, Whose::List(n), author))
}

/// Whether the author is shut out: by an ignored text, or because the author's text holds the bot's address.
pub fn is_shut_out<S: PolicySource>(source: &S, mail: &Mail<'_, '_>) -> bool
    ensures { result ≡ shut_out (S.meaning source.now) (letter mail.now) }
{
    let author = mail.people[0];
    if is_ignored_author(source, author.text()) {
        return true;
    }
    let bot = mail.bot.part();
    if bot.is_empty() {
        return false;
    }
    if author.part().is_empty() {
        return false;
    }
    contains_small(author.text(), bot)
}
