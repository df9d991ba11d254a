// What the governing policies say, taken together.
ghost use Rattle.std.specs.Prelude.{◌≡◌};
ghost use Rattle.grants.specs.Rules.{terms_by};
ghost use Rattle.grants.specs.Sums.{with_rule, sum_from, nothing_said};

use crate::pass::{Pass, Terms};
use crate::rule::{Rule, rule_of};
use email_policy::{PolicySource, PositiveReviewPolicy};

/// The terms with those of one more list.
fn with_rule(terms: Terms, rule: Rule) -> Terms
    ensures { result ≡ with_rule terms rule }
{
    Terms {
        named: true,
        author: terms.author || rule.reply_to.author,
        recipients: terms.recipients || rule.reply_to.recipients,
        every_list: terms.every_list,
        mute_all: terms.mute_all || rule.mute_all,
        positive_review: terms.positive_review.max(rule.positive_review),
    }
}

/// The terms of the named lists.
fn sum_up<S: PolicySource>(source: &S, named: &[bool], pass: Pass) -> Terms
    ensures { result ≡ sum_from pass (S.meaning source.now).defaults nothing_said named.now (S.meaning source.now).lists }
{
    let mut terms = Terms {
        named: false,
        author: false,
        recipients: false,
        every_list: false,
        mute_all: false,
        positive_review: PositiveReviewPolicy::None,
    };
    for (n, is_named) in named.iter().enumerate().take(source.len()) {
        if *is_named {
            terms = with_rule(terms, rule_of(source, n, pass));
        }
    }
    terms
}

/// The terms of the named lists, or of the defaults where none is named. The marks say which lists are named.
pub fn find_terms<S: PolicySource>(source: &S, named: &[bool], pass: Pass) -> Terms
    ensures { result ≡ terms_by pass named.now (S.meaning source.now) }
{
    let terms = sum_up(source, named, pass);
    if terms.named {
        return terms;
    }
    let reply_to = source.default_reply_to();
    Terms {
        named: false,
        author: reply_to.author,
        recipients: reply_to.recipients,
        every_list: reply_to.list,
        mute_all: source.default_mute_all(),
        positive_review: source.default_positive_review(),
    }
}
