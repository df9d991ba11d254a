// What holds for one list.
ghost use Rattle.std.specs.Prelude.{◌≡◌};
ghost use Rattle.grants.specs.Rules.{entry_at};
ghost use Rattle.grants.specs.Sums.{code_rule};

use crate::pass::Pass;
use email_policy::{PolicySource, PositiveReviewPolicy, ReplyTo};

/// A list's rule, once the defaults stand in for what its policy leaves out.
#[derive(Clone, Copy)]
pub(crate) struct Rule {
    pub(crate) reply_to: ReplyTo,
    pub(crate) positive_review: PositiveReviewPolicy,
    pub(crate) mute_all: bool,
    /// Whether its cc texts count.
    pub(crate) gives_cc: bool,
}

/// The rule of list `n`.
pub(crate) fn rule_of<S: PolicySource>(source: &S, n: usize, pass: Pass) -> Rule
    ensures { result ≡ code_rule pass (S.meaning source.now).defaults (entry_at (S.meaning source.now) n).policy }
{
    let reply_to = source.reply_to(n).unwrap_or(source.default_reply_to());
    let positive_review = source
        .positive_review(n)
        .unwrap_or(source.default_positive_review());
    let mute_all = source.mute_all(n).unwrap_or(source.default_mute_all());
    let (reply_to, gives_cc) = match (pass, positive_review) {
        (Pass::First, _) => (reply_to, true),
        (Pass::Positive, PositiveReviewPolicy::None) => (ReplyTo::NOBODY, false),
        (Pass::Positive, PositiveReviewPolicy::Author) => (
            ReplyTo {
                author: reply_to.author,
                list: false,
                recipients: false,
            },
            false,
        ),
        (Pass::Positive, PositiveReviewPolicy::All) => (reply_to, true),
    };
    Rule {
        reply_to,
        positive_review,
        mute_all,
        gives_cc,
    }
}
