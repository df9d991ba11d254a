// What answers for the policies of all lists.
ghost use Rattle.std.specs.Prelude.{◌≡◌, length};
ghost use Rattle.std.specs.List.{slice_get};
ghost use Rattle.std.specs.Option.{option_map};
ghost use Rattle.email_policy.specs.Policy.{Policy};
ghost use Rattle.email_policy.specs.Lawful.{Lawful};
ghost use Rattle.email_policy.specs.Source.{key_of, field_of, text_of};

use crate::policy::{PositiveReviewPolicy, ReplyTo};

/// A lawful policy, answered field by field. Lists and texts go by number; past the last one the answer is none.
pub trait PolicySource {
    ghost meaning: { Self → Policy };

    ghost lawful: { (s : Self) → Lawful (meaning s) };

    /// How many lists there are.
    fn len(&self) -> usize
        ensures { result ≡ length (meaning self.now).lists };

    /// The key of list `n`. Keys rise with `n`.
    fn key(&self, n: usize) -> Option<&[u8]>
        ensures { option_map (λ x. x.now) result ≡ key_of (meaning self.now) n };

    fn reply_to(&self, n: usize) -> Option<ReplyTo>
        ensures { result ≡ field_of (λ p. p.reply_to) (meaning self.now) n };

    fn positive_review(&self, n: usize) -> Option<PositiveReviewPolicy>
        ensures { result ≡ field_of (λ p. p.positive_review) (meaning self.now) n };

    fn mute_all(&self, n: usize) -> Option<bool>
        ensures { result ≡ field_of (λ p. p.mute_all) (meaning self.now) n };

    /// Text `m` of the cc roll of list `n`.
    fn cc(&self, n: usize, m: usize) -> Option<&[u8]>
        ensures { option_map (λ x. x.now) result ≡ text_of (λ p. p.cc) (meaning self.now) n m };

    /// Text `m` of the roll of ignored addresses of list `n`.
    fn ignored_email(&self, n: usize, m: usize) -> Option<&[u8]>
        ensures { option_map (λ x. x.now) result ≡ text_of (λ p. p.ignored_emails) (meaning self.now) n m };

    fn default_reply_to(&self) -> ReplyTo
        ensures { result ≡ (meaning self.now).defaults.reply_to };

    fn default_positive_review(&self) -> PositiveReviewPolicy
        ensures { result ≡ (meaning self.now).defaults.positive_review };

    fn default_mute_all(&self) -> bool
        ensures { result ≡ (meaning self.now).defaults.mute_all };

    fn default_cc(&self, m: usize) -> Option<&[u8]>
        ensures { option_map (λ x. x.now) result ≡ slice_get (meaning self.now).defaults.cc m };

    fn default_ignored_email(&self, m: usize) -> Option<&[u8]>
        ensures { option_map (λ x. x.now) result ≡ slice_get (meaning self.now).defaults.ignored_emails m };
}
