// A packed book as a policy source.
ghost use Rattle.std.specs.Prelude.{◌≡◌, Some, None};
ghost use Rattle.std.specs.List.{slice_get};
ghost use Rattle.std.specs.Option.{option_map};
ghost use Rattle.email_policy.specs.Reading.{read_policy, as_defaults};
ghost use Rattle.packed_book.specs.Reading.{read_book};
ghost use Rattle.packed_book.specs.Accepted.{book_lawful};

use crate::book::PackedBook;
use crate::check::key_at;
use crate::view::policy_place;
use email_policy::{PolicySource, PositiveReviewPolicy, Record, ReplyTo};

impl<'a> PackedBook<'a> {
    /// The record of list `n`.
    fn list(&self, n: usize) -> Option<Record<'a>>
        ensures { option_map (λ r. read_policy r.bytes.now r.at) result ≡ option_map (λ e. e.policy) (slice_get (read_book self.now.bytes.now).lists n) }
    {
        let at = policy_place(self.bytes, self.entry(n)?);
        Some(Record::new(self.bytes, at))
    }

    /// The record of the defaults.
    fn defaults(&self) -> Record<'a>
        ensures { as_defaults (read_policy result.bytes.now result.at) ≡ (read_book self.now.bytes.now).defaults }
    {
        Record::new(self.bytes, 0)
    }
}

impl<'a> PolicySource for PackedBook<'a> {
    ghost meaning = { λ s. read_book s.bytes.now };

    ghost lawful = { λ s. book_lawful s.bytes.now s.octets s.accepted };

    fn len(&self) -> usize {
        self.starts.len()
    }

    fn key(&self, n: usize) -> Option<&[u8]> {
        Some(key_at(self.bytes, self.entry(n)?))
    }

    fn reply_to(&self, n: usize) -> Option<ReplyTo> {
        self.list(n)?.reply_to()
    }

    fn positive_review(&self, n: usize) -> Option<PositiveReviewPolicy> {
        self.list(n)?.positive_review()
    }

    fn mute_all(&self, n: usize) -> Option<bool> {
        self.list(n)?.mute_all()
    }

    fn cc(&self, n: usize, m: usize) -> Option<&[u8]> {
        self.list(n)?.cc(m)
    }

    fn ignored_email(&self, n: usize, m: usize) -> Option<&[u8]> {
        self.list(n)?.ignored_email(m)
    }

    fn default_reply_to(&self) -> ReplyTo {
        self.defaults().reply_to().unwrap_or(ReplyTo::NOBODY)
    }

    fn default_positive_review(&self) -> PositiveReviewPolicy {
        let rank = self.defaults().positive_review();
        rank.unwrap_or(PositiveReviewPolicy::None)
    }

    fn default_mute_all(&self) -> bool {
        self.defaults().mute_all().unwrap_or(false)
    }

    fn default_cc(&self, m: usize) -> Option<&[u8]> {
        self.defaults().cc(m)
    }

    fn default_ignored_email(&self, m: usize) -> Option<&[u8]> {
        self.defaults().ignored_email(m)
    }
}
