// The fields of a record, which is read where it stands.
ghost use Rattle.std.specs.Prelude.{◌≡◌, ◌+◌, ◌<◌, ◌≤◌, length, min, slice_index};
ghost use Rattle.std.specs.List.{slice_get};
ghost use Rattle.std.specs.Option.{option_map};
ghost use Rattle.email_policy.specs.Numbers.{has_bit};
ghost use Rattle.email_policy.specs.Questions.{SaysTheSame};
ghost use Rattle.email_policy.specs.Reading.{past, rank_place, mute_place, cc_place, ignored_place, read_policy};

use crate::policy::{PositiveReviewPolicy, ReplyTo, has_bit, mute_of, rank_of, reply_of};
use crate::record::IN_RECORD;
use roll::{roll_end, roll_text};

/// The record at a place of a slice. At the end of the slice a record leaves all its fields out.
#[derive(Clone, Copy, Debug)]
pub struct Record<'a> {
    pub(crate) bytes: &'a [u8],
    pub(crate) at: usize,
    ghost within: { at ≤ length bytes.now },
}

impl<'a> Record<'a> {
    /// The record at a place; a place past the end is taken as the end.
    pub fn new(bytes: &'a [u8], at: usize) -> Record<'a>
        ensures bytes { result.bytes.now ≡ bytes.now }
        ensures at { result.at ≡ min at (length bytes.now) }
        ensures reads { SaysTheSame result.bytes.now result.at bytes.now at }
    {
        Record {
            bytes,
            at: at.min(bytes.len()),
        }
    }

    /// The byte at a place, or 0 past the end.
    fn byte(&self, at: usize) -> u8
        ensures { result ≡ slice_index self.now.bytes.now at }
    {
        self.bytes.get(at).copied().unwrap_or(0)
    }

    /// Whether the bit of this weight stands in the bit map.
    pub(crate) fn has(&self, weight: u8) -> bool
        requires { 0 < weight }
        ensures { result ≡ has_bit (slice_index self.now.bytes.now self.now.at) weight }
    {
        has_bit(self.byte(self.at), weight)
    }

    /// The place after a field byte that is there only if its bit stands.
    fn past(&self, at: usize, weight: u8) -> usize
        requires small { at ≤ self.now.at + 3 }
        requires bit { 0 < weight }
        ensures value { result ≡ past (has_bit (slice_index self.now.bytes.now self.now.at) weight) at }
        ensures bound { result ≤ at + 1 }
    {
        at + usize::from(self.has(weight))
    }

    fn rank_place(&self) -> usize
        ensures value { result ≡ rank_place self.now.bytes.now self.now.at }
        ensures bound { result ≤ self.now.at + 2 }
    {
        self.past(self.at + 1, 1)
    }

    fn mute_place(&self) -> usize
        ensures value { result ≡ mute_place self.now.bytes.now self.now.at }
        ensures bound { result ≤ self.now.at + 3 }
    {
        self.past(self.rank_place(), 2)
    }

    pub(crate) fn cc_place(&self) -> usize
        ensures { result ≡ cc_place self.now.bytes.now self.now.at }
    {
        self.past(self.mute_place(), 4)
    }

    /// Where the roll of ignored addresses stands; a cc roll that is not whole takes no room.
    pub(crate) fn ignored_place(&self) -> usize
        ensures { result ≡ ignored_place self.now.bytes.now self.now.at }
    {
        let cc = self.cc_place();
        if !self.has(8) {
            return cc;
        }
        roll_end(IN_RECORD, self.bytes, cc).unwrap_or(cc)
    }

    /// Whom the record replies to.
    pub fn reply_to(&self) -> Option<ReplyTo>
        ensures { result ≡ (read_policy self.now.bytes.now self.now.at).reply_to }
    {
        if !self.has(1) {
            return None; // left out, which is not a reply to nobody
        }
        Some(reply_of(self.byte(self.at + 1)))
    }

    /// Who hears of a review without findings.
    pub fn positive_review(&self) -> Option<PositiveReviewPolicy>
        ensures { result ≡ (read_policy self.now.bytes.now self.now.at).positive_review }
    {
        if !self.has(2) {
            return None;
        }
        Some(rank_of(self.byte(self.rank_place())))
    }

    /// Whether all reviews are muted.
    pub fn mute_all(&self) -> Option<bool>
        ensures { result ≡ (read_policy self.now.bytes.now self.now.at).mute_all }
    {
        if !self.has(4) {
            return None;
        }
        Some(mute_of(self.byte(self.mute_place())))
    }

    /// Text `m` of the cc roll.
    pub fn cc(&self, m: usize) -> Option<&'a [u8]>
        ensures { option_map (λ x. x.now) result ≡ slice_get (read_policy self.now.bytes.now self.now.at).cc m }
    {
        if !self.has(8) {
            return None;
        }
        roll_text(self.bytes, self.cc_place(), m)
    }

    /// Text `m` of the roll of ignored addresses.
    pub fn ignored_email(&self, m: usize) -> Option<&'a [u8]>
        ensures { option_map (λ x. x.now) result ≡ slice_get (read_policy self.now.bytes.now self.now.at).ignored_emails m }
    {
        if !self.has(16) {
            return None;
        }
        roll_text(self.bytes, self.ignored_place(), m)
    }
}
