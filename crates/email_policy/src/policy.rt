// What a policy may say, and the number that stands for each case in a packed record.
ghost use Rattle.std.specs.Prelude.{◌≡◌, ◌<◌};
ghost use Rattle.email_policy.specs.Numbers.{contains, target_number, reply_number, rank_number, has_bit, reply_of, rank_of, mute_of};

/// Whom a review may go to.
#[derive(Clone, Copy, PartialEq, Eq, Debug)]
pub enum ReplyTarget {
    Author,
    List,
    Recipients,
}

/// The targets that a policy names.
#[derive(Clone, Copy, PartialEq, Eq, Debug)]
pub struct ReplyTo {
    pub author: bool,
    pub list: bool,
    pub recipients: bool,
}

/// Who hears of a review without findings. Later ones are higher.
#[derive(Clone, Copy, PartialEq, Eq, PartialOrd, Ord, Debug)]
pub enum PositiveReviewPolicy {
    None,
    Author,
    All,
}

/// The number of the target, a bit of its own.
impl From<ReplyTarget> for u8 {
    ghost from_gives = { λ t n. n ≡ target_number t };

    fn from(target: ReplyTarget) -> u8 {
        match target {
            ReplyTarget::Author => 1,
            ReplyTarget::List => 2,
            ReplyTarget::Recipients => 4,
        }
    }
}

impl ReplyTo {
    /// No target.
    pub const NOBODY: ReplyTo = ReplyTo {
        author: false,
        list: false,
        recipients: false,
    };

    /// Whether the policy replies to this target.
    pub fn contains(&self, target: ReplyTarget) -> bool
        ensures { result ≡ contains self.now target }
    {
        match target {
            ReplyTarget::Author => self.author,
            ReplyTarget::List => self.list,
            ReplyTarget::Recipients => self.recipients,
        }
    }
}

/// The sum of the targets' numbers.
impl From<ReplyTo> for u8 {
    ghost from_gives = { λ r n. n ≡ reply_number r };

    fn from(reply: ReplyTo) -> u8 {
        u8::from(reply.author) + (2 * u8::from(reply.list) + 4 * u8::from(reply.recipients))
    }
}

/// The number of the case, higher for a higher one.
impl From<PositiveReviewPolicy> for u8 {
    ghost from_gives = { λ p n. n ≡ rank_number p };

    fn from(rank: PositiveReviewPolicy) -> u8 {
        match rank {
            PositiveReviewPolicy::None => 0,
            PositiveReviewPolicy::Author => 1,
            PositiveReviewPolicy::All => 2,
        }
    }
}

/// Whether the bit of this weight stands.
pub(crate) fn has_bit(n: u8, weight: u8) -> bool
    requires { 0 < weight }
    ensures { result ≡ has_bit n weight }
{
    n / weight % 2 == 1
}

/// The targets of a reply byte.
pub(crate) fn reply_of(b: u8) -> ReplyTo
    ensures { result ≡ reply_of b }
{
    ReplyTo {
        author: has_bit(b, 1),
        list: has_bit(b, 2),
        recipients: has_bit(b, 4),
    }
}

/// The case of a rank byte.
pub(crate) fn rank_of(b: u8) -> PositiveReviewPolicy
    ensures { result ≡ rank_of b }
{
    match b {
        0 => PositiveReviewPolicy::None,
        1 => PositiveReviewPolicy::Author,
        _ => PositiveReviewPolicy::All,
    }
}

/// Whether a mute byte mutes.
pub(crate) fn mute_of(b: u8) -> bool
    ensures { result ≡ mute_of b }
{
    b == 1
}
