// What is asked of the policies, and the short part of what they answer.
use email_policy::PositiveReviewPolicy;

/// Which review is mailed: one with findings goes by all that a policy says, one without by what its rank leaves.
#[derive(Clone, Copy)]
pub enum Pass {
    First,
    Positive,
}

/// What the governing policies say, taken together.
#[derive(Clone, Copy)]
pub struct Terms {
    /// Some list is named, so that the named lists govern, and else the defaults.
    pub named: bool,
    pub author: bool,
    pub recipients: bool,
    /// Every list address is replied to, which only the defaults can say.
    pub every_list: bool,
    pub mute_all: bool,
    pub positive_review: PositiveReviewPolicy,
}
