// An answer, before a byte of it is written.
use email_policy::PositiveReviewPolicy;

/// How many texts a roll of the answer has, and the bytes of its packed texts.
#[derive(Clone, Copy)]
pub(crate) struct Size {
    pub(crate) texts: usize,
    pub(crate) bytes: usize,
}

/// What is done about a review.
#[derive(Clone, Copy)]
pub(crate) enum Action {
    Mute,
    Send {
        to: Size,
        cc: Size,
        positive_review: PositiveReviewPolicy,
    },
}
