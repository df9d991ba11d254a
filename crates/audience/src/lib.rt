//! Who is mailed a review, and what holds of every answer.
#![tactic(auto)]

mod promises;

pub use promises::{
    answers_reach_the_due, blank_text_is_nobody, bot_is_never_mailed, examples_hold,
    few_is_covered, neighbours_fail, only_the_named_are_heard, positives_stay_within_the_due,
    unnamed_lists_are_unheard,
};
