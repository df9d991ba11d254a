//! What list owners say: policies as packed records, keys of lists, and what answers for them.
#![tactic(auto)]

mod fault;
mod fields;
mod keys;
mod laws;
mod policy;
mod questions;
mod record;
mod report;
mod source;
mod texts;
mod words;

pub use fault::{KeyFault, Layer, Part, PolicyFault, RecordFault};
pub use fields::Record;
pub use keys::{check_key, rises};
pub use laws::{
    defaults_stand, examples_stand, keys_rise, numbers_stand, policies_stand, questions_stand,
    records_stand,
};
pub use policy::{PositiveReviewPolicy, ReplyTarget, ReplyTo};
pub use record::{MOST_TEXTS, check_record, record_end};
pub use report::Report;
pub use source::PolicySource;
pub use texts::{SourceTexts, TextField, Whose, source_text, source_texts};

#[cfg(test)]
mod tests;
