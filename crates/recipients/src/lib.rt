//! Which candidates take part: whose addresses are lists', whether individuals are few, and who is mailed in To and in Cc.
#![tactic(auto)]

mod candidate;
mod domains;
mod individuals;
mod marks;
mod policies;

pub use marks::{MOST_CC, MOST_TO};
pub use policies::Policies;
