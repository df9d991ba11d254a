//! What the policies say of a mail: whether its author is shut out, which lists it names, and what they grant.
#![tactic(auto)]

mod copies;
mod grant;
mod ignored;
mod lists;
mod pass;
mod rule;
mod terms;

pub use copies::{MOST_ADDED, gather_cc};
pub use grant::Grant;
pub use ignored::is_shut_out;
pub use lists::{MOST_LISTS, find_named, find_replying, read_keys};
pub use pass::{Pass, Terms};
pub use terms::find_terms;
