//! The two resolve calls: what they ask at the door and its faults, who is mailed, and the envelope that they write.
#![tactic(auto)]

mod action;
mod calls;
mod chosen;
mod door;
mod envelope;
mod fault;
mod laws;
mod measure;
mod report;
mod resolve;

pub use calls::{resolve_positive_recipients, resolve_recipients};
pub use fault::{Incoming, Person, RouterFault};
pub use laws::envelopes_stand;
