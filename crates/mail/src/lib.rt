//! A mail as mailboxes, each with its address found once, and its candidates as a roll.
#![tactic(auto)]

mod candidate_roll;
mod candidates;
mod letter;
mod list;
mod lookup;
mod mailbox;
mod read;
mod table;

pub use candidate_roll::Candidates;
pub use letter::Mail;
pub use list::Mailboxes;
pub use mailbox::Mailbox;
pub use read::{MOST_PEOPLE, read_people};
pub use table::{push_text, push_within};
