//! Mail addresses as bytes: texts, quoted parts, the address inside a text, its bare and its domain.
#![tactic(auto)]

mod laws;
mod mailbox;
mod scanner;
mod text;

pub use laws::{addresses_stand, bares_stand, quoted_parts_stand, trimming_stands};
pub use mailbox::{address_part, domain, same_bare, sides};
pub use scanner::Scanner;
pub use text::{TextFault, between, check_text, check_text_within, contains_small, is_blank, trim};

#[cfg(test)]
mod tests;
