//! Rolls: packed lists of texts. A roll is a two-byte count and then, for each text, a two-byte length and its bytes.
#![tactic(auto)]

mod ends;
mod fault;
mod laws;
mod limits;
mod reading;
mod view;
mod write;

pub use ends::{check_roll, read_word, roll_end, text_end, word_at};
pub use fault::RollFault;
pub use laws::{rolls_stand, writing_stands};
pub use limits::{INCOMING, Limits};
pub use reading::{check_texts, check_texts_at, read_text, roll_text};
pub use view::{Roll, address};
pub use write::{WriteFault, write_byte, write_roll, write_text, write_word};

#[cfg(test)]
mod tests;
