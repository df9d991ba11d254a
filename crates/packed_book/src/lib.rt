//! Packed books: opening, reading and writing them.
#![tactic(auto)]

mod book;
mod check;
mod fault;
mod laws;
mod report;
mod source;
mod view;
mod write;

pub use book::PackedBook;
pub use check::check_book;
pub use fault::OpenFault;
pub use laws::books_stand;
pub use view::first_hour;
pub use write::{TrayTooShort, write_book};

#[cfg(test)]
mod tests;
