//! The seal of an audit book: a whole book of one that was cut.
//!
//! A server that is killed leaves a book without its end, perhaps with an unfinished last line, and
//! perhaps without the verdict that its last post settles. `seal_book` gives the whole book.
//!
//! What a seal is says `specs/Seals.antt`, and which text has none `specs/Refusals.antt`; text,
//! soundness and the first bad entry are those of `audit_book` and `run_model`. (Own rules.)
#![tactic(auto)]

mod begun;
mod fault;
pub mod laws;
mod seal;
mod unfinished;

pub use audit_book::{Book, Entry, write_book};
pub use fault::SealFault;
pub use seal::seal_book;
pub use unfinished::finished;
