//! A hall whose book is written while it runs.
//!
//! A `BookedHall` answers as the hall does, and writes the entries that a call adds to the book to
//! its sink before the reply is given. As long as it is booked, the sink has the text of the run's
//! book but for its last line; `finish` writes that. What was written is said by
//! `specs/Books.antt`, in the words of `audit_book`. It keeps none of the entries, so its memory
//! does not grow with the run's posts. A `BooklessHall` is for a server that keeps no book.
#![tactic(auto)]

mod begun;
mod booked;
mod bookless;
mod finished;
mod lines;
mod machine;
mod receipt;
mod sink;
mod unbooked;
mod writer;

pub use begun::Begun;
pub use booked::BookedHall;
pub use bookless::BooklessHall;
pub use finished::{Finished, Unopened};
pub use hall_turn::{Applied, Head, Machine, Receipt, Receipts};
pub use receipt::BookReceipt;
pub use sink::{BookSink, SinkReceipt};
pub use unbooked::Unbooked;
