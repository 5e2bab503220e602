//! The seal of a book that was cut, written while the book is read, from a source of any length.
//!
//! `seal_source` reads the finished lines of a book one by one. Each goes through an audit as far as
//! it is the beginning of a sound book, and is written out; nothing of it is kept. At the end the
//! verdict that is due is put behind them, and the end. What is written is the seal of `book_seal`.
//! (Own rules.)
#![tactic(auto)]

mod line;
mod reading;
mod stop;
mod stream;
mod tail;
mod writer;

pub use stop::SealStop;
pub use stream::seal_source;
