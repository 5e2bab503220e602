//! The words of lines: numbers, labels, fields, and a kind of collective with its fields, as
//! scripts and books spell them. (The format is our own.)
//!
//! A line is cut into words by single spaces, and read from the left. The first fault from the left
//! is the answer. What is written is appended to a text, and a long text is written out in pieces.
#![tactic(auto)]

mod append;
mod digits;
mod eights;
mod fault;
mod fields;
mod front;
mod labels;
pub mod laws;
mod lists;
mod memory;
mod numbers;
mod parts;
mod pieces;
mod short;
mod spell;
mod table;
mod words;

pub use append::{put, put_behind, put_decimal, put_signed};
pub use digits::{put_enclosed, put_number_at, put_spaced};
pub use fault::LineFault;
pub use fields::next_statement;
pub use labels::{label_in, label_text, rule_text};
pub use memory::Memory;
pub use numbers::{number, number32, signed, signed32};
pub use parts::Parts;
pub use pieces::{send, send_long};
pub use short::ShortNumber;
pub use spell::write_statement;
pub use words::{are_printable, end_of, next_number, next_number32, next_word};
