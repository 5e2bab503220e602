//! The text of a report: what an auditor wants to know of a book, line by line.
//!
//! [`report_text`] writes who holds what and how each came to it, the members of the communicators,
//! the instances with their outcomes, and why posts were barred and instances denied. What a line
//! says is told by `book_report`; here it gets its words, with names in place of numbers. The words
//! serve `report_page` too.
#![tactic(auto)]

mod bars;
mod denials;
mod given;
mod instances;
pub mod laws;
mod lines;
mod members;
mod rows;
mod sanitised;
mod waits;
mod whole;
mod words;

pub use book_report::{Book, BookFault, Report};
pub use denials::put_reason;
pub use given::given_text;
pub use instances::{Filled, put_outcome};
pub use members::Member;
pub use rows::put_way;
pub use whole::report_text;
pub use words::{kind_at, put_dataset, put_label, put_pair, put_process};
