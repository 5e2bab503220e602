//! A report on a book as one page of HTML, with a picture.
//!
//! [`report_page`] writes what `report_text` writes, as tables, and draws when each process came to
//! hold a dataset and when a denial named one. The page stands by itself: it has no script and
//! no link, and names nothing outside.
#![tactic(auto)]

mod bars;
mod cells;
mod denials;
mod escape;
mod instances;
pub mod laws;
mod members;
mod picture;
mod rows;
mod sanitised;
mod waits;
mod whole;

pub use book_report::{Book, BookFault};
pub use whole::report_page;
