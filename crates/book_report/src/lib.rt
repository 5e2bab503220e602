//! What a book tells: who came to hold what, by which entry and how; whose results were sanitised;
//! which instances wait; which posts were barred, and which instances denied.
//!
//! [`Report::of`] goes once through a sound book, and has all of it. What holding means is said by the
//! histories that a book gives (`run_model`).
#![tactic(auto)]

mod bar;
mod bars;
mod clean;
mod denial;
mod denied;
mod enter;
mod grant;
mod known;
mod place;
mod reason;
mod report;
mod row;
mod sanitised;
mod told;
mod turns;
mod wait;
mod waits;
mod walk;

pub use audit_book::{Book, BookFault, NoMemory};
pub use bar::Bar;
pub use denial::{Denial, Reason, Source};
pub use report::Report;
pub use row::{Row, Way};
pub use sanitised::Sanitised;
pub use wait::Wait;
