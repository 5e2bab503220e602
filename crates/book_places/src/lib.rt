//! Where the text of a book is at fault, and what was due there.
//!
//! [`found_in`] tells of a text that it is a sound book, or its first fault: the line that should
//! not stand there, or the first entry that the posts don't give, with what was due in its place.
//! [`put_found`] writes the line that says so.
#![tactic(auto)]

mod due;
mod end;
mod line;
mod owed;
mod place;
mod text;

pub use audit_book::{Entry, NoMemory, ReadFault};
pub use due::{Due, due_at};
pub use line::line_of;
pub use owed::{Owed, Stands, owed_at};
pub use place::{Found, found_in};
pub use text::put_found;
