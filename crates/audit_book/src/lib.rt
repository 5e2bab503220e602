//! The audit book for its users: the book itself, its text, and its check.
//!
//! `write_book` writes exactly the text of a book, and `read_book` reads a text as a book exactly
//! if it is that book's text, and tells of each other text where it goes wrong. `check_book`
//! answers whether a book is what its own posts give under the policy, and else which entry is the
//! first that they do not. `after_book` does the same, and gives the policy for what comes after
//! the book; `due_behind` tells which verdict is missing behind a book's entries. `put_header`,
//! `put_entry` and `put_end` write a text line by line.
//!
//! What a book must have is said by `run_model`; the book and the state that the check goes on from
//! stand in `run_state`, the words of a kind in `coll_text`. The text is proved line by line, from
//! the top (`specs/Lines.antt`, `Reading.antt`), and against what a text is as a whole
//! (`specs/Faults.antt`); the check entry by entry, over a state that stands for the posts so far
//! (`specs/Checks.antt`). (The format is our own.)
#![tactic(auto)]

mod after;
mod audit;
mod check;
mod check_fault;
mod count;
mod due;
mod dues;
mod fault;
pub mod laws;
mod line;
mod ranges;
mod read;
mod watch;
mod words;
mod write;

pub use after::after_book;
pub use audit::{Audit, ENTRY_LIMIT, Step, StepFault};
pub use check::check_book;
pub use check_fault::BookFault;
pub use due::Due;
pub use dues::due_behind;
pub use fault::{ReadFault, WriteFault};
pub use line::{Line, read_line};
pub use ranges::entry_is_spelled;
pub use read::read_book;
pub use run_state::{Book, Entry, NoMemory, Outcome, Rule};
pub use watch::{Unwatched, Watch, watch_entries};
pub use write::{header_text, put_end, put_entry, put_header, write_book};
