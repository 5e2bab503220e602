//! A book that is audited while it is read, from a source of any length.
//!
//! `audit_source` says of all that a source has to give what `read_book` and then `check_book` say
//! of it, and keeps no more of it than the line that is not finished: a finished line is parsed, its
//! entry goes to the audit, and both are forgotten. `pass_source` does so too, and tells what goes on
//! behind a sound book.
#![tactic(auto)]

mod along;
mod fault;
mod line;
mod pass;
mod reading;
mod stream;

pub use fault::AuditFault;
pub use line::LINE_LIMIT;
pub use pass::{Passed, pass_source};
pub use stream::audit_source;
