//! The lines that `consortium check` says of a script, one for each line that is no call, and the
//! line of a policy's fault.
#![tactic(auto)]

mod faults;
pub mod laws;
mod policies;
mod script;
mod sentences;
mod words;

pub use coll_text::LineFault;
pub use faults::ScriptFaults;
pub use policies::{put_absent_line, put_long_line, put_policy_line};
pub use script::script_lines;
pub use wall_labels::NoMemory;
