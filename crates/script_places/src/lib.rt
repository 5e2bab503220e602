//! Where the faults of a script stand.
//!
//! [`faults_of`] tells of each line that is no call what its first fault is, and in which column it
//! stands, and which calls are of processes that the policy lacks. What a line says is asked of
//! `hall_script::read_call` alone.
#![tactic(auto)]

mod column;
mod cuts;
mod found;
pub mod laws;
mod script;

pub use coll_text::LineFault;
pub use found::Found;
pub use script::{faults_of, process_column};
pub use wall_labels::NoMemory;
