//! One command line, over the files and streams of a system: what its words ask for is done, each
//! file that they name is opened at its first use and once, and the status is that of how it ended.
//! Where they ask to serve live processes, the files that they name are handed on.
#![tactic(auto)]

mod chain;
mod commands;
mod devices;
mod looking;
mod policy;
mod serving;

pub use chain::{Chained, chained_policy, last_policy};
pub use commands::{LivePaths, Performed, perform};
pub use devices::CountedFiles;
pub use policy::served_policy;
pub use serving::{Blanks, Complaints, Outcome, Output, Served, serve};
