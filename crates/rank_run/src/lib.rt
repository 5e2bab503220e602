//! Ranks: one thread for each process, each running its script at a door.
//!
//! A take in a script is tried again while its answer is Pending ([`wait`]). [`run_ranks`] runs all
//! scripts, each in a thread of its own, and gives the replies of each process and the hall at the
//! end. Under a gate that holds nobody one rank calls at a time, and one that waits for others
//! sleeps; a large delivery is worked out beside the others' calls.
#![tactic(auto)]

mod fault;
mod gate;
mod part;
mod rank;
mod ready;
mod replies;
mod requests;
mod rows;
mod run;
mod waiting;

pub use fault::RunFault;
pub use gate::{Gate, OpenGate};
pub use replies::RunReplies;
pub use run::{Run, run_ranks};
pub use run_model::{Acts, Scripts};
pub use waiting::{PATIENCE, wait};
