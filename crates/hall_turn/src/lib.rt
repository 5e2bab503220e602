//! The door: threads take turns at one hall, which lies in a slot that one of them at a time may
//! use.
//!
//! Each process has a [`Pass`]. A call is one turn: its entry, the call with its reply, joins one
//! run of all calls. What a pass has seen of that run is a beginning of it.
#![tactic(auto)]

mod answer;
mod close;
mod deed;
mod door;
mod gather;
mod head;
mod machine;
mod note;
mod noting;
mod pass;
mod receipt;
mod rule;
mod steps;
mod turns;

pub use answer::{Answer, Claimed};
pub use close::{CloseFault, Unclosed, UnclosedTo};
pub use door::{Door, DoorTo, call_with_receipt, claim_with_receipt};
pub use hall_core::{Claim, NoMemory, finish};
pub use head::Head;
pub use machine::{Applied, Machine};
pub use note::{Note, NoteTo};
pub use pass::{Pass, PassTo, Passes, PassesTo};
pub use receipt::{Receipt, Receipts};
