//! The hall: what the server keeps, and its answers to calls, one at a time.
//!
//! A hall stands for the run of all calls so far (`specs/Halls.antt`): each reply of `apply` is the
//! one that `run_model` says is due, or out of memory where a post would count or something be
//! delivered. A take is `look`, which finds what is due, and `close`, once that was told. `claim`
//! is the part of a take that needs the hall, for those who fill what is delivered elsewhere, and
//! `finish` the rest. `run_calls` answers a list of calls, and `run_two` two lists under one
//! policy, for the laws on two worlds.
//!
//! It stands on `run_state` for the posts and the book, and keeps beside them the requests and what
//! came of the instances that were filled.
#![tactic(auto)]

mod brief;
mod claims;
mod entering;
mod gone;
mod hall;
mod instance;
mod ledger;
mod looks;
mod posts;
mod records;
mod requests;
mod room;
mod runs;
mod settled;
mod slots;
mod takes;
mod window;
mod worlds;

pub use brief::BriefHall;
pub use claims::{Claim, finish};
pub use hall::Hall;
pub use looks::{Due, Open};
pub use run_model::{
    Act, Acts, Block, Call, Delivery, Integers, Posting, Refusal, Reply, Rule, Scripts,
};
pub use runs::{Calls, Replies, run_calls};
pub use wall_labels::NoMemory;
pub use worlds::{TwoRuns, lists_may_differ_in_numbers, run_two};
