//! Which of the ranks of a run plays, and which sleep until an instance settles.
//!
//! Nothing here knows of a hall: a rank is a number, and so is a communicator.
#![tactic(auto)]

mod board;
mod stage;
mod standing;

pub use board::Instance;
pub use stage::{Aside, Begun, GivenUp, Stage};
pub use standing::{Gone, Role, SentHome};
