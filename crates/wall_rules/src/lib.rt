//! Who has had access to what, and the two rules of the Chinese Wall. (Brewer and Nash 1989.)
//!
//! Only `Histories::opening` takes memory, so no other call can answer want of it.
#![tactic(auto)]

mod histories;
mod rule;

pub use histories::Histories;
pub use rule::Rule;
pub use wall_labels::NoMemory;
