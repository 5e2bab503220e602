//! The verdict on a full instance, by the two rules of the Chinese Wall. (Brewer and Nash 1989; MPI
//! 4.1, chapter 6.)
//!
//! Ranks count from 0. No call takes memory.
#![tactic(auto)]

mod case;
mod charge;
mod collected;
mod grant;
mod inflow;
mod judge;
pub mod laws;
mod star;
mod verdict;

pub use charge::{charged, sanitised};
pub use grant::settle;
pub use judge::decide;
pub use star::{enter_passed, passes_star};
pub use verdict::Verdict;
pub use wall_rules::Rule;
