//! What crates of tests and the benchmark share: policies, numbers by chance, a writer into memory,
//! and the pages that a process has.
#![tactic(auto)]

mod kept;
mod memory;
pub mod policies;
mod random;

pub use kept::Kept;
pub use memory::pages;
pub use random::Random;
