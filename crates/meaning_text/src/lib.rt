//! The lines of what a policy means: a sentence for each fact, and for each warning one.
#![tactic(auto)]

pub mod laws;
mod sentences;

pub use policy_meaning::NoMemory;
pub use sentences::meaning_text;
