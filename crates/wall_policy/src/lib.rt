//! The policy of a Chinese Wall, and the file that says it. (Brewer and Nash 1989; the file's
//! format is our own.)
//!
//! A policy file is a TOML document. [`read_policy`] reads one in two steps: from the tree that
//! `toml` gives to a record of plain texts and numbers, and from that record to a [`Policy`], which
//! answers what the rules ask without taking memory.
#![tactic(auto)]

mod build;
mod by_name;
mod checks;
mod fault;
mod growth;
pub mod growth_laws;
mod keys;
mod lists;
mod names;
mod numbering;
mod plain;
mod policy;
mod read;
mod renumber;
mod tree;

pub use checks::NAME_LIMIT;
pub use fault::PolicyFault;
pub use growth::{GrowthFault, grown_from};
pub use lists::are_rivals;
pub use policy::Policy;
pub use read::read_policy;
