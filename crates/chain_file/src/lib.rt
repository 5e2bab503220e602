//! Chain files: which runs there were, in their order, by one line for each that began and one for
//! each that has ended, with the digests of its policy and its book, and the head of all bytes
//! before it at the end of each line. (Own format.)
#![tactic(auto)]

mod fault;
mod file;
pub mod laws;
mod line;
mod path;
mod read;
mod run;
mod walk;
mod words;

pub use fault::{ChainFault, EnterFault};
pub use file::ChainFile;
pub use path::Path;
pub use read::read_chain;
pub use run::{Begun, Run};
