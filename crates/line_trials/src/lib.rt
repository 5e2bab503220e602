//! The tests of one command line (`program_line`) over a system in memory, through its public calls.
//!
//! They stand in a crate of their own, since a check of a crate's tests proves the crate once more;
//! here there is nothing to prove but the tests.
#![tactic(auto)]

#[cfg(test)]
mod chains;
#[cfg(test)]
mod cut_short;
#[cfg(test)]
mod disk;
#[cfg(test)]
mod disk_itself;
#[cfg(test)]
mod files;
#[cfg(test)]
mod looks;
#[cfg(test)]
mod uses;
#[cfg(test)]
mod words;
