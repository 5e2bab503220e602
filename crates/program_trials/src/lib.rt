//! The tests of the program's commands over devices in memory, and of the words that ask for them,
//! through their public calls.
//!
//! They stand in a crate of their own, since a check of a crate's tests proves the crate once more;
//! here there is nothing to prove but the tests.
#![tactic(auto)]

#[cfg(test)]
mod chains;
#[cfg(test)]
mod checks;
#[cfg(test)]
mod endings;
#[cfg(test)]
mod hostile;
#[cfg(test)]
mod kinds;
#[cfg(test)]
mod limits;
#[cfg(test)]
mod looks;
#[cfg(test)]
mod memory;
#[cfg(test)]
mod policies;
#[cfg(test)]
mod runs;
#[cfg(test)]
mod serves;
#[cfg(test)]
mod texts;
#[cfg(test)]
mod words;
