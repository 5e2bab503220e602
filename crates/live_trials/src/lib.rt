//! The tests of live sessions (`live_session`), through their public calls, over devices in memory.
//!
//! They stand in a crate of their own, since a check of a crate's tests proves the crate once more;
//! here there is nothing to prove but the tests.
#![tactic(auto)]

#[cfg(test)]
mod alone;
#[cfg(test)]
mod back;
#[cfg(test)]
mod devices;
#[cfg(test)]
mod held;
#[cfg(test)]
mod machines;
#[cfg(test)]
mod memory;
#[cfg(test)]
mod parties;
#[cfg(test)]
mod prompt;
#[cfg(test)]
mod together;
#[cfg(test)]
mod unbooked;
