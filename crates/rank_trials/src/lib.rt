//! The tests of the door, the stage and the ranks, through their public calls.
//!
//! They stand in a crate of their own, since a check of a crate's tests proves the crate once more;
//! here there is nothing to prove but the tests.
#![tactic(auto)]

#[cfg(test)]
mod away;
#[cfg(test)]
mod counts;
#[cfg(test)]
mod doors;
#[cfg(test)]
mod gates;
#[cfg(test)]
mod heard;
#[cfg(test)]
mod outcomes;
#[cfg(test)]
mod parties;
#[cfg(test)]
mod ranks;
#[cfg(test)]
mod refused;
#[cfg(test)]
mod sizes;
#[cfg(test)]
mod stages;
#[cfg(test)]
mod stops;
