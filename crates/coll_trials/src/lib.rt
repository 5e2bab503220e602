//! The tests of labels, policy, histories, the collectives' rules, pending instances and the
//! verdict, through their public calls.
//!
//! They stand in a crate of their own, since a check of a crate's tests proves the crate once more;
//! here there is nothing to prove but the tests.
#![tactic(auto)]

#[cfg(test)]
mod books;
#[cfg(test)]
mod communicators;
#[cfg(test)]
mod elems;
#[cfg(test)]
mod entries;
#[cfg(test)]
mod grids;
#[cfg(test)]
mod groups;
#[cfg(test)]
mod growth;
#[cfg(test)]
mod histories;
#[cfg(test)]
mod instances;
#[cfg(test)]
mod labels;
#[cfg(test)]
mod memory;
#[cfg(test)]
mod parties;
#[cfg(test)]
mod pending;
#[cfg(test)]
mod policies;
#[cfg(test)]
mod routes;
#[cfg(test)]
mod texts;
#[cfg(test)]
mod verdicts;
