//! The tests of the seal of a book, of chains of books and of chain files, through their public
//! calls.
//!
//! They stand in a crate of their own, since a check of a crate's tests proves the crate once more.
#![tactic(auto)]

#[cfg(test)]
mod chains;
#[cfg(test)]
mod cuts;
#[cfg(test)]
mod days;
#[cfg(test)]
mod grown;
#[cfg(test)]
mod pieces;
#[cfg(test)]
mod refused;
#[cfg(test)]
mod runs;
#[cfg(test)]
mod stored;
