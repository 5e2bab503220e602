//! The tests of halls, and of scripts, replies and books as text, through their public calls.
//!
//! They stand in a crate of their own, since a check of a crate's tests proves the crate once more;
//! here there is nothing to prove but the tests, and two rows of definitions.
#![tactic(auto)]

#[cfg(test)]
mod books;
#[cfg(test)]
mod calls;
#[cfg(test)]
mod chains;
#[cfg(test)]
mod checks;
#[cfg(test)]
mod digits;
#[cfg(test)]
mod halls;
#[cfg(test)]
mod kept;
#[cfg(test)]
mod kept_lines;
#[cfg(test)]
mod made;
#[cfg(test)]
mod pieces;
#[cfg(test)]
mod refused;
#[cfg(test)]
mod replays;
pub mod rows;
#[cfg(test)]
mod runs;
#[cfg(test)]
mod scripts;
#[cfg(test)]
mod sizes;
#[cfg(test)]
mod statements;
#[cfg(test)]
mod walls;
#[cfg(test)]
mod worked;
#[cfg(test)]
mod worlds;
