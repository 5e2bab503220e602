//! Cartesian grids of ranks: coordinates, shifts and neighbours. (MPI 4.1, chapter 8.)
//!
//! Ranks, dimensions, coordinates and slots count from 0.
#![tactic(auto)]

mod cell;
mod fault;
mod grid;
pub mod laws;
mod lists;
mod nearby;

pub use fault::{BadCoord, BadDirection, GridFault, fault_of};
pub use grid::{DIMENSION_LIMIT, Grid, Shift};
