//! The kinds of collectives, what their members state, and which element of which rank goes where.
//! (MPI 4.1, chapters 6 to 8.)
//!
//! Ranks, elements, places, slots and blocks count from 0. Only `copy` and `Statements::vacant`
//! take memory.
#![tactic(auto)]

mod fault;
mod fields;
mod gathering;
mod kind;
mod lane;
pub mod laws;
mod lists;
mod roll;
mod route;
mod signature;
mod statement;

pub use fault::{ELEMENT_LIMIT, ShapeFault, shape_fault};
pub use gathering::{Gathering, gathered};
pub use kind::Kind;
pub use lane::{Piece, Source};
pub use lists::{Flags, Numbers};
pub use roll::{Roll, Shape, Statements};
pub use route::{is_missing, piece, places, routed, source};
pub use signature::Signature;
pub use statement::{Own, Stated};
