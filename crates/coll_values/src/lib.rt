//! What each member of a full instance is delivered. (MPI 4.1, chapter 6, and section 8.6 between
//! neighbours.)
//!
//! Ranks, places and elements count from 0; a pair is one element and two numbers. `room` takes all
//! the memory that a delivery needs, and `fill` none; `deliver` is both in one. Who only reads a
//! block of a kind that doesn't reduce asks `stretch_at` where it stands.
#![tactic(auto)]

mod delivery;
mod filling;
mod full;
pub mod laws;
mod parts;
mod sizes;
mod space;
mod stretch;

pub use delivery::{Block, Delivery, Integers};
pub use filling::{deliver, fill, room};
pub use full::Full;
pub use parts::Parts;
pub use space::Room;
pub use stretch::{Stretch, stretch_at};
pub use wall_labels::NoMemory;
