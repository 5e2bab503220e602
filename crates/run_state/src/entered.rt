//! What entering a post tells.

use coll_routes::Stated;
use coll_values::Full;
use run_model::Outcome;
use wall_labels::NoMemory;

/// What entering a post tells. Instances of a communicator count from 0.
#[derive(Drop)]
pub enum Entered<X> {
    /// Instance `k` waits for other members.
    Waiting {
        k: u64,
    },
    /// It was the last of instance `k`, with this outcome.
    Settled {
        full: Full<X>,
        k: u64,
        outcome: Outcome,
    },
}

/// A post for which memory ran out, with what was handed in.
#[derive(Drop)]
pub struct Unentered<X> {
    pub refused: NoMemory,
    pub stated: Stated,
    pub part: X,
}
