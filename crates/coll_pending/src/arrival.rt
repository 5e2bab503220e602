//! Answers to arrivals.

use coll_routes::Stated;
use coll_values::Full;
use thiserror::Error;
use wall_labels::NoMemory;

/// What the next arrival of a member would do.
#[derive(Clone, Copy, Debug, PartialEq, Eq)]
pub enum Next {
    /// It opens an instance; a sole member's fills it too.
    Opens,
    /// It joins an instance that then still waits for others.
    Joins,
    /// It is the last one of an instance.
    Fills,
    /// The instance is of another signature.
    Mismatch,
}

/// What a look finds for the next arrival of a rank on a communicator: the step that takes it looks
/// nothing up again. It holds until the next arrival at these instances.
#[derive(Clone, Copy, Debug, PartialEq, Eq)]
pub struct Meeting {
    pub comm: u32,
    pub rank: u32,
    /// The number of the instance.
    pub k: u64,
    pub does: Next,
}

/// The answer to an arrival.
#[derive(Drop)]
pub enum Arrived<X> {
    /// The instance waits for other members.
    Waiting,
    /// It was the last one: the instance, with the part of each rank.
    Full(Full<X>),
}

/// Why an arrival was refused. Of those that hold, the first is answered.
#[derive(Clone, Copy, Debug, PartialEq, Eq, Error)]
pub enum ArrivalFault {
    /// The instance is of another signature.
    #[error("another signature than the instance's")]
    Mismatch,
    #[error("out of memory")]
    NoMemory,
}

impl From<NoMemory> for ArrivalFault {
    ghost use Rattle.std.specs.Prelude.{◌≡◌};
    ghost use Rattle.coll_pending.specs.declared.arrival.ArrivalFault.TheVariants.{NoMemory};

    ghost from_gives = { λ _ f. f ≡ NoMemory };

    fn from(_refused: NoMemory) -> ArrivalFault {
        ArrivalFault::NoMemory
    }
}

/// An arrival that was refused, with what was handed in.
#[derive(Drop)]
pub struct Unarrived<X> {
    pub fault: ArrivalFault,
    pub stated: Stated,
    pub part: X,
}
