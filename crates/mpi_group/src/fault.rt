//! Why a group isn't made.
ghost use Rattle.std.specs.Prelude.{◌≡◌};
ghost use Rattle.mpi_group.specs.declared.fault.GroupFault.TheVariants.{NoMemory};

use std::alloc::AllocError;
use thiserror::Error;

/// Why a group isn't made. Of those that hold, the first is answered.
#[derive(Clone, Copy, Debug, PartialEq, Eq, Error)]
pub enum GroupFault {
    /// A rank at or above the size of the group.
    #[error("a rank outside the group")]
    BadRank,
    /// A rank, or a process, that is named twice.
    #[error("a rank twice")]
    RepeatedRank,
    #[error("out of memory")]
    NoMemory,
}

impl From<wall_labels::NoMemory> for GroupFault {
    ghost from_gives = { λ _ fault. fault ≡ NoMemory };

    fn from(_refused: wall_labels::NoMemory) -> GroupFault {
        GroupFault::NoMemory
    }
}

impl From<AllocError> for GroupFault {
    ghost from_gives = { λ _ fault. fault ≡ NoMemory };

    fn from(refused: AllocError) -> GroupFault {
        GroupFault::from(wall_labels::NoMemory::from(refused))
    }
}
