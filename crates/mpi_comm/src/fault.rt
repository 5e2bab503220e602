//! Why a call of the table is refused.
ghost use Rattle.std.specs.Prelude.{◌≡◌};
ghost use Rattle.mpi_comm.specs.declared.fault.CommFault.TheVariants.{NoMemory};

use std::alloc::AllocError;
use thiserror::Error;

/// Why a call of the table is refused. Of those that hold, the first is answered.
#[derive(Clone, Copy, Debug, PartialEq, Eq, Error)]
pub enum CommFault {
    /// No communicator has that number.
    #[error("no such communicator")]
    NoSuchComm,
    /// The process isn't in the communicator.
    #[error("not a member")]
    NotMember,
    /// A rank outside the group, or named twice.
    #[error("not a subgroup")]
    NotSubgroup,
    /// A negative colour.
    #[error("a negative colour")]
    BadColour,
    /// There would be more communicators than the table may have.
    #[error("no room for another communicator")]
    NoRoom,
    #[error("out of memory")]
    NoMemory,
}

impl From<wall_labels::NoMemory> for CommFault {
    ghost from_gives = { λ _ fault. fault ≡ NoMemory };

    fn from(_error: wall_labels::NoMemory) -> CommFault {
        CommFault::NoMemory
    }
}

impl From<AllocError> for CommFault {
    ghost from_gives = { λ _ fault. fault ≡ NoMemory };

    fn from(refused: AllocError) -> CommFault {
        CommFault::from(wall_labels::NoMemory::from(refused))
    }
}
