//! Why there is no buffer.
ghost use Rattle.std.specs.Prelude.{◌≡◌};

use std::alloc::AllocError;
use thiserror::Error;
use wall_labels::NoMemory;

/// Why numbers are no buffer of a type.
#[derive(Clone, Copy, Debug, PartialEq, Eq, Error)]
pub enum BufferFault {
    /// A number is outside the type.
    #[error("a number is outside the type")]
    BadNumber,
    /// A pair lacks its index.
    #[error("a pair lacks its index")]
    OddPair,
    /// Memory was refused.
    #[error("out of memory")]
    NoMemory,
}

impl From<NoMemory> for BufferFault {
    ghost use Rattle.mpi_elems.specs.declared.fault.BufferFault.TheVariants.{NoMemory};

    ghost from_gives = { λ _ f. f ≡ NoMemory };

    fn from(_: NoMemory) -> BufferFault {
        BufferFault::NoMemory
    }
}

impl From<AllocError> for BufferFault {
    ghost use Rattle.mpi_elems.specs.declared.fault.BufferFault.TheVariants.{NoMemory};

    ghost from_gives = { λ _ f. f ≡ NoMemory };

    fn from(refused: AllocError) -> BufferFault {
        BufferFault::from(NoMemory::from(refused))
    }
}
