//! Why a text is no chain file, and why a run is not entered.
use std::alloc::AllocError;
use thiserror::Error;
use wall_labels::NoMemory;

/// Why a text is no chain file. Lines count from 1. (Own format.)
#[derive(Clone, Copy, Debug, PartialEq, Eq, Error)]
pub enum ChainFault {
    /// The line of this number is the first that is not in its form, or that may not stand there.
    #[error("line {0}")]
    BadLine(u64),
    /// The line of this number is the first that should not stand there: its head is not the one
    /// that is due.
    #[error("line {0}: head is not due")]
    BadHead(u64),
    /// The text stops within a line, and all lines before are in order.
    #[error("cut")]
    Cut,
    /// Memory ran out.
    #[error("out of memory")]
    NoMemory,
}

impl From<NoMemory> for ChainFault {
    ghost use Rattle.std.specs.Prelude.{◌≡◌};
    ghost use Rattle.chain_file.specs.declared.fault.ChainFault.TheVariants.{NoMemory};

    ghost from_gives = { λ _ e. e ≡ NoMemory };

    fn from(_refused: NoMemory) -> ChainFault {
        ChainFault::NoMemory
    }
}

/// Why a run is not entered. The chain is as it was.
#[derive(Clone, Copy, Debug, PartialEq, Eq, Error)]
pub enum EnterFault {
    /// A run begins where one is under way, or ends where none is.
    #[error("out of order")]
    OutOfOrder,
    /// Memory ran out.
    #[error("out of memory")]
    NoMemory,
}

impl From<NoMemory> for EnterFault {
    ghost use Rattle.std.specs.Prelude.{◌≡◌};
    ghost use Rattle.chain_file.specs.declared.fault.EnterFault.TheVariants.{NoMemory};

    ghost from_gives = { λ _ e. e ≡ NoMemory };

    fn from(_refused: NoMemory) -> EnterFault {
        EnterFault::NoMemory
    }
}

impl From<AllocError> for EnterFault {
    ghost use Rattle.std.specs.Prelude.{◌≡◌};
    ghost use Rattle.chain_file.specs.declared.fault.EnterFault.TheVariants.{NoMemory};

    ghost from_gives = { λ _ e. e ≡ NoMemory };

    fn from(refused: AllocError) -> EnterFault {
        EnterFault::from(NoMemory::from(refused))
    }
}
