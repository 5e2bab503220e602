//! Why a text has no seal.

use thiserror::Error;
use wall_labels::NoMemory;

/// Why a text has no seal. Lines and entries count from 1.
#[derive(Clone, Copy, Debug, PartialEq, Eq, Error)]
pub enum SealFault {
    /// The first finished line that is not in its form, or that stands behind the end.
    #[error("line {0}")]
    BadLine(u64),
    /// The first entry that the posts don't give; the number after the last where a verdict is
    /// missing before the end.
    #[error("entry {0} is not what the posts give")]
    BadEntry(u64),
    /// Memory ran out.
    #[error("out of memory")]
    NoMemory,
}

impl From<NoMemory> for SealFault {
    ghost use Rattle.std.specs.Prelude.{◌≡◌};
    ghost use Rattle.book_seal.specs.declared.fault.SealFault.TheVariants.{NoMemory};

    ghost from_gives = { λ _ e. e ≡ NoMemory };

    fn from(_refused: NoMemory) -> SealFault {
        SealFault::NoMemory
    }
}
