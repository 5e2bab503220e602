//! Why a book is not written.
use std::alloc::AllocError;
use thiserror::Error;
use wall_labels::{Failed, NoMemory};

/// Why a book is not written any more. A prefix of its text is.
#[derive(Clone, Copy, Debug, PartialEq, Eq, Error)]
pub enum Unbooked {
    /// The writer failed.
    #[error("write fault")]
    Write,
    /// Memory ran out.
    #[error("out of memory")]
    NoMemory,
    /// The book has 2^64 entries. (Own rule.)
    #[error("too long")]
    TooLong,
}

impl From<Failed> for Unbooked {
    ghost use Rattle.std.specs.Prelude.{◌≡◌};
    ghost use Rattle.live_book.specs.declared.unbooked.Unbooked.TheVariants.{Write};

    ghost from_gives = { λ _ e. e ≡ Write };

    fn from(_e: Failed) -> Unbooked {
        Unbooked::Write
    }
}

impl From<NoMemory> for Unbooked {
    ghost use Rattle.std.specs.Prelude.{◌≡◌};
    ghost use Rattle.live_book.specs.declared.unbooked.Unbooked.TheVariants.{NoMemory};

    ghost from_gives = { λ _ e. e ≡ NoMemory };

    fn from(_refused: NoMemory) -> Unbooked {
        Unbooked::NoMemory
    }
}

impl From<AllocError> for Unbooked {
    ghost use Rattle.std.specs.Prelude.{◌≡◌};
    ghost use Rattle.live_book.specs.declared.unbooked.Unbooked.TheVariants.{NoMemory};

    ghost from_gives = { λ _ e. e ≡ NoMemory };

    fn from(refused: AllocError) -> Unbooked {
        Unbooked::from(NoMemory::from(refused))
    }
}
