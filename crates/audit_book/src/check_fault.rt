//! Why a book is refused.

use thiserror::Error;
use wall_labels::NoMemory;

/// Why a book is refused.
#[derive(Clone, Copy, Debug, PartialEq, Eq, Error)]
pub enum BookFault {
    /// The first entry, counted from 1, that the posts don't give. Where an entry is missing at the
    /// end it has the number after the last.
    #[error("entry {0} is not what the posts give")]
    BadEntry(u64),
    #[error("out of memory")]
    NoMemory,
}

impl From<NoMemory> for BookFault {
    ghost use Rattle.std.specs.Prelude.{◌≡◌};
    ghost use Rattle.audit_book.specs.declared.check_fault.BookFault.TheVariants.{NoMemory};

    ghost from_gives = { λ _ e. e ≡ NoMemory };

    fn from(_refused: NoMemory) -> BookFault {
        BookFault::NoMemory
    }
}
