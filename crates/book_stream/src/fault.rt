//! Why a source has no sound book.

use thiserror::Error;
use wall_labels::NoMemory;

/// Why a source has no sound book, or is not read to its end. Lines and entries count from 1.
#[derive(Clone, Copy, Debug, PartialEq, Eq, Error)]
pub enum AuditFault {
    /// The line of this number is the first that is not in its form, or that stands behind the end.
    /// What stands behind it is not read.
    #[error("line {0}")]
    BadLine(u64),
    /// The line of this number is longer than `LINE_LIMIT`, and all before it are in their form. It is
    /// told as soon as so much of it was read.
    #[error("line {0} is too long")]
    LongLine(u64),
    /// The text stops before a finished `end` line, and all finished lines are in their form.
    #[error("cut")]
    Cut,
    /// The text is a book, and the entry of this number is the first that the posts don't give.
    /// Where an entry is missing at the end it has the number after the last.
    #[error("entry {0} is not what the posts give")]
    BadEntry(u64),
    /// There are more than 2^62 entries, or the source did not come to its end within 2^64 reads.
    #[error("too many entries")]
    TooMany,
    /// The source failed, and no line that it gave before is at fault.
    #[error("read fault")]
    Read,
    #[error("out of memory")]
    NoMemory,
}

impl From<NoMemory> for AuditFault {
    ghost use Rattle.std.specs.Prelude.{◌≡◌};
    ghost use Rattle.book_stream.specs.declared.fault.AuditFault.TheVariants.{NoMemory};

    ghost from_gives = { λ _ e. e ≡ NoMemory };

    fn from(_refused: NoMemory) -> AuditFault {
        AuditFault::NoMemory
    }
}
