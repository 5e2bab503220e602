//! Why no seal was made of what a source gives.

use thiserror::Error;
use wall_labels::NoMemory;

/// Why no seal was made of what a source gives, or was not written to its end. Lines and entries
/// count from 1.
#[derive(Clone, Copy, Debug, PartialEq, Eq, Error)]
pub enum SealStop {
    /// The first finished line that is not in its form, or that stands behind the end. What stands
    /// behind it is not read.
    #[error("line {0}")]
    BadLine(u64),
    /// The line of this number, finished or not, is longer than `LINE_LIMIT` of `book_stream`, and
    /// all before it are in their form. It is told as soon as so much of it was read.
    #[error("line {0} is too long")]
    LongLine(u64),
    /// Each finished line may stand where it does, and the entry of this number is the first that
    /// the posts don't give; it has the number after the last where a verdict is missing before the
    /// end.
    #[error("entry {0} is not what the posts give")]
    BadEntry(u64),
    /// There are more than 2^62 entries, or the source did not come to its end within 2^64 reads.
    #[error("too many entries")]
    TooMany,
    /// The source failed, and no finished line that it gave before is at fault.
    #[error("read fault")]
    Read,
    /// The writer failed.
    #[error("write fault")]
    Write,
    #[error("out of memory")]
    NoMemory,
}

impl From<NoMemory> for SealStop {
    ghost use Rattle.std.specs.Prelude.{◌≡◌};
    ghost use Rattle.seal_stream.specs.declared.stop.SealStop.TheVariants.{NoMemory};

    ghost from_gives = { λ _ e. e ≡ NoMemory };

    fn from(_refused: NoMemory) -> SealStop {
        SealStop::NoMemory
    }
}
