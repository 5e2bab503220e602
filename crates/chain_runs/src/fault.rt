//! Why a run of a chain does not stand.

use book_stream::AuditFault;
use thiserror::Error;
use wall_labels::NoMemory;
use wall_policy::{GrowthFault, PolicyFault};

/// Why a run of a chain does not stand, in the order in which it is found. (Own rule.)
#[derive(Clone, Copy, Debug, PartialEq, Eq, Error)]
pub enum RunFault {
    /// Its policy file can't be read, or has more than `SCRIPT_LIMIT` bytes.
    #[error("read fault of its policy")]
    UnreadPolicy,
    /// Its policy file has another digest than the chain says.
    #[error("another policy")]
    OtherPolicy,
    /// Its policy file says no policy.
    #[error("policy: {0}")]
    BadPolicy(PolicyFault),
    /// Its policy has not grown from that of the run before it. Numbers are those of the latter.
    #[error("policy: {0}")]
    NotGrown(GrowthFault),
    /// Its book can't be read, is none, or is not sound.
    #[error("book: {0}")]
    BadBook(AuditFault),
    /// Its book is sound, and has another digest than the chain says.
    #[error("another book")]
    OtherBook,
    /// The books of all runs up to it have 2^64 entries or more.
    #[error("too many entries")]
    TooMany,
    /// Memory ran out.
    #[error("out of memory")]
    NoMemory,
}

impl From<NoMemory> for RunFault {
    ghost use Rattle.std.specs.Prelude.{◌≡◌};
    ghost use Rattle.chain_runs.specs.declared.fault.RunFault.TheVariants.{NoMemory};

    ghost from_gives = { λ _ e. e ≡ NoMemory };

    fn from(_refused: NoMemory) -> RunFault {
        RunFault::NoMemory
    }
}
