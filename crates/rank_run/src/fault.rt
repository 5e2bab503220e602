//! Why scripts were not run to their ends.
ghost use Rattle.std.specs.Prelude.{◌≡◌};

use crate::ready::MemoryRefused;
use thiserror::Error;

/// Why scripts were not run, or not to their ends.
#[derive(Clone, Copy, Debug, PartialEq, Eq, Error)]
pub enum RunFault {
    /// There is not one script for each process. No thread was started.
    #[error("not one script for each process")]
    BadScripts,
    /// A thread was refused. No call was made: the threads that had started were told to give up.
    #[error("a thread was refused")]
    NoThread,
    /// The door had 2^62 turns before the scripts were at their ends. So it comes only where the
    /// scripts' acts, each tried as often as it may be, are as many.
    #[error("the door is exhausted")]
    Exhausted,
    /// A growth of memory was refused. No thread was started.
    #[error("out of memory")]
    NoMemory,
}

impl From<MemoryRefused> for RunFault {
    ghost use Rattle.rank_run.specs.declared.fault.RunFault.TheVariants.{NoMemory as OutOfMemory};

    ghost from_gives = { λ error result. result ≡ OutOfMemory };

    fn from(_error: MemoryRefused) -> RunFault {
        RunFault::NoMemory
    }
}
