//! Why a script is not answered, or not split.
use coll_text::LineFault;
use std::alloc::AllocError;
use thiserror::Error;
use wall_labels::NoMemory;

/// Why a script was not answered, or not split, to its end.
#[derive(Clone, Copy, Debug, PartialEq, Eq, Error)]
pub enum ScriptFault {
    /// The reader failed, or the script does not end within the limit. No call was applied, and
    /// nothing was written.
    #[error("read fault")]
    Read,
    /// The line of this number, from 1, is no call, or, where a script is split, a call of a
    /// process that the policy lacks. A replay has answered the lines before it.
    #[error("script: line {0}: {1}")]
    Line(u64, LineFault),
    /// The writer failed. A prefix of the lines of the replies is written.
    #[error("write fault")]
    Write,
    /// Memory ran out. In a replay that was before the first line, or at a line that is a call; the
    /// lines of the replies before it are written.
    #[error("out of memory")]
    NoMemory,
}

impl From<NoMemory> for ScriptFault {
    ghost use Rattle.std.specs.Prelude.{◌≡◌};
    ghost use Rattle.hall_script.specs.declared.fault.ScriptFault.TheVariants.{NoMemory};

    ghost from_gives = { λ _ e. e ≡ NoMemory };

    fn from(_refused: NoMemory) -> ScriptFault {
        ScriptFault::NoMemory
    }
}

impl From<AllocError> for ScriptFault {
    ghost use Rattle.std.specs.Prelude.{◌≡◌};
    ghost use Rattle.hall_script.specs.declared.fault.ScriptFault.TheVariants.{NoMemory};

    ghost from_gives = { λ _ e. e ≡ NoMemory };

    fn from(refused: AllocError) -> ScriptFault {
        ScriptFault::from(NoMemory::from(refused))
    }
}
