//! Why a line is refused.
use std::alloc::{AllocError, AllocFailed};
use thiserror::Error;
use wall_labels::NoMemory;

/// Why a line is no call: its first fault from the left. (Own format.)
///
/// `NoMemory` comes where a growth was refused. A whole line that has a fault is answered its fault
/// nevertheless: out of memory comes only in place of success.
#[derive(Clone, Copy, Debug, PartialEq, Eq, Error)]
pub enum LineFault {
    /// The first word asks for nothing that is known.
    #[error("BadVerb")]
    BadVerb,
    /// A byte is not printable, a field is empty, missing or one too many, or another word than
    /// `as` stands where that may stand.
    #[error("BadShape")]
    BadShape,
    /// A field is not in its form, or out of its range.
    #[error("BadField")]
    BadField,
    /// There is no such kind of collective.
    #[error("BadKind")]
    BadKind,
    /// There is no such type of elements.
    #[error("BadType")]
    BadType,
    /// There is no such operation.
    #[error("UnknownOp")]
    UnknownOp,
    /// The label is neither `public` nor a dataset of the policy.
    #[error("BadLabel")]
    BadLabel,
    /// An element is no number of its type.
    #[error("BadNumber")]
    BadNumber,
    /// The last pair lacks its index.
    #[error("OddPair")]
    OddPair,
    /// Memory ran out.
    #[error("NoMemory")]
    NoMemory,
}

impl From<NoMemory> for LineFault {
    ghost use Rattle.std.specs.Prelude.{◌≡◌};
    ghost use Rattle.coll_text.specs.declared.fault.LineFault.TheVariants.{NoMemory};

    ghost from_gives = { λ _ e. e ≡ NoMemory };

    fn from(_refused: NoMemory) -> LineFault {
        LineFault::NoMemory
    }
}

impl From<AllocError> for LineFault {
    ghost use Rattle.std.specs.Prelude.{◌≡◌};
    ghost use Rattle.coll_text.specs.declared.fault.LineFault.TheVariants.{NoMemory};

    ghost from_gives = { λ _ e. e ≡ NoMemory };

    fn from(refused: AllocError) -> LineFault {
        LineFault::from(NoMemory::from(refused))
    }
}

impl<T: Drop> From<AllocFailed<T>> for LineFault {
    ghost use Rattle.std.specs.Prelude.{◌≡◌};
    ghost use Rattle.coll_text.specs.declared.fault.LineFault.TheVariants.{NoMemory};

    ghost from_gives = { λ _ e. e ≡ NoMemory };

    fn from(refused: AllocFailed<T>) -> LineFault {
        LineFault::from(NoMemory::from(refused))
    }
}
