//! Out of memory, as evidence.

ghost use Rattle.std.specs.Prelude.{◌≡◌};

use std::alloc::{AllocError, AllocFailed};
use std::error::Error;
use std::fmt;

/// A growth was refused for out of memory. What was asked did not happen.
///
/// It is evidence, and no mere word: nobody else can write its field down, and it can't be copied.
/// It is made of what std gives where it refuses a growth, by `?` or `from`.
#[derive(Debug, Drop, PartialEq, Eq)]
pub struct NoMemory(());

impl NoMemory {
    /// The evidence, and the value that was not stored.
    pub fn with_value<T>(refused: AllocFailed<T>) -> (NoMemory, T)
        ensures { result.1 ≡ refused.value }
    {
        let AllocFailed { value } = refused;
        (NoMemory(()), value)
    }

    /// The evidence again, where a fault that can be copied says that a growth was refused. It is
    /// used in an arm for such a fault alone, which no type says: `tests/evidence` refuses it
    /// elsewhere.
    pub fn of_fault() -> NoMemory {
        NoMemory(())
    }
}

impl fmt::Display for NoMemory {
    ghost use Rattle.std.specs.Prelude.{Some, codes};

    ghost output = { λ _. Some (codes "out of memory") };

    fn fmt<W: fmt::Write>(&self, f: &mut fmt::Formatter<W>) -> fmt::Result {
        f.write_str("out of memory")
    }
}

impl Error for NoMemory {}

impl From<AllocError> for NoMemory {
    fn from(_e: AllocError) -> NoMemory {
        NoMemory(())
    }
}

impl<T: Drop> From<AllocFailed<T>> for NoMemory {
    fn from(_e: AllocFailed<T>) -> NoMemory {
        NoMemory(())
    }
}
