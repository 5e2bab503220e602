//! Why a policy file is refused.
use std::alloc::{AllocError, AllocFailed};
use thiserror::Error;
use wall_labels::NoMemory;

/// Why a tree gives no record.
#[derive(Clone, Copy)]
pub(crate) enum FormFault {
    MissingKey,
    NoMemory,
}

impl From<NoMemory> for FormFault {
    ghost use Rattle.std.specs.Prelude.{◌≡◌};
    ghost use Rattle.wall_policy.specs.declared.fault.FormFault.TheVariants.{NoMemory};

    ghost from_gives = { λ _ e. e ≡ NoMemory };

    fn from(_refused: NoMemory) -> FormFault {
        FormFault::NoMemory
    }
}

impl From<AllocError> for FormFault {
    ghost use Rattle.std.specs.Prelude.{◌≡◌};
    ghost use Rattle.wall_policy.specs.declared.fault.FormFault.TheVariants.{NoMemory};

    ghost from_gives = { λ _ e. e ≡ NoMemory };

    fn from(refused: AllocError) -> FormFault {
        FormFault::from(NoMemory::from(refused))
    }
}

impl<T: Drop> From<AllocFailed<T>> for FormFault {
    ghost use Rattle.std.specs.Prelude.{◌≡◌};
    ghost use Rattle.wall_policy.specs.declared.fault.FormFault.TheVariants.{NoMemory};

    ghost from_gives = { λ _ e. e ≡ NoMemory };

    fn from(refused: AllocFailed<T>) -> FormFault {
        FormFault::from(NoMemory::from(refused))
    }
}

/// Why a policy file is refused: the first of these that holds of its text. (Own format.)
///
/// `NoMemory` tells that a growth was refused; it never stands for bytes that are not UTF-8.
#[derive(Clone, Copy, Debug, PartialEq, Eq, Error)]
pub enum PolicyFault {
    /// The bytes are not UTF-8, or not a TOML document as the crate `toml` reads it.
    #[error("NotToml")]
    NotToml,
    /// `version` is absent, or neither the integer 1 nor 2.
    #[error("BadVersion")]
    BadVersion,
    /// A required key is absent, a known key has another kind of value than it should, or there is
    /// no process.
    #[error("MissingKey")]
    MissingKey,
    /// The document or one of its tables has a key that is not known there.
    #[error("UnknownKey")]
    UnknownKey,
    /// A class, dataset or process has a name outside the rule, or a dataset is called `public` or
    /// `none`.
    #[error("BadName")]
    BadName,
    /// Two classes, two datasets of any classes, two processes or two operations are written alike.
    #[error("DuplicateName")]
    DuplicateName,
    /// A home is no dataset.
    #[error("UnknownDataset")]
    UnknownDataset,
    /// An operation is none of a reduction's.
    #[error("BadOp")]
    BadOp,
    /// A least number of contributors is below 2 or above the most processes, or one of different
    /// datasets is below 1 or above that of contributors.
    #[error("BadLeast")]
    BadLeast,
    /// There are more processes, datasets or classes than the limits allow.
    #[error("TooMany")]
    TooMany,
    /// Memory ran out.
    #[error("NoMemory")]
    NoMemory,
}

impl From<NoMemory> for PolicyFault {
    ghost use Rattle.std.specs.Prelude.{◌≡◌};
    ghost use Rattle.wall_policy.specs.declared.fault.PolicyFault.TheVariants.{NoMemory};

    ghost from_gives = { λ _ e. e ≡ NoMemory };

    fn from(_refused: NoMemory) -> PolicyFault {
        PolicyFault::NoMemory
    }
}

impl From<AllocError> for PolicyFault {
    ghost use Rattle.std.specs.Prelude.{◌≡◌};
    ghost use Rattle.wall_policy.specs.declared.fault.PolicyFault.TheVariants.{NoMemory};

    ghost from_gives = { λ _ e. e ≡ NoMemory };

    fn from(refused: AllocError) -> PolicyFault {
        PolicyFault::from(NoMemory::from(refused))
    }
}
