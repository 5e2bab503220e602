//! What is looked for in a policy, so as to see its fault where it stands.
ghost use Rattle.std.specs.Prelude.{◌≡◌};
ghost use Rattle.policy_places.specs.Signs.{signs_of};

use wall_policy::PolicyFault;

/// What stands on the line of a fault.
#[derive(Clone, Copy, Debug, PartialEq, Eq)]
pub enum Sign {
    /// No longer part of the file is TOML. (`NotToml`)
    NotToml,
    /// `version`, and not one that is read. (`BadVersion`)
    Version,
    /// A key outside the arrays that is unknown there. (`BadVersion` where no version is stated,
    /// and `MissingKey` where no array of processes is there)
    FileKey,
    /// A known key with another kind of value. (`MissingKey`)
    OtherKind,
    /// A key that is unknown in its table, which lacks one. (`MissingKey`)
    StrayKey,
    /// The beginning of a table that lacks a key, and has none that is unknown. (`MissingKey`)
    Lacking,
    /// A key that is unknown in its table. (`UnknownKey`)
    UnknownKey,
    BadName,
    /// A name that stands before it too.
    DuplicateName,
    /// A home that is no dataset of the file.
    UnknownDataset,
    BadOp,
    BadLeast,
    /// The first that is too many.
    TooMany,
}

/// What to look for, where a document has the fault.
pub(crate) fn signs_of(fault: PolicyFault) -> &'static [Sign]
    ensures { result.now ≡ signs_of fault }
{
    match fault {
        PolicyFault::NotToml => &[],
        PolicyFault::BadVersion => &[Sign::Version, Sign::FileKey],
        PolicyFault::MissingKey => &[
            Sign::OtherKind,
            Sign::StrayKey,
            Sign::Lacking,
            Sign::FileKey,
        ],
        PolicyFault::UnknownKey => &[Sign::UnknownKey],
        PolicyFault::BadName => &[Sign::BadName],
        PolicyFault::DuplicateName => &[Sign::DuplicateName],
        PolicyFault::UnknownDataset => &[Sign::UnknownDataset],
        PolicyFault::BadOp => &[Sign::BadOp],
        PolicyFault::BadLeast => &[Sign::BadLeast],
        PolicyFault::TooMany => &[Sign::TooMany],
        PolicyFault::NoMemory => &[],
    }
}
