//! What a policy says, fact by fact.

use wall_labels::{ClassId, DatasetId, Op, ProcessId};

/// One thing that a policy says.
#[derive(Clone, Copy, Debug, PartialEq, Eq)]
pub enum Fact {
    /// There is this class: its datasets are each other's rivals.
    HasClass {
        class: ClassId,
    },
    /// The process has had access to this dataset from the start.
    AtHome {
        process: ProcessId,
        dataset: DatasetId,
    },
    /// The process has had access to nothing at the start.
    NoHome {
        process: ProcessId,
    },
    /// Two processes, the lower first, that are at home at rivals: neither ever holds data of the
    /// other's home.
    KeptApart {
        left: ProcessId,
        right: ProcessId,
    },
    /// A result of the operation is sanitised from so many contributors on, if their labels name so
    /// many different datasets.
    SanitisedFrom {
        op: Op,
        least: u32,
        distinct: u32,
    },
}
