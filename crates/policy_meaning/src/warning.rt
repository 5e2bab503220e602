//! What a policy may say and hardly means.

use wall_labels::{DatasetId, Op, ProcessId};

/// What is doubtful of an operation whose results the policy takes for sanitised. The first two say
/// that none ever is, all others speak of one that is: they are due only where none of the first two
/// is.
#[derive(Clone, Copy, Debug, PartialEq, Eq)]
pub enum Doubt {
    /// It takes more contributors than there are processes, so no result is ever sanitised.
    TooFewProcesses,
    /// It takes more different datasets than the labels of one instance can name, so no result is
    /// ever sanitised.
    TooFewDatasets,
    /// The operation picks: its result is the figure of one member.
    TellsOneFigure,
    /// One 0 or 1 of one member settles the result, or no member has one.
    ShowsThrough,
    /// Two contributors are enough: each of the two has the other's figure.
    TwoContributors,
    /// Two different datasets are enough, or one, and two rivals by themselves have contributors
    /// enough.
    FewDatasets,
    /// A sum takes fewer different datasets than [`asked`](crate::asked) has.
    BelowAsked,
}

/// What is allowed in a policy and is hardly meant.
#[derive(Clone, Copy, Debug, PartialEq, Eq)]
pub enum Warning {
    /// No result is ever sanitised: no operation has a `sanitise` rule.
    NothingSanitised,
    /// Something is doubtful of an operation that has one.
    OfOperation { op: Op, doubt: Doubt },
    /// The dataset is the only one of its class, so it has no rival.
    NoRival { dataset: DatasetId },
    /// No process is at home at the dataset.
    NobodysHome { dataset: DatasetId },
    /// The process has no home, and a result of some operation can be sanitised: it may write any
    /// label on what it gives, zeros too, and counts as a contributor of that dataset.
    AnyLabel { process: ProcessId },
}
