//! What is decided of a full instance.

use wall_labels::{Label, ProcessId};
use wall_rules::Rule;

/// Whether an instance delivers, to all its members or to none.
#[derive(Clone, Copy, Debug, PartialEq, Eq)]
pub enum Verdict {
    Granted,
    /// By the star rule the process and label of the lowest rank whose post was barred; by the
    /// simple rule the receiver and the label that it may not have, of the least such pair of
    /// receiver and contributor.
    Denied {
        rule: Rule,
        process: ProcessId,
        label: Label,
    },
}
