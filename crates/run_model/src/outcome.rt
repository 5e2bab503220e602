//! Outcomes of full instances.

use wall_labels::{Label, ProcessId};
use wall_rules::Rule;

/// The outcome of a full instance: a collective is granted or denied, a constructor makes
/// communicators or finds no room.
#[derive(Clone, Copy, Debug, PartialEq, Eq)]
pub enum Outcome {
    /// All members get what is theirs.
    Granted,
    /// Nobody gets anything. By the star rule the process and label of the lowest rank whose post
    /// was barred; by the simple rule the receiver and the label that it may not have, of the least
    /// such pair of receiver and contributor.
    Denied {
        rule: Rule,
        process: ProcessId,
        label: Label,
    },
    /// So many new communicators, from this number on; where there is none, `first` is the number
    /// that the next would get.
    Made {
        first: u32,
        number: u32,
    },
    /// The new communicators would pass the limit, and none was made.
    NoRoom,
}
