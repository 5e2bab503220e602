//! Why posts were barred.

use wall_labels::{DatasetId, Label, ProcessId};

/// A post that the star rule barred, and what it names.
#[derive(Clone, Copy, Debug, PartialEq, Eq)]
pub struct Bar {
    /// The entry of the post, counted from 1.
    pub entry: u64,
    /// Who posted.
    pub process: ProcessId,
    /// The label of the post.
    pub label: Label,
    /// What the process had had access to: the lowest dataset that is not the label's.
    pub held: DatasetId,
}
