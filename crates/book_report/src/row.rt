//! The rows of a report: who came to hold what, when and how.

use wall_labels::{DatasetId, ProcessId};

/// How a process came to hold a dataset.
#[derive(Clone, Copy, Debug, PartialEq, Eq)]
pub enum Way {
    /// It held it before the first entry.
    AtFirst,
    /// It posted elements with the dataset's label, and the post passed.
    OwnPost,
    /// Instance `k` of communicator `comm` was granted, and brought it what `from` had given with
    /// the dataset's label: the lowest rank of those who did.
    Delivered { comm: u32, k: u64, from: ProcessId },
}

/// A process, a dataset that it holds, and how it came to that.
#[derive(Clone, Copy, Debug, PartialEq, Eq)]
pub struct Row {
    pub process: ProcessId,
    pub dataset: DatasetId,
    /// The first entry, counted from 1, after which the process holds the dataset; 0 where it held
    /// it before the first. What an instance brings comes with the post that fills it.
    pub entry: u64,
    pub way: Way,
}
