//! Whose results were sanitised.

use wall_labels::ProcessId;

/// A member of an instance that was granted, whose result was sanitised. Entries count from 1.
#[derive(Clone, Copy, Debug, PartialEq, Eq)]
pub struct Sanitised {
    /// The entry of the post that filled the instance.
    pub entry: u64,
    pub comm: u32,
    pub k: u64,
    pub rank: u32,
    pub process: ProcessId,
}
