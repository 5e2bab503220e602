//! Instances that wait for members.

use wall_labels::ProcessId;

/// A member of an instance that waits at the end of a book. Entries count from 1.
#[derive(Clone, Copy, Debug, PartialEq, Eq)]
pub struct Wait {
    pub comm: u32,
    pub k: u64,
    /// An entry that is a post for the instance.
    pub begun: u64,
    pub rank: u32,
    pub process: ProcessId,
    /// The entry of the member's post for it; none where the member is missing.
    pub posted: Option<u64>,
}
