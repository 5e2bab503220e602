//! Why instances were denied.

use wall_labels::{DatasetId, Label, ProcessId};

/// Whether a rival is held, or would come too.
#[derive(Clone, Copy, Debug, PartialEq, Eq)]
pub enum Source {
    /// The process held the rival when the instance was full.
    Held,
    /// It would get the rival too, by what `giver`, of a lower rank than the other giver, posted in
    /// entry `given`. It held no rival then.
    Beside { giver: ProcessId, given: u64 },
}

/// What a rule names by which an instance was denied.
#[derive(Clone, Copy, Debug, PartialEq, Eq)]
pub enum Reason {
    /// The star rule: the process's post with this label, entry `post`, was barred, and no post of
    /// a lower rank was.
    Star {
        label: Label,
        post: u64,
    },
    /// The simple rule: the process would get data of `dataset` by what `giver` posted in entry
    /// `given`, and `rival` is a rival of that.
    Simple {
        dataset: DatasetId,
        giver: ProcessId,
        given: u64,
        rival: DatasetId,
        source: Source,
    },
}

/// An instance that was denied, and why. Entries count from 1.
#[derive(Clone, Copy, Debug, PartialEq, Eq)]
pub struct Denial {
    /// The entry that tells the denial. The entry before it is the post that filled the instance.
    pub entry: u64,
    pub comm: u32,
    pub k: u64,
    /// Whom the rule names: whose post was barred, or who would have got a rival's data.
    pub process: ProcessId,
    pub reason: Reason,
}
