//! A fault of a script with its place.

use coll_text::LineFault;

/// A fault of a script: the line that is no call, or of a process that the policy lacks, and where in
/// it the fault stands.
#[derive(Clone, Copy, Debug, PartialEq, Eq)]
pub struct Found {
    /// The number of the line, from 1.
    pub line: u64,
    /// Where the word at fault begins, in bytes from 1; one more than the line has, where a word is
    /// missing at its end. Where a byte is not printable, its own place.
    pub column: u64,
    pub fault: LineFault,
}
