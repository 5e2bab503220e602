//! What is said of a script.

use coll_text::LineFault;

/// What is said of a script.
#[derive(Debug, Drop)]
pub struct ScriptFaults {
    /// A line for each line of the script that is no call, or of a process that the policy lacks.
    pub text: Vec<u8>,
    /// The number of the first of them, from 1, and its fault, as a run of the script tells it; none
    /// where each line is a call of a process of the policy or is passed over.
    pub first: Option<(u64, LineFault)>,
}
