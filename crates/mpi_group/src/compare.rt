//! What a comparison of groups answers.

/// How two groups compare. (MPI 4.1, section 7.3.1.)
#[derive(Clone, Copy, Debug, PartialEq, Eq)]
pub enum GroupCompare {
    /// The same members in the same order.
    Identical,
    /// The same members in another order.
    Similar,
    Unequal,
}
