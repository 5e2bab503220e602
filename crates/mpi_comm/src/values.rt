//! What the calls of the table take and answer.

/// What a member states at a split. (MPI 4.1, section 7.4.2.)
#[derive(Clone, Copy, Debug, PartialEq, Eq)]
pub struct Ask {
    /// The communicator that the member is to be in; `None` is the undefined colour.
    pub colour: Option<i32>,
    /// The member's place there, relative to the others of its colour.
    pub key: i32,
}

/// The communicators that a constructor made: so many, from this number on.
#[derive(Clone, Copy, Debug, PartialEq, Eq)]
pub struct Made {
    pub first: u32,
    pub number: u32,
}

/// What a member may know of a communicator.
#[derive(Clone, Copy, Debug, PartialEq, Eq)]
pub struct CommInfo {
    pub size: u32,
    pub rank: u32,
}

/// How two communicators compare. (MPI 4.1, section 7.4.1.)
#[derive(Clone, Copy, Debug, PartialEq, Eq)]
pub enum CommCompare {
    /// One communicator.
    Identical,
    /// The same members in the same order.
    Congruent,
    /// The same members in another order.
    Similar,
    Unequal,
}
