//! What the faults say.

use coll_pending::ArrivalFault;
use mpi_cart::{BadCoord, BadDirection, GridFault};
use mpi_comm::CommFault;
use mpi_elems::BufferFault;
use mpi_group::GroupFault;
use std::fmt::Display;
use std::process::Abort;

pub(crate) fn expect_texts<T: Display>(rt: &(impl AllocGlobal + Abort), table: &[(T, &str)]) {
    for (fault, text) in table {
        let Ok(said) = format!(in rt.alloc(); "{fault}") else {
            panic!(rt; "no memory")
        };
        assert!(rt; said.as_str() == *text, "{text}");
    }
}

const BUFFERS: &[(BufferFault, &str)] = &[
    (BufferFault::BadNumber, "a number is outside the type"),
    (BufferFault::OddPair, "a pair lacks its index"),
    (BufferFault::NoMemory, "out of memory"),
];

const GROUPS: &[(GroupFault, &str)] = &[
    (GroupFault::BadRank, "a rank outside the group"),
    (GroupFault::RepeatedRank, "a rank twice"),
    (GroupFault::NoMemory, "out of memory"),
];

const COMMUNICATORS: &[(CommFault, &str)] = &[
    (CommFault::NoSuchComm, "no such communicator"),
    (CommFault::NotMember, "not a member"),
    (CommFault::NotSubgroup, "not a subgroup"),
    (CommFault::BadColour, "a negative colour"),
    (CommFault::NoRoom, "no room for another communicator"),
    (CommFault::NoMemory, "out of memory"),
];

const GRIDS: &[(GridFault, &str)] = &[
    (GridFault::BadDims, "the dimensions are no grid"),
    (GridFault::TooLarge, "the grid is larger than the group"),
    (GridFault::NoMemory, "out of memory"),
];

const COORDINATES: &[(BadCoord, &str)] = &[(BadCoord, "no rank has these coordinates")];

const DIRECTIONS: &[(BadDirection, &str)] = &[(BadDirection, "the grid has no such dimension")];

const ARRIVALS: &[(ArrivalFault, &str)] = &[
    (
        ArrivalFault::Mismatch,
        "another signature than the instance's",
    ),
    (ArrivalFault::NoMemory, "out of memory"),
];

#[test]
fn faults_have_their_texts(rt: HostRuntime) {
    expect_texts(&rt, BUFFERS);
    expect_texts(&rt, GROUPS);
    expect_texts(&rt, COMMUNICATORS);
    expect_texts(&rt, GRIDS);
    expect_texts(&rt, COORDINATES);
    expect_texts(&rt, DIRECTIONS);
    expect_texts(&rt, ARRIVALS);
}
