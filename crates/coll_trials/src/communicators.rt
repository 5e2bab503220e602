//! Four processes, with a communicator of each constructor.
//!
//! No memory ends a test at once: each way out of a function that owns a table costs its proof.
//! Where one has served it is handed to `drop`.
ghost use Rattle.std.specs.Prelude.{◌≡◌, length};
ghost use Rattle.mpi_comm.specs.Comms.{group_at};

use crate::parties::group;
use mpi_comm::{Ask, CommCompare, CommFault, CommInfo, CommTable, Made};
use std::alloc::{AllocError, Global};
use std::process::Abort;
use wall_labels::ProcessId;

fn expect(rt: &impl Abort, found: Result<Made, CommFault>, wanted: Result<Made, CommFault>) {
    assert_eq!(rt; found, wanted);
}

// So many communicators were made, of which this is the first.
fn expect_made(rt: &impl Abort, found: Result<Made, CommFault>, first: u32, number: u32) {
    expect(rt, found, Ok(Made { first, number }));
}

fn expect_fault(rt: &impl Abort, found: Result<Made, CommFault>, fault: CommFault) {
    expect(rt, found, Err(fault));
}

fn asking(colour: Option<i32>, key: i32) -> Ask {
    Ask { colour, key }
}

fn asks(colour: Option<i32>, keys: [i32; 4]) -> [Ask; 4] {
    let [first, second, third, last] = keys;
    [
        asking(colour, first),
        asking(colour, second),
        asking(colour, third),
        asking(colour, last),
    ]
}

/// A table whose world has these processes.
pub(crate) fn opened(rt: &impl Abort, alloc: Global, processes: &[u32]) -> CommTable {
    match CommTable::open(alloc, group(rt, alloc, processes)) {
        Ok(table) => table,
        Err(_) => panic!(rt; "no memory"),
    }
}

// The world has so many members, so a split on it takes so many asks.
fn expect_world(rt: &impl Abort, table: &CommTable, size: u32)
    ensures { length (group_at table.now 0) ≡ size }
{
    assert!(rt; table.len() > 0);
    assert!(rt; table.group(0).size() == size);
}

// A duplicate of the world is made, a split that turns it round, and a part of it.
fn make_three(rt: &impl Abort, table: &mut CommTable) {
    expect_made(rt, table.dup(0), 1, 1);
    let turned = asks(Some(0), [3, 2, 1, 0]);
    expect_world(rt, table, 4);
    expect_made(rt, table.split(0, &turned), 2, 1);
    expect_made(rt, table.create(0, &[0, 2]), 3, 1);
}

// The table with these.
fn example(rt: &impl Abort, alloc: Global) -> CommTable {
    let mut table = opened(rt, alloc, &[0, 1, 2, 3]);
    make_three(rt, &mut table);
    table
}

fn expect_members(rt: &impl Abort, table: &CommTable, c: u32, want: &[u32]) {
    assert!(rt; c < table.len());
    let group = table.group(c);
    assert_eq!(rt; group.size() as usize, want.len());
    for (member, number) in group.members().iter().zip(want) {
        assert_eq!(rt; member.number(), *number);
    }
}

// What makes no communicator, and what has a fault.
fn make_none(rt: &impl Abort, table: &mut CommTable) {
    expect_made(rt, table.create(0, &[]), 4, 0);
    expect_world(rt, table, 4);
    expect_made(rt, table.split(0, &asks(None, [0; 4])), 4, 0);
    expect_world(rt, table, 4);
    let below_zero = asks(Some(-1), [0; 4]);
    expect_fault(rt, table.split(0, &below_zero), CommFault::BadColour);
    expect_fault(rt, table.create(0, &[0, 0]), CommFault::NotSubgroup);
    expect_fault(rt, table.create(3, &[2]), CommFault::NotSubgroup);
    expect_fault(rt, table.dup(4), CommFault::NoSuchComm);
    assert_eq!(rt; table.len(), 4);
}

#[test]
fn constructors(rt: HostRuntime) {
    let mut table = example(&rt, rt.alloc());
    expect_members(&rt, &table, 1, &[0, 1, 2, 3]);
    expect_members(&rt, &table, 2, &[3, 2, 1, 0]);
    expect_members(&rt, &table, 3, &[0, 2]);
    make_none(&rt, &mut table);
    drop(table);
}

#[test]
fn two_colours(rt: HostRuntime) {
    let mut table = opened(&rt, rt.alloc(), &[0, 1, 2, 3]);
    let stated = [
        asking(Some(2), 0),
        asking(None, 0),
        asking(Some(0), 5),
        asking(Some(2), 0),
    ];
    expect_world(&rt, &table, 4);
    expect_made(&rt, table.split(0, &stated), 1, 2);
    expect_members(&rt, &table, 1, &[2]);
    expect_members(&rt, &table, 2, &[0, 3]);
    drop(table);
}

fn halves(alloc: Global) -> Result<[Vec<u32>; 2], AllocError> {
    Ok([vec![in alloc; 0u32, 1]?, vec![in alloc; 2, 3]?])
}

#[test]
fn parts(rt: HostRuntime) {
    let mut table = opened(&rt, rt.alloc(), &[0, 1, 2, 3]);
    let Ok(lists) = halves(rt.alloc()) else {
        panic!(&rt; "no memory")
    };
    expect_made(&rt, table.subsets(0, &lists), 1, 2);
    expect_members(&rt, &table, 1, &[0, 1]);
    expect_members(&rt, &table, 2, &[2, 3]);
    expect_fault(&rt, table.subsets(1, &lists), CommFault::NotSubgroup);
    expect_made(&rt, table.subsets(0, &[]), 3, 0);
    drop(lists);
    drop(table);
}

const COMPARED: &[(u32, Result<CommCompare, CommFault>)] = &[
    (0, Ok(CommCompare::Identical)),
    (1, Ok(CommCompare::Congruent)),
    (2, Ok(CommCompare::Similar)),
    (3, Ok(CommCompare::Unequal)),
    (4, Err(CommFault::NoSuchComm)),
];

fn expect_info(
    rt: &impl Abort,
    found: Result<CommInfo, CommFault>,
    wanted: Result<CommInfo, CommFault>,
) {
    assert_eq!(rt; found, wanted);
}

#[test]
fn looks(rt: HostRuntime) {
    let table = example(&rt, rt.alloc());
    for (other, want) in COMPARED {
        assert_eq!(rt; table.compare(0, *other), *want);
    }
    let one = ProcessId::new(1).expect(&rt, "a process");
    let two = ProcessId::new(2).expect(&rt, "a process");
    expect_info(&rt, table.info(one, 3), Err(CommFault::NotMember));
    expect_info(&rt, table.info(two, 3), Ok(CommInfo { size: 2, rank: 1 }));
    expect_info(&rt, table.info(two, 4), Err(CommFault::NoSuchComm));
    drop(table);
}

/// A table of one process gets as many communicators as there may be.
pub(crate) fn fill_up(rt: &impl Abort, table: &mut CommTable) {
    for number in 1..1024 {
        expect_made(rt, table.dup(0), number, 1);
    }
    expect_fault(rt, table.dup(0), CommFault::NoRoom);
}

#[test]
fn full_table(rt: HostRuntime) {
    let mut table = opened(&rt, rt.alloc(), &[0]);
    fill_up(&rt, &mut table);
    let undefined = Ask {
        colour: None,
        key: 0,
    };
    expect_world(&rt, &table, 1);
    expect_made(&rt, table.split(0, &[undefined]), 1024, 0);
    expect_made(&rt, table.create(0, &[]), 1024, 0);
    expect_made(&rt, table.subsets(0, &[]), 1024, 0);
    expect_fault(&rt, table.create(0, &[0]), CommFault::NoRoom);
    drop(table);
}
