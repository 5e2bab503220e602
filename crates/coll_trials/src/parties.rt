//! The policy of most tests, its ids and its histories, and the parts of small instances.
//!
//! No memory ends a test at once: each way out of a function that owns a wide value, as a policy,
//! costs its proof. Where one has served it is handed to `drop`.
ghost use Rattle.std.specs.Prelude.{◌≡◌, ◌<◌};

use coll_routes::{Flags, Numbers, Own, Shape, Signature, Stated};
use mpi_cart::Grid;
use mpi_group::Group;
use std::alloc::Global;
use std::process::Abort;
use wall_labels::{DATASET_LIMIT, DatasetId, PROCESS_LIMIT, ProcessId};
use wall_policy::{Policy, read_policy};
use wall_rules::Histories;

pub fn dataset(number: u32) -> DatasetId
    requires { number < DATASET_LIMIT }
    ensures { result ≡ number }
{
    match DatasetId::new(number) {
        Some(id) => id,
        None => unreachable!(),
    }
}

pub fn process(number: u32) -> ProcessId
    requires { number < PROCESS_LIMIT }
    ensures { result ≡ number }
{
    match ProcessId::new(number) {
        Some(id) => id,
        None => unreachable!(),
    }
}

/// The policy of a text that has one.
pub fn wall(rt: &impl Abort, alloc: Global, text: &str) -> Policy {
    match read_policy(alloc, text.as_bytes()) {
        Ok(policy) => policy,
        Err(_) => panic!(rt; "no policy"),
    }
}

/// The histories before any call.
pub fn opening(rt: &impl Abort, alloc: Global, policy: &Policy) -> Histories
    ensures { result.classes ≡ policy.now.classes }
{
    match Histories::opening(alloc, policy) {
        Ok(histories) => histories,
        Err(_) => panic!(rt; "no memory"),
    }
}

pub fn processes(rt: &impl Abort, alloc: Global, numbers: &[u32]) -> Vec<ProcessId> {
    let mut list = Vec::new(alloc);
    for number in numbers {
        let process = ProcessId::new(*number).expect(rt, "a process");
        assert!(rt; list.push(process).is_ok(), "no memory");
    }
    list
}

/// The group of these processes.
pub fn group(rt: &impl Abort, alloc: Global, numbers: &[u32]) -> Group {
    match Group::from_list(alloc, &processes(rt, alloc, numbers)) {
        Ok(group) => group,
        Err(_) => panic!(rt; "no group"),
    }
}

/// The numbers from the first one to the one before the last.
pub fn upward(rt: &impl Abort, alloc: Global, first: u32, last: u32) -> Vec<u32> {
    let mut list = Vec::new(alloc);
    for number in first..last {
        assert!(rt; list.push(number).is_ok(), "no memory");
    }
    list
}

/// The group of the lowest so many processes.
pub fn lowest(rt: &impl Abort, alloc: Global, size: u32) -> Group {
    group(rt, alloc, &upward(rt, alloc, 0, size))
}

/// The shape of so many members without a grid.
pub fn plain(size: u32) -> Shape {
    Shape { size, grid: None }
}

/// The shape of a grid.
pub fn grid(rt: &impl Abort, alloc: Global, size: u32, dims: &[u32], periods: &[bool]) -> Shape {
    match Grid::new(alloc, dims, periods, size) {
        Ok(grid) => Shape {
            size,
            grid: Some(grid),
        },
        Err(_) => panic!(rt; "no grid"),
    }
}

pub fn numbers(rt: &impl Abort, alloc: Global, items: &[u32]) -> Numbers {
    match Vec::from_slice(alloc, items) {
        Ok(items) => Numbers::from(items),
        Err(_) => panic!(rt; "no memory"),
    }
}

pub fn flags(rt: &impl Abort, alloc: Global, items: &[bool]) -> Flags {
    match Vec::from_slice(alloc, items) {
        Ok(items) => Flags::from(items),
        Err(_) => panic!(rt; "no memory"),
    }
}

/// What a rank states that gives so many elements, in blocks of these counts if there are any.
pub fn stated(
    rt: &impl Abort,
    alloc: Global,
    sig: &Signature,
    given: u32,
    counts: Option<&[u32]>,
) -> Stated {
    let own = match counts {
        Some(counts) => Own::Counts(numbers(rt, alloc, counts)),
        None => Own::Plain,
    };
    match sig.copy(alloc) {
        Ok(sig) => Stated {
            sig,
            own,
            given,
            label: None,
            barred: false,
        },
        Err(_) => panic!(rt; "no memory"),
    }
}
