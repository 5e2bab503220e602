//! The examples of two groups of four processes, with one order of ranks each.
//!
//! No memory ends a test at once: each way out of a function that owns a group costs its proof.
//! Where one has served it is handed to `drop`.
use crate::parties::{group, process, processes, upward};
use mpi_group::{Group, GroupCompare, GroupFault};
use std::alloc::Global;
use std::process::Abort;
use wall_labels::ProcessId;

// What making a group answers where it has to be made.
fn made(rt: &impl Abort, answer: Result<Group, GroupFault>) -> Group {
    match answer {
        Ok(group) => group,
        Err(_) => panic!(rt; "no group"),
    }
}

fn copied(rt: &impl Abort, alloc: Global, group: &Group) -> Group {
    match group.copy(alloc) {
        Ok(copy) => copy,
        Err(_) => panic!(rt; "no memory"),
    }
}

// The group of these processes was made.
fn expect_made(rt: &(impl AllocGlobal + Abort), made: Result<Group, GroupFault>, want: &[u32]) {
    match made {
        Ok(group) => {
            expect_members(rt, rt.alloc(), &group, want);
            drop(group);
        }
        Err(_) => panic!(rt; "no group"),
    }
}

fn expect_fault(rt: &impl Abort, made: Result<Group, GroupFault>, fault: GroupFault) {
    assert_eq!(rt; made.err(), Some(fault));
}

fn expect_members(rt: &impl Abort, alloc: Global, got: &Group, want: &[u32]) {
    let want = processes(rt, alloc, want);
    assert_eq!(rt; got.members(), want.as_slice());
}

#[test]
fn set_operations(rt: HostRuntime) {
    let alloc = rt.alloc();
    let a = group(&rt, alloc, &[3, 1, 0]);
    let b = group(&rt, alloc, &[1, 2]);
    expect_made(&rt, a.union(alloc, &b), &[3, 1, 0, 2]);
    expect_made(&rt, a.intersection(alloc, &b), &[1]);
    expect_made(&rt, a.difference(alloc, &b), &[3, 0]);
    let twice = processes(&rt, alloc, &[1, 1]);
    expect_fault(
        &rt,
        Group::from_list(alloc, &twice),
        GroupFault::RepeatedRank,
    );
    drop(twice);
    drop(a);
    drop(b);
}

#[test]
fn ranks_named(rt: HostRuntime) {
    let alloc = rt.alloc();
    let a = group(&rt, alloc, &[3, 1, 0]);
    expect_made(&rt, a.incl(alloc, &[2, 0]), &[0, 3]);
    expect_made(&rt, a.excl(alloc, &[1]), &[3, 0]);
    expect_fault(&rt, a.incl(alloc, &[0, 0]), GroupFault::RepeatedRank);
    expect_fault(&rt, a.incl(alloc, &[3]), GroupFault::BadRank);
    expect_fault(&rt, a.incl(alloc, &[3, 3]), GroupFault::BadRank);
    expect_fault(&rt, a.excl(alloc, &[3, 3]), GroupFault::BadRank);
    drop(a);
}

fn expect_comparison(rt: &impl Abort, a: &Group, other: &Group, want: GroupCompare) {
    assert_eq!(rt; a.compare(other), want);
    assert_eq!(rt; a.is_same(other), want == GroupCompare::Identical);
}

#[test]
fn comparisons(rt: HostRuntime) {
    let alloc = rt.alloc();
    let a = group(&rt, alloc, &[3, 1, 0]);
    let b = group(&rt, alloc, &[1, 2]);
    let turned = group(&rt, alloc, &[0, 1, 3]);
    let copy = copied(&rt, alloc, &a);
    expect_comparison(&rt, &a, &turned, GroupCompare::Similar);
    expect_comparison(&rt, &a, &copy, GroupCompare::Identical);
    expect_comparison(&rt, &a, &b, GroupCompare::Unequal);
    drop(a);
    drop(b);
    drop(turned);
    drop(copy);
}

#[test]
fn ranks_found(rt: HostRuntime) {
    let alloc = rt.alloc();
    let a = group(&rt, alloc, &[3, 1, 0]);
    let b = group(&rt, alloc, &[1, 2]);
    let size = a.size();
    assert_eq!(rt; size, 3);
    let zero = ProcessId::new(0).expect(&rt, "a process");
    let two = ProcessId::new(2).expect(&rt, "a process");
    assert_eq!(rt; a.rank_of(zero), Some(2));
    assert_eq!(rt; a.rank_of(two), None);
    assert!(rt; b.contains(two));
    assert!(rt; a.size() > 1);
    assert_eq!(rt; a.translate(1, &b), Some(0));
    assert_eq!(rt; a.translate(0, &b), None);
    assert_eq!(rt; a.at(0).number(), 3);
    drop(a);
    drop(b);
}

fn downward(rt: &impl Abort, alloc: Global, first: u32, last: u32) -> Vec<u32> {
    let mut list = upward(rt, alloc, first, last);
    list.reverse();
    list
}

// All processes upward, and the upper half of them downward.
#[test]
fn set_operations_on_all_processes(rt: HostRuntime) {
    let alloc = rt.alloc();
    let (all, upper) = (upward(&rt, alloc, 0, 256), upward(&rt, alloc, 128, 256));
    let a = group(&rt, alloc, &all);
    let b = group(&rt, alloc, &downward(&rt, alloc, 128, 256));
    expect_made(&rt, a.union(alloc, &b), &all);
    expect_made(&rt, a.intersection(alloc, &b), &upper);
    let lower = upward(&rt, alloc, 0, 128);
    expect_made(&rt, a.difference(alloc, &b), &lower);
    drop(a);
    drop(b);
}

#[test]
fn all_ranks_named(rt: HostRuntime) {
    let alloc = rt.alloc();
    let (all, turned) = (upward(&rt, alloc, 0, 256), downward(&rt, alloc, 0, 256));
    let a = group(&rt, alloc, &all);
    let reversed = made(&rt, a.incl(alloc, &turned));
    expect_members(&rt, alloc, &reversed, &turned);
    expect_comparison(&rt, &a, &reversed, GroupCompare::Similar);
    drop(reversed);
    let copy = copied(&rt, alloc, &a);
    expect_comparison(&rt, &a, &copy, GroupCompare::Identical);
    drop(copy);
    let but_last = upward(&rt, alloc, 0, 255);
    expect_made(&rt, a.excl(alloc, &but_last), &[255]);
    drop(a);
}

// Looks up the last two members of a group in turn: the next by what was found last, so that no
// round can be left out.
fn look_up_often(rt: &impl Abort, group: &Group, last_two: [ProcessId; 2], times: u32) {
    let [last, before] = last_two;
    let mut found = 255;
    for _ in 0..times {
        let asked = if found == 255 { before } else { last };
        match group.rank_of(asked) {
            Some(rank) => found = rank,
            None => panic!(rt; "no member"),
        }
    }
    assert_eq!(rt; found, 255);
}

// A look at each of the members before these two would take minutes.
#[test]
fn ranks_are_looked_up_in_a_table(rt: HostRuntime) {
    let all = group(&rt, rt.alloc(), &downward(&rt, rt.alloc(), 0, 256));
    look_up_often(&rt, &all, [process(0), process(1)], 1_000_000_000);
    drop(all);
}
