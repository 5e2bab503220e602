//! Denials under a large policy: 256 processes, each at home in a class of its own, but for the last
//! one, which is at home in the rival of the first one's.
//!
//! Four processes are readers: from the start they have read what others hold, so they may post
//! nothing more. All others meet in one communicator, where the first and the last never get each
//! other's data: all that is not a sanitised sum is denied by the simple rule, some of it only at
//! the last member; and where one of them states a wrong label, by the star rule.

use crate::collective::{Collective, Kind, Op};
use crate::desk::{Case, Desk};
use crate::groups::{Group, split_world};
use crate::policy::{Homes, Wall};
use crate::text::Element;
use std::alloc::{AllocError, Global};
use trial_kit::Random;

const PROCESSES: usize = 256;

// How many processes the four groups have.
const PART: usize = 64;

// The rank of the reader in each of the four groups.
const READER: usize = 1;

// The communicator of all that are no readers: behind the world and the four groups.
const POSTERS: usize = 5;

fn is_reader(process: usize) -> bool {
    process % PART == READER
}

// The readers are left out, and all others meet.
fn gather_posters(alloc: Global, desk: &mut Desk) -> Result<Group, AllocError> {
    let mut members = Vec::with_capacity(alloc, PROCESSES)?;
    for process in 0..PROCESSES {
        if is_reader(process) {
            desk.begin_head(0, "split undefined 0")?;
        } else {
            desk.begin_head(0, "split 0 0")?;
            members.push(process)?;
        }
        desk.post(process)?;
    }
    desk.all_take()?;
    Ok(Group {
        comm: POSTERS,
        members,
    })
}

// What all posters do together.
#[derive(Clone, Copy)]
enum Meeting {
    // Each gets all, the first one its rival's at once.
    Allgather,
    // Each gets what the lower ranks give: only the last one its rival's.
    Scan,
    Maximum,
    // Sanitised, so granted.
    Sum,
    // What the first one gives, to all, and to its rival last.
    Bcast,
    // To the last one alone.
    Gather,
}

const MEETINGS: [Meeting; 6] = [
    Meeting::Allgather,
    Meeting::Scan,
    Meeting::Maximum,
    Meeting::Sum,
    Meeting::Bcast,
    Meeting::Gather,
];

// The collective of a meeting of so many.
fn meeting_of(meeting: Meeting, size: usize) -> Collective {
    let (kind, op) = match meeting {
        Meeting::Allgather => (Kind::Allgather, Op::Sum),
        Meeting::Scan => (Kind::Scan, Op::Bxor),
        Meeting::Maximum => (Kind::Allreduce, Op::Max),
        Meeting::Sum => (Kind::Allreduce, Op::Sum),
        Meeting::Bcast => (Kind::Bcast, Op::Sum),
        Meeting::Gather => (Kind::Gather, Op::Sum),
    };
    let root = match meeting {
        Meeting::Gather => size.saturating_sub(1),
        _ => 0,
    };
    Collective {
        comm: POSTERS,
        kind,
        root,
        op,
        element: Element::Int32,
        count: 1,
    }
}

// All posters meet; every fourth time one of them states a wrong label.
fn meet(desk: &mut Desk, posters: &Group) -> Result<(), AllocError> {
    let meeting = desk.random.pick(&MEETINGS);
    let collective = meeting_of(meeting, posters.members.len());
    let stray = if desk.random.below(4) == 0 {
        desk.random.choose(&posters.members).copied()
    } else {
        None
    };
    desk.post_shuffled(&collective, &posters.members, stray)?;
    desk.take_shuffled(&posters.members)
}

// A group exchanges blocks, in which its reader is barred.
fn exchange(desk: &mut Desk, group: &Group) -> Result<(), AllocError> {
    let collective = Collective {
        comm: group.comm,
        kind: Kind::Alltoall,
        root: 0,
        op: Op::Sum,
        element: Element::Int32,
        count: 1,
    };
    desk.post_shuffled(&collective, &group.members, None)?;
    desk.take_shuffled(&group.members)
}

// A group's reader gets what the others give: there are no rivals among them, so it is granted.
fn read(desk: &mut Desk, group: &Group) -> Result<(), AllocError> {
    let collective = Collective {
        comm: group.comm,
        kind: Kind::Gatherv,
        root: READER,
        op: Op::Sum,
        element: Element::Int32,
        count: 1,
    };
    collective.write_head(&mut desk.head)?;
    for process in &group.members {
        let count = if is_reader(*process) {
            0
        } else {
            desk.random.below(4)
        };
        desk.give(*process, collective.element, count)?;
    }
    desk.take_shuffled(&group.members)
}

// One thing of all that happens here.
fn step(desk: &mut Desk, groups: &[Group], posters: &Group) -> Result<(), AllocError> {
    let chance = desk.random.below(8);
    if chance > 2 {
        return meet(desk, posters);
    }
    match desk.random.choose(groups) {
        Some(group) if chance == 0 => exchange(desk, group),
        Some(group) => read(desk, group),
        None => Ok(()),
    }
}

/// A case of about so many bytes.
pub fn denials(alloc: Global, random: Random, size: usize) -> Result<Case, AllocError> {
    let wall = Wall {
        processes: PROCESSES,
        classes: 512,
        homes: Homes::Apart,
        least: 250,
    };
    let mut desk = Desk::new(alloc, wall, random, size)?;
    let mut groups = Vec::with_capacity(alloc, 4)?;
    split_world(alloc, &mut desk, PART, 1, &mut groups)?;
    let posters = gather_posters(alloc, &mut desk)?;
    for group in &groups {
        read(&mut desk, group)?;
    }
    for _ in 0..size {
        if desk.script.len() >= size {
            break;
        }
        step(&mut desk, &groups, &posters)?;
    }
    desk.finish(alloc)
}
