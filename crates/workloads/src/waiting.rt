//! Many requests that wait: 32 processes, each with up to 256 of them, and the last process late
//! and in another order; then, between such waits, constructors until there is no room for more
//! communicators, barriers, questions and calls that are refused.

use crate::collective::{Collective, Kind, Op};
use crate::constructors::{Comms, GRID, PROCESSES, construct};
use crate::desk::{Case, Desk};
use crate::policy::{Homes, Wall};
use crate::text::{Element, Text};
use std::alloc::{AllocError, Global};
use trial_kit::Random;

// The copies of the world that the waits are spread over: the communicators 1 to 25.
const COPIES: usize = 25;

// The most requests of a process that wait on one copy.
const DEEP: usize = 10;

// With how many barriers of the world a process comes to the limit of its requests.
const BARRIERS: usize = 6;

// How many constructors, barriers and refused calls stand between two waits.
const BETWEEN: usize = 40;

// A collective with the head of its posts.
#[derive(Drop)]
struct Planned {
    collective: Collective,
    head: Text,
}

fn random_collective(random: &mut Random, comm: usize) -> Collective {
    let shapes = [
        (Kind::Allgather, Op::Sum, Element::Int32),
        (Kind::Allreduce, Op::Sum, Element::Int64),
        (Kind::Scan, Op::Max, Element::Int32),
    ];
    let (kind, op, element) = random.pick(&shapes);
    Collective {
        comm,
        kind,
        root: 0,
        op,
        element,
        count: 2,
    }
}

// So many collectives on each copy, the copies by turns.
fn plan(alloc: Global, desk: &mut Desk, deep: usize) -> Result<Vec<Planned>, AllocError> {
    let mut planned = Vec::with_capacity(alloc, COPIES * DEEP)?;
    for _ in 0..deep {
        for comm in 1..COPIES + 1 {
            let collective = random_collective(&mut desk.random, comm);
            let mut head = Text::new(alloc, 64)?;
            collective.write_head(&mut head)?;
            planned.push(Planned { collective, head })?;
        }
    }
    Ok(planned)
}

// A process posts to a planned collective.
fn give(desk: &mut Desk, process: usize, planned: &Planned) -> Result<(), AllocError> {
    desk.head.clear();
    desk.head.bytes(planned.head.as_slice())?;
    desk.give(
        process,
        planned.collective.element,
        planned.collective.count,
    )
}

// A process comes to the limit of its requests, if they are so many.
fn fill_up(desk: &mut Desk, process: usize, deep: usize) -> Result<(), AllocError> {
    desk.begin_head(0, "barrier")?;
    for _ in 0..BARRIERS {
        desk.post(process)?;
    }
    if deep == DEEP {
        desk.script.refused_post(process, desk.head.as_slice())?;
    }
    Ok(())
}

// All posts of a process but the last, and some takes that come too early.
fn post_early(
    desk: &mut Desk,
    process: usize,
    planned: &[Planned],
    deep: usize,
) -> Result<(), AllocError> {
    let first = desk.script.given(process);
    for one in planned {
        give(desk, process, one)?;
    }
    fill_up(desk, process, deep)?;
    for _ in 0..COPIES {
        let early = desk.random.below(planned.len().max(1));
        desk.script.take(process, first.saturating_add(early))?;
    }
    Ok(())
}

// All posts of the last process: the copies in the reverse order.
fn post_late(
    desk: &mut Desk,
    process: usize,
    planned: &[Planned],
    deep: usize,
) -> Result<(), AllocError> {
    for comm in (1..COPIES + 1).rev() {
        for one in planned {
            if one.collective.comm == comm {
                give(desk, process, one)?;
            }
        }
    }
    fill_up(desk, process, deep)
}

// A process takes its newest requests, from the newest on.
fn take_back(desk: &mut Desk, process: usize, count: usize) -> Result<(), AllocError> {
    let given = desk.script.given(process);
    for age in 0..count {
        let request = given.saturating_sub(1).saturating_sub(age);
        desk.script.take(process, request)?;
    }
    Ok(())
}

// All wait for the last process.
fn wait(alloc: Global, desk: &mut Desk, deep: usize) -> Result<(), AllocError> {
    let planned = plan(alloc, desk, deep)?;
    for process in 0..PROCESSES - 1 {
        post_early(desk, process, &planned, deep)?;
    }
    post_late(desk, PROCESSES - 1, &planned, deep)?;
    for process in (0..PROCESSES).rev() {
        take_back(desk, process, planned.len().saturating_add(BARRIERS))?;
    }
    Ok(())
}

// Calls that are refused whoever makes them.
const REFUSED: [&str; 9] = [
    " 5000 barrier",
    " 0 bcast 32 int32 1",
    " 0 neighbor_allgather int32 1 as d0 7",
    " 0 allreduce maxloc int32 1 as d0 7",
    " 0 allgather int32 2 as d0 7",
    " 0 split -5 0",
    " 0 create 0,0",
    " 0 cart_create 9,9 0,0",
    " 0 scatter 0 int32 65536 as d0 7",
];

// A refused post, and a take of a request that was never given.
fn refuse(desk: &mut Desk) -> Result<(), AllocError> {
    let process = desk.random.below(PROCESSES);
    let head = desk.random.pick(&REFUSED);
    desk.script.refused_post(process, head.as_bytes())?;
    desk.script.take(process, 999_999_999)?;
    desk.script.refused_post(PROCESSES, b" 0 barrier")
}

// The members of a communicator come to a barrier. The first one's neighbour first takes it for a
// sum, which is refused.
fn meet(desk: &mut Desk, comms: &Comms) -> Result<(), AllocError> {
    let Some(group) = desk.random.choose(comms.groups.as_slice()) else {
        return Ok(());
    };
    desk.begin_head(group.comm, "allreduce sum int64 1")?;
    for (rank, process) in group.members.iter().enumerate() {
        if rank == 1 {
            desk.begin_head(group.comm, "barrier")?;
            desk.script.refused_post(*process, desk.head.as_slice())?;
            desk.begin_head(group.comm, "allreduce sum int64 1")?;
        }
        desk.give(*process, Element::Int64, 1)?;
        desk.script.info(*process, group.comm)?;
    }
    desk.script.take_all(&group.members)
}

// What stands between two waits.
fn go_between(alloc: Global, desk: &mut Desk, comms: &mut Comms) -> Result<(), AllocError> {
    for _ in 0..BETWEEN {
        match desk.random.below(4) {
            0 => refuse(desk)?,
            1 => meet(desk, comms)?,
            _ => construct(alloc, desk, comms)?,
        }
    }
    Ok(())
}

/// A case of about so many bytes.
pub fn waiting(alloc: Global, random: Random, size: usize) -> Result<Case, AllocError> {
    let wall = Wall {
        processes: PROCESSES,
        classes: 1,
        homes: Homes::Together,
        least: 2,
    };
    let mut desk = Desk::new(alloc, wall, random, size)?;
    let deep = (size / 60_000).max(1).min(DEEP);
    for _ in 0..COPIES {
        desk.begin_head(0, "dup")?;
        desk.all_post()?;
    }
    desk.begin_head(0, GRID)?;
    desk.all_post()?;
    let mut comms = Comms::new(alloc, COPIES + 2)?;
    for _ in 0..size {
        if desk.script.len() >= size {
            break;
        }
        wait(alloc, &mut desk, deep)?;
        go_between(alloc, &mut desk, &mut comms)?;
    }
    desk.finish(alloc)
}
