//! Groups of processes that share a home, and small collectives among them.
ghost use Rattle.std.specs.Prelude.{◌<◌};

use crate::collective::{Collective, Kind, Op};
use crate::desk::Desk;
use crate::text::Element;
use std::alloc::{AllocError, Global};
use trial_kit::Random;

/// A communicator and its members, in the order of their ranks.
#[derive(Drop)]
pub struct Group {
    pub comm: usize,
    pub members: Vec<usize>,
}

impl Group {
    /// The processes below a bound whose number, divided, is this one.
    pub fn part(
        alloc: Global,
        comm: usize,
        bound: usize,
        divisor: usize,
        quotient: usize,
    ) -> Result<Group, AllocError>
        requires { 0 < divisor }
    {
        let mut members = Vec::new(alloc);
        for process in 0..bound {
            if process / divisor == quotient {
                members.push(process)?;
            }
        }
        Ok(Group { comm, members })
    }
}

// The head of a split for a process, by a colour.
fn post_split(desk: &mut Desk, process: usize, colour: usize) -> Result<(), AllocError> {
    desk.begin_head(0, "split ")?;
    desk.head.number(colour)?;
    desk.head.word(" ")?;
    desk.head.number(process)?;
    desk.post(process)
}

/// Splits the world into groups of so many processes; the first gets the communicator `next`.
/// Each process asks for its own.
pub fn split_world(
    alloc: Global,
    desk: &mut Desk,
    size: usize,
    next: usize,
    groups: &mut Vec<Group>,
) -> Result<(), AllocError>
    requires { 0 < size }
{
    let processes = desk.wall.processes;
    for process in 0..processes {
        post_split(desk, process, process / size)?;
    }
    for process in 0..processes {
        desk.script.take_newest(process)?;
        desk.script
            .info(process, next.saturating_add(process / size))?;
    }
    for part in 0..processes / size {
        let comm = next.saturating_add(part);
        groups.push(Group::part(alloc, comm, processes, size, part)?)?;
    }
    Ok(())
}

/// The world of 64 processes and its groups of 32, 16, 8 and 4: of each size as many as it takes
/// for all processes. So where each group is as likely as another, all sizes get as many lines.
pub fn nested_groups(alloc: Global, desk: &mut Desk) -> Result<Vec<Group>, AllocError> {
    let mut groups = Vec::with_capacity(alloc, 31)?;
    groups.push(Group::part(alloc, 0, desk.wall.processes, 64, 0)?)?;
    split_world(alloc, desk, 32, 1, &mut groups)?;
    split_world(alloc, desk, 16, 3, &mut groups)?;
    split_world(alloc, desk, 8, 7, &mut groups)?;
    split_world(alloc, desk, 4, 15, &mut groups)?;
    Ok(groups)
}

const KINDS: [Kind; 6] = [
    Kind::Bcast,
    Kind::Allgather,
    Kind::Allreduce,
    Kind::Gather,
    Kind::Scan,
    Kind::ReduceScatterBlock,
];

const OPS: [Op; 4] = [Op::Sum, Op::Max, Op::Min, Op::Bxor];

const ELEMENTS: [Element; 4] = [
    Element::Int32,
    Element::Int64,
    Element::Uint8,
    Element::Int16,
];

// A collective of 1 to 8 elements; of one for each rank in a large group.
fn small_collective(random: &mut Random, group: &Group) -> Collective {
    let kind = random.pick(&KINDS);
    let size = group.members.len();
    let count = if kind.is_by_blocks() && size > 8 {
        1
    } else {
        1 + random.below(8)
    };
    Collective {
        comm: group.comm,
        kind,
        root: random.below(size.max(1)),
        op: random.pick(&OPS),
        element: random.pick(&ELEMENTS),
        count,
    }
}

/// Small collectives of random groups, until the script has its size. All members post, and then
/// all take.
pub fn small_collectives(desk: &mut Desk, groups: &[Group], size: usize) -> Result<(), AllocError> {
    for _ in 0..size {
        if desk.script.len() >= size {
            break;
        }
        if let Some(group) = desk.random.choose(groups) {
            let collective = small_collective(&mut desk.random, group);
            desk.post_shuffled(&collective, &group.members, None)?;
            desk.take_shuffled(&group.members)?;
        }
    }
    Ok(())
}
