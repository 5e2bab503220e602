//! Collectives of many elements among 16 processes, all at home in one dataset.

use crate::collective::{Collective, Kind, Op};
use crate::desk::{Case, Desk};
use crate::policy::{Homes, Wall};
use crate::text::Element;
use std::alloc::{AllocError, Global};
use trial_kit::Random;

const PROCESSES: usize = 16;

// The most elements of a post.
const MOST: usize = 65536;

// The most of a kind that delivers all elements to all ranks.
const MOST_TO_ALL: usize = 2048;

const KINDS: [Kind; 6] = [
    Kind::Allreduce,
    Kind::Alltoall,
    Kind::Scan,
    Kind::ReduceScatterBlock,
    Kind::Allgatherv,
    Kind::Gather,
];

const OPS: [Op; 4] = [Op::Sum, Op::Max, Op::Min, Op::Bxor];

const ELEMENTS: [Element; 5] = [
    Element::Int32,
    Element::Int64,
    Element::Uint8,
    Element::Uint16,
    Element::TwoInt,
];

// A collective whose posts have at most half as many bytes as the script is to have.
fn wide_collective(random: &mut Random, size: usize) -> Collective {
    let kind = random.pick(&KINDS);
    let element = random.pick(&ELEMENTS);
    let op = if element == Element::TwoInt {
        Op::Maxloc
    } else {
        random.pick(&OPS)
    };
    let room = size / (2 * PROCESSES) / element.width().max(1);
    let given = match kind {
        Kind::Allgatherv => room.min(MOST_TO_ALL),
        _ => room.min(MOST),
    };
    Collective {
        comm: 0,
        kind,
        root: random.below(PROCESSES),
        op,
        element,
        count: if kind.is_by_blocks() {
            given / PROCESSES
        } else {
            given
        },
    }
}

// All processes post to the collective, and then all take.
fn write(desk: &mut Desk, collective: &Collective) -> Result<(), AllocError> {
    collective.write_head(&mut desk.head)?;
    for process in 0..PROCESSES {
        let most = collective.given(process, PROCESSES);
        let count = if collective.kind == Kind::Allgatherv {
            most / 2 + desk.random.below((most / 2).max(1))
        } else {
            most
        };
        desk.give(process, collective.element, count)?;
    }
    desk.all_take()
}

/// A case of about so many bytes.
pub fn wide(alloc: Global, random: Random, size: usize) -> Result<Case, AllocError> {
    let wall = Wall {
        processes: PROCESSES,
        classes: 1,
        homes: Homes::Together,
        least: 2,
    };
    let mut desk = Desk::new(alloc, wall, random, size)?;
    for _ in 0..size {
        if desk.script.len() > size / 2 {
            break;
        }
        let collective = wide_collective(&mut desk.random, size);
        write(&mut desk, &collective)?;
    }
    desk.finish(alloc)
}
