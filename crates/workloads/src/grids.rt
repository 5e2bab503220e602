//! Exchanges with the neighbours in four grids of 64 processes, all at home in one dataset.

use crate::desk::{Case, Desk};
use crate::policy::{Homes, Wall};
use crate::text::Element;
use std::alloc::{AllocError, Global};
use trial_kit::Random;

const PROCESSES: usize = 64;

// The most slots of a grid.
const MOST_SLOTS: usize = 12;

// A grid: its communicator, its fields, and how many neighbours each rank has, itself and missing
// ones counted.
#[derive(Clone, Copy)]
struct Grid {
    comm: usize,
    fields: &'static str,
    slots: usize,
}

const GRIDS: [Grid; 4] = [
    Grid {
        comm: 1,
        fields: "cart_create 8,8 1,1",
        slots: 4,
    },
    Grid {
        comm: 2,
        fields: "cart_create 4,4,4 0,1,0",
        slots: 6,
    },
    Grid {
        comm: 3,
        fields: "cart_create 64 1",
        slots: 2,
    },
    Grid {
        comm: 4,
        fields: "cart_create 2,2,2,2,2,2 1,0,1,0,1,0",
        slots: MOST_SLOTS,
    },
];

#[derive(Clone, Copy)]
enum Exchange {
    Allgather,
    Allgatherv,
    Alltoall,
    Alltoallv,
}

const EXCHANGES: [Exchange; 4] = [
    Exchange::Allgather,
    Exchange::Allgatherv,
    Exchange::Alltoall,
    Exchange::Alltoallv,
];

const ELEMENTS: [Element; 4] = [
    Element::Int32,
    Element::Int64,
    Element::Uint8,
    Element::Uint16,
];

// Puts a count for each slot into the head, and gives their sum.
fn put_counts(desk: &mut Desk, slots: usize) -> Result<usize, AllocError> {
    let mut sum = 0usize;
    for slot in 0..slots {
        let count = desk.random.below(5);
        desk.head.word(if slot == 0 { " " } else { "," })?;
        desk.head.number(count)?;
        sum = sum.saturating_add(count);
    }
    Ok(sum)
}

// Begins the head of posts of a kind, up to the type.
fn begin(desk: &mut Desk, grid: Grid, kind: &str, element: Element) -> Result<(), AllocError> {
    desk.begin_head(grid.comm, kind)?;
    desk.head.word(" ")?;
    desk.head.word(element.name())
}

// All give so many elements, which the head states as this count.
fn exchange_alike(
    desk: &mut Desk,
    element: Element,
    count: usize,
    given: usize,
) -> Result<(), AllocError> {
    desk.head.word(" ")?;
    desk.head.number(count)?;
    for process in 0..PROCESSES {
        desk.give(process, element, given)?;
    }
    Ok(())
}

// Each gives as many elements as it likes, the same to all.
fn exchange_any(desk: &mut Desk, element: Element) -> Result<(), AllocError> {
    for process in 0..PROCESSES {
        let count = desk.random.below(7);
        desk.give(process, element, count)?;
    }
    Ok(())
}

// Each gives as many elements to each slot as it likes.
fn exchange_by_slot(desk: &mut Desk, grid: Grid, element: Element) -> Result<(), AllocError> {
    for process in 0..PROCESSES {
        begin(desk, grid, "neighbor_alltoallv", element)?;
        let count = put_counts(desk, grid.slots)?;
        desk.give(process, element, count)?;
    }
    Ok(())
}

// All processes post, and then all take.
fn exchange_once(desk: &mut Desk) -> Result<(), AllocError> {
    let grid = desk.random.pick(&GRIDS);
    let element = desk.random.pick(&ELEMENTS);
    let count = 1 + desk.random.below(6);
    match desk.random.pick(&EXCHANGES) {
        Exchange::Allgather => {
            begin(desk, grid, "neighbor_allgather", element)?;
            exchange_alike(desk, element, count, count)?;
        }
        Exchange::Allgatherv => {
            begin(desk, grid, "neighbor_allgatherv", element)?;
            exchange_any(desk, element)?;
        }
        Exchange::Alltoall => {
            begin(desk, grid, "neighbor_alltoall", element)?;
            exchange_alike(desk, element, count, count.saturating_mul(grid.slots))?;
        }
        Exchange::Alltoallv => exchange_by_slot(desk, grid, element)?,
    }
    desk.all_take()
}

/// A case of about so many bytes.
pub fn grids(alloc: Global, random: Random, size: usize) -> Result<Case, AllocError> {
    let wall = Wall {
        processes: PROCESSES,
        classes: 1,
        homes: Homes::Together,
        least: 2,
    };
    let mut desk = Desk::new(alloc, wall, random, size)?;
    for grid in GRIDS {
        desk.begin_head(0, grid.fields)?;
        desk.all_post()?;
    }
    for _ in 0..size {
        if desk.script.len() >= size {
            break;
        }
        exchange_once(&mut desk)?;
    }
    desk.finish(alloc)
}
