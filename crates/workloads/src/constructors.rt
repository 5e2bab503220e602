//! Constructors of communicators among 32 processes: splits, copies, groups by their ranks, and
//! parts of a grid.
ghost use Rattle.std.specs.Prelude.{◌<◌};

use crate::desk::Desk;
use crate::groups::Group;
use std::alloc::{AllocError, Global};

/// How many processes there are.
pub const PROCESSES: usize = 32;

/// The call that makes the grid.
pub const GRID: &str = "cart_create 4,8 1,0";

// The communicator of the grid.
const GRID_COMM: usize = 26;

// The most communicators that there may be.
const MOST: usize = 1024;

/// The communicators that were made.
#[derive(Drop)]
pub struct Comms {
    next: usize,
    /// The world, and those whose members are told here.
    pub groups: Vec<Group>,
}

impl Comms {
    /// The world, with the number of the next communicator.
    pub fn new(alloc: Global, next: usize) -> Result<Comms, AllocError> {
        let mut groups = Vec::new(alloc);
        groups.push(Group::part(alloc, 0, PROCESSES, PROCESSES, 0)?)?;
        Ok(Comms { next, groups })
    }

    // The number of the first of so many new communicators, if there is room for them.
    fn take_numbers(&mut self, count: usize) -> Option<usize> {
        let first = self.next;
        let next = first.saturating_add(count);
        if next > MOST {
            return None;
        }
        self.next = next;
        Some(first)
    }
}

// What a constructor call is.
#[derive(Clone, Copy)]
enum Call {
    Split(usize),
    SplitOff,
    Copy,
    Create,
    Part(&'static str, usize),
}

const CALLS: [Call; 9] = [
    Call::Split(2),
    Call::Split(8),
    Call::Split(32),
    Call::SplitOff,
    Call::Copy,
    Call::Create,
    Call::Part("cart_sub 1,1", 1),
    Call::Part("cart_sub 0,1", 4),
    Call::Part("cart_sub 1,0", 8),
];

// All split by their numbers' remainders, the ranks in the reverse order.
fn split(alloc: Global, desk: &mut Desk, comms: &mut Comms, parts: usize) -> Result<(), AllocError>
    requires { 0 < parts }
{
    for process in 0..PROCESSES {
        desk.begin_head(0, "split ")?;
        desk.head.number(process % parts)?;
        desk.head.word(" -")?;
        desk.head.number(process + 1)?;
        desk.post(process)?;
    }
    desk.all_take()?;
    let Some(first) = comms.take_numbers(parts) else {
        return Ok(());
    };
    for part in 0..parts {
        let mut members = Vec::new(alloc);
        for process in (0..PROCESSES).rev() {
            if process % parts == part {
                members.push(process)?;
            }
        }
        let comm = first.saturating_add(part);
        comms.groups.push(Group { comm, members })?;
    }
    Ok(())
}

// Every second process is in no new communicator.
fn split_off(alloc: Global, desk: &mut Desk, comms: &mut Comms) -> Result<(), AllocError> {
    let mut members = Vec::new(alloc);
    for process in 0..PROCESSES {
        if process % 2 == 0 {
            desk.begin_head(0, "split 7 0")?;
            members.push(process)?;
        } else {
            desk.begin_head(0, "split undefined 0")?;
        }
        desk.post(process)?;
    }
    desk.all_take()?;
    if let Some(comm) = comms.take_numbers(1) {
        comms.groups.push(Group { comm, members })?;
    }
    Ok(())
}

// The members of some communicator copy it.
fn copy(alloc: Global, desk: &mut Desk, comms: &mut Comms) -> Result<(), AllocError> {
    let mut members = Vec::with_capacity(alloc, PROCESSES)?;
    if let Some(group) = desk.random.choose(comms.groups.as_slice()) {
        members.extend_from_slice(&group.members)?;
        desk.begin_head(group.comm, "dup")?;
    }
    for process in &members {
        desk.post(*process)?;
    }
    desk.script.take_all(&members)?;
    if let Some(comm) = comms.take_numbers(1) {
        comms.groups.push(Group { comm, members })?;
    }
    Ok(())
}

// All make a communicator of some of them.
fn create(alloc: Global, desk: &mut Desk, comms: &mut Comms) -> Result<(), AllocError> {
    let mut members = Vec::with_capacity(alloc, PROCESSES)?;
    desk.begin_head(0, "create 0")?;
    members.push(0usize)?;
    for process in 1..PROCESSES {
        if desk.random.below(2) == 0 {
            desk.head.word(",")?;
            desk.head.number(process)?;
            members.push(process)?;
        }
    }
    desk.all_post()?;
    if let Some(comm) = comms.take_numbers(1) {
        comms.groups.push(Group { comm, members })?;
    }
    Ok(())
}

// All cut the grid into so many parts.
fn cut(desk: &mut Desk, comms: &mut Comms, call: &str, parts: usize) -> Result<(), AllocError> {
    desk.begin_head(GRID_COMM, call)?;
    desk.all_post()?;
    let _ = comms.take_numbers(parts);
    Ok(())
}

/// One of the constructors.
pub fn construct(alloc: Global, desk: &mut Desk, comms: &mut Comms) -> Result<(), AllocError> {
    match desk.random.pick(&CALLS) {
        Call::Split(parts) => split(alloc, desk, comms, parts.max(1)),
        Call::SplitOff => split_off(alloc, desk, comms),
        Call::Copy => copy(alloc, desk, comms),
        Call::Create => create(alloc, desk, comms),
        Call::Part(call, parts) => cut(desk, comms, call, parts),
    }
}
