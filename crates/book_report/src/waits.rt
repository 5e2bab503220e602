//! Goes through the communicators for the instances that wait for members.
ghost use Rattle.std.specs.Prelude.{◌≡◌, ◌<◌, ◌+◌, length, slice_get, IfOk, OnOk};
ghost use Rattle.book_report.specs.Turns.{IsMeeting, IsBegun, AreWaitsTo, AreWaitsOn};
ghost use Rattle.book_report.specs.Turns.{AreWaitsBelow, IsAtEnd};

use crate::turns::{first_turn, lacks_one, most, turns_of_all};
use crate::wait::Wait;
use mpi_group::Group;
use run_state::{Book, PostState};
use std::alloc::Global;
use wall_labels::NoMemory;
use wall_policy::Policy;

/// A book, and a state that stands for all its posts.
#[derive(Clone, Copy)]
pub(crate) struct AtEnd<'a> {
    pub policy: &'a Policy,
    pub book: &'a Book,
    pub post_state: &'a PostState<()>,
}

/// A communicator at the end of a book, its members, and the entries of the posts of each.
#[derive(Clone, Copy)]
pub(crate) struct Meeting<'a> {
    pub policy: &'a Policy,
    pub book: &'a Book,
    pub comm: u32,
    pub group: &'a Group,
    pub turns: &'a [Vec<u64>],
}

/// An instance of it that waits, and an entry that is a post for that.
#[derive(Clone, Copy)]
pub(crate) struct Begun<'a> {
    pub meeting: Meeting<'a>,
    pub k: usize,
    pub entry: u64,
}

// The k-th, counted from 0, if there are so many.
fn turn_at(turns: &[u64], k: usize) -> Option<u64>
    ensures { result ≡ slice_get turns.now k }
{
    if k < turns.len() {
        return Some(turns[k]);
    }
    None
}

// Adds the member of this rank.
fn add_member(begun: &Begun<'_>, waits: &mut Vec<Wait>, rank: u32) -> Result<(), NoMemory>
    requires begun { IsBegun begun.now }
    requires rank { rank < length begun.now.meeting.group.now }
    requires waits { AreWaitsOn begun.now.meeting begun.now.k rank waits.old.items }
    ensures { OnOk result (AreWaitsOn begun.now.meeting begun.now.k (rank + 1) waits.new.items) }
{
    let process = begun.meeting.group.at(rank);
    let posted = turn_at(&begun.meeting.turns[rank as usize], begun.k);
    let it = Wait {
        comm: begun.meeting.comm,
        k: begun.k as u64,
        begun: begun.entry,
        rank,
        process,
        posted,
    };
    waits.push(it)?;
    Ok(())
}

// Adds the members of an instance that waits.
fn add_members(begun: &Begun<'_>, waits: &mut Vec<Wait>) -> Result<(), NoMemory>
    requires begun { IsBegun begun.now }
    requires waits { AreWaitsOn begun.now.meeting begun.now.k 0 waits.old.items }
    ensures { OnOk result (AreWaitsOn begun.now.meeting (begun.now.k + 1) 0 waits.new.items) }
{
    for rank in 0..begun.meeting.group.size() {
        add_member(begun, waits, rank)?;
    }
    Ok(())
}

// Adds the members of the k-th instance, if it waits.
fn add_instance(meeting: &Meeting<'_>, waits: &mut Vec<Wait>, k: usize) -> Result<(), NoMemory>
    requires meeting { IsMeeting meeting.now }
    requires waits { AreWaitsOn meeting.now k 0 waits.old.items }
    ensures { OnOk result (AreWaitsOn meeting.now (k + 1) 0 waits.new.items) }
{
    let Some(entry) = first_turn(meeting.turns, k) else {
        return Ok(());
    };
    if !lacks_one(meeting.turns, k) {
        return Ok(());
    }
    let begun = Begun {
        meeting: *meeting,
        k,
        entry,
    };
    add_members(&begun, waits)
}

// Adds the members of all instances that wait.
fn add_instances(meeting: &Meeting<'_>, waits: &mut Vec<Wait>) -> Result<(), NoMemory>
    requires meeting { IsMeeting meeting.now }
    requires waits { AreWaitsOn meeting.now 0 0 waits.old.items }
    ensures { OnOk result (AreWaitsTo meeting.now.policy.now meeting.now.book.now.list
        (meeting.now.comm + 1) 0 0 waits.new.items) }
{
    for k in 0..most(meeting.turns) {
        add_instance(meeting, waits, k)?;
    }
    Ok(())
}

// Adds those of a communicator.
fn add_comm(end: &AtEnd<'_>, waits: &mut Vec<Wait>, comm: u32) -> Result<(), NoMemory>
    requires end { IsAtEnd end.now }
    requires there { comm < length end.now.post_state.now.comms }
    requires waits { AreWaitsBelow end.now comm waits.old.items }
    ensures { OnOk result (AreWaitsBelow end.now (comm + 1) waits.new.items) }
{
    let group = end.post_state.group(comm);
    let turns = turns_of_all(*waits.allocator(), end.book, comm, group)?;
    let meeting = Meeting {
        policy: end.policy,
        book: end.book,
        comm,
        group,
        turns: &turns,
    };
    add_instances(&meeting, waits)
}

/// Those of all communicators.
pub(crate) fn waits_of(alloc: Global, end: &AtEnd<'_>) -> Result<Vec<Wait>, NoMemory>
    requires { IsAtEnd end.now }
    ensures { IfOk result (λ waits.
        AreWaitsBelow end.now (length end.now.post_state.now.comms) waits.items) }
{
    let mut waits = Vec::new(alloc);
    for comm in 0..end.post_state.len() {
        add_comm(end, &mut waits, comm)?;
    }
    Ok(waits)
}
