//! What is opened and what waits asks for little memory, written to or not; what was read is let
//! go.

use crate::communicators::{fill_up, opened};
use crate::parties::{grid, opening, wall};
use crate::pending::{Calls, Table, at_a_table, line_of_two};
use crate::policies::{fault_of, many};
use coll_routes::Signature;
use mpi_comm::CommTable;
use run_model::{Act, Acts};
use std::alloc::{AllocError, Global};
use std::process::Abort;
use std::rt::Files;
use std::test::Fail;
use trial_kit::pages;
use trial_kit::policies::BANKS_AND_OIL;
use wall_labels::NoMemory;
use wall_policy::Policy;

// Reads the policy of the text, so often.
fn read_often(rt: &impl Abort, alloc: Global, text: &str, times: u32) {
    for _ in 0..times {
        assert!(rt; fault_of(alloc, text.as_bytes()).is_none());
    }
}

// A rule for each operation.
const RULES: &[&str] = &[
    "max", "min", "sum", "prod", "land", "lor", "lxor", "band", "bor", "bxor", "maxloc", "minloc",
];

// The text of a policy with as many processes as there may be, each with a home, as many datasets,
// and a rule for each operation.
fn full_policy(rt: &impl Abort, alloc: Global) -> Result<String, AllocError> {
    let mut text = many(rt, alloc, 0, 1, 1024);
    for process in 0..256 {
        text.push_str(&format!(in alloc;
            "[[process]]\nname = \"p{process}\"\nhome = \"d0_{process}\"\n"
        )?)?;
    }
    for op in RULES {
        text.push_str(&format!(in alloc; "[[sanitise]]\nop = \"{op}\"\nleast = 3\n")?)?;
    }
    Ok(text)
}

// What is kept of the rules is less than a hundred bytes: a leak of it would be some 50 pages, and
// one of any other part more.
#[test]
fn policies_are_let_go(rt: HostRuntime) -> Result<(), Fail> {
    let text = full_policy(&rt, rt.alloc())?;
    read_often(&rt, rt.alloc(), text.as_str(), 4);
    let before = pages(&rt, 1)?;
    read_often(&rt, rt.alloc(), text.as_str(), 2000);
    let after = pages(&rt, 1)?;
    assert!(&rt;
        after < before.saturating_add(32),
        "{before} pages, then {after}"
    );
    Ok(())
}

// A policy of nine names, and its histories: a page or two.
#[test]
fn what_is_opened_asks_for_little(rt: HostRuntime) -> Result<(), Fail> {
    let before = pages(&rt, 0)?;
    let policy = wall(&rt, rt.alloc(), BANKS_AND_OIL);
    let histories = opening(&rt, rt.alloc(), &policy);
    let after = pages(&rt, 0);
    drop(histories);
    drop(policy);
    let after = after?;
    assert!(&rt;
        after < before.saturating_add(256),
        "{before} pages, then {after}"
    );
    Ok(())
}

// How many more pages were asked for when the histories of a policy are opened.
fn pages_of_opening<R: Files + AllocGlobal + Abort>(rt: &R, policy: &Policy) -> Result<u64, Fail> {
    let before = pages(rt, 0)?;
    let histories = opening(rt, rt.alloc(), policy);
    let after = pages(rt, 0);
    drop(histories);
    let after = after?;
    Ok(after.saturating_sub(before))
}

// Of each dataset its rivals, and of each process what it holds, a bit for each of 1,024 datasets:
// some 45 pages.
#[test]
fn histories_of_many_datasets_ask_for_little(rt: HostRuntime) -> Result<(), Fail> {
    let text = many(&rt, rt.alloc(), 1, 1, 1024);
    let policy = wall(&rt, rt.alloc(), text.as_str());
    let more = pages_of_opening(&rt, &policy);
    drop(policy);
    let more = more?;
    assert!(&rt; more < 128, "{more} pages more");
    Ok(())
}

// A table of 65,536 neighbours, the largest that a grid keeps, is 128 pages.
#[test]
fn a_large_grid_asks_for_little(rt: HostRuntime) -> Result<(), Fail> {
    let before = pages(&rt, 0)?;
    let shape = grid(&rt, rt.alloc(), u32::MAX, &[65_536, 65_535], &[true, false]);
    let after = pages(&rt, 0);
    drop(shape);
    let after = after?;
    assert!(&rt;
        after < before.saturating_add(256),
        "{before} pages, then {after}"
    );
    Ok(())
}

// How many more pages were asked for when a table of one process is full.
fn pages_of_table<R: Files + AllocGlobal + Abort>(
    rt: &R,
    table: &mut CommTable,
) -> Result<u64, Fail> {
    let before = pages(rt, 0)?;
    fill_up(rt, table);
    let after = pages(rt, 0)?;
    Ok(after.saturating_sub(before))
}

// More than a kilobyte for each of 1,024 communicators would be seen.
#[test]
fn a_full_table_asks_for_little(rt: HostRuntime) -> Result<(), Fail> {
    let mut table = opened(&rt, rt.alloc(), &[0]);
    let more = pages_of_table(&rt, &mut table);
    drop(table);
    let more = more?;
    assert!(&rt; more < 256, "{more} pages more");
    Ok(())
}

// An instance opens on each of so many communicators.
fn open_each(
    rt: &(impl AllocGlobal + Abort),
    table: &mut Table,
    comms: u32,
) -> Result<(), NoMemory> {
    for comm in 0..comms {
        table.open(rt, comm, line_of_two(rt, rt.alloc()))?;
    }
    Ok(())
}

// How many more pages were asked for when such instances wait.
fn pages_of_waiting<R: Files + AllocGlobal + Abort>(
    rt: &R,
    table: &mut Table,
    comms: u32,
) -> Result<u64, Fail> {
    let before = pages(rt, 0)?;
    open_each(rt, table, comms)?;
    let after = pages(rt, 0)?;
    Ok(after.saturating_sub(before))
}

// Of so many members an instance waits on each of so many communicators.
fn expect_little_waiting<R: Files + AllocGlobal + Abort>(
    rt: &R,
    members: u32,
    calls: Calls,
    comms: u32,
    limit: u64,
) -> Result<(), Fail> {
    at_a_table(rt, members, calls, |table| {
        let more = pages_of_waiting(rt, table, comms)?;
        assert!(rt; more < limit, "{more} pages more");
        Ok(())
    })
}

// An instance of 256 members that waits takes some ten pages.
#[test]
fn instances_of_many_that_wait_ask_for_little(rt: HostRuntime) -> Result<(), Fail> {
    expect_little_waiting(&rt, 256, Calls::OfHall, 64, 780)
}

// One of two members takes less than half a page, with its lists and what is kept of its
// communicator.
#[test]
fn instances_of_two_that_wait_ask_for_little(rt: HostRuntime) -> Result<(), Fail> {
    expect_little_waiting(&rt, 2, Calls::OfHall, 1000, 750)
}

// The same by `arrive`.
#[test]
fn instances_that_wait_ask_for_little(rt: HostRuntime) -> Result<(), Fail> {
    expect_little_waiting(&rt, 256, Calls::Arrive, 64, 780)?;
    expect_little_waiting(&rt, 2, Calls::Arrive, 1000, 750)
}

// A leak of the room for the parts of the instances would be more than a hundred pages each time.
fn expect_all_let_go<R: Files + AllocGlobal + Abort>(rt: &R, calls: Calls) -> Result<(), Fail> {
    expect_little_waiting(rt, 256, calls, 64, 780)?;
    let before = pages(rt, 0)?;
    for _ in 0..20 {
        expect_little_waiting(rt, 256, calls, 64, 780)?;
    }
    let after = pages(rt, 0)?;
    assert!(rt;
        after < before.saturating_add(256),
        "{before} pages, then {after}"
    );
    Ok(())
}

#[test]
fn instances_that_wait_are_let_go(rt: HostRuntime) -> Result<(), Fail> {
    expect_all_let_go(&rt, Calls::Arrive)?;
    expect_all_let_go(&rt, Calls::OfHall)
}

// All members but the first and the last join the instance of a communicator.
fn join_all(rt: &impl Abort, table: &mut Table, comm: u32) -> Result<(), NoMemory> {
    for rank in 1..255 {
        table.join(rt, comm, rank, Signature::Barrier)?;
    }
    Ok(())
}

// The first member opens a barrier on each of so many communicators.
fn open_barriers(rt: &impl Abort, table: &mut Table, comms: u32) -> Result<(), NoMemory> {
    for comm in 0..comms {
        table.open(rt, comm, Signature::Barrier)?;
    }
    Ok(())
}

// How many more pages were asked for when all others but the last have joined these.
fn pages_of_joining<R: Files + AllocGlobal + Abort>(
    rt: &R,
    table: &mut Table,
    comms: u32,
) -> Result<u64, Fail> {
    open_barriers(rt, table, comms)?;
    let before = pages(rt, 0)?;
    for comm in 0..comms {
        join_all(rt, table, comm)?;
    }
    let after = pages(rt, 0)?;
    Ok(after.saturating_sub(before))
}

// More than four bytes for each of the sixteen thousand that join would be seen.
#[test]
fn members_that_join_ask_for_nothing(rt: HostRuntime) -> Result<(), Fail> {
    at_a_table(&rt, 256, Calls::OfHall, |table| {
        let more = pages_of_joining(&rt, table, 64)?;
        assert!(&rt; more < 16, "{more} pages more");
        Ok(())
    })
}

// So many barriers on a communicator, one after the other.
fn fill_often(rt: &impl Abort, table: &mut Table, times: u32) -> Result<(), NoMemory> {
    for _ in 0..times {
        table.open(rt, 0, Signature::Barrier)?;
        join_all(rt, table, 0)?;
        table.fill(rt, 0, 255, Signature::Barrier, &[1; 256])?;
    }
    Ok(())
}

// How many more pages were asked for by two thousand of them, behind the first.
fn pages_of_filling<R: Files + AllocGlobal + Abort>(
    rt: &R,
    table: &mut Table,
) -> Result<u64, Fail> {
    fill_often(rt, table, 10)?;
    let before = pages(rt, 0)?;
    fill_often(rt, table, 2000)?;
    let after = pages(rt, 0)?;
    Ok(after.saturating_sub(before))
}

// A leak of seventy bytes of each would be seen.
#[test]
fn instances_that_are_full_are_let_go(rt: HostRuntime) -> Result<(), Fail> {
    at_a_table(&rt, 256, Calls::OfHall, |table| {
        let more = pages_of_filling(&rt, table)?;
        assert!(&rt; more < 32, "{more} pages more");
        Ok(())
    })
}

// So many barriers wait on a communicator at a time.
const WAITING: u32 = 10_000;

fn open_many(rt: &impl Abort, table: &mut Table, comm: u32) -> Result<(), NoMemory> {
    for _ in 0..WAITING {
        table.open(rt, comm, Signature::Barrier)?;
    }
    Ok(())
}

fn fill_many(rt: &impl Abort, table: &mut Table, comm: u32) -> Result<(), NoMemory> {
    for _ in 0..WAITING {
        table.fill(rt, comm, 1, Signature::Barrier, &[1, 1])?;
    }
    Ok(())
}

// How many more pages were asked for when so many were opened and then full on each of 16
// communicators, behind a first one.
fn pages_of_queues<R: Files + AllocGlobal + Abort>(rt: &R, table: &mut Table) -> Result<u64, Fail> {
    open_many(rt, table, 16)?;
    fill_many(rt, table, 16)?;
    let before = pages(rt, 0)?;
    for comm in 0..16 {
        open_many(rt, table, comm)?;
        fill_many(rt, table, comm)?;
    }
    let after = pages(rt, 0)?;
    Ok(after.saturating_sub(before))
}

// A queue that kept its room would keep 32 pages, and all of them five hundred.
#[test]
fn long_queues_give_their_room_back(rt: HostRuntime) -> Result<(), Fail> {
    at_a_table(&rt, 2, Calls::OfHall, |table| {
        let more = pages_of_queues(&rt, table)?;
        assert!(&rt; more < 128, "{more} pages more");
        Ok(())
    })
}

// Three acts have room for a few.
#[test]
fn acts_ask_for_little(rt: HostRuntime) {
    let mut acts = Acts::from(Vec::new(rt.alloc()));
    for request in 0..3 {
        assert!(rt; acts.push(Act::Take(request)).is_ok(), "no memory");
    }
    let acts = acts.into_vec();
    assert!(rt; acts.len() == 3 && acts.capacity() <= 16);
    drop(acts);
}
