//! Halls of many requests and communicators. Room for what is long taken is given back, what a hall
//! makes many of asks for little, and out of memory is no answer where memory is ample.
//!
//! `rt try` links what keeps freed blocks resident, so a test that wants fewer pages fails there.
ghost use Rattle.std.specs.Prelude.{◌≡◌};
ghost use Rattle.wall_labels.specs.declared.label.Label.TheVariants.{Public};

use crate::scripts::policy_of;
use coll_routes::{Own, Signature};
use hall_core::{Act, BriefHall, Call, Posting, Reply, finish};
use mpi_elems::{Buffer, ElemType};
use std::alloc::Global;
use std::process::Abort;
use std::rt::Files;
use std::test::Fail;
use trial_kit::pages;
use wall_labels::Label;

/// One process, at home nowhere.
pub(crate) const LONE: &str = "version = 1\n[[process]]\nname = \"n0\"\n";

/// A post that gives nothing.
fn nothing(alloc: Global, comm: u32, sig: Signature) -> Posting
    ensures { result.label ≡ Public }
{
    Posting {
        comm,
        sig,
        own: Own::Plain,
        label: Label::Public,
        elements: Buffer::empty(alloc, ElemType::Int8),
    }
}

/// The process posts, and gets this request. The hall lets go of what is to be written of it.
fn post(rt: &(impl AllocGlobal + Abort), hall: &mut BriefHall, posting: Posting, request: u64)
    requires { posting.label ≡ Public }
{
    let call = Call {
        process: 0,
        act: Act::Post(posting),
    };
    let reply = hall.apply(call);
    let given = match &reply {
        Reply::Posted(given) => Some(*given),
        _ => None,
    };
    drop(reply);
    assert!(rt; given == Some(request));
    hall.forget();
}

/// It posts a barrier on a communicator.
fn bar(rt: &(impl AllocGlobal + Abort), hall: &mut BriefHall, comm: u32, request: u64) {
    let barrier = nothing(rt.alloc(), comm, Signature::Barrier);
    post(rt, hall, barrier, request);
}

/// It takes a barrier's request, which is done.
fn pass(rt: &impl Abort, hall: &mut BriefHall, request: u64) {
    let reply = finish(hall.claim(0, request));
    let is_done = matches!(&reply, Reply::Delivered(_));
    drop(reply);
    assert!(rt; is_done, "{request}");
}

/// Barriers on a communicator, each taken at once, under the requests from one to another.
fn bar_often(
    rt: &(impl AllocGlobal + Abort),
    hall: &mut BriefHall,
    comm: u32,
    first: u64,
    end: u64,
) {
    for request in first..end {
        bar(rt, hall, comm, request);
        pass(rt, hall, request);
    }
}

/// A communicator is made of a copy of the world, under this request: the next, or none where there
/// is no room.
fn copy_world(
    rt: &(impl AllocGlobal + Abort),
    hall: &mut BriefHall,
    request: u64,
    made: Option<u32>,
) {
    let copy = nothing(rt.alloc(), 0, Signature::Dup);
    post(rt, hall, copy, request);
    let reply = finish(hall.claim(0, request));
    let is_as_said = match &reply {
        Reply::NewComm { comm, .. } => made == Some(*comm),
        Reply::NoRoom => made.is_none(),
        _ => false,
    };
    drop(reply);
    assert!(rt; is_as_said, "{request}");
}

/// A hall of the lone process.
fn opened(rt: &(impl AllocGlobal + Abort)) -> BriefHall {
    match BriefHall::open(rt.alloc(), policy_of(rt, LONE)) {
        Ok(hall) => hall,
        Err(_) => panic!(rt; "no memory"),
    }
}

/// How many more pages are asked for by 20,000 barriers more on a communicator, where this request
/// is the next.
fn pages_of_news<R: Files + AllocGlobal + Abort>(
    rt: &R,
    hall: &mut BriefHall,
    comm: u32,
    next: u64,
) -> Result<u64, Fail> {
    bar_often(rt, hall, comm, next, 1000);
    let before = pages(rt, 0)?;
    bar_often(rt, hall, comm, 1000, 21_000);
    let after = pages(rt, 0)?;
    assert!(rt; hall.news().is_empty());
    Ok(after.saturating_sub(before))
}

/// A hall that was told to forget lets go of two entries for each of them, of more than 32 bytes
/// each, and of all else.
#[test]
fn news_are_let_go(rt: HostRuntime) -> Result<(), Fail> {
    let mut hall = opened(&rt);
    let more = pages_of_news(&rt, &mut hall, 0, 0);
    drop(hall);
    let more = more?;
    assert!(&rt; more < 128, "{more} pages more");
    Ok(())
}

/// A request that stays open keeps its own place and that of its instance, and none of those behind
/// it: 20,000 requests of 24 bytes each, and as many places of its communicator, of more than 128,
/// would be more than 700 pages.
#[test]
fn an_open_request_keeps_its_own_place(rt: HostRuntime) -> Result<(), Fail> {
    let mut hall = opened(&rt);
    bar(&rt, &mut hall, 0, 0);
    let more = pages_of_news(&rt, &mut hall, 0, 1);
    pass(&rt, &mut hall, 0);
    drop(hall);
    let more = more?;
    assert!(&rt; more < 128, "{more} pages more");
    Ok(())
}

/// So is it with those on another communicator.
#[test]
fn an_open_request_is_alone_on_its_communicator(rt: HostRuntime) -> Result<(), Fail> {
    let mut hall = opened(&rt);
    copy_world(&rt, &mut hall, 0, Some(1));
    bar(&rt, &mut hall, 0, 1);
    let more = pages_of_news(&rt, &mut hall, 1, 2);
    pass(&rt, &mut hall, 1);
    drop(hall);
    let more = more?;
    assert!(&rt; more < 64, "{more} pages more");
    Ok(())
}

/// How many more pages are asked for by all communicators that there may be, and one too many.
fn pages_of_making<R: Files + AllocGlobal + Abort>(
    rt: &R,
    hall: &mut BriefHall,
) -> Result<u64, Fail> {
    let before = pages(rt, 0)?;
    for made in 1..1024u32 {
        copy_world(rt, hall, u64::from(made) - 1, Some(made));
    }
    copy_world(rt, hall, 1023, None);
    let after = pages(rt, 0)?;
    Ok(after.saturating_sub(before))
}

/// Room for the groups and the shapes of all is some hundred pages.
#[test]
fn communicators_ask_for_little(rt: HostRuntime) -> Result<(), Fail> {
    let mut hall = opened(&rt);
    let more = pages_of_making(&rt, &mut hall);
    drop(hall);
    let more = more?;
    assert!(&rt; more < 256, "{more} pages more");
    Ok(())
}
