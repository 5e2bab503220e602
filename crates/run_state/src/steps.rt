//! The steps of a post, on the parts of a state.
ghost use Rattle.std.specs.Prelude.{◌≡◌, ◌<◌, ◌≤◌, ◌==◌, ℕ, length, slice_get, IfOk};
ghost use Rattle.std.specs.Prelude.{OnOk, OnErr, Some, None, true};
ghost use Rattle.std.specs.Option.{option_copied};
ghost use Rattle.std.specs.Result.{result_err};
ghost use Rattle.wall_labels.specs.declared.ids.TheConstants.{PROCESS_LIMIT};
ghost use Rattle.wall_rules.specs.Histories.{has};
ghost use Rattle.mpi_cart.specs.Grids.{below};
ghost use Rattle.coll_routes.specs.Fit.{IsFit};
ghost use Rattle.coll_routes.specs.declared.roll.Roll;
ghost use Rattle.coll_pending.specs.declared.arrival.Next.TheVariants.{Mismatch};
ghost use Rattle.coll_pending.specs.Waiting.{view_of_pending, HasRoom};
ghost use Rattle.run_model.specs.Comms.{Comm, processes, ask_by, ask_in, asks};
ghost use Rattle.run_model.specs.Posts.{outcome_of, with_delivery, by_verdict};
ghost use Rattle.run_model.specs.Refusals.{refused_for};
ghost use Rattle.run_state.specs.Views.{communicator_of, fault_among, IsSeatAmong};
ghost use Rattle.run_state.specs.Views.{fault_after};
ghost use Rattle.run_state.specs.Upcoming.{IsUpcoming, IsMade, is_last, asks_with};
ghost use Rattle.run_state.specs.Upcoming.{stated_in, constructed};

use crate::communicators::Communicators;
use crate::seat::{Seat, Terms};
use coll_pending::{Meeting, Next, Pending};
use coll_routes::{Own, Roll, ShapeFault, Stated, shape_fault};
use mpi_comm::Ask;
use mpi_group::{Group, GroupFault};
use run_model::{Outcome, Refusal};
use std::alloc::Global;
use wall_labels::{NoMemory, ProcessId};
use wall_policy::Policy;
use wall_rules::Histories;
use wall_verdict::{Verdict, settle};

/// The group of all processes, in order.
#[tactic(auto, using(crate::proofs::PartLemmas::distinct_below))]
pub fn world(alloc: Global, processes: u32) -> Result<Group, NoMemory>
    requires { processes ≤ PROCESS_LIMIT }
    ensures { IfOk result (λ group. group ≡ below processes) }
{
    let list = all_processes(alloc, processes)?;
    match Group::from_list(alloc, &list) {
        Ok(group) => Ok(group),
        Err(GroupFault::NoMemory) => Err(NoMemory::of_fault()),
        Err(_) => unreachable!(),
    }
}

#[tactic(auto, using(mpi_cart::proofs::MpiCartLemmas::below_more))]
fn all_processes(alloc: Global, processes: u32) -> Result<Vec<ProcessId>, NoMemory>
    requires { processes ≤ PROCESS_LIMIT }
    ensures { IfOk result (λ list. list.items ≡ below processes) }
{
    let mut list = Vec::with_capacity(alloc, processes as usize)?;
    for number in 0..processes {
        let Some(process) = ProcessId::new(number) else {
            unreachable!()
        };
        list.push(process)?;
    }
    Ok(list)
}

/// Who posts where: a process, where there are so many, on a communicator.
#[derive(Clone, Copy)]
pub struct Poster {
    pub processes: u32,
    pub process: u32,
    pub comm: u32,
}

/// What the next post of a process on a communicator meets, or the first refusal that holds.
pub fn look<X: Drop>(
    comms: &Communicators,
    pending: &Pending<X>,
    poster: Poster,
    terms: Terms<'_>,
) -> Result<Seat, Refusal>
    requires { poster.processes ≤ PROCESS_LIMIT }
    ensures test { result_err result
        ≡ fault_among poster.processes comms.now (view_of_pending pending.now) poster.process
        poster.comm terms.entry.sig.now terms.entry.own.now terms.entry.elem_type
        terms.entry.given }
    ensures process { IfOk result (λ seat. seat.process ≡ poster.process) }
    ensures comm { IfOk result (λ seat. seat.meeting.comm ≡ poster.comm) }
    ensures looked { IfOk result
        (IsSeatAmong comms.now (view_of_pending pending.now) terms.entry) }
{
    let Poster {
        processes,
        process,
        comm,
    } = poster;
    if process >= processes {
        return Err(Refusal::NoSuchProcess);
    }
    if comm >= comms.len() {
        return Err(Refusal::NoSuchComm);
    }
    let Some(member) = ProcessId::new(process) else {
        unreachable!()
    };
    match comms.group(comm).rank_of(member) {
        None => Err(Refusal::NotMember),
        Some(rank) => {
            let fault = shape_fault(
                comms.shape(comm),
                rank,
                terms.sig,
                terms.own,
                terms.elem_type,
                terms.given,
            );
            let meeting = pending.look(comm, rank, terms.sig);
            match refusal_after(fault, meeting.does) {
                Some(refusal) => Err(refusal),
                None => Ok(Seat {
                    process: member,
                    meeting,
                }),
            }
        }
    }
}

// The refusal of a member, by the post's own fault and by what its arrival would do.
fn refusal_after(fault: Option<ShapeFault>, next: Next) -> Option<Refusal>
    ensures { result ≡ fault_after fault next }
{
    match fault {
        Some(fault) => Some(refused_for(fault)),
        None => match next {
            Next::Mismatch => Some(Refusal::Mismatch),
            _ => None,
        },
    }
}

fn refused_for(fault: ShapeFault) -> Refusal
    ensures { result ≡ refused_for fault }
{
    match fault {
        ShapeFault::NoTopology => Refusal::NoTopology,
        ShapeFault::BadRoot => Refusal::BadRoot,
        ShapeFault::BadOp => Refusal::BadOp,
        ShapeFault::BadCount => Refusal::BadCount,
        ShapeFault::BadColour => Refusal::BadColour,
        ShapeFault::NotSubgroup => Refusal::NotSubgroup,
        ShapeFault::BadDims => Refusal::BadDims,
    }
}

/// Makes all that a member's post needs, and the communicators that it completes, if they fit.
pub fn prepare<X: Drop>(
    comms: &mut Communicators,
    pending: &mut Pending<X>,
    meeting: Meeting,
    stated: &Stated,
) -> Result<Option<Outcome>, NoMemory>
    requires { IsUpcoming comms.old (view_of_pending pending.old) meeting stated.now }
    ensures waiting { view_of_pending pending.new ≡ view_of_pending pending.old }
    ensures room { OnOk result ((found : Comm) → slice_get comms.old meeting.comm ≡ Some found →
        HasRoom pending.new meeting.comm meeting.rank (communicator_of found)) }
    ensures made { IfOk result
        (IsMade comms.old comms.new (view_of_pending pending.old) meeting stated.now) }
    ensures kept { OnErr result (comms.new ≡ comms.old) }
{
    let comm = meeting.comm;
    pending.ready(comm, meeting.rank, comms.group(comm), comms.shape(comm))?;
    make_if_full(comms, pending, meeting, stated)
}

// Makes the communicators of a constructor that a member's post fills.
fn make_if_full<X: Drop>(
    comms: &mut Communicators,
    pending: &Pending<X>,
    meeting: Meeting,
    stated: &Stated,
) -> Result<Option<Outcome>, NoMemory>
    requires { IsUpcoming comms.old (view_of_pending pending.now) meeting stated.now }
    ensures made { IfOk result
        (IsMade comms.old comms.new (view_of_pending pending.now) meeting stated.now) }
    ensures kept { OnErr result (comms.new ≡ comms.old) }
{
    if !stated.sig.is_constructor() {
        return Ok(None);
    }
    let comm = meeting.comm;
    let size = comms.group(comm).size();
    if !is_last(meeting.does, size) {
        return Ok(None);
    }
    let last = Last {
        rank: meeting.rank,
        own: &stated.own,
    };
    let asks = all_asks(comms.alloc, pending.roll(comm, meeting.k), size, last)?;
    let outcome = comms.make(comm, &stated.sig, &asks)?;
    Ok(Some(outcome))
}

// Whether an arrival is the last one of an instance.
fn is_last(next: Next, size: u32) -> bool
    ensures { result ≡ is_last next size }
{
    match next {
        Next::Opens => size == 1,
        Next::Joins => false,
        Next::Fills => true,
        Next::Mismatch => false,
    }
}

// The member that posts last, with what it states for itself.
#[derive(Clone, Copy)]
struct Last<'a> {
    rank: u32,
    own: &'a Own,
}

// What the members ask, the last one too.
#[tactic(auto, using(crate::proofs::BelowLemmas::map_more))]
fn all_asks(
    alloc: Global,
    roll: Option<&Roll>,
    size: u32,
    last: Last<'_>,
) -> Result<Vec<Ask>, NoMemory>
    ensures { IfOk result (λ asks. asks.items
        ≡ asks_with (option_copied roll.entry) size last.entry.rank last.entry.own.now) }
{
    let mut asks = Vec::with_capacity(alloc, size as usize)?;
    for k in 0..size {
        if k == last.rank {
            asks.push(ask_by(last.own))?;
        } else {
            asks.push(ask_at(roll, k))?;
        }
    }
    Ok(asks)
}

fn ask_at(roll: Option<&Roll>, rank: u32) -> Ask
    ensures { result ≡ ask_in (stated_in (option_copied roll.entry) rank) }
{
    match roll {
        Some(roll) => match roll.stated.get(rank) {
            Some(stated) => ask_by(&stated.own),
            None => no_ask(),
        },
        None => no_ask(),
    }
}

fn no_ask() -> Ask
    ensures { result ≡ ask_in None }
{
    Ask {
        colour: None,
        key: 0,
    }
}

fn ask_by(own: &Own) -> Ask
    ensures { result ≡ ask_by own.now }
{
    match own {
        Own::Split { colour, key } => Ask {
            colour: *colour,
            key: *key,
        },
        _ => no_ask(),
    }
}

/// The outcome of a full instance: what its constructor made, or else the verdict, by which the
/// histories grow.
pub fn settle_full(
    policy: &Policy,
    histories: &mut Histories,
    roll: &Roll,
    made: Option<Outcome>,
) -> Outcome
    requires fit { IsFit roll.now }
    requires classes { histories.old.classes ≡ policy.now.classes }
    ensures outcome { (before : ℕ) → made ≡ constructed before roll.now →
        result ≡ outcome_of policy.now (has histories.old) before roll.now }
    ensures pairs { (before : ℕ) → made ≡ constructed before roll.now →
        has histories.new ≡ with_delivery policy.now (has histories.old) before (Some roll.now) }
    ensures processes { histories.new.processes ≡ histories.old.processes }
    ensures classes { histories.new.classes ≡ histories.old.classes }
{
    match made {
        Some(outcome) => outcome,
        None => by_verdict(settle(policy, histories, roll)),
    }
}

fn by_verdict(verdict: Verdict) -> Outcome
    ensures { result ≡ by_verdict verdict }
{
    match verdict {
        Verdict::Granted => Outcome::Granted,
        Verdict::Denied {
            rule,
            process,
            label,
        } => Outcome::Denied {
            rule,
            process,
            label,
        },
    }
}
