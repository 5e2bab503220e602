//! The requests of a process: how many it was given, and which are open, each with the instance that
//! it is for, so that its session can sleep until that settles. That a session sleeps for the right
//! instance is tested.
ghost use Rattle.std.specs.Prelude.{◌≡◌, ◌<◌, ◌≤◌, ℕ, [], IfOk, not, ◌==◌, vec_capacity};
ghost use Rattle.std.specs.List.{filter};
ghost use Rattle.run_model.specs.Runs.{is_outcome};
ghost use Rattle.live_session.specs.Keeping.{IsPosted, IsTaken, numbers, request_in};

use hall_core::Reply;
use mpi_comm::COMMUNICATOR_LIMIT;
use rank_stage::Instance;
use std::alloc::{AllocError, Global};

/// So many requests of a process are open at most: it was given them, and has not taken their
/// outcome.
const MOST_OPEN: usize = 256;

/// A request, and the instance that it is for.
#[derive(Clone, Copy)]
struct Open {
    request: u64,
    instance: Instance,
}

/// The requests of a process.
#[derive(Drop)]
pub(crate) struct Requests {
    // Of each communicator that there can be, how many of the process's posts were entered.
    entered: Vec<u64>,
    // How many it was given.
    given: u64,
    // In ascending order.
    untaken: Vec<Open>,
}

// The request of a post that was entered.
fn request_of(reply: &Reply) -> Option<u64>
    ensures { result ≡ request_in reply.now }
{
    match reply {
        Reply::Posted(request) => Some(*request),
        Reply::Barred { request, .. } => Some(*request),
        Reply::Pending
        | Reply::Delivered(_)
        | Reply::NewComm { .. }
        | Reply::NullComm
        | Reply::Denied { .. }
        | Reply::NoRoom
        | Reply::Info { .. }
        | Reply::Refused(_) => None,
    }
}

// Whether a take that got this reply has taken the outcome.
fn is_outcome(reply: &Reply) -> bool
    ensures { result ≡ is_outcome reply.now }
{
    match reply {
        Reply::Delivered(_)
        | Reply::NewComm { .. }
        | Reply::NullComm
        | Reply::Denied { .. }
        | Reply::NoRoom => true,
        Reply::Pending
        | Reply::Posted(_)
        | Reply::Barred { .. }
        | Reply::Info { .. }
        | Reply::Refused(_) => false,
    }
}

// Takes a request away.
fn keep_others(untaken: &mut Vec<Open>, request: u64)
    ensures others { untaken.new.items ≡ filter (λ o. not (request == o.request)) untaken.old.items }
    ensures room { vec_capacity untaken.new ≡ vec_capacity untaken.old }
{
    untaken.retain(|open| request != open.request);
}

impl Requests {
    /// None yet, with room for all that can be open.
    pub(crate) fn new(alloc: Global) -> Result<Requests, AllocError>
        ensures given { IfOk result (λ kept. kept.given ≡ 0) }
        ensures none { IfOk result (λ kept. kept.untaken.items ≡ []) }
        ensures room { IfOk result (λ kept. 256 ≤ vec_capacity kept.untaken) }
    {
        let entered = vec![in alloc; 0; COMMUNICATOR_LIMIT as usize]?;
        let untaken = Vec::with_capacity(alloc, MOST_OPEN)?;
        Ok(Requests {
            entered,
            given: 0,
            untaken,
        })
    }

    // The k-th post of each member that is entered belongs to instance k of the communicator.
    fn next_instance(&mut self, comm: u32) -> Instance
        ensures given { self.new.given ≡ self.old.given }
        ensures untaken { self.new.untaken ≡ self.old.untaken }
    {
        let mut number = 0;
        if let Some(count) = self.entered.get_mut(comm as usize) {
            number = *count;
            *count = number.saturating_add(1);
        }
        Instance { comm, number }
    }

    /// After a post on a communicator that got this reply.
    pub(crate) fn posted(&mut self, comm: u32, reply: &Reply)
        ensures { IsPosted self.old (request_in reply.now) self.new }
    {
        let Some(request) = request_of(reply) else {
            return;
        };
        let instance = self.next_instance(comm);
        if self.untaken.len() < self.untaken.capacity() {
            self.untaken.push_reserved(Open { request, instance });
        }
        self.given = request.saturating_add(1);
    }

    /// How many it was given: the number that its next one gets.
    pub(crate) fn given(&self) -> u64
        ensures { result ≡ self.now.given }
    {
        self.given
    }

    /// The open ones, in ascending order.
    pub(crate) fn open(&self, alloc: Global) -> Result<Vec<u64>, AllocError>
        ensures { IfOk result (λ list. list.items ≡ numbers self.now) }
    {
        self.untaken.iter().map(|open| open.request).collect(alloc)
    }

    fn place_of(&self, request: u64) -> Option<usize> {
        self.untaken.iter().position(|open| open.request == request)
    }

    /// After a take of a request that got this reply.
    pub(crate) fn taken(&mut self, request: u64, reply: &Reply)
        ensures { IsTaken self.old request (is_outcome reply.now) self.new }
    {
        if is_outcome(reply) {
            keep_others(&mut self.untaken, request);
        }
    }

    /// The instance of a request. None where it is not open.
    pub(crate) fn instance_of(&self, request: u64) -> Option<Instance> {
        let place = self.place_of(request)?;
        self.untaken.get(place).map(|open| open.instance)
    }
}
