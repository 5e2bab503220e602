//! Which instance each request of a rank is for, so that the rank can wait for it.
ghost use Rattle.std.specs.Prelude.{◌≡◌, ◌≢◌, ℕ, ◌<◌, ◌≤◌, [], ◌∷◌, ◌++◌, Some, IfOk};
ghost use Rattle.std.specs.Prelude.{length, vec_len, vec_capacity, slice_get, slice_index_or};
ghost use Rattle.std.specs.List.{All, count_by};
ghost use Rattle.mpi_comm.specs.declared.table.TheConstants.{COMMUNICATOR_LIMIT};
ghost use Rattle.rank_run.specs.Asked.{AreCounted, CountsAll, next_on};
ghost use Rattle.rank_run.specs.Asked.{request_of, comm_of, is_post, PostsBelow, HasPlace};

use hall_core::{Act, NoMemory, Reply};
use mpi_comm::COMMUNICATOR_LIMIT;
use rank_stage::Instance;
use std::alloc::{AllocError, Global};

/// The requests that a rank was given.
#[derive(Drop)]
pub(crate) struct Requests {
    // For each communicator that the script posts on, how many of its posts were entered.
    entered: Vec<u64>,
    // The instance of each request, by the request's number.
    instances: Vec<Instance>,
    ghost counts: { CountsAll entered.items instances.items },
    ghost counted: { AreCounted instances.items },
}

// So many zeros.
fn zeros(alloc: Global, count: usize) -> Result<Vec<u64>, AllocError>
    ensures zeros { IfOk result (λ v. (i : ℕ) → slice_index_or v.items i 0 ≡ 0) }
    ensures len { IfOk result (λ v. length v.items ≡ count) }
{
    vec![in alloc; 0; count]
}

/// The communicator of a post.
pub(crate) fn comm_of(act: &Act) -> Option<u32>
    ensures { result ≡ comm_of act.now }
{
    match act {
        Act::Post(posting) => Some(posting.comm),
        Act::Take(_) | Act::Info(_) => None,
    }
}

fn is_post(act: &Act) -> bool
    ensures { result ≡ is_post act.now }
{
    match act {
        Act::Post(_) => true,
        Act::Take(_) | Act::Info(_) => false,
    }
}

// How many posts there are.
fn posts_in(script: &[Act]) -> usize
    ensures { result ≡ count_by is_post script.now }
{
    let mut posts: usize = 0;
    for act in script {
        if is_post(act) {
            posts += 1;
        }
    }
    posts
}

// The number, raised above the communicator of the act if that is a post.
fn raised(number: usize, act: &Act) -> usize
    ensures keeps { number ≤ result }
    ensures below { PostsBelow result act.now }
{
    match comm_of(act) {
        Some(comm) => number.max(comm as usize + 1),
        None => number,
    }
}

// One more than the highest communicator that is posted on.
fn comms_in(script: &[Act]) -> usize
    ensures { All (PostsBelow result) script.now }
{
    let mut comms: usize = 0;
    for act in script {
        comms = raised(comms, act);
    }
    comms
}

// The request of a post that was entered.
fn request_of(reply: &Reply) -> Option<u64>
    ensures { result ≡ request_of reply.now }
{
    match reply {
        Reply::Posted(request) => Some(*request),
        Reply::Barred { request, .. } => Some(*request),
        Reply::Pending
        | Reply::Delivered(_)
        | Reply::NewComm { .. }
        | Reply::NullComm
        | Reply::Denied { .. }
        | Reply::NoRoom
        | Reply::Info { .. }
        | Reply::Refused(_) => None,
    }
}

impl Requests {
    /// None yet, with room for those of the script.
    pub(crate) fn new(alloc: Global, script: &[Act]) -> Result<Requests, NoMemory>
        ensures none { IfOk result (λ requests. requests.instances.items ≡ []) }
        ensures room { IfOk result
            (λ requests. count_by is_post script.now ≤ vec_capacity requests.instances) }
        ensures places { IfOk result
            (λ requests. All (HasPlace (length requests.entered.items)) script.now) }
        ensures few { IfOk result (λ requests. length requests.entered.items ≤ COMMUNICATOR_LIMIT) }
    {
        let comms = comms_in(script).min(COMMUNICATOR_LIMIT as usize);
        let requests = Requests::with_room(alloc, comms, posts_in(script))?;
        Ok(requests)
    }

    fn with_room(alloc: Global, comms: usize, posts: usize) -> Result<Requests, AllocError>
        ensures none { IfOk result (λ requests. requests.instances.items ≡ []) }
        ensures room { IfOk result (λ requests. posts ≤ vec_capacity requests.instances) }
        ensures places { IfOk result (λ requests. length requests.entered.items ≡ comms) }
    {
        let entered = zeros(alloc, comms)?;
        let instances = Vec::with_capacity(alloc, posts)?;
        Ok(Requests { entered, instances })
    }

    // A post on a communicator was entered. The k-th post of each member that is entered belongs to
    // instance k.
    fn enter(&mut self, comm: u32)
        requires place { comm < length self.old.entered.items }
        requires room { vec_len self.old.instances < vec_capacity self.old.instances }
        ensures enters { self.new.instances.items ≡
            self.old.instances.items ++ next_on comm self.old.instances.items ∷ [] }
        ensures room { vec_capacity self.new.instances ≡ vec_capacity self.old.instances }
        ensures places { length self.new.entered.items ≡ length self.old.entered.items }
    {
        let number = self.entered[comm as usize];
        self.instances.push_reserved(Instance { comm, number });
        self.entered[comm as usize] = number + 1;
    }

    /// After a post on a communicator that got this reply: its request, if it is the next, is for
    /// the next instance of that communicator. There is a place and room: they were made for all
    /// posts of the script. Takes no memory.
    pub(crate) fn heed(&mut self, comm: u32, reply: &Reply)
        ensures enters { request_of reply.now ≡ Some (vec_len self.old.instances) →
            comm < length self.old.entered.items →
            vec_len self.old.instances < vec_capacity self.old.instances →
            self.new.instances.items ≡
            self.old.instances.items ++ next_on comm self.old.instances.items ∷ [] }
        ensures same { request_of reply.now ≢ Some (vec_len self.old.instances) →
            self.new ≡ self.old }
        ensures room { vec_capacity self.new.instances ≡ vec_capacity self.old.instances }
        ensures places { length self.new.entered.items ≡ length self.old.entered.items }
    {
        if request_of(reply) != Some(self.instances.len() as u64) {
            return;
        }
        let has_place = (comm as usize) < self.entered.len();
        let has_room = self.instances.len() < self.instances.capacity();
        if has_place && has_room {
            self.enter(comm);
        }
    }

    /// The instance of a request. None where the rank was given no request of that number.
    pub(crate) fn instance_of(&self, request: u64) -> Option<Instance>
        ensures { result ≡ slice_get self.now.instances.items request }
    {
        self.instances.get(request as usize).copied()
    }
}
