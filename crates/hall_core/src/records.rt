//! All that a hall keeps.
ghost use Rattle.std.specs.Prelude.{◌≡◌, ◌≢◌, [], length, IfOk, Some, None};
ghost use Rattle.std.specs.Arc.{arc_value};
ghost use Rattle.std.specs.Option.{option_map};
ghost use Rattle.wall_policy.specs.Policy.{IsPolicy};
ghost use Rattle.mpi_cart.specs.Grids.{Topology};
ghost use Rattle.mpi_group.specs.Groups.{rank_in};
ghost use Rattle.coll_values.specs.Instances.{IsWhole};
ghost use Rattle.run_model.specs.Comms.{processes};
ghost use Rattle.run_model.specs.declared.reply.Reply.TheVariants.{Info};
ghost use Rattle.hall_core.specs.Asking.{opened, requests_of};
ghost use Rattle.hall_core.specs.Claims.{CanFinish, HoldsShare, IsUngranted};
ghost use Rattle.hall_core.specs.Settling.{IsShareOf, KeepsCount, settlement_at};

use crate::claims::Claim;
use crate::ledger::Ledger;
use crate::looks::{Due, Open};
use crate::requests::{Request, Requests};
use crate::settled::{Settlement, Settlements, Share};
use crate::takes::found;
use crate::{posts, requests};
use coll_routes::Shape;
use coll_values::{Full, deliver, room};
use mpi_elems::Buffer;
use run_model::{Act, Refusal, Reply};
use run_state::PostState;
use std::alloc::Global;
use std::sync::Arc;
use wall_labels::{NoMemory, ProcessId};
use wall_policy::Policy;

/// The policy; the counted posts so far, as the state has them; the requests of each process; the
/// settlements of the instances that were filled; and the book. Each process of the policy has its
/// requests, and the places of the instances count those that are open.
pub struct Records {
    pub alloc: Global,
    pub policy: Policy,
    pub post_state: PostState<Buffer>,
    pub requests: Vec<Requests>,
    pub settled: Settlements,
    pub book: Ledger,
    ghost each: { length requests.items ≡ processes policy },
    ghost counted: { KeepsCount (requests_of requests.items) (length requests.items) settled },
}

// By hand: a derived one is proved anew in each crate that drops one.
impl Drop for Records {
    fn drop(self) {
        let Records {
            alloc: _,
            policy,
            post_state,
            requests,
            settled,
            book,
        } = self;
        drop(policy);
        drop(post_state);
        drop(requests);
        drop(settled);
        drop(book);
    }
}

impl Records {
    ghost use Rattle.run_model.specs.declared.call.Act.TheVariants.{Take as ToTake};
    ghost use Rattle.run_model.specs.declared.outcome.Outcome.TheVariants.{Granted};
    ghost use Rattle.run_model.specs.Runs.{effects, MakesNothing};
    ghost use Rattle.hall_core.specs.Claims.{claim_reply, HoldsWhatIsKept};
    ghost use Rattle.hall_core.specs.declared.settled.Settlement.{Settlement};
    ghost use Rattle.hall_core.specs.Looks.{IsOpen};
    ghost use Rattle.hall_core.specs.Halls.{StandsForEffects, settlement};
    ghost use Rattle.hall_core.specs.Invariant.{IsHallView, Keeps, view_in};
    ghost use Rattle.hall_core.specs.Moves.{info_of, Closes, Steps, FindsIn};

    /// Records of no call.
    pub fn open(alloc: Global, policy: Policy) -> Result<Records, NoMemory>
        ensures policy { IfOk result (λ records. records.policy ≡ policy) }
        ensures is_policy { IfOk result (λ records. IsPolicy records.policy) }
        ensures stands { IfOk result (λ records. StandsForEffects (view_in records) (effects [])) }
        ensures gone { IfOk result (λ records. records.book.gone ≡ []) }
    {
        // Not by `?`, which would be proved at the whole types of the state and the records.
        let requests = match first_requests(alloc, &policy) {
            Ok(requests) => requests,
            Err(refused) => return Err(refused),
        };
        let post_state = match PostState::open(alloc, &policy) {
            Ok(post_state) => post_state,
            Err(refused) => return Err(refused),
        };
        Ok(Records {
            alloc,
            policy,
            post_state,
            requests,
            settled: Settlements::new(alloc),
            book: Ledger::new(alloc),
        })
    }

    /// Carries out what a process asks for.
    pub fn step(&mut self, process: u32, act: Act) -> Reply
        requires { IsHallView (view_in self.old) }
        ensures keeps { Keeps self.old self.new }
        ensures steps { Steps (view_in self.old) (view_in self.new) process act result }
        ensures unchanged { MakesNothing result → view_in self.new ≡ view_in self.old }
    {
        match act {
            Act::Post(posting) => self.post(process, posting),
            Act::Take(request) => self.take(process, request),
            Act::Info(comm) => self.info(process, comm),
        }
    }

    /// The size of a communicator, the rank of the process there, and the number of dimensions of
    /// its grid.
    pub fn info(&self, process: u32, comm: u32) -> Reply
        ensures { result ≡ info_of (view_in self.now) process comm }
    {
        if self.policy.processes() <= process {
            return Reply::Refused(Refusal::NoSuchProcess);
        }
        if self.post_state.len() <= comm {
            return Reply::Refused(Refusal::NoSuchComm);
        }
        let member = posts::member(process);
        match self.post_state.group(comm).rank_of(member) {
            None => Reply::Refused(Refusal::NotMember),
            Some(rank) => described(self.post_state.shape(comm), rank),
        }
    }

    /// What a take of a request is due.
    pub fn look(&self, process: u32, request: u64) -> Due<'_>
        requires { IsHallView (view_in self.now) }
        ensures { FindsIn (view_in self.now) process request result }
    {
        let Some(asked) = requests::opened_by(&self.requests, process, request as usize) else {
            return Due::Told(Reply::Refused(Refusal::NoSuchRequest));
        };
        let Some(place) = self.settled.place(asked.comm, asked.k) else {
            return Due::Told(Reply::Pending);
        };
        let Some(settlement) = &place.settlement else {
            return Due::Told(Reply::Pending);
        };
        let it = Open {
            process,
            request,
            comm: asked.comm,
            k: asked.k,
            others: place.waiting - 1,
        };
        self.look_at(settlement, it)
    }

    // What a take of an open request is due, of whose instance this came.
    fn look_at<'a>(&'a self, settlement: &'a Settlement, it: Open) -> Due<'a>
        requires hall { IsHallView (view_in self.now) }
        requires is_open { IsOpen (view_in self.now) it settlement.now }
        ensures { FindsIn (view_in self.now) it.process it.request result }
    {
        found(&self.post_state, posts::member(it.process), settlement, it)
    }

    /// An open request is taken whose outcome was due; with the last that is open for its instance,
    /// that is let go.
    pub fn close(&mut self, it: Open)
        requires { (s : Settlement) × IsOpen (view_in self.old) it s }
        ensures keeps { Keeps self.old self.new }
        ensures closes { Closes (view_in self.old) (view_in self.new) it.process it.request }
    {
        let asked = Request {
            comm: it.comm,
            k: it.k,
        };
        self.close_asked(it.process, it.request, asked);
    }

    // The same, by the instance that the request is for.
    fn close_asked(&mut self, process: u32, request: u64, asked: Request)
        requires { opened (requests_of self.old.requests.items process) request ≡ Some asked }
        ensures keeps { Keeps self.old self.new }
        ensures closes { Closes (view_in self.old) (view_in self.new) process request }
    {
        requests::take(&mut self.requests, process, request as usize);
        self.settled.leave(asked.comm, asked.k);
    }

    /// The outcome of a request, which is then marked as taken.
    pub fn take(&mut self, process: u32, request: u64) -> Reply
        requires { IsHallView (view_in self.old) }
        ensures keeps { Keeps self.old self.new }
        ensures steps { Steps (view_in self.old) (view_in self.new) process (ToTake request)
            result }
        ensures unchanged { MakesNothing result → view_in self.new ≡ view_in self.old }
    {
        match self.look(process, request) {
            Due::Told(reply) => reply,
            Due::Outcome(reply, it) => {
                self.close(it);
                reply
            }
            Due::Granted {
                full,
                rank,
                open: it,
            } => match deliver(self.alloc, full, rank) {
                Ok(delivery) => {
                    self.close(it);
                    Reply::Delivered(delivery)
                }
                Err(refused) => Reply::Refused(Refusal::from(refused)),
            },
        }
    }

    /// The part of a take for which the hall is needed; it also marks the request as taken.
    pub fn claim(&mut self, process: u32, request: u64) -> Claim
        requires { IsHallView (view_in self.old) }
        ensures keeps { Keeps self.old self.new }
        ensures steps { Steps (view_in self.old) (view_in self.new) process (ToTake request)
            (claim_reply result) }
        ensures unchanged { MakesNothing (claim_reply result) →
            view_in self.new ≡ view_in self.old }
        ensures can { CanFinish result }
        ensures holds { HoldsWhatIsKept (view_in self.old) process request result }
    {
        // Not by `look`: a rank that waits comes here at each of its tries.
        let Some(asked) = requests::opened_by(&self.requests, process, request as usize) else {
            return Claim::Done(Reply::Refused(Refusal::NoSuchRequest));
        };
        match self.share(asked.comm, asked.k) {
            Share::Awaited => Claim::Done(Reply::Pending),
            Share::Given(full) => self.claim_shared(process, request, asked, full),
            Share::Refused(refused) => Claim::Done(Reply::Refused(Refusal::from(refused))),
            Share::Withheld => self.claim_looked(process, request),
        }
    }

    // A share of an instance, where it was granted and there is memory. Callers can tell no
    // difference.
    #[tactic(auto, using(crate::proofs::CountLemmas::counted_ready, crate::proofs::CountLemmas::settled_same))]
    fn share(&mut self, comm: u32, k: u64) -> Share
        ensures keeps { Keeps self.old self.new }
        ensures same { view_in self.new ≡ view_in self.old }
        ensures shares { IsShareOf (settlement_at self.old.settled comm k) result }
    {
        self.settled.share(comm, k)
    }

    // A claim of an open request by this share of its instance, which was granted.
    fn claim_shared(
        &mut self,
        process: u32,
        request: u64,
        asked: Request,
        full: Arc<Full<Buffer>>,
    ) -> Claim
        requires hall { IsHallView (view_in self.old) }
        requires waits { opened (requests_of self.old.requests.items process) request
            ≡ Some asked }
        requires granted { settlement_at self.old.settled asked.comm asked.k
            ≡ Some (settlement (arc_value full) Granted) }
        ensures keeps { Keeps self.old self.new }
        ensures steps { Steps (view_in self.old) (view_in self.new) process (ToTake request)
            (claim_reply result) }
        ensures unchanged { MakesNothing (claim_reply result) →
            view_in self.new ≡ view_in self.old }
        ensures can { CanFinish result }
        ensures holds { HoldsWhatIsKept (view_in self.old) process request result }
    {
        match ready(self.alloc, posts::member(process), full) {
            Ok(claim) => {
                self.close_asked(process, request, asked);
                claim
            }
            Err(refused) => Claim::Done(Reply::Refused(Refusal::from(refused))),
        }
    }

    // A claim of an open request whose instance was filled, and not granted: what a look finds.
    fn claim_looked(&mut self, process: u32, request: u64) -> Claim
        requires hall { IsHallView (view_in self.old) }
        requires ungranted { IsUngranted (view_in self.old) process request }
        ensures keeps { Keeps self.old self.new }
        ensures steps { Steps (view_in self.old) (view_in self.new) process (ToTake request)
            (claim_reply result) }
        ensures unchanged { MakesNothing (claim_reply result) →
            view_in self.new ≡ view_in self.old }
        ensures can { CanFinish result }
        ensures holds { HoldsWhatIsKept (view_in self.old) process request result }
    {
        match self.look(process, request) {
            Due::Told(reply) => Claim::Done(reply),
            Due::Outcome(reply, it) => {
                self.close(it);
                Claim::Done(reply)
            }
            Due::Granted { .. } => unreachable!(),
        }
    }
}

// A claim of a member by a share of its instance: its rank there, and room for what that gets.
fn ready(alloc: Global, member: ProcessId, full: Arc<Full<Buffer>>) -> Result<Claim, NoMemory>
    requires whole { IsWhole (arc_value full) }
    requires member { rank_in (arc_value full).roll.members member ≢ None }
    ensures can { IfOk result CanFinish }
    ensures holds { IfOk result (HoldsShare member (arc_value full)) }
{
    let Some(rank) = full.roll.members.rank_of(member) else {
        unreachable!()
    };
    let room = room(alloc, &full, rank)?;
    Ok(Claim::Ready { full, rank, room })
}

// No request for each process of the policy.
fn first_requests(alloc: Global, policy: &Policy) -> Result<Vec<Requests>, NoMemory>
    ensures none { IfOk result (λ v. requests_of v.items ≡ (λ p. [])) }
    ensures each { IfOk result (λ v. length v.items ≡ processes policy.now) }
    ensures is_policy { IsPolicy policy.now }
{
    Ok(requests::no_requests(alloc, policy.processes())?)
}

fn described(shape: &Shape, rank: u32) -> Reply
    ensures { result
        ≡ Info shape.now.size rank (option_map (λ (g : Topology). length g.dims) shape.now.grid) }
{
    let dims = match &shape.grid {
        Some(grid) => Some(grid.ndims()),
        None => None,
    };
    Reply::Info {
        size: shape.size,
        rank,
        dims,
    }
}
