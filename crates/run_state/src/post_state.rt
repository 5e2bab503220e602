//! The counted posts so far, in the parts that go on from them.
ghost use Rattle.std.specs.Prelude.{◌≡◌, ◌<◌, ◌≤◌, ◌^◌, [], List, length, slice_get};
ghost use Rattle.std.specs.Prelude.{IfOk, IfErr, OnErr, Some};
ghost use Rattle.std.specs.Result.{result_err};
ghost use Rattle.wall_policy.specs.Policy.{ChineseWall};
ghost use Rattle.wall_rules.specs.Histories.{has};
ghost use Rattle.wall_verdict.specs.Star.{star};
ghost use Rattle.run_model.specs.Comms.{Comm, shape_of};
ghost use Rattle.run_model.specs.Posts.{histories, posts_on};
ghost use Rattle.run_model.specs.Refusals.{fault};
ghost use Rattle.coll_pending.specs.declared.arrival.Next.TheVariants.{Joins};
ghost use Rattle.run_state.specs.declared.entered.Entered.TheVariants.{Waiting};

use crate::communicators::Communicators;
use crate::entered::{Entered, Unentered};
use crate::seat::{Seat, Terms};
use crate::steps::{self, Poster, settle_full};
use coll_pending::laws::faultless_signatures_fit;
use coll_pending::{Arrived, Pending};
use coll_routes::{Shape, Stated};
use mpi_group::Group;
use run_model::Refusal;
use std::alloc::Global;
use std::marker::Model;
use wall_labels::{Label, NoMemory, ProcessId};
use wall_policy::Policy;
use wall_rules::Histories;
use wall_verdict::{enter_passed, passes_star};

/// The communicators with their grids, the instances that wait for members, each with what its
/// members have brought so far, and who has had access to what.
///
/// It stands for the posts that were entered, which contracts list with the newest first. The
/// policy is handed in each time: it is the one that the state was opened with.
pub struct PostState<X> {
    comms: Communicators,
    pending: Pending<X>,
    histories: Histories,
}

// By hand: a derived one is proved anew in each crate that drops one.
impl<X: Drop> Drop for PostState<X> {
    fn drop(self) {
        let PostState {
            comms,
            pending,
            histories,
        } = self;
        drop(comms);
        drop(pending);
        drop(histories);
    }
}

impl<X> Model for PostState<X> {
    ghost use Rattle.std.specs.Coded.{codes};
    ghost use Rattle.wall_rules.specs.Histories.{accesses_code};
    ghost use Rattle.run_state.specs.Views.{PostStateValue, IsPostState, view_of};

    ghost Value = { PostStateValue X };

    ghost coded = { Prim.hlevel (codes, accesses_code) };

    ghost view = { λ c. record { comms = c.comms; lines = c.pending; accesses = c.histories } };

    ghost invariant = { λ c. IsPostState
        (view_of (record { comms = c.comms; lines = c.pending; accesses = c.histories })) };
}

impl<X: Drop> PostState<X> {
    ghost use Rattle.run_model.specs.Contributions.{Contribution, posts_of};
    ghost use Rattle.run_state.specs.Views.{IsPostState, view_of, fault_of, IsSeatOf, IsSeatFor};
    ghost use Rattle.run_state.specs.Views.{TellsIfBarred};
    ghost use Rattle.run_state.specs.Stands.{StandsForPosts, Enters};

    /// A state that stands for no post: the world alone, and each process with access to its home.
    /// `NoMemory` is answered only where a growth was refused.
    pub fn open(alloc: Global, policy: &Policy) -> Result<PostState<X>, NoMemory>
        ensures { IfOk result (λ post_state. StandsForPosts policy.now (view_of post_state) []) }
    {
        let histories = Histories::opening(alloc, policy)?;
        let world = steps::world(alloc, policy.processes())?;
        let comms = Communicators::open(alloc, world)?;
        let pending = Pending::new(alloc);
        Ok(PostState {
            comms,
            pending,
            histories,
        })
    }

    /// How many communicators there are, the world included.
    pub fn len(&self) -> u32
        ensures value { result ≡ length self.now.comms }
        ensures post_state { IsPostState (view_of self.now) }
    {
        self.comms.len()
    }

    /// The group of a communicator that is there.
    pub fn group(&self, comm: u32) -> &Group
        requires { comm < length self.now.comms }
        ensures { (found : Comm) → slice_get self.now.comms comm ≡ Some found →
            result.now ≡ found.members }
    {
        self.comms.group(comm)
    }

    /// The size of a communicator that is there, and its grid, if it has one.
    pub fn shape(&self, comm: u32) -> &Shape
        requires { comm < length self.now.comms }
        ensures { (found : Comm) → slice_get self.now.comms comm ≡ Some found →
            result.now ≡ shape_of found }
    {
        self.comms.shape(comm)
    }

    /// Who has had access to what. Nobody has had access to two rivals.
    pub fn histories(&self) -> &Histories
        ensures value { result.now ≡ self.now.accesses }
        ensures posts { (wall : ChineseWall) (past : List (Contribution X)) →
            StandsForPosts wall (view_of self.now) past →
            has result.now ≡ histories wall (posts_of past) }
    {
        &self.histories
    }

    /// What the next post of a process on a communicator meets, if it is of this signature and
    /// gives so many elements of this type, for `join` and `enter`; or why it would be refused: the
    /// first refusal that holds, of those that posts alone decide. Takes no memory.
    pub fn look(
        &self,
        policy: &Policy,
        process: u32,
        comm: u32,
        terms: Terms<'_>,
    ) -> Result<Seat, Refusal>
        ensures test { result_err result ≡ fault_of policy.now (view_of self.now) process comm
            terms.entry.sig.now terms.entry.own.now terms.entry.elem_type terms.entry.given }
        ensures posts { (past : List (Contribution X)) →
            StandsForPosts policy.now (view_of self.now) past →
            result_err result ≡ fault policy.now (posts_of past) process comm
            terms.entry.sig.now terms.entry.own.now terms.entry.elem_type terms.entry.given }
        ensures process { IfOk result (λ seat. seat.process ≡ process) }
        ensures comm { IfOk result (λ seat. seat.meeting.comm ≡ comm) }
        ensures looked { IfOk result (IsSeatOf (view_of self.now) terms.entry) }
        ensures place { IfOk result (λ seat. (past : List (Contribution X)) →
            StandsForPosts policy.now (view_of self.now) past →
            seat.meeting.k
            ≡ length (posts_on seat.meeting.comm seat.process (posts_of past))) }
    {
        let poster = Poster {
            processes: policy.processes(),
            process,
            comm,
        };
        steps::look(&self.comms, &self.pending, poster, terms)
    }

    /// Whether the star rule lets the process of the seat post elements with this label; a post of
    /// no elements has none, and passes.
    pub fn passes(&self, seat: &Seat, label: &Option<Label>) -> bool
        ensures test { result ≡ star (has self.now.accesses) seat.now.process label.now }
        ensures posts { (wall : ChineseWall) (past : List (Contribution X)) →
            StandsForPosts wall (view_of self.now) past →
            result ≡ star (histories wall (posts_of past)) seat.now.process label.now }
    {
        passes_star(&self.histories, seat.process, label)
    }

    /// Enters a post as a look found it, of an instance that waits for others too: it waits on.
    /// Takes no memory. At such a post `enter` does this too.
    pub fn join(&mut self, seat: Seat, stated: Stated, part: X)
        requires looked { IsSeatFor (view_of self.old) stated seat }
        requires word { TellsIfBarred self.old.accesses stated seat }
        requires few { seat.meeting.k < 2 ^ 62 }
        requires joins { seat.meeting.does ≡ Joins }
        ensures entered { (wall : ChineseWall) →
            Enters wall self.old self.new seat stated part (Waiting seat.meeting.k) }
        ensures classes { self.new.accesses.classes ≡ self.old.accesses.classes }
    {
        // Called for what is known of each group.
        let _ = self.comms.group(seat.meeting.comm);
        enter_passed(
            &mut self.histories,
            seat.process,
            &stated.label,
            !stated.barred,
        );
        self.pending.join(seat.meeting, stated, part);
    }

    /// Enters a post as a look found it, which says by its word whether the star rule barred it.
    /// Where it is the last of its instance, it tells the outcome of the instance, and hands it out
    /// with all parts; a constructor whose communicators do not fit makes none.
    ///
    /// Where memory runs out, nothing has changed, and statement and part come back.
    pub fn enter(
        &mut self,
        policy: &Policy,
        seat: Seat,
        stated: Stated,
        part: X,
    ) -> Result<Entered<X>, Unentered<X>>
        requires policy { self.old.accesses.classes ≡ policy.now.classes }
        requires looked { IsSeatFor (view_of self.old) stated seat }
        requires word { TellsIfBarred self.old.accesses stated seat }
        requires few { seat.meeting.k < 2 ^ 62 }
        ensures entered { IfOk result (Enters policy.now self.old self.new seat stated part) }
        ensures classes { self.new.accesses.classes ≡ self.old.accesses.classes }
        ensures unchanged { OnErr result (view_of self.new ≡ view_of self.old) }
        ensures back { IfErr result (λ refused. (refused.stated ≡ stated) × (refused.part ≡ part)) }
    {
        // Called for what is known of each group.
        let _ = self.comms.group(seat.meeting.comm);
        let met = seat.meeting;
        match steps::prepare(&mut self.comms, &mut self.pending, met, &stated) {
            Err(refused) => Err(Unentered {
                refused,
                stated,
                part,
            }),
            Ok(made) => {
                faultless_signatures_fit();
                let passed = !stated.barred;
                enter_passed(&mut self.histories, seat.process, &stated.label, passed);
                let group = self.comms.group(met.comm);
                let shape = self.comms.shape(met.comm);
                let k = met.k;
                match self.pending.arrive_ready(met, group, shape, stated, part) {
                    Arrived::Waiting => Ok(Entered::Waiting { k }),
                    Arrived::Full(full) => {
                        let outcome = settle_full(policy, &mut self.histories, &full.roll, made);
                        Ok(Entered::Settled { full, k, outcome })
                    }
                }
            }
        }
    }
}
