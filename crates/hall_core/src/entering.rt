//! Posts: refused, or entered and recorded.
ghost use Rattle.std.specs.Prelude.{◌≡◌, ◌<◌, ◌^◌, ◌==◌, ◌&&◌, if◌then◌else◌, ℕ, not, IfOk, OnOk};
ghost use Rattle.std.specs.Prelude.{OnErr, Some, None};
ghost use Rattle.std.specs.Result.{result_err};
ghost use Rattle.wall_rules.specs.Histories.{has};
ghost use Rattle.coll_routes.specs.Faults.{stated_type};
ghost use Rattle.wall_verdict.specs.Star.{star};
ghost use Rattle.run_model.specs.Comms.{processes};
ghost use Rattle.run_model.specs.Contributions.{contribution};
ghost use Rattle.run_model.specs.EntryForms.{HasForm};
ghost use Rattle.run_model.specs.Replies.{refusal};
ghost use Rattle.run_model.specs.Runs.{Effects, MakesNothing};
ghost use Rattle.run_model.specs.declared.call.Act.TheVariants.{Post as ToPost};
ghost use Rattle.run_model.specs.declared.entry.Entry.TheVariants.{Posted as EntryPosted};
ghost use Rattle.run_model.specs.declared.entry.Entry.TheVariants.{Settled as EntrySettled};
ghost use Rattle.run_state.specs.Views.{LookedAt, view_of as seen};
ghost use Rattle.hall_core.specs.Asking.{requests_of, with_request};
ghost use Rattle.hall_core.specs.Halls.{StandsForEffects};
ghost use Rattle.hall_core.specs.Invariant.{IsHallView, Keeps, view_in};
ghost use Rattle.hall_core.specs.Ledgers.{AddsEntry};
ghost use Rattle.hall_core.specs.Moves.{number_in, Counts, HasRoom, IsRecorded, IsSeatFor};
ghost use Rattle.hall_core.specs.Moves.{KeepsPosts, MayAsk, MaySettle, Steps};
ghost use Rattle.hall_core.specs.Settling.{open_at, places_of, settlement_at};
ghost use Rattle.hall_core.specs.Windows.{HasReached};

use crate::instance::Instance;
use crate::records::Records;
use crate::requests::Request;
use crate::settled::Settlement;
use crate::{posts, requests};
use coll_routes::Stated;
use mpi_elems::Buffer;
use run_model::{Entry, Posting, Refusal, Reply};
use run_state::{Entered, Next, Seat, Terms, Unentered};
use wall_labels::{NoMemory, ProcessId};

impl Records {
    /// Counts a post, or says why it is refused.
    pub fn post(&mut self, process: u32, posting: Posting) -> Reply
        requires { IsHallView (view_in self.old) }
        ensures keeps { Keeps self.old self.new }
        ensures steps { Steps (view_in self.old) (view_in self.new) process (ToPost posting)
            result }
        ensures unchanged { MakesNothing result → view_in self.new ≡ view_in self.old }
    {
        match self.seat_of(process, &posting) {
            Err(refusal) => {
                drop(posting);
                Reply::Refused(refusal)
            }
            Ok(seat) => self.accept(process, seat, posting),
        }
    }

    // What a post meets, or the first refusal of it that holds.
    fn seat_of(&self, process: u32, posting: &Posting) -> Result<Seat, Refusal>
        ensures first { (m : Effects) → StandsForEffects (view_in self.now) m →
            result_err result ≡ refusal self.now.policy m process posting.now }
        ensures seat { IfOk result (IsSeatFor self.now process posting.now) }
    {
        let looked = self.post_state.look(
            &self.policy,
            process,
            posting.comm,
            Terms {
                sig: &posting.sig,
                own: &posting.own,
                elem_type: posting.elements.elem_type(),
                given: posts::given(posting),
            },
        );
        match looked {
            Err(refusal) => Err(refusal),
            Ok(seat) => match requests::refusal(&self.requests, process) {
                Some(refusal) => Err(refusal),
                None => Ok(seat),
            },
        }
    }

    // Counts a post that is not refused, as a look found it.
    fn accept(&mut self, process: u32, seat: Seat, posting: Posting) -> Reply
        requires hall { IsHallView (view_in self.old) }
        requires none { (m : Effects) → StandsForEffects (view_in self.old) m →
            refusal self.old.policy m seat.process posting ≡ None }
        requires seat { IsSeatFor self.old process posting seat }
        ensures keeps { Keeps self.old self.new }
        ensures steps { Steps (view_in self.old) (view_in self.new) seat.process (ToPost posting)
            result }
        ensures unchanged { MakesNothing result → view_in self.new ≡ view_in self.old }
    {
        let label = posts::label(&posting);
        let passed = self.post_state.passes(&seat, &label);
        let request = requests::given_to(&self.requests, process);
        let given = posts::given(&posting) as u32;
        let Posting {
            comm: _,
            sig,
            own,
            label: told,
            elements,
        } = posting;
        let stated = Stated {
            sig,
            own,
            given,
            label,
            barred: !passed,
        };
        let part = posts::kept(self.alloc, elements, !passed);
        let entered = self.enter(seat, stated, part);
        posts::answer(entered, passed, request as u64, told)
    }

    // Counts a post as a look found it, with what it states and its part; where memory runs out
    // nothing has changed.
    fn enter(&mut self, seat: Seat, stated: Stated, part: Buffer) -> Result<(), NoMemory>
        requires hall { IsHallView (view_in self.old) }
        requires may { MayAsk self.old seat.process }
        requires looked { LookedAt (seen self.old.post_state) seat stated.sig stated.own
            (stated_type stated.sig) stated.given }
        requires word { stated.barred
            ≡ not (star (has self.old.post_state.accesses) seat.process stated.label) }
        requires form { HasForm (EntryPosted seat.process seat.meeting.comm stated) }
        ensures keeps { Keeps self.old self.new }
        ensures entered { OnOk result (Counts (view_in self.old) (view_in self.new)
            (contribution seat.process seat.meeting.comm stated part)) }
        ensures unchanged { OnErr result (view_in self.new ≡ view_in self.old) }
    {
        // What is owned is let go by a call on each way out: the proof would take it apart.
        let copy = match stated.copy(self.alloc) {
            Ok(copy) => copy,
            Err(refused) => {
                drop(stated);
                drop(part);
                return Err(refused);
            }
        };
        let member = seat.process;
        let comm = seat.meeting.comm;
        let k = seat.meeting.k;
        let does = seat.meeting.does;
        match self.make_room(member.number(), comm, k) {
            Ok(()) => {}
            Err(refused) => {
                drop(copy);
                drop(stated);
                drop(part);
                return Err(refused);
            }
        }
        if let Next::Joins = does {
            self.post_state.join(seat, stated, part);
            self.note(member, Request { comm, k }, copy);
            return Ok(());
        }
        match self.post_state.enter(&self.policy, seat, stated, part) {
            Err(unentered) => {
                let Unentered {
                    refused,
                    stated,
                    part,
                } = unentered;
                drop(copy);
                drop(stated);
                drop(part);
                Err(refused)
            }
            Ok(entered) => {
                self.record(member, comm, copy, entered);
                Ok(())
            }
        }
    }

    // Makes the room that a post of a process to instance k of a communicator takes. Out of memory
    // only where there was not all of it.
    #[tactic(auto, using(crate::proofs::CountLemmas::counted_ready, crate::proofs::CountLemmas::settled_same))]
    fn make_room(&mut self, process: u32, comm: u32, k: u64) -> Result<(), NoMemory>
        requires may { MayAsk self.old process }
        requires low { k < 2 ^ 62 }
        requires few_open { open_at self.old.settled comm k < 2 ^ 62 }
        ensures keeps { KeepsPosts self.old self.new }
        ensures same { view_in self.new ≡ view_in self.old }
        ensures room { OnOk result (HasRoom self.new process comm k) }
        ensures reached { OnOk result
            (HasReached (places_of self.old.settled comm) (places_of self.new.settled comm) k) }
        ensures memory { HasRoom self.old process comm k → OnErr result ⊥ }
    {
        requests::reserve(&mut self.requests, process)?;
        self.book.reserve(2)?;
        self.settled.ready(comm, k)
    }

    // Records a post that was entered, for which there is room.
    fn record(&mut self, member: ProcessId, comm: u32, stated: Stated, entered: Entered<Buffer>)
        requires process { member < processes self.old.policy }
        requires form { HasForm (EntryPosted member comm stated) }
        requires room { HasRoom self.old member comm (number_in entered) }
        ensures keeps { KeepsPosts self.old self.new }
        ensures recorded { IsRecorded (view_in self.old) (view_in self.new) member comm stated
            entered }
    {
        match entered {
            Entered::Waiting { k } => self.note(member, Request { comm, k }, stated),
            Entered::Settled { full, k, outcome } => {
                self.note(member, Request { comm, k }, stated);
                let full = Instance::new(full);
                self.settle(comm, k, Settlement { full, outcome });
            }
        }
    }

    // Records a post, by the request that it is given.
    fn note(&mut self, member: ProcessId, request: Request, stated: Stated)
        requires process { member < processes self.old.policy }
        requires form { HasForm (EntryPosted member request.comm stated) }
        requires room { HasRoom self.old member request.comm request.k }
        ensures keeps { KeepsPosts self.old self.new }
        ensures settled { (c j : ℕ) →
            settlement_at self.new.settled c j ≡ settlement_at self.old.settled c j }
        ensures may { MaySettle self.new request.comm request.k }
        ensures requests { requests_of self.new.requests.items
            ≡ with_request (requests_of self.old.requests.items) member request }
        ensures book { AddsEntry self.old.book self.new.book
            (EntryPosted member request.comm stated) }
    {
        requests::push(&mut self.requests, member.number(), request);
        self.settled.join(request.comm, request.k);
        self.book.push(Entry::Posted {
            process: member,
            comm: request.comm,
            stated,
        });
    }

    // Records the outcome of an instance.
    fn settle(&mut self, comm: u32, k: u64, settlement: Settlement)
        requires { MaySettle self.old comm k }
        ensures keeps { KeepsPosts self.old self.new }
        ensures requests { self.new.requests ≡ self.old.requests }
        ensures settled { (d j : ℕ) → settlement_at self.new.settled d j
            ≡ (if d == comm && j == k then Some settlement
            else settlement_at self.old.settled d j) }
        ensures book { AddsEntry self.old.book self.new.book
            (EntrySettled comm k settlement.outcome) }
    {
        self.book.push(Entry::Settled {
            comm,
            k,
            outcome: settlement.outcome,
        });
        self.settled.put(comm, k, settlement);
    }
}
