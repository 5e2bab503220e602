//! The instances of all communicators that wait for members.
ghost use Rattle.std.specs.Prelude.{◌≡◌, ◌≢◌, ◌<◌, ◌^◌, ℕ, length, true, IfOk, IfErr, OnOk, OnErr};
ghost use Rattle.std.specs.Prelude.{None, Some, IfSome};
ghost use Rattle.std.specs.Option.{option_copied};
ghost use Rattle.coll_pending.specs.declared.arrival.Arrived.TheVariants.{Waiting};
ghost use Rattle.coll_pending.specs.declared.arrival.Next.TheVariants.{Opens, Joins, Mismatch};
ghost use Rattle.coll_pending.specs.Instances.{made_of};

use crate::arrival::{ArrivalFault, Arrived, Meeting, Next, Unarrived};
use crate::communicator::Communicator;
use crate::queues::Queues;
use crate::spare::Spare;
use coll_routes::{Roll, Shape, Signature, Stated};
use mpi_group::Group;
use std::alloc::Global;
use std::marker::Model;
use wall_labels::NoMemory;

/// Instances that wait for members, each by its communicator and its number on it.
///
/// The k-th arrivals of the members of a communicator meet in its k-th instance, whatever comes
/// between them. Communicators, ranks, arrivals and instances count from 0. Contracts see, by
/// `view_of_pending`, the number of arrivals of each member, the instances that wait, and the
/// members and the shape of each communicator from its first arrival on.
///
/// No call takes longer for more instances that wait, or for more arrivals before. Memory grows
/// with the highest number of a communicator that is known and with the instances that wait.
#[derive(Drop)]
pub struct Pending<X> {
    alloc: Global,
    queues: Queues<X>,
    spare: Spare<X>,
}

impl<X> Model for Pending<X> {
    ghost use Rattle.coll_pending.specs.Waiting.{State};

    ghost Value = { State X };

    ghost view = { λ p. record { queues = p.queues; spare = p.spare } };
}

impl<X: Drop> Pending<X> {
    ghost use Rattle.coll_pending.specs.Instances.{Communicator, made_of, roll_in};
    ghost use Rattle.coll_pending.specs.Lists.{fits, room_by};
    ghost use Rattle.coll_pending.specs.Waiting.{view_of_pending, next, HasRoom, HasArrived};
    ghost use Rattle.coll_pending.specs.Waiting.{IsKnownAs, IsExpected, IsMet, HasRoomAt};
    ghost use Rattle.coll_pending.specs.Waiting.{HasAllRoom, fault_at, meeting_of, IsMeetingOf};

    /// Nobody has arrived.
    #[tactic(auto, unfolding(crate::specs::Waiting::view_of_pending))]
    pub fn new(alloc: Global) -> Pending<X>
        ensures arrivals { (comm rank : ℕ) → (view_of_pending result).arrivals comm rank ≡ 0 }
        ensures pending { (comm k : ℕ) → (view_of_pending result).pending comm k ≡ None }
        ensures known { (comm : ℕ) → (view_of_pending result).known comm ≡ None }
    {
        Pending {
            alloc,
            queues: Queues::new(alloc),
            spare: Spare::none(alloc),
        }
    }

    /// How often a rank has arrived on a communicator. Refused arrivals don't count.
    #[tactic(auto, unfolding(crate::specs::Waiting::view_of_pending))]
    pub fn arrivals(&self, comm: u32, rank: u32) -> u64
        ensures { result ≡ (view_of_pending self.now).arrivals comm rank }
    {
        self.queues.arrivals(comm, rank)
    }

    /// What the next arrival of a rank on a communicator meets, if it has this signature: `join`
    /// and `arrive_ready` take it.
    #[tactic(auto, unfolding(crate::specs::Waiting::view_of_pending))]
    pub fn look(&self, comm: u32, rank: u32, sig: &Signature) -> Meeting
        ensures { result ≡ meeting_of (view_of_pending self.now) comm rank sig.now }
    {
        self.queues.look(comm, rank, sig)
    }

    /// What the next arrival of a rank on a communicator would do, if it has this signature.
    pub fn next(&self, comm: u32, rank: u32, sig: &Signature) -> Next
        ensures { result ≡ next (view_of_pending self.now) comm rank sig.now }
    {
        self.look(comm, rank, sig).does
    }

    /// The roll of the k-th instance of a communicator, if it waits for members.
    #[tactic(auto, unfolding(crate::specs::Waiting::view_of_pending))]
    pub fn roll(&self, comm: u32, k: u64) -> Option<&Roll>
        ensures { option_copied result ≡ roll_in ((view_of_pending self.now).pending comm k) }
    {
        match self.queues.slot(comm, k) {
            Some(slot) => Some(&slot.roll),
            None => None,
        }
    }

    /// Makes the room with which the next arrival, if it is that member's, takes no memory:
    /// whatever its signature where its instance waits, and else one whose lists are no longer
    /// than a communicator of that shape allows.
    pub fn ready(
        &mut self,
        comm: u32,
        rank: u32,
        group: &Group,
        shape: &Shape,
    ) -> Result<(), NoMemory>
        requires rank { rank < length group.now }
        requires known { IsKnownAs (made_of group.now shape.now)
            ((view_of_pending self.old).known comm) }
        ensures unchanged { view_of_pending self.new ≡ view_of_pending self.old }
        ensures room { OnOk result (HasRoom self.new comm rank (made_of group.now shape.now)) }
        ensures memory { HasRoom self.old comm rank (made_of group.now shape.now) → OnErr result ⊥ }
    {
        self.make_room(comm, rank, &Communicator::new(group, shape))
    }

    /// A member arrives with its statement and its part. It is refused where its instance is of
    /// another signature, or where memory runs out; statement and part then come back.
    ///
    /// After `ready` an arrival at an instance that waits takes no memory, whatever its signature.
    /// One that opens an instance keeps its signature twice, in the roll and in its own row, and
    /// takes no memory if its lists are no longer than a communicator of that shape allows.
    pub fn arrive(
        &mut self,
        comm: u32,
        rank: u32,
        group: &Group,
        shape: &Shape,
        stated: Stated,
        part: X,
    ) -> Result<Arrived<X>, Unarrived<X>>
        requires rank { rank < length group.now }
        requires known { IsKnownAs (made_of group.now shape.now)
            ((view_of_pending self.old).known comm) }
        requires few { (view_of_pending self.old).arrivals comm rank < 2 ^ 62 }
        ensures arrived { IfOk result
            (HasArrived (view_of_pending self.old) (view_of_pending self.new) comm rank
            (made_of group.now shape.now) stated part) }
        ensures unchanged { OnErr result (view_of_pending self.new ≡ view_of_pending self.old) }
        ensures fault { IfErr result (λ refused.
            refused.fault ≡ fault_at (next (view_of_pending self.old) comm rank stated.sig)) }
        ensures back { IfErr result (λ refused. (refused.stated ≡ stated) × (refused.part ≡ part)) }
        ensures memory { HasRoom self.old comm rank (made_of group.now shape.now) →
            (next (view_of_pending self.old) comm rank stated.sig ≡ Opens →
            fits (room_by shape.now) stated.sig ≡ true) →
            IfErr result (λ refused. refused.fault ≢ ArrivalFault.NoMemory) }
    {
        let meeting = self.look(comm, rank, &stated.sig);
        match self.meet(meeting, &Communicator::new(group, shape), &stated.sig) {
            Ok(()) => Ok(self.queues.arrive(meeting, stated, part)),
            Err(fault) => Err(Unarrived {
                fault,
                stated,
                part,
            }),
        }
    }

    /// A member arrives with its statement and its part as a look told, at an instance of its own
    /// signature; where it opens one there is room for it. Takes no memory.
    pub fn arrive_ready(
        &mut self,
        meeting: Meeting,
        group: &Group,
        shape: &Shape,
        stated: Stated,
        part: X,
    ) -> Arrived<X>
        requires met { IsMeetingOf (view_of_pending self.old) stated.sig meeting }
        requires agrees { meeting.does ≢ Mismatch }
        requires rank { meeting.rank < length group.now }
        requires known { IsKnownAs (made_of group.now shape.now)
            ((view_of_pending self.old).known meeting.comm) }
        requires few { meeting.k < 2 ^ 62 }
        requires room { meeting.does ≡ Opens →
            HasRoom self.old meeting.comm meeting.rank (made_of group.now shape.now) }
        requires fits { meeting.does ≡ Opens → fits (room_by shape.now) stated.sig ≡ true }
        ensures { HasArrived (view_of_pending self.old) (view_of_pending self.new) meeting.comm
            meeting.rank (made_of group.now shape.now) stated part result }
    {
        match meeting.does {
            Next::Opens => {
                let Ok(()) = self.open_new(meeting, &stated.sig) else {
                    unreachable!()
                };
                self.queues.arrive(meeting, stated, part)
            }
            _ => self.queues.arrive(meeting, stated, part),
        }
    }

    /// A member arrives with its statement and its part, as a look told, at an instance that waits
    /// for others too; it waits on. Takes no memory.
    pub fn join(&mut self, meeting: Meeting, stated: Stated, part: X)
        requires met { IsMeetingOf (view_of_pending self.old) stated.sig meeting }
        requires joins { meeting.does ≡ Joins }
        requires rank { IfSome ((view_of_pending self.old).known meeting.comm)
            (λ of. meeting.rank < length of.members) }
        requires few { meeting.k < 2 ^ 62 }
        ensures { (of : Communicator) →
            IsKnownAs of ((view_of_pending self.old).known meeting.comm) →
            HasArrived (view_of_pending self.old) (view_of_pending self.new) meeting.comm
            meeting.rank of stated part Waiting }
    {
        self.queues.join(meeting, stated, part);
    }

    // Makes the room of `ready` for a communicator.
    #[tactic(auto, unfolding(crate::specs::Waiting::view_of_pending, crate::specs::Waiting::HasRoom))]
    fn make_room(&mut self, comm: u32, rank: u32, of: &Communicator<'_>) -> Result<(), NoMemory>
        requires rank { rank < length of.now.members }
        requires known { IsKnownAs of.now ((view_of_pending self.old).known comm) }
        ensures unchanged { view_of_pending self.new ≡ view_of_pending self.old }
        ensures room { OnOk result (HasRoom self.new comm rank of.now) }
        ensures memory { HasRoom self.old comm rank of.now → OnErr result ⊥ }
    {
        let number = self.queues.arrivals(comm, rank);
        if self.queues.waits(comm, number) {
            return Ok(());
        }
        self.queues.reserve(comm)?;
        let is_known = self.queues.knows(comm);
        self.spare.ready(self.alloc, of, is_known)
    }

    // Sees to it that the instance which an arrival meets waits and is of this signature.
    fn meet(
        &mut self,
        meeting: Meeting,
        of: &Communicator<'_>,
        sig: &Signature,
    ) -> Result<(), ArrivalFault>
        requires { IsExpected self.old meeting of.now sig.now }
        ensures agrees { OnOk result (meeting.does ≢ Mismatch) }
        ensures met { OnOk result (IsMet self.old self.new meeting of.now sig.now) }
        ensures unchanged { OnErr result (view_of_pending self.new ≡ view_of_pending self.old) }
        ensures fault { IfErr result (λ fault. fault ≡ fault_at meeting.does) }
        ensures memory { HasAllRoom self.old meeting of.now sig.now →
            IfErr result (λ fault. fault ≢ ArrivalFault.NoMemory) }
    {
        match meeting.does {
            Next::Mismatch => Err(ArrivalFault::Mismatch),
            Next::Opens => match self.open(meeting, of, sig) {
                Ok(()) => Ok(()),
                Err(refused) => Err(ArrivalFault::from(refused)),
            },
            _ => Ok(()),
        }
    }

    // Makes room for the instance that an arrival opens, and opens it.
    fn open(
        &mut self,
        meeting: Meeting,
        of: &Communicator<'_>,
        sig: &Signature,
    ) -> Result<(), NoMemory>
        requires expected { IsExpected self.old meeting of.now sig.now }
        requires opens { meeting.does ≡ Opens }
        ensures met { OnOk result (IsMet self.old self.new meeting of.now sig.now) }
        ensures unchanged { OnErr result (view_of_pending self.new ≡ view_of_pending self.old) }
        ensures memory { HasAllRoom self.old meeting of.now sig.now → OnErr result ⊥ }
    {
        self.make_room(meeting.comm, meeting.rank, of)?;
        self.open_new(meeting, sig)
    }

    // Opens the instance that an arrival opens, for which there is room.
    fn open_new(&mut self, meeting: Meeting, sig: &Signature) -> Result<(), NoMemory>
        requires met { IsMeetingOf (view_of_pending self.old) sig.now meeting }
        requires opens { meeting.does ≡ Opens }
        requires room { (of : Communicator) × HasRoomAt self.old meeting of }
        ensures met { OnOk result ((of : Communicator) → HasRoomAt self.old meeting of →
            IsMet self.old self.new meeting of sig.now) }
        ensures unchanged { OnErr result (view_of_pending self.new ≡ view_of_pending self.old) }
        ensures memory { (of : Communicator) → HasRoomAt self.old meeting of →
            fits (room_by of.shape) sig.now ≡ true → OnErr result ⊥ }
    {
        let is_known = self.queues.knows(meeting.comm);
        let slot = self.spare.take_slot(self.alloc, sig)?;
        let fresh = self.spare.take_queue(is_known);
        self.queues.open(meeting.comm, fresh, slot);
        Ok(())
    }
}
