//! The queues of all communicators, and the slots in which their instances stand.
ghost use Rattle.std.specs.Prelude.{◌≡◌, ◌≢◌, ◌<◌, ◌^◌, ℕ, [], length, OnOk, OnErr, IfSome};
ghost use Rattle.std.specs.Prelude.{IsSome, is_some, IsSomeAnd, Some, None};
ghost use Rattle.std.specs.Option.{option_copied};
ghost use Rattle.slab.specs.Slab.{get, Updates, Slab};
ghost use Rattle.coll_pending.specs.Instances.{Communicator, next_by, roll_in};
ghost use Rattle.coll_pending.specs.Queues.{Queue, instance_in, count};
ghost use Rattle.coll_pending.specs.Queues.{queue_at, slot_in, or_fresh, pushed, CanTell, CanPost};
ghost use Rattle.coll_pending.specs.Queues.{IsFree, IsRoomier, PostsTo, posted, lacks_one};
ghost use Rattle.coll_pending.specs.Queues.{Enters, counted, popped};
ghost use Rattle.coll_pending.specs.declared.arrival.Arrived.TheVariants.{Waiting};
ghost use Rattle.coll_pending.specs.Waiting.{HasPlaceIn};
ghost use Rattle.coll_pending.specs.declared.slot.Slot.{Slot};
ghost use Rattle.coll_pending.specs.declared.arrival.Next.TheVariants.{Joins};

use crate::arrival::{Arrived, Meeting, Next};
use crate::queue::Queue;
use crate::slot::Slot;
use coll_routes::{Signature, Stated};
use slab::Slab;
use std::alloc::Global;
use std::marker::Model;
use wall_labels::NoMemory;

/// For each communicator, by its number, its queue if some member has arrived. Keys lead from the
/// queues to the slots; a slot is given out again once its instance is full.
#[derive(Drop)]
pub struct Queues<X> {
    by_comm: Vec<Option<Queue>>,
    slots: Slab<Slot<X>>,
}

impl<X> Model for Queues<X> {
    ghost use Rattle.coll_pending.specs.Queues as queues;

    ghost Value = { queues.Queues X };

    ghost view = { λ q. record { queues = q.by_comm.items; slots = q.slots } };

    ghost invariant = { λ q.
        queues.IsQueues (record { queues = q.by_comm.items; slots = q.slots }) };
}

// What a member brings to an instance.
#[derive(Drop)]
struct Brought<X> {
    stated: Stated,
    part: X,
}

impl<X: Drop> Queues<X> {
    ghost use Rattle.coll_pending.specs.Instances.{Communicator, roll_in};
    ghost use Rattle.coll_pending.specs.Queues.{queue_at, known_in, count_in, slot_of};
    ghost use Rattle.coll_pending.specs.Queues.{IsVacant};
    ghost use Rattle.coll_pending.specs.Spares.{IsQueueOf, members_of};
    ghost use Rattle.coll_pending.specs.Waiting.{seen, place, next, meeting_of, HasPlace, Opens};
    ghost use Rattle.coll_pending.specs.Waiting.{IsAwaited, HasArrivedAt};

    /// No communicator, and no instance.
    pub fn new(alloc: Global) -> Queues<X>
        ensures { result.queues ≡ [] }
    {
        Queues {
            by_comm: Vec::new(alloc),
            slots: Slab::new(alloc),
        }
    }

    /// The queue of a communicator, if some member has arrived.
    pub fn queue(&self, comm: u32) -> Option<&Queue>
        ensures { option_copied result ≡ queue_at self.now.queues comm }
    {
        queue_in(&self.by_comm, comm)
    }

    /// Whether some member of a communicator has arrived.
    pub fn knows(&self, comm: u32) -> bool
        ensures { result ≡ is_some (queue_at self.now.queues comm) }
    {
        self.queue(comm).is_some()
    }

    /// How often a rank has arrived on a communicator.
    pub fn arrivals(&self, comm: u32, rank: u32) -> u64
        ensures { result ≡ count_in (queue_at self.now.queues comm) rank }
    {
        match self.queue(comm) {
            Some(queue) => queue.count(rank),
            None => 0,
        }
    }

    /// The slot of an instance, if it waits.
    pub fn slot(&self, comm: u32, number: u64) -> Option<&Slot<X>>
        ensures { option_copied result ≡ slot_of self.now comm number }
    {
        match self.queue(comm) {
            Some(queue) => slot_at(&self.slots, queue.key(number)),
            None => None,
        }
    }

    /// Whether an instance waits.
    pub fn waits(&self, comm: u32, number: u64) -> bool
        ensures { result ≡ is_some (slot_of self.now comm number) }
    {
        self.slot(comm, number).is_some()
    }

    /// What the next arrival of a rank meets, if it has this signature.
    pub fn look(&self, comm: u32, rank: u32, sig: &Signature) -> Meeting
        ensures { result ≡ meeting_of (seen self.now) comm rank sig.now }
    {
        let _ = &self.by_comm;
        match self.queue(comm) {
            None => Meeting {
                comm,
                rank,
                k: 0,
                does: Next::Opens,
            },
            Some(queue) => {
                let k = queue.count(rank);
                Meeting {
                    comm,
                    rank,
                    k,
                    does: next_of(slot_at(&self.slots, queue.key(k)), rank, sig),
                }
            }
        }
    }

    /// Makes room for one more instance of a communicator.
    pub fn reserve(&mut self, comm: u32) -> Result<(), NoMemory>
        ensures unchanged { seen self.new ≡ seen self.old }
        ensures ok { OnOk result (HasPlace self.new comm) }
        ensures memory { HasPlace self.old comm → OnErr result ⊥ }
    {
        self.slots.reserve(1)?;
        reserve_row(&mut self.by_comm, comm)
    }

    /// An instance is opened, for which nobody has posted yet. For a communicator that is not known
    /// its queue is handed in too.
    pub fn open(&mut self, comm: u32, fresh: Option<Queue>, slot: Slot<X>)
        requires place { HasPlace self.old comm }
        requires vacant { IsVacant (members_of slot) slot }
        requires some { 0 < length slot.roll.members }
        requires queue { IsQueueOf (members_of slot) (queue_at self.old.queues comm) fresh }
        ensures { (rank : ℕ) → rank < length slot.roll.members →
            slot_of self.old comm (place (seen self.old) comm rank) ≡ None →
            Opens (seen self.old) (seen self.new) comm (place (seen self.old) comm rank)
            (members_of slot) slot.roll.sig }
    {
        let key = self.slots.insert_reserved(slot);
        push_key(&mut self.by_comm[comm as usize], fresh, key);
    }

    /// A member arrives at an instance that waits.
    pub fn arrive(&mut self, meeting: Meeting, stated: Stated, part: X) -> Arrived<X>
        requires { IsAwaited self.old meeting stated.sig }
        ensures { HasArrivedAt self.old self.new meeting stated part result }
    {
        post(
            &mut self.by_comm[meeting.comm as usize],
            &mut self.slots,
            meeting,
            Brought { stated, part },
        )
    }

    /// A member arrives at an instance that waits for others too, and waits on.
    pub fn join(&mut self, meeting: Meeting, stated: Stated, part: X)
        requires awaited { IsAwaited self.old meeting stated.sig }
        requires joins { next (seen self.old) meeting.comm meeting.rank stated.sig ≡ Joins }
        ensures { HasArrivedAt self.old self.new meeting stated part Waiting }
    {
        let _ = enter(
            &mut self.by_comm[meeting.comm as usize],
            &mut self.slots,
            meeting,
            Brought { stated, part },
        );
    }
}

// The queue of that number.
fn queue_in(by_comm: &[Option<Queue>], comm: u32) -> Option<&Queue>
    ensures { option_copied result ≡ queue_at by_comm.now comm }
{
    match by_comm.get(comm as usize) {
        Some(row) => row.as_ref(),
        None => None,
    }
}

fn slot_at<X>(slots: &Slab<Slot<X>>, key: Option<usize>) -> Option<&Slot<X>>
    ensures { option_copied result ≡ slot_in slots.now key }
{
    match key {
        Some(key) => slots.get(key),
        None => None,
    }
}

// What an arrival of a rank with this signature does to the instance in that slot.
fn next_of<X: Drop>(slot: Option<&Slot<X>>, rank: u32, sig: &Signature) -> Next
    requires { IfSome (option_copied slot) (CanTell rank) }
    ensures { result ≡ next_by (roll_in (instance_in (option_copied slot.entry))) rank sig.now }
{
    match slot {
        None => Next::Opens,
        Some(slot) => {
            if !slot.roll.sig.is_same(sig) {
                Next::Mismatch
            } else if slot.lacks_only(rank) {
                Next::Fills
            } else {
                Next::Joins
            }
        }
    }
}

// Makes the row of a communicator, if it is not there, and room for one more key in its queue.
fn reserve_row(by_comm: &mut Vec<Option<Queue>>, comm: u32) -> Result<(), NoMemory>
    ensures same { (c : ℕ) →
        IsRoomier (queue_at by_comm.old.items c) (queue_at by_comm.new.items c) }
    ensures row { OnOk result (comm < length by_comm.new.items) }
    ensures place { OnOk result (HasPlaceIn (queue_at by_comm.new.items comm)) }
    ensures memory { comm < length by_comm.old.items →
        HasPlaceIn (queue_at by_comm.old.items comm) → OnErr result ⊥ }
{
    lengthen(by_comm, comm)?;
    reserve_key(&mut by_comm[comm as usize])
}

fn reserve_key(row: &mut Option<Queue>) -> Result<(), NoMemory>
    ensures same { IsRoomier row.old row.new }
    ensures place { OnOk result (HasPlaceIn row.new) }
    ensures memory { HasPlaceIn row.old → OnErr result ⊥ }
{
    match row {
        Some(queue) => queue.reserve(),
        None => Ok(()),
    }
}

// Adds rows up to that of the communicator.
fn lengthen(by_comm: &mut Vec<Option<Queue>>, comm: u32) -> Result<(), NoMemory>
    ensures same { (c : ℕ) → queue_at by_comm.new.items c ≡ queue_at by_comm.old.items c }
    ensures ok { OnOk result (comm < length by_comm.new.items) }
    ensures memory { comm < length by_comm.old.items → OnErr result ⊥ }
{
    while by_comm.len() <= comm as usize {
        by_comm.push(None)?;
    }
    Ok(())
}

// Puts a key into the queue that is there, or else into the one handed in.
fn push_key(row: &mut Option<Queue>, fresh: Option<Queue>, key: usize)
    requires { IsSomeAnd (or_fresh row.old fresh) (λ q. length q.keys < q.room) }
    ensures { (q : Queue) → or_fresh row.old fresh ≡ Some q → row.new ≡ Some (pushed q key) }
{
    match row {
        Some(queue) => queue.push(key),
        None => *row = pushed_to(fresh, key),
    }
}

fn pushed_to(fresh: Option<Queue>, key: usize) -> Option<Queue>
    requires { IsSomeAnd fresh (λ q. length q.keys < q.room) }
    ensures { (q : Queue) → fresh ≡ Some q → result ≡ Some (pushed q key) }
{
    match fresh {
        Some(queue) => {
            let mut queue = queue;
            queue.push(key);
            Some(queue)
        }
        None => None,
    }
}

// A member posts to the instance that it meets, which waits. The last one takes the instance out.
fn post<X: Drop>(
    row: &mut Option<Queue>,
    slots: &mut Slab<Slot<X>>,
    meeting: Meeting,
    brought: Brought<X>,
) -> Arrived<X>
    requires { IsSomeAnd row.old (λ q. CanPost q slots.old meeting.rank meeting.k) }
    ensures { (q : Queue) → row.old ≡ Some q → (new : Queue) × (row.new ≡ Some new)
        × PostsTo q new slots.old slots.new meeting.rank brought.stated brought.part result }
{
    match enter(row, slots, meeting, brought) {
        None => Arrived::Waiting,
        Some(key) => {
            pop(row);
            Arrived::Full(slots.remove(key).into_full())
        }
    }
}

// Enters a member's post in the slot of the instance that it meets, which waits. The last one is
// told the key of the slot.
fn enter<X: Drop>(
    row: &mut Option<Queue>,
    slots: &mut Slab<Slot<X>>,
    meeting: Meeting,
    brought: Brought<X>,
) -> Option<usize>
    requires { IsSomeAnd row.old (λ q. CanPost q slots.old meeting.rank meeting.k) }
    ensures { (q : Queue) → row.old ≡ Some q → (row.new ≡ Some (counted q meeting.rank))
        × Enters q slots.old slots.new meeting.rank brought.stated brought.part result }
{
    match row {
        Some(queue) => match queue.key(meeting.k) {
            Some(key) => {
                queue.arrive(meeting.rank);
                if enter_slot(slots, key, meeting.rank, brought) {
                    Some(key)
                } else {
                    None
                }
            }
            None => unreachable!(),
        },
        None => unreachable!(),
    }
}

// Enters a post in the slot of that key, and tells whether it was the last one.
fn enter_slot<X: Drop>(
    slots: &mut Slab<Slot<X>>,
    key: usize,
    rank: u32,
    brought: Brought<X>,
) -> bool
    requires { IsSomeAnd (get slots.old key) (IsFree rank) }
    ensures last { (o : Slot X) → get slots.old key ≡ Some o → result ≡ lacks_one o }
    ensures entered { (o : Slot X) → get slots.old key ≡ Some o →
        Updates slots.old slots.new key
        (Some (posted rank brought.stated brought.part o)) }
{
    match slots.get_mut(key) {
        Some(slot) => slot.enter(rank, brought.stated, brought.part),
        None => unreachable!(),
    }
}

// The first instance in the queue no longer waits.
fn pop(row: &mut Option<Queue>)
    requires { IfSome row.old (λ q. q.first < 2 ^ 62) }
    ensures { (q : Queue) → row.old ≡ Some q → (room : ℕ) × (row.new ≡ Some (popped q room)) }
{
    match row {
        Some(queue) => queue.pop(),
        None => {}
    }
}
