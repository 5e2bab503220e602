//! What `Pending::ready` makes, so that the next arrival takes no memory.
ghost use Rattle.std.specs.Prelude.{◌≡◌, ◌<◌, IfSome, IfOk, OnOk, OnErr, IsTrue};
ghost use Rattle.std.specs.Prelude.{IsSome, Some, None, true, false};
ghost use Rattle.coll_pending.specs.Instances.{Communicator};
ghost use Rattle.coll_pending.specs.Lists.{fits};
ghost use Rattle.coll_pending.specs.Queues.{communicator, unused, IsVacant};
ghost use Rattle.coll_pending.specs.Spares.{members_of, IsQueueFor, IsSlotFor};

use crate::communicator::Communicator;
use crate::lists::Lists;
use crate::queue::Queue;
use crate::slot::Slot;
use coll_routes::Signature;
use std::alloc::Global;
use std::marker::Model;
use std::mem;
use wall_labels::NoMemory;

/// A queue for a communicator that is not known yet, a slot for an instance of it, and room for
/// the lists of its signature. One of each serves, since only the next arrival counts on it.
#[derive(Drop)]
pub struct Spare<X> {
    queue: Option<Queue>,
    slot: Option<Slot<X>>,
    lists: Lists,
}

impl<X> Model for Spare<X> {
    ghost use Rattle.coll_pending.specs.Spares as spares;

    ghost Value = { spares.Spare X };

    ghost view = { λ s. record { queue = s.queue; slot = s.slot; lists = s.lists } };

    ghost invariant = { λ s.
        spares.IsSpare (record { queue = s.queue; slot = s.slot; lists = s.lists }) };
}

impl<X: Drop> Spare<X> {
    ghost use Rattle.coll_pending.specs.Instances.{Communicator};
    ghost use Rattle.coll_pending.specs.Lists.{fits};
    ghost use Rattle.coll_pending.specs.Queues.{IsVacant};
    ghost use Rattle.coll_pending.specs.Spares.{members_of, AreListsFor, IsQueueFor, IsSlotFor};

    /// Nothing.
    pub fn none(alloc: Global) -> Spare<X> {
        Spare {
            queue: None,
            slot: None,
            lists: Lists::none(alloc),
        }
    }

    /// Makes what an arrival at a new instance of a communicator needs; its queue too, if the
    /// communicator is not known.
    pub fn ready(
        &mut self,
        alloc: Global,
        comm: &Communicator<'_>,
        is_known: bool,
    ) -> Result<(), NoMemory>
        ensures slot { OnOk result (IsSlotFor comm.now self.new.slot) }
        ensures lists { OnOk result (AreListsFor comm.now.shape self.new.lists) }
        ensures queue { is_known ≡ false →
            OnOk result (IsQueueFor comm.now self.new.queue) }
        ensures memory { IsSlotFor comm.now self.old.slot →
            AreListsFor comm.now.shape self.old.lists →
            (is_known ≡ false → IsQueueFor comm.now self.old.queue) →
            OnErr result ⊥ }
    {
        self.lists.ready(alloc, comm.shape())?;
        ready_slot(&mut self.slot, alloc, comm)?;
        if is_known {
            return Ok(());
        }
        ready_queue(&mut self.queue, alloc, comm)
    }

    /// A slot for an instance of that signature. Takes memory only where the signature has longer
    /// lists than there is room for.
    pub fn take_slot(&mut self, alloc: Global, sig: &Signature) -> Result<Slot<X>, NoMemory>
        requires { IsSome self.old.slot }
        ensures slot { IfOk result
            (λ o. (comm : Communicator) → IsSlotFor comm self.old.slot → IsVacant comm o) }
        ensures sig { IfOk result (λ o. o.roll.sig ≡ sig.now) }
        ensures queue { self.new.queue ≡ self.old.queue }
        ensures err { OnErr result (self.new ≡ self.old) }
        ensures memory { fits self.old.lists sig.now ≡ true → OnErr result ⊥ }
    {
        let copy = self.lists.copied(alloc, sig)?;
        match mem::replace(&mut self.slot, None) {
            Some(slot) => {
                let mut slot = slot;
                slot.roll.sig = copy;
                Ok(slot)
            }
            None => unreachable!(),
        }
    }

    /// The queue for a communicator that is not known yet.
    pub fn take_queue(&mut self, is_known: bool) -> Option<Queue>
        ensures { is_known ≡ false → result ≡ self.old.queue }
    {
        if is_known {
            return None;
        }
        mem::replace(&mut self.queue, None)
    }
}

// Makes a slot for an instance of a communicator, if the one that is there is not for it.
fn ready_slot<X: Drop>(
    spare: &mut Option<Slot<X>>,
    alloc: Global,
    comm: &Communicator<'_>,
) -> Result<(), NoMemory>
    requires vacant { IfSome spare.old (λ o. IsVacant (members_of o) o) }
    ensures vacant { IfSome spare.new (λ o. IsVacant (members_of o) o) }
    ensures ok { OnOk result (IsSlotFor comm.now spare.new) }
    ensures memory { IsSlotFor comm.now spare.old → OnErr result ⊥ }
{
    if is_slot_of(spare, comm) {
        return Ok(());
    }
    let slot = Slot::vacant(alloc, comm)?;
    *spare = Some(slot);
    Ok(())
}

fn is_slot_of<X: Drop>(spare: &Option<Slot<X>>, comm: &Communicator<'_>) -> bool
    requires vacant { IfSome spare.now (λ o. IsVacant (members_of o) o) }
    ensures yes { IsTrue result → IsSlotFor comm.now spare.now }
    ensures no { IsSlotFor comm.now spare.now → IsTrue result }
{
    match spare {
        Some(slot) => slot.is_of(comm),
        None => false,
    }
}

// Makes a queue for a communicator, if the one that is there is not for it.
fn ready_queue(
    spare: &mut Option<Queue>,
    alloc: Global,
    comm: &Communicator<'_>,
) -> Result<(), NoMemory>
    requires unused { IfSome spare.old (λ q. (q ≡ unused (communicator q) q.room) × (0 < q.room)) }
    ensures unused { IfSome spare.new (λ q. (q ≡ unused (communicator q) q.room) × (0 < q.room)) }
    ensures ok { OnOk result (IsQueueFor comm.now spare.new) }
    ensures memory { IsQueueFor comm.now spare.old → OnErr result ⊥ }
{
    if is_queue_of(spare, comm) {
        return Ok(());
    }
    let queue = Queue::new(alloc, comm)?;
    *spare = Some(queue);
    Ok(())
}

fn is_queue_of(spare: &Option<Queue>, comm: &Communicator<'_>) -> bool
    requires unused { IfSome spare.now (λ q. (q ≡ unused (communicator q) q.room) × (0 < q.room)) }
    ensures yes { IsTrue result → IsQueueFor comm.now spare.now }
    ensures no { IsQueueFor comm.now spare.now → IsTrue result }
{
    match spare {
        Some(queue) => queue.is_of(comm),
        None => false,
    }
}
