//! A communicator with the arrivals of its members and the queue of its instances.
ghost use Rattle.std.specs.Prelude.{◌≡◌, ◌<◌, ◌+◌, ◌^◌, length, replicate, Some, None, IfOk, OnOk};
ghost use Rattle.std.specs.Prelude.{OnErr, IsTrue};
ghost use Rattle.std.specs.VecDeque.{deque_len};

use crate::communicator::Communicator;
use coll_routes::Shape;
use mpi_group::Group;
use std::alloc::Global;
use std::collections::VecDeque;
use std::marker::Model;
use wall_labels::NoMemory;

/// The members of a communicator fill its instances in order, so those that wait have numbers that
/// follow one another. The queue has the key of the slot of each.
#[derive(Drop)]
pub struct Queue {
    members: Group,
    shape: Shape,
    counts: Vec<u64>,
    first: u64,
    keys: VecDeque<usize>,
}

impl Model for Queue {
    ghost use Rattle.std.specs.Prelude.{◌≡◌, length};
    ghost use Rattle.std.specs.VecDeque.{deque_len, deque_capacity};
    ghost use Rattle.coll_pending.specs.Queues as queues;

    ghost Value = { queues.Queue };

    ghost view = { λ q. record {
      members = q.members;
      shape = q.shape;
      counts = q.counts.items;
      first = q.first;
      keys = q.keys.items;
      room = deque_capacity q.keys;
    } };

    ghost invariant = { λ q. deque_len q.keys ≡ length q.keys.items };
}

impl Queue {
    ghost use Rattle.coll_pending.specs.Queues.{count, counted, key_at, popped};
    ghost use Rattle.coll_pending.specs.Queues.{pushed, unused};

    /// The queue of a communicator at which nobody has arrived.
    pub fn new(alloc: Global, comm: &Communicator<'_>) -> Result<Queue, NoMemory>
        ensures unused { IfOk result (λ q. q ≡ unused comm.now q.room) }
        ensures room { IfOk result (λ q. 0 < q.room) }
    {
        let counts = no_arrivals(alloc, comm.group().size())?;
        let keys = VecDeque::with_capacity(alloc, 1)?;
        Ok(Queue {
            members: comm.group().copy(alloc)?,
            shape: comm.shape().copy(alloc)?,
            counts,
            first: 0,
            keys,
        })
    }

    /// Whether it is the queue of this communicator.
    pub fn is_of(&self, comm: &Communicator<'_>) -> bool
        ensures yes { IsTrue result →
            (self.now.members ≡ comm.now.members) × (self.now.shape ≡ comm.now.shape) }
        ensures no { self.now.members ≡ comm.now.members → self.now.shape ≡ comm.now.shape →
            IsTrue result }
    {
        self.members.is_same(comm.group()) && self.shape.is_same(comm.shape())
    }

    /// How often a rank has arrived.
    pub fn count(&self, rank: u32) -> u64
        ensures { result ≡ count self.now rank }
    {
        match self.counts.get(rank as usize) {
            Some(count) => *count,
            None => 0,
        }
    }

    /// The key of the instance of that number, if it waits.
    pub fn key(&self, number: u64) -> Option<usize>
        ensures { result ≡ key_at self.now number }
    {
        if number < self.first {
            return None;
        }
        match self.keys.get((number - self.first) as usize) {
            Some(key) => Some(*key),
            None => None,
        }
    }

    /// Makes room for one more key.
    pub fn reserve(&mut self) -> Result<(), NoMemory>
        ensures same { self.new ≡ record self.old { room = self.new.room } }
        ensures ok { OnOk result (length self.new.keys < self.new.room) }
        ensures memory { length self.old.keys < self.old.room → OnErr result ⊥ }
    {
        self.keys.reserve(1)?;
        Ok(())
    }

    /// One instance more waits, in the slot of that key.
    pub fn push(&mut self, key: usize)
        requires { length self.old.keys < self.old.room }
        ensures { self.new ≡ pushed self.old key }
    {
        self.keys.push_back_reserved(key);
    }

    /// A rank arrives once more.
    pub fn arrive(&mut self, rank: u32)
        requires rank { rank < length self.old.counts }
        requires few { count self.old rank < 2 ^ 62 }
        ensures { self.new ≡ counted self.old rank }
    {
        self.counts[rank as usize] += 1;
    }

    /// The first instance no longer waits. Takes no memory.
    pub fn pop(&mut self)
        requires few { self.old.first < 2 ^ 62 }
        ensures { self.new ≡ popped self.old self.new.room }
    {
        self.first += 1;
        let _ = self.keys.pop_front();
        give_back(&mut self.keys);
    }
}

/// So many keys have their room for good: as many instances may wait for one process. (Own rule.)
const KEPT_KEYS: usize = 256;

// Gives room back where less than a quarter of it is used. Half of what is left is free then, so
// many calls come before it is too much again, or too little. Where the memory for the smaller room
// is refused the larger one stays.
fn give_back(keys: &mut VecDeque<usize>)
    ensures items { keys.new.items ≡ keys.old.items }
    ensures number { deque_len keys.new ≡ deque_len keys.old }
{
    let (used, room) = (keys.len(), keys.capacity());
    if KEPT_KEYS < room && used < room / 4 {
        keys.shrink_to(KEPT_KEYS.max(2 * used));
    }
}

// A count for each member.
fn no_arrivals(alloc: Global, size: u32) -> Result<Vec<u64>, NoMemory>
    ensures { IfOk result (λ counts. counts.items ≡ replicate size 0) }
{
    let mut counts = Vec::with_capacity(alloc, size as usize)?;
    for _ in 0..size {
        counts.push(0)?;
    }
    Ok(counts)
}
