//! The slot of an instance that waits, with a count of the posts that have come.
ghost use Rattle.std.specs.Prelude.{◌≡◌, ◌<◌, ◌==◌, length, map, Some, IfOk};
ghost use Rattle.std.specs.Prelude.{IsTrue, true, false};
ghost use Rattle.coll_routes.specs.Rolls.{is_full};
ghost use Rattle.coll_pending.specs.Instances.{is_full_but_for};
ghost use Rattle.coll_pending.specs.Queues.{IsSlot, IsFree, IsVacant, has_posted, posted};
ghost use Rattle.coll_pending.specs.Queues.{lacks_one};

use crate::communicator::Communicator;
use crate::parts::PartRows;
use coll_routes::{Roll, Signature, Stated, Statements};
use coll_values::Full;
use std::alloc::Global;
use wall_labels::NoMemory;

/// An instance, with the number of members that have posted.
#[derive(Drop)]
pub struct Slot<X> {
    pub roll: Roll,
    pub parts: PartRows<X>,
    pub arrived: u32,
}

impl<X: Drop> Slot<X> {
    /// A slot for an instance of a communicator. Its signature is not known yet.
    pub fn vacant(alloc: Global, comm: &Communicator<'_>) -> Result<Slot<X>, NoMemory>
        ensures { IfOk result (IsVacant comm.now) }
    {
        let size = comm.group().size();
        let stated = Statements::vacant(alloc, size)?;
        let parts = PartRows::vacant(alloc, size)?;
        let roll = Roll {
            members: comm.group().copy(alloc)?,
            shape: comm.shape().copy(alloc)?,
            sig: Signature::Barrier,
            stated,
        };
        Ok(Slot {
            roll,
            parts,
            arrived: 0,
        })
    }

    /// Whether it is for this communicator.
    pub fn is_of(&self, comm: &Communicator<'_>) -> bool
        ensures yes { IsTrue result → (self.now.roll.members ≡ comm.now.members)
            × (self.now.roll.shape ≡ comm.now.shape) }
        ensures no { self.now.roll.members ≡ comm.now.members →
            self.now.roll.shape ≡ comm.now.shape → IsTrue result }
    {
        self.roll.members.is_same(comm.group()) && self.roll.shape.is_same(comm.shape())
    }

    /// Whether each member but this rank has posted.
    pub fn lacks_only(&self, rank: u32) -> bool
        requires slot { IsSlot self.now }
        requires free { rank < length self.now.roll.members →
            has_posted self.now.roll.stated rank ≡ false }
        ensures { result ≡ is_full_but_for self.now.roll.stated rank }
    {
        let size = self.roll.members.size();
        rank < size && self.arrived + 1 == size
    }

    /// Enters the post of a member, and tells whether it was the last one.
    pub fn enter(&mut self, rank: u32, stated: Stated, part: X) -> bool
        requires { IsFree rank self.old }
        ensures entered { self.new ≡ posted rank stated part self.old }
        ensures last { result ≡ lacks_one self.old }
    {
        let size = self.roll.members.size();
        self.roll.stated.set(rank, stated);
        self.parts.put(rank, part);
        self.arrived += 1;
        self.arrived == size
    }

    /// The instance with all parts, once each member has posted. Takes no memory.
    pub fn into_full(self) -> Full<X>
        requires { is_full self.parts ≡ true }
        ensures roll { result.roll ≡ self.roll }
        ensures parts { map (λ p. Some p) result.parts ≡ self.parts }
    {
        let Slot {
            roll,
            parts,
            arrived: _,
        } = self;
        Full {
            roll,
            parts: parts.into_parts(),
        }
    }
}
