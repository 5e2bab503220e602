//! Room for the lists of a signature, made before the signature is known.
ghost use Rattle.std.specs.Prelude.{◌≡◌, ◌+◌, ◌≤◌, [], length, IfOk, IsErr, OnOk, OnErr, true};
ghost use Rattle.std.specs.Prelude.{false, vec_len, vec_capacity};
ghost use Rattle.coll_routes.specs.Signatures.{numbers, flags};
ghost use Rattle.coll_routes.specs.Rolls.{slots};
ghost use Rattle.coll_pending.specs.Lists.{fits};
ghost use Rattle.coll_pending.specs.Spares.{AreListsFor};

use coll_routes::{Flags, Numbers, Shape, Signature};
use mpi_cart::DIMENSION_LIMIT;
use std::alloc::Global;
use std::marker::Model;
use std::mem;
use wall_labels::NoMemory;

/// Room for one list of numbers and one of truth values. Contracts see how many items each may
/// have.
#[derive(Drop)]
pub struct Lists {
    numbers: Vec<u32>,
    flags: Vec<bool>,
}

impl Model for Lists {
    ghost use Rattle.std.specs.Prelude.{◌≡◌, [], vec_len, vec_capacity};
    ghost use Rattle.coll_pending.specs.Lists.{ListRoom};

    ghost Value = { ListRoom };

    ghost view = { λ l. record { numbers = vec_capacity l.numbers; flags = vec_capacity l.flags } };

    ghost invariant = { λ l. ((l.numbers.items ≡ []) × (vec_len l.numbers ≡ 0))
        × ((l.flags.items ≡ []) × (vec_len l.flags ≡ 0)) };
}

impl Lists {
    /// No room.
    pub fn none(alloc: Global) -> Lists {
        Lists {
            numbers: Vec::new(alloc),
            flags: Vec::new(alloc),
        }
    }

    /// Makes room for the lists of each signature that has no fault on a communicator of this
    /// shape.
    pub fn ready(&mut self, alloc: Global, shape: &Shape) -> Result<(), NoMemory>
        ensures ok { OnOk result (AreListsFor shape.now self.new) }
        ensures memory { AreListsFor shape.now self.old → OnErr result ⊥ }
    {
        let numbers = shape.size as usize + DIMENSION_LIMIT;
        if self.numbers.capacity() < numbers {
            self.numbers = Vec::with_capacity(alloc, numbers)?;
        }
        let flags = number_of_slots(shape) + DIMENSION_LIMIT;
        if self.flags.capacity() < flags {
            self.flags = Vec::with_capacity(alloc, flags)?;
        }
        Ok(())
    }

    /// Whether the lists of the signature are short enough.
    pub fn fits(&self, sig: &Signature) -> bool
        ensures { result ≡ fits self.now sig.now }
    {
        sig.numbers().len() <= self.numbers.capacity() && sig.flags().len() <= self.flags.capacity()
    }

    /// An equal signature, in this room if that is enough.
    pub fn copied(&mut self, alloc: Global, sig: &Signature) -> Result<Signature, NoMemory>
        ensures made { IfOk result (λ copy. copy ≡ sig.now) }
        ensures err { OnErr result (self.new ≡ self.old) }
        ensures memory { IsErr result → fits self.old sig.now ≡ false }
    {
        if self.fits(sig) {
            Ok(self.copy_of(alloc, sig))
        } else {
            sig.copy(alloc)
        }
    }

    // An equal signature, in this room. Takes no memory.
    #[tactic(auto, unfolding(coll_routes::specs::Signatures::numbers, coll_routes::specs::Signatures::flags))]
    fn copy_of(&mut self, alloc: Global, sig: &Signature) -> Signature
        requires { fits self.old sig.now ≡ true }
        ensures { result ≡ sig.now }
    {
        match sig {
            Signature::ReduceScatter {
                op,
                elem_type,
                counts,
            } => Signature::ReduceScatter {
                op: *op,
                elem_type: *elem_type,
                counts: numbers_in(mem::replace(&mut self.numbers, Vec::new(alloc)), counts),
            },
            Signature::Create { ranks } => Signature::Create {
                ranks: numbers_in(mem::replace(&mut self.numbers, Vec::new(alloc)), ranks),
            },
            Signature::CartCreate { dims, periods } => Signature::CartCreate {
                dims: numbers_in(mem::replace(&mut self.numbers, Vec::new(alloc)), dims),
                periods: flags_in(mem::replace(&mut self.flags, Vec::new(alloc)), periods),
            },
            Signature::CartSub { keep } => Signature::CartSub {
                keep: flags_in(mem::replace(&mut self.flags, Vec::new(alloc)), keep),
            },
            _ => match sig.copy(alloc) {
                Ok(copy) => copy,
                Err(_) => unreachable!(),
            },
        }
    }
}

fn number_of_slots(shape: &Shape) -> usize
    ensures value { result ≡ slots shape.now }
    ensures small { result ≤ 16 }
{
    match &shape.grid {
        Some(grid) => 2 * grid.ndims() as usize,
        None => 0,
    }
}

// An equal list, in room that is long enough.
fn numbers_in(room: Vec<u32>, numbers: &Numbers) -> Numbers
    requires empty { room.items ≡ [] }
    requires none { vec_len room ≡ 0 }
    requires room { length numbers.now ≤ vec_capacity room }
    ensures { result ≡ numbers.now }
{
    let mut items = room;
    let _ = items.extend_from_slice(numbers.as_slice());
    Numbers::from(items)
}

fn flags_in(room: Vec<bool>, flags: &Flags) -> Flags
    requires empty { room.items ≡ [] }
    requires none { vec_len room ≡ 0 }
    requires room { length flags.now ≤ vec_capacity room }
    ensures { result ≡ flags.now }
{
    let mut values = room;
    let _ = values.extend_from_slice(flags.as_slice());
    Flags::from(values)
}
