//! Passes, by which processes call at a door.
ghost use Rattle.std.specs.Prelude.{◌≡◌, length};
ghost use Rattle.run_model.specs.Replies.{Legal};
ghost use Rattle.hall_turn.specs.Answers.{IsSamePass, SeesOn};

use crate::door::DoorTo;
use crate::machine::Machine;
use crate::rule::View;
use atomic_table::Seat;
use hall_core::Hall;
use std::marker::Model;

/// The right to call as one process. Contracts see its door, its process, the run that it has
/// seen, the newest entry first, whether its last call settled an instance, and whether the machine
/// was booked at the end of that call's turn.
#[derive(Drop)]
pub struct PassTo<M: Machine> {
    pub(crate) seat: Seat<Option<M>, View>,
    pub(crate) process: u32,
    // Its last call settled an instance.
    pub(crate) settled: bool,
    // The machine was booked at the end of its last turn.
    pub(crate) booked: bool,
}

impl<M: Machine> Model for PassTo<M> {
    ghost use Rattle.hall_turn.specs.Known.{Known};

    ghost Value = { Known };

    ghost use Rattle.hall_turn.specs.Steps.{IsIdle};

    ghost view = { λ p. record {
      door = record { name = p.seat.table_id; policy = p.seat.me.0.policy };
      process = p.process;
      seen = p.seat.me.0.seen;
      settled = p.settled;
      booked = p.booked;
    } };

    ghost invariant = { λ p. IsIdle p.process p.seat.me };
}

/// Passes of a door. As it is opened, pass i calls as process i.
pub type PassesTo<M> = Vec<PassTo<M>>;

/// A pass of a door to a hall.
pub type Pass = PassTo<Hall>;

/// Passes of a door to a hall.
pub type Passes = PassesTo<Hall>;

impl<M: Machine> PassTo<M> {
    /// The number of the process that the pass calls as. What any pass has seen is a legal run.
    pub fn process(&self) -> u32
        ensures process { result ≡ self.now.process }
        ensures legal { Legal self.now.door.policy self.now.seen }
    {
        self.process
    }

    /// Whether the pass's last call that was made settled an instance, for those that sleep until
    /// one does. An exhausted call leaves it as it was.
    pub fn settled(&self) -> bool
        ensures { result ≡ self.now.settled }
    {
        self.settled
    }

    /// Whether all that the machine had to write down was written at the end of the turn of the
    /// pass's last call that was made: then its reply may be told. A pass that made no call yet is
    /// booked; an exhausted call leaves it as it was.
    pub fn is_booked(&self) -> bool
        ensures { result ≡ self.now.booked }
    {
        self.booked
    }
}

impl<M: Machine> DoorTo<M> {
    /// Looks how many turns have ended: that is the length of the run that the pass has now seen.
    /// It waits for nobody.
    pub fn front(&self, pass: &mut PassTo<M>) -> u64
        requires { pass.old.door ≡ self.now }
        ensures same { IsSamePass pass.old pass.new }
        ensures sees { SeesOn pass.old pass.new }
        ensures legal { Legal self.now.policy pass.new.seen }
        ensures length { result ≡ length pass.new.seen }
        ensures settled { pass.new.settled ≡ pass.old.settled }
        ensures booked { pass.new.booked ≡ pass.old.booked }
    {
        self.turns.look(&mut pass.seat)
    }
}
