//! Notes, by which one pass tells another what it has seen.
ghost use Rattle.std.specs.Prelude.{◌≡◌};
ghost use Rattle.run_model.specs.Replies.{Legal};
ghost use Rattle.hall_turn.specs.Runs.{Continues};
ghost use Rattle.hall_turn.specs.Answers.{IsSamePass, SeesOn};

use crate::door::DoorTo;
use crate::machine::Machine;
use crate::pass::PassTo;
use crate::rule::View;
use atomic_table::Seat;
use hall_core::Hall;
use std::marker::Model;

/// What a pass had seen, to be told to another. Contracts see its door and the run, the newest
/// entry first.
#[derive(Drop)]
pub struct NoteTo<M: Machine> {
    seat: Seat<Option<M>, View>,
}

/// A note of a pass of a door to a hall.
pub type Note = NoteTo<Hall>;

impl<M: Machine> Model for NoteTo<M> {
    ghost use Rattle.hall_turn.specs.Known.{Noted};

    ghost Value = { Noted };

    ghost use Rattle.hall_turn.specs.Steps.{IsNote};

    ghost view = { λ n. record {
      door = record { name = n.seat.table_id; policy = n.seat.me.0.policy };
      seen = n.seat.me.0.seen;
    } };

    ghost invariant = { λ n. IsNote n.seat.me };
}

impl<M: Machine> DoorTo<M> {
    /// A note of what the pass has seen. The pass stays as it was. It waits for nobody.
    pub fn note(&self, pass: &mut PassTo<M>) -> NoteTo<M>
        requires { pass.old.door ≡ self.now }
        ensures same { pass.new ≡ pass.old }
        ensures note { result ≡ record { door = self.now; seen = pass.old.seen } }
    {
        let seat = self.turns.write_note(&mut pass.seat);
        NoteTo { seat }
    }

    /// The pass sees at least what the note has seen, and looks, as by `front`. It waits for
    /// nobody.
    pub fn learn(&self, pass: &mut PassTo<M>, note: NoteTo<M>)
        requires pass { pass.old.door ≡ self.now }
        requires note { note.door ≡ self.now }
        ensures same { IsSamePass pass.old pass.new }
        ensures sees { SeesOn pass.old pass.new }
        ensures note { Continues pass.new.seen note.seen }
        ensures legal { Legal self.now.policy pass.new.seen }
        ensures settled { pass.new.settled ≡ pass.old.settled }
        ensures booked { pass.new.booked ≡ pass.old.booked }
    {
        let NoteTo { seat } = note;
        self.turns.hear(&mut pass.seat, seat);
        self.turns.look(&mut pass.seat);
    }
}
