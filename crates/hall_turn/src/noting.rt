//! What is noted of a machine at the end of a turn.
ghost use Rattle.std.specs.Prelude.{◌≡◌, Option, option_map};
ghost use Rattle.hall_turn.specs.Receipts.{Covered};

use crate::machine::Machine;
use crate::receipt::{Receipt, Receipts};

/// A place for what is noted of a machine.
pub(crate) trait Noting<M: Machine> {
    /// It notes that of a machine of which a receipt covers this, if it is booked.
    ghost notes: { Self → Option Covered → Type 0 };

    fn note(&mut self, machine: &M)
        ensures { notes self.new (M.booked machine.now) };
}

/// Nothing is.
impl<M: Machine> Noting<M> for () {
    ghost notes = { λ _ _. Unit {0} };

    fn note(&mut self, _machine: &M) {}
}

/// The receipt that it gives.
impl<T: Receipt + Drop, M: Receipts<T>> Noting<M> for Option<T> {
    ghost notes = { λ receipt booked. option_map T.covers receipt ≡ booked };

    fn note(&mut self, machine: &M) {
        *self = machine.receipt();
    }
}
