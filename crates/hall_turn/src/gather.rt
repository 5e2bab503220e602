//! One seat takes in all passes, to close a door.
ghost use Rattle.std.specs.Prelude.{◌≡◌, ◌<◌, vec_len};
ghost use Rattle.std.specs.List.{All};
ghost use Rattle.hall_turn.specs.Steps.{HasAll, HasWhole, Ends};

use crate::machine::Machine;
use crate::pass::{PassTo, PassesTo};
use crate::rule::{Gather, View};
use crate::turns::Turns;
use atomic_table::Seat;

impl<M: Machine> Turns<M> {
    // One seat that knows what each pass has seen.
    pub(crate) fn gather(&self, mut passes: PassesTo<M>) -> Seat<Option<M>, View>
        requires some_pass { 0 < vec_len passes }
        requires of { All (λ pass. pass.door.name ≡ self.now.table.shared.table_id) passes.items }
        ensures at { result.table_id ≡ self.now.table.shared.table_id }
        ensures has { HasAll passes.items result.me }
    {
        let Some(first) = passes.pop() else {
            unreachable!()
        };
        let PassTo {
            mut seat,
            process: _,
            settled: _,
            booked: _,
        } = first;
        while let Some(pass) = passes.pop() {
            let PassTo {
                seat: other,
                process: _,
                settled: _,
                booked: _,
            } = pass;
            self.table.shared.join_seat::<Gather>(&mut seat, other);
        }
        passes.destroy_empty();
        seat
    }

    // The machine, at the end of the run.
    pub(crate) fn end(self, seat: Seat<Option<M>, View>) -> M
        requires at { seat.table_id ≡ self.table.shared.table_id }
        requires whole { HasWhole self.table.shared.key.value seat.me }
        ensures { Ends M.stands self.table.shared.key.value seat.me.0 result }
    {
        let Turns { table } = self;
        let mut closed = table.close_with(seat);
        let found = closed.take(0);
        closed.free();
        let Some(machine) = found else { unreachable!() };
        machine
    }
}
