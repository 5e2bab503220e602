//! The steps of a turn.
ghost use Rattle.std.specs.Prelude.{◌≡◌, ◌+◌, ◌^◌, ◌<◌, ◌↔◌, [], true, false};
ghost use Rattle.std.specs.Prelude.{IsTrue, Some, None, length, is_some};
ghost use mathlib.Core.Option.{none};
ghost use Rattle.atomic_table.specs.Table.{step};
ghost use Rattle.run_model.specs.Runs.{entry};
ghost use Rattle.run_model.specs.Known.{IsKnownReply};
ghost use Rattle.hall_turn.specs.Views.{maker_left, next_pass, noted, informed, declared, served};
ghost use Rattle.hall_turn.specs.Views.{drawn};
ghost use Rattle.hall_turn.specs.Machines.{Carries, ForEachRun, Settles, TellsWhether};
ghost use Rattle.hall_turn.specs.Steps.{Looks, IsAt, IsIdle, IsNote, IsReady, HoldsMachine};
ghost use Rattle.hall_turn.specs.Steps.{MayCarryOut, Turned, TellsAfter, CanMake};

use crate::deed::Deed;
use crate::machine::Machine;
use crate::noting::Noting;
use crate::rule::{AsNote, Declare, Draw, Learn, Look, NextPass, Saying, Serve, View};
use crate::turns::Turns;
use atomic_table::Seat;
use std::marker::Brand;
use std::snapshot::Snapshot;
use std::sync::Wait;
use std::{hint, thread};

const SERVING: usize = 0;

const TICKET: usize = 1;

const SLOT: usize = 0;

/// How often a seat looks for its turn before it yields between looks.
const LOOKS: u32 = 2000;

// Between two looks; gives how many there were. Where they were enough, it yields.
fn pause(looks: u32) -> u32
    ensures { looks < LOOKS → result ≡ looks + 1 }
{
    if looks < LOOKS {
        hint::spin_loop();
        return looks + 1;
    }
    thread::yield_now();
    looks
}

// The machine in the slot carries out the deed, where it lies. It is noted whether that settled an
// instance, whether the machine is booked then, and what else is asked of it.
fn carry_out_in<M: Machine, D: Deed, N: Noting<M>>(
    slot: &mut Option<M>,
    deed: D,
    settled: &mut bool,
    booked: &mut bool,
    noted: &mut N,
) -> D::Told
    requires { (machine : M) × (slot.old ≡ Some machine)
        × MayCarryOut M.stands machine (λ wall. D.may wall deed) }
    ensures carries { (old : M) × (new : M) × (slot.old ≡ Some old) × (slot.new ≡ Some new)
        × Carries M.stands old new (D.call deed) (D.reply result) }
    ensures tells { (old : M) → slot.old ≡ Some old
        → ForEachRun M.stands old (λ wall run. D.tells wall run deed result) }
    ensures settled { (old : M) → slot.old ≡ Some old
        → TellsWhether M.stands old settled.new (entry (D.call deed) (D.reply result)) }
    ensures booked { (new : M) → slot.new ≡ Some new → booked.new ≡ is_some (M.booked new) }
    ensures notes { (new : M) → slot.new ≡ Some new → N.notes noted.new (M.booked new) }
{
    let Some(machine) = slot else { unreachable!() };
    let told = deed.carry_out(machine, settled);
    *booked = machine.is_booked();
    noted.note(machine);
    told
}

impl<M: Machine> Turns<M> {
    // The seat becomes the pass of the next process, and the new one is the pass that it was.
    pub(crate) fn make_pass(&self, maker: &mut Seat<Option<M>, View>) -> Seat<Option<M>, View>
        requires at { maker.old.table_id ≡ self.now.table.shared.table_id }
        requires can { CanMake maker.old.me.0 }
        ensures at { IsAt maker.old maker.new × (result.table_id ≡ maker.old.table_id) }
        ensures maker { maker.new.me ≡ (maker_left maker.old.me.0, maker.old.me.1) }
        ensures pass { result.me ≡ (next_pass maker.old.me.0, []) }
    {
        self.table.shared.split_seat::<NextPass>(maker)
    }

    // A new seat has seen what this one has.
    pub(crate) fn write_note(&self, seat: &mut Seat<Option<M>, View>) -> Seat<Option<M>, View>
        requires at { seat.old.table_id ≡ self.now.table.shared.table_id }
        requires out { seat.old.me.0.out ≡ false }
        ensures at { IsAt seat.old seat.new × (result.table_id ≡ seat.old.table_id) }
        ensures same { seat.new.me ≡ seat.old.me }
        ensures note { result.me ≡ (noted seat.old.me.0, []) }
    {
        self.table.shared.split_seat::<AsNote>(seat)
    }

    // The seat hears what the note has seen. At its next look it sees at least that.
    pub(crate) fn hear(&self, seat: &mut Seat<Option<M>, View>, note: Seat<Option<M>, View>)
        requires at { seat.old.table_id ≡ self.now.table.shared.table_id }
        requires note_at { note.table_id ≡ self.now.table.shared.table_id }
        requires out { seat.old.me.0.out ≡ false }
        requires note { IsNote note.me }
        ensures at { IsAt seat.old seat.new }
        ensures hears { seat.new.me ≡ (informed seat.old.me.0 note.me.0, seat.old.me.1) }
    {
        self.table.shared.join_seat::<Learn>(seat, note)
    }

    // Sees the run so far. Where the seat's ticket is served, the machine is out with it.
    pub(crate) fn look(&self, seat: &mut Seat<Option<M>, View>) -> u64
        requires at { seat.old.table_id ≡ self.now.table.shared.table_id }
        requires parts { 0 < seat.old.me.0.parts }
        requires out { seat.old.me.0.out ≡ false }
        ensures at { IsAt seat.old seat.new }
        ensures looks { Looks M.stands (step 1 0 0 0 none) seat.old.me result seat.new.me }
    {
        self.table.shared.load::<Look>(seat, SERVING)
    }

    fn draw(&self, seat: &mut Seat<Option<M>, View>) -> u64
        requires at { seat.old.table_id ≡ self.now.table.shared.table_id }
        requires ticket { seat.old.me.0.ticket ≡ None }
        requires out { seat.old.me.0.out ≡ false }
        requires parts { 0 < seat.old.me.0.parts }
        requires few { length seat.old.me.0.seen < 2 ^ 62 }
        ensures at { IsAt seat.old seat.new }
        ensures draws { seat.new.me ≡ (drawn seat.old.me.0 result, seat.old.me.1) }
    {
        self.table.shared.fetch_add::<Draw>(seat, TICKET, 1)
    }

    // Waits until the ticket is served: then the machine is out with the seat.
    fn await_turn<R: Wait>(&self, rt: &R, seat: &mut Seat<Option<M>, View>, ticket: u64)
        requires at { seat.old.table_id ≡ self.now.table.shared.table_id }
        requires ticket { seat.old.me.0.ticket ≡ Some ticket }
        requires out { seat.old.me.0.out ≡ false }
        requires parts { 0 < seat.old.me.0.parts }
        requires told { seat.old.me.0.told ≡ [] }
        requires slots { seat.old.me.1 ≡ [] }
        ensures at { IsAt seat.old seat.new }
        ensures holds { HoldsMachine M.stands seat.old.me.0 seat.new.me }
    {
        let mut looks: u32 = 0;
        for _ in rt.forever() {
            if self.look(seat) == ticket {
                return;
            }
            looks = pause(looks);
        }
        unreachable!()
    }

    // The call and its reply are what the turn will add to the run.
    fn declare<J: Saying, D: Deed>(
        &self,
        seat: &mut Seat<Option<M>, View>,
        deed: &Snapshot<D>,
        told: &D::Told,
    )
        requires at { seat.old.table_id ≡ self.now.table.shared.table_id }
        requires out { seat.old.me.0.out ≡ true }
        requires saying { J.entry ≡ entry (D.call deed.now.value) (D.reply told.now) }
        ensures at { IsAt seat.old seat.new }
        ensures declares { seat.new.me ≡ (declared seat.old.me.0 J.entry, seat.old.me.1) }
    {
        let _ = deed;
        let _ = told;
        self.table.shared.load::<Declare<J>>(seat, SERVING);
    }

    fn serve(&self, seat: &mut Seat<Option<M>, View>)
        requires at { seat.old.table_id ≡ self.now.table.shared.table_id }
        requires ready { IsReady M.stands seat.old.me }
        ensures at { IsAt seat.old seat.new }
        ensures serves { (e : _) × (seat.old.me.0.said ≡ Some e)
            × (seat.new.me ≡ (served seat.old.me.0 e, [])) }
    {
        self.table.shared.fetch_add::<Serve>(seat, SERVING, 1);
    }

    // One turn: the deed is carried out, and the entry of its call joins the run.
    pub(crate) fn turn<R: Wait, D: Deed, N: Noting<M>>(
        &self,
        rt: &R,
        seat: &mut Seat<Option<M>, View>,
        deed: D,
        settled: &mut bool,
        booked: &mut bool,
        noted: &mut N,
    ) -> D::Told
        requires at { seat.old.table_id ≡ self.now.table.shared.table_id }
        requires idle { IsIdle (D.call deed).process seat.old.me }
        requires few { length seat.old.me.0.seen < 2 ^ 62 }
        requires may { D.may seat.old.me.0.policy deed }
        ensures at { IsAt seat.old seat.new }
        ensures idle { IsIdle (D.call deed).process seat.new.me }
        ensures turned { Turned seat.old.me.0 (entry (D.call deed) (D.reply result))
            seat.new.me.0 }
        ensures named { IsKnownReply seat.old.me.0.policy (D.reply result) }
        ensures tells { TellsAfter seat.new.me.0.seen
            (λ run. D.tells seat.old.me.0.policy run deed result) }
        ensures settled { TellsAfter seat.new.me.0.seen
            (λ run. IsTrue settled.new
            ↔ Settles seat.old.me.0.policy run (entry (D.call deed) (D.reply result))) }
        ensures stood { (machine : M)
            × M.stands seat.old.me.0.policy machine seat.new.me.0.seen
            × (booked.new ≡ is_some (M.booked machine))
            × N.notes noted.new (M.booked machine) }
    {
        let ticket = self.draw(seat);
        self.await_turn(rt, seat, ticket);
        let asked = Snapshot::of(&deed);
        let slot = seat.slot_mut(&self.table.shared, SLOT);
        let told = carry_out_in(slot, deed, settled, booked, noted);
        self.declare::<Brand, D>(seat, &asked, &told);
        self.serve(seat);
        told
    }
}
