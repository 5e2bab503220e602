//! The door, and the calls that take a turn there.
ghost use Rattle.std.specs.Prelude.{◌≡◌, ◌<◌, ◌≤◌, [], IfOk, IfSome, IfNone, vec_capacity};
ghost use Rattle.std.specs.Prelude.{option_map};
ghost use Rattle.std.specs.List.{All};
ghost use Rattle.run_model.specs.declared.call.Act.TheVariants.{Post as ToPost, Take as ToTake};
ghost use Rattle.run_model.specs.declared.call.Act.TheVariants.{Info as ToInfo};
ghost use Rattle.run_model.specs.Comms.{processes};
ghost use Rattle.run_model.specs.Replies.{Legal};
ghost use Rattle.run_model.specs.Runs.{entry};
ghost use Rattle.run_model.specs.Known.{IsKnownLabel, HasKnownLabel, IsKnownReply};
ghost use Rattle.hall_turn.specs.Answers.{Answered, ClaimAnswered, ClaimNamesKnown, EntersAnd};
ghost use Rattle.hall_turn.specs.Answers.{MayFinish, IsSamePass, IsTooLate, NamesKnown, new_passes};
ghost use Rattle.hall_turn.specs.Answers.{ClaimGivesAt, ClaimNotesAt, ClaimStoodAt, GivesAt};
ghost use Rattle.hall_turn.specs.Answers.{GivesNoted, NotesAt, SaysOf};
ghost use Rattle.hall_turn.specs.Answers.{SaysOfClaim, SaysWhether};
ghost use Rattle.hall_turn.specs.Answers.{StoodAt};
ghost use Rattle.hall_turn.specs.Views.{newcomer};

use crate::answer::{Answer, Claimed};
use crate::deed::{Claiming, Deed};
use crate::machine::Machine;
use crate::noting::Noting;
use crate::pass::{PassTo, Passes, PassesTo};
use crate::receipt::{Receipt, Receipts};
use crate::rule::View;
use crate::turns::Turns;
use atomic_table::{Refused, Seat, Table};
use hall_core::{Act, Call, Hall, NoMemory, Posting, finish};
use std::alloc::Global;
use std::marker::Model;
use std::snapshot::Snapshot;
use std::sync::Wait;
use wall_policy::Policy;

/// After so many turns a door is exhausted.
const LAST: u64 = 1 << 62;

/// One machine, at which processes take turns. Contracts see which door it is, and its policy.
pub struct DoorTo<M: Machine> {
    pub(crate) turns: Turns<M>,
    // How many processes there are.
    pub(crate) count: u32,
}

/// A door to a hall.
pub type Door = DoorTo<Hall>;

// By hand: a derived one is proved anew in each crate that lets a door go.
impl<M: Machine + Drop> Drop for DoorTo<M> {
    fn drop(self) {
        let DoorTo { turns, count: _ } = self;
        drop(turns);
    }
}

impl<M: Machine> DoorTo<M> {
    // What is behind it.
    pub(crate) fn into_turns(self) -> Turns<M>
        ensures name { result.table.shared.table_id ≡ self.name }
        ensures policy { result.table.shared.key.value ≡ self.policy }
    {
        let DoorTo { turns, count: _ } = self;
        turns
    }
}

impl<M: Machine> Model for DoorTo<M> {
    ghost use Rattle.std.specs.Prelude.{◌≡◌, ◌<◌};
    ghost use Rattle.run_model.specs.Comms.{processes};
    ghost use Rattle.hall_turn.specs.Known.{Doorway};

    ghost Value = { Doorway };

    ghost view = { λ d.
        record { name = d.turns.table.shared.table_id; policy = d.turns.table.shared.key.value } };

    ghost invariant = { λ d. (d.count ≡ processes d.turns.table.shared.key.value) × (0 < d.count) };
}

impl DoorTo<Hall> {
    /// A door to a new hall, and a pass for each process, in order, which has seen nothing.
    /// `NoMemory` is answered only where a growth was refused.
    pub fn open(alloc: Global, policy: Policy) -> Result<(Door, Passes), NoMemory>
        ensures policy { IfOk result (λ opened. opened.0.policy ≡ policy) }
        ensures passes { IfOk result
            (λ opened. opened.1.items ≡ new_passes opened.0 (processes policy)) }
        ensures of { IfOk result (λ opened. All (λ pass. pass.door ≡ opened.0) opened.1.items) }
    {
        let key = Snapshot::of(&policy);
        let count = policy.processes();
        let hall = Hall::open(alloc, policy)?;
        DoorTo::set_up(alloc, &key, count, hall)
    }
}

impl<M: Machine + Drop> DoorTo<M> {
    /// A door to this machine, which stands for the empty run under the policy, and a pass for each
    /// process, in order, which has seen nothing. `NoMemory` is answered only where a growth was
    /// refused; then the machine is let go.
    pub fn over(
        alloc: Global,
        policy: &Policy,
        machine: M,
    ) -> Result<(DoorTo<M>, PassesTo<M>), NoMemory>
        requires stands { M.stands policy.now machine [] }
        ensures policy { IfOk result (λ opened. opened.0.policy ≡ policy.now) }
        ensures passes { IfOk result
            (λ opened. opened.1.items ≡ new_passes opened.0 (processes policy.now)) }
        ensures of { IfOk result (λ opened. All (λ pass. pass.door ≡ opened.0) opened.1.items) }
    {
        let key = Snapshot::of(policy);
        DoorTo::set_up(alloc, &key, policy.processes(), machine)
    }

    // What `over` does, for whoever has the value of a policy and the number of its processes.
    fn set_up(
        alloc: Global,
        key: &Snapshot<Policy>,
        count: u32,
        machine: M,
    ) -> Result<(DoorTo<M>, PassesTo<M>), NoMemory>
        requires stands { M.stands key.now.value machine [] }
        requires count { count ≡ processes key.now.value }
        requires some { 0 < count }
        ensures policy { IfOk result (λ opened. opened.0.policy ≡ key.now.value) }
        ensures passes { IfOk result
            (λ opened. opened.1.items ≡ new_passes opened.0 (processes key.now.value)) }
        ensures of { IfOk result (λ opened. All (λ pass. pass.door ≡ opened.0) opened.1.items) }
    {
        let passes = Vec::with_capacity(alloc, count as usize)?;
        let mut slots = Vec::new(alloc);
        slots.push(Some(machine))?;
        let (table, maker) = match Table::new(alloc, &[0, 0], slots, key) {
            Ok(made) => made,
            Err(Refused { slots }) => {
                drop(slots);
                return Err(NoMemory::of_fault());
            }
        };
        let door = DoorTo {
            turns: Turns { table },
            count,
        };
        let passes = door.deal(maker, passes);
        Ok((door, passes))
    }

    // The passes of all processes, of which there is at least one. There is room for them.
    fn deal(&self, mut maker: Seat<Option<M>, View>, mut passes: PassesTo<M>) -> PassesTo<M>
        requires at { maker.table_id ≡ self.now.name }
        requires maker { maker.me ≡ (newcomer self.now.policy, []) }
        requires none { passes.items ≡ [] }
        requires room { processes self.now.policy ≤ vec_capacity passes }
        ensures passes { result.items ≡ new_passes self.now (processes self.now.policy) }
        ensures of { All (λ pass. pass.door ≡ self.now) result.items }
    {
        let last = self.count - 1;
        for process in 0..last {
            let seat = self.turns.make_pass(&mut maker);
            passes.push_reserved(PassTo {
                seat,
                process,
                settled: false,
                booked: true,
            });
        }
        passes.push_reserved(PassTo {
            seat: maker,
            process: last,
            settled: false,
            booked: true,
        });
        passes
    }
}

impl<M: Machine> DoorTo<M> {
    /// Posts the pass's part in its next collective on a communicator, at its turn. The caller sees
    /// to it that the posting's label is public or a dataset of the policy; all else the hall
    /// judges, and its reply is the one that is due after the calls of all turns before.
    ///
    /// `Exhausted` is answered after 2^62 turns alone; then nothing is posted, and the pass has
    /// looked, as by `front`.
    pub fn post<R: Wait>(&self, rt: &R, pass: &mut PassTo<M>, posting: Posting) -> Answer
        requires door { pass.old.door ≡ self.now }
        requires label { IsKnownLabel self.now.policy posting.label }
        ensures same { IsSamePass pass.old pass.new }
        ensures legal { Legal self.now.policy pass.new.seen }
        ensures answered { Answered pass.old (ToPost posting) result pass.new }
        ensures named { NamesKnown self.now.policy result }
        ensures settled { SaysOf pass.old result pass.new }
        ensures stood { StoodAt M.stands M.booked pass.old result pass.new }
    {
        self.call(rt, pass, Act::Post(posting))
    }

    /// Takes the outcome of a request of the pass's process, at its turn. It does not wait for the
    /// outcome: `Pending` is a reply.
    ///
    /// `Exhausted` is answered after 2^62 turns alone; then the request stays, and the pass has
    /// looked, as by `front`.
    pub fn take<R: Wait>(&self, rt: &R, pass: &mut PassTo<M>, request: u64) -> Answer
        requires door { pass.old.door ≡ self.now }
        ensures same { IsSamePass pass.old pass.new }
        ensures legal { Legal self.now.policy pass.new.seen }
        ensures answered { Answered pass.old (ToTake request) result pass.new }
        ensures named { NamesKnown self.now.policy result }
        ensures settled { SaysOf pass.old result pass.new }
        ensures stood { StoodAt M.stands M.booked pass.old result pass.new }
    {
        match self.claim(rt, pass, request) {
            Claimed::Claim(claim) => Answer::Reply(finish(claim)),
            Claimed::Exhausted => Answer::Exhausted,
        }
    }

    /// All of a take that needs the hall, at the pass's turn. What is left, `finish` does after the
    /// turn.
    ///
    /// `Exhausted` is answered after 2^62 turns alone; then the request stays, and the pass has
    /// looked, as by `front`.
    pub fn claim<R: Wait>(&self, rt: &R, pass: &mut PassTo<M>, request: u64) -> Claimed
        requires door { pass.old.door ≡ self.now }
        ensures same { IsSamePass pass.old pass.new }
        ensures legal { Legal self.now.policy pass.new.seen }
        ensures answered { ClaimAnswered pass.old request result pass.new }
        ensures may { MayFinish result }
        ensures named { ClaimNamesKnown self.now.policy result }
        ensures settled { SaysOfClaim pass.old result pass.new }
        ensures stood { ClaimStoodAt M.stands M.booked pass.old result pass.new }
    {
        self.claim_noting(rt, pass, request, &mut ())
    }

    // A claim, by which something is noted of the machine.
    fn claim_noting<R: Wait, N: Noting<M>>(
        &self,
        rt: &R,
        pass: &mut PassTo<M>,
        request: u64,
        noted: &mut N,
    ) -> Claimed
        requires door { pass.old.door ≡ self.now }
        ensures same { IsSamePass pass.old pass.new }
        ensures legal { Legal self.now.policy pass.new.seen }
        ensures answered { ClaimAnswered pass.old request result pass.new }
        ensures may { MayFinish result }
        ensures named { ClaimNamesKnown self.now.policy result }
        ensures settled { SaysOfClaim pass.old result pass.new }
        ensures gives { ClaimNotesAt M.stands M.booked N.notes pass.old result pass.new
            noted.old noted.new }
    {
        let claiming = Claiming {
            process: pass.process,
            request,
        };
        match self.carry_out(rt, pass, claiming, noted) {
            Some(claim) => Claimed::Claim(claim),
            None => Claimed::Exhausted,
        }
    }

    /// The size of a communicator and the process's rank in it, at the pass's turn.
    ///
    /// `Exhausted` is answered after 2^62 turns alone; then the pass has looked, as by `front`.
    pub fn info<R: Wait>(&self, rt: &R, pass: &mut PassTo<M>, comm: u32) -> Answer
        requires door { pass.old.door ≡ self.now }
        ensures same { IsSamePass pass.old pass.new }
        ensures legal { Legal self.now.policy pass.new.seen }
        ensures answered { Answered pass.old (ToInfo comm) result pass.new }
        ensures named { NamesKnown self.now.policy result }
        ensures settled { SaysOf pass.old result pass.new }
        ensures stood { StoodAt M.stands M.booked pass.old result pass.new }
    {
        self.call(rt, pass, Act::Info(comm))
    }

    // One call, at the pass's turn.
    fn call<R: Wait>(&self, rt: &R, pass: &mut PassTo<M>, act: Act) -> Answer
        requires door { pass.old.door ≡ self.now }
        requires label { HasKnownLabel self.now.policy act }
        ensures same { IsSamePass pass.old pass.new }
        ensures legal { Legal self.now.policy pass.new.seen }
        ensures answered { Answered pass.old act result pass.new }
        ensures named { NamesKnown self.now.policy result }
        ensures settled { SaysOf pass.old result pass.new }
        ensures stood { StoodAt M.stands M.booked pass.old result pass.new }
    {
        self.call_noting(rt, pass, act, &mut ())
    }

    // One call, by which something is noted of the machine.
    fn call_noting<R: Wait, N: Noting<M>>(
        &self,
        rt: &R,
        pass: &mut PassTo<M>,
        act: Act,
        noted: &mut N,
    ) -> Answer
        requires door { pass.old.door ≡ self.now }
        requires label { HasKnownLabel self.now.policy act }
        ensures same { IsSamePass pass.old pass.new }
        ensures legal { Legal self.now.policy pass.new.seen }
        ensures answered { Answered pass.old act result pass.new }
        ensures named { NamesKnown self.now.policy result }
        ensures settled { SaysOf pass.old result pass.new }
        ensures gives { NotesAt M.stands M.booked N.notes pass.old result pass.new noted.old
            noted.new }
    {
        let call = Call {
            process: pass.process,
            act,
        };
        match self.carry_out(rt, pass, call, noted) {
            Some(reply) => Answer::Reply(reply),
            None => Answer::Exhausted,
        }
    }

    // One deed, at the pass's turn; none where the door is exhausted, which the first look decides.
    fn carry_out<R: Wait, D: Deed + Drop, N: Noting<M>>(
        &self,
        rt: &R,
        pass: &mut PassTo<M>,
        deed: D,
        noted: &mut N,
    ) -> Option<D::Told>
        requires door { pass.old.door ≡ self.now }
        requires by { (D.call deed).process ≡ pass.old.process }
        requires may { D.may self.now.policy deed }
        ensures same { IsSamePass pass.old pass.new }
        ensures legal { Legal self.now.policy pass.new.seen }
        ensures enters { IfSome result (λ told.
            EntersAnd pass.old (entry (D.call deed) (D.reply told))
            (λ run. D.tells self.now.policy run deed told) pass.new) }
        ensures named { IfSome result (λ told. IsKnownReply self.now.policy (D.reply told)) }
        ensures exhausted { IfNone result (IsTooLate pass.old pass.new) }
        ensures settled { IfSome result (λ _. SaysWhether pass.new) }
        ensures gives { IfSome result (λ _. GivesNoted M.stands M.booked pass.new
            (N.notes noted.new)) }
        ensures kept { IfNone result ((pass.new.settled ≡ pass.old.settled)
            × (pass.new.booked ≡ pass.old.booked) × (noted.new ≡ noted.old)) }
    {
        if self.turns.look(&mut pass.seat) >= LAST {
            return None;
        }
        let told = self.turns.turn(
            rt,
            &mut pass.seat,
            deed,
            &mut pass.settled,
            &mut pass.booked,
            noted,
        );
        Some(told)
    }
}

/// All of a take that needs the hall, at the pass's turn, as by `claim`, with the receipt that the
/// machine gave at the end of the turn, if it was booked. After `Exhausted` there is the receipt
/// that there was.
pub fn claim_with_receipt<R: Wait, M: Receipts<T>, T: Receipt + Drop>(
    rt: &R,
    door: &DoorTo<M>,
    pass: &mut PassTo<M>,
    request: u64,
    receipt: &mut Option<T>,
) -> Claimed
    requires door { pass.old.door ≡ door.now }
    ensures same { IsSamePass pass.old pass.new }
    ensures legal { Legal door.now.policy pass.new.seen }
    ensures answered { ClaimAnswered pass.old request result pass.new }
    ensures may { MayFinish result }
    ensures named { ClaimNamesKnown door.now.policy result }
    ensures settled { SaysOfClaim pass.old result pass.new }
    ensures gives { ClaimGivesAt M.stands M.booked pass.old result pass.new
        (option_map T.covers receipt.old) (option_map T.covers receipt.new) }
{
    door.claim_noting(rt, pass, request, receipt)
}

/// One call, at the pass's turn, as by `post`, `take` and `info`, with the receipt that the machine
/// gave at the end of the turn, if it was booked. After `Exhausted` there is the receipt that there
/// was.
pub fn call_with_receipt<R: Wait, M: Receipts<T>, T: Receipt + Drop>(
    rt: &R,
    door: &DoorTo<M>,
    pass: &mut PassTo<M>,
    act: Act,
    receipt: &mut Option<T>,
) -> Answer
    requires door { pass.old.door ≡ door.now }
    requires label { HasKnownLabel door.now.policy act }
    ensures same { IsSamePass pass.old pass.new }
    ensures legal { Legal door.now.policy pass.new.seen }
    ensures answered { Answered pass.old act result pass.new }
    ensures named { NamesKnown door.now.policy result }
    ensures settled { SaysOf pass.old result pass.new }
    ensures gives { GivesAt M.stands M.booked pass.old result pass.new
        (option_map T.covers receipt.old) (option_map T.covers receipt.new) }
{
    door.call_noting(rt, pass, act, receipt)
}
