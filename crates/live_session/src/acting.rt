//! Does what a line asks for.
ghost use Rattle.std.specs.Prelude.{◌≡◌, ◌<◌, Ok, Option, IfErr, IfOk, [], is_some, option_map};
ghost use Rattle.run_model.specs.declared.call.Act.TheVariants.{Take};
ghost use Rattle.run_model.specs.Known.{HasKnownLabel};
ghost use Rattle.run_model.specs.Replies.{Legal};
ghost use Rattle.hall_script.specs.declared.ask.Ask.TheVariants.{Act as ToAct, Wait as ToWait};
ghost use Rattle.hall_script.specs.Asks.{AsksWithKnownLabel};
ghost use Rattle.hall_turn.specs.Receipts.{Covered};
ghost use Rattle.hall_turn.specs.Answers.{Answered, IsSamePass, NamesKnown, ClaimAnswered};
ghost use Rattle.hall_turn.specs.Answers.{ClaimNamesKnown, MayFinish, GivesAt, ClaimGivesAt};
ghost use Rattle.live_session.specs.Sessions.{IsHeadBy, SeesMore, Stood};
ghost use Rattle.live_session.specs.Keeping.{Keeps};
ghost use Rattle.live_session.specs.Steps.{Waited, CameTo, CameNamesKnown, came_of};
ghost use Rattle.live_session.specs.Steps.{Counts, IsUncounted, calls_after, counting};

use crate::caller::{Caller, may_call};
use crate::seat::Seat;
use crate::setting::Setting;
use hall_core::{Reply, finish};
use hall_script::Ask;
use hall_turn::{
    Answer, Claimed, Head, PassTo, Receipt, Receipts, call_with_receipt, claim_with_receipt,
};
use run_model::Act;
use std::sync::Wait;
use wall_labels::NoMemory;

/// What a line came to that asks for something.
#[derive(Drop)]
pub(crate) enum Came {
    /// Its call was made, the last one of those that it asks for, and this is its reply.
    Reply(Reply),
    /// It asked for the head of the book: that of the last receipt, if there is a book.
    Head(Option<Head>),
    /// It asked for this number again.
    Pong(u64),
    /// It asked which requests of the process are not taken: these.
    Open(Vec<u64>),
    /// It asked which number the process's next request gets: this one.
    Next(u64),
    /// It said `leave`.
    Left,
    /// Its call was not made: the session has made as many as it may, or the door was too late.
    Exhausted,
    /// Its call was made, and the machine is not booked: what came of it is not told.
    Unbooked,
}

// What a line came to whose last call was answered so, with the machine booked or not at the end of
// its turn. It counts as one call, if it was made. Whoever waits is told of a machine that is not
// booked.
fn came_of<R: Wait, T>(rt: &R, caller: &mut Caller<T>, answer: Answer, is_booked: bool) -> Came
    requires room { caller.old.calls < 18446744073709551615 }
    ensures came { (booked : Option Covered) → is_booked ≡ is_some booked →
        result ≡ came_of answer booked }
    ensures calls { caller.new.calls ≡ calls_after answer caller.old.calls }
    ensures receipt { caller.new.receipt ≡ caller.old.receipt }
    ensures keeps { caller.new.seat.requests ≡ caller.old.seat.requests }
{
    match answer {
        Answer::Reply(reply) => {
            caller.calls += 1;
            if is_booked {
                Came::Reply(reply)
            } else {
                caller.seat.tell_unbooked(rt);
                Came::Unbooked
            }
        }
        Answer::Exhausted => Came::Exhausted,
    }
}

// The head that this receipt says; none where there is no receipt.
fn head_by<T: Receipt>(receipt: &Option<T>) -> Option<Head>
    ensures { IsHeadBy (option_map T.covers receipt.now) result }
{
    match receipt {
        Some(receipt) => receipt.head(),
        None => None,
    }
}

impl<'s, R: Wait, M: Receipts<T>, T: Receipt + Drop> Setting<'s, R, M, T> {
    // All of a take that needs the hall, at the pass's turn, while no other session calls.
    fn claim(&self, pass: &mut PassTo<M>, request: u64, receipt: &mut Option<T>) -> Claimed
        requires door { pass.old.door ≡ self.now.door.now }
        ensures same { IsSamePass pass.old pass.new }
        ensures legal { Legal self.now.door.now.policy pass.new.seen }
        ensures answered { ClaimAnswered pass.old request result pass.new }
        ensures gives { ClaimGivesAt M.stands M.booked pass.old result pass.new
            (option_map T.covers receipt.old) (option_map T.covers receipt.new) }
        ensures may { MayFinish result }
        ensures named { ClaimNamesKnown self.now.door.now.policy result }
    {
        let turn = self.turn.lock(self.rt);
        let claimed = claim_with_receipt(self.rt, self.door, pass, request, receipt);
        drop(turn);
        claimed
    }

    // A take. What is left of it behind its turn holds up nobody.
    fn take(
        &self,
        pass: &mut PassTo<M>,
        seat: &mut Seat,
        request: u64,
        receipt: &mut Option<T>,
    ) -> Answer
        requires door { pass.old.door ≡ self.now.door.now }
        requires keeps { Keeps seat.old.requests pass.old }
        ensures same { IsSamePass pass.old pass.new }
        ensures legal { Legal self.now.door.now.policy pass.new.seen }
        ensures answered { Answered pass.old (Take request) result pass.new }
        ensures gives { GivesAt M.stands M.booked pass.old result pass.new
            (option_map T.covers receipt.old) (option_map T.covers receipt.new) }
        ensures named { NamesKnown self.now.door.now.policy result }
        ensures keeps { Keeps seat.new.requests pass.new }
    {
        match self.claim(pass, request, receipt) {
            Claimed::Claim(claim) => {
                let reply = finish(claim);
                seat.taken(request, &reply);
                Answer::Reply(reply)
            }
            Claimed::Exhausted => Answer::Exhausted,
        }
    }

    // Takes the outcome of a request as soon as its instance has settled, and sleeps before that.
    // Where nothing can settle it any more, or the machine is not booked any more, one last take
    // has the answer, which may be `Pending`.
    fn wait(
        &self,
        pass: &mut PassTo<M>,
        seat: &mut Seat,
        request: u64,
        receipt: &mut Option<T>,
    ) -> Answer
        requires door { pass.old.door ≡ self.now.door.now }
        requires keeps { Keeps seat.old.requests pass.old }
        ensures same { IsSamePass pass.old pass.new }
        ensures legal { Legal self.now.door.now.policy pass.new.seen }
        ensures waited { Waited (Stood M.stands M.booked) pass.old request result
            (option_map T.covers receipt.new) pass.new }
        ensures named { NamesKnown self.now.door.now.policy result }
        ensures keeps { Keeps seat.new.requests pass.new }
    {
        match self.take(pass, seat, request, receipt) {
            Answer::Reply(Reply::Pending) => {}
            answer => return answer,
        }
        for _ in self.rt.forever() {
            let sleeps_on = seat.sleep(self.rt, request);
            match self.take(pass, seat, request, receipt) {
                Answer::Reply(Reply::Pending) => {
                    if !sleeps_on {
                        return Answer::Reply(Reply::Pending);
                    }
                }
                Answer::Exhausted => return Answer::Reply(Reply::Pending),
                answer => return answer,
            }
        }
        unreachable!()
    }

    // The call of an act, at the pass's turn.
    fn make(
        &self,
        pass: &mut PassTo<M>,
        seat: &mut Seat,
        act: Act,
        receipt: &mut Option<T>,
    ) -> Answer
        requires door { pass.old.door ≡ self.now.door.now }
        requires label { HasKnownLabel self.now.door.now.policy act }
        requires keeps { Keeps seat.old.requests pass.old }
        ensures same { IsSamePass pass.old pass.new }
        ensures legal { Legal self.now.door.now.policy pass.new.seen }
        ensures answered { Answered pass.old act result pass.new }
        ensures gives { GivesAt M.stands M.booked pass.old result pass.new
            (option_map T.covers receipt.old) (option_map T.covers receipt.new) }
        ensures named { NamesKnown self.now.door.now.policy result }
        ensures keeps { Keeps seat.new.requests pass.new }
    {
        match act {
            Act::Post(posting) => {
                let comm = posting.comm;
                let turn = self.turn.lock(self.rt);
                let act = Act::Post(posting);
                let answer = call_with_receipt(self.rt, self.door, pass, act, receipt);
                drop(turn);
                if let Answer::Reply(reply) = &answer {
                    seat.posted(comm, reply);
                    if pass.settled() {
                        seat.settled(self.rt, comm);
                    }
                }
                answer
            }
            Act::Take(request) => self.take(pass, seat, request, receipt),
            Act::Info(comm) => {
                let turn = self.turn.lock(self.rt);
                let act = Act::Info(comm);
                let answer = call_with_receipt(self.rt, self.door, pass, act, receipt);
                drop(turn);
                answer
            }
        }
    }

    // An act, if the session may make one more call.
    fn act(&self, pass: &mut PassTo<M>, caller: &mut Caller<T>, act: Act) -> Came
        requires door { pass.old.door ≡ self.now.door.now }
        requires legal { Legal self.now.door.now.policy pass.old.seen }
        requires label { HasKnownLabel self.now.door.now.policy act }
        requires counts { Counts self.now.most caller.old.calls pass.old }
        requires keeps { Keeps caller.old.seat.requests pass.old }
        ensures same { IsSamePass pass.old pass.new }
        ensures legal { Legal self.now.door.now.policy pass.new.seen }
        ensures came { CameTo (Stood M.stands M.booked) self.now.most pass.old (ToAct act) result
            (option_map T.covers caller.old.receipt) (option_map T.covers caller.new.receipt)
            (counting caller.old.calls caller.new.calls) pass.new }
        ensures counts { Counts self.now.most caller.new.calls pass.new }
        ensures named { CameNamesKnown self.now.door.now.policy result }
        ensures keeps { Keeps caller.new.seat.requests pass.new }
    {
        if !may_call(caller.calls, self.most) {
            return Came::Exhausted;
        }
        let answer = self.make(pass, &mut caller.seat, act, &mut caller.receipt);
        let is_booked = caller.receipt.is_some();
        came_of(self.rt, caller, answer, is_booked)
    }

    // A wait, if the session may make one more call.
    fn wait_for(&self, pass: &mut PassTo<M>, caller: &mut Caller<T>, request: u64) -> Came
        requires door { pass.old.door ≡ self.now.door.now }
        requires legal { Legal self.now.door.now.policy pass.old.seen }
        requires counts { Counts self.now.most caller.old.calls pass.old }
        requires keeps { Keeps caller.old.seat.requests pass.old }
        ensures same { IsSamePass pass.old pass.new }
        ensures legal { Legal self.now.door.now.policy pass.new.seen }
        ensures came { CameTo (Stood M.stands M.booked) self.now.most pass.old (ToWait request)
            result (option_map T.covers caller.old.receipt) (option_map T.covers caller.new.receipt)
            (counting caller.old.calls caller.new.calls) pass.new }
        ensures counts { Counts self.now.most caller.new.calls pass.new }
        ensures named { CameNamesKnown self.now.door.now.policy result }
        ensures keeps { Keeps caller.new.seat.requests pass.new }
    {
        if !may_call(caller.calls, self.most) {
            return Came::Exhausted;
        }
        let answer = self.wait(pass, &mut caller.seat, request, &mut caller.receipt);
        let is_booked = caller.receipt.is_some();
        came_of(self.rt, caller, answer, is_booked)
    }

    /// Does what a line asks for. A call is made only if the session may make one more. Where one
    /// was made there is the receipt that the machine gave at the end of the turn of the last one,
    /// if it was booked; else there is the receipt that there was. The head of the book is what that
    /// one says, and the session keeps its requests: so neither takes a turn. Memory runs out where
    /// the open ones are listed, and then nothing was done.
    pub(crate) fn act_on(
        &self,
        pass: &mut PassTo<M>,
        caller: &mut Caller<T>,
        ask: Ask,
    ) -> Result<Came, NoMemory>
        requires door { pass.old.door ≡ self.now.door.now }
        requires legal { Legal self.now.door.now.policy pass.old.seen }
        requires label { AsksWithKnownLabel self.now.door.now.policy ask }
        requires counts { Counts self.now.most caller.old.calls pass.old }
        requires keeps { Keeps caller.old.seat.requests pass.old }
        ensures same { IsSamePass pass.old pass.new }
        ensures legal { Legal self.now.door.now.policy pass.new.seen }
        ensures came { IfOk result (λ came.
            CameTo (Stood M.stands M.booked) self.now.most pass.old ask came
            (option_map T.covers caller.old.receipt) (option_map T.covers caller.new.receipt)
            (counting caller.old.calls caller.new.calls) pass.new) }
        ensures nothing { IfErr result (λ _. SeesMore pass.old [] pass.new
            × IsUncounted (counting caller.old.calls caller.new.calls)) }
        ensures counts { Counts self.now.most caller.new.calls pass.new }
        ensures keeps { Keeps caller.new.seat.requests pass.new }
        ensures named { IfOk result (CameNamesKnown self.now.door.now.policy) }
    {
        match ask {
            Ask::Act(act) => Ok(self.act(pass, caller, act)),
            Ask::Wait(request) => Ok(self.wait_for(pass, caller, request)),
            Ask::Head => Ok(Came::Head(head_by(&caller.receipt))),
            Ask::Ping(number) => Ok(Came::Pong(number)),
            Ask::Open => match caller.seat.requests().open(self.alloc) {
                Ok(requests) => Ok(Came::Open(requests)),
                Err(refused) => Err(NoMemory::from(refused)),
            },
            Ask::Next => Ok(Came::Next(caller.seat.requests().given())),
            Ask::Leave => Ok(Came::Left),
        }
    }
}
