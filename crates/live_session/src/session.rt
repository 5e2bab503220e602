//! The session of a process, from its first line to its end.
ghost use Rattle.std.specs.Prelude.{◌≡◌, List, ℕ, [], None, OnOk, IfSome, option_map};
ghost use Rattle.run_model.specs.Replies.{Legal};
ghost use Rattle.coll_text.specs.Reading.{parts};
ghost use Rattle.hall_script.specs.Devices.{used};
ghost use Rattle.hall_turn.specs.Answers.{IsSamePass};
ghost use Rattle.live_session.specs.Sessions.{Stood, Serves};
ghost use Rattle.live_session.specs.Keeping.{Keeps};
ghost use Rattle.live_session.specs.Sittings.{at, Follows, MayRest, SitsIfBegun};
ghost use Rattle.live_session.specs.Steps.{Counts, Holds, IsUnread, TakesIn, behind, counting};
ghost use Rattle.live_session.specs.Steps.{showing};

use crate::caller::Caller;
use crate::desk::ShowDesk;
use crate::ending::{Closing, SessionEnd};
use crate::line::{Lines, Unfinished};
use crate::requests::Requests;
use crate::seat::Seat;
use crate::setting::Setting;
use coll_text::Parts;
use hall_turn::{PassTo, Receipt, Receipts};
use std::sync::Wait;
use wall_labels::{NoMemory, Sink};

impl<'s, R: Wait, M: Receipts<T>, T: Receipt + Drop> Setting<'s, R, M, T> {
    // Acts on the lines that these bytes finish, and keeps the rest.
    fn take_in<S: ShowDesk<O, T>, O: Sink>(
        &self,
        pass: &mut PassTo<M>,
        caller: &mut Caller<T>,
        lines: &mut Lines,
        bytes: &[u8],
        source: &mut S,
        sink: &mut O,
    ) -> Result<(), SessionEnd>
        requires door { pass.old.door ≡ self.now.door.now }
        requires legal { Legal self.now.policy.now pass.old.seen }
        requires none { lines.old.text.items ≡ [] }
        requires counts { Counts self.now.most caller.old.calls pass.old }
        requires keeps { Keeps caller.old.seat.requests pass.old }
        ensures none { OnOk result (lines.new.text.items ≡ []) }
        ensures same { IsSamePass pass.old pass.new }
        ensures legal { Legal self.now.policy.now pass.new.seen }
        ensures unread { IsUnread S.failures S.remaining S.heard source.old source.new }
        ensures takes { (start : List ℕ) → Holds lines.old.line start →
            TakesIn (Stood M.stands M.booked) self.now.most self.now.policy.now pass.old
            (behind start (parts 10 bytes.now)) lines.new.line
            (showing S.heard source.old source.new
            (option_map T.covers caller.old.receipt) (option_map T.covers caller.new.receipt))
            (used O.failures O.contents sink.old sink.new)
            (counting caller.old.calls caller.new.calls) pass.new result }
        ensures counts { Counts self.now.most caller.new.calls pass.new }
        ensures keeps { Keeps caller.new.seat.requests pass.new }
    {
        let mut parts = Parts::new(bytes, b'\n');
        let Some(first) = parts.next_long() else {
            unreachable!()
        };
        match lines.line.add(first) {
            Ok(()) => {}
            Err(refused) => return Err(SessionEnd::from(NoMemory::from(refused))),
        }
        while let Some(part) = parts.next_long() {
            match self.answer_line(pass, caller, lines, source, sink) {
                Ok(()) => {}
                Err(end) => return Err(end),
            }
            match lines.line.begin(self.alloc, part) {
                Ok(()) => {}
                Err(refused) => return Err(SessionEnd::from(NoMemory::from(refused))),
            }
        }
        Ok(())
    }

    // A sitting: from the first line of a stream to why no further line of it is acted on.
    fn hold<S: ShowDesk<O, T>, O: Sink>(
        &self,
        pass: &mut PassTo<M>,
        caller: &mut Caller<T>,
        source: &mut S,
        sink: &mut O,
    ) -> SessionEnd
        requires door { pass.old.door ≡ self.now.door.now }
        requires legal { Legal self.now.policy.now pass.old.seen }
        requires counts { Counts self.now.most caller.old.calls pass.old }
        requires keeps { Keeps caller.old.seat.requests pass.old }
        requires unreceipted { caller.old.receipt ≡ None }
        ensures same { IsSamePass pass.old pass.new }
        ensures legal { Legal self.now.policy.now pass.new.seen }
        ensures counts { Counts self.now.most caller.new.calls pass.new }
        ensures keeps { Keeps caller.new.seat.requests pass.new }
        ensures serves { Serves (Stood M.stands M.booked) self.now.most caller.old.calls S.heard
            self.now.policy.now
            (used S.failures S.remaining source.old source.new)
            (used O.failures O.contents sink.old sink.new)
            pass.old pass.new (record { end = result; calls = caller.new.calls }) }
    {
        let line = Unfinished::new(self.alloc);
        let text = Vec::new(self.alloc);
        let mut lines = Lines { line, text };
        let mut buffer = [0u8; 4096];
        for _ in self.rt.forever() {
            let n = match source.hear(sink, &mut buffer) {
                Ok(n) => n,
                Err(_) => return SessionEnd::ReadFailed,
            };
            if n == 0 {
                return SessionEnd::EndOfStream;
            }
            match self.take_in(pass, caller, &mut lines, &buffer[..n], source, sink) {
                Ok(()) => {}
                Err(end) => return end,
            }
        }
        unreachable!()
    }

    // Behind a sitting that ended so: the seat for another, where the process is served again; or
    // none, and the session has ended.
    fn go_on<S: ShowDesk<O, T>, O: Sink>(
        &self,
        seat: Seat<'s>,
        source: &mut S,
        sink: &O,
        closing: Closing,
    ) -> Option<Seat<'s>>
        ensures rests { IfSome result (λ _. MayRest closing.end) }
        ensures keeps { IfSome result (λ next. next.requests ≡ seat.entry.requests) }
        ensures fails { S.failures source.new ≡ S.failures source.old }
        ensures heard { S.heard source.new ≡ S.heard source.old }
    {
        let Closing { end, calls } = closing;
        if !end.may_rest() {
            seat.end(self.rt);
            source.close(end, calls);
            return None;
        }
        let away = seat.go(self.rt);
        if source.rest(sink, end, calls) {
            return Some(away.come_back(self.rt));
        }
        away.end();
        source.close(end, calls);
        None
    }

    /// Serves a process until its session ends: reads its lines, and answers each finished line by
    /// one line before the next is acted on. The session begins as soon as the stage says so; none
    /// where that sends it home, and then nothing was done.
    ///
    /// A line is `post C KIND FIELDS`, with `as LABEL V ..` behind it, or `take REQUEST`, or
    /// `info C`, or `wait REQUEST`, or `head`, or `ping N`, or `open`, or `next`, or `leave`; it
    /// ends at LF, and one CR before that is dropped. A call is answered by the line of its reply.
    /// A wait takes the request, and again when its instance has settled, and is answered as the
    /// last of these takes was: `pending` where every other session has ended, rests or waits too,
    /// so that nobody is left who could settle it; all that wait are told so then. `head` is
    /// answered by how far the book had come at the end of the turn of the last call, as its
    /// receipt says: `head N DIGEST`, with the number of entries and the SHA-256 of the text so
    /// far, or `head 0 -` where no call was made yet or no book is kept. `open` is answered by
    /// `open R R ..`, the requests of the process of which no take has had the outcome, ascending;
    /// `next` by `next N`, the number that its next request gets; and `ping N` by itself. None of
    /// the four is a call. `leave` is answered by `left`, and ends the session. So does a call
    /// where `most` were made, or after 2^62 turns of the door: it is not made, and answered by
    /// `exhausted`. So does a call behind whose turn the machine is not booked: it was made, and in
    /// place of its reply stands `unbooked`; whoever waits is told so too. Any other line is
    /// answered by `bad NAME`: then nothing was done, and the session goes on.
    ///
    /// Where the stream has ended, or an answer could not be written, the session rests: a line
    /// that was not finished is dropped, and until the source says that the process is served again
    /// it counts as one that has left. Then it goes on, with the calls that were made before;
    /// nothing that was shown before is told by `head`.
    ///
    /// Before a reply is written the source is shown the receipt that the machine gave at the end
    /// of the turn of its call. No turn is held while it reads, works out a delivery, shows,
    /// writes, sleeps or rests. The source is told when the session begins, before its first line
    /// is read, and when it has ended; no turn and no place of the stage is held meanwhile.
    pub fn serve<S: ShowDesk<O, T>, O: Sink>(
        &self,
        pass: &mut PassTo<M>,
        source: &mut S,
        sink: &mut O,
    ) -> Option<Closing>
        requires door { pass.old.door ≡ self.now.door.now }
        requires fresh { pass.old.seen ≡ [] }
        ensures same { IsSamePass pass.old pass.new }
        ensures serves { SitsIfBegun (Stood M.stands M.booked) self.now.most S.failures S.remaining
            S.heard O.failures O.contents self.now.policy.now
            (at source.old sink.old pass.old) (at source.new sink.new pass.new) result }
    {
        let requests = Requests::new(self.alloc);
        let role = match self.stage.begin(self.rt, pass.process() as usize) {
            Ok(role) => role,
            Err(_) => return None,
        };
        let requests = match requests {
            Ok(requests) => requests,
            Err(refused) => {
                let end = SessionEnd::from(NoMemory::from(refused));
                self.stage.leave(self.rt, role);
                source.open();
                source.close(end, 0);
                return Some(Closing { end, calls: 0 });
            }
        };
        let mut seat = Seat::new(self.rt, self.stage, role, requests);
        let mut calls: u64 = 0;
        source.open();
        for _ in self.rt.forever() {
            let mut caller = Caller {
                seat,
                calls,
                receipt: None,
            };
            let end = self.hold(pass, &mut caller, source, sink);
            let Caller {
                seat: held,
                calls: made,
                receipt,
            } = caller;
            drop(receipt);
            let closing = Closing { end, calls: made };
            match self.go_on(held, source, sink, closing) {
                Some(next) => {
                    seat = next;
                    calls = made;
                }
                None => return Some(closing),
            }
        }
        unreachable!()
    }
}
