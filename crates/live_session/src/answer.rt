//! Acts on one line, and answers it.
ghost use Rattle.std.specs.Prelude.{◌≡◌, List, ℕ, [], OnOk, IfOk, option_map};
ghost use Rattle.run_model.specs.Replies.{Legal};
ghost use Rattle.hall_turn.specs.Answers.{IsSamePass};
ghost use Rattle.hall_script.specs.Devices.{used};
ghost use Rattle.live_session.specs.Hearing.{Tells};
ghost use Rattle.live_session.specs.Lines.{said};
ghost use Rattle.live_session.specs.Sessions.{Stood};
ghost use Rattle.live_session.specs.Keeping.{Keeps};
ghost use Rattle.live_session.specs.Steps.{Holds, CameNamesKnown, line_to, next_after, PutsAnswer};
ghost use Rattle.live_session.specs.Steps.{AnswersLine, IsUnread, showing, shown_next};
ghost use Rattle.live_session.specs.Steps.{Counts, counting};

use crate::acting::Came;
use crate::caller::Caller;
use crate::desk::ShowDesk;
use crate::ending::SessionEnd;
use crate::head::put_head;
use crate::line::{Lines, bad_line, give_back};
use crate::own::{put_next, put_open, put_ping};
use crate::setting::Setting;
use coll_text::{put, send};
use hall_script::write_reply;
use hall_turn::{PassTo, Receipt, Receipts};
use std::sync::Wait;
use wall_labels::{NoMemory, Sink};
use wall_policy::Policy;

/// How a session goes on after a line.
#[derive(Clone, Copy)]
pub(crate) enum Next {
    /// It acts on the next line. This one made a call, and its reply is told.
    Replied,
    /// It acts on the next line. This one asked for no call.
    GoesOn,
    /// It ends: the line said `leave`.
    Left,
    /// It ends: the line's call was not made.
    Exhausted,
    /// It ends: what came of the line's call is not told.
    Unbooked,
}

// Puts the line that answers what came of a line, and says how the session goes on.
fn put_came(policy: &Policy, came: &Came, text: &mut Vec<u8>) -> Result<Next, NoMemory>
    requires known { CameNamesKnown policy.now came.now }
    requires none { text.old.items ≡ [] }
    ensures text { IfOk result (λ next. text.new.items ≡ line_to policy.now came.now) }
    ensures next { IfOk result (λ next. next ≡ next_after came.now) }
{
    match came {
        Came::Reply(reply) => match write_reply(policy, reply, text) {
            Ok(()) => Ok(Next::Replied),
            Err(refused) => Err(refused),
        },
        Came::Head(head) => match put_head(text, head) {
            Ok(()) => Ok(Next::GoesOn),
            Err(refused) => Err(NoMemory::from(refused)),
        },
        Came::Pong(number) => match put_ping(text, *number) {
            Ok(()) => Ok(Next::GoesOn),
            Err(refused) => Err(NoMemory::from(refused)),
        },
        Came::Open(requests) => match put_open(text, requests) {
            Ok(()) => Ok(Next::GoesOn),
            Err(refused) => Err(NoMemory::from(refused)),
        },
        Came::Next(request) => match put_next(text, *request) {
            Ok(()) => Ok(Next::GoesOn),
            Err(refused) => Err(NoMemory::from(refused)),
        },
        Came::Left => match put(text, "left\n") {
            Ok(()) => Ok(Next::Left),
            Err(refused) => Err(NoMemory::from(refused)),
        },
        Came::Exhausted => match put(text, "exhausted\n") {
            Ok(()) => Ok(Next::Exhausted),
            Err(refused) => Err(NoMemory::from(refused)),
        },
        Came::Unbooked => match put(text, "unbooked\n") {
            Ok(()) => Ok(Next::Unbooked),
            Err(refused) => Err(NoMemory::from(refused)),
        },
    }
}

// Where a reply comes next, the desk is shown the receipt of its call.
fn show_receipt<T: Receipt, S: ShowDesk<O, T>, O: Sink>(
    receipt: &Option<T>,
    next: Next,
    source: &mut S,
    sink: &O,
)
    ensures unread { IsUnread S.failures S.remaining S.heard source.old source.new }
    ensures shows { Tells (S.heard source.old).shows (S.heard source.new).shows
        (shown_next next (option_map T.covers receipt.now) (O.contents sink.now)) }
{
    match next {
        Next::Replied => match receipt {
            Some(receipt) => source.show(sink, receipt),
            None => {}
        },
        Next::GoesOn => {}
        Next::Left => {}
        Next::Exhausted => {}
        Next::Unbooked => {}
    }
}

impl<'s, R: Wait, M: Receipts<T>, T: Receipt + Drop> Setting<'s, R, M, T> {
    // Acts on a finished line, and puts its answer.
    fn put_answer(
        &self,
        pass: &mut PassTo<M>,
        caller: &mut Caller<T>,
        lines: &mut Lines,
    ) -> Result<Next, NoMemory>
        requires door { pass.old.door ≡ self.now.door.now }
        requires legal { Legal self.now.policy.now pass.old.seen }
        requires none { lines.old.text.items ≡ [] }
        requires counts { Counts self.now.most caller.old.calls pass.old }
        requires keeps { Keeps caller.old.seat.requests pass.old }
        ensures same { IsSamePass pass.old pass.new }
        ensures legal { Legal self.now.policy.now pass.new.seen }
        ensures puts { (bytes : List ℕ) → Holds lines.old.line bytes →
            PutsAnswer (Stood M.stands M.booked) self.now.most self.now.policy.now pass.old
            (said self.now.policy.now.dataset_names bytes) lines.new.text.items
            (option_map T.covers caller.old.receipt) (option_map T.covers caller.new.receipt)
            (counting caller.old.calls caller.new.calls) pass.new result }
        ensures counts { Counts self.now.most caller.new.calls pass.new }
        ensures keeps { Keeps caller.new.seat.requests pass.new }
    {
        match lines.line.read(self.alloc, self.policy) {
            Ok(Ok(ask)) => match self.act_on(pass, caller, ask) {
                Ok(came) => put_came(self.policy, &came, &mut lines.text),
                Err(refused) => Err(refused),
            },
            Ok(Err(bad)) => match put(&mut lines.text, bad_line(bad)) {
                Ok(()) => Ok(Next::GoesOn),
                Err(refused) => Err(NoMemory::from(refused)),
            },
            Err(refused) => Err(refused),
        }
    }

    /// Acts on a finished line, and writes its answer. The desk is shown the receipt of its last
    /// call before a reply is written; that receipt stays until the next call.
    pub(crate) fn answer_line<S: ShowDesk<O, T>, O: Sink>(
        &self,
        pass: &mut PassTo<M>,
        caller: &mut Caller<T>,
        lines: &mut Lines,
        source: &mut S,
        sink: &mut O,
    ) -> Result<(), SessionEnd>
        requires door { pass.old.door ≡ self.now.door.now }
        requires legal { Legal self.now.policy.now pass.old.seen }
        requires none { lines.old.text.items ≡ [] }
        requires counts { Counts self.now.most caller.old.calls pass.old }
        requires keeps { Keeps caller.old.seat.requests pass.old }
        ensures none { OnOk result (lines.new.text.items ≡ []) }
        ensures same { IsSamePass pass.old pass.new }
        ensures legal { Legal self.now.policy.now pass.new.seen }
        ensures unread { IsUnread S.failures S.remaining S.heard source.old source.new }
        ensures answers { (bytes : List ℕ) → Holds lines.old.line bytes →
            AnswersLine (Stood M.stands M.booked) self.now.most self.now.policy.now pass.old
            (said self.now.policy.now.dataset_names bytes)
            (showing S.heard source.old source.new
            (option_map T.covers caller.old.receipt) (option_map T.covers caller.new.receipt))
            (used O.failures O.contents sink.old sink.new)
            (counting caller.old.calls caller.new.calls) pass.new result }
        ensures counts { Counts self.now.most caller.new.calls pass.new }
        ensures keeps { Keeps caller.new.seat.requests pass.new }
    {
        let next = match self.put_answer(pass, caller, lines) {
            Ok(next) => next,
            Err(refused) => return Err(SessionEnd::from(refused)),
        };
        show_receipt(&caller.receipt, next, source, sink);
        match send(&mut lines.text, sink) {
            Ok(()) => {
                give_back(self.alloc, &mut lines.text);
                match next {
                    Next::Replied => Ok(()),
                    Next::GoesOn => Ok(()),
                    Next::Left => Err(SessionEnd::Left),
                    Next::Exhausted => Err(SessionEnd::Exhausted),
                    Next::Unbooked => Err(SessionEnd::Unbooked),
                }
            }
            Err(_) => Err(SessionEnd::WriteFailed),
        }
    }
}
