//! Answers calls from a hall, and tells the members of an instance that get the same one line.
ghost use Rattle.std.specs.Prelude.{◌≡◌, ◌≢◌, ◌++◌, ◌<◌, ◌≤◌, List, [], length, IfOk, IfErr, OnOk};
ghost use Rattle.std.specs.Prelude.{OnErr};
ghost use Rattle.wall_policy.specs.Policy.{ChineseWall};
ghost use Rattle.mpi_elems.specs.Contents.{Contents};
ghost use Rattle.run_model.specs.Contributions.{Contribution};
ghost use Rattle.run_model.specs.declared.reply.Reply.{Reply};
ghost use Rattle.hall_core.specs.Halls.{HallValue, StandsFor, view_of};
ghost use Rattle.hall_core.specs.Claims.{to_take};
ghost use Rattle.hall_core.specs.Looks.{CanDeliver, GoesOn, IsDue};
ghost use Rattle.hall_script.specs.Answering.{HasFinished, HasStopped};
ghost use Rattle.hall_script.specs.Replies.{reply_line};
ghost use Rattle.hall_script.specs.Scripts.{script_of};
ghost use Rattle.hall_script.specs.Telling.{tells_alike as alike, IsToldAlike, AreRight, IsShown};
ghost use Rattle.hall_script.specs.Telling.{delivery_if, IsRight, TellsRun};

use crate::answer::answered;
use crate::answerer::Answerer;
use crate::copies::write_delivery;
use crate::fault::ScriptFault;
use crate::kept::KeptLines;
use crate::reply::write_reply;
use coll_routes::{Signature, places};
use coll_values::Full;
use hall_core::{Due, Hall, Open};
use mpi_elems::Buffer;
use run_model::{Call, Reply};
use std::alloc::Global;
use wall_labels::{NoMemory, Sink};
use wall_policy::Policy;

/// A hall, with lines for the members of instances that are still to be told.
pub(crate) struct Teller {
    hall: Hall,
    lines: KeptLines,
}

// By hand: a derived one would take the hall apart.
impl Drop for Teller {
    fn drop(self) {
        let Teller { hall, lines } = self;
        drop(hall);
        drop(lines);
    }
}

impl Teller {
    /// One with no lines.
    pub fn new(alloc: Global, hall: Hall) -> Teller
        ensures hall { result.hall ≡ hall }
        ensures begins { StandsFor hall [] → TellsRun result [] }
    {
        Teller {
            hall,
            lines: KeptLines::new(alloc),
        }
    }

    /// Its hall.
    pub fn into_hall(self) -> Hall
        ensures { result ≡ self.hall }
    {
        let Teller { hall, lines } = self;
        drop(lines);
        hall
    }
}

impl Teller {
    // How many lines are kept.
    fn kept(&self) -> usize {
        self.lines.number()
    }
}

/// Answers the lines of a script from a hall and writes their replies, as `replay` does, and gives
/// with the hall how many lines are still kept for members who are to be told the same as others.
///
/// That number is for tests: no clause says which lines a replay keeps.
pub fn answered_with_kept<W: Sink>(
    alloc: Global,
    hall: Hall,
    script: &[u8],
    sink: &mut W,
) -> Result<(Hall, usize), ScriptFault>
    requires bounded { length script.now ≤ 16777216 }
    requires begins { StandsFor hall [] }
    ensures finished { let wall = hall.policy in
        IfOk result (λ it. HasFinished StandsFor (λ (h : HallValue). h.policy) wall
        (W.contents sink.old) (W.contents sink.new) (W.failures sink.old) (W.failures sink.new)
        (script_of wall.dataset_names script.now) it.0) }
    ensures stopped { let wall = hall.policy in
        IfErr result (HasStopped StandsFor wall (W.contents sink.old) (W.contents sink.new)
        (W.failures sink.old) (W.failures sink.new) (script_of wall.dataset_names script.now)) }
{
    match answered(alloc, Teller::new(alloc, hall), script, sink) {
        Ok(teller) => {
            let kept = teller.kept();
            Ok((teller.into_hall(), kept))
        }
        Err(fault) => Err(fault),
    }
}

/// Answers the lines of a script from a hall, writes their replies, and gives the hall back.
pub(crate) fn answered_from<W: Sink>(
    alloc: Global,
    hall: Hall,
    script: &[u8],
    sink: &mut W,
) -> Result<Hall, ScriptFault>
    requires bounded { length script.now ≤ 16777216 }
    requires begins { StandsFor hall [] }
    ensures finished { let wall = hall.policy in
        IfOk result (HasFinished StandsFor (λ (h : HallValue). h.policy) wall
        (W.contents sink.old) (W.contents sink.new) (W.failures sink.old) (W.failures sink.new)
        (script_of wall.dataset_names script.now)) }
    ensures stopped { let wall = hall.policy in
        IfErr result (HasStopped StandsFor wall (W.contents sink.old) (W.contents sink.new)
        (W.failures sink.old) (W.failures sink.new) (script_of wall.dataset_names script.now)) }
{
    match answered_with_kept(alloc, hall, script, sink) {
        Ok((hall, _)) => Ok(hall),
        Err(fault) => Err(fault),
    }
}

impl Teller {
    // Closes a request that was told what it is due. The line that is kept for its instance goes
    // with the last.
    fn close(&mut self, it: Open)
        requires { (got : Reply) × IsDue (view_of self.old.hall) it got }
        ensures wall { self.new.hall.policy ≡ self.old.hall.policy }
        ensures runs { (got : Reply) → IsDue (view_of self.old.hall) it got →
            GoesOn self.old.hall self.new.hall (to_take it.process it.request) got }
        ensures right { (wall : ChineseWall) (past : List (Contribution Contents)) →
            AreRight wall past self.old.lines → AreRight wall past self.new.lines }
    {
        self.hall.close(it);
        if it.others != 0 {
            return;
        }
        self.lines.let_go(it.comm, it.k);
    }
}

impl Answerer for Teller {
    ghost stands = { TellsRun };

    ghost wall = { λ t. t.hall.policy };

    fn policy(&self) -> &Policy {
        self.hall.policy()
    }

    fn apply(&mut self, call: Call) -> Reply {
        self.hall.apply(call)
    }

    fn take(&mut self, process: u32, request: u64, text: &mut Vec<u8>) -> Result<(), NoMemory> {
        match self.hall.look(process, request) {
            Due::Told(reply) => write_reply(self.hall.policy(), &reply, text),
            Due::Outcome(reply, it) => {
                write_reply(self.hall.policy(), &reply, text)?;
                self.close(it);
                Ok(())
            }
            Due::Granted {
                full,
                rank,
                open: it,
            } => {
                let policy = self.hall.policy();
                if !tell(&mut self.lines, policy, full, rank, it, text)? {
                    return Ok(());
                }
                self.close(it);
                Ok(())
            }
        }
    }
}

// Whether each rank gets the same that gets any.
#[tactic(auto, unfolding(crate::specs::Telling::tells_alike))]
fn tells_alike(sig: &Signature) -> bool
    ensures { result ≡ alike sig.now }
{
    match sig {
        Signature::Bcast { .. } => true,
        Signature::Allgather { .. } => true,
        Signature::Allgatherv { .. } => true,
        Signature::Allreduce { .. } => true,
        _ => false,
    }
}

// How many ranks of such an instance get nothing: the root of a broadcast.
fn idle_ranks(sig: &Signature) -> u32 {
    match sig.root() {
        Some(_) => 1,
        None => 0,
    }
}

// How many other ranks get the same as this one; none where they may get something else.
fn others_in(full: &Full<Buffer>, rank: u32) -> u32
    requires { rank < full.now.roll.shape.size }
    ensures { result ≢ 0 → IsToldAlike full.now rank }
{
    if tells_alike(&full.roll.sig) && places(&full.roll, rank) != 0 {
        (full.roll.shape.size - 1).saturating_sub(idle_ranks(&full.roll.sig))
    } else {
        0
    }
}

// Appends a line.
fn put_told(text: &mut Vec<u8>, line: &[u8]) -> Result<(), NoMemory>
    ensures ok { OnOk result (text.new.items ≡ text.old.items ++ line.now) }
    ensures err { OnErr result (text.new.items ≡ text.old.items) }
{
    match text.extend_from_slice(line) {
        Ok(()) => Ok(()),
        Err(refused) => Err(NoMemory::from(refused)),
    }
}

// Appends the line of what a rank gets of an instance that was granted: the one that is kept for
// all who get the same, if there is one. False where there was no memory for the delivery, which
// the line then says.
fn tell(
    lines: &mut KeptLines,
    policy: &Policy,
    full: &Full<Buffer>,
    rank: u32,
    it: Open,
    text: &mut Vec<u8>,
) -> Result<bool, NoMemory>
    requires { CanDeliver full.now rank }
    ensures told { (wall : ChineseWall) (past : List (Contribution Contents)) →
        AreRight wall past lines.old → IsShown wall past (it.comm, it.k) full.now →
        IfOk result (λ done. text.new.items
        ≡ text.old.items ++ reply_line policy.now (delivery_if done full.now rank)) }
    ensures right { (wall : ChineseWall) (past : List (Contribution Contents)) →
        AreRight wall past lines.old → IsShown wall past (it.comm, it.k) full.now →
        AreRight wall past lines.new }
    ensures err { OnErr result (text.new.items ≡ text.old.items) }
    ensures unchanged { OnErr result (lines.new ≡ lines.old) }
{
    let others = others_in(full, rank);
    if others == 0 {
        return write_delivery(policy, full, rank, text);
    }
    match lines.find(it.comm, it.k) {
        Some(line) => {
            put_told(text, line)?;
            lines.told(it.comm, it.k);
            Ok(true)
        }
        None => tell_first(lines, policy, full, rank, it, u64::from(others), text),
    }
}

// Appends the line of what a rank gets where none is kept. It is kept then, for so many others at
// most, where requests are still open.
fn tell_first(
    lines: &mut KeptLines,
    policy: &Policy,
    full: &Full<Buffer>,
    rank: u32,
    it: Open,
    others: u64,
    text: &mut Vec<u8>,
) -> Result<bool, NoMemory>
    requires can { CanDeliver full.now rank }
    requires alike { IsToldAlike full.now rank }
    ensures told { IfOk result (λ done. text.new.items
        ≡ text.old.items ++ reply_line policy.now (delivery_if done full.now rank)) }
    ensures right { (wall : ChineseWall) (past : List (Contribution Contents)) →
        AreRight wall past lines.old → IsShown wall past (it.comm, it.k) full.now →
        AreRight wall past lines.new }
    ensures err { OnErr result (text.new.items ≡ text.old.items) }
    ensures unchanged { OnErr result (lines.new ≡ lines.old) }
{
    let len = text.len();
    let done = write_delivery(policy, full, rank, text)?;
    if !done {
        return Ok(false);
    }
    // Whose requests are open is not known: that of one who gets nothing may be among them.
    keep_for(lines, it, it.others.min(others), &text[len..]);
    Ok(true)
}

// Keeps the line of a request's instance for so many others at most, if there are any.
fn keep_for(lines: &mut KeptLines, it: Open, left: u64, line: &[u8])
    ensures { (wall : ChineseWall) (past : List (Contribution Contents)) →
        AreRight wall past lines.old → IsRight wall past it.comm it.k line.now →
        AreRight wall past lines.new }
{
    if left == 0 {
        return;
    }
    lines.keep(it.comm, it.k, left, line);
}
