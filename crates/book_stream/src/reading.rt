//! What is known of a book behind its finished lines.
ghost use Rattle.std.specs.Prelude.{◌≡◌, ◌≢◌, ◌<◌, ◌^◌, ◌+◌, ◌∷◌, ◌++◌, [], List, false, length};
ghost use Rattle.std.specs.Prelude.{IfOk, IfErr, OnOk, IfSome, None};
ghost use Rattle.wall_policy.specs.Policy.{ChineseWall};
ghost use Rattle.run_model.specs.declared.entry.Entry.{Entry as BookEntry};
ghost use Rattle.run_model.specs.EntryForms.{HasForm};
ghost use Rattle.coll_text.specs.Numbers.{Word};
ghost use Rattle.audit_book.specs.Audits.{HasSeen, IsUnderWay};
ghost use Rattle.book_stream.specs.declared.reading.Stage.TheVariants.{Header, Entry as AtEntry};
ghost use Rattle.book_stream.specs.declared.reading.Stage.TheVariants.{Ended};
ghost use Rattle.book_stream.specs.Cuts.{line_limit};
ghost use Rattle.book_stream.specs.Readings.{IsJudged, HasRead, IsReading, IsBadBehind};
ghost use Rattle.book_stream.specs.Readings.{GoesOn, StopsAt};

use crate::fault::AuditFault;
use audit_book::{Audit, BookFault, ENTRY_LIMIT, Line, header_text, read_line};
use coll_text::Memory;
use run_model::Entry;
use std::alloc::Global;
use wall_labels::NoMemory;
use wall_policy::Policy;

/// Which line comes next.
#[derive(Clone, Copy, Debug, PartialEq, Eq)]
pub(crate) enum Stage {
    Header,
    /// An entry, or the end.
    Entry,
    /// None: the end has come.
    Ended,
}

/// What is known behind the finished lines: which line comes next, how many entries there were, and
/// that their posts give them, or the first that they don't. Where memory ran out, that is known.
#[derive(Drop)]
pub(crate) struct Reading {
    pub(crate) stage: Stage,
    pub(crate) audit: Audit,
    pub(crate) fault: Option<BookFault>,
    pub(crate) entries: u64,
}

// Goes on by an entry, and tells its fault. It has this number.
fn step(
    alloc: Global,
    policy: &Policy,
    audit: &mut Audit,
    entry: &Entry,
    number: u64,
) -> Option<BookFault>
    requires under_way { IsUnderWay policy.now audit.old }
    requires form { HasForm entry.now }
    ensures { (entries : List BookEntry) → HasSeen policy.now audit.old entries →
        number ≡ length entries + 1 → length entries < 2 ^ 62 →
        IsJudged policy.now audit.new result (entries ++ entry.now ∷ []) }
{
    match audit.step(alloc, policy, entry) {
        Ok(step) => {
            drop(step);
            None
        }
        Err(fault) => Some(fault.at(number)),
    }
}

// Judges an entry, which may lack what there was no room for.
fn judge(
    alloc: Global,
    policy: &Policy,
    reading: &mut Reading,
    entry: &Entry,
    memory: Memory,
) -> Option<BookFault>
    requires reading { (entries : List BookEntry) × (length entries < 2 ^ 62)
        × IsJudged policy.now reading.old.audit reading.old.fault entries }
    requires few { reading.old.entries < 2 ^ 62 }
    requires form { HasForm entry.now }
    ensures judged { (entries : List BookEntry) (said : BookEntry) →
        reading.old.entries ≡ length entries → length entries < 2 ^ 62 →
        IsJudged policy.now reading.old.audit reading.old.fault entries →
        (memory ≡ false → entry.now ≡ said) →
        IsJudged policy.now reading.new.audit result (entries ++ said ∷ []) }
    ensures stage { reading.new.stage ≡ reading.old.stage }
    ensures number { reading.new.entries ≡ reading.old.entries }
{
    if let Some(fault) = reading.fault {
        return Some(fault);
    }
    match memory.end() {
        Ok(()) => {}
        Err(refused) => return Some(BookFault::from(refused)),
    }
    step(
        alloc,
        policy,
        &mut reading.audit,
        entry,
        reading.entries + 1,
    )
}

// Takes the first line.
fn take_header(policy: &Policy, reading: &mut Reading, line: &[u8]) -> Result<(), AuditFault>
    requires stage { reading.old.stage ≡ Header }
    ensures read { OnOk result (GoesOn policy.now reading.old reading.new line.now) }
    ensures fault { IfErr result (StopsAt policy.now reading.old line.now) }
{
    if line != header_text(policy).as_bytes() {
        return Err(AuditFault::BadLine(1));
    }
    reading.stage = Stage::Entry;
    Ok(())
}

// Takes a line behind the header.
fn take_entry(
    alloc: Global,
    policy: &Policy,
    reading: &mut Reading,
    line: &[u8],
) -> Result<(), AuditFault>
    requires reading { IsReading policy.now reading.old }
    requires stage { reading.old.stage ≡ AtEntry }
    ensures read { OnOk result (GoesOn policy.now reading.old reading.new line.now) }
    ensures fault { IfErr result (StopsAt policy.now reading.old line.now) }
{
    if reading.entries >= ENTRY_LIMIT {
        return Err(AuditFault::TooMany);
    }
    let mut memory = Memory::new(alloc);
    match read_line(&mut memory, policy, line) {
        Ok(Line::Said(entry)) => {
            reading.fault = judge(alloc, policy, reading, &entry, memory);
            reading.entries += 1;
            drop(entry);
            Ok(())
        }
        Ok(Line::End(number)) => {
            if number != reading.entries {
                return Err(AuditFault::BadLine(reading.entries + 2));
            }
            reading.stage = Stage::Ended;
            Ok(())
        }
        Err(_) => Err(AuditFault::BadLine(reading.entries + 2)),
    }
}

impl Reading {
    /// Behind no line.
    pub(crate) fn begin(alloc: Global, policy: &Policy) -> Result<Reading, NoMemory>
        ensures { IfOk result (λ reading. HasRead policy.now reading []) }
    {
        let audit = Audit::begin(alloc, policy)?;
        Ok(Reading {
            stage: Stage::Header,
            audit,
            fault: None,
            entries: 0,
        })
    }

    /// Takes a finished line, without its LF.
    pub(crate) fn take_line(
        &mut self,
        alloc: Global,
        policy: &Policy,
        line: &[u8],
    ) -> Result<(), AuditFault>
        requires reading { IsReading policy.now self.old }
        ensures read { OnOk result (GoesOn policy.now self.old self.new line.now) }
        ensures fault { IfErr result (StopsAt policy.now self.old line.now) }
    {
        match self.stage {
            Stage::Header => take_header(policy, self, line),
            Stage::Entry => take_entry(alloc, policy, self, line),
            Stage::Ended => Err(AuditFault::BadLine(self.entries + 3)),
        }
    }

    /// Why a finished line above the limit is not taken.
    pub(crate) fn long_line(&self, policy: &Policy) -> AuditFault
        requires reading { IsReading policy.now self.now }
        ensures { (line : Word) → line_limit < length line →
            StopsAt policy.now self.now line result }
    {
        let _ = policy;
        match self.stage {
            Stage::Header => AuditFault::LongLine(1),
            Stage::Entry => AuditFault::LongLine(self.entries + 2),
            Stage::Ended => AuditFault::BadLine(self.entries + 3),
        }
    }
}
