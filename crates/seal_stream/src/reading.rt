//! What is known of a book behind its finished lines.
ghost use Rattle.std.specs.Prelude.{◌≡◌, ◌<◌, ◌^◌, ◌+◌, ◌∷◌, ◌++◌, [], List, false, length};
ghost use Rattle.std.specs.Prelude.{Ok, IfOk, IfErr, OnOk, OnErr, is_none};
ghost use Rattle.std.specs.List.{join_with_byte};
ghost use Rattle.run_model.specs.declared.entry.Entry.{Entry as BookEntry};
ghost use Rattle.run_model.specs.EntryForms.{HasForm};
ghost use Rattle.coll_text.specs.Numbers.{Word};
ghost use Rattle.audit_book.specs.declared.line.Line.TheVariants.{Said, End};
ghost use Rattle.audit_book.specs.Audits.{HasSeen, IsUnderWay};
ghost use Rattle.audit_book.specs.Lines.{line_at};
ghost use Rattle.audit_book.specs.Text.{end_words};
ghost use Rattle.book_stream.specs.Cuts.{line_limit};
ghost use Rattle.book_stream.specs.Readings.{SayEntries};
ghost use Rattle.seal_stream.specs.declared.reading.Stage.TheVariants.{Header, Entry as AtEntry};
ghost use Rattle.seal_stream.specs.declared.reading.Stage.TheVariants.{Ended};
ghost use Rattle.seal_stream.specs.Steps.{StepsTo, IsJudged, HasJudged, IsReading, kept_if};
ghost use Rattle.seal_stream.specs.Steps.{GoesOn, StopsAt, IsTooLong};

use crate::stop::SealStop;
use audit_book::{Audit, BookFault, ENTRY_LIMIT, Line, header_text, read_line};
use coll_text::Memory;
use run_model::Entry;
use std::alloc::Global;
use wall_labels::NoMemory;
use wall_policy::Policy;

/// Which line comes next.
#[derive(Clone, Copy, Debug, PartialEq, Eq)]
pub(crate) enum Stage {
    Header,
    /// An entry, or the end.
    Entry,
    /// None: the end has come.
    Ended,
}

/// What is known behind the finished lines: which line comes next, how many entries there were, and
/// that a sound book begins so, or the first entry with which none does. Where memory ran out, that
/// is known. The lines up to there are kept but for the end, and the audit has gone through them.
#[derive(Drop)]
pub(crate) struct Reading {
    pub(crate) stage: Stage,
    pub(crate) audit: Audit,
    pub(crate) fault: Option<BookFault>,
    pub(crate) entries: u64,
}

// Goes on by an entry, and tells its fault. It has this number.
fn step(
    alloc: Global,
    policy: &Policy,
    audit: &mut Audit,
    entry: &Entry,
    number: u64,
) -> Option<BookFault>
    requires under_way { IsUnderWay policy.now audit.old }
    requires form { HasForm entry.now }
    ensures { (entries : List BookEntry) → HasSeen policy.now audit.old entries →
        number ≡ length entries + 1 → length entries < 2 ^ 62 →
        StepsTo policy.now audit.new result entries entry.now }
{
    match audit.step(alloc, policy, entry) {
        Ok(step) => {
            drop(step);
            None
        }
        Err(fault) => Some(fault.at(number)),
    }
}

// Judges an entry, which may lack what there was no room for.
fn judge(
    alloc: Global,
    policy: &Policy,
    reading: &mut Reading,
    entry: &Entry,
    memory: Memory,
) -> Option<BookFault>
    requires reading { IsReading policy.now reading.old }
    requires form { HasForm entry.now }
    requires few { reading.old.entries < 2 ^ 62 }
    ensures judged { (entries : List BookEntry) (said : BookEntry) (lines kept : List Word)
        (line : Word) → reading.old.entries ≡ length entries → length entries < 2 ^ 62 →
        SayEntries policy.now lines entries →
        IsJudged policy.now AtEntry reading.old.audit reading.old.fault lines kept entries →
        (memory ≡ false → entry.now ≡ said) →
        IsJudged policy.now AtEntry reading.new.audit result (lines ++ line ∷ [])
        (kept_if (is_none result) kept line) (entries ++ said ∷ []) }
    ensures stage { reading.new.stage ≡ reading.old.stage }
    ensures number { reading.new.entries ≡ reading.old.entries }
{
    if let Some(fault) = reading.fault {
        return Some(fault);
    }
    match memory.end() {
        Ok(()) => {}
        Err(refused) => return Some(BookFault::from(refused)),
    }
    step(
        alloc,
        policy,
        &mut reading.audit,
        entry,
        reading.entries + 1,
    )
}

// The fault of the entries where the end stands behind them: a verdict may be missing before it.
fn fault_at_end(policy: &Policy, reading: &Reading) -> Option<BookFault>
    requires few { reading.now.entries < 2 ^ 62 }
    ensures { (entries : List BookEntry) (lines kept : List Word) (line : Word) →
        reading.now.entries ≡ length entries → SayEntries policy.now lines entries →
        IsJudged policy.now AtEntry reading.now.audit reading.now.fault lines kept entries →
        line ≡ join_with_byte 32 (end_words (length entries)) →
        IsJudged policy.now Ended reading.now.audit result (lines ++ line ∷ []) kept entries }
{
    let _ = policy;
    if let Some(fault) = reading.fault {
        return Some(fault);
    }
    match reading.audit.due() {
        None => None,
        Some(_) => Some(BookFault::BadEntry(reading.entries + 1)),
    }
}

// Takes the first line.
fn take_header(policy: &Policy, reading: &mut Reading, line: &[u8]) -> Result<bool, SealStop>
    requires stage { reading.old.stage ≡ Header }
    ensures taken { IfOk result (GoesOn policy.now reading.old reading.new line.now) }
    ensures stop { IfErr result (StopsAt policy.now reading.old line.now) }
    ensures stays { OnErr result (reading.new ≡ reading.old) }
{
    if line != header_text(policy).as_bytes() {
        return Err(SealStop::BadLine(1));
    }
    reading.stage = Stage::Entry;
    Ok(true)
}

// Takes an entry, which may lack what there was no room for.
fn take_entry(
    alloc: Global,
    policy: &Policy,
    reading: &mut Reading,
    entry: &Entry,
    memory: Memory,
) -> bool
    requires reading { IsReading policy.now reading.old }
    requires form { HasForm entry.now }
    requires stage { reading.old.stage ≡ AtEntry }
    requires few { reading.old.entries < 2 ^ 62 }
    ensures { (said : BookEntry) (line : Word) → (memory ≡ false → entry.now ≡ said) →
        line_at policy.now line ≡ Ok (Said said) →
        GoesOn policy.now reading.old reading.new line result }
{
    reading.fault = judge(alloc, policy, reading, entry, memory);
    reading.entries += 1;
    reading.fault.is_none()
}

// Takes the end of so many entries. It is not kept: the seal's own is put there at last.
fn take_end(policy: &Policy, reading: &mut Reading, number: u64) -> Result<(), SealStop>
    requires stage { reading.old.stage ≡ AtEntry }
    requires few { reading.old.entries < 2 ^ 62 }
    ensures taken { OnOk result ((line : Word) →
        line_at policy.now line ≡ Ok (End number) →
        GoesOn policy.now reading.old reading.new line false) }
    ensures stop { IfErr result (λ stop. (line : Word) →
        line_at policy.now line ≡ Ok (End number) → StopsAt policy.now reading.old line stop) }
    ensures stays { OnErr result (reading.new ≡ reading.old) }
{
    if number != reading.entries {
        return Err(SealStop::BadLine(reading.entries + 2));
    }
    reading.fault = fault_at_end(policy, reading);
    reading.stage = Stage::Ended;
    Ok(())
}

// Takes a line behind the header.
fn take_behind(
    alloc: Global,
    policy: &Policy,
    reading: &mut Reading,
    line: &[u8],
) -> Result<bool, SealStop>
    requires reading { IsReading policy.now reading.old }
    requires stage { reading.old.stage ≡ AtEntry }
    ensures taken { IfOk result (GoesOn policy.now reading.old reading.new line.now) }
    ensures stop { IfErr result (StopsAt policy.now reading.old line.now) }
    ensures stays { OnErr result (reading.new ≡ reading.old) }
{
    if reading.entries >= ENTRY_LIMIT {
        return Err(SealStop::TooMany);
    }
    let mut memory = Memory::new(alloc);
    match read_line(&mut memory, policy, line) {
        Ok(Line::Said(entry)) => {
            let is_kept = take_entry(alloc, policy, reading, &entry, memory);
            drop(entry);
            Ok(is_kept)
        }
        Ok(Line::End(number)) => match take_end(policy, reading, number) {
            Ok(()) => Ok(false),
            Err(stop) => Err(stop),
        },
        Err(_) => Err(SealStop::BadLine(reading.entries + 2)),
    }
}

impl Reading {
    /// Behind no line.
    pub(crate) fn begin(alloc: Global, policy: &Policy) -> Result<Reading, NoMemory>
        ensures { IfOk result (λ reading. HasJudged policy.now reading [] []) }
    {
        let audit = Audit::begin(alloc, policy)?;
        Ok(Reading {
            stage: Stage::Header,
            audit,
            fault: None,
            entries: 0,
        })
    }

    /// Takes a finished line, without its LF, and tells whether it is kept.
    pub(crate) fn take_line(
        &mut self,
        alloc: Global,
        policy: &Policy,
        line: &[u8],
    ) -> Result<bool, SealStop>
        requires reading { IsReading policy.now self.old }
        ensures taken { IfOk result (GoesOn policy.now self.old self.new line.now) }
        ensures stop { IfErr result (StopsAt policy.now self.old line.now) }
        ensures stays { OnErr result (self.new ≡ self.old) }
    {
        match self.stage {
            Stage::Header => take_header(policy, self, line),
            Stage::Entry => take_behind(alloc, policy, self, line),
            Stage::Ended => Err(SealStop::BadLine(self.entries + 3)),
        }
    }

    /// Why a line above the limit is not taken.
    pub(crate) fn long_line(&self, policy: &Policy) -> SealStop
        requires reading { IsReading policy.now self.now }
        ensures { (line : Word) → line_limit < length line →
            IsTooLong policy.now self.now line result }
    {
        let _ = policy;
        match self.stage {
            Stage::Header => SealStop::LongLine(1),
            Stage::Entry => SealStop::LongLine(self.entries + 2),
            Stage::Ended => SealStop::LongLine(self.entries + 3),
        }
    }
}
