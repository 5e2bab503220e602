//! Judges the lines of a book as they are finished, and writes those that are kept.
ghost use Rattle.std.specs.Prelude.{◌≡◌, ◌∷◌, ◌++◌, [], List, ℕ, Option, OnOk, OnErr, IfOk, IfErr};
ghost use Rattle.wall_labels.specs.Known.{AppendsPrefix};
ghost use Rattle.coll_text.specs.Numbers.{Word};
ghost use Rattle.coll_text.specs.Reading.{parts};
ghost use Rattle.coll_text.specs.Writing.{Moves};
ghost use Rattle.book_stream.specs.Cuts.{behind};
ghost use Rattle.seal_stream.specs.Steps.{line_if, StandsBehind, IsStanding, IsFailing};
ghost use Rattle.seal_stream.specs.Steps.{IsUnwritten, TakesOne, TakesIn, Stops};

use crate::line::Unfinished;
use crate::reading::Reading;
use crate::stop::SealStop;
use coll_text::{Parts, send_long};
use std::alloc::Global;
use wall_labels::{NoMemory, Sink};
use wall_policy::Policy;

/// What is known behind the finished lines, the line that is not finished, and the end of what is
/// kept, which is not written out yet.
#[derive(Drop)]
pub(crate) struct Writer {
    pub(crate) reading: Reading,
    pub(crate) line: Unfinished,
    pub(crate) pending: Vec<u8>,
}

/// Behind no line.
pub(crate) fn begin(alloc: Global, policy: &Policy) -> Result<Writer, NoMemory>
    ensures { IfOk result (λ writer. (before : Option (List ℕ)) →
        StandsBehind policy.now writer before before [] [] []) }
{
    let reading = Reading::begin(alloc, policy)?;
    let line = Unfinished::new(alloc);
    let pending = Vec::new(alloc);
    Ok(Writer {
        reading,
        line,
        pending,
    })
}

// Puts a line, with its LF, behind what is to be written, and writes that out where it is long.
fn put_line<W: Sink>(line: &[u8], pending: &mut Vec<u8>, sealed: &mut W) -> Result<(), SealStop>
    ensures went { OnOk result (W.failures sealed.new ≡ W.failures sealed.old) }
    ensures moved { OnOk result (Moves (W.contents sealed.old) (W.contents sealed.new)
        (pending.old.items ++ (line.now ++ 10 ∷ [])) pending.new.items) }
    ensures failed { IfErr result
        (λ stop. IsUnwritten stop (W.failures sealed.old) (W.failures sealed.new)) }
    ensures prefix { OnErr result (AppendsPrefix (W.contents sealed.old) (W.contents sealed.new)
        (pending.old.items ++ (line.now ++ 10 ∷ []))) }
{
    match pending.extend_from_slice(line) {
        Ok(()) => {}
        Err(refused) => return Err(SealStop::from(NoMemory::from(refused))),
    }
    match pending.push(b'\n') {
        Ok(()) => {}
        Err(refused) => return Err(SealStop::from(NoMemory::from(refused))),
    }
    match send_long(pending, sealed) {
        Ok(()) => Ok(()),
        Err(_) => Err(SealStop::Write),
    }
}

// Puts a line if it is kept.
fn put_if<W: Sink>(
    is_kept: bool,
    line: &[u8],
    pending: &mut Vec<u8>,
    sealed: &mut W,
) -> Result<(), SealStop>
    ensures went { OnOk result (W.failures sealed.new ≡ W.failures sealed.old) }
    ensures moved { OnOk result (Moves (W.contents sealed.old) (W.contents sealed.new)
        (pending.old.items ++ line_if is_kept line.now) pending.new.items) }
    ensures failed { IfErr result
        (λ stop. IsUnwritten stop (W.failures sealed.old) (W.failures sealed.new)) }
    ensures prefix { OnErr result (AppendsPrefix (W.contents sealed.old) (W.contents sealed.new)
        (pending.old.items ++ line_if is_kept line.now)) }
{
    if !is_kept {
        return Ok(());
    }
    put_line(line, pending, sealed)
}

// Takes the line that is finished now, and begins the next with these bytes.
fn take_one<W: Sink>(
    alloc: Global,
    policy: &Policy,
    writer: &mut Writer,
    next: &[u8],
    sealed: &mut W,
) -> Result<(), SealStop>
    requires { IsStanding policy.now writer.old (W.contents sealed.old) }
    ensures went { OnOk result (W.failures sealed.new ≡ W.failures sealed.old) }
    ensures failed { IfErr result
        (λ stop. IsFailing stop (W.failures sealed.old) (W.failures sealed.new)) }
    ensures taken { TakesOne policy.now writer.old writer.new (W.contents sealed.old)
        (W.contents sealed.new) next.now result }
{
    let Some(line) = writer.line.bytes() else {
        return Err(writer.reading.long_line(policy));
    };
    let is_kept = match writer.reading.take_line(alloc, policy, line) {
        Ok(is_kept) => is_kept,
        Err(stop) => return Err(stop),
    };
    match put_if(is_kept, line, &mut writer.pending, sealed) {
        Ok(()) => {}
        Err(stop) => return Err(stop),
    }
    match writer.line.begin(next) {
        Ok(()) => Ok(()),
        Err(refused) => Err(SealStop::from(NoMemory::from(refused))),
    }
}

/// Takes the lines that these bytes finish, and keeps the rest.
pub(crate) fn take_in<W: Sink>(
    alloc: Global,
    policy: &Policy,
    writer: &mut Writer,
    bytes: &[u8],
    sealed: &mut W,
) -> Result<(), SealStop>
    requires { IsStanding policy.now writer.old (W.contents sealed.old) }
    ensures went { OnOk result (W.failures sealed.new ≡ W.failures sealed.old) }
    ensures failed { IfErr result
        (λ stop. IsFailing stop (W.failures sealed.old) (W.failures sealed.new)) }
    ensures taken { (before : Option (List ℕ)) (lines kept : List Word) (line : Word) →
        StandsBehind policy.now writer.old before (W.contents sealed.old) lines kept line →
        TakesIn policy.now writer.new before (W.contents sealed.new) lines
        (behind line (parts 10 bytes.now)) result }
{
    let mut parts = Parts::new(bytes, b'\n');
    let Some(first) = parts.next_long() else {
        unreachable!()
    };
    match writer.line.add(first) {
        Ok(()) => {}
        Err(refused) => return Err(SealStop::from(NoMemory::from(refused))),
    }
    while let Some(part) = parts.next_long() {
        match take_one(alloc, policy, writer, part, sealed) {
            Ok(()) => {}
            Err(stop) => return Err(stop),
        }
    }
    Ok(())
}

/// Sees that the line which is not finished is not long already: of a source that gives no line
/// feed no more is read than a line may have.
pub(crate) fn see_long(policy: &Policy, writer: &Writer) -> Result<(), SealStop>
    requires { (before now : Option (List ℕ)) × (lines kept : List Word) × (line : Word)
        × StandsBehind policy.now writer.now before now lines kept line }
    ensures failed { IfErr result (λ stop. (failures : ℕ) → IsFailing stop failures failures) }
    ensures stops { IfErr result (λ stop. (before now : Option (List ℕ)) (lines kept : List Word)
        (line : Word) → StandsBehind policy.now writer.now before now lines kept line →
        Stops policy.now writer.now before now (lines ++ line ∷ []) stop) }
{
    if writer.line.is_long {
        return Err(writer.reading.long_line(policy));
    }
    Ok(())
}
