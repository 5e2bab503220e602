//! Seals what a source has to give, while it is read.
ghost use Rattle.std.specs.Prelude.{◌≡◌, [], List, ℕ, Option, IfOk, IfErr, OnOk};
ghost use Rattle.hall_script.specs.Devices.{used};
ghost use Rattle.seal_stream.specs.Seals.{IsSealedTo, IsStopped};
ghost use Rattle.seal_stream.specs.Steps.{StandsBehind, HasReadAll, HasStopped, IsFailing};
ghost use Rattle.seal_stream.specs.Steps.{IsWholeReading, Finishes};

use crate::stop::SealStop;
use crate::tail::{begins_soundly, put_tail};
use crate::writer::{Writer, begin, see_long, take_in};
use audit_book::BookFault;
use book_seal::laws::{a_text_has_one_seal, cut_books_have_their_seal};
use coll_text::send;
use std::alloc::Global;
use wall_labels::{Sink, Source};
use wall_policy::Policy;

// Reads a source to its end, or to the first finished line at fault, and writes what is kept.
fn read_whole<B: Source, W: Sink>(
    alloc: Global,
    policy: &Policy,
    book: &mut B,
    writer: &mut Writer,
    sealed: &mut W,
) -> Result<(), SealStop>
    requires { (before : Option (List ℕ)) →
        StandsBehind policy.now writer.old before before [] [] [] }
    ensures went { OnOk result (W.failures sealed.new ≡ W.failures sealed.old) }
    ensures failed { IfErr result
        (λ stop. IsFailing stop (W.failures sealed.old) (W.failures sealed.new)) }
    ensures whole { OnOk result (HasReadAll policy.now
        (used B.failures B.remaining book.old book.new) writer.new (W.contents sealed.old)
        (W.contents sealed.new)) }
    ensures stopped { IfErr result (HasStopped policy.now
        (used B.failures B.remaining book.old book.new) writer.new (W.contents sealed.old)
        (W.contents sealed.new)) }
{
    let mut buffer = [0u8; 4096];
    for reads in 0..u64::MAX {
        let n = match book.read(&mut buffer) {
            Ok(n) => n,
            Err(_) => return Err(SealStop::Read),
        };
        if n == 0 {
            return Ok(());
        }
        match take_in(alloc, policy, writer, &buffer[..n], sealed) {
            Ok(()) => {}
            Err(stop) => return Err(stop),
        }
        match see_long(policy, writer) {
            Ok(()) => {}
            Err(stop) => return Err(stop),
        }
    }
    Err(SealStop::TooMany)
}

// Puts what is due behind the lines of the whole text, and writes what was not written yet.
fn finish<W: Sink>(policy: &Policy, writer: &mut Writer, sealed: &mut W) -> Result<u64, SealStop>
    requires { IsWholeReading policy.now writer.old.reading }
    ensures went { OnOk result (W.failures sealed.new ≡ W.failures sealed.old) }
    ensures failed { IfErr result
        (λ stop. IsFailing stop (W.failures sealed.old) (W.failures sealed.new)) }
    ensures ends { Finishes policy.now writer.old (W.contents sealed.old) (W.contents sealed.new)
        result }
{
    match writer.reading.fault {
        Some(BookFault::BadEntry(number)) => return Err(SealStop::BadEntry(number)),
        Some(BookFault::NoMemory) => return Err(SealStop::NoMemory),
        None => {}
    }
    let number = match put_tail(policy, &writer.reading, &mut writer.pending) {
        Ok(number) => number,
        Err(refused) => return Err(SealStop::from(refused)),
    };
    match send(&mut writer.pending, sealed) {
        Ok(()) => Ok(number),
        Err(_) => Err(SealStop::Write),
    }
}

/// Seals what a source has to give to its end, however long it is: writes what the seal of it is, as
/// `seal_book` makes it, while the source is read, and tells the number of its entries. What stands
/// behind the last LF is left out; the verdict that the last post settles is added where it is missing,
/// and the `end` line. A whole book is its own seal.
///
/// A line at fault is told as soon as it is read, and the source is read no further; an entry at
/// fault only at the end, since a line at fault behind it is told before it. Nothing is written
/// from the first of both on; what was written before are finished lines, or a prefix of them.
/// Where the source fails, no finished line that it gave is at fault. Memory is taken for one line,
/// for what is to be written next, and for what is open behind the entries so far. `sealed` is not
/// flushed.
pub fn seal_source<B: Source, W: Sink>(
    alloc: Global,
    policy: &Policy,
    book: &mut B,
    sealed: &mut W,
) -> Result<u64, SealStop>
    ensures sealed { IfOk result (IsSealedTo policy.now
        (used B.failures B.remaining book.old book.new)
        (used W.failures W.contents sealed.old sealed.new)) }
    ensures stopped { IfErr result (IsStopped policy.now
        (used B.failures B.remaining book.old book.new)
        (used W.failures W.contents sealed.old sealed.new)) }
{
    let _ = policy.processes();
    a_text_has_one_seal();
    cut_books_have_their_seal();
    let mut writer = match begin(alloc, policy) {
        Ok(writer) => writer,
        Err(refused) => return Err(SealStop::from(refused)),
    };
    match read_whole(alloc, policy, book, &mut writer, sealed) {
        Ok(()) => {}
        Err(stop) => {
            begins_soundly(policy, &writer.reading);
            return Err(stop);
        }
    }
    begins_soundly(policy, &writer.reading);
    finish(policy, &mut writer, sealed)
}
