//! Reads a run of a chain again, with its book in memory, over any devices.
ghost use Rattle.std.specs.Prelude.{List, IfOk, IfErr, OnOk, IfSome, IfNone};
ghost use Rattle.std.specs.Option.{option_copied};
ghost use Rattle.run_model.specs.Books.{IsSound};
ghost use Rattle.run_model.specs.Chains.{Link, IsChain};
ghost use Rattle.chain_runs.specs.Runs.{IsBegunUnder, IsChainAfter, SaysBook};
ghost use Rattle.hall_script.specs.Devices.{used, IsRead};
ghost use Rattle.program_commands.specs.Auditing.{book_limit};
ghost use Rattle.program_commands.specs.ChainGiven.{IsLong};
ghost use Rattle.program_commands.specs.ChainReports.{IsNoWhole, IsTextOf, IsNoTextOf, IsNoBookOf};
ghost use Rattle.program_commands.specs.ChainReports.{IsNoRun, HasTooLong, IsReadAgain};
ghost use Rattle.program_commands.specs.ChainReports.{IsNotReadAgain, IsLongRun};

use crate::audit::BOOK_LIMIT;
use crate::report::Reading;
use audit_book::{Book, ReadFault, read_book};
use book_stream::{AuditFault, pass_source};
use chain_file::Run;
use chain_runs::{FileSystem, Past, RunFault, read_begun};
use hall_script::DeviceFault;
use std::alloc::Global;
use wall_labels::Source;
use wall_labels::memory::{Fuse, MemorySource};
use wall_policy::Policy;

// Reads a book to its end, if that comes within `BOOK_LIMIT` bytes; none where it has more. (Where
// `read_device` has one answer for that and for a reader that fails, here are two.)
fn read_whole<B: Source>(alloc: Global, book: &mut B) -> Result<Option<Vec<u8>>, DeviceFault>
    ensures whole { let device = used B.failures B.remaining book.old book.new in
        IfOk result (λ read. IfSome read (λ bytes. IsRead device book_limit bytes.items)) }
    ensures long { let device = used B.failures B.remaining book.old book.new in
        IfOk result (λ read. IfNone read (IsLong device)) }
    ensures fault { let device = used B.failures B.remaining book.old book.new in
        IfErr result (IsNoWhole device) }
{
    let mut bytes = Vec::new(alloc);
    let mut buffer = [0u8; 1024];
    loop {
        let n = match book.read(&mut buffer) {
            Ok(n) => n,
            Err(_) => return Err(DeviceFault::Read),
        };
        if n == 0 {
            return Ok(Some(bytes));
        }
        if n > BOOK_LIMIT - bytes.len() {
            return Ok(None);
        }
        bytes.extend_from_slice(&buffer[..n])?;
    }
}

// Checks that a text is that of the book of a run, which the chain has the digest of.
fn pass_text(alloc: Global, wall: &Policy, run: &Run, text: &[u8]) -> Result<(), RunFault>
    ensures text { OnOk result (IsTextOf wall.now run.now.book_digest text.now) }
    ensures fault { IfErr result (IsNoTextOf wall.now run.now.book_digest text.now) }
{
    let mut reader = MemorySource {
        rest: text,
        fuse: Fuse::Whole,
    };
    let passed = match pass_source(alloc, wall, &mut reader) {
        Ok(passed) => passed,
        Err(AuditFault::NoMemory) => return Err(RunFault::NoMemory),
        Err(fault) => return Err(RunFault::BadBook(fault)),
    };
    if passed.digest != run.book_digest {
        return Err(RunFault::OtherBook);
    }
    Ok(())
}

// Reads the book of a run whole; none where it is too long.
fn read_book_of<B: Source>(
    alloc: Global,
    wall: &Policy,
    run: &Run,
    book: &mut B,
) -> Result<Option<Book>, RunFault>
    ensures book { let device = used B.failures B.remaining book.old book.new in
        IfOk result (λ read. IfSome read (λ entries.
        SaysBook wall.now device run.now.book_digest entries.list)) }
    ensures sound { IfOk result (λ read. IfSome read (λ entries. IsSound wall.now entries.list)) }
    ensures long { let device = used B.failures B.remaining book.old book.new in
        IfOk result (λ read. IfNone read (IsLong device)) }
    ensures fault { let device = used B.failures B.remaining book.old book.new in
        IfErr result (IsNoBookOf wall.now device run.now.book_digest) }
{
    let text = match read_whole(alloc, book) {
        Ok(Some(text)) => text,
        Ok(None) => return Ok(None),
        Err(DeviceFault::Read) => return Err(RunFault::BadBook(AuditFault::Read)),
        Err(DeviceFault::NoMemory) => return Err(RunFault::NoMemory),
    };
    match pass_text(alloc, wall, run, &text) {
        Ok(()) => {}
        Err(fault) => return Err(fault),
    }
    match read_book(alloc, wall, &text) {
        Ok(entries) => Ok(Some(entries)),
        Err(ReadFault::NoMemory) => Err(RunFault::NoMemory),
        Err(_) => unreachable!(),
    }
}

// Reads a run behind those before it: the policy that it was under, and its book; none where the
// book is too long.
fn read_behind_others<P: Source, B: Source>(
    alloc: Global,
    after: Option<&Policy>,
    run: &Run,
    policy: &mut P,
    book: &mut B,
) -> Result<Option<Reading>, RunFault>
    ensures under { let policies = used P.failures P.remaining policy.old policy.new in
        IfOk result (λ read. IfSome read (λ reading.
        IsBegunUnder (option_copied after.entry) run.now.begun policies reading.wall)) }
    ensures chain { IfOk result (λ read. IfSome read (λ reading. (links : List Link) →
        IsChainAfter (option_copied after.entry) links → IsChain links reading.wall)) }
    ensures book { let books = used B.failures B.remaining book.old book.new in
        IfOk result (λ read. IfSome read (λ reading.
        SaysBook reading.wall books run.now.book_digest reading.entries.list)) }
    ensures sound { IfOk result (λ read. IfSome read (λ reading.
        IsSound reading.wall reading.entries.list)) }
    ensures long { let policies = used P.failures P.remaining policy.old policy.new in
        let books = used B.failures B.remaining book.old book.new in
        IfOk result (λ read. IfNone read
        (HasTooLong (option_copied after.entry) run.now policies books)) }
    ensures fault { let policies = used P.failures P.remaining policy.old policy.new in
        let books = used B.failures B.remaining book.old book.new in
        IfErr result (IsNoRun (option_copied after.entry) run.now policies books) }
{
    let wall = match read_begun(alloc, after, &run.begun, policy) {
        Ok(wall) => wall,
        Err(fault) => return Err(fault),
    };
    match read_book_of(alloc, &wall, run, book) {
        Ok(Some(entries)) => Ok(Some(Reading { wall, entries })),
        Ok(None) => {
            drop(wall);
            Ok(None)
        }
        Err(fault) => {
            drop(wall);
            Err(fault)
        }
    }
}

/// Reads a run of a chain again behind those before it, from the files at its paths, with its book
/// in memory: the policy that it was under, and the book, which is the one of which the chain has
/// the digest. None where the book has more than `BOOK_LIMIT` bytes.
pub(crate) fn read_short<'p, F: FileSystem<'p>>(
    alloc: Global,
    files: &F,
    past: &Past,
    run: &'p Run,
) -> Result<Option<Reading>, RunFault>
    ensures read { IfOk result (λ read. IfSome read (λ reading.
        IsReadAgain F.Reader.Source.failures F.Reader.Source.remaining F.is_at past.now run.now
        reading.wall reading.entries.list)) }
    ensures chain { IfOk result (λ read. IfSome read (λ reading. (links : List Link) →
        IsChainAfter past.now.policy links → IsChain links reading.wall)) }
    ensures long { IfOk result (λ read. IfNone read (IsLongRun F.Reader.Source.failures
        F.Reader.Source.remaining F.is_at past.now run.now)) }
    ensures fault { IfErr result (IsNotReadAgain F.Reader.Source.failures
        F.Reader.Source.remaining F.is_at past.now run.now) }
{
    let mut policy = files.reader(run.begun.policy.bytes());
    let mut book = files.reader(run.begun.book.bytes());
    let read = read_behind_others(alloc, past.policy.as_ref(), run, &mut policy, &mut book);
    drop(policy);
    drop(book);
    read
}
