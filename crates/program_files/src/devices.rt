//! Devices over std's files and streams, with a count of failures that takes no bytes.
ghost use Rattle.std.specs.Prelude.{◌≡◌, ℕ, ◌+◌, ◌<◌, ◌≤◌, List, Option, length, IsSome, IfOk};
ghost use Rattle.std.specs.Prelude.{OnOk, OnErr, Ok, None, true, false};
ghost use Rattle.std.specs.Fs.{new_options, with_write, with_create, with_create_new};
ghost use Rattle.std.specs.Fs.{with_truncate};
ghost use Rattle.std.specs.Io.KnownBytes.{ReadConsumes, WriteAppends};
ghost use Rattle.program_files.specs.Files.{bytes_of, IsOpened, IsMadeForBytes, TellsCause};

use crate::cause::{Cause, Explains, cause_of};
use std::fs::{File, OpenOptions};
use std::io;
use std::io::{ErrorKind, Read, Write};
use std::marker::Model;
use std::rt::Files;
use std::sync::ledger::{Blank, Book, Ledger, Share};
use wall_labels::{Failed, Sink, Source};

/// A count that only `rise` changes. It takes no bytes.
#[derive(Drop)]
pub struct Count<L: Ledger> {
    book: Book<L>,
    share: Share<L>,
}

impl<L: Ledger> Model for Count<L> {
    ghost use Rattle.std.specs.Prelude.{ℕ, ◌<◌};

    ghost Value = { ℕ };

    ghost view = { λ s. s.book.total };

    ghost invariant = { λ s. 0 < s.share.parts };
}

impl<L: Ledger> Count<L> {
    /// A count of none, kept in this ledger.
    pub fn new(blank: Blank) -> Count<L>
        requires name { blank.name ≡ L.name }
        requires parts { blank.parts ≡ L.parts }
        requires some { 0 < blank.parts }
        ensures { result ≡ 0 }
    {
        let (book, share) = blank.open::<L>();
        Count { book, share }
    }

    /// One more.
    pub fn rise(&mut self)
        ensures { self.new ≡ self.old + 1 }
    {
        self.book.add(&mut self.share, 1);
    }
}

/// A file that is opened at its first read, and not again once it is open. A file that is missing,
/// or cannot be opened, is a read that failed; the next read tries once more to open it.
#[derive(Drop)]
pub struct FileSource<'a, R: Files, L: Ledger> {
    pub rt: &'a R,
    pub path: &'a str,
    pub file: Option<R::File>,
    pub failures: Count<L>,
    /// Why the last read that failed did so; none where none did.
    pub cause: Option<Cause>,
}

// How often a call that a signal cut short is made again, before that is a failure.
const TRIES: usize = 64;

/// Reads from a file. A read that a signal cut short is made again.
#[tactic(auto, using(crate::proofs::KeptLemmas::read_after_kept, crate::proofs::KeptLemmas::kept_after_kept))]
pub fn read_again<F: Read>(file: &mut F, buffer: &mut [u8]) -> io::Result<usize>
    ensures within { IfOk result (λ n. n ≤ length buffer.new) }
    ensures bytes { ReadConsumes (F.remaining file.old) (F.remaining file.new) result buffer.new }
{
    for _ in 0..TRIES {
        match file.read(buffer) {
            Ok(n) => return Ok(n),
            Err(error) => {
                if error.kind() != ErrorKind::Interrupted {
                    return Err(error);
                }
            }
        }
    }
    file.read(buffer)
}

/// Writes to a file or a stream. A write that a signal cut short is made again.
#[tactic(auto, using(crate::proofs::KeptLemmas::write_after_kept, crate::proofs::KeptLemmas::kept_after_kept))]
pub fn write_again<F: Write>(file: &mut F, bytes: &[u8]) -> io::Result<usize>
    ensures within { IfOk result (λ n. n ≤ length bytes.now) }
    ensures bytes { WriteAppends (F.contents file.old) (F.contents file.new) result bytes.now }
{
    for _ in 0..TRIES {
        match file.write(bytes) {
            Ok(n) => return Ok(n),
            Err(error) => {
                if error.kind() != ErrorKind::Interrupted {
                    return Err(error);
                }
            }
        }
    }
    file.write(bytes)
}

// Reads from a file that was opened, or opens it first.
fn read_opened<R: Files>(
    rt: &R,
    path: &str,
    file: &mut Option<R::File>,
    buffer: &mut [u8],
) -> io::Result<usize>
    ensures within { IfOk result (λ n. n ≤ length buffer.new) }
    ensures opened { IsOpened file.old file.new result }
    ensures bytes { let left = bytes_of R.File.remaining in
        ReadConsumes (left file.old) (left file.new) result buffer.new }
{
    match file {
        Some(opened) => read_again(opened, buffer),
        None => {
            let mut opened = File::open(rt, path)?;
            let outcome = read_again(&mut opened, buffer);
            *file = Some(opened);
            outcome
        }
    }
}

impl<'a, R: Files, L: Ledger> Source for FileSource<'a, R, L> {
    ghost use Rattle.program_files.specs.Files.{bytes_of};

    ghost failures = { λ s. s.failures };

    ghost remaining = { λ s. bytes_of R.File.remaining s.file };

    fn read(&mut self, buffer: &mut [u8]) -> Result<usize, Failed>
        ensures within { IfOk result (λ n. n ≤ length buffer.new) }
        ensures went { OnOk result (self.new.failures ≡ self.old.failures) }
        ensures failed { OnErr result (self.new.failures ≡ self.old.failures + 1) }
        ensures bytes { let left = bytes_of R.File.remaining in
            ReadConsumes (left self.old.file) (left self.new.file) result buffer.new }
        ensures opened { IsOpened self.old.file self.new.file result }
        ensures path { self.new.path ≡ self.old.path }
        ensures cause { TellsCause self.old.cause self.new.cause result }
    {
        match read_opened(self.rt, self.path, &mut self.file, buffer) {
            Ok(n) => Ok(n),
            Err(error) => {
                self.cause = Some(cause_of(error.kind()));
                self.failures.rise();
                Err(Failed)
            }
        }
    }
}

impl<'a, R: Files, L: Ledger> Explains for FileSource<'a, R, L> {
    ghost cause = { λ s. s.cause };

    fn cause(&self) -> Option<Cause> {
        self.cause
    }
}

/// A file of a list. It is opened at its first read, and not again once it is open; a file that is
/// missing, or cannot be opened, is a read that failed. It fails at most once: after a read that
/// failed it gives nothing more. Its count takes no ledger, so a list may have any number of them.
#[derive(Drop)]
pub struct ListedFile<'a, R: Files> {
    pub rt: &'a R,
    pub path: &'a str,
    pub file: Option<R::File>,
    pub has_failed: bool,
    /// Why the read that failed did so; none where none did.
    pub cause: Option<Cause>,
}

impl<'a, R: Files> Source for ListedFile<'a, R> {
    ghost use Rattle.program_files.specs.Files.{failed_once};

    ghost failures = { λ s. failed_once s.has_failed };

    fn read(&mut self, buffer: &mut [u8]) -> Result<usize, Failed>
        ensures within { IfOk result (λ n. n ≤ length buffer.new) }
        ensures went { OnOk result
            (failed_once self.new.has_failed ≡ failed_once self.old.has_failed) }
        ensures failed { OnErr result
            (failed_once self.new.has_failed ≡ failed_once self.old.has_failed + 1) }
        ensures once { OnErr result
            ((self.old.has_failed ≡ false) × (self.new.has_failed ≡ true)) }
        ensures bytes { ReadConsumes None None result buffer.new }
        ensures opened { OnOk result (self.old.has_failed ≡ false → IsSome self.new.file) }
        ensures stays { IsSome self.old.file → IsSome self.new.file }
        ensures nothing { self.old.has_failed ≡ true →
            (result ≡ Ok 0) × (self.new.file ≡ self.old.file) }
        ensures path { self.new.path ≡ self.old.path }
        ensures cause { TellsCause self.old.cause self.new.cause result }
    {
        if self.has_failed {
            return Ok(0);
        }
        match read_opened(self.rt, self.path, &mut self.file, buffer) {
            Ok(n) => Ok(n),
            Err(error) => {
                self.cause = Some(cause_of(error.kind()));
                self.has_failed = true;
                Err(Failed)
            }
        }
    }
}

impl<'a, R: Files> Explains for ListedFile<'a, R> {
    ghost cause = { λ s. s.cause };

    fn cause(&self) -> Option<Cause> {
        self.cause
    }
}

// What a write of some bytes came to. It failed where it took none.
fn counted<L: Ledger>(outcome: io::Result<usize>, failures: &mut Count<L>) -> Result<usize, Failed>
    ensures went { OnOk result (failures.new ≡ failures.old) }
    ensures failed { OnErr result (failures.new ≡ failures.old + 1) }
    ensures some { IfOk result (λ n. 0 < n) }
    ensures bytes { (old : Option (List ℕ)) → (new : Option (List ℕ)) → (given : List ℕ) →
        WriteAppends old new outcome given → WriteAppends old new result given }
    ensures same { IfOk result (λ n. outcome ≡ Ok n) }
    ensures whole { IfOk outcome (λ n. 0 < n → result ≡ Ok n) }
{
    match outcome {
        Ok(n) => {
            if n == 0 {
                failures.rise();
                return Err(Failed);
            }
            Ok(n)
        }
        Err(_) => {
            failures.rise();
            Err(Failed)
        }
    }
}

/// A file that is made at its first write of some bytes, in place of one that was there, and not
/// again once it is made. A file that cannot be made is a write that failed; the next write tries
/// once more to make it.
#[derive(Drop)]
pub struct FileSink<'a, R: Files, L: Ledger> {
    pub rt: &'a R,
    pub path: &'a str,
    pub file: Option<R::File>,
    pub failures: Count<L>,
}

/// How a file is opened that is made, and is not there before.
pub fn only_new() -> OpenOptions
    ensures { result ≡ with_create_new (with_write new_options true) true }
{
    let mut how = OpenOptions::new();
    how.write(true).create_new(true);
    how
}

// How a file is opened that is made, in place of one that was there.
fn replacing() -> OpenOptions
    ensures { result ≡ with_truncate (with_create (with_write new_options true) true) true }
{
    let mut how = OpenOptions::new();
    how.write(true).create(true).truncate(true);
    how
}

// The path of a file, in its system, and how it is opened to be made.
#[derive(Drop)]
struct Place<'p, R> {
    rt: &'p R,
    path: &'p str,
    how: OpenOptions,
}

// Writes to a file that was made, or makes it first. (That a file is opened as `how` says, no
// contract of the system's can say.)
fn write_made<R: Files>(
    place: &Place<R>,
    file: &mut Option<R::File>,
    bytes: &[u8],
) -> io::Result<usize>
    ensures within { IfOk result (λ n. n ≤ length bytes.now) }
    ensures made { IsOpened file.old file.new result }
    ensures bytes { let held = bytes_of R.File.contents in
        WriteAppends (held file.old) (held file.new) result bytes.now }
{
    match file {
        Some(made) => write_again(made, bytes),
        None => {
            let mut made = place.how.open(place.rt, place.path)?;
            let outcome = write_again(&mut made, bytes);
            *file = Some(made);
            outcome
        }
    }
}

impl<'a, R: Files, L: Ledger> Sink for FileSink<'a, R, L> {
    ghost use Rattle.program_files.specs.Files.{bytes_of};

    ghost failures = { λ s. s.failures };

    ghost contents = { λ s. bytes_of R.File.contents s.file };

    fn write(&mut self, bytes: &[u8]) -> Result<usize, Failed>
        ensures within { IfOk result (λ n. n ≤ length bytes.now) }
        ensures some { IfOk result (λ n. 0 < length bytes.now → 0 < n) }
        ensures went { OnOk result (self.new.failures ≡ self.old.failures) }
        ensures failed { OnErr result (self.new.failures ≡ self.old.failures + 1) }
        ensures bytes { let held = bytes_of R.File.contents in
            WriteAppends (held self.old.file) (held self.new.file) result bytes.now }
        ensures made { IsMadeForBytes self.old.file self.new.file bytes.now result }
        ensures path { self.new.path ≡ self.old.path }
    {
        if bytes.is_empty() {
            return Ok(0);
        }
        let place = Place {
            rt: self.rt,
            path: self.path,
            how: replacing(),
        };
        let outcome = write_made(&place, &mut self.file, bytes);
        counted(outcome, &mut self.failures)
    }
}

/// A file that is made new at its first write of some bytes, and not again once it is made. One that
/// is there is never replaced, and no bytes go to it. A file that is there, or cannot be made, is a
/// write that failed; the next write tries once more to make it.
#[derive(Drop)]
pub struct NewFileSink<'a, R: Files, L: Ledger> {
    pub rt: &'a R,
    pub path: &'a str,
    pub file: Option<R::File>,
    pub failures: Count<L>,
}

impl<'a, R: Files, L: Ledger> Sink for NewFileSink<'a, R, L> {
    ghost use Rattle.program_files.specs.Files.{bytes_of};

    ghost failures = { λ s. s.failures };

    ghost contents = { λ s. bytes_of R.File.contents s.file };

    fn write(&mut self, bytes: &[u8]) -> Result<usize, Failed>
        ensures within { IfOk result (λ n. n ≤ length bytes.now) }
        ensures some { IfOk result (λ n. 0 < length bytes.now → 0 < n) }
        ensures went { OnOk result (self.new.failures ≡ self.old.failures) }
        ensures failed { OnErr result (self.new.failures ≡ self.old.failures + 1) }
        ensures bytes { let held = bytes_of R.File.contents in
            WriteAppends (held self.old.file) (held self.new.file) result bytes.now }
        ensures made { IsMadeForBytes self.old.file self.new.file bytes.now result }
        ensures path { self.new.path ≡ self.old.path }
    {
        if bytes.is_empty() {
            return Ok(0);
        }
        let fresh = Place {
            rt: self.rt,
            path: self.path,
            how: only_new(),
        };
        let outcome = write_made(&fresh, &mut self.file, bytes);
        counted(outcome, &mut self.failures)
    }
}

/// A stream of std's.
#[derive(Drop)]
pub struct StreamSink<W: io::Write + Drop, L: Ledger> {
    pub stream: W,
    pub failures: Count<L>,
}

impl<W: io::Write + Drop, L: Ledger> Sink for StreamSink<W, L> {
    ghost failures = { λ s. s.failures };

    ghost contents = { λ s. W.contents s.stream };

    fn write(&mut self, bytes: &[u8]) -> Result<usize, Failed> {
        if bytes.is_empty() {
            return Ok(0);
        }
        let outcome = write_again(&mut self.stream, bytes);
        counted(outcome, &mut self.failures)
    }
}
