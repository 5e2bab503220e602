//! Ends the last run of a chain, which was cut: its book is made whole, and the chain gets the line
//! that the run has ended.
//!
//! The whole book is written beside the cut one, and takes its place when it is on the disk; only
//! then does the chain get its line, and only then is anything told. So a seal that was stopped at
//! any point is made again from the start. A book that is missing is never made: a server makes its
//! book before its run begins, and what it told would be forgotten. What each step comes to say the
//! contracts of `last_policy`, `seal_with` and `end_run`; that they go over these files in this
//! order no contract can say. `tests/live` stops it at each step.
ghost use Rattle.program_line.specs.Kinds.{Opens};

use crate::book_file::{BookFile, CountedBook, Lasting, is_named_on_disk, new_book, take_away};
use crate::chain::{HeldChain, HeldFile, Unentered, file_at};
use crate::loss::Silent;
use crate::server::System;
use chain_file::{ChainFault, ChainFile};
use program_commands::{Ending, NoChain, Streams, end, read_chain_file, seal_with, tell_no_chain};
use program_files::{Count, StreamSink};
use program_line::last_policy;
use std::alloc::{AllocError, Global};
use std::fs;
use std::sync::ledger::{Blank, Ledger};
use wall_labels::{Failed, NoMemory, Sink, write_all};
use wall_policy::Policy;

/// A new ledger for the failures of each device of a seal.
pub(crate) struct SealBlanks {
    pub(crate) out: Blank,
    pub(crate) err: Blank,
    pub(crate) sealed: Blank,
}

/// Seals the book of the last run of the chain file at this path, and gives the status. (The path is no
/// `&str`: whoever calls with ledgers that are picked in a proof can't with one.)
pub(crate) fn seal_chain<O: Ledger, E: Ledger, B: Ledger>(
    alloc: Global,
    system: System,
    path: &String,
    blanks: SealBlanks,
) -> u8
    requires out { Opens blanks.out O.name O.parts }
    requires err { Opens blanks.err E.name E.parts }
    requires sealed { Opens blanks.sealed B.name B.parts }
{
    let System { files, out, err } = system;
    let SealBlanks {
        out: said,
        err: told,
        sealed,
    } = blanks;
    let mut out = StreamSink {
        stream: out,
        failures: Count::<O>::new(said),
    };
    let mut err = StreamSink {
        stream: err,
        failures: Count::<E>::new(told),
    };
    let mut held = match HeldFile::hold(files, path, &mut err) {
        Ok(held) => held,
        Err(status) => return status,
    };
    let chain = match chain_of(alloc, &mut held) {
        Ok(chain) => chain,
        Err(none) => return tell_no_chain(&mut err, none),
    };
    let policy = match last_policy(alloc, files, &chain, &mut err) {
        Ok(policy) => policy,
        Err(status) => {
            drop(chain);
            return status;
        }
    };
    let mut sealing = Sealing {
        alloc,
        files,
        chain: HeldChain { held, chain },
    };
    let streams = Streams {
        out: &mut out,
        err: &mut err,
    };
    let status = sealing.seal::<B, _, _>(&policy, sealed, streams);
    drop(sealing);
    drop(policy);
    status
}

// Reads the chain of a file, as it is.
fn read_held(alloc: Global, held: &mut HeldFile) -> Result<ChainFile, NoChain> {
    let mut reader = held.reader();
    let read = read_chain_file(alloc, &mut reader);
    drop(reader);
    read
}

// Reads the chain of a file. A line that is not finished, behind lines that are all in order, is cut
// off first.
fn chain_of(alloc: Global, held: &mut HeldFile) -> Result<ChainFile, NoChain> {
    match read_held(alloc, held) {
        Err(NoChain::BadFile(ChainFault::Cut)) => {
            if held.cut_off() {
                read_held(alloc, held)
            } else {
                Err(NoChain::BadFile(ChainFault::Cut))
            }
        }
        read => read,
    }
}

// The most bytes of the line of a seal: words, a number of 20 digits at most, and the LF.
const LINE_ROOM: usize = 64;

// The line of a seal, until all is done. Within its room it never fails, and else once.
#[derive(Drop)]
struct Kept {
    line: Vec<u8>,
    has_failed: bool,
}

impl Sink for Kept {
    ghost use Rattle.program_files.specs.Files.{failed_once};

    ghost failures = { λ s. failed_once s.has_failed };

    fn write(&mut self, bytes: &[u8]) -> Result<usize, Failed> {
        if self.has_failed {
            return Ok(bytes.len());
        }
        match self.line.extend_from_slice(bytes) {
            Ok(()) => Ok(bytes.len()),
            Err(_) => {
                self.has_failed = true;
                Err(Failed)
            }
        }
    }
}

// What a seal of a chain goes over.
#[derive(Drop)]
struct Sealing<'a> {
    alloc: Global,
    files: &'a HostRuntime,
    chain: HeldChain<'a>,
}

impl<'a> Sealing<'a> {
    // The path of the book of the run that has not ended. None where it is no text, at which there
    // is no file that this program has made.
    fn book_path(&self) -> Result<Option<String>, AllocError> {
        let Some(begun) = self.chain.chain.under_way() else {
            return Ok(None);
        };
        match str::from_utf8(begun.book.bytes()) {
            Ok(path) => Ok(Some(String::from_str(self.alloc, path)?)),
            Err(_) => Ok(None),
        }
    }

    fn seal<B: Ledger, O: Sink, E: Sink>(
        &mut self,
        policy: &Policy,
        blank: Blank,
        streams: Streams<O, E>,
    ) -> u8
        requires { Opens blank B.name B.parts }
    {
        let Streams { out, err } = streams;
        let book = match self.book_path() {
            Ok(Some(book)) => book,
            Ok(None) => return end(err, Ending::ReadFault),
            Err(refused) => return end(err, Ending::from(NoMemory::from(refused))),
        };
        let beside = match format!(in self.alloc; "{book}.sealed") {
            Ok(beside) => beside,
            Err(refused) => return end(err, Ending::from(NoMemory::from(refused))),
        };
        // What an earlier seal left that was stopped; it is no book of the chain.
        if !self.chain.has_book(&beside) {
            take_away(self.files, &beside);
        }
        let line = match Vec::with_capacity(self.alloc, LINE_ROOM) {
            Ok(line) => line,
            Err(refused) => return end(err, Ending::from(NoMemory::from(refused))),
        };
        let mut told = Kept {
            line,
            has_failed: false,
        };
        let streams = Streams {
            out: &mut told,
            err,
        };
        let status = self.write_beside::<B, _, _>(policy, blank, &book, &beside, streams);
        if status != 0 {
            return tell_unsealed(out, &told, status);
        }
        match self.take_place(policy, &book, &beside) {
            Ok(()) => tell_sealed(&told, Streams { out, err }),
            Err(ending) => end(err, ending),
        }
    }

    // Writes the whole book beside the cut one.
    fn write_beside<B: Ledger, O: Sink, E: Sink>(
        &self,
        policy: &Policy,
        blank: Blank,
        book: &str,
        beside: &str,
        streams: Streams<O, E>,
    ) -> u8
        requires { Opens blank B.name B.parts }
    {
        let Streams { out, err } = streams;
        let lasting = Lasting {
            name: true,
            posts: true,
        };
        let made = match new_book(self.files, beside, lasting, err) {
            Ok(made) => made,
            Err(status) => return status,
        };
        let mut whole = BookFile::<B, Silent>::new(CountedBook {
            book: made,
            blank,
            told: Silent {},
        });
        let mut cut = file_at(self.files, book);
        let status = seal_with(
            self.alloc,
            policy,
            &mut cut,
            &mut whole,
            Streams { out, err },
        );
        drop(cut);
        let is_kept = whole.is_kept();
        drop(whole);
        let status = if status == 0 && !is_kept {
            end(err, Ending::WriteFault)
        } else {
            status
        };
        if status != 0 {
            take_away(self.files, beside);
        }
        status
    }

    // Puts the whole book in the place of the cut one, and enters that the run has ended.
    fn take_place(
        &mut self,
        policy: &Policy,
        book: &str,
        beside: &str,
    ) -> Result<(), Ending<'static>> {
        if fs::rename(self.files, beside, book).is_err() || !is_named_on_disk(self.files, book) {
            return Err(Ending::WriteFault);
        }
        match self.chain.end(self.alloc, policy, book) {
            Ok(()) => Ok(()),
            Err(Unentered::For(ending)) => Err(ending),
            // (It is another than was just written.)
            Err(Unentered::NotWhole) => Err(Ending::WriteFault),
        }
    }
}

// Tells what was said of a book that was not sealed; the status stands.
fn tell_unsealed<O: Sink>(out: &mut O, told: &Kept, status: u8) -> u8 {
    let _ = write_all(out, &told.line);
    status
}

// Tells that the run was sealed, and gives the status.
fn tell_sealed<O: Sink, E: Sink>(told: &Kept, streams: Streams<O, E>) -> u8 {
    let Streams { out, err } = streams;
    match write_all(out, &told.line) {
        Ok(()) => 0,
        Err(_) => end(err, Ending::WriteFault),
    }
}
