//! The books that a command line reads, and the files that it writes over, held meanwhile.
//!
//! A book that a server writes is not whole yet: what is told of it holds for a moment, and whoever
//! seals it has a second server go on beside the first. A book that is written over is lost. So
//! before a command begins, each book that it reads is locked against whoever writes it, and the
//! file that it writes over against all; and of the chain that it goes on behind that file is none.
//! A file that takes no lock is as it is without. No contract can say what a file system tells;
//! `tests/live` tries it.
ghost use Rattle.program_line.specs.Kinds.{Opens};

use crate::chain::file_at;
use crate::pipes::is_same;
use chain_file::{Begun, ChainFile, Path};
use program_commands::{Ending, NoChain, Unready, end, read_chain_file, refuse};
use program_files::{Count, StreamSink};
use program_words::{ArgFault, Command, read_words};
use std::alloc::{AllocError, Global};
use std::env::Args;
use std::fs::{File, Metadata, OpenOptions, TryLockError};
use std::sync::ledger::{Blank, Ledger};
use std::{env, fs};
use wall_labels::{Failed, NoMemory, Sink, write_all};

/// The files of a command line that are held. The locks go with it.
#[derive(Drop)]
pub(crate) struct HeldBooks {
    files: Vec<File>,
}

// Why they can't be.
#[derive(Clone, Copy)]
enum Unheld<'a> {
    // Somebody writes this book; or reads, or writes, the file that was to be written over.
    InUse(&'a str),
    // The chain has this file, which was to be written over.
    OfChain(&'a str),
    NoMemory,
}

impl<'a> From<NoMemory> for Unheld<'a> {
    fn from(_refused: NoMemory) -> Unheld<'a> {
        Unheld::NoMemory
    }
}

// A file against which others are held, if there is one of that kind.
fn plain_file(files: &HostRuntime, path: &str) -> Option<Metadata> {
    match fs::metadata(files, path) {
        Ok(found) => {
            if found.file_type().is_file() {
                Some(found)
            } else {
                None
            }
        }
        Err(_) => None,
    }
}

// Opened as far as it may be, for its lock alone.
fn opened(files: &HostRuntime, path: &str) -> Option<File> {
    if let Ok(file) = File::open(files, path) {
        return Some(file);
    }
    let mut how = OpenOptions::new();
    how.write(true);
    how.open(files, path).ok()
}

impl HeldBooks {
    // Holds the file at this path against whoever writes it; or against all, where it is to be
    // written over. One that is not there, or no plain file, is not held.
    fn hold<'a>(
        &mut self,
        files: &HostRuntime,
        path: &'a str,
        is_written: bool,
    ) -> Result<(), Unheld<'a>> {
        if plain_file(files, path).is_none() {
            return Ok(());
        }
        let Some(file) = opened(files, path) else {
            return Ok(());
        };
        let tried = if is_written {
            file.try_lock()
        } else {
            file.try_lock_shared()
        };
        match tried {
            Ok(()) => match self.files.push(file) {
                Ok(()) => Ok(()),
                Err(refused) => Err(Unheld::from(NoMemory::from(refused))),
            },
            Err(TryLockError::WouldBlock) => Err(Unheld::InUse(path)),
            Err(TryLockError::Error(_)) => Ok(()),
        }
    }

    // Holds the earlier books, the book, and the file that is written over, as far as there are any.
    fn hold_each<'a>(
        &mut self,
        files: &HostRuntime,
        after: &[&'a str],
        book: Option<&'a str>,
        written: Option<&'a str>,
    ) -> Result<(), Unheld<'a>> {
        for path in after {
            self.hold(files, *path, false)?;
        }
        if let Some(path) = book {
            self.hold(files, path, false)?;
        }
        if let Some(path) = written {
            self.hold(files, path, true)?;
        }
        Ok(())
    }

    // Holds the file that is written over behind the runs of a chain, if there is one.
    fn hold_behind<'a>(
        &mut self,
        alloc: Global,
        files: &HostRuntime,
        chain: &str,
        written: Option<&'a str>,
    ) -> Result<(), Unheld<'a>> {
        let Some(path) = written else {
            return Ok(());
        };
        if let Some(found) = plain_file(files, path) {
            match is_of_chain(alloc, files, chain, &found) {
                Ok(false) => {}
                Ok(true) => return Err(Unheld::OfChain(path)),
                Err(refused) => return Err(Unheld::from(refused)),
            }
        }
        self.hold(files, path, true)
    }

    fn hold_for<'a>(
        &mut self,
        alloc: Global,
        files: &HostRuntime,
        command: &Command<'a>,
    ) -> Result<(), Unheld<'a>> {
        match command {
            Command::Replay(paths) => self.hold_each(files, &paths.after, None, paths.book),
            Command::Run(paths) => self.hold_each(files, &paths.after, None, paths.book),
            Command::ReplayNext(paths) | Command::RunNext(paths) => {
                self.hold_behind(alloc, files, paths.chain, paths.book)
            }
            Command::Audit(paths) => self.hold_each(files, &paths.after, Some(paths.book), None),
            Command::Serve(paths) => self.hold_each(files, &paths.after, None, None),
            // (Nothing is written over at OUT, which is made new.)
            Command::Seal(paths) => self.hold_each(files, &paths.after, Some(paths.book), None),
            Command::Check(paths) => self.hold_each(files, &paths.after, paths.book, None),
            Command::Report(paths) => {
                self.hold_each(files, &paths.after, Some(paths.book), paths.html)
            }
            Command::ReportLast(paths) => self.hold_behind(alloc, files, paths.chain, paths.html),
            Command::AuditChain(_) | Command::SealChain(_) | Command::Usage(_) | Command::Version =>
                Ok(()),
        }
    }
}

fn is_file_at(files: &HostRuntime, path: &Path, found: &Metadata) -> bool {
    match str::from_utf8(path.bytes()) {
        Ok(path) => is_same_at(files, path, found),
        Err(_) => false,
    }
}

fn is_same_at(files: &HostRuntime, path: &str, found: &Metadata) -> bool {
    match fs::metadata(files, path) {
        Ok(other) => is_same(&other, found),
        Err(_) => false,
    }
}

fn is_of_run(files: &HostRuntime, begun: &Begun, found: &Metadata) -> bool {
    is_file_at(files, &begun.policy, found) || is_file_at(files, &begun.book, found)
}

// (Behind a run that is under way nothing is done: whoever reads the chain says so.)
fn is_of_runs(files: &HostRuntime, chain: &ChainFile, found: &Metadata) -> bool {
    let is_whole = chain.under_way().is_none();
    is_whole
        && chain
            .ended()
            .iter()
            .any(|run| is_of_run(files, &run.begun, found))
}

// Whether this file is the chain's own, or a policy or a book of one of its runs. (Why there is no
// chain is told by whoever reads it.)
fn is_of_chain(
    alloc: Global,
    files: &HostRuntime,
    path: &str,
    found: &Metadata,
) -> Result<bool, NoMemory> {
    if is_same_at(files, path, found) {
        return Ok(true);
    }
    let mut source = file_at(files, path);
    match read_chain_file(alloc, &mut source) {
        Ok(chain) => Ok(is_of_runs(files, &chain, found)),
        Err(NoChain::NoMemory) => Err(NoMemory::of_fault()),
        Err(_) => Ok(false),
    }
}

// The words behind the program's name.
fn words_of(alloc: Global, mut args: Args) -> Result<Vec<String>, AllocError> {
    drop(args.next());
    let mut words = Vec::new(alloc);
    for word in args {
        words.push(word)?;
    }
    Ok(words)
}

fn texts<'a>(alloc: Global, words: &'a [String]) -> Result<Vec<&'a str>, AllocError> {
    let mut texts = Vec::new(alloc);
    for word in words {
        texts.push(word.as_str())?;
    }
    Ok(texts)
}

fn write_in_use<E: Sink>(err: &mut E, path: &str) -> Result<(), Failed> {
    write_all(err, b"book in use: ")?;
    write_all(err, path.as_bytes())?;
    write_all(err, b"\n")
}

// The status of a command line whose files can't be held, behind the line of why.
fn tell_unheld<E: Sink>(err: &mut E, unheld: Unheld) -> u8 {
    match unheld {
        Unheld::InUse(path) => {
            let _ = write_in_use(err, path);
            3
        }
        Unheld::OfChain(path) => refuse(err, Unready::BookExists(path)),
        Unheld::NoMemory => end(err, Ending::NoMemory),
    }
}

/// Holds the files of the command line; or gives the status, behind the line of why not. What its
/// words ask for, or that they ask for nothing, is told by whoever does it.
pub(crate) fn hold_books<E: Ledger>(rt: &HostRuntime, told: Blank) -> Result<HeldBooks, u8>
    requires { Opens told E.name E.parts }
{
    let mut err = StreamSink {
        stream: rt.stderr(),
        failures: Count::<E>::new(told),
    };
    let alloc = rt.alloc();
    let mut held = HeldBooks {
        files: Vec::new(alloc),
    };
    match hold_asked(rt, alloc, &mut held, &mut err) {
        Ok(()) => Ok(held),
        Err(status) => Err(status),
    }
}

// Holds what the words ask for.
fn hold_asked<E: Sink>(
    rt: &HostRuntime,
    alloc: Global,
    held: &mut HeldBooks,
    err: &mut E,
) -> Result<(), u8> {
    let args = match env::args(&(rt, alloc)) {
        Ok(args) => args,
        Err(fault) => return unasked(err, ArgFault::from(fault)),
    };
    let words = match words_of(alloc, args) {
        Ok(words) => words,
        Err(refused) => return unasked(err, ArgFault::from(refused)),
    };
    let texts = match texts(alloc, &words) {
        Ok(texts) => texts,
        Err(refused) => return unasked(err, ArgFault::from(refused)),
    };
    let command = match read_words(alloc, &texts) {
        Ok(command) => command,
        Err(fault) => return unasked(err, fault),
    };
    let asked = held.hold_for(alloc, rt, &command);
    drop(command);
    match asked {
        Ok(()) => Ok(()),
        Err(why) => Err(tell_unheld(err, why)),
    }
}

// Words that ask for nothing hold nothing.
fn unasked<E: Sink>(err: &mut E, fault: ArgFault) -> Result<(), u8> {
    match fault {
        ArgFault::BadArguments => Ok(()),
        ArgFault::NoMemory => Err(end(err, Ending::NoMemory)),
    }
}
