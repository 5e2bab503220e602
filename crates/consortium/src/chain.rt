//! The file of a chain: one server, or one seal, holds it at a time, reads it by the file that it
//! opened, and appends lines to it, each of which is on the disk before anything else is done. A run
//! is entered as ended when its book is on the disk.
//!
//! That it is locked, that a line or a book is on the disk, and that what could not be written whole
//! is taken back, no contract can say. `tests/live` tries the first and the last.

use crate::book_file::{is_named_on_disk, is_on_disk};
use book_stream::AuditFault;
use chain_file::{ChainFile, EnterFault, Path};
use chain_runs::{EndFault, end_run};
use memchr::memrchr;
use program_commands::{Ending, Unready, end, refuse};
use program_files::{ListedFile, read_again, write_again};
use std::alloc::{AllocError, Global};
use std::fs::{File, OpenOptions};
use std::io::{Seek, SeekFrom};
use wall_labels::{NoMemory, Sink};
use wall_policy::Policy;

/// The file of a chain, which nobody else goes on with meanwhile.
#[derive(Drop)]
pub(crate) struct HeldFile<'a> {
    pub(crate) files: &'a HostRuntime,
    pub(crate) path: &'a str,
    pub(crate) file: File,
}

impl<'a> HeldFile<'a> {
    /// Opens the file at this path, which is there, and locks it; or the status, behind the line of
    /// the fault.
    pub(crate) fn hold<E: Sink>(
        files: &'a HostRuntime,
        path: &'a str,
        err: &mut E,
    ) -> Result<HeldFile<'a>, u8> {
        let mut how = OpenOptions::new();
        how.read(true).append(true);
        let Ok(file) = how.open(files, path) else {
            return Err(end(err, Ending::ReadFault));
        };
        match file.try_lock() {
            Ok(()) => Ok(HeldFile { files, path, file }),
            Err(_) => Err(refuse(err, Unready::InUse(path))),
        }
    }

    /// A reader of it, from its beginning: another handle of the file that is locked. One that
    /// can't be had fails at its first read.
    pub(crate) fn reader(&mut self) -> ListedFile<'a, HostRuntime> {
        let is_at_start = self.file.seek(SeekFrom::Start(0)).is_ok();
        let file = match self.file.try_clone() {
            Ok(file) if is_at_start => Some(file),
            _ => None,
        };
        // (Without a handle nothing is read: there is no file at the empty path.)
        let path = match file {
            Some(_) => self.path,
            None => "",
        };
        ListedFile {
            rt: self.files,
            path,
            file,
            has_failed: false,
            cause: None,
        }
    }

    // How long it is.
    fn len(&self) -> Option<u64> {
        match self.file.metadata() {
            Ok(found) => Some(found.len()),
            Err(_) => None,
        }
    }

    // Writes a line, as far as it goes: each write takes a byte at least.
    fn write(&mut self, line: &[u8]) -> bool {
        let mut rest = line;
        for _ in 0..line.len() {
            if rest.is_empty() {
                break;
            }
            match write_again(&mut self.file, rest) {
                Ok(n) if n > 0 => rest = rest.get(n..).unwrap_or(&[]),
                _ => return false,
            }
        }
        rest.is_empty() && self.file.sync_all().is_ok()
    }

    /// Appends a line, which is on the disk then; or takes back what was written of it.
    pub(crate) fn append(&mut self, line: &[u8]) -> bool {
        let Some(before) = self.len() else {
            return false;
        };
        if self.write(line) {
            return true;
        }
        let _ = self.file.set_len(before);
        let _ = self.file.sync_all();
        false
    }

    // How many bytes its whole lines have.
    fn whole_lines(&mut self) -> Option<u64> {
        if self.file.seek(SeekFrom::Start(0)).is_err() {
            return None;
        }
        let mut buffer = [0u8; 4096];
        let mut whole: u64 = 0;
        let mut all: u64 = 0;
        for _ in 0..u64::MAX {
            let Ok(n) = read_again(&mut self.file, &mut buffer) else {
                return None;
            };
            if n == 0 {
                return Some(whole);
            }
            let bytes = buffer.get(..n).unwrap_or(&[]);
            if let Some(last) = memrchr(b'\n', bytes) {
                whole = all.saturating_add(last as u64).saturating_add(1);
            }
            all = all.saturating_add(n as u64);
        }
        None
    }

    /// Cuts off what stands behind its last whole line, as a power cut may leave it: nothing was
    /// done by it. False where that failed. A file without a whole line stays as it is.
    pub(crate) fn cut_off(&mut self) -> bool {
        match (self.whole_lines(), self.len()) {
            (Some(0), Some(_)) => true,
            (Some(whole), Some(len)) => whole == len || self.file.set_len(whole).is_ok(),
            _ => false,
        }
    }
}

/// A chain, on which the next run begins or the last one ends.
#[derive(Drop)]
pub(crate) struct HeldChain<'a> {
    pub(crate) held: HeldFile<'a>,
    pub(crate) chain: ChainFile,
}

/// A reader of the file at this path.
pub(crate) fn file_at<'a>(files: &'a HostRuntime, path: &'a str) -> ListedFile<'a, HostRuntime> {
    ListedFile {
        rt: files,
        path,
        file: None,
        has_failed: false,
        cause: None,
    }
}

// The path of a file, as a chain has it.
fn path_of(alloc: Global, text: &str) -> Result<Option<Path>, AllocError> {
    let bytes = Vec::from_slice(alloc, text.as_bytes())?;
    Ok(Path::new(bytes))
}

// Why a line is not entered. (No run begins where one is under way, or ends where none is: both were
// looked at.)
fn not_entered(fault: EnterFault) -> Unentered {
    match fault {
        EnterFault::NoMemory => Unentered::For(Ending::NoMemory),
        EnterFault::OutOfOrder => Unentered::For(Ending::WriteFault),
    }
}

/// Why a line does not stand in the file of a chain: then the file is as it was, unless what was
/// written of the line could not be taken back either.
#[derive(Clone, Copy)]
pub(crate) enum Unentered {
    /// The program ends so for it.
    For(Ending<'static>),
    /// The book of the run is not whole: a seal ends the run.
    NotWhole,
}

// Why a run does not end by its book.
fn not_ended(fault: EndFault) -> Unentered {
    match fault {
        EndFault::BadBook(fault) => match fault {
            AuditFault::Read => Unentered::For(Ending::ReadFault),
            AuditFault::TooMany => Unentered::For(Ending::Exhausted),
            _ => Unentered::NotWhole,
        },
        EndFault::Refused(fault) => not_entered(fault),
    }
}

impl<'a> HeldChain<'a> {
    // Appends a line.
    fn enter(&mut self, line: &[u8]) -> Result<(), Unentered> {
        if self.held.append(line) {
            Ok(())
        } else {
            Err(Unentered::For(Ending::WriteFault))
        }
    }

    /// Enters the run that begins, under the policy file of this digest.
    pub(crate) fn begin(
        &mut self,
        alloc: Global,
        policy: &str,
        digest: [u8; 32],
        book: &str,
    ) -> Result<(), Unentered> {
        let policy = match path_of(alloc, policy) {
            Ok(policy) => policy,
            Err(refused) => return Err(Unentered::For(Ending::from(NoMemory::from(refused)))),
        };
        let book = match path_of(alloc, book) {
            Ok(book) => book,
            Err(refused) => {
                drop(policy);
                return Err(Unentered::For(Ending::from(NoMemory::from(refused))));
            }
        };
        // (A file at the empty path was neither read nor made.)
        let (Some(policy), Some(book)) = (policy, book) else {
            return Err(Unentered::For(Ending::WriteFault));
        };
        match self.chain.begin_run(alloc, policy, digest, book) {
            Ok(line) => self.enter(&line),
            Err(fault) => Err(not_entered(fault)),
        }
    }

    /// Enters that the run has ended, whose book is at this path: it is on the disk, as far as the
    /// system says, is read once more, and is sound under the policy. Else the run has not ended.
    pub(crate) fn end(
        &mut self,
        alloc: Global,
        policy: &Policy,
        book: &str,
    ) -> Result<(), Unentered> {
        let files = self.held.files;
        if !is_on_disk(files, book) || !is_named_on_disk(files, book) {
            return Err(Unentered::For(Ending::WriteFault));
        }
        let mut book = file_at(files, book);
        match end_run(alloc, policy, &mut book, &mut self.chain) {
            Ok(line) => self.enter(&line),
            Err(fault) => Err(not_ended(fault)),
        }
    }

    /// Whether a run that has ended has its book at this path.
    pub(crate) fn has_book(&self, path: &str) -> bool {
        self.chain
            .ended()
            .iter()
            .any(|run| run.begun.book.bytes() == path.as_bytes())
    }
}
