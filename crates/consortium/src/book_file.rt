//! The file of a server's book: made new for its user alone, locked while it is written, and synced
//! where that is asked for. Where nothing was served, it is taken away again.
//!
//! That the file is new, that it is locked, and that what was synced outlives the machine, no
//! contract can say. `tests/live` looks at all but the last, with the built program.
ghost use Rattle.program_line.specs.Kinds.{Opens};

use crate::loss::{Lost, TellsBook};
use live_book::{BookSink, SinkReceipt};
use program_commands::{Ending, Unready, end, refuse};
use program_files::{Count, only_new, write_again};
use std::fs;
use std::fs::File;
use std::io::ErrorKind;
use std::os::unix::fs::OpenOptionsExt;
use std::sync::ledger::{Blank, Ledger};
use wall_labels::{Failed, Sink};

// The mode of a book: whatever mask the program was started with, nobody but its user reads it.
const OWNER_ALONE: u32 = 0o600;

/// A file that was made for a book.
#[derive(Drop)]
pub(crate) struct NewBook {
    file: File,
    // Whether it is to be synced behind each post that settles an instance.
    is_synced: bool,
}

/// A file that was made for a book, with a new ledger for its failures, and who is told of one.
pub(crate) struct CountedBook<T> {
    pub(crate) book: NewBook,
    pub(crate) blank: Blank,
    pub(crate) told: T,
}

/// The book's file, while a server writes to it.
#[derive(Drop)]
pub(crate) struct BookFile<L: Ledger, T: TellsBook + Drop> {
    file: File,
    failures: Count<L>,
    is_synced: bool,
    told: T,
}

impl<L: Ledger, T: TellsBook + Drop> BookFile<L, T> {
    /// To be written to this file.
    pub(crate) fn new(counted: CountedBook<T>) -> BookFile<L, T>
        requires { Opens counted.blank L.name L.parts }
    {
        let CountedBook { book, blank, told } = counted;
        let NewBook { file, is_synced } = book;
        BookFile {
            file,
            failures: Count::<L>::new(blank),
            is_synced,
            told,
        }
    }

    /// Whether all that was written is on the disk, as far as the system says, or need not be.
    pub(crate) fn is_kept(&self) -> bool {
        !self.is_synced || self.file.sync_data().is_ok()
    }
}

impl<L: Ledger, T: TellsBook + Drop> Sink for BookFile<L, T> {
    ghost failures = { λ s. s.failures };

    // (The file is there already. What the system says of it goes to the operator at once.)
    fn write(&mut self, bytes: &[u8]) -> Result<usize, Failed> {
        if bytes.is_empty() {
            return Ok(0);
        }
        let lost = match write_again(&mut self.file, bytes) {
            Ok(0) => Lost::Untaken,
            Ok(n) => {
                self.told.written(&bytes[..n]);
                return Ok(n);
            }
            Err(error) => Lost::by(&error),
        };
        self.failures.rise();
        self.told.lost(lost);
        Err(Failed)
    }
}

/// That the file had, when this was made, all that was written to it by then. Only a book's file
/// makes one.
#[derive(Drop)]
pub(crate) struct FileReceipt {
    of: (),
}

impl SinkReceipt for FileReceipt {}

impl<L: Ledger, T: TellsBook + Drop> BookSink for BookFile<L, T> {
    type Receipt = FileReceipt;

    fn settled(&mut self) -> Result<(), Failed> {
        if !self.is_synced {
            return Ok(());
        }
        let lost = match self.file.sync_data() {
            Ok(()) => return Ok(()),
            Err(error) => Lost::by(&error),
        };
        self.failures.rise();
        self.told.lost(lost);
        Err(Failed)
    }

    fn receipt(&self) -> FileReceipt {
        FileReceipt { of: () }
    }
}

/// Takes away the file of a book by which nothing was served.
pub(crate) fn take_away(files: &HostRuntime, path: &str) {
    let _ = fs::remove_file(files, path);
}

// The folder of a file.
fn folder_of(path: &str) -> &str {
    match path.rfind('/') {
        None => ".",
        Some(0) => "/",
        Some(end) => path.get(..end).unwrap_or("."),
    }
}

/// Whether the name of a file is on the disk, as far as the system says.
pub(crate) fn is_named_on_disk(files: &HostRuntime, path: &str) -> bool {
    match File::open(files, folder_of(path)) {
        Ok(folder) => folder.sync_all().is_ok(),
        Err(_) => false,
    }
}

/// Whether what a file has is on the disk, as far as the system says.
pub(crate) fn is_on_disk(files: &HostRuntime, path: &str) -> bool {
    match File::open(files, path) {
        Ok(file) => file.sync_all().is_ok(),
        Err(_) => false,
    }
}

/// What of a book's file is to be on the disk, and when.
#[derive(Clone, Copy)]
pub(crate) struct Lasting {
    /// Its name, before anything is written to it.
    pub(crate) name: bool,
    /// What was written to it, behind each post that settles an instance.
    pub(crate) posts: bool,
}

// Whether the file is locked now, and where that is asked for its name on the disk.
fn is_ready(files: &HostRuntime, path: &str, file: &File, lasting: Lasting) -> bool {
    file.try_lock().is_ok() && (!lasting.name || is_named_on_disk(files, path))
}

/// Makes a file that is not there, for the user of the program alone, and locks it; or the status,
/// behind the line of the fault.
pub(crate) fn new_book<E: Sink>(
    files: &HostRuntime,
    path: &str,
    lasting: Lasting,
    err: &mut E,
) -> Result<NewBook, u8> {
    let mut how = only_new();
    how.mode(OWNER_ALONE);
    match how.open(files, path) {
        Ok(file) => {
            if is_ready(files, path, &file, lasting) {
                let is_synced = lasting.posts;
                return Ok(NewBook { file, is_synced });
            }
            take_away(files, path);
            Err(end(err, Ending::WriteFault))
        }
        Err(error) => match error.kind() {
            ErrorKind::AlreadyExists => Err(refuse(err, Unready::BookExists(path))),
            _ => Err(end(err, Ending::WriteFault)),
        },
    }
}
