//! A system in memory, for tests: its words, six files, and streams that keep what they are given.
use program_line::{Complaints, Output};
use std::alloc::Allocator;
use std::cell::{Cell, RefCell};
use std::env::FillError;
use std::fs::{Metadata, OpenFile, OpenOptions};
use std::io;
use std::io::{ErrorKind, Read, Seek, SeekFrom, Write};
use std::rt::{Env, Files};

/// The files: four to be read, `w`, `s`, `b` and `e`, which is empty, one to be written, `k`, and
/// one that is not there until it is made new, `n`. There are no others.
#[derive(Clone, Copy, Debug, PartialEq, Eq)]
pub enum Name {
    Policy,
    Script,
    Book,
    Empty,
    Kept,
    New,
}

/// The error of the call that fails. These few stand for all kinds, whose 42 would make each proof
/// larger.
#[derive(Clone, Copy)]
pub enum Refusal {
    Other,
    Interrupted,
    PermissionDenied,
    WouldBlock,
    TimedOut,
    AlreadyExists,
}

impl Refusal {
    fn error(self) -> io::Error {
        match self {
            Refusal::Other => io::Error::from(ErrorKind::Other),
            Refusal::Interrupted => io::Error::from(ErrorKind::Interrupted),
            Refusal::PermissionDenied => io::Error::from(ErrorKind::PermissionDenied),
            Refusal::WouldBlock => io::Error::from(ErrorKind::WouldBlock),
            Refusal::TimedOut => io::Error::from(ErrorKind::TimedOut),
            Refusal::AlreadyExists => io::Error::from(ErrorKind::AlreadyExists),
        }
    }
}

/// What the files hold, how they give and take it, and what was done with them.
#[derive(Drop)]
pub struct Disk<'a> {
    pub words: &'a [&'a [u8]],
    pub policy: &'a [u8],
    pub script: &'a [u8],
    pub book: &'a [u8],
    /// What was written to `k` or `n` since one of them was made last.
    pub kept: RefCell<Vec<u8>>,
    /// Whether `n` was made.
    pub is_new_made: Cell<bool>,
    /// The most bytes that one read gives, or one write takes.
    pub step: usize,
    /// How many calls go well before one fails.
    pub left: Cell<u64>,
    /// The error of that call.
    pub refusal: Refusal,
    /// The file at which it failed.
    pub failed: Cell<Option<Name>>,
    /// A line for each file that was asked for, its name byte for byte, and a line `!` for each
    /// call that no command makes.
    pub opened: RefCell<Vec<u8>>,
    /// How many were opened and are not closed.
    pub open: Cell<u64>,
}

impl<'a> Disk<'a> {
    // One more call at this file; the last one fails.
    fn turn(&self, name: Name) -> io::Result<()> {
        let left = self.left.get();
        if left == 0 {
            self.failed.set(Some(name));
            self.left.set(u64::MAX);
            return Err(self.refusal.error());
        }
        self.left.set(left - 1);
        Ok(())
    }

    pub(crate) fn note(&self, line: &str) -> io::Result<()> {
        match self.opened.try_borrow_mut() {
            Ok(mut opened) => {
                opened.extend_from_slice(line.as_bytes())?;
                opened.push(b'\n')?;
                Ok(())
            }
            Err(_) => Err(refused()),
        }
    }

    // A call that no command makes: it is seen among the files that were asked for.
    fn unasked(&self) -> io::Error {
        let _ = self.note("!");
        refused()
    }

    // The file of this name. What was asked for is seen, also where there is no such file.
    fn asked(&self, path: &str) -> io::Result<Name> {
        self.note(path)?;
        match path {
            "w" => Ok(Name::Policy),
            "s" => Ok(Name::Script),
            "b" => Ok(Name::Book),
            "e" => Ok(Name::Empty),
            "k" => Ok(Name::Kept),
            "n" => Ok(Name::New),
            _ => Err(io::Error::from(ErrorKind::NotFound)),
        }
    }

    fn admit_to_read(&self, name: Name) -> io::Result<()> {
        match name {
            Name::Kept | Name::New => Err(refused()),
            _ => Ok(()),
        }
    }

    // The new file is made but where it is not there, and nothing may be lost that was.
    fn admit_new(&self, how: &OpenOptions) -> io::Result<()> {
        if self.is_new_made.get() {
            return Err(io::Error::from(ErrorKind::AlreadyExists));
        }
        if how.asks_create() || how.asks_truncate() || !how.asks_create_new() {
            return Err(refused());
        }
        self.is_new_made.set(true);
        Ok(())
    }

    // Gives the file anew where it is made, and refuses one that is opened otherwise than its use
    // wants, or than a system would.
    fn admit(&self, name: Name, how: &OpenOptions) -> io::Result<()> {
        how.check()?;
        if how.asks_append() {
            return Err(refused());
        }
        if !how.asks_write() {
            return self.admit_to_read(name);
        }
        if how.asks_read() {
            return Err(refused());
        }
        if name == Name::New {
            self.admit_new(how)?;
        } else if name != Name::Kept || !is_to_be_made(how) {
            return Err(refused());
        }
        match self.kept.try_borrow_mut() {
            Ok(mut kept) => {
                kept.clear();
                Ok(())
            }
            Err(_) => Err(refused()),
        }
    }
}

fn refused() -> io::Error {
    io::Error::from(ErrorKind::Other)
}

// Whether it asks for a file in place of one that was there.
fn is_to_be_made(how: &OpenOptions) -> bool {
    how.asks_create() && how.asks_truncate() && !how.asks_create_new()
}

/// One of the files, opened.
pub struct Opened<'a> {
    disk: &'a Disk<'a>,
    name: Name,
    rest: &'a [u8],
}

// By hand, so that one that is never closed is seen.
impl<'a> Drop for Opened<'a> {
    fn drop(self) {
        let Opened {
            disk,
            name: _,
            rest: _,
        } = self;
        disk.open.set(disk.open.get().wrapping_sub(1));
    }
}

impl<'a> Read for Opened<'a> {
    fn read(&mut self, buffer: &mut [u8]) -> io::Result<usize> {
        self.disk.turn(self.name)?;
        let rest = self.rest;
        let count = rest.len().min(buffer.len()).min(self.disk.step);
        let (prefix, after) = rest.split_at(count);
        buffer[..count].copy_from_slice(prefix);
        self.rest = after;
        Ok(count)
    }
}

impl<'a> Write for Opened<'a> {
    fn write(&mut self, bytes: &[u8]) -> io::Result<usize> {
        if self.name != Name::Kept && self.name != Name::New {
            return Err(self.disk.unasked());
        }
        self.disk.turn(self.name)?;
        let count = bytes.len().min(self.disk.step);
        match self.disk.kept.try_borrow_mut() {
            Ok(mut kept) => {
                kept.extend_from_slice(&bytes[..count])?;
                Ok(count)
            }
            Err(_) => Err(refused()),
        }
    }

    fn flush(&mut self) -> io::Result<()> {
        Err(self.disk.unasked())
    }
}

impl<'a> Seek for Opened<'a> {
    fn seek(&mut self, _to: SeekFrom) -> io::Result<u64> {
        Err(self.disk.unasked())
    }
}

impl<'a> OpenFile for Opened<'a> {
    fn metadata(&self) -> io::Result<Metadata> {
        Err(self.disk.unasked())
    }

    fn set_len(&self, _size: u64) -> io::Result<()> {
        Err(self.disk.unasked())
    }

    fn sync_all(&self) -> io::Result<()> {
        Err(self.disk.unasked())
    }

    fn sync_data(&self) -> io::Result<()> {
        Err(self.disk.unasked())
    }
}

/// The files and words of a disk.
#[derive(Drop)]
pub struct System<'a> {
    pub disk: &'a Disk<'a>,
}

impl<'a> Files for System<'a> {
    type File = Opened<'a>;

    type Dir = Opened<'a>;

    fn open_file(&self, how: &OpenOptions, path: &str) -> io::Result<Opened<'a>> {
        let disk = self.disk;
        let name = disk.asked(path)?;
        match disk.turn(name) {
            Ok(()) => {}
            // The system's own opening is tried again where a signal cut it short.
            Err(error) => {
                if error.kind() != ErrorKind::Interrupted {
                    return Err(error);
                }
            }
        }
        disk.admit(name, how)?;
        disk.open.set(disk.open.get().wrapping_add(1));
        let rest = match name {
            Name::Policy => disk.policy,
            Name::Script => disk.script,
            Name::Book => disk.book,
            Name::Empty | Name::Kept | Name::New => b"".as_slice(),
        };
        Ok(Opened { disk, name, rest })
    }

    fn open_dir(&self, _path: &str) -> io::Result<Opened<'a>> {
        Err(self.disk.unasked())
    }

    fn metadata(&self, _path: &str) -> io::Result<Metadata> {
        Err(self.disk.unasked())
    }

    fn symlink_metadata(&self, _path: &str) -> io::Result<Metadata> {
        Err(self.disk.unasked())
    }

    fn copy(&self, _from: &str, _to: &str) -> io::Result<u64> {
        Err(self.disk.unasked())
    }

    fn rename(&self, _from: &str, _to: &str) -> io::Result<()> {
        Err(self.disk.unasked())
    }

    fn remove_file(&self, _path: &str) -> io::Result<()> {
        Err(self.disk.unasked())
    }

    fn create_dir(&self, _path: &str) -> io::Result<()> {
        Err(self.disk.unasked())
    }

    fn remove_dir(&self, _path: &str) -> io::Result<()> {
        Err(self.disk.unasked())
    }

    fn remove_dir_all<B: Allocator>(&self, _alloc: B, _path: &str) -> io::Result<()> {
        Err(self.disk.unasked())
    }
}

impl<'a> Env for System<'a> {
    fn arg(&self, i: usize, buffer: &mut [u8]) -> Result<usize, FillError> {
        let words = self.disk.words;
        if i >= words.len() {
            return Err(FillError::NotPresent);
        }
        let word = words[i];
        if word.len() > buffer.len() {
            return Err(FillError::TooLong);
        }
        buffer[..word.len()].copy_from_slice(word);
        Ok(word.len())
    }

    fn var(&self, _name: &str, _buffer: &mut [u8]) -> Result<usize, FillError> {
        Err(FillError::NotPresent)
    }

    fn var_at(&self, _i: usize, _buffer: &mut [u8]) -> Result<usize, FillError> {
        Err(FillError::NotPresent)
    }
}

/// A stream that keeps what it is given, in pieces of no more than `step` bytes. One call fails.
#[derive(Drop)]
pub struct Stream<'a> {
    pub kept: &'a RefCell<Vec<u8>>,
    pub step: usize,
    /// How many calls go well before one fails.
    pub left: u64,
    /// The error of that call.
    pub refusal: Refusal,
}

impl<'a> Write for Stream<'a> {
    fn write(&mut self, bytes: &[u8]) -> io::Result<usize> {
        if self.left == 0 {
            self.left = u64::MAX;
            return Err(self.refusal.error());
        }
        self.left -= 1;
        let count = bytes.len().min(self.step);
        match self.kept.try_borrow_mut() {
            Ok(mut kept) => {
                kept.extend_from_slice(&bytes[..count])?;
                Ok(count)
            }
            Err(_) => Err(refused()),
        }
    }

    // No command asks for it: it is seen among the bytes.
    fn flush(&mut self) -> io::Result<()> {
        if let Ok(mut kept) = self.kept.try_borrow_mut() {
            kept.push(b'!')?;
        }
        Err(refused())
    }
}

impl<'a> Output for Stream<'a> {}

impl<'a> Complaints for Stream<'a> {}
