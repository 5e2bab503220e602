//! The system in memory itself: it refuses what no command is to do, and it is seen that it was
//! asked. A test that rests on it would else show nothing.
//!
//! A disk is lent to the steps of a test and handed to `drop` behind them: let go by itself, it would
//! be taken apart in the proof at each way out.
use crate::disk::{Disk, Name, Refusal, Stream, System};
use crate::uses::{disk_of, taken};
use std::cell::RefCell;
use std::fs::{File, OpenFile, OpenOptions};
use std::io::{Read, Seek, SeekFrom, Write};
use std::process::Abort;
use std::rt::Files;
use std::test::Fail;

// No command makes these calls over names: each is an error, and is noted.
#[test]
fn calls_over_names_are_refused(rt: HostRuntime) -> Result<(), Fail> {
    let disk = disk_of(b"", rt.alloc());
    let ended = refuses_calls_over_names(&rt, &disk);
    drop(disk);
    ended
}

fn refuses_calls_over_names(rt: &(impl AllocGlobal + Abort), disk: &Disk) -> Result<(), Fail> {
    let system = System { disk };
    assert!(rt; system.open_dir("w").is_err());
    assert!(rt; system.metadata("w").is_err());
    assert!(rt; system.symlink_metadata("w").is_err());
    assert!(rt; system.copy("w", "k").is_err());
    assert!(rt; system.rename("w", "k").is_err());
    assert!(rt; system.remove_file("k").is_err());
    assert!(rt; system.create_dir("k").is_err());
    assert!(rt; system.remove_dir("k").is_err());
    assert!(rt; system.remove_dir_all(rt.alloc(), "k").is_err());
    let noted = taken(&disk.opened, rt.alloc())?;
    assert!(rt; noted.as_slice() == b"!\n!\n!\n!\n!\n!\n!\n!\n!\n".as_slice());
    assert_eq!(rt; disk.open.get(), 0);
    Ok(())
}

// Nor these at a file that is open, be it one to read or one to write.
#[test]
fn calls_at_a_file_are_refused(rt: HostRuntime) -> Result<(), Fail> {
    let disk = disk_of(b"", rt.alloc());
    let ended = refuses_calls_at_files(&rt, &disk);
    drop(disk);
    ended
}

fn refuses_calls_at_files(rt: &(impl AllocGlobal + Abort), disk: &Disk) -> Result<(), Fail> {
    let system = System { disk };
    for mut file in [File::open(&system, "w")?, File::create(&system, "k")?] {
        let _ = taken(&disk.opened, rt.alloc())?;
        assert!(rt; file.metadata().is_err());
        assert!(rt; file.set_len(0).is_err());
        assert!(rt; file.sync_all().is_err());
        assert!(rt; file.sync_data().is_err());
        assert!(rt; file.seek(SeekFrom::Start(0)).is_err());
        assert!(rt; file.flush().is_err());
        let noted = taken(&disk.opened, rt.alloc())?;
        assert!(rt; noted.as_slice() == b"!\n!\n!\n!\n!\n!\n".as_slice());
    }
    Ok(())
}

// A file that is read takes no bytes. One that is left open is counted until it is let go.
#[test]
fn a_file_to_read_is_not_written(rt: HostRuntime) -> Result<(), Fail> {
    let disk = disk_of(b"text", rt.alloc());
    let ended = does_not_write_what_is_read(&rt, &disk);
    drop(disk);
    ended
}

fn does_not_write_what_is_read(rt: &(impl AllocGlobal + Abort), disk: &Disk) -> Result<(), Fail> {
    let system = System { disk };
    let mut file = File::open(&system, "w")?;
    assert_eq!(rt; disk.open.get(), 1);
    assert!(rt; file.write(b"x").is_err());
    let mut piece = [0; 8];
    assert_eq!(rt; file.read(&mut piece)?, 4);
    assert!(rt; piece.starts_with(b"text"));
    drop(file);
    assert_eq!(rt; disk.open.get(), 0);
    let noted = taken(&disk.opened, rt.alloc())?;
    assert!(rt; noted.as_slice() == b"w\n!\n".as_slice());
    assert!(rt; taken(&disk.kept, rt.alloc())?.is_empty());
    Ok(())
}

// The book is opened but to be made anew, and the other files but to be read. What is refused
// leaves it as it was.
#[test]
fn a_file_is_opened_for_its_use_alone(rt: HostRuntime) -> Result<(), Fail> {
    let disk = disk_of(b"", rt.alloc());
    let ended = opens_for_use_alone(&rt, &disk);
    drop(disk);
    ended
}

fn opens_for_use_alone(rt: &(impl AllocGlobal + Abort), disk: &Disk) -> Result<(), Fail> {
    let system = System { disk };
    let mut make = OpenOptions::new();
    make.write(true).create(true).truncate(true);
    assert_eq!(rt; make.open(&system, "k")?.write(b"x")?, 1);
    for name in ["w", "s", "b", "e", "x"] {
        assert!(rt; make.open(&system, name).is_err(), "{name}");
    }
    let mut read = OpenOptions::new();
    read.read(true);
    for name in ["w", "s", "b", "e"] {
        assert!(rt; read.open(&system, name).is_ok(), "{name}");
    }
    let mut append = OpenOptions::new();
    append.append(true).create(true);
    let mut only_new = OpenOptions::new();
    only_new.write(true).create_new(true);
    let mut over = OpenOptions::new();
    over.write(true).create(true);
    let mut old_alone = OpenOptions::new();
    old_alone.write(true).truncate(true);
    let mut both = make;
    both.read(true);
    for how in [&read, &append, &only_new, &over, &old_alone, &both] {
        assert!(rt; how.open(&system, "k").is_err());
    }
    assert!(rt; taken(&disk.kept, rt.alloc())?.as_slice() == b"x".as_slice());
    let asked = b"k\nw\ns\nb\ne\nx\nw\ns\nb\ne\nk\nk\nk\nk\nk\nk\n".as_slice();
    assert!(rt; taken(&disk.opened, rt.alloc())?.as_slice() == asked);
    assert_eq!(rt; disk.open.get(), 0);
    Ok(())
}

// Made again, the book is empty. A call that fails is told by its file, and the next goes well.
#[test]
fn a_book_is_made_anew(rt: HostRuntime) -> Result<(), Fail> {
    let disk = disk_of(b"", rt.alloc());
    let ended = makes_a_book_anew(&rt, &disk);
    drop(disk);
    ended
}

fn makes_a_book_anew(rt: &(impl AllocGlobal + Abort), disk: &Disk) -> Result<(), Fail> {
    let system = System { disk };
    assert_eq!(rt; File::create(&system, "k")?.write(b"old")?, 3);
    disk.left.set(1);
    let mut book = File::create(&system, "k")?;
    assert!(rt; book.write(b"new").is_err());
    assert_eq!(rt; disk.failed.get(), Some(Name::Kept));
    assert!(rt; taken(&disk.kept, rt.alloc())?.is_empty());
    assert_eq!(rt; book.write(b"new")?, 3);
    assert!(rt; taken(&disk.kept, rt.alloc())?.as_slice() == b"new".as_slice());
    Ok(())
}

// The new file is made once, and only as one that was not there. What refuses it leaves it so.
#[test]
fn a_new_file_is_made_once(rt: HostRuntime) -> Result<(), Fail> {
    let disk = disk_of(b"", rt.alloc());
    let ended = makes_a_new_file_once(&rt, &disk);
    drop(disk);
    ended
}

fn makes_a_new_file_once(rt: &(impl AllocGlobal + Abort), disk: &Disk) -> Result<(), Fail> {
    let system = System { disk };
    let only_new = program_files::only_new();
    assert!(rt; File::open(&system, "n").is_err());
    assert!(rt; File::create(&system, "n").is_err());
    assert_eq!(rt; only_new.open(&system, "n")?.write(b"new")?, 3);
    assert!(rt; only_new.open(&system, "n").is_err());
    assert!(rt; File::create(&system, "n").is_err());
    assert!(rt; taken(&disk.kept, rt.alloc())?.as_slice() == b"new".as_slice());
    assert_eq!(rt; disk.open.get(), 0);
    Ok(())
}

// A stream that is asked to flush is seen to have been.
#[test]
fn a_flush_of_a_stream_is_seen(rt: HostRuntime) -> Result<(), Fail> {
    let kept = RefCell::new(Vec::new(rt.alloc()));
    let mut stream = Stream {
        kept: &kept,
        step: 2,
        left: 1,
        refusal: Refusal::Other,
    };
    assert_eq!(&rt; stream.write(b"abc")?, 2);
    assert!(&rt; stream.write(b"c").is_err());
    assert!(&rt; stream.flush().is_err());
    assert!(&rt; taken(&kept, rt.alloc())?.as_slice() == b"ab!".as_slice());
    Ok(())
}
