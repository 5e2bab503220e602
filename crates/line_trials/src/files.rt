//! The commands over a system in memory: long files, short reads and writes, and each call at a
//! file failing in turn.
ghost use Rattle.std.specs.Prelude.{◌≡◌};

use crate::disk::{Disk, Name, Refusal, Stream, System};
use crate::uses::{
    Case, Ended, Faults, Long, NONE, comes_so, commands, disk_of, is_as_told, long_texts, taken,
    used,
};
use program_files::{Count, FileSink, StreamSink};
use std::cell::RefCell;
use std::io::Eprint;
use std::marker::Brand;
use std::process::{Abort, ExitCode};
use std::sync::Wait;
use std::sync::ledger::{Blank, Ledger};
use std::test::Fail;
use std::thread::Threads;
use trial_kit::pages;
use wall_labels::{Failed, Sink};

#[test]
fn long_files_are_read_and_written_whole(rt: HostRuntime) -> Result<(), Fail> {
    for (posts, step) in [(2500, usize::MAX), (1100, 1000), (30, 1)] {
        let long = long_texts(&rt, posts)?;
        for case in commands(&long) {
            assert!(&rt; comes_so(&rt, &case, Faults { step, ..NONE })?, "{step}");
        }
    }
    Ok(())
}

// How the calls of a use fail, in turn: after how many posts, the most bytes of a call, the error.
const WAYS: &[(u64, usize, Refusal)] = &[
    (30, 53, Refusal::Other),
    (30, usize::MAX, Refusal::Other),
    (30, usize::MAX, Refusal::PermissionDenied),
    (30, usize::MAX, Refusal::WouldBlock),
    (30, usize::MAX, Refusal::TimedOut),
    (30, usize::MAX, Refusal::AlreadyExists),
    (2500, usize::MAX, Refusal::Other),
];

// The most bytes that one read asks for, also of a book that goes through an audit while it is
// read, and the least that are written before the last.
const READ: usize = 1024;

const AUDITED: usize = 4096;

const WRITTEN: usize = 65536;

fn is_seal(case: &Case) -> bool {
    case.opened.contains(&b'n')
}

// The most bytes that one read asks for of the last book that is opened. (The books before it are
// read as by any other command.)
fn last_piece(case: &Case) -> usize {
    if let [_, command, ..] = case.words {
        if *command == b"audit".as_slice() || is_seal(case) {
            return AUDITED;
        }
    }
    READ
}

// The most calls at the files that a use asks for: each is opened, its bytes come or go in pieces
// of such a size, the last of them short, and the end is seen.
fn most_calls(case: &Case, step: usize) -> u64 {
    let mut most: u64 = 0;
    let mut piece = last_piece(case);
    for name in case.opened.iter().rev() {
        let (bytes, size) = match *name {
            b'w' => (case.policy, READ),
            b's' => (case.script, READ),
            b'b' => {
                let size = piece;
                piece = READ;
                (case.book, size)
            }
            b'k' | b'n' => (case.kept, WRITTEN),
            _ => continue,
        };
        let pieces = bytes.len().checked_div(step.min(size)).unwrap_or(0) as u64;
        most = most.saturating_add(pieces).saturating_add(3);
    }
    most
}

// Whether no more is written than a command writes before it has read this file: a seal has written
// lines of the whole book once they are long enough, any other nothing.
fn is_written_while_read(name: Name, ended: &Ended, case: &Case) -> bool {
    let are_lines = ended.kept.len() >= WRITTEN && ended.kept.ends_with(b"\n");
    let is_sealed = is_seal(case) && name == Name::Book;
    ended.out.is_empty() && (ended.kept.is_empty() || (is_sealed && are_lines))
}

// Whether a use ended as one does whose call at this file failed: the line and the status are of
// that file, and what is written is a prefix.
fn is_broken_at(name: Name, ended: &Ended, case: &Case) -> bool {
    let is_ended = ended.status == ExitCode::from(3) && ended.open == 0;
    let is_prefix = case.kept.starts_with(&ended.kept) && case.opened.starts_with(&ended.opened);
    let is_told = match name {
        Name::Kept => {
            ended.err.as_slice() == b"write fault\n".as_slice() && ended.out.as_slice() == case.out
        }
        Name::New => { ended.err.as_slice() == b"write fault\n".as_slice() && ended.out.is_empty() }
        _ => {
            let is_written = is_written_while_read(name, ended, case);
            ended.err.as_slice() == b"read fault\n".as_slice() && is_written
        }
    };
    is_ended && is_prefix && is_told
}

// What a use came to where a call may have failed.
#[derive(Clone, Copy)]
enum Came {
    // None failed, and it ended as told.
    Whole,
    // It ended as one does where that call fails.
    Broken,
    Otherwise(&'static str),
}

// What it came to, where a call at its files may have failed.
fn came_at_files(ended: &Ended, case: &Case) -> Came {
    match ended.failed {
        None => {
            if is_as_told(ended, case) {
                Came::Whole
            } else {
                Came::Otherwise("a use with no fault ended otherwise")
            }
        }
        Some(name) => {
            if is_broken_at(name, ended, case) {
                Came::Broken
            } else {
                Came::Otherwise("a use with a fault at a file ended otherwise")
            }
        }
    }
}

// Fails each call at the files once, and gives how many there are.
fn fail_at_files<R>(rt: &R, case: &Case, faults: Faults) -> Result<u64, Fail>
where
    R: AllocGlobal + Threads + Wait + Sync + Eprint,
{
    for files in 0..4000u64 {
        let ended = used(rt, case, Faults { files, ..faults })?;
        let came = came_at_files(&ended, case);
        drop(ended);
        match came {
            Came::Whole => return Ok(files),
            Came::Broken => {}
            Came::Otherwise(why) => return Err(Fail::from(why)),
        }
    }
    Err(Fail::from("there are too many calls"))
}

// Each call at a file fails once. None moves less than was asked for and the system would give or
// take.
#[test]
fn each_call_at_a_file_fails(rt: HostRuntime) -> Result<(), Fail> {
    for (posts, step, refusal) in WAYS {
        let (step, refusal) = (*step, *refusal);
        let long = long_texts(&rt, *posts)?;
        for case in commands(&long) {
            let faults = Faults {
                step,
                refusal,
                ..NONE
            };
            let calls = fail_at_files(&rt, &case, faults)?;
            let most = most_calls(&case, step);
            assert!(&rt; calls <= most && most <= calls.saturating_add(3), "{calls}");
        }
    }
    Ok(())
}

// What stands in the file that is written before anything goes to standard output.
fn kept_before_output<'a>(case: &Case<'a>) -> &'a [u8] {
    if is_seal(case) {
        return case.kept;
    }
    b""
}

// What a use came to, where a call at its output may have failed.
fn came_at_output(ended: &Ended, case: &Case) -> Came {
    if ended.status != ExitCode::from(3) {
        return if is_as_told(ended, case) {
            Came::Whole
        } else {
            Came::Otherwise("a use with no fault ended otherwise")
        };
    }
    let is_told = ended.err.as_slice() == b"write fault\n".as_slice();
    let is_prefix = case.out.starts_with(&ended.out) && case.opened.starts_with(&ended.opened);
    let is_kept = ended.kept.as_slice() == kept_before_output(case);
    if is_told && is_prefix && is_kept && ended.open == 0 {
        Came::Broken
    } else {
        Came::Otherwise("a use with a fault at its output ended otherwise")
    }
}

// Fails each call at standard output once, and gives how many there are.
fn fail_at_output<R>(rt: &R, case: &Case, faults: Faults) -> Result<u64, Fail>
where
    R: AllocGlobal + Threads + Wait + Sync + Eprint,
{
    for out in 0..4000u64 {
        let ended = used(rt, case, Faults { out, ..faults })?;
        let came = came_at_output(&ended, case);
        drop(ended);
        match came {
            Came::Whole => return Ok(out),
            Came::Broken => {}
            Came::Otherwise(why) => return Err(Fail::from(why)),
        }
    }
    Err(Fail::from("there are too many calls"))
}

// Each call at standard output fails once, in turn. But for a few, which end a part of a line, none
// moves less than the program has to write and the system would take.
#[test]
fn each_call_at_a_stream_fails(rt: HostRuntime) -> Result<(), Fail> {
    for (posts, step, refusal) in WAYS {
        let (step, refusal) = (*step, *refusal);
        let long = long_texts(&rt, *posts)?;
        for case in commands(&long) {
            let faults = Faults {
                step,
                refusal,
                ..NONE
            };
            let calls = fail_at_output(&rt, &case, faults)?;
            let pieces = case.out.len().checked_div(step.min(WRITTEN)).unwrap_or(0) as u64;
            assert!(&rt; 0 < calls && calls < pieces.saturating_add(4), "{calls}");
        }
    }
    Ok(())
}

// How many of these bytes one write to a book takes.
fn kept_at_once<K: Ledger>(disk: &Disk, bytes: &[u8], blank: Blank) -> Result<usize, Failed>
    requires name { blank.name ≡ K.name }
    requires parts { blank.parts ≡ K.parts }
    requires one { blank.parts ≡ 1 }
{
    let system = System { disk };
    let mut book = FileSink {
        rt: &system,
        path: "k",
        file: None,
        failures: Count::<K>::new(blank),
    };
    book.write(bytes)
}

// How many of these bytes one write to a stream takes.
fn said_at_once<O: Ledger>(stream: Stream, bytes: &[u8], blank: Blank) -> Result<usize, Failed>
    requires name { blank.name ≡ O.name }
    requires parts { blank.parts ≡ O.parts }
    requires one { blank.parts ≡ 1 }
{
    let mut out = StreamSink {
        stream,
        failures: Count::<O>::new(blank),
    };
    out.write(bytes)
}

// One write takes as much as the system does, however much that is.
#[test]
fn one_write_takes_all(rt: HostRuntime) -> Result<(), Fail> {
    let text = "text".repeat(rt.alloc(), 750_000)?;
    let bytes = text.as_bytes();
    let disk = disk_of(b"", rt.alloc());
    let said = RefCell::new(Vec::new(rt.alloc()));
    let stream = Stream {
        kept: &said,
        step: usize::MAX,
        left: u64::MAX,
        refusal: Refusal::Other,
    };
    let kept = kept_at_once::<Brand>(&disk, bytes, Blank::new(1));
    let told = said_at_once::<Brand>(stream, bytes, Blank::new(1));
    let written = taken(&disk.kept, rt.alloc());
    drop(disk);
    let written = written?;
    assert!(&rt; kept == Ok(3_000_000) && told == Ok(3_000_000));
    assert!(&rt; written.as_slice() == bytes);
    assert!(&rt; taken(&said, rt.alloc())?.as_slice() == bytes);
    Ok(())
}

// Serves each command so many times, and each with an output that fails.
fn serve_often<R>(rt: &R, long: &Long, times: u32) -> Result<(), Fail>
where
    R: AllocGlobal + Threads + Wait + Sync + Eprint,
{
    for _ in 0..times {
        for case in commands(long) {
            let is_told = comes_so(rt, &case, NONE)?;
            let broken = used(rt, &case, Faults { out: 0, ..NONE })?;
            let is_broken = broken.status == ExitCode::from(3);
            drop(broken);
            if !is_told || !is_broken {
                return Err(Fail::from("a use ended otherwise"));
            }
        }
    }
    Ok(())
}

// A run, replay or audit that is served again and again takes no more memory than before, but for
// some pages that the allocator keeps: 17 were measured.
#[test]
fn what_was_served_is_let_go(rt: HostRuntime) -> Result<(), Fail> {
    let long = long_texts(&rt, 1000)?;
    serve_often(&rt, &long, 3)?;
    let before = pages(&rt, 1)?;
    serve_often(&rt, &long, 24)?;
    let after = pages(&rt, 1)?;
    assert!(&rt;
        after < before.saturating_add(256),
        "{before} pages, then {after}"
    );
    Ok(())
}
