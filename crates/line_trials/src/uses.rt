//! One use of the program over a system in memory: its words and files, how its devices fail, and
//! what it came to. Each command that has files, over long ones.
use crate::disk::{Disk, Name, Refusal, Stream, System};
use program_line::{Blanks, LivePaths, Outcome, serve};
use std::alloc::Global;
use std::cell::{Cell, RefCell};
use std::io::Eprint;
use std::marker::Brand;
use std::process::{ExitCode, Termination};
use std::sync::Wait;
use std::sync::ledger::Blank;
use std::test::Fail;
use std::thread::Threads;

// One process of one bank.
pub(crate) const ALONE: &str = "version = 1
[[class]]
name = \"banks\"
datasets = [\"alpha\", \"beta\"]
[[process]]
name = \"p0\"
home = \"alpha\"
";

// One use of the program: its words and files, and what it is to write and to ask for.
#[derive(Clone, Copy)]
pub(crate) struct Case<'a> {
    pub(crate) words: &'a [&'a [u8]],
    pub(crate) policy: &'a [u8],
    pub(crate) script: &'a [u8],
    pub(crate) book: &'a [u8],
    pub(crate) out: &'a [u8],
    pub(crate) err: &'a [u8],
    pub(crate) kept: &'a [u8],
    pub(crate) opened: &'a [u8],
    pub(crate) status: u8,
}

// How the devices of a use fail: the most bytes of a call, the error of a call that fails, and how
// many calls go well at the files and at each stream.
#[derive(Clone, Copy)]
pub(crate) struct Faults {
    pub(crate) step: usize,
    pub(crate) refusal: Refusal,
    pub(crate) files: u64,
    pub(crate) out: u64,
    pub(crate) err: u64,
}

pub(crate) const NONE: Faults = Faults {
    step: usize::MAX,
    refusal: Refusal::Other,
    files: u64::MAX,
    out: u64::MAX,
    err: u64::MAX,
};

// What a use of the program came to.
#[derive(Drop)]
pub(crate) struct Ended {
    pub(crate) status: ExitCode,
    pub(crate) out: Vec<u8>,
    pub(crate) err: Vec<u8>,
    pub(crate) kept: Vec<u8>,
    pub(crate) opened: Vec<u8>,
    // The files that were not closed.
    pub(crate) open: u64,
    pub(crate) failed: Option<Name>,
}

// A system whose policy has these bytes, and whose calls all go well.
pub(crate) fn disk_of<'a>(policy: &'a [u8], alloc: Global) -> Disk<'a> {
    Disk {
        words: &[],
        policy,
        script: b"",
        book: b"",
        kept: RefCell::new(Vec::new(alloc)),
        is_new_made: Cell::new(false),
        step: usize::MAX,
        left: Cell::new(u64::MAX),
        refusal: Refusal::Other,
        failed: Cell::new(None),
        opened: RefCell::new(Vec::new(alloc)),
        open: Cell::new(0),
    }
}

pub(crate) fn taken(cell: &RefCell<Vec<u8>>, alloc: Global) -> Result<Vec<u8>, Fail> {
    match cell.try_replace(Vec::new(alloc)) {
        Ok(bytes) => Ok(bytes),
        Err(_) => Err(Fail::from("a cell is in use")),
    }
}

pub(crate) fn used<R>(rt: &R, case: &Case, faults: Faults) -> Result<Ended, Fail>
where
    R: AllocGlobal + Threads + Wait + Sync + Eprint,
{
    let alloc = rt.alloc();
    let (out, err) = (RefCell::new(Vec::new(alloc)), RefCell::new(Vec::new(alloc)));
    let disk = Disk {
        words: case.words,
        policy: case.policy,
        script: case.script,
        book: case.book,
        kept: RefCell::new(Vec::new(alloc)),
        is_new_made: Cell::new(false),
        step: faults.step,
        left: Cell::new(faults.files),
        refusal: faults.refusal,
        failed: Cell::new(None),
        opened: RefCell::new(Vec::new(alloc)),
        open: Cell::new(0),
    };
    let status = status_of(
        rt,
        &disk,
        Stream {
            kept: &out,
            step: faults.step,
            left: faults.out,
            refusal: faults.refusal,
        },
        Stream {
            kept: &err,
            step: faults.step,
            left: faults.err,
            refusal: faults.refusal,
        },
    );
    let ended = ended_of(alloc, &disk, &out, &err, status);
    drop(disk);
    drop(out);
    drop(err);
    ended
}

// What it came to, with what the disk and the streams were given. (They are lent: let go by
// themselves, they would be taken apart in the proof at each way out.)
fn ended_of(
    alloc: Global,
    disk: &Disk,
    out: &RefCell<Vec<u8>>,
    err: &RefCell<Vec<u8>>,
    status: ExitCode,
) -> Result<Ended, Fail> {
    Ok(Ended {
        status,
        out: taken(out, alloc)?,
        err: taken(err, alloc)?,
        kept: taken(&disk.kept, alloc)?,
        opened: taken(&disk.opened, alloc)?,
        open: disk.open.get(),
        failed: disk.failed.get(),
    })
}

fn status_of<R>(rt: &R, disk: &Disk, out: Stream, err: Stream) -> ExitCode
where
    R: AllocGlobal + Threads + Wait + Sync + Eprint,
{
    let blanks = Blanks {
        policy: Blank::new(1),
        second: Blank::new(1),
        kept: Blank::new(1),
        out: Blank::new(1),
        err: Blank::new(1),
    };
    let system = System { disk };
    let outcome = serve::<R, System, Stream, Stream, Brand, Brand, Brand, Brand, Brand>(
        rt, &system, out, err, blanks,
    );
    match outcome {
        Outcome::Ended(served) => served.report(rt),
        Outcome::ToServe(paths) => {
            let status = told_to_serve(disk, &paths);
            drop(paths);
            status
        }
        Outcome::ToSealChain(path) => {
            let _ = disk.note(path.as_str());
            ExitCode::from(TO_SEAL)
        }
    }
}

/// The status of a test where the program is to serve live, which no command gives.
pub(crate) const TO_SERVE: u8 = 6;

/// That of one where it is to seal a chain.
pub(crate) const TO_SEAL: u8 = 7;

// The paths at which it is to serve are noted, as files that were asked for.
fn told_to_serve(disk: &Disk, paths: &LivePaths) -> ExitCode {
    let book = match &paths.book {
        Some(path) => path.as_str(),
        None => "none",
    };
    let _ = disk.note(paths.policy.as_str());
    let _ = disk.note(paths.pipes.as_str());
    let _ = disk.note(book);
    for path in &paths.after {
        let _ = disk.note(path.as_str());
    }
    if let Some(path) = &paths.chain {
        let _ = disk.note(path.as_str());
    }
    if paths.sync {
        let _ = disk.note("synced");
    }
    if paths.times {
        let _ = disk.note("timed");
    }
    match paths.calls {
        Some(12) => {
            let _ = disk.note("12 calls");
        }
        Some(4611686018427387904) => {
            let _ = disk.note("as many calls as there can be");
        }
        Some(_) => {
            let _ = disk.note("others");
        }
        None => {}
    }
    ExitCode::from(TO_SERVE)
}

pub(crate) fn is_as_told(ended: &Ended, case: &Case) -> bool {
    let is_written = ended.out.as_slice() == case.out && ended.err.as_slice() == case.err;
    let is_kept = ended.kept.as_slice() == case.kept && ended.opened.as_slice() == case.opened;
    let is_closed = ended.open == 0;
    ended.status == ExitCode::from(case.status) && is_written && is_kept && is_closed
}

/// Whether a use comes to what the case says. What it came to is let go here, by `drop`: a `?` on it, or
/// the end of a block, would write out or take apart the whole type in each test.
pub(crate) fn comes_so<R>(rt: &R, case: &Case, faults: Faults) -> Result<bool, Fail>
where
    R: AllocGlobal + Threads + Wait + Sync + Eprint,
{
    match used(rt, case, faults) {
        Ok(ended) => {
            let is_so = is_as_told(&ended, case);
            drop(ended);
            Ok(is_so)
        }
        Err(fail) => Err(fail),
    }
}

// The texts of a long run of one process: so many barriers that script, replies and book are longer
// than a piece that is read or written.
#[derive(Drop)]
pub(crate) struct Long {
    script: String,
    replies: String,
    run: String,
    book: String,
    sound: String,
    // The book, cut in its last line, and what is told where it is sealed.
    cut: String,
    sealed: String,
}

pub(crate) fn long_texts(rt: &impl AllocGlobal, posts: u64) -> Result<Long, Fail> {
    let mut script = String::new(rt.alloc());
    let mut replies = String::new(rt.alloc());
    let mut book = String::new(rt.alloc());
    book.push_str("book 1\n")?;
    for k in 0..posts {
        write!(script, "post 0 0 barrier\ntake 0 {k}\n")?;
        write!(replies, "posted {k}\ndelivered none\n")?;
        write!(
            book,
            "post 0 0 barrier gives 0 as none passed\nverdict 0 {k} granted\n"
        )?;
    }
    let entries = posts.wrapping_mul(2);
    let cut = format!(in rt.alloc(); "{book}end ")?;
    write!(book, "end {entries}\n")?;
    let run = format!(in rt.alloc(); "rank 0 p0\n{replies}")?;
    let sound = format!(in rt.alloc(); "sound {entries}\n")?;
    let sealed = format!(in rt.alloc(); "sealed {entries}\n")?;
    Ok(Long {
        script,
        replies,
        run,
        book,
        sound,
        cut,
        sealed,
    })
}

// Each command that has files, over these texts.
pub(crate) fn commands<'a>(long: &'a Long) -> [Case<'a>; 7] {
    let quiet = Case {
        words: &[],
        policy: ALONE.as_bytes(),
        script: long.script.as_bytes(),
        book: long.book.as_bytes(),
        out: long.replies.as_bytes(),
        err: b"",
        kept: b"",
        opened: b"w\ns\n",
        status: 0,
    };
    [
        Case {
            words: &[b"consortium", b"replay", b"w", b"s"],
            ..quiet
        },
        Case {
            words: &[b"consortium", b"replay", b"w", b"--book", b"k", b"s"],
            kept: long.book.as_bytes(),
            opened: b"w\ns\nk\n",
            ..quiet
        },
        Case {
            words: &[b"consortium", b"run", b"w", b"s"],
            out: long.run.as_bytes(),
            ..quiet
        },
        Case {
            words: &[b"consortium", b"run", b"--book", b"k", b"w", b"s"],
            out: long.run.as_bytes(),
            kept: long.book.as_bytes(),
            opened: b"w\ns\nk\n",
            ..quiet
        },
        Case {
            words: &[b"consortium", b"audit", b"w", b"b"],
            out: long.sound.as_bytes(),
            opened: b"w\nb\n",
            ..quiet
        },
        Case {
            words: &[b"consortium", b"audit", b"w", b"b", b"--after", b"b"],
            out: long.sound.as_bytes(),
            opened: b"w\nb\nb\n",
            ..quiet
        },
        Case {
            words: &[b"consortium", b"seal", b"w", b"b", b"n"],
            book: long.cut.as_bytes(),
            out: long.sealed.as_bytes(),
            kept: long.book.as_bytes(),
            opened: b"w\nb\nn\n",
            ..quiet
        },
    ]
}
