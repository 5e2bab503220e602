//! What comes of the words of a command line: those that are refused, the names that are asked for,
//! and the line on standard error.
use crate::uses::{ALONE, Case, Ended, Faults, NONE, TO_SERVE, comes_so, is_as_told, used};
use std::io::Eprint;
use std::process::{Abort, ExitCode};
use std::sync::Wait;
use std::test::Fail;
use std::thread::Threads;

// A use that writes nothing but a line on standard error.
fn refused<'a>(words: &'a [&'a [u8]], err: &'a [u8], opened: &'a [u8], status: u8) -> Case<'a> {
    Case {
        words,
        policy: ALONE.as_bytes(),
        script: b"take 0 0\n",
        book: b"book 1\nend 0",
        out: b"",
        err,
        kept: b"",
        opened,
        status,
    }
}

// Words, and what comes of them: the line on standard error, the files that are asked for, the
// status.
const REFUSED: &[(&[&[u8]], &str, &str, u8)] = &[
    (&[], "bad arguments\n", "", 5),
    (&[b"consortium"], "bad arguments\n", "", 5),
    (&[b"consortium", b""], "bad arguments\n", "", 5),
    (&[b"consortium", b"replay", b"w"], "bad arguments\n", "", 5),
    (
        &[b"consortium", b"play", b"w", b"s"],
        "bad arguments\n",
        "",
        5,
    ),
    (
        &[b"consortium", b"replay", b"w", b"\xff"],
        "bad arguments\n",
        "",
        5,
    ),
    (
        &[b"consortium", b"\xff", b"w", b"s"],
        "bad arguments\n",
        "",
        5,
    ),
    (
        &[b"consortium", b"run", b"--help"],
        "bad arguments\n",
        "",
        5,
    ),
    (
        &[b"consortium", b"audit", b"w", b"b", b"--book", b"k"],
        "bad arguments\n",
        "",
        5,
    ),
    (
        &[b"consortium", b"replay", b"w", b"s", b"--book"],
        "bad arguments\n",
        "",
        5,
    ),
    (
        &[b"consortium", b"replay", b"w", b"s", b"--book", b"k", b"t"],
        "bad arguments\n",
        "",
        5,
    ),
    // words too many, also where those before them are a whole command line
    (
        &[
            b"consortium",
            b"replay",
            b"--book",
            b"k",
            b"--",
            b"w",
            b"s",
            b"t",
        ],
        "bad arguments\n",
        "",
        5,
    ),
    (
        &[
            b"consortium",
            b"run",
            b"--book",
            b"k",
            b"--",
            b"w",
            b"s",
            b"t",
        ],
        "bad arguments\n",
        "",
        5,
    ),
    (
        &[b"consortium", b"audit", b"--", b"w", b"b", b"t"],
        "bad arguments\n",
        "",
        5,
    ),
    (
        &[
            b"consortium",
            b"replay",
            b"--book",
            b"k",
            b"--",
            b"w",
            b"s",
            b"t",
            b"t",
            b"t",
            b"t",
            b"t",
            b"t",
            b"t",
            b"t",
            b"t",
            b"t",
            b"t",
            b"t",
            b"t",
            b"t",
            b"t",
            b"t",
            b"t",
            b"t",
            b"t",
            b"t",
        ],
        "bad arguments\n",
        "",
        5,
    ),
    (
        &[b"consortium", b"replay", b"w ", b"s"],
        "read fault\n",
        "w \n",
        3,
    ),
    (
        &[b"consortium", b"replay", b"x", b"s"],
        "read fault\n",
        "x\n",
        3,
    ),
    (
        &[b"consortium", b"replay", b"", b"s"],
        "read fault\n",
        "\n",
        3,
    ),
    (
        &[b"consortium", b"replay", b"w", b"x"],
        "read fault\n",
        "w\nx\n",
        3,
    ),
    (
        &[b"consortium", b"replay", b"w", b"x", b"--book", b"k"],
        "read fault\n",
        "w\nx\n",
        3,
    ),
    (
        &[b"consortium", b"run", b"x", b"s"],
        "read fault\n",
        "x\n",
        3,
    ),
    (
        &[b"consortium", b"run", b"w", b"x"],
        "read fault\n",
        "w\nx\n",
        3,
    ),
    (
        &[b"consortium", b"audit", b"x", b"b"],
        "read fault\n",
        "x\n",
        3,
    ),
    (
        &[b"consortium", b"audit", b"w", b"x"],
        "read fault\n",
        "w\nx\n",
        3,
    ),
    (
        &[b"consortium", b"audit", b"w", b"b"],
        "book: cut\n",
        "w\nb\n",
        2,
    ),
    (
        &[b"consortium", b"audit", b"s", b"b"],
        "policy: NotToml\n",
        "s\n",
        1,
    ),
    (
        &[b"consortium", b"run", b"s", b"w"],
        "policy: NotToml\n",
        "s\n",
        1,
    ),
    (
        &[b"consortium", b"replay", b"s", b"x", b"--book=x"],
        "policy: NotToml\n",
        "s\n",
        1,
    ),
    (
        &[b"consortium", b"replay", b"w", b"w"],
        "script: line 1: BadVerb\n",
        "w\nw\n",
        2,
    ),
    (
        &[b"consortium", b"replay", b"w", b"w", b"--book=k"],
        "script: line 1: BadVerb\n",
        "w\nw\n",
        2,
    ),
    (
        &[b"consortium", b"run", b"w", b"w", b"--book=k"],
        "script: line 1: BadVerb\n",
        "w\nw\n",
        2,
    ),
    (&[b"consortium", b"serve", b"w"], "bad arguments\n", "", 5),
    (
        &[b"consortium", b"serve", b"w", b"d", b"s"],
        "bad arguments\n",
        "",
        5,
    ),
    (
        &[b"consortium", b"serve", b"w", b"d", b"--book"],
        "bad arguments\n",
        "",
        5,
    ),
    (
        &[b"consortium", b"serve", b"w", b"d", b"--sync=yes"],
        "bad arguments\n",
        "",
        5,
    ),
    (
        &[b"consortium", b"serve", b"w", b"d", b"--calls", b"0"],
        "bad arguments\n",
        "",
        5,
    ),
    // letter for letter: a space is part of a word
    (
        &[b"consortium", b" replay", b"w", b"s"],
        "bad arguments\n",
        "",
        5,
    ),
    (
        &[b"consortium", b"replay", b" w", b"s"],
        "read fault\n",
        " w\n",
        3,
    ),
    (
        &[b"consortium", b"audit", b"w", b" b"],
        "read fault\n",
        "w\n b\n",
        3,
    ),
];

// The same of seals and of earlier books.
const REFUSED_BOOKS: &[(&[&[u8]], &str, &str, u8)] = &[
    // what is sealed goes to a file that was not there, and to no other
    (
        &[b"consortium", b"seal", b"w", b"b", b"k"],
        "write fault\n",
        "w\nb\nk\n",
        3,
    ),
    (
        &[b"consortium", b"seal", b"w", b"b", b"b"],
        "write fault\n",
        "w\nb\nb\n",
        3,
    ),
    (
        &[b"consortium", b"seal", b"w", b"x", b"n"],
        "read fault\n",
        "w\nx\n",
        3,
    ),
    (
        &[b"consortium", b"seal", b"w", b"s", b"n"],
        "book: line 1\n",
        "w\ns\n",
        2,
    ),
    (
        &[b"consortium", b"seal", b"w", b"b", b"n", b"--after=b"],
        "after b: cut\n",
        "w\nb\n",
        2,
    ),
    (
        &[b"consortium", b"seal", b"w", b"b"],
        "bad arguments\n",
        "",
        5,
    ),
    // earlier books are looked at behind the policy, the oldest first, and in front of all else
    (
        &[b"consortium", b"replay", b"w", b"s", b"--after", b"b"],
        "after b: cut\n",
        "w\nb\n",
        2,
    ),
    (
        &[b"consortium", b"run", b"--after=b", b"w", b"s", b"--book=k"],
        "after b: cut\n",
        "w\nb\n",
        2,
    ),
    (
        &[b"consortium", b"audit", b"w", b"b", b"--after=e"],
        "after e: cut\n",
        "w\ne\n",
        2,
    ),
    (
        &[
            b"consortium",
            b"replay",
            b"w",
            b"s",
            b"--after=x",
            b"--after",
            b"b",
        ],
        "read fault\n",
        "w\nx\n",
        3,
    ),
    (
        &[b"consortium", b"run", b"w", b"s", b"--after", b" b"],
        "read fault\n",
        "w\n b\n",
        3,
    ),
    (
        &[b"consortium", b"audit", b"w", b"b", b"--after", b"s"],
        "after s: line 1\n",
        "w\ns\n",
        2,
    ),
    (
        &[b"consortium", b"audit", b"s", b"b", b"--after", b"b"],
        "policy: NotToml\n",
        "s\n",
        1,
    ),
    (
        &[b"consortium", b"replay", b"w", b"s", b"--after"],
        "bad arguments\n",
        "",
        5,
    ),
    (
        &[b"consortium", b"--after", b"b", b"replay", b"w", b"s"],
        "bad arguments\n",
        "",
        5,
    ),
    // a file of no bytes is a file, and its reading no fault
    (
        &[b"consortium", b"replay", b"e", b"s"],
        "policy: BadVersion\n",
        "e\n",
        1,
    ),
    (&[b"consortium", b"replay", b"w", b"e"], "", "w\ne\n", 0),
    (
        &[b"consortium", b"audit", b"w", b"e"],
        "book: cut\n",
        "w\ne\n",
        2,
    ),
];

// Words, and what comes of them, as in the tables.
type Row<'a> = (&'a [&'a [u8]], &'a str, &'a str, u8);

// Whether what comes of these words is as the rows tell it.
fn are_told<R>(rt: &R, rows: &[Row]) -> Result<(), Fail>
where
    R: AllocGlobal + Threads + Wait + Sync + Abort + Eprint,
{
    for (words, err, opened, status) in rows {
        let case = refused(words, err.as_bytes(), opened.as_bytes(), *status);
        assert!(rt; comes_so(rt, &case, NONE)?, "{err} {opened}");
    }
    Ok(())
}

#[test]
fn faults_of_words_and_files_are_told(rt: HostRuntime) -> Result<(), Fail> {
    are_told(&rt, REFUSED)
}

#[test]
fn faults_of_seals_and_earlier_books_are_told(rt: HostRuntime) -> Result<(), Fail> {
    are_told(&rt, REFUSED_BOOKS)
}

// Words that ask for a server, and the paths that it is asked for.
const SERVED_AT: &[(&[&[u8]], &str)] = &[
    (&[b"consortium", b"serve", b"w", b"d"], "w\nd\nnone\n"),
    (
        &[b"consortium", b"serve", b"w", b"d", b"--book", b"k"],
        "w\nd\nk\n",
    ),
    (
        &[b"consortium", b"serve", b"--book=k", b"w", b"d"],
        "w\nd\nk\n",
    ),
    (
        &[b"consortium", b"serve", b"d", b"w", b"--book= k"],
        "d\nw\n k\n",
    ),
    (
        &[b"consortium", b"serve", b"--", b"-w", b"--book"],
        "-w\n--book\nnone\n",
    ),
    (
        &[
            b"consortium",
            b"serve",
            b"--after",
            b"y",
            b"w",
            b"--after= x",
            b"d",
        ],
        "w\nd\nnone\ny\n x\n",
    ),
    (
        &[b"consortium", b"serve", b"w", b"--sync", b"d", b"--book=k"],
        "w\nd\nk\nsynced\n",
    ),
    (
        &[b"consortium", b"serve", b"w", b"--times", b"d", b"--book=k"],
        "w\nd\nk\ntimed\n",
    ),
    (
        &[
            b"consortium",
            b"serve",
            b"w",
            b"d",
            b"--chain=c",
            b"--book=k",
        ],
        "w\nd\nk\nc\n",
    ),
    (
        &[
            b"consortium",
            b"serve",
            b"w",
            b"d",
            b"--calls=4611686018427387904",
        ],
        "w\nd\nnone\nas many calls as there can be\n",
    ),
    (
        &[b"consortium", b"serve", b"--calls", b"12", b"w", b"d"],
        "w\nd\nnone\n12 calls\n",
    ),
];

// To serve is handed on with the paths as the words have them: no file is opened, and nothing is
// written.
#[test]
fn servers_are_handed_their_paths(rt: HostRuntime) -> Result<(), Fail> {
    for (words, paths) in SERVED_AT {
        let case = refused(words, b"", paths.as_bytes(), TO_SERVE);
        assert!(&rt; comes_so(&rt, &case, NONE)?, "{paths}");
    }
    Ok(())
}

// Whether the line on standard error ends before its end, and all else is as told.
fn is_broken_off(ended: &Ended, case: &Case) -> bool {
    let is_prefix = case.err.starts_with(&ended.err) && ended.out.is_empty();
    let is_opened = ended.opened.as_slice() == case.opened && ended.open == 0;
    ended.status == ExitCode::from(case.status) && is_prefix && is_opened
}

// Each call at standard error fails once, in turn. It changes nothing but that the line ends there.
fn fail_at_errors<R>(rt: &R, rows: &[Row]) -> Result<(), Fail>
where
    R: AllocGlobal + Threads + Wait + Sync + Abort + Eprint,
{
    for (words, line, opened, status) in rows {
        let case = refused(words, line.as_bytes(), opened.as_bytes(), *status);
        let mut calls: u64 = 0;
        for err in 0..40u64 {
            let step = 5;
            let ended = used(rt, &case, Faults { step, err, ..NONE })?;
            let is_whole = is_as_told(&ended, &case);
            let is_broken = is_broken_off(&ended, &case);
            drop(ended);
            if is_whole {
                break;
            }
            assert!(rt; is_broken, "{line}");
            calls = err.wrapping_add(1);
        }
        let pieces = case.err.len().div_ceil(5) as u64;
        assert!(rt;
            pieces <= calls && calls < pieces.saturating_add(4),
            "{calls}"
        );
    }
    Ok(())
}

#[test]
fn each_call_at_standard_error_fails(rt: HostRuntime) -> Result<(), Fail> {
    fail_at_errors(&rt, REFUSED)
}

#[test]
fn each_call_at_standard_error_fails_for_books(rt: HostRuntime) -> Result<(), Fail> {
    fail_at_errors(&rt, REFUSED_BOOKS)
}

// Words that want a book where none can be made, what is written before, and the name asked for.
const UNKEPT: &[(&[&[u8]], &str, &str)] = &[
    (
        &[b"consortium", b"replay", b"w", b"s", b"--book", b"x"],
        "refused NoSuchRequest\n",
        "x",
    ),
    (
        &[b"consortium", b"run", b"w", b"s", b"--book", b"x"],
        "rank 0 p0\nrefused NoSuchRequest\n",
        "x",
    ),
    (
        &[b"consortium", b"replay", b"w", b"s", b"--book= k"],
        "refused NoSuchRequest\n",
        " k",
    ),
    (
        &[b"consortium", b"replay", b"w", b"s", b"--book="],
        "refused NoSuchRequest\n",
        "",
    ),
];

// Whether a use with these words, over a book that cannot be made, writes this and no more, asks
// for the policy, the script and this name, and tells the fault.
fn is_unkept<R>(rt: &R, words: &[&[u8]], out: &str, name: &str) -> Result<bool, Fail>
where
    R: AllocGlobal + Threads + Wait + Sync + Eprint,
{
    let opened = format!(in rt.alloc(); "w\ns\n{name}\n")?;
    let case = Case {
        out: out.as_bytes(),
        ..refused(words, b"write fault\n", opened.as_bytes(), 3)
    };
    comes_so(rt, &case, NONE)
}

#[test]
fn books_that_cannot_be_made_are_told(rt: HostRuntime) -> Result<(), Fail> {
    for (words, out, name) in UNKEPT {
        let is_told = is_unkept(&rt, words, out, name)?;
        assert!(&rt; is_told, "{name}");
    }
    Ok(())
}

// Names that no file has, and that a device which mends names would take for the file of that
// letter, or a shell for standard input.
const LIKE_POLICY: &[&str] = &["/w", "./w", "a/w", "w/", "w ", " w", "-", "W", "wä"];

const LIKE_SCRIPT: &[&str] = &["/s", "./s", "a/s", "s/", "s ", " s", "-", "S", "sä"];

const LIKE_BOOK: &[&str] = &["/b", "./b", "a/b", "b/", "b ", " b", "-", "B", "bä"];

const LIKE_KEPT: &[&str] = &["/k", "./k", "a/k", "k/", "k ", " k", "-", "K", "kä"];

// Whether a use with these words asks for these names, and tells that the last is no file.
fn is_unread<R>(rt: &R, words: &[&[u8]], opened: &str) -> Result<bool, Fail>
where
    R: AllocGlobal + Threads + Wait + Sync + Eprint,
{
    let case = refused(words, b"read fault\n", opened.as_bytes(), 3);
    comes_so(rt, &case, NONE)
}

// Whether a command whose policy has this name, which no file has, asks for that name.
fn is_other_policy<R>(rt: &R, command: &str, second: &str, name: &str) -> Result<bool, Fail>
where
    R: AllocGlobal + Threads + Wait + Sync + Eprint,
{
    let opened = format!(in rt.alloc(); "{name}\n")?;
    let words = [
        "consortium".as_bytes(),
        command.as_bytes(),
        name.as_bytes(),
        second.as_bytes(),
    ];
    is_unread(rt, &words, &opened)
}

// Whether a command whose second file has this name, which no file has, asks for that name.
fn is_other_second<R>(rt: &R, command: &str, name: &str) -> Result<bool, Fail>
where
    R: AllocGlobal + Threads + Wait + Sync + Eprint,
{
    let opened = format!(in rt.alloc(); "w\n{name}\n")?;
    let words = [
        "consortium".as_bytes(),
        command.as_bytes(),
        "w".as_bytes(),
        name.as_bytes(),
    ];
    is_unread(rt, &words, &opened)
}

// The name that a device asks for is, byte for byte, the word of the command line.
#[test]
fn other_spellings_are_other_files(rt: HostRuntime) -> Result<(), Fail> {
    for (command, second, likes) in [
        ("replay", "s", LIKE_SCRIPT),
        ("run", "s", LIKE_SCRIPT),
        ("audit", "b", LIKE_BOOK),
    ] {
        for name in LIKE_POLICY {
            let is_told = is_other_policy(&rt, command, second, name)?;
            assert!(&rt; is_told, "{name} {second}");
        }
        for name in likes {
            let is_told = is_other_second(&rt, command, name)?;
            assert!(&rt; is_told, "w {name}");
        }
    }
    Ok(())
}

// Whether a command that is to keep a book of this name, where none can be made, asks for that
// name.
fn is_other_book<R>(rt: &R, command: &str, out: &str, name: &str) -> Result<bool, Fail>
where
    R: AllocGlobal + Threads + Wait + Sync + Eprint,
{
    let book = format!(in rt.alloc(); "--book={name}")?;
    let words = [
        "consortium".as_bytes(),
        command.as_bytes(),
        "w".as_bytes(),
        "s".as_bytes(),
        book.as_bytes(),
    ];
    is_unkept(rt, &words, out, name)
}

// So it is with the book that a command keeps.
#[test]
fn other_spellings_are_other_books(rt: HostRuntime) -> Result<(), Fail> {
    for name in LIKE_KEPT {
        let replayed = is_other_book(&rt, "replay", "refused NoSuchRequest\n", name)?;
        let run = is_other_book(&rt, "run", "rank 0 p0\nrefused NoSuchRequest\n", name)?;
        assert!(&rt; replayed && run, "{name}");
    }
    Ok(())
}

// Whether each command asks for each of its files by this name, which no file has.
fn is_other_name<R>(rt: &R, name: &str) -> Result<bool, Fail>
where
    R: AllocGlobal + Threads + Wait + Sync + Eprint,
{
    for (command, second) in [("replay", "s"), ("run", "s"), ("audit", "b")] {
        let policy = is_other_policy(rt, command, second, name)?;
        if !policy || !is_other_second(rt, command, name)? {
            return Ok(false);
        }
    }
    let replayed = is_other_book(rt, "replay", "refused NoSuchRequest\n", name)?;
    let run = is_other_book(rt, "run", "rank 0 p0\nrefused NoSuchRequest\n", name)?;
    Ok(replayed && run)
}

// A name is asked for whole, however long it is.
#[test]
fn long_names_are_asked_for_whole(rt: HostRuntime) -> Result<(), Fail> {
    for times in [60, 1000] {
        let name = "wsbk/".repeat(rt.alloc(), times)?;
        let is_told = is_other_name(&rt, &name)?;
        assert!(&rt; is_told, "{times}");
    }
    Ok(())
}

// Where the use below writes something else, on standard error too, keeps or opens something else, or
// ends with another status: each differs from it in one.
const OTHERWISE: &[(&[u8], &[u8], &[u8], &[u8], u8)] = &[
    (b"", b"write fault\n", b"", b"w\ns\nx\n", 3),
    (b"rank 0 p0\n", b"write fault\n", b"", b"w\ns\nx\n", 3),
    (
        b"rank 0 p0\nrefused NoSuchRequest\n\n",
        b"write fault\n",
        b"",
        b"w\ns\nx\n",
        3,
    ),
    (RUN, b"", b"", b"w\ns\nx\n", 3),
    (RUN, b"read fault\n", b"", b"w\ns\nx\n", 3),
    (RUN, b"write fault", b"", b"w\ns\nx\n", 3),
    (RUN, b"write fault\n", b"book 1\n", b"w\ns\nx\n", 3),
    (RUN, b"write fault\n", b"", b"w\ns\n", 3),
    (RUN, b"write fault\n", b"", b"s\nw\nx\n", 3),
    (RUN, b"write fault\n", b"", b"w\ns\nx\n!\n", 3),
    (RUN, b"write fault\n", b"", b"w\ns\nx\n", 0),
    (RUN, b"write fault\n", b"", b"w\ns\nx\n", 5),
];

const RUN: &[u8] = b"rank 0 p0\nrefused NoSuchRequest\n";

// The comparison by which the other tests judge sees each thing that it compares.
#[test]
fn what_ended_otherwise_is_not_as_told(rt: HostRuntime) -> Result<(), Fail> {
    let told = Case {
        out: RUN,
        ..refused(
            &[b"consortium", b"run", b"w", b"s", b"--book=x"],
            b"write fault\n",
            b"w\ns\nx\n",
            3,
        )
    };
    let mut ended = used(&rt, &told, NONE)?;
    expect_noticed(&rt, &ended, told);
    ended.open = 1;
    assert!(&rt; !is_as_told(&ended, &told));
    drop(ended);
    Ok(())
}

fn expect_noticed(rt: &impl Abort, ended: &Ended, told: Case) {
    assert!(rt; is_as_told(ended, &told));
    for (out, err, kept, opened, status) in OTHERWISE {
        let other = Case {
            out: *out,
            err: *err,
            kept: *kept,
            opened: *opened,
            status: *status,
            ..told
        };
        assert!(rt; !is_as_told(ended, &other));
    }
}
