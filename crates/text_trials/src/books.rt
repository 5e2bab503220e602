//! The book of a denied broadcast: read, written again, and spoilt.
ghost use Rattle.std.specs.List.{All};
ghost use Rattle.run_model.specs.Known.{IsKnownEntry};

use crate::statements::listing;
use audit_book::*;
use std::alloc::Global;
use std::fmt::Display;
use std::process::Abort;
use std::test::Fail;
use trial_kit::policies::{BANKS_AND_OIL, SUMS_OF_THREE_FIRMS};
use wall_labels::memory::{ExpectingSink, Fuse};
use wall_policy::{Policy, read_policy};

// The book of a broadcast of a bank's data to all, denied since the second process is at home at
// its rival.
const BOOK: &str = "book 1
post 0 0 bcast 0 int32 2 gives 2 as alpha passed
post 1 0 bcast 0 int32 2 gives 0 as none passed
post 2 0 bcast 0 int32 2 gives 0 as none passed
post 3 0 bcast 0 int32 2 gives 0 as none passed
verdict 0 0 denied simple b0 alpha
end 5
";

// Reads a policy and lends it to the steps of a test. What is let go of without `drop` is taken
// apart in the function's own proof.
pub(crate) fn under<F>(rt: &(impl AllocGlobal + Abort), wall: &str, steps: F) -> Result<(), Fail>
where
    F: FnOnce(&Policy) -> Result<(), Fail>,
    requires { F.IsAlwaysCallable steps }
{
    match read_policy(rt.alloc(), wall.as_bytes()) {
        Ok(policy) => {
            let ended = steps(&policy);
            drop(policy);
            ended
        }
        Err(_) => panic!(rt; "the policy is not read"),
    }
}

// The fault of a text, none where it is a book.
fn fault_of(alloc: Global, policy: &Policy, text: &[u8]) -> Option<ReadFault> {
    match read_book(alloc, policy, text) {
        Ok(book) => {
            drop(book);
            None
        }
        Err(fault) => Some(fault),
    }
}

// How the book of a text is written by a writer with this fuse, and how much is left of the text.
// None where the text is not read, or where other bytes than its own are written.
fn written(
    alloc: Global,
    policy: &Policy,
    text: &[u8],
    fuse: Fuse,
) -> Option<(Option<WriteFault>, usize)> {
    match read_book(alloc, policy, text) {
        Ok(book) => {
            let outcome = written_over(alloc, policy, &book, text, fuse);
            drop(book);
            outcome
        }
        Err(_) => None,
    }
}

fn written_over(
    alloc: Global,
    policy: &Policy,
    book: &Book,
    text: &[u8],
    fuse: Fuse,
) -> Option<(Option<WriteFault>, usize)>
    requires { All (IsKnownEntry policy.now) book.now.list }
{
    let mut sink = ExpectingSink {
        rest: text,
        is_same: true,
        fuse,
    };
    let fault = match write_book(alloc, policy, book, &mut sink) {
        Ok(()) => None,
        Err(fault) => Some(fault),
    };
    if sink.is_same {
        Some((fault, sink.rest.len()))
    } else {
        None
    }
}

// It is a book, and written again as it is.
pub(crate) fn is_whole(alloc: Global, policy: &Policy, text: &[u8]) -> bool {
    written(alloc, policy, text, Fuse::Whole) == Some((None, 0))
}

#[test]
fn a_book_is_read_and_written_again(rt: HostRuntime) -> Result<(), Fail> {
    under(&rt, BANKS_AND_OIL, |policy| again(&rt, policy))
}

fn again(rt: &(impl AllocGlobal + Abort), policy: &Policy) -> Result<(), Fail> {
    let text = BOOK.as_bytes();
    let failed = Some((Some(WriteFault::Write), text.len()));
    assert!(rt; is_whole(rt.alloc(), policy, text));
    assert!(rt; !is_whole(rt.alloc(), policy, b"book 1\r\nend 0\n"));
    assert!(rt; written(rt.alloc(), policy, text, Fuse::After(0)) == failed);
    Ok(())
}

// The first line has the version of the policy.
#[test]
fn a_book_is_of_the_policys_version(rt: HostRuntime) -> Result<(), Fail> {
    under(&rt, SUMS_OF_THREE_FIRMS, |policy| version_2(&rt, policy))
}

fn version_2(rt: &(impl AllocGlobal + Abort), policy: &Policy) -> Result<(), Fail> {
    let text = BOOK.replace(rt.alloc(), "book 1", "book 2")?;
    let of_version_1 = fault_of(rt.alloc(), policy, BOOK.as_bytes());
    assert!(rt; is_whole(rt.alloc(), policy, text.as_bytes()));
    assert!(rt; of_version_1 == Some(ReadFault::BadLine(1)));
    Ok(())
}

#[test]
fn a_prefix_of_a_book_is_cut(rt: HostRuntime) -> Result<(), Fail> {
    under(&rt, BANKS_AND_OIL, |policy| prefixes(&rt, policy))
}

fn prefixes(rt: &(impl AllocGlobal + Abort), policy: &Policy) -> Result<(), Fail> {
    let text = BOOK.as_bytes();
    for end in 0..text.len() {
        let (prefix, _) = text.split_at(end);
        assert!(rt;
            fault_of(rt.alloc(), policy, prefix) == Some(ReadFault::Cut),
            "{end}"
        );
    }
    Ok(())
}

// What stands in its place in the book, and the first line that is then bad.
const SPOILT: &[(&str, &str, u64)] = &[
    ("book 1", "book 2", 1),
    ("book 1", "book 3", 1),
    ("book 1", "book 01", 1),
    ("book 1", " book 1", 1),
    ("book 1", "book 1\r", 1),
    ("book 1", "", 1),
    ("book 1", "book 1\nbook 1", 2),
    ("book 1", "book 1\n", 2),
    ("book 1", "book 1\n# alpha", 2),
    ("book 1", "book 1\nend 0", 3),
    ("simple b0", "simple b1", 6),
    ("simple b0", "simple 1", 6),
    ("simple b0 alpha", "simple b0 none", 6),
    ("simple b0 alpha", "simple b0 gamma", 6),
    ("simple b0 alpha", "simple b0 alpha ", 6),
    ("denied simple b0 alpha", "passed", 6),
    ("denied simple b0 alpha", "made 1", 6),
    ("denied simple b0 alpha", "granted 1", 6),
    ("end 5", "end 4", 7),
    ("end 5", "end 05", 7),
    ("end 5", "end 5 5", 7),
    ("end 5", "end 5\nend 5", 8),
    ("end 5", "end 5\n", 8),
    ("end 5\n", "end 5\nx", 8),
];

#[test]
fn spoilt_books_have_a_first_bad_line(rt: HostRuntime) -> Result<(), Fail> {
    under(&rt, BANKS_AND_OIL, |policy| spoilt(&rt, policy))
}

fn spoilt(rt: &(impl AllocGlobal + Abort), policy: &Policy) -> Result<(), Fail> {
    for (old, new, line) in SPOILT {
        let Some((prefix, rest)) = BOOK.split_once(old) else {
            panic!(rt; "the book lacks {old}")
        };
        let text = format!(in rt.alloc(); "{prefix}{new}{rest}")?;
        let fault = fault_of(rt.alloc(), policy, text.as_bytes());
        assert!(rt; fault == Some(ReadFault::BadLine(*line)), "{new}");
    }
    Ok(())
}

// Lines, and whether they have the form of an entry.
const LINES: &[(&str, bool)] = &[
    ("post 0 0 barrier gives 0 as none passed", true),
    ("post 0 0 barrier gives 0 as none barred", true),
    ("post 3 1023 gatherv 3 int32 gives 1 as public barred", true),
    (
        "post 2 4294967295 scatterv 1 uint8 0,2,1 gives 3 as crude passed",
        true,
    ),
    (
        "post 1 0 alltoallv 2int 1,1 gives 4294967295 as delta passed",
        true,
    ),
    ("post 0 0 allreduce sum int8 1 gives 1 as beta passed", true),
    ("post 0 0 split -1 2147483647 gives 0 as none passed", true),
    (
        "post 0 0 split undefined -2147483648 gives 0 as none passed",
        true,
    ),
    ("post 0 0 create 0,2,3 gives 0 as none passed", true),
    ("post 0 0 cart_create 2,2 1,0 gives 0 as none passed", true),
    ("verdict 4294967295 18446744073709551615 granted", true),
    ("verdict 0 0 denied star a0 public", true),
    ("verdict 0 0 denied simple n0 delta", true),
    ("verdict 0 0 made 1 2", true),
    ("verdict 0 0 made 1024 0", true),
    ("verdict 0 0 noroom", true),
    ("post 4 0 barrier gives 0 as none passed", false),
    ("post a0 0 barrier gives 0 as none passed", false),
    ("post 0 4294967296 barrier gives 0 as none passed", false),
    ("post 0 0 barrier", false),
    ("post 0 0 barrier gives 0 as none", false),
    ("post 0 0 barrier gives 0 as public passed", false),
    ("post 0 0 bcast 0 int8 1 gives 1 as none passed", false),
    ("post 0 0 bcast 0 int8 1 gives 1 as gamma passed", false),
    ("post 0 0 bcast 0 int8 1 gives 1 of alpha passed", false),
    (
        "post 0 0 bcast 0 int8 1 gives 4294967296 as alpha passed",
        false,
    ),
    ("post 0 0 bcast 0 int33 1 gives 1 as alpha passed", false),
    ("post 0 0 bcast 0 int8 1 gives 1 as alpha Passed", false),
    ("post 0 0 bcast 0 int8 1 gives 1 as alpha passed 7", false),
    ("verdict 0 18446744073709551616 granted", false),
    ("verdict 0 0 denied b0 alpha", false),
    ("verdict 0 0", false),
    ("post  0 0 barrier gives 0 as none passed", false),
    ("take 0 0", false),
];

#[test]
fn lines_of_all_forms_are_read_and_written(rt: HostRuntime) -> Result<(), Fail> {
    under(&rt, BANKS_AND_OIL, |policy| forms(&rt, policy))
}

fn forms(rt: &(impl AllocGlobal + Abort), policy: &Policy) -> Result<(), Fail> {
    for (line, is_form) in LINES {
        let text = format!(in rt.alloc(); "book 1\n{line}\nend 1\n")?;
        assert!(rt;
            is_as_said(rt.alloc(), policy, text.as_bytes(), *is_form),
            "{line}"
        );
    }
    Ok(())
}

// A post's line up to a list, and how it goes on behind it.
const LONG: &[(&str, &str)] = &[
    (
        "post 0 0 reduce_scatter sum int8 ",
        " gives 4294967295 as delta passed",
    ),
    ("post 3 1 create ", " gives 0 as none passed"),
    ("post 0 0 cart_create - ", " gives 0 as none passed"),
];

const LENGTHS: &[u32] = &[256, 1000];

// Lines of up to a few thousand bytes: lists of as many numbers as there can be members, and more.
#[test]
fn long_lines_are_read_and_written(rt: HostRuntime) -> Result<(), Fail> {
    under(&rt, BANKS_AND_OIL, |policy| long_lines(&rt, policy))
}

fn long_lines(rt: &(impl AllocGlobal + Abort), policy: &Policy) -> Result<(), Fail> {
    for (prefix, rest) in LONG {
        for numbers in LENGTHS {
            let list = listing(rt.alloc(), prefix, *numbers, 1)?;
            let text = format!(in rt.alloc(); "book 1\n{list}{rest}\nend 1\n")?;
            assert!(rt; is_whole(rt.alloc(), policy, text.as_bytes()), "{prefix}");
        }
    }
    Ok(())
}

// It is a book, or its second line is the first bad one.
fn is_as_said(alloc: Global, policy: &Policy, text: &[u8], is_form: bool) -> bool {
    if is_form {
        is_whole(alloc, policy, text)
    } else {
        fault_of(alloc, policy, text) == Some(ReadFault::BadLine(2))
    }
}

#[test]
fn a_prefix_is_written_where_the_writer_fails(rt: HostRuntime) -> Result<(), Fail> {
    under(&rt, BANKS_AND_OIL, |policy| broken_off(&rt, policy))
}

fn broken_off(rt: &(impl AllocGlobal + Abort), policy: &Policy) -> Result<(), Fail> {
    let text = long_text(rt.alloc())?;
    let bytes = text.as_bytes();
    let at_once = Some((Some(WriteFault::Write), bytes.len()));
    assert!(rt; written(rt.alloc(), policy, bytes, Fuse::After(0)) == at_once);
    match written(rt.alloc(), policy, bytes, Fuse::After(1)) {
        Some((Some(WriteFault::Write), left)) => {
            assert!(rt; 0 < left && left < bytes.len());
        }
        _ => assert!(rt; false),
    }
    assert!(rt; written(rt.alloc(), policy, bytes, Fuse::After(2)) == Some((None, 0)));
    Ok(())
}

// A book that is written in two parts.
fn long_text(alloc: Global) -> Result<String, Fail> {
    let mut text = String::new(alloc);
    text.push_str("book 1\n")?;
    for _ in 0..2000 {
        text.push_str("post 0 0 barrier gives 0 as none passed\n")?;
    }
    text.push_str("end 2000\n")?;
    Ok(text)
}

const READ_FAULTS: &[(ReadFault, &str)] = &[
    (ReadFault::BadLine(7), "line 7"),
    (ReadFault::Cut, "cut"),
    (ReadFault::NoMemory, "out of memory"),
];

const WRITE_FAULTS: &[(WriteFault, &str)] = &[
    (WriteFault::Write, "write fault"),
    (WriteFault::NoMemory, "out of memory"),
];

const BOOK_FAULTS: &[(BookFault, &str)] = &[
    (BookFault::BadEntry(7), "entry 7 is not what the posts give"),
    (BookFault::NoMemory, "out of memory"),
];

// Each fault has its text.
pub(crate) fn expect_texts<T: Display>(rt: &(impl AllocGlobal + Abort), table: &[(T, &str)]) {
    for (fault, text) in table {
        let Ok(said) = format!(in rt.alloc(); "{fault}") else {
            panic!(rt; "no memory")
        };
        assert!(rt; said.as_str() == *text, "{text}");
    }
}

#[test]
fn faults_have_their_texts(rt: HostRuntime) {
    expect_texts(&rt, READ_FAULTS);
    expect_texts(&rt, WRITE_FAULTS);
    expect_texts(&rt, BOOK_FAULTS);
}
