//! Texts whose finished lines are not the beginning of a sound book, and some whose are.
use crate::cuts::{is_sealed_as, under};
use crate::stored::{DENIED, text_of};
use book_seal::SealFault;
use std::process::Abort;
use std::test::Fail;
use trial_kit::policies::BANKS_AND_OIL;
use wall_policy::Policy;

// What stands in its place in the book of the denied broadcast, and why that has no seal.
const SPOILT: &[(&str, &str, SealFault)] = &[
    ("book 1", "book 2", SealFault::BadLine(1)),
    ("book 1\n", "", SealFault::BadLine(1)),
    ("book 1", "book 1\nend 0", SealFault::BadLine(3)),
    ("post 2 0", "post 4 0", SealFault::BadLine(4)),
    ("simple b0", "simple b1", SealFault::BadLine(6)),
    ("end 5", "end 4", SealFault::BadLine(7)),
    ("end 5\n", "end 4\npost", SealFault::BadLine(7)),
    ("end 5", "end 5\nend 5", SealFault::BadLine(8)),
    ("end 5", "end 5\n", SealFault::BadLine(8)),
    ("alpha passed", "alpha barred", SealFault::BadEntry(1)),
    ("alpha passed", "public passed", SealFault::BadEntry(1)),
    (
        "post 1 0",
        "verdict 0 0 granted\npost 1 0",
        SealFault::BadLine(8),
    ),
    (
        "post 1 0 bcast 0 int32 2 gives 0 as none passed",
        "verdict 0 0 granted",
        SealFault::BadEntry(2),
    ),
    (
        "post 3 0 bcast 0",
        "post 3 1 bcast 0",
        SealFault::BadEntry(4),
    ),
    (
        "denied simple b0 alpha\nend 5\n",
        "granted\n",
        SealFault::BadEntry(5),
    ),
    (
        "denied simple b0 alpha\nend 5\n",
        "granted\nend",
        SealFault::BadEntry(5),
    ),
    ("verdict 0 0", "verdict 0 1", SealFault::BadEntry(5)),
    (
        "verdict 0 0 denied simple b0 alpha\nend 5",
        "end 4",
        SealFault::BadEntry(5),
    ),
    (
        "end 5\n",
        "verdict 0 0 denied simple b0 alpha\n",
        SealFault::BadEntry(6),
    ),
];

// The text of the book with a part of it in another's place.
fn spoilt(rt: &(impl AllocGlobal + Abort), old: &str, new: &str) -> Result<String, Fail> {
    let book = text_of(rt.alloc(), &DENIED)?;
    let Some((prefix, rest)) = book.as_str().split_once(old) else {
        panic!(rt; "the book lacks {old}")
    };
    let text = format!(in rt.alloc(); "{prefix}{new}{rest}")?;
    Ok(text)
}

fn each_is_refused(rt: &(impl AllocGlobal + Abort), policy: &Policy) -> Result<(), Fail> {
    for (old, new, fault) in SPOILT {
        let text = spoilt(rt, old, new)?;
        assert!(rt;
            is_sealed_as(rt.alloc(), policy, text.as_bytes(), Err(*fault)),
            "{new}"
        );
    }
    Ok(())
}

#[test]
fn spoilt_books_have_no_seal(rt: HostRuntime) -> Result<(), Fail> {
    under(&rt, BANKS_AND_OIL, |policy| each_is_refused(&rt, policy))
}

// Texts that no server wrote, and their seals: what is not finished of them is not looked at.
const SEALED: &[(&str, &str)] = &[
    ("no book", "book 1\nend 0\n"),
    ("book 2", "book 1\nend 0\n"),
    ("book 1\nend 0\nend", "book 1\nend 0\n"),
    (
        "book 1\npost 3 0 barrier gives 0 as none passed\ngranted",
        "book 1\npost 3 0 barrier gives 0 as none passed\nend 1\n",
    ),
];

fn each_is_sealed(rt: &(impl AllocGlobal + Abort), policy: &Policy) -> Result<(), Fail> {
    for (text, sealed) in SEALED {
        assert!(rt;
            is_sealed_as(rt.alloc(), policy, text.as_bytes(), Ok(*sealed)),
            "{text}"
        );
    }
    Ok(())
}

#[test]
fn unfinished_bytes_are_not_looked_at(rt: HostRuntime) -> Result<(), Fail> {
    under(&rt, BANKS_AND_OIL, |policy| each_is_sealed(&rt, policy))
}

const TEXTS: &[(SealFault, &str)] = &[
    (SealFault::BadLine(7), "line 7"),
    (SealFault::BadEntry(7), "entry 7 is not what the posts give"),
    (SealFault::NoMemory, "out of memory"),
];

#[test]
fn faults_have_their_texts(rt: HostRuntime) -> Result<(), Fail> {
    for (fault, text) in TEXTS {
        let said = format!(in rt.alloc(); "{fault}")?;
        assert!(&rt; said.as_str() == *text, "{text}");
    }
    Ok(())
}
