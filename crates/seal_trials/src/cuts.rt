//! Books that are cut at each of their bytes.
ghost use Rattle.std.specs.List.{All};
ghost use Rattle.run_model.specs.Known.{IsKnownEntry};

use crate::stored::{BARRED, DENIED, ROWS, SUMMED, Stored, seal_of, text_of};
use audit_book::{Book, check_book, read_book, write_book};
use book_seal::{SealFault, finished, seal_book};
use std::alloc::Global;
use std::process::Abort;
use std::test::Fail;
use wall_labels::memory::{ExpectingSink, Fuse};
use wall_policy::{Policy, read_policy};

/// Reads a policy and lends it to the steps of a test. What is let go of without `drop` is taken
/// apart in the function's own proof.
pub(crate) fn under<F>(rt: &(impl AllocGlobal + Abort), wall: &str, steps: F) -> Result<(), Fail>
where
    F: FnOnce(&Policy) -> Result<(), Fail>,
    requires { F.IsAlwaysCallable steps }
{
    match read_policy(rt.alloc(), wall.as_bytes()) {
        Ok(policy) => {
            let ended = steps(&policy);
            drop(policy);
            ended
        }
        Err(_) => panic!(rt; "the policy is not read"),
    }
}

// Whether a book is written as this very text.
fn is_written_as(alloc: Global, policy: &Policy, book: &Book, text: &str) -> bool
    requires { All (IsKnownEntry policy.now) book.now.list }
{
    let mut sink = ExpectingSink {
        rest: text.as_bytes(),
        is_same: true,
        fuse: Fuse::Whole,
    };
    let is_whole = write_book(alloc, policy, book, &mut sink).is_ok();
    is_whole && sink.is_same && sink.rest.is_empty()
}

/// Whether a text is sealed so: with this text, or with this fault.
pub(crate) fn is_sealed_as(
    alloc: Global,
    policy: &Policy,
    text: &[u8],
    expected: Result<&str, SealFault>,
) -> bool {
    match seal_book(alloc, policy, text) {
        Ok(book) => {
            let is_same = match expected {
                Ok(sealed) => is_written_as(alloc, policy, &book, sealed),
                Err(_) => false,
            };
            drop(book);
            is_same
        }
        Err(fault) => match expected {
            Ok(_) => false,
            Err(other) => fault == other,
        },
    }
}

// Whether a text is that of a sound book.
fn is_sound(alloc: Global, policy: &Policy, text: &str) -> bool {
    match read_book(alloc, policy, text.as_bytes()) {
        Ok(book) => {
            let is_right = check_book(alloc, policy, &book).is_ok();
            drop(book);
            is_right
        }
        Err(_) => false,
    }
}

// The seal is another one only where one line more is finished.
fn is_line_end(bytes: &[u8], end: usize) -> bool {
    end == 0 || bytes.get(end - 1) == Some(&b'\n')
}

fn cut_everywhere(
    rt: &(impl AllocGlobal + Abort),
    policy: &Policy,
    book: &Stored,
) -> Result<(), Fail> {
    let text = text_of(rt.alloc(), book)?;
    let bytes = text.as_bytes();
    for end in 0..bytes.len() {
        let (prefix, _) = bytes.split_at(end);
        let sealed = seal_of(rt.alloc(), book, end)?;
        if is_line_end(bytes, end) {
            assert!(rt; is_sound(rt.alloc(), policy, sealed.as_str()), "{end}");
        }
        assert!(rt;
            is_sealed_as(rt.alloc(), policy, prefix, Ok(sealed.as_str())),
            "{end}"
        );
    }
    assert!(rt; is_sealed_as(rt.alloc(), policy, bytes, Ok(text.as_str())));
    Ok(())
}

fn each_cut_is_sealed(rt: &(impl AllocGlobal + Abort), book: &Stored) -> Result<(), Fail> {
    under(rt, book.policy, |policy| cut_everywhere(rt, policy, book))
}

#[test]
fn each_cut_of_a_denied_broadcast_has_its_seal(rt: HostRuntime) -> Result<(), Fail> {
    each_cut_is_sealed(&rt, &DENIED)
}

#[test]
fn each_cut_of_a_sanitised_sum_has_its_seal(rt: HostRuntime) -> Result<(), Fail> {
    each_cut_is_sealed(&rt, &SUMMED)
}

#[test]
fn each_cut_of_a_grid_has_its_seal(rt: HostRuntime) -> Result<(), Fail> {
    each_cut_is_sealed(&rt, &ROWS)
}

#[test]
fn each_cut_of_a_barred_gather_has_its_seal(rt: HostRuntime) -> Result<(), Fail> {
    each_cut_is_sealed(&rt, &BARRED)
}

// Texts, and what is finished of them.
const FINISHED: &[(&str, &str)] = &[
    ("", ""),
    ("book 1", ""),
    ("\n", "\n"),
    ("book 1\n", "book 1\n"),
    ("book 1\npost", "book 1\n"),
    ("a\n\nb", "a\n\n"),
];

#[test]
fn what_is_finished_ends_with_the_last_line_feed(rt: HostRuntime) {
    for (text, lines) in FINISHED {
        assert!(&rt; finished(text.as_bytes()) == lines.as_bytes(), "{text}");
    }
}
