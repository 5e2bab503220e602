//! Statements as scripts and books spell them, and words that are refused.

use crate::books::expect_texts;
use coll_routes::{Own, Signature};
use coll_text::*;
use mpi_elems::{Buffer, ElemType};
use std::alloc::{AllocError, Global};
use std::process::Abort;
use std::test::Fail;

// The next statement; out of memory where a growth was refused and the words have no fault.
fn read(rt: &impl AllocGlobal, words: &mut Parts) -> Result<(Signature, Own), LineFault> {
    let mut memory = Memory::new(rt.alloc());
    match next_statement(&mut memory, words) {
        Ok((sig, own)) => match memory.end() {
            Ok(()) => Ok((sig, own)),
            Err(refused) => {
                drop(sig);
                drop(own);
                Err(LineFault::from(refused))
            }
        },
        Err(fault) => Err(fault),
    }
}

// Whether the line is read whole, and written again as it was.
fn is_spelled(rt: &(impl AllocGlobal + Abort), line: &str) -> bool {
    let mut words = Parts::new(line.as_bytes(), b' ');
    match read(rt, &mut words) {
        Ok((sig, own)) => {
            let is_so = end_of(&mut words).is_ok() && is_put_as(rt, &sig, &own, line);
            drop(sig);
            drop(own);
            is_so
        }
        Err(_) => false,
    }
}

// Whether the statement is written as the line.
fn is_put_as(rt: &impl AllocGlobal, sig: &Signature, own: &Own, line: &str) -> bool {
    let mut text = Vec::new(rt.alloc());
    let is_put = write_statement(sig, own, &mut text).is_ok();
    is_put && text.as_slice() == line.as_bytes()
}

// The fault of the next words, none where they are a statement.
fn next_fault(rt: &impl AllocGlobal, words: &mut Parts) -> Option<LineFault> {
    match read(rt, words) {
        Ok((sig, own)) => {
            drop(sig);
            drop(own);
            None
        }
        Err(fault) => Some(fault),
    }
}

fn fault_of(rt: &impl AllocGlobal, line: &str) -> Option<LineFault> {
    let mut words = Parts::new(line.as_bytes(), b' ');
    next_fault(rt, &mut words)
}

const STATEMENTS: &[&str] = &[
    "barrier",
    "bcast 0 int8 2",
    "gather 4294967295 int16 0",
    "gatherv 3 int32",
    "scatter 1 int64 65536",
    "scatterv 1 uint8 0,2,1",
    "scatterv 1 uint8 -",
    "allgather uint16 1",
    "allgatherv uint32",
    "alltoall uint64 3",
    "alltoallv 2int 1,1",
    "reduce 0 max int32 1",
    "allreduce min int32 4294967295",
    "reduce_scatter prod int8 2,0",
    "reduce_scatter_block land int32 1",
    "scan lor int32 1",
    "exscan lxor int32 1",
    "neighbor_allgather int32 1",
    "neighbor_allgatherv int32",
    "neighbor_alltoall int32 1",
    "neighbor_alltoallv int32 1,2",
    "allreduce band int32 1",
    "allreduce bor int32 1",
    "allreduce bxor int32 1",
    "allreduce maxloc 2int 1",
    "allreduce minloc 2int 1",
    "allreduce sum int32 1",
    "dup",
    "split undefined 0",
    "split -2147483648 2147483647",
    "create 0,2,3",
    "create -",
    "cart_create 2,2 1,0",
    "cart_create - -",
    "cart_sub 0,1",
];

#[test]
fn statements_are_read_and_written(rt: HostRuntime) {
    for line in STATEMENTS {
        assert!(rt; is_spelled(&rt, line), "{line}");
    }
}

// Statements up to a list, and the most that a number of the list is.
const LONG: &[(&str, u32)] = &[
    ("create ", 255),
    ("scatterv 0 int32 ", 255),
    ("alltoallv uint16 ", 255),
    ("reduce_scatter sum int8 ", 1),
    ("cart_create - ", 1),
    ("cart_sub ", 1),
];

/// The statement with a list of so many numbers: those from 0 on, up to the most.
pub(crate) fn listing(
    alloc: Global,
    prefix: &str,
    numbers: u32,
    most: u32,
) -> Result<String, AllocError> {
    let mut line = String::from_str(alloc, prefix)?;
    let mut comma = "";
    for number in 0..numbers {
        let number = number.min(most);
        write!(line, "{comma}{number}")?;
        comma = ",";
    }
    Ok(line)
}

const LENGTHS: &[u32] = &[256, 257, 5000];

// Ranks, counts and flags: as many of each as a communicator has members at most, one more, and
// far more, which it is the rules' part to refuse.
#[test]
fn long_lists_are_read_and_written(rt: HostRuntime) -> Result<(), Fail> {
    for (prefix, most) in LONG {
        for numbers in LENGTHS {
            let line = listing(rt.alloc(), prefix, *numbers, *most)?;
            assert!(&rt; is_spelled(&rt, &line), "{prefix}");
        }
    }
    Ok(())
}

const MISSPELT: &[&str] = &["", "barrier ", "create 0,", "split 0 +1", "bcast 00 int8 1"];

#[test]
fn other_spellings_are_noticed(rt: HostRuntime) {
    for line in MISSPELT {
        assert!(&rt; !is_spelled(&rt, line), "{line}");
    }
}

const FAULTS: &[(&str, LineFault)] = &[
    ("", LineFault::BadShape),
    ("bcst", LineFault::BadKind),
    (" bcast 0 int8 1", LineFault::BadShape),
    ("Barrier", LineFault::BadKind),
    ("bcast 0 int8", LineFault::BadShape),
    ("bcast 0  1", LineFault::BadShape),
    ("bcast 00 int33 1", LineFault::BadField),
    ("bcast 0 int33 x", LineFault::BadType),
    ("allreduce avg int33 1", LineFault::UnknownOp),
    ("bcast 4294967296 int8 1", LineFault::BadField),
    ("bcast 18446744073709551617 int8 1", LineFault::BadField),
    ("bcast 0 int8 -1", LineFault::BadField),
    ("bcast 0 int8 +1", LineFault::BadField),
    ("bcast 0 int8 01", LineFault::BadField),
    ("create 0,,1", LineFault::BadField),
    ("create 0,1,", LineFault::BadField),
    ("create -,-", LineFault::BadField),
    ("cart_sub 2", LineFault::BadField),
    ("cart_create 1", LineFault::BadShape),
    ("split -0 0", LineFault::BadField),
    ("split 2147483648 0", LineFault::BadField),
    ("split undefined undefined", LineFault::BadField),
    ("split 0 -2147483649", LineFault::BadField),
];

#[test]
fn words_have_their_first_fault(rt: HostRuntime) {
    for (line, fault) in FAULTS {
        assert!(rt; fault_of(&rt, line) == Some(*fault), "{line}");
    }
}

#[test]
fn what_is_behind_a_statement_is_left(rt: HostRuntime) {
    let mut words = Parts::new(b"gatherv 3 int32 gives 1 18446744073709551615", b' ');
    assert!(rt; next_fault(&rt, &mut words).is_none());
    assert!(rt; next_word(&mut words) == Ok(b"gives".as_slice()));
    assert!(rt; next_number32(&mut words) == Ok(1));
    assert!(rt; next_number(&mut words, u64::MAX) == Ok(u64::MAX));
    assert!(rt; end_of(&mut words).is_ok());
    assert!(rt; signed(b"-128", 127, 128) == Some(-128));
    assert!(rt; are_printable(b" ~") && !are_printable(b"\t"));
}

// The room of a constructor's lists.
fn room_of(sig: Signature) -> Option<usize> {
    match sig {
        Signature::CartCreate { dims, periods } => {
            let room = dims.into_vec().capacity();
            Some(periods.into_vec().capacity().max(room))
        }
        other => {
            drop(other);
            None
        }
    }
}

// The room that the lists of this constructor took.
fn list_room(rt: &impl AllocGlobal, line: &str) -> Option<usize> {
    let mut words = Parts::new(line.as_bytes(), b' ');
    match read(rt, &mut words) {
        Ok((sig, own)) => {
            drop(own);
            room_of(sig)
        }
        Err(_) => None,
    }
}

// A book keeps the lists of its entries to the end.
#[test]
fn lists_take_room_for_their_numbers_alone(rt: HostRuntime) {
    assert!(rt; list_room(&rt, "cart_create 2,2 1,0").is_some_and(|room| room <= 16));
    assert!(rt; list_room(&rt, "cart_create - -") == Some(0));
}

const NAMES: &[(LineFault, &str)] = &[
    (LineFault::BadVerb, "BadVerb"),
    (LineFault::BadShape, "BadShape"),
    (LineFault::BadField, "BadField"),
    (LineFault::BadKind, "BadKind"),
    (LineFault::BadType, "BadType"),
    (LineFault::UnknownOp, "UnknownOp"),
    (LineFault::BadLabel, "BadLabel"),
    (LineFault::BadNumber, "BadNumber"),
    (LineFault::OddPair, "OddPair"),
    (LineFault::NoMemory, "NoMemory"),
];

#[test]
fn faults_have_their_names(rt: HostRuntime) {
    expect_texts(&rt, NAMES);
}

// Numbers of one digit and of all their digits, below 0 and above.
const SIGNED: &[(&str, i128)] = &[
    ("0", 0),
    ("-1", -1),
    ("9", 9),
    ("10", 10),
    ("99999999", 99999999),
    ("100000000", 100000000),
    ("-2147483648", -2147483648),
    ("1234567890123456789", 1234567890123456789),
    ("9223372036854775807", 9223372036854775807),
    ("-9223372036854775807", -9223372036854775807),
    ("-9223372036854775808", -9223372036854775808),
    ("9223372036854775808", 9223372036854775808),
    ("9999999999999999999", 9999999999999999999),
    ("10000000000000000000", 10000000000000000000),
    ("18446744073709551615", 18446744073709551615),
    ("-18446744073709551615", -18446744073709551615),
];

// Words that are no numbers.
const NO_NUMBERS: &[&str] = &[
    "",
    "-",
    "-0",
    "00",
    "01",
    "+1",
    "1x",
    "18446744073709551616",
];

// Whether the text is one word with this number, or with none.
fn is_number(text: &str, number: Option<i128>) -> bool {
    let mut parts = Parts::new(text.as_bytes(), b' ');
    parts.next_signed() == Some((text.as_bytes(), number)) && parts.next_signed().is_none()
}

#[test]
fn numbers_are_read(rt: HostRuntime) {
    for (text, number) in SIGNED {
        assert!(&rt; is_number(text, Some(*number)), "{text}");
    }
    for text in NO_NUMBERS {
        assert!(&rt; is_number(text, None), "{text}");
    }
}

// Whether these numbers stand in the text, each behind a space.
fn are_spaced(numbers: &[i128], text: &[u8]) -> bool {
    let mut parts = Parts::new(text, b' ');
    if parts.next() != Some(b"".as_slice()) {
        return false;
    }
    for n in numbers {
        let Some((_, Some(read))) = parts.next_signed() else {
            return false;
        };
        if read != *n {
            return false;
        }
    }
    parts.next().is_none()
}

// So many numbers from -33 on.
fn batch(rt: &(impl AllocGlobal + Abort), count: u8) -> Vec<i128> {
    let mut numbers = Vec::new(rt.alloc());
    for n in 0..count {
        let number = i128::from(n) - 33;
        assert!(rt; numbers.push(number).is_ok(), "no memory");
    }
    numbers
}

// Whether the numbers are written as they are read.
fn are_read_again(rt: &(impl AllocGlobal + Abort), numbers: &[i128]) -> bool {
    let Ok(buffer) = Buffer::from_numbers(rt.alloc(), ElemType::Int8, numbers) else {
        return false;
    };
    let mut text = Vec::new(rt.alloc());
    let is_put = put_spaced(&mut text, &buffer, 0).is_ok();
    drop(buffer);
    is_put && are_spaced(numbers, &text)
}

const COUNTS: &[u8] = &[0, 1, 2, 31, 32, 33, 63, 64, 65, 66];

// Batches of all sizes round one's end.
#[test]
fn batches_are_read_again(rt: HostRuntime) {
    for count in COUNTS {
        let numbers = batch(&rt, *count);
        assert!(&rt; are_read_again(&rt, &numbers), "{count}");
    }
}
