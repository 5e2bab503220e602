//! Where the faults of lines stand, counted by hand.

use crate::walls::{DESKS, policy};
use coll_text::LineFault;
use script_places::{Found, faults_of};
use std::process::Abort;
use std::test::Fail;
use wall_policy::Policy;

// Each line has this fault in this column.
const LINES: &[(&str, u64, LineFault)] = &[
    ("took 0 1", 1, LineFault::BadVerb),
    ("take 0", 7, LineFault::BadShape),
    ("take 0 1 x", 10, LineFault::BadShape),
    ("take 0 1 ", 10, LineFault::BadShape),
    ("take  0 1", 6, LineFault::BadShape),
    ("take x 1", 6, LineFault::BadField),
    ("info 0\t0", 7, LineFault::BadShape),
    ("post 0 4294967296 barrier", 8, LineFault::BadField),
    ("post 0 0 allgathr int32 1", 10, LineFault::BadKind),
    ("post 0 0 allreduce summ int32 1", 20, LineFault::UnknownOp),
    (
        "post 0 0 allreduce sum int33 1 as alpha 1",
        24,
        LineFault::BadType,
    ),
    ("post 0 0 scatterv 0 int32 1,2,x", 27, LineFault::BadField),
    ("post 0 0 split red 0", 16, LineFault::BadField),
    ("post 0 0 split undefined", 25, LineFault::BadShape),
    ("post 0 0 barrier as alpha", 18, LineFault::BadShape),
    (
        "post 0 0 bcast 0 int32 1 with alpha",
        26,
        LineFault::BadShape,
    ),
    ("post 0 0 bcast 0 int32 1 as", 28, LineFault::BadShape),
    (
        "post 0 0 bcast 0 int32 1 as gamma 1",
        29,
        LineFault::BadLabel,
    ),
    (
        "post 0 0 bcast 0 int32 1 as alpha 1 x",
        37,
        LineFault::BadNumber,
    ),
    (
        "post 0 0 reduce 0 maxloc 2int 1 as alpha 1",
        43,
        LineFault::OddPair,
    ),
];

// Compares the faults of a script.
fn tells(
    rt: &(impl AllocGlobal + Abort),
    policy: &Policy,
    script: &str,
    expected: &[Found],
) -> Result<(), Fail> {
    match faults_of(rt.alloc(), policy, script.as_bytes()) {
        Ok(found) => assert_eq!(rt; found.as_slice(), expected, "in {script:?}"),
        Err(_) => panic!(rt; "out of memory"),
    }
    Ok(())
}

// Each line, as a script by itself.
fn tells_each(rt: &(impl AllocGlobal + Abort), policy: &Policy) -> Result<(), Fail> {
    for (line, column, fault) in LINES {
        let found = Found {
            line: 1,
            column: *column,
            fault: *fault,
        };
        tells(rt, policy, line, &[found])?;
    }
    Ok(())
}

#[test]
fn each_fault_has_its_column(rt: HostRuntime) -> Result<(), Fail> {
    let policy = policy(&rt, DESKS);
    let ended = tells_each(&rt, &policy);
    drop(policy);
    ended
}

// Comments and empty lines count, and have no fault; nor has a call, but for one of a process that
// the policy lacks, at its process. Of two CR before a LF the first is a byte that is not printable.
fn tells_all(rt: &(impl AllocGlobal + Abort), policy: &Policy) -> Result<(), Fail> {
    let script = "# two faults\r\n\ntake 0 1\ntake 0\r\ninfo 7 0\npost 0 0 barrier\npst 0 0\n";
    let found = [
        Found {
            line: 4,
            column: 7,
            fault: LineFault::BadShape,
        },
        Found {
            line: 5,
            column: 6,
            fault: LineFault::BadField,
        },
        Found {
            line: 7,
            column: 1,
            fault: LineFault::BadVerb,
        },
    ];
    tells(rt, policy, script, &found)?;
    tells(rt, policy, "", &[])?;
    let carriage_return = Found {
        line: 1,
        column: 9,
        fault: LineFault::BadShape,
    };
    tells(rt, policy, "take 0 1\r\r\n", &[carriage_return])
}

#[test]
fn all_faults_of_a_script(rt: HostRuntime) -> Result<(), Fail> {
    let policy = policy(&rt, DESKS);
    let ended = tells_all(&rt, &policy);
    drop(policy);
    ended
}
