//! The lines of the faults of scripts, worked by hand from the grammar of lines.

use crate::walls::{BANKS_AND_INSURER, policy};
use check_text::{LineFault, script_lines};
use std::process::Abort;
use std::test::Fail;

// What is said of the script under the policy of two banks and an insurer.
fn says(
    rt: &(impl AllocGlobal + Abort),
    script: &[u8],
    expected: &str,
    first: Option<(u64, LineFault)>,
) -> Result<(), Fail> {
    let policy = policy(rt, BANKS_AND_INSURER);
    let said = script_lines(rt.alloc(), &policy, "s.txt", script);
    drop(policy);
    match said {
        Ok(said) => {
            assert_eq!(rt; said.text.as_slice(), expected.as_bytes());
            assert_eq!(rt; said.first, first);
        }
        Err(_) => panic!(rt; "out of memory"),
    }
    Ok(())
}

#[test]
fn no_faults(rt: HostRuntime) -> Result<(), Fail> {
    says(&rt, b"", "", None)?;
    says(
        &rt,
        b"# gamma is no dataset
post 0 0 allreduce sum int32 1 as alpha 5\r

take 0 0
info 2 9",
        "",
        None,
    )
}

#[test]
fn each_fault(rt: HostRuntime) -> Result<(), Fail> {
    says(
        &rt,
        b"# one line for each fault
foo 0 0
post 0 0 bcst 0 int32 1
post 0 0 allreduce sum int33 1
post 0 0 allreduce add int32 1
post 0 0 allreduce sum int32 1 as gamma 5
post 0 0 allreduce sum int32 1 as alpha 12x
post 0 0 allgather 2int 1 as alpha 1 2 3
take 0 x
info 0
info 0 0
",
        "s.txt:2:1: \"foo\" is no verb (post, take, info)
s.txt:3:10: \"bcst\" is no kind of collective
s.txt:4:24: \"int33\" is no type
s.txt:5:20: \"add\" is no operation
s.txt:6:35: \"gamma\" is neither a dataset nor public
s.txt:7:41: \"12x\" is no number of the type
s.txt:8:41: an odd number of elements for 2int
s.txt:9:8: \"x\" is not in the form or range of its field
s.txt:10:7: a field is missing at the end of the line
",
        Some((2, LineFault::BadVerb)),
    )
}

// A call of a process that the policy lacks, and a process in no form: the place is that of the
// process. Another field of the same form is told as a field.
#[test]
fn no_process_of_the_policy(rt: HostRuntime) -> Result<(), Fail> {
    says(
        &rt,
        b"post 2 0 barrier
post 3 0 barrier
post 9 0 bcast 0 int32 1 as alpha 1
take 4294967295 0
info x 0
info 4294967296 0
info 0 x
post 9 0 bcast 0 int32 1 as gamma 1
",
        "s.txt:2:6: \"3\" is no process of the policy
s.txt:3:6: \"9\" is no process of the policy
s.txt:4:6: \"4294967295\" is no process of the policy
s.txt:5:6: \"x\" is no process of the policy
s.txt:6:6: \"4294967296\" is no process of the policy
s.txt:7:8: \"x\" is not in the form or range of its field
s.txt:8:29: \"gamma\" is neither a dataset nor public
",
        Some((2, LineFault::BadField)),
    )
}

// A field too many, another word than `as`, an empty field, and bytes that are not printable.
#[test]
fn each_bad_shape(rt: HostRuntime) -> Result<(), Fail> {
    says(
        &rt,
        b"info 0 0
info 0 0 0
post 0 0 barrier as alpha
post 0 0 allreduce sum int32 1 is alpha 1
info  0 0
 info 0 0
info 0 0\x20
info 0 0\t
info \xc3\xa9 0
foo \x1b 0
",
        "s.txt:2:10: \"0\" is one field too many
s.txt:3:18: \"as\" is one field too many
s.txt:4:32: \"is\" is one field too many
s.txt:5:6: an empty field: one space too many
s.txt:6:1: an empty field: one space too many
s.txt:7:10: an empty field: the line ends in a space
s.txt:8:9: byte 9 is not printable ASCII
s.txt:9:6: byte 195 is not printable ASCII
s.txt:10:5: byte 27 is not printable ASCII
",
        Some((2, LineFault::BadShape)),
    )
}

// The last line has no LF, a CR at the end of a line is no part of it, and a quote stays.
#[test]
fn ends_of_lines(rt: HostRuntime) -> Result<(), Fail> {
    says(
        &rt,
        b"\r\ntake 0\r\ntake 0 1\r\r\n\"\" 0\ninfo 0 4294967296",
        "s.txt:2:7: a field is missing at the end of the line
s.txt:3:9: byte 13 is not printable ASCII
s.txt:4:1: \"\"\"\" is no verb (post, take, info)
s.txt:5:8: \"4294967296\" is not in the form or range of its field
",
        Some((2, LineFault::BadShape)),
    )
}

// A word of 36 bytes is shown whole, and of a longer one the first 34.
#[test]
fn long_words(rt: HostRuntime) -> Result<(), Fail> {
    says(
        &rt,
        b"post 0 0 gatherv 0 int8 as abcdefghijklmnopqrstuvwxyz0123456789 1
post 0 0 gatherv 0 int8 as abcdefghijklmnopqrstuvwxyz0123456789- 1
take 0 99999999999999999999999999999999999999999999999999999999999999999999999999999999
",
        "s.txt:1:28: \"abcdefghijklmnopqrstuvwxyz0123456789\" is neither a dataset nor public
s.txt:2:28: \"abcdefghijklmnopqrstuvwxyz01234567..\" is neither a dataset nor public
s.txt:3:8: \"9999999999999999999999999999999999..\" is not in the form or range of its field
",
        Some((1, LineFault::BadLabel)),
    )
}
