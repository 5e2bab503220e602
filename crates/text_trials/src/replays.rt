//! Scripts that are replayed over devices in memory.

use crate::books::expect_texts;
use crate::scripts::{FAULTS, fault_of_script, policy_of, wall};
use crate::walls::FOUR;
use hall_script::*;
use std::process::Abort;
use wall_labels::memory::{ExpectingSink, Fuse, MemorySource};
use wall_policy::Policy;

// The first of the worked examples, with comments, empty lines, ends of two kinds, and a last line
// without one.
const SCRIPT: &[u8] = b"# a0 sends alpha's numbers to all
post 0 0 bcast 0 int32 2 as alpha 7 -1\r
post 1 0 bcast 0 int32 2\r
\r

post 2 0 bcast 0 int32 2
take 0 0
post 3 0 bcast 0 int32 2
take 0 0
take 1 0
# b0 is a rival
take 2 0
take 3 0";

const REPLIES: &[u8] = b"posted 0
posted 0
posted 0
pending
posted 0
denied simple b0 alpha
denied simple b0 alpha
denied simple b0 alpha
denied simple b0 alpha
";

// A duplicate of the world, a reduction, and what is known of communicators.
const MIXED: &[u8] = b"post 0 0 dup
post 1 0 dup
post 2 0 dup
post 3 0 dup
take 3 0
info 3 1
info 3 2
info 4 0
post 0 1 allreduce sum int32 1 as alpha 5
post 1 1 allreduce sum int32 1 as beta 6
post 2 1 allreduce sum int32 1 as crude 7
post 3 1 allreduce sum int32 1 as public 1
take 3 1
take 3 1
";

const MIXED_REPLIES: &[u8] = b"posted 0
posted 0
posted 0
posted 0
comm 1 rank 3 size 4
info size 4 rank 3
refused NoSuchComm
refused NoSuchProcess
posted 1
posted 1
posted 1
posted 1
delivered [19]
refused NoSuchRequest
";

// How a script is replayed over devices that fail so.
#[derive(Clone, Copy)]
pub(crate) struct Case<'a> {
    pub script: &'a [u8],
    pub replies: &'a [u8],
    pub reads: Fuse,
    pub writes: Fuse,
    pub fault: Option<ScriptFault>,
}

// Whether these replies are written, and the replay ends so, under the policy of most tests.
pub(crate) fn is_replayed(rt: &(impl AllocGlobal + Abort), case: &Case) -> bool {
    is_replayed_under(rt, wall(rt), case)
}

// The same under this policy.
pub(crate) fn is_replayed_under(
    rt: &(impl AllocGlobal + Abort),
    policy: Policy,
    case: &Case,
) -> bool {
    let mut source = MemorySource {
        rest: case.script,
        fuse: case.reads,
    };
    let mut sink = ExpectingSink {
        rest: case.replies,
        is_same: true,
        fuse: case.writes,
    };
    let ended = replay(rt.alloc(), policy, &mut source, &mut sink).err();
    ended == case.fault && sink.is_same && sink.rest.is_empty()
}

// Scripts over devices that don't fail.
const CASES: &[(&[u8], &[u8], Option<ScriptFault>)] = &[
    (SCRIPT, REPLIES, None),
    (MIXED, MIXED_REPLIES, None),
    (b"", b"", None),
    (
        b"take 0 0\n\n#\npst\ntake 0 0\n",
        b"refused NoSuchRequest\n",
        Some(ScriptFault::Line(4, LineFault::BadVerb)),
    ),
    (
        b"take 0 0\n\r\r\n",
        b"refused NoSuchRequest\n",
        Some(ScriptFault::Line(2, LineFault::BadShape)),
    ),
];

// A script, and replies or a fault that are not its own: the tests notice each.
const UNLIKE: &[(&[u8], &[u8], Option<ScriptFault>)] = &[
    (b"take 0 0\n", b"pending\n", None),
    (b"take 0 0\n", b"", None),
    (b"", b"refused NoSuchRequest\n", None),
    (b"pst", b"", None),
    (b"pst", b"", Some(ScriptFault::Line(2, LineFault::BadVerb))),
];

#[test]
fn other_replays_are_noticed(rt: HostRuntime) {
    for (script, replies, fault) in UNLIKE {
        let case = Case {
            script,
            replies,
            reads: Fuse::Whole,
            writes: Fuse::Whole,
            fault: *fault,
        };
        assert!(&rt; !is_replayed(&rt, &case));
    }
}

#[test]
fn scripts_are_replayed(rt: HostRuntime) {
    for (script, replies, fault) in CASES {
        let case = Case {
            script,
            replies,
            reads: Fuse::Whole,
            writes: Fuse::Whole,
            fault: *fault,
        };
        assert!(&rt; is_replayed(&rt, &case));
    }
}

// Communicators that are made of others, by four processes that may all give public data: with the
// ranks in another order, with a grid of two by two, and of parts of that.
const GRIDS: &[u8] = b"# ranks out of order
post 0 0 create 2,0,3,1
post 1 0 create 2,0,3,1
post 2 0 create 2,0,3,1
post 3 0 create 2,0,3,1
take 0 0
take 1 0
take 2 0
take 3 0
post 0 1 allgather int32 1 as public 10
post 1 1 allgather int32 1 as public 11
post 2 1 allgather int32 1 as public 12
post 3 1 allgather int32 1 as public 13
take 3 1
# a tube: what a rank gives for a slot arrives in the opposite one
post 0 0 cart_create 2,2 1,0
post 1 0 cart_create 2,2 1,0
post 2 0 cart_create 2,2 1,0
post 3 0 cart_create 2,2 1,0
take 0 2
take 1 2
take 2 2
take 3 2
post 0 2 neighbor_alltoall int32 1 as public 1 2 3 4
post 1 2 neighbor_alltoall int32 1 as public 11 12 13 14
post 2 2 neighbor_alltoall int32 1 as public 21 22 23 24
post 3 2 neighbor_alltoall int32 1 as public 31 32 33 34
take 0 3
take 1 3
take 2 3
take 3 3
# a duplicate has the grid, a part by colours has none
post 0 2 dup
post 1 2 dup
post 2 2 dup
post 3 2 dup
take 1 4
info 1 3
post 0 2 split 0 0
post 1 2 split 0 -1
post 2 2 split 0 -2
post 3 2 split 0 -3
take 1 5
info 1 4
post 1 4 neighbor_allgather int32 1 as public 1
post 1 4 cart_sub 1
post 1 3 cart_sub 1
# no dimension is kept: each rank is alone, and has no neighbour
post 0 2 cart_sub 0,0
post 1 2 cart_sub 0,0
post 2 2 cart_sub 0,0
post 3 2 cart_sub 0,0
take 0 6
take 1 6
take 2 6
take 3 6
info 2 7
post 2 7 neighbor_allgather int32 1 as public 1
take 2 7
# the leading dimension is kept: every second rank
post 0 2 cart_sub 1,0
post 1 2 cart_sub 1,0
post 2 2 cart_sub 1,0
post 3 2 cart_sub 1,0
take 0 7
take 1 7
take 2 8
take 3 7
info 3 10
post 1 10 neighbor_allgather int32 1 as public 1
post 3 10 neighbor_allgather int32 1 as public 3
take 1 8
# no elements: the label is none
post 0 0 allgather int32 0 as alpha
post 1 0 allgather int32 0 as alpha
post 2 0 allgather int32 0 as alpha
post 3 0 allgather int32 0 as alpha
take 0 8
take 3 9
";

const GRID_REPLIES: &[u8] = b"posted 0
posted 0
posted 0
posted 0
comm 1 rank 1 size 4
comm 1 rank 3 size 4
comm 1 rank 0 size 4
comm 1 rank 2 size 4
posted 1
posted 1
posted 1
posted 1
delivered [12] [10] [13] [11]
posted 2
posted 2
posted 2
posted 2
comm 2 rank 0 size 4
comm 2 rank 1 size 4
comm 2 rank 2 size 4
comm 2 rank 3 size 4
posted 3
posted 3
posted 3
posted 3
delivered [22] [21] - [13]
delivered [32] [31] [4] -
delivered [2] [1] - [33]
delivered [12] [11] [24] -
posted 4
posted 4
posted 4
posted 4
comm 3 rank 1 size 4
info size 4 rank 1 dims 2
posted 5
posted 5
posted 5
posted 5
comm 4 rank 2 size 4
info size 4 rank 2
refused NoTopology
refused NoTopology
refused BadDims
posted 6
posted 6
posted 6
posted 6
comm 5 rank 0 size 1
comm 6 rank 0 size 1
comm 7 rank 0 size 1
comm 8 rank 0 size 1
info size 1 rank 0 dims 0
posted 7
delivered none
posted 7
posted 7
posted 8
posted 7
comm 9 rank 0 size 2
comm 10 rank 0 size 2
comm 9 rank 1 size 2
comm 10 rank 1 size 2
info size 2 rank 1 dims 1
posted 8
posted 8
delivered [3] [3]
posted 8
posted 9
posted 9
posted 9
delivered [] [] [] []
delivered [] [] [] []
";

#[test]
fn communicators_of_grids_are_replayed(rt: HostRuntime) {
    let case = Case {
        script: GRIDS,
        replies: GRID_REPLIES,
        reads: Fuse::Whole,
        writes: Fuse::Whole,
        fault: None,
    };
    assert!(&rt; is_replayed_under(&rt, policy_of(&rt, FOUR), &case));
}

// Whether a script's line of this text is the text: it is neither passed over nor loses a CR.
fn is_taken_whole(line: &str) -> bool {
    !(line.is_empty() || line.starts_with('#') || line.ends_with('\r'))
}

// The script of this line alone has this fault, where it is replayed and where it is split.
fn expect_fault(rt: &(impl AllocGlobal + Abort), policy: &Policy, line: &str, fault: LineFault) {
    let script = line.as_bytes();
    let fault = Some(ScriptFault::Line(1, fault));
    let case = Case {
        script,
        replies: b"",
        reads: Fuse::Whole,
        writes: Fuse::Whole,
        fault,
    };
    assert!(rt; is_replayed(rt, &case), "{line}");
    assert!(rt;
        fault_of_script(rt.alloc(), policy, script) == fault,
        "{line}"
    );
}

// A script ends with the fault that its line has by itself, and with no other in its place.
#[test]
fn scripts_tell_each_fault_of_a_line(rt: HostRuntime) {
    let policy = wall(&rt);
    for (line, fault) in FAULTS {
        if is_taken_whole(line) {
            expect_fault(&rt, &policy, line, *fault);
        }
    }
    drop(policy);
}

// When the reader fails, when the writer, and what is told.
const FAILING: &[(Fuse, Fuse, ScriptFault)] = &[
    (Fuse::After(0), Fuse::Whole, ScriptFault::Read),
    (Fuse::After(1), Fuse::Whole, ScriptFault::Read),
    (Fuse::Whole, Fuse::After(0), ScriptFault::Write),
];

#[test]
fn failing_devices_are_told(rt: HostRuntime) {
    for (reads, writes, fault) in FAILING {
        let case = Case {
            script: SCRIPT,
            replies: b"",
            reads: *reads,
            writes: *writes,
            fault: Some(*fault),
        };
        assert!(&rt; is_replayed(&rt, &case));
    }
}

// The line so many times.
fn repeated(rt: &(impl AllocGlobal + Abort), line: &[u8], times: u32) -> Vec<u8> {
    let mut lines = Vec::new(rt.alloc());
    for _ in 0..times {
        if lines.extend_from_slice(line).is_err() {
            panic!(rt; "no memory");
        }
    }
    lines
}

// The second write fails: the replies stop in their middle.
#[test]
fn writers_fail_in_mid_stream(rt: HostRuntime) {
    let script = repeated(&rt, b"take 0 0\n", 5000);
    let replies = repeated(&rt, b"refused NoSuchRequest\n", 5000);
    let mut source = MemorySource {
        rest: &script,
        fuse: Fuse::Whole,
    };
    let mut sink = ExpectingSink {
        rest: &replies,
        is_same: true,
        fuse: Fuse::After(1),
    };
    let ended = replay(rt.alloc(), wall(&rt), &mut source, &mut sink).err();
    assert!(&rt; ended == Some(ScriptFault::Write) && sink.is_same);
    assert!(&rt; 0 < sink.rest.len() && sink.rest.len() < replies.len());
}

const SCRIPT_FAULTS: &[(ScriptFault, &str)] = &[
    (ScriptFault::Read, "read fault"),
    (
        ScriptFault::Line(3, LineFault::BadVerb),
        "script: line 3: BadVerb",
    ),
    (ScriptFault::Write, "write fault"),
    (ScriptFault::NoMemory, "out of memory"),
];

const DEVICE_FAULTS: &[(DeviceFault, &str)] = &[
    (DeviceFault::Read, "read fault"),
    (DeviceFault::NoMemory, "out of memory"),
];

#[test]
fn faults_have_their_texts(rt: HostRuntime) {
    expect_texts(&rt, SCRIPT_FAULTS);
    expect_texts(&rt, DEVICE_FAULTS);
}
