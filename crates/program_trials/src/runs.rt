//! Runs of scripts whose calls each process makes for itself.
use crate::endings::{WALL, sink, source};
use program_commands::run_on;
use std::process::Abort;
use std::sync::Wait;
use std::thread::Threads;
use wall_labels::memory::{ExpectingSink, Fuse};

// One process of one bank.
pub(crate) const ALONE: &str = "version = 1
[[class]]
name = \"banks\"
datasets = [\"alpha\", \"beta\"]
[[process]]
name = \"p0\"
home = \"alpha\"
";

// Whether running the script writes these lines, and this one on standard error, with this status.
pub(crate) fn runs_so<R: AllocGlobal + Threads + Wait + Sync>(
    rt: &R,
    policy: &str,
    script: &str,
    said: &str,
    line: &str,
    status: u8,
) -> bool {
    let mut policy = source(policy.as_bytes(), Fuse::Whole);
    let mut script = source(script.as_bytes(), Fuse::Whole);
    let mut out = sink(said.as_bytes(), Fuse::Whole);
    let mut err = sink(line.as_bytes(), Fuse::Whole);
    let given = run_on(
        rt,
        rt.alloc(),
        &mut policy,
        &mut script,
        &mut out,
        &mut err,
        None::<&mut ExpectingSink>,
    );
    let is_all = out.rest.is_empty() && err.rest.is_empty();
    given == status && is_all && out.is_same && err.is_same
}

// Three processes without a home.
const THREE: &str = "version = 1
[[process]]
name = \"p0\"
[[process]]
name = \"p1\"
[[process]]
name = \"p2\"
";

// A policy, a script, and what its run writes.
const RUNS: &[(&str, &str, &str)] = &[
    // each take waits for the posts of the others
    (
        WALL,
        "post 0 0 allreduce sum int32 1 as alpha 5
take 0 0
post 1 0 allreduce sum int32 1 as beta 6
take 1 0
post 2 0 allreduce sum int32 1 as crude 7
take 2 0
post 3 0 allreduce sum int32 1 as public 1
take 3 0
",
        "rank 0 a0
posted 0
delivered [19]
rank 1 b0
posted 0
delivered [19]
rank 2 c0
posted 0
delivered [19]
rank 3 n0
posted 0
delivered [19]
",
    ),
    (WALL, "", "rank 0 a0\nrank 1 b0\nrank 2 c0\nrank 3 n0\n"),
    // c0 writes what it may not, and waits for the others
    (
        WALL,
        "post 2 0 bcast 2 int32 1 as alpha 4
take 2 0
post 0 0 bcast 2 int32 1
take 0 0
post 1 0 bcast 2 int32 1
take 1 0
post 3 0 bcast 2 int32 1
take 3 0
",
        "rank 0 a0
posted 0
denied star c0 alpha
rank 1 b0
posted 0
denied star c0 alpha
rank 2 c0
barred 0 alpha
denied star c0 alpha
rank 3 n0
posted 0
denied star c0 alpha
",
    ),
    // a refused post has no request, and is no member's post
    (
        WALL,
        "post 0 0 bcast 0 int32 2 as alpha 7
post 0 0 barrier
take 0 0
post 1 0 barrier
take 1 0
post 2 0 barrier
take 2 0
post 3 0 barrier
take 3 0
",
        "rank 0 a0
refused BadCount
posted 0
delivered none
rank 1 b0
posted 0
delivered none
rank 2 c0
posted 0
delivered none
rank 3 n0
posted 0
delivered none
",
    ),
    // the second instance waits for posts behind a take of the first
    (
        THREE,
        "post 0 0 barrier
post 0 0 barrier
take 0 1
post 1 0 barrier
take 1 0
post 1 0 barrier
post 2 0 barrier
post 2 0 barrier
",
        "rank 0 p0
posted 0
posted 1
delivered none
rank 1 p1
posted 0
delivered none
posted 1
rank 2 p2
posted 0
posted 1
",
    ),
    // c0 writes what it may not, as the last of its instance, and the others wait once more
    (
        WALL,
        "post 0 0 barrier
take 0 0
post 0 0 bcast 2 int32 1
take 0 1
post 0 0 barrier
take 0 2
post 1 0 barrier
take 1 0
post 1 0 bcast 2 int32 1
take 1 1
post 1 0 barrier
take 1 2
post 2 0 barrier
take 2 0
post 2 0 bcast 2 int32 1 as alpha 4
take 2 1
post 2 0 barrier
take 2 2
post 3 0 barrier
take 3 0
post 3 0 bcast 2 int32 1
take 3 1
post 3 0 barrier
take 3 2
",
        "rank 0 a0
posted 0
delivered none
posted 1
denied star c0 alpha
posted 2
delivered none
rank 1 b0
posted 0
delivered none
posted 1
denied star c0 alpha
posted 2
delivered none
rank 2 c0
posted 0
delivered none
barred 1 alpha
denied star c0 alpha
posted 2
delivered none
rank 3 n0
posted 0
delivered none
posted 1
denied star c0 alpha
posted 2
delivered none
",
    ),
    // p2 never posts: the takes are pending in the end, and their processes go on
    (
        THREE,
        "post 0 0 barrier
take 0 0
post 1 0 barrier
take 1 0
take 1 9
",
        "rank 0 p0
posted 0
pending
rank 1 p1
posted 0
pending
refused NoSuchRequest
rank 2 p2
",
    ),
    // no number of a communicator is one too many to be asked for
    (
        ALONE,
        "post 0 4294967295 barrier\npost 0 1024 barrier\npost 0 0 barrier\ntake 0 0\n",
        "rank 0 p0\nrefused NoSuchComm\nrefused NoSuchComm\nposted 0\ndelivered none\n",
    ),
    // p2 is in none of the new communicators
    (
        THREE,
        "post 0 0 split 1 0
take 0 0
info 0 1
post 1 0 split 1 5
take 1 0
info 1 1
post 2 0 split undefined 0
take 2 0
info 2 1
info 2 0
",
        "rank 0 p0
posted 0
comm 1 rank 0 size 2
info size 2 rank 0
rank 1 p1
posted 0
comm 1 rank 1 size 2
info size 2 rank 1
rank 2 p2
posted 0
null
refused NotMember
info size 3 rank 2
",
    ),
    (
        ALONE,
        "post 0 0 cart_create 1 0\ntake 0 0\ninfo 0 1\n",
        "rank 0 p0\nposted 0\ncomm 1 rank 0 size 1\ninfo size 1 rank 0 dims 1\n",
    ),
];

// What is not run: the policy and the script, the line on standard error, and the status.
const UNRUN: &[(&str, &str, &str, u8)] = &[
    (WALL, "take 0 0\npst\n", "script: line 2: BadVerb\n", 2),
    (
        WALL,
        "take 0 0\ntake 4 0\n",
        "script: line 2: BadField\n",
        2,
    ),
    (ALONE, "take 7 0\n", "script: line 1: BadField\n", 2),
    ("version = ", "pst", "policy: NotToml\n", 1),
    // one line for each other fault
    (WALL, "#\ntake 0\n", "script: line 2: BadShape\n", 2),
    (WALL, "post 0 0 bcst", "script: line 1: BadKind\n", 2),
    (
        WALL,
        "post 0 0 bcast 0 int33 1",
        "script: line 1: BadType\n",
        2,
    ),
    (
        WALL,
        "post 0 0 allreduce avg int32 1",
        "script: line 1: UnknownOp\n",
        2,
    ),
    (
        WALL,
        "post 0 0 bcast 0 int32 1 as gamma 7",
        "script: line 1: BadLabel\n",
        2,
    ),
    (
        WALL,
        "post 0 0 bcast 0 int32 1 as alpha x",
        "script: line 1: BadNumber\n",
        2,
    ),
    (
        WALL,
        "post 0 0 bcast 0 2int 1 as alpha 7",
        "script: line 1: OddPair\n",
        2,
    ),
];

#[test]
fn processes_run_at_the_same_time(rt: HostRuntime) {
    for (policy, script, said) in RUNS {
        assert!(&rt; runs_so(&rt, policy, script, said, "", 0), "{said}");
    }
    for (policy, script, line, status) in UNRUN {
        assert!(&rt; runs_so(&rt, policy, script, "", line, *status), "{line}");
    }
}

// Whether running the script of one process writes these lines, this book, and this line on
// standard error, with this status.
fn keeps_so<R: AllocGlobal + Threads + Wait + Sync>(
    rt: &R,
    script: &str,
    said: &str,
    book: &str,
    line: &str,
    status: u8,
) -> bool {
    let mut policy = source(ALONE.as_bytes(), Fuse::Whole);
    let mut script = source(script.as_bytes(), Fuse::Whole);
    let mut out = sink(said.as_bytes(), Fuse::Whole);
    let mut err = sink(line.as_bytes(), Fuse::Whole);
    let mut kept = sink(book.as_bytes(), Fuse::Whole);
    let given = run_on(
        rt,
        rt.alloc(),
        &mut policy,
        &mut script,
        &mut out,
        &mut err,
        Some(&mut kept),
    );
    let is_all = out.rest.is_empty() && err.rest.is_empty() && kept.rest.is_empty();
    given == status && is_all && out.is_same && err.is_same && kept.is_same
}

// What the tests of runs rest on notices other lines, none, and one too many, another line on
// standard error, another status and another book.
#[test]
fn other_runs_are_noticed(rt: HostRuntime) {
    let script = "take 0 0\n";
    let said = "rank 0 p0\nrefused NoSuchRequest\n";
    assert!(&rt; runs_so(&rt, ALONE, script, said, "", 0));
    let others = [
        ("rank 0 p0\npending\n", "", 0),
        ("", "", 0),
        ("rank 0 p0\nrefused NoSuchRequest\nrank 1 p1\n", "", 0),
        (said, "no thread\n", 0),
        (said, "", 4),
    ];
    for (lines, line, status) in others {
        assert!(&rt; !runs_so(&rt, ALONE, script, lines, line, status));
        assert!(&rt; !keeps_so(&rt, script, lines, "book 1\nend 0\n", line, status));
    }
    for book in ["", "book 1\nend 1\n", "book 1\nend 0\n\n"] {
        assert!(&rt; !keeps_so(&rt, script, said, book, "", 0));
    }
}

#[test]
fn books_of_runs_are_kept(rt: HostRuntime) {
    let script = "post 0 0 bcast 0 int32 1 as alpha 5\ntake 0 0\ntake 0 0\n";
    let said = "rank 0 p0\nposted 0\ndelivered none\nrefused NoSuchRequest\n";
    let book =
        "book 1\npost 0 0 bcast 0 int32 1 gives 1 as alpha passed\nverdict 0 0 granted\nend 2\n";
    assert!(&rt; keeps_so(&rt, script, said, book, "", 0));
    assert!(&rt; keeps_so(&rt, "", "rank 0 p0\n", "book 1\nend 0\n", "", 0));
    let fault = "script: line 1: BadField\n";
    assert!(&rt; keeps_so(&rt, "take 7 0\n", "", "", fault, 2));
}

#[test]
fn writers_of_runs_fail_at_each_write(rt: HostRuntime) {
    let said = "rank 0 a0\nrank 1 b0\nrank 2 c0\nrefused NoSuchRequest\nrank 3 n0\n";
    let mut writes: u64 = 0;
    for k in 0..100u64 {
        let mut policy = source(WALL.as_bytes(), Fuse::Whole);
        let mut script = source(b"take 2 0", Fuse::Whole);
        let mut out = sink(said.as_bytes(), Fuse::After(k));
        let mut err = sink(b"write fault\n", Fuse::Whole);
        let mut kept = sink(b"book 1\nend 0\n", Fuse::Whole);
        let status = run_on(
            &rt,
            rt.alloc(),
            &mut policy,
            &mut script,
            &mut out,
            &mut err,
            Some(&mut kept),
        );
        assert!(&rt; out.is_same && kept.is_same);
        if status != 3 {
            assert!(&rt; status == 0 && out.rest.is_empty() && kept.rest.is_empty());
            break;
        }
        assert!(&rt; err.is_same && err.rest.is_empty());
        assert_eq!(&rt; kept.rest.len(), 13);
        writes = k + 1;
    }
    assert!(&rt; 0 < writes && writes < 99);
}
