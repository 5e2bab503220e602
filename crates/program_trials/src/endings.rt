//! Replays and audits over devices in memory: what is written, the book that is kept, and how each
//! ends.
use coll_text::LineFault;
use program_commands::{EarlierFault, Ending, audit_on, end, replay_on};
use std::alloc::AllocError;
use std::process::Abort;
use std::test::Fail;
use wall_labels::memory::{ExpectingSink, Fuse, MemorySource};
use wall_policy::PolicyFault;

// Two banks and two oil firms; the fourth process has no home.
pub(crate) const WALL: &str = "version = 1
[[class]]
name = \"banks\"
datasets = [\"alpha\", \"beta\"]
[[class]]
name = \"oil\"
datasets = [\"crude\", \"delta\"]
[[process]]
name = \"a0\"
home = \"alpha\"
[[process]]
name = \"b0\"
home = \"beta\"
[[process]]
name = \"c0\"
home = \"crude\"
[[process]]
name = \"n0\"
[[sanitise]]
op = \"sum\"
least = 3
";

// The same in version 2, where a sanitised sum takes the data of three firms.
const WALL_IN_VERSION_2: &str = "version = 2
[[class]]
name = \"banks\"
datasets = [\"alpha\", \"beta\"]
[[class]]
name = \"oil\"
datasets = [\"crude\", \"delta\"]
[[process]]
name = \"a0\"
home = \"alpha\"
[[process]]
name = \"b0\"
home = \"beta\"
[[process]]
name = \"c0\"
home = \"crude\"
[[process]]
name = \"n0\"
[[sanitise]]
op = \"sum\"
least = 3
distinct = 3
";

// Four processes of one bank.
const BANK: &str = "version = 1
[[class]]
name = \"banks\"
datasets = [\"alpha\", \"beta\"]
[[process]]
name = \"p0\"
home = \"alpha\"
[[process]]
name = \"p1\"
home = \"alpha\"
[[process]]
name = \"p2\"
home = \"alpha\"
[[process]]
name = \"p3\"
home = \"alpha\"
";

pub(crate) fn source<'a>(rest: &'a [u8], fuse: Fuse) -> MemorySource<'a> {
    MemorySource { rest, fuse }
}

pub(crate) fn sink<'a>(rest: &'a [u8], fuse: Fuse) -> ExpectingSink<'a> {
    ExpectingSink {
        rest,
        is_same: true,
        fuse,
    }
}

// The status of a replay that keeps no book.
fn status_of(
    rt: &impl AllocGlobal,
    policy: &mut MemorySource,
    script: &mut MemorySource,
    out: &mut ExpectingSink,
    err: &mut ExpectingSink,
) -> u8 {
    replay_on(
        rt.alloc(),
        policy,
        script,
        out,
        err,
        None::<&mut ExpectingSink>,
    )
}

// Whether replaying the script writes these replies and this line on standard error, with this
// status.
pub(crate) fn ends_so(
    rt: &impl AllocGlobal,
    policy: &str,
    script: &[u8],
    replies: &str,
    line: &str,
    status: u8,
) -> bool {
    let mut policy = source(policy.as_bytes(), Fuse::Whole);
    let mut script = source(script, Fuse::Whole);
    let mut out = sink(replies.as_bytes(), Fuse::Whole);
    let mut err = sink(line.as_bytes(), Fuse::Whole);
    let given = status_of(rt, &mut policy, &mut script, &mut out, &mut err);
    let is_all = out.rest.is_empty() && err.rest.is_empty();
    given == status && is_all && out.is_same && err.is_same
}

// What the tests rest on notices other replies, none, and one too many; another line, and another
// status; another book; and what a broken device was given.
#[test]
fn other_endings_are_noticed(rt: HostRuntime) {
    let script = "take 0 0\n";
    let said = "refused NoSuchRequest\n";
    assert!(&rt; ends_so(&rt, WALL, script.as_bytes(), said, "", 0));
    let others = [
        ("pending\n", "", 0),
        ("", "", 0),
        ("refused NoSuchRequest\nrefused NoSuchRequest\n", "", 0),
        (said, "read fault\n", 0),
        (said, "", 1),
    ];
    for (replies, line, status) in others {
        assert!(&rt; !ends_so(&rt, WALL, script.as_bytes(), replies, line, status));
        let book = "book 1\nend 0\n";
        assert!(&rt; !keeps_so(&rt, WALL, script, replies, book, line, status));
    }
    for book in ["", "book 1\nend 1\n", "book 1\nend 0\n\n"] {
        assert!(&rt; !keeps_so(&rt, WALL, script, said, book, "", 0));
    }
    let sound = "book 1\nend 0\n";
    let unsound = "book 1\nverdict 0 0 granted\nend 1\n";
    assert!(&rt; !audits_so(&rt, WALL, sound, "sound 1\n", "", 0));
    assert!(&rt; !audits_so(&rt, WALL, sound, "", "", 0));
    assert!(&rt; !audits_so(&rt, WALL, sound, "sound 0\n", "book: cut\n", 0));
    assert!(&rt; !audits_so(&rt, WALL, sound, "sound 0\n", "", 2));
    assert!(&rt; !audits_so(&rt, WALL, unsound, "sound 1\n", "", 0));
}

#[test]
fn broadcasts_are_answered(rt: HostRuntime) {
    // a0's numbers would reach its rival b0
    assert!(&rt;
        ends_so(
            &rt,
            WALL,
            b"post 0 0 bcast 0 int32 2 as alpha 7 -1
post 1 0 bcast 0 int32 2
post 2 0 bcast 0 int32 2
take 0 0
post 3 0 bcast 0 int32 2
take 0 0
take 1 0
take 2 0
take 3 0
",
            "posted 0
posted 0
posted 0
pending
posted 0
denied simple b0 alpha
denied simple b0 alpha
denied simple b0 alpha
denied simple b0 alpha
",
            "",
            0,
        )
    );
    // c0 writes what it may not
    assert!(&rt;
        ends_so(
            &rt,
            WALL,
            b"post 2 0 bcast 2 int32 1 as alpha 4
post 0 0 bcast 2 int32 1
post 1 0 bcast 2 int32 1
post 3 0 bcast 2 int32 1
take 0 0
take 1 0
take 2 0
take 3 0
",
            "barred 0 alpha
posted 0
posted 0
posted 0
denied star c0 alpha
denied star c0 alpha
denied star c0 alpha
denied star c0 alpha
",
            "",
            0,
        )
    );
    // refusals
    assert!(&rt;
        ends_so(
            &rt,
            BANK,
            b"post 0 0 bcast 0 int32 1 as alpha 5
post 1 0 bcast 0 int32 2
post 1 0 bcast 4 int32 1
post 1 0 bcast 0 int32 1 as alpha 5
post 1 0 bcast 0 int32 65537
post 1 1 bcast 0 int32 1
post 9 0 bcast 0 int32 1
take 0 1
",
            "posted 0
refused Mismatch
refused BadRoot
refused BadCount
refused BadCount
refused NoSuchComm
refused NoSuchProcess
refused NoSuchRequest
",
            "",
            0,
        )
    );
    // one bank alone: all get the numbers
    assert!(&rt;
        ends_so(
            &rt,
            BANK,
            b"post 3 0 bcast 1 int32 2
post 1 0 bcast 1 int32 2 as alpha 7 -2147483648
post 2 0 bcast 1 int32 2
post 0 0 bcast 1 int32 2
take 1 0
take 0 0
take 0 0
",
            "posted 0
posted 0
posted 0
posted 0
delivered none
delivered [7 -2147483648]
refused NoSuchRequest
",
            "",
            0,
        )
    );
}

// Who makes a group of three, and what three then give to a sum.
const SUM_OF_RIVALS: &str = "post 0 0 create 0,1,3
post 1 0 create 0,1,3
post 2 0 create 0,1,3
post 3 0 create 0,1,3
post 0 1 allreduce sum int32 1 as alpha 1
post 1 1 allreduce sum int32 1 as beta 2
post 3 1 allreduce sum int32 1 as alpha 3
take 0 1
take 1 1
take 3 1
";

const SUM_OF_OTHERS: &str = "post 0 0 create 0,2,3
post 1 0 create 0,2,3
post 2 0 create 0,2,3
post 3 0 create 0,2,3
post 0 1 allreduce sum int32 1 as alpha 5
post 2 1 allreduce sum int32 1 as crude 7
post 3 1 allreduce sum int32 1 as alpha 1
take 0 1
take 2 1
take 3 1
post 0 1 allgather int32 1 as alpha 5
";

const SUM_OF_ALL: &str = "post 0 0 allreduce sum int32 1 as alpha 5
post 1 0 allreduce sum int32 1 as beta 6
post 2 0 allreduce sum int32 1 as crude 7
post 3 0 allreduce sum int32 1 as public 1
take 0 0
take 3 0
post 3 0 bcast 3 int32 1 as public 2
";

// Three contributors of two firms are a crowd in version 1 only; three firms are one in version 2
// too.
#[test]
fn sums_of_few_firms_are_charged(rt: HostRuntime) -> Result<(), Fail> {
    let got = "delivered [6]\ndelivered [6]\ndelivered [6]\n";
    let denied = "denied simple a0 beta\ndenied simple a0 beta\ndenied simple a0 beta\n";
    let freely = "delivered [13]\ndelivered [13]\ndelivered [13]\nposted 2\n";
    let charged = "delivered [13]\ndelivered [13]\ndelivered [13]\nbarred 2 alpha\n";
    for (policy, script, replies) in [
        (WALL, SUM_OF_RIVALS, got),
        (WALL_IN_VERSION_2, SUM_OF_RIVALS, denied),
        (WALL, SUM_OF_OTHERS, freely),
        (WALL_IN_VERSION_2, SUM_OF_OTHERS, charged),
    ] {
        let all = format!(in rt.alloc(); "{POSTED}posted 1\nposted 1\nposted 1\n{replies}")?;
        assert!(&rt;
            ends_so(&rt, policy, script.as_bytes(), &all, "", 0),
            "{replies}"
        );
    }
    let all = format!(in rt.alloc(); "{POSTED}delivered [19]\ndelivered [19]\nposted 1\n")?;
    for policy in [WALL, WALL_IN_VERSION_2] {
        assert!(&rt; ends_so(&rt, policy, SUM_OF_ALL.as_bytes(), &all, "", 0));
    }
    Ok(())
}

// Scripts that end at a line, and what is told of it.
const NO_CALLS: &[(&str, &str)] = &[
    ("pst 0", "script: line 1: BadVerb\n"),
    ("post 0 0 bcst", "script: line 1: BadKind\n"),
    ("post 0 0 bcast 0 int33 1", "script: line 1: BadType\n"),
    ("\n\n#\ntake 0", "script: line 4: BadShape\n"),
    ("\n\r\r\n", "script: line 2: BadShape\n"),
];

#[test]
fn lines_are_cut_at_their_ends(rt: HostRuntime) {
    let mixed = b"# a comment\r\ntake 0 0\r\n\n\r\n#\xff\ntake 1 0";
    assert!(&rt;
        ends_so(
            &rt,
            WALL,
            mixed,
            "refused NoSuchRequest\nrefused NoSuchRequest\n",
            "",
            0
        )
    );
    assert!(&rt; ends_so(&rt, WALL, b"", "", "", 0));
    for (script, line) in NO_CALLS {
        assert!(&rt;
            ends_so(&rt, WALL, script.as_bytes(), "", line, 2),
            "{script}"
        );
    }
    let late = "take 0 0\ntake x 0\ntake 0 0\n";
    assert!(&rt;
        ends_so(
            &rt,
            WALL,
            late.as_bytes(),
            "refused NoSuchRequest\n",
            "script: line 2: BadField\n",
            2
        )
    );
}

// Books without their last lines: the verdict and the end are still to come.
const BROADCASTS: &str = "book 1
post 0 0 bcast 0 int32 2 gives 2 as alpha passed
post 1 0 bcast 0 int32 2 gives 0 as none passed
post 2 0 bcast 0 int32 2 gives 0 as none passed
post 3 0 bcast 0 int32 2 gives 0 as none passed
";

const SPLITS: &str = "book 1
post 0 0 split 2 0 gives 0 as none passed
post 1 0 split undefined 0 gives 0 as none passed
post 2 0 split 0 5 gives 0 as none passed
post 3 0 split 2 0 gives 0 as none passed
";

// The last lines of such books.
const DENIED: &str = "verdict 0 0 denied simple b0 alpha\nend 5\n";

const MADE: &str = "verdict 0 0 made 1 2\nend 5\n";

// The first of four gatherers gives what it may not.
const BARRED: &str = "book 1\npost 0 0 gatherv 3 int32 gives 1 as public barred\n";

// Three of four gatherers, and the verdict that the first post brings.
const GATHERERS: &str = "post 1 0 gatherv 3 int32 gives 0 as none passed
post 2 0 gatherv 3 int32 gives 0 as none passed
post 3 0 gatherv 3 int32 gives 0 as none passed
verdict 0 0 denied star a0 public
end 5
";

// Whether auditing the book writes this line, and this one on standard error, with this status.
pub(crate) fn audits_so(
    rt: &impl AllocGlobal,
    policy: &str,
    book: &str,
    said: &str,
    line: &str,
    status: u8,
) -> bool {
    let mut policy = source(policy.as_bytes(), Fuse::Whole);
    let mut book = source(book.as_bytes(), Fuse::Whole);
    let mut out = sink(said.as_bytes(), Fuse::Whole);
    let mut err = sink(line.as_bytes(), Fuse::Whole);
    let given = audit_on(rt.alloc(), &mut policy, &mut book, &mut out, &mut err);
    let is_all = out.rest.is_empty() && err.rest.is_empty();
    given == status && is_all && out.is_same && err.is_same
}

// A policy, a book in two pieces, what its audit writes, on standard error too, and its status.
const AUDITS: &[(&str, &str, &str, &str, &str, u8)] = &[
    (WALL, BROADCASTS, DENIED, "sound 5\n", "", 0),
    (
        WALL,
        BROADCASTS,
        "verdict 0 0 granted\nend 5\n",
        "unsound at entry 5\n",
        "",
        2,
    ),
    (
        WALL,
        BROADCASTS,
        "verdict 0 0 denied simple b0 alpha\nend 5",
        "",
        "book: cut\n",
        2,
    ),
    (WALL, "", "", "", "book: cut\n", 2),
    (
        WALL,
        BROADCASTS,
        "verdict 0 0 denied simple b0 alpha\nend 4\n",
        "",
        "book: line 7\n",
        2,
    ),
    (BANK, SPLITS, MADE, "sound 5\n", "", 0),
    (
        BANK,
        SPLITS,
        "verdict 0 0 made 1 1\nend 5\n",
        "unsound at entry 5\n",
        "",
        2,
    ),
    (BANK, SPLITS, "end 4\n", "unsound at entry 5\n", "", 2),
    (WALL, BARRED, GATHERERS, "sound 5\n", "", 0),
    (
        WALL,
        "book 1\npost 0 0 gatherv 3 int32 gives 1 as public passed\n",
        GATHERERS,
        "unsound at entry 1\n",
        "",
        2,
    ),
    (
        WALL_IN_VERSION_2,
        BROADCASTS,
        DENIED,
        "",
        "book: line 1\n",
        2,
    ),
    ("version = ", BROADCASTS, DENIED, "", "policy: NotToml\n", 1),
];

#[test]
fn books_are_audited(rt: HostRuntime) -> Result<(), Fail> {
    for (policy, prefix, rest, said, line, status) in AUDITS {
        let book = format!(in rt.alloc(); "{prefix}{rest}")?;
        assert!(&rt;
            audits_so(&rt, policy, &book, said, line, *status),
            "{book}"
        );
    }
    let book = format!(in rt.alloc(); "{BROADCASTS}{DENIED}")?;
    let second = book.replace(rt.alloc(), "book 1", "book 2")?;
    assert!(&rt; audits_so(&rt, WALL_IN_VERSION_2, &second, "sound 5\n", "", 0));
    assert!(&rt; audits_so(&rt, WALL, &second, "", "book: line 1\n", 2));
    Ok(())
}

#[test]
fn devices_of_an_audit_fail(rt: HostRuntime) -> Result<(), Fail> {
    let book = format!(in rt.alloc(); "{SPLITS}{MADE}")?;
    for k in 0..2u64 {
        let mut policy = source(BANK.as_bytes(), Fuse::Whole);
        let mut given = source(book.as_bytes(), Fuse::After(k));
        let mut out = sink(b"", Fuse::Whole);
        let mut err = sink(b"read fault\n", Fuse::Whole);
        let status = audit_on(rt.alloc(), &mut policy, &mut given, &mut out, &mut err);
        assert!(&rt; status == 3 && out.is_same && err.is_same && err.rest.is_empty());
    }
    // the words, the number and the end of the line
    for k in 0..3u64 {
        let mut policy = source(BANK.as_bytes(), Fuse::Whole);
        let mut given = source(book.as_bytes(), Fuse::Whole);
        let mut out = sink(b"sound 5\n", Fuse::After(k));
        let mut err = sink(b"write fault\n", Fuse::Whole);
        let status = audit_on(rt.alloc(), &mut policy, &mut given, &mut out, &mut err);
        assert!(&rt; status == 3 && out.is_same && err.is_same && err.rest.is_empty());
    }
    Ok(())
}

// Whether replaying the script writes these replies, this book, and this line on standard error,
// with this status.
pub(crate) fn keeps_so(
    rt: &impl AllocGlobal,
    policy: &str,
    script: &str,
    replies: &str,
    book: &str,
    line: &str,
    status: u8,
) -> bool {
    let mut policy = source(policy.as_bytes(), Fuse::Whole);
    let mut script = source(script.as_bytes(), Fuse::Whole);
    let mut out = sink(replies.as_bytes(), Fuse::Whole);
    let mut err = sink(line.as_bytes(), Fuse::Whole);
    let mut kept = sink(book.as_bytes(), Fuse::Whole);
    let given = replay_on(
        rt.alloc(),
        &mut policy,
        &mut script,
        &mut out,
        &mut err,
        Some(&mut kept),
    );
    let is_all = out.rest.is_empty() && err.rest.is_empty() && kept.rest.is_empty();
    given == status && is_all && out.is_same && err.is_same && kept.is_same
}

// The posts of a split, whose book the audit above has.
const SPLITTING: &str = "post 0 0 split 2 0
post 1 0 split undefined 0
post 2 0 split 0 5
post 3 0 split 2 0
";

const POSTED: &str = "posted 0
posted 0
posted 0
posted 0
";

// A policy, a script, its replies, and its book in two pieces.
const KEPT: &[(&str, &str, &str, &str, &str)] = &[
    (
        WALL,
        "post 0 0 bcast 0 int32 2 as alpha 7 -1
post 1 0 bcast 0 int32 2
post 2 0 bcast 0 int32 2
take 0 0
post 3 0 bcast 0 int32 2
take 1 0
",
        "posted 0\nposted 0\nposted 0\npending\nposted 0\ndenied simple b0 alpha\n",
        BROADCASTS,
        DENIED,
    ),
    (
        BANK,
        "post 0 0 split 2 0
post 1 0 split undefined 0
post 2 0 split 0 5
post 3 0 split 2 0
take 0 0
take 1 0
take 2 0
take 3 0
",
        "posted 0
posted 0
posted 0
posted 0
comm 2 rank 0 size 2
null
comm 1 rank 0 size 1
comm 2 rank 1 size 2
",
        SPLITS,
        MADE,
    ),
    (
        WALL,
        "post 0 0 gatherv 3 int32 as public 1
post 1 0 gatherv 3 int32
post 2 0 gatherv 3 int32
post 3 0 gatherv 3 int32
take 2 0
",
        "barred 0 public\nposted 0\nposted 0\nposted 0\ndenied star a0 public\n",
        BARRED,
        GATHERERS,
    ),
    (
        WALL,
        "take 0 0\npost 0 7 barrier\n",
        "refused NoSuchRequest\nrefused NoSuchComm\n",
        "book 1\n",
        "end 0\n",
    ),
    (
        WALL_IN_VERSION_2,
        "take 0 0\n",
        "refused NoSuchRequest\n",
        "book 2\n",
        "end 0\n",
    ),
];

#[test]
fn books_are_kept(rt: HostRuntime) -> Result<(), Fail> {
    for (policy, script, replies, prefix, rest) in KEPT {
        let book = format!(in rt.alloc(); "{prefix}{rest}")?;
        assert!(&rt;
            keeps_so(&rt, policy, script, replies, &book, "", 0),
            "{book}"
        );
        assert!(&rt;
            ends_so(&rt, policy, script.as_bytes(), replies, "", 0),
            "{book}"
        );
    }
    // no book after a fault
    let broken = format!(in rt.alloc(); "{SPLITTING}take x 0\n")?;
    assert!(&rt;
        keeps_so(
            &rt,
            BANK,
            &broken,
            POSTED,
            "",
            "script: line 5: BadField\n",
            2
        )
    );
    assert!(&rt; keeps_so(&rt, "version = ", &broken, "", "", "policy: NotToml\n", 1));
    Ok(())
}

#[test]
fn writers_of_books_fail_at_each_write(rt: HostRuntime) -> Result<(), Fail> {
    let made = format!(in rt.alloc(); "{SPLITS}{MADE}")?;
    let mut writes: u64 = 0;
    for k in 0..100u64 {
        let mut policy = source(BANK.as_bytes(), Fuse::Whole);
        let mut script = source(SPLITTING.as_bytes(), Fuse::Whole);
        let mut out = sink(POSTED.as_bytes(), Fuse::Whole);
        let mut err = sink(b"write fault\n", Fuse::Whole);
        let mut book = sink(made.as_bytes(), Fuse::After(k));
        let status = replay_on(
            rt.alloc(),
            &mut policy,
            &mut script,
            &mut out,
            &mut err,
            Some(&mut book),
        );
        assert!(&rt; out.is_same && out.rest.is_empty() && book.is_same);
        if status != 3 {
            assert!(&rt; status == 0 && book.rest.is_empty());
            break;
        }
        assert!(&rt; err.is_same && err.rest.is_empty());
        writes = k + 1;
    }
    assert!(&rt; 0 < writes && writes < 99);
    Ok(())
}

// Endings with their status and line.
const ENDINGS: &[(Ending, u8, &str)] = &[
    (Ending::Done, 0, ""),
    (
        Ending::BadPolicy(PolicyFault::NotToml),
        1,
        "policy: NotToml\n",
    ),
    (
        Ending::BadPolicy(PolicyFault::BadVersion),
        1,
        "policy: BadVersion\n",
    ),
    (
        Ending::BadPolicy(PolicyFault::MissingKey),
        1,
        "policy: MissingKey\n",
    ),
    (
        Ending::BadPolicy(PolicyFault::UnknownKey),
        1,
        "policy: UnknownKey\n",
    ),
    (
        Ending::BadPolicy(PolicyFault::BadName),
        1,
        "policy: BadName\n",
    ),
    (
        Ending::BadPolicy(PolicyFault::DuplicateName),
        1,
        "policy: DuplicateName\n",
    ),
    (
        Ending::BadPolicy(PolicyFault::UnknownDataset),
        1,
        "policy: UnknownDataset\n",
    ),
    (Ending::BadPolicy(PolicyFault::BadOp), 1, "policy: BadOp\n"),
    (
        Ending::BadPolicy(PolicyFault::BadLeast),
        1,
        "policy: BadLeast\n",
    ),
    (
        Ending::BadPolicy(PolicyFault::TooMany),
        1,
        "policy: TooMany\n",
    ),
    (
        Ending::BadLine(1, LineFault::UnknownOp),
        2,
        "script: line 1: UnknownOp\n",
    ),
    (
        Ending::BadLine(16777217, LineFault::BadLabel),
        2,
        "script: line 16777217: BadLabel\n",
    ),
    (
        Ending::BadLine(10, LineFault::BadNumber),
        2,
        "script: line 10: BadNumber\n",
    ),
    (
        Ending::BadLine(9, LineFault::OddPair),
        2,
        "script: line 9: OddPair\n",
    ),
    (Ending::BadBookLine(7), 2, "book: line 7\n"),
    (Ending::BadBookLine(16777217), 2, "book: line 16777217\n"),
    (Ending::CutBook, 2, "book: cut\n"),
    (Ending::Unsound(5), 2, ""),
    (
        Ending::BadEarlier("x", EarlierFault::BadLine(7)),
        2,
        "after x: line 7\n",
    ),
    (
        Ending::BadEarlier("a b", EarlierFault::BadLine(16777217)),
        2,
        "after a b: line 16777217\n",
    ),
    (
        Ending::BadEarlier("x", EarlierFault::Cut),
        2,
        "after x: cut\n",
    ),
    (
        Ending::BadEarlier("x", EarlierFault::Unsound(5)),
        2,
        "after x: unsound at entry 5\n",
    ),
    (Ending::ReadFault, 3, "read fault\n"),
    (Ending::WriteFault, 3, "write fault\n"),
    (Ending::NoThread, 4, "no thread\n"),
    (Ending::Exhausted, 4, "exhausted\n"),
    (Ending::NoMemory, 4, "out of memory\n"),
    (Ending::BadArguments, 5, "bad arguments\n"),
];

#[test]
fn endings_have_their_status_and_line(rt: HostRuntime) {
    for (ending, status, line) in ENDINGS {
        let mut err = sink(line.as_bytes(), Fuse::Whole);
        assert_eq!(&rt; end(&mut err, *ending), *status, "{line}");
        assert!(&rt; err.is_same && err.rest.is_empty(), "{line}");
        let mut broken = sink(line.as_bytes(), Fuse::After(0));
        assert_eq!(&rt; end(&mut broken, *ending), *status, "{line}");
    }
}

// So many lines of a script, and their replies.
fn repeated(rt: &impl AllocGlobal, line: &str, count: u64) -> Result<String, AllocError> {
    let mut text = String::new(rt.alloc());
    for _ in 0..count {
        text.push_str(line)?;
    }
    Ok(text)
}

#[test]
fn readers_fail_at_each_read(rt: HostRuntime) -> Result<(), Fail> {
    let script = repeated(&rt, "take 0 0\n", 400)?;
    let mut reads: u64 = 0;
    for k in 0..100u64 {
        let mut policy = source(WALL.as_bytes(), Fuse::Whole);
        let mut given = source(script.as_bytes(), Fuse::After(k));
        let mut out = sink(b"", Fuse::Whole);
        let mut err = sink(b"read fault\n", Fuse::Whole);
        if status_of(&rt, &mut policy, &mut given, &mut out, &mut err) != 3 {
            break;
        }
        assert!(&rt; out.is_same && err.is_same && err.rest.is_empty());
        reads = k;
    }
    assert!(&rt; 0 < reads && reads < 99);
    for k in 0..2u64 {
        let mut policy = source(WALL.as_bytes(), Fuse::After(k));
        let mut given = source(b"take 0 0", Fuse::Whole);
        let mut out = sink(b"", Fuse::Whole);
        let mut err = sink(b"read fault\n", Fuse::Whole);
        assert_eq!(&rt;
            status_of(&rt, &mut policy, &mut given, &mut out, &mut err),
            3
        );
        assert!(&rt; out.is_same && err.is_same && err.rest.is_empty());
        assert_eq!(&rt; given.rest.len(), 8);
    }
    Ok(())
}

#[test]
fn writers_fail_at_each_write(rt: HostRuntime) -> Result<(), Fail> {
    let script = repeated(&rt, "take 0 0\n", 3000)?;
    let replies = repeated(&rt, "refused NoSuchRequest\n", 3000)?;
    let mut writes: u64 = 0;
    for k in 0..100u64 {
        let mut policy = source(WALL.as_bytes(), Fuse::Whole);
        let mut given = source(script.as_bytes(), Fuse::Whole);
        let mut out = sink(replies.as_bytes(), Fuse::After(k));
        let mut err = sink(b"write fault\n", Fuse::Whole);
        if status_of(&rt, &mut policy, &mut given, &mut out, &mut err) != 3 {
            assert!(&rt; out.is_same && out.rest.is_empty());
            break;
        }
        assert!(&rt; out.is_same && err.is_same && err.rest.is_empty());
        writes = k;
    }
    assert!(&rt; 0 < writes && writes < 99);
    Ok(())
}
