//! Policies that are refused: each command tells the fault, and looks at nothing else.
use crate::endings::{WALL, audits_so, ends_so};
use crate::limits::crowd;
use crate::runs::runs_so;
use std::sync::Wait;
use std::test::Fail;
use std::thread::Threads;

// What stands in the policy, what is put in its place, and the line of the fault.
const FAULTS: &[(&str, &str, &str)] = &[
    ("version = 1", "version = ", "policy: NotToml\n"),
    ("version = 1", "version = 3", "policy: BadVersion\n"),
    ("least = 3\n", "", "policy: MissingKey\n"),
    ("version = 1", "version = 1\nx = 1", "policy: UnknownKey\n"),
    ("delta", "public", "policy: BadName\n"),
    ("\"b0\"", "\"a0\"", "policy: DuplicateName\n"),
    ("\"crude\"\n", "\"gamma\"\n", "policy: UnknownDataset\n"),
    ("sum", "avg", "policy: BadOp\n"),
    ("least = 3", "least = 1", "policy: BadLeast\n"),
];

// Whether replay, run and audit tell this fault of the policy, with a script and a book that are
// none.
fn is_refused<R>(rt: &R, policy: &str, line: &str) -> bool
where
    R: AllocGlobal + Threads + Wait + Sync,
{
    let is_told = ends_so(rt, policy, b"pst", "", line, 1);
    let is_told_of_run = runs_so(rt, policy, "pst", "", line, 1);
    is_told && is_told_of_run && audits_so(rt, policy, "", "", line, 1)
}

#[test]
fn policies_are_judged_before_scripts(rt: HostRuntime) -> Result<(), Fail> {
    for (old, new, line) in FAULTS {
        let policy = WALL.replace(rt.alloc(), old, new)?;
        assert!(&rt; is_refused(&rt, &policy, line), "{line}");
    }
    let more = crowd(rt.alloc(), 257)?;
    assert!(&rt; is_refused(&rt, &more, "policy: TooMany\n"));
    assert!(&rt; is_refused(&rt, "", "policy: BadVersion\n"));
    assert!(&rt; is_refused(&rt, "version = 1", "policy: MissingKey\n"));
    Ok(())
}
