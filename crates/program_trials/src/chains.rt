//! Commands after earlier books: what was held at their end is held before, and what is wrong with
//! one of them is told by its path.
use crate::endings::{sink, source};
use program_commands::{Devices, Earlier, audit_after, read_wall_after, replay_after, run_after};
use std::alloc::{AllocError, Global};
use std::process::Abort;
use std::sync::Wait;
use std::test::Fail;
use std::thread::Threads;
use wall_labels::memory::{Fuse, MemorySource};
use wall_policy::Policy;

// The datasets alpha and beta are rivals. The first two processes are at home there, and the two
// others are consultants, at home nowhere.
pub(crate) const WALL: &str = r#"version = 1
[[class]]
name = "banks"
datasets = ["alpha", "beta"]
[[process]]
name = "a0"
home = "alpha"
[[process]]
name = "b0"
home = "beta"
[[process]]
name = "n0"
[[process]]
name = "m0"
"#;

// The same with a class and a dataset more, which stand in front.
const GREW: &str = r#"version = 1
[[class]]
name = "oil"
datasets = ["crude"]
[[class]]
name = "banks"
datasets = ["gamma", "alpha", "beta"]
[[process]]
name = "a0"
home = "alpha"
[[process]]
name = "b0"
home = "beta"
[[process]]
name = "n0"
[[process]]
name = "m0"
"#;

// a0 and n0 have one communicator, and b0 and m0 another; a0 sends n0 data of alpha.
pub(crate) const ALPHA: &str = "post 0 0 split 0 0
post 1 0 split 1 0
post 2 0 split 0 0
post 3 0 split 1 0
post 0 1 bcast 0 int32 1 as alpha 10
post 2 1 bcast 0 int32 1
take 2 1
";

pub(crate) const ALPHA_TO_N0: &str = "book 1
post 0 0 split 0 0 gives 0 as none passed
post 1 0 split 1 0 gives 0 as none passed
post 2 0 split 0 0 gives 0 as none passed
post 3 0 split 1 0 gives 0 as none passed
verdict 0 0 made 1 2
post 0 1 bcast 0 int32 1 gives 1 as alpha passed
post 2 1 bcast 0 int32 1 gives 0 as none passed
verdict 1 0 granted
end 8
";

// b0 and n0 have one, and a0 and m0 another; b0 sends n0 data of beta.
const BETA: &str = "post 0 0 split 1 0
post 1 0 split 0 0
post 2 0 split 0 0
post 3 0 split 1 0
post 1 1 bcast 0 int32 1 as beta 20
post 2 1 bcast 0 int32 1
take 2 1
";

pub(crate) const BETA_TO_N0: &str = "book 1
post 0 0 split 1 0 gives 0 as none passed
post 1 0 split 0 0 gives 0 as none passed
post 2 0 split 0 0 gives 0 as none passed
post 3 0 split 1 0 gives 0 as none passed
verdict 0 0 made 1 2
post 1 1 bcast 0 int32 1 gives 1 as beta passed
post 2 1 bcast 0 int32 1 gives 0 as none passed
verdict 1 0 granted
end 8
";

const BETA_NOT_TO_N0: &str = "book 1
post 0 0 split 1 0 gives 0 as none passed
post 1 0 split 0 0 gives 0 as none passed
post 2 0 split 0 0 gives 0 as none passed
post 3 0 split 1 0 gives 0 as none passed
verdict 0 0 made 1 2
post 1 1 bcast 0 int32 1 gives 1 as beta passed
post 2 1 bcast 0 int32 1 gives 0 as none passed
verdict 1 0 denied simple n0 beta
end 8
";

// n0 and m0 have one, and a0 and b0 another; n0 sends m0 what it writes as alpha.
const ALPHA_TO_M0: &str = "book 1
post 0 0 split 1 0 gives 0 as none passed
post 1 0 split 1 0 gives 0 as none passed
post 2 0 split 0 0 gives 0 as none passed
post 3 0 split 0 0 gives 0 as none passed
verdict 0 0 made 1 2
post 2 1 bcast 0 int32 1 gives 1 as alpha passed
post 3 1 bcast 0 int32 1 gives 0 as none passed
verdict 1 0 granted
end 8
";

// n0 posts under public, and then is sent data of alpha.
const PUBLIC_AND_THEN_ALPHA: &str = "book 1
post 0 0 split 0 1 gives 0 as none passed
post 1 0 split 1 0 gives 0 as none passed
post 2 0 split 0 0 gives 0 as none passed
post 3 0 split 1 0 gives 0 as none passed
verdict 0 0 made 1 2
post 2 1 bcast 0 int32 1 gives 1 as public passed
post 0 1 bcast 0 int32 1 gives 0 as none passed
verdict 1 0 granted
post 0 1 bcast 1 int32 1 gives 1 as alpha passed
post 2 1 bcast 1 int32 1 gives 0 as none passed
verdict 1 1 granted
end 11
";

const EMPTY: &str = "book 1\nend 0\n";

// What a script of those above is told before its last reply.
const POSTED: &str = "posted 0\nposted 0\nposted 0\nposted 0\nposted 1\nposted 1\n";

const TEN: &str = "delivered [10]\n";

const TWENTY: &str = "delivered [20]\n";

const NO_BETA: &str = "denied simple n0 beta\n";

// Books with their paths, the oldest first.
pub(crate) fn books<'a>(
    alloc: Global,
    earlier: &[(&'a str, &'a str)],
) -> Result<Vec<Earlier<'a, MemorySource<'a>>>, AllocError> {
    let mut all = Vec::new(alloc);
    for (path, text) in earlier {
        all.push(Earlier {
            path: *path,
            device: source((*text).as_bytes(), Fuse::Whole),
        })?;
    }
    Ok(all)
}

// A use of a command after earlier books, and what it comes to.
#[derive(Clone, Copy)]
struct Case<'a> {
    policy: &'a str,
    // With their paths.
    earlier: &'a [(&'a str, &'a str)],
    // The script, or the book that is audited.
    second: &'a str,
    said: &'a str,
    kept: &'a str,
    line: &'a str,
    status: u8,
}

fn replays_so(rt: &impl AllocGlobal, case: &Case) -> Result<bool, Fail> {
    let mut policy = source(case.policy.as_bytes(), Fuse::Whole);
    let mut script = source(case.second.as_bytes(), Fuse::Whole);
    let mut out = sink(case.said.as_bytes(), Fuse::Whole);
    let mut err = sink(case.line.as_bytes(), Fuse::Whole);
    let mut kept = sink(case.kept.as_bytes(), Fuse::Whole);
    let earlier = books(rt.alloc(), case.earlier)?;
    let devices = Devices {
        policy: &mut policy,
        subject: &mut script,
        out: &mut out,
        err: &mut err,
    };
    let status = replay_after(rt.alloc(), devices, earlier, Some(&mut kept));
    let is_all = out.rest.is_empty() && err.rest.is_empty() && kept.rest.is_empty();
    let is_same = out.is_same && err.is_same && kept.is_same;
    Ok(status == case.status && is_all && is_same)
}

fn runs_so<R>(rt: &R, case: &Case) -> Result<bool, Fail>
where
    R: AllocGlobal + Threads + Wait + Sync,
{
    let mut policy = source(case.policy.as_bytes(), Fuse::Whole);
    let mut script = source(case.second.as_bytes(), Fuse::Whole);
    let mut out = sink(case.said.as_bytes(), Fuse::Whole);
    let mut err = sink(case.line.as_bytes(), Fuse::Whole);
    let mut kept = sink(case.kept.as_bytes(), Fuse::Whole);
    let earlier = books(rt.alloc(), case.earlier)?;
    let devices = Devices {
        policy: &mut policy,
        subject: &mut script,
        out: &mut out,
        err: &mut err,
    };
    let status = run_after(rt, rt.alloc(), devices, earlier, Some(&mut kept));
    let is_all = out.rest.is_empty() && err.rest.is_empty() && kept.rest.is_empty();
    let is_same = out.is_same && err.is_same && kept.is_same;
    Ok(status == case.status && is_all && is_same)
}

fn audits_so(rt: &impl AllocGlobal, case: &Case) -> Result<bool, Fail> {
    let mut policy = source(case.policy.as_bytes(), Fuse::Whole);
    let mut book = source(case.second.as_bytes(), Fuse::Whole);
    let mut out = sink(case.said.as_bytes(), Fuse::Whole);
    let mut err = sink(case.line.as_bytes(), Fuse::Whole);
    let earlier = books(rt.alloc(), case.earlier)?;
    let devices = Devices {
        policy: &mut policy,
        subject: &mut book,
        out: &mut out,
        err: &mut err,
    };
    let status = audit_after(rt.alloc(), devices, earlier);
    let is_all = out.rest.is_empty() && err.rest.is_empty();
    Ok(status == case.status && is_all && out.is_same && err.is_same)
}

// A policy, earlier books, a script, its last reply, and its book.
const REPLAYS: &[(&str, &[&str], &str, &str, &str)] = &[
    (WALL, &[], ALPHA, TEN, ALPHA_TO_N0),
    (WALL, &[], BETA, TWENTY, BETA_TO_N0),
    (WALL, &[ALPHA_TO_N0], BETA, NO_BETA, BETA_NOT_TO_N0),
    (WALL, &[ALPHA_TO_N0], ALPHA, TEN, ALPHA_TO_N0),
    // A chain of three books; each counts, wherever it stands.
    (
        WALL,
        &[ALPHA_TO_N0, BETA_NOT_TO_N0],
        BETA,
        NO_BETA,
        BETA_NOT_TO_N0,
    ),
    (
        WALL,
        &[ALPHA_TO_N0, EMPTY, EMPTY],
        BETA,
        NO_BETA,
        BETA_NOT_TO_N0,
    ),
    (
        WALL,
        &[EMPTY, ALPHA_TO_N0, EMPTY],
        BETA,
        NO_BETA,
        BETA_NOT_TO_N0,
    ),
    (
        WALL,
        &[EMPTY, EMPTY, ALPHA_TO_N0],
        BETA,
        NO_BETA,
        BETA_NOT_TO_N0,
    ),
    (WALL, &[EMPTY, EMPTY, EMPTY], BETA, TWENTY, BETA_TO_N0),
    // The same book twice.
    (
        WALL,
        &[ALPHA_TO_N0, ALPHA_TO_N0],
        BETA,
        NO_BETA,
        BETA_NOT_TO_N0,
    ),
    // In this order nothing is barred.
    (
        WALL,
        &[PUBLIC_AND_THEN_ALPHA, ALPHA_TO_N0],
        BETA,
        NO_BETA,
        BETA_NOT_TO_N0,
    ),
    // What m0 holds is not n0's.
    (WALL, &[ALPHA_TO_M0], BETA, NO_BETA, BETA_NOT_TO_N0),
    // Older books of a policy that grew are read by their names.
    (GREW, &[], BETA, TWENTY, BETA_TO_N0),
    (GREW, &[ALPHA_TO_N0], BETA, NO_BETA, BETA_NOT_TO_N0),
    (
        GREW,
        &[ALPHA_TO_N0, BETA_NOT_TO_N0],
        ALPHA,
        TEN,
        ALPHA_TO_N0,
    ),
];

#[test]
fn replays_begin_where_books_end(rt: HostRuntime) -> Result<(), Fail> {
    for (policy, texts, script, reply, book) in REPLAYS {
        let mut earlier = Vec::new(rt.alloc());
        for text in *texts {
            earlier.push(("earlier.book", *text))?;
        }
        let said = format!(in rt.alloc(); "{POSTED}{reply}")?;
        let case = Case {
            policy,
            earlier: &earlier,
            second: script,
            said: &said,
            kept: book,
            line: "",
            status: 0,
        };
        assert!(&rt; replays_so(&rt, &case)?, "{said}{book}");
    }
    Ok(())
}

// The posts of `BETA`, each process's by itself: b0 and n0 wait for their communicator.
const BETA_APART: &str = "post 0 0 split 1 0
post 1 0 split 0 0
take 1 0
post 2 0 split 0 0
take 2 0
post 3 0 split 1 0
post 1 1 bcast 0 int32 1 as beta 20
post 2 1 bcast 0 int32 1
take 2 1
";

const RANKS: &str = "rank 0 a0
posted 0
rank 1 b0
posted 0
comm 1 rank 0 size 2
posted 1
rank 2 n0
posted 0
comm 1 rank 1 size 2
posted 1
";

#[test]
fn runs_begin_where_books_end(rt: HostRuntime) -> Result<(), Fail> {
    let cases: [(&[(&str, &str)], &str); 2] = [
        (&[], TWENTY),
        (&[("x", ALPHA_TO_N0), ("y", EMPTY)], NO_BETA),
    ];
    for (earlier, reply) in cases {
        let said = format!(in rt.alloc(); "{RANKS}{reply}rank 3 m0\nposted 0\n")?;
        let mut policy = source(WALL.as_bytes(), Fuse::Whole);
        let mut script = source(BETA_APART.as_bytes(), Fuse::Whole);
        let mut out = sink(said.as_bytes(), Fuse::Whole);
        let mut err = sink(b"", Fuse::Whole);
        let earlier = books(rt.alloc(), earlier)?;
        let devices = Devices {
            policy: &mut policy,
            subject: &mut script,
            out: &mut out,
            err: &mut err,
        };
        let status = run_after(
            &rt,
            rt.alloc(),
            devices,
            earlier,
            None::<&mut wall_labels::memory::ExpectingSink>,
        );
        assert!(&rt;
            status == 0 && out.is_same && out.rest.is_empty() && err.is_same,
            "{said}"
        );
    }
    Ok(())
}

// A policy, earlier books, a book after them, and what its audit writes.
const AUDITS: &[(&str, &[(&str, &str)], &str, &str, u8)] = &[
    (WALL, &[], BETA_TO_N0, "sound 8\n", 0),
    (
        WALL,
        &[("x", ALPHA_TO_N0)],
        BETA_TO_N0,
        "unsound at entry 8\n",
        2,
    ),
    (WALL, &[("x", ALPHA_TO_N0)], BETA_NOT_TO_N0, "sound 8\n", 0),
    (WALL, &[], BETA_NOT_TO_N0, "unsound at entry 8\n", 2),
    (
        WALL,
        &[("x", ALPHA_TO_N0), ("y", BETA_NOT_TO_N0)],
        BETA_NOT_TO_N0,
        "sound 8\n",
        0,
    ),
    (
        WALL,
        &[("x", PUBLIC_AND_THEN_ALPHA)],
        PUBLIC_AND_THEN_ALPHA,
        "unsound at entry 6\n",
        2,
    ),
    (WALL, &[("x", ALPHA_TO_N0)], ALPHA_TO_N0, "sound 8\n", 0),
    (GREW, &[("x", ALPHA_TO_N0)], BETA_NOT_TO_N0, "sound 8\n", 0),
];

#[test]
fn audits_begin_where_books_end(rt: HostRuntime) -> Result<(), Fail> {
    for (policy, earlier, second, said, status) in AUDITS {
        let case = Case {
            policy,
            earlier,
            second,
            said,
            kept: "",
            line: "",
            status: *status,
        };
        assert!(&rt; audits_so(&rt, &case)?, "{said}{second}");
    }
    Ok(())
}

// A process that the policy lacks.
const UNKNOWN: &str = "book 1\nverdict 0 0 denied simple z0 beta\nend 1\n";

// Earlier books, the line that tells the first fault of them, and the status.
const FAULTS: &[(&[(&str, &str)], &str, u8)] = &[
    (&[("x", "")], "after x: cut\n", 2),
    (&[("x", "book 1\n")], "after x: cut\n", 2),
    (&[("x", "book 1\nend 0")], "after x: cut\n", 2),
    (&[("x", "book 2\nend 0\n")], "after x: line 1\n", 2),
    (&[("x", "book 1\nend 0\n\n")], "after x: line 3\n", 2),
    (&[("x", "book 1\nend 1\n")], "after x: line 2\n", 2),
    (&[("x", UNKNOWN)], "after x: line 2\n", 2),
    (&[("x", BETA_NOT_TO_N0)], "after x: unsound at entry 8\n", 2),
    (&[("", BETA_NOT_TO_N0)], "after : unsound at entry 8\n", 2),
    (&[("runs/1 of 2: a", "")], "after runs/1 of 2: a: cut\n", 2),
    // It is told by its own path, and the first one alone.
    (&[("x", EMPTY), ("y", "")], "after y: cut\n", 2),
    (&[("x", "book 1\nx\n"), ("y", "")], "after x: line 2\n", 2),
    (
        &[("x", EMPTY), ("y", "book 1\nx\n"), ("z", "")],
        "after y: line 2\n",
        2,
    ),
    // Each is judged under the policy after those before it.
    (
        &[("x", ALPHA_TO_N0), ("y", BETA_TO_N0)],
        "after y: unsound at entry 8\n",
        2,
    ),
    (
        &[("x", BETA_TO_N0), ("y", EMPTY), ("z", ALPHA_TO_N0)],
        "after z: unsound at entry 8\n",
        2,
    ),
    (
        &[("x", ALPHA_TO_N0), ("y", PUBLIC_AND_THEN_ALPHA)],
        "after y: unsound at entry 6\n",
        2,
    ),
    // The same book twice.
    (
        &[("x", PUBLIC_AND_THEN_ALPHA), ("x", PUBLIC_AND_THEN_ALPHA)],
        "after x: unsound at entry 6\n",
        2,
    ),
];

// Of a fault of earlier books replay, run and audit tell the same, with a script and a book that
// are none: nothing is looked at behind it, and nothing written.
fn is_refused<R>(rt: &R, case: &Case) -> Result<bool, Fail>
where
    R: AllocGlobal + Threads + Wait + Sync,
{
    let is_told = replays_so(rt, case)?;
    let is_told_of_run = runs_so(rt, case)?;
    Ok(is_told && is_told_of_run && audits_so(rt, case)?)
}

#[test]
fn faults_of_earlier_books_are_told(rt: HostRuntime) -> Result<(), Fail> {
    let none = Case {
        policy: WALL,
        earlier: &[],
        second: "pst",
        said: "",
        kept: "",
        line: "",
        status: 2,
    };
    for (earlier, line, status) in FAULTS {
        let case = Case {
            earlier,
            line,
            status: *status,
            ..none
        };
        assert!(&rt; is_refused(&rt, &case)?, "{line}");
    }
    // The policy comes first.
    let case = Case {
        policy: "version = ",
        earlier: &[("x", "")],
        line: "policy: NotToml\n",
        status: 1,
        ..none
    };
    assert!(&rt; is_refused(&rt, &case)?);
    // That another line is noticed.
    let case = Case {
        earlier: &[("x", "")],
        line: "after y: cut\n",
        ..none
    };
    assert!(&rt; !replays_so(&rt, &case)?);
    Ok(())
}

#[test]
fn readers_of_earlier_books_fail(rt: HostRuntime) -> Result<(), Fail> {
    for (first, second) in [(0, 9), (1, 9), (9, 0), (9, 1)] {
        let mut policy = source(WALL.as_bytes(), Fuse::Whole);
        let mut script = source(b"pst", Fuse::Whole);
        let mut out = sink(b"", Fuse::Whole);
        let mut err = sink(b"read fault\n", Fuse::Whole);
        let mut kept = sink(b"", Fuse::Whole);
        let mut earlier = Vec::new(rt.alloc());
        earlier.push(Earlier {
            path: "x",
            device: source(ALPHA_TO_N0.as_bytes(), Fuse::After(first)),
        })?;
        earlier.push(Earlier {
            path: "y",
            device: source(EMPTY.as_bytes(), Fuse::After(second)),
        })?;
        let devices = Devices {
            policy: &mut policy,
            subject: &mut script,
            out: &mut out,
            err: &mut err,
        };
        let status = replay_after(rt.alloc(), devices, earlier, Some(&mut kept));
        assert!(&rt; status == 3 && err.is_same && err.rest.is_empty());
        assert!(&rt; out.is_same && kept.is_same && script.rest.len() == 3);
    }
    Ok(())
}

// What the last two processes have held, a line for each dataset.
fn held_text(alloc: Global, wall: &Policy) -> Result<String, AllocError> {
    let mut held = String::new(alloc);
    for (process, dataset) in wall.held() {
        if 2 <= process.number() {
            write!(held, "{} {}\n", process.number(), dataset.number())?;
        }
    }
    Ok(held)
}

// A server goes by the policy after the books: n0 has held alpha, the first dataset, and m0
// nothing.
#[test]
fn policies_are_read_after_books(rt: HostRuntime) -> Result<(), Fail> {
    let mut policy = source(WALL.as_bytes(), Fuse::Whole);
    let earlier = books(rt.alloc(), &[("x", ALPHA_TO_N0), ("y", EMPTY)])?;
    let Ok(wall) = read_wall_after(rt.alloc(), &mut policy, earlier) else {
        return Err(Fail::from("an earlier book is refused"));
    };
    let held = held_text(rt.alloc(), &wall);
    drop(wall);
    let held = held?;
    assert!(&rt; held.as_str() == "2 0\n", "{held}");
    Ok(())
}
