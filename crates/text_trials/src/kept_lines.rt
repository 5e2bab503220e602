//! Lines that are kept go with their instances, in whatever order members take, and earlier where
//! none but the root of a broadcast is left.
ghost use Rattle.std.specs.Prelude.{[]};
ghost use Rattle.hall_core.specs.Halls.{StandsFor};

use coll_text::{put, put_decimal};
use hall_core::Hall;
use hall_script::{SCRIPT_LIMIT, answered_with_kept};
use std::alloc::{AllocError, Global};
use std::process::Abort;
use std::test::Fail;
use wall_labels::memory::{ExpectingSink, Fuse};
use wall_policy::read_policy;

/// How many instances are filled: more than twice as many as there are places for lines.
const INSTANCES: u64 = 600;

/// How many places there are. Instances whose numbers are so far apart meet in one.
const PLACES: u64 = 256;

/// What all post: a sum, or a broadcast by process 0.
#[derive(Clone, Copy)]
enum Kind {
    Sum,
    Broadcast,
}

/// Each process posts to an instance, then each takes its outcome, in this order, before the next
/// is filled. But of those that meet in the first place the last of the order take theirs when all
/// are filled, one process after the other.
struct Case {
    kind: Kind,
    order: &'static [u32],
    /// How many of the order take so late.
    late: usize,
    /// How many lines are kept when all are filled. None are at the end.
    kept: usize,
}

/// All orders that differ for two, and some for three. The newest line waits for the last where
/// another was told the same: not for a broadcast's root, nor for its one receiver.
const CASES: &[Case] = &[
    Case {
        kind: Kind::Sum,
        order: &[0, 1],
        late: 1,
        kept: 1,
    },
    Case {
        kind: Kind::Sum,
        order: &[0, 1, 2],
        late: 1,
        kept: 1,
    },
    Case {
        kind: Kind::Broadcast,
        order: &[0, 1],
        late: 1,
        kept: 0,
    },
    Case {
        kind: Kind::Broadcast,
        order: &[1, 0],
        late: 1,
        kept: 0,
    },
    Case {
        kind: Kind::Broadcast,
        order: &[1, 2, 0],
        late: 1,
        kept: 0,
    },
    Case {
        kind: Kind::Broadcast,
        order: &[1, 0, 2],
        late: 1,
        kept: 1,
    },
    // Two get the line, and the second of them so late that it was driven out: it is kept anew, as
    // for one more, and that is the root, which is told nothing.
    Case {
        kind: Kind::Broadcast,
        order: &[1, 2, 0],
        late: 2,
        kept: 1,
    },
];

/// The lines of a script, and those of the replies that are due.
#[derive(Drop)]
struct Play {
    script: Vec<u8>,
    replies: Vec<u8>,
}

/// Puts a number and the end of a line behind these words.
fn put_ending(text: &mut Vec<u8>, words: &str, number: u64) -> Result<(), AllocError> {
    put(text, words)?;
    put_decimal(text, number)?;
    put(text, "\n")
}

/// The number of the instance is what is posted to it.
fn put_post(play: &mut Play, kind: Kind, process: u32, k: u64) -> Result<(), AllocError> {
    put(&mut play.script, "post ")?;
    put_decimal(&mut play.script, u64::from(process))?;
    match kind {
        Kind::Sum => put_ending(&mut play.script, " 0 allreduce sum int32 1 as alpha ", k)?,
        Kind::Broadcast => {
            if process == 0 {
                put_ending(&mut play.script, " 0 bcast 0 int32 1 as alpha ", k)?;
            } else {
                put(&mut play.script, " 0 bcast 0 int32 1\n")?;
            }
        }
    }
    put_ending(&mut play.replies, "posted ", k)
}

fn put_delivery(replies: &mut Vec<u8>, number: u64) -> Result<(), AllocError> {
    put(replies, "delivered [")?;
    put_decimal(replies, number)?;
    put(replies, "]\n")
}

fn put_take(play: &mut Play, case: &Case, process: u32, k: u64) -> Result<(), AllocError> {
    put(&mut play.script, "take ")?;
    put_decimal(&mut play.script, u64::from(process))?;
    put_ending(&mut play.script, " ", k)?;
    let members = case.order.len() as u64;
    match case.kind {
        Kind::Sum => put_delivery(&mut play.replies, members.saturating_mul(k)),
        Kind::Broadcast => {
            if process == 0 {
                put(&mut play.replies, "delivered none\n")
            } else {
                put_delivery(&mut play.replies, k)
            }
        }
    }
}

/// One instance: all post, and all take but maybe the late ones.
fn put_round(play: &mut Play, case: &Case, late: &[u32], k: u64) -> Result<(), AllocError> {
    for process in case.order {
        put_post(play, case.kind, *process, k)?;
    }
    for process in case.order {
        if k % PLACES != 0 || !late.contains(process) {
            put_take(play, case, *process, k)?;
        }
    }
    Ok(())
}

/// The takes of one of the late.
fn put_late(play: &mut Play, case: &Case, process: u32) -> Result<(), AllocError> {
    for k in 0..INSTANCES {
        if k % PLACES == 0 {
            put_take(play, case, process, k)?;
        }
    }
    Ok(())
}

/// All instances, and maybe the takes that are left.
fn played(alloc: Global, case: &Case, to_end: bool) -> Result<Play, AllocError> {
    let mut play = Play {
        script: Vec::new(alloc),
        replies: Vec::new(alloc),
    };
    let late = &case.order[case.order.len().saturating_sub(case.late)..];
    for k in 0..INSTANCES {
        put_round(&mut play, case, late, k)?;
    }
    if to_end {
        for process in late {
            put_late(&mut play, case, *process)?;
        }
    }
    Ok(play)
}

/// A policy with so many processes, all at home with alpha.
fn wall_of(alloc: Global, processes: usize) -> Result<Vec<u8>, AllocError> {
    let mut wall = Vec::new(alloc);
    put(&mut wall, "version = 1\n[[class]]\nname = \"banks\"\n")?;
    put(&mut wall, "datasets = [\"alpha\", \"beta\"]\n")?;
    for process in 0..processes {
        put(&mut wall, "[[process]]\nname = \"p")?;
        put_decimal(&mut wall, process as u64)?;
        put(&mut wall, "\"\nhome = \"alpha\"\n")?;
    }
    Ok(wall)
}

/// How many lines are kept after a play in the hall, in which each reply was as due.
fn kept_by<R: AllocGlobal + Abort>(rt: &R, hall: Hall, play: &Play) -> Result<usize, Fail>
    requires { StandsFor hall [] }
{
    if SCRIPT_LIMIT < play.script.len() {
        drop(hall);
        return Err(Fail::from("the script is too long"));
    }
    let mut sink = ExpectingSink {
        rest: &play.replies,
        is_same: true,
        fuse: Fuse::Whole,
    };
    match answered_with_kept(rt.alloc(), hall, &play.script, &mut sink) {
        Ok((hall, number)) => {
            drop(hall);
            if sink.is_same && sink.rest.is_empty() {
                Ok(number)
            } else {
                Err(Fail::from("a post is refused, or another reply is not as due"))
            }
        }
        Err(_) => Err(Fail::from("the script is not answered")),
    }
}

/// How many are kept in a case when all are filled, or at the end.
fn kept_of<R: AllocGlobal + Abort>(rt: &R, case: &Case, to_end: bool) -> Result<usize, Fail> {
    let play = played(rt.alloc(), case, to_end)?;
    let wall = wall_of(rt.alloc(), case.order.len())?;
    let Ok(policy) = read_policy(rt.alloc(), &wall) else {
        return Err(Fail::from("the policy is not read"));
    };
    match Hall::open(rt.alloc(), policy) {
        Ok(hall) => kept_by(rt, hall, &play),
        Err(_) => Err(Fail::from("no memory")),
    }
}

/// Of the three instances that meet in the first place each drives out the line of the one before,
/// and what is kept anew goes too.
#[test]
fn lines_go_with_their_instances(rt: HostRuntime) -> Result<(), Fail> {
    for case in CASES {
        let some = kept_of(&rt, case, false)?;
        let none = kept_of(&rt, case, true)?;
        assert!(&rt; some == case.kept && none == 0, "{some} lines, then {none}");
    }
    Ok(())
}
