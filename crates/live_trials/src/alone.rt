//! The session of a process that is alone.
ghost use Rattle.std.specs.Prelude.{◌≡◌, []};
ghost use Rattle.std.specs.List.{All};

use crate::devices::{Due, Heard, new_answers, new_client, nothing_heard};
use crate::parties::wall;
use hall_turn::{Door, Pass, Passes};
use live_session::{Closing, SessionEnd, Setting, ShowDesk};
use rank_stage::Stage;
use std::alloc::Global;
use std::marker::PhantomData;
use std::process::Abort;
use std::sync::{Mutex, Wait};
use std::test::Fail;
use trial_kit::policies::ALONE;
use wall_labels::Sink;
use wall_labels::memory::Fuse;
use wall_policy::Policy;

/// As many bytes as come at a time where nothing else is said.
const WHOLE: usize = usize::MAX;

/// A session: its lines, their answers, and how it is to end.
#[derive(Clone, Copy)]
struct Session<'a> {
    lines: &'a [u8],
    answers: &'a str,
    due: Due,
}

fn ended(end: SessionEnd, calls: u64) -> Due {
    Due { end, calls }
}

/// A door under the policy, and the pass of its only process, which has made no call.
pub(crate) fn door_alone<R: Abort>(rt: &R, alloc: Global, policy: &Policy) -> (Door, Pass)
    ensures policy { result.0.policy ≡ policy.now }
    ensures pass { result.1.door ≡ result.0 }
    ensures fresh { result.1.seen ≡ [] }
{
    let copy = policy.copy(alloc).expect(rt, "no memory");
    let (door, mut passes) = Door::open(alloc, copy).expect(rt, "no door");
    let pass = last(rt, &door, &mut passes);
    drop(passes);
    (door, pass)
}

// The last of the passes.
fn last<R: Abort>(rt: &R, door: &Door, passes: &mut Passes) -> Pass
    requires doors { All (λ pass. pass.door ≡ door.now) passes.old.items }
    requires fresh { All (λ pass. pass.seen ≡ []) passes.old.items }
    ensures door { result.door ≡ door.now }
    ensures fresh { result.seen ≡ [] }
{
    passes.pop().expect(rt, "no pass is left")
}

/// How the session ends of a process that is alone at a door under the policy, with these devices.
/// None where it does not begin: `begins` says whether its stage is released or given up.
pub(crate) fn end_alone<R: Abort + Wait, S: ShowDesk<O, ()>, O: Sink>(
    rt: &R,
    alloc: Global,
    policy: &Policy,
    begins: bool,
    source: &mut S,
    sink: &mut O,
) -> Option<Closing> {
    end_within(rt, alloc, policy, begins, None, source, sink)
}

/// The same of a session that may make so many calls.
pub(crate) fn end_within<R: Abort + Wait, S: ShowDesk<O, ()>, O: Sink>(
    rt: &R,
    alloc: Global,
    policy: &Policy,
    begins: bool,
    most: Option<u64>,
    source: &mut S,
    sink: &mut O,
) -> Option<Closing> {
    let (door, mut pass) = door_alone(rt, alloc, policy);
    let stage = Stage::new(alloc, 1, 1024, false).expect(rt, "no stage");
    let _ = stage.release(rt, begins);
    let turn = Mutex::new(());
    let setting = Setting {
        rt,
        alloc,
        door: &door,
        policy,
        stage: &stage,
        turn: &turn,
        most,
        receipts: PhantomData,
    };
    let end = setting.serve(&mut pass, source, sink);
    drop(stage);
    drop(pass);
    drop(door);
    end
}

// Whether the session ends as it is to, with these answers; `begins` says whether its stage is
// released or given up.
fn is_served<R: Abort + Wait>(
    rt: &R,
    alloc: Global,
    session: Session,
    piece: usize,
    reads: Fuse,
    writes: Fuse,
) -> bool {
    let heard = nothing_heard();
    let end = serve_alone(rt, alloc, session, piece, (reads, writes), true, &heard);
    end == Some(session.due.closing()) && heard.is_whole()
}

// How the session ends. None where it does not begin, or its answers are not these.
fn serve_alone<R: Abort + Wait>(
    rt: &R,
    alloc: Global,
    session: Session,
    piece: usize,
    fuses: (Fuse, Fuse),
    begins: bool,
    heard: &Heard,
) -> Option<Closing> {
    let (reads, writes) = fuses;
    let policy = wall(rt, alloc, ALONE);
    let mut source = new_client(session.lines, reads, piece, session.due, heard);
    let mut sink = new_answers(session.answers, writes, heard);
    let end = end_alone(rt, alloc, &policy, begins, &mut source, &mut sink);
    drop(policy);
    if sink.are_all() { end } else { None }
}

pub(crate) const LINES: &[u8] = b"info 0\nfoo\n\nposts 1\ntake 0\r\n\
post 0 allreduce sum int32 1 as alpha 7\ntake 0\ntake 0\n#\ninfo 0";

pub(crate) const ANSWERS: &str = "info size 1 rank 0
bad BadVerb
bad BadShape
bad BadVerb
refused NoSuchRequest
posted 0
delivered [7]
refused NoSuchRequest
bad BadVerb
";

/// Each finished line gets one answer, wherever the bytes are cut, and the cut last line none. The
/// desk hears of five calls.
#[test]
fn lines_are_answered(rt: HostRuntime) {
    let session = Session {
        lines: LINES,
        answers: ANSWERS,
        due: ended(SessionEnd::EndOfStream, 5),
    };
    for piece in [1, 2, 3, 7, 64, WHOLE] {
        let is = is_served(&rt, rt.alloc(), session, piece, Fuse::Whole, Fuse::Whole);
        assert!(&rt; is, "{piece} bytes at a time");
    }
}

/// A read that fails ends the session: what came before is answered.
#[test]
fn readers_fail(rt: HostRuntime) {
    let none = Session {
        lines: LINES,
        answers: "",
        due: ended(SessionEnd::ReadFailed, 0),
    };
    let is = is_served(&rt, rt.alloc(), none, WHOLE, Fuse::After(0), Fuse::Whole);
    assert!(&rt; is, "at once");
    let three = Session {
        lines: LINES,
        answers: "info size 1 rank 0\nbad BadVerb\nbad BadShape\n",
        due: ended(SessionEnd::ReadFailed, 1),
    };
    let is = is_served(&rt, rt.alloc(), three, 1, Fuse::After(15), Fuse::Whole);
    assert!(&rt; is, "in the middle of a line");
    let all = Session {
        lines: LINES,
        answers: ANSWERS,
        due: ended(SessionEnd::ReadFailed, 5),
    };
    let is = is_served(&rt, rt.alloc(), all, WHOLE, Fuse::After(1), Fuse::Whole);
    assert!(&rt; is, "at the end");
}

/// A write that fails ends the session: nothing behind its line is acted on.
#[test]
fn writers_fail(rt: HostRuntime) {
    for (answers, calls) in [
        ("", 1),
        ("info size 1 rank 0\n", 1),
        (
            "info size 1 rank 0\nbad BadVerb\nbad BadShape\nbad BadVerb\n",
            2,
        ),
    ] {
        let session = Session {
            lines: LINES,
            answers,
            due: ended(SessionEnd::WriteFailed, calls),
        };
        let writes = Fuse::After(answers.lines().count() as u64);
        let is = is_served(&rt, rt.alloc(), session, WHOLE, Fuse::Whole, writes);
        assert!(&rt; is, "after {calls} calls");
    }
}

/// A line of 2,097,152 bytes is read, and one of a byte more is passed over.
#[test]
fn long_lines_are_passed_over(rt: HostRuntime) -> Result<(), Fail> {
    let mut lines = Vec::new(rt.alloc());
    for _ in 0..2097153 {
        lines.push(b'x')?;
    }
    lines.extend_from_slice(b"\ninfo 0\n")?;
    let due = ended(SessionEnd::EndOfStream, 1);
    let long = Session {
        lines: &lines,
        answers: "bad TooLong\ninfo size 1 rank 0\n",
        due,
    };
    let is = is_served(&rt, rt.alloc(), long, WHOLE, Fuse::Whole, Fuse::Whole);
    assert!(&rt; is, "a byte more");
    let short = Session {
        lines: &lines[1..],
        answers: "bad BadVerb\ninfo size 1 rank 0\n",
        due,
    };
    let is = is_served(&rt, rt.alloc(), short, WHOLE, Fuse::Whole, Fuse::Whole);
    assert!(&rt; is, "as many as there can be");
    Ok(())
}

/// `leave` is answered, and nothing behind it is; with anything behind it on its line it is bad.
#[test]
fn leave_ends_a_session(rt: HostRuntime) {
    let left = Session {
        lines: b"leave now\nleave \nleave\r\ninfo 0\n",
        answers: "bad BadShape\nbad BadShape\nleft\n",
        due: ended(SessionEnd::Left, 0),
    };
    for piece in [1, WHOLE] {
        let is = is_served(&rt, rt.alloc(), left, piece, Fuse::Whole, Fuse::Whole);
        assert!(&rt; is, "{piece} bytes at a time");
    }
    let unheard = Session {
        lines: b"leave\n",
        answers: "",
        due: ended(SessionEnd::WriteFailed, 0),
    };
    let is = is_served(&rt, rt.alloc(), unheard, WHOLE, Fuse::Whole, Fuse::After(0));
    assert!(&rt; is, "nobody reads the answer");
}

/// `head` is answered, and is no call: nothing is known of a book where none is kept. With anything
/// behind it on its line it is bad.
#[test]
fn a_head_is_no_call(rt: HostRuntime) {
    let asked = Session {
        lines: b"head\nhead now\ninfo 0\nhead \nhead\r\nheads\nleave\n",
        answers: "head 0 -
bad BadShape
info size 1 rank 0
bad BadShape
head 0 -
bad BadVerb
left
",
        due: ended(SessionEnd::Left, 1),
    };
    for piece in [1, WHOLE] {
        let is = is_served(&rt, rt.alloc(), asked, piece, Fuse::Whole, Fuse::Whole);
        assert!(&rt; is, "{piece} bytes at a time");
    }
    let unheard = Session {
        lines: b"head\n",
        answers: "",
        due: ended(SessionEnd::WriteFailed, 0),
    };
    let is = is_served(&rt, rt.alloc(), unheard, WHOLE, Fuse::Whole, Fuse::After(0));
    assert!(&rt; is, "nobody reads the answer");
}

/// A wait of a process that is alone: for what has settled, was taken, or was never given. It is
/// one call, however often it takes.
#[test]
fn a_process_alone_waits_for_nobody(rt: HostRuntime) {
    let session = Session {
        lines: b"post 0 barrier\nwait 0\nwait 0\nwait 7\nwait\nwait 0 0\nwait -1\n",
        answers: "posted 0
delivered none
refused NoSuchRequest
refused NoSuchRequest
bad BadShape
bad BadShape
bad BadField
",
        due: ended(SessionEnd::EndOfStream, 4),
    };
    let is = is_served(&rt, rt.alloc(), session, WHOLE, Fuse::Whole, Fuse::Whole);
    assert!(&rt; is);
}

// How many calls a session may make, its lines, their answers, and how it is to end.
const BOUNDED: &[(u64, &[u8], &str, Due)] = &[
    (
        2,
        b"info 0\nfoo\npost 0 barrier\n#\nwait 0\ninfo 0\n",
        "info size 1 rank 0\nbad BadVerb\nposted 0\nbad BadVerb\nexhausted\n",
        Due {
            end: SessionEnd::Exhausted,
            calls: 2,
        },
    ),
    (
        3,
        b"post 0 barrier\nwait 0\nwait 0\ntake 7\n",
        "posted 0\ndelivered none\nrefused NoSuchRequest\nexhausted\n",
        Due {
            end: SessionEnd::Exhausted,
            calls: 3,
        },
    ),
    (
        0,
        b"foo\ninfo 0\ninfo 0\n",
        "bad BadVerb\nexhausted\n",
        Due {
            end: SessionEnd::Exhausted,
            calls: 0,
        },
    ),
    (
        2,
        b"info 0\ninfo 0\nhead\nleave\n",
        "info size 1 rank 0\ninfo size 1 rank 0\nhead 0 -\nleft\n",
        Due {
            end: SessionEnd::Left,
            calls: 2,
        },
    ),
    (
        1,
        b"info 0\n",
        "info size 1 rank 0\n",
        Due {
            end: SessionEnd::EndOfStream,
            calls: 1,
        },
    ),
    (
        u64::MAX,
        b"info 0\n",
        "info size 1 rank 0\n",
        Due {
            end: SessionEnd::EndOfStream,
            calls: 1,
        },
    ),
];

/// The call behind the last one that a session may make is answered `exhausted` and not made,
/// whatever it asks for; a line that asks for nothing, `head` and `leave` are answered as ever.
#[test]
fn a_session_makes_as_many_calls_as_it_may(rt: HostRuntime) {
    for (most, lines, answers, due) in BOUNDED {
        let session = Session {
            lines: *lines,
            answers: *answers,
            due: *due,
        };
        assert!(&rt; is_bounded(&rt, rt.alloc(), *most, session), "{most} calls");
    }
}

// Whether the session comes to what it is to where it may make so many calls.
fn is_bounded<R: Abort + Wait>(rt: &R, alloc: Global, most: u64, session: Session) -> bool {
    let Session {
        lines,
        answers,
        due,
    } = session;
    let heard = nothing_heard();
    let policy = wall(rt, alloc, ALONE);
    let mut source = new_client(lines, Fuse::Whole, WHOLE, due, &heard);
    let mut sink = new_answers(answers, Fuse::Whole, &heard);
    let bound = Some(most);
    let end = end_within(rt, alloc, &policy, true, bound, &mut source, &mut sink);
    drop(policy);
    end == Some(due.closing()) && sink.are_all() && heard.is_whole()
}

/// A session that is sent home does not begin: nothing is read or written, and its desk hears
/// nothing.
#[test]
fn a_session_may_not_begin(rt: HostRuntime) {
    let session = Session {
        lines: LINES,
        answers: "",
        due: ended(SessionEnd::EndOfStream, 0),
    };
    let heard = nothing_heard();
    let whole = (Fuse::Whole, Fuse::Whole);
    let end = serve_alone(&rt, rt.alloc(), session, WHOLE, whole, false, &heard);
    assert!(&rt; end.is_none());
    assert!(&rt; heard.is_silent());
}

/// What these tests rest on notices what is not as expected: an answer, an end, and a number of
/// calls.
#[test]
fn what_is_wrong_is_noticed(rt: HostRuntime) {
    for (answers, due) in [
        ("info size 1 rank 1\n", ended(SessionEnd::EndOfStream, 1)),
        (
            "info size 1 rank 0\nleft\n",
            ended(SessionEnd::EndOfStream, 1),
        ),
        ("", ended(SessionEnd::EndOfStream, 1)),
        ("info size 1 rank 0\n", ended(SessionEnd::Left, 1)),
        ("info size 1 rank 0\n", ended(SessionEnd::EndOfStream, 2)),
    ] {
        let session = Session {
            lines: b"info 0\n",
            answers,
            due,
        };
        let is = is_served(&rt, rt.alloc(), session, WHOLE, Fuse::Whole, Fuse::Whole);
        assert!(&rt; !is);
    }
}
