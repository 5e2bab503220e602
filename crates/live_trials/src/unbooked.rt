//! Sessions at a machine that is booked for a while: no reply is told from then on.

use crate::devices::{Answers, Client, Due, Heard, Hold, hearers, new_answers, new_client};
use crate::machines::{booked_for, booked_till_it_settles};
use crate::parties::wall;
use crate::together::{Row, served_at, sound_row};
use live_session::{Peer, SessionEnd, serve_all};
use std::alloc::{AllocError, Global};
use std::process::Abort;
use std::sync::Wait;
use std::thread::Threads;
use trial_kit::policies::{ALONE, FOUR_OF_A_BANK};
use wall_labels::memory::Fuse;

// Whether the session of the one process comes to what it is to, where the machine is booked for so
// many calls.
fn comes_so<R: Abort + Threads + Wait + Sync>(rt: &R, alloc: Global, calls: u64, row: Row) -> bool {
    let policy = wall(rt, alloc, ALONE);
    let machine = booked_for(rt, alloc, &policy, calls);
    let count = served_at(rt, alloc, &policy, machine, &[row]);
    drop(policy);
    count == 1
}

fn unbooked_row<'a>(lines: &'a str, answers: &'a str, calls: u64) -> Row<'a> {
    sound_row(lines, answers, SessionEnd::Unbooked, calls)
}

/// What was told before stands. The first call behind which the machine is not booked is answered
/// `unbooked`, whatever it asks for, and counts; the lines behind it are not acted on.
#[test]
fn no_reply_is_told_before_it_is_booked(rt: HostRuntime) {
    let alloc = rt.alloc();
    for line in ["post 0 barrier\n", "take 0\n", "wait 0\n", "info 0\n"] {
        let row = unbooked_row(line, "unbooked\n", 1);
        assert!(&rt; comes_so(&rt, alloc, 0, row), "{line}");
    }
    let infos = unbooked_row(
        "info 0\nfoo\ninfo 0\ninfo 0\ninfo 0\n",
        "info size 1 rank 0\nbad BadVerb\ninfo size 1 rank 0\nunbooked\n",
        3,
    );
    assert!(&rt; comes_so(&rt, alloc, 2, infos));
    let takes = unbooked_row("post 0 barrier\ntake 0\n", "posted 0\nunbooked\n", 2);
    assert!(&rt; comes_so(&rt, alloc, 1, takes));
    let waits = unbooked_row("post 0 barrier\nwait 0\n", "posted 0\nunbooked\n", 2);
    assert!(&rt; comes_so(&rt, alloc, 1, waits));
    let whole = sound_row(
        "post 0 barrier\nwait 0\nleave\n",
        "posted 0\ndelivered none\nleft\n",
        SessionEnd::Left,
        2,
    );
    assert!(&rt; comes_so(&rt, alloc, 2, whole));
}

/// Lines that make no call are answered as ever.
#[test]
fn what_makes_no_call_is_told(rt: HostRuntime) {
    let leaves = sound_row(
        "foo\n\nleave\n",
        "bad BadVerb\nbad BadShape\nleft\n",
        SessionEnd::Left,
        0,
    );
    assert!(&rt; comes_so(&rt, rt.alloc(), 0, leaves));
}

/// A writer that fails at `unbooked` ends the session as it does at any answer.
#[test]
fn a_writer_fails_at_unbooked(rt: HostRuntime) {
    let fails = Row {
        writes: Fuse::After(0),
        due: Due {
            end: SessionEnd::WriteFailed,
            calls: 1,
        },
        ..unbooked_row("info 0\n", "", 1)
    };
    assert!(&rt; comes_so(&rt, rt.alloc(), 0, fails));
}

/// What these tests rest on notices what is not as expected.
#[test]
fn another_end_is_noticed(rt: HostRuntime) {
    let alloc = rt.alloc();
    let told = unbooked_row("info 0\n", "info size 1 rank 0\n", 1);
    assert!(&rt; !comes_so(&rt, alloc, 0, told));
    let ended = sound_row("info 0\n", "unbooked\n", SessionEnd::EndOfStream, 1);
    assert!(&rt; !comes_so(&rt, alloc, 0, ended));
    let uncounted = unbooked_row("info 0\n", "unbooked\n", 0);
    assert!(&rt; !comes_so(&rt, alloc, 0, uncounted));
}

// Four sessions, each of which posts when the one before it has been answered.
fn in_turn<'a>(
    alloc: Global,
    hearers: &'a [Heard],
) -> Result<Vec<Peer<Client<'a>, Answers<'a>>>, AllocError> {
    let mut peers = Vec::new(alloc);
    let mut before: Option<&'a Heard> = None;
    for (process, heard) in hearers.iter().enumerate() {
        let (answers, calls) = if process == 3 {
            ("unbooked\n", 1)
        } else {
            ("posted 0\nunbooked\n", 2)
        };
        let due = Due {
            end: SessionEnd::Unbooked,
            calls,
        };
        let lines = b"post 0 barrier\nwait 0\ninfo 0\n";
        let mut source = new_client(lines, Fuse::Whole, usize::MAX, due, heard);
        if let Some(before) = before {
            source.hold = Some(Hold::until(0, &before.writes, 1));
        }
        before = Some(heard);
        let sink = new_answers(answers, Fuse::Whole, heard);
        peers.push(Peer { source, sink })?;
    }
    Ok(peers)
}

/// Three wait for a fourth, whose post settles the instance, and is not booked: it is told so, and
/// so are those that are woken by it.
#[test]
fn who_sleeps_is_told_too(rt: HostRuntime) {
    let alloc = rt.alloc();
    let policy = wall(&rt, alloc, FOUR_OF_A_BANK);
    let hearers = hearers(alloc, 4).expect(&rt, "no memory");
    let peers = in_turn(alloc, hearers.as_slice()).expect(&rt, "no memory");
    let machine = booked_till_it_settles(&rt, alloc, &policy);
    let served = serve_all::<_, _, _, _, ()>(&rt, alloc, &policy, machine, peers, None).expect(
        &rt,
        "not served",
    );
    for session in &served.sessions {
        assert!(&rt; session.closing.end == SessionEnd::Unbooked && session.peer.sink.are_all());
    }
    drop(served);
    drop(policy);
    for heard in &hearers {
        assert!(&rt; heard.is_whole());
    }
}

// The four sessions of `in_turn`, of which the first posts twice and waits for its second request.
fn first_waits_on<'a>(
    alloc: Global,
    hearers: &'a [Heard],
) -> Result<Vec<Peer<Client<'a>, Answers<'a>>>, AllocError> {
    let mut peers = in_turn(alloc, hearers)?;
    let (Some(peer), Some(heard)) = (peers.get_mut(0), hearers.get(0)) else {
        return Ok(peers);
    };
    let due = Due {
        end: SessionEnd::Unbooked,
        calls: 3,
    };
    let lines = b"post 0 barrier\npost 0 barrier\nwait 1\ninfo 0\n";
    peer.source = new_client(lines, Fuse::Whole, usize::MAX, due, heard);
    peer.sink = new_answers("posted 0\nposted 1\nunbooked\n", Fuse::Whole, heard);
    if let (Some(next), Some(first)) = (peers.get_mut(1), hearers.get(0)) {
        next.source.hold = Some(Hold::until(0, &first.writes, 2));
    }
    Ok(peers)
}

/// The same where the first waits for an instance that has not settled: no `pending` is told of
/// what is not booked.
#[test]
fn who_sleeps_for_another_instance_is_told_too(rt: HostRuntime) {
    let alloc = rt.alloc();
    let policy = wall(&rt, alloc, FOUR_OF_A_BANK);
    let hearers = hearers(alloc, 4).expect(&rt, "no memory");
    let peers = first_waits_on(alloc, hearers.as_slice()).expect(&rt, "no memory");
    let machine = booked_till_it_settles(&rt, alloc, &policy);
    let served = serve_all::<_, _, _, _, ()>(&rt, alloc, &policy, machine, peers, None).expect(
        &rt,
        "not served",
    );
    for session in &served.sessions {
        assert!(&rt; session.closing.end == SessionEnd::Unbooked && session.peer.sink.are_all());
    }
    drop(served);
    drop(policy);
    for heard in &hearers {
        assert!(&rt; heard.is_whole());
    }
}
