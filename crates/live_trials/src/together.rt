//! The sessions of several processes, each in a thread of its own.
ghost use Rattle.std.specs.Prelude.{[]};

use crate::devices::{Answers, Client, Due, Heard, Hold, hearers, new_answers, new_client};
use crate::machines::hall;
use crate::parties::{many, wall};
use hall_turn::Receipts;
use live_session::{Peer, ServeFault, SessionEnd, serve_all};
use std::alloc::{AllocError, Global};
use std::process::Abort;
use std::sync::Wait;
use std::test::Fail;
use std::thread::Threads;
use trial_kit::policies::{FOUR_OF_A_BANK, FRIENDS};
use wall_labels::memory::Fuse;
use wall_policy::Policy;

/// A session: its lines, their answers, after how many writes the next fails, and how it is to end.
#[derive(Clone, Copy)]
pub(crate) struct Row<'a> {
    pub(crate) lines: &'a str,
    pub(crate) answers: &'a str,
    pub(crate) writes: Fuse,
    pub(crate) due: Due,
}

/// A session whose devices do not fail.
pub(crate) fn sound_row<'a>(
    lines: &'a str,
    answers: &'a str,
    end: SessionEnd,
    calls: u64,
) -> Row<'a> {
    Row {
        lines,
        answers,
        writes: Fuse::Whole,
        due: Due { end, calls },
    }
}

// The devices of these sessions.
fn peers<'a>(
    alloc: Global,
    rows: &'a [Row<'a>],
    hearers: &'a [Heard],
) -> Result<Vec<Peer<Client<'a>, Answers<'a>>>, AllocError> {
    let mut peers = Vec::new(alloc);
    for (row, heard) in rows.iter().zip(hearers) {
        let lines = row.lines.as_bytes();
        let source = new_client(lines, Fuse::Whole, usize::MAX, row.due, heard);
        let sink = new_answers(row.answers, row.writes, heard);
        peers.push(Peer { source, sink })?;
    }
    Ok(peers)
}

/// How many of the sessions at this machine came to what they were to.
pub(crate) fn served_at<R, M>(
    rt: &R,
    alloc: Global,
    policy: &Policy,
    machine: M,
    rows: &[Row],
) -> usize
where
    R: Abort + Threads + Wait + Sync,
    M: Receipts<()> + Send + Drop,
    requires { M.stands policy.now machine [] }
{
    served_within(rt, alloc, policy, machine, rows, None)
}

// The same of sessions that may make so many calls.
fn served_within<R, M>(
    rt: &R,
    alloc: Global,
    policy: &Policy,
    machine: M,
    rows: &[Row],
    most: Option<u64>,
) -> usize
where
    R: Abort + Threads + Wait + Sync,
    M: Receipts<()> + Send + Drop,
    requires { M.stands policy.now machine [] }
{
    let hearers = hearers(alloc, rows.len()).expect(rt, "no memory");
    let peers = peers(alloc, rows, hearers.as_slice()).expect(rt, "no memory");
    let served = serve_all::<_, _, _, _, ()>(rt, alloc, policy, machine, peers, most).expect(
        rt,
        "not served",
    );
    let mut count: usize = 0;
    for (session, row) in served.sessions.iter().zip(rows) {
        if session.closing == row.due.closing() && session.peer.sink.are_all() {
            count = count.saturating_add(1);
        }
    }
    drop(served);
    for heard in &hearers {
        if !heard.is_whole() {
            count = 0;
        }
    }
    count
}

// How many of the sessions came to what they were to, at a hall.
fn served_so<R: Abort + Threads + Wait + Sync>(
    rt: &R,
    alloc: Global,
    text: &str,
    rows: &[Row],
) -> usize {
    let policy = wall(rt, alloc, text);
    let machine = hall(rt, alloc, &policy);
    let count = served_at(rt, alloc, &policy, machine, rows);
    drop(policy);
    count
}

/// Each waits until the other has posted.
#[test]
fn two_wait_for_each_other(rt: HostRuntime) {
    let row = sound_row(
        "post 0 allreduce sum int32 1 as alpha 7\nwait 0\npost 0 barrier\nwait 1\nleave\nfoo\n",
        "posted 0\ndelivered [14]\nposted 1\ndelivered none\nleft\n",
        SessionEnd::Left,
        4,
    );
    assert!(&rt; served_so(&rt, rt.alloc(), FRIENDS, &[row, row]) == 2);
}

/// A wait is one call of those that a session may make, also where it sleeps and takes twice.
#[test]
fn a_wait_is_one_call_of_the_bound(rt: HostRuntime) {
    let row = sound_row(
        "post 0 allreduce sum int32 1 as alpha 7\nwait 0\ninfo 0\nleave\n",
        "posted 0\ndelivered [14]\nexhausted\n",
        SessionEnd::Exhausted,
        2,
    );
    let policy = wall(&rt, rt.alloc(), FRIENDS);
    let machine = hall(&rt, rt.alloc(), &policy);
    let count = served_within(&rt, rt.alloc(), &policy, machine, &[row, row], Some(2));
    drop(policy);
    assert!(&rt; count == 2);
}

/// Nobody waits for what cannot come: the others have left, or wait too.
#[test]
fn waits_that_are_in_vain_are_pending(rt: HostRuntime) {
    let waits = sound_row(
        "post 0 barrier\nwait 0\ntake 0\n",
        "posted 0\npending\npending\n",
        SessionEnd::EndOfStream,
        3,
    );
    let leaves = sound_row("leave\n", "left\n", SessionEnd::Left, 0);
    let dies = sound_row(
        "info 0\npost 0 barr",
        "info size 4 rank 3\n",
        SessionEnd::EndOfStream,
        1,
    );
    assert!(&rt; served_so(&rt, rt.alloc(), FRIENDS, &[waits, leaves]) == 2);
    assert!(&rt; served_so(&rt, rt.alloc(), FRIENDS, &[leaves, waits]) == 2);
    assert!(&rt;
        served_so(
            &rt,
            rt.alloc(),
            FOUR_OF_A_BANK,
            &[waits, waits, leaves, waits]
        ) == 4
    );
    assert!(&rt;
        served_so(
            &rt,
            rt.alloc(),
            FOUR_OF_A_BANK,
            &[waits, waits, waits, dies]
        ) == 4
    );
}

// The sessions of three that wait, and of a fourth that leaves. None of the three reads on before
// the one behind it has had its second answer.
fn three_that_wait<'a>(
    alloc: Global,
    hearers: &'a [Heard],
) -> Result<Vec<Peer<Client<'a>, Answers<'a>>>, AllocError> {
    let waits = "post 0 barrier\nwait 0\n";
    let told = "posted 0\npending\n";
    let mut peers = Vec::new(alloc);
    for (process, heard) in hearers.iter().enumerate() {
        let (lines, answers, end, calls) = if process == 3 {
            ("leave\n", "left\n", SessionEnd::Left, 0)
        } else {
            (waits, told, SessionEnd::EndOfStream, 2)
        };
        let due = Due { end, calls };
        let mut source = new_client(lines.as_bytes(), Fuse::Whole, usize::MAX, due, heard);
        let next = match process {
            0 => hearers.get(1),
            1 => hearers.get(2),
            2 => hearers.first(),
            _ => None,
        };
        if let Some(next) = next {
            source.hold = Some(Hold::until(1, &next.writes, 2));
        }
        let sink = new_answers(answers, Fuse::Whole, heard);
        peers.push(Peer { source, sink })?;
    }
    Ok(peers)
}

/// All that wait in vain are told so, and not one after the other.
#[test]
fn all_that_wait_in_vain_are_told(rt: HostRuntime) {
    let alloc = rt.alloc();
    let policy = wall(&rt, alloc, FOUR_OF_A_BANK);
    let hearers = hearers(alloc, 4).expect(&rt, "no memory");
    let peers = three_that_wait(alloc, hearers.as_slice()).expect(&rt, "no memory");
    let machine = hall(&rt, alloc, &policy);
    let served = serve_all::<_, _, _, _, ()>(&rt, alloc, &policy, machine, peers, None).expect(
        &rt,
        "not served",
    );
    for session in &served.sessions {
        assert!(&rt; session.peer.sink.are_all());
    }
    drop(served);
    drop(policy);
    for heard in &hearers {
        assert!(&rt; heard.is_whole());
    }
}

/// Four wait for each other again and again, and each gets the sum.
#[test]
fn four_wait_a_hundred_times(rt: HostRuntime) -> Result<(), Fail> {
    let mut lines = String::new(rt.alloc());
    let mut answers = String::new(rt.alloc());
    for number in 0..100u32 {
        write!(
            &mut lines,
            "post 0 allreduce sum int32 1 as alpha {number}\nwait {number}\n"
        )?;
        let sum = number * 4;
        write!(&mut answers, "posted {number}\ndelivered [{sum}]\n")?;
    }
    let row = sound_row(&lines, &answers, SessionEnd::EndOfStream, 200);
    assert!(&rt; served_so(&rt, rt.alloc(), FOUR_OF_A_BANK, &[row, row, row, row]) == 4);
    Ok(())
}

/// As many sessions as there can be processes post and wait.
#[test]
fn all_processes_wait_for_each_other(rt: HostRuntime) -> Result<(), Fail> {
    let text = many(rt.alloc(), 256)?;
    let row = sound_row(
        "post 0 barrier\nwait 0\n",
        "posted 0\ndelivered none\n",
        SessionEnd::EndOfStream,
        2,
    );
    let rows = [row; 256];
    assert!(&rt; served_so(&rt, rt.alloc(), &text, &rows) == 256);
    Ok(())
}

/// A session whose writer fails has left, and the other goes on.
#[test]
fn a_failed_writer_harms_nobody(rt: HostRuntime) {
    let goes_on = sound_row(
        "post 0 barrier\nwait 0\npost 0 barrier\nwait 1\nfoo\n",
        "posted 0\ndelivered none\nposted 1\npending\nbad BadVerb\n",
        SessionEnd::EndOfStream,
        4,
    );
    let fails = Row {
        lines: "post 0 barrier\ninfo 0\npost 0 barrier\n",
        answers: "posted 0\n",
        writes: Fuse::After(1),
        due: Due {
            end: SessionEnd::WriteFailed,
            calls: 2,
        },
    };
    assert!(&rt; served_so(&rt, rt.alloc(), FRIENDS, &[goes_on, fails]) == 2);
    assert!(&rt; served_so(&rt, rt.alloc(), FRIENDS, &[fails, goes_on]) == 2);
}

// What the devices of these sessions are refused for.
fn fault_of<R: Threads + Wait + Sync + Abort>(
    rt: &R,
    alloc: Global,
    rows: &[Row],
) -> Option<ServeFault> {
    let policy = wall(rt, alloc, FRIENDS);
    let hearers = hearers(alloc, rows.len()).expect(rt, "no memory");
    let peers = peers(alloc, rows, hearers.as_slice()).expect(rt, "no memory");
    let machine = hall(rt, alloc, &policy);
    let fault = match serve_all::<_, _, _, _, ()>(rt, alloc, &policy, machine, peers, None) {
        Ok(served) => {
            drop(served);
            None
        }
        Err(fault) => Some(fault),
    };
    drop(policy);
    for heard in &hearers {
        assert!(rt; heard.is_silent());
    }
    fault
}

/// There are devices for each process, and no others; else nothing is read or written.
#[test]
fn each_process_has_devices(rt: HostRuntime) {
    let row = sound_row("leave\n", "", SessionEnd::Left, 0);
    for rows in [&[][..], &[row][..], &[row, row, row][..]] {
        assert!(&rt; fault_of(&rt, rt.alloc(), rows) == Some(ServeFault::BadPeers));
    }
}

/// What these tests rest on notices what is not as expected.
#[test]
fn what_is_wrong_is_noticed(rt: HostRuntime) {
    let right = sound_row("leave\n", "left\n", SessionEnd::Left, 0);
    let wrong = sound_row("leave\n", "lost\n", SessionEnd::Left, 0);
    let end = sound_row("leave\n", "left\n", SessionEnd::EndOfStream, 0);
    let calls = sound_row("leave\n", "left\n", SessionEnd::Left, 1);
    for rows in [[right, wrong], [end, right], [calls, right]] {
        assert!(&rt; served_so(&rt, rt.alloc(), FRIENDS, &rows) < 2);
    }
}
