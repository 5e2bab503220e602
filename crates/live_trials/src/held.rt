//! A session that is held, by a client that does not go on, holds up nobody; and one that waits
//! takes no processor.

use crate::devices::{
    Answers, Client, Due, Heard, Hold, hearers, new_answers, new_client, nothing_heard,
};
use crate::machines::hall;
use crate::parties::{many, wall};
use live_session::{Desk, Peer, SessionEnd, ShowDesk, serve_all};
use std::alloc::{AllocError, Global};
use std::process::Abort;
use std::sync::Wait;
use std::test::Fail;
use std::thread;
use std::thread::Threads;
use std::time::{Clock, CpuClock, Duration};
use trial_kit::policies::FRIENDS;
use wall_labels::Failed;
use wall_labels::memory::Fuse;

fn at_end(calls: u64) -> Due {
    Due {
        end: SessionEnd::EndOfStream,
        calls,
    }
}

// Whether both sessions end as they are to.
fn both_end<'a, R: Abort + Threads + Wait + Sync>(
    rt: &R,
    alloc: Global,
    one: (Client<'a>, Answers<'a>),
    other: (Client<'a>, Answers<'a>),
) -> bool {
    let one = Peer {
        source: one.0,
        sink: one.1,
    };
    let other = Peer {
        source: other.0,
        sink: other.1,
    };
    let policy = wall(rt, alloc, FRIENDS);
    let peers = Vec::from_array(alloc, [one, other]).expect(rt, "no memory");
    let machine = hall(rt, alloc, &policy);
    let served = serve_all::<_, _, _, _, ()>(rt, alloc, &policy, machine, peers, None).expect(
        rt,
        "not served",
    );
    let mut are_all = served.sessions.len() == 2;
    for session in &served.sessions {
        are_all = are_all && session.peer.sink.are_all();
    }
    drop(served);
    drop(policy);
    are_all
}

/// While the reply of process 0 is being written, and its client does not read, process 1 begins,
/// and its lines are answered: a post that settles an instance, a take, and a wait for it. What
/// holds a lock while it writes is late.
#[test]
fn a_client_that_does_not_read_holds_up_nobody(rt: HostRuntime) {
    let (first, second) = (nothing_heard(), nothing_heard());
    let one_source = new_client(
        b"post 0 barrier\ntake 0\n",
        Fuse::Whole,
        64,
        at_end(2),
        &first,
    );
    let mut one_sink = new_answers("posted 0\ndelivered none\n", Fuse::Whole, &first);
    let mut other_source = new_client(
        b"post 0 barrier\nwait 0\ntake 0\n",
        Fuse::Whole,
        64,
        at_end(3),
        &second,
    );
    let other_sink = new_answers(
        "posted 0\ndelivered none\nrefused NoSuchRequest\n",
        Fuse::Whole,
        &second,
    );
    one_sink.hold = Some(Hold::until(0, &second.writes, 3));
    other_source.hold = Some(Hold::until(0, &first.writes, 1));
    let (one, other) = ((one_source, one_sink), (other_source, other_sink));
    assert!(&rt; both_end(&rt, rt.alloc(), one, other));
    assert!(&rt; first.is_whole() && second.is_whole());
}

/// While the client of process 0 has written half a line, and stops, process 1 begins, and its
/// lines are answered.
#[test]
fn a_client_that_stops_in_a_line_holds_up_nobody(rt: HostRuntime) {
    let (first, second) = (nothing_heard(), nothing_heard());
    let mut one_source = new_client(
        b"post 0 barrier\ntake 0\n",
        Fuse::Whole,
        10,
        at_end(2),
        &first,
    );
    let one_sink = new_answers("posted 0\npending\n", Fuse::Whole, &first);
    let mut other_source = new_client(b"info 0\nfoo\n", Fuse::Whole, 64, at_end(1), &second);
    let other_sink = new_answers("info size 2 rank 1\nbad BadVerb\n", Fuse::Whole, &second);
    one_source.hold = Some(Hold::until(1, &second.writes, 2));
    other_source.hold = Some(Hold::until(0, &first.reads, 2));
    let (one, other) = ((one_source, one_sink), (other_source, other_sink));
    assert!(&rt; both_end(&rt, rt.alloc(), one, other));
    assert!(&rt; first.is_whole() && second.is_whole());
}

/// A device that waits in vain is noticed.
#[test]
fn who_is_held_is_noticed(rt: HostRuntime) {
    let (first, second) = (nothing_heard(), nothing_heard());
    let one_source = new_client(b"info 0\n", Fuse::Whole, 64, at_end(1), &first);
    let mut one_sink = new_answers("info size 2 rank 0\n", Fuse::Whole, &first);
    let other_source = new_client(b"info 0\n", Fuse::Whole, 64, at_end(1), &second);
    let other_sink = new_answers("info size 2 rank 1\n", Fuse::Whole, &second);
    one_sink.hold = Some(Hold {
        call: 0,
        count: &second.writes,
        wanted: 2,
        looks: 1000,
    });
    let (one, other) = ((one_source, one_sink), (other_source, other_sink));
    assert!(&rt; both_end(&rt, rt.alloc(), one, other));
    assert!(&rt; !first.is_whole() && second.is_whole());
}

/// Lines of which the first come late.
#[derive(Drop)]
struct Late<'a, R> {
    client: Client<'a>,
    rt: &'a R,
    delay: Duration,
}

impl<'a, R: Clock> Desk<Answers<'a>> for Late<'a, R> {
    ghost use Rattle.wall_labels.specs.Fuses.{failures_of};

    ghost failures = { λ s. failures_of s.client.lines.fuse };

    fn open(&self) {
        self.client.open();
    }

    fn hear(&mut self, sink: &Answers<'a>, buffer: &mut [u8]) -> Result<usize, Failed> {
        thread::sleep(self.rt, self.delay);
        self.delay = Duration::from_millis(0);
        self.client.hear(sink, buffer)
    }

    // Nobody comes back.
    fn rest(&mut self, _sink: &Answers<'a>, _end: SessionEnd, _calls: u64) -> bool {
        false
    }

    fn close(&self, end: SessionEnd, calls: u64) {
        self.client.close(end, calls);
    }
}

impl<'a, R: Clock> ShowDesk<Answers<'a>, ()> for Late<'a, R> {
    fn show(&mut self, _sink: &Answers<'a>, _receipt: &()) {}
}

// The devices of processes that all wait for the one that comes late.
fn one_late<'a, R: Clock>(
    rt: &'a R,
    alloc: Global,
    hearers: &'a [Heard],
) -> Result<Vec<Peer<Late<'a, R>, Answers<'a>>>, AllocError> {
    let mut peers = Vec::new(alloc);
    for (process, heard) in hearers.iter().enumerate() {
        let late = if process == 7 { 1000 } else { 0 };
        let lines = b"post 0 barrier\nwait 0\n";
        let source = Late {
            client: new_client(lines, Fuse::Whole, 64, at_end(2), heard),
            rt,
            delay: Duration::from_millis(late),
        };
        let sink = new_answers("posted 0\ndelivered none\n", Fuse::Whole, heard);
        peers.push(Peer { source, sink })?;
    }
    Ok(peers)
}

/// Sessions that wait take no processor: 31 wait for one that comes a second late, and all together
/// use less than half a second of processor time. They are woken when it has come.
#[test]
fn sessions_that_wait_take_no_processor(rt: HostRuntime) -> Result<(), Fail> {
    let text = many(rt.alloc(), 32)?;
    let hearers = hearers(rt.alloc(), 32)?;
    let before = rt.process_cpu_time()?;
    let peers = one_late(&rt, rt.alloc(), hearers.as_slice())?;
    let policy = wall(&rt, rt.alloc(), &text);
    let machine = hall(&rt, rt.alloc(), &policy);
    let served = serve_all::<_, _, _, _, ()>(&rt, rt.alloc(), &policy, machine, peers, None).expect(
        &rt,
        "not served",
    );
    for session in &served.sessions {
        assert!(&rt; session.peer.sink.are_all());
    }
    drop(served);
    drop(policy);
    let used = rt.process_cpu_time()?.saturating_sub(before).as_millis();
    assert!(&rt; used < 500, "{used} ms while sessions wait");
    for heard in &hearers {
        assert!(&rt; heard.is_whole());
    }
    Ok(())
}
