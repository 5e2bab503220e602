//! Clients that come back: what a stream leaves behind for the next one of its process, and that
//! nobody waits for who has gone.

use crate::alone::end_within;
use crate::machines::hall;
use crate::parties::wall;
use live_session::{Closing, Desk, Peer, SessionEnd, ShowDesk, serve_all};
use std::alloc::{AllocError, Global};
use std::process::Abort;
use std::sync::Wait;
use std::sync::atomic::{AtomicU64, Ordering};
use std::thread;
use std::thread::Threads;
use trial_kit::policies::{ALONE, FRIENDS};
use wall_labels::memory::{ExpectingSink, Fuse, MemorySource};
use wall_labels::{Failed, Source};

/// How often a desk looks before it gives up.
const LOOKS: u64 = 10_000_000;

/// A stream more, and how the sitting before it is to end.
#[derive(Clone, Copy)]
struct Stream<'a> {
    behind: Closing,
    lines: &'a [u8],
}

/// Where two processes tell each other how far they are.
#[derive(Clone, Copy)]
struct Meeting<'a> {
    /// Raised as this one goes, and as it reads again.
    gone: &'a AtomicU64,
    back: &'a AtomicU64,
    /// It is gone until this is raised.
    awaits: &'a AtomicU64,
}

fn raise(count: &AtomicU64) {
    count.fetch_add(1, Ordering::SeqCst);
}

impl<'a> Meeting<'a> {
    /// It is gone. False after too many looks.
    fn ends(self) -> bool {
        raise(self.gone);
        for _ in 0..LOOKS {
            if self.awaits.load(Ordering::SeqCst) > 0 {
                return true;
            }
            thread::yield_now();
        }
        false
    }
}

/// Lines of one stream after the other.
#[derive(Drop)]
struct Returning<'a> {
    lines: MemorySource<'a>,
    later: &'a [Stream<'a>],
    meeting: Option<Meeting<'a>>,
    /// How often its client came back.
    times: usize,
    /// A sitting did not end as it was to, or nobody was met.
    is_wrong: bool,
}

impl<'a> Desk<ExpectingSink<'a>> for Returning<'a> {
    ghost use Rattle.wall_labels.specs.Fuses.{failures_of};

    ghost failures = { λ s. failures_of s.lines.fuse };

    fn open(&self) {}

    fn hear(&mut self, _sink: &ExpectingSink<'a>, buffer: &mut [u8]) -> Result<usize, Failed> {
        if let Some(meeting) = self.meeting {
            if self.times > 0 {
                raise(meeting.back);
            }
        }
        self.lines.read(buffer)
    }

    fn rest(&mut self, _sink: &ExpectingSink<'a>, end: SessionEnd, calls: u64) -> bool {
        let Some(stream) = self.later.get(self.times) else {
            return false;
        };
        let has_met = match self.meeting {
            Some(meeting) => meeting.ends(),
            None => true,
        };
        if stream.behind != (Closing { end, calls }) || !has_met {
            self.is_wrong = true;
        }
        self.times = self.times.saturating_add(1);
        self.lines.rest = stream.lines;
        true
    }

    fn close(&self, _end: SessionEnd, _calls: u64) {}
}

impl<'a> ShowDesk<ExpectingSink<'a>, ()> for Returning<'a> {
    fn show(&mut self, _sink: &ExpectingSink<'a>, _receipt: &()) {}
}

fn new_returning<'a>(
    lines: &'a [u8],
    later: &'a [Stream<'a>],
    meeting: Option<Meeting<'a>>,
) -> Returning<'a> {
    Returning {
        lines: MemorySource {
            rest: lines,
            fuse: Fuse::Whole,
        },
        later,
        meeting,
        times: 0,
        is_wrong: false,
    }
}

impl<'a> Returning<'a> {
    /// Whether its client came back behind each sitting that was to end so, and behind no other.
    fn is_whole(&self) -> bool {
        self.times == self.later.len() && !self.is_wrong
    }
}

/// The answers that are to come, and which of the writes fails.
fn answers<'a>(text: &'a str, writes: Fuse) -> ExpectingSink<'a> {
    ExpectingSink {
        rest: text.as_bytes(),
        is_same: true,
        fuse: writes,
    }
}

fn are_all(sink: &ExpectingSink) -> bool {
    sink.is_same && sink.rest.is_empty()
}

fn closing(end: SessionEnd, calls: u64) -> Closing {
    Closing { end, calls }
}

/// The streams of a process that is alone, and their answers.
#[derive(Clone, Copy)]
struct Row<'a> {
    lines: &'a [u8],
    later: &'a [Stream<'a>],
    answers: &'a str,
    writes: Fuse,
    most: Option<u64>,
    closing: Closing,
}

fn is_served<R: Abort + Wait>(rt: &R, alloc: Global, row: Row) -> bool {
    let policy = wall(rt, alloc, ALONE);
    let mut source = new_returning(row.lines, row.later, None);
    let mut sink = answers(row.answers, row.writes);
    let end = end_within(rt, alloc, &policy, true, row.most, &mut source, &mut sink);
    drop(policy);
    end == Some(row.closing) && source.is_whole() && are_all(&sink)
}

/// A line that was not finished is dropped. What was called is counted on, and its requests stand.
#[test]
fn a_session_goes_on_with_another_stream(rt: HostRuntime) {
    let end = SessionEnd::EndOfStream;
    let row = Row {
        lines: b"info 0\npost 0 allreduce sum int32 1 as alpha 7\ninf",
        later: &[
            Stream {
                behind: closing(end, 2),
                lines: b"",
            },
            Stream {
                behind: closing(end, 2),
                lines: b"o 0\nwait 0\nhead\ntake",
            },
        ],
        answers: "info size 1 rank 0\nposted 0\nbad BadVerb\ndelivered [7]\nhead 0 -\n",
        writes: Fuse::Whole,
        most: None,
        closing: closing(end, 3),
    };
    assert!(&rt; is_served(&rt, rt.alloc(), row));
    let other = Row {
        closing: closing(end, 1),
        ..row
    };
    assert!(&rt;
        !is_served(&rt, rt.alloc(), other),
        "calls that were counted anew pass"
    );
}

/// A call whose answer could not be written was made.
#[test]
fn a_lost_answer_is_of_a_call_that_counts(rt: HostRuntime) {
    let later = [Stream {
        behind: closing(SessionEnd::WriteFailed, 2),
        lines: b"take 0\nleave\ninfo 0\n",
    }];
    let row = Row {
        lines: b"info 0\npost 0 allreduce sum int32 1 as alpha 7\ntake 0\n",
        later: &later,
        answers: "info size 1 rank 0\ndelivered [7]\nleft\n",
        writes: Fuse::After(1),
        most: None,
        closing: closing(SessionEnd::Left, 3),
    };
    assert!(&rt; is_served(&rt, rt.alloc(), row));
}

/// The bound is one of all streams together, and nobody comes back behind it.
#[test]
fn all_streams_are_bound_together(rt: HostRuntime) {
    let end = SessionEnd::EndOfStream;
    let later = [Stream {
        behind: closing(end, 1),
        lines: b"info 0\ninfo 0\ninfo 0\n",
    }];
    let row = Row {
        lines: b"info 0\n",
        later: &later,
        answers: "info size 1 rank 0\ninfo size 1 rank 0\nexhausted\n",
        writes: Fuse::Whole,
        most: Some(2),
        closing: closing(SessionEnd::Exhausted, 2),
    };
    assert!(&rt; is_served(&rt, rt.alloc(), row));
}

type Device<'a> = Peer<Returning<'a>, ExpectingSink<'a>>;

fn two<'a>(
    alloc: Global,
    first: Device<'a>,
    second: Device<'a>,
) -> Result<Vec<Device<'a>>, AllocError> {
    let mut peers = Vec::new(alloc);
    peers.push(first)?;
    peers.push(second)?;
    Ok(peers)
}

/// How many of two processes came to these ends.
fn served<R: Abort + Threads + Wait + Sync>(
    rt: &R,
    alloc: Global,
    peers: Vec<Device>,
    ends: [Closing; 2],
) -> usize {
    let policy = wall(rt, alloc, FRIENDS);
    let machine = hall(rt, alloc, &policy);
    let served = serve_all::<_, _, _, _, ()>(rt, alloc, &policy, machine, peers, None).expect(
        rt,
        "not served",
    );
    let mut count: usize = 0;
    for (session, end) in served.sessions.iter().zip(&ends) {
        let is_whole = session.peer.source.is_whole() && are_all(&session.peer.sink);
        if session.closing == *end && is_whole {
            count = count.saturating_add(1);
        }
    }
    drop(served);
    drop(policy);
    count
}

/// The first waits in vain while the second is gone, and not where that is back. The second comes
/// back as soon as the first was told so, and the first as soon as the second reads again.
#[test]
fn nobody_waits_for_who_has_gone(rt: HostRuntime) {
    let end = SessionEnd::EndOfStream;
    let (gone, other_gone, back, other_back) = (
        AtomicU64::new(0),
        AtomicU64::new(0),
        AtomicU64::new(0),
        AtomicU64::new(0),
    );
    let waits = [Stream {
        behind: closing(end, 2),
        lines: b"wait 0\n",
    }];
    let posts = [Stream {
        behind: closing(end, 0),
        lines: b"post 0 barrier\nwait 0\n",
    }];
    let first = Peer {
        source: new_returning(
            b"post 0 barrier\nwait 0\n",
            &waits,
            Some(Meeting {
                gone: &gone,
                back: &back,
                awaits: &other_back,
            }),
        ),
        sink: answers("posted 0\npending\ndelivered none\n", Fuse::Whole),
    };
    let second = Peer {
        source: new_returning(
            b"",
            &posts,
            Some(Meeting {
                gone: &other_gone,
                back: &other_back,
                awaits: &gone,
            }),
        ),
        sink: answers("posted 0\ndelivered none\n", Fuse::Whole),
    };
    let peers = two(rt.alloc(), first, second).expect(&rt, "no memory");
    let ends = [closing(end, 3), closing(end, 2)];
    assert!(&rt; served(&rt, rt.alloc(), peers, ends) == 2);
}
