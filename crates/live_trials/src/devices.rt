//! The devices of these tests: lines and answers in memory, and desks that listen. A device can be
//! told to wait at one of its calls until another has come far enough.

use live_session::{Closing, Desk, SessionEnd, ShowDesk};
use std::alloc::{AllocError, Global};
use std::sync::atomic::{AtomicU64, Ordering};
use std::thread;
use wall_labels::memory::{ExpectingSink, Fuse, MemorySource};
use wall_labels::{Failed, Sink, Source};

// How often a device looks before it gives up, where nothing else is said.
const LOOKS: u64 = 10_000_000;

/// What is heard of a session.
#[derive(Drop)]
pub(crate) struct Heard {
    /// How often it began.
    pub(crate) opened: AtomicU64,
    /// How often it ended.
    pub(crate) closed: AtomicU64,
    /// How many reads there were so far, and how many writes, with one that has not come back.
    pub(crate) reads: AtomicU64,
    pub(crate) writes: AtomicU64,
    /// What does not fit.
    pub(crate) wrong: AtomicU64,
}

/// Nothing is heard yet.
pub(crate) fn nothing_heard() -> Heard {
    Heard {
        opened: AtomicU64::new(0),
        closed: AtomicU64::new(0),
        reads: AtomicU64::new(0),
        writes: AtomicU64::new(0),
        wrong: AtomicU64::new(0),
    }
}

/// Somebody who hears, for each of so many sessions.
pub(crate) fn hearers(alloc: Global, count: usize) -> Result<Vec<Heard>, AllocError> {
    let mut hearers = Vec::new(alloc);
    for _ in 0..count {
        hearers.push(nothing_heard())?;
    }
    Ok(hearers)
}

fn is_at(count: &AtomicU64, number: u64) -> bool {
    count.load(Ordering::SeqCst) == number
}

// One more. Gives how many there were.
fn raise(count: &AtomicU64) -> u64 {
    count.fetch_add(1, Ordering::SeqCst)
}

impl Heard {
    fn expect(&self, is: bool) {
        if !is {
            raise(&self.wrong);
        }
    }

    /// Whether it began and ended once, and all fits.
    pub(crate) fn is_whole(&self) -> bool {
        is_at(&self.opened, 1) && is_at(&self.closed, 1) && is_at(&self.wrong, 0)
    }

    /// Whether nothing was heard.
    pub(crate) fn is_silent(&self) -> bool {
        let is_closed = is_at(&self.opened, 0) && is_at(&self.closed, 0);
        let is_idle = is_at(&self.reads, 0) && is_at(&self.writes, 0);
        is_closed && is_idle && is_at(&self.wrong, 0)
    }
}

/// At which of its calls, numbered from 0, a device waits for a count, how high that must be, and
/// how often the device looks before it gives up.
#[derive(Clone, Copy)]
pub(crate) struct Hold<'a> {
    pub(crate) call: u64,
    pub(crate) count: &'a AtomicU64,
    pub(crate) wanted: u64,
    pub(crate) looks: u64,
}

impl<'a> Hold<'a> {
    /// A device waits so at its call of this number, until the count is as high as that.
    pub(crate) fn until(call: u64, count: &'a AtomicU64, wanted: u64) -> Hold<'a> {
        Hold {
            call,
            count,
            wanted,
            looks: LOOKS,
        }
    }

    // Looks until the count is there. False after too many looks.
    fn ends(&self) -> bool {
        for _ in 0..self.looks {
            if self.count.load(Ordering::SeqCst) >= self.wanted {
                return true;
            }
            thread::yield_now();
        }
        false
    }
}

// Whether a device may go on with its call of this number. It waits first, if it is told to.
fn may_go_on(hold: &Option<Hold>, call: u64) -> bool {
    match hold {
        Some(hold) => hold.call != call || hold.ends(),
        None => true,
    }
}

/// How a session is to end, and after how many calls.
#[derive(Clone, Copy)]
pub(crate) struct Due {
    pub(crate) end: SessionEnd,
    pub(crate) calls: u64,
}

impl Due {
    /// The same, as a session says it.
    pub(crate) fn closing(self) -> Closing {
        let Due { end, calls } = self;
        Closing { end, calls }
    }
}

/// Lines that come in pieces, at a desk that listens.
#[derive(Drop)]
pub(crate) struct Client<'a> {
    pub(crate) lines: MemorySource<'a>,
    /// So many bytes come at a time, at most.
    pub(crate) piece: usize,
    pub(crate) due: Due,
    pub(crate) hold: Option<Hold<'a>>,
    pub(crate) heard: &'a Heard,
}

impl<'a> Desk<Answers<'a>> for Client<'a> {
    ghost use Rattle.wall_labels.specs.Fuses.{failures_of};

    ghost failures = { λ s. failures_of s.lines.fuse };

    fn open(&self) {
        let heard = self.heard;
        heard.expect(raise(&heard.opened) == 0 && is_at(&heard.reads, 0));
    }

    fn hear(&mut self, _sink: &Answers<'a>, buffer: &mut [u8]) -> Result<usize, Failed> {
        let heard = self.heard;
        heard.expect(is_at(&heard.opened, 1) && is_at(&heard.closed, 0));
        heard.expect(may_go_on(&self.hold, raise(&heard.reads)));
        let count = self.piece.min(buffer.len());
        self.lines.read(&mut buffer[..count])
    }

    // Nobody comes back.
    fn rest(&mut self, _sink: &Answers<'a>, _end: SessionEnd, _calls: u64) -> bool {
        false
    }

    fn close(&self, end: SessionEnd, calls: u64) {
        let heard = self.heard;
        heard.expect(raise(&heard.closed) == 0 && is_at(&heard.opened, 1));
        heard.expect(end == self.due.end && calls == self.due.calls);
    }
}

impl<'a> ShowDesk<Answers<'a>, ()> for Client<'a> {
    fn show(&mut self, _sink: &Answers<'a>, _receipt: &()) {}
}

/// The answers that are to come.
#[derive(Drop)]
pub(crate) struct Answers<'a> {
    pub(crate) expected: ExpectingSink<'a>,
    pub(crate) hold: Option<Hold<'a>>,
    pub(crate) heard: &'a Heard,
}

impl<'a> Answers<'a> {
    /// Whether all that came was as expected, and nothing is still to come.
    pub(crate) fn are_all(&self) -> bool {
        self.expected.is_same && self.expected.rest.is_empty()
    }
}

impl<'a> Sink for Answers<'a> {
    ghost use Rattle.wall_labels.specs.Fuses.{failures_of};

    ghost failures = { λ s. failures_of s.expected.fuse };

    fn write(&mut self, bytes: &[u8]) -> Result<usize, Failed> {
        let heard = self.heard;
        heard.expect(may_go_on(&self.hold, raise(&heard.writes)));
        self.expected.write(bytes)
    }
}

/// Lines, of which so many bytes come at a time, and after which the session is to end so.
pub(crate) fn new_client<'a>(
    lines: &'a [u8],
    fuse: Fuse,
    piece: usize,
    due: Due,
    heard: &'a Heard,
) -> Client<'a> {
    let lines = MemorySource { rest: lines, fuse };
    let hold = None;
    Client {
        lines,
        piece,
        due,
        hold,
        heard,
    }
}

/// Answers that are to come.
pub(crate) fn new_answers<'a>(lines: &'a str, fuse: Fuse, heard: &'a Heard) -> Answers<'a> {
    let expected = ExpectingSink {
        rest: lines.as_bytes(),
        is_same: true,
        fuse,
    };
    let hold = None;
    Answers {
        expected,
        hold,
        heard,
    }
}
