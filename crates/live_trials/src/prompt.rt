//! No read comes between a line and its answer, and a receipt is shown before each reply: seen by a
//! desk that writes down, at each read and each receipt, what had been written to the sink beside it.
ghost use Rattle.std.specs.Prelude.{◌≡◌, map, Some};

use crate::alone::{ANSWERS, LINES, end_alone};
use crate::parties::wall;
use live_session::{Closing, Desk, SessionEnd, ShowDesk};
use std::alloc::Global;
use std::collections::VecDeque;
use std::process::Abort;
use std::sync::Wait;
use trial_kit::policies::ALONE;
use wall_labels::memory::{Fuse, MemorySource};
use wall_labels::{Failed, Sink, Source};

/// Answers that are kept.
#[derive(Drop)]
struct Kept<'a, R> {
    rt: &'a R,
    bytes: Vec<u8>,
}

impl<'a, R: Abort> Sink for Kept<'a, R> {
    ghost failures = { λ _. 0 };

    ghost contents = { λ s. Some s.bytes.items };

    fn write(&mut self, bytes: &[u8]) -> Result<usize, Failed> {
        let is_kept = self.bytes.extend_from_slice(bytes).is_ok();
        assert!(self.rt; is_kept);
        Ok(bytes.len())
    }
}

/// A read: what it gave, and what had been written by then.
#[derive(Drop)]
struct Read {
    bytes: Vec<u8>,
    written: Vec<u8>,
}

/// Lines that come in pieces, at a desk that writes down its reads and what it was shown, the newest
/// first.
#[derive(Drop)]
struct Watched<'a, R> {
    rt: &'a R,
    alloc: Global,
    lines: MemorySource<'a>,
    piece: usize,
    reads: VecDeque<Read>,
    /// What had been written by each receipt.
    shows: VecDeque<Vec<u8>>,
}

// These bytes once more.
fn copy<R: Abort>(rt: &R, alloc: Global, bytes: &[u8]) -> Vec<u8>
    ensures { result.items ≡ bytes.now }
{
    let mut copy = Vec::new(alloc);
    let is_kept = copy.extend_from_slice(bytes).is_ok();
    assert!(rt; is_kept);
    copy
}

impl<'a, R: Abort> Desk<Kept<'a, R>> for Watched<'a, R> {
    ghost use Rattle.wall_labels.specs.Fuses.{failures_of};
    ghost use Rattle.hall_turn.specs.Receipts.{nothing_known};

    ghost failures = { λ s. failures_of s.lines.fuse };

    ghost heard = { λ s. record {
      reads = Some (map (λ r. record { bytes = r.bytes.items; written = Some r.written.items })
          s.reads.items);
      shows = Some (map (λ w. record { covers = nothing_known; written = Some w.items }) s.shows.items);
    } };

    fn open(&self) {}

    fn hear(&mut self, sink: &Kept<'a, R>, buffer: &mut [u8]) -> Result<usize, Failed> {
        let written = copy(self.rt, self.alloc, sink.bytes.as_slice());
        let count = self.piece.min(buffer.len());
        let n = self.lines.read(&mut buffer[..count])?;
        let bytes = copy(self.rt, self.alloc, &buffer[..n]);
        let is_kept = self.reads.push_front(Read { bytes, written }).is_ok();
        assert!(self.rt; is_kept);
        Ok(n)
    }

    // Nobody comes back.
    fn rest(&mut self, _sink: &Kept<'a, R>, _end: SessionEnd, _calls: u64) -> bool {
        false
    }

    fn close(&self, _end: SessionEnd, _calls: u64) {}
}

impl<'a, R: Abort> ShowDesk<Kept<'a, R>, ()> for Watched<'a, R> {
    fn show(&mut self, sink: &Kept<'a, R>, _receipt: &()) {
        let written = copy(self.rt, self.alloc, sink.bytes.as_slice());
        let is_kept = self.shows.push_front(written).is_ok();
        assert!(self.rt; is_kept);
    }
}

// How many lines end in these bytes.
fn ends(bytes: &[u8]) -> usize {
    bytes.iter().filter(|byte| **byte == b'\n').count()
}

// Whether these bytes are so many whole lines, from the prefix of the answers.
fn are_first(written: &[u8], answers: &[u8], count: usize) -> bool {
    let is_whole = written.is_empty() || written.ends_with(b"\n");
    is_whole && ends(written) == count && answers.starts_with(written)
}

// Whether by each read the lines that earlier ones had finished were answered, and no others.
fn is_prompt(reads: &VecDeque<Read>, answers: &[u8]) -> bool {
    let mut finished: usize = 0;
    for read in reads.iter().rev() {
        if !are_first(read.written.as_slice(), answers, finished) {
            return false;
        }
        finished = finished.saturating_add(ends(read.bytes.as_slice()));
    }
    true
}

// How many bytes are written before each answer that is a reply to a call.
const SHOWN_AT: &[usize] = &[0, 56, 78, 87, 101];

// Whether a receipt was shown before each reply, with nothing of it written yet, and no other.
fn are_shown(shows: &VecDeque<Vec<u8>>, answers: &[u8]) -> bool {
    let mut due = SHOWN_AT;
    for written in shows.iter().rev() {
        let Some((at, later)) = due.split_first() else {
            return false;
        };
        if answers.get(..*at) != Some(written.as_slice()) {
            return false;
        }
        due = later;
    }
    due.is_empty()
}

// A desk with these lines, of which so many bytes come at a time.
fn make_watched<'a, R: Abort>(rt: &'a R, alloc: Global, piece: usize) -> Watched<'a, R> {
    let lines = MemorySource {
        rest: LINES,
        fuse: Fuse::Whole,
    };
    let reads = VecDeque::new(alloc);
    let shows = VecDeque::new(alloc);
    Watched {
        rt,
        alloc,
        lines,
        piece,
        reads,
        shows,
    }
}

// Whether a session over these pieces answers each line before it reads on.
fn is_served_promptly<R: Abort + Wait>(rt: &R, alloc: Global, piece: usize) -> bool {
    let policy = wall(rt, alloc, ALONE);
    let mut source = make_watched(rt, alloc, piece);
    let bytes = Vec::new(alloc);
    let mut sink = Kept { rt, bytes };
    let end = end_alone(rt, alloc, &policy, true, &mut source, &mut sink);
    drop(policy);
    let answers = ANSWERS.as_bytes();
    let due = Closing {
        end: SessionEnd::EndOfStream,
        calls: 5,
    };
    let is_whole = end == Some(due) && sink.bytes.as_slice() == answers;
    is_whole && is_prompt(&source.reads, answers) && are_shown(&source.shows, answers)
}

#[test]
fn receipts_and_answers_come_before_the_next_read(rt: HostRuntime) {
    for piece in [1, 2, 3, 7, 30, 64, usize::MAX] {
        let is = is_served_promptly(&rt, rt.alloc(), piece);
        assert!(&rt; is, "{piece} bytes at a time");
    }
}

/// Who reads on before the answers are written is noticed.
#[test]
fn early_reads_are_noticed(rt: HostRuntime) {
    let answers = ANSWERS.as_bytes();
    let mut source = make_watched(&rt, rt.alloc(), 10);
    let mut buffer = [0u8; 64];
    let bytes = Vec::new(rt.alloc());
    let mut sink = Kept { rt: &rt, bytes };
    let first = source.hear(&sink, &mut buffer);
    assert!(&rt; first.is_ok() && is_prompt(&source.reads, answers));
    let early = source.hear(&sink, &mut buffer);
    assert!(&rt; early.is_ok() && !is_prompt(&source.reads, answers));
    source.reads.clear();
    let third = source.hear(&sink, &mut buffer);
    let half = sink.write(&answers[..9]);
    let early = source.hear(&sink, &mut buffer);
    assert!(&rt; third.is_ok() && half.is_ok() && early.is_ok());
    assert!(&rt; !is_prompt(&source.reads, answers));
}

/// Receipts that are shown late, twice or not at all are noticed.
#[test]
fn late_receipts_are_noticed(rt: HostRuntime) {
    let answers = ANSWERS.as_bytes();
    let mut source = make_watched(&rt, rt.alloc(), 10);
    let bytes = Vec::new(rt.alloc());
    let mut sink = Kept { rt: &rt, bytes };
    assert!(&rt; !are_shown(&source.shows, answers));
    for at in SHOWN_AT {
        sink.bytes.clear();
        let put = sink.write(answers.get(..*at).unwrap_or(&[]));
        source.show(&sink, &());
        assert!(&rt; put.is_ok());
    }
    assert!(&rt; are_shown(&source.shows, answers));
    source.show(&sink, &());
    assert!(&rt; !are_shown(&source.shows, answers));
    source.shows.clear();
    for at in SHOWN_AT {
        sink.bytes.clear();
        let put = sink.write(answers.get(..*at + 1).unwrap_or(&[]));
        source.show(&sink, &());
        assert!(&rt; put.is_ok());
    }
    assert!(&rt; !are_shown(&source.shows, answers));
}
