//! What a session keeps does not grow with its lines.

use crate::alone::end_alone;
use crate::parties::wall;
use live_session::{Desk, SessionEnd, ShowDesk};
use std::fs;
use std::process::Abort;
use std::rt::Files;
use std::sync::Wait;
use std::test::Fail;
use trial_kit::policies::ALONE;
use wall_labels::memory::{ExpectingSink, Fuse, MemorySource};
use wall_labels::{Failed, Source};

// The pages of memory that this process has resident, as the system tells.
fn resident_pages<R: Files + AllocGlobal>(rt: &R) -> Option<u64> {
    let Ok(text) = fs::read_to_string(rt, "/proc/self/statm") else {
        return None;
    };
    let word = text.as_str().split(' ').nth(1)?;
    word.parse::<u64>().ok()
}

/// Lines, at whose end the pages are counted.
#[derive(Drop)]
struct Measured<'a, R> {
    lines: MemorySource<'a>,
    rt: &'a R,
    /// How many are resident at the end. None where the system does not tell.
    pages: Option<u64>,
}

impl<'a, R: Files + AllocGlobal> Desk<ExpectingSink<'a>> for Measured<'a, R> {
    ghost use Rattle.wall_labels.specs.Fuses.{failures_of};

    ghost failures = { λ s. failures_of s.lines.fuse };

    fn open(&self) {}

    fn hear(&mut self, _sink: &ExpectingSink<'a>, buffer: &mut [u8]) -> Result<usize, Failed> {
        if self.lines.rest.is_empty() {
            self.pages = resident_pages(self.rt);
        }
        self.lines.read(buffer)
    }

    // Nobody comes back.
    fn rest(&mut self, _sink: &ExpectingSink<'a>, _end: SessionEnd, _calls: u64) -> bool {
        false
    }

    fn close(&self, _end: SessionEnd, _calls: u64) {}
}

impl<'a, R: Files + AllocGlobal> ShowDesk<ExpectingSink<'a>, ()> for Measured<'a, R> {
    fn show(&mut self, _sink: &ExpectingSink<'a>, _receipt: &()) {}
}

// How many pages more are resident at the end of these lines than before there was a door.
fn pages_more<R>(rt: &R, lines: &[u8], answers: &[u8]) -> u64
where
    R: Files + AllocGlobal + Wait + Abort,
{
    let alloc = rt.alloc();
    let policy = wall(rt, alloc, ALONE);
    let before = resident_pages(rt).expect(rt, "no pages are told");
    let mut source = Measured {
        lines: MemorySource {
            rest: lines,
            fuse: Fuse::Whole,
        },
        rt,
        pages: None,
    };
    let mut sink = ExpectingSink {
        rest: answers,
        is_same: true,
        fuse: Fuse::Whole,
    };
    let end = end_alone(rt, alloc, &policy, true, &mut source, &mut sink);
    drop(policy);
    let closing = end.expect(rt, "no session began");
    assert!(rt; closing.end == SessionEnd::EndOfStream);
    assert!(rt; sink.is_same && sink.rest.is_empty());
    let after = source.pages.expect(rt, "no pages are told");
    after.saturating_sub(before)
}

// Lines that leave nothing behind, and their answers.
const LINES: &str = "info 0
foo

post 0 bcast 0 int32 2 as alpha 7
take 3
wait 3
#
post 9 barrier
leave now
info
";

const ANSWERS: &str = "info size 1 rank 0
bad BadVerb
bad BadShape
refused BadCount
refused NoSuchRequest
refused NoSuchRequest
bad BadVerb
refused NoSuchComm
bad BadShape
bad BadShape
";

/// 100,000 lines that leave nothing in the hall: at eleven bytes for each, a leak would be 256
/// pages.
#[test]
fn lines_are_let_go(rt: HostRuntime) -> Result<(), Fail> {
    let mut lines = String::new(rt.alloc());
    let mut answers = String::new(rt.alloc());
    for _ in 0..10_000 {
        lines.push_str(LINES)?;
        answers.push_str(ANSWERS)?;
    }
    let more = pages_more(&rt, lines.as_bytes(), answers.as_bytes());
    assert!(&rt; more < 256, "{more} pages more");
    Ok(())
}

/// A thousand posts of 1,024 numbers, which are delivered: a leak of either would be 2,000 pages.
/// What the hall keeps of each post has none of its numbers.
#[test]
fn numbers_are_let_go(rt: HostRuntime) -> Result<(), Fail> {
    let mut numbers = String::new(rt.alloc());
    for _ in 0..1024 {
        numbers.push_str(" 1")?;
    }
    let given = numbers.as_str().trim();
    let mut lines = String::new(rt.alloc());
    let mut answers = String::new(rt.alloc());
    for number in 0..1000u32 {
        write!(
            &mut lines,
            "post 0 allreduce sum int64 1024 as alpha {given}\nwait {number}\n"
        )?;
        write!(&mut answers, "posted {number}\ndelivered [{given}]\n")?;
    }
    let more = pages_more(&rt, lines.as_bytes(), answers.as_bytes());
    assert!(&rt; more < 512, "{more} pages more");
    Ok(())
}
