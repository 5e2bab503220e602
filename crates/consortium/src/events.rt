//! What the operator of a server sees: a line on standard output at each event, never a figure.
//!
//! The events are put into a list by whoever meets them, with their times where these are asked for,
//! and written by a thread of their own: so a standard output that nobody reads holds up no session.
//! That the lines come whole, in their order and at once is tested, with the built program.

use crate::attendance::LastWord;
use crate::loss::{Lost, TellsBook};
use crate::pipes::Shut;
use jiff::Timestamp;
use live_session::SessionEnd;
use std::alloc::{AllocError, Global};
use std::collections::VecDeque;
use std::io::Write;
use std::sync::{Condvar, Mutex, Wait};
use std::time::SystemTime;

/// The most bytes of an event's line: a time has 20, a process a name of 32 at most, and a count 20
/// digits.
const LINE_ROOM: usize = 192;

/// So many events may wait to be written before one of a process that goes or comes again is lost.
const ROOM_AGAIN: usize = 1024;

/// Why a process has gone or left.
#[derive(Clone, Copy)]
pub(crate) enum Why {
    /// Its pipes were not opened.
    Shut(Shut),
    /// Its session ended so.
    End(SessionEnd),
    /// It was ended from outside.
    Told(LastWord),
}

impl Why {
    pub(crate) fn text(self) -> &'static str {
        match self {
            Why::Shut(shut) => shut.text(),
            Why::Told(word) => word.text(),
            Why::End(end) => match end {
                SessionEnd::Left => "left",
                SessionEnd::EndOfStream => "end of stream",
                SessionEnd::ReadFailed => "calls not readable",
                SessionEnd::WriteFailed => "replies not read",
                SessionEnd::Exhausted => "exhausted",
                SessionEnd::Unbooked => "unbooked",
                SessionEnd::NoMemory => "out of memory",
            },
        }
    }
}

/// What happens at a server.
#[derive(Clone, Copy)]
pub(crate) enum Event<'a> {
    /// So many processes are served from now on.
    Serving(u32),
    /// A process has opened its pipes, the first time or again.
    Came(&'a str),
    /// The session of a process rests, after so many calls, and why.
    Gone(&'a str, u64, Why),
    /// The session of a process has ended, after so many calls, and why.
    Left(&'a str, u64, Why),
    /// The book is not gone on with, and why.
    Unbooked(Lost),
    /// All have ended, after so many calls of all.
    Served(u64),
}

// An event, and when it was; no time where none is wanted.
#[derive(Clone, Copy)]
struct Entry<'a> {
    event: Event<'a>,
    time: Option<Time>,
}

// When an event was, by the system's clock; none where it told no time.
#[derive(Clone, Copy)]
struct Time {
    now: Option<SystemTime>,
}

// The events that are still to be written, and what they came to so far.
#[derive(Drop)]
struct Log<'a> {
    events: VecDeque<Entry<'a>>,
    calls: u64,
    // The first process that was shut out.
    shut_out: Option<&'a str>,
    // No event comes any more.
    is_over: bool,
    // An event found no room. There is room for all but those of processes that go or come again.
    is_lost: bool,
}

/// The events of a server, for all its threads.
#[derive(Drop)]
pub(crate) struct Events<'a> {
    log: Mutex<Log<'a>>,
    bell: Condvar,
    // Where the time is asked for, if the lines begin with it.
    clock: Option<&'a HostRuntime>,
}

// The second of a time that the calendar has, which runs to the year 9999.
fn second_of(time: Time) -> Option<Timestamp> {
    let since = time.now?.duration_since(SystemTime::UNIX_EPOCH).ok()?;
    let second = i64::try_from(since.as_secs()).ok()?;
    Timestamp::from_second(second).ok()
}

// Puts a time before the line of its event, by RFC 3339 and in UTC; `-` where the clock told none.
fn put_time(line: &mut String, time: Option<Time>) -> Result<(), AllocError> {
    let Some(time) = time else {
        return Ok(());
    };
    match second_of(time) {
        Some(second) => write!(line, "{second} "),
        None => line.push_str("- "),
    }
}

// Puts the line of an event.
fn put_line(line: &mut String, entry: Entry) -> Result<(), AllocError> {
    put_time(line, entry.time)?;
    match entry.event {
        Event::Serving(processes) => write!(line, "serving {processes} processes\n"),
        Event::Came(name) => write!(line, "{name} came\n"),
        Event::Gone(name, calls, why) => {
            let text = why.text();
            write!(line, "{name} gone after {calls} calls: {text}\n")
        }
        Event::Left(name, calls, why) => {
            let text = why.text();
            write!(line, "{name} left after {calls} calls: {text}\n")
        }
        Event::Unbooked(lost) => match lost {
            Lost::Unnamed(number) => write!(line, "unbooked: error {number} of the system\n"),
            named => {
                let text = named.text();
                write!(line, "unbooked: {text}\n")
            }
        },
        Event::Served(calls) => write!(line, "served {calls} calls\n"),
    }
}

/// Where the lines of events go, with room for one.
#[derive(Drop)]
pub(crate) struct EventLines<W: Write + Drop> {
    out: W,
    line: String,
}

impl<W: Write + Drop> EventLines<W> {
    /// None yet, on this output.
    pub(crate) fn new(alloc: Global, out: W) -> Result<EventLines<W>, AllocError> {
        let line = String::with_capacity(alloc, LINE_ROOM)?;
        Ok(EventLines { out, line })
    }

    // Writes the line of an event at once, by one write where that takes it. False where it failed.
    fn write(&mut self, entry: Entry) -> bool {
        self.line.clear();
        if put_line(&mut self.line, entry).is_err() {
            return false;
        }
        self.out.write_all(self.line.as_bytes()).is_ok() && self.out.flush().is_ok()
    }
}

impl<'a> Log<'a> {
    fn add(&mut self, entry: Entry<'a>) {
        if let Event::Left(name, calls, why) = entry.event {
            self.calls = self.calls.saturating_add(calls);
            if let (Why::Shut(_), None) = (why, self.shut_out) {
                self.shut_out = Some(name);
            }
        }
        if self.events.push_back(entry).is_err() {
            self.is_lost = true;
        }
    }

    // An event of a process that goes or comes again.
    fn add_again(&mut self, entry: Entry<'a>) {
        if self.events.len() < ROOM_AGAIN {
            self.add(entry);
        } else {
            self.is_lost = true;
        }
    }
}

impl<'a> Events<'a> {
    /// None yet, with room for all of a server of so many processes. They have times where a clock
    /// is given.
    pub(crate) fn new(
        alloc: Global,
        processes: usize,
        clock: Option<&'a HostRuntime>,
    ) -> Result<Events<'a>, AllocError> {
        let once = processes.saturating_mul(2).saturating_add(3);
        let room = once.saturating_add(ROOM_AGAIN);
        let events = VecDeque::with_capacity(alloc, room)?;
        let log = Log {
            events,
            calls: 0,
            shut_out: None,
            is_over: false,
            is_lost: false,
        };
        Ok(Events {
            log: Mutex::new(log),
            bell: Condvar::new(),
            clock,
        })
    }

    // The time, where it is wanted.
    fn time(&self) -> Option<Time> {
        match self.clock {
            Some(clock) => {
                let now = SystemTime::now(clock).ok();
                Some(Time { now })
            }
            None => None,
        }
    }

    /// An event, which is told as soon as those before it are. Nobody waits for that.
    pub(crate) fn tell<R: Wait>(&self, rt: &R, event: Event<'a>) {
        let time = self.time();
        let mut guard = self.log.lock(rt);
        (*guard).add(Entry { event, time });
        drop(guard);
        self.bell.notify_one();
    }

    /// The same of a process that goes or comes again. Where nobody reads for long it is lost.
    pub(crate) fn tell_again<R: Wait>(&self, rt: &R, event: Event<'a>) {
        let time = self.time();
        let mut guard = self.log.lock(rt);
        (*guard).add_again(Entry { event, time });
        drop(guard);
        self.bell.notify_one();
    }

    /// No event comes any more, but, where all have ended, that.
    pub(crate) fn end<R: Wait>(&self, rt: &R, have_ended: bool) {
        let time = self.time();
        let mut guard = self.log.lock(rt);
        let log = &mut *guard;
        if have_ended {
            let event = Event::Served(log.calls);
            log.add(Entry { event, time });
        }
        log.is_over = true;
        drop(guard);
        self.bell.notify_one();
    }

    /// The first process that was shut out.
    pub(crate) fn shut_out<R: Wait>(&self, rt: &R) -> Option<&'a str> {
        self.log.lock(rt).shut_out
    }

    // Waits for an event; none where none comes any more.
    fn next<R: Wait>(&self, rt: &R) -> Option<Entry<'a>> {
        let guard = self.log.lock(rt);
        let mut guard = self
            .bell
            .wait_while(rt, guard, |log| log.events.is_empty() && !log.is_over);
        (*guard).events.pop_front()
    }

    /// Writes the events as they come, until none comes any more. False where one was not written.
    pub(crate) fn write_to<R: Wait, W: Write + Drop>(
        &self,
        rt: &R,
        mut lines: EventLines<W>,
    ) -> bool {
        let mut is_well = true;
        for _ in rt.forever() {
            match self.next(rt) {
                Some(entry) => {
                    if !lines.write(entry) {
                        is_well = false;
                    }
                }
                None => break,
            }
        }
        is_well && !self.log.lock(rt).is_lost
    }
}

/// How long a book is.
#[derive(Clone, Copy)]
pub(crate) struct Length {
    pub(crate) bytes: u64,
    // How many of them are LFs: the first line has one, and each entry.
    lines: u64,
}

impl Length {
    pub(crate) fn entries(self) -> u64 {
        self.lines.saturating_sub(1)
    }
}

/// How long the book of a server is by now.
#[derive(Drop)]
pub(crate) struct BookLength {
    length: Mutex<Length>,
}

impl BookLength {
    /// Nothing of it was written yet.
    pub(crate) fn new() -> BookLength {
        BookLength {
            length: Mutex::new(Length { bytes: 0, lines: 0 }),
        }
    }

    pub(crate) fn now<R: Wait>(&self, rt: &R) -> Length {
        *self.length.lock(rt)
    }

    fn add<R: Wait>(&self, rt: &R, bytes: &[u8]) {
        let lines = bytes.iter().filter(|byte| **byte == b'\n').count();
        let mut guard = self.length.lock(rt);
        let length = &mut *guard;
        length.bytes = length.bytes.saturating_add(bytes.len() as u64);
        length.lines = length.lines.saturating_add(lines as u64);
    }
}

/// Where it is told what became of a book.
#[derive(Drop)]
pub(crate) struct BookEvents<'e, 'n, R> {
    pub(crate) rt: &'e R,
    pub(crate) events: &'e Events<'n>,
    pub(crate) length: &'e BookLength,
}

impl<'e, 'n, R: Wait> TellsBook for BookEvents<'e, 'n, R> {
    fn written(&self, bytes: &[u8]) {
        self.length.add(self.rt, bytes);
    }

    fn lost(&self, lost: Lost) {
        self.events.tell(self.rt, Event::Unbooked(lost));
    }
}
