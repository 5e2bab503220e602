//! The desk of a process: its two named pipes, opened as its session begins, closed as soon as it
//! rests or has ended, and opened again for who comes back, by the thread of that session. Where the
//! operator has put the process out, or has ended the run, nothing more is read there, and the last
//! line that is written says so.
//!
//! No contract can say what a pipe gives or takes, so this is what the proof stands on: that the
//! bytes which are read are those of the process's calls, and that those which are written go to
//! its replies. `tests/live` tries it, with the built program and real processes.
ghost use Rattle.std.specs.Prelude.{◌≡◌, ◌+◌, ◌<◌, ◌≤◌, length, IfSome};

use crate::attendance::{Company, Presence};
use crate::ends::let_in;
use crate::events::{Event, Events, Why};
use crate::pipes::{Pipes, Shut};
use live_book::Receipt;
use live_session::{Desk, Peer, SessionEnd, ShowDesk};
use program_files::{read_again, write_again};
use std::alloc::{AllocError, Global};
use std::fs::{File, OpenOptions};
use std::sync::{Mutex, Wait};
use std::thread;
use std::time::Duration;
use wall_labels::{Failed, Sink};

// So many milliseconds pass before who could not be let in is let in again.
const AGAIN_MILLIS: u64 = 100;

// So many milliseconds the pipes of who is gone stay closed, so that whoever still reads the replies
// sees their end. (No call of the system tells that it has.)
const CLOSED_MILLIS: u64 = 50;

// The two pipes, as far as they are open, and why they were not opened.
#[derive(Drop)]
struct Opened {
    calls: Option<File>,
    replies: Option<File>,
    shut: Option<Shut>,
}

impl Opened {
    // Neither is open.
    fn none(shut: Option<Shut>) -> Opened {
        Opened {
            calls: None,
            replies: None,
            shut,
        }
    }
}

/// Where a process is served. Its two devices share it, and no other thread than theirs opens,
/// reads, writes or closes there, so the lock of what is open is always free. The operator's thread
/// has its part in the attendance alone.
#[derive(Drop)]
pub(crate) struct PipeDesk<'r, 'a, 'n, R: Wait> {
    rt: &'r R,
    files: &'r HostRuntime,
    pipes: &'a Pipes<'n>,
    opened: Mutex<Opened>,
    events: &'a Events<'n>,
    // The pipes of all processes, and how many of these have not gone or left.
    all: &'a [Pipes<'n>],
    company: &'a Company,
}

impl<'r, 'a, 'n, R: Wait> PipeDesk<'r, 'a, 'n, R> {
    // Opens the replies, and then the calls: each waits for the other side. Neither is ever made.
    // What was opened is looked at once more.
    fn open_both(&self) -> Result<Opened, Shut> {
        let (calls, replies) = (&self.pipes.calls, &self.pipes.replies);
        let mut write = OpenOptions::new();
        write.write(true);
        let to_member = match write.open(self.files, replies.path.as_str()) {
            Ok(file) => file,
            Err(error) => return Err(Shut::by(&error)),
        };
        let from_member = match File::open(self.files, calls.path.as_str()) {
            Ok(file) => file,
            Err(error) => return Err(Shut::by(&error)),
        };
        if let Some(shut) = replies.look_again(self.files, &to_member) {
            return Err(shut);
        }
        if let Some(shut) = calls.look_again(self.files, &from_member) {
            return Err(shut);
        }
        Ok(Opened {
            calls: Some(from_member),
            replies: Some(to_member),
            shut: None,
        })
    }

    // From now on these are open, and no others.
    fn keep(&self, opened: Opened) {
        *self.opened.lock(self.rt) = opened;
    }

    fn tell(&self, event: Event<'n>) {
        self.events.tell(self.rt, event);
    }

    // Why the process has left, where its session ended so.
    fn why(&self, end: SessionEnd) -> Why {
        if let Some(shut) = self.opened.lock(self.rt).shut {
            return Why::Shut(shut);
        }
        match self.pipes.attendance.told(self.rt) {
            Some(word) => Why::Told(word),
            None => Why::End(end),
        }
    }

    // Waits until the pipes are opened again, after so many calls. Whether the process is served on.
    // (Where one cannot be opened any more, the next read fails.)
    fn rest(&self, end: SessionEnd, calls: u64) -> bool {
        let (attendance, why) = (&self.pipes.attendance, Why::End(end));
        if !attendance.go(self.rt, self.company, calls, why) {
            // (Behind an answer that was not written whole there comes no other line.)
            if let SessionEnd::WriteFailed = end {
                self.keep(Opened::none(None));
            }
            return false;
        }
        self.keep(Opened::none(None));
        let name = self.pipes.name;
        self.events
            .tell_again(self.rt, Event::Gone(name, calls, why));
        thread::sleep(self.files, Duration::from_millis(CLOSED_MILLIS));
        match self.open_both() {
            Ok(opened) => {
                // (Who has opened them is told too, where the session ends.)
                self.keep(opened);
                if !attendance.come_back(self.rt, self.company) {
                    return false;
                }
                self.events.tell_again(self.rt, Event::Came(name));
            }
            Err(shut) => self.keep(Opened::none(Some(shut))),
        }
        true
    }

    // Where nobody is here any more, those that rest have left too. The first that sees it lets them
    // in, until all have: nobody else would.
    fn close_if_over(&self) {
        if !self.company.is_to_close(self.rt) {
            return;
        }
        for _ in self.rt.forever() {
            if self.let_all_in() {
                return;
            }
            thread::sleep(self.files, Duration::from_millis(AGAIN_MILLIS));
        }
        unreachable!()
    }

    // Lets those in that rest. Whether none does any more.
    fn let_all_in(&self) -> bool {
        let mut have_left = true;
        for pipes in self.all {
            if let Presence::Gone(_) = pipes.attendance.now(self.rt).presence {
                if !let_in(self.rt, self.files, pipes) {
                    have_left = false;
                }
            }
        }
        have_left
    }

    // What the client wrote. What comes when the session is to end is not looked at: there may be
    // an LF of the operator's thread in it, which was to wake this one.
    fn read(&self, buffer: &mut [u8]) -> Option<usize>
        ensures { IfSome result (λ n. n ≤ length buffer.new) }
    {
        if !self.pipes.attendance.begin_read(self.rt) {
            return Some(0);
        }
        let read = self.read_calls(buffer);
        if self.pipes.attendance.end_read(self.rt) {
            read
        } else {
            Some(0)
        }
    }

    fn read_calls(&self, buffer: &mut [u8]) -> Option<usize>
        ensures { IfSome result (λ n. n ≤ length buffer.new) }
    {
        let mut opened = self.opened.lock(self.rt);
        match &mut opened.calls {
            Some(calls) => read_again(calls, buffer).ok(),
            None => None,
        }
    }

    // At least one of some bytes.
    fn write(&self, bytes: &[u8]) -> Option<usize>
        ensures { IfSome result (λ n. (0 < n) × (n ≤ length bytes.now)) }
    {
        let mut opened = self.opened.lock(self.rt);
        match &mut opened.replies {
            Some(replies) => match write_again(replies, bytes) {
                Ok(n) if n > 0 => Some(n),
                _ => None,
            },
            None => None,
        }
    }
}

// One failure more. A thread that met as many as can be counted would wait for ever.
fn count<R: Wait>(rt: &R, failures: &mut u64)
    ensures { failures.new ≡ failures.old + 1 }
{
    if *failures == u64::MAX {
        for _ in rt.forever() {}
        unreachable!()
    }
    *failures += 1;
}

/// The calls of a process. It is at its desk: they are opened there, with the replies.
#[derive(Drop)]
pub(crate) struct PipeSource<'d, 'r, 'a, 'n, R: Wait> {
    desk: &'d PipeDesk<'r, 'a, 'n, R>,
    failures: u64,
}

impl<'d, 'r, 'a, 'n, R: Wait> Desk<PipeSink<'d, 'r, 'a, 'n, R>> for PipeSource<'d, 'r, 'a, 'n, R> {
    ghost failures = { λ s. s.failures };

    // Where a pipe cannot be opened any more, the first read fails. (Where the operator's thread
    // has opened the other ends, since the session is to end, nobody came.)
    fn open(&self) {
        if self.desk.pipes.attendance.is_ended(self.desk.rt) {
            return;
        }
        match self.desk.open_both() {
            Ok(opened) => {
                self.desk.keep(opened);
                if self.desk.pipes.attendance.come(self.desk.rt) {
                    self.desk.tell(Event::Came(self.desk.pipes.name));
                }
            }
            Err(shut) => self.desk.keep(Opened::none(Some(shut))),
        }
    }

    fn hear(
        &mut self,
        _sink: &PipeSink<'d, 'r, 'a, 'n, R>,
        buffer: &mut [u8],
    ) -> Result<usize, Failed> {
        match self.desk.read(buffer) {
            Some(n) => Ok(n),
            None => {
                count(self.desk.rt, &mut self.failures);
                Err(Failed)
            }
        }
    }

    fn rest(&mut self, _sink: &PipeSink<'d, 'r, 'a, 'n, R>, end: SessionEnd, calls: u64) -> bool {
        self.desk.rest(end, calls)
    }

    fn close(&self, end: SessionEnd, calls: u64) {
        let why = self.desk.why(end);
        // (Behind `left`, `exhausted` and `unbooked` there comes no other line.)
        if let Why::Told(word) = why {
            match end {
                SessionEnd::EndOfStream | SessionEnd::WriteFailed => {
                    let _ = self.desk.write(word.line().as_bytes());
                }
                SessionEnd::Left
                | SessionEnd::ReadFailed
                | SessionEnd::Exhausted
                | SessionEnd::Unbooked
                | SessionEnd::NoMemory => {}
            }
        }
        self.desk.keep(Opened::none(None));
        self.desk
            .pipes
            .attendance
            .leave(self.desk.rt, self.desk.company, calls, why);
        self.desk
            .tell(Event::Left(self.desk.pipes.name, calls, why));
        self.desk.close_if_over();
    }
}

impl<'d, 'r, 'a, 'n, R: Wait, T: Receipt> ShowDesk<PipeSink<'d, 'r, 'a, 'n, R>, T>
    for PipeSource<'d, 'r, 'a, 'n, R> {
    // The process itself is shown nothing but its reply. That there is one is counted.
    fn show(&mut self, _sink: &PipeSink<'d, 'r, 'a, 'n, R>, _receipt: &T) {
        self.desk.pipes.attendance.count(self.desk.rt);
    }
}

/// The replies to a process.
#[derive(Drop)]
pub(crate) struct PipeSink<'d, 'r, 'a, 'n, R: Wait> {
    desk: &'d PipeDesk<'r, 'a, 'n, R>,
    failures: u64,
}

impl<'d, 'r, 'a, 'n, R: Wait> Sink for PipeSink<'d, 'r, 'a, 'n, R> {
    ghost failures = { λ s. s.failures };

    fn write(&mut self, bytes: &[u8]) -> Result<usize, Failed> {
        if bytes.is_empty() {
            return Ok(0);
        }
        match self.desk.write(bytes) {
            Some(n) => Ok(n),
            None => {
                count(self.desk.rt, &mut self.failures);
                Err(Failed)
            }
        }
    }
}

/// A desk at each of these pipes, closed.
pub(crate) fn desks_at<'r, 'a, 'n, R: Wait>(
    rt: &'r R,
    alloc: Global,
    files: &'r HostRuntime,
    all: &'a [Pipes<'n>],
    events: &'a Events<'n>,
    company: &'a Company,
) -> Result<Vec<PipeDesk<'r, 'a, 'n, R>>, AllocError> {
    let mut desks = Vec::new(alloc);
    for pipes in all {
        let opened = Mutex::new(Opened::none(None));
        desks.push(PipeDesk {
            rt,
            files,
            pipes,
            opened,
            events,
            all,
            company,
        })?;
    }
    Ok(desks)
}

/// The devices of each desk, in order.
pub(crate) fn peers_at<'d, 'r, 'a, 'n, R: Wait>(
    alloc: Global,
    desks: &'d [PipeDesk<'r, 'a, 'n, R>],
) -> Result<Vec<Peer<PipeSource<'d, 'r, 'a, 'n, R>, PipeSink<'d, 'r, 'a, 'n, R>>>, AllocError> {
    let mut peers = Vec::new(alloc);
    for desk in desks {
        let source = PipeSource { desk, failures: 0 };
        let sink = PipeSink { desk, failures: 0 };
        peers.push(Peer { source, sink })?;
    }
    Ok(peers)
}
