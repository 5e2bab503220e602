//! Where a process of a server stands, and the word by which its session ends, where that is given
//! from outside: what the threads of sessions and that of the operator tell each other.

use crate::events::Why;
use std::sync::{Mutex, Wait};

/// What ends a session from outside. Its client reads it as a last line.
#[derive(Clone, Copy)]
pub(crate) enum LastWord {
    /// The operator has put it out.
    Dismissed,
    /// The operator has ended the run.
    Ended,
}

impl LastWord {
    /// As events and the operator are told of it.
    pub(crate) fn text(self) -> &'static str {
        match self {
            LastWord::Dismissed => "dismissed",
            LastWord::Ended => "ended",
        }
    }

    /// As its client reads it.
    pub(crate) fn line(self) -> &'static str {
        match self {
            LastWord::Dismissed => "dismissed\n",
            LastWord::Ended => "ended\n",
        }
    }
}

/// Where a process stands.
#[derive(Clone, Copy)]
pub(crate) enum Presence {
    /// Its pipes were not opened yet.
    NeverCame,
    /// Its session goes on.
    Here,
    /// Its session rests, for this, until its pipes are opened again.
    Gone(Why),
    /// Its session has ended, for this.
    Left(Why),
}

/// What is known of a process at a time.
#[derive(Clone, Copy)]
pub(crate) struct Attending {
    pub(crate) presence: Presence,
    /// How many calls it made that were answered; all of them, where it has gone or left.
    pub(crate) calls: u64,
    /// By which it ends, or has ended.
    pub(crate) word: Option<LastWord>,
    /// Its thread reads, or sleeps, at its calls.
    pub(crate) is_reading: bool,
    // By its word a read was kept from it.
    is_over: bool,
}

// How many processes there are that have not gone or left.
#[derive(Clone, Copy)]
struct Count {
    here: u32,
    // There was a time when there was none: nobody comes back any more.
    is_over: bool,
    // Somebody has seen to those that rest.
    is_closed: bool,
}

/// The processes of a server that have not gone or left: those that are here, and those that never
/// came. When there is none any more the run is over, and those that rest come back no more.
#[derive(Drop)]
pub(crate) struct Company {
    count: Mutex<Count>,
}

impl Company {
    /// Of so many processes, none of which came yet.
    pub(crate) fn of(processes: u32) -> Company {
        Company {
            count: Mutex::new(Count {
                here: processes,
                is_over: false,
                is_closed: false,
            }),
        }
    }

    // One has gone or left. Whether the run is over.
    fn lose<R: Wait>(&self, rt: &R) -> bool {
        let mut guard = self.count.lock(rt);
        let count = &mut *guard;
        count.here = count.here.saturating_sub(1);
        if count.here == 0 {
            count.is_over = true;
        }
        count.is_over
    }

    // One that had gone is back. False where the run is over.
    fn gain<R: Wait>(&self, rt: &R) -> bool {
        let mut guard = self.count.lock(rt);
        let count = &mut *guard;
        if !count.is_over {
            count.here = count.here.saturating_add(1);
        }
        !count.is_over
    }

    /// Whether the run is over, and whoever asks is the first that does: it sees to those that rest.
    pub(crate) fn is_to_close<R: Wait>(&self, rt: &R) -> bool {
        let mut guard = self.count.lock(rt);
        let count = &mut *guard;
        let is_first = count.is_over && !count.is_closed;
        if is_first {
            count.is_closed = true;
        }
        is_first
    }
}

/// What is known of a process, for the two threads.
#[derive(Drop)]
pub(crate) struct Attendance {
    attending: Mutex<Attending>,
}

impl Attendance {
    /// It has not come, and nobody has ended it.
    pub(crate) fn new() -> Attendance {
        Attendance {
            attending: Mutex::new(Attending {
                presence: Presence::NeverCame,
                calls: 0,
                word: None,
                is_reading: false,
                is_over: false,
            }),
        }
    }

    pub(crate) fn now<R: Wait>(&self, rt: &R) -> Attending {
        *self.attending.lock(rt)
    }

    /// Whether it was ended before it came.
    pub(crate) fn is_ended<R: Wait>(&self, rt: &R) -> bool {
        self.attending.lock(rt).word.is_some()
    }

    /// The word that kept a read from it, if one did.
    pub(crate) fn told<R: Wait>(&self, rt: &R) -> Option<LastWord> {
        let attending = self.now(rt);
        if attending.is_over {
            attending.word
        } else {
            None
        }
    }

    /// It has come. False where its session was ended before.
    pub(crate) fn come<R: Wait>(&self, rt: &R) -> bool {
        let mut guard = self.attending.lock(rt);
        let attending = &mut *guard;
        if attending.word.is_some() {
            return false;
        }
        attending.presence = Presence::Here;
        true
    }

    /// It is going to read. False where its session is to end, and nothing is read any more.
    pub(crate) fn begin_read<R: Wait>(&self, rt: &R) -> bool {
        self.read_on(rt, true)
    }

    /// It has read. False where its session is to end, and what was read counts for nothing.
    pub(crate) fn end_read<R: Wait>(&self, rt: &R) -> bool {
        self.read_on(rt, false)
    }

    fn read_on<R: Wait>(&self, rt: &R, is_reading: bool) -> bool {
        let mut guard = self.attending.lock(rt);
        let attending = &mut *guard;
        let is_over = attending.word.is_some();
        attending.is_reading = is_reading && !is_over;
        if is_over {
            attending.is_over = true;
        }
        !is_over
    }

    /// Its session rests, after so many calls. False where it is to end: by a word, or since it was
    /// the last that was here.
    pub(crate) fn go<R: Wait>(&self, rt: &R, company: &Company, calls: u64, why: Why) -> bool {
        let mut guard = self.attending.lock(rt);
        let attending = &mut *guard;
        // (So it is where its pipes could not be opened again.)
        let was_gone = matches!(&attending.presence, Presence::Gone(_));
        attending.presence = Presence::Gone(why);
        attending.calls = calls;
        attending.is_over = attending.word.is_some();
        let is_told = attending.is_over;
        drop(guard);
        let is_last = !was_gone && company.lose(rt);
        !is_told && !is_last
    }

    /// Its pipes were opened again. False where its session is to end.
    pub(crate) fn come_back<R: Wait>(&self, rt: &R, company: &Company) -> bool {
        let mut guard = self.attending.lock(rt);
        let attending = &mut *guard;
        if attending.word.is_some() {
            attending.is_over = true;
            return false;
        }
        if !company.gain(rt) {
            return false;
        }
        attending.presence = Presence::Here;
        true
    }

    /// A reply to a call is told.
    pub(crate) fn count<R: Wait>(&self, rt: &R) {
        let mut guard = self.attending.lock(rt);
        let attending = &mut *guard;
        attending.calls = attending.calls.saturating_add(1);
    }

    /// Its session has ended, after so many calls.
    pub(crate) fn leave<R: Wait>(&self, rt: &R, company: &Company, calls: u64, why: Why) {
        let mut guard = self.attending.lock(rt);
        let attending = &mut *guard;
        let was_gone = matches!(&attending.presence, Presence::Gone(_));
        attending.presence = Presence::Left(why);
        attending.calls = calls;
        drop(guard);
        if !was_gone {
            let _ = company.lose(rt);
        }
    }

    /// Has its session end by this word, or by the one that was given before. False where it has
    /// ended.
    pub(crate) fn end_by<R: Wait>(&self, rt: &R, word: LastWord) -> bool {
        let mut guard = self.attending.lock(rt);
        let attending = &mut *guard;
        if let Presence::Left(_) = attending.presence {
            return false;
        }
        if attending.word.is_none() {
            attending.word = Some(word);
        }
        true
    }
}
