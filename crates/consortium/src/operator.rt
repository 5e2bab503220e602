//! The operator of a server, at a pair of pipes of its own: one line, one answer.
//!
//! A thread of its own reads its lines (`orders.rt`) and answers them (`answers.rt`). Operators
//! come and go: the server has both pipes open both ways while it runs, so it neither waits for one
//! nor sees it go. What one has left half written is joined to what the next one writes, and what
//! one has not read is read by the next one, which therefore begins with a line that is none, and a
//! ping. One that reads nothing holds up this thread as soon as its pipe is full, and no session.
//!
//! A session that is to end gets its last word (`attendance.rt`), and its thread is woken: where it
//! may sleep in a read, by an LF among its calls; where it may sleep in the opening of its pipes, by
//! their other ends. Where it waits for its client to read, or for an instance, nothing wakes it: it
//! ends behind that. No contract can say what a pipe gives or takes; `tests/live` tries it.

use crate::answers::{DONE, Refusal, bad_line, put_all, put_pong, put_process};
use crate::attendance::{LastWord, Presence};
use crate::ends::{both_ways, let_in, write_lf, write_some};
use crate::events::BookLength;
use crate::orders::{Order, OrderLine};
use crate::pipes::Pipes;
use program_commands::Unready;
use program_files::read_again;
use std::alloc::AllocError;
use std::fs::File;
use std::sync::{Mutex, Wait};
use std::thread;
use std::time::Duration;

// How many milliseconds it is rested where the operator's lines can't be read.
const REST_MILLIS: u64 = 100;

/// The pair of the operator, open both ways.
#[derive(Drop)]
pub(crate) struct OperatorPair {
    lines: File,
    // The same once more, for the LF that ends the reading of it.
    waker: File,
    /// It has no end while the server runs.
    pub(crate) answers: File,
    line: OrderLine,
}

impl OperatorPair {
    /// Opens both pipes. Why not, where they are not as they were.
    pub(crate) fn open(
        files: &HostRuntime,
        pipes: &Pipes<'static>,
        line: OrderLine,
    ) -> Result<OperatorPair, Unready<'static>> {
        let none = Unready::NoPipe(pipes.name);
        let (Some(lines), Some(answers)) = (
            both_ways(files, &pipes.calls),
            both_ways(files, &pipes.replies),
        ) else {
            return Err(none);
        };
        match lines.try_clone() {
            Ok(waker) => Ok(OperatorPair {
                lines,
                waker,
                answers,
                line,
            }),
            Err(_) => Err(none),
        }
    }
}

/// What the operator writes, as far as it was read.
#[derive(Drop)]
pub(crate) struct Lines {
    file: File,
    line: OrderLine,
}

/// Who answers the operator, beside the sessions.
#[derive(Drop)]
pub(crate) struct Operator<'o, 'q, 'g, 'n, R: Wait> {
    rt: &'o R,
    files: &'o HostRuntime,
    waker: File,
    answers: File,
    // The pipes of each process, with where it stands.
    all: &'q [Pipes<'n>],
    // None where no book is kept.
    length: Option<&'g BookLength>,
    is_over: Mutex<bool>,
}

impl<'o, 'q, 'g, 'n, R: AllocGlobal + Wait> Operator<'o, 'q, 'g, 'n, R> {
    /// Who answers at this pair, beside the sessions at these pipes, and tells of the book if one is
    /// kept; and what it is to read.
    pub(crate) fn at(
        rt: &'o R,
        files: &'o HostRuntime,
        pair: OperatorPair,
        all: &'q [Pipes<'n>],
        length: Option<&'g BookLength>,
    ) -> (Operator<'o, 'q, 'g, 'n, R>, Lines) {
        let OperatorPair {
            lines,
            waker,
            answers,
            line,
        } = pair;
        let operator = Operator {
            rt,
            files,
            waker,
            answers,
            all,
            length,
            is_over: Mutex::new(false),
        };
        (operator, Lines { file: lines, line })
    }

    /// Answers lines until all sessions have ended.
    pub(crate) fn serve(&self, lines: Lines) {
        let Lines { mut file, mut line } = lines;
        let mut buffer = [0u8; 4096];
        for _ in self.rt.forever() {
            let read = read_again(&mut file, &mut buffer);
            if *self.is_over.lock(self.rt) {
                return;
            }
            match read {
                Ok(n) if n > 0 => self.take_in(&mut line, &buffer[..n]),
                _ => thread::sleep(self.files, Duration::from_millis(REST_MILLIS)),
            }
        }
        unreachable!()
    }

    /// All sessions have ended: nothing more is answered.
    pub(crate) fn end(&self) {
        *self.is_over.lock(self.rt) = true;
        let _ = write_some(&self.waker, b"\n");
    }

    fn take_in(&self, line: &mut OrderLine, bytes: &[u8]) {
        for byte in bytes {
            if *byte == b'\n' {
                self.answer(line);
                line.clear();
            } else {
                line.add(*byte);
            }
        }
    }

    fn answer(&self, line: &OrderLine) {
        let mut text = String::new(self.rt.alloc());
        let last = match line.order() {
            Ok(order) => match self.carry_out(order, &mut text) {
                Ok(()) => DONE,
                Err(refusal) => {
                    text.clear();
                    refusal.line()
                }
            },
            Err(bad) => bad_line(bad),
        };
        self.write(text.as_bytes());
        self.write(last.as_bytes());
    }

    // Writes all of them, as soon as they are taken.
    fn write(&self, bytes: &[u8]) {
        let mut left = bytes;
        for _ in self.rt.forever() {
            if left.is_empty() {
                return;
            }
            match write_some(&self.answers, left) {
                Some(n) => left = &left[n..],
                None => return,
            }
        }
        unreachable!()
    }

    fn carry_out(&self, order: Order, text: &mut String) -> Result<(), Refusal> {
        match order {
            Order::Ping(word) => told(put_pong(text, word)),
            Order::Status => told(self.put_status(text)),
            Order::Dismiss(name) => self.dismiss(name),
            Order::End => self.end_all(),
        }
    }

    // Puts where each process stands, and how much there is of all.
    fn put_status(&self, text: &mut String) -> Result<(), AllocError> {
        let length = match self.length {
            Some(length) => Some(length.now(self.rt)),
            None => None,
        };
        let mut calls: u64 = 0;
        for pipes in self.all {
            let attending = pipes.attendance.now(self.rt);
            calls = calls.saturating_add(attending.calls);
            put_process(text, pipes.name, attending)?;
        }
        put_all(text, calls, length)
    }

    fn dismiss(&self, name: &[u8]) -> Result<(), Refusal> {
        for pipes in self.all {
            if pipes.name.as_bytes() == name {
                return self.dismiss_at(pipes);
            }
        }
        Err(Refusal::NoSuchProcess)
    }

    fn dismiss_at(&self, pipes: &Pipes<'n>) -> Result<(), Refusal> {
        if !pipes.attendance.end_by(self.rt, LastWord::Dismissed) {
            return Err(Refusal::HasLeft);
        }
        if self.wake(pipes) {
            Ok(())
        } else {
            Err(Refusal::NotWoken)
        }
    }

    // (All are told before any is woken, so none goes on for those that are told later.)
    fn end_all(&self) -> Result<(), Refusal> {
        for pipes in self.all {
            let _ = pipes.attendance.end_by(self.rt, LastWord::Ended);
        }
        let mut are_woken = true;
        for pipes in self.all {
            if !self.wake(pipes) {
                are_woken = false;
            }
        }
        if are_woken {
            Ok(())
        } else {
            Err(Refusal::NotWoken)
        }
    }

    // Wakes the thread of a session that is to end, if it sleeps in a read or in the opening of its
    // pipes. One that does neither looks for its word before the next read.
    fn wake(&self, pipes: &Pipes<'n>) -> bool {
        let attending = pipes.attendance.now(self.rt);
        match attending.presence {
            Presence::NeverCame | Presence::Gone(_) => let_in(self.rt, self.files, pipes),
            Presence::Here if attending.is_reading => write_lf(self.files, &pipes.calls),
            Presence::Here | Presence::Left(_) => true,
        }
    }
}

// Where memory was refused for the answer.
fn told(put: Result<(), AllocError>) -> Result<(), Refusal> {
    match put {
        Ok(()) => Ok(()),
        Err(refused) => Err(Refusal::from(refused)),
    }
}
