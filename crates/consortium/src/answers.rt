//! The text of what the operator is answered: lines, of which the last is `done`, `refused NAME` or
//! `bad NAME`, and no other looks so.

use crate::attendance::{Attending, Presence};
use crate::events::Length;
use crate::orders::BadOrder;
use std::alloc::AllocError;

/// Why an order was not carried out.
#[derive(Clone, Copy)]
pub(crate) enum Refusal {
    /// No process of the policy has this name.
    NoSuchProcess,
    /// Its session has ended.
    HasLeft,
    /// The order holds, but a thread was not woken: its session ends as soon as its client does
    /// something.
    NotWoken,
    /// Memory was refused for the answer. Nothing was done.
    NoMemory,
}

impl From<AllocError> for Refusal {
    fn from(_refused: AllocError) -> Refusal {
        Refusal::NoMemory
    }
}

impl Refusal {
    /// The last line of its answer.
    pub(crate) fn line(self) -> &'static str {
        match self {
            Refusal::NoSuchProcess => "refused NoSuchProcess\n",
            Refusal::HasLeft => "refused HasLeft\n",
            Refusal::NotWoken => "refused NotWoken\n",
            Refusal::NoMemory => "refused NoMemory\n",
        }
    }
}

/// The last line of the answer to a line that asks for nothing.
pub(crate) fn bad_line(bad: BadOrder) -> &'static str {
    match bad {
        BadOrder::TooLong => "bad TooLong\n",
        BadOrder::BadShape => "bad BadShape\n",
        BadOrder::BadVerb => "bad BadVerb\n",
    }
}

/// The last line of the answer to what was done.
pub(crate) const DONE: &str = "done\n";

/// Puts the line that answers a ping with this word, whose bytes are printable.
pub(crate) fn put_pong(text: &mut String, word: &[u8]) -> Result<(), AllocError> {
    text.push_str("pong ")?;
    for byte in word {
        text.push(char::from(*byte))?;
    }
    text.push('\n')
}

/// Puts the line of a process: where it stands, and after how many calls.
pub(crate) fn put_process(
    text: &mut String,
    name: &str,
    attending: Attending,
) -> Result<(), AllocError> {
    let calls = attending.calls;
    match (attending.presence, attending.word) {
        (Presence::NeverCame, _) => write!(text, "{name} never came\n"),
        (Presence::Here, None) => write!(text, "{name} here after {calls} calls\n"),
        (Presence::Here, Some(word)) => {
            let word = word.text();
            write!(text, "{name} here after {calls} calls: {word}\n")
        }
        (Presence::Gone(why), None) => {
            let why = why.text();
            write!(text, "{name} gone after {calls} calls: {why}\n")
        }
        (Presence::Gone(_), Some(word)) => {
            let word = word.text();
            write!(text, "{name} gone after {calls} calls: {word}\n")
        }
        (Presence::Left(why), _) => {
            let why = why.text();
            write!(text, "{name} left after {calls} calls: {why}\n")
        }
    }
}

/// Puts the line of all: how many calls they made, and how long the book is, if one is kept.
pub(crate) fn put_all(
    text: &mut String,
    calls: u64,
    length: Option<Length>,
) -> Result<(), AllocError> {
    match length {
        Some(length) => {
            let (entries, bytes) = (length.entries(), length.bytes);
            write!(text, "calls {calls}, entries {entries}, bytes {bytes}\n")
        }
        None => write!(text, "calls {calls}, book none\n"),
    }
}
