//! What the operator asks for, line by line.
//!
//! A line ends at LF; one CR before it is dropped. It is `ping WORD`, `status`, `dismiss NAME` or
//! `end`.

use std::alloc::{AllocError, Global};

/// The most bytes of a line, without its LF.
const LINE_LIMIT: usize = 4096;

/// What a line asks for.
#[derive(Clone, Copy)]
pub(crate) enum Order<'l> {
    /// This word, again: so that who asks sees which answer is its own.
    Ping(&'l [u8]),
    /// Where each process stands.
    Status,
    /// The session of this process ends.
    Dismiss(&'l [u8]),
    /// All sessions end.
    End,
}

/// Why a line asks for nothing. The names are those of a session's lines.
#[derive(Clone, Copy)]
pub(crate) enum BadOrder {
    /// It is longer than a line may be.
    TooLong,
    /// A byte that is not printable; an empty field, a missing or an extra one.
    BadShape,
    /// The first word is none of the four.
    BadVerb,
}

// The first word, and what stands behind the space at its end, if there is one.
fn split_first(line: &[u8]) -> (&[u8], Option<&[u8]>) {
    match line.iter().position(|byte| *byte == b' ') {
        Some(at) => (
            line.get(..at).unwrap_or(line),
            line.get(at.saturating_add(1)..),
        ),
        None => (line, None),
    }
}

fn is_printable(byte: u8) -> bool {
    byte >= b' ' && byte <= b'~'
}

fn is_word(field: &[u8]) -> bool {
    !field.is_empty() && !field.contains(&b' ')
}

// What a line without its end asks for.
fn read_order(line: &[u8]) -> Result<Order<'_>, BadOrder> {
    if line.is_empty() || !line.iter().all(|byte| is_printable(*byte)) {
        return Err(BadOrder::BadShape);
    }
    let (verb, rest) = split_first(line);
    match (verb, rest) {
        (b"status", None) => Ok(Order::Status),
        (b"end", None) => Ok(Order::End),
        (b"dismiss", Some(name)) if is_word(name) => Ok(Order::Dismiss(name)),
        (b"ping", Some(word)) if is_word(word) => Ok(Order::Ping(word)),
        (b"status" | b"end" | b"dismiss" | b"ping" | b"", _) => Err(BadOrder::BadShape),
        _ => Err(BadOrder::BadVerb),
    }
}

/// The line that is being read.
#[derive(Drop)]
pub(crate) struct OrderLine {
    bytes: Vec<u8>,
    is_long: bool,
}

impl OrderLine {
    /// Nothing yet, with room for a line.
    pub(crate) fn new(alloc: Global) -> Result<OrderLine, AllocError> {
        let bytes = Vec::with_capacity(alloc, LINE_LIMIT + 1)?;
        Ok(OrderLine {
            bytes,
            is_long: false,
        })
    }

    /// One byte more, which is no LF.
    pub(crate) fn add(&mut self, byte: u8) {
        // (One more for a CR.)
        if self.bytes.len() > LINE_LIMIT || self.bytes.push(byte).is_err() {
            self.is_long = true;
        }
    }

    /// Forgets what was read of it.
    pub(crate) fn clear(&mut self) {
        self.bytes.clear();
        self.is_long = false;
    }

    /// What it asks for, when its LF was read.
    pub(crate) fn order(&self) -> Result<Order<'_>, BadOrder> {
        let bytes = self.bytes.as_slice();
        let line = bytes.strip_suffix(b"\r".as_slice()).unwrap_or(bytes);
        if self.is_long || line.len() > LINE_LIMIT {
            return Err(BadOrder::TooLong);
        }
        read_order(line)
    }
}
