//! Gates, which a thread passes round each of its calls.

use hall_core::Reply;
use std::sync::Wait;

/// What the thread of a process calls round its calls, which are numbered from 0. Threads share
/// the gate. The three calls may wait, and hold the thread that long; they see the replies and
/// change nothing in them.
pub trait Gate {
    /// The process is about to make its call of this number.
    fn before_call<R: Wait>(&self, rt: &R, process: u32, number: u64);

    /// The process has claimed the outcome of a request in its call of this number, and its turn is
    /// over. The reply is there, as `Pending` is, or is worked out next. It comes at every try of a
    /// take.
    fn computing<R: Wait>(&self, rt: &R, process: u32, number: u64);

    /// The process got this reply to its call of this number.
    fn answered<R: Wait>(&self, rt: &R, process: u32, number: u64, reply: &Reply);

    /// Whether it may hold a thread until another has got on. Ranks sleep while they wait for an
    /// outcome only under a gate that does not: one that is held could wait for one that sleeps.
    fn holds(&self) -> bool {
        true
    }
}

/// A gate that holds nobody.
#[derive(Clone, Copy)]
pub struct OpenGate;

impl Gate for OpenGate {
    fn before_call<R: Wait>(&self, _rt: &R, _process: u32, _number: u64) {}

    fn computing<R: Wait>(&self, _rt: &R, _process: u32, _number: u64) {}

    fn answered<R: Wait>(&self, _rt: &R, _process: u32, _number: u64, _reply: &Reply) {}

    fn holds(&self) -> bool {
        false
    }
}
