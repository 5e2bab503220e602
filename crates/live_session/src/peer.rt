//! The devices of processes, and what their threads are given and give back.

use crate::desk::Desk;
use crate::ending::Closing;
use hall_turn::{Machine, PassTo};
use std::snapshot::Snapshot;
use std::thread::Promise;
use wall_labels::Sink;

/// The devices of a process.
#[derive(Drop)]
pub struct Peer<S, O> {
    /// Where its lines come from.
    pub source: S,
    /// Where its answers go.
    pub sink: O,
}

/// The session of a process that has ended.
#[derive(Drop)]
pub struct Session<S, O> {
    /// Its devices.
    pub peer: Peer<S, O>,
    /// How it ended, and after how many calls.
    pub closing: Closing,
}

/// What a thread is given.
#[derive(Drop)]
pub(crate) struct Job<M: Machine, S, O> {
    pub(crate) pass: PassTo<M>,
    pub(crate) peer: Peer<S, O>,
    /// So many calls it may make at most.
    pub(crate) most: Option<u64>,
}

/// What a thread gives back.
#[derive(Drop)]
pub(crate) struct Played<M: Machine, S, O> {
    pub(crate) pass: PassTo<M>,
    pub(crate) peer: Peer<S, O>,
    /// How the session ended, and after how many calls; none where it did not begin.
    pub(crate) ended: Option<Closing>,
}

/// The thread of a job serves its process.
#[derive(Drop)]
pub(crate) struct Serving<M: Machine, S, O>(pub(crate) Snapshot<Job<M, S, O>>);

impl<M: Machine, S: Desk<O> + Drop, O: Sink + Drop> Promise<Played<M, S, O>> for Serving<M, S, O> {
    ghost use Rattle.live_session.specs.Sessions.{Stood};
    ghost use Rattle.live_session.specs.Joining.{HasServed};

    ghost kept_by = { λ p r.
        HasServed (Stood M.stands M.booked) S.failures S.remaining S.heard O.failures O.contents
        p.0.value r };
}
