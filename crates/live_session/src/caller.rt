//! A session that has begun, with the count of its calls and the receipt of the last one.
ghost use Rattle.std.specs.Prelude.{◌≡◌, ◌⊎◌, ◌+◌, ◌≤◌, ◌<◌, IsTrue, false, Some};
ghost use Rattle.live_session.specs.Sessions.{IsSpent, IsWithin};

use crate::seat::Seat;

/// A session that has begun: where it stands among the others, how many calls it has made, and the
/// receipt of the last one, if the machine was booked at the end of its turn. Each call that was
/// made counts, and each wait as one, however often it took the request.
pub(crate) struct Caller<'s, T> {
    pub(crate) seat: Seat<'s>,
    pub(crate) calls: u64,
    pub(crate) receipt: Option<T>,
}

/// Whether a session that has made so many calls, and no more than it may, may make one more. As
/// many as can be counted are never made: the door is too late long before.
pub(crate) fn may_call(calls: u64, most: Option<u64>) -> bool
    requires { IsWithin most calls }
    ensures may { IsTrue result → (calls < 18446744073709551615) × IsWithin most (calls + 1) }
    ensures over { result ≡ false → IsSpent most calls ⊎ (18446744073709551615 ≤ calls) }
{
    match most {
        Some(most) => calls < most,
        None => calls < u64::MAX,
    }
}
