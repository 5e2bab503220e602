//! What a hall keeps: an instance until its last member has taken its outcome, in whatever order
//! they do. All other memory is given back.

ghost use Rattle.std.specs.Prelude.{IfSome};
ghost use Rattle.hall_core.specs.Halls.{view_of};
ghost use Rattle.hall_core.specs.Looks.{IsDue};

use crate::calls::Doing::{Cast, Sum, Take, Trade};
use crate::calls::{FRIENDS, Line, RIVALS, SUM_OF_FOUR, answers, answers_all, at_a_hall, runs};
use crate::worlds::{AT_ONCE, Looked, both};
use hall_core::{Due, Hall, Open, Refusal, Reply, finish};
use std::alloc::Global;
use std::process::Abort;
use std::rt::Files;
use std::test::Fail;
use trial_kit::pages;
use wall_policy::read_policy;

/// How many rounds are played, of two collectives each.
const ROUNDS: u64 = 100;

/// What all four post in a round: a broadcast of a bank's numbers, which its rival may not get, and
/// a sum of all. The takes show that each was posted.
const ROUND: &[Line] = &[
    (0, Cast(0, 0, 2, "alpha", &[7, -1]), "any"),
    (1, Cast(0, 0, 2, "public", &[]), "any"),
    (2, Cast(0, 0, 2, "public", &[]), "any"),
    (3, Cast(0, 0, 2, "public", &[]), "any"),
    (0, Sum("alpha", &[5]), "any"),
    (1, Sum("beta", &[6]), "any"),
    (2, Sum("crude", &[7]), "any"),
    (3, Sum("public", &[1]), "any"),
];

/// Makes the calls of the lines, whatever they are told.
fn asks_all(alloc: Global, hall: &mut Hall, lines: &[Line]) -> Result<(), Fail> {
    for line in lines {
        answers(alloc, hall, line)?;
    }
    Ok(())
}

/// Whether all four take the request of that number, and are told that the broadcast of its round
/// was denied, or the sum of its round.
fn all_take(alloc: Global, hall: &mut Hall, request: u64) -> Result<bool, Fail> {
    let reply = if request % 2 == 0 {
        "denied Simple 1 0"
    } else {
        "delivered [19]"
    };
    for process in 0..4 {
        if !answers(alloc, hall, &(process, Take(request), reply))? {
            return Ok(false);
        }
    }
    Ok(true)
}

fn takes_in_order(alloc: Global, hall: &mut Hall) -> Result<bool, Fail> {
    for number in 0..ROUNDS {
        asks_all(alloc, hall, ROUND)?;
        if !all_take(alloc, hall, 2 * number)? || !all_take(alloc, hall, 2 * number + 1)? {
            return Ok(false);
        }
    }
    Ok(true)
}

/// Whether the book has room for no more than as many entries again, and a few.
fn has_fit_book(hall: &Hall) -> bool {
    hall.book().room() <= hall.book().len().saturating_add(16)
}

/// All rounds are posted before the first take, and the last request is taken first.
fn takes_backwards(alloc: Global, hall: &mut Hall) -> Result<bool, Fail> {
    for _ in 0..ROUNDS {
        asks_all(alloc, hall, ROUND)?;
        if !has_fit_book(hall) {
            return Ok(false);
        }
    }
    for after in 0..2 * ROUNDS {
        if !all_take(alloc, hall, 2 * ROUNDS - 1 - after)? {
            return Ok(false);
        }
    }
    Ok(true)
}

#[test]
fn all_take_in_order_and_backwards(rt: HostRuntime) -> Result<(), Fail> {
    assert!(rt; at_a_hall(rt.alloc(), RIVALS, takes_in_order)?);
    assert!(rt; at_a_hall(rt.alloc(), RIVALS, takes_backwards)?);
    Ok(())
}

/// A broadcast that all four may get.
const BROADCAST: &[Line] = &[
    (0, Cast(0, 0, 1, "alpha", &[5]), "any"),
    (1, Cast(0, 0, 1, "public", &[]), "any"),
    (2, Cast(0, 0, 1, "public", &[]), "any"),
    (3, Cast(0, 0, 1, "public", &[]), "any"),
];

/// Whether it is granted to process 1, 2 and 3, as their request of that number.
fn all_but_one_take(alloc: Global, hall: &mut Hall, request: u64) -> Result<bool, Fail> {
    asks_all(alloc, hall, BROADCAST)?;
    for process in 1..4 {
        if !answers(alloc, hall, &(process, Take(request), "delivered [5]"))? {
            return Ok(false);
        }
    }
    Ok(true)
}

const TAKEN_AT_LAST: &[Line] = &[
    (0, Take(2), "delivered none"),
    (0, Take(0), "delivered none"),
    (0, Take(1), "delivered none"),
];

/// Process 0 alone has not taken three outcomes. It takes the last first, and then the first.
fn waits_for_one(alloc: Global, hall: &mut Hall) -> Result<bool, Fail> {
    for request in 0..3 {
        if !all_but_one_take(alloc, hall, request)? {
            return Ok(false);
        }
    }
    answers_all(alloc, hall, TAKEN_AT_LAST)
}

#[test]
fn what_one_has_not_taken_is_kept(rt: HostRuntime) -> Result<(), Fail> {
    assert!(rt; at_a_hall(rt.alloc(), FRIENDS, waits_for_one)?);
    Ok(())
}

/// The rank and the request of what a look finds due, if that is a delivery.
fn grant_due(hall: &Hall, process: u32) -> Option<(u32, Open)>
    ensures { IfSome result (λ due. (got : Reply) × IsDue (view_of hall.now) due.1 got) }
{
    match hall.look(process, 0) {
        Due::Told(reply) => {
            drop(reply);
            None
        }
        Due::Outcome(reply, _) => {
            drop(reply);
            None
        }
        Due::Granted { rank, open, .. } => Some((rank, open)),
    }
}

/// Whether a look finds this rank's delivery of the world's first instance due, for which so many
/// other requests are open. The request is then closed.
fn is_closed(hall: &mut Hall, process: u32, others: u64) -> bool {
    match grant_due(hall, process) {
        Some((rank, open)) => {
            hall.close(open);
            rank == process && open.comm == 0 && open.k == 0 && open.others == others
        }
        None => false,
    }
}

/// Whether a look finds nothing but that there is no such request.
fn is_unknown(hall: &Hall, process: u32) -> bool {
    let due = hall.look(process, 0);
    let is_unknown = matches!(&due, Due::Told(Reply::Refused(Refusal::NoSuchRequest)));
    drop(due);
    is_unknown
}

/// Whether two requests for a broadcast are closed, once each, and the others are told it still.
fn two_are_closed(alloc: Global, hall: &mut Hall) -> Result<bool, Fail> {
    asks_all(alloc, hall, BROADCAST)?;
    let closed = is_closed(hall, 1, 3) && is_closed(hall, 3, 2);
    let known = is_unknown(hall, 1) && !is_unknown(hall, 0);
    let other = answers(alloc, hall, &(2, Take(0), "delivered [5]"))?;
    let root = is_closed(hall, 0, 0);
    Ok(closed && known && other && root && is_unknown(hall, 0))
}

#[test]
fn a_request_is_closed_once(rt: HostRuntime) -> Result<(), Fail> {
    assert!(rt; at_a_hall(rt.alloc(), FRIENDS, two_are_closed)?);
    Ok(())
}

/// Four pages of numbers.
const WIDE: &[i128] = &[1; 4096];

/// All four trade these, by counts in vectors of 16 pages. One more such post is refused.
const TRADE: &[Line] = &[
    (0, Trade(16_384, "alpha", WIDE), "any"),
    (1, Trade(16_384, "alpha", WIDE), "any"),
    (2, Trade(16_384, "alpha", WIDE), "any"),
    (3, Trade(16_384, "alpha", WIDE), "any"),
    (0, Trade(16_384, "alpha", &[1]), "any"),
];

/// How often they trade.
const TRADES: u64 = 300;

/// Each process claims its request of that number.
fn all_claim(hall: &mut Hall, request: u64) {
    for process in 0..4 {
        let claim = hall.claim(process, request);
        let reply = finish(claim);
        drop(reply);
    }
}

/// How many more pages are resident after all trades, each claimed by all.
fn pages_of_trades<R: Files + AllocGlobal + Abort>(rt: &R, hall: &mut Hall) -> Result<u64, Fail> {
    let before = pages(rt, 1)?;
    for request in 0..TRADES {
        asks_all(rt.alloc(), hall, TRADE)?;
        all_claim(hall, request);
    }
    let after = pages(rt, 1)?;
    assert!(rt; hall.book().len() == 1500);
    Ok(after.saturating_sub(before))
}

/// How many more pages are resident after all trades in a hall that is opened with the policy,
/// before it is let go.
fn pages_at_a_hall<R: Files + AllocGlobal + Abort>(rt: &R, policy: &str) -> Result<u64, Fail> {
    let Ok(policy) = read_policy(rt.alloc(), policy.as_bytes()) else {
        return Err(Fail::from("the policy is not read"));
    };
    match Hall::open(rt.alloc(), policy) {
        Ok(mut hall) => {
            let more = pages_of_trades(rt, &mut hall);
            drop(hall);
            more
        }
        Err(_) => Err(Fail::from("no memory")),
    }
}

/// A hall gives back what was posted, whether it was granted, as at the friends', or denied: of 300
/// trades stays a book of some 50 pages. The vectors of an instance are 80 pages, of a refused post
/// 16, and the numbers of those that are barred 8, each 300 times.
#[test]
fn memory_is_given_back(rt: HostRuntime) -> Result<(), Fail> {
    let granted = pages_at_a_hall(&rt, FRIENDS)?;
    assert!(&rt; granted < 1024, "{granted} pages more");
    let denied = pages_at_a_hall(&rt, RIVALS)?;
    assert!(&rt; denied < 1024, "{denied} pages more");
    Ok(())
}

/// Whether `run_calls` answers a sum of four as it should, in so many halls one after another.
fn sums_often(alloc: Global, halls: u32) -> Result<bool, Fail> {
    for _ in 0..halls {
        if !runs(alloc, RIVALS, SUM_OF_FOUR)? {
            return Ok(false);
        }
    }
    Ok(true)
}

/// Whether `run_two` answers two such sums as it should, in so many pairs of halls.
fn pairs_often(alloc: Global, pairs: u32) -> Result<bool, Fail> {
    for _ in 0..pairs {
        if !both(alloc, AT_ONCE, Looked::Replies)? {
            return Ok(false);
        }
    }
    Ok(true)
}

/// Fewer than 256 pages more are resident than before.
fn expect_few_more<R: Files + AllocGlobal + Abort>(rt: &R, before: u64) -> Result<(), Fail> {
    let after = pages(rt, 1)?;
    assert!(rt;
        after < before.saturating_add(256),
        "{before} pages, then {after}"
    );
    Ok(())
}

/// Each of the halls lets go all that it has: its policy, what was posted and the book.
#[test]
fn halls_of_whole_runs_are_let_go(rt: HostRuntime) -> Result<(), Fail> {
    assert!(&rt; sums_often(rt.alloc(), 64)?);
    let before = pages(&rt, 1)?;
    assert!(&rt; sums_often(rt.alloc(), 4096)?);
    expect_few_more(&rt, before)
}

/// So does each of the two halls of a pair.
#[test]
fn halls_of_two_runs_are_let_go(rt: HostRuntime) -> Result<(), Fail> {
    assert!(&rt; pairs_often(rt.alloc(), 64)?);
    let before = pages(&rt, 1)?;
    assert!(&rt; pairs_often(rt.alloc(), 4096)?);
    expect_few_more(&rt, before)
}
