//! Books that are checked, and scripts that are replayed, under the policy that earlier books gave.
//!
//! A `match` in place of a `?` on what has a policy: the `?` writes the whole type out many times.

use crate::replays::{Case, is_replayed_under};
use crate::scripts::policy_of;
use audit_book::{BookFault, after_book, check_book, read_book};
use std::process::Abort;
use trial_kit::policies::BANKS_AND_CONSULTANTS;
use wall_labels::memory::Fuse;
use wall_policy::Policy;

// a0 and n0 have one communicator, and b0 and m0 another; n0 is sent data of alpha.
const ALPHA_TO_N0: &str = "book 1
post 0 0 split 0 0 gives 0 as none passed
post 1 0 split 1 0 gives 0 as none passed
post 2 0 split 0 0 gives 0 as none passed
post 3 0 split 1 0 gives 0 as none passed
verdict 0 0 made 1 2
post 0 1 bcast 0 int32 1 gives 1 as alpha passed
post 2 1 bcast 0 int32 1 gives 0 as none passed
verdict 1 0 granted
end 8
";

// n0 and m0 have one, and a0 and b0 another; n0 sends m0 what it writes as alpha.
const ALPHA_TO_M0: &str = "book 1
post 0 0 split 1 0 gives 0 as none passed
post 1 0 split 1 0 gives 0 as none passed
post 2 0 split 0 0 gives 0 as none passed
post 3 0 split 0 0 gives 0 as none passed
verdict 0 0 made 1 2
post 2 1 bcast 0 int32 1 gives 1 as alpha passed
post 3 1 bcast 0 int32 1 gives 0 as none passed
verdict 1 0 granted
end 8
";

// b0 and n0 have one, and a0 and m0 another; n0 is sent data of beta.
const BETA_TO_N0: &str = "book 1
post 0 0 split 1 0 gives 0 as none passed
post 1 0 split 0 0 gives 0 as none passed
post 2 0 split 0 0 gives 0 as none passed
post 3 0 split 1 0 gives 0 as none passed
verdict 0 0 made 1 2
post 1 1 bcast 0 int32 1 gives 1 as beta passed
post 2 1 bcast 0 int32 1 gives 0 as none passed
verdict 1 0 granted
end 8
";

// The same, denied.
const BETA_NOT_TO_N0: &str = "book 1
post 0 0 split 1 0 gives 0 as none passed
post 1 0 split 0 0 gives 0 as none passed
post 2 0 split 0 0 gives 0 as none passed
post 3 0 split 1 0 gives 0 as none passed
verdict 0 0 made 1 2
post 1 1 bcast 0 int32 1 gives 1 as beta passed
post 2 1 bcast 0 int32 1 gives 0 as none passed
verdict 1 0 denied simple n0 beta
end 8
";

// b0 and m0 have one, and a0 and n0 another; m0 may not be sent data of beta.
const BETA_NOT_TO_M0: &str = "book 1
post 0 0 split 1 0 gives 0 as none passed
post 1 0 split 0 0 gives 0 as none passed
post 2 0 split 1 0 gives 0 as none passed
post 3 0 split 0 0 gives 0 as none passed
verdict 0 0 made 1 2
post 1 1 bcast 0 int32 1 gives 1 as beta passed
post 3 1 bcast 0 int32 1 gives 0 as none passed
verdict 1 0 denied simple m0 beta
end 8
";

// n0 writes as nobody's, and then is sent data of alpha.
const PUBLIC_AND_THEN_ALPHA: &str = "book 1
post 0 0 split 0 1 gives 0 as none passed
post 1 0 split 1 0 gives 0 as none passed
post 2 0 split 0 0 gives 0 as none passed
post 3 0 split 1 0 gives 0 as none passed
verdict 0 0 made 1 2
post 2 1 bcast 0 int32 1 gives 1 as public passed
post 0 1 bcast 0 int32 1 gives 0 as none passed
verdict 1 0 granted
post 0 1 bcast 1 int32 1 gives 1 as alpha passed
post 2 1 bcast 1 int32 1 gives 0 as none passed
verdict 1 1 granted
end 11
";

const EMPTY: &str = "book 1\nend 0\n";

// The policy after one book more.
fn after_text(
    rt: &(impl AllocGlobal + Abort),
    policy: Policy,
    text: &str,
) -> Result<Policy, BookFault> {
    match read_book(rt.alloc(), &policy, text.as_bytes()) {
        Ok(book) => {
            let after = after_book(rt.alloc(), policy, &book);
            drop(book);
            after
        }
        Err(_) => panic!(rt; "no book: {text}"),
    }
}

// The policy after all of these books, or the fault of the first that has one.
fn after_all(rt: &(impl AllocGlobal + Abort), texts: &[&str]) -> Result<Policy, BookFault> {
    let mut policy = policy_of(rt, BANKS_AND_CONSULTANTS);
    for text in texts {
        policy = match after_text(rt, policy, text) {
            Ok(after) => after,
            Err(fault) => return Err(fault),
        };
    }
    Ok(policy)
}

fn judged(rt: &(impl AllocGlobal + Abort), policy: &Policy, text: &str) -> Result<(), BookFault> {
    match read_book(rt.alloc(), policy, text.as_bytes()) {
        Ok(book) => {
            let answer = check_book(rt.alloc(), policy, &book);
            drop(book);
            answer
        }
        Err(_) => panic!(rt; "no book: {text}"),
    }
}

// What is said of a book after these, or of the first of these that is not sound.
fn judged_after(
    rt: &(impl AllocGlobal + Abort),
    earlier: &[&str],
    text: &str,
) -> Result<(), BookFault> {
    match after_all(rt, earlier) {
        Ok(policy) => {
            let answer = judged(rt, &policy, text);
            drop(policy);
            answer
        }
        Err(fault) => Err(fault),
    }
}

// A verdict that is not what the posts give, at the end.
const BAD_VERDICT: Result<(), BookFault> = Err(BookFault::BadEntry(8));

// Earlier books, the oldest first, a book after them, and what is said of it.
const CHAINS: &[(&[&str], &str, Result<(), BookFault>)] = &[
    (&[], BETA_TO_N0, Ok(())),
    (&[], BETA_NOT_TO_N0, BAD_VERDICT),
    (&[ALPHA_TO_N0], BETA_TO_N0, BAD_VERDICT),
    (&[ALPHA_TO_N0], BETA_NOT_TO_N0, Ok(())),
    // What n0 held is not m0's.
    (&[ALPHA_TO_N0], BETA_NOT_TO_M0, BAD_VERDICT),
    // A book that tells nothing takes nothing back, nor does one with a denial.
    (&[ALPHA_TO_N0, EMPTY], BETA_NOT_TO_N0, Ok(())),
    (&[ALPHA_TO_N0, BETA_NOT_TO_N0], BETA_TO_N0, BAD_VERDICT),
    // Through n0 m0 holds alpha.
    (&[ALPHA_TO_N0, ALPHA_TO_M0], BETA_NOT_TO_M0, Ok(())),
    (&[ALPHA_TO_M0], BETA_NOT_TO_M0, Ok(())),
    // The first that is not sound ends it.
    (&[ALPHA_TO_N0, BETA_TO_N0], EMPTY, BAD_VERDICT),
    // The same book twice.
    (&[ALPHA_TO_N0], ALPHA_TO_N0, Ok(())),
    (&[], PUBLIC_AND_THEN_ALPHA, Ok(())),
    (
        &[PUBLIC_AND_THEN_ALPHA],
        PUBLIC_AND_THEN_ALPHA,
        Err(BookFault::BadEntry(6)),
    ),
];

#[test]
fn books_are_judged_after_books(rt: HostRuntime) {
    for (earlier, text, answer) in CHAINS {
        assert!(rt; judged_after(&rt, earlier, text) == *answer, "{text}");
    }
}

// A run in which b0 sends n0 data of beta.
const SCRIPT: &[u8] = b"post 0 0 split 1 0
post 1 0 split 0 0
post 2 0 split 0 0
post 3 0 split 1 0
post 1 1 bcast 0 int32 1 as beta 20
post 2 1 bcast 0 int32 1
take 2 1
";

const DELIVERED: &[u8] = b"posted 0
posted 0
posted 0
posted 0
posted 1
posted 1
delivered [20]
";

const DENIED: &[u8] = b"posted 0
posted 0
posted 0
posted 0
posted 1
posted 1
denied simple n0 beta
";

// Earlier books, and what a run after them is told.
const RUNS: &[(&[&str], &[u8])] = &[(&[], DELIVERED), (&[ALPHA_TO_N0], DENIED)];

#[test]
fn runs_begin_where_books_end(rt: HostRuntime) {
    for (earlier, replies) in RUNS {
        let case = Case {
            script: SCRIPT,
            replies,
            reads: Fuse::Whole,
            writes: Fuse::Whole,
            fault: None,
        };
        match after_all(&rt, earlier) {
            Ok(policy) => assert!(&rt; is_replayed_under(&rt, policy, &case)),
            Err(_) => panic!(&rt; "an earlier book is not sound"),
        }
    }
}
