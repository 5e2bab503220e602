//! Earlier books under a policy to which processes were added since they were written.
use audit_book::{BookFault, after_book, read_book};
use book_chain::Chain;
use std::process::Abort;
use trial_kit::policies::BANKS_AND_CONSULTANTS;
use wall_policy::{Policy, read_policy};

// The first process was alone.
const ALONE: &str = "book 1
post 0 0 barrier gives 0 as none passed
verdict 0 0 granted
end 2
";

// There were two processes.
const OF_TWO: &str = "book 1
post 0 0 barrier gives 0 as none passed
post 1 0 barrier gives 0 as none passed
verdict 0 0 granted
end 3
";

// There were three, and a0 sent n0 data of alpha.
const OF_THREE: &str = "book 1
post 0 0 split 0 0 gives 0 as none passed
post 1 0 split 1 0 gives 0 as none passed
post 2 0 split 0 0 gives 0 as none passed
verdict 0 0 made 1 2
post 0 1 bcast 0 int32 1 gives 1 as alpha passed
post 2 1 bcast 0 int32 1 gives 0 as none passed
verdict 1 0 granted
end 7
";

// The same, denied.
const NOT_OF_THREE: &str = "book 1
post 0 0 split 0 0 gives 0 as none passed
post 1 0 split 1 0 gives 0 as none passed
post 2 0 split 0 0 gives 0 as none passed
verdict 0 0 made 1 2
post 0 1 bcast 0 int32 1 gives 1 as alpha passed
post 2 1 bcast 0 int32 1 gives 0 as none passed
verdict 1 0 denied simple n0 alpha
end 7
";

// There were four, and b0 sent n0 data of beta.
const BETA_TO_N0: &str = "book 1
post 0 0 split 1 0 gives 0 as none passed
post 1 0 split 0 0 gives 0 as none passed
post 2 0 split 0 0 gives 0 as none passed
post 3 0 split 1 0 gives 0 as none passed
verdict 0 0 made 1 2
post 1 1 bcast 0 int32 1 gives 1 as beta passed
post 2 1 bcast 0 int32 1 gives 0 as none passed
verdict 1 0 granted
end 8
";

// The same, denied.
const BETA_NOT_TO_N0: &str = "book 1
post 0 0 split 1 0 gives 0 as none passed
post 1 0 split 0 0 gives 0 as none passed
post 2 0 split 0 0 gives 0 as none passed
post 3 0 split 1 0 gives 0 as none passed
verdict 0 0 made 1 2
post 1 1 bcast 0 int32 1 gives 1 as beta passed
post 2 1 bcast 0 int32 1 gives 0 as none passed
verdict 1 0 denied simple n0 beta
end 8
";

// All of two have posted, and one of three or more.
const TWO_WAIT: &str = "book 1
post 0 0 barrier gives 0 as none passed
post 1 0 barrier gives 0 as none passed
end 2
";

// The last process has posted, and nobody else.
const LAST_WAITS: &str = "book 1
post 3 0 barrier gives 0 as none passed
end 1
";

const EMPTY: &str = "book 1\nend 0\n";

fn wall(rt: &(impl AllocGlobal + Abort)) -> Policy {
    match read_policy(rt.alloc(), BANKS_AND_CONSULTANTS.as_bytes()) {
        Ok(policy) => policy,
        Err(_) => panic!(rt; "the policy is not read"),
    }
}

// The chain with one book more.
fn with_text(
    rt: &(impl AllocGlobal + Abort),
    chain: Chain,
    text: &str,
) -> Result<Chain, BookFault> {
    match read_book(rt.alloc(), chain.wall(), text.as_bytes()) {
        Ok(book) => {
            let longer = chain.add(rt.alloc(), &book);
            drop(book);
            longer
        }
        Err(_) => panic!(rt; "no book: {text}"),
    }
}

// The policy after all of these books, or the fault of the first that has one.
fn after_all(rt: &(impl AllocGlobal + Abort), texts: &[&str]) -> Result<Policy, BookFault> {
    let mut chain = Chain::begin(wall(rt));
    for text in texts {
        // (a `?` writes the type of what has a policy out many times)
        chain = match with_text(rt, chain, text) {
            Ok(longer) => longer,
            Err(fault) => return Err(fault),
        };
    }
    Ok(chain.policy())
}

// The number of the entry that is told as bad of these books, the oldest first, if one is.
fn bad_entry(rt: &(impl AllocGlobal + Abort), texts: &[&str]) -> Option<u64> {
    match after_all(rt, texts) {
        Ok(policy) => {
            drop(policy);
            None
        }
        Err(BookFault::BadEntry(number)) => Some(number),
        Err(BookFault::NoMemory) => panic!(rt; "out of memory"),
    }
}

// Books in a row, and the bad entry that is told of the first that has one.
const CHAINS: &[(&[&str], Option<u64>)] = &[
    (&[], None),
    (&[ALONE], None),
    (&[OF_TWO], None),
    (&[OF_THREE], None),
    (&[BETA_TO_N0], None),
    // The number of processes grows from book to book.
    (&[ALONE, OF_TWO, OF_THREE, BETA_NOT_TO_N0], None),
    (&[OF_TWO, BETA_TO_N0], None),
    // What n0 was given when there were three, it holds when there are four.
    (&[OF_THREE, BETA_TO_N0], Some(8)),
    (&[OF_THREE, BETA_NOT_TO_N0], None),
    (&[ALONE, OF_THREE, OF_THREE, BETA_TO_N0], Some(8)),
    // It never falls: under four a book of three has an outcome that is not due.
    (&[BETA_TO_N0, OF_THREE], Some(4)),
    (&[OF_THREE, OF_TWO], Some(3)),
    // A book without an outcome is of any number that it is sound under, and forgets nothing.
    (&[EMPTY], None),
    (&[TWO_WAIT], None),
    (&[LAST_WAITS], None),
    (&[OF_THREE, EMPTY, TWO_WAIT, BETA_NOT_TO_N0], None),
    (&[OF_THREE, EMPTY, TWO_WAIT, BETA_TO_N0], Some(8)),
    (&[TWO_WAIT, OF_THREE], None),
    // Behind one of two that wait there are three.
    (&[TWO_WAIT, OF_TWO], Some(3)),
    (&[LAST_WAITS, OF_THREE], Some(4)),
    // A book that is sound under no number is told as under all.
    (&[NOT_OF_THREE], Some(4)),
    (&[BETA_NOT_TO_N0], Some(8)),
];

#[test]
fn books_of_fewer_processes_are_read(rt: HostRuntime) {
    for (texts, answer) in CHAINS {
        assert!(rt; bad_entry(&rt, texts) == *answer);
    }
}

// Whether the policy says that the process held the dataset before.
fn held(policy: &Policy, process: u32, dataset: u32) -> bool {
    for (of, what) in policy.held() {
        if of.number() == process && what.number() == dataset {
            return true;
        }
    }
    false
}

#[test]
fn all_processes_stand_behind_the_books(rt: HostRuntime) {
    match after_all(&rt, &[OF_TWO, OF_THREE]) {
        Ok(policy) => {
            assert!(rt; policy.processes() == 4);
            assert!(rt; held(&policy, 2, 0) && !held(&policy, 2, 1) && !held(&policy, 3, 0));
            assert!(rt; held(&policy, 0, 0) && held(&policy, 1, 1) && !held(&policy, 1, 0));
            drop(policy);
        }
        Err(_) => panic!(rt; "a book is not sound"),
    }
}

// The policy after a book by the other way, without a chain.
fn after_one(rt: &(impl AllocGlobal + Abort), text: &str) -> Policy {
    let policy = wall(rt);
    let Ok(book) = read_book(rt.alloc(), &policy, text.as_bytes()) else {
        panic!(rt; "no book: {text}");
    };
    let after = after_book(rt.alloc(), policy, &book);
    drop(book);
    match after {
        Ok(after) => after,
        Err(_) => panic!(rt; "the book is not sound"),
    }
}

#[test]
fn what_was_held_before_was_of_all_processes(rt: HostRuntime) {
    let chain = Chain::begin(after_one(&rt, BETA_TO_N0));
    match with_text(&rt, chain, OF_THREE) {
        Ok(_) => panic!(rt; "a book of three is sound under four"),
        Err(fault) => assert!(rt; fault == BookFault::BadEntry(4)),
    }
}
