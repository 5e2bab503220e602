//! Books that go on under the policy file of a later day.
use audit_book::{BookFault, after_book, read_book};
use book_chain::{GrowthFault, next_policy};
use std::process::Abort;
use wall_labels::{DatasetId, ProcessId};
use wall_policy::{Policy, read_policy};

pub(crate) const DAY_ONE: &str = r#"version = 2
[[class]]
name = "banks"
datasets = ["alpha", "beta"]
[[process]]
name = "a0"
home = "alpha"
[[process]]
name = "n0"
"#;

// A class in front, a bank before the others, and b0 behind the others.
pub(crate) const DAY_TWO: &str = r#"version = 2
[[class]]
name = "oil"
datasets = ["crude"]
[[class]]
name = "banks"
datasets = ["gamma", "alpha", "beta"]
[[process]]
name = "a0"
home = "alpha"
[[process]]
name = "n0"
[[process]]
name = "b0"
home = "beta"
"#;

// a0 sends n0 data of alpha.
pub(crate) const ALPHA_TO_N0: &str = "book 2
post 0 0 bcast 0 int32 1 gives 1 as alpha passed
post 1 0 bcast 0 int32 1 gives 0 as none passed
verdict 0 0 granted
end 3
";

// The day after, b0 would send n0 data of beta.
pub(crate) const BETA_NOT_TO_N0: &str = "book 2
post 0 0 split 1 0 gives 0 as none passed
post 1 0 split 0 0 gives 0 as none passed
post 2 0 split 0 0 gives 0 as none passed
verdict 0 0 made 1 2
post 1 1 bcast 1 int32 1 gives 0 as none passed
post 2 1 bcast 1 int32 1 gives 1 as beta passed
verdict 1 0 denied simple n0 beta
end 7
";

fn wall(rt: &(impl AllocGlobal + Abort), text: &str) -> Policy {
    match read_policy(rt.alloc(), text.as_bytes()) {
        Ok(policy) => policy,
        Err(_) => panic!(rt; "the policy is not read"),
    }
}

// The policy after a book under this one, or the entry that is told as bad.
fn after(rt: &(impl AllocGlobal + Abort), policy: Policy, text: &str) -> Result<Policy, u64> {
    let book = match read_book(rt.alloc(), &policy, text.as_bytes()) {
        Ok(book) => book,
        Err(_) => panic!(rt; "no book: {text}"),
    };
    let after = after_book(rt.alloc(), policy, &book);
    drop(book);
    match after {
        Ok(after) => Ok(after),
        Err(BookFault::BadEntry(number)) => Err(number),
        Err(BookFault::NoMemory) => panic!(rt; "out of memory"),
    }
}

// Whether the book of the second day is sound under this policy.
fn is_sound(rt: &(impl AllocGlobal + Abort), policy: Policy) -> bool {
    match after(rt, policy, BETA_NOT_TO_N0) {
        Ok(after) => {
            drop(after);
            true
        }
        Err(number) => {
            assert!(rt; number == 7);
            false
        }
    }
}

/// What n0 was given on the first day closes it to the rival on the second, though the file of that
/// day numbers the datasets otherwise.
#[test]
fn what_was_held_goes_on(rt: HostRuntime) {
    let one = after(&rt, wall(&rt, DAY_ONE), ALPHA_TO_N0).expect(&rt, "not sound");
    let file = wall(&rt, DAY_TWO);
    let next = match next_policy(rt.alloc(), &one, &file) {
        Ok(next) => next,
        Err(_) => panic!(&rt; "not grown"),
    };
    assert!(&rt; next.dataset_named("alpha") == DatasetId::new(0));
    assert!(&rt; next.dataset_named("gamma") == DatasetId::new(3));
    let pair = (ProcessId::new(1), DatasetId::new(0));
    assert!(&rt;
        next.held()
            .iter()
            .any(|held| (Some(held.0), Some(held.1)) == pair)
    );
    assert!(&rt; is_sound(&rt, next));
    // By itself the file of the second day knows of nothing.
    assert!(&rt; !is_sound(&rt, file));
    drop(one);
}

// Whether the fault is of the process of this number.
fn is_of_process(fault: GrowthFault, number: u32) -> bool {
    match fault {
        GrowthFault::Process(process) => process.number() == number,
        _ => false,
    }
}

/// A file that takes something away is told by that.
#[test]
fn what_is_not_kept_is_told(rt: HostRuntime) {
    let two = wall(&rt, DAY_TWO);
    let one = wall(&rt, DAY_ONE);
    match next_policy(rt.alloc(), &two, &one) {
        Err(fault) => assert!(&rt; is_of_process(fault, 2)),
        Ok(next) => {
            drop(next);
            panic!(&rt; "b0 is gone, and nothing is told")
        }
    }
    drop(one);
    drop(two);
}
