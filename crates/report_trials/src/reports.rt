//! Reports of books, worked by hand from the books and the rules.

use crate::walls::{CONSULTANTS, FOUR_BANKS, LONG, policy};
use audit_book::{BookFault, after_book, read_book};
use report_text::{given_text, report_text};
use std::process::Abort;
use std::test::Fail;
use wall_policy::Policy;

// The run of `docs/policies/consultants.txt`.
pub(crate) const OF_CONSULTANTS: &str = "book 2
post 0 0 create 0,3 gives 0 as none passed
post 1 0 create 0,3 gives 0 as none passed
post 2 0 create 0,3 gives 0 as none passed
post 3 0 create 0,3 gives 0 as none passed
verdict 0 0 made 1 1
post 0 0 create 1,3 gives 0 as none passed
post 1 0 create 1,3 gives 0 as none passed
post 2 0 create 1,3 gives 0 as none passed
post 3 0 create 1,3 gives 0 as none passed
verdict 0 1 made 2 1
post 0 0 create 2,3 gives 0 as none passed
post 1 0 create 2,3 gives 0 as none passed
post 2 0 create 2,3 gives 0 as none passed
post 3 0 create 2,3 gives 0 as none passed
verdict 0 2 made 3 1
post 0 1 bcast 0 int32 1 gives 1 as alpha passed
post 3 1 bcast 0 int32 1 gives 0 as none passed
verdict 1 0 granted
post 1 2 bcast 0 int32 1 gives 1 as beta passed
post 3 2 bcast 0 int32 1 gives 0 as none passed
verdict 2 0 denied simple consultant beta
post 2 3 bcast 0 int32 1 gives 1 as crude passed
post 3 3 bcast 0 int32 1 gives 0 as none passed
verdict 3 0 granted
post 3 1 bcast 1 int32 1 gives 1 as alpha barred
post 0 1 bcast 1 int32 1 gives 0 as none passed
verdict 1 1 denied star consultant alpha
post 3 3 bcast 1 int32 1 gives 1 as crude barred
post 0 1 bcast 0 int32 1 gives 1 as alpha passed
post 3 1 bcast 0 int32 1 gives 0 as none passed
verdict 1 2 granted
end 31
";

// Names of 32 bytes: what has no room in 100 columns is folded.
const OF_LONG: &str = "book 2
post 0 0 create 0,2 gives 0 as none passed
post 1 0 create 0,2 gives 0 as none passed
post 2 0 create 0,2 gives 0 as none passed
verdict 0 0 made 1 1
post 0 1 bcast 0 int32 1 gives 1 as alpha-alpha-alpha-alpha-alpha-32 passed
post 2 1 bcast 0 int32 1 gives 0 as none passed
verdict 1 0 granted
post 0 0 bcast 0 int32 1 gives 1 as alpha-alpha-alpha-alpha-alpha-32 passed
post 1 0 bcast 0 int32 1 gives 0 as none passed
post 2 0 bcast 0 int32 1 gives 0 as none passed
verdict 0 1 denied simple right-right-right-right-right-32 alpha-alpha-alpha-alpha-alpha-32
post 2 0 bcast 2 int32 1 gives 1 as beta-beta-beta-beta-beta-beta-32 barred
post 0 0 bcast 2 int32 1 gives 0 as none passed
post 1 0 bcast 2 int32 1 gives 0 as none passed
verdict 0 2 denied star third-third-third-third-third-32 beta-beta-beta-beta-beta-beta-32
end 15
";

// The same names: the gather would bring the data of two rivals to the third process.
const OF_LONG_RIVALS: &str = "book 2
post 0 0 gather 2 int32 1 gives 1 as alpha-alpha-alpha-alpha-alpha-32 passed
post 1 0 gather 2 int32 1 gives 1 as beta-beta-beta-beta-beta-beta-32 passed
post 2 0 gather 2 int32 1 gives 1 as public passed
verdict 0 0 denied simple third-third-third-third-third-32 beta-beta-beta-beta-beta-beta-32
end 4
";

// Without a home, n0 writes under a label that it chooses, and d0 may not do so. The gather would
// bring the data of two rivals to n0.
pub(crate) const OF_FOUR_BANKS: &str = "book 2
post 4 0 gather 4 int32 1 gives 1 as public passed
post 0 0 gather 4 int32 1 gives 1 as alpha passed
post 1 0 gather 4 int32 1 gives 1 as beta passed
post 2 0 gather 4 int32 1 gives 1 as gamma passed
post 3 0 gather 4 int32 1 gives 1 as delta passed
verdict 0 0 denied simple n0 beta
post 4 0 allgather int32 1 gives 1 as alpha passed
post 3 0 allgather int32 1 gives 1 as public barred
end 8
";

// Sums of all four banks: one for everybody, and one for n0 alone.
pub(crate) const OF_SUMS: &str = "book 2
post 0 0 allreduce sum int64 1 gives 1 as alpha passed
post 1 0 allreduce sum int64 1 gives 1 as beta passed
post 2 0 allreduce sum int64 1 gives 1 as gamma passed
post 3 0 allreduce sum int64 1 gives 1 as delta passed
post 4 0 allreduce sum int64 1 gives 1 as public passed
verdict 0 0 granted
post 4 0 reduce 4 sum int64 1 gives 1 as public passed
post 3 0 reduce 4 sum int64 1 gives 1 as delta passed
post 2 0 reduce 4 sum int64 1 gives 1 as gamma passed
post 1 0 reduce 4 sum int64 1 gives 1 as beta passed
post 0 0 reduce 4 sum int64 1 gives 1 as alpha passed
verdict 0 1 granted
end 12
";

// Reads the book.
fn is_told(
    rt: &(impl AllocGlobal + Abort),
    policy: &Policy,
    book: &str,
    expected: &str,
) -> Result<(), Fail> {
    match read_book(rt.alloc(), policy, book.as_bytes()) {
        Ok(book) => {
            let said = report_text(rt.alloc(), policy, &book);
            drop(book);
            match said {
                Ok(text) => are_lines(rt, &text, expected),
                Err(_) => panic!(rt; "the book has no report"),
            }
        }
        Err(_) => panic!(rt; "the book is not read"),
    }
}

// The same under the policy of a text.
fn is_told_under(
    rt: &(impl AllocGlobal + Abort),
    wall: &str,
    book: &str,
    expected: &str,
) -> Result<(), Fail> {
    let policy = policy(rt, wall);
    let ended = is_told(rt, &policy, book, expected);
    drop(policy);
    ended
}

// Reads the book of a run: what it gave.
fn is_given(
    rt: &(impl AllocGlobal + Abort),
    policy: &Policy,
    book: &str,
    run: u64,
    expected: &str,
) -> Result<(), Fail> {
    match read_book(rt.alloc(), policy, book.as_bytes()) {
        Ok(book) => {
            let said = given_text(rt.alloc(), policy, &book, run);
            drop(book);
            match said {
                Ok(text) => are_lines(rt, &text, expected),
                Err(_) => panic!(rt; "the book is not sound"),
            }
        }
        Err(_) => panic!(rt; "the book is not read"),
    }
}

// The same under the policy of a text.
fn is_given_under(
    rt: &(impl AllocGlobal + Abort),
    wall: &str,
    book: &str,
    run: u64,
    expected: &str,
) -> Result<(), Fail> {
    let policy = policy(rt, wall);
    let ended = is_given(rt, &policy, book, run, expected);
    drop(policy);
    ended
}

// The text is this one, and no line of it has more than 100 columns.
fn are_lines(rt: &(impl AllocGlobal + Abort), text: &[u8], expected: &str) -> Result<(), Fail> {
    assert_eq!(rt; text, expected.as_bytes());
    let mut column: u32 = 0;
    for byte in text {
        column = if *byte == b'\n' {
            0
        } else {
            column.saturating_add(1)
        };
        assert!(rt; column <= 100);
    }
    Ok(())
}

// The fault of a report, none where there is one.
fn fault_of(rt: &(impl AllocGlobal + Abort), policy: &Policy, book: &str) -> Option<BookFault> {
    match read_book(rt.alloc(), policy, book.as_bytes()) {
        Ok(book) => {
            let said = report_text(rt.alloc(), policy, &book);
            drop(book);
            match said {
                Ok(text) => {
                    drop(text);
                    None
                }
                Err(fault) => Some(fault),
            }
        }
        Err(_) => panic!(rt; "the book is not read"),
    }
}

#[test]
fn consultants(rt: HostRuntime) -> Result<(), Fail> {
    is_told_under(
        &rt,
        CONSULTANTS,
        OF_CONSULTANTS,
        "who holds what, and by which entry:
0: a0 holds alpha: its home
0: b0 holds beta: its home
0: c0 holds crude: its home
17: consultant holds alpha: bcast 1 0 from a0
23: consultant holds crude: bcast 3 0 from c0

who is in which communicator:
communicator 0, rank 0: a0
communicator 0, rank 1: b0
communicator 0, rank 2: c0
communicator 0, rank 3: consultant
communicator 1, rank 0: a0
communicator 1, rank 1: consultant
communicator 2, rank 0: b0
communicator 2, rank 1: consultant
communicator 3, rank 0: c0
communicator 3, rank 1: consultant

how each instance came out:
instance 0 0, create by entry 4: made 1 1
instance 0 1, create by entry 9: made 2 1
instance 0 2, create by entry 14: made 3 1
instance 1 0, bcast by entry 17: granted
instance 2 0, bcast by entry 20: denied simple consultant beta
instance 3 0, bcast by entry 23: granted
instance 1 1, bcast by entry 26: denied star consultant alpha
instance 1 2, bcast by entry 30: granted

whose results were sanitised:

which instances wait, and for whom:
instance 3 1, bcast: c0 is missing
instance 3 1, bcast: consultant posted by entry 28

why posts were barred:
entry 25: consultant may not post under alpha: it holds crude
entry 28: consultant may not post under crude: it holds alpha

why instances were denied:
instance 2 0 was denied: consultant holds alpha; beta would come from b0 by entry 19
instance 1 1 was denied: entry 25 was barred; consultant may not post under alpha
",
    )
}

#[test]
fn long_names(rt: HostRuntime) -> Result<(), Fail> {
    is_told_under(
        &rt,
        LONG,
        OF_LONG,
        "who holds what, and by which entry:
0: left-left-left-left-left-left-32 holds alpha-alpha-alpha-alpha-alpha-32: its home
0: right-right-right-right-right-32 holds beta-beta-beta-beta-beta-beta-32: its home
6: third-third-third-third-third-32 holds alpha-alpha-alpha-alpha-alpha-32:
  bcast 1 0 from left-left-left-left-left-left-32

who is in which communicator:
communicator 0, rank 0: left-left-left-left-left-left-32
communicator 0, rank 1: right-right-right-right-right-32
communicator 0, rank 2: third-third-third-third-third-32
communicator 1, rank 0: left-left-left-left-left-left-32
communicator 1, rank 1: third-third-third-third-third-32

how each instance came out:
instance 0 0, create by entry 3: made 1 1
instance 1 0, bcast by entry 6: granted
instance 0 1, bcast by entry 10:
  denied simple right-right-right-right-right-32 alpha-alpha-alpha-alpha-alpha-32
instance 0 2, bcast by entry 14:
  denied star third-third-third-third-third-32 beta-beta-beta-beta-beta-beta-32

whose results were sanitised:

why posts were barred:
entry 12: third-third-third-third-third-32 may not post under beta-beta-beta-beta-beta-beta-32:
  it holds alpha-alpha-alpha-alpha-alpha-32

why instances were denied:
instance 0 1 was denied:
  right-right-right-right-right-32 holds beta-beta-beta-beta-beta-beta-32 (home);
  alpha-alpha-alpha-alpha-alpha-32 would come from left-left-left-left-left-left-32 by entry 8
instance 0 2 was denied:
  entry 12 was barred;
  third-third-third-third-third-32 may not post under beta-beta-beta-beta-beta-beta-32
",
    )
}

#[test]
fn two_rivals_with_long_names(rt: HostRuntime) -> Result<(), Fail> {
    is_told_under(
        &rt,
        LONG,
        OF_LONG_RIVALS,
        "who holds what, and by which entry:
0: left-left-left-left-left-left-32 holds alpha-alpha-alpha-alpha-alpha-32: its home
0: right-right-right-right-right-32 holds beta-beta-beta-beta-beta-beta-32: its home

who is in which communicator:
communicator 0, rank 0: left-left-left-left-left-left-32
communicator 0, rank 1: right-right-right-right-right-32
communicator 0, rank 2: third-third-third-third-third-32

how each instance came out:
instance 0 0, gather by entry 3:
  denied simple third-third-third-third-third-32 beta-beta-beta-beta-beta-beta-32

whose results were sanitised:

why posts were barred:

why instances were denied:
instance 0 0 was denied:
  third-third-third-third-third-32 would get two rivals:
  alpha-alpha-alpha-alpha-alpha-32 from left-left-left-left-left-left-32 by entry 1,
  beta-beta-beta-beta-beta-beta-32 from right-right-right-right-right-32 by entry 2
",
    )
}

#[test]
fn two_rivals_at_once(rt: HostRuntime) -> Result<(), Fail> {
    is_told_under(
        &rt,
        FOUR_BANKS,
        OF_FOUR_BANKS,
        "who holds what, and by which entry:
0: a0 holds alpha: its home
0: b0 holds beta: its home
0: g0 holds gamma: its home
0: d0 holds delta: its home
7: n0 holds alpha: own post

who is in which communicator:
communicator 0, rank 0: a0
communicator 0, rank 1: b0
communicator 0, rank 2: g0
communicator 0, rank 3: d0
communicator 0, rank 4: n0

how each instance came out:
instance 0 0, gather by entry 5: denied simple n0 beta

whose results were sanitised:

which instances wait, and for whom:
instance 0 1, allgather: a0 is missing
instance 0 1, allgather: b0 is missing
instance 0 1, allgather: g0 is missing
instance 0 1, allgather: d0 posted by entry 8
instance 0 1, allgather: n0 posted by entry 7

why posts were barred:
entry 8: d0 may not post under public: it holds delta

why instances were denied:
instance 0 0 was denied: n0 would get two rivals: alpha from a0 by entry 2, beta from b0 by entry 3
",
    )
}

// Sanitised results charge nothing: n0 holds nothing at the end.
#[test]
fn sums_of_four_banks(rt: HostRuntime) -> Result<(), Fail> {
    is_told_under(
        &rt,
        FOUR_BANKS,
        OF_SUMS,
        "who holds what, and by which entry:
0: a0 holds alpha: its home
0: b0 holds beta: its home
0: g0 holds gamma: its home
0: d0 holds delta: its home

who is in which communicator:
communicator 0, rank 0: a0
communicator 0, rank 1: b0
communicator 0, rank 2: g0
communicator 0, rank 3: d0
communicator 0, rank 4: n0

how each instance came out:
instance 0 0, allreduce by entry 5: granted
instance 0 1, reduce by entry 11: granted

whose results were sanitised:
instance 0 0, allreduce by entry 5: a0
instance 0 0, allreduce by entry 5: b0
instance 0 0, allreduce by entry 5: g0
instance 0 0, allreduce by entry 5: d0
instance 0 0, allreduce by entry 5: n0
instance 0 1, reduce by entry 11: n0

why posts were barred:

why instances were denied:
",
    )
}

// What a run gave, as a report on a later one tells it.
#[test]
fn given_by_earlier_runs(rt: HostRuntime) -> Result<(), Fail> {
    is_given_under(
        &rt,
        CONSULTANTS,
        OF_CONSULTANTS,
        12,
        "run 12, entry 17: consultant holds alpha: bcast 1 0 from a0
run 12, entry 23: consultant holds crude: bcast 3 0 from c0
",
    )?;
    let told = "run 1, entry 7: n0 holds alpha: own post\n";
    is_given_under(&rt, FOUR_BANKS, OF_FOUR_BANKS, 1, told)?;
    is_given_under(&rt, FOUR_BANKS, "book 2\nend 0\n", 1, "")?;
    is_given_under(
        &rt,
        LONG,
        OF_LONG,
        9999999,
        "run 9999999, entry 6: third-third-third-third-third-32 holds alpha-alpha-alpha-alpha-alpha-32:
  bcast 1 0 from left-left-left-left-left-left-32
",
    )
}

// The policy after a book.
fn after(rt: &(impl AllocGlobal + Abort), policy: Policy, text: &str) -> Policy {
    let after = match read_book(rt.alloc(), &policy, text.as_bytes()) {
        Ok(book) => {
            let after = after_book(rt.alloc(), policy, &book);
            drop(book);
            after
        }
        Err(_) => panic!(rt; "the book is not read"),
    };
    match after {
        Ok(policy) => policy,
        Err(_) => panic!(rt; "the book is not sound"),
    }
}

// What an earlier book gave is held before, and no later run gives it.
#[test]
fn held_before(rt: HostRuntime) -> Result<(), Fail> {
    let earlier = "book 2\npost 4 0 bcast 4 int32 1 gives 1 as gamma passed\nend 1\n";
    let policy = after(&rt, policy(&rt, FOUR_BANKS), earlier);
    let ended = is_held_before(&rt, &policy);
    drop(policy);
    ended
}

fn is_held_before(rt: &(impl AllocGlobal + Abort), policy: &Policy) -> Result<(), Fail> {
    is_given(rt, policy, "book 2\nend 0\n", 2, "")?;
    is_told(
        rt,
        policy,
        "book 2\nend 0\n",
        "who holds what, and by which entry:
0: a0 holds alpha: its home
0: b0 holds beta: its home
0: g0 holds gamma: its home
0: d0 holds delta: its home
0: n0 holds gamma: held before

who is in which communicator:
communicator 0, rank 0: a0
communicator 0, rank 1: b0
communicator 0, rank 2: g0
communicator 0, rank 3: d0
communicator 0, rank 4: n0

how each instance came out:

whose results were sanitised:

why posts were barred:

why instances were denied:
",
    )
}

// A book that is not sound has no report.
#[test]
fn unsound_books(rt: HostRuntime) -> Result<(), Fail> {
    let policy = policy(&rt, FOUR_BANKS);
    let book = "book 2\npost 0 0 bcast 0 int32 1 gives 1 as alpha barred\nend 1\n";
    let of_barred = fault_of(&rt, &policy, book);
    let of_empty = fault_of(&rt, &policy, "book 2\nend 0\n");
    drop(policy);
    assert!(&rt; of_barred == Some(BookFault::BadEntry(1)));
    assert!(&rt; of_empty == None);
    Ok(())
}
