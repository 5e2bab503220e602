//! What books tell, worked by hand from the rules.

use crate::reports::OF_SUMS;
use crate::stored::{
    BANKS_AND_OIL, BROADCAST, GATHERED_AS_PUBLIC, GATHERED_FROM_RIVALS, STANDING, TWO_TABLES,
    UNSOUND,
};
use crate::walls::{FOUR_BANKS, policy};
use audit_book::read_book;
use book_report::{
    Bar, Book, BookFault, Denial, Reason, Report, Row, Sanitised, Source, Wait, Way,
};
use std::process::Abort;
use std::test::Fail;
use wall_labels::{DatasetId, Label, ProcessId};
use wall_policy::Policy;

// The processes and datasets of the policy.
#[derive(Clone, Copy)]
struct Names {
    a0: ProcessId,
    b0: ProcessId,
    c0: ProcessId,
    n0: ProcessId,
    alpha: DatasetId,
    beta: DatasetId,
    crude: DatasetId,
}

fn all_names(rt: &impl Abort) -> Names {
    Names {
        a0: ProcessId::new(0).expect(rt, "a process"),
        b0: ProcessId::new(1).expect(rt, "a process"),
        c0: ProcessId::new(2).expect(rt, "a process"),
        n0: ProcessId::new(3).expect(rt, "a process"),
        alpha: DatasetId::new(0).expect(rt, "a dataset"),
        beta: DatasetId::new(1).expect(rt, "a dataset"),
        crude: DatasetId::new(2).expect(rt, "a dataset"),
    }
}

fn row(process: ProcessId, dataset: DatasetId, entry: u64, way: Way) -> Row {
    Row {
        process,
        dataset,
        entry,
        way,
    }
}

// The book of a text.
fn book(rt: &(impl AllocGlobal + Abort), policy: &Policy, text: &str) -> Book {
    match read_book(rt.alloc(), policy, text.as_bytes()) {
        Ok(book) => book,
        Err(_) => panic!(rt; "no book: {text:?}"),
    }
}

// What a sound book tells.
fn report(rt: &(impl AllocGlobal + Abort), policy: &Policy, book: &Book) -> Report {
    match Report::of(rt.alloc(), policy, book) {
        Ok(report) => report,
        Err(fault) => panic!(rt; "{fault}"),
    }
}

// Who holds what, which posts were barred, and which instances denied.
fn tells(
    rt: &(impl AllocGlobal + Abort),
    text: &str,
    rows: &[Row],
    bars: &[Bar],
    denied: &[Denial],
) -> Result<(), Fail> {
    let policy = policy(rt, BANKS_AND_OIL);
    let book = book(rt, &policy, text);
    let found = report(rt, &policy, &book);
    assert_eq!(rt; found.rows.as_slice(), rows, "in {text:?}");
    assert_eq!(rt; found.bars.as_slice(), bars, "in {text:?}");
    assert_eq!(rt; found.denials.as_slice(), denied, "in {text:?}");
    drop(found);
    drop(book);
    drop(policy);
    Ok(())
}

#[test]
fn a_broadcast_to_a_rival(rt: HostRuntime) -> Result<(), Fail> {
    let n = all_names(&rt);
    let rows = [
        row(n.a0, n.alpha, 0, Way::AtFirst),
        row(n.b0, n.beta, 0, Way::AtFirst),
        row(n.c0, n.crude, 0, Way::AtFirst),
    ];
    let denied = [Denial {
        entry: 5,
        comm: 0,
        k: 0,
        process: n.b0,
        reason: Reason::Simple {
            dataset: n.alpha,
            giver: n.a0,
            given: 1,
            rival: n.beta,
            source: Source::Held,
        },
    }];
    tells(&rt, BROADCAST, &rows, &[], &denied)
}

// Of two that were barred the star rule names the lower rank, which posted later.
#[test]
fn two_barred_posts(rt: HostRuntime) -> Result<(), Fail> {
    let n = all_names(&rt);
    let rows = [
        row(n.a0, n.alpha, 0, Way::AtFirst),
        row(n.b0, n.beta, 0, Way::AtFirst),
        row(n.c0, n.crude, 0, Way::AtFirst),
    ];
    let bars = [
        Bar {
            entry: 2,
            process: n.c0,
            label: Label::Public,
            held: n.crude,
        },
        Bar {
            entry: 3,
            process: n.b0,
            label: Label::Of(n.crude),
            held: n.beta,
        },
    ];
    let denied = [Denial {
        entry: 5,
        comm: 0,
        k: 0,
        process: n.b0,
        reason: Reason::Star {
            label: Label::Of(n.crude),
            post: 3,
        },
    }];
    tells(&rt, GATHERED_AS_PUBLIC, &rows, &bars, &denied)
}

// The data of one bank would come with that of the other, which is of a lower rank.
#[test]
fn rivals_in_one_gather(rt: HostRuntime) -> Result<(), Fail> {
    let n = all_names(&rt);
    let rows = [
        row(n.a0, n.alpha, 0, Way::AtFirst),
        row(n.b0, n.beta, 0, Way::AtFirst),
        row(n.c0, n.crude, 0, Way::AtFirst),
        row(n.n0, n.crude, 1, Way::OwnPost),
    ];
    let denied = [Denial {
        entry: 5,
        comm: 0,
        k: 0,
        process: n.n0,
        reason: Reason::Simple {
            dataset: n.beta,
            giver: n.b0,
            given: 3,
            rival: n.alpha,
            source: Source::Beside {
                giver: n.a0,
                given: 4,
            },
        },
    }];
    tells(&rt, GATHERED_FROM_RIVALS, &rows, &[], &denied)
}

#[test]
fn one_table_after_the_other(rt: HostRuntime) -> Result<(), Fail> {
    let n = all_names(&rt);
    let came = Way::Delivered {
        comm: 1,
        k: 0,
        from: n.a0,
    };
    let rows = [
        row(n.a0, n.alpha, 0, Way::AtFirst),
        row(n.b0, n.beta, 0, Way::AtFirst),
        row(n.c0, n.crude, 0, Way::AtFirst),
        row(n.n0, n.alpha, 12, came),
    ];
    let bars = [Bar {
        entry: 17,
        process: n.n0,
        label: Label::Of(n.beta),
        held: n.alpha,
    }];
    let denied = [
        Denial {
            entry: 16,
            comm: 2,
            k: 0,
            process: n.n0,
            reason: Reason::Simple {
                dataset: n.beta,
                giver: n.b0,
                given: 14,
                rival: n.alpha,
                source: Source::Held,
            },
        },
        Denial {
            entry: 19,
            comm: 1,
            k: 1,
            process: n.n0,
            reason: Reason::Star {
                label: Label::Of(n.beta),
                post: 17,
            },
        },
    ];
    tells(&rt, TWO_TABLES, &rows, &bars, &denied)
}

fn sanitised(entry: u64, k: u64, rank: u32, process: ProcessId) -> Sanitised {
    Sanitised {
        entry,
        comm: 0,
        k,
        rank,
        process,
    }
}

// Whose results were sanitised: one sum is everybody's, and one is the last process's alone.
#[test]
fn sums_of_four_banks(rt: HostRuntime) -> Result<(), Fail> {
    let n = all_names(&rt);
    let last = ProcessId::new(4).expect(&rt, "a process");
    let those = [
        sanitised(5, 0, 0, n.a0),
        sanitised(5, 0, 1, n.b0),
        sanitised(5, 0, 2, n.c0),
        sanitised(5, 0, 3, n.n0),
        sanitised(5, 0, 4, last),
        sanitised(11, 1, 4, last),
    ];
    let policy = policy(&rt, FOUR_BANKS);
    let book = book(&rt, &policy, OF_SUMS);
    let found = report(&rt, &policy, &book);
    assert_eq!(&rt; found.sanitised.as_slice(), those.as_slice());
    drop(found);
    drop(book);
    drop(policy);
    Ok(())
}

fn wait(comm: u32, k: u64, begun: u64, rank: u32, process: ProcessId, posted: Option<u64>) -> Wait {
    Wait {
        comm,
        k,
        begun,
        rank,
        process,
        posted,
    }
}

// Two instances of communicator 0 wait, and one of communicator 1; the one that came out does not.
#[test]
fn a_run_that_stands(rt: HostRuntime) -> Result<(), Fail> {
    let n = all_names(&rt);
    let those = [
        wait(0, 1, 7, 0, n.a0, None),
        wait(0, 1, 7, 1, n.b0, Some(7)),
        wait(0, 1, 7, 2, n.c0, Some(8)),
        wait(0, 1, 7, 3, n.n0, None),
        wait(0, 2, 9, 0, n.a0, None),
        wait(0, 2, 9, 1, n.b0, Some(9)),
        wait(0, 2, 9, 2, n.c0, None),
        wait(0, 2, 9, 3, n.n0, None),
        wait(1, 0, 6, 0, n.a0, None),
        wait(1, 0, 6, 1, n.n0, Some(6)),
    ];
    let policy = policy(&rt, BANKS_AND_OIL);
    let book = book(&rt, &policy, STANDING);
    let found = report(&rt, &policy, &book);
    assert_eq!(&rt; found.waits.as_slice(), those.as_slice());
    drop(found);
    drop(book);
    drop(policy);
    Ok(())
}

// Of a book that is not sound the first bad entry is told, as by its check.
#[test]
fn an_unsound_book(rt: HostRuntime) -> Result<(), Fail> {
    let policy = policy(&rt, BANKS_AND_OIL);
    let book = book(&rt, &policy, UNSOUND);
    match Report::of(rt.alloc(), &policy, &book) {
        Ok(_) => panic!(&rt; "a report on a book that is not sound"),
        Err(fault) => assert_eq!(&rt; fault, BookFault::BadEntry(5)),
    }
    drop(book);
    drop(policy);
    Ok(())
}
