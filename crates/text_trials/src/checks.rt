//! Books of four processes, worked by hand from the rules.
ghost use Rattle.std.specs.Prelude.{◌<◌};

use crate::books::under;
use audit_book::{BookFault, check_book, read_book};
use coll_routes::{Own, Signature, Stated};
use mpi_elems::ElemType;
use run_model::{Entry, Outcome};
use run_state::Book;
use std::process::Abort;
use std::test::Fail;
use trial_kit::policies::BANKS_AND_OIL;
use wall_labels::{DatasetId, Label, ProcessId};
use wall_policy::Policy;
use wall_rules::Rule;

// The datasets 0 alpha and 1 beta are rivals. Process 0 is at home at alpha, process 1 at beta, and
// the others nowhere.
const POLICY: &str = r#"version = 1
[[class]]
name = "banks"
datasets = ["alpha", "beta"]
[[process]]
name = "a0"
home = "alpha"
[[process]]
name = "b0"
home = "beta"
[[process]]
name = "n0"
[[process]]
name = "n1"
"#;

// What is posted to the world.
#[derive(Clone, Copy)]
enum Posts {
    // Process 0 posts an element with this label to all.
    Broadcast(u32),
    // Processes 0 and 3 ask for one colour, process 2 for another, and process 1 for none.
    Split,
}

fn process(rt: &impl Abort, number: u32) -> ProcessId {
    ProcessId::new(number).expect(rt, "a process")
}

fn label(rt: &impl Abort, number: u32) -> Label {
    Label::Of(DatasetId::new(number).expect(rt, "a dataset"))
}

// A post to the world: with a label of one element, and without one of none.
fn post(rt: &impl Abort, number: u32, sig: Signature, own: Own, label: Option<Label>) -> Entry {
    let given = if label.is_some() { 1 } else { 0 };
    Entry::Posted {
        process: process(rt, number),
        comm: 0,
        stated: Stated {
            sig,
            own,
            given,
            label,
            barred: false,
        },
    }
}

// There is room for it.
fn push(rt: &impl Abort, book: &mut Book, entry: Entry)
    requires { 0 < book.old.room }
{
    assert!(rt; entry.has_form());
    book.push(entry);
}

fn broadcast(rt: &impl Abort, book: &mut Book, dataset: u32) -> Result<(), Fail> {
    for number in 0..4 {
        book.reserve(1)?;
        let sig = Signature::Bcast {
            root: 0,
            elem_type: ElemType::Int32,
            count: 1,
        };
        let label = if number == 0 {
            Some(label(rt, dataset))
        } else {
            None
        };
        push(rt, book, post(rt, number, sig, Own::Plain, label));
    }
    Ok(())
}

// Each process with the colour and the key that it asks for.
const SPLIT: &[(u32, Option<i32>, i32)] = &[
    (0, Some(2), 0),
    (1, None, 0),
    (2, Some(0), 5),
    (3, Some(2), 0),
];

fn split(rt: &impl Abort, book: &mut Book) -> Result<(), Fail> {
    for (number, colour, key) in SPLIT {
        book.reserve(1)?;
        let own = Own::Split {
            colour: *colour,
            key: *key,
        };
        push(rt, book, post(rt, *number, Signature::Split, own, None));
    }
    Ok(())
}

// Adds the posts, and the outcome of their instance if one is given.
fn fill(
    rt: &impl Abort,
    book: &mut Book,
    posts: Posts,
    outcome: Option<Outcome>,
) -> Result<(), Fail> {
    match posts {
        Posts::Broadcast(dataset) => broadcast(rt, book, dataset)?,
        Posts::Split => split(rt, book)?,
    }
    if let Some(outcome) = outcome {
        book.reserve(1)?;
        let settled = Entry::Settled {
            comm: 0,
            k: 0,
            outcome,
        };
        push(rt, book, settled);
    }
    Ok(())
}

// Fills an empty book, and checks it.
fn judge(
    rt: &(impl AllocGlobal + Abort),
    policy: &Policy,
    book: &mut Book,
    posts: Posts,
    outcome: Option<Outcome>,
) -> Result<Result<(), BookFault>, Fail> {
    fill(rt, book, posts, outcome)?;
    Ok(check_book(rt.alloc(), policy, book))
}

// What the check says of a book of these posts and this outcome.
fn judged(
    rt: &(impl AllocGlobal + Abort),
    policy: &Policy,
    posts: Posts,
    outcome: Option<Outcome>,
) -> Result<Result<(), BookFault>, Fail> {
    let mut book = Book::new(rt.alloc());
    let answer = judge(rt, policy, &mut book, posts, outcome);
    drop(book);
    answer
}

fn expect_all(
    rt: &(impl AllocGlobal + Abort),
    policy: &Policy,
    rows: &[(Posts, Option<Outcome>, Result<(), BookFault>)],
) -> Result<(), Fail> {
    for (posts, outcome, answer) in rows {
        assert_eq!(rt; judged(rt, policy, *posts, *outcome)?, *answer);
    }
    Ok(())
}

#[test]
fn a_rival_may_not_hear_it(rt: HostRuntime) -> Result<(), Fail> {
    let denied = Outcome::Denied {
        rule: Rule::Simple,
        process: process(&rt, 1),
        label: label(&rt, 0),
    };
    let posts = Posts::Broadcast(0);
    let rows = [
        (posts, None, Err(BookFault::BadEntry(5))),
        (posts, Some(denied), Ok(())),
        (posts, Some(Outcome::Granted), Err(BookFault::BadEntry(5))),
    ];
    under(&rt, POLICY, |policy| expect_all(&rt, policy, &rows))
}

#[test]
fn a_barred_post_is_no_passed_one(rt: HostRuntime) -> Result<(), Fail> {
    let rows = [(Posts::Broadcast(1), None, Err(BookFault::BadEntry(1)))];
    under(&rt, POLICY, |policy| expect_all(&rt, policy, &rows))
}

#[test]
fn a_split_makes_one_for_each_colour(rt: HostRuntime) -> Result<(), Fail> {
    let two = Outcome::Made {
        first: 1,
        number: 2,
    };
    let one = Outcome::Made {
        first: 1,
        number: 1,
    };
    let rows = [
        (Posts::Split, Some(two), Ok(())),
        (Posts::Split, Some(one), Err(BookFault::BadEntry(5))),
    ];
    under(&rt, POLICY, |policy| expect_all(&rt, policy, &rows))
}

// Books under the policy of two banks and two oil firms, and what their check says.
const BOOKS: &[(&str, Result<(), BookFault>)] = &[
    ("book 1\nend 0\n", Ok(())),
    (
        "book 1\npost 0 7 barrier gives 0 as none passed\nend 1\n",
        Err(BookFault::BadEntry(1)),
    ),
    (
        "book 1\npost 0 0 bcast 4 int32 1 gives 0 as none passed\nend 1\n",
        Err(BookFault::BadEntry(1)),
    ),
    (
        r#"book 1
post 0 0 barrier gives 0 as none passed
post 1 0 dup gives 0 as none passed
end 2
"#,
        Err(BookFault::BadEntry(2)),
    ),
    (
        "book 1\nverdict 0 0 granted\nend 1\n",
        Err(BookFault::BadEntry(1)),
    ),
    (
        r#"book 1
post 0 0 bcast 0 int32 2 gives 2 as alpha passed
post 1 0 bcast 0 int32 2 gives 0 as none passed
post 2 0 bcast 0 int32 2 gives 0 as none passed
post 3 0 bcast 0 int32 2 gives 0 as none passed
verdict 0 0 denied simple b0 alpha
verdict 0 0 denied simple b0 alpha
end 6
"#,
        Err(BookFault::BadEntry(6)),
    ),
];

// What the check says of the book of a text, none where the text is not read.
pub(crate) fn judged_text(
    rt: &impl AllocGlobal,
    policy: &Policy,
    text: &str,
) -> Option<Result<(), BookFault>> {
    match read_book(rt.alloc(), policy, text.as_bytes()) {
        Ok(book) => {
            let answer = check_book(rt.alloc(), policy, &book);
            drop(book);
            Some(answer)
        }
        Err(_) => None,
    }
}

fn expect_of_texts(rt: &(impl AllocGlobal + Abort), policy: &Policy) -> Result<(), Fail> {
    for (text, answer) in BOOKS {
        assert!(rt; judged_text(rt, policy, text) == Some(*answer), "{text}");
    }
    Ok(())
}

// A post that would be refused and a verdict that is not due are the first bad entry of their book.
#[test]
fn what_no_post_gives_is_the_first_bad_entry(rt: HostRuntime) -> Result<(), Fail> {
    under(&rt, BANKS_AND_OIL, |policy| expect_of_texts(&rt, policy))
}
