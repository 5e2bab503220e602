//! A book of two entries, and one of a thousand.
ghost use Rattle.std.specs.Prelude.{◌≡◌, ◌<◌, ◌≤◌, ◌+◌};

use coll_routes::{Own, Signature, Stated};
use run_state::{Book, Entry, Outcome};
use std::process::Abort;
use wall_labels::ProcessId;

fn barrier(rt: &impl Abort) -> Entry {
    let process = ProcessId::new(3).expect(rt, "a process");
    Entry::Posted {
        process,
        comm: 0,
        stated: Stated {
            sig: Signature::Barrier,
            own: Own::Plain,
            given: 0,
            label: None,
            barred: false,
        },
    }
}

// An entry that has its form is added.
fn push(rt: &impl Abort, book: &mut Book, entry: Entry)
    requires { 0 < book.old.room }
    ensures { book.new.room + 1 ≡ book.old.room }
{
    assert!(rt; entry.has_form());
    book.push(entry);
}

// Makes room for two entries, and says whether there was none for them. The room is in proportion
// to the book.
fn make_room(rt: &impl Abort, book: &mut Book) -> bool
    ensures { 2 ≤ book.new.room }
{
    let grows = book.room() < 2;
    let Ok(()) = book.reserve(2) else {
        panic!(rt; "no memory")
    };
    assert!(rt; book.room() <= book.len().saturating_mul(2).saturating_add(16));
    grows
}

// One entry more, for which the book grows if there is no room for two.
fn lengthen(rt: &impl Abort, book: &mut Book, growths: &mut u32) {
    if make_room(rt, book) {
        assert!(rt; *growths < 20);
        *growths += 1;
    }
    push(rt, book, barrier(rt));
}

// A growth copies what is there, so that there are few: a thousand entries take fewer than twenty.
#[test]
fn a_book_grows_seldom(rt: HostRuntime) {
    let mut book = Book::new(rt.alloc());
    let mut growths = 0;
    for _ in 0..1000 {
        lengthen(&rt, &mut book, &mut growths);
    }
    assert_eq!(rt; book.len(), 1000);
    drop(book);
}

#[test]
fn a_book_keeps_its_entries(rt: HostRuntime) {
    let mut book = Book::new(rt.alloc());
    assert!(rt; book.is_empty());
    let Ok(()) = book.reserve(2) else {
        panic!(&rt; "no memory")
    };
    push(&rt, &mut book, barrier(&rt));
    let settled = Entry::Settled {
        comm: 0,
        k: 7,
        outcome: Outcome::Granted,
    };
    push(&rt, &mut book, settled);
    assert_eq!(rt; book.len(), 2);
    assert_eq!(rt; book.as_slice().len(), 2);
    assert!(rt; !book.is_empty());
    assert!(rt; matches!(book.get(0), Entry::Posted { .. }));
    assert!(rt; matches!(book.get(1), Entry::Settled { .. }));
    drop(book);
}
