//! Worked runs where memory is refused: a call that is out of memory has changed nothing, and is
//! answered as it should be when it is made again at once.
//!
//! tests/refused_calls runs each of these tests with its first growth refused, in another run with
//! its second, and so on. Each passes in each of these runs, since nothing is refused twice; what a
//! test asks memory for itself, it asks for again too. Where nothing is refused they are tests like
//! any other.
ghost use Rattle.std.specs.List.{All};
ghost use Rattle.run_model.specs.Known.{HasKnownLabel, IsKnownReply, IsKnownEntry};

use crate::runs::{ASKED_IN_BETWEEN, DENIED, GRIDS, GROUPS, Run, SPLIT, SUMMED};
use crate::worked::{all_hold_as_said, has};
use audit_book::*;
use hall_core::Hall;
use hall_script::{LineFault, read_call, write_reply};
use run_model::{Call, Refusal, Reply};
use run_state::Book;
use std::process::Abort;
use trial_kit::policies::BANKS_AND_OIL;
use wall_labels::Op;
use wall_labels::memory::{ExpectingSink, Fuse};
use wall_policy::{Policy, PolicyFault, read_policy};

/// What is answered, or what is answered to the same once more where this fault was. (For what is not
/// wide: what is has a `match` of its own for the second answer, since two wide values that meet behind
/// a `match` cost the prover dear.)
macro_rules! again {
    ($asked:expr, $fault:pat) => {
        match $asked {
            Err($fault) => $asked,
            answer => answer,
        }
    };
}

/// What was answered at last, where it is what was asked for.
fn made<T: Drop, E: Drop>(rt: &impl Abort, answer: Result<T, E>, words: &str) -> T {
    match answer {
        Ok(made) => made,
        Err(_) => panic!(rt; "{words}"),
    }
}

/// The policy of a text that has one.
fn policy_of(rt: &(impl AllocGlobal + Abort), text: &str) -> Policy {
    match read_policy(rt.alloc(), text.as_bytes()) {
        Ok(policy) => policy,
        Err(PolicyFault::NoMemory) => {
            made(rt, read_policy(rt.alloc(), text.as_bytes()), "no policy")
        }
        Err(_) => panic!(rt; "no policy"),
    }
}

/// A hall under it.
fn hall_of(rt: &(impl AllocGlobal + Abort), text: &str) -> Hall {
    match Hall::open(rt.alloc(), policy_of(rt, text)) {
        Ok(hall) => hall,
        Err(_) => made(rt, Hall::open(rt.alloc(), policy_of(rt, text)), "no hall"),
    }
}

/// The call of a line that has one.
fn call_of(rt: &(impl AllocGlobal + Abort), policy: &Policy, line: &str) -> Call
    ensures { HasKnownLabel policy.now result.act }
{
    match read_call(rt.alloc(), policy, line.as_bytes()) {
        Ok(call) => call,
        Err(LineFault::NoMemory) => call_at_last(rt, policy, line),
        Err(_) => panic!(rt; "no call: {line}"),
    }
}

fn call_at_last(rt: &(impl AllocGlobal + Abort), policy: &Policy, line: &str) -> Call
    ensures { HasKnownLabel policy.now result.act }
{
    match read_call(rt.alloc(), policy, line.as_bytes()) {
        Ok(call) => call,
        Err(_) => panic!(rt; "no call: {line}"),
    }
}

/// Whether the bytes are this text and a line feed.
fn is_line(bytes: &[u8], text: &str) -> bool {
    match bytes.split_last() {
        Some((last, prefix)) => *last == b'\n' && prefix == text.as_bytes(),
        None => false,
    }
}

/// The reply has this line, but for its end. Where there is no memory for it, nothing is appended.
fn expect_reply(rt: &(impl AllocGlobal + Abort), policy: &Policy, reply: &Reply, said: &str)
    requires { IsKnownReply policy.now reply.now }
{
    let mut bytes = Vec::new(rt.alloc());
    if write_reply(policy, reply, &mut bytes).is_err() {
        assert!(rt; bytes.is_empty(), "{said}");
        assert!(rt; write_reply(policy, reply, &mut bytes).is_ok(), "{said}");
    }
    assert!(rt; is_line(&bytes, said), "{said}");
}

/// Which of the first four datasets a process has had access to.
fn row_of(hall: &Hall, process: u32) -> [bool; 4] {
    [
        has(hall, process, 0),
        has(hall, process, 1),
        has(hall, process, 2),
        has(hall, process, 3),
    ]
}

/// What a call that is out of memory leaves as it is: the histories, and the book's length.
#[derive(Clone, Copy)]
struct Kept {
    rows: [[bool; 4]; 4],
    entries: usize,
}

fn kept_of(hall: &Hall) -> Kept {
    Kept {
        rows: [
            row_of(hall, 0),
            row_of(hall, 1),
            row_of(hall, 2),
            row_of(hall, 3),
        ],
        entries: hall.book().len(),
    }
}

fn is_kept(hall: &Hall, before: &Kept) -> bool {
    let after = kept_of(hall);
    after.rows == before.rows && after.entries == before.entries
}

fn is_out_of_memory(reply: &Reply) -> bool {
    matches!(reply, Reply::Refused(Refusal::NoMemory))
}

/// Whether the reply of this line needs memory: that of a post that counts, or a delivery.
fn needs_memory(said: &str) -> bool {
    said.starts_with("posted") || said.starts_with("barred") || said.starts_with("delivered")
}

/// The line's call is made, and answered as said. Where it is out of memory it has changed nothing,
/// and is made once more.
fn expect_answer(rt: &(impl AllocGlobal + Abort), hall: &mut Hall, line: &str, said: &str) {
    let before = kept_of(hall);
    let call = call_of(rt, hall.policy(), line);
    let reply = hall.apply(call);
    if !is_out_of_memory(&reply) {
        expect_reply(rt, hall.policy(), &reply, said);
        drop(reply);
        return;
    }
    drop(reply);
    assert!(rt; needs_memory(said) && is_kept(hall, &before), "{line}");
    let call = call_of(rt, hall.policy(), line);
    let reply = hall.apply(call);
    expect_reply(rt, hall.policy(), &reply, said);
    drop(reply);
}

/// A process asks for a group.
fn ask_for_group(
    rt: &(impl AllocGlobal + Abort),
    hall: &mut Hall,
    process: u32,
    group: &str,
    said: &str,
) {
    let alloc = rt.alloc();
    match again!(format!(in alloc; "post {process} 0 create {group}"), _) {
        Ok(line) => expect_answer(rt, hall, &line, said),
        Err(_) => panic!(rt; "no line"),
    }
}

/// What they are told who ask for each of the groups.
const CREATED: &[&str] = &["posted 0", "posted 1", "posted 2", "posted 3", "posted 4"];

/// All four ask for each of the groups.
fn make_groups(rt: &(impl AllocGlobal + Abort), hall: &mut Hall) {
    for (group, said) in GROUPS.iter().zip(CREATED) {
        for process in 0..4 {
            ask_for_group(rt, hall, process, group, said);
        }
    }
}

/// The book has this text, and where there is no memory to write it, a prefix of it.
fn expect_text(rt: &(impl AllocGlobal + Abort), policy: &Policy, book: &Book, text: &str)
    requires { All (IsKnownEntry policy.now) book.now.list }
{
    let mut sink = ExpectingSink {
        rest: text.as_bytes(),
        is_same: true,
        fuse: Fuse::Whole,
    };
    let written = write_book(rt.alloc(), policy, book, &mut sink);
    assert!(rt; sink.is_same, "{text}");
    if written == Err(WriteFault::NoMemory) {
        sink.rest = text.as_bytes();
        let again = write_book(rt.alloc(), policy, book, &mut sink);
        assert!(rt; again == Ok(()), "{text}");
    } else {
        assert!(rt; written == Ok(()), "{text}");
    }
    assert!(rt; sink.is_same && sink.rest.is_empty(), "{text}");
}

/// The check of the book says so.
fn expect_check(
    rt: &(impl AllocGlobal + Abort),
    policy: &Policy,
    book: &Book,
    said: Result<(), BookFault>,
)
    requires { All (IsKnownEntry policy.now) book.now.list }
{
    let checked = again!(check_book(rt.alloc(), policy, book), BookFault::NoMemory);
    assert_eq!(rt; checked, said);
}

/// The calls of the run are answered as it says, and histories and book are then as they should be.
fn expect_run(rt: &(impl AllocGlobal + Abort), run: &Run, book: &str) {
    let mut hall = hall_of(rt, run.wall);
    if run.in_groups {
        make_groups(rt, &mut hall);
    }
    for (line, said) in run.calls {
        expect_answer(rt, &mut hall, line, said);
    }
    assert!(rt; all_hold_as_said(&hall, run.held));
    expect_text(rt, hall.policy(), hall.book(), book);
    expect_check(rt, hall.policy(), hall.book(), Ok(()));
    drop(hall);
}

const DENIED_BOOK: &str = "book 1
post 0 0 bcast 0 int32 2 gives 2 as alpha passed
post 1 0 bcast 0 int32 2 gives 0 as none passed
post 2 0 bcast 0 int32 2 gives 0 as none passed
post 3 0 bcast 0 int32 2 gives 0 as none passed
verdict 0 0 denied simple b0 alpha
end 5
";

#[test]
fn a_broadcast_is_denied(rt: HostRuntime) {
    expect_run(&rt, &DENIED, DENIED_BOOK);
}

const SUMMED_BOOK: &str = "book 1
post 0 0 allreduce sum int32 1 gives 1 as alpha passed
post 1 0 allreduce sum int32 1 gives 1 as beta passed
post 2 0 allreduce sum int32 1 gives 1 as crude passed
post 3 0 allreduce sum int32 1 gives 1 as public passed
verdict 0 0 granted
post 3 0 bcast 3 int32 1 gives 1 as public passed
end 6
";

#[test]
fn a_sum_is_delivered(rt: HostRuntime) {
    expect_run(&rt, &SUMMED, SUMMED_BOOK);
}

const BOOK_OF_GROUPS: &str = "book 1
post 0 0 create 0,2,3 gives 0 as none passed
post 1 0 create 0,2,3 gives 0 as none passed
post 2 0 create 0,2,3 gives 0 as none passed
post 3 0 create 0,2,3 gives 0 as none passed
verdict 0 0 made 1 1
post 0 0 create 0,1,3 gives 0 as none passed
post 1 0 create 0,1,3 gives 0 as none passed
post 2 0 create 0,1,3 gives 0 as none passed
post 3 0 create 0,1,3 gives 0 as none passed
verdict 0 1 made 2 1
post 0 0 create 0,3 gives 0 as none passed
post 1 0 create 0,3 gives 0 as none passed
post 2 0 create 0,3 gives 0 as none passed
post 3 0 create 0,3 gives 0 as none passed
verdict 0 2 made 3 1
post 0 0 create 1,3 gives 0 as none passed
post 1 0 create 1,3 gives 0 as none passed
post 2 0 create 1,3 gives 0 as none passed
post 3 0 create 1,3 gives 0 as none passed
verdict 0 3 made 4 1
post 0 0 create 2,3 gives 0 as none passed
post 1 0 create 2,3 gives 0 as none passed
post 2 0 create 2,3 gives 0 as none passed
post 3 0 create 2,3 gives 0 as none passed
verdict 0 4 made 5 1
post 3 3 gather 0 int32 1 gives 1 as alpha passed
post 2 5 bcast 0 int32 1 gives 1 as crude passed
post 3 5 bcast 0 int32 1 gives 0 as none passed
verdict 5 0 granted
post 0 3 gather 0 int32 1 gives 1 as alpha passed
verdict 3 0 granted
end 31
";

#[test]
fn a_gather_waits_while_another_is_delivered(rt: HostRuntime) {
    expect_run(&rt, &ASKED_IN_BETWEEN, BOOK_OF_GROUPS);
}

const SPLIT_BOOK: &str = "book 1
post 0 0 split 2 0 gives 0 as none passed
post 1 0 split undefined 0 gives 0 as none passed
post 2 0 split 0 5 gives 0 as none passed
post 3 0 split 2 0 gives 0 as none passed
verdict 0 0 made 1 2
end 5
";

#[test]
fn communicators_are_split(rt: HostRuntime) {
    expect_run(&rt, &SPLIT, SPLIT_BOOK);
}

const BOOK_OF_GRIDS: &str = "book 1
post 0 0 cart_create - - gives 0 as none passed
post 1 0 cart_create - - gives 0 as none passed
post 2 0 cart_create - - gives 0 as none passed
post 3 0 cart_create - - gives 0 as none passed
verdict 0 0 made 1 1
post 0 0 cart_create 2,2 1,0 gives 0 as none passed
post 1 0 cart_create 2,2 1,0 gives 0 as none passed
post 2 0 cart_create 2,2 1,0 gives 0 as none passed
post 3 0 cart_create 2,2 1,0 gives 0 as none passed
verdict 0 1 made 2 1
post 0 2 cart_sub 0,1 gives 0 as none passed
post 1 2 cart_sub 0,1 gives 0 as none passed
post 2 2 cart_sub 0,1 gives 0 as none passed
post 3 2 cart_sub 0,1 gives 0 as none passed
verdict 2 0 made 3 2
end 15
";

#[test]
fn grids_are_made(rt: HostRuntime) {
    expect_run(&rt, &GRIDS, BOOK_OF_GRIDS);
}

/// The book of a text that is one.
fn book_of(rt: &(impl AllocGlobal + Abort), policy: &Policy, text: &str) -> Book
    ensures { All (IsKnownEntry policy.now) result.list }
{
    match read_book(rt.alloc(), policy, text.as_bytes()) {
        Ok(book) => book,
        Err(ReadFault::NoMemory) => book_at_last(rt, policy, text),
        Err(_) => panic!(rt; "no book"),
    }
}

fn book_at_last(rt: &(impl AllocGlobal + Abort), policy: &Policy, text: &str) -> Book
    ensures { All (IsKnownEntry policy.now) result.list }
{
    match read_book(rt.alloc(), policy, text.as_bytes()) {
        Ok(book) => book,
        Err(_) => panic!(rt; "no book"),
    }
}

/// The book of the text is written as it is, and its check says so.
fn expect_book(
    rt: &(impl AllocGlobal + Abort),
    policy: &Policy,
    text: &str,
    said: Result<(), BookFault>,
) {
    let book = book_of(rt, policy, text);
    expect_text(rt, policy, &book, text);
    expect_check(rt, policy, &book, said);
    drop(book);
}

const GRANTED_BOOK: &str = "book 1
post 0 0 bcast 0 int32 2 gives 2 as alpha passed
post 1 0 bcast 0 int32 2 gives 0 as none passed
post 2 0 bcast 0 int32 2 gives 0 as none passed
post 3 0 bcast 0 int32 2 gives 0 as none passed
verdict 0 0 granted
end 5
";

#[test]
fn a_policy_and_its_books_are_read(rt: HostRuntime) {
    let policy = policy_of(&rt, BANKS_AND_OIL);
    assert!(&rt; policy.processes() == 4 && policy.datasets() == 4);
    assert!(&rt; policy.least(Op::Sum) == Some(3) && policy.least(Op::Max).is_none());
    expect_book(&rt, &policy, DENIED_BOOK, Ok(()));
    expect_book(&rt, &policy, GRANTED_BOOK, Err(BookFault::BadEntry(5)));
    expect_book(&rt, &policy, SPLIT_BOOK, Ok(()));
    drop(policy);
}
