//! What is replayed and audited again and again is let go: posts with many numbers, granted, denied
//! and refused, their deliveries, what nobody took, what waits, communicators, the book, and the
//! policy.
use crate::endings::{WALL, audits_so};
use crate::limits::pairs;
use crate::runs::runs_so;
use crate::texts::{Texts, begun, is_kept};
use std::alloc::{AllocError, Global};
use std::fs;
use std::process::Abort;
use std::rt::Files;
use std::sync::Wait;
use std::test::Fail;
use std::thread::Threads;

// The pages of memory that this process has resident, as the system tells.
fn resident_pages<R: Files + AllocGlobal>(rt: &R) -> Result<u64, Fail> {
    let text = fs::read_to_string(rt, "/proc/self/statm")?;
    let Some(word) = text.as_str().split(' ').nth(1) else {
        return Err(Fail::from("the system tells no pages"));
    };
    match word.parse::<u64>() {
        Ok(pages) => Ok(pages),
        Err(_) => Err(Fail::from("the pages are no number")),
    }
}

// Each of the four takes the request of this number.
fn put_takes(script: &mut String, request: u64) -> Result<(), AllocError> {
    for process in 0..4 {
        write!(script, "take {process} {request}\n")?;
    }
    Ok(())
}

// a0 would give these numbers of alpha to all, and so to b0.
fn put_denied(texts: &mut Texts, request: u64, numbers: &str) -> Result<(), AllocError> {
    let Texts { script, said, book } = texts;
    write!(script, "post 0 0 bcast 0 int64 1024 as alpha{numbers}\n")?;
    write!(said, "posted {request}\n")?;
    write!(
        book,
        "post 0 0 bcast 0 int64 1024 gives 1024 as alpha passed\n"
    )?;
    for process in 1..4 {
        write!(script, "post {process} 0 bcast 0 int64 1024\n")?;
        write!(said, "posted {request}\n")?;
        write!(
            book,
            "post {process} 0 bcast 0 int64 1024 gives 0 as none passed\n"
        )?;
    }
    put_takes(script, request)?;
    for _ in 0..4 {
        said.push_str("denied simple b0 alpha\n")?;
    }
    write!(book, "verdict 0 {request} denied simple b0 alpha\n")
}

// n0 gives these numbers to all, as public, and nobody has taken them yet.
fn put_untaken(texts: &mut Texts, request: u64, numbers: &str) -> Result<(), AllocError> {
    let Texts { script, said, book } = texts;
    for process in 0..3 {
        write!(script, "post {process} 0 bcast 3 int64 1024\n")?;
        write!(said, "posted {request}\n")?;
        write!(
            book,
            "post {process} 0 bcast 3 int64 1024 gives 0 as none passed\n"
        )?;
    }
    write!(script, "post 3 0 bcast 3 int64 1024 as public{numbers}\n")?;
    write!(said, "posted {request}\n")?;
    write!(
        book,
        "post 3 0 bcast 3 int64 1024 gives 1024 as public passed\nverdict 0 {request} granted\n"
    )
}

// All take these numbers of n0. Then it posts as many where one is wanted.
fn put_granted(texts: &mut Texts, request: u64, numbers: &str) -> Result<(), AllocError> {
    put_untaken(texts, request, numbers)?;
    put_takes(&mut texts.script, request)?;
    for _ in 0..3 {
        write!(texts.said, "delivered [{}]\n", numbers.trim())?;
    }
    texts.said.push_str("delivered none\n")?;
    write!(
        texts.script,
        "post 3 0 bcast 3 int64 1 as public{numbers}\n"
    )?;
    texts.said.push_str("refused BadCount\n")
}

// 30 rounds of both, and then eight that nobody takes.
fn wide_texts(alloc: Global) -> Result<Texts, AllocError> {
    let mut numbers = String::new(alloc);
    for _ in 0..1024 {
        numbers.push_str(" 1")?;
    }
    let mut texts = begun(alloc)?;
    for round in 0..30u64 {
        let request = 2 * round;
        put_denied(&mut texts, request, &numbers)?;
        put_granted(&mut texts, request + 1, &numbers)?;
    }
    for request in 60..68 {
        put_untaken(&mut texts, request, &numbers)?;
    }
    texts.book.push_str("end 340\n")?;
    Ok(texts)
}

fn replay_often(rt: &impl AllocGlobal, texts: &Texts, times: u32) -> bool {
    for _ in 0..times {
        if !is_kept(rt, WALL, texts) {
            return false;
        }
    }
    true
}

fn audit_often(rt: &impl AllocGlobal, book: &str, times: u32) -> bool {
    for _ in 0..times {
        if !audits_so(rt, WALL, book, "sound 340\n", "", 0) {
            return false;
        }
    }
    true
}

// All four make a duplicate of the world, and take it.
fn put_duplicate(texts: &mut Texts, request: u64) -> Result<(), AllocError> {
    let Texts { script, said, book } = texts;
    for process in 0..4 {
        write!(script, "post {process} 0 dup\n")?;
        write!(said, "posted {request}\n")?;
        write!(book, "post {process} 0 dup gives 0 as none passed\n")?;
    }
    put_takes(script, request)?;
    let comm = request.saturating_add(1);
    for rank in 0..4 {
        write!(said, "comm {comm} rank {rank} size 4\n")?;
    }
    write!(book, "verdict 0 {request} made {comm} 1\n")
}

// a0 gives these numbers of alpha to a gather that nobody else joins.
fn put_waiting(texts: &mut Texts, request: u64, numbers: &str) -> Result<(), AllocError> {
    let Texts { script, said, book } = texts;
    write!(script, "post 0 0 gatherv 0 int64 as alpha{numbers}\n")?;
    write!(said, "posted {request}\n")?;
    write!(
        book,
        "post 0 0 gatherv 0 int64 gives 1024 as alpha passed\n"
    )
}

// 256 communicators, and then 16 instances that wait.
fn waiting_texts(alloc: Global) -> Result<Texts, AllocError> {
    let mut numbers = String::new(alloc);
    for _ in 0..1024 {
        numbers.push_str(" 1")?;
    }
    let mut texts = begun(alloc)?;
    for request in 0..256 {
        put_duplicate(&mut texts, request)?;
    }
    for request in 256..272 {
        put_waiting(&mut texts, request, &numbers)?;
    }
    texts.book.push_str("end 1296\n")?;
    Ok(texts)
}

// Fewer than 256 pages more are resident than before.
fn expect_few_more<R: Files + AllocGlobal + Abort>(rt: &R, before: u64) -> Result<(), Fail> {
    let after = resident_pages(rt)?;
    assert!(rt;
        after < before.saturating_add(256),
        "{before} pages, then {after}"
    );
    Ok(())
}

// A leak of 60 instances would be 120 pages, that of 30 posts 60, that of the eight instances that
// nobody took 16, that of a book 10, each time.
#[test]
fn what_was_replayed_is_let_go(rt: HostRuntime) -> Result<(), Fail> {
    let texts = wide_texts(rt.alloc())?;
    assert!(&rt; replay_often(&rt, &texts, 4));
    let before = resident_pages(&rt)?;
    assert!(&rt; replay_often(&rt, &texts, 40));
    expect_few_more(&rt, before)
}

// A leak of what waits would be 32 pages each time, that of the communicators some 17.
#[test]
fn what_waits_and_what_was_made_is_let_go(rt: HostRuntime) -> Result<(), Fail> {
    let texts = waiting_texts(rt.alloc())?;
    assert!(&rt; replay_often(&rt, &texts, 4));
    let before = resident_pages(&rt)?;
    assert!(&rt; replay_often(&rt, &texts, 40));
    expect_few_more(&rt, before)
}

// A leak of 68 instances, which have no numbers here, would be 8 pages each time, that of the book
// 10.
#[test]
fn what_was_audited_is_let_go(rt: HostRuntime) -> Result<(), Fail> {
    let texts = wide_texts(rt.alloc())?;
    assert!(&rt; audit_often(&rt, &texts.book, 4));
    let before = resident_pages(&rt)?;
    assert!(&rt; audit_often(&rt, &texts.book, 60));
    expect_few_more(&rt, before)
}

// The policy is read for an audit of an empty book, and for a run that never comes to a hall.
fn judge_often<R>(rt: &R, policy: &str, times: u32) -> bool
where
    R: AllocGlobal + Threads + Wait + Sync,
{
    for _ in 0..times {
        let is_audited = audits_so(rt, policy, "book 1\nend 0\n", "sound 0\n", "", 0);
        let is_judged = runs_so(rt, policy, "pst", "", "script: line 1: BadVerb\n", 2);
        if !(is_audited && is_judged) {
            return false;
        }
    }
    true
}

// A policy of 1,024 datasets, which is read twice each time.
#[test]
fn wide_policies_are_let_go(rt: HostRuntime) -> Result<(), Fail> {
    let policy = pairs(rt.alloc(), 512, [0, 1023])?;
    assert!(&rt; judge_often(&rt, &policy, 4));
    let before = resident_pages(&rt)?;
    assert!(&rt; judge_often(&rt, &policy, 40));
    expect_few_more(&rt, before)
}
