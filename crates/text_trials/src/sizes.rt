//! Books and scripts past each size from which the code goes another way: out of memory is no
//! answer where memory is ample, however long they are.

use crate::books::{is_whole, under};
use crate::checks::judged_text;
use crate::halls::LONE;
use crate::replays::{Case, is_replayed_under};
use crate::scripts::policy_of;
use crate::worked::{Texts, no_texts};
use std::alloc::{AllocError, Global};
use std::process::Abort;
use std::test::Fail;
use wall_labels::memory::Fuse;
use wall_policy::Policy;

/// Each is two entries, a post and its verdict: more than 2^18 all together.
const BARRIERS: u32 = 131_080;

/// The text of the book of so many.
fn barriers(alloc: Global) -> Result<String, AllocError> {
    let mut text = String::from_str(alloc, "book 1\n")?;
    for k in 0..BARRIERS {
        write!(
            text,
            "post 0 0 barrier gives 0 as none passed\nverdict 0 {k} granted\n"
        )?;
    }
    write!(text, "end {}\n", 2 * BARRIERS)?;
    Ok(text)
}

fn expect_sound(rt: &(impl AllocGlobal + Abort), policy: &Policy) -> Result<(), Fail> {
    let text = barriers(rt.alloc())?;
    assert!(rt; is_whole(rt.alloc(), policy, text.as_bytes()));
    assert!(rt; judged_text(rt, policy, text.as_str()) == Some(Ok(())));
    Ok(())
}

#[test]
fn a_long_book_is_read_and_sound(rt: HostRuntime) -> Result<(), Fail> {
    under(&rt, LONE, |policy| expect_sound(&rt, policy))
}

/// The calls of the script are answered so.
fn expect_told(rt: &(impl AllocGlobal + Abort), wall: &str, texts: &Texts) {
    let case = Case {
        script: texts.script.as_bytes(),
        replies: texts.said.as_bytes(),
        reads: Fuse::Whole,
        writes: Fuse::Whole,
        fault: None,
    };
    assert!(rt; is_replayed_under(rt, policy_of(rt, wall), &case));
}

/// The text of a policy of 64 processes, at home nowhere.
fn crowd(alloc: Global) -> Result<String, AllocError> {
    let mut text = String::from_str(alloc, "version = 1\n")?;
    for process in 0..64u32 {
        write!(text, "[[process]]\nname = \"p{process}\"\n")?;
    }
    Ok(text)
}

/// All of them post this, each as its request of that number.
fn put_posts(texts: &mut Texts, act: &str, request: u32) -> Result<(), AllocError> {
    let Texts { script, said } = texts;
    for process in 0..64u32 {
        write!(script, "post {process} {act}\n")?;
        write!(said, "posted {request}\n")?;
    }
    Ok(())
}

/// They are laid into a square.
fn put_square(texts: &mut Texts) -> Result<(), AllocError> {
    put_posts(texts, "0 cart_create 8,8 0,0", 0)?;
    let Texts { script, said } = texts;
    for process in 0..64u32 {
        write!(script, "take {process} 0\n")?;
        write!(said, "comm 1 rank {process} size 64\n")?;
    }
    Ok(())
}

/// It is cut into 64 parts of one.
fn put_parts(texts: &mut Texts) -> Result<(), AllocError> {
    put_posts(texts, "1 cart_sub 0,0", 1)?;
    let Texts { script, said } = texts;
    for process in 0..64u32 {
        let part = process + 2;
        write!(script, "take {process} 1\ninfo {process} {part}\n")?;
        write!(
            said,
            "comm {part} rank 0 size 1\ninfo size 1 rank 0 dims 0\n"
        )?;
    }
    write!(script, "info 63 66\n")?;
    write!(said, "refused NoSuchComm\n")?;
    Ok(())
}

#[test]
fn a_grid_is_cut_into_64_parts(rt: HostRuntime) -> Result<(), Fail> {
    let wall = crowd(rt.alloc())?;
    let mut texts = no_texts(rt.alloc());
    put_square(&mut texts)?;
    put_parts(&mut texts)?;
    expect_told(&rt, wall.as_str(), &texts);
    Ok(())
}

/// A process asks so often for a sum of its own number. It takes the outcome at once, but for the
/// first.
const SUMS: u32 = 4200;

fn put_sums(texts: &mut Texts) -> Result<(), AllocError> {
    let Texts { script, said } = texts;
    for request in 0..SUMS {
        write!(
            script,
            "post 0 0 allreduce sum int32 1 as public {request}\n"
        )?;
        write!(said, "posted {request}\n")?;
        if request != 0 {
            write!(script, "take 0 {request}\n")?;
            write!(said, "delivered [{request}]\n")?;
        }
    }
    write!(script, "take 0 0\ntake 0 0\n")?;
    write!(said, "delivered [0]\nrefused NoSuchRequest\n")?;
    Ok(())
}

/// More than 4,096 requests behind an open one.
#[test]
fn many_requests_stand_behind_an_open_one(rt: HostRuntime) -> Result<(), Fail> {
    let mut texts = no_texts(rt.alloc());
    put_sums(&mut texts)?;
    expect_told(&rt, LONE, &texts);
    Ok(())
}
