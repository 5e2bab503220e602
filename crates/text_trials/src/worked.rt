//! The worked runs as scripts that are replayed.

use crate::runs::{
    ALPHA, ASKED_FIRST, ASKED_IN_BETWEEN, ASKED_IN_TURN, ASKED_OF_BOTH, BETA, CRUDE, DENIED,
    GATHERED, GATHERED_OF_ALL, GIVEN_AND_WAITING, GRIDS, GROUPS, HOMES_OF_THE_BANK, NO_REQUESTS,
    NOTHING_GIVEN, REFUSED_IN_GROUPS, RELAYED, Run, SCANNED_IN_VERSION_1, SCANNED_IN_VERSION_2,
    SENT, SENT_AND_BARRED, SPLIT, SUMMED, TWO_AT_ONCE,
};
use crate::scripts::policy_of;
use hall_core::Hall;
use hall_script::replay;
use std::alloc::{AllocError, Global};
use std::process::Abort;
use std::test::Fail;
use trial_kit::policies::{ALONE, FOUR_OF_A_BANK};
use wall_labels::memory::{ExpectingSink, Fuse, MemorySource};
use wall_labels::{DatasetId, ProcessId};

// A script, and its replies.
#[derive(Drop)]
pub(crate) struct Texts {
    pub script: String,
    pub said: String,
}

pub(crate) fn no_texts(alloc: Global) -> Texts {
    Texts {
        script: String::new(alloc),
        said: String::new(alloc),
    }
}

fn put_groups(texts: &mut Texts) -> Result<(), AllocError> {
    let Texts { script, said } = texts;
    for (request, group) in GROUPS.iter().enumerate() {
        for process in 0..4 {
            write!(script, "post {process} 0 create {group}\n")?;
            write!(said, "posted {request}\n")?;
        }
    }
    Ok(())
}

fn texts_of(alloc: Global, run: &Run) -> Result<Texts, AllocError> {
    let mut texts = no_texts(alloc);
    if run.in_groups {
        put_groups(&mut texts)?;
    }
    for (call, reply) in run.calls {
        write!(texts.script, "{call}\n")?;
        write!(texts.said, "{reply}\n")?;
    }
    Ok(texts)
}

pub(crate) fn has(hall: &Hall, process: u32, dataset: u32) -> bool {
    match (ProcessId::new(process), DatasetId::new(dataset)) {
        (Some(process), Some(dataset)) => hall.histories().has(process, dataset),
        _ => false,
    }
}

// Whether the process has had access to what stands beside it in the pairs, and to no other dataset
// of the first four.
fn holds_as_said(hall: &Hall, process: u32, pairs: &[(u32, u32)]) -> bool {
    for dataset in 0..4 {
        let said = pairs.iter().any(|pair| *pair == (process, dataset));
        if has(hall, process, dataset) != said {
            return false;
        }
    }
    true
}

pub(crate) fn all_hold_as_said(hall: &Hall, pairs: &[(u32, u32)]) -> bool {
    for process in 0..4 {
        if !holds_as_said(hall, process, pairs) {
            return false;
        }
    }
    true
}

// Whether the script has these replies, and these pairs are then all that there are.
fn is_told(
    rt: &(impl AllocGlobal + Abort),
    wall: &str,
    texts: &Texts,
    held: &[(u32, u32)],
) -> bool {
    let mut source = MemorySource {
        rest: texts.script.as_bytes(),
        fuse: Fuse::Whole,
    };
    let mut sink = ExpectingSink {
        rest: texts.said.as_bytes(),
        is_same: true,
        fuse: Fuse::Whole,
    };
    match replay(rt.alloc(), policy_of(rt, wall), &mut source, &mut sink) {
        Ok(hall) => {
            let is_held = all_hold_as_said(&hall, held);
            drop(hall);
            is_held && sink.is_same && sink.rest.is_empty()
        }
        Err(_) => false,
    }
}

// The run's calls are answered as it says, and who has had access to what is then as it says.
fn expect_run(rt: &(impl AllocGlobal + Abort), run: &Run) -> Result<(), Fail> {
    let texts = texts_of(rt.alloc(), run)?;
    assert!(rt; is_told(rt, run.wall, &texts, run.held), "{}", texts.script);
    Ok(())
}

#[test]
fn a_broadcast_to_a_rival_is_denied(rt: HostRuntime) -> Result<(), Fail> {
    expect_run(&rt, &DENIED)
}

#[test]
fn a_sum_of_three_labels_is_delivered(rt: HostRuntime) -> Result<(), Fail> {
    expect_run(&rt, &SUMMED)
}

#[test]
fn each_colour_has_its_communicator(rt: HostRuntime) -> Result<(), Fail> {
    expect_run(&rt, &SPLIT)
}

#[test]
fn grids_and_their_rows_are_made(rt: HostRuntime) -> Result<(), Fail> {
    expect_run(&rt, &GRIDS)
}

#[test]
fn what_is_sent_enters_histories(rt: HostRuntime) -> Result<(), Fail> {
    expect_run(&rt, &SENT)
}

#[test]
fn who_holds_a_rivals_data_may_not_write_its_own(rt: HostRuntime) -> Result<(), Fail> {
    expect_run(&rt, &SENT_AND_BARRED)
}

#[test]
fn a_gather_of_two_rivals_is_denied(rt: HostRuntime) -> Result<(), Fail> {
    expect_run(&rt, &GATHERED)
}

#[test]
fn a_gather_of_all_is_denied(rt: HostRuntime) -> Result<(), Fail> {
    expect_run(&rt, &GATHERED_OF_ALL)
}

#[test]
fn who_has_one_rivals_number_gets_no_other(rt: HostRuntime) -> Result<(), Fail> {
    expect_run(&rt, &ASKED_IN_TURN)
}

#[test]
fn the_rival_who_was_asked_first_is_heard(rt: HostRuntime) -> Result<(), Fail> {
    expect_run(&rt, &ASKED_OF_BOTH)
}

#[test]
fn a_verdict_goes_by_the_last_post(rt: HostRuntime) -> Result<(), Fail> {
    expect_run(&rt, &ASKED_FIRST)
}

#[test]
fn a_write_is_judged_when_it_is_posted(rt: HostRuntime) -> Result<(), Fail> {
    expect_run(&rt, &ASKED_IN_BETWEEN)
}

#[test]
fn a_write_that_waits_is_an_access(rt: HostRuntime) -> Result<(), Fail> {
    expect_run(&rt, &GIVEN_AND_WAITING)
}

#[test]
fn a_number_is_relayed_and_not_to_a_rival(rt: HostRuntime) -> Result<(), Fail> {
    expect_run(&rt, &RELAYED)
}

#[test]
fn nothing_given_is_delivered_to_all(rt: HostRuntime) -> Result<(), Fail> {
    expect_run(&rt, &NOTHING_GIVEN)
}

#[test]
fn a_scan_of_two_is_no_crowd(rt: HostRuntime) -> Result<(), Fail> {
    expect_run(&rt, &SCANNED_IN_VERSION_1)
}

#[test]
fn a_scan_of_two_is_no_crowd_in_version_2(rt: HostRuntime) -> Result<(), Fail> {
    expect_run(&rt, &SCANNED_IN_VERSION_2)
}

#[test]
fn two_reductions_are_out_at_once(rt: HostRuntime) -> Result<(), Fail> {
    expect_run(&rt, &TWO_AT_ONCE)
}

#[test]
fn groups_have_their_members_alone(rt: HostRuntime) -> Result<(), Fail> {
    expect_run(&rt, &REFUSED_IN_GROUPS)
}

#[test]
fn requests_that_nobody_made_are_refused(rt: HostRuntime) -> Result<(), Fail> {
    expect_run(&rt, &NO_REQUESTS)
}

// A pair too few, one too many, and another one.
const NOT_HELD: &[&[(u32, u32)]] = &[&[], &[(0, ALPHA), (0, BETA)], &[(0, ALPHA), (3, CRUDE)]];

// These tests notice another reply, and a pair too few and too many.
#[test]
fn other_runs_are_noticed(rt: HostRuntime) -> Result<(), Fail> {
    let mut texts = texts_of(rt.alloc(), &NO_REQUESTS)?;
    assert!(&rt; is_told(&rt, ALONE, &texts, NO_REQUESTS.held));
    for held in NOT_HELD {
        assert!(&rt; !is_told(&rt, ALONE, &texts, held));
    }
    texts.said.push_str("pending\n")?;
    assert!(&rt; !is_told(&rt, ALONE, &texts, NO_REQUESTS.held));
    Ok(())
}

// A process may have 256 requests that it has not taken: one more is refused, until one was taken.
fn put_full_window(texts: &mut Texts) -> Result<(), AllocError> {
    let Texts { script, said } = texts;
    for request in 0..256 {
        script.push_str("post 0 0 barrier\n")?;
        write!(said, "posted {request}\n")?;
    }
    script.push_str("post 0 0 barrier\n")?;
    said.push_str("refused TooManyRequests\n")?;
    for process in 1..4 {
        write!(script, "post {process} 0 barrier\n")?;
        said.push_str("posted 0\n")?;
    }
    script.push_str("take 0 0\npost 0 0 barrier\n")?;
    said.push_str("delivered none\nposted 256\n")
}

#[test]
fn a_request_that_was_taken_leaves_its_place(rt: HostRuntime) -> Result<(), Fail> {
    let mut texts = no_texts(rt.alloc());
    put_full_window(&mut texts)?;
    assert!(&rt; is_told(&rt, FOUR_OF_A_BANK, &texts, HOMES_OF_THE_BANK));
    Ok(())
}

// A policy of 64 processes without a home; and a barrier of all, which waits for the last of them.
fn policy_of_64(alloc: Global) -> Result<String, AllocError> {
    let mut policy = String::from_str(alloc, "version = 1\n")?;
    for process in 0..64 {
        write!(policy, "[[process]]\nname = \"p{process}\"\n")?;
    }
    Ok(policy)
}

fn put_barrier_of_64(texts: &mut Texts) -> Result<(), AllocError> {
    let Texts { script, said } = texts;
    for process in 0..63 {
        write!(script, "post {process} 0 barrier\n")?;
        said.push_str("posted 0\n")?;
    }
    script.push_str("take 0 0\npost 63 0 barrier\ntake 63 0\n")?;
    said.push_str("pending\nposted 0\ndelivered none\n")
}

#[test]
fn a_barrier_waits_for_the_last_of_64(rt: HostRuntime) -> Result<(), Fail> {
    let policy = policy_of_64(rt.alloc())?;
    let mut texts = no_texts(rt.alloc());
    put_barrier_of_64(&mut texts)?;
    assert!(&rt; is_told(&rt, &policy, &texts, &[]));
    Ok(())
}
