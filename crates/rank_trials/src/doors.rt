//! Doors of one process and of four. Alpha and beta are rivals.
//!
//! A way out that lets a wide value go by itself, as a door or an answer, takes the prover half a
//! minute. So `expect` stands in place of `?`, and what is wide is handed to `drop` at the end.
ghost use Rattle.std.specs.Prelude.{◌≡◌};
ghost use Rattle.std.specs.List.{All};
ghost use Rattle.run_model.specs.Known.{IsKnownLabel};
ghost use Rattle.hall_turn.specs.Answers.{MayFinish};

use crate::parties::{front, label, open, over, wall};
use coll_routes::{Own, Signature};
use coll_values::{Block, Integers};
use hall_core::{Act, Call, Hall, Posting, Refusal, Reply};
use hall_turn::{Answer, Claim, Claimed, CloseFault, Door, Pass, Passes, Unclosed, finish};
use mpi_elems::{Buffer, ElemType};
use std::alloc::{AllocError, Global};
use std::fmt::Write;
use std::process::Abort;
use std::rt::Files;
use std::sync::Wait;
use std::test::Fail;
use std::thread::{Threads, join};
use trial_kit::pages;
use trial_kit::policies::{ALONE, BANKS_AND_OIL, FRIENDS};
use wall_labels::{Label, Op};
use wall_policy::Policy;

/// A post on the communicator of all processes.
pub(crate) fn posting<R: Abort>(
    rt: &R,
    alloc: Global,
    sig: Signature,
    label: Label,
    numbers: &[i128],
) -> Posting
    ensures { result.label ≡ label }
{
    let elements = Buffer::from_numbers(alloc, ElemType::Int32, numbers).expect(rt, "no elements");
    Posting {
        comm: 0,
        sig,
        own: Own::Plain,
        label,
        elements,
    }
}

/// A broadcast of two numbers of the first process to all.
fn broadcast<R: Abort>(rt: &R, alloc: Global, label: Label, numbers: &[i128]) -> Posting
    ensures { result.label ≡ label }
{
    let sig = Signature::Bcast {
        root: 0,
        elem_type: ElemType::Int32,
        count: 2,
    };
    posting(rt, alloc, sig, label, numbers)
}

/// A sum of one number of each process.
fn sum<R: Abort>(rt: &R, alloc: Global, label: Label, number: i128) -> Posting
    ensures { result.label ≡ label }
{
    let sig = Signature::Allreduce {
        op: Op::Sum,
        elem_type: ElemType::Int32,
        count: 1,
    };
    posting(rt, alloc, sig, label, &[number])
}

/// The last of the passes.
pub(crate) fn last<R: Abort>(rt: &R, door: &Door, passes: &mut Passes) -> Pass
    requires { All (λ pass. pass.door ≡ door.now) passes.old.items }
    ensures pass { result.door ≡ door.now }
    ensures rest { All (λ pass. pass.door ≡ door.now) passes.new.items }
{
    passes.pop().expect(rt, "no pass is left")
}

/// The pass is put back behind the others.
pub(crate) fn put<R: Abort>(rt: &R, door: &Door, passes: &mut Passes, pass: Pass)
    requires passes { All (λ pass. pass.door ≡ door.now) passes.old.items }
    requires pass { pass.door ≡ door.now }
    ensures { All (λ pass. pass.door ≡ door.now) passes.new.items }
{
    passes.push(pass).ok().expect(rt, "no memory");
}

fn are(given: &Integers, numbers: &[i128]) -> bool {
    match numbers {
        [one] => given.len() == 1 && given.get(0) == *one,
        [first, second] => given.len() == 2 && given.get(0) == *first && given.get(1) == *second,
        _ => false,
    }
}

pub(crate) fn is_delivered(answer: &Answer, numbers: &[i128]) -> bool {
    let Answer::Reply(Reply::Delivered(delivery)) = answer else {
        return false;
    };
    match delivery.as_slice() {
        [] => numbers.is_empty(),
        [Block::Numbers(given)] => are(given, numbers),
        _ => false,
    }
}

pub(crate) fn is_posted(answer: &Answer, request: u64) -> bool {
    match answer {
        Answer::Reply(Reply::Posted(given)) => *given == request,
        _ => false,
    }
}

pub(crate) fn is_refused(answer: &Answer, why: Refusal) -> bool {
    match answer {
        Answer::Reply(Reply::Refused(refusal)) => *refusal == why,
        _ => false,
    }
}

fn is_info(answer: &Answer, members: u32, own: u32) -> bool {
    match answer {
        Answer::Reply(Reply::Info { size, rank, dims }) => {
            *size == members && *rank == own && dims.is_none()
        }
        _ => false,
    }
}

/// The post is counted, and has this request.
pub(crate) fn post<R: Wait + Abort>(
    rt: &R,
    door: &Door,
    pass: &mut Pass,
    posting: Posting,
    request: u64,
)
    requires door { pass.old.door ≡ door.now }
    requires label { IsKnownLabel door.now.policy posting.label }
    ensures { pass.new.door ≡ door.now }
{
    let answer = door.post(rt, pass, posting);
    assert!(rt; is_posted(&answer, request));
    drop(answer);
}

/// The take brings these numbers.
pub(crate) fn take<R: Wait + Abort>(
    rt: &R,
    door: &Door,
    pass: &mut Pass,
    request: u64,
    numbers: &[i128],
)
    requires { pass.old.door ≡ door.now }
    ensures { pass.new.door ≡ door.now }
{
    let answer = door.take(rt, pass, request);
    assert!(rt; is_delivered(&answer, numbers));
    drop(answer);
}

/// Whether the claim is ready, with this rank.
pub(crate) fn is_ready(claimed: &Claimed, own: u32) -> bool {
    match claimed {
        Claimed::Claim(Claim::Ready { rank, .. }) => *rank == own,
        _ => false,
    }
}

/// What the claim comes to.
pub(crate) fn finished(claimed: Claimed) -> Answer
    requires { MayFinish claimed }
{
    match claimed {
        Claimed::Claim(claim) => Answer::Reply(finish(claim)),
        Claimed::Exhausted => Answer::Exhausted,
    }
}

/// The claim of the first request is ready with this rank, and brings these numbers.
pub(crate) fn claim<R: Wait + Abort>(
    rt: &R,
    door: &Door,
    pass: &mut Pass,
    own: u32,
    numbers: &[i128],
)
    requires { pass.old.door ≡ door.now }
    ensures { pass.new.door ≡ door.now }
{
    let claimed = door.claim(rt, pass, 0);
    assert!(rt; is_ready(&claimed, own));
    let answer = finished(claimed);
    assert!(rt; is_delivered(&answer, numbers));
    drop(answer);
}

/// A take is refused: the request is not known.
fn take_unknown<R: Wait + Abort>(rt: &R, door: &Door, pass: &mut Pass, request: u64)
    requires { pass.old.door ≡ door.now }
    ensures { pass.new.door ≡ door.now }
{
    let answer = door.take(rt, pass, request);
    assert!(rt; is_refused(&answer, Refusal::NoSuchRequest));
    drop(answer);
}

/// The info of the communicator of all, of which this process alone is a member.
fn info_alone<R: Wait + Abort>(rt: &R, door: &Door, pass: &mut Pass)
    requires { pass.old.door ≡ door.now }
    ensures { pass.new.door ≡ door.now }
{
    let answer = door.info(rt, pass, 0);
    assert!(rt; is_info(&answer, 1, 0));
    drop(answer);
}

/// An info is refused: the communicator is not known.
fn info_unknown<R: Wait + Abort>(rt: &R, door: &Door, pass: &mut Pass, comm: u32)
    requires { pass.old.door ≡ door.now }
    ensures { pass.new.door ≡ door.now }
{
    let answer = door.info(rt, pass, comm);
    assert!(rt; is_refused(&answer, Refusal::NoSuchComm));
    drop(answer);
}

/// A door of one process: each call that takes a turn, and each refusal of a take and of an info.
fn call_alone<R: Wait + Abort>(rt: &R, door: &Door, pass: &mut Pass, posting: Posting)
    requires door { pass.old.door ≡ door.now }
    requires label { IsKnownLabel door.now.policy posting.label }
    ensures { pass.new.door ≡ door.now }
{
    post(rt, door, pass, posting, 0);
    take(rt, door, pass, 0, &[]);
    take_unknown(rt, door, pass, 0);
    info_alone(rt, door, pass);
    info_unknown(rt, door, pass, 9);
    front(rt, door, pass, 5);
}

#[test]
fn one_process_calls(rt: HostRuntime) {
    let policy = wall(&rt, rt.alloc(), ALONE);
    let barrier = posting(&rt, rt.alloc(), Signature::Barrier, Label::Public, &[]);
    let (door, mut passes) = open(&rt, rt.alloc(), policy);
    let mut pass = last(&rt, &door, &mut passes);
    assert!(&rt; passes.len() == 0 && pass.process() == 0);
    call_alone(&rt, &door, &mut pass, barrier);
    drop(pass);
    drop(passes);
    drop(door);
}

/// A hall has nothing to write down, so a pass of it is always booked.
fn call_booked<R: Wait + Abort>(rt: &R, door: &Door, pass: &mut Pass, posting: Posting)
    requires door { pass.old.door ≡ door.now }
    requires label { IsKnownLabel door.now.policy posting.label }
{
    assert!(rt; pass.is_booked());
    call_alone(rt, door, pass, posting);
    assert!(rt; pass.is_booked());
}

#[test]
fn one_process_calls_over_a_hall(rt: HostRuntime) {
    let policy = wall(&rt, rt.alloc(), ALONE);
    let barrier = posting(&rt, rt.alloc(), Signature::Barrier, Label::Public, &[]);
    let (door, mut passes) = over(&rt, rt.alloc(), &policy);
    let mut pass = last(&rt, &door, &mut passes);
    call_booked(&rt, &door, &mut pass, barrier);
    drop(pass);
    drop(passes);
    drop(door);
    drop(policy);
}

/// What fronts and notes tell: a pass that learnt nothing looks for itself.
fn tell<R: Wait + Abort>(
    rt: &R,
    door: &Door,
    a0: &mut Pass,
    b0: &mut Pass,
    c0: &mut Pass,
    posting: Posting,
)
    requires a0 { a0.old.door ≡ door.now }
    requires b0 { b0.old.door ≡ door.now }
    requires c0 { c0.old.door ≡ door.now }
    requires label { IsKnownLabel door.now.policy posting.label }
    ensures a0 { a0.new.door ≡ door.now }
    ensures b0 { b0.new.door ≡ door.now }
    ensures c0 { c0.new.door ≡ door.now }
{
    front(rt, door, a0, 0);
    front(rt, door, b0, 0);
    front(rt, door, c0, 0);
    post(rt, door, a0, posting, 0);
    front(rt, door, a0, 1);
    let note = door.note(a0);
    door.learn(b0, note);
    front(rt, door, b0, 1);
    front(rt, door, c0, 1);
}

/// The first three of four passes: they tell one another of a post, and are put back. The fourth
/// is kept apart.
fn tell_three<R: Wait + Abort>(rt: &R, door: &Door, passes: &mut Passes, posting: Posting) -> Pass
    requires passes { All (λ pass. pass.door ≡ door.now) passes.old.items }
    requires label { IsKnownLabel door.now.policy posting.label }
    ensures apart { result.door ≡ door.now }
    ensures passes { All (λ pass. pass.door ≡ door.now) passes.new.items }
{
    let n0 = last(rt, door, passes);
    let mut c0 = last(rt, door, passes);
    let mut b0 = last(rt, door, passes);
    let mut a0 = last(rt, door, passes);
    tell(rt, door, &mut a0, &mut b0, &mut c0, posting);
    put(rt, door, passes, a0);
    put(rt, door, passes, b0);
    put(rt, door, passes, c0);
    n0
}

/// A door is not closed where a pass is missing: it comes back, with the passes.
fn refuse<R: Abort>(rt: &R, door: Door, passes: Passes) -> (Door, Passes)
    requires { All (λ pass. pass.door ≡ door) passes.items }
    ensures door { result.0 ≡ door }
    ensures passes { result.1.items ≡ passes.items }
{
    let unclosed = door.close(passes).err().expect(rt, "a pass is missing");
    let Unclosed {
        fault,
        door,
        passes,
    } = unclosed;
    assert!(rt; fault == CloseFault::MissingPass);
    (door, passes)
}

/// The hall of a door that is closed by all passes.
pub(crate) fn close<R: Abort>(rt: &R, door: Door, passes: Passes) -> Hall
    requires { All (λ pass. pass.door ≡ door) passes.items }
{
    door.close(passes).ok().expect(rt, "no pass is missing")
}

/// The hall has one post, which stands in its book, and whose request waits.
fn has_one<R: Abort>(rt: &R, hall: &mut Hall) {
    assert!(rt; hall.book().len() == 1);
    let reply = hall.apply(Call {
        process: 0,
        act: Act::Take(0),
    });
    assert!(rt; matches!(&reply, Reply::Pending));
    drop(reply);
}

/// A door is closed by all passes alone.
fn end<R: Abort>(rt: &R, door: Door, passes: Passes, missing: Pass)
    requires passes { All (λ pass. pass.door ≡ door) passes.items }
    requires missing { missing.door ≡ door }
{
    let (door, mut passes) = refuse(rt, door, passes);
    put(rt, &door, &mut passes, missing);
    let mut hall = close(rt, door, passes);
    has_one(rt, &mut hall);
    drop(hall);
}

#[test]
fn door_is_closed_by_all(rt: HostRuntime) {
    let policy = wall(&rt, rt.alloc(), BANKS_AND_OIL);
    let alpha = label(&policy, "alpha");
    let posting = broadcast(&rt, rt.alloc(), alpha, &[7, -1]);
    let (door, mut passes) = open(&rt, rt.alloc(), policy);
    let n0 = tell_three(&rt, &door, &mut passes, posting);
    end(&rt, door, passes, n0);
}

/// The posts of four processes.
#[derive(Drop)]
struct Posts {
    a0: Posting,
    b0: Posting,
    c0: Posting,
    n0: Posting,
}

/// A number of each process, to be summed.
fn sums<R: Abort>(rt: &R, alloc: Global, policy: &Policy) -> Posts
    ensures a0 { IsKnownLabel policy.now result.a0.label }
    ensures b0 { IsKnownLabel policy.now result.b0.label }
    ensures c0 { IsKnownLabel policy.now result.c0.label }
    ensures n0 { IsKnownLabel policy.now result.n0.label }
{
    let alpha = label(policy, "alpha");
    let beta = label(policy, "beta");
    let crude = label(policy, "crude");
    Posts {
        a0: sum(rt, alloc, alpha, 5),
        b0: sum(rt, alloc, beta, 6),
        c0: sum(rt, alloc, crude, 7),
        n0: sum(rt, alloc, Label::Public, 1),
    }
}

/// Four passes post in turn: their posts meet in one hall, and a sum of them all is sanitised for
/// all.
fn meet<R: Wait + Abort>(rt: &R, door: &Door, passes: &mut Passes, posts: Posts)
    requires passes { All (λ pass. pass.door ≡ door.now) passes.old.items }
    requires a0 { IsKnownLabel door.now.policy posts.a0.label }
    requires b0 { IsKnownLabel door.now.policy posts.b0.label }
    requires c0 { IsKnownLabel door.now.policy posts.c0.label }
    requires n0 { IsKnownLabel door.now.policy posts.n0.label }
{
    let mut n0 = last(rt, door, passes);
    let mut c0 = last(rt, door, passes);
    let mut b0 = last(rt, door, passes);
    let mut a0 = last(rt, door, passes);
    post(rt, door, &mut a0, posts.a0, 0);
    post(rt, door, &mut b0, posts.b0, 0);
    post(rt, door, &mut c0, posts.c0, 0);
    post(rt, door, &mut n0, posts.n0, 0);
    take(rt, door, &mut a0, 0, &[19]);
    take(rt, door, &mut n0, 0, &[19]);
    front(rt, door, &mut c0, 6);
    claim(rt, door, &mut c0, 2, &[19]);
    front(rt, door, &mut n0, 7);
    drop(a0);
    drop(b0);
    drop(c0);
    drop(n0);
}

#[test]
fn posts_meet(rt: HostRuntime) {
    let policy = wall(&rt, rt.alloc(), BANKS_AND_OIL);
    let posts = sums(&rt, rt.alloc(), &policy);
    let (door, mut passes) = open(&rt, rt.alloc(), policy);
    meet(&rt, &door, &mut passes, posts);
    drop(passes);
    drop(door);
}

fn post_as<R: Wait>(rt: &R, door: &Door, mut pass: Pass, posting: Posting) -> Pass
    requires door { pass.door ≡ door.now }
    requires label { IsKnownLabel door.now.policy posting.label }
    ensures { result.door ≡ door.now }
{
    drop(door.post(rt, &mut pass, posting));
    pass
}

/// Two threads post, each by its pass.
fn post_both<R: Threads + Wait + Sync>(
    rt: &R,
    door: &Door,
    first: Pass,
    second: Pass,
    mine: Posting,
    theirs: Posting,
) -> (Pass, Pass)
    requires first { first.door ≡ door.now }
    requires second { second.door ≡ door.now }
    requires mine { IsKnownLabel door.now.policy mine.label }
    requires theirs { IsKnownLabel door.now.policy theirs.label }
    ensures { (result.0.door ≡ door.now) × (result.1.door ≡ door.now) }
{
    join(
        rt,
        move || -> Pass
            requires { (first.door ≡ door.now) × IsKnownLabel door.now.policy mine.label }
            ensures { result.door ≡ door.entry.now }
        { post_as(rt, door, first, mine) },
        move || -> Pass
            requires { (second.door ≡ door.now) × IsKnownLabel door.now.policy theirs.label }
            ensures { result.door ≡ door.entry.now }
        { post_as(rt, door, second, theirs) },
    )
}

/// Two threads post, and each pass then takes what both posts brought.
fn meet_by_threads<R: Threads + Wait + Sync + Abort>(
    rt: &R,
    door: &Door,
    passes: &mut Passes,
    mine: Posting,
    theirs: Posting,
)
    requires passes { All (λ pass. pass.door ≡ door.now) passes.old.items }
    requires mine { IsKnownLabel door.now.policy mine.label }
    requires theirs { IsKnownLabel door.now.policy theirs.label }
{
    let second = last(rt, door, passes);
    let first = last(rt, door, passes);
    let (mut first, mut second) = post_both(rt, door, first, second, mine, theirs);
    front(rt, door, &mut first, 2);
    take(rt, door, &mut second, 0, &[7, -1]);
    take(rt, door, &mut first, 0, &[]);
    drop(first);
    drop(second);
}

#[test]
fn threads_post(rt: HostRuntime) {
    let policy = wall(&rt, rt.alloc(), FRIENDS);
    let alpha = label(&policy, "alpha");
    let mine = broadcast(&rt, rt.alloc(), alpha, &[7, -1]);
    let theirs = broadcast(&rt, rt.alloc(), Label::Public, &[]);
    let (door, mut passes) = open(&rt, rt.alloc(), policy);
    meet_by_threads(&rt, &door, &mut passes, mine, theirs);
    drop(passes);
    drop(door);
}

/// A door under a copy of the policy is opened and let go with its passes, and another is closed.
fn open_two<R: Abort>(rt: &R, alloc: Global, policy: &Policy) {
    let copy = policy.copy(alloc).expect(rt, "the policy is not copied");
    let (door, passes) = open(rt, alloc, copy);
    drop(passes);
    drop(door);
    let copy = policy.copy(alloc).expect(rt, "the policy is not copied");
    let (door, passes) = open(rt, alloc, copy);
    let hall = close(rt, door, passes);
    drop(hall);
}

/// A tool that looks for uses of what was let go keeps up to so many bytes of it from use.
const KEPT: usize = 1 << 28;

/// Two hundred doors, one after another. So much room at the end, which nothing is written to,
/// takes what such a tool has kept of them out of its hands.
fn open_two_hundred<R: Abort>(rt: &R, alloc: Global, policy: &Policy) {
    for _ in 0..100 {
        open_two(rt, alloc, policy);
    }
    let room: Result<Vec<u8>, AllocError> = Vec::with_capacity(alloc, KEPT);
    drop(room);
}

fn open_hundreds<R: Abort>(rt: &R, alloc: Global, policy: &Policy, hundreds: u32) {
    for _ in 0..hundreds {
        open_two_hundred(rt, alloc, policy);
    }
}

/// Two thousand doors more take no more memory, but for some pages that the allocator keeps. Of a
/// door of 256 processes each list that has a place for each of them is a page or more.
fn keep_no_pages<R: Files + AllocGlobal + Abort>(rt: &R, policy: &Policy) -> Result<(), Fail> {
    open_hundreds(rt, rt.alloc(), policy, 2);
    let before = pages(rt, 1)?;
    open_hundreds(rt, rt.alloc(), policy, 10);
    let after = pages(rt, 1)?;
    assert!(rt;
        after < before.saturating_add(512),
        "{before} pages, then {after}"
    );
    Ok(())
}

/// The text of a policy of as many processes as there can be, each without a home.
fn crowd(alloc: Global) -> Result<String, Fail> {
    let mut text = String::from_str(alloc, "version = 1\n")?;
    for process in 0..256u32 {
        write!(text, "[[process]]\nname = \"p{process}\"\n")?;
    }
    Ok(text)
}

/// A door that is let go, with its passes, takes its hall with it; one that is closed leaves its
/// hall alone, which takes all with it that it has.
#[test]
fn doors_are_let_go(rt: HostRuntime) -> Result<(), Fail> {
    let text = crowd(rt.alloc())?;
    let policy = wall(&rt, rt.alloc(), text.as_str());
    let kept = keep_no_pages(&rt, &policy);
    drop(policy);
    kept
}

/// Other answers than those that these tests hold a door to are told apart from them.
#[test]
fn other_answers_are_told_apart(rt: HostRuntime) {
    let posted = Answer::Reply(Reply::Posted(1));
    assert!(&rt; is_posted(&posted, 1) && !is_posted(&posted, 0));
    assert!(&rt; !is_delivered(&posted, &[]) && !is_info(&posted, 1, 0));
    assert!(&rt; !is_refused(&posted, Refusal::NoSuchRequest));
    let refused = Answer::Reply(Reply::Refused(Refusal::NoSuchComm));
    assert!(&rt; is_refused(&refused, Refusal::NoSuchComm) && !is_posted(&refused, 0));
    assert!(&rt; !is_refused(&refused, Refusal::NoSuchRequest));
    let exhausted = Answer::Exhausted;
    assert!(&rt; !is_posted(&exhausted, 0) && !is_delivered(&exhausted, &[]));
    let unclaimed = Claimed::Exhausted;
    assert!(&rt; !is_ready(&unclaimed, 0));
    drop(posted);
    drop(refused);
    drop(exhausted);
    drop(unclaimed);
}
