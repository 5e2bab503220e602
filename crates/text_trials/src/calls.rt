//! Worked lists of calls with their replies. Alpha and beta are rivals, crude and delta too.
//!
//! A hall, a policy, calls and replies are let go by a call of `drop`, not by the end of a block:
//! there the proof would take the value apart, field by field, which takes a minute for a hall.
ghost use Rattle.std.specs.Prelude.{IfOk};
ghost use Rattle.wall_policy.specs.Policy.{ChineseWall};
ghost use Rattle.run_model.specs.Known.{IsKnownLabel, HasKnownLabel, HaveKnownLabels};

use coll_routes::{Numbers, Own, Signature};
use hall_core::{
    Act, Block, Call, Calls, Claim, Delivery, Hall, NoMemory, Posting, Replies, Reply, finish,
    run_calls,
};
use mpi_elems::{Buffer, ElemType};
use std::alloc::{AllocError, Global};
use std::test::Fail;
use wall_labels::{DatasetId, Label, Op, ProcessId};
use wall_policy::{Policy, read_policy};

/// Four processes: a0 at home with alpha, b0 with beta, c0 with crude, n0 nowhere. Sums of three
/// and more are sanitised.
pub(crate) const RIVALS: &str = "\
version = 1\n\
[[class]]\nname = \"banks\"\ndatasets = [\"alpha\", \"beta\"]\n\
[[class]]\nname = \"oil\"\ndatasets = [\"crude\", \"delta\"]\n\
[[process]]\nname = \"a0\"\nhome = \"alpha\"\n\
[[process]]\nname = \"b0\"\nhome = \"beta\"\n\
[[process]]\nname = \"c0\"\nhome = \"crude\"\n\
[[process]]\nname = \"n0\"\n\
[[sanitise]]\nop = \"sum\"\nleast = 3\n";

/// Four processes, all at home with alpha.
pub(crate) const FRIENDS: &str = "\
version = 1\n\
[[class]]\nname = \"banks\"\ndatasets = [\"alpha\", \"beta\"]\n\
[[process]]\nname = \"p0\"\nhome = \"alpha\"\n\
[[process]]\nname = \"p1\"\nhome = \"alpha\"\n\
[[process]]\nname = \"p2\"\nhome = \"alpha\"\n\
[[process]]\nname = \"p3\"\nhome = \"alpha\"\n";

/// What a process does: a broadcast on a communicator from a root of so many numbers, with its own
/// under a label; a sum over all, of its own numbers under a label; a split of the world, by colour
/// and key; a gather of one number each; a take; an info. Or a group of these ranks of the world is
/// created; or all gather one number of each, on a communicator; or all four trade 1,024 numbers
/// with each, by counts in a vector that had so many.
#[derive(Clone, Copy)]
pub(crate) enum Doing {
    Group(&'static [u32]),
    Share(u32, &'static str, &'static [i128]),
    Cast(u32, u32, u32, &'static str, &'static [i128]),
    Sum(&'static str, &'static [i128]),
    Part(Option<i32>, i32),
    Gather(u32, u32, &'static str, &'static [i128]),
    Trade(usize, &'static str, &'static [i128]),
    Take(u64),
    Info(u32),
}

use Doing::{Cast, Gather, Group, Info, Part, Share, Sum, Take, Trade};

/// A process, what it does, and the reply.
pub(crate) type Line = (u32, Doing, &'static str);

/// A bank's numbers reach nobody, since its rival would get them too.
const DENIED_TO_ALL: &[Line] = &[
    (0, Cast(0, 0, 2, "alpha", &[7, -1]), "posted 0"),
    (1, Cast(0, 0, 2, "public", &[]), "posted 0"),
    (2, Cast(0, 0, 2, "public", &[]), "posted 0"),
    (0, Take(0), "pending"),
    (3, Cast(0, 0, 2, "public", &[]), "posted 0"),
    (0, Take(0), "denied Simple 1 0"),
    (1, Take(0), "denied Simple 1 0"),
    (2, Take(0), "denied Simple 1 0"),
    (3, Take(0), "denied Simple 1 0"),
];

/// A process of the oil firm may not write for a bank: its post counts, and its instance is denied.
const BARRED: &[Line] = &[
    (2, Cast(0, 2, 1, "alpha", &[4]), "barred 0 0"),
    (0, Cast(0, 2, 1, "public", &[]), "posted 0"),
    (1, Cast(0, 2, 1, "public", &[]), "posted 0"),
    (3, Cast(0, 2, 1, "public", &[]), "posted 0"),
    (0, Take(0), "denied Star 2 0"),
];

/// A sum of four is sanitised: all get it, and n0, which has had access to nothing, may then write
/// as public.
pub(crate) const SUM_OF_FOUR: &[Line] = &[
    (0, Sum("alpha", &[5]), "posted 0"),
    (1, Sum("beta", &[6]), "posted 0"),
    (2, Sum("crude", &[7]), "posted 0"),
    (3, Sum("public", &[1]), "posted 0"),
    (0, Take(0), "delivered [19]"),
    (1, Take(0), "delivered [19]"),
    (2, Take(0), "delivered [19]"),
    (3, Take(0), "delivered [19]"),
    (3, Take(0), "refused NoSuchRequest"),
    (3, Cast(0, 3, 1, "public", &[2]), "posted 1"),
];

/// A split into two, and a broadcast in the greater part.
const SPLIT: &[Line] = &[
    (0, Part(Some(2), 0), "posted 0"),
    (1, Part(None, 0), "posted 0"),
    (2, Part(Some(0), 5), "posted 0"),
    (3, Info(1), "refused NoSuchComm"),
    (3, Part(Some(2), 0), "posted 0"),
    (0, Take(0), "comm 2 rank 0 size 2"),
    (1, Take(0), "null"),
    (2, Take(0), "comm 1 rank 0 size 1"),
    (3, Take(0), "comm 2 rank 1 size 2"),
    (3, Info(2), "info 2 1"),
    (1, Info(2), "refused NotMember"),
    (0, Cast(2, 1, 2, "public", &[]), "posted 1"),
    (3, Cast(2, 1, 2, "alpha", &[7, -1]), "posted 1"),
    (0, Take(1), "delivered [7 -1]"),
    (3, Take(1), "delivered none"),
    (1, Cast(2, 1, 2, "public", &[]), "refused NotMember"),
];

/// The refusals that a broadcast can meet.
const REFUSED: &[Line] = &[
    (0, Cast(0, 0, 1, "alpha", &[5]), "posted 0"),
    (1, Cast(0, 0, 2, "public", &[]), "refused Mismatch"),
    (1, Cast(0, 4, 1, "public", &[]), "refused BadRoot"),
    (1, Cast(0, 0, 1, "alpha", &[5]), "refused BadCount"),
    (1, Cast(0, 0, 65537, "public", &[]), "refused BadCount"),
    (1, Cast(1, 0, 1, "public", &[]), "refused NoSuchComm"),
    (9, Cast(0, 0, 1, "public", &[]), "refused NoSuchProcess"),
    (0, Take(1), "refused NoSuchRequest"),
];

/// A process may have 256 requests that it has not taken: this one has 255. A bad root is told
/// first.
const ONE_TOO_MANY: &[Line] = &[
    (0, Cast(0, 0, 0, "public", &[]), "posted 255"),
    (0, Cast(0, 0, 0, "public", &[]), "refused TooManyRequests"),
    (0, Cast(0, 4, 0, "public", &[]), "refused BadRoot"),
];

/// A label of the policy, public if it has none of that name.
fn label(policy: &Policy, name: &str) -> Label
    ensures { IsKnownLabel policy.now result }
{
    match policy.dataset_named(name) {
        Some(dataset) => Label::Of(dataset),
        None => Label::Public,
    }
}

/// A post. Each number of the rows fits the type, so that there is one wherever memory was given.
fn posted(
    alloc: Global,
    comm: u32,
    sig: Signature,
    own: Own,
    label: Label,
    numbers: &[i128],
) -> Result<Act, Fail>
    ensures { IfOk result
        (λ act. (wall : ChineseWall) → IsKnownLabel wall label → HasKnownLabel wall act) }
{
    match Buffer::from_numbers(alloc, ElemType::Int32, numbers) {
        Ok(elements) => Ok(Act::Post(Posting {
            comm,
            sig,
            own,
            label,
            elements,
        })),
        Err(fault) => {
            drop(sig);
            drop(own);
            Err(Fail::from(fault))
        }
    }
}

fn group(alloc: Global, ranks: &[u32]) -> Result<Signature, Fail> {
    match ranks.to_vec(alloc) {
        Ok(ranks) => Ok(Signature::Create {
            ranks: Numbers::from(ranks),
        }),
        Err(refused) => Err(Fail::from(refused)),
    }
}

/// A count of 1,024 for each of four, in a vector that had so many.
fn roomy_counts(alloc: Global, room: usize) -> Result<Own, Fail> {
    match vec![in alloc; 1024u32; room] {
        Ok(mut counts) => {
            counts.truncate(4);
            Ok(Own::Counts(Numbers::from(counts)))
        }
        Err(refused) => Err(Fail::from(NoMemory::from(refused))),
    }
}

fn act(alloc: Global, doing: Doing, label: Label) -> Result<Act, Fail>
    ensures { IfOk result
        (λ act. (wall : ChineseWall) → IsKnownLabel wall label → HasKnownLabel wall act) }
{
    let elem_type = ElemType::Int32;
    match doing {
        Cast(comm, root, count, _, numbers) => {
            let sig = Signature::Bcast {
                root,
                elem_type,
                count,
            };
            posted(alloc, comm, sig, Own::Plain, label, numbers)
        }
        Sum(_, numbers) => {
            let sig = Signature::Allreduce {
                op: Op::Sum,
                elem_type,
                count: 1,
            };
            posted(alloc, 0, sig, Own::Plain, label, numbers)
        }
        Group(ranks) => match group(alloc, ranks) {
            Ok(sig) => posted(alloc, 0, sig, Own::Plain, label, &[]),
            Err(fail) => Err(fail),
        },
        Share(comm, _, numbers) => {
            let sig = Signature::Allgather {
                elem_type,
                count: 1,
            };
            posted(alloc, comm, sig, Own::Plain, label, numbers)
        }
        Part(colour, key) => posted(
            alloc,
            0,
            Signature::Split,
            Own::Split { colour, key },
            label,
            &[],
        ),
        Gather(comm, root, _, numbers) => {
            let sig = Signature::Gather {
                root,
                elem_type,
                count: 1,
            };
            posted(alloc, comm, sig, Own::Plain, label, numbers)
        }
        Trade(room, _, numbers) => match roomy_counts(alloc, room) {
            Ok(own) => posted(
                alloc,
                0,
                Signature::Alltoallv { elem_type },
                own,
                label,
                numbers,
            ),
            Err(fail) => Err(fail),
        },
        Take(request) => Ok(Act::Take(request)),
        Info(comm) => Ok(Act::Info(comm)),
    }
}

fn label_name(doing: &Doing) -> &'static str {
    match doing {
        Cast(_, _, _, name, _) => *name,
        Sum(name, _) => *name,
        Share(_, name, _) => *name,
        Gather(_, _, name, _) => *name,
        Trade(_, name, _) => *name,
        _ => "public",
    }
}

fn call(alloc: Global, policy: &Policy, process: u32, doing: Doing) -> Result<Call, Fail>
    ensures { IfOk result (λ call. HasKnownLabel policy.now call.act) }
{
    let label = label(policy, label_name(&doing));
    match act(alloc, doing, label) {
        Ok(act) => Ok(Call { process, act }),
        Err(fail) => Err(fail),
    }
}

fn dataset_number(label: &Label) -> i32 {
    match label {
        Label::Public => -1,
        Label::Of(dataset) => dataset.number() as i32,
    }
}

fn block_text(alloc: Global, text: &mut String, block: &Block) -> Result<(), AllocError> {
    match block {
        Block::Missing => text.push_str(" -"),
        Block::Numbers(numbers) => {
            text.push_str(" [")?;
            for i in 0..numbers.len() {
                if i > 0 {
                    text.push_str(" ")?;
                }
                let number = numbers.get(i);
                let number = format!(in alloc; "{number}")?;
                text.push_str(number.as_str())?;
            }
            text.push_str("]")
        }
    }
}

fn delivery_text(alloc: Global, delivery: &Delivery) -> Result<String, AllocError> {
    if delivery.as_slice().is_empty() {
        return String::from_str(alloc, "delivered none");
    }
    let mut text = String::from_str(alloc, "delivered")?;
    for block in delivery.as_slice() {
        block_text(alloc, &mut text, block)?;
    }
    Ok(text)
}

fn reply_text(alloc: Global, reply: &Reply) -> Result<String, AllocError> {
    match reply {
        Reply::Posted(request) => format!(in alloc; "posted {request}"),
        Reply::Barred { request, label } => {
            let dataset = dataset_number(label);
            format!(in alloc; "barred {request} {dataset}")
        }
        Reply::Pending => String::from_str(alloc, "pending"),
        Reply::Delivered(delivery) => delivery_text(alloc, delivery),
        Reply::NewComm { comm, rank, size } => {
            format!(in alloc; "comm {comm} rank {rank} size {size}")
        }
        Reply::NullComm => String::from_str(alloc, "null"),
        Reply::Denied {
            rule,
            process,
            label,
        } => {
            let member = process.number();
            let dataset = dataset_number(label);
            format!(in alloc; "denied {rule:?} {member} {dataset}")
        }
        Reply::NoRoom => String::from_str(alloc, "no room"),
        Reply::Info { size, rank, .. } => format!(in alloc; "info {size} {rank}"),
        Reply::Refused(refusal) => format!(in alloc; "refused {refusal:?}"),
    }
}

fn push_call(alloc: Global, policy: &Policy, calls: &mut Vec<Call>, line: &Line) -> Result<(), Fail>
    requires { HaveKnownLabels policy.now calls.old.items }
    ensures { HaveKnownLabels policy.now calls.new.items }
{
    match call(alloc, policy, line.0, line.1) {
        Ok(call) => match calls.push(call) {
            Ok(()) => Ok(()),
            Err(refused) => Err(Fail::from(NoMemory::from(refused))),
        },
        Err(fail) => Err(fail),
    }
}

/// Adds the calls of the lines.
fn push_calls(
    alloc: Global,
    policy: &Policy,
    calls: &mut Vec<Call>,
    lines: &[Line],
) -> Result<(), Fail>
    requires { HaveKnownLabels policy.now calls.old.items }
    ensures { HaveKnownLabels policy.now calls.new.items }
{
    for line in lines {
        push_call(alloc, policy, calls, line)?;
    }
    Ok(())
}

/// The calls of the lines.
pub(crate) fn calls(alloc: Global, policy: &Policy, lines: &[Line]) -> Result<Calls, Fail>
    ensures { IfOk result (λ calls. HaveKnownLabels policy.now calls) }
{
    let mut calls = Vec::new(alloc);
    match push_calls(alloc, policy, &mut calls, lines) {
        Ok(()) => Ok(Calls::from(calls)),
        Err(fail) => {
            drop(calls);
            Err(fail)
        }
    }
}

fn is_told(alloc: Global, reply: &Reply, text: &str) -> Result<bool, Fail> {
    let told = reply_text(alloc, reply)?;
    Ok(told.as_str() == text)
}

/// Whether there is a reply for each line, and it is the line's.
pub(crate) fn told(alloc: Global, lines: &[Line], replies: &Replies) -> Result<bool, Fail> {
    if replies.as_slice().len() != lines.len() {
        return Ok(false);
    }
    for (line, reply) in lines.iter().zip(replies.as_slice()) {
        if !is_told(alloc, reply, line.2)? {
            return Ok(false);
        }
    }
    Ok(true)
}

/// Whether `run_calls` answers the calls as the lines say.
fn told_all(alloc: Global, policy: Policy, calls: Calls, lines: &[Line]) -> Result<bool, Fail>
    requires { HaveKnownLabels policy calls }
{
    match run_calls(alloc, policy, calls) {
        Ok(replies) => {
            let same = told(alloc, lines, &replies);
            drop(replies);
            same
        }
        Err(refused) => Err(Fail::from(refused)),
    }
}

/// Whether `run_calls` answers the lines' calls as they say. The text is a policy: it is read
/// wherever memory was given.
pub(crate) fn runs(alloc: Global, policy: &str, lines: &[Line]) -> Result<bool, Fail> {
    let policy = match read_policy(alloc, policy.as_bytes()) {
        Ok(policy) => policy,
        Err(fault) => return Err(Fail::from(fault)),
    };
    match calls(alloc, &policy, lines) {
        Ok(calls) => told_all(alloc, policy, calls, lines),
        Err(fail) => {
            drop(policy);
            Err(fail)
        }
    }
}

#[test]
fn rivals_get_no_numbers(rt: HostRuntime) -> Result<(), Fail> {
    assert!(rt; runs(rt.alloc(), RIVALS, DENIED_TO_ALL)?);
    assert!(rt; runs(rt.alloc(), RIVALS, BARRED)?);
    Ok(())
}

#[test]
fn all_get_a_sanitised_sum(rt: HostRuntime) -> Result<(), Fail> {
    assert!(rt; runs(rt.alloc(), RIVALS, SUM_OF_FOUR)?);
    Ok(())
}

#[test]
fn friends_split_and_get_numbers(rt: HostRuntime) -> Result<(), Fail> {
    assert!(rt; runs(rt.alloc(), FRIENDS, REFUSED)?);
    assert!(rt; runs(rt.alloc(), FRIENDS, SPLIT)?);
    Ok(())
}

/// Whether it holds in a hall that is opened with the policy.
pub(crate) fn at_a_hall<F: FnOnce(Global, &mut Hall) -> Result<bool, Fail> + Drop>(
    alloc: Global,
    policy: &str,
    holds: F,
) -> Result<bool, Fail>
    requires { F.IsAlwaysCallable holds }
{
    let policy = match read_policy(alloc, policy.as_bytes()) {
        Ok(policy) => policy,
        Err(fault) => return Err(Fail::from(fault)),
    };
    match Hall::open(alloc, policy) {
        Ok(mut hall) => {
            let held = holds(alloc, &mut hall);
            drop(hall);
            held
        }
        Err(refused) => Err(Fail::from(refused)),
    }
}

/// Whether the hall answers the line's call as the line says.
pub(crate) fn answers(alloc: Global, hall: &mut Hall, line: &Line) -> Result<bool, Fail> {
    match call(alloc, hall.policy(), line.0, line.1) {
        Ok(call) => {
            let reply = hall.apply(call);
            let same = is_told(alloc, &reply, line.2);
            drop(reply);
            same
        }
        Err(fail) => Err(fail),
    }
}

/// Whether it answers each line's call so, in their order.
pub(crate) fn answers_all(alloc: Global, hall: &mut Hall, lines: &[Line]) -> Result<bool, Fail> {
    for line in lines {
        if !answers(alloc, hall, line)? {
            return Ok(false);
        }
    }
    Ok(true)
}

/// Whether the hall knows that the process has had access to the dataset.
fn holds(hall: &Hall, process: u32, dataset: u32) -> bool {
    match ProcessId::new(process) {
        Some(process) => match DatasetId::new(dataset) {
            Some(dataset) => hall.histories().has(process, dataset),
            None => false,
        },
        None => false,
    }
}

/// The histories and the book after a denial: n0 has had access to nothing.
fn keeps_a_denial(alloc: Global, hall: &mut Hall) -> Result<bool, Fail> {
    let told = answers_all(alloc, hall, DENIED_TO_ALL)?;
    let held = holds(hall, 0, 0) && !holds(hall, 3, 0) && !holds(hall, 1, 0);
    Ok(told && held && hall.book().len() == 5)
}

#[test]
fn histories_and_book_of_a_denial(rt: HostRuntime) -> Result<(), Fail> {
    assert!(rt; at_a_hall(rt.alloc(), RIVALS, keeps_a_denial)?);
    Ok(())
}

fn takes_256_requests(alloc: Global, hall: &mut Hall) -> Result<bool, Fail> {
    for _ in 0..255 {
        answers(alloc, hall, &(0, Cast(0, 0, 0, "public", &[]), "any"))?;
    }
    answers_all(alloc, hall, ONE_TOO_MANY)
}

#[test]
fn no_more_than_256_requests_wait(rt: HostRuntime) -> Result<(), Fail> {
    assert!(rt; at_a_hall(rt.alloc(), FRIENDS, takes_256_requests)?);
    Ok(())
}

/// A gather of all at a0.
const GATHERED: &[Line] = &[
    (3, Gather(0, 0, "alpha", &[7]), "posted 0"),
    (1, Gather(0, 0, "alpha", &[6]), "posted 0"),
    (2, Gather(0, 0, "alpha", &[9]), "posted 0"),
    (0, Gather(0, 0, "alpha", &[8]), "posted 0"),
];

/// The rank of a claim that is ready.
fn ready_rank(claim: &Claim) -> Option<u32> {
    match claim {
        Claim::Ready { rank, .. } => Some(*rank),
        Claim::Done(_) => None,
    }
}

/// A process, a request, the rank with which the claim is ready, and the reply that it comes to.
type Claimed = (u32, u64, Option<u32>, &'static str);

/// Whether the claim is ready with the line's rank, or not ready, and comes to the line's reply.
fn claims(alloc: Global, hall: &mut Hall, line: &Claimed) -> Result<bool, Fail> {
    let claim = hall.claim(line.0, line.1);
    let same = ready_rank(&claim) == line.2;
    let reply = finish(claim);
    let told = is_told(alloc, &reply, line.3);
    drop(reply);
    Ok(told? && same)
}

fn claims_all(alloc: Global, hall: &mut Hall, lines: &[Claimed]) -> Result<bool, Fail> {
    for line in lines {
        if !claims(alloc, hall, line)? {
            return Ok(false);
        }
    }
    Ok(true)
}

/// Claims of what was gathered.
const CLAIMED: &[Claimed] = &[
    (0, 0, Some(0), "delivered [8] [6] [9] [7]"),
    (0, 0, None, "refused NoSuchRequest"),
    (3, 0, Some(3), "delivered none"),
    (1, 1, None, "refused NoSuchRequest"),
];

fn claims_gathered(alloc: Global, hall: &mut Hall) -> Result<bool, Fail> {
    if !answers_all(alloc, hall, GATHERED)? {
        return Ok(false);
    }
    claims_all(alloc, hall, CLAIMED)
}

/// A claim that is ready holds the caller's rank. The request is taken by the claim.
#[test]
fn a_claim_is_a_take(rt: HostRuntime) -> Result<(), Fail> {
    assert!(rt; at_a_hall(rt.alloc(), FRIENDS, claims_gathered)?);
    Ok(())
}

/// The members of communicators 1 to 5, by their ranks in the world, and what their creators are
/// told.
pub(crate) const GROUPS: &[(&[u32], &str)] = &[
    (&[0, 2, 3], "posted 0"),
    (&[0, 1, 3], "posted 1"),
    (&[0, 3], "posted 2"),
    (&[1, 3], "posted 3"),
    (&[2, 3], "posted 4"),
];

/// Whether all four processes create one communicator of each group.
fn creates_all(alloc: Global, hall: &mut Hall) -> Result<bool, Fail> {
    for (ranks, reply) in GROUPS {
        for process in 0..4 {
            if !answers(alloc, hall, &(process, Group(*ranks), *reply))? {
                return Ok(false);
            }
        }
    }
    Ok(true)
}

/// A gather of a bank's numbers at a0. Before its last post n0 asks for an oil firm's.
const GATHERED_BY_TWO: &[Line] = &[
    (3, Gather(3, 0, "alpha", &[7]), "posted 5"),
    (2, Cast(5, 0, 1, "crude", &[9]), "posted 5"),
    (3, Cast(5, 0, 1, "public", &[]), "posted 6"),
    (0, Gather(3, 0, "alpha", &[8]), "posted 5"),
];

/// Claims of it by a0.
const CLAIMED_BY_THE_ROOT: &[Claimed] = &[
    (0, 5, Some(0), "delivered [8] [7]"),
    (0, 5, None, "refused NoSuchRequest"),
];

fn claims_in_groups(alloc: Global, hall: &mut Hall) -> Result<bool, Fail> {
    if !creates_all(alloc, hall)? || !answers_all(alloc, hall, GATHERED_BY_TWO)? {
        return Ok(false);
    }
    claims_all(alloc, hall, CLAIMED_BY_THE_ROOT)
}

#[test]
fn a_root_claims_what_its_group_gathered(rt: HostRuntime) -> Result<(), Fail> {
    assert!(rt; at_a_hall(rt.alloc(), RIVALS, claims_in_groups)?);
    Ok(())
}
