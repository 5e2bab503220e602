//! Verdicts worked by hand from the rules, under one policy.
ghost use Rattle.std.specs.Prelude.{◌≡◌, ◌<◌};

use crate::parties::{dataset, group, numbers, opening, process, upward, wall};
use crate::policies::many;
use coll_routes::{Kind, Own, Roll, Shape, Signature, Stated, Statements};
use mpi_cart::Grid;
use mpi_elems::ElemType;
use std::alloc::{AllocError, Global};
use std::process::Abort;
use trial_kit::policies::BANKS_AND_OIL;
use wall_labels::{DATASET_LIMIT, DatasetId, Label, Op, PROCESS_LIMIT, ProcessId};
use wall_policy::Policy;
use wall_rules::Histories;
use wall_verdict::{Rule, Verdict, charged, decide, enter_passed, passes_star, sanitised, settle};

const WORLD: [u32; 4] = [0, 1, 2, 3];

const INT: ElemType = ElemType::Int32;

/// What a rank gives: elements under a label or nothing, and whether its post was barred.
#[derive(Clone, Copy)]
enum Gift {
    Nothing,
    Public,
    Of(u32),
    Barred(u32),
}

use Gift::{Barred, Nothing, Of, Public};

fn policy(rt: &impl Abort, alloc: Global) -> Policy {
    wall(rt, alloc, BANKS_AND_OIL)
}

// The same in version 2, where a sum of three takes two datasets.
fn policy_of_version_2(rt: &impl Abort, alloc: Global) -> Policy {
    let Ok(text) = text_of_version_2(alloc) else {
        panic!(rt; "no memory")
    };
    wall(rt, alloc, text.as_str())
}

fn text_of_version_2(alloc: Global) -> Result<String, AllocError> {
    let second = BANKS_AND_OIL.replace(alloc, "version = 1", "version = 2")?;
    second.replace(alloc, "least = 3", "least = 3\ndistinct = 2")
}

fn label(rt: &impl Abort, gift: Gift) -> Option<Label> {
    match gift {
        Nothing => None,
        Public => Some(Label::Public),
        Of(number) => Some(Label::Of(DatasetId::new(number).expect(rt, "a dataset"))),
        Barred(number) => Some(Label::Of(DatasetId::new(number).expect(rt, "a dataset"))),
    }
}

// How many elements a rank gives that gives some: one, and one for each of 256 ranks where each of
// them gets its own.
fn elements(sig: &Signature) -> u32 {
    match sig {
        Signature::Alltoall { .. } => 256,
        Signature::ReduceScatter { .. } => 256,
        Signature::ReduceScatterBlock { .. } => 256,
        _ => 1,
    }
}

fn statement(rt: &impl Abort, alloc: Global, sig: &Signature, gift: Gift) -> Stated {
    let given = match gift {
        Nothing => 0,
        _ => elements(sig),
    };
    let barred = match gift {
        Barred(_) => true,
        _ => false,
    };
    let label = label(rt, gift);
    match sig.copy(alloc) {
        Ok(sig) => Stated {
            sig,
            own: Own::Plain,
            given,
            label,
            barred,
        },
        Err(_) => panic!(rt; "no memory"),
    }
}

fn state_all(
    rt: &impl Abort,
    alloc: Global,
    stated: &mut Statements,
    sig: &Signature,
    gifts: &[Gift],
) {
    let Ok(size) = u32::try_from(stated.len()) else {
        panic!(rt; "too many ranks")
    };
    for rank in 0..size {
        let gift = gifts.get(rank as usize).copied().unwrap_or(Nothing);
        let statement = statement(rt, alloc, sig, gift);
        assert!(rt; (rank as usize) < stated.len());
        stated.set(rank, statement);
    }
}

// An instance of these members, in a grid if there is one, where each rank gives elements or
// nothing.
fn roll_in(
    rt: &impl Abort,
    alloc: Global,
    members: &[u32],
    grid: Option<Grid>,
    sig: Signature,
    gifts: &[Gift],
) -> Roll {
    let members = group(rt, alloc, members);
    let size = members.size();
    let Ok(mut stated) = Statements::vacant(alloc, size) else {
        panic!(rt; "no memory")
    };
    state_all(rt, alloc, &mut stated, &sig, gifts);
    Roll {
        members,
        shape: Shape { size, grid },
        sig,
        stated,
    }
}

// A roll of these members, without a grid.
fn roll(rt: &impl Abort, alloc: Global, members: &[u32], sig: Signature, gifts: &[Gift]) -> Roll {
    roll_in(rt, alloc, members, None, sig, gifts)
}

// The verdict before any other call.
fn first_verdict(rt: &impl Abort, alloc: Global, roll: &Roll) -> Verdict {
    assert!(rt; roll.is_fit());
    let policy = policy(rt, alloc);
    let histories = opening(rt, alloc, &policy);
    let verdict = decide(&policy, &histories, roll);
    drop(histories);
    drop(policy);
    verdict
}

fn verdict(
    rt: &impl Abort,
    alloc: Global,
    members: &[u32],
    sig: Signature,
    gifts: &[Gift],
) -> Verdict {
    let roll = roll(rt, alloc, members, sig, gifts);
    let verdict = first_verdict(rt, alloc, &roll);
    drop(roll);
    verdict
}

fn expect(rt: &impl Abort, found: Verdict, expected: Verdict) {
    assert_eq!(rt; found, expected);
}

// The verdict on an instance of all, which give so.
fn expect_of_all(
    rt: &(impl AllocGlobal + Abort),
    sig: Signature,
    gifts: [Gift; 4],
    expected: Verdict,
) {
    expect(rt, verdict(rt, rt.alloc(), &WORLD, sig, &gifts), expected);
}

fn simple(number: u32, forbidden: u32) -> Verdict
    requires process { number < PROCESS_LIMIT }
    requires dataset { forbidden < DATASET_LIMIT }
{
    Verdict::Denied {
        rule: Rule::Simple,
        process: process(number),
        label: Label::Of(dataset(forbidden)),
    }
}

fn star(number: u32, label: Label) -> Verdict
    requires process { number < PROCESS_LIMIT }
{
    Verdict::Denied {
        rule: Rule::Star,
        process: process(number),
        label,
    }
}

fn scan() -> Signature {
    Signature::Scan {
        op: Op::Sum,
        elem_type: INT,
        count: 1,
    }
}

fn sum() -> Signature {
    Signature::Allreduce {
        op: Op::Sum,
        elem_type: INT,
        count: 1,
    }
}

fn product() -> Signature {
    Signature::Allreduce {
        op: Op::Prod,
        elem_type: INT,
        count: 1,
    }
}

fn bcast(root: u32) -> Signature {
    Signature::Bcast {
        root,
        elem_type: INT,
        count: 1,
    }
}

fn gather(root: u32) -> Signature {
    Signature::Gather {
        root,
        elem_type: INT,
        count: 1,
    }
}

fn allgather() -> Signature {
    Signature::Allgather {
        elem_type: INT,
        count: 1,
    }
}

fn gatherv(root: u32) -> Signature {
    Signature::Gatherv {
        root,
        elem_type: INT,
    }
}

#[test]
fn rivals_meet_only_in_a_sanitised_sum(rt: HostRuntime) {
    let all = [Of(0), Of(1), Of(2), Public];
    expect_of_all(&rt, sum(), all, Verdict::Granted);
    expect_of_all(&rt, product(), all, simple(0, 1));
    expect_of_all(&rt, scan(), all, simple(1, 0));
    expect_of_all(&rt, allgather(), all, simple(0, 1));
}

#[test]
fn a_denial_names_the_least_pair(rt: HostRuntime) {
    let lone = [Of(0), Nothing, Nothing, Nothing];
    expect_of_all(&rt, bcast(0), lone, simple(1, 0));
    let banks = [Of(0), Of(1), Public];
    let of_three = verdict(&rt, rt.alloc(), &[0, 1, 3], gather(2), &banks);
    expect(&rt, of_three, simple(3, 1));
    let two = [Of(0), Of(1), Public, Public];
    expect_of_all(&rt, sum(), two, simple(0, 1));
    let barred = [Of(0), Nothing, Barred(0), Barred(1)];
    let expected = star(2, Label::Of(dataset(0)));
    expect_of_all(&rt, gatherv(1), barred, expected);
}

// A line of four. In a periodic one the ends are neighbours too.
fn line(rt: &impl Abort, alloc: Global, periodic: bool) -> Grid {
    match Grid::new(alloc, &[4], &[periodic], 4) {
        Ok(grid) => grid,
        Err(_) => panic!(rt; "no grid"),
    }
}

// The verdict on what neighbours in a line of four gather from each other.
fn verdict_in_line(
    rt: &impl Abort,
    alloc: Global,
    members: &[u32],
    periodic: bool,
    gifts: &[Gift],
) -> Verdict {
    let sig = Signature::NeighborAllgatherv { elem_type: INT };
    let grid = Some(line(rt, alloc, periodic));
    let roll = roll_in(rt, alloc, members, grid, sig, gifts);
    let verdict = first_verdict(rt, alloc, &roll);
    drop(roll);
    verdict
}

// a0 and b0 stand at the ends, c0 and n0 between them.
#[test]
fn neighbours_alone_are_charged(rt: HostRuntime) {
    let line = [0, 2, 3, 1];
    let first = [Of(0), Nothing, Nothing, Nothing];
    let around_n0 = [Nothing, Of(0), Nothing, Of(1)];
    let rows = [
        (false, first, Verdict::Granted),
        (true, first, simple(1, 0)),
        (false, around_n0, simple(3, 1)),
        (true, around_n0, simple(0, 1)),
    ];
    for (periodic, gifts, expected) in rows {
        let found = verdict_in_line(&rt, rt.alloc(), &line, periodic, &gifts);
        expect(&rt, found, expected);
    }
}

// Of a rank in an instance: whether what it gets is sanitised, and which of the datasets are
// charged to it.
fn expect_told(
    rt: &impl Abort,
    policy: &Policy,
    roll: &Roll,
    rank: u32,
    is_sanitised: bool,
    datasets: [bool; 4],
) {
    assert!(rt; roll.is_fit() && rank < roll.shape.size);
    assert!(rt; sanitised(policy, roll, rank) == is_sanitised);
    let set = charged(policy, roll, rank);
    let [alpha, beta, crude, delta] = datasets;
    assert!(rt; set.contains(dataset(0)) == alpha && set.contains(dataset(1)) == beta);
    assert!(rt; set.contains(dataset(2)) == crude && set.contains(dataset(3)) == delta);
}

// A scan in which each but rank 2 contributes its own dataset.
#[test]
fn a_part_of_a_scan_is_sanitised(rt: HostRuntime) {
    let alloc = rt.alloc();
    let roll = roll(&rt, alloc, &WORLD, scan(), &[Of(0), Of(2), Public, Of(3)]);
    assert!(rt; roll.is_fit() && roll.shape.size == 4);
    let policy = policy(&rt, alloc);
    expect_told(&rt, &policy, &roll, 0, false, [true, false, false, false]);
    expect_told(&rt, &policy, &roll, 1, false, [true, false, true, false]);
    expect_told(&rt, &policy, &roll, 2, false, [true, false, true, false]);
    expect_told(&rt, &policy, &roll, 3, true, [false, false, false, false]);
    drop(policy);
    drop(roll);
}

// Whether what ranks 1, 2 and 3 of a scan get is sanitised. Rank 2 has three contributors of one
// bank, and rank 3 one of another firm too.
fn crowds(rt: &impl Abort, alloc: Global, policy: Policy) -> [bool; 3] {
    let roll = roll(rt, alloc, &WORLD, scan(), &[Of(0), Of(0), Of(0), Of(2)]);
    assert!(rt; roll.is_fit() && roll.shape.size == 4);
    let first = sanitised(&policy, &roll, 1);
    let second = sanitised(&policy, &roll, 2);
    let third = sanitised(&policy, &roll, 3);
    drop(policy);
    drop(roll);
    [first, second, third]
}

#[test]
fn a_crowd_of_one_bank_is_none(rt: HostRuntime) {
    let alloc = rt.alloc();
    let of_version_1 = crowds(&rt, alloc, policy(&rt, alloc));
    assert_eq!(rt; of_version_1, [false, true, true]);
    let of_version_2 = crowds(&rt, alloc, policy_of_version_2(&rt, alloc));
    assert_eq!(rt; of_version_2, [false, false, true]);
}

// What becomes of an instance in which rank 0 alone gives, of alpha.
fn settled(
    rt: &impl Abort,
    alloc: Global,
    policy: &Policy,
    histories: &mut Histories,
    members: &[u32],
    sig: Signature,
) -> Verdict
    requires { histories.old.classes ≡ policy.now.classes }
    ensures { histories.new.classes ≡ histories.old.classes }
{
    let roll = roll(rt, alloc, members, sig, &[Of(0)]);
    assert!(rt; roll.is_fit());
    let verdict = settle(policy, histories, &roll);
    drop(roll);
    verdict
}

// a0 gives to c0, while n0 is a member too; then to all, b0 among them.
fn grant_and_denial(rt: &impl Abort, alloc: Global, policy: &Policy, histories: &mut Histories)
    requires { histories.old.classes ≡ policy.now.classes }
{
    let granted = settled(rt, alloc, policy, histories, &[0, 2, 3], gatherv(1));
    expect(rt, granted, Verdict::Granted);
    assert!(rt; histories.has(process(2), dataset(0)));
    assert!(rt; !histories.has(process(3), dataset(0)));
    let denied = settled(rt, alloc, policy, histories, &WORLD, bcast(0));
    expect(rt, denied, simple(1, 0));
    assert!(rt; !histories.has(process(3), dataset(0)));
}

#[test]
fn a_grant_charges_receivers_alone(rt: HostRuntime) {
    let alloc = rt.alloc();
    let policy = policy(&rt, alloc);
    let mut histories = opening(&rt, alloc, &policy);
    grant_and_denial(&rt, alloc, &policy, &mut histories);
    drop(histories);
    drop(policy);
}

// A policy of 256 processes without a home, and of two banks.
fn policy_of_256(rt: &impl Abort, alloc: Global) -> Policy {
    let text = many(rt, alloc, 256, 1, 2);
    wall(rt, alloc, text.as_str())
}

// An instance of all of these, which give of one bank to all.
fn roll_of_256(rt: &impl Abort, alloc: Global, sig: Signature, bank: u32) -> Roll {
    let members = upward(rt, alloc, 0, 256);
    roll(rt, alloc, &members, sig, &[Of(bank); 256])
}

// The kinds in which all receivers get alike from the ranks that reach them, and how many verdicts
// take a second or two. In a scan half of the pairs of ranks have nothing to do with each other:
// there it takes twice as many until a look at each pair is seen.
const ALIKE: &[(Kind, u32)] = &[
    (Kind::Allgather, 80_000),
    (Kind::Allgatherv, 80_000),
    (Kind::Alltoall, 80_000),
    (Kind::Allreduce, 80_000),
    (Kind::ReduceScatter, 80_000),
    (Kind::ReduceScatterBlock, 80_000),
];

const SCANS: &[(Kind, u32)] = &[(Kind::Scan, 160_000), (Kind::Exscan, 160_000)];

// A signature of such a kind, on 256 ranks.
fn alike(rt: &impl Abort, alloc: Global, kind: Kind) -> Signature {
    let (op, elem_type, count) = (Op::Sum, INT, 1);
    match kind {
        Kind::Allgather => allgather(),
        Kind::Allgatherv => Signature::Allgatherv { elem_type },
        Kind::Alltoall => Signature::Alltoall { elem_type, count },
        Kind::Allreduce => sum(),
        Kind::ReduceScatter => Signature::ReduceScatter {
            op,
            elem_type,
            counts: numbers(rt, alloc, &[1; 256]),
        },
        Kind::ReduceScatterBlock => Signature::ReduceScatterBlock {
            op,
            elem_type,
            count,
        },
        Kind::Scan => scan(),
        Kind::Exscan => Signature::Exscan {
            op,
            elem_type,
            count,
        },
        _ => panic!(rt; "another kind"),
    }
}

// The verdicts on two instances in turn.
fn decide_often(
    rt: &impl Abort,
    policy: &Policy,
    histories: &Histories,
    even: &Roll,
    odd: &Roll,
    times: u32,
)
    requires { histories.now.classes ≡ policy.now.classes }
{
    assert!(rt; even.is_fit() && odd.is_fit());
    for time in 0..times {
        let found = if time % 2 == 0 {
            decide(policy, histories, even)
        } else {
            decide(policy, histories, odd)
        };
        expect(rt, found, Verdict::Granted);
    }
}

// So many verdicts on instances of the kind, whose ranks give of one bank and of the other.
fn decide_of_kind(
    rt: &impl Abort,
    alloc: Global,
    policy: &Policy,
    histories: &Histories,
    kind: Kind,
    times: u32,
)
    requires { histories.now.classes ≡ policy.now.classes }
{
    let even = roll_of_256(rt, alloc, alike(rt, alloc, kind), 0);
    let odd = roll_of_256(rt, alloc, alike(rt, alloc, kind), 1);
    decide_often(rt, policy, histories, &even, &odd, times);
    drop(odd);
    drop(even);
}

fn decide_of_kinds(rt: &impl Abort, alloc: Global, kinds: &[(Kind, u32)]) {
    let policy = policy_of_256(rt, alloc);
    let histories = opening(rt, alloc, &policy);
    for (kind, times) in kinds {
        decide_of_kind(rt, alloc, &policy, &histories, *kind, *times);
    }
    drop(histories);
    drop(policy);
}

// A look at each pair of ranks would take more than a minute in a single one of the kinds.
#[test]
fn a_verdict_looks_at_each_rank_once(rt: HostRuntime) {
    decide_of_kinds(&rt, rt.alloc(), ALIKE);
}

#[test]
fn a_verdict_on_a_scan_looks_at_each_rank_once(rt: HostRuntime) {
    decide_of_kinds(&rt, rt.alloc(), SCANS);
}

// An instance of all of these on a ring, which give of one bank to their neighbours.
fn ring_of_256(rt: &impl Abort, alloc: Global, bank: u32) -> Roll {
    let members = upward(rt, alloc, 0, 256);
    let Ok(ring) = Grid::new(alloc, &[256], &[true], 256) else {
        panic!(rt; "no grid")
    };
    let sig = Signature::NeighborAllgatherv { elem_type: INT };
    roll_in(rt, alloc, &members, Some(ring), sig, &[Of(bank); 256])
}

// Here too a look at each pair of ranks would take more than a minute.
#[test]
fn a_verdict_between_neighbours_looks_at_neighbours(rt: HostRuntime) {
    let alloc = rt.alloc();
    let policy = policy_of_256(&rt, alloc);
    let histories = opening(&rt, alloc, &policy);
    let even = ring_of_256(&rt, alloc, 0);
    let odd = ring_of_256(&rt, alloc, 1);
    decide_often(&rt, &policy, &histories, &even, &odd, 160_000);
    drop(odd);
    drop(even);
    drop(histories);
    drop(policy);
}

// One grant after the other.
fn settle_often(
    rt: &impl Abort,
    policy: &Policy,
    histories: &mut Histories,
    roll: &Roll,
    times: u32,
)
    requires { histories.old.classes ≡ policy.now.classes }
{
    assert!(rt; roll.is_fit());
    for _ in 0..times {
        let verdict = settle(policy, histories, roll);
        expect(rt, verdict, Verdict::Granted);
    }
}

// One kind for all: a grant goes through what comes to the ranks as a verdict does.
#[test]
fn a_grant_looks_at_each_rank_once(rt: HostRuntime) {
    let alloc = rt.alloc();
    let policy = policy_of_256(&rt, alloc);
    let mut histories = opening(&rt, alloc, &policy);
    let roll = roll_of_256(&rt, alloc, allgather(), 0);
    settle_often(&rt, &policy, &mut histories, &roll, 60_000);
    drop(roll);
    drop(histories);
    drop(policy);
}

// The same processes and banks, where a sum of two contributors is sanitised.
fn policy_of_sums(rt: &impl Abort, alloc: Global) -> Policy {
    let mut text = many(rt, alloc, 256, 1, 2);
    let is_put = text
        .push_str("[[sanitise]]\nop = \"sum\"\nleast = 2\n")
        .is_ok();
    assert!(rt; is_put, "no memory");
    wall(rt, alloc, text.as_str())
}

// What 256 ranks give that give of the two banks by turns.
fn gifts_by_turns(rt: &impl Abort, alloc: Global, first: u32, second: u32) -> Vec<Gift> {
    let mut gifts = Vec::new(alloc);
    for rank in 0u32..256 {
        let bank = if rank % 2 == 0 { first } else { second };
        assert!(rt; gifts.push(Of(bank)).is_ok(), "no memory");
    }
    gifts
}

// An instance of a kind, of ranks that give of the two banks by turns: in a sanitised sum.
fn roll_of_rivals(rt: &impl Abort, alloc: Global, kind: Kind, first: u32, second: u32) -> Roll {
    let members = upward(rt, alloc, 0, 256);
    let gifts = gifts_by_turns(rt, alloc, first, second);
    let sig = alike(rt, alloc, kind);
    roll(rt, alloc, &members, sig, &gifts)
}

// The kinds of sums in which receivers get alike, and how many verdicts, or grants, take a second
// or two. Nobody is clear of all that is given; but for the first ranks of a scan, what they get is
// sanitised.
const SUMS: &[(Kind, u32)] = &[
    (Kind::Allreduce, 40_000),
    (Kind::ReduceScatter, 40_000),
    (Kind::ReduceScatterBlock, 40_000),
    (Kind::Scan, 80_000),
    (Kind::Exscan, 80_000),
];

// So many verdicts on sums of rivals.
fn decide_on_sums(rt: &impl Abort, alloc: Global, policy: &Policy, kind: Kind, times: u32) {
    let histories = opening(rt, alloc, policy);
    let even = roll_of_rivals(rt, alloc, kind, 0, 1);
    let odd = roll_of_rivals(rt, alloc, kind, 1, 0);
    decide_often(rt, policy, &histories, &even, &odd, times);
    drop(odd);
    drop(even);
    drop(histories);
}

// So many grants of one. What is sanitised enters nothing, so that nobody ever has all that is
// given.
fn settle_sums(rt: &impl Abort, alloc: Global, policy: &Policy, kind: Kind, times: u32) {
    let mut histories = opening(rt, alloc, policy);
    let roll = roll_of_rivals(rt, alloc, kind, 0, 1);
    settle_often(rt, policy, &mut histories, &roll, times);
    drop(roll);
    drop(histories);
}

// To collect for each receiver anew what comes to it takes some fifty times as long: minutes for
// all kinds together.
#[test]
fn a_verdict_on_a_sum_of_rivals_looks_at_each_rank_once(rt: HostRuntime) {
    let alloc = rt.alloc();
    let policy = policy_of_sums(&rt, alloc);
    for (kind, times) in SUMS {
        decide_on_sums(&rt, alloc, &policy, *kind, *times);
    }
    drop(policy);
}

#[test]
fn a_grant_of_a_sum_of_rivals_looks_at_each_rank_once(rt: HostRuntime) {
    let alloc = rt.alloc();
    let policy = policy_of_sums(&rt, alloc);
    for (kind, times) in SUMS {
        settle_sums(&rt, alloc, &policy, *kind, *times);
    }
    drop(policy);
}

// What a rank of a half gives, the last two public elements.
fn gift_in_half(rank: u32, bank: u32) -> Gift {
    if rank % 128 < 126 { Of(bank) } else { Public }
}

// What 256 ranks on a ring give: one half of this bank, and the other of its rival.
fn gifts_of_halves(rt: &impl Abort, alloc: Global, first: u32, second: u32) -> Vec<Gift> {
    let mut gifts = Vec::new(alloc);
    for rank in 0u32..256 {
        let bank = if rank < 128 { first } else { second };
        let gift = gift_in_half(rank, bank);
        assert!(rt; gifts.push(gift).is_ok(), "no memory");
    }
    gifts
}

// Each gets of one bank alone from its neighbours, if of any: it is granted, though the labels of
// all can harm each of them.
fn ring_of_halves(rt: &impl Abort, alloc: Global, first: u32, second: u32) -> Roll {
    let members = upward(rt, alloc, 0, 256);
    let Ok(ring) = Grid::new(alloc, &[256], &[true], 256) else {
        panic!(rt; "no grid")
    };
    let gifts = gifts_of_halves(rt, alloc, first, second);
    let (elem_type, count) = (INT, 1);
    let sig = Signature::NeighborAllgather { elem_type, count };
    roll_in(rt, alloc, &members, Some(ring), sig, &gifts)
}

#[test]
fn a_verdict_between_rivals_looks_at_neighbours(rt: HostRuntime) {
    let alloc = rt.alloc();
    let policy = policy_of_256(&rt, alloc);
    let histories = opening(&rt, alloc, &policy);
    let even = ring_of_halves(&rt, alloc, 0, 1);
    let odd = ring_of_halves(&rt, alloc, 1, 0);
    decide_often(&rt, &policy, &histories, &even, &odd, 60_000);
    drop(odd);
    drop(even);
    drop(histories);
    drop(policy);
}

// Nobody ever has all that is given here too.
#[test]
fn a_grant_between_rivals_looks_at_neighbours(rt: HostRuntime) {
    let alloc = rt.alloc();
    let policy = policy_of_256(&rt, alloc);
    let mut histories = opening(&rt, alloc, &policy);
    let roll = ring_of_halves(&rt, alloc, 0, 1);
    settle_often(&rt, &policy, &mut histories, &roll, 40_000);
    drop(roll);
    drop(histories);
    drop(policy);
}

// Whether the process may post elements with this label. Its history has the label then.
fn enters(histories: &mut Histories, process: ProcessId, label: &Option<Label>) -> bool {
    let passed = passes_star(histories, process, label);
    enter_passed(histories, process, label, passed);
    passed
}

// Public data passes for n0 until it has posted of crude; for a0 neither passes.
fn posts(rt: &impl Abort, histories: &mut Histories) {
    let (public, crude) = (Some(Label::Public), Some(Label::Of(dataset(2))));
    assert!(rt; passes_star(histories, process(3), &public));
    assert!(rt; passes_star(histories, process(0), &None));
    assert!(rt; !enters(histories, process(0), &public));
    assert!(rt; !enters(histories, process(0), &crude));
    assert!(rt; enters(histories, process(3), &crude));
    assert!(rt; histories.has(process(3), dataset(2)) && !histories.has(process(0), dataset(2)));
    assert!(rt; !passes_star(histories, process(3), &public));
}

#[test]
fn a_post_that_passes_enters_its_label(rt: HostRuntime) {
    let alloc = rt.alloc();
    let policy = policy(&rt, alloc);
    let mut histories = opening(&rt, alloc, &policy);
    posts(&rt, &mut histories);
    drop(histories);
    drop(policy);
}
