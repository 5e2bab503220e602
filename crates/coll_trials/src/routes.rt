//! The examples of small communicators, with pieces worked by hand from the standard's rules.
//!
//! No memory ends a test at once: each way out of a function that owns a wide value costs its
//! proof.
ghost use Rattle.std.specs.Prelude.{◌<◌};
ghost use Rattle.coll_routes.specs.Fit.{IsFit};

use crate::parties::{flags, grid, lowest, numbers, plain, stated, upward};
use coll_routes::{
    Flags, Gathering, Kind, Numbers, Own, Piece, Roll, Shape, ShapeFault, Signature, Stated,
    Statements, gathered, is_missing, piece, places, routed, shape_fault,
};
use mpi_elems::ElemType;
use std::alloc::{AllocError, Global};
use std::process::Abort;
use wall_labels::{DatasetId, Label, Op};

const INT: ElemType = ElemType::Int32;

fn bcast(root: u32, count: u32) -> Signature {
    Signature::Bcast {
        root,
        elem_type: INT,
        count,
    }
}

fn scatter(root: u32, count: u32) -> Signature {
    Signature::Scatter {
        root,
        elem_type: INT,
        count,
    }
}

fn gatherv(root: u32) -> Signature {
    Signature::Gatherv {
        root,
        elem_type: INT,
    }
}

fn split(colour: Option<i32>) -> Own {
    Own::Split { colour, key: 0 }
}

fn state_all(
    rt: &impl Abort,
    alloc: Global,
    statements: &mut Statements,
    sig: &Signature,
    given: &[u32],
    counts: &[&[u32]],
) {
    let Ok(size) = u32::try_from(statements.len()) else {
        panic!(rt; "too many ranks")
    };
    for rank in 0..size {
        let counts = counts.get(rank as usize).copied();
        let given = given.get(rank as usize).copied().unwrap_or(0);
        let statement = stated(rt, alloc, sig, given, counts);
        assert!(rt; (rank as usize) < statements.len());
        statements.set(rank, statement);
    }
}

// A roll of which each rank gives so many elements, or as many as the counts that it states say.
fn roll(
    rt: &impl Abort,
    alloc: Global,
    shape: Shape,
    sig: Signature,
    given: &[u32],
    counts: &[&[u32]],
) -> Roll {
    let Ok(mut statements) = Statements::vacant(alloc, shape.size) else {
        panic!(rt; "no memory")
    };
    state_all(rt, alloc, &mut statements, &sig, given, counts);
    Roll {
        members: lowest(rt, alloc, shape.size),
        shape,
        sig,
        stated: statements,
    }
}

// Each piece at a place of a receiver, as `(FROM:START+LEN)`.
fn push_pieces(
    alloc: Global,
    text: &mut String,
    roll: &Roll,
    to: u32,
    place: u32,
) -> Result<(), AllocError>
    requires fit { IsFit roll.now }
    requires to { to < roll.now.shape.size }
{
    for from in 0..roll.shape.size {
        if let Some(Piece { start, len }) = piece(roll, from, to, place) {
            text.push_str(&format!(in alloc; "({from}:{start}+{len})")?)?;
        }
    }
    Ok(())
}

// The line of a receiver, with brackets for each place.
fn push_line(alloc: Global, text: &mut String, roll: &Roll, to: u32) -> Result<(), AllocError>
    requires fit { IsFit roll.now }
    requires to { to < roll.now.shape.size }
{
    for place in 0..places(roll, to) {
        text.push_str("[")?;
        push_pieces(alloc, text, roll, to, place)?;
        text.push_str("]")?;
    }
    text.push_str("\n")
}

// A line for each receiver.
fn shown(rt: &impl Abort, alloc: Global, roll: &Roll) -> String {
    let mut text = String::new(alloc);
    assert!(rt; roll.is_fit());
    for to in 0..roll.shape.size {
        assert!(rt; push_line(alloc, &mut text, roll, to).is_ok(), "no memory");
    }
    text
}

const KINDS: &[(Kind, &str)] = &[
    (Kind::Barrier, "barrier"),
    (Kind::Bcast, "bcast"),
    (Kind::Gather, "gather"),
    (Kind::Gatherv, "gatherv"),
    (Kind::Scatter, "scatter"),
    (Kind::Scatterv, "scatterv"),
    (Kind::Allgather, "allgather"),
    (Kind::Allgatherv, "allgatherv"),
    (Kind::Alltoall, "alltoall"),
    (Kind::Alltoallv, "alltoallv"),
    (Kind::Reduce, "reduce"),
    (Kind::Allreduce, "allreduce"),
    (Kind::ReduceScatter, "reduce_scatter"),
    (Kind::ReduceScatterBlock, "reduce_scatter_block"),
    (Kind::Scan, "scan"),
    (Kind::Exscan, "exscan"),
    (Kind::NeighborAllgather, "neighbor_allgather"),
    (Kind::NeighborAllgatherv, "neighbor_allgatherv"),
    (Kind::NeighborAlltoall, "neighbor_alltoall"),
    (Kind::NeighborAlltoallv, "neighbor_alltoallv"),
    (Kind::Dup, "dup"),
    (Kind::Split, "split"),
    (Kind::Create, "create"),
    (Kind::CartCreate, "cart_create"),
    (Kind::CartSub, "cart_sub"),
];

#[test]
fn kinds_have_their_names(rt: HostRuntime) {
    for (kind, name) in KINDS {
        assert_eq!(rt; kind.name(), *name);
        assert_eq!(rt; Kind::named(name.as_bytes()), Some(*kind));
    }
    assert_eq!(rt; Kind::named(b"alltoallw"), None);
}

// What `shown` says of a roll of these statements.
fn expect_pieces(
    rt: &impl Abort,
    alloc: Global,
    shape: Shape,
    sig: Signature,
    given: &[u32],
    counts: &[&[u32]],
    expected: &str,
) {
    let roll = roll(rt, alloc, shape, sig, given, counts);
    expect_shown(rt, alloc, &roll, expected);
    drop(roll);
}

fn expect_shown(rt: &impl Abort, alloc: Global, roll: &Roll, expected: &str) {
    let text = shown(rt, alloc, roll);
    let name = roll.sig.kind().name();
    assert_eq!(rt; text.as_str(), expected, "{name}");
}

// The pieces of two ranks that give so many elements.
fn expect_of_two(rt: &(impl AllocGlobal + Abort), sig: Signature, given: [u32; 2], expected: &str) {
    expect_pieces(rt, rt.alloc(), plain(2), sig, &given, &[], expected);
}

#[test]
fn pieces_of_two_ranks(rt: HostRuntime) {
    let (elem_type, op, count) = (INT, Op::Sum, 2);
    let (all, gathered) = ([2, 2], "[(0:0+2)][(1:0+2)]\n[(0:0+2)][(1:0+2)]\n");
    expect_of_two(&rt, Signature::Barrier, [0, 0], "\n\n");
    expect_of_two(&rt, bcast(1, 2), [0, 2], "[(1:0+2)]\n\n");
    let gather = Signature::Gather {
        root: 1,
        elem_type,
        count,
    };
    expect_of_two(&rt, gather, all, "\n[(0:0+2)][(1:0+2)]\n");
    expect_of_two(&rt, gatherv(1), [3, 0], "\n[(0:0+3)][]\n");
    expect_of_two(&rt, scatter(1, 2), [0, 4], "[(1:0+2)]\n[(1:2+2)]\n");
    expect_of_two(
        &rt,
        Signature::Allgather { elem_type, count },
        all,
        gathered,
    );
    expect_of_two(&rt, Signature::Allgatherv { elem_type }, all, gathered);
    let alltoall = Signature::Alltoall { elem_type, count };
    let expected = "[(0:0+2)][(1:0+2)]\n[(0:2+2)][(1:2+2)]\n";
    expect_of_two(&rt, alltoall, [4, 4], expected);
    let reduce = Signature::Reduce {
        root: 1,
        op,
        elem_type,
        count,
    };
    expect_of_two(&rt, reduce, all, "\n[(0:0+2)(1:0+2)]\n");
    let allreduce = Signature::Allreduce {
        op,
        elem_type,
        count,
    };
    let expected = "[(0:0+2)(1:0+2)]\n[(0:0+2)(1:0+2)]\n";
    expect_of_two(&rt, allreduce, all, expected);
    let block = Signature::ReduceScatterBlock {
        op,
        elem_type,
        count,
    };
    let expected = "[(0:0+2)(1:0+2)]\n[(0:2+2)(1:2+2)]\n";
    expect_of_two(&rt, block, [4, 4], expected);
    let scan = Signature::Scan {
        op,
        elem_type,
        count,
    };
    expect_of_two(&rt, scan, all, "[(0:0+2)]\n[(0:0+2)(1:0+2)]\n");
    let exscan = Signature::Exscan {
        op,
        elem_type,
        count,
    };
    expect_of_two(&rt, exscan, all, "\n[(0:0+2)]\n");
    expect_of_two(&rt, Signature::Dup, [0, 0], "\n\n");
}

// Which piece rank 1 of three is sent where they are reduced, by how many ranks from 0 on.
fn expect_gathered(rt: &(impl AllocGlobal + Abort), sig: Signature, until: u32) {
    let roll = roll(rt, rt.alloc(), plain(3), sig, &[1, 1, 1], &[]);
    is_gathered(rt, &roll, until);
    drop(roll);
}

fn is_gathered(rt: &impl Abort, roll: &Roll, until: u32) {
    assert!(rt; roll.is_fit() && roll.shape.size == 3);
    if roll.sig.op().is_some() {
        let piece = Piece { start: 0, len: 1 };
        assert_eq!(rt; gathered(roll, 1), Gathering { until, piece });
    }
}

#[test]
fn ranks_send_alike_where_they_are_reduced(rt: HostRuntime) {
    let (elem_type, op, count) = (INT, Op::Sum, 1);
    let scan = Signature::Scan {
        op,
        elem_type,
        count,
    };
    expect_gathered(&rt, scan, 2);
    let exscan = Signature::Exscan {
        op,
        elem_type,
        count,
    };
    expect_gathered(&rt, exscan, 1);
    let allreduce = Signature::Allreduce {
        op,
        elem_type,
        count,
    };
    expect_gathered(&rt, allreduce, 3);
}

#[test]
fn blocks_of_four_ranks(rt: HostRuntime) {
    let alloc = rt.alloc();
    let elem_type = ElemType::Int32;
    let scatterv = Signature::Scatterv { root: 1, elem_type };
    let counts: [&[u32]; 4] = [&[], &[2, 0, 1, 1], &[], &[]];
    let expected = "[(1:0+2)]\n[]\n[(1:2+1)]\n[(1:3+1)]\n";
    expect_pieces(
        &rt,
        alloc,
        plain(4),
        scatterv,
        &[0, 4, 0, 0],
        &counts,
        expected,
    );
    let alltoallv = Signature::Alltoallv { elem_type };
    let counts: [&[u32]; 4] = [&[0, 1, 0, 2], &[0, 0, 0, 0], &[1, 1, 1, 1], &[0, 0, 0, 1]];
    let expected =
        "[][][(2:0+1)][]\n[(0:0+1)][][(2:1+1)][]\n[][][(2:2+1)][]\n[(0:1+2)][][(2:3+1)][(3:0+1)]\n";
    expect_pieces(
        &rt,
        alloc,
        plain(4),
        alltoallv,
        &[3, 0, 4, 1],
        &counts,
        expected,
    );
    let counts = numbers(&rt, alloc, &[1, 0, 2, 1]);
    let reduce_scatter = Signature::ReduceScatter {
        op: Op::Max,
        elem_type,
        counts,
    };
    let expected = r#"[(0:0+1)(1:0+1)(2:0+1)(3:0+1)]
[]
[(0:1+2)(1:1+2)(2:1+2)(3:1+2)]
[(0:3+1)(1:3+1)(2:3+1)(3:3+1)]
"#;
    expect_pieces(&rt, alloc, plain(4), reduce_scatter, &[4; 4], &[], expected);
}

#[test]
fn pieces_between_neighbours(rt: HostRuntime) {
    let alloc = rt.alloc();
    let elem_type = ElemType::Int32;
    // Two by two, of which the first dimension is periodic: the second has edges.
    let gathered = Signature::NeighborAllgather {
        elem_type,
        count: 1,
    };
    let expected = r#"[(2:0+1)][(2:0+1)][][(1:0+1)]
[(3:0+1)][(3:0+1)][(0:0+1)][]
[(0:0+1)][(0:0+1)][][(3:0+1)]
[(1:0+1)][(1:0+1)][(2:0+1)][]
"#;
    let tube = grid(&rt, alloc, 4, &[2, 2], &[true, false]);
    expect_pieces(&rt, alloc, tube, gathered, &[1; 4], &[], expected);
    // Periodic dimensions of size 1 and 2: what is given for the positive slot arrives in the
    // negative one.
    let exchanged = Signature::NeighborAlltoall {
        elem_type,
        count: 1,
    };
    let alone = grid(&rt, alloc, 1, &[1], &[true]);
    expect_pieces(
        &rt,
        alloc,
        alone,
        exchanged,
        &[2],
        &[],
        "[(0:1+1)][(0:0+1)]\n",
    );
    let exchanged = Signature::NeighborAlltoall {
        elem_type,
        count: 1,
    };
    let ring = grid(&rt, alloc, 2, &[2], &[true]);
    expect_pieces(
        &rt,
        alloc,
        ring,
        exchanged,
        &[2; 2],
        &[],
        "[(1:1+1)][(1:0+1)]\n[(0:1+1)][(0:0+1)]\n",
    );
    // Not periodic: what is given for a slot without a neighbour goes nowhere.
    let exchanged = Signature::NeighborAlltoallv { elem_type };
    let counts: [&[u32]; 2] = [&[1, 2], &[1, 0]];
    let line = grid(&rt, alloc, 2, &[2], &[false]);
    expect_pieces(
        &rt,
        alloc,
        line,
        exchanged,
        &[3, 1],
        &counts,
        "[][(1:0+1)]\n[(0:1+2)][]\n",
    );
}

fn has_one_route(rt: &impl Abort, roll: &Roll) {
    assert!(rt; roll.is_fit() && roll.shape.size == 2);
    assert!(rt; routed(roll, 0, 1) && !routed(roll, 1, 0) && !routed(roll, 0, 0));
    assert!(rt; is_missing(roll, 0, 0) && !is_missing(roll, 0, 1));
}

#[test]
fn a_line_of_two(rt: HostRuntime) {
    let sig = Signature::NeighborAllgatherv {
        elem_type: ElemType::Int32,
    };
    let line = grid(&rt, rt.alloc(), 2, &[2], &[false]);
    let roll = roll(&rt, rt.alloc(), line, sig, &[3, 0], &[]);
    has_one_route(&rt, &roll);
    drop(roll);
}

// Which ranks are routed to which, of three that give as many elements as the signature's blocks
// have.
fn expect_routes(rt: &(impl AllocGlobal + Abort), sig: Signature, expected: [[bool; 3]; 3]) {
    let given = sig.count().unwrap_or(0);
    let roll = roll(rt, rt.alloc(), plain(3), sig, &[given; 3], &[]);
    has_routes(rt, &roll, &expected);
    drop(roll);
}

fn has_routes(rt: &impl Abort, roll: &Roll, expected: &[[bool; 3]; 3]) {
    assert!(rt; roll.is_fit() && roll.shape.size == 3);
    for from in 0..3 {
        for to in 0..3 {
            let found = routed(roll, from, to);
            assert_eq!(rt;
                found,
                expected[from as usize][to as usize],
                "{from} to {to}"
            );
        }
    }
}

#[test]
fn routes(rt: HostRuntime) {
    let (op, elem_type, count) = (Op::Sum, ElemType::Int32, 1);
    let scanned = [
        [true, true, true],
        [false, true, true],
        [false, false, true],
    ];
    let scan = Signature::Scan {
        op,
        elem_type,
        count,
    };
    expect_routes(&rt, scan, scanned);
    let before = [[false, true, true], [false, false, true], [false; 3]];
    let exscan = Signature::Exscan {
        op,
        elem_type,
        count,
    };
    expect_routes(&rt, exscan, before);
    let allgather = Signature::Allgather { elem_type, count };
    expect_routes(&rt, allgather, [[true; 3]; 3]);
    let empty = Signature::Allreduce {
        op,
        elem_type,
        count: 0,
    };
    expect_routes(&rt, empty, [[false; 3]; 3]);
}

// The fault of a rank, on a grid or not, which gives so many elements.
fn expect_fault(
    rt: &impl Abort,
    shape: &Shape,
    rank: u32,
    sig: Signature,
    own: Own,
    given: usize,
    expected: Option<ShapeFault>,
) {
    let name = sig.kind().name();
    let fault = shape_fault(shape, rank, &sig, &own, INT, given);
    assert_eq!(rt; fault, expected, "{name}, {given}");
    drop(own);
    drop(sig);
}

// The fault of a rank of four.
fn expect_of_four(
    rt: &impl Abort,
    rank: u32,
    sig: Signature,
    own: Own,
    given: usize,
    expected: Option<ShapeFault>,
) {
    expect_fault(rt, &plain(4), rank, sig, own, given, expected);
}

#[test]
fn faults_of_a_post(rt: HostRuntime) {
    use ShapeFault::{BadColour, BadCount, BadOp, BadRoot, NoTopology};
    let maxloc = Op::Maxloc;
    let reduce = Signature::Reduce {
        root: 4,
        op: maxloc,
        elem_type: INT,
        count: 1,
    };
    let allreduce = Signature::Allreduce {
        op: maxloc,
        elem_type: INT,
        count: 1,
    };
    let gather = Signature::NeighborAllgather {
        elem_type: INT,
        count: 1,
    };
    // The rank, the signature, what the rank states for itself, and how many elements it gives.
    expect_of_four(&rt, 0, gather, Own::Plain, 1, Some(NoTopology));
    expect_of_four(&rt, 0, bcast(4, 0), Own::Plain, 0, Some(BadRoot));
    expect_of_four(&rt, 0, reduce, Own::Plain, 1, Some(BadRoot));
    expect_of_four(&rt, 0, allreduce, Own::Plain, 1, Some(BadOp));
    expect_of_four(&rt, 0, bcast(0, 2), Own::Plain, 2, None);
    expect_of_four(&rt, 0, bcast(0, 2), Own::Plain, 1, Some(BadCount));
    expect_of_four(&rt, 1, bcast(0, 1), Own::Plain, 1, Some(BadCount));
    expect_of_four(&rt, 1, bcast(0, 65_536), Own::Plain, 0, None);
    expect_of_four(&rt, 1, bcast(0, 65_537), Own::Plain, 0, Some(BadCount));
    expect_of_four(&rt, 1, scatter(0, 16_384), Own::Plain, 0, None);
    expect_of_four(&rt, 1, scatter(0, 16_385), Own::Plain, 0, Some(BadCount));
    // The product is 2 to the power 32, which 32 bits don't hold.
    expect_of_four(&rt, 1, scatter(0, 1 << 30), Own::Plain, 0, Some(BadCount));
    expect_of_four(&rt, 0, gatherv(0), Own::Plain, 65_536, None);
    expect_of_four(&rt, 0, gatherv(0), Own::Plain, 65_537, Some(BadCount));
    expect_of_four(&rt, 0, gatherv(0), split(None), 0, Some(BadCount));
    expect_of_four(&rt, 0, Signature::Barrier, Own::Plain, 1, Some(BadCount));
    expect_of_four(&rt, 0, Signature::Split, Own::Plain, 0, Some(BadCount));
    expect_of_four(&rt, 0, Signature::Split, split(Some(-3)), 1, Some(BadCount));
    expect_of_four(
        &rt,
        0,
        Signature::Split,
        split(Some(-3)),
        0,
        Some(BadColour),
    );
    expect_of_four(&rt, 0, Signature::Split, split(None), 0, None);
    let other = bcast(0, 1);
    let other_type = shape_fault(&plain(4), 1, &other, &Own::Plain, ElemType::Int8, 0);
    assert_eq!(rt; other_type, Some(BadCount));
    drop(other);
}

// The root, the counts of rank 0, how many elements it gives, and the fault.
const COUNTS: &[(u32, &[u32], usize, Option<ShapeFault>)] = &[
    (0, &[1, 0, 2, 0], 3, None),
    (0, &[1, 0, 2], 3, Some(ShapeFault::BadCount)),
    (0, &[1, 0, 2, 0], 4, Some(ShapeFault::BadCount)),
    (1, &[], 0, None),
    (1, &[0, 0, 0, 0], 0, Some(ShapeFault::BadCount)),
];

#[test]
fn faults_of_counts(rt: HostRuntime) {
    let elem_type = ElemType::Int32;
    for (root, counts, given, expected) in COUNTS {
        let root = *root;
        let own = Own::Counts(numbers(&rt, rt.alloc(), counts));
        expect_of_four(
            &rt,
            0,
            Signature::Scatterv { root, elem_type },
            own,
            *given,
            *expected,
        );
    }
    let short = Signature::ReduceScatter {
        op: Op::Sum,
        elem_type,
        counts: numbers(&rt, rt.alloc(), &[1, 1]),
    };
    expect_of_four(&rt, 0, short, Own::Plain, 2, Some(ShapeFault::BadCount));
}

// The fault of a rank of four that gives nothing to a constructor.
fn expect_constructor(rt: &impl Abort, sig: Signature, expected: Option<ShapeFault>) {
    expect_of_four(rt, 0, sig, Own::Plain, 0, expected);
}

// Ranks, and the fault where they are to be a communicator of four's.
const CREATED: &[(&[u32], Option<ShapeFault>)] = &[
    (&[0, 0], Some(ShapeFault::NotSubgroup)),
    (&[4], Some(ShapeFault::NotSubgroup)),
    (&[3, 1], None),
    (&[], None),
];

// Dimensions, whether they are periodic, and the fault where they are to be a grid of four.
const LAID: &[(&[u32], &[bool], Option<ShapeFault>)] = &[
    (&[2, 2], &[true, false], None),
    (&[5], &[false], Some(ShapeFault::BadDims)),
    (&[2], &[], Some(ShapeFault::BadDims)),
    (&[0], &[true], Some(ShapeFault::BadDims)),
    (&[], &[], None),
];

#[test]
fn faults_of_constructors(rt: HostRuntime) {
    for (ranks, expected) in CREATED {
        let ranks = numbers(&rt, rt.alloc(), ranks);
        expect_constructor(&rt, Signature::Create { ranks }, *expected);
    }
    for (dims, periods, expected) in LAID {
        let dims = numbers(&rt, rt.alloc(), dims);
        let periods = flags(&rt, rt.alloc(), periods);
        expect_constructor(&rt, Signature::CartCreate { dims, periods }, *expected);
    }
    let keep = flags(&rt, rt.alloc(), &[true]);
    let no_grid = Some(ShapeFault::NoTopology);
    expect_constructor(&rt, Signature::CartSub { keep }, no_grid);
}

// The first that is no member ends it: so many are not compared with one another.
#[test]
fn ranks_out_of_range_end_at_once(rt: HostRuntime) {
    let ranks = Numbers::from(upward(&rt, rt.alloc(), 0, 4_000_000));
    let no_subgroup = Some(ShapeFault::NotSubgroup);
    expect_constructor(&rt, Signature::Create { ranks }, no_subgroup);
}

// The dimensions that are kept of a grid of two, and the fault.
const KEPT: &[(&[bool], Option<ShapeFault>)] = &[
    (&[true], Some(ShapeFault::BadDims)),
    (&[false, false], None),
];

#[test]
fn faults_of_parts_of_a_grid(rt: HostRuntime) {
    let grid = grid(&rt, rt.alloc(), 4, &[2, 2], &[true, false]);
    for (keep, expected) in KEPT {
        let keep = flags(&rt, rt.alloc(), keep);
        let sig = Signature::CartSub { keep };
        expect_fault(&rt, &grid, 0, sig, Own::Plain, 0, *expected);
    }
    drop(grid);
}

// The copy of what a rank stated that gave one number of dataset 0 to a gather.
#[test]
fn copy_of_a_gather(rt: HostRuntime) {
    let alpha = DatasetId::new(0).expect(&rt, "a dataset");
    let stated = Stated {
        sig: Signature::Gather {
            root: 0,
            elem_type: ElemType::Int32,
            count: 1,
        },
        own: Own::Plain,
        given: 1,
        label: Some(Label::Of(alpha)),
        barred: false,
    };
    let Ok(copy) = stated.copy(rt.alloc()) else {
        panic!(&rt; "no memory")
    };
    assert!(&rt; copy.sig.is_same(&stated.sig) && matches!(&copy.own, Own::Plain));
    assert!(&rt; copy.given == 1 && copy.label == Some(Label::Of(alpha)) && !copy.barred);
    drop(copy);
    drop(stated);
}

// The copy of what a rank stated for a grid, which gave three numbers in two blocks.
#[test]
fn copy_of_a_grid_statement(rt: HostRuntime) {
    let dims = numbers(&rt, rt.alloc(), &[2, 2]);
    let periods = flags(&rt, rt.alloc(), &[true, false]);
    let own = Own::Counts(numbers(&rt, rt.alloc(), &[1, 2]));
    let stated = Stated {
        sig: Signature::CartCreate { dims, periods },
        own,
        given: 3,
        label: None,
        barred: false,
    };
    let Ok(copy) = stated.copy(rt.alloc()) else {
        panic!(&rt; "no memory")
    };
    let dup = Signature::Dup;
    assert!(&rt; copy.sig.is_same(&stated.sig) && !copy.sig.is_same(&dup));
    assert_eq!(&rt; copy.own.counts(), [1, 2].as_slice());
    assert!(&rt; copy.given == 3 && copy.label.is_none() && !copy.barred);
    let grid = grid(&rt, rt.alloc(), 4, &[2, 2], &[true, false]);
    assert_eq!(&rt; stated.fault(&grid, 0), Some(ShapeFault::BadCount));
    drop(grid);
    drop(dup);
    drop(copy);
    drop(stated);
}

#[test]
fn copy_of_a_grid(rt: HostRuntime) {
    let grid = grid(&rt, rt.alloc(), 4, &[2, 2], &[true, false]);
    let Ok(copy) = grid.copy(rt.alloc()) else {
        panic!(&rt; "no memory")
    };
    let other = plain(4);
    assert!(&rt; copy.is_same(&grid) && !copy.is_same(&other));
    drop(other);
    drop(copy);
    drop(grid);
}

#[test]
fn lists_of_numbers(rt: HostRuntime) {
    let list = numbers(&rt, rt.alloc(), &[5, 6]);
    let empty = Numbers::from(Vec::new(rt.alloc()));
    let Ok(copy) = list.copy(rt.alloc()) else {
        panic!(&rt; "no memory")
    };
    assert!(&rt; copy.is_same(&list) && !copy.is_same(&empty));
    // A book keeps such copies to the end.
    let room = copy.into_vec().capacity();
    assert!(&rt; room <= 16);
    let items = list.into_vec();
    assert_eq!(&rt; items.as_slice(), [5, 6].as_slice());
    drop(items);
    drop(empty);
}

#[test]
fn long_lists_are_copied(rt: HostRuntime) {
    let list = numbers(&rt, rt.alloc(), &[7; 256]);
    let Ok(copy) = list.copy(rt.alloc()) else {
        panic!(&rt; "no memory")
    };
    assert!(&rt; copy.is_same(&list));
    drop(copy);
    drop(list);
    let kept = flags(&rt, rt.alloc(), &[true; 256]);
    let Ok(copy) = kept.copy(rt.alloc()) else {
        panic!(&rt; "no memory")
    };
    assert!(&rt; copy.is_same(&kept));
    drop(copy);
    drop(kept);
}

#[test]
fn lists_of_flags(rt: HostRuntime) {
    let kept = flags(&rt, rt.alloc(), &[true, false]);
    let empty = Flags::from(Vec::new(rt.alloc()));
    let Ok(copy) = kept.copy(rt.alloc()) else {
        panic!(&rt; "no memory")
    };
    assert!(&rt; copy.is_same(&kept) && !copy.is_same(&empty));
    let room = copy.into_vec().capacity();
    assert!(&rt; room <= 16);
    let values = kept.into_vec();
    assert_eq!(&rt; values.as_slice(), [true, false].as_slice());
    drop(values);
    drop(empty);
}

// How many elements a rank gives, none where it has stated nothing.
fn given_at(rows: &Statements, rank: u32) -> Option<u32> {
    match rows.get(rank) {
        Some(stated) => Some(stated.given),
        None => None,
    }
}

#[test]
fn statements_are_set(rt: HostRuntime) {
    let Ok(mut rows) = Statements::vacant(rt.alloc(), 2) else {
        panic!(&rt; "no memory")
    };
    assert!(&rt; rows.len() == 2);
    rows.set(
        1,
        Stated {
            sig: Signature::Dup,
            own: Own::Plain,
            given: 7,
            label: None,
            barred: false,
        },
    );
    assert!(&rt; given_at(&rows, 0).is_none() && given_at(&rows, 2).is_none());
    assert_eq!(&rt; given_at(&rows, 1), Some(7));
    let rows = rows.into_vec();
    assert!(&rt; rows.len() == 2 && rows.capacity() == 2);
    drop(rows);
}
