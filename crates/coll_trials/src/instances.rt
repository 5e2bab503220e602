//! Deliveries of small communicators, worked by hand from the standard's rules.
//!
//! No memory ends a test at once: each way out of a function that owns a wide value, as an instance
//! or a delivery, costs its proof. Where one has served it is handed to `drop`.

use crate::parties::{grid, lowest, numbers, plain, stated};
use coll_routes::{Roll, Shape, Signature, Statements};
use coll_values::{Block, Delivery, Full, Integers, Parts, deliver, fill, room};
use mpi_elems::{Buffer, ElemType};
use std::alloc::{AllocError, Global};
use std::process::Abort;
use wall_labels::Op;

const INT: ElemType = ElemType::Int32;

// What each rank gives, as a buffer.
fn buffers(
    rt: &impl Abort,
    alloc: Global,
    size: u32,
    elem_type: ElemType,
    given: &[&[i128]],
) -> Vec<Buffer> {
    let mut parts = Vec::new(alloc);
    for rank in 0..size as usize {
        let numbers = given.get(rank).copied().unwrap_or(&[]);
        match Buffer::from_numbers(alloc, elem_type, numbers) {
            Ok(part) => assert!(rt; parts.push(part).is_ok(), "no memory"),
            Err(_) => panic!(rt; "no buffer"),
        }
    }
    parts
}

// What the ranks that give these parts state, with these counts if there are any.
fn statements(
    rt: &impl Abort,
    alloc: Global,
    sig: &Signature,
    parts: &[Buffer],
    counts: &[&[u32]],
) -> Statements {
    let mut all = Vec::new(alloc);
    for (rank, part) in parts.iter().enumerate() {
        let given = u32::try_from(part.count()).ok().expect(rt, "few elements");
        let statement = stated(rt, alloc, sig, given, counts.get(rank).copied());
        assert!(rt; all.push(Some(statement)).is_ok(), "no memory");
    }
    Statements::from(all)
}

// An instance in which each rank gives these numbers, and states these counts if there are any.
fn full(
    rt: &impl Abort,
    alloc: Global,
    shape: Shape,
    sig: Signature,
    given: &[&[i128]],
    counts: &[&[u32]],
) -> Full<Buffer> {
    let elem_type = sig.elem_type().unwrap_or(ElemType::Int8);
    let parts = buffers(rt, alloc, shape.size, elem_type, given);
    let stated = statements(rt, alloc, &sig, &parts, counts);
    Full {
        roll: Roll {
            members: lowest(rt, alloc, shape.size),
            shape,
            sig,
            stated,
        },
        parts: Parts::from(parts),
    }
}

fn push_numbers(alloc: Global, text: &mut String, numbers: &Integers) -> Result<(), AllocError> {
    text.push_str("[")?;
    for i in 0..numbers.len() {
        let number = numbers.get(i);
        let space = if i == 0 { "" } else { " " };
        text.push_str(&format!(in alloc; "{space}{number}")?)?;
    }
    text.push_str("]")
}

fn push_block(alloc: Global, text: &mut String, block: &Block) -> Result<(), AllocError> {
    match block {
        Block::Missing => text.push_str("-"),
        Block::Numbers(numbers) => push_numbers(alloc, text, numbers),
    }
}

// The blocks one after the other: `-` where one is missing.
fn shown(rt: &impl Abort, alloc: Global, delivery: &Delivery) -> String {
    let mut text = String::new(alloc);
    for block in delivery.as_slice() {
        assert!(rt; push_block(alloc, &mut text, block).is_ok(), "no memory");
    }
    text
}

// Whether the block has room for its elements and no more.
fn has_no_spare_room(block: &Block) -> bool {
    match block {
        Block::Missing => true,
        Block::Numbers(numbers) => {
            let buffer = numbers.as_buffer();
            buffer.room() == buffer.count()
        }
    }
}

// There is room for the blocks and their elements, and no more.
fn expect_no_spare_room(rt: &impl Abort, delivery: Delivery, name: &str, rank: u32) {
    let blocks = delivery.into_vec();
    assert!(rt; blocks.capacity() == blocks.len(), "{name} to {rank}");
    for block in blocks.as_slice() {
        assert!(rt; has_no_spare_room(block), "{name} to {rank}");
    }
    drop(blocks);
}

fn expect_shown(
    rt: &impl Abort,
    alloc: Global,
    delivery: &Delivery,
    wanted: &str,
    name: &str,
    rank: u32,
) {
    let text = shown(rt, alloc, delivery);
    assert_eq!(rt; text.as_str(), wanted, "{name} to {rank}");
}

// What a rank is delivered, by `deliver` and by `room` and `fill`. Either takes the memory that is
// needed alone.
fn expect_delivery(rt: &impl Abort, alloc: Global, full: &Full<Buffer>, rank: u32, wanted: &str) {
    assert!(rt; full.is_whole() && rank < full.roll.shape.size);
    let name = full.roll.sig.kind().name();
    let Ok(delivery) = deliver(alloc, full, rank) else {
        panic!(rt; "no memory")
    };
    expect_shown(rt, alloc, &delivery, wanted, name, rank);
    expect_no_spare_room(rt, delivery, name, rank);
    let Ok(space) = room(alloc, full, rank) else {
        panic!(rt; "no memory")
    };
    let filled = fill(full, rank, space);
    expect_shown(rt, alloc, &filled, wanted, name, rank);
    expect_no_spare_room(rt, filled, name, rank);
}

fn expect_all(rt: &impl Abort, alloc: Global, full: &Full<Buffer>, expected: &[&str]) {
    assert!(rt; full.is_whole());
    assert_eq!(rt; full.roll.shape.size as usize, expected.len());
    for rank in 0..full.roll.shape.size {
        expect_delivery(rt, alloc, full, rank, expected[rank as usize]);
    }
}

// What each rank of a shape is delivered, where the ranks give these numbers and state these
// counts.
fn expect_deliveries(
    rt: &impl Abort,
    alloc: Global,
    shape: Shape,
    sig: Signature,
    given: &[&[i128]],
    counts: &[&[u32]],
    expected: &[&str],
) {
    let full = full(rt, alloc, shape, sig, given, counts);
    expect_all(rt, alloc, &full, expected);
    drop(full);
}

// Expects the deliveries of two ranks without a grid, which state no counts.
fn expect_of_two(
    rt: &(impl AllocGlobal + Abort),
    sig: Signature,
    given: [&[i128]; 2],
    expected: [&str; 2],
) {
    expect_deliveries(rt, rt.alloc(), plain(2), sig, &given, &[], &expected);
}

// Expects the deliveries of four ranks without a grid, which state no counts.
fn expect_of_four(
    rt: &(impl AllocGlobal + Abort),
    sig: Signature,
    given: [&[i128]; 4],
    expected: [&str; 4],
) {
    expect_deliveries(rt, rt.alloc(), plain(4), sig, &given, &[], &expected);
}

#[test]
fn copies(rt: HostRuntime) {
    let (elem_type, count) = (INT, 1);
    expect_of_two(&rt, Signature::Barrier, [&[], &[]], ["", ""]);
    let bcast = Signature::Bcast {
        root: 1,
        elem_type,
        count: 2,
    };
    expect_of_two(&rt, bcast, [&[], &[7, -1]], ["[7 -1]", ""]);
    let gather = Signature::Gather {
        root: 0,
        elem_type,
        count,
    };
    expect_of_two(&rt, gather, [&[8], &[7]], ["[8][7]", ""]);
    let gatherv = Signature::Gatherv { root: 1, elem_type };
    expect_of_two(&rt, gatherv, [&[1, 2], &[]], ["", "[1 2][]"]);
    let scatter = Signature::Scatter {
        root: 0,
        elem_type,
        count,
    };
    expect_of_two(&rt, scatter, [&[3, 4], &[]], ["[3]", "[4]"]);
    let allgather = Signature::Allgather {
        elem_type,
        count: 0,
    };
    expect_of_two(&rt, allgather, [&[], &[]], ["[][]", "[][]"]);
    let alltoall = Signature::Alltoall { elem_type, count };
    expect_of_two(&rt, alltoall, [&[1, 2], &[3, 4]], ["[1][3]", "[2][4]"]);
    expect_of_two(&rt, Signature::Dup, [&[], &[]], ["", ""]);
}

#[test]
fn blocks_of_counts(rt: HostRuntime) {
    let alloc = rt.alloc();
    let elem_type = INT;
    let scatterv = Signature::Scatterv { root: 1, elem_type };
    let given: [&[i128]; 3] = [&[], &[10, 11, 12], &[]];
    let counts: [&[u32]; 3] = [&[], &[2, 0, 1], &[]];
    let expected = ["[10 11]", "[]", "[12]"];
    expect_deliveries(&rt, alloc, plain(3), scatterv, &given, &counts, &expected);
    let alltoallv = Signature::Alltoallv { elem_type };
    let given: [&[i128]; 3] = [&[1, 2, 3], &[], &[4, 5]];
    let counts: [&[u32]; 3] = [&[1, 0, 2], &[0, 0, 0], &[0, 1, 1]];
    let expected = ["[1][][]", "[][][4]", "[2 3][][5]"];
    expect_deliveries(&rt, alloc, plain(3), alltoallv, &given, &counts, &expected);
}

// The signature of a reduction of one element to each rank.
fn allreduce(op: Op, elem_type: ElemType) -> Signature {
    Signature::Allreduce {
        op,
        elem_type,
        count: 1,
    }
}

#[test]
fn reductions(rt: HostRuntime) {
    let (op, elem_type, count) = (Op::Sum, INT, 1);
    let given: [&[i128]; 4] = [&[127], &[1], &[0], &[0]];
    expect_of_four(&rt, allreduce(op, ElemType::Int8), given, ["[-128]"; 4]);
    let pairs = ElemType::TwoInt;
    let given: [&[i128]; 4] = [&[5, 2], &[5, 1], &[4, 0], &[5, 3]];
    expect_of_four(&rt, allreduce(Op::Maxloc, pairs), given, ["[5 1]"; 4]);
    let given: [&[i128]; 4] = [&[5, 2], &[4, 7], &[4, 6], &[5, 0]];
    expect_of_four(&rt, allreduce(Op::Minloc, pairs), given, ["[4 6]"; 4]);
    let reduce = Signature::Reduce {
        root: 2,
        op,
        elem_type,
        count,
    };
    let given: [&[i128]; 4] = [&[5], &[6], &[7], &[1]];
    expect_of_four(&rt, reduce, given, ["", "", "[19]", ""]);
    let nothing = Signature::Allreduce {
        op,
        elem_type,
        count: 0,
    };
    expect_of_four(&rt, nothing, [&[]; 4], ["[]"; 4]);
}

#[test]
fn scattered_reductions(rt: HostRuntime) {
    let block = Signature::ReduceScatterBlock {
        op: Op::Prod,
        elem_type: ElemType::Uint8,
        count: 1,
    };
    let given: [&[i128]; 4] = [
        &[16, 2, 255, 1],
        &[16, 3, 255, 0],
        &[1, 5, 1, 7],
        &[1, 7, 1, 9],
    ];
    expect_of_four(&rt, block, given, ["[0]", "[210]", "[1]", "[0]"]);
    let scattered = Signature::ReduceScatter {
        op: Op::Max,
        elem_type: INT,
        counts: numbers(&rt, rt.alloc(), &[1, 0, 2, 0]),
    };
    let given: [&[i128]; 4] = [&[1, 9, 4], &[2, 8, 4], &[0, 9, 7], &[1, 1, 1]];
    expect_of_four(&rt, scattered, given, ["[2]", "[]", "[9 7]", "[]"]);
}

#[test]
fn scans(rt: HostRuntime) {
    let (elem_type, count) = (INT, 1);
    let scan = Signature::Scan {
        op: Op::Land,
        elem_type,
        count,
    };
    let given: [&[i128]; 4] = [&[5], &[3], &[0], &[2]];
    expect_of_four(&rt, scan, given, ["[5]", "[1]", "[0]", "[0]"]);
    let exscan = Signature::Exscan {
        op: Op::Sum,
        elem_type,
        count,
    };
    let given: [&[i128]; 4] = [&[1], &[2], &[3], &[4]];
    expect_of_four(&rt, exscan, given, ["", "[1]", "[3]", "[6]"]);
}

// The deliveries on a grid, where no counts are stated.
fn expect_on_grid(
    rt: &impl Abort,
    alloc: Global,
    shape: Shape,
    sig: Signature,
    given: &[&[i128]],
    expected: &[&str],
) {
    expect_deliveries(rt, alloc, shape, sig, given, &[], expected);
}

#[test]
fn deliveries_between_neighbours(rt: HostRuntime) {
    let alloc = rt.alloc();
    let (elem_type, count) = (INT, 1);
    // Two by two, of which the first dimension is periodic: the second has edges.
    let tube = grid(&rt, alloc, 4, &[2, 2], &[true, false]);
    let gather = Signature::NeighborAllgather { elem_type, count };
    let given: [&[i128]; 4] = [&[10], &[11], &[12], &[13]];
    let expected = [
        "[12][12]-[11]",
        "[13][13][10]-",
        "[10][10]-[13]",
        "[11][11][12]-",
    ];
    expect_on_grid(&rt, alloc, tube, gather, &given, &expected);
    // Periodic dimensions of size 1 and 2: what goes to the positive neighbour arrives in its
    // negative slot.
    let alone = grid(&rt, alloc, 1, &[1], &[true]);
    let exchange = Signature::NeighborAlltoall { elem_type, count };
    expect_on_grid(&rt, alloc, alone, exchange, &[&[1, 2]], &["[2][1]"]);
    let ring = grid(&rt, alloc, 2, &[2], &[true]);
    let exchange = Signature::NeighborAlltoall { elem_type, count };
    let given: [&[i128]; 2] = [&[1, 2], &[3, 4]];
    expect_on_grid(&rt, alloc, ring, exchange, &given, &["[4][3]", "[2][1]"]);
}

// What is given for a slot without a neighbour goes nowhere.
#[test]
fn deliveries_on_a_line(rt: HostRuntime) {
    let alloc = rt.alloc();
    let elem_type = INT;
    let line = grid(&rt, alloc, 2, &[2], &[false]);
    let exchange = Signature::NeighborAlltoallv { elem_type };
    let given: [&[i128]; 2] = [&[1, 2, 3], &[4]];
    let counts: [&[u32]; 2] = [&[1, 2], &[1, 0]];
    let expected = ["-[4]", "[2 3]-"];
    expect_deliveries(&rt, alloc, line, exchange, &given, &counts, &expected);
    let line = grid(&rt, alloc, 2, &[2], &[false]);
    let gather = Signature::NeighborAllgatherv { elem_type };
    let given: [&[i128]; 2] = [&[1, 2], &[]];
    expect_on_grid(&rt, alloc, line, gather, &given, &["-[]", "[1 2]-"]);
}
