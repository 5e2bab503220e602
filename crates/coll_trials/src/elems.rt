//! Buffers and operations.
//!
//! No memory ends a test at once: each way out of a function that owns a buffer costs its proof.
//! Where one has served it is handed to `drop`.
ghost use Rattle.std.specs.Prelude.{◌≡◌, [], length};

use mpi_elems::{Buffer, BufferBuilder, BufferFault, ElemType, allowed, combine_into};
use std::process::Abort;
use wall_labels::Op;

fn buffer(rt: &(impl AllocGlobal + Abort), ty: ElemType, numbers: &[i128]) -> Buffer
    ensures kind { result.elem_type ≡ ty }
    ensures numbers { result.numbers ≡ numbers.now }
{
    match Buffer::from_numbers(rt.alloc(), ty, numbers) {
        Ok(buffer) => buffer,
        Err(_) => panic!(rt; "no buffer"),
    }
}

// The fault of what was made of numbers, none where it is a buffer.
fn fault(made: Result<Buffer, BufferFault>) -> Option<BufferFault> {
    match made {
        Ok(buffer) => {
            drop(buffer);
            None
        }
        Err(fault) => Some(fault),
    }
}

// Numbers that are no buffer of the type.
fn expect_fault(
    rt: &(impl AllocGlobal + Abort),
    ty: ElemType,
    numbers: &[i128],
    expected: BufferFault,
) {
    let found = fault(Buffer::from_numbers(rt.alloc(), ty, numbers));
    assert_eq!(rt; found, Some(expected), "{ty:?}");
}

// Expects the fault of a builder that is told these numbers.
fn expect_built_fault(
    rt: &(impl AllocGlobal + Abort),
    ty: ElemType,
    numbers: &[i128],
    expected: BufferFault,
) {
    let found = fault(built(rt, ty, numbers));
    assert_eq!(rt; found, Some(expected), "{ty:?}");
}

fn holds(rt: &(impl AllocGlobal + Abort), found: &Buffer, numbers: &[i128]) -> bool {
    let wanted = buffer(rt, found.elem_type(), numbers);
    let is_same = found.is_same(&wanted);
    drop(wanted);
    is_same
}

// Whether a builder that is told these numbers gives the same buffer.
fn is_built(rt: &impl AllocGlobal, buffer: &Buffer, numbers: &[i128]) -> bool {
    match built(rt, buffer.elem_type(), numbers) {
        Ok(made) => {
            let is_same = made.is_same(buffer);
            drop(made);
            is_same
        }
        Err(_) => false,
    }
}

fn combined(
    rt: &(impl AllocGlobal + Abort),
    op: Op,
    ty: ElemType,
    a: &[i128],
    b: &[i128],
) -> Buffer {
    let mut first = buffer(rt, ty, a);
    let second = buffer(rt, ty, b);
    assert!(rt; first.count() == second.count() && allowed(op, ty));
    combine_into(op, &mut first, &second);
    drop(second);
    first
}

fn merge(rt: &impl Abort, op: Op, into: &mut Buffer, from: &Buffer, start: usize, len: usize) {
    assert!(rt; into.elem_type() == from.elem_type() && allowed(op, into.elem_type()));
    assert!(rt; start < 100 && len < 100 && start + len <= from.count() && len <= into.room());
    into.merge_range(op, from, start, len);
}

fn append(rt: &impl Abort, into: &mut Buffer, from: &Buffer, start: usize, len: usize) {
    assert!(rt;
        into.elem_type() == from.elem_type() && start < 100 && len < 100 && into.count() < 100
    );
    assert!(rt; start + len <= from.count() && into.count() + len <= into.room());
    into.append_range(from, start, len);
}

// A type, the number below its least one, its least and its greatest one, and the number above.
const RANGES: &[(ElemType, i128, i128, i128, i128)] = &[
    (ElemType::Int8, -129, -128, 127, 128),
    (ElemType::Int16, -32769, -32768, 32767, 32768),
    (
        ElemType::Int32,
        -2147483649,
        -2147483648,
        2147483647,
        2147483648,
    ),
    (
        ElemType::Int64,
        -9223372036854775809,
        -9223372036854775808,
        9223372036854775807,
        9223372036854775808,
    ),
    (ElemType::Uint8, -1, 0, 255, 256),
    (ElemType::Uint16, -1, 0, 65535, 65536),
    (ElemType::Uint32, -1, 0, 4294967295, 4294967296),
    (
        ElemType::Uint64,
        -1,
        0,
        18446744073709551615,
        18446744073709551616,
    ),
];

fn expect_two(rt: &(impl AllocGlobal + Abort), ty: ElemType, low: i128, high: i128) {
    let both = buffer(rt, ty, &[low, high]);
    assert!(rt;
        both.count() == 2 && both.number_at(0) == low && both.number_at(1) == high,
        "{ty:?}"
    );
    assert!(rt; is_built(rt, &both, &[low, high]), "{ty:?}");
    drop(both);
}

#[test]
fn reads_numbers_of_each_type(rt: HostRuntime) {
    let bad = BufferFault::BadNumber;
    for (ty, below, low, high, above) in RANGES {
        expect_two(&rt, *ty, *low, *high);
        expect_fault(&rt, *ty, &[*low, *above], bad);
        expect_fault(&rt, *ty, &[*below], bad);
        expect_built_fault(&rt, *ty, &[*low, *above], bad);
    }
}

#[test]
fn reads_pairs(rt: HostRuntime) {
    let two = ElemType::TwoInt;
    expect_fault(&rt, two, &[1], BufferFault::OddPair);
    expect_fault(&rt, two, &[2147483648], BufferFault::BadNumber);
    expect_built_fault(&rt, two, &[1, 2, 3], BufferFault::OddPair);
    let pair = buffer(&rt, two, &[1, -2]);
    assert!(rt; pair.count() == 1 && pair.len() == 2 && pair.number_at(1) == -2);
    assert!(rt; is_built(&rt, &pair, &[1, -2]));
    drop(pair);
}

// An operation on a number of this type and another, and what it gives. The logical ones look at
// the truth of each number, whatever bits the two have in common.
const COMBINED: &[(Op, ElemType, i128, i128, i128)] = &[
    (Op::Bxor, ElemType::Uint8, 255, 1, 254),
    (Op::Bxor, ElemType::Int8, -1, 1, -2),
    (Op::Band, ElemType::Int16, -1, 255, 255),
    (Op::Bor, ElemType::Int32, -256, 1, -255),
    (Op::Lxor, ElemType::Int32, 5, 7, 0),
    (Op::Lor, ElemType::Uint32, 0, 9, 1),
    (Op::Land, ElemType::Uint64, 2, 4, 1),
    (Op::Prod, ElemType::Int8, 64, 2, -128),
    (Op::Prod, ElemType::Uint16, 256, 256, 0),
    (
        Op::Sum,
        ElemType::Int64,
        9223372036854775807,
        1,
        -9223372036854775808,
    ),
    (Op::Sum, ElemType::Uint8, 255, 1, 0),
    (
        Op::Max,
        ElemType::Uint64,
        18446744073709551615,
        1,
        18446744073709551615,
    ),
    (Op::Min, ElemType::Int16, -1, 1, -1),
    (Op::Max, ElemType::Int16, -1, 1, 1),
    (Op::Min, ElemType::Uint16, 65535, 1, 1),
    (Op::Band, ElemType::Int8, -128, 127, 0),
    (Op::Band, ElemType::Uint32, 12, 10, 8),
    (Op::Bor, ElemType::Int16, -32768, 1, -32767),
    (Op::Bor, ElemType::Uint32, 12, 10, 14),
    (Op::Bxor, ElemType::Int64, -1, -256, 255),
    (Op::Bxor, ElemType::Uint32, 12, 10, 6),
    (Op::Land, ElemType::Int32, 0, 0, 0),
    (Op::Land, ElemType::Int32, 0, -5, 0),
    (Op::Land, ElemType::Int32, 5, 0, 0),
    (Op::Land, ElemType::Int32, 5, -5, 1),
    (Op::Land, ElemType::Int32, 4, 3, 1),
    (Op::Land, ElemType::Int32, 2, 1, 1),
    (Op::Lor, ElemType::Int32, 0, 0, 0),
    (Op::Lor, ElemType::Int32, 0, -5, 1),
    (Op::Lor, ElemType::Int32, 5, 0, 1),
    (Op::Lor, ElemType::Int32, 5, -5, 1),
    (Op::Lor, ElemType::Int32, 4, 3, 1),
    (Op::Lor, ElemType::Int32, 2, 1, 1),
    (Op::Lxor, ElemType::Int32, 0, 0, 0),
    (Op::Lxor, ElemType::Int32, 0, -5, 1),
    (Op::Lxor, ElemType::Int32, 5, 0, 1),
    (Op::Lxor, ElemType::Int32, 5, -5, 0),
    (Op::Lxor, ElemType::Int32, 4, 3, 0),
    (Op::Lxor, ElemType::Int32, 2, 1, 0),
    (Op::Land, ElemType::Uint16, 0, 0, 0),
    (Op::Land, ElemType::Uint16, 0, 7, 0),
    (Op::Land, ElemType::Uint16, 5, 0, 0),
    (Op::Land, ElemType::Uint16, 5, 7, 1),
    (Op::Land, ElemType::Uint16, 4, 3, 1),
    (Op::Land, ElemType::Uint16, 2, 1, 1),
    (Op::Lor, ElemType::Uint16, 0, 0, 0),
    (Op::Lor, ElemType::Uint16, 0, 7, 1),
    (Op::Lor, ElemType::Uint16, 5, 0, 1),
    (Op::Lor, ElemType::Uint16, 5, 7, 1),
    (Op::Lor, ElemType::Uint16, 4, 3, 1),
    (Op::Lor, ElemType::Uint16, 2, 1, 1),
    (Op::Lxor, ElemType::Uint16, 0, 0, 0),
    (Op::Lxor, ElemType::Uint16, 0, 7, 1),
    (Op::Lxor, ElemType::Uint16, 5, 0, 1),
    (Op::Lxor, ElemType::Uint16, 5, 7, 0),
    (Op::Lxor, ElemType::Uint16, 4, 3, 0),
    (Op::Lxor, ElemType::Uint16, 2, 1, 0),
    // A number's truth is that of all its bits.
    (Op::Land, ElemType::Int8, -128, 64, 1),
    (Op::Lxor, ElemType::Int64, 4294967296, 0, 1),
    (Op::Lor, ElemType::Uint64, 0, 9223372036854775808, 1),
];

// Whether the operation gives these numbers.
fn gives(
    rt: &(impl AllocGlobal + Abort),
    op: Op,
    ty: ElemType,
    a: &[i128],
    b: &[i128],
    want: &[i128],
) -> bool {
    let found = combined(rt, op, ty, a, b);
    let is_wanted = holds(rt, &found, want);
    drop(found);
    is_wanted
}

#[test]
fn combines_numbers(rt: HostRuntime) {
    for (op, ty, a, b, want) in COMBINED {
        let is_wanted = gives(&rt, *op, *ty, &[*a], &[*b], &[*want]);
        assert!(rt; is_wanted, "{op:?} {a} {b}");
    }
}

#[test]
fn combines_pairs(rt: HostRuntime) {
    let (least, most, two) = (Op::Minloc, Op::Maxloc, ElemType::TwoInt);
    assert!(rt; gives(&rt, least, two, &[3, 4], &[3, 2], &[3, 2]));
    let (a, b, greater) = ([3, 1, 1, 0], [3, 2, 5, 9], [3, 1, 5, 9]);
    assert!(rt; gives(&rt, most, two, &a, &b, &greater));
}

#[test]
fn merges_and_appends_parts(rt: HostRuntime) {
    let row = buffer(&rt, ElemType::Int8, &[1, 2, 3]);
    let Ok(mut made) = Buffer::with_room(rt.alloc(), ElemType::Int8, 4) else {
        panic!(&rt; "no room")
    };
    merge(&rt, Op::Max, &mut made, &row, 2, 1);
    merge(&rt, Op::Sum, &mut made, &row, 0, 3);
    assert!(rt; holds(&rt, &made, &[4, 2, 3]));
    merge(&rt, Op::Min, &mut made, &row, 1, 1);
    append(&rt, &mut made, &row, 2, 1);
    assert!(rt; holds(&rt, &made, &[2, 2, 3, 3]));
    assert_eq!(rt; made.room(), 4);
    drop(made);
    drop(row);
}

#[test]
fn names_and_allows(rt: HostRuntime) {
    assert_eq!(rt; ElemType::TwoInt.name(), "2int");
    assert_eq!(rt; ElemType::named(b"uint64"), Some(ElemType::Uint64));
    assert_eq!(rt; ElemType::named(b"int33"), None);
    assert_eq!(rt; ElemType::TwoInt.numbers_per_element(), 2);
    assert!(rt; !allowed(Op::Sum, ElemType::TwoInt) && allowed(Op::Minloc, ElemType::TwoInt));
    let empty = Buffer::empty(rt.alloc(), ElemType::Uint64);
    let other = Buffer::empty(rt.alloc(), ElemType::Int64);
    assert!(rt; empty.count() == 0 && empty.is_empty() && !empty.is_same(&other));
    drop(empty);
    drop(other);
}

// Each type, and how many numbers 65,536 elements have, which are as many as a post may give.
const TYPES: &[(ElemType, usize)] = &[
    (ElemType::Int8, 65_536),
    (ElemType::Int16, 65_536),
    (ElemType::Int32, 65_536),
    (ElemType::Int64, 65_536),
    (ElemType::Uint8, 65_536),
    (ElemType::Uint16, 65_536),
    (ElemType::Uint32, 65_536),
    (ElemType::Uint64, 65_536),
    (ElemType::TwoInt, 131_072),
];

// So many elements, all of zeros, which are read at once and told one by one.
fn expect_most(rt: &(impl AllocGlobal + Abort), ty: ElemType, zeros: &[i128]) {
    let most = buffer(rt, ty, zeros);
    assert_eq!(rt; most.count(), 65_536, "{ty:?}");
    assert!(rt; is_built(rt, &most, zeros), "{ty:?}");
    drop(most);
}

fn expect_room(rt: &(impl AllocGlobal + Abort), ty: ElemType, wanted: usize) {
    match Buffer::with_room(rt.alloc(), ty, wanted) {
        Ok(empty) => {
            assert_eq!(rt; empty.room(), wanted, "{ty:?}");
            drop(empty);
        }
        Err(_) => panic!(rt; "no room"),
    }
}

#[test]
fn holds_as_many_as_a_post_may_give(rt: HostRuntime) {
    let Ok(zeros) = vec![in rt.alloc(); 0i128; 131_072] else {
        panic!(&rt; "no memory")
    };
    for (ty, numbers) in TYPES {
        assert!(&rt; *numbers <= zeros.len());
        let (prefix, _) = zeros.split_at(*numbers);
        expect_most(&rt, *ty, prefix);
        expect_room(&rt, *ty, 65_536);
    }
    drop(zeros);
}

fn built(rt: &impl AllocGlobal, ty: ElemType, numbers: &[i128]) -> Result<Buffer, BufferFault> {
    let Ok(mut builder) = BufferBuilder::with_room(rt.alloc(), ty, numbers.len()) else {
        return Err(BufferFault::NoMemory);
    };
    match push_all(&mut builder, numbers) {
        Ok(()) => builder.finish(),
        Err(fault) => {
            drop(builder);
            Err(fault)
        }
    }
}

fn push_all(builder: &mut BufferBuilder, numbers: &[i128]) -> Result<(), BufferFault>
    requires none { builder.old.numbers ≡ [] }
    requires room { builder.old.room ≡ length numbers.now }
{
    for number in numbers {
        builder.push_number(*number)?;
    }
    Ok(())
}
