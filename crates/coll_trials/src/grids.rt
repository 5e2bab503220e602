//! Worked rows. Expected values are worked by hand from the standard's rules.
//!
//! No memory ends a test at once: each way out of a function that owns a grid costs its proof.
//! Where one has served it is handed to `drop`.

use mpi_cart::{BadCoord, BadDirection, Grid, GridFault, Shift, fault_of};
use std::process::Abort;

// What making a grid answers where it has to be made.
fn made(rt: &impl Abort, answer: Result<Grid, GridFault>) -> Grid {
    match answer {
        Ok(grid) => grid,
        Err(_) => panic!(rt; "no grid"),
    }
}

fn expect_refused(rt: &impl Abort, answer: Result<Grid, GridFault>, expected: GridFault) {
    match answer {
        Ok(_) => panic!(rt; "{expected} is not found"),
        Err(fault) => assert_eq!(rt; fault, expected),
    }
}

// Two dimensions of sizes 2 and 3, of which the second is periodic, over seven processes.
fn two_by_three(rt: &(impl AllocGlobal + Abort)) -> Grid {
    made(rt, Grid::new(rt.alloc(), &[2, 3], &[false, true], 7))
}

#[test]
fn makes_grids(rt: HostRuntime) {
    let grid = two_by_three(&rt);
    assert_eq!(rt; grid.size(), 6);
    assert_eq!(rt; grid.ndims(), 2);
    drop(grid);
    let point = made(&rt, Grid::new(rt.alloc(), &[], &[], 1));
    assert_eq!(rt; point.size(), 1);
    assert_eq!(rt; point.rank_of(&[]), Ok(0));
    drop(point);
}

// The sizes of the dimensions, whether they are periodic, the number of processes, and the fault.
const FAULTS: &[(&[u32], &[bool], u32, Option<GridFault>)] = &[
    (&[2, 3], &[false, true], 7, None),
    (&[2, 3], &[false, true], 5, Some(GridFault::TooLarge)),
    (&[0], &[false], 7, Some(GridFault::BadDims)),
    (&[2, 3], &[false], 5, Some(GridFault::BadDims)),
    (&[1; 9], &[true; 9], 7, Some(GridFault::BadDims)),
    (&[1; 8], &[true; 8], 7, None),
    // The product is 2 to the power 32, which 32 bits don't hold.
    (&[65536, 65536], &[true, true], 7, Some(GridFault::TooLarge)),
    (&[], &[], 0, Some(GridFault::TooLarge)),
];

#[test]
fn finds_faults(rt: HostRuntime) {
    for (dims, periods, size, expected) in FAULTS {
        assert_eq!(rt;
            fault_of(dims, periods, *size),
            *expected,
            "{dims:?}, {size}"
        );
    }
    let large = Grid::new(rt.alloc(), &[2, 3], &[false, true], 5);
    expect_refused(&rt, large, GridFault::TooLarge);
    let empty = Grid::new(rt.alloc(), &[0], &[false], 7);
    expect_refused(&rt, empty, GridFault::BadDims);
}

const RANKS: &[([i64; 2], Result<u32, BadCoord>)] = &[
    ([0, -1], Ok(2)),
    ([1, 4], Ok(4)),
    ([2, 0], Err(BadCoord)),
    ([-1, 0], Err(BadCoord)),
    ([1, i64::MIN], Ok(4)),
];

fn expect_rank(rt: &impl Abort, grid: &Grid, at: &[i64], expected: Result<u32, BadCoord>) {
    assert_eq!(rt; grid.rank_of(at), expected, "{at:?}");
}

#[test]
fn finds_ranks(rt: HostRuntime) {
    let grid = two_by_three(&rt);
    assert!(rt; grid.size() == 6 && grid.ndims() == 2);
    assert_eq!(rt; grid.coord(4, 0), 1);
    assert_eq!(rt; grid.coord(4, 1), 1);
    for (at, expected) in RANKS {
        expect_rank(&rt, &grid, at, *expected);
    }
    expect_rank(&rt, &grid, &[0], Err(BadCoord));
    drop(grid);
}

fn expect_shift(
    rt: &impl Abort,
    grid: &Grid,
    rank: u32,
    direction: u32,
    displacement: i32,
    expected: Result<Shift, BadDirection>,
) {
    assert!(rt; grid.size() == 6 && rank < 6);
    let found = grid.shift(rank, direction, displacement);
    assert_eq!(rt; found, expected, "{rank} {direction} {displacement}");
}

// The ranks that a shift receives from and sends to.
fn between(source: Option<u32>, dest: Option<u32>) -> Result<Shift, BadDirection> {
    Ok(Shift { source, dest })
}

#[test]
fn shifts(rt: HostRuntime) {
    let grid = two_by_three(&rt);
    expect_shift(&rt, &grid, 0, 0, 1, between(None, Some(3)));
    expect_shift(&rt, &grid, 0, 1, 1, between(Some(2), Some(1)));
    expect_shift(&rt, &grid, 0, 1, -1, between(Some(1), Some(2)));
    expect_shift(&rt, &grid, 4, 1, 0, between(Some(4), Some(4)));
    expect_shift(&rt, &grid, 4, 0, 5, between(None, None));
    expect_shift(&rt, &grid, 0, 1, i32::MIN, between(Some(2), Some(1)));
    expect_shift(&rt, &grid, 0, 2, 1, Err(BadDirection));
    drop(grid);
}

// The neighbours of a rank, in the order of the slots.
fn expect_neighbours(rt: &impl Abort, grid: &Grid, rank: u32, expected: &[Option<u32>]) {
    assert!(rt; rank < grid.size() && expected.len() < 10);
    for (slot, expected) in expected.iter().enumerate() {
        let found = grid.neighbour(rank, slot as u32);
        assert_eq!(rt; found, *expected, "{rank}, slot {slot}");
    }
}

// Of rank 0.
const NEIGHBOURS: &[Option<u32>] = &[None, Some(3), Some(2), Some(1), None];

#[test]
fn neighbours(rt: HostRuntime) {
    let grid = two_by_three(&rt);
    expect_neighbours(&rt, &grid, 0, NEIGHBOURS);
    drop(grid);
}

#[test]
fn keeps_dimensions(rt: HostRuntime) {
    let grid = two_by_three(&rt);
    let row = made(&rt, grid.sub(rt.alloc(), &[false, true]));
    assert_eq!(rt; row.dims(), [3].as_slice());
    assert_eq!(rt; row.periods(), [true].as_slice());
    let point = made(&rt, grid.sub(rt.alloc(), &[false, false]));
    assert_eq!(rt; point.ndims(), 0);
    assert_eq!(rt; point.size(), 1);
    drop(point);
    // One answer for two dimensions.
    expect_refused(&rt, grid.sub(rt.alloc(), &[true]), GridFault::BadDims);
    let Ok(copy) = grid.copy(rt.alloc()) else {
        panic!(rt; "no copy")
    };
    assert!(rt; copy.is_same(&grid));
    assert!(rt; !copy.is_same(&row));
    drop(copy);
    drop(row);
    drop(grid);
}

// Of the last rank of eight periodic dimensions of size 2.
const LAST: &[Option<u32>] = &[Some(127), Some(127), Some(191), Some(191)];

// As many dimensions as there may be, and as many ranks as there may be processes.
#[test]
fn most_dimensions(rt: HostRuntime) {
    let grid = made(&rt, Grid::new(rt.alloc(), &[2; 8], &[true; 8], 256));
    assert_eq!(rt; grid.size(), 256);
    let Ok(copy) = grid.copy(rt.alloc()) else {
        panic!(rt; "no copy")
    };
    assert!(rt; copy.is_same(&grid));
    expect_neighbours(&rt, &copy, 255, LAST);
    drop(copy);
    let first = [true, false, false, false, false, false, false, false];
    let line = made(&rt, grid.sub(rt.alloc(), &first));
    assert_eq!(rt; line.dims(), [2].as_slice());
    drop(line);
    expect_neighbours(&rt, &grid, 255, LAST);
    drop(grid);
}

// Ranks of a grid of 65,536 rows and 65,535 columns, with the neighbour in each slot: the first,
// those at the end of what the grid keeps in its table, and the last.
const FAR: &[(u32, &[Option<u32>])] = &[
    (0, &[Some(4_294_836_225), Some(65_535), None, Some(1)]),
    (
        16_383,
        &[
            Some(4_294_852_608),
            Some(81_918),
            Some(16_382),
            Some(16_384),
        ],
    ),
    (
        16_384,
        &[
            Some(4_294_852_609),
            Some(81_919),
            Some(16_383),
            Some(16_385),
        ],
    ),
    (
        4_294_901_759,
        &[Some(4_294_836_224), Some(65_534), Some(4_294_901_758), None],
    ),
];

#[test]
fn neighbours_in_a_large_grid(rt: HostRuntime) {
    let grid = made(
        &rt,
        Grid::new(rt.alloc(), &[65_536, 65_535], &[true, false], u32::MAX),
    );
    assert_eq!(rt; grid.size(), 4_294_901_760);
    for (rank, expected) in FAR {
        expect_neighbours(&rt, &grid, *rank, expected);
    }
    drop(grid);
}
