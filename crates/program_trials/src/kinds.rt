//! Each kind of collective through a hall, its book and its audit.
use crate::endings::{audits_so, ends_so};
use crate::limits::crowd;
use crate::texts::{Texts, is_kept};
use std::alloc::{AllocError, Global};
use std::test::Fail;

// Two processes of one bank.
const PAIR: &str = "version = 1
[[class]]
name = \"banks\"
datasets = [\"alpha\", \"beta\"]
[[process]]
name = \"p0\"
home = \"alpha\"
[[process]]
name = \"p1\"
home = \"alpha\"
";

// Two grids of one dimension: communicator 1 is a row of the two processes, communicator 2 a ring.
const GRIDS: &str = "post 0 0 cart_create 2 0
post 1 0 cart_create 2 0
post 0 0 cart_create 2 1
post 1 0 cart_create 2 1
";

const GRIDS_POSTED: &str = "posted 0\nposted 0\nposted 1\nposted 1\n";

// What the two processes post, and what each gets, as docs/KINDS.md has it: worked by hand.
const KINDS: &[[&str; 4]] = &[
    ["0 barrier", "0 barrier", "none", "none"],
    [
        "0 bcast 1 int32 2",
        "0 bcast 1 int32 2 as alpha 5 6",
        "[5 6]",
        "none",
    ],
    [
        "0 gather 1 int32 1 as alpha 5",
        "0 gather 1 int32 1 as alpha 6",
        "none",
        "[5] [6]",
    ],
    [
        "0 gatherv 0 int32 as alpha 5 6",
        "0 gatherv 0 int32",
        "[5 6] []",
        "none",
    ],
    [
        "0 scatter 1 int32 2",
        "0 scatter 1 int32 2 as alpha 1 2 3 4",
        "[1 2]",
        "[3 4]",
    ],
    [
        "0 scatterv 0 int32 1,2 as alpha 5 6 7",
        "0 scatterv 0 int32 -",
        "[5]",
        "[6 7]",
    ],
    [
        "0 allgather int32 1 as alpha 5",
        "0 allgather int32 1 as alpha 6",
        "[5] [6]",
        "[5] [6]",
    ],
    [
        "0 allgatherv int32",
        "0 allgatherv int32 as alpha 5 6",
        "[] [5 6]",
        "[] [5 6]",
    ],
    [
        "0 alltoall int32 1 as alpha 1 2",
        "0 alltoall int32 1 as alpha 3 4",
        "[1] [3]",
        "[2] [4]",
    ],
    [
        "0 alltoallv int32 1,2 as alpha 1 2 3",
        "0 alltoallv int32 0,1 as alpha 4",
        "[1] []",
        "[2 3] [4]",
    ],
    [
        "0 reduce 1 sum int32 2 as alpha 1 2",
        "0 reduce 1 sum int32 2 as alpha 3 4",
        "none",
        "[4 6]",
    ],
    // of equal values the lower index stays
    [
        "0 allreduce minloc 2int 2 as alpha 5 0 7 0",
        "0 allreduce minloc 2int 2 as alpha 5 1 6 1",
        "[5 0 6 1]",
        "[5 0 6 1]",
    ],
    [
        "0 reduce_scatter sum int32 1,2 as alpha 1 2 3",
        "0 reduce_scatter sum int32 1,2 as alpha 10 20 30",
        "[11]",
        "[22 33]",
    ],
    [
        "0 reduce_scatter_block max int32 1 as alpha 1 9",
        "0 reduce_scatter_block max int32 1 as alpha 4 5",
        "[4]",
        "[9]",
    ],
    [
        "0 scan sum int32 1 as alpha 1",
        "0 scan sum int32 1 as alpha 2",
        "[1]",
        "[3]",
    ],
    [
        "0 exscan sum int32 1 as alpha 1",
        "0 exscan sum int32 1 as alpha 2",
        "none",
        "[1]",
    ],
    // in a row the first process has no negative neighbour, and the second no positive one
    [
        "1 neighbor_allgather int32 1 as alpha 1",
        "1 neighbor_allgather int32 1 as alpha 2",
        "- [2]",
        "[1] -",
    ],
    [
        "1 neighbor_allgatherv int32 as alpha 1 2",
        "1 neighbor_allgatherv int32 as alpha 3",
        "- [3]",
        "[1 2] -",
    ],
    [
        "1 neighbor_alltoall int32 1 as alpha 1 2",
        "1 neighbor_alltoall int32 1 as alpha 3 4",
        "- [3]",
        "[2] -",
    ],
    [
        "1 neighbor_alltoallv int32 1,2 as alpha 1 2 3",
        "1 neighbor_alltoallv int32 1,0 as alpha 4",
        "- [4]",
        "[2 3] -",
    ],
    // in a ring each is both neighbours of the other: what goes down arrives from above
    [
        "2 neighbor_alltoall int32 1 as alpha 1 2",
        "2 neighbor_alltoall int32 1 as alpha 3 4",
        "[4] [3]",
        "[2] [1]",
    ],
];

const GRIDS_KEPT: &str = "book 1
post 0 0 cart_create 2 0 gives 0 as none passed
post 1 0 cart_create 2 0 gives 0 as none passed
verdict 0 0 made 1 1
post 0 0 cart_create 2 1 gives 0 as none passed
post 1 0 cart_create 2 1 gives 0 as none passed
verdict 0 1 made 2 1
";

// The book's line of a post: how many elements were given, in place of them.
fn put_posted(book: &mut String, process: u32, call: &str) -> Result<(), AllocError> {
    let Some((statement, numbers)) = call.split_once(" as alpha") else {
        return write!(book, "post {process} {call} gives 0 as none passed\n");
    };
    let mut given = numbers.split(' ').count().saturating_sub(1);
    if call.contains("2int") {
        given /= 2;
    }
    write!(
        book,
        "post {process} {statement} gives {given} as alpha passed\n"
    )
}

// One instance of a kind, behind the constructors of the grids.
fn texts_of(alloc: Global, row: &[&str; 4]) -> Result<Texts, AllocError> {
    let [first, second, got, other] = row;
    let script = format!(in alloc; "{GRIDS}post 0 {first}\npost 1 {second}\ntake 0 2\ntake 1 2\n")?;
    let said = format!(in alloc;
        "{GRIDS_POSTED}posted 2\nposted 2\ndelivered {got}\ndelivered {other}\n"
    )?;
    let mut book = String::from_str(alloc, GRIDS_KEPT)?;
    put_posted(&mut book, 0, first)?;
    put_posted(&mut book, 1, second)?;
    let instance = match first.split_once(' ') {
        Some(("0", _)) => "0 2",
        Some(("1", _)) => "1 0",
        _ => "2 0",
    };
    write!(book, "verdict {instance} granted\nend 9\n")?;
    Ok(Texts { script, said, book })
}

#[test]
fn each_kind_goes_through_a_hall(rt: HostRuntime) -> Result<(), Fail> {
    for row in KINDS {
        let texts = texts_of(rt.alloc(), row)?;
        let (script, book) = (texts.script.as_bytes(), texts.book.as_str());
        assert!(&rt; ends_so(&rt, PAIR, script, &texts.said, "", 0), "{book}");
        assert!(&rt; is_kept(&rt, PAIR, &texts), "{book}");
        assert!(&rt; audits_so(&rt, PAIR, book, "sound 9\n", "", 0), "{book}");
    }
    Ok(())
}

// Constructors that four processes post to the world, with what each of them gets, and the outcome.
const CONSTRUCTORS: &[[&str; 6]] = &[
    // the last rank has no place in the grid
    [
        "cart_create 3 0",
        "comm 1 rank 0 size 3",
        "comm 1 rank 1 size 3",
        "comm 1 rank 2 size 3",
        "null",
        "made 1 1",
    ],
    // a grid of no dimensions has one place
    [
        "cart_create - -",
        "comm 1 rank 0 size 1",
        "null",
        "null",
        "null",
        "made 1 1",
    ],
    [
        "create 3,1",
        "null",
        "comm 1 rank 1 size 2",
        "null",
        "comm 1 rank 0 size 2",
        "made 1 1",
    ],
    ["create -", "null", "null", "null", "null", "made 1 0"],
    [
        "split undefined -5",
        "null",
        "null",
        "null",
        "null",
        "made 1 0",
    ],
    [
        "split 2147483647 -2147483648",
        "comm 1 rank 0 size 4",
        "comm 1 rank 1 size 4",
        "comm 1 rank 2 size 4",
        "comm 1 rank 3 size 4",
        "made 1 1",
    ],
    [
        "dup",
        "comm 1 rank 0 size 4",
        "comm 1 rank 1 size 4",
        "comm 1 rank 2 size 4",
        "comm 1 rank 3 size 4",
        "made 1 1",
    ],
];

// The four post it, and then take it.
fn texts_of_four(alloc: Global, row: &[&str; 6]) -> Result<Texts, AllocError> {
    let [call, .., outcome] = row;
    let mut script = String::new(alloc);
    let mut said = String::new(alloc);
    let mut book = String::from_str(alloc, "book 1\n")?;
    for process in 0..4u32 {
        write!(script, "post {process} 0 {call}\n")?;
        said.push_str("posted 0\n")?;
        write!(book, "post {process} 0 {call} gives 0 as none passed\n")?;
    }
    for process in 0..4u32 {
        write!(script, "take {process} 0\n")?;
    }
    for got in &row[1..5] {
        write!(said, "{got}\n")?;
    }
    write!(book, "verdict 0 0 {outcome}\nend 5\n")?;
    Ok(Texts { script, said, book })
}

#[test]
fn each_constructor_goes_through_a_hall(rt: HostRuntime) -> Result<(), Fail> {
    let policy = crowd(rt.alloc(), 4)?;
    for row in CONSTRUCTORS {
        let texts = texts_of_four(rt.alloc(), row)?;
        let book = texts.book.as_str();
        assert!(&rt; is_kept(&rt, &policy, &texts), "{book}");
        assert!(&rt; audits_so(&rt, &policy, book, "sound 5\n", "", 0), "{book}");
    }
    Ok(())
}
