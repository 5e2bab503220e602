//! As many processes, datasets, elements, members and communicators as there can be, and a replay
//! that goes on.

use crate::endings::{audits_so, ends_so};
use crate::runs::{ALONE, runs_so};
use crate::texts::{Texts, begun, is_kept};
use std::alloc::{AllocError, Global};
use std::test::Fail;

/// A policy of so many processes without a home.
pub(crate) fn crowd(alloc: Global, processes: u32) -> Result<String, Fail> {
    let mut text = String::from_str(alloc, "version = 1\n")?;
    for process in 0..processes {
        write!(text, "[[process]]\nname = \"p{process}\"\n")?;
    }
    Ok(text)
}

/// Each of so many processes starts a barrier and takes it; and what is written of that.
fn barriers(alloc: Global, processes: u32) -> Result<(String, String), Fail> {
    let mut script = String::new(alloc);
    let mut said = String::new(alloc);
    for process in 0..processes {
        write!(script, "post {process} 0 barrier\ntake {process} 0\n")?;
        write!(
            said,
            "rank {process} p{process}\nposted 0\ndelivered none\n"
        )?;
    }
    Ok((script, said))
}

/// Each process has a thread of its own, and each take waits for the posts of all.
#[test]
fn as_many_processes_run_as_there_can_be(rt: HostRuntime) -> Result<(), Fail> {
    for processes in [64, 256] {
        let policy = crowd(rt.alloc(), processes)?;
        let (script, said) = barriers(rt.alloc(), processes)?;
        let (policy, script, said) = (policy.as_str(), script.as_str(), said.as_str());
        assert!(&rt; runs_so(&rt, policy, script, said, "", 0), "{processes}");
    }
    let more = crowd(rt.alloc(), 257)?;
    let many = "policy: TooMany\n";
    assert!(&rt; runs_so(&rt, more.as_str(), "", "", many, 1));
    Ok(())
}

/// So many classes of two datasets each, and two processes that are at home in the last two.
pub(crate) fn pairs(alloc: Global, classes: u32, homes: [u32; 2]) -> Result<String, Fail> {
    let mut text = String::from_str(alloc, "version = 1\n")?;
    for class in 0..classes {
        let low = 2 * u64::from(class);
        let high = low + 1;
        write!(
            text,
            "[[class]]\nname = \"k{class}\"\ndatasets = [\"d{low}\", \"d{high}\"]\n"
        )?;
    }
    for home in homes {
        write!(
            text,
            "[[process]]\nname = \"of{home}\"\nhome = \"d{home}\"\n"
        )?;
    }
    Ok(text)
}

#[test]
fn the_last_two_datasets_are_rivals(rt: HostRuntime) -> Result<(), Fail> {
    for (classes, low, high) in [(64, 126, 127), (512, 1022, 1023)] {
        let policy = pairs(rt.alloc(), classes, [low, high])?;
        let script = format!(in rt.alloc();
            "post 0 0 bcast 0 int32 1 as d{low} 1\npost 1 0 bcast 0 int32 1\ntake 0 0\ntake 1 0\n"
        )?;
        let denied = format!(in rt.alloc(); "denied simple of{high} d{low}\n")?;
        let (script, denied) = (script.as_bytes(), denied.as_str());
        let said = format!(in rt.alloc(); "posted 0\nposted 0\n{denied}{denied}")?;
        assert!(&rt; ends_so(&rt, policy.as_str(), script, said.as_str(), "", 0));
    }
    Ok(())
}

// So many copies of a word, each behind a space.
fn repeated(alloc: Global, word: &str, count: u32) -> Result<String, Fail> {
    let mut text = String::new(alloc);
    for _ in 0..count {
        text.push_str(" ")?;
        text.push_str(word)?;
    }
    Ok(text)
}

// Kinds to which one member gives 65,536 elements, and an element. With the longest of them a line
// has 1.4 MB.
const WIDE: &[(&str, &str)] = &[
    ("allgather int8 65536", "1"),
    ("gatherv 0 int64", "-9223372036854775808"),
    ("allgatherv 2int", "1 0"),
];

// A post of 65,536 elements, and of one more.
#[test]
fn as_many_elements_are_given_as_there_can_be(rt: HostRuntime) -> Result<(), Fail> {
    for (kind, one) in WIDE {
        let rest = repeated(rt.alloc(), one, 65535)?;
        let script = format!(in rt.alloc();
            "post 0 0 {kind} as alpha {one}{rest}\n\
            take 0 0\n\
            post 0 0 {kind} as alpha {one} {one}{rest}\n"
        )?;
        let said = format!(in rt.alloc(); "posted 0\ndelivered [{one}{rest}]\nrefused BadCount\n")?;
        assert!(&rt;
            ends_so(&rt, ALONE, script.as_bytes(), &said, "", 0),
            "{kind}"
        );
        let ran = format!(in rt.alloc(); "rank 0 p0\n{said}")?;
        assert!(&rt; runs_so(&rt, ALONE, &script, &ran, "", 0), "{kind}");
    }
    Ok(())
}

// How many processes there are where groups are as large as they can be.
const ALL: u32 = 256;

// All post this to the communicator; and how the instance is settled.
fn put_all(
    texts: &mut Texts,
    comm: u32,
    call: &str,
    request: u32,
    settled: &str,
) -> Result<(), AllocError> {
    let Texts { script, said, book } = texts;
    for p in 0..ALL {
        write!(script, "post {p} {comm} {call}\n")?;
        write!(said, "posted {request}\n")?;
        write!(book, "post {p} {comm} {call} gives 0 as none passed\n")?;
    }
    write!(book, "verdict {settled}\n")
}

// All take the grid, and then tell their neighbours there who they are.
fn put_neighbours(texts: &mut Texts) -> Result<(), AllocError> {
    let Texts { script, said, book } = texts;
    for p in 0..ALL {
        let call = "neighbor_allgather int32 1";
        write!(script, "take {p} 0\npost {p} 1 {call} as public {p}\n")?;
        write!(said, "comm 1 rank {p} size 256\nposted 1\n")?;
        write!(book, "post {p} 1 {call} gives 1 as public passed\n")?;
    }
    book.push_str("verdict 1 0 granted\n")
}

// All split the world by parity, members from the last to the first.
fn put_parities(texts: &mut Texts) -> Result<(), AllocError> {
    let Texts { script, said, book } = texts;
    for p in 0..ALL {
        let (colour, sign) = (p % 2, if p == 0 { "" } else { "-" });
        let call = "split";
        write!(script, "post {p} 0 {call} {colour} {sign}{p}\n")?;
        said.push_str("posted 2\n")?;
        write!(
            book,
            "post {p} 0 {call} {colour} {sign}{p} gives 0 as none passed\n"
        )?;
    }
    book.push_str("verdict 0 1 made 2 2\n")
}

// The constructor of a group of all, the last first.
fn create_of_all(alloc: Global) -> Result<String, AllocError> {
    let mut call = String::from_str(alloc, "create 255")?;
    for p in 1..ALL {
        let back = 255u32.saturating_sub(p);
        write!(call, ",{back}")?;
    }
    Ok(call)
}

// What a process takes of all that was posted, and what it is told of the duplicate.
fn put_takes(said: &mut String, p: u32) -> Result<(), AllocError> {
    said.push_str("delivered")?;
    for d in 0..8u32 {
        let neighbour = p ^ (128 >> d);
        write!(said, " [{neighbour}] [{neighbour}]")?;
    }
    let back = 255u32.saturating_sub(p);
    let (parity, rank) = (2 + p % 2, back / 2);
    write!(said, "\ncomm {parity} rank {rank} size 128\n")?;
    write!(said, "comm 4 rank {back} size 256\n")?;
    write!(said, "comm 5 rank {p} size 256\n")?;
    let (half, place) = (6 + p / 128, p % 128);
    write!(said, "comm {half} rank {place} size 128\n")?;
    write!(said, "info size 256 rank {p} dims 8\n")
}

// A grid of eight dimensions with two places each, of the world; the ranks of all neighbours there;
// the world split by parity, and turned round; a duplicate of the grid, and its halves.
fn put_largest(alloc: Global, texts: &mut Texts) -> Result<(), AllocError> {
    let grid = "cart_create 2,2,2,2,2,2,2,2 1,1,1,1,1,1,1,1";
    put_all(texts, 0, grid, 0, "0 0 made 1 1")?;
    put_neighbours(texts)?;
    put_parities(texts)?;
    let create = create_of_all(alloc)?;
    put_all(texts, 0, &create, 3, "0 2 made 4 1")?;
    put_all(texts, 1, "dup", 4, "1 1 made 5 1")?;
    put_all(texts, 1, "cart_sub 0,1,1,1,1,1,1,1", 5, "1 2 made 6 2")?;
    let Texts { script, said, book } = texts;
    for p in 0..ALL {
        for request in 1..6u32 {
            write!(script, "take {p} {request}\n")?;
        }
        write!(script, "info {p} 5\n")?;
        put_takes(said, p)?;
    }
    book.push_str("end 1542\n")
}

// The same replies in a run.
fn ranks_of_largest(alloc: Global) -> Result<String, AllocError> {
    let mut said = String::new(alloc);
    for p in 0..ALL {
        write!(said, "rank {p} p{p}\nposted 0\ncomm 1 rank {p} size 256\n")?;
        for request in 1..6u32 {
            write!(said, "posted {request}\n")?;
        }
        put_takes(&mut said, p)?;
    }
    Ok(said)
}

#[test]
fn groups_are_as_large_as_they_can_be(rt: HostRuntime) -> Result<(), Fail> {
    let policy = crowd(rt.alloc(), ALL)?;
    let mut texts = begun(rt.alloc())?;
    put_largest(rt.alloc(), &mut texts)?;
    assert!(&rt; is_kept(&rt, &policy, &texts));
    assert!(&rt; audits_so(&rt, &policy, &texts.book, "sound 1542\n", "", 0));
    let ranks = ranks_of_largest(rt.alloc())?;
    assert!(&rt; runs_so(&rt, &policy, &texts.script, &ranks, "", 0));
    Ok(())
}

// Constructors where all communicators are made, the first of which is a grid: the communicator,
// the kind with its fields, what it comes to, and the instance with its outcome as the book has
// them.
const LATE: &[(&str, &str, &str, &str)] = &[
    ("0", "split 0 0", "noroom", "1023 noroom"),
    ("0", "create 0", "noroom", "1024 noroom"),
    ("0", "cart_create 1 0", "noroom", "1025 noroom"),
    ("1", "cart_sub 1", "noroom", "0 noroom"),
    ("0", "split undefined 0", "null", "1026 made 1024 0"),
    ("0", "create -", "null", "1027 made 1024 0"),
    ("0", "dup", "noroom", "1028 noroom"),
];

// One constructor more: posted, and then taken.
fn put_made(
    texts: &mut Texts,
    request: u32,
    comm: &str,
    call: &str,
    reply: &str,
    outcome: &str,
) -> Result<(), AllocError> {
    let Texts { script, said, book } = texts;
    write!(script, "post 0 {comm} {call}\ntake 0 {request}\n")?;
    write!(said, "posted {request}\n{reply}\n")?;
    write!(
        book,
        "post 0 {comm} {call} gives 0 as none passed\nverdict {comm} {outcome}\n"
    )
}

// A process makes communicators until there are 1,024 with the world.
fn put_communicators(alloc: Global, texts: &mut Texts) -> Result<(), AllocError> {
    let mut call = "cart_create 1 0";
    for request in 0..1023u32 {
        let comm = request + 1;
        let reply = format!(in alloc; "comm {comm} rank 0 size 1")?;
        let outcome = format!(in alloc; "{request} made {comm} 1")?;
        put_made(texts, request, "0", call, &reply, &outcome)?;
        call = "dup";
    }
    Ok(())
}

// It asks for more then.
fn put_late(texts: &mut Texts) -> Result<(), AllocError> {
    let mut request = 1023u32;
    for (comm, call, reply, outcome) in LATE {
        put_made(texts, request, comm, call, reply, outcome)?;
        request = request.saturating_add(1);
    }
    Ok(())
}

#[test]
fn communicators_have_a_limit(rt: HostRuntime) -> Result<(), Fail> {
    let mut texts = begun(rt.alloc())?;
    put_communicators(rt.alloc(), &mut texts)?;
    put_late(&mut texts)?;
    texts.book.push_str("end 2060\n")?;
    assert!(&rt; is_kept(&rt, ALONE, &texts));
    assert!(&rt; audits_so(&rt, ALONE, &texts.book, "sound 2060\n", "", 0));
    Ok(())
}

// So many barriers of one process, each taken before the next is posted.
fn put_barriers(texts: &mut Texts, barriers: u64) -> Result<(), AllocError> {
    let Texts { script, said, book } = texts;
    for k in 0..barriers {
        write!(script, "post 0 0 barrier\ntake 0 {k}\n")?;
        write!(said, "posted {k}\ndelivered none\n")?;
        write!(
            book,
            "post 0 0 barrier gives 0 as none passed\nverdict 0 {k} granted\n"
        )?;
    }
    Ok(())
}

// Behind a thousand instances a text that stops there is cut; and a line that is no entry, or a
// verdict that comes twice, is told by its number.
#[test]
fn late_entries_are_judged(rt: HostRuntime) -> Result<(), Fail> {
    let mut texts = begun(rt.alloc())?;
    put_barriers(&mut texts, 1000)?;
    let good = texts.book.as_str();
    assert!(&rt; audits_so(&rt, ALONE, good, "", "book: cut\n", 2));
    let spoilt = format!(in rt.alloc(); "{good}pst\nend 2001\n")?;
    let line = "book: line 2002\n";
    assert!(&rt; audits_so(&rt, ALONE, &spoilt, "", line, 2));
    texts.book.push_str("verdict 0 999 granted\nend 2001\n")?;
    let unsound = "unsound at entry 2001\n";
    assert!(&rt; audits_so(&rt, ALONE, &texts.book, unsound, "", 2));
    Ok(())
}

// A line of a million elements is read whole, and refused for their number alone.
#[test]
fn lines_of_a_million_elements_are_read(rt: HostRuntime) -> Result<(), Fail> {
    let numbers = repeated(rt.alloc(), "1", 1000000)?;
    let script = format!(in rt.alloc(); "post 0 0 allgather int8 1 as alpha{numbers}\n")?;
    let said = "refused BadCount\n";
    assert!(&rt; ends_so(&rt, ALONE, script.as_bytes(), said, "", 0));
    let ran = "rank 0 p0\nrefused BadCount\n";
    assert!(&rt; runs_so(&rt, ALONE, &script, ran, "", 0));
    Ok(())
}

// Lists of more numbers than there can be members, which are refused for what they ask. The longest
// are half as long as a script may be: each number is met once.
const LONGER: &[(&str, u32, &str)] = &[
    ("create 0", 257, "refused NotSubgroup\n"),
    ("scatterv 0 int32 0", 1000, "refused BadCount\n"),
    ("cart_sub 1", 1000, "refused NoTopology\n"),
    ("scatterv 0 int32 0", 4000000, "refused BadCount\n"),
    ("cart_sub 1", 4000000, "refused NoTopology\n"),
];

#[test]
fn lists_of_millions_of_numbers_are_read(rt: HostRuntime) -> Result<(), Fail> {
    for (prefix, numbers, said) in LONGER {
        let mut script = format!(in rt.alloc(); "post 0 0 {prefix}")?;
        for _ in 1..*numbers {
            script.push_str(",1")?;
        }
        assert!(&rt;
            ends_so(&rt, ALONE, script.as_bytes(), said, "", 0),
            "{prefix}"
        );
    }
    Ok(())
}

// Names of as many bytes as there can be are told, kept in the book, and audited.
const LONG_NAMES: &str = "version = 1
[[class]]
name = \"banks_of_the_northern_provinces_\"
datasets = [\"alpha_of_the_northern_provinces_\", \"beta_of_the_northern_provinces__\"]
[[process]]
name = \"clerk_of_the_northern_provinces_\"
home = \"alpha_of_the_northern_provinces_\"
[[process]]
name = \"guest_of_the_northern_provinces_\"
home = \"beta_of_the_northern_provinces__\"
";

#[test]
fn long_names_are_told(rt: HostRuntime) -> Result<(), Fail> {
    let alpha = "alpha_of_the_northern_provinces_";
    let beta = "beta_of_the_northern_provinces__";
    let guest = "guest_of_the_northern_provinces_";
    let script = format!(in rt.alloc();
        "post 0 0 bcast 0 int32 1 as {alpha} 1\n\
        post 1 0 bcast 0 int32 1\n\
        take 1 0\n\
        post 0 0 bcast 0 int32 1 as {beta} 1\n"
    )?;
    let said = format!(in rt.alloc();
        "posted 0\nposted 0\ndenied simple {guest} {alpha}\nbarred 1 {beta}\n"
    )?;
    let book = format!(in rt.alloc();
        "book 1\n\
        post 0 0 bcast 0 int32 1 gives 1 as {alpha} passed\n\
        post 1 0 bcast 0 int32 1 gives 0 as none passed\n\
        verdict 0 0 denied simple {guest} {alpha}\n\
        post 0 0 bcast 0 int32 1 gives 1 as {beta} barred\n\
        end 4\n"
    )?;
    let texts = Texts { script, said, book };
    assert!(&rt; is_kept(&rt, LONG_NAMES, &texts));
    assert!(&rt; audits_so(&rt, LONG_NAMES, &texts.book, "sound 4\n", "", 0));
    Ok(())
}

// The instances of a communicator and the entries of a book have no limit but memory: here are more
// than 16 bits can number. One is open at a time.
#[test]
fn a_replay_goes_on(rt: HostRuntime) -> Result<(), Fail> {
    let mut texts = begun(rt.alloc())?;
    put_barriers(&mut texts, 70000)?;
    texts.book.push_str("end 140000\n")?;
    assert!(&rt; is_kept(&rt, ALONE, &texts));
    assert!(&rt; audits_so(&rt, ALONE, &texts.book, "sound 140000\n", "", 0));
    Ok(())
}

// The lines of a script have no limit but its bytes: here are more than 20 bits can number, each
// with its reply. One line more is no call, which is told by its number; in a run none is made.
#[test]
fn many_lines_are_replayed(rt: HostRuntime) -> Result<(), Fail> {
    let mut script = String::new(rt.alloc());
    let mut said = String::new(rt.alloc());
    for _ in 0..1100000u32 {
        script.push_str("take 0 0\n")?;
        said.push_str("refused NoSuchRequest\n")?;
    }
    assert!(&rt; ends_so(&rt, ALONE, script.as_bytes(), &said, "", 0));
    script.push_str("pst")?;
    let line = "script: line 1100001: BadVerb\n";
    assert!(&rt; ends_so(&rt, ALONE, script.as_bytes(), &said, line, 2));
    assert!(&rt; runs_so(&rt, ALONE, &script, "", line, 2));
    Ok(())
}
