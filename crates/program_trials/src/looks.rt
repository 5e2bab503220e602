//! Reports on books, and texts: all that is told, each status with its line, and devices that fail.
use crate::chains::{ALPHA_TO_N0, BETA_TO_N0, WALL, books};
use crate::endings::{sink, source};
use audit_book::read_book;
use program_commands::{Devices, Earlier, ReportFiles, report_on, text_on};
use report_page::report_page;
use std::process::Abort;
use std::test::Fail;
use wall_labels::memory::{ExpectingSink, Fuse, MemorySource};
use wall_policy::{Policy, read_policy};

pub(crate) const MEANING: &str = "banks: alpha, beta
a0 is at home at alpha
b0 is at home at beta
n0 has no home
m0 has no home
warning: no result is ever sanitised: there is no sanitise rule
a0 and b0 never hold each other's data
";

const REPORT: &str = "who holds what, and by which entry:
0: a0 holds alpha: its home
0: b0 holds beta: its home
7: n0 holds alpha: bcast 1 0 from a0

who is in which communicator:
communicator 0, rank 0: a0
communicator 0, rank 1: b0
communicator 0, rank 2: n0
communicator 0, rank 3: m0
communicator 1, rank 0: a0
communicator 1, rank 1: n0
communicator 2, rank 0: b0
communicator 2, rank 1: m0

how each instance came out:
instance 0 0, split by entry 4: made 1 2
instance 1 0, bcast by entry 7: granted

whose results were sanitised:

why posts were barred:

why instances were denied:
";

// The same after a book that gave n0 data of alpha.
const LATER_REPORT: &str = "who holds what, and by which entry:
0: a0 holds alpha: its home
0: b0 holds beta: its home
0: n0 holds alpha: held before

who is in which communicator:
communicator 0, rank 0: a0
communicator 0, rank 1: b0
communicator 0, rank 2: n0
communicator 0, rank 3: m0
communicator 1, rank 0: a0
communicator 1, rank 1: n0
communicator 2, rank 0: b0
communicator 2, rank 1: m0

how each instance came out:
instance 0 0, split by entry 4: made 1 2
instance 1 0, bcast by entry 7: granted

whose results were sanitised:

why posts were barred:

why instances were denied:
";

pub(crate) fn whole<'a>(text: &'a str) -> MemorySource<'a> {
    source(text.as_bytes(), Fuse::Whole)
}

// Whether a report after earlier books writes this, and the line, with this status.
fn reports_so(
    rt: &impl AllocGlobal,
    earlier: &[(&str, &str)],
    book: &str,
    said: &str,
    line: &str,
    status: u8,
) -> Result<bool, Fail> {
    let mut policy = whole(WALL);
    let mut book = whole(book);
    let mut out = sink(said.as_bytes(), Fuse::Whole);
    let mut err = sink(line.as_bytes(), Fuse::Whole);
    let earlier = books(rt.alloc(), earlier)?;
    let devices = Devices {
        policy: &mut policy,
        subject: &mut book,
        out: &mut out,
        err: &mut err,
    };
    let files = ReportFiles {
        policy_path: "policy.toml",
        earlier,
        book_path: "calls.book",
    };
    let ended = report_on::<_, _, _, _, _, ExpectingSink>(rt.alloc(), devices, files, None);
    let is_all = out.rest.is_empty() && err.rest.is_empty();
    Ok(ended == status && is_all && out.is_same && err.is_same)
}

#[test]
fn reports_tell_of_sound_books(rt: HostRuntime) -> Result<(), Fail> {
    assert!(&rt; reports_so(&rt, &[], ALPHA_TO_N0, REPORT, "", 0)?);
    let earlier = &[("monday.book", ALPHA_TO_N0)];
    assert!(&rt; reports_so(&rt, earlier, ALPHA_TO_N0, LATER_REPORT, "", 0)?);
    let told = "unsound at entry 8\n";
    assert!(&rt; reports_so(&rt, earlier, BETA_TO_N0, told, "", 2)?);
    let line = "after tuesday.book: unsound at entry 8\n";
    let earlier = &[("monday.book", ALPHA_TO_N0), ("tuesday.book", BETA_TO_N0)];
    assert!(&rt; reports_so(&rt, earlier, ALPHA_TO_N0, "", line, 2)?);
    assert!(&rt; reports_so(&rt, &[], "book 1\n", "", "book: cut\n", 2)?);
    Ok(())
}

// The fuses of a report's devices: policy, an earlier book, book, output and page.
type Fuses = [Fuse; 5];

const SOUND: Fuses = [Fuse::Whole; 5];

// Whether a report with a page over devices with these fuses writes this, and this page, as far as
// the writers take them, and the line, with this status.
fn pages_so(
    rt: &impl AllocGlobal,
    fuses: Fuses,
    book: &str,
    said: &[u8],
    page: &[u8],
    line: &[u8],
    status: u8,
) -> Result<bool, Fail> {
    let [of_policy, of_earlier, of_book, of_out, of_page] = fuses;
    let mut policy = source(WALL.as_bytes(), of_policy);
    let mut book = source(book.as_bytes(), of_book);
    let mut out = sink(said, of_out);
    let mut file = sink(page, of_page);
    let mut err = sink(line, Fuse::Whole);
    let mut earlier = Vec::new(rt.alloc());
    earlier.push(Earlier {
        path: "monday.book",
        device: source(b"book 1\nend 0\n", of_earlier),
    })?;
    let devices = Devices {
        policy: &mut policy,
        subject: &mut book,
        out: &mut out,
        err: &mut err,
    };
    let files = ReportFiles {
        policy_path: "policy.toml",
        earlier,
        book_path: "calls.book",
    };
    let ended = report_on(rt.alloc(), devices, files, Some(&mut file));
    let is_out = out.is_same && (out.rest.is_empty() || of_out != Fuse::Whole);
    let is_page = file.is_same && (file.rest.is_empty() || of_page != Fuse::Whole);
    let is_all = is_out && is_page && err.is_same && err.rest.is_empty();
    Ok(ended == status && is_all)
}

// The page of a book of the policy.
fn page_of(rt: &(impl AllocGlobal + Abort), book: &str) -> Vec<u8> {
    let wall = match read_policy(rt.alloc(), WALL.as_bytes()) {
        Ok(wall) => wall,
        Err(_) => panic!(rt; "no policy"),
    };
    let page = page_under(rt, &wall, book);
    drop(wall);
    page
}

fn page_under(rt: &(impl AllocGlobal + Abort), wall: &Policy, book: &str) -> Vec<u8> {
    let page = match read_book(rt.alloc(), wall, book.as_bytes()) {
        Ok(book) => {
            let page = report_page(rt.alloc(), wall, &book);
            drop(book);
            page
        }
        Err(_) => panic!(rt; "no book"),
    };
    match page {
        Ok(page) => page,
        Err(_) => panic!(rt; "no page"),
    }
}

const NO_OUTPUT: Fuses = [
    Fuse::Whole,
    Fuse::Whole,
    Fuse::Whole,
    Fuse::After(0),
    Fuse::Whole,
];

const NO_PAGE: Fuses = [
    Fuse::Whole,
    Fuse::Whole,
    Fuse::Whole,
    Fuse::Whole,
    Fuse::After(0),
];

// A page is written behind the report of its book, and only there.
#[test]
fn pages_are_written_behind_reports(rt: HostRuntime) -> Result<(), Fail> {
    let page = page_of(&rt, ALPHA_TO_N0);
    let page = page.as_slice();
    let said = REPORT.as_bytes();
    let none = b"".as_slice();
    assert!(&rt; pages_so(&rt, SOUND, ALPHA_TO_N0, said, page, none, 0)?);
    let unsound = ALPHA_TO_N0.replace(rt.alloc(), "made 1 2", "made 1 1")?;
    let told = b"unsound at entry 5\n".as_slice();
    assert!(&rt; pages_so(&rt, SOUND, unsound.as_str(), told, none, none, 2)?);
    let cut = b"book: cut\n".as_slice();
    assert!(&rt; pages_so(&rt, SOUND, "book 1\n", none, none, cut, 2)?);
    let fault = b"write fault\n".as_slice();
    assert!(&rt; pages_so(&rt, NO_OUTPUT, ALPHA_TO_N0, said, none, fault, 3)?);
    assert!(&rt; pages_so(&rt, NO_PAGE, ALPHA_TO_N0, said, page, fault, 3)?);
    Ok(())
}

// The place of a fuse, and the line where it goes off.
const UNREAD: &[(usize, &str)] = &[
    (0, "cannot read policy.toml: the read failed\n"),
    (1, "cannot read monday.book: the read failed\n"),
    (2, "cannot read calls.book: the read failed\n"),
];

fn unread_at(place: usize, fuse: Fuse) -> Fuses {
    let whole = Fuse::Whole;
    match place {
        0 => [fuse, whole, whole, whole, whole],
        1 => [whole, fuse, whole, whole, whole],
        _ => [whole, whole, fuse, whole, whole],
    }
}

// The file that was not read is told by its path.
#[test]
fn unread_files_are_told_by_their_paths(rt: HostRuntime) -> Result<(), Fail> {
    let none = b"".as_slice();
    for (place, line) in UNREAD {
        for reads in 0..2u64 {
            let fuses = unread_at(*place, Fuse::After(reads));
            assert!(&rt;
                pages_so(&rt, fuses, ALPHA_TO_N0, none, none, line.as_bytes(), 3)?,
                "{line}"
            );
        }
    }
    Ok(())
}

// When the writer fails, the status, and the line.
const WRITTEN: &[(Fuse, u8, &str)] = &[(Fuse::Whole, 0, ""), (Fuse::After(0), 3, "write fault\n")];

#[test]
fn texts_are_written_whole(rt: HostRuntime) {
    for (fuse, status, line) in WRITTEN {
        let mut out = sink(MEANING.as_bytes(), *fuse);
        let mut err = sink(line.as_bytes(), Fuse::Whole);
        let ended = text_on(MEANING.as_bytes(), &mut out, &mut err);
        assert!(&rt; ended == *status && out.is_same);
        assert!(&rt; err.rest.is_empty() && err.is_same);
    }
}
