//! Sound books, with the policies that they are of.
use std::alloc::{AllocError, Global};
use trial_kit::policies::BANKS_AND_OIL;

/// Four processes at home at one bank.
pub(crate) const FOUR_OF_A_BANK: &str = r#"version = 2
[[class]]
name = "banks"
datasets = ["alpha", "beta"]
[[process]]
name = "p0"
home = "alpha"
[[process]]
name = "p1"
home = "alpha"
[[process]]
name = "p2"
home = "alpha"
[[process]]
name = "p3"
home = "alpha"
"#;

/// A sound book: its policy, its first line, and the lines of its entries.
#[derive(Clone, Copy)]
pub(crate) struct Stored {
    pub policy: &'static str,
    pub header: &'static str,
    pub entries: &'static [&'static str],
}

/// A broadcast of a bank's data is denied to all, since one process is at home at its rival.
pub(crate) const DENIED: Stored = Stored {
    policy: BANKS_AND_OIL,
    header: "book 1",
    entries: &[
        "post 0 0 bcast 0 int32 2 gives 2 as alpha passed",
        "post 1 0 bcast 0 int32 2 gives 0 as none passed",
        "post 2 0 bcast 0 int32 2 gives 0 as none passed",
        "post 3 0 bcast 0 int32 2 gives 0 as none passed",
        "verdict 0 0 denied simple b0 alpha",
    ],
};

/// A sum of four is sanitised, and who got it writes as `public`: that broadcast waits for others.
pub(crate) const SUMMED: Stored = Stored {
    policy: BANKS_AND_OIL,
    header: "book 1",
    entries: &[
        "post 0 0 allreduce sum int32 1 gives 1 as alpha passed",
        "post 1 0 allreduce sum int32 1 gives 1 as beta passed",
        "post 2 0 allreduce sum int32 1 gives 1 as crude passed",
        "post 3 0 allreduce sum int32 1 gives 1 as public passed",
        "verdict 0 0 granted",
        "post 3 0 bcast 3 int32 1 gives 1 as public passed",
    ],
};

/// A grid of two by two is cut into its rows, and one of them meets.
pub(crate) const ROWS: Stored = Stored {
    policy: FOUR_OF_A_BANK,
    header: "book 2",
    entries: &[
        "post 0 0 cart_create 2,2 1,0 gives 0 as none passed",
        "post 1 0 cart_create 2,2 1,0 gives 0 as none passed",
        "post 2 0 cart_create 2,2 1,0 gives 0 as none passed",
        "post 3 0 cart_create 2,2 1,0 gives 0 as none passed",
        "verdict 0 0 made 1 1",
        "post 0 1 cart_sub 0,1 gives 0 as none passed",
        "post 1 1 cart_sub 0,1 gives 0 as none passed",
        "post 2 1 cart_sub 0,1 gives 0 as none passed",
        "post 3 1 cart_sub 0,1 gives 0 as none passed",
        "verdict 1 0 made 2 2",
        "post 3 3 barrier gives 0 as none passed",
        "post 2 3 barrier gives 0 as none passed",
        "verdict 3 0 granted",
    ],
};

/// Who is at home at a bank may not write as `public`: the post is barred, the gather denied.
pub(crate) const BARRED: Stored = Stored {
    policy: BANKS_AND_OIL,
    header: "book 1",
    entries: &[
        "post 0 0 gatherv 3 int32 gives 1 as public barred",
        "post 1 0 gatherv 3 int32 gives 0 as none passed",
        "post 2 0 gatherv 3 int32 gives 0 as none passed",
        "post 3 0 gatherv 3 int32 gives 0 as none passed",
        "verdict 0 0 denied star a0 public",
    ],
};

/// The text of the book.
pub(crate) fn text_of(alloc: Global, book: &Stored) -> Result<String, AllocError> {
    let mut text = String::new(alloc);
    write!(text, "{}\n", book.header)?;
    for entry in book.entries {
        write!(text, "{entry}\n")?;
    }
    write!(text, "end {}\n", book.entries.len())?;
    Ok(text)
}

/// The seal of so many bytes of the book's text, by the rule: every line that is finished, the
/// verdict whose post is finished, and the end. In a sound book a verdict stands directly behind
/// the post that it is of.
pub(crate) fn seal_of(alloc: Global, book: &Stored, bytes: usize) -> Result<String, AllocError> {
    let mut text = String::new(alloc);
    write!(text, "{}\n", book.header)?;
    let mut end = book.header.len().saturating_add(1);
    let mut number: u64 = 0;
    let mut is_post_there = false;
    for entry in book.entries {
        end = end.saturating_add(entry.len()).saturating_add(1);
        let is_finished = end <= bytes;
        if is_finished || (is_post_there && entry.starts_with("verdict")) {
            write!(text, "{entry}\n")?;
            number = number.saturating_add(1);
        }
        is_post_there = is_finished;
    }
    write!(text, "end {number}\n")?;
    Ok(text)
}
