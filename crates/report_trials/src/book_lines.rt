//! Where texts are no sound books, and what was due there: rows, worked by hand.

use crate::walls::{DESKS, policy};
use audit_book::{Entry, Outcome, Rule};
use book_places::{Due, Found, Owed, Stands, found_in, line_of, put_found};
use std::alloc::{AllocError, Global};
use std::process::Abort;
use std::test::Fail;
use wall_labels::Label;
use wall_policy::Policy;

// The policy at the head of docs/POLICY.md.
const POLICY: &str = r#"version = 2
[[class]]
name = "banks"
datasets = ["alpha", "beta"]
[[class]]
name = "oil"
datasets = ["crude", "delta"]
[[process]]
name = "a0"
home = "alpha"
[[process]]
name = "b0"
home = "beta"
[[process]]
name = "c0"
home = "crude"
[[process]]
name = "n0"
[[sanitise]]
op = "sum"
least = 3
distinct = 3
"#;

// The broadcast of docs/BOOK.md, without its verdict and its end.
const POSTS: &str = "book 2
post 0 0 bcast 0 int32 2 gives 2 as alpha passed
post 1 0 bcast 0 int32 2 gives 0 as none passed
post 2 0 bcast 0 int32 2 gives 0 as none passed
post 3 0 bcast 0 int32 2 gives 0 as none passed
";

// A verdict in short, with a process and a dataset by number.
fn verdict_text(alloc: Global, comm: u32, k: u64, outcome: &Outcome) -> Result<String, Fail> {
    let text = match outcome {
        Outcome::Denied {
            rule,
            process,
            label,
        } => {
            let rule = if *rule == Rule::Simple {
                "simple"
            } else {
                "star"
            };
            let by = process.number();
            let of = match label {
                Label::Public => 9999,
                Label::Of(dataset) => dataset.number(),
            };
            format!(in alloc; "{comm} {k} denied {rule} {by} {of}")?
        }
        Outcome::Granted => format!(in alloc; "{comm} {k} granted")?,
        Outcome::Made { first, number } => format!(in alloc; "{comm} {k} made {first} {number}")?,
        Outcome::NoRoom => format!(in alloc; "{comm} {k} noroom")?,
    };
    Ok(text)
}

// What was due at an entry, in short.
fn owed_text(alloc: Global, owed: &Owed) -> Result<String, Fail> {
    let text = match owed {
        Owed::Verdict(Entry::Settled { comm, k, outcome }) => {
            verdict_text(alloc, *comm, *k, outcome)?
        }
        Owed::Verdict(Entry::Posted { .. }) => String::from_str(alloc, "a post")?,
        Owed::NoVerdict => String::from_str(alloc, "no verdict")?,
        Owed::OtherPost { refusal } => format!(in alloc; "refused {refusal:?}")?,
        Owed::OtherWord { barred: true } => String::from_str(alloc, "barred")?,
        Owed::OtherWord { barred: false } => String::from_str(alloc, "passed")?,
    };
    Ok(text)
}

// What stands at an entry, in short.
fn standing_text(stands: Stands) -> &'static str {
    match stands {
        Stands::Post => "a post",
        Stands::Verdict => "a verdict",
        Stands::End => "the end",
    }
}

// What is found of the text, in one line.
fn told(alloc: Global, policy: &Policy, text: &[u8]) -> Result<String, Fail> {
    let told = match found_in(alloc, policy, text)? {
        Found::Sound { entries } => format!(in alloc; "sound {entries}")?,
        Found::Cut => String::from_str(alloc, "cut")?,
        Found::Line { number, due } => match due {
            Due::Header => format!(in alloc; "line {number}: header")?,
            Due::Entry => format!(in alloc; "line {number}: entry")?,
            Due::End { stated } => format!(in alloc; "line {number}: end, not {stated}")?,
            Due::Nothing => format!(in alloc; "line {number}: nothing")?,
        },
        Found::Entry {
            number,
            line,
            stands,
            owed,
        } => {
            let stands = standing_text(stands);
            let owed = owed_text(alloc, &owed)?;
            format!(in alloc; "{number} in line {line}: {owed}, not {stands}")?
        }
    };
    Ok(told)
}

fn is_told(
    rt: &(impl Abort + AllocGlobal),
    policy: &Policy,
    text: &str,
    expected: &str,
) -> Result<(), Fail> {
    let told = told(rt.alloc(), policy, text.as_bytes())?;
    assert_eq!(rt; told.as_str(), expected, "of {text}");
    Ok(())
}

// Texts, and what is found of them: but for the last they are no books.
const NO_BOOKS: &[(&str, &str)] = &[
    ("book 2\nend 0\n", "line 1: header"),
    ("book 1\nposts\nend 0\n", "line 2: entry"),
    (
        "book 1\npost 0 0 barrier gives 0 as none passed\nend 2\n",
        "line 3: end, not 2",
    ),
    ("book 1\nend 0\nx", "line 3: nothing"),
    ("book 1\nend 0\nend 0\n", "line 3: nothing"),
    ("book 1\nend 0", "cut"),
    ("", "cut"),
    ("book 1\nend 0\n", "sound 0"),
];

fn are_told(
    rt: &(impl AllocGlobal + Abort),
    policy: &Policy,
    rows: &[(&str, &str)],
) -> Result<(), Fail> {
    for (text, expected) in rows {
        is_told(rt, policy, text, expected)?;
    }
    Ok(())
}

#[test]
fn texts_that_are_no_books(rt: HostRuntime) -> Result<(), Fail> {
    let policy = policy(&rt, DESKS);
    let ended = are_told(&rt, &policy, NO_BOOKS);
    drop(policy);
    ended
}

// What stands behind the posts of the broadcast, where that is a fault, and what was due.
const BEHIND: &[(&str, &str)] = &[
    ("verdict 0 0 denied simple b0 alpha\nend 5\n", "sound 5"),
    (
        "verdict 0 0 granted\nend 5\n",
        "5 in line 6: 0 0 denied simple 1 0, not a verdict",
    ),
    (
        "verdict 0 0 denied simple b0 beta\nend 5\n",
        "5 in line 6: 0 0 denied simple 1 0, not a verdict",
    ),
    (
        "verdict 0 0 denied star b0 alpha\nend 5\n",
        "5 in line 6: 0 0 denied simple 1 0, not a verdict",
    ),
    (
        "verdict 0 1 denied simple b0 alpha\nend 5\n",
        "5 in line 6: 0 0 denied simple 1 0, not a verdict",
    ),
    (
        "post 3 0 barrier gives 0 as none passed\nend 5\n",
        "5 in line 6: 0 0 denied simple 1 0, not a post",
    ),
    ("end 4\n", "5 in line 6: 0 0 denied simple 1 0, not the end"),
    (
        "verdict 0 0 denied simple b0 alpha\nverdict 0 1 granted\nend 6\n",
        "6 in line 7: no verdict, not a verdict",
    ),
];

// Books whose first bad entry is a post, or a verdict that no post settles.
const ALONE: &[(&str, &str)] = &[
    // the star rule bars what b0 posts as alpha
    (
        "book 2\npost 1 0 bcast 1 int32 2 gives 2 as alpha passed\nend 1\n",
        "1 in line 2: barred, not a post",
    ),
    (
        "book 2\npost 1 0 bcast 1 int32 2 gives 2 as alpha barred\nend 1\n",
        "sound 1",
    ),
    // and lets pass what a0 posts as alpha
    (
        "book 2\npost 0 0 bcast 0 int32 2 gives 2 as alpha barred\nend 1\n",
        "1 in line 2: passed, not a post",
    ),
    // no such communicator
    (
        "book 2\npost 0 7 barrier gives 0 as none passed\nend 1\n",
        "1 in line 2: refused NoSuchComm, not a post",
    ),
    // the second of an instance is of another kind
    (
        "book 2
post 0 0 barrier gives 0 as none passed
post 1 0 bcast 0 int32 2 gives 0 as none passed
end 2
",
        "2 in line 3: refused Mismatch, not a post",
    ),
    (
        "book 2\nverdict 0 0 granted\nend 1\n",
        "1 in line 2: no verdict, not a verdict",
    ),
];

// The posts of the broadcast, and this behind them.
fn posts_and(alloc: Global, behind: &str) -> Result<String, AllocError> {
    let mut text = String::from_str(alloc, POSTS)?;
    text.push_str(behind)?;
    Ok(text)
}

// What is found of those that stand behind the posts, and of those that stand alone.
fn are_all_told(rt: &(impl AllocGlobal + Abort), policy: &Policy) -> Result<(), Fail> {
    for (behind, expected) in BEHIND {
        let text = posts_and(rt.alloc(), behind)?;
        is_told(rt, policy, text.as_str(), expected)?;
    }
    are_told(rt, policy, ALONE)
}

#[test]
fn entries_that_the_posts_do_not_give(rt: HostRuntime) -> Result<(), Fail> {
    let policy = policy(&rt, POLICY);
    let ended = are_all_told(&rt, &policy);
    drop(policy);
    ended
}

#[test]
fn lines_by_number(rt: HostRuntime) -> Result<(), Fail> {
    assert!(&rt; line_of(b"a\n\nb", 0) == None);
    assert!(&rt; line_of(b"a\n\nb", 1) == Some(b"a".as_slice()));
    assert!(&rt; line_of(b"a\n\nb", 2) == Some(b"".as_slice()));
    assert!(&rt; line_of(b"a\n\nb", 3) == Some(b"b".as_slice()));
    assert!(&rt; line_of(b"a\n\nb", 4) == None);
    Ok(())
}

// What stands behind the posts of the broadcast, and the line that tells of it.
const LINES: &[(&str, &str)] = &[
    ("verdict 0 0 denied simple b0 alpha\nend 5\n", "sound 5\n"),
    (
        "verdict 0 0 granted\nend 5\n",
        "b.txt:6: another verdict stands; due was: verdict 0 0 denied simple b0 alpha\n",
    ),
    (
        "post 3 0 barrier gives 0 as none passed\nend 5\n",
        "b.txt:6: a post stands; due was: verdict 0 0 denied simple b0 alpha\n",
    ),
    (
        "end 4\n",
        "b.txt:6: the end stands; due was: verdict 0 0 denied simple b0 alpha\n",
    ),
    ("end 5\n", "b.txt:6: \"end 5\" where 4 entries stand\n"),
    ("ends 4\n", "b.txt:6: neither an entry nor the end\n"),
    ("end 4", "b.txt: the text stops before its end\n"),
];

// The same of whole texts.
const WHOLE_LINES: &[(&str, &str)] = &[
    ("book 1\nend 0\n", "b.txt:1: due was: book 2\n"),
    (
        "book 2\nend 0\nend 0\n",
        "b.txt:3: something stands behind the end\n",
    ),
    (
        "book 2\nend 1\n",
        "b.txt:2: \"end 1\" where 0 entries stand\n",
    ),
    (
        "book 2\npost 0 0 barrier gives 0 as none passed\nend 0\n",
        "b.txt:3: \"end 0\" where 1 entry stands\n",
    ),
    (
        "book 2\nverdict 0 0 granted\nend 1\n",
        "b.txt:2: a verdict stands where none is due\n",
    ),
    (
        "book 2\npost 0 7 barrier gives 0 as none passed\nend 1\n",
        "b.txt:2: a post stands that does not count: refused NoSuchComm\n",
    ),
    (
        "book 2\npost 1 0 bcast 1 int32 2 gives 2 as alpha passed\nend 1\n",
        "b.txt:2: a post stands with another last word; due was: barred\n",
    ),
    (
        "book 2\npost 0 0 bcast 0 int32 2 gives 2 as alpha barred\nend 1\n",
        "b.txt:2: a post stands with another last word; due was: passed\n",
    ),
];

// Whether this line tells what is found of the text.
fn is_line(rt: &impl AllocGlobal, policy: &Policy, text: &str, line: &str) -> Result<bool, Fail> {
    let found = found_in(rt.alloc(), policy, text.as_bytes())?;
    let mut told = Vec::new(rt.alloc());
    put_found(policy, "b.txt", &found, &mut told)?;
    Ok(told.as_slice() == line.as_bytes())
}

fn are_all_lines(rt: &(impl AllocGlobal + Abort), policy: &Policy) -> Result<(), Fail> {
    for (behind, line) in LINES {
        let text = posts_and(rt.alloc(), behind)?;
        assert!(rt; is_line(rt, policy, text.as_str(), line)?, "of {behind}");
    }
    are_lines_of_texts(rt, policy)
}

fn are_lines_of_texts(rt: &(impl AllocGlobal + Abort), policy: &Policy) -> Result<(), Fail> {
    for (text, line) in WHOLE_LINES {
        assert!(rt; is_line(rt, policy, text, line)?, "of {text}");
    }
    Ok(())
}

#[test]
fn lines_that_tell_it(rt: HostRuntime) -> Result<(), Fail> {
    let policy = policy(&rt, POLICY);
    let ended = are_all_lines(&rt, &policy);
    drop(policy);
    ended
}
