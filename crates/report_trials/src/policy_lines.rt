//! Where the faults of policies stand: rows, worked by hand.

use policy_places::{Found, Place, PolicyFault, Sign, place_of};
use std::alloc::{AllocError, Global};
use std::process::Abort;
use std::test::Fail;

// A policy, line by line.
const GOOD: [&str; 18] = [
    "version = 2",
    "",
    "[[class]]                    # line 3",
    "name = \"banks\"",
    "datasets = [\"alpha\", \"beta\"]",
    "",
    "[[process]]                  # line 7",
    "name = \"a0\"",
    "home = \"alpha\"",
    "",
    "[[process]]                  # line 11",
    "name = \"b0\"",
    "home = \"beta\"",
    "",
    "[[sanitise]]                 # line 15",
    "op = \"sum\"",
    "least = 3",
    "distinct = 2",
];

// The policy with one line in place of another; with all lines as they are for line 0.
fn with_line(alloc: Global, number: usize, line: &str) -> Result<String, AllocError> {
    let mut text = String::new(alloc);
    for (before, old) in GOOD.iter().enumerate() {
        text.push_str(if number > 0 && before == number - 1 {
            line
        } else {
            *old
        })?;
        text.push('\n')?;
    }
    Ok(text)
}

// The place in the text, in one line: `none`, `FAULT`, or `FAULT SIGN LINE`.
fn told(alloc: Global, text: &[u8]) -> Result<String, Fail> {
    let told = match place_of(alloc, text)? {
        None => String::from_str(alloc, "none")?,
        Some(Place { fault, found: None }) => format!(in alloc; "{fault:?}")?,
        Some(
            Place {
                fault,
                found: Some(Found { sign, line }),
            },
        ) => format!(in alloc; "{fault:?} {sign:?} {line}")?,
    };
    Ok(told)
}

// With the line in place of another this is told.
fn is_told(
    rt: &(impl Abort + AllocGlobal),
    number: usize,
    line: &str,
    expected: &str,
) -> Result<(), Fail> {
    let text = with_line(rt.alloc(), number, line)?;
    let told = told(rt.alloc(), text.as_bytes())?;
    assert_eq!(rt; told.as_str(), expected, "line {number}: {line}");
    Ok(())
}

#[test]
fn keys_and_kinds(rt: HostRuntime) -> Result<(), Fail> {
    is_told(&rt, 0, "", "none")?;
    // a typo in the key of a rule, of a process, of a class; in an array's name, in the version
    is_told(&rt, 18, "distnct = 2", "MissingKey StrayKey 18")?;
    is_told(&rt, 8, "nam = \"a0\"", "MissingKey StrayKey 8")?;
    is_told(&rt, 13, "hom = \"beta\"", "UnknownKey UnknownKey 13")?;
    is_told(&rt, 5, "dataset = []", "MissingKey StrayKey 5")?;
    is_told(&rt, 3, "[[clas]]", "UnknownKey UnknownKey 3")?;
    is_told(&rt, 1, "verson = 2", "BadVersion FileKey 1")?;
    // a key that is there twice
    is_told(&rt, 18, "least = 2", "NotToml NotToml 18")?;
    // a line that is missing
    is_told(&rt, 1, "", "BadVersion")?;
    is_told(&rt, 5, "", "MissingKey Lacking 3")?;
    is_told(&rt, 12, "", "MissingKey Lacking 11")?;
    is_told(&rt, 17, "", "MissingKey Lacking 15")?;
    is_told(&rt, 18, "", "MissingKey Lacking 15")?;
    // other kinds of values
    is_told(&rt, 1, "version = 3", "BadVersion Version 1")?;
    is_told(&rt, 1, "version = \"2\"", "BadVersion Version 1")?;
    is_told(&rt, 5, "datasets = \"alpha\"", "MissingKey OtherKind 5")?;
    is_told(
        &rt,
        5,
        "datasets = [\"alpha\", 7]",
        "MissingKey OtherKind 5",
    )?;
    is_told(&rt, 9, "home = 0", "MissingKey OtherKind 9")?;
    is_told(&rt, 17, "least = 3.0", "MissingKey OtherKind 17")?;
    // a second key, unknown in version 1
    is_told(&rt, 1, "version = 1", "UnknownKey UnknownKey 18")?;
    is_told(&rt, 2, "colour = \"red\"", "UnknownKey UnknownKey 2")
}

#[test]
fn names_and_numbers(rt: HostRuntime) -> Result<(), Fail> {
    is_told(&rt, 4, "name = \"Banks\"", "BadName BadName 4")?;
    is_told(
        &rt,
        5,
        "datasets = [\"alpha\", \"none\"]",
        "BadName BadName 5",
    )?;
    is_told(
        &rt,
        8,
        "name = \"a23456789012345678901234567890123\"",
        "BadName BadName 8",
    )?;
    is_told(
        &rt,
        5,
        "datasets = [\"alpha\", \"alpha\"]",
        "DuplicateName DuplicateName 5",
    )?;
    is_told(&rt, 12, "name = \"a0\"", "DuplicateName DuplicateName 12")?;
    is_told(
        &rt,
        9,
        "home = \"gamma\"",
        "UnknownDataset UnknownDataset 9",
    )?;
    is_told(
        &rt,
        13,
        "home = \"gamma\"",
        "UnknownDataset UnknownDataset 13",
    )?;
    is_told(&rt, 16, "op = \"avg\"", "BadOp BadOp 16")?;
    is_told(&rt, 17, "least = 1", "BadLeast BadLeast 17")?;
    is_told(&rt, 17, "least = 257", "BadLeast BadLeast 17")?;
    is_told(&rt, 18, "distinct = 0", "BadLeast BadLeast 18")?;
    is_told(&rt, 18, "distinct = 4", "BadLeast BadLeast 18")
}

#[test]
fn texts_that_are_no_toml(rt: HostRuntime) -> Result<(), Fail> {
    is_told(&rt, 1, "version = ", "NotToml NotToml 1")?;
    is_told(&rt, 12, "name = \"b0", "NotToml NotToml 12")?;
    is_told(&rt, 12, "name \"b0\"", "NotToml NotToml 12")?;
    is_told(&rt, 18, "distinct = 2 2", "NotToml NotToml 18")?;
    // the array goes on to the end of the text
    is_told(&rt, 5, "datasets = [\"alpha\",", "NotToml NotToml 5")?;
    let alloc = rt.alloc();
    assert_eq!(&rt; told(alloc, b"")?.as_str(), "BadVersion");
    assert_eq!(&rt; told(alloc, b"version = 2")?.as_str(), "MissingKey");
    assert_eq!(&rt;
        told(alloc, b"version = 2\n# \xff\n")?.as_str(),
        "NotToml NotToml 2"
    );
    Ok(())
}

// An array of three lines, and what stands behind it.
#[test]
fn arrays_of_some_lines(rt: HostRuntime) -> Result<(), Fail> {
    let lines = "datasets = [\n  \"alpha\",\n  \"beta\",\n]";
    is_told(&rt, 5, lines, "none")?;
    let text = with_line(rt.alloc(), 5, "datasets = [\n  \"alpha\",\n  \"Beta\",\n]")?;
    assert_eq!(&rt;
        told(rt.alloc(), text.as_bytes())?.as_str(),
        "BadName BadName 8"
    );
    Ok(())
}

// One process more than there may be, and no process at all.
#[test]
fn too_many_and_none(rt: HostRuntime) -> Result<(), Fail> {
    let alloc = rt.alloc();
    let mut text = String::from_str(alloc, "version = 2\n")?;
    for number in 0..258_u32 {
        text.push_str("[[process]]\nname = \"p")?;
        text.push_str(format!(in alloc; "{number}")?.as_str())?;
        text.push_str("\"\n")?;
    }
    assert_eq!(&rt;
        told(alloc, text.as_bytes())?.as_str(),
        "TooMany TooMany 514"
    );
    assert_eq!(&rt;
        told(alloc, b"version = 2\n\n[[proces]]\nname = \"a0\"\n")?.as_str(),
        "MissingKey FileKey 3"
    );
    assert_eq!(&rt;
        told(alloc, b"version = 2\nprocess = []\n")?.as_str(),
        "MissingKey OtherKind 2"
    );
    Ok(())
}
