//! Checks of policies, scripts and books: all that is told, each status with its line, and earlier
//! books that fail.
use crate::chains::{ALPHA, ALPHA_TO_N0, BETA_TO_N0, WALL, books};
use crate::endings::{sink, source};
use crate::looks::{MEANING, whole};
use program_commands::{CheckFiles, Earlier, Streams, check_on};
use std::process::Abort;
use std::test::Fail;
use wall_labels::memory::{Fuse, MemorySource};

// Whether a check of these files comes to this status and writes this, as far as the writer takes
// it, and this line.
fn ends_so<'a>(
    rt: &impl AllocGlobal,
    policy: &str,
    files: CheckFiles<'a, MemorySource<'a>, MemorySource<'a>, MemorySource<'a>>,
    said: &str,
    line: &str,
    status: u8,
) -> bool {
    let mut policy = whole(policy);
    let mut out = sink(said.as_bytes(), Fuse::Whole);
    let mut err = sink(line.as_bytes(), Fuse::Whole);
    let streams = Streams {
        out: &mut out,
        err: &mut err,
    };
    let ended = check_on(rt.alloc(), &mut policy, files, streams);
    let is_all = out.rest.is_empty() && err.rest.is_empty();
    ended == status && is_all && out.is_same && err.is_same
}

// A check without earlier books.
fn checks_so<'a>(
    rt: &impl AllocGlobal,
    policy: &str,
    script: Option<&'a str>,
    book: Option<&'a str>,
    said: &str,
    line: &str,
    status: u8,
) -> bool {
    let script = match script {
        Some(text) => Some(whole(text)),
        None => None,
    };
    let book = match book {
        Some(text) => Some(whole(text)),
        None => None,
    };
    let files = CheckFiles {
        policy_path: "policy.toml",
        script_path: "calls.txt",
        script,
        earlier: Vec::new(rt.alloc()),
        book_path: "calls.book",
        book,
    };
    ends_so(rt, policy, files, said, line, status)
}

// A check of a book that goes on after earlier ones.
fn checks_after<'a>(
    rt: &impl AllocGlobal,
    earlier: &[(&'a str, &'a str)],
    book: &'a str,
    said: &str,
    line: &str,
    status: u8,
) -> Result<bool, Fail> {
    let files = CheckFiles {
        policy_path: "policy.toml",
        script_path: "",
        script: None,
        earlier: books(rt.alloc(), earlier)?,
        book_path: "calls.book",
        book: Some(whole(book)),
    };
    Ok(ends_so(rt, WALL, files, said, line, status))
}

#[test]
fn checks_tell_of_each_file(rt: HostRuntime) -> Result<(), Fail> {
    assert!(&rt; checks_so(&rt, WALL, None, None, MEANING, "", 0));
    assert!(&rt; checks_so(&rt, WALL, Some(ALPHA), None, MEANING, "", 0));
    let told = format!(in rt.alloc(); "{MEANING}sound 8\n")?;
    assert!(&rt; checks_so(&rt, WALL, Some(ALPHA), Some(ALPHA_TO_N0), &told, "", 0));
    let bad = "info 0 0\nfoo\ntake 0\n";
    let lines = "calls.txt:2:1: \"foo\" is no verb (post, take, info)
calls.txt:3:7: a field is missing at the end of the line
";
    let told = format!(in rt.alloc(); "{MEANING}{lines}sound 8\n")?;
    let line = "script: line 2: BadVerb\n";
    assert!(&rt; checks_so(&rt, WALL, Some(bad), Some(ALPHA_TO_N0), &told, line, 2));
    Ok(())
}

// The first that is at fault decides: policy, script, book.
#[test]
fn checks_end_by_the_first_fault(rt: HostRuntime) -> Result<(), Fail> {
    let spoilt = "book 1\npost 0 0 barrier gives 0 as none barred\nend 1\n";
    let post = "calls.book:2: a post stands with another last word; due was: passed\n";
    let told = format!(in rt.alloc(); "{MEANING}{post}")?;
    assert!(&rt; checks_so(&rt, WALL, Some(ALPHA), Some(spoilt), &told, "", 2));
    let told = format!(in rt.alloc(); "{MEANING}calls.book: the text stops before its end\n")?;
    let cut = "book: cut\n";
    assert!(&rt; checks_so(&rt, WALL, Some(ALPHA), Some("book 1\n"), &told, cut, 2));
    let told = format!(in rt.alloc(); "{MEANING}calls.book:2: \"end 4\" where 0 entries stand\n")?;
    let other = "book 1\nend 4\n";
    assert!(&rt; checks_so(&rt, WALL, None, Some(other), &told, "book: line 2\n", 2));
    let none = "# a comment\nversion = 3\n";
    let told = "policy.toml:2: the version is neither 1 nor 2\n";
    let line = "policy: BadVersion\n";
    assert!(&rt; checks_so(&rt, none, Some(ALPHA), None, told, line, 1));
    let typo = WALL.replace(rt.alloc(), "home = \"beta\"", "hme = \"beta\"")?;
    let (told, line) = (
        "policy.toml:10: unknown key \"hme\" in [[process]]\n",
        "policy: UnknownKey\n",
    );
    assert!(&rt; checks_so(&rt, typo.as_str(), None, None, told, line, 1));
    Ok(())
}

// The book is judged by what was held at the end of the earlier ones. Where one of these is at
// fault, nothing is told of it.
#[test]
fn checks_go_on_after_earlier_books(rt: HostRuntime) -> Result<(), Fail> {
    let earlier = &[("monday.book", ALPHA_TO_N0)];
    let told = format!(in rt.alloc(); "{MEANING}sound 8\n")?;
    assert!(&rt; checks_after(&rt, &[], BETA_TO_N0, &told, "", 0)?);
    assert!(&rt; checks_after(&rt, earlier, ALPHA_TO_N0, &told, "", 0)?);
    let due = "another verdict stands; due was: verdict 1 0 denied simple n0 beta";
    let told = format!(in rt.alloc(); "{MEANING}calls.book:9: {due}\n")?;
    assert!(&rt; checks_after(&rt, earlier, BETA_TO_N0, &told, "", 2)?);
    let earlier = &[("monday.book", ALPHA_TO_N0), ("tuesday.book", BETA_TO_N0)];
    let line = "after tuesday.book: unsound at entry 8\n";
    assert!(&rt; checks_after(&rt, earlier, ALPHA_TO_N0, MEANING, line, 2)?);
    let earlier = &[("monday.book", "book 1\n")];
    let line = "after monday.book: cut\n";
    assert!(&rt; checks_after(&rt, earlier, "no book", MEANING, line, 2)?);
    Ok(())
}

// An earlier book that is not read is told by its path.
#[test]
fn checks_tell_of_an_unread_earlier_book(rt: HostRuntime) -> Result<(), Fail> {
    for fuse in [Fuse::After(0), Fuse::After(1)] {
        let mut earlier = books(rt.alloc(), &[("monday.book", ALPHA_TO_N0)])?;
        earlier.push(Earlier {
            path: "tuesday.book",
            device: source(b"book 1\nend 0\n", fuse),
        })?;
        let files = CheckFiles {
            policy_path: "policy.toml",
            script_path: "",
            script: None,
            earlier,
            book_path: "calls.book",
            book: Some(whole("no book")),
        };
        let line = "cannot read tuesday.book: the read failed\n";
        assert!(&rt; ends_so(&rt, WALL, files, MEANING, line, 3));
    }
    Ok(())
}

// A policy that is refused has a sentence, also where its fault stands on no line.
#[test]
fn each_refused_policy_has_its_sentence(rt: HostRuntime) -> Result<(), Fail> {
    let bad = "policy: BadVersion\n";
    let told = "policy.toml: there is no version\n";
    assert!(&rt; checks_so(&rt, "# a comment\n", None, None, told, bad, 1));
    let missing = "policy: MissingKey\n";
    let told = "policy.toml: there is no [[process]]\n";
    assert!(&rt; checks_so(&rt, "version = 2\n", None, None, told, missing, 1));
    let told = "policy.toml:2: \"process\" is not given by tables [[process]]\n";
    assert!(&rt;
        checks_so(
            &rt,
            "version = 2\nprocess = []\n",
            None,
            None,
            told,
            missing,
            1
        )
    );
    let single = "version = 2\n[class]\nname = \"banks\"\n";
    let told = "policy.toml:2: \"class\" is not given by tables [[class]]\n";
    assert!(&rt; checks_so(&rt, single, None, None, told, missing, 1));
    let kind = WALL.replace(rt.alloc(), "home = \"beta\"", "home = 7")?;
    let told = "policy.toml:10: \"home\" in [[process]] has another kind of value than it should\n";
    assert!(&rt; checks_so(&rt, kind.as_str(), None, None, told, missing, 1));
    Ok(())
}
