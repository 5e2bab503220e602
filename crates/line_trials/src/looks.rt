//! Checks and reports over a system in memory: which file was not read, and why, and the page that
//! is written behind a report.
use crate::disk::{Name, Refusal};
use crate::uses::{ALONE, Case, Ended, Faults, NONE, comes_so, used};
use std::io::Eprint;
use std::process::{Abort, ExitCode};
use std::sync::Wait;
use std::test::Fail;
use std::thread::Threads;

const BOOK: &str = "book 1\npost 0 0 barrier gives 0 as none passed\nverdict 0 0 granted\nend 2\n";

const MEANING: &str = "banks: alpha, beta
p0 is at home at alpha
warning: no result is ever sanitised: there is no sanitise rule
warning: no process is at home at beta
";

fn case_of<'a>(words: &'a [&'a [u8]], out: &'a str, err: &'a str, opened: &'a str) -> Case<'a> {
    Case {
        words,
        policy: ALONE.as_bytes(),
        script: b"info 0 0\n",
        book: BOOK.as_bytes(),
        out: out.as_bytes(),
        err: err.as_bytes(),
        kept: b"",
        opened: opened.as_bytes(),
        status: 3,
    }
}

#[test]
fn missing_files_are_told_by_their_paths(rt: HostRuntime) -> Result<(), Fail> {
    let told = format!(in rt.alloc(); "{MEANING}sound 2\n")?;
    let script = "cannot read no/script: no such file\n";
    let cases = [
        case_of(
            &[b"consortium", b"check", b"nope.toml", b"s"],
            "",
            "cannot read nope.toml: no such file\n",
            "nope.toml\n",
        ),
        case_of(
            &[b"consortium", b"check", b"w", b"no/script", b"--book", b"b"],
            told.as_str(),
            script,
            "w\nno/script\nb\n",
        ),
        case_of(
            &[b"consortium", b"check", b"w", b"s", b"--book", b"nope"],
            MEANING,
            "cannot read nope: no such file\n",
            "w\ns\nnope\n",
        ),
        case_of(
            &[
                b"consortium",
                b"check",
                b"w",
                b"s",
                b"--book",
                b"b",
                b"--after",
                b"b",
                b"--after",
                b"nope",
            ],
            MEANING,
            "cannot read nope: no such file\n",
            "w\ns\nb\nnope\n",
        ),
        case_of(
            &[b"consortium", b"report", b"w", b"nope", b"--html", b"k"],
            "",
            "cannot read nope: no such file\n",
            "w\nnope\n",
        ),
        case_of(
            &[b"consortium", b"report", b"w", b"b", b"--after", b"nope"],
            "",
            "cannot read nope: no such file\n",
            "w\nnope\n",
        ),
        case_of(
            &[b"consortium", b"report", b"nope", b"b", b"--after", b"b"],
            "",
            "cannot read nope: no such file\n",
            "nope\n",
        ),
    ];
    for case in cases {
        assert!(&rt; comes_so(&rt, &case, NONE)?);
    }
    Ok(())
}

// What is told where a call at this file fails with such an error.
fn told_of(name: Name, is_denied: bool) -> &'static str {
    match (name, is_denied) {
        (Name::Policy, true) => "cannot read w: permission denied\n",
        (Name::Policy, false) => "cannot read w: the read failed\n",
        (Name::Kept, _) => "write fault\n",
        (_, true) => "cannot read b: permission denied\n",
        (_, false) => "cannot read b: the read failed\n",
    }
}

// Whether a report whose call at this file failed wrote its text only before a page.
fn is_broken_so(ended: &Ended, whole: &Ended, name: Name, is_denied: bool) -> bool {
    let is_told = ended.err.as_slice() == told_of(name, is_denied).as_bytes();
    let is_out = match name {
        Name::Kept => ended.out.as_slice() == whole.out.as_slice(),
        _ => ended.out.is_empty() && ended.kept.is_empty(),
    };
    let is_prefix = whole.kept.starts_with(&ended.kept);
    is_told && is_out && is_prefix && ended.open == 0 && ended.status == ExitCode::from(3)
}

// Fails each call at the files of a report with its page once, and gives how many there are.
fn fail_at_files<R>(rt: &R, case: &Case, refusal: Refusal, is_denied: bool) -> Result<u64, Fail>
where
    R: AllocGlobal + Threads + Wait + Sync + Eprint,
{
    let whole = used(rt, case, NONE)?;
    let failed = fail_each(rt, case, refusal, is_denied, &whole);
    drop(whole);
    failed
}

fn fail_each<R>(
    rt: &R,
    case: &Case,
    refusal: Refusal,
    is_denied: bool,
    whole: &Ended,
) -> Result<u64, Fail>
where
    R: AllocGlobal + Threads + Wait + Sync + Eprint,
{
    for files in 0..400u64 {
        let faults = Faults {
            refusal,
            files,
            ..NONE
        };
        let ended = used(rt, case, faults)?;
        let failed = ended.failed;
        let is_so = is_broken_or_whole(&ended, whole, is_denied);
        drop(ended);
        if failed.is_none() {
            return Ok(files);
        }
        if !is_so {
            return Err(Fail::from("a report with a fault ended otherwise"));
        }
    }
    Err(Fail::from("there are too many calls"))
}

// So where one of its calls failed.
fn is_broken_or_whole(ended: &Ended, whole: &Ended, is_denied: bool) -> bool {
    match ended.failed {
        Some(name) => is_broken_so(ended, whole, name, is_denied),
        None => true,
    }
}

#[test]
fn each_call_of_a_report_fails(rt: HostRuntime) -> Result<(), Fail> {
    let words: &[&[u8]] = &[
        b"consortium",
        b"report",
        b"w",
        b"b",
        b"--html",
        b"k",
        b"--after",
        b"b",
    ];
    let case = case_of(words, "", "", "");
    let whole = used(&rt, &case, NONE)?;
    expect_page(&rt, &whole);
    drop(whole);
    for (refusal, is_denied) in REFUSALS {
        let calls = fail_at_files(&rt, &case, *refusal, *is_denied)?;
        assert!(&rt; calls == 11, "{calls}");
    }
    Ok(())
}

// The errors of its calls, and whether they say that it is not permitted.
const REFUSALS: &[(Refusal, bool)] = &[
    (Refusal::Other, false),
    (Refusal::PermissionDenied, true),
    (Refusal::TimedOut, false),
];

fn expect_page(rt: &impl Abort, whole: &Ended) {
    assert!(rt; whole.status == ExitCode::from(0) && whole.err.is_empty());
    assert!(rt; whole.out.starts_with(b"who holds what") && whole.kept.ends_with(b"</html>\n"));
    assert!(rt; whole.opened.as_slice() == b"w\nb\nb\nk\n".as_slice());
}
