//! The policy file: what is read, and each fault.
use crate::parties::{dataset, wall};
use std::alloc::{AllocError, Global};
use std::process::Abort;
use std::test::Fail;
use trial_kit::policies::{BANKS_AND_OIL, SUMS_OF_THREE_FIRMS};
use wall_labels::{DatasetId, Op};
use wall_policy::{Policy, PolicyFault, read_policy};

// What reading answers: nothing for a policy.
pub(crate) fn fault_of(alloc: Global, bytes: &[u8]) -> Option<PolicyFault> {
    match read_policy(alloc, bytes) {
        Ok(policy) => {
            drop(policy);
            None
        }
        Err(fault) => Some(fault),
    }
}

// What stands in a policy, what is put in its place, and the fault.
type Change = (&'static str, &'static str, PolicyFault);

// The text has a policy, and each change of it has its fault.
fn expect_faults(rt: &impl Abort, alloc: Global, text: &str, changes: &[Change]) {
    assert!(rt; fault_of(alloc, text.as_bytes()).is_none());
    for (old, new, fault) in changes {
        let Ok(changed) = text.replace(alloc, old, new) else {
            panic!(rt; "no memory")
        };
        assert!(rt;
            fault_of(alloc, changed.as_bytes()) == Some(*fault),
            "{new}"
        );
    }
}

const SHORT: &[(&[u8], PolicyFault)] = &[
    (b"\xff", PolicyFault::NotToml),
    (b"version = ", PolicyFault::NotToml),
    (b"", PolicyFault::BadVersion),
    (b"version = 0", PolicyFault::BadVersion),
    (b"version = 3", PolicyFault::BadVersion),
    (b"version = 2", PolicyFault::MissingKey),
    (b"version = 1", PolicyFault::MissingKey),
    (b"version = 1\nx = 1", PolicyFault::MissingKey),
    (
        b"version = 1\nclass = 1\nprocess = [{name = \"p\"}]",
        PolicyFault::MissingKey,
    ),
    (
        b"version = 1\n[class]\nname = \"k\"\ndatasets = []\n[[process]]\nname = \"p\"",
        PolicyFault::MissingKey,
    ),
    (
        b"version = 1\nclass = [\"k\"]\nprocess = [{name = \"p\"}]",
        PolicyFault::MissingKey,
    ),
    (b"version = 1\nprocess = [\"p\"]", PolicyFault::MissingKey),
    (
        b"version = 1\n[process]\nname = \"p\"",
        PolicyFault::MissingKey,
    ),
    (
        b"version = 1\nsanitise = [3]\nprocess = [{name = \"p\"}]",
        PolicyFault::MissingKey,
    ),
];

#[test]
fn short_texts(rt: HostRuntime) {
    for (bytes, fault) in SHORT {
        assert!(rt; fault_of(rt.alloc(), bytes) == Some(*fault), "{fault}");
    }
}

const CHANGED: &[Change] = &[
    (
        "version = 1\n",
        "version = 1\nx = 1\n",
        PolicyFault::UnknownKey,
    ),
    ("delta", "public", PolicyFault::BadName),
    ("delta", "none", PolicyFault::BadName),
    ("\"b0\"", "\"a0\"", PolicyFault::DuplicateName),
    ("\"oil\"", "\"banks\"", PolicyFault::DuplicateName),
    ("\"delta\"", "\"crude\"", PolicyFault::DuplicateName),
    ("\"delta\"", "\"alpha\"", PolicyFault::DuplicateName),
    (
        "home = \"beta\"",
        "home = \"gamma\"",
        PolicyFault::UnknownDataset,
    ),
    ("sum", "avg", PolicyFault::BadOp),
    (
        "[[sanitise]]\nop = \"sum\"\nleast = 3\n",
        "[[sanitise]]\nop = \"avg\"\nleast = 3\n[[sanitise]]\nop = \"avg\"\nleast = 3\n",
        PolicyFault::DuplicateName,
    ),
    (
        "delta",
        "d234567890123456789012345678901_3",
        PolicyFault::BadName,
    ),
    ("least = 3", "least = 1", PolicyFault::BadLeast),
    ("least = 3", "least = 257", PolicyFault::BadLeast),
    ("least = 3", "least = 3.0", PolicyFault::MissingKey),
    (
        "least = 3",
        "least = 3\ndistinct = 1",
        PolicyFault::UnknownKey,
    ),
    (
        "least = 3",
        "least = 3\ndistinct = \"x\"",
        PolicyFault::UnknownKey,
    ),
    ("version = 1", "version = 2", PolicyFault::MissingKey),
    ("version = 1", "version = 1.0", PolicyFault::BadVersion),
    ("version = 1", "version = true", PolicyFault::BadVersion),
    // A key that its table does not have, then one that is missing or of another kind.
    ("home = \"beta\"", "hom = \"beta\"", PolicyFault::UnknownKey),
    (
        "name = \"oil\"",
        "name = \"oil\"\nx = 1",
        PolicyFault::UnknownKey,
    ),
    (
        "home = \"alpha\"",
        "home = [\"alpha\"]",
        PolicyFault::MissingKey,
    ),
    ("home = \"alpha\"", "home = 1", PolicyFault::MissingKey),
    ("name = \"banks\"\n", "", PolicyFault::MissingKey),
    ("\"banks\"", "1", PolicyFault::MissingKey),
    (
        "datasets = [\"alpha\", \"beta\"]\n",
        "",
        PolicyFault::MissingKey,
    ),
    (
        "[\"alpha\", \"beta\"]",
        "\"alpha\"",
        PolicyFault::MissingKey,
    ),
    ("\"delta\"]", "1]", PolicyFault::MissingKey),
    ("name = \"n0\"\n", "", PolicyFault::MissingKey),
    ("\"n0\"", "true", PolicyFault::MissingKey),
    ("op = \"sum\"\n", "", PolicyFault::MissingKey),
    ("\"sum\"", "[\"sum\"]", PolicyFault::MissingKey),
    ("least = 3\n", "", PolicyFault::MissingKey),
    ("least = 3", "least = \"3\"", PolicyFault::MissingKey),
    ("[[sanitise]]", "[sanitise]", PolicyFault::MissingKey),
    // Two faults at once, neighbours in the order of faults: the first of them is told.
    ("\"n0\"\n", "\"N0\"\nhom = 1\n", PolicyFault::UnknownKey),
    (
        "name = \"n0\"\n",
        "hom = \"alpha\"\n",
        PolicyFault::MissingKey,
    ),
    (
        "\"n0\"",
        "\"a0\"\n[[process]]\nname = \"N1\"",
        PolicyFault::BadName,
    ),
    (
        "\"n0\"",
        "\"a0\"\nhome = \"gamma\"",
        PolicyFault::DuplicateName,
    ),
    (
        "\"n0\"\n[[sanitise]]\nop = \"sum\"",
        "\"n0\"\nhome = \"gamma\"\n[[sanitise]]\nop = \"avg\"",
        PolicyFault::UnknownDataset,
    ),
    (
        "\"sum\"\nleast = 3",
        "\"avg\"\nleast = 1",
        PolicyFault::BadOp,
    ),
];

#[test]
fn changed_policies(rt: HostRuntime) {
    expect_faults(&rt, rt.alloc(), BANKS_AND_OIL, CHANGED);
}

const CHANGED_OF_VERSION_2: &[Change] = &[
    ("distinct = 3", "distinct = 4", PolicyFault::BadLeast),
    ("distinct = 3", "distinct = 0", PolicyFault::BadLeast),
    ("distinct = 3", "distinct = -1", PolicyFault::BadLeast),
    ("distinct = 3\n", "", PolicyFault::MissingKey),
    ("distinct = 3", "distinct = \"x\"", PolicyFault::MissingKey),
    (
        "distinct = 3",
        "distinct = 3\nx = 1",
        PolicyFault::UnknownKey,
    ),
    ("version = 2", "version = 1", PolicyFault::UnknownKey),
    ("version = 2", "version = 3", PolicyFault::BadVersion),
    (
        "\"sum\"\nleast = 3\ndistinct = 3",
        "\"avg\"\nleast = 3\ndistinct = 4",
        PolicyFault::BadOp,
    ),
    ("distinct = 3", "dist = 3", PolicyFault::MissingKey),
];

#[test]
fn changed_policies_of_version_2(rt: HostRuntime) {
    expect_faults(&rt, rt.alloc(), SUMS_OF_THREE_FIRMS, CHANGED_OF_VERSION_2);
}

// Absent tables, empty arrays, and names that other things have too.
const READ: &[&str] = &[
    "version = 1\nclass = []\nsanitise = []\n[[process]]\nname = \"p0\"\n",
    "version = 1\n[[process]]\nname = \"public\"\n",
    "version = 1\n[[process]]\nname = \"p234567890123456789012345678901-\"\n",
    r#"version = 1
[[process]]
name = "p"
[[sanitise]]
op = "max"
least = 65
[[sanitise]]
op = "min"
least = 256
"#,
    r#"version = 2
[[process]]
name = "p"
[[sanitise]]
op = "max"
least = 256
distinct = 256
"#,
    r#"version = 1
[[process]]
name = "p"
[[sanitise]]
op = "sum"
least = 2
"#,
    r#"version = 2
[[process]]
name = "p"
[[sanitise]]
op = "sum"
least = 2
distinct = 1
[[sanitise]]
op = "max"
least = 2
distinct = 2
"#,
    r#"version = 1
[[class]]
name = "a"
datasets = ["a"]
[[process]]
name = "a"
home = "a"
"#,
];

#[test]
fn read(rt: HostRuntime) {
    for text in READ {
        assert!(rt; fault_of(rt.alloc(), text.as_bytes()).is_none(), "{text}");
    }
}

#[test]
fn no_process(rt: HostRuntime) {
    let fault = fault_of(rt.alloc(), b"version = 1\nprocess = []\n");
    assert!(rt; fault == Some(PolicyFault::MissingKey));
}

fn push_process(alloc: Global, text: &mut String, process: u32) -> Result<(), AllocError> {
    text.push_str(&format!(in alloc; "[[process]]\nname = \"p{process}\"\n")?)
}

// A class of so many datasets.
fn push_class(
    alloc: Global,
    text: &mut String,
    class: u32,
    datasets: u32,
) -> Result<(), AllocError> {
    text.push_str(&format!(in alloc; "[[class]]\nname = \"k{class}\"\ndatasets = [")?)?;
    for dataset in 0..datasets {
        text.push_str(&format!(in alloc; "\"d{class}_{dataset}\", ")?)?;
    }
    text.push_str("]\n")
}

// A policy of so many processes, and so many classes of so many datasets each.
pub(crate) fn many(
    rt: &impl Abort,
    alloc: Global,
    processes: u32,
    classes: u32,
    datasets: u32,
) -> String {
    let Ok(mut text) = String::from_str(alloc, "version = 1\n") else {
        panic!(rt; "no memory")
    };
    for process in 0..processes {
        assert!(rt;
            push_process(alloc, &mut text, process).is_ok(),
            "no memory"
        );
    }
    for class in 0..classes {
        let is_put = push_class(alloc, &mut text, class, datasets).is_ok();
        assert!(rt; is_put, "no memory");
    }
    text
}

// How many processes, classes and datasets of each, and the fault: the most, and one more of each.
const LIMITS: &[(u32, u32, u32, Option<PolicyFault>)] = &[
    (256, 0, 0, None),
    (257, 0, 0, Some(PolicyFault::TooMany)),
    (1, 1, 1024, None),
    (1, 1, 1025, Some(PolicyFault::TooMany)),
    (1, 512, 2, None),
    (1, 205, 5, Some(PolicyFault::TooMany)),
    (1, 1024, 0, None),
    (1, 1025, 0, Some(PolicyFault::TooMany)),
];

#[test]
fn limits(rt: HostRuntime) {
    for (processes, classes, datasets, fault) in LIMITS {
        let text = many(&rt, rt.alloc(), *processes, *classes, *datasets);
        let found = fault_of(rt.alloc(), text.as_bytes());
        assert!(rt; found == *fault, "{processes} {classes} {datasets}");
    }
}

// One process more than there may be, alone and beside another fault.
const CHANGED_OF_256: &[Change] = &[
    (
        "\"p255\"\n",
        "\"p255\"\n[[process]]\nname = \"p256\"\n",
        PolicyFault::TooMany,
    ),
    (
        "\"p255\"\n",
        "\"p255\"\n[[process]]\nname = \"p256\"\n[[sanitise]]\nop = \"sum\"\nleast = 1\n",
        PolicyFault::BadLeast,
    ),
    (
        "\"p255\"\n",
        "\"p255\"\n[[process]]\nname = \"p0\"\n",
        PolicyFault::DuplicateName,
    ),
];

#[test]
fn changed_policies_of_256_processes(rt: HostRuntime) {
    let text = many(&rt, rt.alloc(), 256, 0, 0);
    expect_faults(&rt, rt.alloc(), &text, CHANGED_OF_256);
}

// Lends the policy of a text to a look at it, and then a copy of it. One that goes out of scope is
// taken apart in the function that owns it, which costs the prover half a minute; `drop` is one
// call.
fn at_both<R, F>(rt: &R, text: &str, look: F)
where
    R: AllocGlobal + Abort,
    F: Fn(&Policy),
    requires { F.IsAlwaysCallable look }
{
    let policy = wall(rt, rt.alloc(), text);
    look(&policy);
    match policy.copy(rt.alloc()) {
        Ok(copy) => {
            look(&copy);
            drop(copy);
        }
        Err(_) => panic!(rt; "no memory"),
    }
    drop(policy);
}

fn check_numbers(rt: &impl Abort, policy: &Policy) {
    assert_eq!(rt; policy.processes(), 4);
    assert_eq!(rt; policy.datasets(), 4);
    assert!(rt; policy.least(Op::Sum) == Some(3));
    assert!(rt; policy.least(Op::Max).is_none());
}

#[test]
fn numbers(rt: HostRuntime) {
    at_both(&rt, BANKS_AND_OIL, |policy| check_numbers(&rt, policy));
}

fn check_version(rt: &impl Abort, policy: &Policy, version: u32, distinct: u32) {
    assert_eq!(rt; policy.version(), version);
    assert!(rt; policy.least(Op::Sum) == Some(3));
    assert!(rt; policy.distinct(Op::Sum) == Some(distinct));
    assert!(rt; policy.distinct(Op::Max).is_none());
}

#[test]
fn versions(rt: HostRuntime) {
    at_both(
        &rt,
        BANKS_AND_OIL,
        |policy| check_version(&rt, policy, 1, 1),
    );
    at_both(
        &rt,
        SUMS_OF_THREE_FIRMS,
        |policy| check_version(&rt, policy, 2, 3),
    );
}

fn are_rivals(policy: &Policy, left: &str, right: &[u8]) -> Option<bool> {
    let left = policy.dataset_named(left)?;
    let right = policy.dataset_named_bytes(right)?;
    Some(policy.rival(left, right))
}

fn check_rivals(rt: &impl Abort, policy: &Policy) {
    assert!(rt; are_rivals(policy, "alpha", b"beta") == Some(true));
    assert!(rt; are_rivals(policy, "alpha", b"alpha") == Some(false));
    assert!(rt; are_rivals(policy, "alpha", b"crude") == Some(false));
    assert!(rt; are_rivals(policy, "gamma", b"crude").is_none());
    assert!(rt; are_rivals(policy, "alpha", b"\xff").is_none());
}

#[test]
fn rivals(rt: HostRuntime) {
    at_both(&rt, BANKS_AND_OIL, |policy| check_rivals(&rt, policy));
}

// The class of a dataset, and whether its number gives its name.
fn class_of(policy: &Policy, name: &str) -> Option<(u32, bool)> {
    let dataset = policy.dataset_named(name)?;
    let class = policy.class_of(dataset);
    Some((class.number(), policy.dataset_name(dataset) == name))
}

// The name of a process, and its home's number.
fn home_of<'a>(policy: &'a Policy, name: &[u8]) -> Option<(&'a str, Option<DatasetId>)> {
    let process = policy.process_named(name)?;
    Some((policy.process_name(process), policy.home(process)))
}

fn check_names(rt: &impl Abort, policy: &Policy) {
    assert!(rt; class_of(policy, "beta") == Some((0, true)));
    assert!(rt; class_of(policy, "crude") == Some((1, true)));
    assert!(rt; home_of(policy, b"b0") == Some(("b0", DatasetId::new(1))));
    assert!(rt; home_of(policy, b"n0") == Some(("n0", None)));
    assert!(rt; home_of(policy, b"n1").is_none());
}

#[test]
fn names(rt: HostRuntime) {
    at_both(&rt, BANKS_AND_OIL, |policy| check_names(&rt, policy));
}

// Looks up two names in turn, one as text and one as bytes: the next by what was found last, so
// that no round can be left out.
fn look_up_often(rt: &impl Abort, policy: &Policy, times: u32) {
    assert!(rt; policy.datasets() == 1024);
    let text = policy.dataset_name(dataset(998));
    let bytes = policy.dataset_name(dataset(999)).as_bytes();
    let mut last = 999;
    for _ in 0..times {
        let found = if last == 999 {
            policy.dataset_named(text)
        } else {
            policy.dataset_named_bytes(bytes)
        };
        match found {
            Some(id) => last = id.number(),
            None => panic!(rt; "no dataset"),
        }
    }
    assert_eq!(rt; last, 999);
}

// Looks up each name in turn by its bytes, the next by what was found last, and after each a word
// that only looks like a name. Some of the names share their slot, and in the slot of such a word
// there can be but another: for these the index is asked.
fn look_up_each(rt: &impl Abort, policy: &Policy, times: u32) {
    assert!(rt; policy.datasets() == 1024);
    let mut next = 0;
    for _ in 0..times {
        let name = policy.dataset_name(dataset(next % 1024)).as_bytes();
        match policy.dataset_named_bytes(name) {
            Some(id) => next = id.number().wrapping_add(1),
            None => panic!(rt; "no dataset"),
        }
        let stray: &[u8] = if next % 2 == 0 { b"d0_99x" } else { b"d0_99y" };
        assert!(rt; policy.dataset_named_bytes(stray).is_none());
    }
    assert_eq!(rt; next % 1024, times % 1024);
}

// A look at each of the thousand names before these two would take minutes.
#[test]
fn names_are_looked_up_in_a_table(rt: HostRuntime) {
    let text = many(&rt, rt.alloc(), 1, 1, 1024);
    let policy = wall(&rt, rt.alloc(), text.as_str());
    look_up_often(&rt, &policy, 50_000_000);
    drop(policy);
}

// Here too, and where the index is asked for those alone that their slots do not answer.
#[test]
fn bytes_are_looked_up_in_a_table(rt: HostRuntime) {
    let text = many(&rt, rt.alloc(), 1, 1, 1024);
    let policy = wall(&rt, rt.alloc(), text.as_str());
    look_up_each(&rt, &policy, 50_000_000);
    drop(policy);
}

const FAULT_NAMES: &[(PolicyFault, &str)] = &[
    (PolicyFault::NotToml, "NotToml"),
    (PolicyFault::BadVersion, "BadVersion"),
    (PolicyFault::MissingKey, "MissingKey"),
    (PolicyFault::UnknownKey, "UnknownKey"),
    (PolicyFault::BadName, "BadName"),
    (PolicyFault::DuplicateName, "DuplicateName"),
    (PolicyFault::UnknownDataset, "UnknownDataset"),
    (PolicyFault::BadOp, "BadOp"),
    (PolicyFault::BadLeast, "BadLeast"),
    (PolicyFault::TooMany, "TooMany"),
    (PolicyFault::NoMemory, "NoMemory"),
];

#[test]
fn fault_names(rt: HostRuntime) -> Result<(), Fail> {
    for (fault, name) in FAULT_NAMES {
        let shown = format!(in rt.alloc(); "{fault}")?;
        assert!(rt; shown.as_str() == *name, "{name}");
    }
    Ok(())
}
