//! Policy files that have grown from an earlier policy, and others.
use crate::parties::{dataset, process, wall};
use crate::texts::expect_texts;
use std::alloc::Global;
use std::process::Abort;
use trial_kit::policies::BANKS_AND_OIL;
use wall_labels::{ClassId, DatasetId, Op};
use wall_policy::{GrowthFault, Policy, grown_from};

// A class in front, the others turned round, a bank in the midst, and a process behind.
const LATER: &str = r#"version = 2
[[class]]
name = "mines"
datasets = ["ore"]
[[class]]
name = "oil"
datasets = ["delta", "crude"]
[[class]]
name = "banks"
datasets = ["alpha", "gamma", "beta"]
[[process]]
name = "a0"
home = "alpha"
[[process]]
name = "b0"
home = "beta"
[[process]]
name = "c0"
home = "crude"
[[process]]
name = "n0"
[[process]]
name = "g0"
home = "gamma"
[[sanitise]]
op = "sum"
least = 2
distinct = 1
"#;

// The datasets: number, name, and the number and the name of the class.
type Row = (u32, &'static str, u32, &'static str);

const DATASETS: &[Row] = &[
    (0, "alpha", 0, "banks"),
    (1, "beta", 0, "banks"),
    (2, "crude", 1, "oil"),
    (3, "delta", 1, "oil"),
    (4, "ore", 2, "mines"),
    (5, "gamma", 0, "banks"),
];

// Whether the policy has it so; none where it has no such numbers.
fn is_dataset(policy: &Policy, row: &Row) -> Option<bool> {
    let (number, name, class_number, class_name) = *row;
    let dataset = DatasetId::new(number)?;
    let class = ClassId::new(class_number)?;
    if dataset.number() >= policy.datasets() || class.number() >= policy.classes() {
        return None;
    }
    Some(
        policy.dataset_name(dataset) == name
            && policy.class_of(dataset) == class
            && policy.class_name(class) == class_name,
    )
}

fn check_grown(rt: &impl Abort, policy: &Policy) {
    assert_eq!(rt; policy.version(), 2);
    assert_eq!(rt; policy.processes(), 5);
    assert_eq!(rt; policy.datasets(), 6);
    assert_eq!(rt; policy.classes(), 3);
    for row in DATASETS {
        assert!(rt; is_dataset(policy, row) == Some(true));
    }
    assert!(rt; policy.home(process(2)) == Some(dataset(2)));
    assert!(rt; policy.home(process(3)).is_none());
    assert!(rt; policy.home(process(4)) == Some(dataset(5)));
    assert!(rt; policy.least(Op::Sum) == Some(2));
    assert!(rt; policy.held().is_empty());
}

#[test]
fn a_grown_file_keeps_the_numbers(rt: HostRuntime) {
    let old = wall(&rt, rt.alloc(), BANKS_AND_OIL);
    let new = wall(&rt, rt.alloc(), LATER);
    match grown_from(rt.alloc(), &old, &new) {
        Ok(policy) => {
            check_grown(&rt, &policy);
            drop(policy);
        }
        Err(_) => panic!(&rt; "not grown"),
    }
    drop(new);
    drop(old);
}

// What stands in the later file, what is put in its place, and what is not kept then.
const CHANGES: &[(&str, &str, (&str, u32))] = &[
    ("name = \"n0\"", "name = \"n1\"", ("process", 3)),
    ("name = \"b0\"\nhome", "name = \"b1\"\nhome", ("process", 1)),
    ("home = \"beta\"", "home = \"gamma\"", ("home", 1)),
    ("home = \"crude\"\n", "", ("home", 2)),
    (
        "name = \"n0\"",
        "name = \"n0\"\nhome = \"ore\"",
        ("home", 3),
    ),
    ("name = \"oil\"", "name = \"fuel\"", ("class", 1)),
    ("\"delta\", ", "", ("dataset", 3)),
    (
        "[\"ore\"]\n[[class]]\nname = \"oil\"\ndatasets = [\"delta\", ",
        "[\"ore\", \"delta\"]\n[[class]]\nname = \"oil\"\ndatasets = [",
        ("moved", 3),
    ),
];

fn word_of(fault: GrowthFault) -> (&'static str, u32) {
    match fault {
        GrowthFault::Process(process) => ("process", process.number()),
        GrowthFault::Home(process) => ("home", process.number()),
        GrowthFault::Class(class) => ("class", class.number()),
        GrowthFault::Dataset(dataset) => ("dataset", dataset.number()),
        GrowthFault::Moved(dataset) => ("moved", dataset.number()),
        GrowthFault::NoMemory => ("memory", 0),
    }
}

fn fault_of(
    rt: &impl Abort,
    alloc: Global,
    old: &Policy,
    text: &str,
) -> Option<(&'static str, u32)> {
    let new = wall(rt, alloc, text);
    let grown = grown_from(alloc, old, &new);
    drop(new);
    match grown {
        Ok(policy) => {
            drop(policy);
            None
        }
        Err(fault) => Some(word_of(fault)),
    }
}

#[test]
fn what_is_not_kept_is_told(rt: HostRuntime) {
    let old = wall(&rt, rt.alloc(), BANKS_AND_OIL);
    for (from, to, fault) in CHANGES {
        let Ok(changed) = LATER.replace(rt.alloc(), from, to) else {
            panic!(&rt; "no memory")
        };
        assert!(&rt;
            fault_of(&rt, rt.alloc(), &old, changed.as_str()) == Some(*fault),
            "{to}"
        );
    }
    drop(old);
}

#[test]
fn growth_faults_have_their_texts(rt: HostRuntime) {
    let table = [
        (GrowthFault::Process(process(0)), "another process"),
        (GrowthFault::Home(process(0)), "another home"),
        (GrowthFault::Moved(dataset(0)), "another class"),
        (GrowthFault::Dataset(dataset(0)), "no such dataset"),
        (GrowthFault::NoMemory, "out of memory"),
    ];
    expect_texts(&rt, &table);
}
