//! What each process holds, and the star rule.
ghost use Rattle.wall_rules.specs.Histories.{opening, ArePairsOf};

use crate::parties::{dataset, opening, process, wall};
use std::alloc::{AllocError, Global};
use std::process::Abort;
use trial_kit::policies::BANKS_AND_OIL;
use wall_labels::{DatasetId, Label, LabelSet, ProcessId};
use wall_policy::Policy;
use wall_rules::Histories;

// The histories before any call under the policy of this text.
fn under(rt: &impl Abort, alloc: Global, text: &str) -> Histories {
    let policy = wall(rt, alloc, text);
    let histories = opening(rt, alloc, &policy);
    drop(policy);
    histories
}

fn opened(rt: &impl Abort, alloc: Global) -> Histories {
    under(rt, alloc, BANKS_AND_OIL)
}

// Enters the dataset where the simple security rule permits it.
fn try_enter(histories: &mut Histories, process: ProcessId, dataset: DatasetId) -> bool {
    let mut set = LabelSet::empty();
    match histories.clash(process, &set, dataset) {
        Some(_) => false,
        None => {
            set.insert(dataset);
            histories.enter(process, &set);
            true
        }
    }
}

fn holder(rt: &impl Abort, number: u32) -> ProcessId {
    ProcessId::new(number).expect(rt, "a process")
}

fn dataset_of(rt: &impl Abort, number: u32) -> DatasetId {
    DatasetId::new(number).expect(rt, "a dataset")
}

// A process, and which of the four datasets it holds.
const HELD: &[(u32, [bool; 4])] = &[
    (0, [true, false, false, false]),
    (1, [false, true, false, false]),
    (2, [false, false, true, false]),
    (3, [false, false, false, false]),
    (63, [false, false, false, false]),
    (255, [false, false, false, false]),
];

fn expect_held(rt: &impl Abort, histories: &Histories, holder: ProcessId, held: &[bool; 4]) {
    for number in 0..4 {
        let has = histories.has(holder, dataset(number));
        assert_eq!(rt; has, held[number as usize]);
    }
}

#[test]
fn each_process_begins_with_its_home_alone(rt: HostRuntime) {
    let histories = opened(&rt, rt.alloc());
    assert_eq!(rt; histories.processes(), 4);
    for (number, held) in HELD {
        expect_held(&rt, &histories, holder(&rt, *number), held);
    }
    drop(histories);
}

// A list of pairs has these, and no others.
fn expect_pairs(rt: &impl Abort, pairs: &[(ProcessId, DatasetId)], expected: &[(u32, u32)]) {
    assert_eq!(rt; pairs.len(), expected.len());
    for ((process, dataset), (number, of)) in pairs.iter().zip(expected) {
        assert!(rt; process.number() == *number && dataset.number() == *of);
    }
}

// The pairs of the histories before any call.
fn opening_pairs(rt: &impl Abort, alloc: Global, policy: &Policy) -> Vec<(ProcessId, DatasetId)>
    ensures { ArePairsOf (opening policy.now) result.items }
{
    let Ok(histories) = Histories::opening(alloc, policy) else {
        panic!(rt; "no memory")
    };
    match histories.pairs(alloc) {
        Ok(pairs) => pairs,
        Err(_) => panic!(rt; "no memory"),
    }
}

// The policy for what comes after no call at all: what was held before are the homes.
fn after_nothing(rt: &impl Abort, alloc: Global, policy: Policy) -> Policy {
    let processes = policy.processes();
    assert!(rt; processes == 4 && policy.held().is_empty());
    let pairs = opening_pairs(rt, alloc, &policy);
    policy.after(pairs)
}

// In order, first by the process.
const HOMES: &[(u32, u32)] = &[(0, 0), (1, 1), (2, 2)];

const ENTERED: &[(u32, u32)] = &[(0, 0), (0, 2), (1, 1), (2, 2), (3, 3)];

#[test]
fn what_was_held_before_stays(rt: HostRuntime) {
    let policy = after_nothing(&rt, rt.alloc(), wall(&rt, rt.alloc(), BANKS_AND_OIL));
    expect_pairs(&rt, policy.held(), HOMES);
    match policy.copy(rt.alloc()) {
        Ok(copy) => {
            expect_pairs(&rt, copy.held(), HOMES);
            drop(copy);
        }
        Err(_) => panic!(&rt; "no memory"),
    }
    drop(policy);
}

#[test]
fn pairs_are_what_was_entered(rt: HostRuntime) {
    let mut histories = opened(&rt, rt.alloc());
    assert!(rt; try_enter(&mut histories, process(3), dataset(3)));
    assert!(rt; try_enter(&mut histories, process(0), dataset(2)));
    match histories.pairs(rt.alloc()) {
        Ok(pairs) => expect_pairs(&rt, &pairs, ENTERED),
        Err(_) => panic!(&rt; "no memory"),
    }
    drop(histories);
}

fn expect_star(
    rt: &impl Abort,
    histories: &Histories,
    process: ProcessId,
    label: Label,
    expected: Result<(), DatasetId>,
) {
    assert_eq!(rt; histories.star(process, label), expected);
}

#[test]
fn the_star_rule_names_the_lowest_other_dataset(rt: HostRuntime) {
    let histories = opened(&rt, rt.alloc());
    let (alpha, crude) = (dataset(0), dataset(2));
    expect_star(&rt, &histories, process(0), Label::Of(alpha), Ok(()));
    expect_star(&rt, &histories, process(0), Label::Public, Err(alpha));
    expect_star(&rt, &histories, process(3), Label::Public, Ok(()));
    expect_star(&rt, &histories, process(2), Label::Of(alpha), Err(crude));
    drop(histories);
}

fn expect_rival(
    rt: &impl Abort,
    histories: &Histories,
    process: ProcessId,
    entered: &LabelSet,
    asked: DatasetId,
    rival: Option<DatasetId>,
) {
    assert_eq!(rt; histories.clash(process, entered, asked), rival);
}

#[test]
fn a_clash_names_the_lowest_rival(rt: HostRuntime) {
    let histories = opened(&rt, rt.alloc());
    let (alpha, beta, crude) = (dataset(0), dataset(1), dataset(2));
    let nothing = LabelSet::empty();
    let mut of_alpha = LabelSet::empty();
    of_alpha.insert(alpha);
    expect_rival(&rt, &histories, process(1), &nothing, alpha, Some(beta));
    expect_rival(&rt, &histories, process(3), &of_alpha, beta, Some(alpha));
    expect_rival(&rt, &histories, process(0), &nothing, crude, None);
    expect_rival(&rt, &histories, process(0), &of_alpha, alpha, None);
    expect_rival(&rt, &histories, process(2), &nothing, dataset(1023), None);
    drop(histories);
}

// A class of two datasets, 2i and 2i + 1.
fn push_class(alloc: Global, text: &mut String, class: u32) -> Result<(), AllocError> {
    let low = 2 * u64::from(class);
    let high = low + 1;
    let lines = format!(in alloc;
        "[[class]]\nname = \"k{class}\"\ndatasets = [\"d{low}\", \"d{high}\"]\n"
    )?;
    text.push_str(lines.as_str())
}

// A process with this home.
fn push_process(alloc: Global, text: &mut String, home: u32) -> Result<(), AllocError> {
    let lines = format!(in alloc; "[[process]]\nname = \"of{home}\"\nhome = \"d{home}\"\n")?;
    text.push_str(lines.as_str())
}

// A policy of so many such classes, and two processes whose homes are these.
fn text_of_pairs(rt: &impl Abort, alloc: Global, classes: u32, homes: [u32; 2]) -> String {
    let Ok(mut text) = String::from_str(alloc, "version = 1\n") else {
        panic!(rt; "no memory")
    };
    for class in 0..classes {
        assert!(rt; push_class(alloc, &mut text, class).is_ok(), "no memory");
    }
    let [first, second] = homes;
    assert!(rt; push_process(alloc, &mut text, first).is_ok(), "no memory");
    assert!(rt; push_process(alloc, &mut text, second).is_ok(), "no memory");
    text
}

fn with_pairs(rt: &impl Abort, alloc: Global, classes: u32, homes: [u32; 2]) -> Histories {
    let text = text_of_pairs(rt, alloc, classes, homes);
    under(rt, alloc, text.as_str())
}

// In a process that has entered nothing more.
fn expect_clash(
    rt: &impl Abort,
    histories: &Histories,
    process: ProcessId,
    asked: DatasetId,
    rival: Option<DatasetId>,
) {
    expect_rival(rt, histories, process, &LabelSet::empty(), asked, rival);
}

// So many classes of two, where process 0 holds the lower dataset of the last class and process 1
// the higher one.
fn expect_clashes(rt: &impl Abort, alloc: Global, classes: u32, homes: [u32; 2]) {
    let histories = with_pairs(rt, alloc, classes, homes);
    let [low, high] = homes;
    let (low, high) = (dataset_of(rt, low), dataset_of(rt, high));
    expect_clash(rt, &histories, process(0), high, Some(low));
    expect_clash(rt, &histories, process(1), low, Some(high));
    expect_clash(rt, &histories, process(0), low, None);
    expect_clash(rt, &histories, process(0), dataset(62), None);
    expect_clash(rt, &histories, process(2), high, None);
    drop(histories);
}

// As many datasets as fill two words of a set, and as many as there can be.
#[test]
fn a_clash_is_found_up_to_the_last_dataset(rt: HostRuntime) {
    expect_clashes(&rt, rt.alloc(), 64, [126, 127]);
    expect_clashes(&rt, rt.alloc(), 512, [1022, 1023]);
}

// A dataset, and its rival, which is the only one.
const RIVALS: &[(u32, u32)] = &[
    (62, 63),
    (63, 62),
    (64, 65),
    (126, 127),
    (127, 126),
    (128, 129),
    (1022, 1023),
    (1023, 1022),
];

fn expect_sole_rival(rt: &impl Abort, histories: &Histories, of: DatasetId, rival: DatasetId) {
    let mut rivals = LabelSet::empty();
    histories.add_rivals(of, &mut rivals);
    assert_eq!(rt; rivals.first_other_than(None), Some(rival));
    assert_eq!(rt; rivals.first_other_than(Some(rival)), None);
    assert_eq!(rt;
        histories.has_some(process(0), &rivals),
        rival.number() == 1022
    );
    expect_rival(rt, histories, process(2), &rivals, of, Some(rival));
}

#[test]
fn the_rivals_of_a_dataset_are_added(rt: HostRuntime) {
    let histories = with_pairs(&rt, rt.alloc(), 512, [1022, 1023]);
    for (number, rival) in RIVALS {
        let (of, rival) = (dataset_of(&rt, *number), dataset_of(&rt, *rival));
        expect_sole_rival(&rt, &histories, of, rival);
    }
    drop(histories);
}

#[test]
fn what_was_entered_is_held(rt: HostRuntime) {
    let mut histories = opened(&rt, rt.alloc());
    let (alpha, beta, delta) = (dataset(0), dataset(1), dataset(3));
    assert!(rt; try_enter(&mut histories, process(3), delta));
    assert!(rt; try_enter(&mut histories, process(3), alpha));
    assert!(rt; !try_enter(&mut histories, process(3), beta));
    assert!(rt; histories.has(process(3), alpha) && !histories.has(process(2), alpha));
    expect_star(&rt, &histories, process(3), Label::Of(alpha), Err(delta));
    drop(histories);
}
