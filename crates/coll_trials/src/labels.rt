//! Ids, labels, sets of datasets and devices in memory.
use crate::parties::dataset;
use std::process::Abort;
use wall_labels::memory::{ExpectingSink, Fuse, MemorySource};
use wall_labels::{ClassId, DatasetId, Failed, Label, LabelSet, Op, ProcessId, Source, write_all};

const PROCESSES: &[u32] = &[0, 1, 63, 64, 254, 255];

const DATASETS: &[u32] = &[0, 64, 127, 128, 1022, 1023];

#[test]
fn ids_are_the_numbers_below_their_limits(rt: HostRuntime) {
    for number in PROCESSES {
        let id = ProcessId::new(*number).expect(&rt, "a process");
        assert_eq!(rt; id.number(), *number);
    }
    for number in DATASETS {
        assert_eq!(rt; dataset_of(&rt, *number).number(), *number);
        let id = ClassId::new(*number).expect(&rt, "a class");
        assert_eq!(rt; id.number(), *number);
    }
    assert!(rt; ProcessId::new(256).is_none());
    assert!(rt; DatasetId::new(1024).is_none());
    assert!(rt; ClassId::new(1024).is_none());
    assert!(rt; ProcessId::new(u32::MAX).is_none());
}

#[test]
fn a_label_names_its_dataset_alone(rt: HostRuntime) {
    let (three, four) = (dataset(3), dataset(4));
    assert_eq!(rt; Label::Public.dataset(), None);
    assert_eq!(rt; Label::Of(three).dataset(), Some(three));
    assert!(rt; Label::Of(three).names(three));
    assert!(rt; !Label::Of(three).names(four));
    assert!(rt; !Label::Public.names(three));
}

const OPERATIONS: &[(Op, &str)] = &[
    (Op::Max, "max"),
    (Op::Min, "min"),
    (Op::Sum, "sum"),
    (Op::Prod, "prod"),
    (Op::Land, "land"),
    (Op::Lor, "lor"),
    (Op::Lxor, "lxor"),
    (Op::Band, "band"),
    (Op::Bor, "bor"),
    (Op::Bxor, "bxor"),
    (Op::Maxloc, "maxloc"),
    (Op::Minloc, "minloc"),
];

#[test]
fn operations_have_their_names(rt: HostRuntime) {
    for (op, name) in OPERATIONS {
        assert_eq!(rt; op.name(), *name);
        assert_eq!(rt; Op::named(name.as_bytes()), Some(*op));
    }
    assert_eq!(rt; Op::named(b"avg"), None);
    assert_eq!(rt; Op::named(b"Sum"), None);
}

fn expect_dataset(rt: &impl Abort, found: Option<DatasetId>, expected: Option<DatasetId>) {
    assert_eq!(rt; found, expected);
}

#[test]
fn label_sets_are_sets(rt: HostRuntime) {
    let (low, high) = (dataset(0), dataset(1023));
    let mut set = LabelSet::empty();
    expect_dataset(&rt, set.first_other_than(None), None);
    set.insert(high);
    set.insert(high);
    assert!(rt; set.contains(high) && !set.contains(low));
    expect_dataset(&rt, set.first_other_than(Some(high)), None);
    let mut other = LabelSet::empty();
    other.insert(low);
    assert!(rt; !set.meets(&other));
    set.union_with(&other);
    assert!(rt; set.meets(&other));
    expect_dataset(&rt, set.first_other_than(None), Some(low));
    expect_dataset(&rt, set.first_other_than(Some(low)), Some(high));
    assert!(rt; !other.contains(high));
}

fn dataset_of(rt: &impl Abort, number: u32) -> DatasetId {
    DatasetId::new(number).expect(rt, "a dataset")
}

// The set of one dataset.
fn only(one: DatasetId) -> LabelSet {
    let mut set = LabelSet::empty();
    set.insert(one);
    set
}

fn expect_alone(rt: &impl Abort, one: DatasetId) {
    let alone = only(one);
    expect_dataset(rt, alone.first_other_than(None), Some(one));
    expect_dataset(rt, alone.first_other_than(Some(one)), None);
}

fn expect_both(rt: &impl Abort, one: DatasetId, next: DatasetId) {
    let alone = only(one);
    let mut both = only(next);
    let is_same = one.number() == next.number();
    assert_eq!(rt; both.contains(one), is_same);
    assert_eq!(rt; both.meets(&alone), is_same);
    both.union_with(&alone);
    assert!(rt; both.contains(one) && both.contains(next));
    expect_dataset(rt, both.first_other_than(None), Some(one.min(next)));
    expect_dataset(rt, both.first_shared(&alone, &alone), Some(one));
    expect_dataset(rt, alone.first_shared(&LabelSet::empty(), &both), Some(one));
}

// Where words end.
const ENDS: &[u32] = &[0, 1, 62, 63, 64, 65, 126, 127, 128, 959, 960, 1022, 1023];

const OTHER_ENDS: &[u32] = &[63, 64, 127, 960, 1023];

// Each dataset alone, and each with another one.
#[test]
fn sets_hold_the_datasets_at_the_ends_of_words(rt: HostRuntime) {
    for number in ENDS {
        let one = dataset_of(&rt, *number);
        expect_alone(&rt, one);
        for other in OTHER_ENDS {
            expect_both(&rt, one, dataset_of(&rt, *other));
        }
    }
}

#[test]
fn a_source_fails_at_the_call_that_it_is_told(rt: HostRuntime) {
    let mut source = MemorySource {
        rest: b"abcde",
        fuse: Fuse::After(1),
    };
    let mut buffer = [0; 3];
    assert_eq!(rt; source.read(&mut buffer), Ok(3));
    assert_eq!(rt; buffer, *b"abc");
    assert_eq!(rt; source.read(&mut buffer), Err(Failed));
    assert_eq!(rt; source.read(&mut buffer), Ok(2));
    assert_eq!(rt; source.read(&mut buffer), Ok(0));
}

#[test]
fn a_sink_fails_at_the_call_that_it_is_told(rt: HostRuntime) {
    let mut sink = ExpectingSink {
        rest: b"abcd",
        is_same: true,
        fuse: Fuse::Whole,
    };
    assert_eq!(rt; write_all(&mut sink, b"ab"), Ok(()));
    assert!(rt; sink.is_same && sink.rest == b"cd".as_slice());
    sink.fuse = Fuse::After(0);
    assert_eq!(rt; write_all(&mut sink, b"cd"), Err(Failed));
    assert_eq!(rt; write_all(&mut sink, b"xd"), Ok(()));
    assert!(rt; !sink.is_same);
}
