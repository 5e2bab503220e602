//! What policies mean, worked by hand from the rules.

use crate::walls::{
    BANKS_AND_INSURER, CONSULTANTS, DESKS, DESKS_OF_TWO, DESKS_OF_TWO_AS_ONE, DOUBTFUL, FOUR_BANKS,
    LONG, ONE_DESK_EACH, policy,
};
use meaning_text::meaning_text;
use policy_meaning::{Doubt, Warning, are_kept_apart, asked, most_labels, warns};
use std::process::Abort;
use std::test::Fail;
use wall_labels::{DatasetId, Op, ProcessId};
use wall_policy::Policy;

// The lines of a policy's meaning are these, and none has more than 100 columns.
fn says(rt: &(impl AllocGlobal + Abort), wall: &str, expected: &str) -> Result<(), Fail> {
    let policy = policy(rt, wall);
    let said = meaning_text(rt.alloc(), &policy);
    drop(policy);
    match said {
        Ok(text) => {
            assert_eq!(rt; text.as_slice(), expected.as_bytes());
            let mut column: u32 = 0;
            for byte in &text {
                column = if *byte == b'\n' {
                    0
                } else {
                    column.saturating_add(1)
                };
                assert!(rt; column <= 100);
            }
        }
        Err(_) => panic!(rt; "out of memory"),
    }
    Ok(())
}

#[test]
fn banks_and_an_insurer(rt: HostRuntime) -> Result<(), Fail> {
    says(
        &rt,
        BANKS_AND_INSURER,
        "banks: alpha, beta
insurers: umbra
a0 is at home at alpha
b0 is at home at beta
i0 is at home at umbra
sum is sanitised from 3 contributors and 3 datasets on
warning: sum is sanitised from fewer than 4 datasets on: \"Which number\" in POLICY.md
warning: umbra has no rival: its data may reach everybody
a0 and b0 never hold each other's data
",
    )
}

#[test]
fn consultants(rt: HostRuntime) -> Result<(), Fail> {
    says(
        &rt,
        CONSULTANTS,
        "banks: alpha, beta
oil: crude, delta
a0 is at home at alpha
b0 is at home at beta
c0 is at home at crude
consultant has no home
warning: no result is ever sanitised: there is no sanitise rule
warning: no process is at home at delta
a0 and b0 never hold each other's data
",
    )
}

#[test]
fn desks(rt: HostRuntime) -> Result<(), Fail> {
    says(
        &rt,
        DESKS,
        "banks: alpha, beta
a0 is at home at alpha
a1 is at home at alpha
b0 is at home at beta
sum is sanitised from 3 contributors and 1 dataset on
warning: sum is sanitised from 1 or 2 datasets on: a firm can learn its rival's figure
warning: sum is sanitised from fewer than 3 datasets on: \"Which number\" in POLICY.md
a0 and b0 never hold each other's data
a1 and b0 never hold each other's data
",
    )?;
    says(
        &rt,
        DESKS_OF_TWO,
        "banks: alpha, beta
a0 is at home at alpha
a1 is at home at alpha
b0 is at home at beta
sum is sanitised from 3 contributors and 3 datasets on
warning: sum is never sanitised: it takes more datasets than the processes can give data of
a0 and b0 never hold each other's data
a1 and b0 never hold each other's data
",
    )
}

// Two datasets are what two rivals give, with desks enough: each learns the other's figure.
#[test]
fn two_datasets_are_too_few(rt: HostRuntime) -> Result<(), Fail> {
    says(
        &rt,
        DESKS_OF_TWO_AS_ONE,
        "banks: alpha, beta
a0 is at home at alpha
a1 is at home at alpha
b0 is at home at beta
sum is sanitised from 3 contributors and 2 datasets on
warning: sum is sanitised from 1 or 2 datasets on: a firm can learn its rival's figure
warning: sum is sanitised from fewer than 3 datasets on: \"Which number\" in POLICY.md
a0 and b0 never hold each other's data
a1 and b0 never hold each other's data
",
    )
}

// Two banks by themselves have no three desks; a single 0 shows in a product.
#[test]
fn one_desk_each(rt: HostRuntime) -> Result<(), Fail> {
    says(
        &rt,
        ONE_DESK_EACH,
        "banks: alpha, beta, gamma
a0 is at home at alpha
b0 is at home at beta
g0 is at home at gamma
sum is sanitised from 3 contributors and 1 dataset on
prod is sanitised from 3 contributors and 1 dataset on
bxor is sanitised from 3 contributors and 1 dataset on
warning: sum is sanitised from fewer than 3 datasets on: \"Which number\" in POLICY.md
warning: prod is sanitised, though a single 0 or 1 shows in its result
a0 and b0 never hold each other's data
a0 and g0 never hold each other's data
b0 and g0 never hold each other's data
",
    )
}

#[test]
fn four_banks(rt: HostRuntime) -> Result<(), Fail> {
    says(
        &rt,
        FOUR_BANKS,
        "banks: alpha, beta, gamma, delta
a0 is at home at alpha
b0 is at home at beta
g0 is at home at gamma
d0 is at home at delta
n0 has no home
sum is sanitised from 4 contributors and 4 datasets on
warning: n0 has no home: it may write any label on a zero
a0 and b0 never hold each other's data
a0 and g0 never hold each other's data
a0 and d0 never hold each other's data
b0 and g0 never hold each other's data
b0 and d0 never hold each other's data
g0 and d0 never hold each other's data
",
    )
}

#[test]
fn each_warning(rt: HostRuntime) -> Result<(), Fail> {
    says(
        &rt,
        DOUBTFUL,
        "banks: alpha, beta, gamma
mints: umbra
ships: none
a0 is at home at alpha
n0 has no home
sum is sanitised from 4 contributors and 4 datasets on
minloc is sanitised from 2 contributors and 2 datasets on
warning: sum is never sanitised: it takes more contributors than there are processes
warning: sum is never sanitised: it takes more datasets than the processes can give data of
warning: minloc is sanitised, though its result is one member's figure
warning: minloc is sanitised from 2 contributors on: each can learn the other's figure
warning: minloc is sanitised from 1 or 2 datasets on: a firm can learn its rival's figure
warning: umbra has no rival: its data may reach everybody
warning: no process is at home at beta
warning: no process is at home at gamma
warning: no process is at home at umbra
warning: n0 has no home: it may write any label on a zero
",
    )
}

#[test]
fn long_names(rt: HostRuntime) -> Result<(), Fail> {
    says(
        &rt,
        LONG,
        "banks: alpha-alpha-alpha-alpha-alpha-32, beta-beta-beta-beta-beta-beta-32
left-left-left-left-left-left-32 is at home at alpha-alpha-alpha-alpha-alpha-32
right-right-right-right-right-32 is at home at beta-beta-beta-beta-beta-beta-32
third-third-third-third-third-32 has no home
maxloc is sanitised from 256 contributors and 256 datasets on
warning: maxloc is never sanitised: it takes more contributors than there are processes
warning: maxloc is never sanitised: it takes more datasets than the processes can give data of
left-left-left-left-left-left-32 and right-right-right-right-right-32 never hold each other's data
",
    )
}

fn expect_apart(rt: &impl Abort, policy: &Policy) {
    let a0 = ProcessId::new(0).unwrap();
    let b0 = ProcessId::new(1).unwrap();
    let n0 = ProcessId::new(4).unwrap();
    let nobody = ProcessId::new(5).unwrap();
    assert!(rt; are_kept_apart(policy, a0, b0));
    assert!(rt; are_kept_apart(policy, b0, a0));
    assert!(rt; !are_kept_apart(policy, a0, a0));
    assert!(rt; !are_kept_apart(policy, a0, n0));
    assert!(rt; !are_kept_apart(policy, a0, nobody));
}

#[test]
fn who_is_kept_apart(rt: HostRuntime) -> Result<(), Fail> {
    let policy = policy(&rt, FOUR_BANKS);
    expect_apart(&rt, &policy);
    drop(policy);
    Ok(())
}

// The datasets of one class with a process each, and those of which one alone has a process.
#[test]
fn how_many_datasets_labels_name(rt: HostRuntime) -> Result<(), Fail> {
    assert_eq!(&rt; most_labels_of(&rt, DOUBTFUL), 2);
    assert_eq!(&rt; most_labels_of(&rt, FOUR_BANKS), 4);
    assert_eq!(&rt; most_labels_of(&rt, DESKS), 2);
    Ok(())
}

fn most_labels_of(rt: &(impl AllocGlobal + Abort), wall: &str) -> u32 {
    let policy = policy(rt, wall);
    let most = most_labels(&policy);
    drop(policy);
    most
}

// Two, a figure of each class that gives some, and one for each process without a home.
#[test]
fn how_many_datasets_a_sum_should_take(rt: HostRuntime) -> Result<(), Fail> {
    assert_eq!(&rt; asked_of(&rt, DOUBTFUL), 4);
    assert_eq!(&rt; asked_of(&rt, FOUR_BANKS), 4);
    assert_eq!(&rt; asked_of(&rt, BANKS_AND_INSURER), 4);
    assert_eq!(&rt; asked_of(&rt, CONSULTANTS), 5);
    assert_eq!(&rt; asked_of(&rt, DESKS), 3);
    Ok(())
}

fn asked_of(rt: &(impl AllocGlobal + Abort), wall: &str) -> u32 {
    let policy = policy(rt, wall);
    let number = asked(&policy);
    drop(policy);
    number
}

// One question of each kind, and some that are of no dataset and no process of the policy.
fn expect_warnings(rt: &impl Abort, policy: &Policy) {
    let few_datasets = Warning::OfOperation {
        op: Op::Sum,
        doubt: Doubt::TooFewDatasets,
    };
    let of_no_rule = Warning::OfOperation {
        op: Op::Max,
        doubt: Doubt::TellsOneFigure,
    };
    assert!(rt; !warns(policy, &Warning::NothingSanitised));
    assert!(rt; warns(policy, &few_datasets));
    assert!(rt; !warns(policy, &of_no_rule));
    let dataset = DatasetId::new(3).unwrap();
    let process = ProcessId::new(1).unwrap();
    assert!(rt; warns(policy, &Warning::NoRival { dataset }));
    assert!(rt; warns(policy, &Warning::NobodysHome { dataset }));
    assert!(rt; warns(policy, &Warning::AnyLabel { process }));
    let dataset = DatasetId::new(4).unwrap();
    let process = ProcessId::new(2).unwrap();
    assert!(rt; !warns(policy, &Warning::NoRival { dataset }));
    assert!(rt; !warns(policy, &Warning::NobodysHome { dataset }));
    assert!(rt; !warns(policy, &Warning::AnyLabel { process }));
}

#[test]
fn which_warnings_are_due(rt: HostRuntime) -> Result<(), Fail> {
    let policy = policy(&rt, DOUBTFUL);
    expect_warnings(&rt, &policy);
    drop(policy);
    Ok(())
}
