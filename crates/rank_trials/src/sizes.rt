//! Doors of the largest sizes: out of memory is no answer where memory is ample, whatever the size.
ghost use Rattle.std.specs.Prelude.{◌≡◌};
ghost use Rattle.run_model.specs.Known.{IsKnownLabel};

use crate::doors::{close, last, post, posting, put};
use crate::parties::{label, open, wall};
use coll_routes::Signature;
use coll_values::Block;
use hall_core::{Posting, Reply};
use hall_turn::{Answer, Door, Pass};
use mpi_elems::ElemType;
use std::alloc::{AllocError, Global};
use std::process::Abort;
use std::sync::Wait;
use std::test::Fail;
use wall_labels::{Label, Op};

/// A rule for each operation.
const RULES: &[&str] = &[
    "max", "min", "sum", "prod", "land", "lor", "lxor", "band", "bor", "bxor", "maxloc", "minloc",
];

/// The text of a policy of so many datasets, rivals all, and of all rules. Its one process is at
/// home with the first.
fn large(alloc: Global, datasets: u32) -> Result<String, AllocError> {
    let mut text = String::from_str(
        alloc,
        "version = 1\n[[class]]\nname = \"all\"\ndatasets = [",
    )?;
    for dataset in 0..datasets {
        write!(text, "\"d{dataset}\", ")?;
    }
    text.push_str("]\n[[process]]\nname = \"p0\"\nhome = \"d0\"\n")?;
    for op in RULES {
        write!(text, "[[sanitise]]\nop = \"{op}\"\nleast = 3\n")?;
    }
    Ok(text)
}

/// So many ones were delivered.
fn are_ones(answer: &Answer, number: usize) -> bool {
    let Answer::Reply(Reply::Delivered(delivery)) = answer else {
        return false;
    };
    match delivery.as_slice() {
        [Block::Numbers(given)] => {
            0 < number && given.len() == number && given.get(number - 1) == 1
        }
        _ => false,
    }
}

/// As many numbers as a process may give, for a sum of its own.
fn most<R: Abort>(rt: &R, alloc: Global, label: Label) -> Posting
    ensures { result.label ≡ label }
{
    let numbers: Vec<i128> = vec![in alloc; 1; 65_536].expect(rt, "no memory");
    let sum = Signature::Allreduce {
        op: Op::Sum,
        elem_type: ElemType::Int32,
        count: 65_536,
    };
    posting(rt, alloc, sum, label, &numbers)
}

/// They go into the sum, and come back.
fn sum_most<R: Wait + Abort>(rt: &R, door: &Door, pass: &mut Pass, most: Posting)
    requires door { pass.old.door ≡ door.now }
    requires label { IsKnownLabel door.now.policy most.label }
    ensures { pass.new.door ≡ door.now }
{
    post(rt, door, pass, most, 0);
    let answer = door.take(rt, pass, 0);
    assert!(rt; are_ones(&answer, 65_536));
    drop(answer);
}

/// A door under the policy of the text opens, serves and closes.
fn serve<R: Wait + Abort>(rt: &R, alloc: Global, text: &str) {
    let policy = wall(rt, alloc, text);
    let given = most(rt, alloc, label(&policy, "d0"));
    let (door, mut passes) = open(rt, alloc, policy);
    let mut pass = last(rt, &door, &mut passes);
    sum_most(rt, &door, &mut pass, given);
    put(rt, &door, &mut passes, pass);
    let hall = close(rt, door, passes);
    drop(hall);
}

#[test]
fn doors_open_under_large_policies(rt: HostRuntime) -> Result<(), Fail> {
    for datasets in [1, 511, 512, 513, 1023, 1024] {
        let text = large(rt.alloc(), datasets)?;
        serve(&rt, rt.alloc(), text.as_str());
    }
    Ok(())
}
