//! Calls that a signal cuts short: each is made again, and nothing is lost or told twice.
use crate::disk::Refusal;
use crate::uses::{Faults, NONE, comes_so, commands, long_texts};
use std::test::Fail;

// More calls than a use of these files makes, at the files and at its output.
const CALLS: u64 = 60;

#[test]
fn calls_that_are_cut_short_are_made_again(rt: HostRuntime) -> Result<(), Fail> {
    let long = long_texts(&rt, 30)?;
    let cut = Faults {
        refusal: Refusal::Interrupted,
        ..NONE
    };
    for case in commands(&long) {
        for at in 0..CALLS {
            for faults in [Faults { files: at, ..cut }, Faults { out: at, ..cut }] {
                assert!(&rt; comes_so(&rt, &case, faults)?, "{at}");
            }
        }
    }
    Ok(())
}
