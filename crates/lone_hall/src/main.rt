//! A hall by itself: it is called from one thread, and answers one call after another. `README.md`
//! walks through it.
#![tactic(auto)]

ghost use Rattle.std.specs.Prelude.{◌≡◌, IfOk, OnOk};
ghost use Rattle.wall_policy.specs.Policy.{ChineseWall};
ghost use Rattle.lone_hall.specs.Told.{HasTold, IsToldOfRun};

use anyhow::{Result, bail};
use hall_core::Hall;
use hall_script::{read_call, write_reply};
use std::alloc::Global;
use std::io::Write;
use wall_policy::{Policy, read_policy};

// Two banks that are rivals, and an auditor.
const POLICY: &str = "version = 2
class = [{ name = \"banks\", datasets = [\"alpha\", \"beta\"] }]
process = [{ name = \"a0\", home = \"alpha\" }, { name = \"b0\", home = \"beta\" }, { name = \"n0\" }]
";

// The bank alpha sends a number to the auditor, who would then pass it on: first as public, and then
// as what it is.
const CALLS: &[&str] = &[
    "post 0 0 gatherv 2 int64 as alpha 120",
    "post 1 0 gatherv 2 int64",
    "take 2 0",
    "post 2 0 gatherv 2 int64",
    "take 2 0",
    "post 2 0 bcast 2 int64 1 as public 120",
    "post 0 0 bcast 2 int64 1",
    "post 1 0 bcast 2 int64 1",
    "take 0 1",
    "post 2 0 bcast 2 int64 1 as alpha 120",
    "post 0 0 bcast 2 int64 1",
    "post 1 0 bcast 2 int64 1",
    "take 1 2",
];

// Makes the call that a line says, and appends the line of its reply.
fn make(alloc: Global, hall: &mut Hall, line: &str, told: &mut Vec<u8>) -> Result<()>
    ensures told { HasTold hall.old told.old.items → OnOk result (HasTold hall.new told.new.items) }
    ensures policy { hall.new.policy ≡ hall.old.policy }
{
    let Ok(call) = read_call(alloc, hall.policy(), line.as_bytes()) else {
        bail!("no call: {line}");
    };
    let reply = hall.apply(call);
    write_reply(hall.policy(), &reply, told)?;
    Ok(())
}

// Opens a hall, and makes all calls.
fn run(alloc: Global, policy: Policy) -> Result<Vec<u8>>
    ensures { IfOk result (λ told. IsToldOfRun policy told.items) }
{
    let Ok(mut hall) = Hall::open(alloc, policy) else {
        bail!("out of memory");
    };
    let mut told = Vec::new(alloc);
    for line in CALLS {
        make(alloc, &mut hall, line, &mut told)?;
    }
    Ok(told)
}

fn main(rt: HostRuntime) -> Result<()> {
    let policy = read_policy(rt.alloc(), POLICY.as_bytes())?;
    let told = run(rt.alloc(), policy)?;
    Ok(rt.stdout().write_all(&told)?)
}
