//! Four processes compute a sum together through the library: a policy, a door, a thread for each
//! process, and the audit of the book. `README.md` walks through it.
#![tactic(auto)]

ghost use Rattle.std.specs.Prelude.{◌≡◌, IfOk};
ghost use Rattle.std.specs.List.{All};
ghost use Rattle.wall_policy.specs.Policy.{ChineseWall};
ghost use Rattle.joint_sum.specs.Reports.{IsReportOfRun, IsSomeReport};

mod firm;
mod printed;
mod reports;
mod setting;
mod threads;

use anyhow::{Result, bail};
use hall_turn::{Door, Passes};
use printed::{Printed, print};
use reports::report;
use setting::Setting;
use std::alloc::Global;
use std::rt::{Env, Files};
use std::sync::Wait;
use std::thread::Threads;
use std::{env, fs};
use threads::{Ended, play_all};
use wall_policy::{Policy, read_policy};

// The policy of the file that the first word names.
fn named_policy<R: Files + Env + AllocGlobal>(rt: &R) -> Result<Policy> {
    let Some(path) = env::args(rt)?.nth(1) else {
        bail!("no policy file is named");
    };
    let bytes = fs::read(rt, path.as_str())?;
    Ok(read_policy(rt.alloc(), &bytes)?)
}

// The door of a policy, with its passes. The door keeps a copy.
fn open(alloc: Global, policy: &Policy) -> Result<(Door, Passes)>
    ensures policy { IfOk result (λ opened. policy.now ≡ opened.0.policy) }
    ensures of { IfOk result (λ opened. All (λ pass. pass.door ≡ opened.0) opened.1.items) }
{
    let Ok(copy) = policy.copy(alloc) else {
        bail!("out of memory");
    };
    match Door::open(alloc, copy) {
        Ok(opened) => Ok(opened),
        Err(_) => bail!("out of memory"),
    }
}

// Closes the door, to which all passes have come back.
fn close(alloc: Global, door: Door, ended: Ended) -> Result<Vec<u8>>
    requires { All (λ pass. pass.door ≡ door) ended.passes.items }
    ensures { IfOk result (λ text.
        IsReportOfRun door.policy ended.passes.items ended.told.items text.items) }
{
    match door.close(ended.passes) {
        Ok(hall) => report(alloc, hall.policy(), hall.book(), &ended.told),
        Err(_) => bail!("a pass is missing"),
    }
}

// A door under the policy, all processes there, and what they were told.
fn run<R: Threads + Wait + Sync>(rt: &R, alloc: Global, policy: &Policy) -> Result<Vec<u8>>
    ensures { IfOk result (λ text. IsSomeReport policy.now text.items) }
{
    let (door, passes) = match open(alloc, policy) {
        Ok(opened) => opened,
        Err(fault) => return Err(fault),
    };
    let setting = Setting {
        rt,
        alloc,
        door: &door,
        policy,
    };
    match play_all(&setting, passes) {
        Ok(ended) => close(alloc, door, ended),
        Err(fault) => Err(fault),
    }
}

// What there is to print.
fn text<R: Files + Env + AllocGlobal + Threads + Wait + Sync>(rt: &R) -> Result<Vec<u8>>
    ensures { IfOk result (λ text. (wall : ChineseWall) × IsSomeReport wall text.items) }
{
    match named_policy(rt) {
        Ok(policy) => run(rt, rt.alloc(), &policy),
        Err(fault) => Err(fault),
    }
}

fn main(rt: HostRuntime) -> Printed {
    print(&mut rt.stdout(), text(&rt))
}
