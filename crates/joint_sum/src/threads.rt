//! A thread for each process.
ghost use Rattle.std.specs.Prelude.{◌≡◌, ◌≤◌, [], IfOk, vec_len, vec_capacity};
ghost use Rattle.std.specs.List.{All};

use crate::firm::{Firm, play};
use crate::setting::Setting;
use anyhow::{Error, Result, bail};
use hall_turn::{Door, Pass, Passes};
use std::snapshot::Snapshot;
use std::sync::{Mutex, Wait};
use std::thread;
use std::thread::{Promise, PromisedHandle, Threads};

/// What the processes came to.
#[derive(Drop)]
pub struct Ended {
    pub passes: Passes,
    /// What each was told.
    pub told: Vec<Result<Vec<u8>>>,
}

// A thread gives back a pass of the door of the one that it was given.
#[derive(Drop)]
struct Playing(Snapshot<Pass>);

impl Promise<Firm> for Playing {
    ghost use Rattle.std.specs.Prelude.{◌≡◌};

    ghost kept_by = { λ promise firm. firm.pass.door ≡ promise.0.value.door };
}

// Plays once all threads have started: until then the lock is held. Makes no call where one was
// refused, since nobody would wait for the same posts then.
fn play_with_all<R: Wait>(setting: &Setting<R>, pass: Pass, all_started: &Mutex<bool>) -> Firm
    requires { pass.door ≡ setting.now.door.now }
    ensures { result.pass.door ≡ setting.now.door.now }
{
    let begins = *all_started.lock(setting.rt);
    if begins {
        play(setting, pass)
    } else {
        Firm {
            pass,
            told: Err(Error::msg("a thread was refused")),
        }
    }
}

// Joins all threads, and parts the passes from what was told.
fn sort_out<R: Threads>(
    rt: &R,
    door: &Door,
    handles: Vec<PromisedHandle<Firm, Playing>>,
    mut ended: Ended,
) -> Ended
    requires of { All (λ handle. handle.promise.0.value.door ≡ door.now) handles.items }
    requires passes { (ended.passes.items ≡ []) × (vec_len handles ≤ vec_capacity ended.passes) }
    requires told { (ended.told.items ≡ []) × (vec_len handles ≤ vec_capacity ended.told) }
    ensures { All (λ pass. pass.door ≡ door.now) result.passes.items }
{
    for handle in handles {
        let firm = handle.join(rt);
        ended.passes.push_reserved(firm.pass);
        ended.told.push_reserved(firm.told);
    }
    ended
}

/// All processes at the same time, each in a thread of its own. Where a thread is refused no call
/// is made.
pub fn play_all<R: Threads + Wait + Sync>(setting: &Setting<R>, passes: Passes) -> Result<Ended>
    requires { All (λ pass. pass.door ≡ setting.now.door.now) passes.items }
    ensures { IfOk result
        (λ ended. All (λ pass. pass.door ≡ setting.now.door.now) ended.passes.items) }
{
    let Setting {
        rt,
        alloc,
        door,
        policy,
    } = *setting;
    let back = Ended {
        passes: Vec::with_capacity(alloc, passes.len())?,
        told: Vec::with_capacity(alloc, passes.len())?,
    };
    let mut handles = Vec::with_capacity(alloc, passes.len())?;
    let lock = Mutex::new(false);
    let all_started = &lock;
    thread::scope(
        thread::scope_env(),
        rt,
        move |scope| -> Result<Ended>
            requires policy { policy.now ≡ door.now.policy }
            requires passes { All (λ pass. pass.door ≡ door.now) passes.items }
            requires handles { (handles.items ≡ []) × (vec_len passes ≤ vec_capacity handles) }
            requires back { (back.passes.items ≡ []) × (vec_len passes ≤ vec_capacity back.passes) }
            requires told { (back.told.items ≡ []) × (vec_len passes ≤ vec_capacity back.told) }
            ensures { IfOk result
                (λ ended. All (λ pass. pass.door ≡ door.entry.now) ended.passes.items) }
        {
            let mut begins = all_started.lock(rt);
            for pass in passes {
                let promise = Playing(Snapshot::of(&pass));
                let Ok(handle) = scope.spawn_with(
                    promise,
                    move || -> Firm
                        requires policy { policy.now ≡ door.now.policy }
                        requires pass { pass.door ≡ door.now }
                        ensures { result.pass.door ≡ door.entry.now }
                    {
                        let setting = Setting {
                            rt,
                            alloc,
                            door,
                            policy,
                        };
                        play_with_all(&setting, pass, all_started)
                    },
                ) else {
                    bail!("a thread was refused");
                };
                handles.push_reserved(handle);
            }
            *begins = true;
            drop(begins);
            Ok(sort_out(rt, door, handles, back))
        },
    )
}
