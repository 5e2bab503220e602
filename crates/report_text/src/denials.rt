//! The sentences of denials.
ghost use Rattle.std.specs.Prelude.{◌≡◌, ◌++◌, OnOk};
ghost use Rattle.std.specs.List.{flat_map};
ghost use Rattle.report_text.specs.Reasons.{coming_text, star_text, holding_text, rivals_text};
ghost use Rattle.report_text.specs.Reasons.{both_text, simple_text, reason_text, denied_text};
ghost use Rattle.report_text.specs.Reasons.{denial_line, denials_text, home_mark};

use crate::bars::put_may_not;
use crate::lines::{COLUMNS, put_folded};
use crate::rows::is_at_home;
use crate::words::{put_dataset, put_pair, put_process};
use book_report::{Denial, Reason, Source};
use coll_text::{put, put_decimal};
use std::alloc::AllocError;
use wall_labels::{DatasetId, Label, ProcessId};
use wall_policy::Policy;

// How many columns are left behind the two that a folded line begins with.
const INNER: usize = COLUMNS - 2;

// Data, who gave it, and by which post.
#[derive(Clone, Copy)]
struct Coming {
    dataset: DatasetId,
    giver: ProcessId,
    given: u64,
}

fn put_coming(
    text: &mut Vec<u8>,
    policy: &Policy,
    comes: &str,
    coming: Coming,
) -> Result<(), AllocError>
    ensures { OnOk result (text.new.items ≡ text.old.items
        ++ coming_text policy.now coming.dataset comes.now coming.giver coming.given) }
{
    put_dataset(text, policy, coming.dataset)?;
    put(text, comes)?;
    put_process(text, policy, coming.giver)?;
    put(text, " by entry ")?;
    put_decimal(text, coming.given)
}

// A post that was barred: its entry, who posted it, and with which label.
#[derive(Clone, Copy)]
struct Barred {
    post: u64,
    process: ProcessId,
    label: Label,
}

// By the star rule: whose post was barred.
fn put_star(text: &mut Vec<u8>, policy: &Policy, star: &Barred) -> Result<(), AllocError>
    ensures { OnOk result (text.new.items ≡ text.old.items
        ++ star_text policy.now star.now.process star.now.label star.now.post) }
{
    let mut barred = Vec::new(*text.allocator());
    put(&mut barred, "entry ")?;
    put_decimal(&mut barred, star.post)?;
    put(&mut barred, " was barred;")?;
    let mut may_not = Vec::new(*text.allocator());
    put_may_not(&mut may_not, policy, star.process, &star.label)?;
    put_folded(text, INNER, &barred, &may_not)
}

// What a process would get, and the rival of that.
#[derive(Clone, Copy)]
struct Offence {
    process: ProcessId,
    coming: Coming,
    rival: DatasetId,
}

// Marks a dataset that is the home of who holds it.
fn put_home_mark(
    text: &mut Vec<u8>,
    policy: &Policy,
    process: ProcessId,
    dataset: DatasetId,
) -> Result<(), AllocError>
    ensures { OnOk result
        (text.new.items ≡ text.old.items ++ home_mark policy.now process dataset) }
{
    if is_at_home(policy, process, dataset) {
        return put(text, " (home)");
    }
    Ok(())
}

// By the simple rule: the process holds the rival.
fn put_holding(text: &mut Vec<u8>, policy: &Policy, offence: &Offence) -> Result<(), AllocError>
    ensures { OnOk result (text.new.items ≡ text.old.items
        ++ holding_text policy.now offence.now.process offence.now.coming.dataset
        offence.now.coming.giver offence.now.coming.given offence.now.rival) }
{
    let mut holds = Vec::new(*text.allocator());
    put_process(&mut holds, policy, offence.process)?;
    put(&mut holds, " holds ")?;
    put_dataset(&mut holds, policy, offence.rival)?;
    put_home_mark(&mut holds, policy, offence.process, offence.rival)?;
    put(&mut holds, ";")?;
    let mut comes = Vec::new(*text.allocator());
    put_coming(&mut comes, policy, " would come from ", offence.coming)?;
    put_folded(text, INNER, &holds, &comes)
}

// Two rivals that would come.
fn put_rivals(
    text: &mut Vec<u8>,
    policy: &Policy,
    first: Coming,
    second: Coming,
) -> Result<(), AllocError>
    ensures { OnOk result (text.new.items ≡ text.old.items ++ rivals_text policy.now
        second.dataset second.giver second.given first.dataset first.giver first.given) }
{
    let mut rival = Vec::new(*text.allocator());
    put_coming(&mut rival, policy, " from ", first)?;
    put(&mut rival, ",")?;
    let mut comes = Vec::new(*text.allocator());
    put_coming(&mut comes, policy, " from ", second)?;
    put_folded(text, INNER, &rival, &comes)
}

// By the simple rule: the process would get the rival too, as `beside` tells.
fn put_both(
    text: &mut Vec<u8>,
    policy: &Policy,
    offence: &Offence,
    beside: Coming,
) -> Result<(), AllocError>
    ensures { OnOk result (text.new.items ≡ text.old.items
        ++ both_text policy.now offence.now.process offence.now.coming.dataset
        offence.now.coming.giver offence.now.coming.given
        beside.dataset beside.giver beside.given) }
{
    let mut gets = Vec::new(*text.allocator());
    put_process(&mut gets, policy, offence.process)?;
    put(&mut gets, " would get two rivals:")?;
    let mut rivals = Vec::new(*text.allocator());
    put_rivals(&mut rivals, policy, beside, offence.coming)?;
    put_folded(text, INNER, &gets, &rivals)
}

fn put_simple(
    text: &mut Vec<u8>,
    policy: &Policy,
    offence: &Offence,
    source: Source,
) -> Result<(), AllocError>
    ensures { OnOk result (text.new.items ≡ text.old.items
        ++ simple_text policy.now offence.now.process offence.now.coming.dataset
        offence.now.coming.giver offence.now.coming.given offence.now.rival source) }
{
    match source {
        Source::Held => put_holding(text, policy, offence),
        Source::Beside { giver, given } => {
            let beside = Coming {
                dataset: offence.rival,
                giver,
                given,
            };
            put_both(text, policy, offence, beside)
        }
    }
}

/// Why an instance was denied, for which the rule names this process. What has no room in 98
/// columns is folded.
pub fn put_reason(
    text: &mut Vec<u8>,
    policy: &Policy,
    process: ProcessId,
    reason: &Reason,
) -> Result<(), AllocError>
    ensures { OnOk result
        (text.new.items ≡ text.old.items ++ reason_text policy.now process reason.now) }
{
    match reason {
        Reason::Star { label, post } => {
            let star = Barred {
                post: *post,
                process,
                label: *label,
            };
            put_star(text, policy, &star)
        }
        Reason::Simple {
            dataset,
            giver,
            given,
            rival,
            source,
        } => {
            let coming = Coming {
                dataset: *dataset,
                giver: *giver,
                given: *given,
            };
            let offence = Offence {
                process,
                coming,
                rival: *rival,
            };
            put_simple(text, policy, &offence, *source)
        }
    }
}

fn put_denied(text: &mut Vec<u8>, comm: u32, k: u64) -> Result<(), AllocError>
    ensures { OnOk result (text.new.items ≡ text.old.items ++ denied_text comm k) }
{
    put(text, "instance ")?;
    put_pair(text, comm, k)?;
    put(text, " was denied:")
}

fn put_denial(text: &mut Vec<u8>, policy: &Policy, denial: &Denial) -> Result<(), AllocError>
    ensures { OnOk result (text.new.items ≡ text.old.items ++ denial_line policy.now denial.now) }
{
    let mut denied = Vec::new(*text.allocator());
    put_denied(&mut denied, denial.comm, denial.k)?;
    let mut reason = Vec::new(*text.allocator());
    put_reason(&mut reason, policy, denial.process, &denial.reason)?;
    put_folded(text, COLUMNS, &denied, &reason)?;
    put(text, "\n")
}

fn put_denial_lines(
    text: &mut Vec<u8>,
    policy: &Policy,
    denials: &[Denial],
) -> Result<(), AllocError>
    ensures { OnOk result
        (text.new.items ≡ text.old.items ++ flat_map (denial_line policy.now) denials.now) }
{
    for denial in denials {
        put_denial(text, policy, denial)?;
    }
    Ok(())
}

/// A sentence for each denial, in their order.
pub(crate) fn put_denials(
    text: &mut Vec<u8>,
    policy: &Policy,
    denials: &[Denial],
) -> Result<(), AllocError>
    ensures { OnOk result (text.new.items ≡ text.old.items ++ denials_text policy.now denials.now) }
{
    put(text, "\nwhy instances were denied:\n")?;
    put_denial_lines(text, policy, denials)
}
