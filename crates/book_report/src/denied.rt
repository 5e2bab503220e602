//! Tells of the instances that were denied, and why.
ghost use Rattle.std.specs.Prelude.{◌≡◌, ◌+◌, [], ◌∷◌, ◌++◌, OnOk};
ghost use Rattle.book_report.specs.Places.{IsPlace};
ghost use Rattle.book_report.specs.Reasons.{AreDenialsTo, HasFollowed};

use crate::denial::{Denial, Reason};
use crate::place::{Instance, Place};
use crate::reason::Judged;
use run_model::Outcome;
use run_state::{Entered, PostState};
use wall_labels::{NoMemory, ProcessId};

// Adds a denial of these parts: the entry behind the post tells it.
fn push_denial(
    denials: &mut Vec<Denial>,
    instance: &Instance<'_>,
    process: ProcessId,
    reason: Reason,
) -> Result<(), NoMemory>
    requires { IsPlace instance.now.place }
    ensures { OnOk result (denials.new.items ≡ denials.old.items ++ (record {
      entry = instance.now.place.at + 1 + 1;
      comm = instance.now.comm;
      k = instance.now.k;
      process = process;
      reason = reason;
    }) ∷ []) }
{
    let denial = Denial {
        entry: instance.place.entry() + 1,
        comm: instance.comm,
        k: instance.k,
        process,
        reason,
    };
    denials.push(denial)?;
    Ok(())
}

/// Adds what the post at this place filled, if that was denied.
pub(crate) fn add_denied(
    place: &Place<'_>,
    post_state: &PostState<()>,
    denials: &mut Vec<Denial>,
    entered: &Entered<()>,
    comm: u32,
) -> Result<(), NoMemory>
    requires { HasFollowed place.now comm post_state.now entered.now }
    ensures { OnOk result
        (AreDenialsTo place.now.policy.now place.now.book.now.list place.now.at denials.old.items →
        AreDenialsTo place.now.policy.now place.now.book.now.list (place.now.at + 1)
        denials.new.items) }
{
    let Entered::Settled { full, k, outcome } = entered else {
        return Ok(());
    };
    match outcome {
        Outcome::Granted => Ok(()),
        Outcome::Made { .. } => Ok(()),
        Outcome::NoRoom => Ok(()),
        Outcome::Denied {
            rule,
            process,
            label,
        } => {
            let instance = Instance {
                place: *place,
                comm,
                k: *k,
                roll: &full.roll,
            };
            let judged = Judged {
                instance,
                histories: post_state.histories(),
            };
            let reason = judged.reason(rule, *process, label);
            push_denial(denials, &instance, *process, reason)
        }
    }
}
