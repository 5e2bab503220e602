//! The star rule at a post, and what a post that passes enters.
ghost use Rattle.std.specs.Prelude.{◌≡◌, ◌↔◌, true, IsTrue};
ghost use Rattle.wall_labels.specs.declared.ids.TheConstants.{DATASET_LIMIT};
ghost use Rattle.wall_rules.specs.Histories.{has, NobodyHoldsRivals};
ghost use Rattle.wall_rules.specs.Rules.{PassesStar, passes_star as passes_test};
ghost use Rattle.wall_verdict.specs.Star.{MayPost, star, with_label};

use super::charge::dataset_in;
use super::judge::keep_apart;
use wall_labels::{Label, LabelSet, ProcessId};
use wall_rules::Histories;

/// Whether the process may post elements with this label. A post that gives no element has no
/// label, and always passes.
pub fn passes_star(histories: &Histories, process: ProcessId, label: &Option<Label>) -> bool
    ensures test { result ≡ star (has histories.now) process label.now }
    ensures rule { IsTrue result ↔ MayPost (has histories.now) process label.now }
{
    match label {
        None => true,
        Some(label) => passes(histories, process, *label),
    }
}

#[tactic(auto, using(crate::proofs::StarLemmas::star_passed, crate::proofs::StarLemmas::star_failed))]
fn passes(histories: &Histories, process: ProcessId, label: Label) -> bool
    ensures test { result ≡ passes_test DATASET_LIMIT (has histories.now process) label }
    ensures rule { IsTrue result ↔ PassesStar (has histories.now process) label }
{
    match histories.star(process, label) {
        Ok(()) => true,
        Err(other) => {
            let _ = other.number();
            false
        }
    }
}

/// Enters the dataset of the label in the history of the process if the post passed the star rule.
/// (A write is an access.)
#[tactic(auto, using(crate::proofs::StarLemmas::nothing_entered))]
pub fn enter_passed(
    histories: &mut Histories,
    process: ProcessId,
    label: &Option<Label>,
    passed: bool,
)
    requires { passed ≡ star (has histories.old) process label.now }
    ensures pairs { has histories.new ≡ with_label (has histories.old) process label.now passed }
    ensures processes { histories.new.processes ≡ histories.old.processes }
    ensures classes { histories.new.classes ≡ histories.old.classes }
    ensures apart { NobodyHoldsRivals histories.new.classes (has histories.new) }
{
    if passed {
        enter(histories, process, label);
    }
    keep_apart(histories);
}

#[tactic(auto, using(crate::proofs::StarLemmas::entering))]
fn enter(histories: &mut Histories, process: ProcessId, label: &Option<Label>)
    requires { star (has histories.old) process label.now ≡ true }
    ensures pairs { has histories.new ≡ with_label (has histories.old) process label.now true }
    ensures processes { histories.new.processes ≡ histories.old.processes }
    ensures classes { histories.new.classes ≡ histories.old.classes }
{
    match dataset_in(label) {
        Some(dataset) => {
            // Most often it is there already.
            if !histories.has(process, dataset) {
                let mut set = LabelSet::empty();
                set.insert(dataset);
                histories.enter(process, &set);
            }
        }
        None => {}
    }
}
