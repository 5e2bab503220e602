//! The words of labels and of the wall's rules.
ghost use Rattle.wall_policy.specs.Known.{IsKnownLabel};
ghost use Rattle.std.specs.Prelude.{◌≡◌, ◌≢◌, IfOk, Err};
ghost use Rattle.coll_text.specs.Words.{label_word, label_of, rule_word};

use crate::fault::LineFault;
use wall_labels::Label;
use wall_policy::Policy;
use wall_rules::Rule;

/// The label that the word says, `public` or a dataset of the policy.
#[tactic(auto, unfolding(crate::specs::Words::label_of))]
pub fn label_in(policy: &Policy, word: &[u8]) -> Result<Label, LineFault>
    ensures label { result ≡ label_of policy.now.dataset_names word.now }
    ensures known { IfOk result (IsKnownLabel policy.now) }
    ensures memory { result ≢ Err LineFault.NoMemory }
{
    if word == b"public".as_slice() {
        return Ok(Label::Public);
    }
    match policy.dataset_named_bytes(word) {
        None => Err(LineFault::BadLabel),
        Some(dataset) => Ok(Label::Of(dataset)),
    }
}

/// The word of a label of the policy.
pub fn label_text<'a>(policy: &'a Policy, label: &Label) -> &'a str
    requires { IsKnownLabel policy.now label.now }
    ensures { result.now ≡ label_word policy.now.dataset_names label.now }
{
    match label {
        Label::Public => "public",
        Label::Of(dataset) => policy.dataset_name(*dataset),
    }
}

/// The word of a rule.
pub fn rule_text(rule: Rule) -> &'static str
    ensures { result.now ≡ rule_word rule }
{
    match rule {
        Rule::Star => "star",
        Rule::Simple => "simple",
    }
}
