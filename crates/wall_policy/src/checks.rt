//! What is asked of the names and numbers of a policy file.
ghost use Rattle.std.specs.Prelude.{◌≡◌, is_some, true};
ghost use Rattle.std.specs.List.{list_all};
ghost use Rattle.wall_labels.specs.Ops.{op_of};
ghost use Rattle.wall_policy.specs.Names.{is_letter, is_name_byte, is_name, is_dataset_name};
ghost use Rattle.wall_policy.specs.Checks.{is_named_class, is_good_least, is_good_distinct};
ghost use Rattle.wall_policy.specs.Checks.{is_good_rule, is_home};

use crate::names::NameTable;
use crate::plain::{ClassText, ProcessText, RuleText, Word};
use wall_labels::{Op, PROCESS_LIMIT};

/// The most bytes of a name.
pub const NAME_LIMIT: usize = 32;

fn is_letter_byte(byte: u8) -> bool
    ensures { result ≡ is_letter byte }
{
    byte.is_ascii_lowercase()
}

fn may_follow(byte: u8) -> bool
    ensures { result ≡ is_name_byte byte }
{
    is_letter_byte(byte) || byte.is_ascii_digit() || byte == b'_' || byte == b'-'
}

fn all_may_follow(bytes: &[u8]) -> bool
    ensures { result ≡ list_all is_name_byte bytes.now }
{
    bytes.iter().all(|byte| may_follow(*byte))
}

/// Whether the text has the form of a name.
pub(crate) fn is_good_name(name: &str) -> bool
    ensures { result ≡ is_name name.now }
{
    match name.as_bytes() {
        [] => false,
        [first, rest @ ..] => is_letter_byte(*first)
            && all_may_follow(rest)
            && rest.len() < NAME_LIMIT,
    }
}

fn is_good_dataset(name: &Word) -> bool
    ensures { result ≡ is_dataset_name name.now }
{
    let name = name.as_str();
    is_good_name(name) && name != "public" && name != "none"
}

fn are_good_datasets(names: &[Word]) -> bool
    ensures { result ≡ list_all is_dataset_name names.now }
{
    names.iter().all(|name| is_good_dataset(name))
}

fn is_good_class(class: &ClassText) -> bool
    ensures { result ≡ is_named_class class.now }
{
    is_good_name(class.name.as_str()) && are_good_datasets(class.datasets.as_slice())
}

pub(crate) fn are_good_classes(classes: &[ClassText]) -> bool
    ensures { result ≡ list_all is_named_class classes.now }
{
    classes.iter().all(|class| is_good_class(class))
}

fn is_good_process(process: &ProcessText) -> bool
    ensures { result ≡ is_name process.now.name }
{
    is_good_name(process.name.as_str())
}

pub(crate) fn are_good_processes(processes: &[ProcessText]) -> bool
    ensures { result ≡ list_all (λ p. is_name p.name) processes.now }
{
    processes.iter().all(|process| is_good_process(process))
}

fn is_good_least(rule: &RuleText) -> bool
    ensures { result ≡ is_good_least rule.now.least }
{
    2 <= rule.least && rule.least <= i64::from(PROCESS_LIMIT)
}

fn is_good_distinct(rule: &RuleText) -> bool
    requires { is_good_least rule.now.least ≡ true }
    ensures { result ≡ is_good_distinct rule.now.least rule.now.distinct }
{
    1 <= rule.distinct && rule.distinct <= rule.least
}

fn is_good_rule(rule: &RuleText) -> bool
    ensures { result ≡ is_good_rule rule.now }
{
    is_good_least(rule) && is_good_distinct(rule)
}

pub(crate) fn are_good_leasts(rules: &[RuleText]) -> bool
    ensures { result ≡ list_all is_good_rule rules.now }
{
    rules.iter().all(|rule| is_good_rule(rule))
}

fn is_known_rule(rule: &RuleText) -> bool
    ensures { result ≡ is_some (op_of rule.now.op) }
{
    Op::named(rule.op.as_str().as_bytes()).is_some()
}

pub(crate) fn are_known_rules(rules: &[RuleText]) -> bool
    ensures { result ≡ list_all (λ r. is_some (op_of r.op)) rules.now }
{
    rules.iter().all(|rule| is_known_rule(rule))
}

fn is_known_home(datasets: &NameTable, process: &ProcessText) -> bool
    ensures { result ≡ is_home datasets.now process.now.home }
{
    match &process.home {
        Some(home) => datasets.has(home.as_str()),
        None => true,
    }
}

pub(crate) fn are_known_homes(datasets: &NameTable, processes: &[ProcessText]) -> bool
    ensures { result ≡ list_all (λ p. is_home datasets.now p.home) processes.now }
{
    processes
        .iter()
        .all(|process| is_known_home(datasets, process))
}
