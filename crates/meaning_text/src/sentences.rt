//! The line of each fact and of each warning.
ghost use Rattle.std.specs.Prelude.{◌≡◌, ◌<◌, ◌++◌, OnOk, IfOk, IfSome, All, length};
ghost use Rattle.std.specs.List.{flat_map};
ghost use Rattle.meaning_text.specs.Sentences.{class_text, members_text, home_text};
ghost use Rattle.meaning_text.specs.Sentences.{pair_text, datasets_text, counts_text};
ghost use Rattle.meaning_text.specs.Sentences.{numbers_text, fact_text, number_text, asked_text};
ghost use Rattle.meaning_text.specs.Sentences.{doubt_text, warning_text, fact_line, is_pair, plain_line};
ghost use Rattle.meaning_text.specs.Sentences.{pair_line, warning_line, IsMeaning};
ghost use Rattle.std.specs.Prelude.{codes, if◌then◌else◌};
ghost use Rattle.wall_labels.specs.Ops.{op_name};
ghost use Rattle.policy_meaning.specs.Known.{IsKnownFact, IsKnownWarning};

use coll_text::{put, put_decimal};
use policy_meaning::{Doubt, Fact, Warning, asked, facts, warnings};
use std::alloc::{AllocError, Global};
use wall_labels::{ClassId, DatasetId, NoMemory, Op};
use wall_policy::Policy;

// Two words one after the other.
fn put_two(text: &mut Vec<u8>, first: &str, second: &str) -> Result<(), AllocError>
    ensures { OnOk result (text.new.items ≡ text.old.items ++ (first.now ++ second.now)) }
{
    put(text, first)?;
    put(text, second)
}

// A name behind others, or the first.
fn put_next(text: &mut Vec<u8>, is_first: bool, name: &str) -> Result<(), AllocError>
    ensures { OnOk result (text.new.items ≡ text.old.items
        ++ (if is_first then name.now else codes ", " ++ name.now)) }
{
    if !is_first {
        put(text, ", ")?;
    }
    put(text, name)
}

// The datasets of the class by name, with commas between them.
fn put_members(text: &mut Vec<u8>, policy: &Policy, class: ClassId) -> Result<(), AllocError>
    ensures { OnOk result (text.new.items ≡ text.old.items ++ members_text policy.now class) }
{
    let mut is_first = true;
    for number in 0..policy.datasets() {
        let dataset = DatasetId::new(number).unwrap();
        if policy.class_of(dataset).number() == class.number() {
            put_next(text, is_first, policy.dataset_name(dataset))?;
            is_first = false;
        }
    }
    if is_first {
        return put(text, "none");
    }
    Ok(())
}

// The class, with its datasets.
#[tactic(auto, using(crate::proofs::NameLemmas::name_is))]
fn put_class(text: &mut Vec<u8>, policy: &Policy, class: ClassId) -> Result<(), AllocError>
    requires { class < length policy.now.class_names }
    ensures { OnOk result (text.new.items ≡ text.old.items ++ class_text policy.now class) }
{
    put_two(text, policy.class_name(class), ": ")?;
    put_members(text, policy, class)
}

fn put_home(text: &mut Vec<u8>, process: &str, dataset: &str) -> Result<(), AllocError>
    ensures { OnOk result (text.new.items ≡ text.old.items ++ home_text process.now dataset.now) }
{
    put(text, process)?;
    put(text, " is at home at ")?;
    put(text, dataset)
}

fn put_pair(text: &mut Vec<u8>, left: &str, right: &str) -> Result<(), AllocError>
    ensures { OnOk result (text.new.items ≡ text.old.items ++ pair_text left.now right.now) }
{
    put(text, left)?;
    put(text, " and ")?;
    put(text, right)?;
    put(text, " never hold each other's data")
}

fn put_datasets(text: &mut Vec<u8>, number: u32) -> Result<(), AllocError>
    ensures { OnOk result (text.new.items ≡ text.old.items ++ datasets_text number) }
{
    if number == 1 {
        return put(text, "1 dataset");
    }
    put_decimal(text, u64::from(number))?;
    put(text, " datasets")
}

fn put_counts(text: &mut Vec<u8>, least: u32, distinct: u32) -> Result<(), AllocError>
    ensures { OnOk result (text.new.items ≡ text.old.items ++ counts_text least distinct) }
{
    put_decimal(text, u64::from(least))?;
    put(text, " contributors and ")?;
    put_datasets(text, distinct)
}

fn put_numbers(text: &mut Vec<u8>, op: Op, least: u32, distinct: u32) -> Result<(), AllocError>
    ensures { OnOk result (text.new.items ≡ text.old.items ++ numbers_text op least distinct) }
{
    put(text, op.name())?;
    put(text, " is sanitised from ")?;
    put_counts(text, least, distinct)?;
    put(text, " on")
}

#[tactic(auto, using(crate::proofs::NameLemmas::name_is))]
fn put_fact(text: &mut Vec<u8>, policy: &Policy, fact: &Fact) -> Result<(), AllocError>
    requires { IsKnownFact policy.now fact.now }
    ensures { OnOk result (text.new.items ≡ text.old.items ++ fact_text policy.now fact.now) }
{
    match fact {
        Fact::HasClass { class } => put_class(text, policy, *class),
        Fact::AtHome { process, dataset } => put_home(
            text,
            policy.process_name(*process),
            policy.dataset_name(*dataset),
        ),
        Fact::NoHome { process } => put_two(text, policy.process_name(*process), " has no home"),
        Fact::KeptApart { left, right } => put_pair(
            text,
            policy.process_name(*left),
            policy.process_name(*right),
        ),
        Fact::SanitisedFrom {
            op,
            least,
            distinct,
        } => put_numbers(text, *op, *least, *distinct),
    }
}

// The number that a sum should take, and where the page says why.
fn put_number(text: &mut Vec<u8>, number: u32) -> Result<(), AllocError>
    ensures { OnOk result (text.new.items ≡ text.old.items ++ number_text number) }
{
    put_decimal(text, u64::from(number))?;
    put(text, " datasets on: \"Which number\" in POLICY.md")
}

fn put_asked(text: &mut Vec<u8>, number: u32) -> Result<(), AllocError>
    ensures { OnOk result (text.new.items ≡ text.old.items ++ asked_text number) }
{
    put(text, " is sanitised from fewer than ")?;
    put_number(text, number)
}

// What is said of an operation, behind its name.
fn put_doubt(text: &mut Vec<u8>, policy: &Policy, doubt: Doubt) -> Result<(), AllocError>
    ensures { OnOk result (text.new.items ≡ text.old.items ++ doubt_text policy.now doubt) }
{
    match doubt {
        Doubt::TooFewProcesses => put(
            text,
            " is never sanitised: it takes more contributors than there are processes",
        ),
        Doubt::TooFewDatasets => put(
            text,
            " is never sanitised: it takes more datasets than the processes can give data of",
        ),
        Doubt::TellsOneFigure => put(
            text,
            " is sanitised, though its result is one member's figure",
        ),
        Doubt::ShowsThrough => put(
            text,
            " is sanitised, though a single 0 or 1 shows in its result",
        ),
        Doubt::TwoContributors => put(
            text,
            " is sanitised from 2 contributors on: each can learn the other's figure",
        ),
        Doubt::FewDatasets => put(
            text,
            " is sanitised from 1 or 2 datasets on: a firm can learn its rival's figure",
        ),
        Doubt::BelowAsked => put_asked(text, asked(policy)),
    }
}

fn put_operation(
    text: &mut Vec<u8>,
    policy: &Policy,
    op: Op,
    doubt: Doubt,
) -> Result<(), AllocError>
    ensures { OnOk result
        (text.new.items ≡ text.old.items ++ (op_name op ++ doubt_text policy.now doubt)) }
{
    put(text, op.name())?;
    put_doubt(text, policy, doubt)
}

#[tactic(auto, using(crate::proofs::NameLemmas::name_is))]
fn put_warning(text: &mut Vec<u8>, policy: &Policy, warning: &Warning) -> Result<(), AllocError>
    requires { IsKnownWarning policy.now warning.now }
    ensures { OnOk result (text.new.items ≡ text.old.items ++ warning_text policy.now warning.now) }
{
    match warning {
        Warning::NothingSanitised => {
            put(
                text,
                "no result is ever sanitised: there is no sanitise rule",
            )
        }
        Warning::OfOperation { op, doubt } => put_operation(text, policy, *op, *doubt),
        Warning::NoRival { dataset } => put_two(
            text,
            policy.dataset_name(*dataset),
            " has no rival: its data may reach everybody",
        ),
        Warning::NobodysHome { dataset } => put_two(
            text,
            "no process is at home at ",
            policy.dataset_name(*dataset),
        ),
        Warning::AnyLabel { process } => put_two(
            text,
            policy.process_name(*process),
            " has no home: it may write any label on a zero",
        ),
    }
}

fn put_fact_line(text: &mut Vec<u8>, policy: &Policy, fact: &Fact) -> Result<(), AllocError>
    requires { IsKnownFact policy.now fact.now }
    ensures { OnOk result (text.new.items ≡ text.old.items ++ fact_line policy.now fact.now) }
{
    put_fact(text, policy, fact)?;
    put(text, "\n")
}

fn is_pair(fact: &Fact) -> bool
    ensures { result ≡ is_pair fact.now }
{
    matches!(fact, Fact::KeptApart { .. })
}

fn put_plain_line(text: &mut Vec<u8>, policy: &Policy, fact: &Fact) -> Result<(), AllocError>
    requires { IsKnownFact policy.now fact.now }
    ensures { OnOk result (text.new.items ≡ text.old.items ++ plain_line policy.now fact.now) }
{
    if is_pair(fact) {
        return Ok(());
    }
    put_fact_line(text, policy, fact)
}

fn put_pair_line(text: &mut Vec<u8>, policy: &Policy, fact: &Fact) -> Result<(), AllocError>
    requires { IsKnownFact policy.now fact.now }
    ensures { OnOk result (text.new.items ≡ text.old.items ++ pair_line policy.now fact.now) }
{
    if is_pair(fact) {
        return put_fact_line(text, policy, fact);
    }
    Ok(())
}

// The facts that are no pairs.
fn put_plain(text: &mut Vec<u8>, policy: &Policy, facts: &[Fact]) -> Result<(), AllocError>
    requires { All (IsKnownFact policy.now) facts.now }
    ensures { OnOk result
        (text.new.items ≡ text.old.items ++ flat_map (plain_line policy.now) facts.now) }
{
    for fact in facts {
        put_plain_line(text, policy, fact)?;
    }
    Ok(())
}

// The pairs among the facts.
fn put_pairs(text: &mut Vec<u8>, policy: &Policy, facts: &[Fact]) -> Result<(), AllocError>
    requires { All (IsKnownFact policy.now) facts.now }
    ensures { OnOk result
        (text.new.items ≡ text.old.items ++ flat_map (pair_line policy.now) facts.now) }
{
    for fact in facts {
        put_pair_line(text, policy, fact)?;
    }
    Ok(())
}

fn put_warnings(text: &mut Vec<u8>, policy: &Policy, warnings: &[Warning]) -> Result<(), AllocError>
    requires { All (IsKnownWarning policy.now) warnings.now }
    ensures { OnOk result
        (text.new.items ≡ text.old.items ++ flat_map (warning_line policy.now) warnings.now) }
{
    for warning in warnings {
        put(text, "warning: ")?;
        put_warning(text, policy, warning)?;
        put(text, "\n")?;
    }
    Ok(())
}

/// What the policy means: a line for each fact that is no pair, one for each warning, and one for
/// each pair.
///
/// The line of a class has its name and those of all its datasets; another has at most 98 bytes,
/// its end left out, since a name has at most 32.
pub fn meaning_text(alloc: Global, policy: &Policy) -> Result<Vec<u8>, NoMemory>
    ensures { IfOk result (λ text. IsMeaning policy.now text.items) }
{
    let facts = facts(alloc, policy)?;
    let warnings = warnings(alloc, policy)?;
    let mut text = Vec::new(alloc);
    put_plain(&mut text, policy, &facts)?;
    put_warnings(&mut text, policy, &warnings)?;
    put_pairs(&mut text, policy, &facts)?;
    Ok(text)
}
