//! The words of a book's lines that scripts do not have.
ghost use Rattle.std.specs.Prelude.{◌≡◌, ◌≢◌, true, IfOk, Err};
ghost use Rattle.std.specs.Str.{bytes_eq};
ghost use Rattle.run_model.specs.Books.{is_labelled_as};
ghost use Rattle.coll_text.specs.Reading.{Gives, Takes};
ghost use Rattle.audit_book.specs.Lines.{past_word, known_process, process_at, named_at, label_at};
ghost use Rattle.audit_book.specs.Lines.{given_label, either_word, barred_at, rule_at};
ghost use Rattle.audit_book.specs.Lines.{given_at, came_of, verb_of};

use coll_text::{LineFault, Parts, label_in, next_number32, next_word};
use wall_labels::{Label, ProcessId};
use wall_policy::Policy;
use wall_rules::Rule;

/// The first words of the lines behind the header.
#[derive(Clone, Copy, Debug, PartialEq, Eq)]
pub(crate) enum Verb {
    Post,
    Verdict,
    End,
}

/// The first words of outcomes.
#[derive(Clone, Copy, Debug, PartialEq, Eq)]
pub(crate) enum OutcomeWord {
    Granted,
    Denied,
    Made,
    NoRoom,
}

/// What a post gave: so many elements, as what, and whether it was barred.
#[derive(Clone, Copy, Debug)]
pub(crate) struct Given {
    pub given: u32,
    pub label: Option<Label>,
    pub barred: bool,
}

// Whether the word is this text. It is short and known where this is called, so the bytes are
// compared one after the other, without a loop.
#[inline(always)]
#[tactic(auto, using(crate::proofs::SameLemmas::is_same, crate::proofs::SameLemmas::is_other, crate::proofs::SameLemmas::is_longer))]
fn is_word(word: &[u8], text: &[u8]) -> bool
    ensures { result ≡ bytes_eq word.now text.now }
{
    if word.len() != text.len() {
        return false;
    }
    for at in 0..text.len() {
        if word[at] != text[at] {
            return false;
        }
    }
    true
}

#[tactic(auto, unfolding(crate::specs::Lines::verb_of))]
pub(crate) fn verb_in(word: &[u8]) -> Option<Verb>
    ensures { result ≡ verb_of word.now }
{
    if is_word(word, b"post") {
        Some(Verb::Post)
    } else if is_word(word, b"verdict") {
        Some(Verb::Verdict)
    } else if is_word(word, b"end") {
        Some(Verb::End)
    } else {
        None
    }
}

#[tactic(auto, unfolding(crate::specs::Lines::came_of))]
pub(crate) fn came_in(word: &[u8]) -> Option<OutcomeWord>
    ensures { result ≡ came_of word.now }
{
    if is_word(word, b"granted") {
        Some(OutcomeWord::Granted)
    } else if is_word(word, b"denied") {
        Some(OutcomeWord::Denied)
    } else if is_word(word, b"made") {
        Some(OutcomeWord::Made)
    } else if is_word(word, b"noroom") {
        Some(OutcomeWord::NoRoom)
    } else {
        None
    }
}

// Goes past this very word.
#[inline(always)]
fn pass_word(words: &mut Parts, word: &[u8]) -> Result<(), LineFault>
    ensures word { Takes (λ w. w) result words.new (past_word word.now words.old) }
    ensures memory { result ≢ Err LineFault.NoMemory }
{
    let next = next_word(words)?;
    if is_word(next, word) {
        Ok(())
    } else {
        Err(LineFault::BadShape)
    }
}

fn known_process(policy: &Policy, number: u32) -> Result<ProcessId, LineFault>
    ensures process { Gives result (known_process policy.now number) }
    ensures memory { result ≢ Err LineFault.NoMemory }
{
    if number >= policy.processes() {
        return Err(LineFault::BadField);
    }
    ProcessId::new(number).ok_or(LineFault::BadField)
}

/// A process of the policy, by its number.
pub(crate) fn next_process(policy: &Policy, words: &mut Parts) -> Result<ProcessId, LineFault>
    ensures process { Takes (λ p. p) result words.new (process_at policy.now words.old) }
    ensures memory { result ≢ Err LineFault.NoMemory }
{
    let number = next_number32(words)?;
    known_process(policy, number)
}

/// A process by its name.
pub(crate) fn next_named(policy: &Policy, words: &mut Parts) -> Result<ProcessId, LineFault>
    ensures process { Takes (λ p. p) result words.new (named_at policy.now words.old) }
    ensures memory { result ≢ Err LineFault.NoMemory }
{
    let word = next_word(words)?;
    match policy.process_named(word) {
        None => Err(LineFault::BadField),
        Some(process) => Ok(process),
    }
}

/// A label.
pub(crate) fn next_label(policy: &Policy, words: &mut Parts) -> Result<Label, LineFault>
    ensures label { Takes (λ l. l) result words.new (label_at policy.now words.old) }
    ensures memory { result ≢ Err LineFault.NoMemory }
{
    let word = next_word(words)?;
    label_in(policy, word)
}

// The label of so many elements: none where there is none.
#[tactic(auto, unfolding(crate::specs::Lines::given_label))]
fn next_given_label(
    policy: &Policy,
    given: u32,
    words: &mut Parts,
) -> Result<Option<Label>, LineFault>
    ensures label { Takes (λ l. l) result words.new (given_label policy.now given words.old) }
    ensures labelled { IfOk result (λ l. is_labelled_as given l ≡ true) }
    ensures memory { result ≢ Err LineFault.NoMemory }
{
    if given == 0 {
        pass_word(words, b"none")?;
        Ok(None)
    } else {
        let label = next_label(policy, words)?;
        Ok(Some(label))
    }
}

#[inline(always)]
fn either_word(word: &[u8], first: &[u8], second: &[u8]) -> Result<bool, LineFault>
    ensures word { Gives result (either_word first.now second.now word.now) }
    ensures memory { result ≢ Err LineFault.NoMemory }
{
    if is_word(word, first) {
        Ok(false)
    } else if is_word(word, second) {
        Ok(true)
    } else {
        Err(LineFault::BadShape)
    }
}

fn next_barred(words: &mut Parts) -> Result<bool, LineFault>
    ensures word { Takes (λ b. b) result words.new (barred_at words.old) }
    ensures memory { result ≢ Err LineFault.NoMemory }
{
    let word = next_word(words)?;
    either_word(word, b"passed", b"barred")
}

/// A rule of the wall.
pub(crate) fn next_rule(words: &mut Parts) -> Result<Rule, LineFault>
    ensures rule { Takes (λ r. r) result words.new (rule_at words.old) }
    ensures memory { result ≢ Err LineFault.NoMemory }
{
    let word = next_word(words)?;
    if either_word(word, b"star", b"simple")? {
        Ok(Rule::Simple)
    } else {
        Ok(Rule::Star)
    }
}

/// What is given, behind a kind and its fields.
#[tactic(auto, unfolding(crate::specs::Lines::given_at))]
pub(crate) fn next_given(policy: &Policy, words: &mut Parts) -> Result<Given, LineFault>
    ensures given { Takes (λ g. g) result words.new (given_at policy.now words.old) }
    ensures labelled { IfOk result (λ g. is_labelled_as g.given g.label ≡ true) }
    ensures memory { result ≢ Err LineFault.NoMemory }
{
    pass_word(words, b"gives")?;
    let given = next_number32(words)?;
    pass_word(words, b"as")?;
    let label = next_given_label(policy, given, words)?;
    let barred = next_barred(words)?;
    Ok(Given {
        given,
        label,
        barred,
    })
}
