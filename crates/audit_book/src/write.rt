//! Writes a book.
ghost use Rattle.std.specs.Prelude.{◌≡◌, ◌+◌, ◌<◌, ◌++◌, All, OnOk, OnErr, IfErr};
ghost use Rattle.std.specs.Prelude.{codes, Ok};
ghost use Rattle.std.specs.Fmt.{decimal};
ghost use Rattle.std.specs.Io.KnownBytes.{Appends};
ghost use Rattle.wall_labels.specs.Known.{AppendsPrefix};
ghost use Rattle.audit_book.specs.Text.{given_word, passage_word, line_of, given_end};
ghost use Rattle.audit_book.specs.Text.{outcome_words, entry_words, header_words, header_line};
ghost use Rattle.audit_book.specs.Text.{end_words, entry_lines, book_text};
ghost use Rattle.coll_text.specs.Words.{rule_word};
ghost use Rattle.coll_text.specs.Writing.{Moves};
ghost use Rattle.audit_book.specs.Writing.{IsWriteFault};
ghost use Rattle.audit_book.specs.Reading.{book_in};
ghost use Rattle.audit_book.specs.Laws.{IsSpelled};
ghost use Rattle.run_model.specs.Known.{IsKnownIfAny, IsKnownOutcome, IsKnownEntry};

use crate::fault::WriteFault;
use crate::ranges::entry_is_spelled;
use coll_routes::Stated;
use coll_text::{label_text, put, put_behind, put_decimal, send, send_long, write_statement};
use run_model::{Entry, Outcome};
use run_state::Book;
use std::alloc::{AllocError, Global};
use wall_labels::{Label, NoMemory, Sink};
use wall_policy::Policy;
use wall_rules::Rule;

// The last word of a post's line, between a space and the line's end.
fn passage_end(barred: bool) -> &'static str
    ensures { result.now ≡ codes " " ++ passage_word barred ++ codes "\n" }
{
    if barred { " barred\n" } else { " passed\n" }
}

// The words of a denial before the name of a process.
fn denied_by(rule: Rule) -> &'static str
    ensures { result.now ≡ codes "denied " ++ rule_word rule ++ codes " " }
{
    match rule {
        Rule::Star => "denied star ",
        Rule::Simple => "denied simple ",
    }
}

fn given_text<'a>(policy: &'a Policy, label: &Option<Label>) -> &'a str
    requires { IsKnownIfAny policy.now label.now }
    ensures { result.now ≡ given_word policy.now label.now }
{
    match label {
        None => "none",
        Some(label) => label_text(policy, label),
    }
}

// A word, and two numbers with a space between them.
fn put_numbers(word: &str, first: u64, second: u64, text: &mut Vec<u8>) -> Result<(), AllocError>
    ensures { OnOk result (text.new.items
        ≡ text.old.items ++ word.now ++ decimal first ++ codes " " ++ decimal second) }
{
    put(text, word)?;
    put_decimal(text, first)?;
    put_behind(text, b' ', second)
}

// What a post gives, to the end of its line.
fn put_given(policy: &Policy, stated: &Stated, text: &mut Vec<u8>) -> Result<(), AllocError>
    requires { IsKnownIfAny policy.now stated.now.label }
    ensures { OnOk result (text.new.items ≡ text.old.items ++ given_end policy.now stated.now) }
{
    put(text, " gives ")?;
    put_decimal(text, u64::from(stated.given))?;
    put(text, " as ")?;
    put(text, given_text(policy, &stated.label))?;
    put(text, passage_end(stated.barred))
}

// An outcome to the end of its line.
fn put_outcome(policy: &Policy, outcome: &Outcome, text: &mut Vec<u8>) -> Result<(), AllocError>
    requires { IsKnownOutcome policy.now outcome.now }
    ensures { OnOk result
        (text.new.items ≡ text.old.items ++ line_of (outcome_words policy.now outcome.now)) }
{
    match outcome {
        Outcome::Granted => put(text, "granted\n"),
        Outcome::Denied {
            rule,
            process,
            label,
        } => {
            put(text, denied_by(*rule))?;
            put(text, policy.process_name(*process))?;
            put(text, " ")?;
            put(text, label_text(policy, label))?;
            put(text, "\n")
        }
        Outcome::Made { first, number } => {
            put_numbers("made ", u64::from(*first), u64::from(*number), text)?;
            put(text, "\n")
        }
        Outcome::NoRoom => put(text, "noroom\n"),
    }
}

/// Appends the line of an entry, whose processes and datasets are the policy's.
pub fn put_entry(policy: &Policy, entry: &Entry, text: &mut Vec<u8>) -> Result<(), NoMemory>
    requires { IsKnownEntry policy.now entry.now }
    ensures { OnOk result
        (text.new.items ≡ text.old.items ++ line_of (entry_words policy.now entry.now)) }
{
    match entry {
        Entry::Posted {
            process,
            comm,
            stated,
        } => {
            let process = u64::from(process.number());
            put_numbers("post ", process, u64::from(*comm), text)?;
            put(text, " ")?;
            write_statement(&stated.sig, &stated.own, text)?;
            put_given(policy, stated, text)?;
            Ok(())
        }
        Entry::Settled { comm, k, outcome } => {
            put_numbers("verdict ", u64::from(*comm), *k, text)?;
            put(text, " ")?;
            put_outcome(policy, outcome, text)?;
            Ok(())
        }
    }
}

/// The first line of a book under the policy, without its end.
pub fn header_text(policy: &Policy) -> &'static str
    ensures { result.now ≡ header_line policy.now.version }
{
    match policy.version() {
        2 => "book 2",
        _ => "book 1",
    }
}

/// Appends the first line of a book under the policy.
pub fn put_header(policy: &Policy, text: &mut Vec<u8>) -> Result<(), AllocError>
    ensures { OnOk result
        (text.new.items ≡ text.old.items ++ line_of (header_words policy.now.version)) }
{
    put(text, header_text(policy))?;
    put(text, "\n")
}

/// Appends the last line of a book of so many entries.
pub fn put_end(entries: usize, text: &mut Vec<u8>) -> Result<(), AllocError>
    ensures { OnOk result (text.new.items ≡ text.old.items ++ line_of (end_words entries)) }
{
    put(text, "end ")?;
    put_decimal(text, entries as u64)?;
    put(text, "\n")
}

// Writes the lines of the book's entries, and leaves the end of them in the text.
fn write_entries<W: Sink>(
    policy: &Policy,
    book: &Book,
    text: &mut Vec<u8>,
    sink: &mut W,
) -> Result<(), WriteFault>
    requires { All (IsKnownEntry policy.now) book.now.list }
    ensures went { OnOk result (W.failures sink.new ≡ W.failures sink.old) }
    ensures fault { IfErr result
        (λ fault. IsWriteFault fault (W.failures sink.old) (W.failures sink.new)) }
    ensures moved { OnOk result (Moves (W.contents sink.old) (W.contents sink.new)
        (text.old.items ++ entry_lines policy.now book.now.list) text.new.items) }
    ensures prefix { OnErr result (AppendsPrefix (W.contents sink.old) (W.contents sink.new)
        (text.old.items ++ entry_lines policy.now book.now.list)) }
    ensures spelled { OnOk result (All (IsSpelled policy.now) book.now.list) }
{
    for at in 0..book.len() {
        let entry = book.get(at);
        entry_is_spelled(policy, entry);
        match put_entry(policy, entry, text) {
            Ok(()) => {}
            Err(refused) => return Err(WriteFault::from(refused)),
        }
        match send_long(text, sink) {
            Ok(()) => {}
            Err(_) => return Err(WriteFault::Write),
        }
    }
    Ok(())
}

/// Writes the text of a book, whose processes and datasets are the policy's. (Own format.)
///
/// What was written is read again as this very book, unless memory runs out there.
///
/// `Write` where the writer failed, `NoMemory` where memory ran out. What was written is then the
/// prefix of the text.
#[tactic(auto, unfolding(crate::specs::Text::book_text))]
pub fn write_book<W: Sink>(
    alloc: Global,
    policy: &Policy,
    book: &Book,
    sink: &mut W,
) -> Result<(), WriteFault>
    requires { All (IsKnownEntry policy.now) book.now.list }
    ensures written { OnOk result
        (Appends (W.contents sink.old) (W.contents sink.new) (book_text policy.now book.now.list)) }
    ensures again { OnOk result
        (book_in policy.now (book_text policy.now book.now.list) ≡ Ok book.now.list) }
    ensures went { OnOk result (W.failures sink.new ≡ W.failures sink.old) }
    ensures fault { IfErr result
        (λ fault. IsWriteFault fault (W.failures sink.old) (W.failures sink.new)) }
    ensures prefix { OnErr result (AppendsPrefix (W.contents sink.old) (W.contents sink.new)
        (book_text policy.now book.now.list)) }
{
    let _ = policy.processes();
    let mut text = Vec::new(alloc);
    put_header(policy, &mut text)?;
    write_entries(policy, book, &mut text, sink)?;
    put_end(book.len(), &mut text)?;
    match send(&mut text, sink) {
        Ok(()) => Ok(()),
        Err(_) => Err(WriteFault::Write),
    }
}
