//! Writes a kind with its fields.
ghost use Rattle.std.specs.Prelude.{◌≡◌, ◌++◌, OnOk, OnErr};
ghost use Rattle.coll_text.specs.Table.{fields_of, colour_in, key_in};
ghost use Rattle.coll_text.specs.Spellings.{list_word, flag_word, colour_word, word_of, words_of};
ghost use Rattle.coll_text.specs.Spellings.{statement_words, statement_text};
ghost use Rattle.std.specs.Fmt.{decimal};
ghost use Rattle.coll_routes.specs.Signatures.{kind};
ghost use Rattle.coll_text.specs.Spaced.{behind_each, behind_comma};
ghost use Rattle.coll_text.specs.Writing.{KeepsPrefix};

use crate::append::{put, put_behind, put_decimal, put_signed};
use crate::table::{Form, forms};
use coll_routes::{Own, Signature};
use mpi_elems::ElemType;
use std::alloc::AllocError;
use wall_labels::{NoMemory, Op};

fn own_colour(own: &Own) -> Option<i32>
    ensures { result ≡ colour_in own.now }
{
    match own {
        Own::Split { colour, .. } => *colour,
        _ => None,
    }
}

fn own_key(own: &Own) -> i32
    ensures { result ≡ key_in own.now }
{
    match own {
        Own::Split { key, .. } => *key,
        _ => 0,
    }
}

// The numbers, each behind a comma.
fn put_more_numbers(text: &mut Vec<u8>, numbers: &[u32]) -> Result<(), AllocError>
    ensures ok { OnOk result (text.new.items ≡ text.old.items ++ behind_comma decimal numbers.now) }
    ensures prefix { KeepsPrefix text.old.items text.new.items }
{
    for n in numbers {
        put_behind(text, b',', u64::from(*n))?;
    }
    Ok(())
}

#[tactic(auto, using(crate::proofs::SpacedLemmas::list_word_cons))]
fn put_numbers(text: &mut Vec<u8>, numbers: &[u32]) -> Result<(), AllocError>
    ensures ok { OnOk result (text.new.items ≡ text.old.items ++ list_word decimal numbers.now) }
    ensures prefix { KeepsPrefix text.old.items text.new.items }
{
    match numbers {
        [] => put(text, "-"),
        [first, rest @ ..] => {
            put_decimal(text, u64::from(*first))?;
            put_more_numbers(text, rest)
        }
    }
}

fn flag_text(flag: bool) -> &'static str
    ensures { result.now ≡ flag_word flag }
{
    if flag { "1" } else { "0" }
}

// The flags, each behind a comma.
fn put_more_flags(text: &mut Vec<u8>, flags: &[bool]) -> Result<(), AllocError>
    ensures ok { OnOk result (text.new.items ≡ text.old.items ++ behind_comma flag_word flags.now) }
    ensures prefix { KeepsPrefix text.old.items text.new.items }
{
    for flag in flags {
        put(text, ",")?;
        put(text, flag_text(*flag))?;
    }
    Ok(())
}

#[tactic(auto, using(crate::proofs::SpacedLemmas::list_word_cons))]
fn put_flags(text: &mut Vec<u8>, flags: &[bool]) -> Result<(), AllocError>
    ensures ok { OnOk result (text.new.items ≡ text.old.items ++ list_word flag_word flags.now) }
    ensures prefix { KeepsPrefix text.old.items text.new.items }
{
    match flags {
        [] => put(text, "-"),
        [first, rest @ ..] => {
            put(text, flag_text(*first))?;
            put_more_flags(text, rest)
        }
    }
}

fn put_colour(text: &mut Vec<u8>, colour: Option<i32>) -> Result<(), AllocError>
    ensures ok { OnOk result (text.new.items ≡ text.old.items ++ colour_word colour) }
    ensures prefix { KeepsPrefix text.old.items text.new.items }
{
    match colour {
        None => put(text, "undefined"),
        Some(colour) => put_signed(text, i64::from(colour)),
    }
}

fn put_number(text: &mut Vec<u8>, number: u32) -> Result<(), AllocError>
    ensures ok { OnOk result (text.new.items ≡ text.old.items ++ decimal number) }
    ensures prefix { KeepsPrefix text.old.items text.new.items }
{
    put_decimal(text, u64::from(number))
}

// The field of this form.
#[tactic(auto, unfolding(crate::specs::Spellings::word_of))]
fn put_field(text: &mut Vec<u8>, form: Form, sig: &Signature, own: &Own) -> Result<(), AllocError>
    ensures ok { OnOk result
        (text.new.items ≡ text.old.items ++ word_of form (fields_of sig.now own.now)) }
    ensures prefix { KeepsPrefix text.old.items text.new.items }
{
    match form {
        Form::Root => put_number(text, sig.root().unwrap_or(0)),
        Form::Operation => put(text, sig.op().unwrap_or(Op::Max).name()),
        Form::Typed => put(text, sig.elem_type().unwrap_or(ElemType::Int8).name()),
        Form::Count => put_number(text, sig.count().unwrap_or(0)),
        Form::Counts => put_numbers(text, own.counts()),
        Form::Listed => put_numbers(text, sig.numbers()),
        Form::Flagged => put_flags(text, sig.flags()),
        Form::Colour => put_colour(text, own_colour(own)),
        Form::Key => put_signed(text, i64::from(own_key(own))),
    }
}

// The fields of these forms, each behind a space.
fn put_fields(
    text: &mut Vec<u8>,
    forms: &[Form],
    sig: &Signature,
    own: &Own,
) -> Result<(), AllocError>
    ensures ok { OnOk result (text.new.items
        ≡ text.old.items ++ behind_each 32 (words_of forms.now (fields_of sig.now own.now))) }
    ensures prefix { KeepsPrefix text.old.items text.new.items }
{
    for form in forms {
        put(text, " ")?;
        put_field(text, *form, sig, own)?;
    }
    Ok(())
}

#[tactic(auto, unfolding(crate::specs::Spellings::statement_words), using(crate::proofs::SpacedLemmas::join_cons))]
fn put_statement(text: &mut Vec<u8>, sig: &Signature, own: &Own) -> Result<(), AllocError>
    ensures ok { OnOk result (text.new.items ≡ text.old.items ++ statement_text sig.now own.now) }
    ensures prefix { KeepsPrefix text.old.items text.new.items }
{
    let kind = sig.kind();
    put(text, kind.name())?;
    put_fields(text, forms(kind), sig, own)
}

/// Appends a kind and its fields, with one space between two words. Where memory ran out the text
/// is as it was.
///
/// Of a poster's own part only what the kind asks for is written: counts, or a colour and a key;
/// where it lacks that, no counts, no colour, or 0.
pub fn write_statement(sig: &Signature, own: &Own, text: &mut Vec<u8>) -> Result<(), NoMemory>
    ensures ok { OnOk result (text.new.items ≡ text.old.items ++ statement_text sig.now own.now) }
    ensures err { OnErr result (text.new.items ≡ text.old.items) }
{
    let len = text.len();
    match put_statement(text, sig, own) {
        Ok(()) => Ok(()),
        Err(refused) => {
            text.truncate(len);
            Err(NoMemory::from(refused))
        }
    }
}
