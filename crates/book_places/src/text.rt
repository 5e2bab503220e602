//! The line that tells what is found of the text of a book.
ghost use Rattle.std.specs.Prelude.{◌≡◌, ◌++◌, codes, OnOk};
ghost use Rattle.audit_book.specs.Text.{passage_word};
ghost use Rattle.book_places.specs.Owed.{IsKnownOwed};
ghost use Rattle.book_places.specs.Books.{IsKnownFound};
ghost use Rattle.book_places.specs.Sentences.{count_text, other_end_text, due_text};
ghost use Rattle.book_places.specs.Sentences.{standing_text, refused_text, other_word_text};
ghost use Rattle.book_places.specs.Sentences.{owed_text, place_text};
ghost use Rattle.book_places.specs.Sentences.{sound_text, found_line};

use crate::due::Due;
use crate::owed::{Owed, Stands};
use crate::place::Found;
use audit_book::{NoMemory, put_entry, put_header};
use coll_text::{put, put_decimal};
use hall_script::write_reply;
use run_model::{Refusal, Reply};
use std::alloc::AllocError;
use wall_policy::Policy;

// So many entries.
fn put_count(text: &mut Vec<u8>, number: u64) -> Result<(), AllocError>
    ensures { OnOk result (text.new.items ≡ text.old.items ++ count_text number) }
{
    if number == 1 {
        return put(text, "1 entry stands\n");
    }
    put_decimal(text, number)?;
    put(text, " entries stand\n")
}

fn put_other_end(text: &mut Vec<u8>, number: u64, stated: u64) -> Result<(), AllocError>
    ensures { OnOk result
        (text.new.items ≡ text.old.items ++ other_end_text number stated) }
{
    put(text, "\"end ")?;
    put_decimal(text, stated)?;
    put(text, "\" where ")?;
    put_count(text, number.saturating_sub(2))
}

// What is wrong with the line of this number.
fn put_due(text: &mut Vec<u8>, policy: &Policy, number: u64, due: Due) -> Result<(), AllocError>
    ensures { OnOk result
        (text.new.items ≡ text.old.items ++ due_text policy.now number due) }
{
    match due {
        Due::Header => {
            put(text, "due was: ")?;
            put_header(policy, text)
        }
        Due::Entry => put(text, "neither an entry nor the end\n"),
        Due::End { stated } => put_other_end(text, number, stated),
        Due::Nothing => put(text, "something stands behind the end\n"),
    }
}

fn standing_text(stands: Stands) -> &'static str
    ensures { result.now ≡ standing_text stands }
{
    match stands {
        Stands::Post => "a post stands; due was: ",
        Stands::Verdict => "another verdict stands; due was: ",
        Stands::End => "the end stands; due was: ",
    }
}

// The refusal that a post meets.
fn put_refused(text: &mut Vec<u8>, policy: &Policy, refusal: Refusal) -> Result<(), NoMemory>
    ensures { OnOk result
        (text.new.items ≡ text.old.items ++ refused_text policy.now refusal) }
{
    put(text, "a post stands that does not count: ")?;
    write_reply(policy, &Reply::Refused(refusal), text)
}

fn passage_line(barred: bool) -> &'static str
    ensures { result.now ≡ passage_word barred ++ codes "\n" }
{
    if barred { "barred\n" } else { "passed\n" }
}

// The last word that was due.
fn put_other_word(text: &mut Vec<u8>, barred: bool) -> Result<(), AllocError>
    ensures { OnOk result (text.new.items ≡ text.old.items ++ other_word_text barred) }
{
    put(text, "a post stands with another last word; due was: ")?;
    put(text, passage_line(barred))
}

// What is wrong with an entry.
fn put_owed(
    text: &mut Vec<u8>,
    policy: &Policy,
    stands: Stands,
    owed: &Owed,
) -> Result<(), NoMemory>
    requires { IsKnownOwed policy.now owed.now }
    ensures { OnOk result
        (text.new.items ≡ text.old.items ++ owed_text policy.now stands owed.now) }
{
    match owed {
        Owed::Verdict(verdict) => {
            put(text, standing_text(stands))?;
            put_entry(policy, verdict, text)
        }
        Owed::NoVerdict => Ok(put(text, "a verdict stands where none is due\n")?),
        Owed::OtherPost { refusal } => put_refused(text, policy, *refusal),
        Owed::OtherWord { barred } => Ok(put_other_word(text, *barred)?),
    }
}

// Appends `PATH:N: `.
fn put_place(text: &mut Vec<u8>, path: &str, number: u64) -> Result<(), AllocError>
    ensures { OnOk result (text.new.items ≡ text.old.items ++ place_text path.now number) }
{
    put(text, path)?;
    put(text, ":")?;
    put_decimal(text, number)?;
    put(text, ": ")
}

fn put_sound(text: &mut Vec<u8>, entries: u64) -> Result<(), AllocError>
    ensures { OnOk result
        (text.new.items ≡ text.old.items ++ sound_text entries) }
{
    put(text, "sound ")?;
    put_decimal(text, entries)?;
    put(text, "\n")
}

/// Appends the line that tells what is found of the text of a book at this path: `sound N`, or
/// `PATH:LINE: ` and what is wrong there.
pub fn put_found(
    policy: &Policy,
    path: &str,
    found: &Found,
    text: &mut Vec<u8>,
) -> Result<(), NoMemory>
    requires { IsKnownFound policy.now found.now }
    ensures { OnOk result
        (text.new.items ≡ text.old.items ++ found_line policy.now path.now found.now) }
{
    match found {
        Found::Sound { entries } => Ok(put_sound(text, *entries)?),
        Found::Line { number, due } => {
            put_place(text, path, *number)?;
            Ok(put_due(text, policy, *number, *due)?)
        }
        Found::Cut => {
            put(text, path)?;
            Ok(put(text, ": the text stops before its end\n")?)
        }
        Found::Entry {
            line,
            stands,
            owed,
            ..
        } => {
            put_place(text, path, *line)?;
            put_owed(text, policy, *stands, owed)
        }
    }
}
