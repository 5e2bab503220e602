//! The sentence of a fault, and its line.
ghost use Rattle.std.specs.Prelude.{◌≡◌, ◌++◌, OnOk};
ghost use Rattle.check_text.specs.Sentences.{complaint, subject, complaint_of, byte_text};
ghost use Rattle.check_text.specs.Sentences.{shape_of_byte, shape_text, sentence, field_complaint};
ghost use Rattle.check_text.specs.Sentences.{place_text, told_line};

use crate::words::{ends_in_space, is_printable, put_quoted, word_from};
use coll_text::{LineFault, put, put_decimal};
use script_places::{Found, process_column};
use std::alloc::AllocError;

// What is said of the word at fault, behind it.
fn complaint(fault: LineFault) -> &'static str
    ensures { result.now ≡ complaint fault }
{
    match fault {
        LineFault::BadVerb => " is no verb (post, take, info)",
        LineFault::BadShape => " is one field too many",
        LineFault::BadField => " is not in the form or range of its field",
        LineFault::BadKind => " is no kind of collective",
        LineFault::BadType => " is no type",
        LineFault::UnknownOp => " is no operation",
        LineFault::BadLabel => " is neither a dataset nor public",
        LineFault::BadNumber => " is no number of the type",
        LineFault::OddPair => " is an odd element of 2int",
        LineFault::NoMemory => " was not read: memory ran out",
    }
}

fn put_subject(text: &mut Vec<u8>, word: &[u8]) -> Result<(), AllocError>
    ensures { OnOk result (text.new.items ≡ text.old.items ++ subject word.now) }
{
    if word.is_empty() {
        return put(text, "the end of the line");
    }
    put_quoted(text, word)
}

fn put_complaint(text: &mut Vec<u8>, word: &[u8], fault: LineFault) -> Result<(), AllocError>
    ensures { OnOk result (text.new.items ≡ text.old.items ++ complaint_of word.now fault) }
{
    put_subject(text, word)?;
    put(text, complaint(fault))
}

// What is said of a field in this column, behind its word.
fn field_complaint(line: &[u8], column: u64) -> &'static str
    ensures { result.now ≡ field_complaint line.now column }
{
    if column == process_column(line) {
        " is no process of the policy"
    } else {
        complaint(LineFault::BadField)
    }
}

fn put_field(text: &mut Vec<u8>, line: &[u8], column: u64) -> Result<(), AllocError>
    ensures { OnOk result
        (text.new.items ≡ text.old.items ++ sentence LineFault.BadField line.now column) }
{
    put_subject(text, word_from(line, column))?;
    put(text, field_complaint(line, column))
}

fn put_byte(text: &mut Vec<u8>, byte: u8) -> Result<(), AllocError>
    ensures { OnOk result (text.new.items ≡ text.old.items ++ byte_text byte) }
{
    put(text, "byte ")?;
    put_decimal(text, u64::from(byte))?;
    put(text, " is not printable ASCII")
}

// What is wrong with a field that begins with this byte.
fn put_shape_of_byte(text: &mut Vec<u8>, word: &[u8], byte: u8) -> Result<(), AllocError>
    ensures { OnOk result (text.new.items ≡ text.old.items ++ shape_of_byte word.now byte) }
{
    if !is_printable(byte) {
        return put_byte(text, byte);
    }
    if byte == b' ' {
        return put(text, "an empty field: one space too many");
    }
    put_complaint(text, word, LineFault::BadShape)
}

fn put_shape(text: &mut Vec<u8>, line: &[u8], column: u64) -> Result<(), AllocError>
    ensures { OnOk result (text.new.items ≡ text.old.items ++ shape_text line.now column) }
{
    let before = column.saturating_sub(1) as usize;
    if before < line.len() {
        return put_shape_of_byte(text, word_from(line, column), line[before]);
    }
    if ends_in_space(line) {
        return put(text, "an empty field: the line ends in a space");
    }
    put(text, "a field is missing at the end of the line")
}

fn put_sentence(
    text: &mut Vec<u8>,
    fault: LineFault,
    line: &[u8],
    column: u64,
) -> Result<(), AllocError>
    ensures { OnOk result (text.new.items ≡ text.old.items ++ sentence fault line.now column) }
{
    match fault {
        LineFault::BadShape => put_shape(text, line, column),
        LineFault::OddPair => put(text, "an odd number of elements for 2int"),
        LineFault::BadField => put_field(text, line, column),
        _ => put_complaint(text, word_from(line, column), fault),
    }
}

fn put_place(text: &mut Vec<u8>, path: &str, found: &Found) -> Result<(), AllocError>
    ensures { OnOk result (text.new.items ≡ text.old.items ++ place_text path.now found.now) }
{
    put(text, path)?;
    put(text, ":")?;
    put_decimal(text, found.line)?;
    put(text, ":")?;
    put_decimal(text, found.column)?;
    put(text, ": ")
}

/// Appends the line of a fault that was found in this line of a script.
pub(crate) fn put_line(
    text: &mut Vec<u8>,
    path: &str,
    line: &[u8],
    found: &Found,
) -> Result<(), AllocError>
    ensures { OnOk result
        (text.new.items ≡ text.old.items ++ told_line path.now line.now found.now) }
{
    put_place(text, path, found)?;
    put_sentence(text, found.fault, line, found.column)?;
    put(text, "\n")
}
