//! The line of a policy's fault.
ghost use Rattle.std.specs.Prelude.{◌≡◌, ◌++◌, OnOk, codes, Some, None};
ghost use Rattle.check_text.specs.Policies.{part_text, key_text, fault_text, unnamed_text};
ghost use Rattle.check_text.specs.Policies.{kind_text, named_text, policy_sentence, policy_line};
ghost use Rattle.check_text.specs.Policies.{closed_text, tables_text, other_text};
ghost use Rattle.check_text.specs.Policies.{absent_text, absent_line, long_line};

use crate::words::{put_quoted, put_word};
use coll_text::{put, put_decimal};
use policy_places::{Found, Named, Part, Sign};
use std::alloc::AllocError;
use wall_policy::PolicyFault;

// In whose tables a key stands.
fn part_text(part: Option<Part>) -> &'static str
    ensures { result.now ≡ part_text part }
{
    match part {
        None => "",
        Some(Part::Class) => " in [[class]]",
        Some(Part::Process) => " in [[process]]",
        Some(Part::Rule) => " in [[sanitise]]",
    }
}

// The words, the key, and where it stands.
fn put_key(text: &mut Vec<u8>, words: &str, named: &Named) -> Result<(), AllocError>
    ensures { OnOk result (text.new.items ≡ text.old.items ++ key_text words.now named.now) }
{
    put(text, words)?;
    put_quoted(text, named.word.as_str().as_bytes())?;
    put(text, part_text(named.part))
}

// The word, and what is wrong with it.
fn put_fault(text: &mut Vec<u8>, named: &Named, words: &str) -> Result<(), AllocError>
    ensures { OnOk result (text.new.items ≡ text.old.items ++ fault_text named.now words.now) }
{
    put_quoted(text, named.word.as_str().as_bytes())?;
    put(text, words)
}

fn put_home(text: &mut Vec<u8>, named: &Named) -> Result<(), AllocError>
    ensures { OnOk result (text.new.items
        ≡ text.old.items ++ named_text Sign.UnknownDataset named.now) }
{
    put(text, "home ")?;
    put_fault(text, named, " is no dataset")
}

fn put_too_many(text: &mut Vec<u8>, named: &Named) -> Result<(), AllocError>
    ensures { OnOk result (text.new.items ≡ text.old.items ++ named_text Sign.TooMany named.now) }
{
    put(text, "too many ")?;
    put_word(text, named.word.as_str().as_bytes())
}

fn put_closed(text: &mut Vec<u8>, key: &[u8]) -> Result<(), AllocError>
    ensures { OnOk result (text.new.items ≡ text.old.items ++ closed_text key.now) }
{
    put_word(text, key)?;
    put(text, "]]")
}

// That a key holds no tables of its part.
fn put_tables(text: &mut Vec<u8>, key: &[u8]) -> Result<(), AllocError>
    ensures { OnOk result (text.new.items ≡ text.old.items ++ tables_text key.now) }
{
    put(text, " is not given by tables [[")?;
    put_closed(text, key)
}

fn put_no_tables(text: &mut Vec<u8>, key: &[u8]) -> Result<(), AllocError>
    ensures { OnOk result (text.new.items ≡ text.old.items ++ kind_text None key.now) }
{
    put_quoted(text, key)?;
    put_tables(text, key)
}

// That a key has another kind of value.
fn put_other(text: &mut Vec<u8>, part: Part) -> Result<(), AllocError>
    ensures { OnOk result (text.new.items ≡ text.old.items ++ other_text part) }
{
    put(text, part_text(Some(part)))?;
    put(text, " has another kind of value than it should")
}

fn put_other_kind(text: &mut Vec<u8>, part: Part, key: &[u8]) -> Result<(), AllocError>
    ensures { OnOk result (text.new.items ≡ text.old.items ++ kind_text (Some part) key.now) }
{
    put_quoted(text, key)?;
    put_other(text, part)
}

fn put_kind_of(text: &mut Vec<u8>, part: Option<Part>, key: &[u8]) -> Result<(), AllocError>
    ensures { OnOk result (text.new.items ≡ text.old.items ++ kind_text part key.now) }
{
    match part {
        None => put_no_tables(text, key),
        Some(part) => put_other_kind(text, part, key),
    }
}

// What has another kind of value.
fn put_kind(text: &mut Vec<u8>, named: &Named) -> Result<(), AllocError>
    ensures { OnOk result
        (text.new.items ≡ text.old.items ++ named_text Sign.OtherKind named.now) }
{
    put_kind_of(text, named.part, named.word.as_str().as_bytes())
}

// What is said where nothing is named.
fn unnamed_text(sign: Sign) -> &'static str
    ensures { result.now ≡ unnamed_text sign }
{
    match sign {
        Sign::NotToml => "the file is no TOML from here on",
        Sign::Version => "the version is neither 1 nor 2",
        _ => "the policy has a fault here",
    }
}

fn put_named(text: &mut Vec<u8>, sign: Sign, named: &Named) -> Result<(), AllocError>
    ensures { OnOk result (text.new.items ≡ text.old.items ++ named_text sign named.now) }
{
    match sign {
        Sign::FileKey | Sign::StrayKey | Sign::UnknownKey => {
            put_key(text, "unknown key ", named)
        }
        Sign::Lacking => put_key(text, "missing key ", named),
        Sign::BadName => put_fault(text, named, " may not be a name here"),
        Sign::DuplicateName => put_fault(text, named, " stands twice"),
        Sign::UnknownDataset => put_home(text, named),
        Sign::BadOp => put_fault(text, named, " is no operation"),
        Sign::BadLeast => put_fault(text, named, " is out of its range"),
        Sign::TooMany => put_too_many(text, named),
        Sign::OtherKind => put_kind(text, named),
        Sign::NotToml | Sign::Version => put(text, unnamed_text(sign)),
    }
}

fn put_policy_sentence(
    text: &mut Vec<u8>,
    sign: Sign,
    named: &Option<Named>,
) -> Result<(), AllocError>
    ensures { OnOk result (text.new.items ≡ text.old.items ++ policy_sentence sign named.now) }
{
    match named {
        Some(named) => put_named(text, sign, named),
        None => put(text, unnamed_text(sign)),
    }
}

/// Appends the line of a policy's fault: `PATH:LINE: ` and a sentence, which has the word that is
/// named there in quotes, as `script_lines` shows words.
pub fn put_policy_line(
    text: &mut Vec<u8>,
    path: &str,
    found: Found,
    named: &Option<Named>,
) -> Result<(), AllocError>
    ensures { OnOk result
        (text.new.items ≡ text.old.items ++ policy_line path.now found named.now) }
{
    put(text, path)?;
    put(text, ":")?;
    put_decimal(text, found.line)?;
    put(text, ": ")?;
    put_policy_sentence(text, found.sign, named)?;
    put(text, "\n")
}

// What the file lacks.
fn absent_text(fault: PolicyFault) -> &'static str
    ensures { result.now ≡ absent_text fault }
{
    match fault {
        PolicyFault::BadVersion => "there is no version",
        PolicyFault::MissingKey => "there is no [[process]]",
        _ => "the policy has a fault",
    }
}

/// Appends the line of a policy's fault that stands on no line: `PATH: ` and what the file lacks, a
/// `version` or each `process`.
pub fn put_absent_line(text: &mut Vec<u8>, path: &str, fault: PolicyFault) -> Result<(), AllocError>
    ensures { OnOk result (text.new.items ≡ text.old.items ++ absent_line path.now fault) }
{
    put(text, path)?;
    put(text, ": ")?;
    put(text, absent_text(fault))?;
    put(text, "\n")
}

/// Appends the line of a policy of more bytes than a fault's line is looked for in.
pub fn put_long_line(text: &mut Vec<u8>, path: &str, limit: u64) -> Result<(), AllocError>
    ensures { OnOk result (text.new.items ≡ text.old.items ++ long_line path.now limit) }
{
    put(text, path)?;
    put(text, ": no line is looked for in more than ")?;
    put_decimal(text, limit)?;
    put(text, " bytes\n")
}
