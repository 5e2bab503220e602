//! What is asked of texts.
ghost use Rattle.std.specs.Prelude.{◌≡◌, is_some, true};
ghost use Rattle.std.specs.List.{list_all, list_any};
ghost use Rattle.std.specs.Str.{bytes_eq};
ghost use Rattle.wall_labels.specs.Ops.{op_of};
ghost use Rattle.wall_policy.specs.Names.{is_letter, is_name_byte, is_name, is_dataset_name};
ghost use Rattle.wall_policy.specs.Names.{is_in, comes_twice};

use crate::texts::Word;
use wall_labels::Op;
use wall_policy::NAME_LIMIT;

fn is_letter_byte(byte: u8) -> bool
    ensures { result ≡ is_letter byte }
{
    byte.is_ascii_lowercase()
}

fn may_follow(byte: u8) -> bool
    ensures { result ≡ is_name_byte byte }
{
    is_letter_byte(byte) || byte.is_ascii_digit() || byte == b'_' || byte == b'-'
}

fn all_may_follow(bytes: &[u8]) -> bool
    ensures { result ≡ list_all is_name_byte bytes.now }
{
    bytes.iter().all(|byte| may_follow(*byte))
}

pub(crate) fn is_good_name(name: &str) -> bool
    ensures { result ≡ is_name name.now }
{
    match name.as_bytes() {
        [] => false,
        [first, rest @ ..] => is_letter_byte(*first)
            && all_may_follow(rest)
            && rest.len() < NAME_LIMIT,
    }
}

pub(crate) fn is_good_dataset(name: &Word) -> bool
    ensures { result ≡ is_dataset_name name.now }
{
    let name = name.as_str();
    is_good_name(name) && name != "public" && name != "none"
}

/// Whether all have the form of a name.
pub(crate) fn are_good_names(names: &[Word]) -> bool
    ensures { result ≡ list_all is_name names.now }
{
    names.iter().all(|name| is_good_name(name.as_str()))
}

/// Whether all may be names of datasets.
pub(crate) fn are_good_datasets(names: &[Word]) -> bool
    ensures { result ≡ list_all is_dataset_name names.now }
{
    names.iter().all(|name| is_good_dataset(name))
}

pub(crate) fn is_known_op(name: &Word) -> bool
    ensures { result ≡ is_some (op_of name.now) }
{
    Op::named(name.as_str().as_bytes()).is_some()
}

/// Whether all are operations.
pub(crate) fn are_known_ops(names: &[Word]) -> bool
    ensures { result ≡ list_all (λ o. is_some (op_of o)) names.now }
{
    names.iter().all(|name| is_known_op(name))
}

fn is_same(left: &str, right: &str) -> bool
    ensures { result ≡ bytes_eq left.now right.now }
{
    left == right
}

pub(crate) fn is_in(names: &[Word], name: &Word) -> bool
    ensures { result ≡ is_in names.now name.now }
{
    names
        .iter()
        .any(|other| is_same(name.as_str(), other.as_str()))
}

/// Whether all are among these.
pub(crate) fn are_in(known: &[Word], names: &[Word]) -> bool
    ensures { result ≡ list_all (is_in known.now) names.now }
{
    names.iter().all(|name| is_in(known, name))
}

/// Whether one comes again later.
pub(crate) fn comes_twice(names: &[Word]) -> bool
    ensures { result ≡ comes_twice names.now }
{
    let mut rest = names;
    while let [first, others @ ..] = rest {
        if is_in(others, first) {
            return true;
        }
        rest = others;
    }
    false
}
