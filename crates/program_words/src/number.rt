//! Reads the number of calls that a session of a server may make.
ghost use Rattle.std.specs.Prelude.{◌≡◌, ◌<◌, ◌≤◌, IfNone, IfSome, length, option_map, true};
ghost use Rattle.std.specs.List.{list_all};
ghost use Rattle.program_words.specs.Number.{bound_said, calls_said, is_digit, value_after};

/// As many turns a door has: no session makes more calls.
const MOST_CALLS: u64 = 1 << 62;

fn is_digit(byte: u8) -> bool
    ensures { result ≡ is_digit byte }
{
    48 <= byte && byte <= 57
}

fn are_digits(text: &[u8]) -> bool
    ensures { result ≡ list_all is_digit text.now }
{
    text.iter().all(|byte| is_digit(*byte))
}

// The value of digits, if it is below 2^64.
fn value_of_digits(text: &str) -> Option<u64>
    requires digits { list_all is_digit text.now ≡ true }
    requires some { 0 < length text.now }
    ensures value { IfSome result (λ n. n ≡ value_after 0 text.now) }
    ensures large { IfNone result (18446744073709551616 ≤ value_after 0 text.now) }
{
    match text.parse::<u64>() {
        Ok(value) => Some(value),
        Err(_) => None,
    }
}

// A number of calls: digits, the first of them not 0, of a number up to 2^62.
fn calls_said(text: &str) -> Option<u64>
    ensures { result ≡ calls_said text.now }
{
    let bytes = text.as_bytes();
    if !are_digits(bytes) || bytes.is_empty() || bytes[0] == b'0' {
        return None;
    }
    match value_of_digits(text) {
        Some(calls) => {
            if calls <= MOST_CALLS {
                Some(calls)
            } else {
                None
            }
        }
        None => None,
    }
}

/// The bound that was said, or that there is none, where nothing was; `None` where what was said is
/// no number of calls.
pub(crate) fn bound_said(said: Option<&str>) -> Option<Option<u64>>
    ensures { result ≡ bound_said (option_map (λ t. t.now) said.entry) }
{
    match said {
        None => Some(None),
        Some(text) => match calls_said(text) {
            Some(calls) => Some(Some(calls)),
            None => None,
        },
    }
}
