//! The pages of memory that this process has.

use std::fs;
use std::rt::Files;
use std::test::Fail;

/// The pages that this process has asked for (at place 0), and of these those that are resident
/// (1), as the system tells.
pub fn pages<R: Files + AllocGlobal>(rt: &R, place: usize) -> Result<u64, Fail> {
    let text = fs::read_to_string(rt, "/proc/self/statm")?;
    let Some(word) = text.as_str().split(' ').nth(place) else {
        return Err(Fail::from("the system tells no pages"));
    };
    match word.parse::<u64>() {
        Ok(pages) => Ok(pages),
        Err(_) => Err(Fail::from("the pages are no number")),
    }
}
