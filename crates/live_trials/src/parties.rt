//! The policies of these tests. Alpha and beta are rivals, and everybody is at home with alpha.
//!
//! Who has read a policy hands it to `drop`, before each way out: where it goes out of scope by itself
//! it is taken apart in the function's own proof, which costs half a minute each time.

use std::alloc::{AllocError, Global};
use std::process::Abort;
use wall_policy::{Policy, read_policy};

/// A policy of so many processes, at home nowhere.
pub(crate) fn many(alloc: Global, processes: u32) -> Result<String, AllocError> {
    let mut text = String::new(alloc);
    text.push_str("version = 1\n")?;
    for process in 0..processes {
        write!(&mut text, "[[process]]\nname = \"p{process}\"\n")?;
    }
    Ok(text)
}

/// The policy of this text.
pub(crate) fn wall<R: Abort>(rt: &R, alloc: Global, text: &str) -> Policy {
    read_policy(alloc, text.as_bytes()).expect(rt, "the policy is not read")
}
