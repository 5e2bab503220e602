//! The policies of the tests: worked ones of `docs/policies`, and some at which warnings are due.
//!
//! Who has read a policy hands it to `drop`, before each way out: where it goes out of scope by itself
//! it is taken apart in the function's own proof, which costs half a minute each time.

use std::process::Abort;
use wall_policy::{Policy, read_policy};

// Two banks that compete, and an insurer.
pub(crate) const BANKS_AND_INSURER: &str = r#"version = 2
[[class]]
name = "banks"
datasets = ["alpha", "beta"]
[[class]]
name = "insurers"
datasets = ["umbra"]
[[process]]
name = "a0"
home = "alpha"
[[process]]
name = "b0"
home = "beta"
[[process]]
name = "i0"
home = "umbra"
[[sanitise]]
op = "sum"
least = 3
distinct = 3
"#;

// Nothing is sanitised, and nobody is at home at delta.
pub(crate) const CONSULTANTS: &str = r#"version = 2
[[class]]
name = "banks"
datasets = ["alpha", "beta"]
[[class]]
name = "oil"
datasets = ["crude", "delta"]
[[process]]
name = "a0"
home = "alpha"
[[process]]
name = "b0"
home = "beta"
[[process]]
name = "c0"
home = "crude"
[[process]]
name = "consultant"
"#;

// Three desks of two banks, in version 1.
pub(crate) const DESKS: &str = r#"version = 1
[[class]]
name = "banks"
datasets = ["alpha", "beta"]
[[process]]
name = "a0"
home = "alpha"
[[process]]
name = "a1"
home = "alpha"
[[process]]
name = "b0"
home = "beta"
[[sanitise]]
op = "sum"
least = 3
"#;

// The same in version 2: three datasets are asked where there are two.
pub(crate) const DESKS_OF_TWO: &str = r#"version = 2
[[class]]
name = "banks"
datasets = ["alpha", "beta"]
[[process]]
name = "a0"
home = "alpha"
[[process]]
name = "a1"
home = "alpha"
[[process]]
name = "b0"
home = "beta"
[[sanitise]]
op = "sum"
least = 3
distinct = 3
"#;

// The same with two: a result of both banks is sanitised.
pub(crate) const DESKS_OF_TWO_AS_ONE: &str = r#"version = 2
[[class]]
name = "banks"
datasets = ["alpha", "beta"]
[[process]]
name = "a0"
home = "alpha"
[[process]]
name = "a1"
home = "alpha"
[[process]]
name = "b0"
home = "beta"
[[sanitise]]
op = "sum"
least = 3
distinct = 2
"#;

// Three banks with one process each, in version 1: three contributors are always three banks. Of a
// product, and of what each bank's flag says, one value tells.
pub(crate) const ONE_DESK_EACH: &str = r#"version = 1
[[class]]
name = "banks"
datasets = ["alpha", "beta", "gamma"]
[[process]]
name = "a0"
home = "alpha"
[[process]]
name = "b0"
home = "beta"
[[process]]
name = "g0"
home = "gamma"
[[sanitise]]
op = "sum"
least = 3
[[sanitise]]
op = "prod"
least = 3
[[sanitise]]
op = "bxor"
least = 3
"#;

// Four banks of one class, each with a process, and one more without a home.
pub(crate) const FOUR_BANKS: &str = r#"version = 2
[[class]]
name = "banks"
datasets = ["alpha", "beta", "gamma", "delta"]
[[process]]
name = "a0"
home = "alpha"
[[process]]
name = "b0"
home = "beta"
[[process]]
name = "g0"
home = "gamma"
[[process]]
name = "d0"
home = "delta"
[[process]]
name = "n0"
[[sanitise]]
op = "sum"
least = 4
distinct = 4
"#;

// Where each warning is due: of `sum` that it takes four contributors and four datasets where two
// processes can name two, of `minloc` that two are enough and that it picks.
pub(crate) const DOUBTFUL: &str = r#"version = 2
[[class]]
name = "banks"
datasets = ["alpha", "beta", "gamma"]
[[class]]
name = "mints"
datasets = ["umbra"]
[[class]]
name = "ships"
datasets = []
[[process]]
name = "a0"
home = "alpha"
[[process]]
name = "n0"
[[sanitise]]
op = "minloc"
least = 2
distinct = 2
[[sanitise]]
op = "sum"
least = 4
distinct = 4
"#;

// Names of 32 bytes: the longest line has 98.
pub(crate) const LONG: &str = r#"version = 2
[[class]]
name = "banks"
datasets = ["alpha-alpha-alpha-alpha-alpha-32", "beta-beta-beta-beta-beta-beta-32"]
[[process]]
name = "left-left-left-left-left-left-32"
home = "alpha-alpha-alpha-alpha-alpha-32"
[[process]]
name = "right-right-right-right-right-32"
home = "beta-beta-beta-beta-beta-beta-32"
[[process]]
name = "third-third-third-third-third-32"
[[sanitise]]
op = "maxloc"
least = 256
distinct = 256
"#;

// Reads the policy.
pub(crate) fn policy(rt: &(impl AllocGlobal + Abort), wall: &str) -> Policy {
    match read_policy(rt.alloc(), wall.as_bytes()) {
        Ok(policy) => policy,
        Err(_) => panic!(rt; "the policy is not read"),
    }
}
