//! Policies that more than one crate of tests has. Alpha and beta are rivals in all of them.

/// One process, at home with alpha.
pub const ALONE: &str = r#"version = 1
[[class]]
name = "banks"
datasets = ["alpha", "beta"]
[[process]]
name = "p0"
home = "alpha"
"#;

/// Two processes, both at home with alpha.
pub const FRIENDS: &str = r#"version = 1
[[class]]
name = "banks"
datasets = ["alpha", "beta"]
[[process]]
name = "p0"
home = "alpha"
[[process]]
name = "p1"
home = "alpha"
"#;

/// Four processes, all at home with alpha.
pub const FOUR_OF_A_BANK: &str = r#"version = 1
[[class]]
name = "banks"
datasets = ["alpha", "beta"]
[[process]]
name = "p0"
home = "alpha"
[[process]]
name = "p1"
home = "alpha"
[[process]]
name = "p2"
home = "alpha"
[[process]]
name = "p3"
home = "alpha"
"#;

/// Datasets: 0 alpha and 1 beta of banks, 2 crude and 3 delta of oil. Processes: 0 a0, at home with
/// alpha, 1 b0 with beta, 2 c0 with crude, 3 n0 nowhere. A sum of three contributors is sanitised.
pub const BANKS_AND_OIL: &str = r#"version = 1
[[class]]
name = "banks"
datasets = ["alpha", "beta"]
[[class]]
name = "oil"
datasets = ["crude", "delta"]
[[process]]
name = "a0"
home = "alpha"
[[process]]
name = "b0"
home = "beta"
[[process]]
name = "c0"
home = "crude"
[[process]]
name = "n0"
[[sanitise]]
op = "sum"
least = 3
"#;

/// The same in version 2, where a sanitised sum takes data of three datasets too.
pub const SUMS_OF_THREE_FIRMS: &str = r#"version = 2
[[class]]
name = "banks"
datasets = ["alpha", "beta"]
[[class]]
name = "oil"
datasets = ["crude", "delta"]
[[process]]
name = "a0"
home = "alpha"
[[process]]
name = "b0"
home = "beta"
[[process]]
name = "c0"
home = "crude"
[[process]]
name = "n0"
[[sanitise]]
op = "sum"
least = 3
distinct = 3
"#;

/// The first two processes are at home with the rivals alpha and beta, and the two others are
/// consultants, at home nowhere.
pub const BANKS_AND_CONSULTANTS: &str = r#"version = 1
[[class]]
name = "banks"
datasets = ["alpha", "beta"]
[[process]]
name = "a0"
home = "alpha"
[[process]]
name = "b0"
home = "beta"
[[process]]
name = "n0"
[[process]]
name = "m0"
"#;
