//! The policies of these tests.

/// Four processes without a home, which may all give public data.
pub(crate) const FOUR: &str = r#"version = 2
[[class]]
name = "banks"
datasets = ["alpha", "beta"]
[[process]]
name = "p0"
[[process]]
name = "p1"
[[process]]
name = "p2"
[[process]]
name = "p3"
"#;
