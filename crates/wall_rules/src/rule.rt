//! The two rules of the wall, by name.

/// A rule of the wall. (Brewer and Nash 1989.)
#[derive(Clone, Copy, Debug, PartialEq, Eq)]
pub enum Rule {
    /// The *-property: who has had access to another dataset may not write to this one.
    Star,
    /// Simple security: nobody has access to two rivals.
    Simple,
}
