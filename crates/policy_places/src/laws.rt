//! What holds of all documents. These functions do nothing.
ghost use Rattle.policy_places.specs.Laws.{SignsAreFaults, MissingIsFound, NowhereIsAbsent};
ghost use Rattle.policy_places.specs.Laws.{WordsAreNamed};

/// In a document that lacks no key, and whose keys hold their kinds of value, the signs of its
/// names and numbers are there exactly where it has their faults.
pub fn signs_are_faults()
    ensures { SignsAreFaults }
{}

/// A document that lacks a key, or has one with another kind of value, shows a sign of that, unless
/// it has no `process`.
pub fn missing_is_found()
    ensures { MissingIsFound }
{}

/// Each fault has its line, but that of a document that has no `version`, and of one that has no
/// `process`.
pub fn nowhere_is_absent()
    ensures { NowhereIsAbsent }
{}

/// Where a fault has its line there is a word of it, but of a text that is no TOML and of a version
/// that is not read.
pub fn words_are_named()
    ensures { WordsAreNamed }
{}
