//! The arrays of a policy file.
ghost use Rattle.std.specs.Prelude.{◌≡◌};
ghost use Rattle.policy_places.specs.Parts.{key_of};

/// The arrays of tables that a policy file has.
#[derive(Clone, Copy, Debug, PartialEq, Eq)]
pub enum Part {
    Class,
    Process,
    Rule,
}

/// The key of the file that holds the array.
pub(crate) fn key_of(part: Part) -> &'static str
    ensures { result.now ≡ key_of part }
{
    match part {
        Part::Class => "class",
        Part::Process => "process",
        Part::Rule => "sanitise",
    }
}
