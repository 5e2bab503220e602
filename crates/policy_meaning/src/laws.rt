//! What the facts and the warnings of a policy mean for every run under it. These functions do
//! nothing.
ghost use Rattle.policy_meaning.specs.Laws.{KeptApartNeverMeet, NumbersAreOfTheVerdict};
ghost use Rattle.policy_meaning.specs.Laws.{OthersAreNeverSanitised, OutOfReachIsNeverSanitised};
ghost use Rattle.policy_meaning.specs.Laws.{WarningsAgree};

use wall_verdict::laws::different_are_counted_once;

/// Of two processes that are kept apart neither ever holds data of the other's home, directly or
/// through others.
pub fn kept_apart_never_meet()
    ensures { KeptApartNeverMeet }
{}

/// From the numbers of a fact on, and from no fewer, a verdict takes a result for sanitised.
pub fn numbers_are_of_the_verdict()
    ensures { NumbersAreOfTheVerdict }
{}

/// A verdict takes no result for sanitised of an operation that no fact names.
pub fn others_are_never_sanitised()
    ensures { OthersAreNeverSanitised }
{}

/// A verdict takes no result for sanitised of an operation that is warned of as out of reach: that
/// it takes more contributors than there are processes, or more datasets than labels can name.
pub fn out_of_reach_is_never_sanitised()
    ensures { OutOfReachIsNeverSanitised }
{
    different_are_counted_once();
}

/// No warning speaks of a sanitised result of an operation that is warned of as never sanitised.
pub fn warnings_agree()
    ensures { WarningsAgree }
{}
