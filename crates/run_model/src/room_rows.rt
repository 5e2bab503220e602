//! Worked outcomes where the last communicators are made. The functions do nothing.
ghost use Rattle.run_model.specs.RoomRows.{LastIsMade, OneMoreHasNoRoom, NothingNeedsNoRoom};

/// Where 1,023 communicators are there, a duplicate is made, and is the last.
pub fn last_is_made()
    ensures { LastIsMade }
{}

/// Where 1,024 are there, a duplicate has no room.
pub fn one_more_has_no_room()
    ensures { OneMoreHasNoRoom }
{}

/// A subgroup of nobody makes no communicator, and always has room.
pub fn nothing_needs_no_room()
    ensures { NothingNeedsNoRoom }
{}
