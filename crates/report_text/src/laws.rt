//! What holds of reports over years, as a function that does nothing.
ghost use Rattle.report_text.specs.GivenOnce.{WhatIsHeldWasGivenOnce, WhatWasGivenIsHeld};

use run_model::post_laws::holding_is_history;

/// Over a chain of books, each sound under its own policy after those before it: whatever is held
/// before under the policy after them, but at a home, has exactly one line among those of what the
/// runs gave; and what is not held before has none.
pub fn what_is_held_was_given_once()
    ensures once { WhatIsHeldWasGivenOnce }
    ensures held { WhatWasGivenIsHeld }
{
    holding_is_history();
}
