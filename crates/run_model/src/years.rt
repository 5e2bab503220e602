//! The law over years, and the policy of a later day, as functions that do nothing.
ghost use Rattle.run_model.specs.Years.{OverYears, GrownPoliciesGoOn};

/// The law over years. Over a chain of books, each sound under its own policy after those before
/// it, and any legal run under the policy after them, nobody ever held two who were rivals under
/// any of these policies, directly or through others. What is held from before was had once: at a
/// home, or by an entry of one of the books. And whatever is held goes back, through deliveries of
/// all the years, to a home or to what somebody wrote.
pub fn over_years()
    ensures { OverYears }
{}

/// The policy of a later file that has grown from the policy of a book goes on from it: what was
/// held at the book's end can be what was held before under it, and with that it is the policy after
/// the book. Its least numbers are its own.
pub fn grown_policies_go_on()
    ensures { GrownPoliciesGoOn }
{}
