//! Laws over all legal runs, as functions that do nothing.
ghost use Rattle.run_model.specs.RunLaws.{PrefixesAreLegal, OneReplyIsDue, OutOfMemoryIsNeverDue};
ghost use Rattle.run_model.specs.RunLaws.{OutOfMemoryIsOfGrowth, RefusedCallsMakeNothing};
ghost use Rattle.run_model.specs.RunLaws.{TakenRequestsStayTaken, TakenRequestsWereGiven};
ghost use Rattle.run_model.specs.RunLaws.{LegalRunsMakeProper, LegalPostsCount};
ghost use Rattle.run_model.specs.RunLaws.{WordsAreOfTheStarRule, CommunicatorsStay, OutcomesStay};
ghost use Rattle.run_model.specs.RunLaws.{GrantsAreJoint, DenialsNameTheLeast};
ghost use Rattle.run_model.specs.RunLaws.{GrantsAloneAreCharged, GrantedInstancesAreWhole};
ghost use Rattle.run_model.specs.RunLaws.{DeliveriesAreOfGrants, GrantsAreDelivered};
ghost use Rattle.run_model.specs.RunLaws.{DenialsAreTold, NewCommsAreThere};
ghost use Rattle.run_model.specs.RunLaws.{ValuesAreOfRoutedElements, HistoriesGrow};
ghost use Rattle.run_model.specs.RunLaws.{LegalRunsKeepTheWall, HoldingIsHistory};
ghost use Rattle.run_model.specs.RunLaws.{NobodyHoldsTwoRivals, BooksAreSound, BooksGrow};
ghost use Rattle.run_model.specs.RunLaws.{BooksDecide, OnlyPostsMove, QuietEntriesCanBeLeftOut};

/// A run with which a legal run begins is legal.
#[tactic(auto, using(crate::proofs::RunLemmas::prefixes_are_legal))]
pub fn prefixes_are_legal()
    ensures { PrefixesAreLegal }
{}

/// One reply is due to a call after a run: who is not told of out of memory is told that one.
#[tactic(auto, using(crate::proofs::RunLemmas::one_reply_is_due))]
pub fn one_reply_is_due()
    ensures { OneReplyIsDue }
{}

/// The reply that is due is never out of memory.
#[tactic(auto, using(crate::proofs::RunLemmas::out_of_memory_is_never_due))]
pub fn out_of_memory_is_never_due()
    ensures { OutOfMemoryIsNeverDue }
{}

/// Out of memory is answered only where a post that counts or a delivery is due.
#[tactic(auto, using(crate::proofs::RunLemmas::out_of_memory_is_of_growth))]
pub fn out_of_memory_is_of_growth()
    ensures { OutOfMemoryIsOfGrowth }
{}

/// A call that is refused, that waits or that asks about a communicator changes nothing on which
/// later replies depend.
#[tactic(auto, using(crate::proofs::RunLemmas::refused_calls_make_nothing))]
pub fn refused_calls_make_nothing()
    ensures { RefusedCallsMakeNothing }
{}

/// A request that was taken stays taken.
#[tactic(auto, using(crate::proofs::RunLemmas::taken_requests_stay_taken))]
pub fn taken_requests_stay_taken()
    ensures { TakenRequestsStayTaken }
{}

/// A request that was taken had been given.
#[tactic(auto, using(crate::proofs::RunLemmas::taken_requests_were_given))]
pub fn taken_requests_were_given()
    ensures { TakenRequestsWereGiven }
{}

/// What a legal run makes is proper: its posts count, those that passed brought what they state,
/// and what was taken had been given.
#[tactic(auto, using(crate::proofs::RunLemmas::legal_runs_make_proper))]
pub fn legal_runs_make_proper()
    ensures { LegalRunsMakeProper }
{}

/// Each post that a legal run counts meets no refusal after the posts before it, and was barred
/// exactly where it fails the star rule.
#[tactic(auto, using(crate::proofs::CountLemmas::legal_posts_count))]
pub fn legal_posts_count()
    ensures { LegalPostsCount }
{}

/// A posting that was answered Posted passed the star rule at its turn, and one that was answered
/// Barred failed it.
#[tactic(auto, using(crate::proofs::RunLemmas::words_are_of_the_star_rule))]
pub fn words_are_of_the_star_rule()
    ensures { WordsAreOfTheStarRule }
{}

/// A communicator keeps its number, its group and its grid.
#[tactic(auto, using(crate::proofs::RunLemmas::communicators_stay))]
pub fn communicators_stay()
    ensures { CommunicatorsStay }
{}

/// The outcome of an instance stays, and so does the instance with its elements.
pub fn outcomes_stay()
    ensures { OutcomesStay }
{}

/// A collective is granted exactly if nobody was barred, and each member may hold all that is
/// charged to it beside what it holds.
#[tactic(auto, using(crate::proofs::RunLemmas::grants_are_joint_in_runs))]
pub fn grants_are_joint()
    ensures { GrantsAreJoint }
{}

/// A denial names the lowest rank that was barred, or else the least pair of a receiver and a
/// contributor that offends.
pub fn denials_name_the_least()
    ensures { DenialsNameTheLeast }
{}

/// A post that makes no grant enters at most its own label: a denial is charged to nobody.
#[tactic(auto, using(crate::proofs::TellLemmas::grants_alone_are_charged))]
pub fn grants_alone_are_charged()
    ensures { GrantsAloneAreCharged }
{}

/// In a granted instance each rank gave as many elements as it stated, of the signature's type.
pub fn granted_instances_are_whole()
    ensures { GrantedInstancesAreWhole }
{}

/// What is delivered is the value of a granted instance, at the caller's rank, for a request that
/// the caller has not taken yet.
#[tactic(auto, using(crate::proofs::RunLemmas::deliveries_are_of_grants))]
pub fn deliveries_are_of_grants()
    ensures { DeliveriesAreOfGrants }
{}

/// Each request of a granted instance is told its value at the caller's rank, until it is taken.
#[tactic(auto, using(crate::proofs::TellLemmas::grants_are_delivered))]
pub fn grants_are_delivered()
    ensures { GrantsAreDelivered }
{}

/// Each request of a denied instance is told the denial.
#[tactic(auto, using(crate::proofs::TellLemmas::denials_are_told))]
pub fn denials_are_told()
    ensures { DenialsAreTold }
{}

/// Who is told of a new communicator is in it, at the rank that it is told.
#[tactic(auto, using(crate::proofs::TellLemmas::new_comms_are_there))]
pub fn new_comms_are_there()
    ensures { NewCommsAreThere }
{}

/// The value of an instance at a rank depends on the elements alone that go to it.
#[tactic(auto, using(crate::proofs::RunLemmas::values_of_routed_elements))]
pub fn values_are_of_routed_elements()
    ensures { ValuesAreOfRoutedElements }
{}

/// A pair that stands in the histories stays there.
#[tactic(auto, using(crate::proofs::RunLemmas::histories_grow))]
pub fn histories_grow()
    ensures { HistoriesGrow }
{}

/// After no legal run a process has had access to two rivals.
#[tactic(auto, using(crate::proofs::RunLemmas::legal_runs_keep_the_wall))]
pub fn legal_runs_keep_the_wall()
    ensures { LegalRunsKeepTheWall }
{}

/// After each entry of a legal run a process holds, through chains of deliveries, exactly what
/// stands in its history: so a refusal always goes back to data that somebody does hold.
#[tactic(auto, using(crate::proofs::RunLemmas::holding_is_history_in_runs))]
pub fn holding_is_history()
    ensures { HoldingIsHistory }
{}

/// After no entry of a legal run a process holds two rivals, directly or through others.
#[tactic(auto, using(crate::proofs::RunLemmas::nobody_holds_two_rivals_in_runs))]
pub fn nobody_holds_two_rivals()
    ensures { NobodyHoldsTwoRivals }
{}

/// The book of a legal run is sound, and its posts are those of the run.
#[tactic(auto, using(crate::proofs::RunLemmas::books_are_sound))]
pub fn books_are_sound()
    ensures { BooksAreSound }
{}

/// The book of a run begins with the book of each run with which it begins.
#[tactic(auto, using(crate::proofs::RunLemmas::books_grow))]
pub fn books_grow()
    ensures { BooksGrow }
{}

/// The book decides: legal runs with one book have the same histories, communicators and outcomes.
pub fn books_decide()
    ensures { BooksDecide }
{}

/// An entry that counts no post, as a take, leaves posts, histories, communicators, outcomes and
/// book as they were.
pub fn only_posts_move()
    ensures { OnlyPostsMove }
{}

/// An entry that was refused, that waits or that asks can be left out of a legal run: what was
/// answered out of memory counts as not made.
pub fn quiet_entries_can_be_left_out()
    ensures { QuietEntriesCanBeLeftOut }
{}
