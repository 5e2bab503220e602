//! Noninterference between two worlds, as functions that do nothing: two legal runs whose calls
//! differ in the values of elements alone.
ghost use Rattle.std.specs.Prelude.{◌≡◌, true, pos};
ghost use Rattle.run_model.specs.RunRows.{relayed, summed, two_offers, barred_allgather};
ghost use Rattle.run_model.specs.Worlds.{ValuesDecideNothing, PrefixesOfWorldsAreWorlds};
ghost use Rattle.run_model.specs.Worlds.{WhoHoldsNothingLearnsNothing, NoQuestionTellsWorldsApart};
ghost use Rattle.run_model.specs.Worlds.{RivalsLearnNothing, HomesOfRivalsSeeNothing};
ghost use Rattle.run_model.specs.WorldRows.{Worlds, Alike, LookAlike, replies_in, sum_is_spared};

/// The wall goes by no value: where calls are equal but for values, verdicts, histories and books
/// are equal at each turn, and the replies are equal but for numbers in deliveries.
pub fn values_decide_nothing()
    ensures { ValuesDecideNothing }
{}

/// The runs with which two worlds begin are two worlds.
#[tactic(auto, using(crate::proofs::WorldsLemmas::prefixes_of_worlds_are_worlds))]
pub fn prefixes_of_worlds_are_worlds()
    ensures { PrefixesOfWorldsAreWorlds }
{}

/// Who doesn't hold a dataset after the first of two worlds that are alike outside it sees the same
/// in both: the same replies, with the numbers of deliveries but for those that are sanitised for
/// it with a contributor of that dataset.
pub fn who_holds_nothing_learns_nothing()
    ensures { WhoHoldsNothingLearnsNothing }
{
    coll_values::laws::values_are_of_routed_ranks();
}

/// So no question about what it sees has another answer in the other world.
pub fn no_question_tells_worlds_apart()
    ensures { NoQuestionTellsWorldsApart }
{
    coll_values::laws::values_are_of_routed_ranks();
}

/// Who holds a dataset sees the same in two worlds that are alike outside a rival of it.
pub fn rivals_learn_nothing()
    ensures { RivalsLearnNothing }
{
    coll_values::laws::values_are_of_routed_ranks();
}

/// Of two processes at home at rivals neither sees what the other's firm posts.
pub fn homes_of_rivals_see_nothing()
    ensures { HomesOfRivalsSeeNothing }
{
    coll_values::laws::values_are_of_routed_ranks();
}

/// Two relays of different numbers of a bank are alike outside it, though who passes the number on
/// posts it once as public: so the bank's rival can't tell them apart.
pub fn two_relays()
    ensures alike { Alike 0 (relayed (pos 7)) (relayed (pos 8)) }
    ensures same { LookAlike 0 1 (relayed (pos 7)) (relayed (pos 8)) }
{
    coll_values::laws::values_are_of_routed_ranks();
}

/// Two banks offer a number each to one process, which gets the first: the second bank can't tell
/// which number that was.
pub fn two_offers()
    ensures alike { Alike 0 (two_offers (pos 10)) (two_offers (pos 99)) }
    ensures same { LookAlike 0 1 (two_offers (pos 10)) (two_offers (pos 99)) }
{
    coll_values::laws::values_are_of_routed_ranks();
}

/// Two sanitised sums of different numbers of a bank are alike outside it, and all get different
/// sums: those deliveries are spared, and in all else the bank's rival can't tell them apart.
pub fn two_sums()
    ensures alike { Alike 0 (summed (pos 5) (pos 7) (pos 19)) (summed (pos 6) (pos 7) (pos 20)) }
    ensures spared { sum_is_spared 1 ≡ true }
    ensures same { LookAlike 0 1 (summed (pos 5) (pos 7) (pos 19))
        (summed (pos 6) (pos 7) (pos 20)) }
{
    coll_values::laws::values_are_of_routed_ranks();
}

/// A barred post's numbers reach nobody: two worlds that differ in them alone have equal replies.
pub fn two_barred_posts()
    ensures alike { Alike 2 (barred_allgather (pos 4)) (barred_allgather (pos 8)) }
    ensures told { replies_in (barred_allgather (pos 4)) ≡ replies_in (barred_allgather (pos 8)) }
    ensures same { LookAlike 2 0 (barred_allgather (pos 4)) (barred_allgather (pos 8)) }
{
    coll_values::laws::values_are_of_routed_ranks();
}

/// Sums of different numbers of the oil firm are two worlds, but not alike outside the bank: who
/// posted them holds nothing of the bank, and labelled them otherwise.
pub fn two_sums_of_another()
    ensures worlds { Worlds (summed (pos 5) (pos 7) (pos 19)) (summed (pos 5) (pos 8) (pos 20)) }
    ensures unlike { ¬
        (Alike 0 (summed (pos 5) (pos 7) (pos 19)) (summed (pos 5) (pos 8) (pos 20))) }
{}
