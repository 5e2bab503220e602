//! Worked runs: lists of calls whose replies are those that are due, and of three the same with one
//! reply that is wrong. The functions do nothing.
ghost use Rattle.run_model.specs.Holding.{Holds};
ghost use Rattle.run_model.specs.RunRows.{LegalList, listed_posts, banks_and_oil, four_of_alpha};
ghost use Rattle.run_model.specs.RunRows.{alpha, denied_broadcast, barred_gather};
ghost use Rattle.run_model.specs.RunRows.{relayed_broadcast, four_rivals, sanitised_sum};
ghost use Rattle.run_model.specs.RunRows.{split_by_colours, neighbours_of_a_grid, parts_of_a_grid};
ghost use Rattle.run_model.specs.RunRows.{refused_calls, wrapped_reductions, short_of_memory};
ghost use Rattle.run_model.specs.RunRows.{neighbours_of_oneself, ties_and_prefixes, told_of_denial};
ghost use Rattle.run_model.specs.RunRows.{posted_after_denial};
ghost use Rattle.std.specs.Prelude.{[], ◌∷◌, pos, negsuc};
ghost use Rattle.wall_labels.specs.declared.label.Label.TheVariants.{Public};
ghost use Rattle.coll_values.specs.declared.delivery.Block.TheVariants.{Numbers};
ghost use Rattle.wall_rules.specs.declared.rule.Rule.TheVariants.{Simple};
ghost use Rattle.run_model.specs.declared.reply.Reply.TheVariants.{Posted, Barred, Delivered};
ghost use Rattle.run_model.specs.declared.reply.Reply.TheVariants.{Denied, Refused};
ghost use Rattle.run_model.specs.declared.refusal.Refusal.TheVariants.{NoMemory};

/// Nobody gets one bank's numbers in a broadcast that would reach its rival, and the denial is
/// charged to nobody.
#[tactic(auto, using(crate::proofs::RunRowProofs::denied_broadcast_is_legal))]
pub fn denied_broadcast()
    ensures { LegalList banks_and_oil denied_broadcast }
{}

/// A post that fails the star rule is barred, counts, and denies its gather to all.
#[tactic(auto, using(crate::proofs::RunRowProofs::barred_gather_is_legal))]
pub fn barred_gather()
    ensures { LegalList banks_and_oil barred_gather }
{}

/// Who got a bank's number may not pass it on as public, and may pass it on as that bank's to all
/// but the bank's rival. All that get it hold it, directly or through others.
pub fn relayed_broadcast()
    ensures legal { LegalList banks_and_oil relayed_broadcast }
    ensures holds { Holds banks_and_oil (listed_posts relayed_broadcast) 3 0 }
    ensures reached { Holds banks_and_oil (listed_posts relayed_broadcast) 2 0 }
    ensures spared { ¬ (Holds banks_and_oil (listed_posts relayed_broadcast) 1 0) }
{}

/// Where several may not get what they would get, the lowest receiver is named, and its first such
/// label.
#[tactic(auto, using(crate::proofs::RunRowProofs::four_rivals_is_legal))]
pub fn four_rivals()
    ensures { LegalList banks_and_oil four_rivals }
{}

/// A sum of as many datasets as the policy asks is sanitised: all get it, and it is charged to
/// nobody.
#[tactic(auto, using(crate::proofs::RunRowProofs::sanitised_sum_is_legal))]
pub fn sanitised_sum()
    ensures { LegalList banks_and_oil sanitised_sum }
{}

/// A split makes a communicator for each colour, in the order of colours, and none for who states
/// none.
#[tactic(auto, using(crate::proofs::RunRowProofs::split_by_colours_is_legal))]
pub fn split_by_colours()
    ensures { LegalList four_of_alpha split_by_colours }
{}

/// Neighbours in a grid, where one dimension wraps and the other has edges.
#[tactic(auto, using(crate::proofs::RunRowProofs::neighbours_of_a_grid_is_legal))]
pub fn neighbours_of_a_grid()
    ensures { LegalList four_of_alpha neighbours_of_a_grid }
{}

/// A grid is duplicated and cut into rows, and its members ask about what they are in.
pub fn parts_of_a_grid()
    ensures { LegalList four_of_alpha parts_of_a_grid }
{}

/// A call is refused for the first reason that holds, and what was begun goes on as before.
#[tactic(auto, using(crate::proofs::RunRowProofs::refused_calls_is_legal))]
pub fn refused_calls()
    ensures { LegalList four_of_alpha refused_calls }
{}

/// Sums and products wrap at the type's width, and truth is 0 or 1.
pub fn wrapped_reductions()
    ensures { LegalList four_of_alpha wrapped_reductions }
{}

/// A post and a take that find no memory count nowhere, and may be made again. A denial needs no
/// memory.
pub fn short_of_memory()
    ensures legal { LegalList four_of_alpha short_of_memory }
    ensures wrong { ¬ (LegalList banks_and_oil (told_of_denial (Refused NoMemory))) }
{}

/// What goes to the positive neighbour arrives in its negative slot, also where both neighbours are
/// one, or oneself.
pub fn neighbours_of_oneself()
    ensures { LegalList four_of_alpha neighbours_of_oneself }
{}

/// Of equal values the one of the lower index wins, and nothing comes before the first rank.
pub fn ties_and_prefixes()
    ensures { LegalList four_of_alpha ties_and_prefixes }
{}

/// All members are told of a denial: none of them gets its numbers, even where it could have had
/// them.
pub fn a_denial_delivers_to_nobody()
    ensures legal { LegalList banks_and_oil (told_of_denial (Denied Simple 1 alpha)) }
    ensures wrong { ¬ (LegalList banks_and_oil
        (told_of_denial (Delivered (Numbers (pos 7 ∷ negsuc 0 ∷ []) ∷ [])))) }
{}

/// A denial is charged to nobody: who would have got what it may not have may post as before.
pub fn a_denial_charges_nobody()
    ensures legal { LegalList banks_and_oil (posted_after_denial (Posted 1)) }
    ensures wrong { ¬ (LegalList banks_and_oil (posted_after_denial (Barred 1 Public))) }
{}
