//! Worked runs of each kind: what each rank is delivered. The functions do nothing.
ghost use Rattle.std.specs.Prelude.{[], ◌∷◌, pos};
ghost use Rattle.coll_values.specs.declared.delivery.Block.TheVariants.{Missing, Numbers};
ghost use Rattle.run_model.specs.declared.refusal.Refusal.TheVariants.{NoSuchComm, NotMember};
ghost use Rattle.run_model.specs.declared.reply.Reply.TheVariants.{Delivered};
ghost use Rattle.run_model.specs.declared.reply.Reply.TheVariants.{Info, Refused};
ghost use Rattle.run_model.specs.RunRows.{LegalList, four_of_alpha};
ghost use Rattle.run_model.specs.KindRows.{gathers, scatters, exchanges};
ghost use Rattle.run_model.specs.KindRows.{reductions_by_root_and_block, all_gather_and_wait};
ghost use Rattle.run_model.specs.KindRows.{neighbours_of_a_line, empty_and_reordered};

/// A gather gives the root one block of each rank, in order of rank, and the others none.
pub fn gathers()
    ensures legal { LegalList four_of_alpha (gathers (Delivered [])) }
    ensures wrong_1 { ¬ (LegalList four_of_alpha
        (gathers (Delivered (Numbers (pos 1 ∷ pos 2 ∷ []) ∷ Numbers [] ∷ Numbers (pos 3
        ∷ []) ∷ Numbers (pos 4 ∷ pos 5 ∷ pos 6 ∷ []) ∷ [])))) }
    ensures wrong_2 { ¬ (LegalList four_of_alpha (gathers (Delivered (Numbers [] ∷ [])))) }
{}

/// A scatter gives each rank its block of what the root gave.
pub fn scatters()
    ensures legal { LegalList four_of_alpha (scatters (Delivered (Numbers (pos 65535 ∷ []) ∷ []))) }
    ensures wrong_1 { ¬ (LegalList four_of_alpha
        (scatters (Delivered (Numbers (pos 3 ∷ []) ∷ [])))) }
    ensures wrong_2 { ¬ (LegalList four_of_alpha (scatters (Delivered []))) }
{}

/// In an exchange each rank gets the block that each other meant for it, in order of rank.
pub fn exchanges()
    ensures legal { LegalList four_of_alpha
        (exchanges (Delivered (Numbers (pos 6 ∷ pos 7 ∷ []) ∷ Numbers [] ∷ Numbers (pos 4
        ∷ []) ∷ Numbers (pos 9 ∷ []) ∷ []))) }
    ensures wrong_1 { ¬ (LegalList four_of_alpha
        (exchanges (Delivered (Numbers [] ∷ Numbers [] ∷ Numbers (pos 4 ∷ [])
        ∷ Numbers (pos 9 ∷ []) ∷ [])))) }
    ensures wrong_2 { ¬ (LegalList four_of_alpha
        (exchanges (Delivered (Numbers (pos 6 ∷ pos 7 ∷ []) ∷ Numbers (pos 4 ∷ [])
        ∷ Numbers (pos 9 ∷ []) ∷ [])))) }
{}

/// A reduction gives its root the fold of all; where it scatters, each rank gets the fold of its
/// block.
pub fn reductions_by_root_and_block()
    ensures legal { LegalList four_of_alpha
        (reductions_by_root_and_block (Delivered (Numbers (pos 9 ∷ []) ∷ []))) }
    ensures wrong_1 { ¬ (LegalList four_of_alpha
        (reductions_by_root_and_block (Delivered (Numbers (pos 4 ∷ []) ∷ [])))) }
    ensures wrong_2 { ¬ (LegalList four_of_alpha
        (reductions_by_root_and_block (Delivered (Numbers (pos 9 ∷ pos 9 ∷ []) ∷ [])))) }
{}

/// Who gathers from all gets a block of each; a barrier gives nobody a block.
pub fn all_gather_and_wait()
    ensures legal { LegalList four_of_alpha (all_gather_and_wait (Delivered [])) }
    ensures wrong_1 { ¬ (LegalList four_of_alpha
        (all_gather_and_wait (Delivered (Numbers [] ∷ [])))) }
{}

/// On a line the ends miss a neighbour; each block has its own size.
pub fn neighbours_of_a_line()
    ensures legal { LegalList four_of_alpha
        (neighbours_of_a_line (Delivered (Numbers (pos 21 ∷ []) ∷ Missing ∷ []))) }
    ensures wrong_1 { ¬ (LegalList four_of_alpha
        (neighbours_of_a_line (Delivered (Numbers (pos 2 ∷ []) ∷ Missing ∷ [])))) }
    ensures wrong_2 { ¬ (LegalList four_of_alpha
        (neighbours_of_a_line (Delivered (Missing ∷ Numbers (pos 21 ∷ []) ∷ [])))) }
    ensures wrong_3 { ¬ (LegalList four_of_alpha
        (neighbours_of_a_line (Delivered (Numbers (pos 21 ∷ []) ∷ Numbers [] ∷ [])))) }
{}

/// A subgroup of nobody makes no communicator; a split orders by key, ties by rank; a grid of no
/// dimensions has one member.
pub fn empty_and_reordered()
    ensures legal { LegalList four_of_alpha (empty_and_reordered (Refused NotMember)) }
    ensures wrong_1 { ¬ (LegalList four_of_alpha (empty_and_reordered (Refused NoSuchComm))) }
    ensures wrong_2 { ¬ (LegalList four_of_alpha (empty_and_reordered (Info 1 0 None))) }
{}
