//! Worked runs over each type and each operation. The functions do nothing.
ghost use Rattle.std.specs.Prelude.{[], ◌∷◌, pos};
ghost use Rattle.coll_values.specs.declared.delivery.Block.TheVariants.{Numbers};
ghost use Rattle.run_model.specs.declared.reply.Reply.TheVariants.{Delivered};
ghost use Rattle.run_model.specs.RunRows.{LegalList, two_of_alpha};
ghost use Rattle.run_model.specs.TypeRows.{both_ends_of_each_type, orders_sums_and_truth};
ghost use Rattle.run_model.specs.TypeRows.{bits_and_places};

/// Each type holds the numbers from its least to its greatest.
pub fn both_ends_of_each_type()
    ensures { LegalList two_of_alpha both_ends_of_each_type }
{}

/// Greatest and least, sums and products that wrap, and truth as 0 or 1.
pub fn orders_sums_and_truth()
    ensures legal { LegalList two_of_alpha
        (orders_sums_and_truth (Delivered (Numbers (pos 0 ∷ []) ∷ []))) }
    ensures wrong_1 { ¬ (LegalList two_of_alpha
        (orders_sums_and_truth (Delivered (Numbers (pos 1 ∷ []) ∷ [])))) }
    ensures wrong_2 { ¬ (LegalList two_of_alpha
        (orders_sums_and_truth (Delivered (Numbers (pos 5 ∷ []) ∷ [])))) }
    ensures wrong_3 { ¬ (LegalList two_of_alpha
        (orders_sums_and_truth (Delivered (Numbers (pos 7 ∷ []) ∷ [])))) }
{}

/// Bits in two's complement, and extremes with their places: of equal values the lower index.
pub fn bits_and_places()
    ensures legal { LegalList two_of_alpha
        (bits_and_places (Delivered (Numbers (pos 3 ∷ pos 2 ∷ []) ∷ []))) }
    ensures wrong_1 { ¬ (LegalList two_of_alpha
        (bits_and_places (Delivered (Numbers (pos 3 ∷ pos 4 ∷ []) ∷ [])))) }
    ensures wrong_2 { ¬ (LegalList two_of_alpha
        (bits_and_places (Delivered (Numbers (pos 2 ∷ pos 3 ∷ []) ∷ [])))) }
{}
