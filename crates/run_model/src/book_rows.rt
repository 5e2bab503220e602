//! Worked books, as functions that do nothing.
ghost use Rattle.run_model.specs.Books.{IsSound, IsFirstBad};
ghost use Rattle.run_model.specs.BookRows.{banks_and_oil, four_of_a_bank, denied_broadcast};
ghost use Rattle.run_model.specs.BookRows.{granted_broadcast, split_into_two, split_into_one};
ghost use Rattle.run_model.specs.BookRows.{split_without_outcome, barred_gather, passed_gather};
ghost use Rattle.run_model.specs.BookRows.{rows_of_a_grid, sum_of_four};

/// A broadcast that would hand one bank's figures to its rival is denied to all. Where a book says
/// that it was granted, that entry is the first bad one.
#[tactic(auto, using(crate::proofs::BookRowProofs::denial_is_sound, crate::proofs::BookRowProofs::grant_is_bad))]
pub fn a_rival_is_denied()
    ensures sound { IsSound banks_and_oil denied_broadcast }
    ensures bad { IsFirstBad banks_and_oil granted_broadcast 5 }
{}

/// A split makes as many communicators as there are colours. Another number is bad, and so is the
/// end of the book in its place.
#[tactic(auto, using(crate::proofs::BookRowProofs::splits))]
pub fn a_split_makes_two()
    ensures sound { IsSound four_of_a_bank split_into_two }
    ensures bad { IsFirstBad four_of_a_bank split_into_one 5 }
    ensures missing { IsFirstBad four_of_a_bank split_without_outcome 5 }
{}

/// Who is at home at a bank may not write as `public`: the post is barred, and the gather denied. A
/// book where it passed has its first bad entry there.
#[tactic(auto, using(crate::proofs::BookRowProofs::gather_is_sound, crate::proofs::BookRowProofs::pass_is_bad))]
pub fn a_public_post_is_barred()
    ensures sound { IsSound banks_and_oil barred_gather }
    ensures bad { IsFirstBad banks_and_oil passed_gather 1 }
{}

/// A grid is cut into its rows, and a row can meet.
#[tactic(auto, using(crate::proofs::BookRowProofs::grid_is_sound))]
pub fn a_grid_is_cut_into_rows()
    ensures { IsSound four_of_a_bank rows_of_a_grid }
{}

/// A sum of four is sanitised: nobody's history grows by it.
#[tactic(auto, using(crate::proofs::BookRowProofs::sum_is_sound))]
pub fn a_sum_is_sanitised()
    ensures { IsSound banks_and_oil sum_of_four }
{}
