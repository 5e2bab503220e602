//! Worked policies of a later day, as functions that do nothing.
ghost use Rattle.run_model.specs.BookRows.{banks_and_oil};
ghost use Rattle.std.specs.Prelude.{◌≡◌};
ghost use Rattle.run_model.specs.Chains.{IsChain, GrewFrom};
ghost use Rattle.wall_policy.specs.Growth.{HasGrown, renumbered};
ghost use Rattle.run_model.specs.ChainRows.{alpha_for_n0, one_book};
ghost use Rattle.run_model.specs.Years.{BeginsWithNothing, CameToHold, HadOnce};
ghost use Rattle.run_model.specs.YearRows.{banks_lowered, beta_moved, home_removed, n0_renamed};
ghost use Rattle.run_model.specs.YearRows.{gamma_joined, gamma_behind};

/// After a book the least numbers may be lowered, and classes and processes may be added; but no
/// dataset may change its class, no process its home or its name.
pub fn a_policy_may_grow()
    ensures lowered { IsChain one_book banks_lowered }
    ensures moved { ¬ (IsChain one_book beta_moved) }
    ensures homeless { ¬ (IsChain one_book home_removed) }
    ensures renamed { ¬ (IsChain one_book n0_renamed) }
{}

/// What n0 holds from before it had once: by the fourth entry of the book, the post that filled the
/// instance, and not by the verdict behind it.
pub fn what_n0_held_it_had()
    ensures nothing { BeginsWithNothing one_book banks_lowered }
    ensures came { CameToHold banks_and_oil alpha_for_n0 4 3 0 }
    ensures had { HadOnce one_book 3 0 }
    ensures once { ¬ (CameToHold banks_and_oil alpha_for_n0 5 3 0) }
{}

/// A firm that joins a class in the midst of a file: by names the policy has grown, by the file's
/// numbers it has not, and by those that are given anew it has.
pub fn a_firm_may_join()
    ensures grown { HasGrown banks_and_oil gamma_joined }
    ensures numbers { ¬ (GrewFrom banks_and_oil gamma_joined) }
    ensures anew { renumbered banks_and_oil gamma_joined ≡ gamma_behind }
    ensures grew { GrewFrom banks_and_oil gamma_behind }
{}
