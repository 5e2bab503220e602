//! A worked chain of books, as functions that do nothing.
ghost use Rattle.wall_rules.specs.declared.rule.Rule.TheVariants.{Simple};
ghost use Rattle.run_model.specs.declared.outcome.Outcome.TheVariants.{Granted, Denied};
ghost use Rattle.run_model.specs.Books.{IsSound, IsFirstBad};
ghost use Rattle.run_model.specs.BookRows.{banks_and_oil};
ghost use Rattle.run_model.specs.Chains.{IsChain};
ghost use Rattle.run_model.specs.ChainRows.{one_book, banks_after, banks_grown, beta, beta_for_n0};

/// After a book in which n0 was sent data of alpha it held alpha before, also where the policy
/// grew; a policy that forgets it is not the one after the book.
pub fn a_book_is_taken_over()
    ensures chain { IsChain one_book banks_after }
    ensures grown { IsChain one_book banks_grown }
    ensures forgotten { ¬ (IsChain one_book banks_and_oil) }
{}

/// So in the next book n0 is denied data of beta, which without the first would be granted.
pub fn what_was_held_is_judged()
    ensures denied { IsSound banks_after (beta_for_n0 (Denied Simple 3 beta)) }
    ensures bad { IsFirstBad banks_after (beta_for_n0 Granted) 5 }
    ensures alone { IsSound banks_and_oil (beta_for_n0 Granted) }
{}
