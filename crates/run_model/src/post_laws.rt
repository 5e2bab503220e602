//! What holds of all posts that count and of their books, as functions that do nothing.
ghost use Rattle.run_model.specs.PostLaws.{HistoriesGrow, CommunicatorsStay, FilledInstancesAreFit};
ghost use Rattle.run_model.specs.PostLaws.{PostsKeepTheWall, HoldingIsHistory};
ghost use Rattle.run_model.specs.PostLaws.{NobodyHoldsTwoRivals, BooksOfPostsAreSound};
ghost use Rattle.run_model.specs.PostLaws.{WordsAreOfTheStarRule, SoundBooksHaveNoBadEntry};
ghost use Rattle.run_model.specs.PostLaws.{SoundBooksKeepTheWall, FirstBadEntryIsOne};
ghost use Rattle.run_model.specs.Chains.{WhatWasHeldIsKept, ChainsKeepTheWall, RivalsStay};

/// A pair that stands in the histories stays there.
#[tactic(auto, using(crate::proofs::PostLawLemmas::histories_grow))]
pub fn histories_grow()
    ensures { HistoriesGrow }
{}

/// A communicator keeps its number, its group and its grid.
#[tactic(auto, using(crate::proofs::PostLawLemmas::communicators_stay))]
pub fn communicators_stay()
    ensures { CommunicatorsStay }
{}

/// The calls on rolls may be made on each instance that is filled.
pub fn filled_instances_are_fit()
    ensures { FilledInstancesAreFit }
{}

/// No process has had access to two rivals.
#[tactic(auto, using(crate::proofs::PostLawLemmas::posts_keep_the_wall))]
pub fn posts_keep_the_wall()
    ensures { PostsKeepTheWall }
{}

/// After each post a process holds, through chains of deliveries, exactly what stands in its
/// history: so a refusal always goes back to data that somebody does hold.
pub fn holding_is_history()
    ensures { HoldingIsHistory }
{}

/// After no post a process holds two rivals, directly or through others.
pub fn nobody_holds_two_rivals()
    ensures { NobodyHoldsTwoRivals }
{}

/// The book of posts that count is sound, and its posts are those.
#[tactic(auto, using(crate::proofs::BookLemmas::books_of_posts_are_sound))]
pub fn books_of_posts_are_sound()
    ensures { BooksOfPostsAreSound }
{}

/// In a sound book a post was barred exactly where it failed the star rule under the histories that
/// the book gives before it.
#[tactic(auto, using(crate::proofs::BookLemmas::words_are_of_the_star_rule))]
pub fn words_are_of_the_star_rule()
    ensures { WordsAreOfTheStarRule }
{}

/// Before each entry of a sound book, and after its last, no process held two rivals, directly or
/// through others, and what each held is what the book's histories say: an auditor needs no server.
pub fn sound_books_keep_the_wall()
    ensures { SoundBooksKeepTheWall }
{}

/// What was ever held in a chain of books, each sound under the policy after those before it, is
/// held from before under the policy after all of them.
pub fn what_was_held_is_kept()
    ensures { WhatWasHeldIsKept }
{}

/// Over a chain of sound books, and one that is sound under the policy after them, nobody ever held
/// two rivals, directly or through others: the wall outlives the program.
pub fn chains_keep_the_wall()
    ensures { ChainsKeepTheWall }
{}

/// Who were rivals under the policy of one of the books are rivals under the one after all of them.
pub fn rivals_stay()
    ensures { RivalsStay }
{}

/// A sound book has no first bad entry.
pub fn sound_books_have_no_bad_entry()
    ensures { SoundBooksHaveNoBadEntry }
{}

/// No book has two first bad entries.
pub fn first_bad_entry_is_one()
    ensures { FirstBadEntryIsOne }
{}
