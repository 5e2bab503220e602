//! What holds of seals, as functions that do nothing.
ghost use Rattle.std.specs.Prelude.{◌≡◌, ℕ, List, Ok};
ghost use Rattle.wall_policy.specs.Policy.{ChineseWall};
ghost use Rattle.run_model.specs.declared.entry.Entry.{Entry};
ghost use Rattle.run_model.specs.Books.{IsSound};
ghost use Rattle.audit_book.specs.Reading.{book_in};
ghost use Rattle.book_seal.specs.Seals.{IsSealOf};
ghost use Rattle.book_seal.specs.CutBooks.{CutBooksHaveTheirSeal, WhatWasToldIsKept};
ghost use Rattle.book_seal.specs.CutBooks.{WhatWasWrittenIsACutBook};

/// A text has one seal at most.
pub fn a_text_has_one_seal()
    ensures { (wall : ChineseWall) (text one other : List ℕ) → IsSealOf wall text one →
        IsSealOf wall text other → one ≡ other }
{}

/// The text of a sound book is its own seal.
pub fn a_sound_book_is_its_own_seal()
    ensures { (wall : ChineseWall) (text : List ℕ) (entries : List Entry) →
        book_in wall text ≡ Ok entries → IsSound wall entries → IsSealOf wall text text }
{}

/// What is left of the book of any legal run that was cut, as by a kill, has a seal. Its posts begin
/// with those of the run as far as it was told, and are posts of the run.
pub fn cut_books_have_their_seal()
    ensures { CutBooksHaveTheirSeal }
{}

/// Whatever was held at some time in a run that was cut, as far as it was told, was ever held in a
/// chain of books that has its seal.
pub fn what_was_told_is_kept()
    ensures { WhatWasToldIsKept }
{}

/// What is left of a book that was written entry by entry, to any byte, is what is left of the run's
/// book.
pub fn what_was_written_is_a_cut_book()
    ensures { WhatWasWrittenIsACutBook }
{}
