//! What holds of books and their texts, as functions that do nothing.
ghost use Rattle.std.specs.Prelude.{◌≡◌, ◌↔◌, ℕ, ◌<◌, ◌≤◌, ◌++◌, List, [], ◌∷◌, length, Ok, Err};
ghost use Rattle.std.specs.Prelude.{pos, negsuc, true, Some, replicate};
ghost use Rattle.std.specs.List.{AllByRecursion};
ghost use Rattle.wall_labels.specs.declared.op.Op.TheVariants.{Maxloc};
ghost use Rattle.wall_labels.specs.declared.label.Label.TheVariants.{Public, Of};
ghost use Rattle.wall_policy.specs.Policy.{ChineseWall, IsPolicy};
ghost use Rattle.mpi_elems.specs.declared.elem_type.ElemType.TheVariants.{Uint64, TwoInt};
ghost use Rattle.coll_routes.specs.declared.signature.Signature.TheVariants.{Scatterv, Reduce};
ghost use Rattle.coll_routes.specs.declared.signature.Signature.TheVariants.{Split};
ghost use Rattle.coll_routes.specs.declared.statement.Own.TheVariants.{Counts};
ghost use Rattle.coll_routes.specs.declared.statement.Own.TheVariants.{Split as SplitBy};
ghost use Rattle.wall_rules.specs.declared.rule.Rule.TheVariants.{Star, Simple};
ghost use Rattle.run_model.specs.declared.outcome.Outcome.TheVariants.{Granted, Denied, Made};
ghost use Rattle.run_model.specs.declared.outcome.Outcome.TheVariants.{NoRoom};
ghost use Rattle.run_model.specs.declared.entry.Entry.{Entry};
ghost use Rattle.run_model.specs.declared.entry.Entry.TheVariants.{Settled};
ghost use Rattle.run_model.specs.BookRows.{banks_and_oil, four_of_a_bank, gave, without_elements};
ghost use Rattle.run_model.specs.BookRows.{denied_broadcast, rows_of_a_grid};
ghost use Rattle.audit_book.specs.declared.fault.ReadFault.TheVariants.{BadLine, Cut};
ghost use Rattle.audit_book.specs.Text.{book_text};
ghost use Rattle.audit_book.specs.Reading.{book_in};
ghost use Rattle.audit_book.specs.Laws.{IsSpelled};
ghost use Rattle.audit_book.specs.Faults.{IsCut, IsBadAt};

/// A text that is read as a book is the text of that book.
pub fn books_are_spelled_so()
    ensures { (wall : ChineseWall) (text : List ℕ) (entries : List Entry) →
        book_in wall text ≡ Ok entries → text ≡ book_text wall entries }
{}

/// The text of a book is read as that book.
pub fn books_are_read_again()
    ensures { (wall : ChineseWall) (entries : List Entry) → IsPolicy wall →
        AllByRecursion (IsSpelled wall) entries → length entries ≤ 18446744073709551615 →
        book_in wall (book_text wall entries) ≡ Ok entries }
{}

/// The text of a book that lacks bytes at its end is cut.
pub fn prefixes_of_books_are_cut()
    ensures { (wall : ChineseWall) (entries : List Entry) (prefix rest : List ℕ) → IsPolicy wall →
        AllByRecursion (IsSpelled wall) entries → length entries ≤ 18446744073709551615 →
        prefix ++ rest ≡ book_text wall entries → 0 < length rest → book_in wall prefix ≡ Err Cut }
{}

/// The answer is `Cut` exactly for a text that stops before a finished `end` line, where all
/// finished lines are in their form.
pub fn cut_texts_stop_early()
    ensures { (wall : ChineseWall) (text : List ℕ) → (book_in wall text ≡ Err Cut) ↔
        IsCut wall text }
{}

/// The answer is `BadLine` exactly where there is a first line that should not stand there, with
/// its number.
pub fn bad_lines_are_the_first()
    ensures { (wall : ChineseWall) (text : List ℕ) (number : ℕ) →
        (book_in wall text ≡ Err (BadLine number)) ↔ IsBadAt wall text number }
{}

/// Entries with the least and the greatest numbers have a text: posts that give much and posts that
/// give nothing, and verdicts of each outcome.
pub fn extreme_entries_are_spelled()
    ensures posts { AllByRecursion (IsSpelled banks_and_oil)
        (gave 3 4294967295 (Reduce 4294967295 Maxloc TwoInt 4294967295) 4294967295 (Of 3) true
        ∷ without_elements 3 4294967295 (Scatterv 4294967295 Uint64)
        (Counts (replicate 256 4294967295))
        ∷ without_elements 0 0 Split (SplitBy (Some (negsuc 2147483647)) (pos 2147483647))
        ∷ []) }
    ensures verdicts { AllByRecursion (IsSpelled banks_and_oil)
        (Settled 4294967295 18446744073709551615 Granted
        ∷ Settled 4294967295 18446744073709551615 (Denied Simple 3 (Of 3))
        ∷ Settled 0 0 (Denied Star 0 Public)
        ∷ Settled 4294967295 18446744073709551615 (Made 4294967295 4294967295)
        ∷ Settled 4294967295 0 NoRoom
        ∷ []) }
{}

/// So have the worked books of a broadcast that is denied, and of a grid that is cut into its rows.
pub fn worked_books_are_spelled()
    ensures denied { AllByRecursion (IsSpelled banks_and_oil) denied_broadcast }
    ensures grid { AllByRecursion (IsSpelled four_of_a_bank) rows_of_a_grid }
{}
