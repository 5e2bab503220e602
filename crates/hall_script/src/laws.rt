//! What holds of the grammar, as functions that do nothing.
ghost use Rattle.std.specs.Prelude.{◌≡◌, ℕ, ℤ, pos, negsuc, true, List, [], ◌∷◌, replicate};
ghost use Rattle.std.specs.Prelude.{Some, Ok};
ghost use Rattle.std.specs.List.{list_all};
ghost use Rattle.wall_labels.specs.declared.op.Op.TheVariants.{Maxloc};
ghost use Rattle.wall_labels.specs.declared.label.Label.TheVariants.{Public, Of};
ghost use Rattle.wall_policy.specs.Policy.{ChineseWall, IsPolicy};
ghost use Rattle.mpi_elems.specs.declared.elem_type.ElemType.TheVariants.{Int32, Int64, Uint64};
ghost use Rattle.mpi_elems.specs.declared.elem_type.ElemType.TheVariants.{TwoInt};
ghost use Rattle.mpi_elems.specs.Numbers.{is_number_of};
ghost use Rattle.coll_routes.specs.declared.signature.Signature.TheVariants.{Gather, Gatherv};
ghost use Rattle.coll_routes.specs.declared.signature.Signature.TheVariants.{Scatterv, Reduce};
ghost use Rattle.coll_routes.specs.declared.signature.Signature.TheVariants.{Split};
ghost use Rattle.coll_routes.specs.declared.statement.Own.TheVariants.{Plain, Counts};
ghost use Rattle.coll_routes.specs.declared.statement.Own.TheVariants.{Split as SplitBy};
ghost use Rattle.coll_text.specs.Numbers.{Word};
ghost use Rattle.run_model.specs.declared.call.Call.{Call};
ghost use Rattle.run_model.specs.RunRows.{banks_and_oil};
ghost use Rattle.hall_script.specs.Lines.{answer_to};
ghost use Rattle.hall_script.specs.Spellings.{call_line, IsLineOf, IsSayableCall};
ghost use Rattle.hall_core.specs.Claims.{to_take};
ghost use Rattle.hall_script.specs.Spellings.{call_to_post, call_to_ask};

/// A line that is read is spelled as its call is, word for word; `as public` may stand behind a
/// post without elements.
#[tactic(auto, using(crate::proofs::CallLemmas::line_found))]
pub fn calls_are_spelled_so()
    ensures { (datasets : List Word) (line : List ℕ) (call : Call) →
        answer_to datasets line ≡ Ok call → IsLineOf datasets call line }
{}

/// The line of a call that has one is read as that call.
#[tactic(auto, using(crate::proofs::LineLemmas::line_again))]
pub fn calls_are_read_again()
    ensures { (wall : ChineseWall) (call : Call) → IsPolicy wall → IsSayableCall wall call →
        answer_to wall.dataset_names (call_line wall.dataset_names call) ≡ Ok call }
{}

/// Calls with the least and the greatest numbers have a line: posts of elements at both ends of
/// their type, in whole pairs, and behind 256 counts; a post that gives nothing; a take, and a
/// question.
pub fn extreme_calls_are_sayable()
    ensures signed { IsSayableCall banks_and_oil (call_to_post 4294967295 4294967295
        (Gather 4294967295 Int64 4294967295) Plain (Of 3)
        (negsuc 9223372036854775807 ∷ pos 9223372036854775807 ∷ [])) }
    ensures pairs { IsSayableCall banks_and_oil (call_to_post 4294967295 0
        (Reduce 4294967295 Maxloc TwoInt 4294967295) Plain Public
        (negsuc 2147483647 ∷ pos 2147483647 ∷ pos 2147483647 ∷ negsuc 2147483647 ∷ [])) }
    ensures counts { IsSayableCall banks_and_oil (call_to_post 0 4294967295
        (Scatterv 4294967295 Uint64) (Counts (replicate 256 4294967295)) (Of 0)
        (pos 0 ∷ pos 18446744073709551615 ∷ [])) }
    ensures nothing { IsSayableCall banks_and_oil (call_to_post 4294967295 4294967295 Split
        (SplitBy (Some (negsuc 2147483647)) (pos 2147483647)) Public []) }
    ensures take { IsSayableCall banks_and_oil (to_take 4294967295 18446744073709551615) }
    ensures info { IsSayableCall banks_and_oil (call_to_ask 4294967295 4294967295) }
{}

/// A post of any number of elements has a line.
pub fn posts_of_any_length_are_sayable()
    ensures { (ns : List ℤ) → list_all (is_number_of Int32) ns ≡ true →
        IsSayableCall banks_and_oil (call_to_post 0 0 (Gatherv 0 Int32) Plain (Of 0) ns) }
{}
