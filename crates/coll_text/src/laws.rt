//! What holds of the spelling of statements, as functions that do nothing.
ghost use Rattle.std.specs.Prelude.{◌≡◌, ℕ, pos, negsuc, Bool, true, false, List, [], ◌∷◌};
ghost use Rattle.std.specs.Prelude.{◌++◌, replicate, Some, None, Ok};
ghost use Rattle.std.specs.List.{list_all};
ghost use Rattle.wall_labels.specs.declared.op.Op.TheVariants.{Sum, Maxloc};
ghost use Rattle.mpi_elems.specs.declared.elem_type.ElemType.TheVariants.{Int8, Uint64, TwoInt};
ghost use Rattle.coll_routes.specs.declared.signature.Signature.{Signature};
ghost use Rattle.coll_routes.specs.declared.signature.Signature.TheVariants.{Barrier, Scatterv};
ghost use Rattle.coll_routes.specs.declared.signature.Signature.TheVariants.{Reduce, ReduceScatter};
ghost use Rattle.coll_routes.specs.declared.signature.Signature.TheVariants.{Split, Create};
ghost use Rattle.coll_routes.specs.declared.signature.Signature.TheVariants.{CartCreate, CartSub};
ghost use Rattle.coll_routes.specs.declared.statement.Own.{Own};
ghost use Rattle.coll_routes.specs.declared.statement.Own.TheVariants.{Plain, Counts};
ghost use Rattle.coll_routes.specs.declared.statement.Own.TheVariants.{Split as SplitBy};
ghost use Rattle.coll_routes.specs.Signatures.{kind};
ghost use Rattle.coll_text.specs.Numbers.{Word};
ghost use Rattle.coll_routes.specs.Owns.{is_own_of};
ghost use Rattle.coll_text.specs.Fields.{statement_at};
ghost use Rattle.coll_text.specs.Spellings.{IsSpellable, AreUnsigned32, statement_words, is_solid};

/// A statement that is read is spelled so, word for word; and of the poster alone it has what its
/// kind asks.
pub fn statements_are_spelled_so()
    ensures words { (sig : Signature) (own : Own) (words rest : List Word) →
        statement_at words ≡ Ok ((sig, own), rest) → words ≡ statement_words sig own ++ rest }
    ensures form { (sig : Signature) (own : Own) (words rest : List Word) →
        statement_at words ≡ Ok ((sig, own), rest) → is_own_of (kind sig) own ≡ true }
{}

/// The words of a statement are read again, whatever follows them.
pub fn statements_are_read_again()
    ensures { (sig : Signature) (own : Own) (rest : List Word) → IsSpellable sig own →
        statement_at (statement_words sig own ++ rest) ≡ Ok ((sig, own), rest) }
{}

/// The words of a statement have no space and no line end in them.
pub fn statements_have_no_spaces_in_words()
    ensures { (sig : Signature) (own : Own) → IsSpellable sig own →
        list_all is_solid (statement_words sig own) ≡ true }
{}

/// Statements with the least and the greatest numbers are spellable, and with lists of 256.
pub fn extreme_statements_are_spellable()
    ensures barrier { IsSpellable Barrier Plain }
    ensures reduce { IsSpellable (Reduce 4294967295 Maxloc TwoInt 4294967295) Plain }
    ensures scatter { IsSpellable (Scatterv 0 Int8) (Counts (0 ∷ 4294967295 ∷ [])) }
    ensures counts { IsSpellable (Scatterv 4294967295 Uint64) (Counts (replicate 256 4294967295)) }
    ensures blocks { IsSpellable (ReduceScatter Sum Uint64 (replicate 256 4294967295)) Plain }
    ensures group { IsSpellable (Create (0 ∷ 4294967295 ∷ [])) Plain }
    ensures grid { IsSpellable (CartCreate (0 ∷ 4294967295 ∷ []) (true ∷ false ∷ [])) Plain }
    ensures parts { IsSpellable (CartSub (replicate 256 true)) Plain }
    ensures lowest { IsSpellable Split (SplitBy (Some (negsuc 2147483647)) (pos 2147483647)) }
    ensures highest { IsSpellable Split (SplitBy (Some (pos 2147483647)) (negsuc 2147483647)) }
    ensures uncoloured { IsSpellable Split (SplitBy None (pos 0)) }
{}

/// Lists of any length are spellable, if their numbers are of 32 bits.
pub fn lists_of_any_length_are_spellable()
    ensures counts { (ns : List ℕ) → AreUnsigned32 ns → IsSpellable (Scatterv 0 Int8) (Counts ns) }
    ensures blocks { (ns : List ℕ) → AreUnsigned32 ns →
        IsSpellable (ReduceScatter Sum Int8 ns) Plain }
    ensures group { (ns : List ℕ) → AreUnsigned32 ns → IsSpellable (Create ns) Plain }
    ensures grid { (ns : List ℕ) (bs : List Bool) → AreUnsigned32 ns →
        IsSpellable (CartCreate ns bs) Plain }
    ensures parts { (bs : List Bool) → IsSpellable (CartSub bs) Plain }
{}
