//! What holds of chain files, as functions that do nothing.
ghost use Rattle.chain_file.specs.Laws.{TextsAreRead, OnlyTextsAreRead, TextsDecide};
ghost use Rattle.chain_file.specs.Laws.{HeadsDecideChains};

/// A chain is read again from its text.
pub fn texts_are_read()
    ensures { TextsAreRead }
{}

/// What is read from a text is a chain, and the text is that chain's.
pub fn only_texts_are_read()
    ensures { OnlyTextsAreRead }
{}

/// The text of a chain determines it.
pub fn texts_decide()
    ensures { TextsDecide }
{}

/// Chains whose texts have one last head are one chain, or two different messages with one digest
/// are in hand.
pub fn heads_decide_chains()
    ensures { HeadsDecideChains }
{}
