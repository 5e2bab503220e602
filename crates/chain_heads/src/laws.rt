//! What holds of heads, as functions that do nothing.
ghost use Rattle.chain_heads.specs.Heads.{HeadsDecide, HeadsFixWhatIsBefore, HeadsDecideFiles};
ghost use Rattle.chain_heads.specs.Heads.{LinesEndWithHeads};

/// Texts with one last head are one text, or two different messages with one digest are in hand.
pub fn heads_decide()
    ensures { HeadsDecide }
{}

/// Each line of a text that is built line by line ends with the head of all before it.
pub fn lines_end_with_heads()
    ensures { LinesEndWithHeads }
{}

/// A text that has the last head of another begins with that other, or two different messages with
/// one digest are in hand.
pub fn heads_fix_what_is_before()
    ensures { HeadsFixWhatIsBefore }
{}

/// The files whose digests stand in texts with one last head are the same, or two different
/// messages with one digest are in hand.
pub fn heads_decide_files()
    ensures { HeadsDecideFiles }
{}
