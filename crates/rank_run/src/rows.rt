//! Worked rows of what waiting and scripts come to, as functions that do nothing.
ghost use Rattle.rank_run.specs.Rows.{ScriptWaits, ScriptGivesUp, ActsLeftOut, WaitEnds, WaitOnce};
ghost use Rattle.rank_run.specs.Rows.{WaitGivesUp};

/// A post and a take that was tried three times are the calls of a script of two acts, with two
/// replies.
#[tactic(auto, using(crate::proofs::RowProofs::script_waits))]
pub fn script_waits()
    ensures { ScriptWaits }
{}

/// A take that was given up after two of three tries is no call of a script.
#[tactic(auto, using(crate::proofs::RowProofs::script_gives_up))]
pub fn script_gives_up()
    ensures { ScriptGivesUp }
{}

/// One call is not what two acts come to.
#[tactic(auto, using(crate::proofs::RowProofs::acts_left_out))]
pub fn acts_left_out()
    ensures { ActsLeftOut }
{}

/// With a patience of two, two takes answered `Pending` end a wait.
#[tactic(auto, using(crate::proofs::RowProofs::wait_ends))]
pub fn wait_ends()
    ensures { WaitEnds }
{}

/// With a patience of none, one take is made.
#[tactic(auto, using(crate::proofs::RowProofs::wait_once))]
pub fn wait_once()
    ensures { WaitOnce }
{}

/// With a patience of three, two takes answered `Pending` do not end a wait.
#[tactic(auto, using(crate::proofs::RowProofs::wait_gives_up))]
pub fn wait_gives_up()
    ensures { WaitGivesUp }
{}
