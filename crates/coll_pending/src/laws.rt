//! What holds of all arrivals, for the proofs of callers. These functions do nothing.
ghost use Rattle.coll_pending.specs.Laws.{FaultlessSignaturesFit};

/// The room that `Pending::ready` makes for a communicator of a shape is enough for the signature
/// of each post that has no fault by itself.
pub fn faultless_signatures_fit()
    ensures { FaultlessSignaturesFit }
{}
