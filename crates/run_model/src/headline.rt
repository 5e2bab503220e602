//! The headline, as a function that does nothing.
ghost use Rattle.std.specs.Prelude.{◌≡◌, ◌⊎◌, ℕ, reverse};
ghost use Rattle.wall_verdict.specs.Meanings.{IsBefore};
ghost use Rattle.run_model.specs.Headline.{Headline, IsFullCollective};
ghost use Rattle.run_model.specs.RunRows.{banks_and_oil, denied_broadcast, sanitised_sum};

/// Every collective that is full, after every legal run: it was granted exactly if each
/// contribution passed the star rule at its post and each receiver's history permits, jointly, all
/// that is charged to it; each request for it is then due what MPI prescribes, until it is taken.
/// Else all are due one denial, which names the least offender, and nothing moves. And nobody ever
/// comes to hold unsanitised data of two rivals, at first hand or through others.
#[tactic(auto, using(crate::proofs::HeadlineLemmas::headline))]
pub fn headline()
    ensures { Headline }
{}

/// What the headline asks of an instance holds of a sum that is granted, and of a broadcast that is
/// denied.
pub fn worked_collectives_are_full()
    ensures granted { IsFullCollective banks_and_oil (reverse sanitised_sum) 0 0 }
    ensures denied { IsFullCollective banks_and_oil (reverse denied_broadcast) 0 0 }
{}

/// Of two pairs of a receiver and a contributor that are not the same, one comes before the other:
/// so one offence alone is the least, which a denial names.
pub fn pairs_have_an_order()
    ensures { (k m j i : ℕ) → IsBefore k m j i ⊎ (((k ≡ j) × (m ≡ i)) ⊎ IsBefore j i k m) }
{}
