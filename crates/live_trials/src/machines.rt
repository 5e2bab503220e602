//! The machines of these tests: a hall, and one that is booked for a while.
ghost use Rattle.std.specs.Prelude.{◌≡◌, []};
ghost use Rattle.hall_turn.specs.Machines.{Stands};

use hall_core::{Call, Claim, Hall};
use hall_turn::{Applied, Machine, Receipts};
use std::alloc::Global;
use std::process::Abort;
use wall_policy::Policy;

/// A hall under the policy.
pub(crate) fn hall<R: Abort>(rt: &R, alloc: Global, policy: &Policy) -> Hall
    ensures { Stands policy.now result [] }
{
    let copy = policy.copy(alloc).expect(rt, "no memory");
    Hall::open(alloc, copy).expect(rt, "no hall")
}

/// A hall that is booked for so many calls; or, if it lapses so, up to the call that settles an
/// instance.
#[derive(Drop)]
pub(crate) struct Lapsing {
    hall: Hall,
    calls: u64,
    lapses_as_it_settles: bool,
    is_booked: bool,
}

impl Lapsing {
    // Behind a call, which settled an instance or not.
    fn lapse(&mut self, settled: bool)
        ensures { self.new.hall ≡ self.old.hall }
    {
        let lasts = self.calls > 0 && !(settled && self.lapses_as_it_settles);
        self.is_booked = self.is_booked && lasts;
        self.calls = self.calls.saturating_sub(1);
    }
}

impl Machine for Lapsing {
    ghost use Rattle.std.specs.Prelude.{None, Some, if◌then◌else◌};
    ghost use Rattle.hall_turn.specs.Machines.{Stands};
    ghost use Rattle.hall_turn.specs.Receipts.{nothing_known};

    ghost stands = { λ wall machine run. Stands wall machine.hall run };

    ghost booked = { λ machine.
        if machine.is_booked then Some nothing_known else None };

    fn apply(&mut self, call: Call) -> Applied {
        let applied = Machine::apply(&mut self.hall, call);
        self.lapse(applied.settled);
        applied
    }

    fn claim(&mut self, process: u32, request: u64) -> Claim {
        let claim = Machine::claim(&mut self.hall, process, request);
        self.lapse(false);
        claim
    }

    fn is_booked(&self) -> bool {
        self.is_booked
    }
}

impl Receipts<()> for Lapsing {
    fn receipt(&self) -> Option<()> {
        if self.is_booked { Some(()) } else { None }
    }
}

/// A hall that is booked for so many calls.
pub(crate) fn booked_for<R: Abort>(rt: &R, alloc: Global, policy: &Policy, calls: u64) -> Lapsing
    ensures { Stands policy.now result.hall [] }
{
    Lapsing {
        hall: hall(rt, alloc, policy),
        calls,
        lapses_as_it_settles: false,
        is_booked: true,
    }
}

/// A hall that is booked up to the call that settles an instance.
pub(crate) fn booked_till_it_settles<R: Abort>(rt: &R, alloc: Global, policy: &Policy) -> Lapsing
    ensures { Stands policy.now result.hall [] }
{
    Lapsing {
        hall: hall(rt, alloc, policy),
        calls: u64::MAX,
        lapses_as_it_settles: true,
        is_booked: true,
    }
}
