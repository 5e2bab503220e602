//! The end of a door.
ghost use Rattle.std.specs.Prelude.{◌≡◌, ◌<◌, ◌≤◌, ◌↔◌, length, IfOk, IfErr, IsErr};
ghost use Rattle.std.specs.List.{All};
ghost use Rattle.run_model.specs.Comms.{processes};
ghost use Rattle.hall_turn.specs.Ending.{ClosedTo};

use crate::door::DoorTo;
use crate::machine::Machine;
use crate::pass::PassesTo;
use hall_core::Hall;
use thiserror::Error;

/// Why a door was not closed. Out of memory is no cause: closing takes none.
#[derive(Clone, Copy, Debug, PartialEq, Eq, Error)]
pub enum CloseFault {
    /// There are fewer passes than processes.
    #[error("a pass is missing")]
    MissingPass,
}

/// A door that was not closed, with what was handed in, unchanged.
#[derive(Drop)]
pub struct UnclosedTo<M: Machine> {
    /// Why it was not closed.
    pub fault: CloseFault,
    /// The door, as it was.
    pub door: DoorTo<M>,
    /// The passes, as they were.
    pub passes: PassesTo<M>,
}

/// A door to a hall that was not closed.
pub type Unclosed = UnclosedTo<Hall>;

impl<M: Machine> DoorTo<M> {
    /// The machine, at the end of the run of all calls that were made at the door. It takes no
    /// memory.
    ///
    /// `MissingPass` is answered exactly if there are fewer passes than processes; then door and
    /// passes come back as they were. The caller sees to it that the passes are of this door. It
    /// waits for nobody.
    pub fn close(self, passes: PassesTo<M>) -> Result<M, UnclosedTo<M>>
        requires { All (λ pass. pass.door ≡ self) passes.items }
        ensures machine { IfOk result
            (λ machine. ClosedTo M.stands self.policy machine passes.items) }
        ensures missing { IsErr result ↔ (length passes.items < processes self.policy) }
        ensures back { IfErr result
            (λ unclosed. (unclosed.door ≡ self) × (unclosed.passes.items ≡ passes.items)) }
    {
        if passes.len() < self.count as usize {
            return Err(UnclosedTo {
                fault: CloseFault::MissingPass,
                door: self,
                passes,
            });
        }
        Ok(self.end_all(passes))
    }

    // The machine, where no pass is missing.
    fn end_all(self, passes: PassesTo<M>) -> M
        requires of { All (λ pass. pass.door ≡ self) passes.items }
        requires enough { processes self.policy ≤ length passes.items }
        ensures { ClosedTo M.stands self.policy result passes.items }
    {
        let turns = self.into_turns();
        let seat = turns.gather(passes);
        turns.end(seat)
    }
}
