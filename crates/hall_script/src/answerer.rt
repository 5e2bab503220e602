//! What answers calls.
ghost use Rattle.std.specs.Prelude.{◌≡◌, List, OnOk, OnErr};
ghost use Rattle.wall_policy.specs.Policy.{ChineseWall};
ghost use Rattle.run_model.specs.declared.call.Call.{Call};
ghost use Rattle.run_model.specs.declared.reply.Reply.{Reply};
ghost use Rattle.run_model.specs.Runs.{Entry};
ghost use Rattle.run_model.specs.Known.{HasKnownLabel, IsKnownReply};
ghost use Rattle.hall_core.specs.Claims.{to_take};
ghost use Rattle.hall_script.specs.Answering.{Carries, AnswersCall};

use run_model::{Call, Reply};
use wall_labels::NoMemory;
use wall_policy::Policy;

/// What answers calls, one after the other.
pub(crate) trait Answerer {
    /// It stands for the run, whose newest entry is the first.
    ghost stands: { Self → List Entry → Type 0 };

    /// Its policy.
    ghost wall: { Self → ChineseWall };

    fn policy(&self) -> &Policy
        ensures { result.now ≡ wall self.now };

    /// Answers a call.
    fn apply(&mut self, call: Call) -> Reply
        requires { HasKnownLabel (wall self.old) call.act }
        ensures wall { wall self.new ≡ wall self.old }
        ensures carries { Carries stands (wall self.old) self.old self.new call result }
        ensures named { IsKnownReply (wall self.new) result };

    /// Answers a take, and adds the line of its reply to the text. Where that can't grow nothing is
    /// taken, and all is as it was.
    fn take(&mut self, process: u32, request: u64, text: &mut Vec<u8>) -> Result<(), NoMemory>
        ensures wall { wall self.new ≡ wall self.old }
        ensures answered { OnOk result (AnswersCall stands (wall self.old) self.old self.new
            text.old.items text.new.items (to_take process request)) }
        ensures err { OnErr result (text.new.items ≡ text.old.items) }
        ensures untaken { OnErr result (self.new ≡ self.old) };
}
