//! Whole runs.
ghost use Rattle.std.specs.Prelude.{◌≡◌, [], length, IfOk};
ghost use Rattle.run_model.specs.Replies.{Legal};
ghost use Rattle.run_model.specs.Runs.{run_of};
ghost use Rattle.run_model.specs.Known.{HaveKnownLabels};
ghost use Rattle.hall_core.specs.Halls.{StandsFor};

use crate::hall::Hall;
use run_model::{Call, Reply};
use std::alloc::Global;
use std::marker::Model;
use wall_labels::NoMemory;
use wall_policy::Policy;

/// A list of calls.
#[derive(Drop)]
pub struct Calls {
    list: Vec<Call>,
}

impl Model for Calls {
    ghost use Rattle.std.specs.Prelude.{List};
    ghost use Rattle.run_model.specs.declared.call.Call.{Call};

    ghost Value = { List Call };

    ghost view = { λ c. c.list.items };
}

impl From<Vec<Call>> for Calls {
    ghost from_gives = { λ list result. result ≡ list.items };

    fn from(list: Vec<Call>) -> Calls {
        Calls { list }
    }
}

/// A list of replies.
#[derive(Drop)]
pub struct Replies {
    list: Vec<Reply>,
}

impl Model for Replies {
    ghost use Rattle.std.specs.Prelude.{List};
    ghost use Rattle.run_model.specs.declared.reply.Reply.{Reply};

    ghost Value = { List Reply };

    ghost view = { λ r. r.list.items };
}

impl Replies {
    /// The replies in the order of their calls.
    pub fn as_slice(&self) -> &[Reply]
        ensures { result.now ≡ self.now }
    {
        self.list.as_slice()
    }
}

// Applies the calls in order to a hall that was opened for them, and gives one reply for each, in
// order.
fn apply_each(alloc: Global, hall: &mut Hall, calls: Calls) -> Result<Replies, NoMemory>
    requires labels { HaveKnownLabels hall.old.policy calls }
    requires begins { StandsFor hall.old [] }
    ensures policy { hall.new.policy ≡ hall.old.policy }
    ensures run { IfOk result (λ replies. Legal hall.old.policy (run_of calls replies)) }
    ensures each { IfOk result (λ replies. length replies ≡ length calls) }
{
    let mut list = Vec::new(alloc);
    for call in calls.list {
        let reply = hall.apply(call);
        list.push(reply)?;
    }
    Ok(Replies { list })
}

/// Applies the calls in order to a hall that was opened for them, and gives one reply for each, in
/// order.
///
/// `NoMemory` is answered where the hall could not be opened or the list of replies could not grow;
/// a call's own out of memory is its reply.
pub fn run_calls(alloc: Global, policy: Policy, calls: Calls) -> Result<Replies, NoMemory>
    requires { HaveKnownLabels policy calls }
    ensures run { IfOk result (λ replies. Legal policy (run_of calls replies)) }
    ensures each { IfOk result (λ replies. length replies ≡ length calls) }
{
    match Hall::open(alloc, policy) {
        Ok(mut hall) => {
            let replies = apply_each(alloc, &mut hall, calls);
            // By a call: at the end of a block the proof would take the hall apart.
            drop(hall);
            replies
        }
        Err(refused) => Err(refused),
    }
}
