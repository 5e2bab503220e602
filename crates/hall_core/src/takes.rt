//! What came of instances that were filled, for those who take it.
ghost use Rattle.std.specs.Prelude.{◌≡◌, ◌≢◌, ◌≤◌, ◌+◌, length, None};
ghost use Rattle.coll_values.specs.Instances.{IsWhole};
ghost use Rattle.mpi_group.specs.Groups.{rank_in};
ghost use Rattle.run_model.specs.declared.outcome.Outcome.TheVariants.{Granted, Made};
ghost use Rattle.run_model.specs.Replies.{joined};
ghost use Rattle.hall_core.specs.Claims.{IsNoDelivery};
ghost use Rattle.hall_core.specs.Moves.{FindsOn, IsTellable, row_at};

use crate::looks::{Due, Open};
use crate::settled::Settlement;
use mpi_elems::Buffer;
use run_model::{Outcome, Reply};
use run_state::PostState;
use wall_labels::ProcessId;

/// What a member finds of an instance that was filled, by this request for it.
pub fn found<'a>(
    post_state: &PostState<Buffer>,
    member: ProcessId,
    settlement: &'a Settlement,
    it: Open,
) -> Due<'a>
    requires tellable { IsTellable post_state.now.comms settlement.now }
    requires member { rank_in settlement.now.full.roll.members member ≢ None }
    ensures { FindsOn settlement.now member it result }
{
    match &settlement.outcome {
        Outcome::Granted => granted(member, settlement, it),
        Outcome::Denied {
            rule,
            process,
            label,
        } => Due::Outcome(
            Reply::Denied {
                rule: *rule,
                process: *process,
                label: *label,
            },
            it,
        ),
        Outcome::Made { first, number } => {
            Due::Outcome(joined(post_state, member, *first, *number), it)
        }
        Outcome::NoRoom => Due::Outcome(Reply::NoRoom, it),
    }
}

// What a member finds of an instance that was granted, by this request for it.
fn granted<'a>(member: ProcessId, settlement: &'a Settlement, it: Open) -> Due<'a>
    requires whole { IsWhole settlement.now.full }
    requires granted { settlement.now.outcome ≡ Granted }
    requires member { rank_in settlement.now.full.roll.members member ≢ None }
    ensures { FindsOn settlement.now member it result }
{
    let full = settlement.full.full();
    let Some(rank) = full.roll.members.rank_of(member) else {
        unreachable!()
    };
    Due::Granted {
        full,
        rank,
        open: it,
    }
}

// The new communicator that the process is in, of so many from this number on.
fn joined(post_state: &PostState<Buffer>, member: ProcessId, first: u32, number: u32) -> Reply
    requires { first + number ≤ length post_state.now.comms }
    ensures told { result ≡ joined member first (row_at post_state.now.comms first number) }
    ensures no_delivery { IsNoDelivery result }
{
    let _ = post_state.len();
    let end = first + number;
    for comm in first..end {
        let group = post_state.group(comm);
        match group.rank_of(member) {
            Some(rank) => {
                return Reply::NewComm {
                    comm,
                    rank,
                    size: group.size(),
                };
            }
            None => {}
        }
    }
    Reply::NullComm
}
