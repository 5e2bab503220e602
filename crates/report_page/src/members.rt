//! The table of the members of communicators.
ghost use Rattle.std.specs.Prelude.{◌≡◌, ◌++◌, OnOk};
ghost use Rattle.report_text.specs.Words.{numbered};
ghost use Rattle.report_page.specs.Tables.{member_row, member_rows, comm_rows, comms_table};

use crate::cells::{put_number_cell, put_process_cell, put_table_end, put_table_head};
use coll_text::put;
use mpi_group::Group;
use report_text::Member;
use run_state::PostState;
use std::alloc::AllocError;
use wall_policy::Policy;

fn put_member(text: &mut Vec<u8>, policy: &Policy, member: Member) -> Result<(), AllocError>
    ensures { OnOk result (text.new.items ≡ text.old.items
        ++ member_row policy.now member.comm member.rank member.process) }
{
    put(text, "<tr>")?;
    put_number_cell(text, u64::from(member.comm))?;
    put_number_cell(text, u64::from(member.rank))?;
    put_process_cell(text, policy, member.process)?;
    put(text, "\n")
}

// A row for each member of one communicator.
fn put_members(
    text: &mut Vec<u8>,
    policy: &Policy,
    comm: u32,
    group: &Group,
) -> Result<(), AllocError>
    ensures { OnOk result
        (text.new.items ≡ text.old.items ++ member_rows policy.now comm group.now) }
{
    for rank in 0..group.size() {
        let process = group.at(rank);
        put_member(
            text,
            policy,
            Member {
                comm,
                rank,
                process,
            },
        )?;
    }
    Ok(())
}

// The members of all communicators of a state.
fn put_comms(
    text: &mut Vec<u8>,
    policy: &Policy,
    post_state: &PostState<()>,
) -> Result<(), AllocError>
    ensures { OnOk result (text.new.items
        ≡ text.old.items ++ numbered (comm_rows policy.now) 0 post_state.now.comms) }
{
    for comm in 0..post_state.len() {
        put_members(text, policy, comm, post_state.group(comm))?;
    }
    Ok(())
}

/// The table of the communicators of a state.
pub(crate) fn put_comms_of(
    text: &mut Vec<u8>,
    policy: &Policy,
    post_state: &PostState<()>,
) -> Result<(), AllocError>
    ensures { OnOk result
        (text.new.items ≡ text.old.items ++ comms_table policy.now post_state.now.comms) }
{
    put_table_head(
        text,
        "Who is in which communicator",
        "<th>Communicator<th>Rank<th>Process",
    )?;
    put_comms(text, policy, post_state)?;
    put_table_end(text)
}
