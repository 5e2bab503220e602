//! The lines of the members of communicators.
ghost use Rattle.std.specs.Prelude.{◌≡◌, ◌++◌, OnOk};
ghost use Rattle.report_text.specs.Members.{rank_text, member_line, member_lines};
ghost use Rattle.report_text.specs.Members.{comm_lines, comms_text};
ghost use Rattle.report_text.specs.Words.{numbered};

use crate::words::put_process;
use coll_text::{put, put_decimal};
use mpi_group::Group;
use run_state::PostState;
use std::alloc::AllocError;
use wall_labels::ProcessId;
use wall_policy::Policy;

fn put_rank(text: &mut Vec<u8>, comm: u32, rank: u32) -> Result<(), AllocError>
    ensures { OnOk result (text.new.items ≡ text.old.items ++ rank_text comm rank) }
{
    put(text, "communicator ")?;
    put_decimal(text, u64::from(comm))?;
    put(text, ", rank ")?;
    put_decimal(text, u64::from(rank))?;
    put(text, ": ")
}

/// A member of a communicator.
#[derive(Clone, Copy)]
pub struct Member {
    pub comm: u32,
    pub rank: u32,
    pub process: ProcessId,
}

fn put_member(text: &mut Vec<u8>, policy: &Policy, member: Member) -> Result<(), AllocError>
    ensures { OnOk result (text.new.items ≡ text.old.items
        ++ member_line policy.now member.comm member.rank member.process) }
{
    put_rank(text, member.comm, member.rank)?;
    put_process(text, policy, member.process)?;
    put(text, "\n")
}

// A line for each member of one communicator.
fn put_members(
    text: &mut Vec<u8>,
    policy: &Policy,
    comm: u32,
    group: &Group,
) -> Result<(), AllocError>
    ensures { OnOk result
        (text.new.items ≡ text.old.items ++ member_lines policy.now comm group.now) }
{
    for rank in 0..group.size() {
        let process = group.at(rank);
        put_member(
            text,
            policy,
            Member {
                comm,
                rank,
                process,
            },
        )?;
    }
    Ok(())
}

// The members of all communicators of a state.
fn put_comms(
    text: &mut Vec<u8>,
    policy: &Policy,
    post_state: &PostState<()>,
) -> Result<(), AllocError>
    ensures { OnOk result (text.new.items
        ≡ text.old.items ++ numbered (comm_lines policy.now) 0 post_state.now.comms) }
{
    for comm in 0..post_state.len() {
        put_members(text, policy, comm, post_state.group(comm))?;
    }
    Ok(())
}

/// The members of all communicators of a state, with their heading.
pub(crate) fn put_comms_of(
    text: &mut Vec<u8>,
    policy: &Policy,
    post_state: &PostState<()>,
) -> Result<(), AllocError>
    ensures { OnOk result
        (text.new.items ≡ text.old.items ++ comms_text policy.now post_state.now.comms) }
{
    put(text, "\nwho is in which communicator:\n")?;
    put_comms(text, policy, post_state)
}
