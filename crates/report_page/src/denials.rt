//! The table of denials.
ghost use Rattle.std.specs.Prelude.{◌≡◌, ◌++◌, OnOk};
ghost use Rattle.std.specs.List.{flat_map};
ghost use Rattle.report_page.specs.Tables.{denial_row, denials_table};

use crate::cells::{put_cell, put_number_cell, put_pair_cell, put_table_end, put_table_head};
use book_report::Denial;
use coll_text::put;
use report_text::put_reason;
use std::alloc::AllocError;
use wall_policy::Policy;

fn put_denial(text: &mut Vec<u8>, policy: &Policy, denial: &Denial) -> Result<(), AllocError>
    ensures { OnOk result (text.new.items ≡ text.old.items ++ denial_row policy.now denial.now) }
{
    let mut reason = Vec::new(*text.allocator());
    put_reason(&mut reason, policy, denial.process, &denial.reason)?;
    put(text, "<tr>")?;
    put_number_cell(text, denial.entry)?;
    put_pair_cell(text, denial.comm, denial.k)?;
    put_cell(text, &reason)?;
    put(text, "\n")
}

fn put_each_denial(
    text: &mut Vec<u8>,
    policy: &Policy,
    denials: &[Denial],
) -> Result<(), AllocError>
    ensures { OnOk result
        (text.new.items ≡ text.old.items ++ flat_map (denial_row policy.now) denials.now) }
{
    for denial in denials {
        put_denial(text, policy, denial)?;
    }
    Ok(())
}

/// The table of these denials, in their order.
pub(crate) fn put_denials(
    text: &mut Vec<u8>,
    policy: &Policy,
    denials: &[Denial],
) -> Result<(), AllocError>
    ensures { OnOk result
        (text.new.items ≡ text.old.items ++ denials_table policy.now denials.now) }
{
    put_table_head(
        text,
        "Why instances were denied",
        "<th>Entry<th>Instance<th>Why",
    )?;
    put_each_denial(text, policy, denials)?;
    put_table_end(text)
}
