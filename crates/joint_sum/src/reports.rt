//! The text of a run: what each process was told, and the line of the audit.
ghost use Rattle.std.specs.Prelude.{◌≡◌, ◌<◌, ◌++◌, IfOk, OnOk, length, codes, decimal, slice_get};
ghost use Rattle.std.specs.Prelude.{string_bytes, Some};
ghost use Rattle.run_model.specs.Books.{IsSound};
ghost use Rattle.joint_sum.specs.Reports.{audit_text, lines_of, IsReport};

use anyhow::{Result, bail};
use audit_book::{Book, check_book};
use std::alloc::Global;
use wall_labels::ProcessId;
use wall_policy::Policy;

// The line of a book that is sound. For any other there is none.
fn audit_line(alloc: Global, policy: &Policy, book: &Book) -> Result<String>
    ensures sound { OnOk result (IsSound policy.now book.now.list) }
    ensures line { IfOk result (λ line. string_bytes line ≡ audit_text (length book.now.list)) }
{
    check_book(alloc, policy, book)?;
    Ok(format!(in alloc; "book: sound, {} entries\n", book.len())?)
}

// The name of a process of the policy.
fn name(policy: &Policy, process: u32) -> &str
    requires { process < length policy.now.process_names }
    ensures { slice_get policy.now.process_names process ≡ Some result.now }
{
    let _few = policy.processes();
    let Some(id) = ProcessId::new(process) else {
        unreachable!()
    };
    policy.process_name(id)
}

// Appends the name of a process, and what it was told.
fn put(name: &str, told: &[u8], text: &mut Vec<u8>) -> Result<()>
    ensures { OnOk result
        (text.new.items ≡ text.old.items ++ name.now ++ codes ":\n" ++ told.now) }
{
    text.extend_from_slice(name.as_bytes())?;
    text.extend_from_slice(b":\n")?;
    text.extend_from_slice(told)?;
    Ok(())
}

// What a process was told, if it played to its end.
fn told_to(told: &[Result<Vec<u8>>], process: u32) -> Result<&[u8]>
    ensures { IfOk result (λ lines. lines_of told.now process ≡ Some lines.now) }
{
    match told.get(process as usize) {
        Some(Ok(lines)) => Ok(lines),
        Some(Err(fault)) => bail!("{fault}"),
        None => bail!("a process is missing"),
    }
}

/// What all processes were told, in the policy's order, and the line of the audit. There is none
/// where a process stopped early, or where the book isn't sound.
pub fn report(
    alloc: Global,
    policy: &Policy,
    book: &Book,
    told: &[Result<Vec<u8>>],
) -> Result<Vec<u8>>
    ensures sound { OnOk result (IsSound policy.now book.now.list) }
    ensures text { IfOk result (λ text.
        IsReport policy.now told.now (length book.now.list) text.items) }
{
    let mut text = Vec::new(alloc);
    for process in 0..policy.processes() {
        let lines = told_to(told, process)?;
        put(name(policy, process), lines, &mut text)?;
    }
    let line = audit_line(alloc, policy, book)?;
    text.extend_from_slice(line.as_bytes())?;
    Ok(text)
}
