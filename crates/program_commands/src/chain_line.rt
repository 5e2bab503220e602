//! How a chain is told that is refused. (Own format.)
ghost use Rattle.std.specs.Prelude.{◌≡◌, ◌≢◌, ◌++◌, OnOk, OnErr, Some, codes};
ghost use Rattle.wall_policy.specs.declared.fault.PolicyFault.{PolicyFault};
ghost use Rattle.std.specs.Fmt.{decimal};
ghost use Rattle.hall_script.specs.Devices.{used, IsWritten, BrokeOff};
ghost use Rattle.program_commands.specs.Endings.{IsTold};
ghost use Rattle.program_commands.specs.ChainLines.{file_line, open_line, broken_line, broken_status};
ghost use Rattle.program_commands.specs.ChainLines.{growth_words, growth_end, named, run_text};
ghost use Rattle.program_commands.specs.ChainLines.{CanBeTold, IsNamed, book_text, bad_file_status};
ghost use Rattle.program_commands.specs.ChainLines.{next_line, next_status, without_run};

use crate::ending::{Ending, end, policy_fault, write_three, write_two};
use book_stream::AuditFault;
use chain_file::ChainFault;
use chain_runs::{Broken, RunFault};
use wall_labels::{Failed, Sink, write_all};
use wall_policy::{GrowthFault, Policy};

// Writes words, a number, and what stands behind it.
pub(crate) fn write_counted<W: Sink>(
    sink: &mut W,
    words: &[u8],
    number: u64,
    end: &[u8],
) -> Result<(), Failed>
    ensures written { let device = used W.failures W.contents sink.old sink.new in
        OnOk result (IsWritten device (words.now ++ (decimal number ++ end.now))) }
    ensures broken { let device = used W.failures W.contents sink.old sink.new in
        OnErr result (BrokeOff device (words.now ++ (decimal number ++ end.now))) }
{
    let mut buffer = itoa::Buffer::new();
    let digits = buffer.format(number);
    match write_three(sink, words, digits.as_bytes(), end) {
        Ok(()) => Ok(()),
        Err(_) => Err(Failed),
    }
}

fn growth_words(fault: GrowthFault) -> &'static str
    ensures { result.now ≡ growth_words fault }
{
    match fault {
        GrowthFault::Process(_) => ": policy: process ",
        GrowthFault::Home(_) => ": policy: process ",
        GrowthFault::Class(_) => ": policy: class ",
        GrowthFault::Dataset(_) => ": policy: dataset ",
        GrowthFault::Moved(_) => ": policy: dataset ",
        GrowthFault::NoMemory => ": policy: ",
    }
}

fn growth_end(fault: GrowthFault) -> &'static str
    ensures { result.now ≡ growth_end fault }
{
    match fault {
        GrowthFault::Process(_) => ": is another, or gone\n",
        GrowthFault::Home(_) => ": has another home\n",
        GrowthFault::Class(_) => ": is gone\n",
        GrowthFault::Dataset(_) => ": is gone\n",
        GrowthFault::Moved(_) => ": is in another class\n",
        GrowthFault::NoMemory => ": out of memory\n",
    }
}

// The name of what is not kept.
fn name_of(after: &Policy, fault: GrowthFault) -> &str
    requires { IsNamed after.now fault }
    ensures { result.now ≡ named (Some after.now) fault }
{
    match fault {
        GrowthFault::Process(process) => after.process_name(process),
        GrowthFault::Home(process) => after.process_name(process),
        GrowthFault::Class(class) => after.class_name(class),
        GrowthFault::Dataset(dataset) => after.dataset_name(dataset),
        GrowthFault::Moved(dataset) => after.dataset_name(dataset),
        GrowthFault::NoMemory => "",
    }
}

// Writes what is wrong with the book of a run.
fn write_book<W: Sink>(sink: &mut W, fault: AuditFault) -> Result<(), Failed>
    ensures written { let device = used W.failures W.contents sink.old sink.new in
        OnOk result (IsWritten device (book_text fault)) }
    ensures broken { let device = used W.failures W.contents sink.old sink.new in
        OnErr result (BrokeOff device (book_text fault)) }
{
    match fault {
        AuditFault::BadLine(number) => write_counted(sink, b": book: line ", number, b"\n"),
        AuditFault::LongLine(number) => write_counted(sink, b": book: line ", number, b"\n"),
        AuditFault::Cut => write_all(sink, b": book: cut\n"),
        AuditFault::BadEntry(number) => {
            write_counted(sink, b": book: unsound at entry ", number, b"\n")
        }
        AuditFault::TooMany => write_all(sink, b": book: exhausted\n"),
        AuditFault::Read => write_all(sink, b": book: read fault\n"),
        AuditFault::NoMemory => write_all(sink, b": book: out of memory\n"),
    }
}

// Writes what of its policy has not grown, by its name before.
fn write_growth<W: Sink>(sink: &mut W, after: &Policy, fault: &GrowthFault) -> Result<(), Failed>
    requires { IsNamed after.now fault.now }
    ensures written { let device = used W.failures W.contents sink.old sink.new in
        let text = growth_words fault.now ++ (named (Some after.now) fault.now ++ growth_end fault.now) in
        OnOk result (IsWritten device text) }
    ensures broken { let device = used W.failures W.contents sink.old sink.new in
        let text = growth_words fault.now ++ (named (Some after.now) fault.now ++ growth_end fault.now) in
        OnErr result (BrokeOff device text) }
{
    let words = growth_words(*fault).as_bytes();
    let end = growth_end(*fault).as_bytes();
    let name = name_of(after, *fault).as_bytes();
    match write_three(sink, words, name, end) {
        Ok(()) => Ok(()),
        Err(_) => Err(Failed),
    }
}

// Writes what is wrong with a run, behind its number.
fn write_why<W: Sink>(sink: &mut W, broken: &Broken) -> Result<(), Failed>
    requires { CanBeTold broken.now }
    ensures written { let device = used W.failures W.contents sink.old sink.new in
        OnOk result (IsWritten device (run_text broken.now.after broken.now.fault)) }
    ensures broken { let device = used W.failures W.contents sink.old sink.new in
        OnErr result (BrokeOff device (run_text broken.now.after broken.now.fault)) }
{
    match broken.fault {
        RunFault::UnreadPolicy => write_all(sink, b": policy: read fault\n"),
        RunFault::OtherPolicy => write_all(sink, b": another policy\n"),
        RunFault::BadPolicy(fault) => {
            write_two(sink, b": policy: ", policy_fault(fault).as_bytes())
        }
        RunFault::NotGrown(fault) => match &broken.after {
            Some(after) => write_growth(sink, after, &fault),
            None => unreachable!(),
        },
        RunFault::BadBook(fault) => write_book(sink, fault),
        RunFault::OtherBook => write_all(sink, b": another book\n"),
        RunFault::TooMany => write_all(sink, b": exhausted\n"),
        RunFault::NoMemory => write_all(sink, b": out of memory\n"),
    }
}

// Writes the line of a run that does not stand.
fn write_broken<W: Sink>(sink: &mut W, broken: &Broken) -> Result<(), Failed>
    requires { CanBeTold broken.now }
    ensures written { let device = used W.failures W.contents sink.old sink.new in
        OnOk result (IsWritten device (broken_line broken.now)) }
    ensures broken { let device = used W.failures W.contents sink.old sink.new in
        OnErr result (BrokeOff device (broken_line broken.now)) }
{
    let mut buffer = itoa::Buffer::new();
    let digits = buffer.format(broken.number);
    match write_two(sink, b"chain: run ", digits.as_bytes()) {
        Ok(()) => match write_why(sink, broken) {
            Ok(()) => Ok(()),
            Err(_) => Err(Failed),
        },
        Err(_) => Err(Failed),
    }
}

fn status_of_broken(fault: RunFault) -> u8
    ensures { result ≡ broken_status fault }
{
    match fault {
        RunFault::BadBook(AuditFault::TooMany) => 4,
        RunFault::TooMany => 4,
        RunFault::NoMemory => 4,
        _ => 2,
    }
}

/// Writes the line of a run that does not stand, and gives the status. A writer that fails changes
/// nothing of that.
pub(crate) fn end_broken<W: Sink>(err: &mut W, broken: &Broken) -> u8
    requires { CanBeTold broken.now }
    ensures status { result ≡ broken_status broken.now.fault }
    ensures told { IsTold (used W.failures W.contents err.old err.new) (broken_line broken.now) }
{
    match write_broken(err, broken) {
        Ok(()) => status_of_broken(broken.fault),
        Err(_) => status_of_broken(broken.fault),
    }
}

/// Writes the line of a chain whose last run has not ended, and gives the status.
pub(crate) fn end_open<W: Sink>(err: &mut W, number: u64) -> u8
    ensures status { result ≡ 2 }
    ensures told { IsTold (used W.failures W.contents err.old err.new) (open_line number) }
{
    match write_counted(err, b"chain: run ", number, b" has not ended\n") {
        Ok(()) => 2,
        Err(_) => 2,
    }
}

// Writes the line of the next run, whose policy is refused.
fn write_next<W: Sink>(sink: &mut W, broken: &Broken) -> Result<(), Failed>
    requires { CanBeTold broken.now }
    ensures written { let device = used W.failures W.contents sink.old sink.new in
        let line = codes "chain: next run" ++ run_text broken.now.after broken.now.fault in
        OnOk result (IsWritten device line) }
    ensures broken { let device = used W.failures W.contents sink.old sink.new in
        let line = codes "chain: next run" ++ run_text broken.now.after broken.now.fault in
        OnErr result (BrokeOff device line) }
{
    match write_all(sink, b"chain: next run") {
        Ok(()) => match write_why(sink, broken) {
            Ok(()) => Ok(()),
            Err(_) => Err(Failed),
        },
        Err(_) => Err(Failed),
    }
}

// The status where the policy of the next run has not grown, or its fault is another of a run.
fn status_of_next(fault: RunFault) -> u8
    requires read { fault ≢ RunFault.UnreadPolicy }
    requires other { (policy : PolicyFault) → fault ≢ RunFault.BadPolicy policy }
    ensures { result ≡ next_status fault }
{
    match fault {
        RunFault::NotGrown(_) => 1,
        fault => status_of_broken(fault),
    }
}

/// Writes the line of the next run, whose policy is refused, and gives the status. A writer that
/// fails changes nothing of that.
pub(crate) fn end_next<W: Sink>(err: &mut W, broken: &Broken) -> u8
    requires { CanBeTold broken.now }
    ensures status { result ≡ next_status broken.now.fault }
    ensures told { IsTold (used W.failures W.contents err.old err.new)
        (next_line broken.now.after broken.now.fault) }
{
    match broken.fault {
        RunFault::UnreadPolicy => return end(err, Ending::ReadFault),
        RunFault::BadPolicy(fault) => return end(err, Ending::BadPolicy(fault)),
        RunFault::NoMemory => return end(err, Ending::NoMemory),
        _ => {}
    }
    match write_next(err, broken) {
        Ok(()) => status_of_next(broken.fault),
        Err(_) => status_of_next(broken.fault),
    }
}

/// Writes the line of a chain of which no run is under way, and gives the status.
pub(crate) fn end_without_run<W: Sink>(err: &mut W) -> u8
    ensures status { result ≡ 2 }
    ensures told { IsTold (used W.failures W.contents err.old err.new) without_run }
{
    match write_all(err, b"chain: no run is under way\n") {
        Ok(()) => 2,
        Err(_) => 2,
    }
}

/// The status where a text is no chain file.
pub(crate) fn bad_file_status(fault: ChainFault) -> u8
    ensures { result ≡ bad_file_status fault }
{
    match fault {
        ChainFault::NoMemory => 4,
        _ => 2,
    }
}

/// Writes the line of a text that is no chain file.
pub(crate) fn write_bad_file<W: Sink>(sink: &mut W, fault: ChainFault) -> Result<(), Failed>
    ensures written { let device = used W.failures W.contents sink.old sink.new in
        OnOk result (IsWritten device (file_line fault)) }
    ensures broken { let device = used W.failures W.contents sink.old sink.new in
        OnErr result (BrokeOff device (file_line fault)) }
{
    match fault {
        ChainFault::BadLine(number) => write_counted(sink, b"chain: line ", number, b"\n"),
        ChainFault::BadHead(number) => {
            write_counted(sink, b"chain: line ", number, b": head is not due\n")
        }
        ChainFault::Cut => write_all(sink, b"chain: cut\n"),
        ChainFault::NoMemory => write_all(sink, b"out of memory\n"),
    }
}
