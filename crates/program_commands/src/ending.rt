//! How the program ends: its status, and its line on standard error. (Own format.)
ghost use Rattle.std.specs.Prelude.{◌≡◌, ◌++◌, OnOk, OnErr, codes};
ghost use Rattle.hall_script.specs.Devices.{used, IsWritten, BrokeOff};
ghost use Rattle.program_commands.specs.Endings.{status_of, error_line, numbered_line};
ghost use Rattle.program_commands.specs.Endings.{policy_fault_text, earlier_fault_text};
ghost use Rattle.program_commands.specs.Endings.{line_fault_text, IsTold, cause_text, why_text};

use coll_text::LineFault;
use program_files::Cause;
use wall_labels::{Failed, NoMemory, Sink, write_all};
use wall_policy::PolicyFault;

/// What is wrong with an earlier book. Lines and entries count from 1.
#[derive(Clone, Copy, Debug, PartialEq, Eq)]
pub enum EarlierFault {
    /// The line of this number is the first that is not in its form, or that stands behind the end.
    BadLine(u64),
    /// It stops before a finished `end` line, and all finished lines are in their form.
    Cut,
    /// The entry of this number is the first that is not what the posts of the book give.
    Unsound(u64),
}

/// Why a file was not read, as people are told.
#[derive(Clone, Copy, Debug, PartialEq, Eq)]
pub enum Why {
    /// A read failed.
    Failed(Cause),
    /// It has more bytes than these.
    LongerThan(u64),
}

/// How the program ends. Lines and entries count from 1.
#[derive(Clone, Copy, Debug, PartialEq, Eq)]
pub enum Ending<'a> {
    /// All was done.
    Done,
    /// The policy file is refused.
    BadPolicy(PolicyFault),
    /// The line of the script of this number is no call.
    BadLine(u64, LineFault),
    /// The line of the book of this number is the first that is not in its form, or that stands
    /// behind the end.
    BadBookLine(u64),
    /// The book stops before a finished `end` line, and all finished lines are in their form.
    CutBook,
    /// The entry of this number is the first that is not what the posts of the book give.
    Unsound(u64),
    /// The earlier book at this path is none, or is not sound.
    BadEarlier(&'a str, EarlierFault),
    /// A reader failed, or a file is too long.
    ReadFault,
    /// The file at this path was not read, and this is why, as people are told.
    Unread(&'a str, Why),
    /// The writer failed.
    WriteFault,
    /// A thread was refused.
    NoThread,
    /// The calls of a run were too many for its door.
    Exhausted,
    /// Memory ran out.
    NoMemory,
    /// The words of the command line ask for nothing that the program does.
    BadArguments,
}

impl From<NoMemory> for Ending<'static> {
    ghost use Rattle.std.specs.Prelude.{◌≡◌};
    ghost use Rattle.program_commands.specs.declared.ending.Ending.TheVariants.{NoMemory};

    ghost from_gives = { λ _ ending. ending ≡ NoMemory };

    fn from(_refused: NoMemory) -> Ending<'static> {
        Ending::NoMemory
    }
}

fn status(ending: Ending) -> u8
    ensures { result ≡ status_of ending.entry }
{
    match ending {
        Ending::Done => 0,
        Ending::BadPolicy(_) => 1,
        Ending::BadLine(..) => 2,
        Ending::BadBookLine(_) | Ending::CutBook => 2,
        Ending::Unsound(_) => 2,
        Ending::BadEarlier(..) => 2,
        Ending::ReadFault | Ending::WriteFault => 3,
        Ending::Unread(..) => 3,
        Ending::NoThread | Ending::Exhausted => 4,
        Ending::NoMemory => 4,
        Ending::BadArguments => 5,
    }
}

// The fault's name, and the end of the line.
pub(crate) fn policy_fault(fault: PolicyFault) -> &'static str
    ensures { result.now ≡ policy_fault_text fault }
{
    match fault {
        PolicyFault::NotToml => "NotToml\n",
        PolicyFault::BadVersion => "BadVersion\n",
        PolicyFault::MissingKey => "MissingKey\n",
        PolicyFault::UnknownKey => "UnknownKey\n",
        PolicyFault::BadName => "BadName\n",
        PolicyFault::DuplicateName => "DuplicateName\n",
        PolicyFault::UnknownDataset => "UnknownDataset\n",
        PolicyFault::BadOp => "BadOp\n",
        PolicyFault::BadLeast => "BadLeast\n",
        PolicyFault::TooMany => "TooMany\n",
        PolicyFault::NoMemory => "NoMemory\n",
    }
}

// The fault's name, and the end of the line.
fn line_fault(fault: LineFault) -> &'static str
    ensures { result.now ≡ line_fault_text fault }
{
    match fault {
        LineFault::BadVerb => "BadVerb\n",
        LineFault::BadShape => "BadShape\n",
        LineFault::BadField => "BadField\n",
        LineFault::BadKind => "BadKind\n",
        LineFault::BadType => "BadType\n",
        LineFault::UnknownOp => "UnknownOp\n",
        LineFault::BadLabel => "BadLabel\n",
        LineFault::BadNumber => "BadNumber\n",
        LineFault::OddPair => "OddPair\n",
        LineFault::NoMemory => "NoMemory\n",
    }
}

// Writes one after the other.
pub(crate) fn write_two<W: Sink>(sink: &mut W, first: &[u8], second: &[u8]) -> Result<(), Failed>
    ensures written { let device = used W.failures W.contents sink.old sink.new in
        OnOk result (IsWritten device (first.now ++ second.now)) }
    ensures broken { let device = used W.failures W.contents sink.old sink.new in
        OnErr result (BrokeOff device (first.now ++ second.now)) }
{
    match write_all(sink, first) {
        Ok(()) => match write_all(sink, second) {
            Ok(()) => Ok(()),
            Err(_) => Err(Failed),
        },
        Err(_) => Err(Failed),
    }
}

// Writes one after the other.
pub(crate) fn write_three<W: Sink>(
    sink: &mut W,
    first: &[u8],
    second: &[u8],
    third: &[u8],
) -> Result<(), Failed>
    ensures written { let device = used W.failures W.contents sink.old sink.new in
        OnOk result (IsWritten device (first.now ++ (second.now ++ third.now))) }
    ensures broken { let device = used W.failures W.contents sink.old sink.new in
        OnErr result (BrokeOff device (first.now ++ (second.now ++ third.now))) }
{
    match write_all(sink, first) {
        Ok(()) => match write_two(sink, second, third) {
            Ok(()) => Ok(()),
            Err(_) => Err(Failed),
        },
        Err(_) => Err(Failed),
    }
}

// Writes the words, the text and the end of the line.
pub(crate) fn write_worded<W: Sink>(sink: &mut W, words: &[u8], text: &[u8]) -> Result<(), Failed>
    ensures written { let device = used W.failures W.contents sink.old sink.new in
        OnOk result (IsWritten device (words.now ++ (text.now ++ codes "\n"))) }
    ensures broken { let device = used W.failures W.contents sink.old sink.new in
        OnErr result (BrokeOff device (words.now ++ (text.now ++ codes "\n"))) }
{
    match write_three(sink, words, text, b"\n") {
        Ok(()) => Ok(()),
        Err(_) => Err(Failed),
    }
}

// Writes the words, the number and the end of the line.
pub(crate) fn write_numbered<W: Sink>(sink: &mut W, words: &[u8], number: u64) -> Result<(), Failed>
    ensures written { let device = used W.failures W.contents sink.old sink.new in
        OnOk result (IsWritten device (numbered_line words.now number)) }
    ensures broken { let device = used W.failures W.contents sink.old sink.new in
        OnErr result (BrokeOff device (numbered_line words.now number)) }
{
    let mut buffer = itoa::Buffer::new();
    let digits = buffer.format(number);
    match write_worded(sink, words, digits.as_bytes()) {
        Ok(()) => Ok(()),
        Err(_) => Err(Failed),
    }
}

// Writes `script: line N: NAME`.
fn write_bad_line<W: Sink>(sink: &mut W, number: u64, fault: LineFault) -> Result<(), Failed>
    ensures written { let device = used W.failures W.contents sink.old sink.new in
        OnOk result (IsWritten device (error_line (Ending.BadLine number fault))) }
    ensures broken { let device = used W.failures W.contents sink.old sink.new in
        OnErr result (BrokeOff device (error_line (Ending.BadLine number fault))) }
{
    let mut buffer = itoa::Buffer::new();
    let digits = buffer.format(number);
    match write_two(sink, b"script: line ", digits.as_bytes()) {
        Ok(()) => match write_two(sink, b": ", line_fault(fault).as_bytes()) {
            Ok(()) => Ok(()),
            Err(_) => Err(Failed),
        },
        Err(_) => Err(Failed),
    }
}

// Writes what is wrong with an earlier book, behind its path.
fn write_earlier_fault<W: Sink>(sink: &mut W, fault: EarlierFault) -> Result<(), Failed>
    ensures written { let device = used W.failures W.contents sink.old sink.new in
        OnOk result (IsWritten device (earlier_fault_text fault)) }
    ensures broken { let device = used W.failures W.contents sink.old sink.new in
        OnErr result (BrokeOff device (earlier_fault_text fault)) }
{
    match fault {
        EarlierFault::BadLine(number) => write_numbered(sink, b": line ", number),
        EarlierFault::Cut => write_all(sink, b": cut\n"),
        EarlierFault::Unsound(number) => write_numbered(sink, b": unsound at entry ", number),
    }
}

// Writes `after PATH: ` and what is wrong with that book.
fn write_bad_earlier<W: Sink>(sink: &mut W, path: &str, fault: EarlierFault) -> Result<(), Failed>
    ensures written { let device = used W.failures W.contents sink.old sink.new in
        let line = (codes "after " ++ path.now) ++ earlier_fault_text fault in
        OnOk result (IsWritten device line) }
    ensures broken { let device = used W.failures W.contents sink.old sink.new in
        let line = (codes "after " ++ path.now) ++ earlier_fault_text fault in
        OnErr result (BrokeOff device line) }
{
    match write_two(sink, b"after ", path.as_bytes()) {
        Ok(()) => match write_earlier_fault(sink, fault) {
            Ok(()) => Ok(()),
            Err(_) => Err(Failed),
        },
        Err(_) => Err(Failed),
    }
}

// What is told of the cause, behind the path.
fn cause_text(cause: Cause) -> &'static str
    ensures { result.now ≡ cause_text cause }
{
    match cause {
        Cause::NoFile => ": no such file\n",
        Cause::Denied => ": permission denied\n",
        Cause::Folder => ": is a directory\n",
        Cause::Other => ": the read failed\n",
    }
}

// Writes that a file has more bytes than these, behind its path.
fn write_longer<W: Sink>(sink: &mut W, most: u64) -> Result<(), Failed>
    ensures written { let device = used W.failures W.contents sink.old sink.new in
        OnOk result (IsWritten device (why_text (Why.LongerThan most))) }
    ensures broken { let device = used W.failures W.contents sink.old sink.new in
        OnErr result (BrokeOff device (why_text (Why.LongerThan most))) }
{
    let mut buffer = itoa::Buffer::new();
    let digits = buffer.format(most);
    match write_three(sink, b": longer than ", digits.as_bytes(), b" bytes\n") {
        Ok(()) => Ok(()),
        Err(_) => Err(Failed),
    }
}

// Writes why a file was not read, behind its path.
fn write_why<W: Sink>(sink: &mut W, why: Why) -> Result<(), Failed>
    ensures written { let device = used W.failures W.contents sink.old sink.new in
        OnOk result (IsWritten device (why_text why)) }
    ensures broken { let device = used W.failures W.contents sink.old sink.new in
        OnErr result (BrokeOff device (why_text why)) }
{
    match why {
        Why::Failed(cause) => write_all(sink, cause_text(cause).as_bytes()),
        Why::LongerThan(most) => write_longer(sink, most),
    }
}

// Writes `cannot read PATH: ` and why.
fn write_unread<W: Sink>(sink: &mut W, path: &str, why: Why) -> Result<(), Failed>
    ensures written { let device = used W.failures W.contents sink.old sink.new in
        let line = (codes "cannot read " ++ path.now) ++ why_text why in
        OnOk result (IsWritten device line) }
    ensures broken { let device = used W.failures W.contents sink.old sink.new in
        let line = (codes "cannot read " ++ path.now) ++ why_text why in
        OnErr result (BrokeOff device line) }
{
    match write_two(sink, b"cannot read ", path.as_bytes()) {
        Ok(()) => match write_why(sink, why) {
            Ok(()) => Ok(()),
            Err(_) => Err(Failed),
        },
        Err(_) => Err(Failed),
    }
}

// Writes the ending's line, if it has one.
fn write_ending<W: Sink>(sink: &mut W, ending: Ending) -> Result<(), Failed>
    ensures written { let device = used W.failures W.contents sink.old sink.new in
        OnOk result (IsWritten device (error_line ending.entry)) }
    ensures broken { let device = used W.failures W.contents sink.old sink.new in
        OnErr result (BrokeOff device (error_line ending.entry)) }
{
    match ending {
        Ending::Done | Ending::Unsound(_) => Ok(()),
        Ending::BadPolicy(fault) => { write_two(sink, b"policy: ", policy_fault(fault).as_bytes()) }
        Ending::BadLine(number, fault) => write_bad_line(sink, number, fault),
        Ending::BadBookLine(number) => write_numbered(sink, b"book: line ", number),
        Ending::CutBook => write_all(sink, b"book: cut\n"),
        Ending::BadEarlier(path, fault) => write_bad_earlier(sink, path, fault),
        Ending::ReadFault => write_all(sink, b"read fault\n"),
        Ending::Unread(path, why) => write_unread(sink, path, why),
        Ending::WriteFault => write_all(sink, b"write fault\n"),
        Ending::NoThread => write_all(sink, b"no thread\n"),
        Ending::Exhausted => write_all(sink, b"exhausted\n"),
        Ending::NoMemory => write_all(sink, b"out of memory\n"),
        Ending::BadArguments => write_all(sink, b"bad arguments\n"),
    }
}

/// Writes the ending's line, if it has one, and gives the status. A writer that fails changes
/// nothing of that.
pub fn end<W: Sink>(err: &mut W, ending: Ending) -> u8
    ensures status { result ≡ status_of ending.entry }
    ensures told { IsTold (used W.failures W.contents err.old err.new) (error_line ending.entry) }
{
    match write_ending(err, ending) {
        Ok(()) => status(ending),
        Err(_) => status(ending),
    }
}
