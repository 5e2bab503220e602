//! Lines of every form with the calls that they say, their faults, replies, and scripts split by
//! processes.
//!
//! What is wide, as a policy, is handed to `drop`: where it goes out of scope by itself it is taken
//! apart in the function's own proof, which costs half a minute.
ghost use Rattle.std.specs.Prelude.{◌<◌, All, length};
ghost use Rattle.wall_policy.specs.Policy.{ChineseWall};
ghost use Rattle.run_model.specs.Known.{HasKnownLabel, IsKnownReply, ScriptsHaveKnownLabels};
ghost use Rattle.run_model.specs.Known.{IsKnownLabel};

use coll_text::{label_text, put, put_decimal, put_spaced, write_statement};
use hall_script::*;
use mpi_elems::{Buffer, ElemType};
use run_model::{Act, Block, Call, Delivery, Integers, Posting, Refusal, Reply, Rule};
use std::alloc::{AllocError, Global};
use std::process::Abort;
use std::test::Fail;
use trial_kit::policies::BANKS_AND_OIL;
use wall_labels::memory::{Fuse, MemorySource};
use wall_labels::{DatasetId, Label, NoMemory, ProcessId};
use wall_policy::{Policy, read_policy};

/// The policy of a text that has one.
pub(crate) fn policy_of(rt: &(impl AllocGlobal + Abort), text: &str) -> Policy {
    match read_policy(rt.alloc(), text.as_bytes()) {
        Ok(policy) => policy,
        Err(_) => panic!(rt; "the policy is not read"),
    }
}

pub(crate) fn wall(rt: &(impl AllocGlobal + Abort)) -> Policy {
    policy_of(rt, BANKS_AND_OIL)
}

// Lines that are no call, and their first fault.
pub(crate) const FAULTS: &[(&str, LineFault)] = &[
    ("", LineFault::BadShape),
    ("pst 0", LineFault::BadVerb),
    ("pst  0", LineFault::BadVerb),
    (" take 0 0", LineFault::BadShape),
    ("take 0", LineFault::BadShape),
    ("take 0 0 0", LineFault::BadShape),
    ("take 0 0 ", LineFault::BadShape),
    ("take\t0 0", LineFault::BadShape),
    ("pst 0\r", LineFault::BadShape),
    ("take 0 x", LineFault::BadField),
    ("take 0 18446744073709551616", LineFault::BadField),
    ("info 0", LineFault::BadShape),
    ("info 0 0 0", LineFault::BadShape),
    ("info 0 4294967296", LineFault::BadField),
    ("post x 0 barrier", LineFault::BadField),
    ("post 00 0 barrier", LineFault::BadField),
    ("post 4294967296 0 barrier", LineFault::BadField),
    ("post 0 0", LineFault::BadShape),
    ("post 0 0 bcst", LineFault::BadKind),
    ("post 0 0 bcast -1 int32 1", LineFault::BadField),
    ("post 0 0 bcast 0 int33 1", LineFault::BadType),
    ("post 0 0 bcast 0 int32", LineFault::BadShape),
    ("post 0 0 bcast 0 int32 2 ", LineFault::BadShape),
    ("post 0 0 allreduce avg int32 1", LineFault::UnknownOp),
    ("post 0 0 split 0 undefined", LineFault::BadField),
    ("post 0 0 cart_create 2 2", LineFault::BadField),
    ("post 0 0 barrier 0", LineFault::BadShape),
    ("post 0 0 barrier as alpha", LineFault::BadShape),
    ("post 0 0 bcast 0 int32 1 to alpha 1", LineFault::BadShape),
    ("post 0 0 bcast 0 int32 1 as", LineFault::BadShape),
    ("post 0 0 bcast 0 int8 1 as gamma 1", LineFault::BadLabel),
    ("post 0 0 bcast 0 int8 1 as none 1", LineFault::BadLabel),
    ("post 0 0 bcast 0 int8 1 as alpha  1", LineFault::BadShape),
    ("post 0 0 bcast 0 int8 1 as alpha 7 -", LineFault::BadNumber),
    ("post 0 0 bcast 0 int8 1 as alpha -0", LineFault::BadNumber),
    ("post 0 0 bcast 0 int8 1 as alpha 01", LineFault::BadNumber),
    ("post 0 0 bcast 0 int8 1 as alpha 128", LineFault::BadNumber),
    ("post 0 0 bcast 0 uint8 1 as alpha -1", LineFault::BadNumber),
    (
        "post 0 0 bcast 0 uint64 1 as alpha 18446744073709551616",
        LineFault::BadNumber,
    ),
    ("post 0 0 allgather 2int 1 as alpha 5", LineFault::OddPair),
    (
        "post 0 0 allgather 2int 1 as alpha 5 x",
        LineFault::BadNumber,
    ),
    (
        "post 0 0 allgather 2int 1 as alpha 5 2147483648",
        LineFault::BadNumber,
    ),
];

#[test]
fn lines_have_their_first_fault(rt: HostRuntime) {
    for (line, fault) in FAULTS {
        assert!(&rt; fault_of(&rt, line) == Some(*fault), "{line}");
    }
}

// The fault of a line, none where it says a call.
fn fault_of(rt: &(impl AllocGlobal + Abort), line: &str) -> Option<LineFault> {
    let policy = wall(rt);
    let answer = read_call(rt.alloc(), &policy, line.as_bytes());
    drop(policy);
    match answer {
        Ok(call) => {
            drop(call);
            None
        }
        Err(fault) => Some(fault),
    }
}

// The part of a post from `as` on, where it gives elements.
fn put_given(
    policy: &Policy,
    label: &Label,
    elements: &Buffer,
    line: &mut Vec<u8>,
) -> Result<(), NoMemory>
    requires { IsKnownLabel policy.now label.now }
{
    if elements.is_empty() {
        return Ok(());
    }
    put(line, " as ")?;
    put(line, label_text(policy, label))?;
    Ok(put_spaced(line, elements, 0)?)
}

// A verb with its process and a number.
fn put_two(line: &mut Vec<u8>, verb: &str, process: u32, number: u64) -> Result<(), AllocError> {
    put(line, verb)?;
    put_decimal(line, u64::from(process))?;
    put(line, " ")?;
    put_decimal(line, number)
}

// The line of an act of a process.
fn put_act(policy: &Policy, process: u32, act: &Act, line: &mut Vec<u8>) -> Result<(), NoMemory>
    requires { HasKnownLabel policy.now act.now }
{
    match act {
        Act::Post(
            Posting {
                comm,
                sig,
                own,
                label,
                elements,
            },
        ) => {
            put_two(line, "post ", process, u64::from(*comm))?;
            put(line, " ")?;
            write_statement(sig, own, line)?;
            put_given(policy, label, elements, line)
        }
        Act::Take(request) => Ok(put_two(line, "take ", process, *request)?),
        Act::Info(comm) => Ok(put_two(line, "info ", process, u64::from(*comm))?),
    }
}

// Whether the line is read, and its call is spelled as the line.
fn is_spelled(rt: &(impl AllocGlobal + Abort), line: &str) -> bool {
    let policy = wall(rt);
    let is_so = match read_call(rt.alloc(), &policy, line.as_bytes()) {
        Ok(call) => {
            let is_put = is_put_as(rt.alloc(), &policy, &call, line);
            drop(call);
            is_put
        }
        Err(_) => false,
    };
    drop(policy);
    is_so
}

// Whether the call is spelled as the line.
fn is_put_as(alloc: Global, policy: &Policy, call: &Call, line: &str) -> bool
    requires { HasKnownLabel policy.now call.now.act }
{
    let mut text = Vec::new(alloc);
    let is_put = put_act(policy, call.process, &call.act, &mut text).is_ok();
    is_put && text.as_slice() == line.as_bytes()
}

const CALLS: &[&str] = &[
    "post 4294967295 4294967295 barrier",
    "post 0 3 bcast 2 int8 1 as alpha -128",
    "post 0 0 gather 0 int16 0",
    "post 0 0 gatherv 3 int32 as public 2147483647 0",
    "post 0 0 scatter 1 int64 1 as delta -9223372036854775808 1",
    "post 0 0 scatterv 1 uint8 0,2,1 as crude 255 0 1",
    "post 0 0 scatterv 1 uint8 -",
    "post 0 0 allgather 2int 2 as beta 5 0 -5 1",
    "post 0 0 allgatherv uint32 as alpha 4294967295",
    "post 0 0 alltoall uint64 1 as alpha 18446744073709551615",
    "post 0 0 alltoall uint64 2 as alpha 1 9999999999999999999 18446744073709551615 2",
    "post 0 0 gather 0 int64 3 as alpha -9223372036854775808 5 9223372036854775807",
    "post 0 0 alltoallv uint16 1,1 as alpha 65535 1",
    "post 0 0 reduce 0 max int32 1",
    "post 0 0 allreduce sum int32 1 as alpha 5",
    "post 0 0 reduce_scatter prod int8 2,0 as alpha 1 1",
    "post 0 0 reduce_scatter_block land int32 1",
    "post 0 0 scan lor int32 1",
    "post 0 0 exscan minloc 2int 1 as public 3 4",
    "post 0 1 neighbor_allgather int32 1 as alpha 7",
    "post 0 1 neighbor_allgatherv int32",
    "post 0 1 neighbor_alltoall int32 1",
    "post 0 1 neighbor_alltoallv int32 1,2",
    "post 0 0 dup",
    "post 0 0 split undefined -1",
    "post 0 0 split 7 0",
    "post 0 0 create 0,2,3",
    "post 0 0 cart_create 2,2 1,0",
    "post 0 1 cart_sub 0,1",
    "take 4294967295 18446744073709551615",
    "info 0 4294967295",
];

#[test]
fn lines_say_their_calls(rt: HostRuntime) {
    for line in CALLS {
        assert!(&rt; is_spelled(&rt, line), "{line}");
    }
    assert!(&rt; fault_of(&rt, "post 0 0 bcast 0 int32 0 as alpha").is_none());
}

// Whether the reply has this line, which is put behind what is there.
fn has_line(rt: &(impl AllocGlobal + Abort), reply: Reply, line: &str) -> bool
    requires { (wall : ChineseWall) → 1 < length wall.process_names →
        0 < length wall.dataset_names → IsKnownReply wall reply }
{
    let policy = wall(rt);
    assert!(rt; 1 < policy.processes() && 0 < policy.datasets());
    let is_so = is_written_as(rt.alloc(), &policy, &reply, line);
    drop(reply);
    drop(policy);
    is_so
}

fn is_written_as(alloc: Global, policy: &Policy, reply: &Reply, line: &str) -> bool
    requires { IsKnownReply policy.now reply.now }
{
    let mut bytes = Vec::new(alloc);
    let is_written = bytes.push(b'>').is_ok() && write_reply(policy, reply, &mut bytes).is_ok();
    is_written && bytes.as_slice() == line.as_bytes()
}

// Blocks of a type's numbers, and none for one that is missing.
const BLOCKS: &[Option<(ElemType, &[i128])>] = &[
    Some((ElemType::Int8, &[7, -1])),
    None,
    Some((ElemType::TwoInt, &[])),
    Some((ElemType::Int64, &[-9223372036854775808])),
    Some((ElemType::Uint64, &[18446744073709551615])),
];

fn block(rt: &(impl AllocGlobal + Abort), ty: ElemType, numbers: &[i128]) -> Block {
    match Buffer::from_numbers(rt.alloc(), ty, numbers) {
        Ok(buffer) => Block::Numbers(Integers::from(buffer)),
        Err(_) => panic!(rt; "no buffer"),
    }
}

fn blocks(rt: &(impl AllocGlobal + Abort)) -> Delivery {
    let mut blocks = Vec::new(rt.alloc());
    for row in BLOCKS {
        let block = match row {
            Some((ty, numbers)) => block(rt, *ty, numbers),
            None => Block::Missing,
        };
        assert!(rt; blocks.push(block).is_ok(), "no memory");
    }
    Delivery::from(blocks)
}

// The reply has this line.
fn expect_line(rt: &(impl AllocGlobal + Abort), reply: Reply, line: &str)
    requires { (wall : ChineseWall) → 1 < length wall.process_names →
        0 < length wall.dataset_names → IsKnownReply wall reply }
{
    assert!(rt; has_line(rt, reply, line), "{line}");
}

#[test]
fn deliveries_have_their_lines(rt: HostRuntime) {
    let none = Delivery::from(Vec::new(rt.alloc()));
    expect_line(&rt, Reply::Delivered(none), ">delivered none\n");
    expect_line(
        &rt,
        Reply::Delivered(blocks(&rt)),
        ">delivered [7 -1] - [] [-9223372036854775808] [18446744073709551615]\n",
    );
}

// A delivery of as many blocks as there can be members: of the numbers from 0 on, one in each.
fn wide_delivery(rt: &(impl AllocGlobal + Abort)) -> Delivery {
    let mut blocks = Vec::new(rt.alloc());
    for number in 0..256u32 {
        let block = block(rt, ElemType::Int16, &[i128::from(number)]);
        assert!(rt; blocks.push(block).is_ok(), "no memory");
    }
    Delivery::from(blocks)
}

// Its line.
fn wide_line(alloc: Global) -> Result<String, AllocError> {
    let mut line = String::from_str(alloc, ">delivered")?;
    for number in 0..256u32 {
        write!(line, " [{number}]")?;
    }
    line.push_str("\n")?;
    Ok(line)
}

#[test]
fn a_delivery_of_256_blocks_has_its_line(rt: HostRuntime) -> Result<(), Fail> {
    let line = wide_line(rt.alloc())?;
    expect_line(&rt, Reply::Delivered(wide_delivery(&rt)), &line);
    Ok(())
}

#[test]
fn replies_have_their_lines(rt: HostRuntime) {
    expect_line(
        &rt,
        Reply::Posted(18446744073709551615),
        ">posted 18446744073709551615\n",
    );
    expect_line(&rt, Reply::Pending, ">pending\n");
    expect_line(
        &rt,
        Reply::NewComm {
            comm: 2,
            rank: 1,
            size: 3,
        },
        ">comm 2 rank 1 size 3\n",
    );
    expect_line(&rt, Reply::NullComm, ">null\n");
    expect_line(&rt, Reply::NoRoom, ">noroom\n");
    expect_line(
        &rt,
        Reply::Info {
            size: 4,
            rank: 0,
            dims: None,
        },
        ">info size 4 rank 0\n",
    );
    expect_line(
        &rt,
        Reply::Info {
            size: 4,
            rank: 3,
            dims: Some(2),
        },
        ">info size 4 rank 3 dims 2\n",
    );
}

#[test]
fn barred_replies_name_their_label(rt: HostRuntime) {
    let Some(dataset) = DatasetId::new(0) else {
        panic!(&rt; "no dataset")
    };
    let barred = Reply::Barred {
        request: 6,
        label: Label::Of(dataset),
    };
    let public = Reply::Barred {
        request: 0,
        label: Label::Public,
    };
    assert!(&rt; has_line(&rt, barred, ">barred 6 alpha\n"));
    assert!(&rt; has_line(&rt, public, ">barred 0 public\n"));
    let other = Reply::Barred {
        request: 6,
        label: Label::Of(dataset),
    };
    assert!(&rt; !has_line(&rt, other, ">barred 6 beta\n"));
}

#[test]
fn denials_name_process_and_label(rt: HostRuntime) {
    let Some(process) = ProcessId::new(1) else {
        panic!(&rt; "no process")
    };
    let Some(dataset) = DatasetId::new(0) else {
        panic!(&rt; "no dataset")
    };
    let denied = Reply::Denied {
        rule: Rule::Simple,
        process,
        label: Label::Of(dataset),
    };
    assert!(&rt; has_line(&rt, denied, ">denied simple b0 alpha\n"));
    let barred = Reply::Denied {
        rule: Rule::Star,
        process,
        label: Label::Public,
    };
    assert!(&rt; has_line(&rt, barred, ">denied star b0 public\n"));
}

const REFUSALS: &[(Refusal, &str)] = &[
    (Refusal::NoSuchProcess, ">refused NoSuchProcess\n"),
    (Refusal::NoSuchComm, ">refused NoSuchComm\n"),
    (Refusal::NotMember, ">refused NotMember\n"),
    (Refusal::NoTopology, ">refused NoTopology\n"),
    (Refusal::BadRoot, ">refused BadRoot\n"),
    (Refusal::BadOp, ">refused BadOp\n"),
    (Refusal::BadCount, ">refused BadCount\n"),
    (Refusal::BadColour, ">refused BadColour\n"),
    (Refusal::NotSubgroup, ">refused NotSubgroup\n"),
    (Refusal::BadDims, ">refused BadDims\n"),
    (Refusal::Mismatch, ">refused Mismatch\n"),
    (Refusal::TooManyRequests, ">refused TooManyRequests\n"),
    (Refusal::NoMemory, ">refused NoMemory\n"),
    (Refusal::NoSuchRequest, ">refused NoSuchRequest\n"),
];

#[test]
fn refusals_have_their_names(rt: HostRuntime) {
    for (refusal, line) in REFUSALS {
        assert!(&rt; has_line(&rt, Reply::Refused(*refusal), line), "{line}");
    }
}

// So many bytes as a read asks for at once.
const LONG: [u8; 1024] = [b'x'; 1024];

// What a device holds, the limit, when it fails, and what is told of it.
const DEVICES: &[(&[u8], usize, Fuse, Option<DeviceFault>)] = &[
    (b"abcde", 4, Fuse::Whole, Some(DeviceFault::Read)),
    (b"abcde", 5, Fuse::Whole, None),
    (b"abcde", 16777216, Fuse::Whole, None),
    (b"abcde", 5, Fuse::After(0), Some(DeviceFault::Read)),
    (b"abcde", 5, Fuse::After(1), Some(DeviceFault::Read)),
    (b"abcde", 5, Fuse::After(2), None),
    (&LONG, 1023, Fuse::Whole, Some(DeviceFault::Read)),
    (&LONG, 1024, Fuse::After(1), Some(DeviceFault::Read)),
    (&LONG, 1024, Fuse::After(2), None),
];

// The fault of a device, none where it is read to its end. Room is taken for what it gives, and not
// for the limit.
fn fault_of_device(
    rt: &(impl AllocGlobal + Abort),
    source: &mut MemorySource,
    limit: usize,
) -> Option<DeviceFault> {
    match read_device(rt.alloc(), source, limit) {
        Ok(bytes) => {
            let most = bytes.len().saturating_mul(2).saturating_add(64);
            assert!(rt; bytes.capacity() <= most, "{limit}");
            None
        }
        Err(fault) => Some(fault),
    }
}

#[test]
fn devices_are_read_to_their_limit(rt: HostRuntime) {
    for (bytes, limit, fuse, fault) in DEVICES {
        let mut source = MemorySource {
            rest: *bytes,
            fuse: *fuse,
        };
        let found = fault_of_device(&rt, &mut source, *limit);
        assert_eq!(&rt; found, *fault, "{limit}");
    }
}

// The lines of the acts of each process, process by process; false where there are too many.
fn put_scripts(policy: &Policy, scripts: &Scripts, text: &mut Vec<u8>) -> Result<bool, NoMemory>
    requires { ScriptsHaveKnownLabels policy.now scripts.now }
{
    for (process, acts) in scripts.as_slice().iter().enumerate() {
        let Ok(process) = u32::try_from(process) else {
            return Ok(false);
        };
        put_acts(policy, process, acts, text)?;
    }
    Ok(true)
}

fn put_acts(policy: &Policy, process: u32, acts: &Acts, text: &mut Vec<u8>) -> Result<(), NoMemory>
    requires { All (HasKnownLabel policy.now) acts.now }
{
    for act in acts.as_slice() {
        put_act(policy, process, act, text)?;
        put(text, "\n")?;
    }
    Ok(())
}

const MIXED: &[u8] = b"# two of each, one process with none
post 3 0 allreduce sum int32 1 as public 1
take 0 1\r
take 3 0

info 1 0
post 0 0 barrier
take 1 18446744073709551615";

const BY_PROCESS: &str = "take 0 1
post 0 0 barrier
info 1 0
take 1 18446744073709551615
post 3 0 allreduce sum int32 1 as public 1
take 3 0
";

// Whether the acts of the scripts, process by process, are this text.
fn are_put_as(alloc: Global, policy: &Policy, scripts: &Scripts, acts: &str) -> bool
    requires { ScriptsHaveKnownLabels policy.now scripts.now }
{
    let mut text = Vec::new(alloc);
    let is_put = matches!(put_scripts(policy, scripts, &mut text), Ok(true));
    is_put && text.as_slice() == acts.as_bytes()
}

// The most room that the acts of one process have.
fn most_room(rows: Vec<Acts>) -> usize {
    let mut most = 0;
    for acts in rows {
        let acts = acts.into_vec();
        most = most.max(acts.capacity());
        drop(acts);
    }
    most
}

// The scripts have these acts, for so many processes, and each room for a few.
fn expect_scripts(
    rt: &(impl AllocGlobal + Abort),
    policy: &Policy,
    script: &[u8],
    acts: &str,
    processes: usize,
) {
    match split_script(rt.alloc(), policy, script) {
        Ok(scripts) => {
            assert!(rt; are_put_as(rt.alloc(), policy, &scripts, acts));
            let rows = scripts.into_vec();
            assert!(rt; rows.len() == processes);
            assert!(rt; most_room(rows) <= 16);
        }
        Err(_) => panic!(rt; "the script is not split"),
    }
}

#[test]
fn scripts_are_split_by_processes(rt: HostRuntime) {
    let policy = wall(&rt);
    expect_scripts(&rt, &policy, MIXED, BY_PROCESS, 4);
    drop(policy);
}

// The fault of a script, none where it is split.
pub(crate) fn fault_of_script(
    alloc: Global,
    policy: &Policy,
    script: &[u8],
) -> Option<ScriptFault> {
    match split_script(alloc, policy, script) {
        Ok(scripts) => {
            drop(scripts);
            None
        }
        Err(fault) => Some(fault),
    }
}

const BROKEN: &[(&[u8], u64, LineFault)] = &[
    (b"take 7 0", 1, LineFault::BadField),
    (b"take 0 0\n#\ntake 4 0\npst\n", 3, LineFault::BadField),
    (b"\npst 7\ntake 7 0\n", 2, LineFault::BadVerb),
    (b"post 4 0 bcst\n", 1, LineFault::BadKind),
];

fn expect_faults(rt: &(impl AllocGlobal + Abort), policy: &Policy) {
    for (script, line, fault) in BROKEN {
        let ended = fault_of_script(rt.alloc(), policy, script);
        assert!(rt; ended == Some(ScriptFault::Line(*line, *fault)));
    }
}

#[test]
fn scripts_are_split_up_to_their_first_fault(rt: HostRuntime) {
    let policy = wall(&rt);
    expect_faults(&rt, &policy);
    drop(policy);
}
