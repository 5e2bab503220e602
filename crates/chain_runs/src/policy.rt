//! Reads the policy of a run: of one that a chain file has, and of the one that comes next.
ghost use Rattle.std.specs.Prelude.{◌≡◌, List, Ok, IfOk, IfErr};
ghost use Rattle.std.specs.Option.{option_copied};
ghost use Rattle.run_model.specs.Chains.{Link, IsChain};
ghost use Rattle.wall_policy.specs.Answer.{answer_to};
ghost use Rattle.hall_script.specs.Devices.{used, IsRead};
ghost use Rattle.hall_script.specs.Scripts.{script_limit};
ghost use Rattle.chain_runs.specs.Runs.{IsUnder, IsFileOf, SaysPolicy, IsChainAfter, IsNext};
ghost use Rattle.chain_runs.specs.Runs.{IsBegunUnder};
ghost use Rattle.chain_runs.specs.Faults.{IsNoFile, IsNoPolicy, IsNotUnder, IsNotBegun, IsNoNext};
ghost use Rattle.chain_runs.specs.Faults.{SaysNone, IsNoBytes};

use crate::fault::RunFault;
use book_chain::{GrowthFault, next_policy};
use chain_file::Begun;
use hall_script::{DeviceFault, SCRIPT_LIMIT, read_device};
use sha2::{Digest, Sha256};
use std::alloc::Global;
use wall_labels::Source;
use wall_policy::{Policy, PolicyFault, read_policy};

// Reads a policy file whole.
fn read_bytes<P: Source>(alloc: Global, source: &mut P) -> Result<Vec<u8>, RunFault>
    ensures bytes { let device = used P.failures P.remaining source.old source.new in
        IfOk result (λ bytes. IsRead device script_limit bytes.items) }
    ensures fault { let device = used P.failures P.remaining source.old source.new in
        IfErr result (IsNoBytes device) }
{
    match read_device(alloc, source, SCRIPT_LIMIT) {
        Ok(bytes) => Ok(bytes),
        Err(DeviceFault::Read) => Err(RunFault::UnreadPolicy),
        Err(DeviceFault::NoMemory) => Err(RunFault::NoMemory),
    }
}

// The policy that these bytes say.
fn said(alloc: Global, bytes: &[u8]) -> Result<Policy, RunFault>
    ensures said { IfOk result (λ file. answer_to bytes.now ≡ Ok file) }
    ensures fault { IfErr result (SaysNone bytes.now) }
{
    match read_policy(alloc, bytes) {
        Ok(file) => Ok(file),
        Err(PolicyFault::NoMemory) => Err(RunFault::NoMemory),
        Err(fault) => Err(RunFault::BadPolicy(fault)),
    }
}

// Reads the policy file of a run whole. It is the one of which the chain has the digest.
fn read_file<P: Source>(alloc: Global, begun: &Begun, source: &mut P) -> Result<Vec<u8>, RunFault>
    ensures file { let device = used P.failures P.remaining source.old source.new in
        IfOk result (λ bytes. IsFileOf device begun.now.policy_digest bytes.items) }
    ensures fault { let device = used P.failures P.remaining source.old source.new in
        IfErr result (IsNoFile device begun.now.policy_digest) }
{
    let bytes = match read_bytes(alloc, source) {
        Ok(bytes) => bytes,
        Err(fault) => return Err(fault),
    };
    let digest = Sha256::digest(bytes.as_slice());
    if digest != begun.policy_digest {
        return Err(RunFault::OtherPolicy);
    }
    Ok(bytes)
}

// The policy that the file of a run says.
fn read_said<P: Source>(alloc: Global, begun: &Begun, source: &mut P) -> Result<Policy, RunFault>
    ensures said { let device = used P.failures P.remaining source.old source.new in
        IfOk result (SaysPolicy device begun.now) }
    ensures fault { let device = used P.failures P.remaining source.old source.new in
        IfErr result (IsNoPolicy device begun.now) }
{
    let bytes = match read_file(alloc, begun, source) {
        Ok(bytes) => bytes,
        Err(fault) => return Err(fault),
    };
    match said(alloc, &bytes) {
        Ok(file) => Ok(file),
        Err(fault) => Err(fault),
    }
}

// The policy of a run whose file says this one.
fn under(alloc: Global, after: Option<&Policy>, file: Policy) -> Result<Policy, RunFault>
    ensures under { IfOk result (IsUnder (option_copied after.entry) file) }
    ensures chain { IfOk result (λ wall. (links : List Link) →
        IsChainAfter (option_copied after.entry) links → IsChain links wall) }
    ensures fault { IfErr result (IsNotUnder (option_copied after.entry) file) }
{
    let Some(after) = after else {
        return Ok(file);
    };
    match next_policy(alloc, after, &file) {
        Ok(wall) => Ok(wall),
        Err(GrowthFault::NoMemory) => Err(RunFault::NoMemory),
        Err(fault) => Err(RunFault::NotGrown(fault)),
    }
}

/// Reads the policy of a run that began: that of its file, which has the digest that the chain has
/// of it. `after` is the policy after the runs before it; none where it is the first. The file has
/// grown from that, by names, and what was held before stays held.
pub fn read_begun<P: Source>(
    alloc: Global,
    after: Option<&Policy>,
    begun: &Begun,
    policy: &mut P,
) -> Result<Policy, RunFault>
    ensures under { let policies = used P.failures P.remaining policy.old policy.new in
        IfOk result (IsBegunUnder (option_copied after.entry) begun.now policies) }
    ensures chain { IfOk result (λ wall. (links : List Link) →
        IsChainAfter (option_copied after.entry) links → IsChain links wall) }
    ensures fault { let policies = used P.failures P.remaining policy.old policy.new in
        IfErr result (IsNotBegun (option_copied after.entry) begun.now policies) }
{
    let file = match read_said(alloc, begun, policy) {
        Ok(file) => file,
        Err(fault) => return Err(fault),
    };
    under(alloc, after, file)
}

/// The policy of the run that comes next.
#[derive(Drop)]
pub struct Next {
    pub policy: Policy,
    /// The digest of its file, for the line of the run in the chain file.
    pub digest: [u8; 32],
}

/// Reads the policy file of the run that comes next, and gives the policy that it is under, with
/// the digest of the file. `after` is the policy after the runs so far; none where there are none.
/// The file has grown from that, by names, and what was held before stays held.
///
/// The faults are those of a run's policy, but for `OtherPolicy`: the chain has no digest of it
/// yet.
pub fn read_next<P: Source>(
    alloc: Global,
    after: Option<&Policy>,
    policy: &mut P,
) -> Result<Next, RunFault>
    ensures next { let policies = used P.failures P.remaining policy.old policy.new in
        IfOk result (λ next.
        IsNext (option_copied after.entry) policies next.digest next.policy) }
    ensures chain { IfOk result (λ next. (links : List Link) →
        IsChainAfter (option_copied after.entry) links → IsChain links next.policy) }
    ensures fault { let policies = used P.failures P.remaining policy.old policy.new in
        IfErr result (IsNoNext (option_copied after.entry) policies) }
{
    let bytes = match read_bytes(alloc, policy) {
        Ok(bytes) => bytes,
        Err(fault) => return Err(fault),
    };
    let digest = Sha256::digest(bytes.as_slice());
    let file = match said(alloc, &bytes) {
        Ok(file) => file,
        Err(fault) => return Err(fault),
    };
    match under(alloc, after, file) {
        Ok(policy) => Ok(Next { policy, digest }),
        Err(fault) => Err(fault),
    }
}
