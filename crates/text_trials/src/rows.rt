//! What public clauses promise by definitions of other crates, said in numbers and by examples: a
//! definition that grew weaker would be refused here. The functions do nothing.
ghost use Rattle.std.specs.Prelude.{◌≤◌, length, None};
ghost use Rattle.run_model.specs.RunLaws.{NeedsMemory};
ghost use Rattle.run_model.specs.declared.refusal.Refusal.TheVariants.{NotMember};
ghost use Rattle.run_model.specs.declared.reply.Reply.TheVariants.{Pending, NullComm, NoRoom};
ghost use Rattle.run_model.specs.declared.reply.Reply.TheVariants.{NewComm, Info, Refused};

use wall_policy::Policy;

/// A policy has 1,024 classes at most.
pub fn classes_are_few(policy: &Policy)
    ensures { length policy.now.class_names ≤ 1024 }
{
    let _ = policy.processes();
}

/// What makes no post and delivers nothing needs no memory: out of memory never takes its place.
pub fn few_replies_need_memory()
    ensures pending { ¬ (NeedsMemory Pending) }
    ensures null { ¬ (NeedsMemory NullComm) }
    ensures none { ¬ (NeedsMemory NoRoom) }
    ensures comm { ¬ (NeedsMemory (NewComm 1 0 1)) }
    ensures info { ¬ (NeedsMemory (Info 1 0 None)) }
    ensures refused { ¬ (NeedsMemory (Refused NotMember)) }
{}
