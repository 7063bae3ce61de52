//! The rules of a call that its first turn checks, before any path: those on the script and on capabilities.
ghost use Rattle.std.specs.Prelude.{◌≡◌, ◌∷◌, [], Ok, nat_eq, option_map, ℕ};
ghost use Rattle.vt_cred.specs.Caps.{capability_bits};
ghost use Rattle.vt_spec.specs.declared.errors.Rule.TheVariants.{K1};
ghost use Rattle.vt_spec.specs.Machine.Rules.Conditions.{lacks};
ghost use Rattle.vt_spec.specs.Errors.{unless};
ghost use Rattle.vt_spec.specs.Language.Calls.Call.{Fork};
ghost use Rattle.vt_spec.specs.Machine.Looks.{Looks};
ghost use Rattle.vt_spec.specs.Machine.Turns.{entry_rules};
ghost use Rattle.vt_request.specs.Requests.{call_of, fork_words_of, task_call_of};
ghost use Rattle.vt_tasks.specs.TaskValue.{task_of};

use vt_cred::Caps;
use vt_request::{Call, DescriptorCall, ForkWords, TaskCall, WriteCall};
use vt_rules::{is_barren, lacks, may_fork};
use vt_spec::errors::{Deny, Rule};
use vt_tasks::{MAX_DESCRIPTORS, Task};

// K1 (EPERM).
fn needs(who: &Task, wanted: Caps) -> Result<(), Deny>
    ensures { result ≡ unless ((lacks (task_of who.now) (capability_bits wanted), K1) ∷ []) (Ok tt) }
{
    if lacks(who, wanted) {
        return Err(Rule::K1.denial());
    }
    Ok(())
}

// S6 (ENOSPC), K1 (EPERM): fork(2).
#[tactic(auto, unfolding(vt_spec::specs::Machine::Judging::judging))]
fn may_begin_fork(who: &Task, words: Option<&ForkWords>) -> Result<(), Deny>
    ensures { (looks : Looks ℕ) → result ≡ unless (entry_rules nat_eq looks (task_of who.now)
        (Fork (option_map (λ given. fork_words_of given.now) words.entry))) (Ok tt) }
{
    match words {
        Some(words) => may_fork(who, words),
        None if is_barren(who) => Err(Rule::S6.denial()),
        None => Ok(()),
    }
}

// A call that changes the caller, or makes a task.
#[tactic(auto, unfolding(vt_spec::specs::Machine::Judging::judging))]
fn may_begin_task(who: &Task, call: &TaskCall<'_>) -> Result<(), Deny>
    ensures { (looks : Looks ℕ) → result
        ≡ unless (entry_rules nat_eq looks (task_of who.now) (task_call_of call.now)) (Ok tt) }
{
    match call {
        TaskCall::Unshare => needs(who, Caps::CAP_SYS_ADMIN),
        TaskCall::Chroot { .. } => needs(who, Caps::CAP_SYS_CHROOT),
        TaskCall::Fork { words } => may_begin_fork(who, words.as_ref()),
        _ => Ok(()),
    }
}

/// The rules on the script and on capabilities that the first turn of a call checks: S3 (EMFILE), S6 (ENOSPC), K1
/// (EPERM). A descriptor or a task that the call names is looked for in its last turn.
#[tactic(auto, unfolding(vt_spec::specs::Machine::Judging::judging))]
pub fn may_begin(who: &Task, call: &Call<'_>) -> Result<(), Deny>
    ensures { (looks : Looks ℕ) → result
        ≡ unless (entry_rules nat_eq looks (task_of who.now) (call_of call.now)) (Ok tt) }
{
    match call {
        Call::Write(WriteCall::Opaque { .. }) | Call::Mount(_) => needs(who, Caps::CAP_SYS_ADMIN),
        Call::Task(call) => may_begin_task(who, call),
        Call::Descriptor(DescriptorCall::Open { .. }) if who.descriptors.len() >= MAX_DESCRIPTORS =>
            { Err(Rule::S3.denial()) }
        _ => Ok(()),
    }
}
