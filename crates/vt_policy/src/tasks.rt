//! Calls on tasks and namespaces: chdir(2), chroot(2), fork(2), setuid(2), setgroups(2), capset(2), unshare(2),
//! setns(2).
ghost use Rattle.std.specs.Prelude.{◌≡◌, nat_eq, option_map, None, ℕ};
ghost use Rattle.vt_spec.specs.Language.Calls.Call.{Chdir, Chroot, Fork, Setns, Unshare};
ghost use Rattle.vt_spec.specs.Machine.Tasks.{permission_bits};
ghost use Rattle.vt_permits.specs.Memory.{Judges, JudgesAlike};
ghost use Rattle.vt_request.specs.Requests.{fork_words_of};
ghost use Rattle.vt_tasks.specs.TaskValue.{task_of};
ghost use Rattle.vt_spec.specs.Machine.Looks.{Looks};
ghost use Rattle.vt_policy.specs.Judged.{judge_by_looks};

use crate::paths::directory_at;
use vt_cred::{Caps, Cred, Mode};
use vt_looks::Look;
use vt_permits::{Grant, TaskGrant};
use vt_request::{ForkWords, TaskName};
use vt_rules::{is_barren, lacks, may_enter, may_fork, named};
use vt_spec::errors::{Deny, Rule};
use vt_tasks::Task;

/// After the rules of the walk: C1 (EACCES), B1 (EACCES).
#[tactic(auto, unfolding(vt_spec::specs::Machine::Judging::judging))]
pub fn chdir<L: Look>(world: &L, who: &Task, path: &[u8]) -> Result<Grant, Deny>
    ensures { JudgesAlike (task_of who.now)
        (judge_by_looks (L.looks world.now) (task_of who.now) (Chdir path.now)) result }
{
    let directory = directory_at(world, who, path)?;
    may_enter(world, who, directory)?;
    Ok(Grant::Task(TaskGrant::SetDirectory { directory }))
}

/// K1 (EPERM), and after the rules of the walk C1 (EACCES), B1 (EACCES).
#[tactic(auto, unfolding(vt_spec::specs::Machine::Judging::judging))]
pub fn chroot<L: Look>(world: &L, who: &Task, path: &[u8]) -> Result<Grant, Deny>
    ensures { JudgesAlike (task_of who.now)
        (judge_by_looks (L.looks world.now) (task_of who.now) (Chroot path.now)) result }
{
    if lacks(who, Caps::CAP_SYS_CHROOT) {
        return Err(Rule::K1.denial());
    }
    let root = directory_at(world, who, path)?;
    may_enter(world, who, root)?;
    Ok(Grant::Task(TaskGrant::SetRoot { root }))
}

/// A mode's permission bits: umask(2).
pub fn permission_bits(mode: Mode) -> Mode
    ensures { result ≡ permission_bits mode }
{
    Mode::new(mode.bits() & 0o777).unwrap()
}

/// S6 (ENOSPC), K1 (EPERM).
#[tactic(auto, unfolding(vt_spec::specs::Machine::Judging::judging))]
pub fn fork(who: &Task, words: Option<ForkWords>) -> Result<Grant, Deny>
    ensures { (looks : Looks ℕ) → Judges (task_of who.now)
        (judge_by_looks looks (task_of who.now) (Fork (option_map fork_words_of words))) result }
{
    let Some(words) = words else {
        return fork_alike(who);
    };
    may_fork(who, &words)?;
    let caps = named(&who.cred, words.caps);
    Ok(Grant::Task(TaskGrant::Fork {
        cred: Cred::new(words.uid, words.gid, words.groups, caps),
    }))
}

// A child with the caller's credentials: S6 (ENOSPC).
#[tactic(auto, unfolding(vt_spec::specs::Machine::Judging::judging))]
fn fork_alike(who: &Task) -> Result<Grant, Deny>
    ensures { (looks : Looks ℕ) → Judges (task_of who.now) (judge_by_looks looks (task_of who.now) (Fork None)) result }
{
    if is_barren(who) {
        return Err(Rule::S6.denial());
    }
    let Ok(cred) = who.cred.clone() else {
        return Err(Rule::S5.denial());
    };
    Ok(Grant::Task(TaskGrant::Fork { cred }))
}

/// K1 (EPERM).
#[tactic(auto, unfolding(vt_spec::specs::Machine::Judging::judging))]
pub fn unshare(who: &Task) -> Result<Grant, Deny>
    ensures { (looks : Looks ℕ) → JudgesAlike (task_of who.now)
        (judge_by_looks looks (task_of who.now) Unshare) result }
{
    if lacks(who, Caps::CAP_SYS_ADMIN) {
        return Err(Rule::K1.denial());
    }
    Ok(Grant::Task(TaskGrant::Unshare))
}

/// S2 (ESRCH) of the task that is named, K1 (EPERM).
#[tactic(auto, unfolding(vt_spec::specs::Machine::Judging::judging))]
pub fn setns<L: Look>(world: &L, who: &Task, name: &TaskName) -> Result<Grant, Deny>
    ensures { JudgesAlike (task_of who.now)
        (judge_by_looks (L.looks world.now) (task_of who.now) (Setns name.now)) result }
{
    let Some(namespace) = world.namespace_called(name) else {
        return Err(Rule::S2.denial());
    };
    if lacks(who, Caps::CAP_SYS_ADMIN) || lacks(who, Caps::CAP_SYS_CHROOT) {
        return Err(Rule::K1.denial());
    }
    Ok(Grant::Task(TaskGrant::EnterNamespace { namespace }))
}
