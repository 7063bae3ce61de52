//! Calls that set attributes and marks: chmod(2), chown(2), setxattr(2).
ghost use Rattle.std.specs.Prelude.{nat_eq};
ghost use Rattle.vt_spec.specs.Language.Calls.Call.{Chmod, Chown, Opaque};
ghost use Rattle.vt_permits.specs.Memory.{JudgesAlike};
ghost use Rattle.vt_tasks.specs.TaskValue.{task_of};
ghost use Rattle.vt_policy.specs.Judged.{judge_by_looks};

use crate::paths::{directory_at, object_at};
use vt_cred::{Caps, Mode, owns};
use vt_looks::Look;
use vt_node::Attr;
use vt_permits::{Grant, WriteGrant};
use vt_rules::{attr_at, attr_permit, lacks, may_chown, may_mark};
use vt_spec::errors::{Deny, Rule};
use vt_tasks::Task;

/// After the rules of the walk those of `vt_rules::attr_permit`.
#[tactic(auto, unfolding(vt_spec::specs::Machine::Judging::judging))]
pub fn chmod<L: Look>(world: &L, who: &Task, path: &[u8], mode: Mode) -> Result<Grant, Deny>
    ensures { JudgesAlike (task_of who.now)
        (judge_by_looks (L.looks world.now) (task_of who.now) (Chmod path.now mode)) result }
{
    let object = object_at(world, who, path)?;
    let old = attr_at(world, object);
    let new = Attr {
        uid: old.uid,
        gid: old.gid,
        mode,
    };
    attr_permit(world, who, object, owns(&who.cred, &old), new)
}

/// After the rules of the walk those of `vt_rules::attr_permit`.
#[tactic(auto, unfolding(vt_spec::specs::Machine::Judging::judging))]
pub fn chown<L: Look>(
    world: &L,
    who: &Task,
    path: &[u8],
    uid: Option<u32>,
    gid: Option<u32>,
) -> Result<Grant, Deny>
    ensures { JudgesAlike (task_of who.now)
        (judge_by_looks (L.looks world.now) (task_of who.now) (Chown path.now uid gid)) result }
{
    let object = object_at(world, who, path)?;
    let old = attr_at(world, object);
    let new = Attr {
        uid: uid.unwrap_or(old.uid),
        gid: gid.unwrap_or(old.gid),
        mode: old.mode,
    };
    attr_permit(world, who, object, may_chown(&who.cred, &old, &new), new)
}

/// K1 (EPERM), and after the rules of the walk those of `may_mark`.
#[tactic(auto, unfolding(vt_spec::specs::Machine::Judging::judging))]
pub fn opaque<L: Look>(world: &L, who: &Task, path: &[u8], mark: bool) -> Result<Grant, Deny>
    ensures { JudgesAlike (task_of who.now)
        (judge_by_looks (L.looks world.now) (task_of who.now) (Opaque path.now mark)) result }
{
    if lacks(who, Caps::CAP_SYS_ADMIN) {
        return Err(Rule::K1.denial());
    }
    let directory = directory_at(world, who, path)?;
    may_mark(world, directory)?;
    Ok(Grant::Write(WriteGrant::Mark {
        directory,
        opaque: mark,
    }))
}
