//! Calls that look: stat(2), readlink(2), read(2), getdents(2), execve(2).
ghost use Rattle.std.specs.Prelude.{◌≡◌, nat_eq, option_copied, Ok};
ghost use Rattle.vt_spec.specs.Errors.{unless};
ghost use Rattle.vt_spec.specs.Language.Calls.Call.{Exec, Ls, Lstat, Read, Readlink, Stat};
ghost use Rattle.vt_spec.specs.Machine.Rules.Looking.{read_rules};
ghost use Rattle.vt_location.specs.Locations.{location_of};
ghost use Rattle.vt_permits.specs.Memory.{JudgesAlike};
ghost use Rattle.vt_tasks.specs.TaskValue.{task_of};
ghost use Rattle.vt_policy.specs.Judged.{judge_by_looks};

use crate::paths::{directory_at, object_at, object_found_at, symlink_at};
use vt_cred::{Rights, allows};
use vt_location::Location;
use vt_looks::Look;
use vt_node::{Kind, Node};
use vt_permits::{Grant, LookGrant};
use vt_rules::{is_kind, is_noexec, may};
use vt_spec::errors::{Deny, Rule};
use vt_tasks::Task;

/// After the rules of the walk: C1 (EACCES), B1 (EACCES).
#[tactic(auto, unfolding(vt_spec::specs::Machine::Judging::judging))]
pub fn list<L: Look>(world: &L, who: &Task, path: &[u8]) -> Result<Grant, Deny>
    ensures { JudgesAlike (task_of who.now)
        (judge_by_looks (L.looks world.now) (task_of who.now) (Ls path.now)) result }
{
    let directory = directory_at(world, who, path)?;
    if !may(world, who, directory, Rights::READ) {
        return Err(Rule::C1.denial());
    }
    if !world.mounter_may(directory, Rights::READ) {
        return Err(Rule::B1.denial());
    }
    Ok(Grant::Look(LookGrant::List { directory }))
}

/// The rules of the walk alone.
#[tactic(auto, unfolding(vt_spec::specs::Machine::Judging::judging))]
pub fn stat<L: Look>(world: &L, who: &Task, path: &[u8]) -> Result<Grant, Deny>
    ensures { JudgesAlike (task_of who.now)
        (judge_by_looks (L.looks world.now) (task_of who.now) (Stat path.now)) result }
{
    let object = object_at(world, who, path)?;
    Ok(Grant::Look(LookGrant::Stat { object }))
}

/// The rules of the walk alone.
#[tactic(auto, unfolding(vt_spec::specs::Machine::Judging::judging))]
pub fn lstat<L: Look>(world: &L, who: &Task, path: &[u8]) -> Result<Grant, Deny>
    ensures { JudgesAlike (task_of who.now)
        (judge_by_looks (L.looks world.now) (task_of who.now) (Lstat path.now)) result }
{
    let object = symlink_at(world, who, path)?;
    Ok(Grant::Look(LookGrant::Stat { object }))
}

/// After the rules of the walk: E5 (EINVAL).
#[tactic(auto, unfolding(vt_spec::specs::Machine::Judging::judging))]
pub fn readlink<L: Look>(world: &L, who: &Task, path: &[u8]) -> Result<Grant, Deny>
    ensures { JudgesAlike (task_of who.now)
        (judge_by_looks (L.looks world.now) (task_of who.now) (Readlink path.now)) result }
{
    let symlink = symlink_at(world, who, path)?;
    if !is_kind(world, symlink, Kind::Symlink) {
        return Err(Rule::E5.denial());
    }
    Ok(Grant::Look(LookGrant::Read { file: symlink }))
}

// A file may be read, of which this is the real object: E2, E9, C1, B1. In an overlay a look at the object costs a walk
// through its layers.
fn may_read<L: Look>(
    world: &L,
    who: &Task,
    file: Location,
    object: Option<&Node>,
) -> Result<(), Deny>
    requires { option_copied object ≡ L.real world.now (location_of file) }
    ensures { result ≡ unless
        (read_rules (L.looks world.now) (task_of who.now) (location_of file)) (Ok tt) }
{
    let Some(object) = object else {
        return Err(Rule::C1.denial());
    };
    if object.is_directory() {
        return Err(Rule::E2.denial());
    }
    if object.kind() == Kind::White {
        return Err(Rule::E9.denial());
    }
    if !allows(&who.cred, &object.attr(), object.kind(), Rights::READ) {
        return Err(Rule::C1.denial());
    }
    if !world.mounter_may_on(world.ground(file.mount), file, object, Rights::READ) {
        return Err(Rule::B1.denial());
    }
    Ok(())
}

/// After the rules of the walk: E2 (EISDIR), E9 (ENXIO), C1 (EACCES), B1 (EACCES).
#[tactic(auto, unfolding(vt_spec::specs::Machine::Judging::judging))]
pub fn read<L: Look>(world: &L, who: &Task, path: &[u8]) -> Result<Grant, Deny>
    ensures { JudgesAlike (task_of who.now)
        (judge_by_looks (L.looks world.now) (task_of who.now) (Read path.now)) result }
{
    let found = object_found_at(world, who, path)?;
    may_read(world, who, found.location, found.object)?;
    Ok(Grant::Look(LookGrant::Read {
        file: found.location,
    }))
}

/// After the rules of the walk: E8 (EACCES), F3 (EACCES), C1 (EACCES), B1 (EACCES).
#[tactic(auto, unfolding(vt_spec::specs::Machine::Judging::judging))]
pub fn exec<L: Look>(world: &L, who: &Task, path: &[u8]) -> Result<Grant, Deny>
    ensures { JudgesAlike (task_of who.now)
        (judge_by_looks (L.looks world.now) (task_of who.now) (Exec path.now)) result }
{
    let file = object_at(world, who, path)?;
    if !is_kind(world, file, Kind::File) {
        return Err(Rule::E8.denial());
    }
    if is_noexec(world, file) {
        return Err(Rule::F3.denial());
    }
    if !may(world, who, file, Rights::EXECUTE) {
        return Err(Rule::C1.denial());
    }
    if !world.mounter_may(file, Rights::EXECUTE) {
        return Err(Rule::B1.denial());
    }
    Ok(Grant::Look(LookGrant::Nothing))
}
