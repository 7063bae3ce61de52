//! Calls that remove and rename: unlink(2), rmdir(2), rename(2).
ghost use Rattle.std.specs.Prelude.{◌≡◌, nat_eq, IfErr, IfOk};
ghost use Rattle.vt_spec.specs.declared.errors.Rule.TheVariants.{S5};
ghost use Rattle.vt_spec.specs.Errors.{denial};
ghost use Rattle.vt_spec.specs.Language.Calls.Call.{Rename, Rmdir, Unlink};
ghost use Rattle.vt_permits.specs.Memory.{Judges};
ghost use Rattle.vt_tasks.specs.TaskValue.{task_of};
ghost use Rattle.vt_policy.specs.Judged.{judge_by_looks};

use crate::paths::{old_leaf_place, old_place, rename_place};
use std::alloc::Global;
use vt_looks::{LastWord, Look};
use vt_permits::{Grant, LookGrant, RemoveGrant, ToRemoveDirectory, ToRename, ToUnlink};
use vt_rules::{is_directory, is_name_of, may_rename, may_rmdir, may_stay, may_unlink, name_at};
use vt_spec::errors::{Deny, Rule};
use vt_tasks::Task;

/// After the rules of the walk: E2 (EISDIR) of a special last word, and then those of `may_unlink`.
#[tactic(auto, unfolding(vt_spec::specs::Machine::Judging::judging))]
pub fn unlink<L: Look>(alloc: Global, world: &L, who: &Task, path: &[u8]) -> Result<Grant, Deny>
    ensures { Judges (task_of who.now) (judge_by_looks (L.looks world.now) (task_of who.now) (Unlink path.now)) result }
{
    let place = old_leaf_place(world, who, path)?;
    if place.last.is_special() {
        return Err(Rule::E2.denial());
    }
    may_unlink(world, who, &place)?;
    Ok(Grant::Remove(RemoveGrant::Unlink(ToUnlink {
        directory: place.parent,
        name: name_at(alloc, place.last)?,
        object: place.object.node,
    })))
}

/// After the rules of the walk: E4 (ENOTEMPTY), E5 (EINVAL) or P1 (EBUSY) of the special last words, and then those of
/// `may_rmdir`.
#[tactic(auto, unfolding(vt_spec::specs::Machine::Judging::judging))]
pub fn rmdir<L: Look>(alloc: Global, world: &L, who: &Task, path: &[u8]) -> Result<Grant, Deny>
    ensures { Judges (task_of who.now) (judge_by_looks (L.looks world.now) (task_of who.now) (Rmdir path.now)) result }
{
    let place = old_place(world, who, path)?;
    match place.last {
        LastWord::DotDot => return Err(Rule::E4.denial()),
        LastWord::Dot => return Err(Rule::E5.denial()),
        LastWord::NoWord => return Err(Rule::P1.denial()),
        LastWord::Named(_) => {}
    }
    may_rmdir(world, who, &place)?;
    Ok(Grant::Remove(RemoveGrant::Directory(ToRemoveDirectory {
        parent: place.parent,
        name: name_at(alloc, place.last)?,
        directory: place.object,
    })))
}

/// After the rules of the first walk, P1 (EBUSY) of its special last word; the same of the second; then those of two
/// objects, or of two names of one.
#[tactic(auto, unfolding(vt_spec::specs::Machine::Judging::judging))]
pub fn rename<L: Look>(
    alloc: Global,
    world: &L,
    who: &Task,
    old: &[u8],
    new: &[u8],
) -> Result<Grant, Deny>
    ensures { Judges (task_of who.now)
        (judge_by_looks (L.looks world.now) (task_of who.now) (Rename old.now new.now)) result }
{
    let from = old_leaf_place(world, who, old)?;
    if from.last.is_special() {
        return Err(Rule::P1.denial());
    }
    let to = rename_place(world, who, new, is_directory(world, from.object))?;
    if to.last.is_special() {
        return Err(Rule::P1.denial());
    }
    if is_name_of(world, from.object, &to) {
        may_stay(world, &from, &to)?;
        return Ok(Grant::Look(LookGrant::Nothing));
    }
    may_rename(world, who, &from, &to)?;
    let renamed = ToRename {
        from: from.parent,
        old: name_at(alloc, from.last)?,
        to: to.parent,
        new: name_at(alloc, to.last)?,
        object: from.object,
        replaced: to.object,
    };
    Ok(Grant::Remove(RemoveGrant::Rename(boxed(alloc, renamed)?)))
}

// What rename(2) is granted, in a box. S5 (ENOMEM): an allocation failed.
fn boxed(alloc: Global, renamed: ToRename) -> Result<Box<ToRename>, Deny>
    ensures ok { IfOk result (λ boxed. boxed.value ≡ renamed) }
    ensures memory { IfErr result (λ deny. deny ≡ denial S5) }
{
    match Box::new(alloc, renamed) {
        Ok(boxed) => Ok(boxed),
        Err(_refused) => Err(Rule::S5.denial()),
    }
}
