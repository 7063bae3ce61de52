//! Mount calls: mount(2) in its forms, umount(2), pivot_root(2).
ghost use Rattle.std.specs.Prelude.{◌≡◌, nat_eq, Err, IfErr, IfOk};
ghost use Rattle.vt_spec.specs.Language.Calls.Call.{Bind, Lazy, MountPlain, MoveMount, PivotRoot, Remount, SetType, Umount};
ghost use Rattle.vt_spec.specs.Machine.Judge.{judge};
ghost use Rattle.vt_cred.specs.MountFlags.{flags_of};
ghost use Rattle.vt_permits.specs.Memory.{JudgesAlike, JudgesByReceivers};
ghost use Rattle.vt_request.specs.Requests.{type_word_of};
ghost use Rattle.vt_tasks.specs.TaskValue.{task_of};
ghost use Rattle.vt_policy.specs.Ends.{IsRootAt, root_walk};
ghost use Rattle.vt_policy.specs.Judged.{judge_by_looks};

use crate::paths::{destination_at, directory_at, source_at};
use vt_cred::{Caps, MountFlags};
use vt_location::Location;
use vt_looks::{Look, LookAtMounts};
use vt_permits::{Attachment, Grant, MountGrant, ToBind, ToSetType};
use vt_request::TypeWord;
use vt_rules::{
    is_attached_somewhere, is_elsewhere, is_no_root, is_unbindable, lacks, may_move, may_pivot,
};
use vt_spec::errors::{Deny, Rule};
use vt_tasks::Task;

// The root of a mount of the caller's namespace, to which a path leads: K1 (EPERM), and after the rules of the walk M2
// (EINVAL), M7 (EINVAL).
fn root_at<L: Look>(world: &L, who: &Task, path: &[u8]) -> Result<Location, Deny>
    ensures ok { IfOk result (λ at. IsRootAt (L.looks world.now) (task_of who.now) path.now at) }
    ensures err { IfErr result (λ deny. root_walk (L.looks world.now) (task_of who.now) path.now ≡ Err deny) }
{
    if lacks(who, Caps::CAP_SYS_ADMIN) {
        return Err(Rule::K1.denial());
    }
    let here = directory_at(world, who, path)?;
    if is_elsewhere(world, who, here) {
        return Err(Rule::M2.denial());
    }
    if is_no_root(world, here) {
        return Err(Rule::M7.denial());
    }
    Ok(here)
}

/// K1 (EPERM), and after the rules of the walk M2 (EINVAL), M9 (ENOSPC).
#[tactic(auto, unfolding(vt_spec::specs::Machine::Judging::judging))]
pub fn mount_plain<L: LookAtMounts>(
    world: &L,
    who: &Task,
    path: &[u8],
    flags: MountFlags,
) -> Result<Grant, Deny>
    ensures { JudgesByReceivers (MountPlain path.now (flags_of flags)) (task_of who.now)
        (judge nat_eq (L.looks world.now) (L.overfills world.now) (task_of who.now)
        (MountPlain path.now (flags_of flags))) result }
{
    if lacks(who, Caps::CAP_SYS_ADMIN) {
        return Err(Rule::K1.denial());
    }
    let destination = destination_at(world, who, path)?;
    if is_elsewhere(world, who, destination) {
        return Err(Rule::M2.denial());
    }
    let attachment = Attachment::Plain { destination, flags };
    if world.overfills(attachment)? {
        return Err(Rule::M9.denial());
    }
    Ok(Grant::Mount(MountGrant::Attach(attachment)))
}

/// K1 (EPERM), and after the rules of both walks M2 (EINVAL), M3 (EINVAL), M9 (ENOSPC).
#[tactic(auto, unfolding(vt_spec::specs::Machine::Judging::judging))]
pub fn bind<L: LookAtMounts>(
    world: &L,
    who: &Task,
    source: &[u8],
    path: &[u8],
    recursive: bool,
) -> Result<Grant, Deny>
    ensures { JudgesByReceivers (Bind source.now path.now recursive) (task_of who.now)
        (judge nat_eq (L.looks world.now) (L.overfills world.now) (task_of who.now)
        (Bind source.now path.now recursive)) result }
{
    if lacks(who, Caps::CAP_SYS_ADMIN) {
        return Err(Rule::K1.denial());
    }
    let source = source_at(world, who, source)?;
    let destination = destination_at(world, who, path)?;
    if is_elsewhere(world, who, source) || is_elsewhere(world, who, destination) {
        return Err(Rule::M2.denial());
    }
    if is_unbindable(world, source.mount) {
        return Err(Rule::M3.denial());
    }
    let attachment = Attachment::Bind(ToBind {
        source,
        destination,
        recursive,
    });
    if world.overfills(attachment)? {
        return Err(Rule::M9.denial());
    }
    Ok(Grant::Mount(MountGrant::Attach(attachment)))
}

/// K1 (EPERM), and after the rules of both walks M2 (EINVAL), M4 (EINVAL), M5 (EINVAL), M6 (ELOOP), M7 (EINVAL), M9
/// (ENOSPC), M10 (EINVAL).
#[tactic(auto, unfolding(vt_spec::specs::Machine::Judging::judging))]
pub fn move_mount<L: LookAtMounts>(
    world: &L,
    who: &Task,
    source: &[u8],
    path: &[u8],
) -> Result<Grant, Deny>
    ensures { JudgesByReceivers (MoveMount source.now path.now) (task_of who.now)
        (judge nat_eq (L.looks world.now) (L.overfills world.now) (task_of who.now)
        (MoveMount source.now path.now)) result }
{
    if lacks(who, Caps::CAP_SYS_ADMIN) {
        return Err(Rule::K1.denial());
    }
    let source = source_at(world, who, source)?;
    let destination = destination_at(world, who, path)?;
    may_move(world, who, source, destination)?;
    let mount = source.mount;
    let attachment = Attachment::Move { mount, destination };
    if world.overfills(attachment)? {
        return Err(Rule::M9.denial());
    }
    if !is_attached_somewhere(world, mount) {
        return Err(Rule::M10.denial());
    }
    Ok(Grant::Mount(MountGrant::Attach(attachment)))
}

/// K1 (EPERM), and after the rules of the walk M2 (EINVAL), M7 (EINVAL), M8 (EBUSY), M10 (EINVAL).
#[tactic(auto, unfolding(vt_spec::specs::Machine::Judging::judging))]
pub fn umount<L: LookAtMounts>(world: &L, who: &Task, path: &[u8]) -> Result<Grant, Deny>
    ensures { JudgesByReceivers (Umount path.now) (task_of who.now)
        (judge_by_looks (L.looks world.now) (task_of who.now) (Umount path.now)) result }
{
    let here = root_at(world, who, path)?;
    if world.is_busy(here.mount)? {
        return Err(Rule::M8.denial());
    }
    if !is_attached_somewhere(world, here.mount) {
        return Err(Rule::M10.denial());
    }
    Ok(Grant::Mount(MountGrant::Unmount { mount: here.mount }))
}

/// K1 (EPERM), and after the rules of the walk M2 (EINVAL), M7 (EINVAL), M10 (EINVAL).
#[tactic(auto, unfolding(vt_spec::specs::Machine::Judging::judging))]
pub fn lazy<L: Look>(world: &L, who: &Task, path: &[u8]) -> Result<Grant, Deny>
    ensures { JudgesAlike (task_of who.now)
        (judge_by_looks (L.looks world.now) (task_of who.now) (Lazy path.now)) result }
{
    let here = root_at(world, who, path)?;
    if !is_attached_somewhere(world, here.mount) {
        return Err(Rule::M10.denial());
    }
    Ok(Grant::Mount(MountGrant::UnmountLazily { mount: here.mount }))
}

/// K1 (EPERM), and after the rules of the walk M2 (EINVAL), M7 (EINVAL), M8 (EBUSY).
#[tactic(auto, unfolding(vt_spec::specs::Machine::Judging::judging))]
pub fn remount<L: LookAtMounts>(
    world: &L,
    who: &Task,
    path: &[u8],
    flags: MountFlags,
) -> Result<Grant, Deny>
    ensures { JudgesAlike (task_of who.now)
        (judge_by_looks (L.looks world.now) (task_of who.now) (Remount path.now (flags_of flags))) result }
{
    let here = root_at(world, who, path)?;
    if flags.is_read_only() && world.is_written_through(here.mount) {
        return Err(Rule::M8.denial());
    }
    Ok(Grant::Mount(MountGrant::SetFlags {
        mount: here.mount,
        flags,
    }))
}

/// K1 (EPERM), and after the rules of the walk M2 (EINVAL), M7 (EINVAL).
#[tactic(auto, unfolding(vt_spec::specs::Machine::Judging::judging))]
pub fn set_type<L: Look>(
    world: &L,
    who: &Task,
    path: &[u8],
    word: TypeWord,
    recursive: bool,
) -> Result<Grant, Deny>
    ensures { JudgesAlike (task_of who.now)
        (judge_by_looks (L.looks world.now) (task_of who.now) (SetType path.now (type_word_of word) recursive)) result }
{
    let here = root_at(world, who, path)?;
    Ok(Grant::Mount(MountGrant::SetType(ToSetType {
        mount: here.mount,
        word,
        recursive,
    })))
}

/// K1 (EPERM), and after the rules of both walks M2 (EINVAL), M7 (EINVAL), M11 (EBUSY), M12 (EINVAL).
#[tactic(auto, unfolding(vt_spec::specs::Machine::Judging::judging))]
pub fn pivot_root<L: Look>(world: &L, who: &Task, new: &[u8], put: &[u8]) -> Result<Grant, Deny>
    ensures { JudgesAlike (task_of who.now)
        (judge_by_looks (L.looks world.now) (task_of who.now) (PivotRoot new.now put.now)) result }
{
    if lacks(who, Caps::CAP_SYS_ADMIN) {
        return Err(Rule::K1.denial());
    }
    let root = source_at(world, who, new)?;
    let put = destination_at(world, who, put)?;
    may_pivot(world, who, root, put)?;
    Ok(Grant::Mount(MountGrant::Pivot {
        new: root.mount,
        put,
    }))
}
