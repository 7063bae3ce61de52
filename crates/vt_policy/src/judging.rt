//! What a call is granted, or the first rule that refuses it.
ghost use Rattle.std.specs.Prelude.{◌≡◌, nat_eq};
ghost use Rattle.vt_spec.specs.Machine.Judge.{judge};
ghost use Rattle.vt_permits.specs.Memory.{JudgesAlike, JudgesByReceivers};
ghost use Rattle.vt_request.specs.Requests.{call_of, descriptor_call_of, look_call_of, make_call_of, mount_call_of, remove_call_of, task_call_of, write_call_of};
ghost use Rattle.vt_tasks.specs.TaskValue.{task_of};
ghost use Rattle.vt_policy.specs.Allocating.{IsJudgedWithMemory};

use crate::attributes::{chmod, chown, opaque};
use crate::descriptors::{close, open, pread, pwrite};
use crate::looking::{exec, list, lstat, read, readlink, stat};
use crate::making::{link, mkdir, symlink, whiteout, write};
use crate::mounting::{bind, lazy, mount_plain, move_mount, pivot_root, remount, set_type, umount};
use crate::removing::{rename, rmdir, unlink};
use crate::tasks::{chdir, chroot, fork, permission_bits, setns, unshare};
use std::alloc::Global;
use vt_layers::{LookAtLayers, OverlayWords, mount_overlay};
use vt_permits::{Grant, LookGrant, TaskGrant};
use vt_request::{
    Call, DescriptorCall, LookCall, MakeCall, MountCall, RemoveCall, TaskCall, WriteCall,
};
use vt_rules::{OpenHow, named};
use vt_spec::errors::Deny;
use vt_tasks::Task;

/// What a call of a task is granted, or the first rule that refuses it, in the policy's order. It changes nothing.
///
/// S5 (ENOMEM): an allocation failed, of a call whose judgement allocates. The other rules are those of the call.
pub(crate) fn granted<L: LookAtLayers>(
    alloc: Global,
    world: &L,
    who: &Task,
    call: Call<'_>,
) -> Result<Grant, Deny>
    ensures judged { JudgesByReceivers (call_of call.entry) (task_of who.now)
        (judge nat_eq (L.looks world.now) (L.overfills world.now) (task_of who.now) (call_of call.entry)) result }
    ensures memory { ¬ IsJudgedWithMemory (call_of call.entry) → JudgesAlike (task_of who.now)
        (judge nat_eq (L.looks world.now) (L.overfills world.now) (task_of who.now) (call_of call.entry)) result }
{
    match call {
        Call::Look(call) => judge_look(world, who, call),
        Call::Make(call) => judge_make(alloc, world, who, &call),
        Call::Remove(call) => judge_remove(alloc, world, who, call),
        Call::Write(call) => judge_write(alloc, world, who, call),
        Call::Descriptor(call) => judge_descriptor(alloc, world, who, &call),
        Call::Task(call) => judge_task(world, who, call),
        Call::Mount(call) => judge_mount(alloc, world, who, call),
    }
}

// A call that only looks.
#[inline(always)]
#[tactic(auto, unfolding(vt_spec::specs::Machine::Judging::judging))]
fn judge_look<L: LookAtLayers>(world: &L, who: &Task, call: LookCall<'_>) -> Result<Grant, Deny>
    ensures judged { JudgesByReceivers (look_call_of call.entry) (task_of who.now)
        (judge nat_eq (L.looks world.now) (L.overfills world.now) (task_of who.now) (look_call_of call.entry)) result }
    ensures memory { ¬ IsJudgedWithMemory (look_call_of call.entry) → JudgesAlike (task_of who.now)
        (judge nat_eq (L.looks world.now) (L.overfills world.now) (task_of who.now) (look_call_of call.entry)) result }
{
    match call {
        LookCall::Ls { path } => list(world, who, path),
        LookCall::Stat { path } => stat(world, who, path),
        LookCall::Lstat { path } => lstat(world, who, path),
        LookCall::Readlink { path } => readlink(world, who, path),
        LookCall::Read { path } => read(world, who, path),
        LookCall::Exec { path } => exec(world, who, path),
        LookCall::Pread {
            descriptor,
            offset,
            size,
        } => pread(who, descriptor, offset, size),
        LookCall::ListMounts => Ok(Grant::Look(LookGrant::ListMounts)),
    }
}

// A call that makes a name.
#[inline(always)]
#[tactic(auto, unfolding(vt_spec::specs::Machine::Judging::judging))]
fn judge_make<L: LookAtLayers>(
    alloc: Global,
    world: &L,
    who: &Task,
    call: &MakeCall<'_>,
) -> Result<Grant, Deny>
    ensures judged { JudgesByReceivers (make_call_of call.now) (task_of who.now)
        (judge nat_eq (L.looks world.now) (L.overfills world.now) (task_of who.now) (make_call_of call.now)) result }
    ensures memory { ¬ IsJudgedWithMemory (make_call_of call.now) → JudgesAlike (task_of who.now)
        (judge nat_eq (L.looks world.now) (L.overfills world.now) (task_of who.now) (make_call_of call.now)) result }
{
    match call {
        MakeCall::Mkdir { path, mode } => mkdir(alloc, world, who, path, *mode),
        MakeCall::Symlink { text, path } => symlink(alloc, world, who, text, path),
        MakeCall::Whiteout { path } => whiteout(alloc, world, who, path),
        MakeCall::Link { old, new } => link(alloc, world, who, old, new),
    }
}

// A call that takes a name away.
#[inline(always)]
#[tactic(auto, unfolding(vt_spec::specs::Machine::Judging::judging))]
fn judge_remove<L: LookAtLayers>(
    alloc: Global,
    world: &L,
    who: &Task,
    call: RemoveCall<'_>,
) -> Result<Grant, Deny>
    ensures judged { JudgesByReceivers (remove_call_of call.entry) (task_of who.now)
        (judge nat_eq (L.looks world.now) (L.overfills world.now) (task_of who.now) (remove_call_of call.entry)) result }
    ensures memory { ¬ IsJudgedWithMemory (remove_call_of call.entry) → JudgesAlike (task_of who.now)
        (judge nat_eq (L.looks world.now) (L.overfills world.now) (task_of who.now) (remove_call_of call.entry)) result }
{
    match call {
        RemoveCall::Unlink { path } => unlink(alloc, world, who, path),
        RemoveCall::Rmdir { path } => rmdir(alloc, world, who, path),
        RemoveCall::Rename { old, new } => rename(alloc, world, who, old, new),
    }
}

// A call that sets the content, the owner or the mode of an object, or the mark of a directory.
#[inline(always)]
#[tactic(auto, unfolding(vt_spec::specs::Machine::Judging::judging))]
fn judge_write<L: LookAtLayers>(
    alloc: Global,
    world: &L,
    who: &Task,
    call: WriteCall<'_>,
) -> Result<Grant, Deny>
    ensures judged { JudgesByReceivers (write_call_of call.entry) (task_of who.now)
        (judge nat_eq (L.looks world.now) (L.overfills world.now) (task_of who.now) (write_call_of call.entry)) result }
    ensures memory { ¬ IsJudgedWithMemory (write_call_of call.entry) → JudgesAlike (task_of who.now)
        (judge nat_eq (L.looks world.now) (L.overfills world.now) (task_of who.now) (write_call_of call.entry)) result }
{
    match call {
        WriteCall::Write { path, bytes } => write(alloc, world, who, path, bytes),
        WriteCall::Pwrite {
            descriptor,
            offset,
            bytes,
        } => pwrite(world, who, descriptor, offset, bytes),
        WriteCall::Chmod { path, mode } => chmod(world, who, path, mode),
        WriteCall::Chown { path, uid, gid } => chown(world, who, path, uid, gid),
        WriteCall::Opaque { path, mark } => opaque(world, who, path, mark),
    }
}

// A call that opens or closes a file.
#[inline(always)]
#[tactic(auto, unfolding(vt_spec::specs::Machine::Judging::judging))]
fn judge_descriptor<L: LookAtLayers>(
    alloc: Global,
    world: &L,
    who: &Task,
    call: &DescriptorCall<'_>,
) -> Result<Grant, Deny>
    ensures judged { JudgesByReceivers (descriptor_call_of call.now) (task_of who.now)
        (judge nat_eq (L.looks world.now) (L.overfills world.now) (task_of who.now) (descriptor_call_of call.now)) result }
    ensures memory { ¬ IsJudgedWithMemory (descriptor_call_of call.now) → JudgesAlike (task_of who.now)
        (judge nat_eq (L.looks world.now) (L.overfills world.now) (task_of who.now) (descriptor_call_of call.now)) result }
{
    match call {
        DescriptorCall::Open {
            path,
            access,
            creation,
        } => {
            let how = OpenHow {
                access: *access,
                creation: *creation,
            };
            open(alloc, world, who, path, how)
        }
        DescriptorCall::Close { descriptor } => close(who, *descriptor),
    }
}

// A call that changes the caller, or makes a task.
#[inline(always)]
#[tactic(auto, unfolding(vt_spec::specs::Machine::Judging::judging))]
fn judge_task<L: LookAtLayers>(world: &L, who: &Task, call: TaskCall<'_>) -> Result<Grant, Deny>
    ensures judged { JudgesByReceivers (task_call_of call.entry) (task_of who.now)
        (judge nat_eq (L.looks world.now) (L.overfills world.now) (task_of who.now) (task_call_of call.entry)) result }
    ensures memory { ¬ IsJudgedWithMemory (task_call_of call.entry) → JudgesAlike (task_of who.now)
        (judge nat_eq (L.looks world.now) (L.overfills world.now) (task_of who.now) (task_call_of call.entry)) result }
{
    match call {
        TaskCall::Chdir { path } => chdir(world, who, path),
        TaskCall::Chroot { path } => chroot(world, who, path),
        TaskCall::Umask { mode } => Ok(Grant::Task(TaskGrant::SetUmask {
            umask: permission_bits(mode),
        })),
        TaskCall::Drop { caps } => Ok(Grant::Task(TaskGrant::DropCaps {
            caps: named(&who.cred, caps),
        })),
        TaskCall::Fork { words } => fork(who, words),
        TaskCall::Exit => Ok(Grant::Task(TaskGrant::Exit)),
        TaskCall::Unshare => unshare(who),
        TaskCall::Setns { task } => setns(world, who, &task),
    }
}

// A call that changes mounts.
#[inline(always)]
#[tactic(auto, unfolding(vt_spec::specs::Machine::Judging::judging))]
fn judge_mount<L: LookAtLayers>(
    alloc: Global,
    world: &L,
    who: &Task,
    call: MountCall<'_>,
) -> Result<Grant, Deny>
    ensures judged { JudgesByReceivers (mount_call_of call.entry) (task_of who.now)
        (judge nat_eq (L.looks world.now) (L.overfills world.now) (task_of who.now) (mount_call_of call.entry)) result }
    ensures memory { ¬ IsJudgedWithMemory (mount_call_of call.entry) → JudgesAlike (task_of who.now)
        (judge nat_eq (L.looks world.now) (L.overfills world.now) (task_of who.now) (mount_call_of call.entry)) result }
{
    match call {
        MountCall::Plain { path, flags } => mount_plain(world, who, path, flags),
        MountCall::Overlay {
            path,
            options,
            flags,
        } => {
            let overlay = OverlayWords {
                options: &options,
                flags,
            };
            mount_overlay(alloc, world, who, path, overlay)
        }
        MountCall::Bind {
            source,
            path,
            recursive,
        } => bind(world, who, source, path, recursive),
        MountCall::Move { source, path } => move_mount(world, who, source, path),
        MountCall::Umount { path } => umount(world, who, path),
        MountCall::Lazy { path } => lazy(world, who, path),
        MountCall::Remount { path, flags } => remount(world, who, path, flags),
        MountCall::SetType {
            path,
            word,
            recursive,
        } => set_type(world, who, path, word, recursive),
        MountCall::Pivot { new, put } => pivot_root(world, who, new, put),
    }
}
