//! The rule that refuses a call where others are let pass.
ghost use Rattle.std.specs.Prelude.{◌≡◌, nat_eq, IfOk};
ghost use Rattle.vt_spec.specs.Machine.Judging.{judging};
ghost use Rattle.vt_request.specs.Requests.{call_of, descriptor_call_of, look_call_of, make_call_of, mount_call_of, remove_call_of, task_call_of, write_call_of};
ghost use Rattle.vt_tasks.specs.TaskValue.{task_of};
ghost use Rattle.vt_later.specs.Passing.{judge_past, MountersStayAsked, refused_by};
ghost use Rattle.vt_later.specs.Past.{behind_needs, call_past, refusal_past, RefusesAs};

use crate::attributes::{Owners, chmod, chown, opaque};
use crate::descriptors::{Part, close, open, pread, pwrite};
use crate::looking::{exec, list, lstat, read, readlink, stat};
use crate::making::{link, mkdir, symlink, whiteout, write};
use crate::mounting::{
    Paths, bind, lazy, mount_overlay, mount_plain, move_mount, pivot_root, remount, set_type,
    umount,
};
use crate::passing::may_administer;
use crate::removing::{rename, rmdir, unlink};
use crate::tasks::{chdir, chroot, fork, setns, unshare};
use std::alloc::AllocError;
use vt_layers::LookAtLayers;
use vt_looks::Look;
use vt_request::{
    Call, DescriptorCall, LookCall, MakeCall, MountCall, RemoveCall, TaskCall, WriteCall,
};
use vt_rules::OpenHow;
use vt_spec::errors::{Deny, Rule};
use vt_tasks::Task;

// A call that only looks.
#[tactic(auto, unfolding(vt_spec::specs::Machine::Judging::judging))]
fn look_refused<L: Look>(
    world: &L,
    who: &Task,
    passed: &[Rule],
    call: &LookCall<'_>,
) -> Result<(), Deny>
    ensures { result ≡ call_past (L.looks world.now) (task_of who.now) passed.now (look_call_of call.now) }
{
    match call {
        LookCall::Ls { path } => list(world, who, passed, path),
        LookCall::Stat { path } => stat(world, who, passed, path),
        LookCall::Lstat { path } => lstat(world, who, passed, path),
        LookCall::Readlink { path } => readlink(world, who, passed, path),
        LookCall::Read { path } => read(world, who, passed, path),
        LookCall::Exec { path } => exec(world, who, passed, path),
        LookCall::Pread { descriptor, .. } => pread(who, *descriptor),
        LookCall::ListMounts => Ok(()),
    }
}

// A call that makes a name.
#[tactic(auto, unfolding(vt_spec::specs::Machine::Judging::judging))]
fn make_refused<L: Look>(
    world: &L,
    who: &Task,
    passed: &[Rule],
    call: &MakeCall<'_>,
) -> Result<(), Deny>
    ensures { MountersStayAsked (L.looks world.now)
        → result ≡ call_past (L.looks world.now) (task_of who.now) passed.now (make_call_of call.now) }
{
    match call {
        MakeCall::Mkdir { path, .. } => mkdir(world, who, passed, path),
        MakeCall::Symlink { text, path } => symlink(world, who, passed, text, path),
        MakeCall::Whiteout { path } => whiteout(world, who, passed, path),
        MakeCall::Link { old, new } => link(world, who, passed, old, new),
    }
}

// A call that takes a name away.
#[tactic(auto, unfolding(vt_spec::specs::Machine::Judging::judging))]
fn remove_refused<L: Look>(
    world: &L,
    who: &Task,
    passed: &[Rule],
    call: &RemoveCall<'_>,
) -> Result<(), Deny>
    ensures { MountersStayAsked (L.looks world.now)
        → result ≡ call_past (L.looks world.now) (task_of who.now) passed.now (remove_call_of call.now) }
{
    match call {
        RemoveCall::Unlink { path } => unlink(world, who, passed, path),
        RemoveCall::Rmdir { path } => rmdir(world, who, passed, path),
        RemoveCall::Rename { old, new } => rename(world, who, passed, old, new),
    }
}

// A call that sets the content, the owner or the mode of an object, or the mark of a directory.
#[tactic(auto, unfolding(vt_spec::specs::Machine::Judging::judging))]
fn write_refused<L: Look>(
    world: &L,
    who: &Task,
    passed: &[Rule],
    call: &WriteCall<'_>,
) -> Result<(), Deny>
    ensures { MountersStayAsked (L.looks world.now)
        → result ≡ call_past (L.looks world.now) (task_of who.now) passed.now (write_call_of call.now) }
{
    match call {
        WriteCall::Write { path, bytes } => write(world, who, passed, path, bytes.as_slice()),
        WriteCall::Pwrite {
            descriptor,
            offset,
            bytes,
        } => {
            let part = Part {
                offset: *offset,
                bytes: bytes.as_slice(),
            };
            pwrite(world, who, passed, *descriptor, part)
        }
        WriteCall::Chmod { path, .. } => chmod(world, who, passed, path),
        WriteCall::Chown { path, uid, gid } => {
            let owners = Owners {
                uid: *uid,
                gid: *gid,
            };
            chown(world, who, passed, path, owners)
        }
        WriteCall::Opaque { path, .. } => opaque(world, who, passed, path),
    }
}

// A call that opens or closes a file.
#[tactic(auto, unfolding(vt_spec::specs::Machine::Judging::judging))]
fn descriptor_refused<L: Look>(
    world: &L,
    who: &Task,
    passed: &[Rule],
    call: &DescriptorCall<'_>,
) -> Result<(), Deny>
    ensures { MountersStayAsked (L.looks world.now)
        → result ≡ call_past (L.looks world.now) (task_of who.now) passed.now (descriptor_call_of call.now) }
{
    match call {
        DescriptorCall::Open {
            path,
            access,
            creation,
        } => {
            let how = OpenHow {
                access: *access,
                creation: *creation,
            };
            open(world, who, passed, path, how)
        }
        DescriptorCall::Close { descriptor } => close(who, *descriptor),
    }
}

// A call that changes the caller, or makes a task.
#[tactic(auto, unfolding(vt_spec::specs::Machine::Judging::judging))]
fn task_refused<L: Look>(
    world: &L,
    who: &Task,
    passed: &[Rule],
    call: &TaskCall<'_>,
) -> Result<(), Deny>
    ensures { result ≡ call_past (L.looks world.now) (task_of who.now) passed.now (task_call_of call.now) }
{
    match call {
        TaskCall::Chdir { path } => chdir(world, who, passed, path),
        TaskCall::Chroot { path } => chroot(world, who, passed, path),
        TaskCall::Fork { words } => fork(who, passed, words),
        TaskCall::Unshare => unshare(who, passed),
        TaskCall::Setns { task } => setns(world, who, passed, task),
        TaskCall::Umask { .. } | TaskCall::Drop { .. } | TaskCall::Exit => Ok(()),
    }
}

// A call that changes mounts, behind K1.
#[tactic(auto, unfolding(vt_spec::specs::Machine::Judging::judging))]
fn administered<L: LookAtLayers>(
    world: &L,
    who: &Task,
    passed: &[Rule],
    call: &MountCall<'_>,
) -> Result<(), Deny>
    ensures { RefusesAs (refusal_past (L.looks world.now) (task_of who.now) passed.now (L.overfills world.now)
        (behind_needs (judging nat_eq (L.looks world.now) (task_of who.now) (mount_call_of call.now)))) result }
{
    match call {
        MountCall::Plain { path, flags } => mount_plain(world, who, passed, path, *flags),
        MountCall::Overlay { path, options, .. } => {
            mount_overlay(world, who, passed, path, options)
        }
        MountCall::Bind {
            source,
            path,
            recursive,
        } => bind(world, who, passed, Paths { source, path }, *recursive),
        MountCall::Move { source, path } => {
            move_mount(world, who, passed, Paths { source, path })
        }
        MountCall::Umount { path } => umount(world, who, passed, path),
        MountCall::Lazy { path } => lazy(world, who, passed, path),
        MountCall::Remount { path, flags } => remount(world, who, passed, path, *flags),
        MountCall::SetType { path, .. } => set_type(world, who, passed, path),
        MountCall::Pivot { new, put } => {
            let paths = Paths {
                source: new,
                path: put,
            };
            pivot_root(world, who, passed, paths)
        }
    }
}

// A call that changes mounts: K1, and what comes behind it.
#[tactic(auto, unfolding(vt_spec::specs::Machine::Judging::judging))]
fn mount_refused<L: LookAtLayers>(
    world: &L,
    who: &Task,
    passed: &[Rule],
    call: &MountCall<'_>,
) -> Result<(), Deny>
    ensures { RefusesAs (refusal_past (L.looks world.now) (task_of who.now) passed.now (L.overfills world.now)
        (judging nat_eq (L.looks world.now) (task_of who.now) (mount_call_of call.now))) result }
{
    may_administer(who, passed)?;
    administered(world, who, passed, call)
}

// Any call.
#[tactic(auto, unfolding(vt_spec::specs::Machine::Judging::judging))]
fn refused<L: LookAtLayers>(
    world: &L,
    who: &Task,
    passed: &[Rule],
    call: &Call<'_>,
) -> Result<(), Deny>
    ensures { MountersStayAsked (L.looks world.now)
        → RefusesAs (refusal_past (L.looks world.now) (task_of who.now) passed.now (L.overfills world.now)
        (judging nat_eq (L.looks world.now) (task_of who.now) (call_of call.now))) result }
{
    match call {
        Call::Look(call) => look_refused(world, who, passed, call),
        Call::Make(call) => make_refused(world, who, passed, call),
        Call::Remove(call) => remove_refused(world, who, passed, call),
        Call::Write(call) => write_refused(world, who, passed, call),
        Call::Descriptor(call) => descriptor_refused(world, who, passed, call),
        Call::Task(call) => task_refused(world, who, passed, call),
        Call::Mount(call) => mount_refused(world, who, passed, call),
    }
}

/// The rule that refuses a call of a task where these rules are let pass, if one does. It fails if an allocation fails.
pub fn refusal<L: LookAtLayers>(
    world: &L,
    who: &Task,
    call: &Call<'_>,
    passed: &[Rule],
) -> Result<Option<Rule>, AllocError>
    ensures { MountersStayAsked (L.looks world.now) → IfOk result (λ rule. rule ≡ refused_by
        (judge_past (L.looks world.now) (L.overfills world.now) (task_of who.now) (call_of call.now) passed.now)) }
{
    match refused(world, who, passed, call) {
        Ok(()) => Ok(None),
        Err(deny) if deny.rule == Rule::S5 => Err(AllocError),
        Err(deny) => Ok(Some(deny.rule)),
    }
}
