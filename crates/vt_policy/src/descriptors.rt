//! Calls on open files: open(2), pread(2), pwrite(2), close(2).
ghost use Rattle.std.specs.Prelude.{nat_eq, ℕ};
ghost use Rattle.vt_spec.specs.Language.Calls.Creation.{Exclusive, OrCreate};
ghost use Rattle.vt_spec.specs.Language.Calls.Call.{Close, OpenFile, Pread, Pwrite};
ghost use Rattle.vt_permits.specs.Memory.{Judges, JudgesAlike};
ghost use Rattle.vt_request.specs.Requests.{access_of, creation_of};
ghost use Rattle.vt_tasks.specs.TaskValue.{task_of};
ghost use Rattle.vt_spec.specs.Machine.Judging.{opens};
ghost use Rattle.vt_spec.specs.Machine.Looks.{Looks};
ghost use Rattle.vt_policy.specs.Judged.{judge_by_looks, run_by_looks};

use crate::paths::{file_place, new_place, object_at};
use std::alloc::Global;
use vt_looks::Look;
use vt_node::LARGEST_FILE;
use vt_permits::{DescriptorGrant, Grant, LookGrant, ToReadPart, ToWritePart, WriteGrant};
use vt_request::Creation;
use vt_rules::{
    CreateHow, OpenHow, create_file_permit, open_file_permit, readable_file, writable_file,
};
use vt_spec::errors::{Deny, Rule};
use vt_tasks::{MAX_DESCRIPTORS, Task};

// O_CREAT: a missing file is made. E2 (EISDIR) of a special last word or a slash.
fn open_or_create<L: Look>(
    alloc: Global,
    world: &L,
    who: &Task,
    path: &[u8],
    how: CreateHow,
) -> Result<Grant, Deny>
    ensures { Judges (task_of who.now)
        (run_by_looks (L.looks world.now) (task_of who.now)
        (opens nat_eq (L.looks world.now) (task_of who.now) path.now (access_of how.access) (OrCreate how.mode))) result }
{
    let place = file_place(world, who, path)?;
    if place.last.is_special() || place.slash {
        return Err(Rule::E2.denial());
    }
    match place.object {
        Some(file) => open_file_permit(world, who, file, how.access),
        None => create_file_permit(alloc, world, who, &place, how),
    }
}

// O_CREAT and O_EXCL: the file must not be there. E1 (EEXIST), E2 (EISDIR) of a slash.
fn open_exclusive<L: Look>(
    alloc: Global,
    world: &L,
    who: &Task,
    path: &[u8],
    how: CreateHow,
) -> Result<Grant, Deny>
    ensures { Judges (task_of who.now)
        (run_by_looks (L.looks world.now) (task_of who.now)
        (opens nat_eq (L.looks world.now) (task_of who.now) path.now (access_of how.access) (Exclusive how.mode))) result }
{
    let place = new_place(world, who, path)?;
    if place.last.is_special() {
        return Err(Rule::E1.denial());
    }
    if place.slash {
        return Err(Rule::E2.denial());
    }
    if place.object.is_some() {
        return Err(Rule::E1.denial());
    }
    create_file_permit(alloc, world, who, &place, how)
}

/// Before the rules of the walk: S3 (EMFILE). After them those of a file that is there, or of one that is made.
#[tactic(auto, unfolding(vt_spec::specs::Machine::Judging::judging))]
pub fn open<L: Look>(
    alloc: Global,
    world: &L,
    who: &Task,
    path: &[u8],
    how: OpenHow,
) -> Result<Grant, Deny>
    ensures { Judges (task_of who.now)
        (judge_by_looks (L.looks world.now) (task_of who.now)
        (OpenFile path.now (access_of how.access) (creation_of how.creation))) result }
{
    if who.descriptors.len() >= MAX_DESCRIPTORS {
        return Err(Rule::S3.denial());
    }
    let OpenHow { access, creation } = how;
    match creation {
        Creation::Never => {
            let file = object_at(world, who, path)?;
            open_file_permit(world, who, file, access)
        }
        Creation::OrCreate(mode) => {
            open_or_create(alloc, world, who, path, CreateHow { access, mode })
        }
        Creation::Exclusive(mode) => {
            open_exclusive(alloc, world, who, path, CreateHow { access, mode })
        }
    }
}

/// S4 (EBADF).
#[tactic(auto, unfolding(vt_spec::specs::Machine::Judging::judging))]
pub fn pread(who: &Task, descriptor: u8, offset: u32, size: u32) -> Result<Grant, Deny>
    ensures { (looks : Looks ℕ) → JudgesAlike (task_of who.now)
        (judge_by_looks looks (task_of who.now) (Pread descriptor offset size)) result }
{
    let file = readable_file(who, descriptor)?;
    Ok(Grant::Look(LookGrant::ReadPart(ToReadPart {
        file,
        offset: offset as usize,
        size: size as usize,
    })))
}

/// S4 (EBADF), E6 (EFBIG), L1 (EBUSY).
#[tactic(auto, unfolding(vt_spec::specs::Machine::Judging::judging))]
pub fn pwrite<L: Look>(
    world: &L,
    who: &Task,
    descriptor: u8,
    offset: u32,
    bytes: Vec<u8>,
) -> Result<Grant, Deny>
    ensures { JudgesAlike (task_of who.now)
        (judge_by_looks (L.looks world.now) (task_of who.now) (Pwrite descriptor offset bytes.items)) result }
{
    let file = writable_file(who, descriptor)?;
    let offset = offset as usize;
    if !bytes.is_empty() && (offset > LARGEST_FILE || bytes.len() > LARGEST_FILE - offset) {
        return Err(Rule::E6.denial());
    }
    if world.is_locked(file) {
        return Err(Rule::L1.denial());
    }
    Ok(Grant::Write(WriteGrant::Part(ToWritePart {
        file,
        offset,
        bytes,
    })))
}

/// S4 (EBADF).
#[tactic(auto, unfolding(vt_spec::specs::Machine::Judging::judging))]
pub fn close(who: &Task, descriptor: u8) -> Result<Grant, Deny>
    ensures { (looks : Looks ℕ) → JudgesAlike (task_of who.now)
        (judge_by_looks looks (task_of who.now) (Close descriptor)) result }
{
    match who.descriptors.get(descriptor) {
        Some(_) => Ok(Grant::Descriptor(DescriptorGrant::Close { descriptor })),
        None => Err(Rule::S4.denial()),
    }
}
