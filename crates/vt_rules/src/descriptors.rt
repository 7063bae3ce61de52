//! What may be opened, and the files of descriptors: open(2), pread(2), pwrite(2).
ghost use Rattle.std.specs.Prelude.{◌≡◌, false, nat_eq, true, Ok, ℕ};
ghost use Rattle.vt_spec.specs.Errors.{unless};
ghost use Rattle.vt_spec.specs.Language.Calls.{opens_for_writing};
ghost use Rattle.vt_spec.specs.Machine.Rules.Descriptors.{access_rights, copy_rules, descriptor_at, is_copied_up, open_rules};
ghost use Rattle.vt_spec.specs.Machine.Rules.Conditions.{has_no_upper};
ghost use Rattle.vt_spec.specs.Machine.Walking.{Place as PlaceMeant};
ghost use Rattle.vt_cred.specs.Rights.{right_bits};
ghost use Rattle.vt_location.specs.Locations.{location_of};
ghost use Rattle.vt_permits.specs.Memory.{Judges, JudgesAlike};
ghost use Rattle.vt_request.specs.Requests.{access_of};
ghost use Rattle.vt_tasks.specs.TaskValue.{task_of};
ghost use Rattle.vt_rules.specs.Permitted.{create_file_permit, open_file_permit};
ghost use Rattle.vt_rules.specs.Places.{IsPlaceOf, file_of, location_result};

use crate::making::may_make;
use crate::rights::{is_directory, is_kind, is_read_only, may, name_at, new_attr};
use std::alloc::Global;
use vt_cred::{Flags, Mode, Rights};
use vt_location::Location;
use vt_looks::{Asked, Look, Place};
use vt_node::{Kind, NewNode, Node};
use vt_permits::{DescriptorGrant, Grant, ToOpenNew};
use vt_request::{Access, Creation};
use vt_spec::errors::{Deny, Rule};
use vt_tasks::Task;

// The rights that an access mode asks for, as one request.
fn rights_of(access: Access) -> Rights
    ensures { right_bits result ≡ access_rights (access_of access) }
{
    match access {
        Access::Read => Rights::READ,
        Access::Write => Rights::WRITE,
        Access::ReadWrite => Rights::READ.union(Rights::WRITE),
    }
}

// An object that lies only in lower layers may be copied up as it is opened for writing: B1, B2.
fn may_copy_up<L: Look>(world: &L, file: Location, access: Access) -> Result<(), Deny>
    requires { opens_for_writing (access_of access) ≡ true → has_no_upper (L.looks world.now) (location_of file) ≡ false }
    ensures { result ≡ unless
        (copy_rules (is_copied_up (L.looks world.now) (location_of file) (access_of access))
        (L.looks world.now) (location_of file)) (Ok tt) }
{
    if access.writes() && world.is_only_below(file) {
        return world.mounter_may_change(file, Asked::Object);
    }
    Ok(())
}

// An object that exists may be opened: E2, E9, F1, F2, L1, C1, B1, B2.
fn may_open<L: Look>(world: &L, who: &Task, file: Location, access: Access) -> Result<(), Deny>
    ensures { result ≡ unless
        (open_rules (L.looks world.now) (task_of who.now) (location_of file) (access_of access)) (Ok tt) }
{
    if is_directory(world, file) {
        return Err(Rule::E2.denial());
    }
    if is_kind(world, file, Kind::White) {
        return Err(Rule::E9.denial());
    }
    if access.writes() && is_read_only(world, file) {
        return Err(Rule::F1.denial());
    }
    if access.writes() && world.has_no_upper(file) {
        return Err(Rule::F2.denial());
    }
    if access.writes() && world.is_locked(file) {
        return Err(Rule::L1.denial());
    }
    if !may(world, who, file, rights_of(access)) {
        return Err(Rule::C1.denial());
    }
    if !world.mounter_may(file, rights_of(access)) {
        return Err(Rule::B1.denial());
    }
    may_copy_up(world, file, access)
}

/// The permit to open an object that exists: open(2).
///
/// E2 (EISDIR), E9 (ENXIO), F1 (EROFS), F2 (EROFS), L1 (EBUSY), C1 (EACCES), B1 (EACCES), B2 (EPERM).
pub fn open_file_permit<L: Look>(
    world: &L,
    who: &Task,
    file: Location,
    access: Access,
) -> Result<Grant, Deny>
    ensures { JudgesAlike (task_of who.now)
        (open_file_permit (L.looks world.now) (task_of who.now) (location_of file) (access_of access))
        result }
{
    may_open(world, who, file, access)?;
    Ok(Grant::Descriptor(DescriptorGrant::Open { file, access }))
}

/// How open(2) opens a file.
#[derive(Clone, Copy, Debug)]
pub struct OpenHow {
    pub access: Access,
    pub creation: Creation,
}

/// How open(2) opens a file that it may make, and the mode that it asks for.
#[derive(Clone, Copy, Debug)]
pub struct CreateHow {
    pub access: Access,
    pub mode: Mode,
}

/// The permit to make a file at a place, and to open it: open(2) with `O_CREAT`.
///
/// The rules of `may_make`. S5 (ENOMEM): the allocation of the name failed.
pub fn create_file_permit<L: Look>(
    alloc: Global,
    world: &L,
    who: &Task,
    place: &Place,
    how: CreateHow,
) -> Result<Grant, Deny>
    ensures { (meant : PlaceMeant ℕ) → IsPlaceOf place.now meant → Judges (task_of who.now)
        (create_file_permit (L.looks world.now) (task_of who.now) meant (access_of how.access) how.mode)
        result }
{
    may_make(world, who, place.parent)?;
    Ok(Grant::Descriptor(DescriptorGrant::OpenNew(ToOpenNew {
        directory: place.parent,
        name: name_at(alloc, place.last)?,
        node: NewNode::file(new_attr(who, how.mode), Vec::new(alloc)),
        access: how.access,
    })))
}

/// The file of a descriptor that was opened for reading: pread(2).
///
/// S4 (EBADF).
pub fn readable_file(who: &Task, descriptor: u8) -> Result<Location, Deny>
    ensures { location_result result
        ≡ file_of (descriptor_at (task_of who.now) descriptor (λ d. d.reads)) }
{
    match who.descriptors.get(descriptor) {
        Some(opened) if opened.access.reads() => Ok(opened.location),
        _ => Err(Rule::S4.denial()),
    }
}

/// The file of a descriptor that was opened for writing: pwrite(2).
///
/// S4 (EBADF).
pub fn writable_file(who: &Task, descriptor: u8) -> Result<Location, Deny>
    ensures { location_result result
        ≡ file_of (descriptor_at (task_of who.now) descriptor (λ d. d.writes)) }
{
    match who.descriptors.get(descriptor) {
        Some(opened) if opened.access.writes() => Ok(opened.location),
        _ => Err(Rule::S4.denial()),
    }
}
