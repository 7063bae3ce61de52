//! What may be made and written: mkdir(2), symlink(2), mknod(2), open(2) with `O_CREAT`, write(2).
ghost use Rattle.std.specs.Prelude.{◌≡◌, nat_eq, Ok, ℕ};
ghost use Rattle.vt_spec.specs.Errors.{unless};
ghost use Rattle.vt_spec.specs.Machine.Judging.{unnumbered};
ghost use Rattle.vt_spec.specs.Machine.Rules.Making.{hard_link_rules, make_rules, rewrite_rules, whiteout_rules};
ghost use Rattle.vt_spec.specs.Machine.Rows.{linking};
ghost use Rattle.vt_spec.specs.Machine.Walking.{Place as PlaceMeant};
ghost use Rattle.vt_spec.specs.Tree.{Node as NodeMeant, new_directory};
ghost use Rattle.vt_location.specs.Locations.{location_of, number_of};
ghost use Rattle.vt_permits.specs.GrantValue.{node_in};
ghost use Rattle.vt_permits.specs.Memory.{Judges, JudgesAlike};
ghost use Rattle.vt_tasks.specs.TaskValue.{task_of};
ghost use Rattle.vt_rules.specs.Permitted.{new_file_permit, rewrite_permit};
ghost use Rattle.vt_rules.specs.Places.{IsPlaceOf};

use crate::rights::{is_directory, is_kind, is_read_only, may, name_at, new_attr};
use std::alloc::Global;
use vt_cred::{Mode, Rights};
use vt_location::Location;
use vt_looks::{Asked, Look, Place};
use vt_node::{Attr, Kind, LARGEST_FILE, NewNode, NodeId};
use vt_permits::{Grant, MakeGrant, ToMake, WriteGrant};
use vt_spec::errors::{Deny, Rule};
use vt_tasks::Task;

/// The mode that a file made by write asks for, 0666: fopen(3).
const FILE_MODE: u16 = 0o666;

/// A name may be made in a directory: mkdir(2), symlink(2), open(2) with `O_CREAT`.
///
/// F1 (EROFS), F2 (EROFS), L1 (EBUSY), C1 (EACCES), B1 (EACCES), B2 (EPERM).
pub fn may_make<L: Look>(world: &L, who: &Task, directory: Location) -> Result<(), Deny>
    ensures { (place : PlaceMeant ℕ) → (node : NodeMeant ℕ) → place.parent ≡ location_of directory
        → result ≡ unless
        (make_rules (L.looks world.now) (task_of who.now) place (unnumbered place node)) (Ok tt) }
{
    if is_read_only(world, directory) {
        return Err(Rule::F1.denial());
    }
    if world.has_no_upper(directory) {
        return Err(Rule::F2.denial());
    }
    if world.is_locked(directory) {
        return Err(Rule::L1.denial());
    }
    if !may(world, who, directory, Rights::WRITE) {
        return Err(Rule::C1.denial());
    }
    if !world.mounter_may(directory, Rights::WRITE) {
        return Err(Rule::B1.denial());
    }
    world.mounter_may_change(directory, Asked::Entry)
}

/// A whiteout may be made at a place: mknod(2).
///
/// E1 (EEXIST), F1 (EROFS), F2 (EROFS), L1 (EBUSY), C1 (EACCES), O4 (EPERM).
pub fn may_make_whiteout<L: Look>(world: &L, who: &Task, place: &Place) -> Result<(), Deny>
    ensures { (meant : PlaceMeant ℕ) → IsPlaceOf place.now meant
        → result ≡ unless (whiteout_rules (L.looks world.now) (task_of who.now) meant) (Ok tt) }
{
    if place.last.is_special() || place.object.is_some() {
        return Err(Rule::E1.denial());
    }
    if is_read_only(world, place.parent) {
        return Err(Rule::F1.denial());
    }
    if world.has_no_upper(place.parent) {
        return Err(Rule::F2.denial());
    }
    if world.is_locked(place.parent) {
        return Err(Rule::L1.denial());
    }
    if !may(world, who, place.parent, Rights::WRITE) {
        return Err(Rule::C1.denial());
    }
    if world.is_overlay(place.parent) {
        return Err(Rule::O4.denial());
    }
    Ok(())
}

/// A further name of an object may be made at a place: link(2).
///
/// E1 (EEXIST), E7 (EPERM), F1 (EROFS), F2 (EROFS), L1 (EBUSY), P2 (EXDEV), C1 (EACCES), B1 (EACCES), B2 (EPERM).
pub fn may_link<L: Look>(world: &L, who: &Task, object: Location, place: &Place) -> Result<(), Deny>
    ensures { (meant : PlaceMeant ℕ) → IsPlaceOf place.now meant
        → result ≡ unless
        (hard_link_rules nat_eq (L.looks world.now) (task_of who.now) (location_of object) meant
        (linking (location_of object) meant)) (Ok tt) }
{
    if place.object.is_some() {
        return Err(Rule::E1.denial());
    }
    if is_directory(world, object) {
        return Err(Rule::E7.denial());
    }
    if is_read_only(world, place.parent) {
        return Err(Rule::F1.denial());
    }
    if world.has_no_upper(place.parent) {
        return Err(Rule::F2.denial());
    }
    if world.is_locked(object) || world.is_locked(place.parent) {
        return Err(Rule::L1.denial());
    }
    if object.mount != place.parent.mount {
        return Err(Rule::P2.denial());
    }
    if !may(world, who, place.parent, Rights::WRITE) {
        return Err(Rule::C1.denial());
    }
    if !world.mounter_may(place.parent, Rights::WRITE) {
        return Err(Rule::B1.denial());
    }
    let asked = Asked::Name {
        object: object.node,
    };
    world.mounter_may_change(place.parent, asked)
}

/// An empty directory whose parent is the one at a location: mkdir(2).
pub fn empty_directory(attr: Attr, parent: Location) -> NewNode
    ensures { node_in parent result
        ≡ record { attr = attr; content = new_directory (number_of parent.node) } }
{
    NewNode::directory(attr, NodeId::new(parent.node.slot))
}

// The whole content of an object that exists may be written: E2, E6, E9, F1, F2, L1, C1, B1, B2.
fn may_rewrite<L: Look>(world: &L, who: &Task, file: Location, bytes: &[u8]) -> Result<(), Deny>
    ensures { result ≡ unless
        (rewrite_rules (L.looks world.now) (task_of who.now) (location_of file) bytes.now) (Ok tt) }
{
    if is_directory(world, file) {
        return Err(Rule::E2.denial());
    }
    if bytes.len() > LARGEST_FILE {
        return Err(Rule::E6.denial());
    }
    if is_kind(world, file, Kind::White) {
        return Err(Rule::E9.denial());
    }
    if is_read_only(world, file) {
        return Err(Rule::F1.denial());
    }
    if world.has_no_upper(file) {
        return Err(Rule::F2.denial());
    }
    if world.is_locked(file) {
        return Err(Rule::L1.denial());
    }
    if !may(world, who, file, Rights::WRITE) {
        return Err(Rule::C1.denial());
    }
    if !world.mounter_may(file, Rights::WRITE) {
        return Err(Rule::B1.denial());
    }
    world.mounter_may_change(file, Asked::Object)
}

/// The permit to write the whole content of an object that exists: open(2) with `O_TRUNC`, write(2).
///
/// E2 (EISDIR), E6 (EFBIG), E9 (ENXIO), F1 (EROFS), F2 (EROFS), L1 (EBUSY), C1 (EACCES), B1 (EACCES), B2 (EPERM).
pub fn rewrite_permit<L: Look>(
    world: &L,
    who: &Task,
    file: Location,
    bytes: Vec<u8>,
) -> Result<Grant, Deny>
    ensures { JudgesAlike (task_of who.now)
        (rewrite_permit (L.looks world.now) (task_of who.now) (location_of file) bytes.items) result }
{
    may_rewrite(world, who, file, &bytes)?;
    Ok(Grant::Write(WriteGrant::Content { file, bytes }))
}

/// The permit to make a file with this content at a place: open(2) with `O_CREAT`, then write(2).
///
/// E6 (EFBIG), and the rules of `may_make`. S5 (ENOMEM): the allocation of the name failed.
pub fn new_file_permit<L: Look>(
    alloc: Global,
    world: &L,
    who: &Task,
    place: &Place,
    bytes: Vec<u8>,
) -> Result<Grant, Deny>
    ensures { (meant : PlaceMeant ℕ) → IsPlaceOf place.now meant → Judges (task_of who.now)
        (new_file_permit (L.looks world.now) (task_of who.now) meant bytes.items) result }
{
    if bytes.len() > LARGEST_FILE {
        return Err(Rule::E6.denial());
    }
    may_make(world, who, place.parent)?;
    let attr = new_attr(who, Mode::new(FILE_MODE).unwrap());
    Ok(Grant::Make(MakeGrant::Node(ToMake {
        directory: place.parent,
        name: name_at(alloc, place.last)?,
        node: NewNode::file(attr, bytes),
    })))
}
