//! What may lose its name, and what may have another: unlink(2), rmdir(2), rename(2).
ghost use Rattle.std.specs.List.{list_any};
ghost use Rattle.std.specs.Prelude.{◌≡◌, ◌∷◌, ◌||◌, false, nat_eq, option_map, option_to_list, List, Ok, OnOk, ℕ};
ghost use Rattle.vt_spec.specs.Errors.{unless};
ghost use Rattle.vt_spec.specs.Language.Changes.Change.{Remove};
ghost use Rattle.vt_spec.specs.Lists.{holds_of};
ghost use Rattle.vt_spec.specs.Machine.Rules.Conditions.{has_no_upper, is_kept, is_mount_point_anywhere, is_mount_point_in};
ghost use Rattle.vt_spec.specs.Machine.Rules.Removing.{changes_parent, is_one_object, rename_rules, rmdir_rules, same_object_rules, unlink_rules};
ghost use Rattle.vt_spec.specs.Machine.Walking.{Place as PlaceMeant};
ghost use Rattle.vt_location.specs.Locations.{location_of, number_of};
ghost use Rattle.vt_looks.specs.Places.{as_place};
ghost use Rattle.vt_tasks.specs.TaskValue.{task_of};
ghost use Rattle.vt_rules.specs.Places.{IsPlaceOf};
ghost use Rattle.vt_rules.specs.Tables.{kind_rules, layer_rules, remove_rules, right_rules, way_rules};

use crate::rights::{is_directory, is_kept, is_read_only, is_same_filesystem, may};
use vt_cred::Rights;
use vt_location::Location;
use vt_looks::{Asked, Look, OldPlace, Place};
use vt_spec::errors::{Deny, Rule};
use vt_tasks::Task;

// The caller may take a name of an object from a directory, and in an overlay with an upper layer its mounter too: C1,
// C3, B1, B2.
fn may_remove<L: Look>(
    world: &L,
    who: &Task,
    directory: Location,
    object: Location,
) -> Result<(), Deny>
    requires { has_no_upper (L.looks world.now) (location_of directory) ≡ false }
    ensures { (name : List ℕ) → result ≡ unless
        (remove_rules (L.looks world.now) (task_of who.now) (location_of directory) (location_of object)
        (Remove (number_of directory.node) name (number_of object.node))) (Ok tt) }
{
    if !may(world, who, directory, Rights::WRITE) {
        return Err(Rule::C1.denial());
    }
    if is_kept(world, who, directory, object) {
        return Err(Rule::C3.denial());
    }
    if !world.mounter_may(directory, Rights::WRITE) {
        return Err(Rule::B1.denial());
    }
    world.mounter_may_change(directory, Asked::Entry)
}

/// What is no directory may lose a name: unlink(2).
///
/// E2 (EISDIR), F1 (EROFS), F2 (EROFS), L1 (EBUSY), C1 (EACCES), C3 (EPERM), B1 (EACCES), B2 (EPERM).
pub fn may_unlink<L: Look>(world: &L, who: &Task, place: &OldPlace) -> Result<(), Deny>
    ensures { (meant : PlaceMeant ℕ) → IsPlaceOf (as_place place.now) meant
        → result ≡ unless
        (unlink_rules (L.looks world.now) (task_of who.now) meant (location_of place.now.object)) (Ok tt) }
{
    if is_directory(world, place.object) {
        return Err(Rule::E2.denial());
    }
    if is_read_only(world, place.parent) {
        return Err(Rule::F1.denial());
    }
    if world.has_no_upper(place.parent) {
        return Err(Rule::F2.denial());
    }
    if world.is_locked(place.object) || world.is_locked(place.parent) {
        return Err(Rule::L1.denial());
    }
    may_remove(world, who, place.parent, place.object)
}

/// An empty directory may lose its name: rmdir(2).
///
/// E3 (ENOTDIR), E4 (ENOTEMPTY), F1 (EROFS), F2 (EROFS), L1 (EBUSY), P1 (EBUSY), C1 (EACCES), C3 (EPERM), B1 (EACCES),
/// B2 (EPERM).
pub fn may_rmdir<L: Look>(world: &L, who: &Task, place: &OldPlace) -> Result<(), Deny>
    ensures { (meant : PlaceMeant ℕ) → IsPlaceOf (as_place place.now) meant
        → result ≡ unless
        (rmdir_rules nat_eq (L.looks world.now) (task_of who.now) meant (location_of place.now.object)) (Ok tt) }
{
    let directory = place.object;
    if !is_directory(world, directory) {
        return Err(Rule::E3.denial());
    }
    if world.is_nonempty(directory) {
        return Err(Rule::E4.denial());
    }
    if is_read_only(world, place.parent) {
        return Err(Rule::F1.denial());
    }
    if world.has_no_upper(place.parent) {
        return Err(Rule::F2.denial());
    }
    if world.is_locked(directory) || world.is_locked(place.parent) {
        return Err(Rule::L1.denial());
    }
    if world.is_mount_point_in(who.namespace, directory) {
        return Err(Rule::P1.denial());
    }
    may_remove(world, who, place.parent, directory)
}

/// Whether a place is a name of this object: rename(2) then has no effect.
pub fn is_name_of<L: Look>(world: &L, object: Location, place: &Place) -> bool
    ensures { result ≡ is_one_object nat_eq (L.looks world.now) (location_of object)
        (option_map location_of place.now.object) }
{
    match place.object {
        Some(there) => {
            is_same_filesystem(world, object, there) && object.node.is_same(there.node)
        }
        None => false,
    }
}

/// Two names of one object may stay as they are: rename(2).
///
/// F1 (EROFS), F2 (EROFS), P2 (EXDEV).
pub fn may_stay<L: Look>(world: &L, from: &OldPlace, to: &Place) -> Result<(), Deny>
    ensures { (old new : PlaceMeant ℕ) → IsPlaceOf (as_place from.now) old → IsPlaceOf to.now new
        → result ≡ unless (same_object_rules nat_eq (L.looks world.now) old new) (Ok tt) }
{
    if is_read_only(world, from.parent) || is_read_only(world, to.parent) {
        return Err(Rule::F1.denial());
    }
    if world.has_no_upper(from.parent) || world.has_no_upper(to.parent) {
        return Err(Rule::F2.denial());
    }
    if from.parent.mount != to.parent.mount {
        return Err(Rule::P2.denial());
    }
    Ok(())
}

// What has the new name may give it to the object: E2 (EISDIR), E3 (ENOTDIR), E4 (ENOTEMPTY); and a directory does not
// go under itself: E5 (EINVAL).
fn may_replace<L: Look>(world: &L, to: &Place, object: Location) -> Result<(), Deny>
    ensures { (new : PlaceMeant ℕ) → IsPlaceOf to.now new
        → result ≡ unless (kind_rules nat_eq (L.looks world.now) new (location_of object)) (Ok tt) }
{
    let moves_directory = is_directory(world, object);
    if let Some(replaced) = to.object {
        if !moves_directory && is_directory(world, replaced) {
            return Err(Rule::E2.denial());
        }
        if moves_directory && !is_directory(world, replaced) {
            return Err(Rule::E3.denial());
        }
        if moves_directory && world.is_nonempty(replaced) {
            return Err(Rule::E4.denial());
        }
    }
    if moves_directory
        && is_same_filesystem(world, object, to.parent)
        && world.is_under(object, to.parent.node)
    {
        return Err(Rule::E5.denial());
    }
    Ok(())
}

// Whether a mount stands in the way of a rename: on the old object in any namespace, or on the new one in the caller's.
fn is_point<L: Look>(world: &L, who: &Task, object: Location, replaced: Option<Location>) -> bool
    ensures { result ≡ (is_mount_point_anywhere (L.looks world.now) (location_of object)
        || holds_of (is_mount_point_in nat_eq (L.looks world.now) (task_of who.now).namespace)
        (option_map location_of replaced)) }
{
    if world.is_mount_point_anywhere(object) {
        return true;
    }
    match replaced {
        Some(replaced) => world.is_mount_point_in(who.namespace, replaced),
        None => false,
    }
}

// Whether a rename leaves a directory in another parent, which its `..` then names.
fn changes_parent<L: Look>(world: &L, from: &OldPlace, to: &Place) -> bool
    ensures { (old new : PlaceMeant ℕ) → IsPlaceOf (as_place from.now) old → IsPlaceOf to.now new
        → result ≡ changes_parent nat_eq (L.looks world.now) old new (location_of from.now.object) }
{
    is_directory(world, from.object) && !from.parent.is_same(to.parent)
}

// Whether a sticky directory keeps what has the new name.
fn is_replaced_kept<L: Look>(world: &L, who: &Task, to: &Place) -> bool
    ensures { (new : PlaceMeant ℕ) → IsPlaceOf to.now new
        → result ≡ holds_of (is_kept (L.looks world.now) (task_of who.now) new.parent) new.object }
{
    match to.object {
        Some(replaced) => is_kept(world, who, to.parent, replaced),
        None => false,
    }
}

// Whether one of the directories or objects of a rename lies in a layer of a live overlay.
fn is_one_locked<L: Look>(world: &L, from: &OldPlace, to: &Place) -> bool
    ensures { result ≡ list_any (L.looks world.now).is_locked
        (location_of from.now.parent ∷ location_of to.now.parent ∷ location_of from.now.object
        ∷ option_to_list (option_map location_of to.now.object)) }
{
    if world.is_locked(from.parent) || world.is_locked(to.parent) || world.is_locked(from.object) {
        return true;
    }
    match to.object {
        Some(replaced) => world.is_locked(replaced),
        None => false,
    }
}

// Nothing stands between the two names: F1 (EROFS), F2 (EROFS), L1 (EBUSY), P1 (EBUSY), P2 (EXDEV).
fn may_cross<L: Look>(world: &L, who: &Task, from: &OldPlace, to: &Place) -> Result<(), Deny>
    ensures rules { (old new : PlaceMeant ℕ) → IsPlaceOf (as_place from.now) old → IsPlaceOf to.now new
        → result ≡ unless
        (way_rules nat_eq (L.looks world.now) (task_of who.now) old new (location_of from.now.object)) (Ok tt) }
    ensures upper { OnOk result (has_no_upper (L.looks world.now) (location_of from.now.parent) ≡ false) }
{
    if is_read_only(world, from.parent) || is_read_only(world, to.parent) {
        return Err(Rule::F1.denial());
    }
    if world.has_no_upper(from.parent) || world.has_no_upper(to.parent) {
        return Err(Rule::F2.denial());
    }
    if is_one_locked(world, from, to) {
        return Err(Rule::L1.denial());
    }
    if is_point(world, who, from.object, to.object) {
        return Err(Rule::P1.denial());
    }
    if from.parent.mount != to.parent.mount {
        return Err(Rule::P2.denial());
    }
    Ok(())
}

// The caller may change both directories: C1 (EACCES), C3 (EPERM).
fn may_change_both<L: Look>(world: &L, who: &Task, from: &OldPlace, to: &Place) -> Result<(), Deny>
    ensures { (old new : PlaceMeant ℕ) → IsPlaceOf (as_place from.now) old → IsPlaceOf to.now new
        → result ≡ unless
        (right_rules nat_eq (L.looks world.now) (task_of who.now) old new (location_of from.now.object)) (Ok tt) }
{
    if !may(world, who, from.parent, Rights::WRITE) || !may(world, who, to.parent, Rights::WRITE) {
        return Err(Rule::C1.denial());
    }
    if changes_parent(world, from, to) && !may(world, who, from.object, Rights::WRITE) {
        return Err(Rule::C1.denial());
    }
    if is_kept(world, who, from.parent, from.object) || is_replaced_kept(world, who, to) {
        return Err(Rule::C3.denial());
    }
    Ok(())
}

// The layers of an overlay allow it: O1 (EXDEV) of a directory that a lower layer has too; and its mounter may change
// both directories: B1 (EACCES), B2 (EPERM).
fn may_layers_change<L: Look>(world: &L, from: &OldPlace, to: &Place) -> Result<(), Deny>
    requires { has_no_upper (L.looks world.now) (location_of from.now.parent) ≡ false }
    ensures { (old new : PlaceMeant ℕ) → IsPlaceOf (as_place from.now) old → IsPlaceOf to.now new
        → result ≡ unless
        (layer_rules nat_eq (L.looks world.now) old new (location_of from.now.object)) (Ok tt) }
{
    if is_directory(world, from.object)
        && world.has_lower_directory(from.parent, from.last.name())
    {
        return Err(Rule::O1.denial());
    }
    if !world.mounter_may(from.parent, Rights::WRITE)
        || !world.mounter_may(to.parent, Rights::WRITE)
    {
        return Err(Rule::B1.denial());
    }
    if changes_parent(world, from, to) && !world.mounter_may(from.object, Rights::WRITE) {
        return Err(Rule::B1.denial());
    }
    let asked = Asked::Rename {
        object: from.object.node,
        to: to.parent.node,
    };
    world.mounter_may_change(from.parent, asked)
}

/// An object may leave one name for another: rename(2).
///
/// E2 (EISDIR), E3 (ENOTDIR), E4 (ENOTEMPTY), E5 (EINVAL), F1 (EROFS), F2 (EROFS), L1 (EBUSY), P1 (EBUSY), P2 (EXDEV),
/// C1 (EACCES), C3 (EPERM), O1 (EXDEV), B1 (EACCES), B2 (EPERM).
pub fn may_rename<L: Look>(world: &L, who: &Task, from: &OldPlace, to: &Place) -> Result<(), Deny>
    ensures { (old new : PlaceMeant ℕ) → IsPlaceOf (as_place from.now) old → IsPlaceOf to.now new
        → result ≡ unless
        (rename_rules nat_eq (L.looks world.now) (task_of who.now) old new (location_of from.now.object)) (Ok tt) }
{
    may_replace(world, to, from.object)?;
    may_cross(world, who, from, to)?;
    may_change_both(world, who, from, to)?;
    may_layers_change(world, from, to)
}
