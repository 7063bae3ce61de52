//! Who may set attributes and marks: chmod(2), chown(2), setxattr(2).
ghost use Rattle.std.specs.Prelude.{◌≡◌, nat_eq, Ok};
ghost use Rattle.vt_spec.specs.Errors.{unless};
ghost use Rattle.vt_spec.specs.Machine.Attributes.{may_chown};
ghost use Rattle.vt_spec.specs.Machine.Rules.Attributes.{attr_rules, opaque_rules};
ghost use Rattle.vt_location.specs.Locations.{location_of};
ghost use Rattle.vt_permits.specs.Memory.{JudgesAlike};
ghost use Rattle.vt_tasks.specs.TaskValue.{task_of};
ghost use Rattle.vt_rules.specs.Permitted.{attr_permit};

use crate::rights::is_read_only;
use vt_cred::{Caps, Cred};
use vt_location::Location;
use vt_looks::{Asked, Look};
use vt_node::Attr;
use vt_permits::{Grant, WriteGrant};
use vt_spec::errors::{Deny, Rule};
use vt_tasks::Task;

// The attributes of an object may be set: F1, F2, L1, C2, B1, B2.
fn may_set_attr<L: Look>(
    world: &L,
    object: Location,
    allowed: bool,
    attr: &Attr,
) -> Result<(), Deny>
    ensures { result ≡ unless
        (attr_rules (L.looks world.now) (location_of object) allowed attr.now) (Ok tt) }
{
    if is_read_only(world, object) {
        return Err(Rule::F1.denial());
    }
    if world.has_no_upper(object) {
        return Err(Rule::F2.denial());
    }
    if world.is_locked(object) {
        return Err(Rule::L1.denial());
    }
    if !allowed {
        return Err(Rule::C2.denial());
    }
    world.mounter_may_change(object, Asked::Object)
}

/// The permit to set the attributes of an object, to who is allowed to: chmod(2), chown(2).
///
/// F1 (EROFS), F2 (EROFS), L1 (EBUSY), C2 (EPERM), B1 (EACCES), B2 (EPERM).
pub fn attr_permit<L: Look>(
    world: &L,
    who: &Task,
    object: Location,
    allowed: bool,
    attr: Attr,
) -> Result<Grant, Deny>
    ensures { JudgesAlike (task_of who.now)
        (attr_permit (L.looks world.now) (location_of object) allowed attr) result }
{
    may_set_attr(world, object, allowed, &attr)?;
    Ok(Grant::Write(WriteGrant::Attr { object, attr }))
}

/// Whether these credentials may change the owner and group of an object so: chown(2).
///
/// `CAP_CHOWN` allows any change; without it the owner keeps the uid, and takes one of his groups.
pub fn may_chown(who: &Cred, old: &Attr, new: &Attr) -> bool
    ensures { result ≡ may_chown who.now old.now new.now }
{
    who.has(Caps::CAP_CHOWN)
        || (who.uid() == old.uid
            && new.uid == old.uid
            && (new.gid == old.gid || who.is_member(new.gid)))
}

/// The opaque mark of a directory may be set: setxattr(2) of `trusted.overlay.opaque`.
///
/// F1 (EROFS), F2 (EROFS), L1 (EBUSY), O4 (EPERM).
pub fn may_mark<L: Look>(world: &L, directory: Location) -> Result<(), Deny>
    ensures { result ≡ unless (opaque_rules (L.looks world.now) (location_of directory)) (Ok tt) }
{
    if is_read_only(world, directory) {
        return Err(Rule::F1.denial());
    }
    if world.has_no_upper(directory) {
        return Err(Rule::F2.denial());
    }
    if world.is_locked(directory) {
        return Err(Rule::L1.denial());
    }
    if world.is_overlay(directory) {
        return Err(Rule::O4.denial());
    }
    Ok(())
}
