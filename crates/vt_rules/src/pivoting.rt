//! Which mounts may become root mounts: pivot_root(2).
ghost use Rattle.std.specs.Prelude.{◌≡◌, ◌&&◌, nat_eq, option_map, Ok};
ghost use Rattle.vt_spec.specs.Errors.{unless};
ghost use Rattle.vt_spec.specs.Machine.Looks.{mount_at};
ghost use Rattle.vt_spec.specs.Machine.Rules.Mounting.{is_on_descendant, lies_under_location, pivot_rules};
ghost use Rattle.vt_location.specs.Locations.{location_of, number_of};
ghost use Rattle.vt_location.specs.Numbers.{mount_number};
ghost use Rattle.vt_tasks.specs.TaskValue.{task_of};

use crate::mounting::has_shared_parent;
use crate::rights::{is_elsewhere, is_no_root, is_shared};
use vt_location::{Location, MountId};
use vt_looks::Look;
use vt_spec::errors::{Deny, Rule};
use vt_tasks::Task;

/// The root of a mount may become the caller's root, and the old root mount stand at a place under it: pivot_root(2).
///
/// M2 (EINVAL), M7 (EINVAL), M11 (EBUSY), M12 (EINVAL).
pub fn may_pivot<L: Look>(world: &L, who: &Task, new: Location, put: Location) -> Result<(), Deny>
    ensures { result ≡ unless
        (pivot_rules nat_eq (L.looks world.now) (task_of who.now) (location_of new) (location_of put)) (Ok tt) }
{
    let root = who.root;
    if is_elsewhere(world, who, root)
        || is_elsewhere(world, who, new)
        || is_elsewhere(world, who, put)
    {
        return Err(Rule::M2.denial());
    }
    if is_no_root(world, new) || is_no_root(world, root) {
        return Err(Rule::M7.denial());
    }
    if is_same_mount(new.mount, root.mount) || is_same_mount(put.mount, root.mount) {
        return Err(Rule::M11.denial());
    }
    if !is_on_descendant(world, root.mount, new)
        || !lies_under(world, new, put)
        || has_shared_parent(world, new)
        || has_shared_parent(world, root)
        || is_shared(world, put.mount)
    {
        return Err(Rule::M12.denial());
    }
    Ok(())
}

/// Whether two mounts are the same.
pub fn is_same_mount(a: MountId, b: MountId) -> bool
    ensures { result ≡ nat_eq (mount_number a) (mount_number b) }
{
    a == b
}

// Where a mount stands, if it has a mount point.
fn mount_point_of<L: Look>(world: &L, mount: MountId) -> Option<Location>
    ensures { option_map location_of result ≡ ((L.looks world.now).mount (mount_number mount)).mount_point }
{
    world.mount(mount)?.mount_point
}

/// Whether a location is on a descendant of a mount.
pub fn is_on_descendant<L: Look>(world: &L, mount: MountId, at: Location) -> bool
    ensures { result ≡ is_on_descendant nat_eq (L.looks world.now) (mount_number mount) (location_of at) }
{
    let mut here = at;
    for _ in 0..world.mount_count() {
        let Some(place) = mount_point_of(world, here.mount) else {
            return false;
        };
        if is_same_mount(mount, place.mount) {
            return true;
        }
        here = place;
    }
    false
}

/// Whether a location is at or under a directory, as seen through the mounts on the way up from it.
pub fn lies_under<L: Look>(world: &L, top: Location, at: Location) -> bool
    ensures { result ≡ lies_under_location nat_eq (L.looks world.now) (location_of top) (location_of at) }
{
    let mut here = at;
    for _ in 0..world.mount_count() {
        if is_under_on_mount(world, top, here) {
            return true;
        }
        let Some(place) = mount_point_of(world, here.mount) else {
            return false;
        };
        here = place;
    }
    is_under_on_mount(world, top, here)
}

// Whether a location is at or under a directory on the same mount.
fn is_under_on_mount<L: Look>(world: &L, top: Location, here: Location) -> bool
    ensures { result ≡ (nat_eq (location_of top).mount (location_of here).mount
        && (L.looks world.now).is_under (mount_at (L.looks world.now) (location_of top)).filesystem
        (number_of top.node) (number_of here.node)) }
{
    top.mount == here.mount && world.is_under(top, here.node)
}
