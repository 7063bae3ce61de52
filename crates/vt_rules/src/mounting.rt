//! Which mounts may move: mount(2) with `MS_MOVE`.
ghost use Rattle.std.specs.Prelude.{◌≡◌, is_some, Ok};
ghost use Rattle.vt_spec.specs.Errors.{unless};
ghost use Rattle.vt_spec.specs.Machine.Rules.Mounting.{has_shared_parent};
ghost use Rattle.vt_location.specs.Locations.{location_of};
ghost use Rattle.vt_location.specs.Numbers.{mount_number};
ghost use Rattle.vt_tasks.specs.TaskValue.{task_of};
ghost use Rattle.vt_rules.specs.Tables.{move_table};

use crate::rights::{is_elsewhere, is_no_root, is_shared};
use vt_location::{Location, Mount, MountId};
use vt_looks::{Look, LookAtMounts};
use vt_spec::errors::{Deny, Rule};
use vt_tasks::Task;

/// Whether a mount has a mount point: EINVAL of mount(2) with `MS_MOVE` and of umount(2). The root mount of a
/// namespace has none.
pub fn is_attached_somewhere<L: Look>(world: &L, mount: MountId) -> bool
    ensures { result ≡ is_some ((L.looks world.now).mount (mount_number mount)).mount_point }
{
    match world.mount(mount) {
        Some(mount) => mount.mount_point.is_some(),
        None => false,
    }
}

/// Whether the mount of a location stands on a shared mount.
pub fn has_shared_parent<L: Look>(world: &L, at: Location) -> bool
    ensures { result ≡ has_shared_parent (L.looks world.now) (location_of at) }
{
    match world.mount(at.mount) {
        Some(
            Mount {
                mount_point: Some(place),
                ..
            },
        ) => is_shared(world, place.mount),
        _ => false,
    }
}

/// The mount of a source may move to a place: mount(2) with `MS_MOVE`. It is not checked how many mounts the
/// namespaces then have.
///
/// M2 (EINVAL), M4 (EINVAL), M5 (EINVAL), M6 (ELOOP), M7 (EINVAL).
pub fn may_move<L: LookAtMounts>(
    world: &L,
    who: &Task,
    source: Location,
    place: Location,
) -> Result<(), Deny>
    ensures { result ≡ unless
        (move_table (L.looks world.now) (task_of who.now) (location_of source) (location_of place)) (Ok tt) }
{
    if is_elsewhere(world, who, source) || is_elsewhere(world, who, place) {
        return Err(Rule::M2.denial());
    }
    if has_shared_parent(world, source) {
        return Err(Rule::M4.denial());
    }
    if is_shared(world, place.mount) && world.has_unbindable(source.mount) {
        return Err(Rule::M5.denial());
    }
    if world.is_at_or_below(source.mount, place.mount) {
        return Err(Rule::M6.denial());
    }
    if is_no_root(world, source) {
        return Err(Rule::M7.denial());
    }
    Ok(())
}
