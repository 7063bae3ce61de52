//! What a group that ends leaves to its heir.
ghost use Rattle.std.specs.Prelude.{◌≡◌, ℕ, if◌then◌else◌, nat_eq};
ghost use Rattle.vt_group.specs.ByNumber.{IsAscending, value_at};
ghost use Rattle.std.specs.List.{list_any};
ghost use Rattle.vt_spec.specs.Lists.{then_some};
ghost use Rattle.vt_group.specs.Handing.{group_handed, kind_handed};

use crate::by_number::ByNumber;
use crate::listed::Listed;
use crate::propagation::handed_master;
use crate::types::Types;
use vt_location::{GroupId, MountId, Propagation};

/// The slaves of a lost group that are among these mounts get its heir, or no type if there is none.
pub(crate) fn hand_mounts(
    types: &mut Types,
    mounts: Listed<'_, MountId>,
    lost: GroupId,
    heir: Option<GroupId>,
)
    ensures ordered { IsAscending types.old.kinds → IsAscending types.new.kinds }
    ensures each { (mount : ℕ) → value_at types.new.kinds mount
        ≡ (if list_any (λ id. nat_eq mount id.count) mounts.entry
        then then_some (value_at types.old.kinds mount) (kind_handed lost heir) else value_at types.old.kinds mount) }
{
    for mount in mounts {
        hand_mount(types, mount, lost, heir);
    }
}

fn hand_mount(types: &mut Types, mount: MountId, lost: GroupId, heir: Option<GroupId>)
    ensures ordered { IsAscending types.old.kinds → IsAscending types.new.kinds }
    ensures each { (other : ℕ) → value_at types.new.kinds other
        ≡ (if nat_eq other mount.count
        then then_some (value_at types.old.kinds mount.count) (kind_handed lost heir) else value_at types.old.kinds other) }
{
    let Some(Propagation::Slave(master)) = types.get(mount) else {
        return;
    };
    match handed_master(master, lost, heir) {
        Some(master) => {
            types.set(mount, Propagation::Slave(master));
        }
        None => {
            types.remove(mount);
        }
    }
}

/// Those of these groups that have a lost one as their master get its heir, or no master if there is none.
pub(crate) fn hand_groups(
    above: &mut ByNumber<GroupId, GroupId>,
    groups: Listed<'_, GroupId>,
    lost: GroupId,
    heir: Option<GroupId>,
)
    ensures ordered { IsAscending above.old → IsAscending above.new }
    ensures each { (group : ℕ) → value_at above.new group
        ≡ (if list_any (λ id. nat_eq group id.count) groups.entry
        then then_some (value_at above.old group) (group_handed lost heir) else value_at above.old group) }
{
    for group in groups {
        hand_group(above, group, lost, heir);
    }
}

fn hand_group(
    above: &mut ByNumber<GroupId, GroupId>,
    group: GroupId,
    lost: GroupId,
    heir: Option<GroupId>,
)
    ensures ordered { IsAscending above.old → IsAscending above.new }
    ensures each { (other : ℕ) → value_at above.new other
        ≡ (if nat_eq other group.count
        then then_some (value_at above.old group.count) (group_handed lost heir) else value_at above.old other) }
{
    let Some(master) = above.get(group) else {
        return;
    };
    match handed_master(master, lost, heir) {
        Some(master) => {
            above.set(group, master);
        }
        None => {
            above.remove(group);
        }
    }
}
