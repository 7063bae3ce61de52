//! What the slaves of a group get where the group ends: mount_namespaces(7).
ghost use Rattle.std.specs.Prelude.{◌≡◌, map, option_map};
ghost use Rattle.vt_location.specs.Numbers.{mount_number, group_number};
ghost use Rattle.vt_mount.specs.MountsValue.{changed};
ghost use Rattle.vt_retype.specs.Leaving.{HaveSources, OnlyTypesChange, after_end, after_end_of, once_left};

use vt_group::{Groups, Listed, type_after_end};
use vt_location::{GroupId, MountId};
use vt_mount::Mounts;

// If this mount is the last member of its group, the slaves of the group get its master, or become private.
pub(crate) fn hand_on(mounts: &mut Mounts, groups: &Groups, id: MountId)
    ensures slaves { HaveSources groups.now mounts.old
        → mounts.new ≡ map (once_left groups.now (mount_number id)) mounts.old }
    ensures types { OnlyTypesChange mounts.old mounts.new }
{
    let Some(lost) = groups.ends_with(id) else {
        return;
    };
    hand_to_all(mounts, groups.relatives(lost), lost, groups.master_of(lost));
}

// The slaves of a group that ends which are among these mounts get its master, or become private.
fn hand_to_all(
    mounts: &mut Mounts,
    relatives: Listed<'_, MountId>,
    lost: GroupId,
    heir: Option<GroupId>,
)
    ensures { mounts.new ≡ map (after_end_of (map mount_number relatives.entry) (group_number lost)
        (option_map group_number heir)) mounts.old }
{
    for id in relatives {
        hand_to(mounts, id, lost, heir);
    }
}

fn hand_to(mounts: &mut Mounts, id: MountId, lost: GroupId, heir: Option<GroupId>)
    ensures { mounts.new ≡ changed (mount_number id) (after_end (group_number lost) (option_map group_number heir))
        mounts.old }
{
    let Some(mount) = mounts.get(id) else {
        return;
    };
    mounts.set_propagation(id, type_after_end(mount.propagation, lost, heir));
}
