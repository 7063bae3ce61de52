//! Mounts that leave their namespaces: umount(2).
ghost use Rattle.std.specs.Prelude.{◌≡◌, [], IfSome, map, option_map, true};
ghost use Rattle.vt_fs.specs.FilesystemsValue.{shown};
ghost use Rattle.vt_location.specs.Locations.{is_small_node, location_of};
ghost use Rattle.vt_location.specs.Numbers.{mount_number};
ghost use Rattle.vt_mounting.specs.Detach.Detached.{LeaveInTurn, LeaveTogether};
ghost use Rattle.vt_mounting.specs.Detach.Stored.{CountNoUses, OverlaysLeft, kept};
ghost use Rattle.vt_mounting.specs.Detach.Uses.{point_of, root_left, unpinned_at, without_attachment};

use crate::detach::uses::leave_root;
use vt_group::Groups;
use vt_location::{Location, MountId, NodeRef};
use vt_mount::Mounts;
use vt_retype::leave_all;
use vt_store::Store;

/// A mount leaves its namespace and its mount point, which is returned, and goes if nothing is on it. It takes no
/// memory.
pub fn detach(mounts: &mut Mounts, store: &mut Store, id: MountId) -> Option<Location>
    requires { CountNoUses store.old }
    ensures point { option_map location_of result ≡ point_of (mount_number id) mounts.old }
    ensures left { kept mounts.new store.new
        ≡ without_attachment (mount_number id) result (kept mounts.old store.old) }
    ensures overlays { OverlaysLeft store.old.overlays store.new.overlays }
    ensures still { CountNoUses store.new }
    ensures slot { IfSome result (λ point. is_small_node point.node ≡ true) }
{
    let left = mounts.leave(id);
    unpin_point(store, left.point);
    leave_root_left(store, left.root);
    left.point
}

// The node at a mount point is used once less.
pub(crate) fn unpin_point(store: &mut Store, point: Option<Location>)
    requires { CountNoUses store.old }
    ensures uses { shown store.new.plain ≡ unpinned_at point (shown store.old.plain) }
    ensures overlays { store.new.overlays ≡ store.old.overlays }
    ensures still { CountNoUses store.new }
{
    if let Some(point) = point {
        store.unpin(point.node);
    }
}

// A mount with this root is gone, if one is.
fn leave_root_left(store: &mut Store, root: Option<NodeRef>)
    requires { CountNoUses store.old }
    ensures left { kept [] store.new ≡ root_left root (kept [] store.old) }
    ensures overlays { OverlaysLeft store.old.overlays store.new.overlays }
    ensures still { CountNoUses store.new }
{
    if let Some(root) = root {
        leave_root(store, root);
    }
}

/// Mounts leave their namespaces one after the other. It does not allocate.
pub fn detach_each(mounts: &mut Mounts, store: &mut Store, ids: &[MountId])
    requires { CountNoUses store.old }
    ensures left { LeaveInTurn (map mount_number ids.now) (kept mounts.old store.old)
        (kept mounts.new store.new) }
    ensures overlays { OverlaysLeft store.old.overlays store.new.overlays }
    ensures still { CountNoUses store.new }
{
    for id in ids {
        detach(mounts, store, *id);
    }
}

/// Mounts leave their namespaces one after the other, and their groups at once: the slaves of a group that ends get its
/// master. It does not allocate.
pub fn detach_together(mounts: &mut Mounts, groups: &mut Groups, store: &mut Store, ids: &[MountId])
    requires { CountNoUses store.old }
    ensures left { LeaveTogether (map mount_number ids.now) (kept mounts.old store.old) groups.old
        (kept mounts.new store.new) groups.new }
    ensures overlays { OverlaysLeft store.old.overlays store.new.overlays }
{
    detach_each(mounts, store, ids);
    leave_all(mounts, groups, ids);
}
