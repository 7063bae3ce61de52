//! What the attachment of mounts is made of beside their entries: room for their uses, and their uses.
ghost use Rattle.std.specs.Prelude.{◌≡◌, ◌&&◌, ◌-◌, ◌*◌, ◌<◌, length, map, nat_le, true};
ghost use Rattle.std.specs.List.{list_all};
ghost use Rattle.vt_fs.specs.FilesystemsValue.{shown};
ghost use Rattle.vt_location.specs.Locations.{is_small_node};
ghost use Rattle.vt_location.specs.Numbers.{filesystem_number, most_counted};
ghost use Rattle.vt_spec.specs.Lists.{folded};
ghost use Rattle.vt_mounting.specs.Attach.Room as meant;
ghost use Rattle.vt_mounting.specs.Attach.Room.{has_small_nodes, merged_has_room, point_is_small, uses_shown};
ghost use Rattle.vt_mounting.specs.Detach.Stored.{CountNoUses, OverlaysStay, merged_of};
ghost use Rattle.vt_mounting.specs.Detach.Uses.{inode_of, merged_by, mounted_in, mounts_shown, pinned_at, pinned_in, shown_by};

use vt_location::{Location, Mount, NodeRef};
use vt_store::Store;

// Whether the roots, the mount points and the filesystems of mounts have no more uses than so many.
pub(crate) fn have_room(store: &Store, new: &[Mount], most: u64) -> bool
    requires { CountNoUses store.now }
    ensures room { result ≡ true → list_all (meant.has_room most (shown store.now.plain)) new.now ≡ true }
    ensures slots { result ≡ true → list_all has_small_nodes new.now ≡ true }
{
    for mount in new {
        if !has_room(store, *mount, most) {
            return false;
        }
    }
    true
}

// Whether the root, the mount point and the filesystem of a mount have no more uses than so many.
fn has_room(store: &Store, mount: Mount, most: u64) -> bool
    requires { CountNoUses store.now }
    ensures room { result ≡ meant.has_room most (shown store.now.plain) mount }
    ensures slots { result ≡ true → has_small_nodes mount ≡ true }
{
    root_has_room(store, mount.root, most) && point_has_room(store, mount.mount_point, most)
}

// Whether a root, and its filesystem if that is a plain one, have no more uses than so many.
#[inline(always)]
fn root_has_room(store: &Store, root: NodeRef, most: u64) -> bool
    requires { CountNoUses store.now }
    ensures room { result ≡ (nat_le (uses_shown (inode_of root) (shown store.now.plain)) most
        && nat_le (mounts_shown (filesystem_number root.filesystem) (shown store.now.plain)) most) }
    ensures slots { is_small_node root ≡ true }
{
    if store.overlay(root.filesystem).is_some() {
        store.uses(root) <= most
    } else {
        store.plain().root_has_room(root, most)
    }
}

// Whether a node has no more uses than so many.
#[inline(always)]
fn node_has_room(store: &Store, node: NodeRef, most: u64) -> bool
    requires { CountNoUses store.now }
    ensures room { result ≡ nat_le (uses_shown (inode_of node) (shown store.now.plain)) most }
    ensures slots { is_small_node node ≡ true }
{
    store.uses(node) <= most
}

// Whether a mount point has no more uses than so many.
fn point_has_room(store: &Store, point: Option<Location>, most: u64) -> bool
    requires { CountNoUses store.now }
    ensures room { result ≡ meant.point_has_room most (shown store.now.plain) point }
    ensures slots { point_is_small point ≡ true }
{
    match point {
        Some(point) => node_has_room(store, point.node, most),
        None => true,
    }
}

// Whether the overlays that mounts show have no more mounts than so many.
pub(crate) fn overlays_have_room(store: &Store, new: &[Mount], most: u64) -> bool
    ensures { result ≡ true
        → list_all (merged_has_room most (map merged_of store.now.overlays)) new.now ≡ true }
{
    for mount in new {
        if !overlay_has_room(store, *mount, most) {
            return false;
        }
    }
    true
}

// Whether the overlay that a mount shows, if it shows one, has no more mounts than so many.
fn overlay_has_room(store: &Store, mount: Mount, most: u64) -> bool
    ensures { result ≡ merged_has_room most (map merged_of store.now.overlays) mount }
{
    let filesystem = mount.root.filesystem;
    if store.overlay(filesystem).is_some() {
        store.mounts(filesystem) <= most
    } else {
        true
    }
}

// The overlays that mounts show are mounted once more for each.
pub(crate) fn hold_overlays(store: &mut Store, new: &[Mount])
    requires { list_all (merged_has_room (most_counted - length new.now) (map merged_of store.old.overlays)) new.now
        ≡ true }
    ensures plain { store.new.plain ≡ store.old.plain }
    ensures overlays { map merged_of store.new.overlays
        ≡ folded merged_by (map merged_of store.old.overlays) new.now }
    ensures stay { OverlaysStay store.old.overlays store.new.overlays }
{
    for mount in new {
        hold_overlay(store, mount);
    }
}

// An overlay that a mount shows is mounted once more.
fn hold_overlay(store: &mut Store, mount: &Mount)
    requires { merged_has_room (most_counted - 1) (map merged_of store.old.overlays) mount.now ≡ true }
    ensures plain { store.new.plain ≡ store.old.plain }
    ensures overlays { map merged_of store.new.overlays ≡ merged_by (map merged_of store.old.overlays) mount.now }
    ensures stay { OverlaysStay store.old.overlays store.new.overlays }
{
    let filesystem = mount.root.filesystem;
    if store.overlay(filesystem).is_some() {
        // It does not fail: there is room.
        let _ = store.hold_mount(filesystem);
    }
}

// The roots and mount points of mounts are in use, and their filesystems are shown.
pub(crate) fn show_all(store: &mut Store, new: &[Mount])
    requires none { CountNoUses store.old }
    requires room { list_all (meant.has_room (most_counted - 2 * length new.now) (shown store.old.plain)) new.now
        ≡ true }
    ensures uses { shown store.new.plain ≡ folded shown_by (shown store.old.plain) new.now }
    ensures overlays { store.new.overlays ≡ store.old.overlays }
    ensures still { CountNoUses store.new }
{
    for mount in new {
        show(store, mount);
    }
}

// The root and the mount point of a mount are in use, and its filesystem is shown once more.
fn show(store: &mut Store, mount: &Mount)
    requires none { CountNoUses store.old }
    requires room { meant.has_room (most_counted - 2) (shown store.old.plain) mount.now ≡ true }
    ensures uses { shown store.new.plain ≡ shown_by (shown store.old.plain) mount.now }
    ensures overlays { store.new.overlays ≡ store.old.overlays }
    ensures still { CountNoUses store.new }
{
    show_root(store, mount.root);
    pin_point(store, mount.mount_point);
}

// The root of a mount is in use, and its filesystem is shown once more, if it is a plain one.
fn show_root(store: &mut Store, root: NodeRef)
    requires none { CountNoUses store.old }
    requires uses { uses_shown (inode_of root) (shown store.old.plain) < most_counted }
    requires mounts { mounts_shown (filesystem_number root.filesystem) (shown store.old.plain) < most_counted }
    ensures uses { shown store.new.plain
        ≡ mounted_in (filesystem_number root.filesystem) (pinned_in (inode_of root) (shown store.old.plain)) }
    ensures overlays { store.new.overlays ≡ store.old.overlays }
    ensures still { CountNoUses store.new }
{
    // Neither fails: there is room.
    if store.overlay(root.filesystem).is_some() {
        let _ = store.pin(root);
    } else {
        let _ = store.plain_mut().hold_root(root);
    }
}

// A mount point is in use.
fn pin_point(store: &mut Store, point: Option<Location>)
    requires none { CountNoUses store.old }
    requires room { meant.point_has_room (most_counted - 1) (shown store.old.plain) point ≡ true }
    ensures uses { shown store.new.plain ≡ pinned_at point (shown store.old.plain) }
    ensures overlays { store.new.overlays ≡ store.old.overlays }
    ensures still { CountNoUses store.new }
{
    if let Some(point) = point {
        // It does not fail: there is room.
        let _ = store.pin(point.node);
    }
}
