//! Uses of locations: a root, a working directory or an open file is a use of its mount and of its inode.
ghost use Rattle.std.specs.Prelude.{◌≡◌, [], IfSome, IsOk, OnErr, OnOk, true};
ghost use Rattle.vt_location.specs.Locations.{is_small_node, number_of};
ghost use Rattle.vt_location.specs.Numbers.{filesystem_number, mount_number};
ghost use Rattle.vt_mounting.specs.Detach.Forking.{HasRoom};
ghost use Rattle.vt_mounting.specs.Detach.Uses as meant;
ghost use Rattle.vt_mounting.specs.Detach.Stored.{CountNoUses, OverlaysLeft, kept};
ghost use Rattle.vt_mounting.specs.Detach.Uses.{merged_at, with_location, without_location};

use std::alloc::AllocError;
use vt_location::{FilesystemId, Location, MountId, NodeRef};
use vt_mount::Mounts;
use vt_store::Store;

/// One use more of a location: of its mount and its node. In an overlay a node counts its uses if it is kept without a
/// name. It does not allocate: an error says that the mount or the node has 2^64 - 1 uses.
pub fn hold(
    mounts: &mut Mounts,
    store: &mut Store,
    at: Location,
    writes: bool,
) -> Result<(), AllocError>
    requires { CountNoUses store.old }
    ensures ok { OnOk result
        (kept mounts.new store.new ≡ with_location at writes (kept mounts.old store.old)) }
    ensures slot { is_small_node at.node ≡ true }
    ensures overlays { store.new.overlays ≡ store.old.overlays }
    ensures still { CountNoUses store.new }
    ensures room { HasRoom 1 at mounts.old store.old.plain → IsOk result }
    ensures err_mounts { OnErr result (mounts.new ≡ mounts.old) }
    ensures err_store { OnErr result (store.new ≡ store.old) }
{
    mounts.hold(at.mount, writes)?;
    if let Err(refused) = store.pin(at.node) {
        mounts.release(at.mount, writes);
        return Err(refused);
    }
    Ok(())
}

/// One use less of a location: what nothing uses any more goes, an overlay with the uses of its layers. It does not
/// allocate.
pub fn leave(mounts: &mut Mounts, store: &mut Store, at: Location, writes: bool)
    requires { CountNoUses store.old }
    ensures left { kept mounts.new store.new ≡ without_location at writes (kept mounts.old store.old) }
    ensures overlays { OverlaysLeft store.old.overlays store.new.overlays }
    ensures still { CountNoUses store.new }
    ensures slot { is_small_node at.node ≡ true }
{
    mounts.release(at.mount, writes);
    store.unpin(at.node);
    let_go_mount(mounts, store, at.mount);
}

// A mount goes if it is in no namespace and nothing is on it, and its filesystem with its last mount.
fn let_go_mount(mounts: &mut Mounts, store: &mut Store, id: MountId)
    requires { CountNoUses store.old }
    ensures left { kept mounts.new store.new ≡ meant.let_go_mount (mount_number id) (kept mounts.old store.old) }
    ensures overlays { OverlaysLeft store.old.overlays store.new.overlays }
    ensures still { CountNoUses store.new }
{
    let Some(mount) = mounts.remove_unused(id) else {
        return;
    };
    leave_root(store, mount.root);
}

/// A mount with this root is gone: one use less of the root, and one mount less of its filesystem, which goes with its
/// last.
pub(crate) fn leave_root(store: &mut Store, root: NodeRef)
    requires { CountNoUses store.old }
    ensures left { kept [] store.new
        ≡ meant.leave_root (filesystem_number root.filesystem) (number_of root) (kept [] store.old) }
    ensures overlays { OverlaysLeft store.old.overlays store.new.overlays }
    ensures still { CountNoUses store.new }
{
    if store.overlay(root.filesystem).is_some() {
        store.unpin(root);
        leave_overlay(store, root.filesystem);
    } else {
        store.plain_mut().leave_root(root);
    }
}

// One mount less of an overlay, which goes with its last, and its layers with it.
fn leave_overlay(store: &mut Store, id: FilesystemId)
    ensures left { IfSome (merged_at (filesystem_number id) (kept [] store.old).overlays) (λ one.
        kept [] store.new ≡ meant.leave_filesystem (filesystem_number id) (kept [] store.old)) }
    ensures overlays { OverlaysLeft store.old.overlays store.new.overlays }
{
    store.release_mount(id);
    if store.mounts(id) == 0 {
        store.remove_overlay(id);
    }
}
