//! The mounts of a tree, as a bind copies them: mount(2) with `MS_BIND`, and `MS_REC`.
ghost use Rattle.std.specs.Prelude.{◌≡◌, IfOk, map};
ghost use Rattle.vt_location.specs.MountValue.{mount_of};
ghost use Rattle.vt_mount.specs.MountsValue.{mounts_in};
ghost use Rattle.vt_mounting.specs.Attach.BoundMounts.{bound_mounts as meant, rooted_at};

use std::alloc::{AllocError, Global};
use vt_location::{Location, Mount, MountId};
use vt_mount::Mounts;

/// These mounts, in their order, with the source as the root of that on which it lies.
pub fn bound_mounts(
    alloc: Global,
    mounts: &Mounts,
    origins: &[MountId],
    source: Location,
) -> Result<Vec<Mount>, AllocError>
    ensures { IfOk result (λ tree. map mount_of tree.items ≡ meant source (mounts_in mounts.now) origins.now) }
{
    let mut tree = Vec::with_capacity(alloc, origins.len())?;
    for id in origins {
        if let Some(mount) = mounts.get(*id) {
            tree.push(rooted(mount, source))?;
        }
    }
    Ok(tree)
}

// A mount, with the source as its root if the source lies on it.
fn rooted(mount: Mount, source: Location) -> Mount
    ensures { mount_of result ≡ rooted_at source (mount_of mount) }
{
    if mount.number == source.mount {
        Mount {
            root: source.node,
            ..mount
        }
    } else {
        mount
    }
}
