//! Trees of mounts.
ghost use Rattle.std.specs.List.{list_any};
ghost use Rattle.std.specs.Prelude.{◌≡◌, ◌++◌, ◌∷◌, [], map, reverse, OnOk, nat_eq, IfOk};
ghost use Rattle.vt_spec.specs.Machine.Mounts.{is_unbindable, mount_in, mount_tree, tree_from};
ghost use Rattle.vt_location.specs.Numbers.{mount_number};
ghost use Rattle.vt_mount.specs.MountsValue.{mounts_in};
ghost use Rattle.vt_mount.specs.Waiting.{to_come};

use crate::mounts::Mounts;
use std::alloc::AllocError;
use vt_location::{MountId, Propagation};

// A mount whose tree is still to be walked, and how deep that tree may be.
#[derive(Clone, Copy, Debug)]
struct Branch {
    mount: MountId,
    depth: usize,
}

impl Mounts {
    /// A mount and all its descendants: each mount before its children, those in the order of their numbers. A number
    /// that no mount has counts as a mount here.
    pub fn tree(&self, id: MountId) -> Result<Vec<MountId>, AllocError>
        ensures ok { IfOk result (λ tree. map mount_number tree.items
            ≡ map (λ mount. mount.number) (mount_tree nat_eq (mounts_in self.now)
            (mount_in nat_eq (mounts_in self.now) (mount_number id)))) }
    {
        let alloc = *self.by_number.allocator();
        let mut tree = Vec::new(alloc);
        let mut waiting = Vec::new(alloc);
        // No tree is deeper than there are mounts.
        waiting.push(Branch {
            mount: id,
            depth: self.len(),
        })?;
        while let Some(next) = waiting.pop() {
            tree.push(next.mount)?;
            self.push_children(&mut waiting, next)?;
        }
        Ok(tree)
    }

    // Puts the children of a mount on a stack, unless its tree ends with it.
    fn push_children(&self, waiting: &mut Vec<Branch>, branch: Branch) -> Result<(), AllocError>
        ensures { OnOk result (to_come (mounts_in self.now) (waiting.old.items ++ branch ∷ [])
            ≡ mount_number branch.mount ∷ to_come (mounts_in self.now) waiting.new.items) }
    {
        if branch.depth == 0 {
            return Ok(());
        }
        push_reversed(waiting, self.children(branch.mount), branch.depth - 1)
    }

    /// Whether a mount or a descendant of it is unbindable: EINVAL of mount(2) with `MS_MOVE`. It looks at the mounts
    /// of that tree alone, up to the first that is unbindable, and does not allocate.
    pub fn has_unbindable(&self, id: MountId) -> bool
        ensures { result ≡ list_any (λ mount. is_unbindable mount.propagation)
            (mount_tree nat_eq (mounts_in self.now) (mount_in nat_eq (mounts_in self.now) (mount_number id))) }
    {
        self.has_unbindable_within(id, self.len())
    }

    // Whether a mount of a tree is unbindable, down to a depth.
    fn has_unbindable_within(&self, id: MountId, depth: usize) -> bool
        ensures { result ≡ list_any (λ mount. is_unbindable mount.propagation)
            (tree_from nat_eq depth (mounts_in self.now) (mount_in nat_eq (mounts_in self.now) (mount_number id))) }
    {
        if self.is_unbindable(id) {
            return true;
        }
        if depth == 0 {
            return false;
        }
        for child in self.children(id) {
            if self.has_unbindable_within(*child, depth - 1) {
                return true;
            }
        }
        false
    }

    /// Whether a mount is unbindable.
    pub fn is_unbindable(&self, id: MountId) -> bool
        ensures { result ≡ is_unbindable (mount_in nat_eq (mounts_in self.now) (mount_number id)).propagation }
    {
        match self.get(id) {
            Some(mount) => mount.propagation == Propagation::Unbindable,
            None => false,
        }
    }
}

// Puts mounts on a stack, the last one first.
fn push_reversed(
    waiting: &mut Vec<Branch>,
    children: &[MountId],
    depth: usize,
) -> Result<(), AllocError>
    ensures { OnOk result (waiting.new.items
        ≡ waiting.old.items ++ map (λ id. record { mount = id; depth = depth }) (reverse children.now)) }
{
    waiting.extend(
        children.iter().rev().map(|mount| Branch {
            mount: *mount,
            depth,
        }),
    )
}
