//! Trees of mounts: mount(2) with `MS_BIND` and `MS_REC`.
ghost use Rattle.std.specs.Prelude.{◌≡◌, ◌++◌, ◌∷◌, [], IfOk, OnOk, filter, flat_map, length, map, nat_eq, true};
ghost use Rattle.vt_location.specs.Locations.{location_of};
ghost use Rattle.vt_location.specs.MountValue.{mount_of};
ghost use Rattle.vt_location.specs.Numbers.{mount_number};
ghost use Rattle.vt_mount.specs.MountsValue.{mounts_in};
ghost use Rattle.vt_spec.specs.Machine.Attach as meant;
ghost use Rattle.vt_spec.specs.Machine.Attach.{bindable_children, bindable_tree};
ghost use Rattle.vt_spec.specs.Machine.Mounts as meant_mounts;
ghost use Rattle.vt_spec.specs.Machine.World.{mount_numbered};
ghost use Rattle.vt_spec.specs.Machine.Invariants.{is_located_well};
ghost use Rattle.vt_ns.specs.Trees.{bindable_to_come};
ghost use Rattle.vt_world.specs.WorldValue.{world_of};

use crate::world::World;
use std::alloc::AllocError;
use vt_location::{Location, Mount, MountId};
use vt_looks::Look;
use vt_mounting::attach::bound::bound_mounts;

// A mount whose tree is still to be walked, and how deep that tree may be.
#[derive(Clone, Copy, Debug)]
struct Branch {
    mount: MountId,
    depth: usize,
}

impl World {
    /// The mounts that a bind copies, each before its children: that of the source, and if the bind is recursive those
    /// at or under the source with all their descendants, without unbindable mounts and what is below them.
    pub(crate) fn bind_tree(
        &self,
        source: Location,
        recursive: bool,
    ) -> Result<Vec<MountId>, AllocError>
        ensures ok { IfOk result (λ tree. map mount_number tree.items
            ≡ map (λ mount. mount.number) (meant.bind_tree nat_eq (world_of self.now) (location_of source) recursive)) }
    {
        let mut tree = Vec::new(self.alloc);
        tree.push(source.mount)?;
        if !recursive {
            return Ok(tree);
        }
        let mut waiting = Vec::new(self.alloc);
        self.push_bound(&mut waiting, source)?;
        while let Some(next) = waiting.pop() {
            tree.push(next.mount)?;
            self.push_bindable(&mut waiting, next)?;
        }
        Ok(tree)
    }

    /// The mounts that a bind copies, as it copies them: with the source as the root of that on which it lies.
    pub(crate) fn mounts_bound(
        &self,
        source: Location,
        recursive: bool,
    ) -> Result<Vec<Mount>, AllocError>
        requires { is_located_well nat_eq (world_of self.now) (location_of source) ≡ true }
        ensures ok { IfOk result (λ tree. map mount_of tree.items
            ≡ meant.bind_tree nat_eq (world_of self.now) (location_of source) recursive) }
    {
        let origins = self.bind_tree(source, recursive)?;
        bound_mounts(self.mounts.alloc(), &self.mounts, &origins, source)
    }

    // Puts the mounts at or under a source on a stack, the last one first.
    fn push_bound(&self, waiting: &mut Vec<Branch>, source: Location) -> Result<(), AllocError>
        ensures { OnOk result (bindable_to_come (mounts_in self.now.mounts) waiting.new.items
            ≡ map (λ mount. mount.number)
            (flat_map (bindable_tree nat_eq (length (mounts_in self.now.mounts)) (mounts_in self.now.mounts))
            (filter (meant.stands_under nat_eq (world_of self.now) (location_of source))
            (bindable_children nat_eq (mounts_in self.now.mounts) (mount_number source.mount))))
            ++ bindable_to_come (mounts_in self.now.mounts) waiting.old.items) }
    {
        let depth = self.mounts.len();
        waiting.extend(
            self.mounts
                .children(source.mount)
                .iter()
                .rev()
                .filter(|mount| !self.is_unbindable(**mount) && self.stands_under(source, **mount))
                .map(|mount| Branch {
                    mount: *mount,
                    depth,
                }),
        )
    }

    // Puts the children of a mount that are not unbindable on a stack, unless its tree ends with it.
    fn push_bindable(&self, waiting: &mut Vec<Branch>, branch: Branch) -> Result<(), AllocError>
        ensures { OnOk result (bindable_to_come (mounts_in self.now.mounts) (waiting.old.items ++ branch ∷ [])
            ≡ mount_number branch.mount ∷ bindable_to_come (mounts_in self.now.mounts) waiting.new.items) }
    {
        if branch.depth == 0 {
            return Ok(());
        }
        let depth = branch.depth - 1;
        waiting.extend(
            self.mounts
                .children(branch.mount)
                .iter()
                .rev()
                .filter(|mount| !self.is_unbindable(**mount))
                .map(|mount| Branch {
                    mount: *mount,
                    depth,
                }),
        )
    }

    /// Whether a mount is unbindable.
    pub(crate) fn is_unbindable(&self, mount: MountId) -> bool
        ensures { result
            ≡ meant_mounts.is_unbindable (mount_numbered nat_eq (world_of self.now) (mount_number mount)).propagation }
    {
        self.mounts.is_unbindable(mount)
    }

    // Whether the mount point of a mount is a source or lies under it.
    fn stands_under(&self, source: Location, mount: MountId) -> bool
        ensures { result ≡ meant.stands_under nat_eq (world_of self.now) (location_of source)
            (mount_numbered nat_eq (world_of self.now) (mount_number mount)) }
    {
        let Some(mount) = self.mounts.get(mount) else {
            return false;
        };
        match mount.mount_point {
            Some(point) => self.is_under(source, point.node),
            None => false,
        }
    }
}
