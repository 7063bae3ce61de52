//! Names that are freed: what has one loses it, and first all that is in it, which are whiteouts. Until all is done, what
//! loses a name is held, so that what is made in its place is another inode.
ghost use Rattle.std.specs.Prelude.{◌≡◌, ◌<◌, ◌++◌, ◌∷◌, [], All, IfOk, IfSome, IsSome, OnOk, Some, false, map, nat_eq, option_map, true};
ghost use Rattle.std.specs.FinMap.Entries.{is_sorted};
ghost use Rattle.vt_spec.specs.Inodes.{uses_in};
ghost use Rattle.vt_spec.specs.Lists.{folded};
ghost use Rattle.vt_spec.specs.Tree.{entries_in, name_cmp};
ghost use Rattle.vt_spec.specs.TreeInvariant.{IsDirectory, entry_at};
ghost use Rattle.vt_fs.specs.FilesystemsValue.{ChangesInodes, files_at, inodes_at, inodes_promised};
ghost use Rattle.vt_location.specs.Locations.{inode_of};
ghost use Rattle.vt_location.specs.Numbers.{most_counted};
ghost use Rattle.vt_upper.specs.Leaving.{IsLeaving, MayBeEmptied, NamesAreUsed, freed, freed_once, held_for, let_go, let_go_of};

use std::alloc::{AllocError, Global};
use vt_fs::Filesystems;
use vt_location::InodeRef;
use vt_overlay::{MergedDirectory, entry_in};

/// What has a name that is removed, or given to something else, with the names in it and what has these.
#[derive(Debug, Drop)]
pub(crate) struct Leaving {
    object: InodeRef,
    names: Vec<Vec<u8>>,
    inodes: Vec<InodeRef>,
}

impl Leaving {
    // What is in an inode of a plain tree, in memory of the plan's own. It fails too where one of them, or the inode, has
    // 2^64 - 1 uses.
    pub(crate) fn of(
        alloc: Global,
        trees: &Filesystems,
        object: InodeRef,
    ) -> Result<Leaving, AllocError>
        requires order { is_sorted name_cmp (entries_in
            ((files_at trees.now object.filesystem.count).tree.node (inode_of object))) ≡ true }
        ensures object { IfOk result (λ leaving. leaving.object ≡ object) }
        ensures known { IfOk result (IsLeaving trees.now) }
        ensures few { IfOk result (λ leaving.
            All (λ number. uses_in ((inodes_at trees.now object.filesystem.count).inode number) < most_counted)
            (held_for (Some (inode_of object)) (entries_in
            ((files_at trees.now object.filesystem.count).tree.node (inode_of object))))) }
    {
        let names = trees.list(object.node_ref())?;
        let mut inodes = Vec::new(alloc);
        for index in 0..names.len() {
            let inode = held_at(trees, object, &names[index])?;
            inodes.push(inode)?;
        }
        may_be_held(trees, object)?;
        Ok(Leaving {
            object,
            names,
            inodes,
        })
    }

    // Takes the names away. What loses one is held. It does not allocate.
    pub(crate) fn free(&self, trees: &mut Filesystems, directory: InodeRef, name: &[u8])
        requires filesystem { self.now.object.filesystem ≡ directory.filesystem }
        requires directory { IsDirectory (files_at trees.old directory.filesystem.count).tree (inode_of directory) }
        requires named { entry_at (files_at trees.old directory.filesystem.count).tree (inode_of directory) name.now
            ≡ Some (inode_of self.now.object) }
        requires known { IsLeaving trees.old self.now }
        requires used { NamesAreUsed (inodes_at trees.old directory.filesystem.count) }
        requires other { nat_eq (inode_of self.now.object) (inode_of directory) ≡ false }
        requires emptied { MayBeEmptied (inodes_at trees.old directory.filesystem.count) (inode_of self.now.object) }
        ensures freed { ChangesInodes directory.filesystem.count
            (freed (inode_of directory) name.now (Some (inode_of self.now.object)) (entries_in
            ((files_at trees.old directory.filesystem.count).tree.node (inode_of self.now.object))))
            trees.old trees.new }
        ensures promised { inodes_promised trees.new directory.filesystem.count
            ≡ inodes_promised trees.old directory.filesystem.count }
    {
        self.empty(trees);
        free_one(trees, directory, name, self.object);
    }

    // Takes the names in it away.
    fn empty(&self, trees: &mut Filesystems)
        requires known { IsLeaving trees.old self.now }
        requires used { NamesAreUsed (inodes_at trees.old self.now.object.filesystem.count) }
        requires emptied { MayBeEmptied (inodes_at trees.old self.now.object.filesystem.count)
            (inode_of self.now.object) }
        ensures emptied { ChangesInodes self.now.object.filesystem.count
            (λ inodes. folded (freed_once (inode_of self.now.object)) inodes (entries_in
            ((files_at trees.old self.now.object.filesystem.count).tree.node (inode_of self.now.object))))
            trees.old trees.new }
        ensures promised { inodes_promised trees.new self.now.object.filesystem.count
            ≡ inodes_promised trees.old self.now.object.filesystem.count }
    {
        for index in 0..self.names.len() {
            free_one(trees, self.object, &self.names[index], self.inodes[index]);
        }
    }

    // Lets go of what has lost its names, but of the inode itself if it is kept: what nothing else uses is freed. It does not
    // allocate.
    pub(crate) fn let_go(&self, trees: &mut Filesystems, keeps: bool)
        requires own { All (λ inode. inode.filesystem ≡ self.now.object.filesystem) self.now.inodes.items }
        ensures { ChangesInodes self.now.object.filesystem.count
            (let_go (let_go_of keeps (map inode_of self.now.inodes.items) (inode_of self.now.object)))
            trees.old trees.new }
    {
        for index in 0..self.inodes.len() {
            trees.unpin(self.inodes[index].node_ref());
        }
        if keeps {
            return;
        }
        trees.unpin(self.object.node_ref());
    }
}

// What has a name of a directory, if it may be held.
fn held_at(trees: &Filesystems, directory: InodeRef, name: &[u8]) -> Result<InodeRef, AllocError>
    requires named { IsSome (entry_at (files_at trees.now directory.filesystem.count).tree (inode_of directory) name.now) }
    ensures leads { IfOk result (λ inode. entry_at (files_at trees.now directory.filesystem.count).tree
        (inode_of directory) name.now ≡ Some (inode_of inode)) }
    ensures filesystem { IfOk result (λ inode. inode.filesystem ≡ directory.filesystem) }
    ensures few { IfOk result (λ inode.
        uses_in ((inodes_at trees.now inode.filesystem.count).inode (inode_of inode)) < most_counted) }
{
    let Some(inode) = entry_of(trees, directory, name) else {
        unreachable!();
    };
    may_be_held(trees, inode)?;
    Ok(inode)
}

// Whether an inode may be held: it has fewer than 2^64 - 1 uses.
fn may_be_held(trees: &Filesystems, inode: InodeRef) -> Result<(), AllocError>
    ensures { OnOk result (uses_in ((inodes_at trees.now inode.filesystem.count).inode (inode_of inode)) < most_counted) }
{
    if trees.uses(inode.node_ref()) == u64::MAX {
        return Err(AllocError);
    }
    Ok(())
}

// What has a name in a directory of a plain tree.
pub(crate) fn entry_of(trees: &Filesystems, directory: InodeRef, name: &[u8]) -> Option<InodeRef>
    ensures leads { option_map inode_of result
        ≡ entry_at (files_at trees.now directory.filesystem.count).tree (inode_of directory) name.now }
    ensures filesystem { IfSome result (λ inode. inode.filesystem ≡ directory.filesystem) }
{
    let above = MergedDirectory {
        layer: 0,
        directory,
    };
    let found = entry_in(trees, above, name)?;
    Some(found.object)
}

// Takes a name away. What had it is held: it has as many uses as before.
fn free_one(trees: &mut Filesystems, directory: InodeRef, name: &[u8], object: InodeRef)
    requires filesystem { object.filesystem ≡ directory.filesystem }
    requires named { entry_at (files_at trees.old directory.filesystem.count).tree (inode_of directory) name.now
        ≡ Some (inode_of object) }
    requires empty { entries_in ((files_at trees.old directory.filesystem.count).tree.node (inode_of object)) ≡ [] }
    requires used { 0 < uses_in ((inodes_at trees.old directory.filesystem.count).inode (inode_of object)) }
    requires few { uses_in ((inodes_at trees.old directory.filesystem.count).inode (inode_of object)) < most_counted }
    ensures freed { ChangesInodes directory.filesystem.count
        (λ inodes. freed_once (inode_of directory) inodes (name.now, inode_of object)) trees.old trees.new }
    ensures promised { inodes_promised trees.new directory.filesystem.count
        ≡ inodes_promised trees.old directory.filesystem.count }
{
    let held = object.node_ref();
    trees.pin_promised(held);
    trees.unlink_promised(directory.node_ref(), name, held);
}
