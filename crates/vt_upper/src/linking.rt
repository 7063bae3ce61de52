//! Further names of objects: link(2). The object is copied first, then the directory of the new name; a whiteout that has
//! this name goes. The kernel's overlayfs document, "upper and lower" (copy_up), "whiteouts and opaque directories".
ghost use Rattle.std.specs.FinMap.Entries.{is_sorted};
ghost use Rattle.std.specs.Prelude.{◌≡◌, ◌+◌, ◌-◌, ◌<◌, ◌≤◌, IfOk, IfSome, None, OnErr, OnOk, is_some, length, option_map, true, ℕ};
ghost use Rattle.smallvec.specs.SmallVec.{HasRoomFor};
ghost use Rattle.vt_spec.specs.Tree.{entries_in, name_cmp};
ghost use Rattle.vt_spec.specs.TreeInvariant.{entry_at};
ghost use Rattle.vt_copyup.specs.Forks.{all_in};
ghost use Rattle.vt_copyup.specs.Plans.{CopiesAreThere, many};
ghost use Rattle.vt_fs.specs.FilesystemsValue.{files_at, giving_back, promising, with_changed};
ghost use Rattle.vt_location.specs.Locations.{inode_of};
ghost use Rattle.vt_upper.specs.Linking.{AreLinks, IsLinkOf, IsLinkReady, IsLinked, MayLinkIn, links_at};
ghost use Rattle.vt_upper.specs.New.{IsKnown, object_in};
ghost use Rattle.vt_upper_overlay.specs.MergedAbove.{upper_count};
ghost use Rattle.vt_upper_overlay.specs.Standing.{StandsAbove};

use crate::copying::{CopiedObject, plan_copies};
use crate::leaving::Leaving;
use crate::making::{LinkedObject, Spot, leaving_from};
use std::alloc::{AllocError, Global};
use vt_copyup::{Fork, Plan, promise};
use vt_fs::{Filesystems, LinkRoom};
use vt_location::{InodeRef, NodeRef};
use vt_node::EntryRoom;
use vt_upper_overlay::UpperOverlay;

/// A further name of an object, in a directory.
#[derive(Debug, Drop)]
pub struct FurtherName {
    pub object: NodeRef,
    pub directory: NodeRef,
    pub name: Vec<u8>,
}

// The directories that have names of the object that gets a further one.
#[derive(Debug, Drop)]
pub(crate) enum Links {
    // It is in the upper layer.
    There { room: LinkRoom },
    // It is copied first, and has the name of its copy alone.
    Copied { room: LinkRoom },
}

impl Links {
    // Those of the object of a plan, with a place for one more. It fails too where the object has 2^64 - 1 uses.
    fn of(alloc: Global, trees: &Filesystems, object: &Plan) -> Result<Links, AllocError>
        requires { many object.now ≡ 0 → is_some ((files_at trees.now object.now.directory.filesystem.count).tree.node
            (inode_of object.now.directory)) ≡ true }
        ensures { IfOk result (AreLinks trees.now object.now) }
    {
        if object.len() > 0 {
            return Ok(Links::Copied {
                room: LinkRoom::new(alloc),
            });
        }
        let there = object.directory().node_ref();
        if trees.uses(there) == u64::MAX {
            return Err(AllocError);
        }
        let room = trees.link_room(there)?;
        Ok(Links::There { room })
    }

    // Those of the object once it is in the upper layer, where it was copied into a directory. It does not allocate.
    fn listed(self, parent: InodeRef) -> LinkRoom
        requires { HasRoomFor (links_at self parent) 1 }
        ensures { result ≡ links_at self parent }
    {
        match self {
            Links::There { room } => room,
            Links::Copied { room } => {
                let mut room = room;
                room.list(parent.node());
                room
            }
        }
    }
}

/// A further name of an object, with the copies that the object and its new directory need. It owns all memory that they
/// take; inodes and births are promised to it. It must be applied or given back.
#[derive(Debug)]
pub struct LinkPlan {
    copies: Fork,
    // What has the name in the upper layer: a whiteout.
    leaving: Option<Leaving>,
    name: Vec<u8>,
    links: Links,
}

impl LinkPlan {
    /// Plans a further name of an object that is shown and is no directory, in a directory that is shown, and shows nothing
    /// under the name. Nothing changes that anyone sees. It fails if an allocation does, or if the object or a whiteout of
    /// the name has 2^64 - 1 uses.
    pub fn new(
        alloc: Global,
        trees: &mut Filesystems,
        overlay: &mut UpperOverlay,
        room: &mut EntryRoom,
        link: FurtherName,
    ) -> Result<LinkPlan, AllocError>
        requires standing { StandsAbove trees.old overlay.old }
        requires own { link.directory.filesystem ≡ overlay.old.layers.number }
        requires object_own { link.object.filesystem ≡ overlay.old.layers.number }
        requires there { CopiesAreThere trees.old (upper_count overlay.old) overlay.old.nodes.births }
        requires may_link { MayLinkIn trees.old overlay.old link.object link.directory link.name.items }
        ensures link { IfOk result (IsLinkOf trees.old overlay.old link.object link.directory) }
        ensures name { IfOk result (λ plan. plan.name ≡ link.name) }
        ensures ready { IfOk result (λ plan. IsLinkReady plan trees.new overlay.new.nodes.births room.new) }
        ensures inodes { IfOk result (λ plan. trees.new
            ≡ with_changed (upper_count overlay.old) (promising (all_in plan.copies)) trees.old) }
        ensures births { IfOk result (λ plan. overlay.new.nodes.births
            ≡ record overlay.old.nodes.births {
              promised = overlay.old.nodes.births.promised + all_in plan.copies;
            }) }
        ensures others { overlay.new ≡ record overlay.old {
          nodes = record overlay.old.nodes { births = overlay.new.nodes.births };
        } }
        ensures room { room.old ≤ room.new }
        ensures err { OnErr result (trees.new ≡ trees.old) }
        ensures err_overlay { OnErr result (overlay.new ≡ overlay.old) }
    {
        let FurtherName {
            object,
            directory,
            name,
        } = link;
        let copied = CopiedObject {
            node: object,
            with_bytes: true,
        };
        let holding = CopiedObject {
            node: directory,
            with_bytes: true,
        };
        let first = plan_copies(alloc, trees, overlay, room, copied)?;
        let second = plan_copies(alloc, trees, overlay, room, holding)?;
        let links = Links::of(alloc, trees, &first)?;
        let leaving = leaving_at(alloc, trees, room, &second, &name)?;
        let copies = Fork::of(alloc, trees, first, second)?;
        let Some(many) = copies.len() else {
            return Err(AllocError);
        };
        promise(
            trees,
            &mut overlay.nodes.births,
            copies.filesystem(),
            many,
            many,
        )?;
        Ok(LinkPlan {
            copies,
            leaving,
            name,
            links,
        })
    }

    /// Makes the copies, with their births, and then the further name in the place of a whiteout. It returns the object's
    /// inode in the upper layer. It does not allocate.
    pub fn apply(
        self,
        alloc: Global,
        trees: &mut Filesystems,
        overlay: &mut UpperOverlay,
        room: &mut EntryRoom,
    ) -> InodeRef
        requires { IsLinkReady self trees.old overlay.old.nodes.births room.old }
        ensures linked { IsLinked self trees.old overlay.old.nodes.births trees.new overlay.new.nodes.births result }
        ensures others { overlay.new ≡ record overlay.old {
          nodes = record overlay.old.nodes { births = overlay.new.nodes.births };
        } }
    {
        let LinkPlan {
            copies,
            leaving,
            name,
            links,
        } = self;
        let ends = copies.apply(alloc, trees, &mut overlay.nodes.births);
        let links = links.listed(ends.parent);
        let spot = Spot {
            directory: ends.second,
            leaving,
            keeps: false,
        };
        let linked = LinkedObject {
            object: ends.object,
            links,
        };
        spot.link(trees, room, name, linked);
        ends.object
    }

    /// Gives back what was promised: nothing changes. It does not allocate.
    pub fn give_back(self, trees: &mut Filesystems, overlay: &mut UpperOverlay)
        ensures trees { trees.new ≡ with_changed self.copies.directory.filesystem.count
            (giving_back (all_in self.copies)) trees.old }
        ensures overlay { overlay.new ≡ record overlay.old {
          nodes = record overlay.old.nodes {
            births = record overlay.old.nodes.births {
              promised = overlay.old.nodes.births.promised - all_in self.copies;
            };
          };
        } }
    {
        let LinkPlan {
            copies,
            leaving: _leaving,
            name: _name,
            links: _links,
        } = self;
        copies.give_back(trees, &mut overlay.nodes.births);
    }
}

// What has the name of a further one in the upper layer, if its directory is there, and room for the name. In a copy there
// is room for it beside another copy.
fn leaving_at(
    alloc: Global,
    trees: &Filesystems,
    room: &mut EntryRoom,
    directory: &Plan,
    name: &[u8],
) -> Result<Option<Leaving>, AllocError>
    requires order { (number : ℕ) → is_sorted name_cmp (entries_in
        ((files_at trees.now directory.now.directory.filesystem.count).tree.node number)) ≡ true }
    ensures leads { many directory.now ≡ 0 → IfOk result (λ leaving. option_map object_in leaving
        ≡ entry_at (files_at trees.now directory.now.directory.filesystem.count).tree
        (inode_of directory.now.directory) name.now) }
    ensures known { IfOk result (λ leaving. IfSome leaving (IsKnown trees.now directory.now.directory)) }
    ensures nothing { 0 < many directory.now → IfOk result (λ leaving. leaving ≡ None) }
    ensures room { room.old ≤ room.new }
    ensures ok { OnOk result (2 ≤ room.new) }
    ensures there { many directory.now ≡ 0 → OnOk result (length (entries_in
        ((files_at trees.now directory.now.directory.filesystem.count).tree.node
        (inode_of directory.now.directory))) + 2 ≤ room.new) }
{
    room.reserve(2)?;
    if directory.len() > 0 {
        return Ok(None);
    }
    let above = directory.directory();
    trees.make_room(above.node_ref(), 2, room)?;
    leaving_from(alloc, trees, above, name)
}
