//! New objects: mkdir(2), symlink(2), open(2) with O_CREAT. A whiteout in their place goes: the kernel's overlayfs document,
//! "whiteouts and opaque directories".
ghost use Rattle.std.specs.FinMap.Entries.{is_sorted};
ghost use Rattle.std.specs.Prelude.{◌≡◌, ◌+◌, ◌++◌, ◌<◌, ◌≤◌, ◌∷◌, ◌-◌, [], IfOk, IfSome, List, OnErr, Some, false, length, nat_eq, option_map, true, ℕ};
ghost use Rattle.vt_spec.specs.Inodes.{changed};
ghost use Rattle.vt_spec.specs.Language.Changes.Change.{AddName, Make};
ghost use Rattle.vt_spec.specs.Lists.{folded};
ghost use Rattle.vt_spec.specs.Tree.{entries_in, name_cmp};
ghost use Rattle.vt_spec.specs.TreeInvariant.{IsDirectory, entry_at};
ghost use Rattle.vt_copyup.specs.Plans.{CopiesAreThere, EntriesAreThere};
ghost use Rattle.vt_fs.specs.FilesystemsValue.{ChangesInodes, files_at, giving_back, inodes_at, inodes_promised, promising, with_changed};
ghost use Rattle.vt_laws_upper_layers.specs.Rows.{marking, removal};
ghost use Rattle.vt_laws_worlds.specs.Merging.UpperChanges.{copy_node};
ghost use Rattle.vt_location.specs.Locations.{inode_of, number_of};
ghost use Rattle.vt_overlay.specs.declared.merge.layers.LayerRef.{LayerRef as Layer};
ghost use Rattle.vt_upper.specs.Below.{is_directory_below};
ghost use Rattle.vt_upper_overlay.specs.MergedAbove.{directory_path, upper_count};
ghost use Rattle.vt_upper_overlay.specs.Standing.{StandsAbove};
ghost use Rattle.vt_upper.specs.Leaving.{gone_from, made_over, within_of};
ghost use Rattle.vt_upper.specs.Linking.{IsLinkable, IsWhiteAt, linked_over};
ghost use Rattle.vt_upper.specs.New.{HasName, IsCopiedFrom, IsEmptyNode, IsKnown, IsNameGone, IsNameReady, IsNewMade, IsPlaceOf, IsPlaceReady, MayMakeIn, MayPutIn, had_in, keeping, made_in_place, made_new, many_in, object_in, start_of};

use crate::copying::{CopiedObject, plan_copies};
use crate::leaving::{Leaving, entry_of};
use crate::lowers::directory_below;
use std::alloc::{AllocError, Global};
use vt_births::Births;
use vt_copyup::{CopiedNode, FreeName, Plan, give_back, promise};
use vt_fs::{Filesystems, LinkRoom};
use vt_location::{FilesystemId, InodeRef, NodeRef};
use vt_node::EntryRoom;
use vt_upper_overlay::UpperOverlay;

/// An inode, and the name that it gets.
#[derive(Debug, Drop)]
pub struct NamedNode {
    pub name: Vec<u8>,
    pub node: CopiedNode,
}

// An object in the upper layer that gets a further name, and the directories that have its names, with a place for one more.
#[derive(Debug, Drop)]
pub(crate) struct LinkedObject {
    pub(crate) object: InodeRef,
    pub(crate) links: LinkRoom,
}

// A directory that is there, and what has a name in it, if anything has.
#[derive(Debug, Drop)]
pub(crate) struct Spot {
    pub(crate) directory: InodeRef,
    pub(crate) leaving: Option<Leaving>,
    // It is kept when it loses the name, since it is in use.
    pub(crate) keeps: bool,
}

impl Spot {
    // Makes an inode in the place of what has the name. It does not allocate.
    fn make(
        self,
        alloc: Global,
        trees: &mut Filesystems,
        room: &mut EntryRoom,
        object: NamedNode,
    ) -> InodeRef
        requires name { HasName trees.old self object.name.items }
        requires promised { 0 < inodes_promised trees.old self.directory.filesystem.count }
        requires room { length (entries_in ((files_at trees.old self.directory.filesystem.count).tree.node
            (inode_of self.directory))) < room.old }
        ensures made { ChangesInodes self.directory.filesystem.count
            (made_over self.keeps object.name.items (copy_node (inode_of self.directory) object.node) (had_in self)
            (within_of (files_at trees.old self.directory.filesystem.count).tree (had_in self))
            (inode_of self.directory) (inode_of result)) trees.old trees.new }
        ensures vacant { (files_at trees.old self.directory.filesystem.count).tree.node (inode_of result) ≡ None }
        ensures filesystem { result.filesystem ≡ self.directory.filesystem }
    {
        let Spot {
            directory,
            leaving,
            keeps,
        } = self;
        let NamedNode { name, node } = object;
        let Some(leaving) = leaving else {
            return node.make(alloc, trees, FreeName { directory, name }, room);
        };
        leaving.free(trees, directory, &name);
        let made = node.make(alloc, trees, FreeName { directory, name }, room);
        leaving.let_go(trees, keeps);
        made
    }

    // Gives an object a further name, in the place of what has this name. It does not allocate.
    pub(crate) fn link(
        self,
        trees: &mut Filesystems,
        room: &mut EntryRoom,
        name: Vec<u8>,
        linked: LinkedObject,
    )
        requires name { HasName trees.old self name.items }
        requires white { IsWhiteAt trees.old self (inode_of linked.object) }
        requires linkable { IsLinkable linked self.directory trees.old room.old }
        ensures { ChangesInodes self.directory.filesystem.count
            (linked_over self.keeps name.items (had_in self)
            (within_of (files_at trees.old self.directory.filesystem.count).tree (had_in self))
            (inode_of self.directory) (inode_of linked.object)) trees.old trees.new }
    {
        let Spot {
            directory,
            leaving,
            keeps,
        } = self;
        let Some(leaving) = leaving else {
            add_name(trees, room, directory, name, linked);
            return;
        };
        leaving.free(trees, directory, &name);
        add_name(trees, room, directory, name, linked);
        leaving.let_go(trees, keeps);
    }

    // Removes the name. It does not allocate.
    fn leave(self, trees: &mut Filesystems, name: &[u8])
        requires { HasName trees.old self name.now }
        ensures { ChangesInodes self.directory.filesystem.count
            (gone_from self.keeps name.now (had_in self)
            (within_of (files_at trees.old self.directory.filesystem.count).tree (had_in self))
            (inode_of self.directory)) trees.old trees.new }
    {
        let Spot {
            directory,
            leaving,
            keeps,
        } = self;
        let Some(leaving) = leaving else {
            return;
        };
        leaving.free(trees, directory, name);
        leaving.let_go(trees, keeps);
    }
}

// The directory of the upper layer in which an inode is made.
#[derive(Debug, Drop)]
pub(crate) enum Place {
    // It is there.
    There { spot: Spot },
    // It is copied first, and has room for the name.
    Copied { copies: Plan, room: EntryRoom },
}

impl Place {
    // How many copies are made first.
    pub(crate) fn copies(&self) -> usize
        ensures { result ≡ many_in self.now }
    {
        match self {
            Place::There { .. } => 0,
            Place::Copied { copies, .. } => copies.len(),
        }
    }

    // The filesystem of the upper layer.
    pub(crate) fn filesystem(&self) -> FilesystemId
        ensures { result ≡ (start_of self.now).filesystem }
    {
        match self {
            Place::There { spot } => spot.directory.filesystem,
            Place::Copied { copies, .. } => copies.filesystem(),
        }
    }

    // The same place, where what has the name is kept, or is not.
    pub(crate) fn keeping(self, keeps: bool) -> Place
        ensures { result ≡ keeping keeps self }
    {
        match self {
            Place::There { spot } => {
                let Spot {
                    directory,
                    leaving,
                    keeps: _was,
                } = spot;
                Place::There {
                    spot: Spot {
                        directory,
                        leaving,
                        keeps,
                    },
                }
            }
            Place::Copied { copies, room } => Place::Copied { copies, room },
        }
    }

    // Makes the directory's copy if need be, and then the inode, in the place of what has its name. It does not allocate.
    pub(crate) fn make(
        self,
        alloc: Global,
        trees: &mut Filesystems,
        births: &mut Births,
        room: &mut EntryRoom,
        object: NamedNode,
    ) -> InodeRef
        requires { IsPlaceReady self object.name.items trees.old births.old room.old }
        ensures { IsNewMade self (made_in_place self object.name.items object.node) trees.old births.old trees.new
            births.new result }
    {
        match self {
            Place::There { spot } => spot.make(alloc, trees, room, object),
            Place::Copied { copies, room: own } => {
                let directory = copies.apply(alloc, trees, births, room);
                make_in_copy(alloc, trees, directory, own, object)
            }
        }
    }

    // Makes the directory's copy if need be, or removes the name there. It does not allocate.
    pub(crate) fn leave(
        self,
        alloc: Global,
        trees: &mut Filesystems,
        births: &mut Births,
        room: &mut EntryRoom,
        name: &[u8],
    )
        requires { IsNameReady self name.now trees.old births.old room.old }
        ensures { IsNameGone self name.now trees.old births.old trees.new births.new }
    {
        match self {
            Place::There { spot } => spot.leave(trees, name),
            Place::Copied { copies, room: _own } => {
                copies.apply(alloc, trees, births, room);
            }
        }
    }
}

// Gives an object a name more in a directory, which has no such name. It does not allocate.
fn add_name(
    trees: &mut Filesystems,
    room: &mut EntryRoom,
    directory: InodeRef,
    name: Vec<u8>,
    linked: LinkedObject,
)
    requires directory { IsDirectory (files_at trees.old directory.filesystem.count).tree (inode_of directory) }
    requires free { entry_at (files_at trees.old directory.filesystem.count).tree (inode_of directory) name.items
        ≡ None }
    requires linkable { IsLinkable linked directory trees.old room.old }
    ensures { ChangesInodes directory.filesystem.count (λ inodes. changed nat_eq inodes
        (AddName (inode_of directory) name.items (inode_of linked.object))) trees.old trees.new }
{
    let LinkedObject { object, links } = linked;
    let above = directory.node_ref();
    let named = object.node_ref();
    trees.link_promised(above, name, named, room, links);
}

// A name in a directory of the overlay.
#[derive(Clone, Copy, Debug)]
pub(crate) struct NameIn<'a> {
    pub(crate) directory: NodeRef,
    pub(crate) name: &'a [u8],
}

// Where an inode gets its name, or loses it: in the directory as it is in the upper layer, or in its copy.
pub(crate) fn place_for(
    alloc: Global,
    trees: &Filesystems,
    overlay: &UpperOverlay,
    room: &mut EntryRoom,
    at: NameIn<'_>,
) -> Result<Place, AllocError>
    requires standing { StandsAbove trees.now overlay.now }
    requires own { at.directory.filesystem ≡ overlay.now.layers.number }
    requires may_put { MayPutIn trees.now overlay.now at.directory at.name.now }
    ensures place { IfOk result (IsPlaceOf trees.now overlay.now at.entry.directory) }
    ensures filesystem { IfOk result (λ place. (start_of place).filesystem.count ≡ upper_count overlay.now) }
    ensures room { room.old ≤ room.new }
    ensures ready { (inodes more : ℕ) → CopiesAreThere trees.now (upper_count overlay.now) overlay.now.nodes.births
        → IfOk result (λ place. many_in place < inodes → many_in place ≤ more → IsPlaceReady place at.entry.name.now
        (with_changed (start_of place).filesystem.count (promising inodes) trees.now)
        (record overlay.now.nodes.births { promised = overlay.now.nodes.births.promised + more }) room.new) }
    ensures name_ready { (inodes more : ℕ) → CopiesAreThere trees.now (upper_count overlay.now) overlay.now.nodes.births
        → IfOk result (λ place. many_in place ≤ inodes → many_in place ≤ more → IsNameReady place at.entry.name.now
        (with_changed (start_of place).filesystem.count (promising inodes) trees.now)
        (record overlay.now.nodes.births { promised = overlay.now.nodes.births.promised + more }) room.new) }
{
    let copied = CopiedObject {
        node: at.directory,
        with_bytes: true,
    };
    let copies = plan_copies(alloc, trees, overlay, room, copied)?;
    if copies.len() == 0 {
        let above = copies.directory();
        trees.make_room(above.node_ref(), 1, room)?;
        let leaving = leaving_from(alloc, trees, above, at.name)?;
        return Ok(Place::There {
            spot: Spot {
                directory: above,
                leaving,
                keeps: false,
            },
        });
    }
    place_in_copy(alloc, copies)
}

// What has a name in a directory of a plain tree, if anything has, with all that is in it.
pub(crate) fn leaving_from(
    alloc: Global,
    trees: &Filesystems,
    directory: InodeRef,
    name: &[u8],
) -> Result<Option<Leaving>, AllocError>
    requires order { (number : ℕ) → is_sorted name_cmp (entries_in
        ((files_at trees.now directory.filesystem.count).tree.node number)) ≡ true }
    ensures leads { IfOk result (λ leaving. option_map object_in leaving
        ≡ entry_at (files_at trees.now directory.filesystem.count).tree (inode_of directory) name.now) }
    ensures known { IfOk result (λ leaving. IfSome leaving (IsKnown trees.now directory)) }
{
    let Some(object) = entry_of(trees, directory, name) else {
        return Ok(None);
    };
    let leaving = Leaving::of(alloc, trees, object)?;
    Ok(Some(leaving))
}

// The last copy, with room for one name.
fn place_in_copy(alloc: Global, copies: Plan) -> Result<Place, AllocError>
    ensures { IfOk result (IsCopiedFrom copies) }
{
    let mut room = EntryRoom::new(alloc);
    room.reserve(1)?;
    Ok(Place::Copied { copies, room })
}

// Whether lower layers show a directory under a name of a directory, which a new one must hide.
fn hides_directory(
    trees: &Filesystems,
    overlay: &UpperOverlay,
    directory: NodeRef,
    name: &[u8],
) -> bool
    requires standing { StandsAbove trees.now overlay.now }
    requires own { directory.filesystem ≡ overlay.now.layers.number }
    ensures { (path : List (List ℕ)) (upper : Layer) (lowers : List Layer)
        → directory_path trees.now overlay.now (number_of directory) ≡ Some path
        → overlay.now.layers.lowers ≡ upper ∷ lowers
        → result ≡ is_directory_below trees.now upper lowers (path ++ name.now ∷ []) }
{
    let Some(way) = overlay.way(trees, directory) else {
        return false;
    };
    directory_below(trees, overlay.layers(), &way.under(name))
}

// Makes an inode in a copy of a directory, which has room for its name. It does not allocate.
fn make_in_copy(
    alloc: Global,
    trees: &mut Filesystems,
    directory: InodeRef,
    room: EntryRoom,
    object: NamedNode,
) -> InodeRef
    requires directory { IsEmptyNode ((files_at trees.old directory.filesystem.count).tree.node (inode_of directory)) }
    requires entries { EntriesAreThere (files_at trees.old directory.filesystem.count).tree }
    requires promised { 0 < inodes_promised trees.old directory.filesystem.count }
    requires room { 0 < room }
    ensures made { ChangesInodes directory.filesystem.count (λ inodes. changed nat_eq inodes
        (Make (inode_of directory) object.name.items (inode_of result)
        (copy_node (inode_of directory) object.node))) trees.old trees.new }
    ensures filesystem { result.filesystem ≡ directory.filesystem }
    ensures vacant { (files_at trees.old directory.filesystem.count).tree.node (inode_of result) ≡ None }
{
    let NamedNode { name, node } = object;
    let mut room = room;
    node.make(alloc, trees, FreeName { directory, name }, &mut room)
}

// Marks a directory opaque, or not. It does not allocate.
fn mark(trees: &mut Filesystems, object: InodeRef, opaque: bool)
    ensures { ChangesInodes object.filesystem.count
        (λ inodes. folded (changed nat_eq) inodes (marking opaque (inode_of object))) trees.old trees.new }
{
    if !opaque {
        return;
    }
    trees.set_opaque(object.node_ref(), true);
}

/// A new object, and the directory that gets it.
#[derive(Debug, Drop)]
pub struct NewObject {
    pub directory: NodeRef,
    pub object: NamedNode,
}

/// A new object, with the copies that its directory needs. It owns all memory that they take; inodes and births are
/// promised to it. It must be applied or given back.
#[derive(Debug)]
pub struct NewPlan {
    place: Place,
    object: NamedNode,
    // Lower layers show a directory under the name, which a new one must hide.
    opaque: bool,
}

impl NewPlan {
    /// Plans a new object in a directory that is shown, and shows nothing under the name. Nothing changes that anyone sees.
    /// It fails if an allocation does, or if a whiteout of the name has 2^64 - 1 uses.
    pub fn new(
        alloc: Global,
        trees: &mut Filesystems,
        overlay: &mut UpperOverlay,
        room: &mut EntryRoom,
        made: NewObject,
    ) -> Result<NewPlan, AllocError>
        requires standing { StandsAbove trees.old overlay.old }
        requires own { made.directory.filesystem ≡ overlay.old.layers.number }
        requires there { CopiesAreThere trees.old (upper_count overlay.old) overlay.old.nodes.births }
        requires may_make { MayMakeIn trees.old overlay.old made.directory made.object.name.items }
        ensures place { IfOk result (λ plan. IsPlaceOf trees.old overlay.old made.directory plan.place) }
        ensures object { IfOk result (λ plan. plan.object ≡ made.object) }
        ensures opaque { IfOk result (λ plan. (path : List (List ℕ)) (upper : Layer) (lowers : List Layer)
            → directory_path trees.old overlay.old (number_of made.directory) ≡ Some path
            → overlay.old.layers.lowers ≡ upper ∷ lowers
            → plan.opaque ≡ is_directory_below trees.old upper lowers (path ++ made.object.name.items ∷ [])) }
        ensures ready { IfOk result (λ plan. IsPlaceReady plan.place made.object.name.items trees.new
            overlay.new.nodes.births room.new) }
        ensures inodes { IfOk result (λ plan. trees.new
            ≡ with_changed (upper_count overlay.old) (promising (many_in plan.place + 1)) trees.old) }
        ensures births { IfOk result (λ plan. overlay.new.nodes.births
            ≡ record overlay.old.nodes.births {
              promised = overlay.old.nodes.births.promised + many_in plan.place;
            }) }
        ensures others { overlay.new ≡ record overlay.old {
          nodes = record overlay.old.nodes { births = overlay.new.nodes.births };
        } }
        ensures room { room.old ≤ room.new }
        ensures err { OnErr result (trees.new ≡ trees.old) }
        ensures err_overlay { OnErr result (overlay.new ≡ overlay.old) }
    {
        let NewObject { directory, object } = made;
        let opaque = hides_directory(trees, overlay, directory, &object.name);
        let at = NameIn {
            directory,
            name: &object.name,
        };
        let place = place_for(alloc, trees, overlay, room, at)?;
        let copies = place.copies();
        let Some(inodes) = copies.checked_add(1) else {
            return Err(AllocError);
        };
        promise(
            trees,
            &mut overlay.nodes.births,
            place.filesystem(),
            inodes,
            copies,
        )?;
        Ok(NewPlan {
            place,
            object,
            opaque,
        })
    }

    /// Makes the copies, with their births, and then the object in the place of a whiteout, with its mark. It returns the
    /// object's inode in the upper layer. It does not allocate.
    pub fn apply(
        self,
        alloc: Global,
        trees: &mut Filesystems,
        overlay: &mut UpperOverlay,
        room: &mut EntryRoom,
    ) -> InodeRef
        requires { IsPlaceReady self.place self.object.name.items trees.old overlay.old.nodes.births room.old }
        ensures made { IsNewMade self.place (made_new self.place self.object.name.items self.object.node self.opaque)
            trees.old overlay.old.nodes.births trees.new overlay.new.nodes.births result }
        ensures others { overlay.new ≡ record overlay.old {
          nodes = record overlay.old.nodes { births = overlay.new.nodes.births };
        } }
    {
        let NewPlan {
            place,
            object,
            opaque,
        } = self;
        let made = place.make(alloc, trees, &mut overlay.nodes.births, room, object);
        mark(trees, made, opaque);
        made
    }

    /// Gives back what was promised: nothing changes. It does not allocate.
    pub fn give_back(self, trees: &mut Filesystems, overlay: &mut UpperOverlay)
        ensures trees { trees.new ≡ with_changed (start_of self.place).filesystem.count
            (giving_back (many_in self.place + 1)) trees.old }
        ensures overlay { overlay.new ≡ record overlay.old {
          nodes = record overlay.old.nodes {
            births = record overlay.old.nodes.births {
              promised = overlay.old.nodes.births.promised - many_in self.place;
            };
          };
        } }
    {
        let NewPlan {
            place,
            object: _object,
            opaque: _opaque,
        } = self;
        let copies = place.copies();
        let upper = place.filesystem();
        give_back(trees, &mut overlay.nodes.births, upper, copies, copies);
        give_back(trees, &mut overlay.nodes.births, upper, 1, 0);
    }
}
