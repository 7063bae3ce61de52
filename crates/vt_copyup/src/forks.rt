//! Copies for two objects of one call, as of link(2) and rename(2). Their paths may lack the same parents: these are copied
//! once, and the copies of the second object begin in the last of them. The kernel's overlayfs document, "upper and lower"
//! (copy_up).
ghost use Rattle.std.specs.Prelude.{◌≡◌, ◌+◌, ◌-◌, ◌<◌, ◌≤◌, IfOk, IfSome, Some, if◌then◌else◌, length, nat_eq, slice_get, true};
ghost use Rattle.vt_spec.specs.Tree.{entries_in};
ghost use Rattle.vt_location.specs.Locations.{inode_of};
ghost use Rattle.vt_fs.specs.FilesystemsValue.{files_at, giving_back, with_changed};
ghost use Rattle.vt_copyup.specs.Made.{AreMade, parent_made};
ghost use Rattle.vt_copyup.specs.Planned.{names_of};
ghost use Rattle.vt_copyup.specs.Plans.{CopiesAreThere, EntriesAreThere, IsReady, copies_of, in_turn, many};
ghost use Rattle.vt_copyup.specs.Forks.{AreForked, AreShared, IsForkOf, IsForkReady, all_in, branch_at, pieces_in};

use crate::planning::give_back;
use crate::plans::{Grown, Piece, Plan};
use std::alloc::{AllocError, Global};
use vt_births::Births;
use vt_fs::Filesystems;
use vt_location::{FilesystemId, InodeRef};
use vt_node::EntryRoom;

// Copies that are made one in the other, the last one first, and room for the name of that which is made first.
#[derive(Debug, Drop)]
pub(crate) struct Branch {
    pieces: Vec<Piece>,
    room: EntryRoom,
}

impl Branch {
    // Copies that begin in a directory, with room for two names more there: another branch may begin in it, too. It is there
    // already, or a copy. Where there are no copies no room is made.
    fn new(
        alloc: Global,
        trees: &Filesystems,
        directory: InodeRef,
        pieces: Vec<Piece>,
        is_there: bool,
    ) -> Result<Branch, AllocError>
        ensures pieces { IfOk result (λ branch. branch.pieces ≡ pieces) }
        ensures room { 0 < length pieces.items → IfOk result (λ branch. 1 < branch.room) }
        ensures there { 0 < length pieces.items → is_there ≡ true → IfOk result (λ branch. length (entries_in
            ((files_at trees.now directory.filesystem.count).tree.node (inode_of directory))) + 1 < branch.room) }
    {
        let mut room = EntryRoom::new(alloc);
        if pieces.is_empty() {
            return Ok(Branch { pieces, room });
        }
        room.reserve(2)?;
        if is_there {
            trees.make_room(directory.node_ref(), 2, &mut room)?;
        }
        Ok(Branch { pieces, room })
    }

    // Makes the copies, the first in a directory. It does not allocate.
    fn grow(
        self,
        alloc: Global,
        trees: &mut Filesystems,
        births: &mut Births,
        directory: InodeRef,
    ) -> Grown
        requires { IsReady (branch_at directory self) trees.old births.old self.room }
        ensures made { (are : AreMade directory (copies_of (pieces_in self)) trees.old births.old trees.new births.new
            result.object) × (result.parent ≡ parent_made directory are.made) }
        ensures filesystem { result.object.filesystem ≡ directory.filesystem }
        ensures entries { EntriesAreThere (files_at trees.new result.object.filesystem.count).tree }
        ensures there { CopiesAreThere trees.new result.object.filesystem.count births.new }
    {
        let Branch { pieces, mut room } = self;
        let plan = Plan { directory, pieces };
        plan.grow(alloc, trees, births, &mut room)
    }

    // Gives back what was promised for the copies. It does not allocate.
    fn give_back(self, trees: &mut Filesystems, births: &mut Births, upper: FilesystemId)
        ensures trees { trees.new
            ≡ with_changed upper.count (giving_back (length self.pieces.items)) trees.old }
        ensures births { births.new
            ≡ record births.old { promised = births.old.promised - length self.pieces.items } }
    {
        let many = self.pieces.len();
        give_back(trees, births, upper, many, many);
    }
}

/// Copies for two objects: those of the parents that both paths lack, then those of the first object, then those of the
/// second. They own all memory that the copies take but for inodes and births, which have to be promised before they are
/// applied (`promise`).
#[derive(Debug, Drop)]
pub struct Fork {
    // The upper layer's directory for the first copy; where nothing is copied for the first object, this object.
    directory: InodeRef,
    // That for the copies of the second object, if both share none; where nothing is copied for it, the object itself.
    other: InodeRef,
    shared: Branch,
    first: Branch,
    second: Branch,
}

/// Where the copies for two objects have ended: the objects, and the inode in which the last of the first one's own copies was
/// made; where it has none of its own, the first object itself.
#[derive(Clone, Copy, Debug)]
pub struct Forked {
    pub parent: InodeRef,
    pub object: InodeRef,
    pub second: InodeRef,
}

impl Fork {
    /// The copies of two plans in one upper layer. Those that both have are made once. Nothing changes.
    pub fn of(
        alloc: Global,
        trees: &Filesystems,
        first: Plan,
        second: Plan,
    ) -> Result<Fork, AllocError>
        requires { second.directory.filesystem ≡ first.directory.filesystem }
        ensures { IfOk result (IsForkOf trees.now first second) }
    {
        let many = shared_by(&first, &second);
        let Plan {
            directory,
            pieces: mut later,
        } = first;
        let Plan {
            directory: other,
            pieces: mut own,
        } = second;
        let front = later.split_off(later.len() - many)?;
        own.truncate(own.len() - many);
        let apart = many == 0;
        let shared = Branch::new(alloc, trees, directory, front, true)?;
        let begun = Branch::new(alloc, trees, directory, later, apart)?;
        let next = Branch::new(alloc, trees, other, own, apart)?;
        Ok(Fork {
            directory,
            other,
            shared,
            first: begun,
            second: next,
        })
    }

    /// How many copies there are.
    pub fn len(&self) -> Option<usize>
        ensures { IfSome result (λ copies. copies ≡ all_in self.now) }
    {
        let first = self
            .shared
            .pieces
            .len()
            .checked_add(self.first.pieces.len())?;
        first.checked_add(self.second.pieces.len())
    }

    /// The filesystem of the upper layer.
    pub fn filesystem(&self) -> FilesystemId
        ensures { result ≡ self.now.directory.filesystem }
    {
        self.directory.filesystem
    }

    /// Gives back what was promised for all copies: nothing is made. It does not allocate.
    pub fn give_back(self, trees: &mut Filesystems, births: &mut Births)
        ensures trees { trees.new
            ≡ with_changed self.directory.filesystem.count (giving_back (all_in self)) trees.old }
        ensures births { births.new ≡ record births.old { promised = births.old.promised - all_in self } }
    {
        let Fork {
            directory,
            other: _other,
            shared,
            first,
            second,
        } = self;
        let upper = directory.filesystem;
        shared.give_back(trees, births, upper);
        first.give_back(trees, births, upper);
        second.give_back(trees, births, upper);
    }

    /// Makes the copies, with their births. It does not allocate.
    pub fn apply(self, alloc: Global, trees: &mut Filesystems, births: &mut Births) -> Forked
        requires { IsForkReady self trees.old births.old }
        ensures { AreForked self trees.old births.old trees.new births.new result }
    {
        let Fork {
            directory,
            other,
            shared,
            first,
            second,
        } = self;
        let many = shared.pieces.len();
        let common = shared.grow(alloc, trees, births, directory);
        let here = common.object;
        let start = begin(many, here, other);
        let grown = first.grow(alloc, trees, births, here);
        let last = second.grow(alloc, trees, births, start);
        Forked {
            parent: grown.parent,
            object: grown.object,
            second: last.object,
        }
    }
}

// Where the copies of the second object begin: in the last shared one, if any is shared.
fn begin(shared: usize, here: InodeRef, other: InodeRef) -> InodeRef
    ensures { result ≡ (if nat_eq shared 0 then other else here) }
{
    if shared == 0 { other } else { here }
}

// The name of a copy. They are counted from the first that is made.
fn name_of(plan: &Plan, index: usize) -> &[u8]
    requires { index < many plan.now }
    ensures { slice_get (names_of (in_turn plan.now)) index ≡ Some result.now }
{
    &plan.pieces[plan.pieces.len() - 1 - index].copy.name
}

// How many first copies two plans share: they begin in one directory, and the names of these copies are the same.
fn shared_by(first: &Plan, second: &Plan) -> usize
    ensures few { result ≤ many first.now }
    ensures second_few { result ≤ many second.now }
    ensures shared { AreShared first.now second.now result }
{
    if first.directory.slot != second.directory.slot {
        return 0;
    }
    let most = first.pieces.len().min(second.pieces.len());
    for index in 0..most {
        if name_of(first, index) != name_of(second, index) {
            return index;
        }
    }
    most
}
