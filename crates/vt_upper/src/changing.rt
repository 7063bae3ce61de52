//! Changes of an object itself: open(2) for writing, chmod(2), chown(2), write(2).
ghost use Rattle.std.specs.Prelude.{◌≡◌, ◌+◌, ◌-◌, ◌≤◌, IfOk, IsSome, OnErr, nat_eq};
ghost use Rattle.vt_spec.specs.Inodes.{changed};
ghost use Rattle.vt_spec.specs.Lists.{folded};
ghost use Rattle.vt_copyup.specs.Plans.{CopiesAreThere, IsReady, many};
ghost use Rattle.vt_fs.specs.FilesystemsValue.{ChangesInodes, files_at, giving_back, promising, with_changed};
ghost use Rattle.vt_location.specs.Locations.{inode_of, number_of};
ghost use Rattle.vt_upper.specs.Changes.{IsChanged, IsFit, keeps_bytes, row_of};
ghost use Rattle.vt_upper.specs.Copies.{AreCopiesOf, IsLastFit};
ghost use Rattle.vt_upper_overlay.specs.MergedAbove.{object_lent, object_shown, upper_count};
ghost use Rattle.vt_upper_overlay.specs.Standing.{StandsAbove};

use crate::copying::{CopiedObject, plan_copies};
use std::alloc::{AllocError, Global};
use vt_copyup::{Plan, give_back, promise};
use vt_fs::Filesystems;
use vt_location::{InodeRef, NodeRef};
use vt_node::{Attr, EntryRoom};
use vt_upper_overlay::UpperOverlay;

/// What a call makes of an object, once that is in the upper layer.
#[derive(Debug, Drop)]
pub enum ObjectChange {
    /// Nothing: open(2) for writing.
    Copied,
    /// Its owner, group and mode: chmod(2), chown(2).
    Attr(Attr),
    /// The whole content of a file: write(2) after open(2) with O_TRUNC.
    Bytes(Vec<u8>),
}

impl ObjectChange {
    // Whether a copy needs the bytes of the file.
    pub(crate) fn keeps_bytes(&self) -> bool
        ensures { result ≡ keeps_bytes self.now }
    {
        !matches!(self, ObjectChange::Bytes(_))
    }

    // Makes the change. It does not allocate.
    pub(crate) fn make(self, trees: &mut Filesystems, object: InodeRef)
        requires { IsFit self ((files_at trees.old object.filesystem.count).tree.node (inode_of object)) }
        ensures { ChangesInodes object.filesystem.count
            (λ inodes. folded (changed nat_eq) inodes (row_of self (inode_of object))) trees.old trees.new }
    {
        match self {
            ObjectChange::Copied => {}
            ObjectChange::Attr(attr) => trees.set_attr(object.node_ref(), attr),
            ObjectChange::Bytes(bytes) => trees.write(object.node_ref(), bytes),
        }
    }
}

/// An object that is changed, and how.
#[derive(Debug, Drop)]
pub struct ChangedObject {
    pub object: NodeRef,
    pub change: ObjectChange,
}

/// The change of an object, with the copies that it needs. It owns all memory that they take; inodes and births are
/// promised to it. It must be applied or given back.
#[derive(Debug)]
pub struct ChangePlan {
    copies: Plan,
    change: ObjectChange,
}

impl ChangePlan {
    /// Plans the change of an object that is shown. Nothing changes that anyone sees. It fails only if an allocation does.
    pub fn new(
        alloc: Global,
        trees: &mut Filesystems,
        overlay: &mut UpperOverlay,
        room: &mut EntryRoom,
        changed: ChangedObject,
    ) -> Result<ChangePlan, AllocError>
        requires standing { StandsAbove trees.old overlay.old }
        requires own { changed.object.filesystem ≡ overlay.old.layers.number }
        requires shown { IsSome (object_shown trees.old overlay.old (number_of changed.object)) }
        requires there { CopiesAreThere trees.old (upper_count overlay.old) overlay.old.nodes.births }
        requires fit { IsFit changed.change (object_lent trees.old overlay.old changed.object) }
        ensures copies { IfOk result (λ plan.
            AreCopiesOf (keeps_bytes changed.change) trees.old overlay.old changed.object plan.copies) }
        ensures change { IfOk result (λ plan. plan.change ≡ changed.change) }
        ensures ready { IfOk result (λ plan. IsReady plan.copies trees.new overlay.new.nodes.births room.new) }
        ensures fit { IfOk result (λ plan. IsLastFit (IsFit plan.change) plan.copies trees.new) }
        ensures inodes { IfOk result (λ plan. trees.new
            ≡ with_changed (upper_count overlay.old) (promising (many plan.copies)) trees.old) }
        ensures births { IfOk result (λ plan. overlay.new.nodes.births
            ≡ record overlay.old.nodes.births {
              promised = overlay.old.nodes.births.promised + many plan.copies;
            }) }
        ensures others { overlay.new ≡ record overlay.old {
          nodes = record overlay.old.nodes { births = overlay.new.nodes.births };
        } }
        ensures room { room.old ≤ room.new }
        ensures err { OnErr result (trees.new ≡ trees.old) }
        ensures err_overlay { OnErr result (overlay.new ≡ overlay.old) }
    {
        let ChangedObject { object, change } = changed;
        let copied = CopiedObject {
            node: object,
            with_bytes: change.keeps_bytes(),
        };
        let copies = plan_copies(alloc, trees, overlay, room, copied)?;
        let many = copies.len();
        promise(
            trees,
            &mut overlay.nodes.births,
            copies.filesystem(),
            many,
            many,
        )?;
        Ok(ChangePlan { copies, change })
    }

    /// Makes the copies, with their births, and then the change. It returns the object's inode in the upper layer. It
    /// does not allocate.
    pub fn apply(
        self,
        alloc: Global,
        trees: &mut Filesystems,
        overlay: &mut UpperOverlay,
        room: &mut EntryRoom,
    ) -> InodeRef
        requires ready { IsReady self.copies trees.old overlay.old.nodes.births room.old }
        requires fit { IsLastFit (IsFit self.change) self.copies trees.old }
        ensures changed { IsChanged self.copies (row_of self.change) trees.old overlay.old.nodes.births trees.new
            overlay.new.nodes.births result }
        ensures others { overlay.new ≡ record overlay.old {
          nodes = record overlay.old.nodes { births = overlay.new.nodes.births };
        } }
    {
        let ChangePlan { copies, change } = self;
        let object = copies.apply(alloc, trees, &mut overlay.nodes.births, room);
        change.make(trees, object);
        object
    }

    /// Gives back what was promised: nothing changes. It does not allocate.
    pub fn give_back(self, trees: &mut Filesystems, overlay: &mut UpperOverlay)
        ensures trees { trees.new ≡ with_changed self.copies.directory.filesystem.count
            (giving_back (many self.copies)) trees.old }
        ensures overlay { overlay.new ≡ record overlay.old {
          nodes = record overlay.old.nodes {
            births = record overlay.old.nodes.births {
              promised = overlay.old.nodes.births.promised - many self.copies;
            };
          };
        } }
    {
        let ChangePlan {
            copies,
            change: _change,
        } = self;
        let copied = copies.len();
        give_back(
            trees,
            &mut overlay.nodes.births,
            copies.filesystem(),
            copied,
            copied,
        );
    }
}
