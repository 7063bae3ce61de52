//! Changes of an object that has lost its names while it is in use: write(2), fchmod(2) and fchown(2) of an open file. What is
//! in a lower layer is copied first, to an inode without a name.
ghost use Rattle.std.specs.Prelude.{◌≡◌, ◌+◌, ◌-◌, ◌<◌, IfOk, IsSome, OnErr, length, true};
ghost use Rattle.vt_births.specs.Kept.{is_kept};
ghost use Rattle.vt_copyup.specs.Plans.{CopiesAreThere};
ghost use Rattle.vt_fs.specs.FilesystemsValue.{giving_back, promising, with_changed};
ghost use Rattle.vt_upper.specs.Changes.{IsFit, keeps_bytes, row_of};
ghost use Rattle.vt_upper.specs.KeptChanges.{IsCopyOfKept, IsKeptChanged, IsKeptFit, IsKeptMade, IsKeptReady, many_kept, upper_of};
ghost use Rattle.vt_upper_overlay.specs.MergedAbove.{object_lent, upper_count};
ghost use Rattle.vt_upper_overlay.specs.Standing.{StandsAbove};

use crate::changing::ObjectChange;
use std::alloc::{AllocError, Global};
use vt_births::Births;
use vt_copyup::{LowerObject, UnnamedPlan, give_back, plan_unnamed, promise};
use vt_fs::Filesystems;
use vt_location::{FilesystemId, InodeRef, NodeRef};
use vt_upper_overlay::UpperOverlay;

// The object in the upper layer, or its copy there.
#[derive(Debug, Drop)]
pub(crate) enum KeptObject {
    There { object: InodeRef },
    Copied { copy: UnnamedPlan },
}

impl KeptObject {
    // How many copies are made.
    fn copies(&self) -> usize
        ensures { result ≡ many_kept self.now }
    {
        match self {
            KeptObject::There { .. } => 0,
            KeptObject::Copied { .. } => 1,
        }
    }

    // Makes the copy if need be. It does not allocate.
    fn make(self, alloc: Global, trees: &mut Filesystems, births: &mut Births) -> InodeRef
        requires { IsKeptReady self trees.old births.old }
        ensures { IsKeptMade self trees.old births.old trees.new births.new result }
    {
        match self {
            KeptObject::There { object } => object,
            KeptObject::Copied { copy } => copy.apply(alloc, trees, births),
        }
    }
}

/// The change of an object without a name, with the copy that it needs. It owns all memory that they take; an inode and a
/// birth are promised to it. It must be applied or given back.
#[derive(Debug)]
pub struct KeptChangePlan {
    upper: FilesystemId,
    object: KeptObject,
    change: ObjectChange,
}

impl KeptChangePlan {
    /// Plans the change of an object that is kept without a name. Nothing changes that anyone sees. It fails only if an
    /// allocation does.
    pub fn new(
        alloc: Global,
        trees: &mut Filesystems,
        overlay: &mut UpperOverlay,
        object: NodeRef,
        change: ObjectChange,
    ) -> Result<KeptChangePlan, AllocError>
        requires standing { StandsAbove trees.old overlay.old }
        requires kept { is_kept overlay.old.nodes.kept object ≡ true }
        requires lent { IsSome (object_lent trees.old overlay.old object) }
        requires there { CopiesAreThere trees.old (upper_count overlay.old) overlay.old.nodes.births }
        requires fit { IsFit change (object_lent trees.old overlay.old object) }
        ensures object { IfOk result (λ plan.
            IsCopyOfKept (keeps_bytes change) trees.old overlay.old object plan.object) }
        ensures upper { IfOk result (λ plan. upper_of plan.upper plan.object ≡ plan.upper) }
        ensures change { IfOk result (λ plan. plan.change ≡ change) }
        ensures ready { IfOk result (λ plan. IsKeptReady plan.object trees.new overlay.new.nodes.births) }
        ensures fit { IfOk result (λ plan. IsKeptFit (IsFit plan.change) plan.object trees.new) }
        ensures inodes { IfOk result (λ plan. trees.new
            ≡ with_changed (upper_count overlay.old) (promising (many_kept plan.object)) trees.old) }
        ensures births { IfOk result (λ plan. overlay.new.nodes.births
            ≡ record overlay.old.nodes.births {
              promised = overlay.old.nodes.births.promised + many_kept plan.object;
            }) }
        ensures others { overlay.new ≡ record overlay.old {
          nodes = record overlay.old.nodes { births = overlay.new.nodes.births };
        } }
        ensures err { OnErr result (trees.new ≡ trees.old) }
        ensures err_overlay { OnErr result (overlay.new ≡ overlay.old) }
    {
        let upper = overlay.upper().directory.filesystem;
        let kept = kept_object(alloc, trees, overlay, object, change.keeps_bytes())?;
        let copies = kept.copies();
        promise(trees, &mut overlay.nodes.births, upper, copies, copies)?;
        Ok(KeptChangePlan {
            upper,
            object: kept,
            change,
        })
    }

    /// Makes the copy, with its birth, and then the change. It returns the object's inode in the upper layer. It does not
    /// allocate.
    pub fn apply(
        self,
        alloc: Global,
        trees: &mut Filesystems,
        overlay: &mut UpperOverlay,
    ) -> InodeRef
        requires upper { upper_of self.upper self.object ≡ self.upper }
        requires ready { IsKeptReady self.object trees.old overlay.old.nodes.births }
        requires fit { IsKeptFit (IsFit self.change) self.object trees.old }
        ensures changed { IsKeptChanged self.upper self.object (row_of self.change) trees.old overlay.old.nodes.births
            trees.new overlay.new.nodes.births result }
        ensures others { overlay.new ≡ record overlay.old {
          nodes = record overlay.old.nodes { births = overlay.new.nodes.births };
        } }
    {
        let KeptChangePlan {
            upper: _upper,
            object,
            change,
        } = self;
        let made = object.make(alloc, trees, &mut overlay.nodes.births);
        change.make(trees, made);
        made
    }

    /// Gives back what was promised: nothing changes. It does not allocate.
    pub fn give_back(self, trees: &mut Filesystems, overlay: &mut UpperOverlay)
        ensures trees { trees.new ≡ with_changed self.upper.count (giving_back (many_kept self.object)) trees.old }
        ensures overlay { overlay.new ≡ record overlay.old {
          nodes = record overlay.old.nodes {
            births = record overlay.old.nodes.births {
              promised = overlay.old.nodes.births.promised - many_kept self.object;
            };
          };
        } }
    {
        let KeptChangePlan {
            upper,
            object,
            change: _change,
        } = self;
        let copies = object.copies();
        give_back(trees, &mut overlay.nodes.births, upper, copies, copies);
    }
}

// The object if it is in the upper layer, else its copy, in memory of the plan's own.
fn kept_object(
    alloc: Global,
    trees: &Filesystems,
    overlay: &UpperOverlay,
    object: NodeRef,
    with_bytes: bool,
) -> Result<KeptObject, AllocError>
    requires lent { IsSome (object_lent trees.now overlay.now object) }
    requires upper { 0 < length overlay.now.layers.lowers }
    ensures { IfOk result (IsCopyOfKept with_bytes trees.now overlay.now object) }
{
    let Some(real) = overlay.real(object) else {
        unreachable!();
    };
    if real.layer == 0 {
        return Ok(KeptObject::There { object: real.inode });
    }
    let upper = overlay.upper().directory.filesystem;
    let lower = LowerObject {
        inode: real.inode,
        born: object,
    };
    let copy = plan_unnamed(alloc, trees, upper, lower, with_bytes)?;
    Ok(KeptObject::Copied { copy })
}
