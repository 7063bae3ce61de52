//! The copies that a change of an object needs: the kernel's overlayfs document, "upper and lower" (copy_up).
ghost use Rattle.std.specs.Prelude.{◌≡◌, ◌+◌, ◌++◌, ◌≤◌, ◌∷◌, [], IfOk, IfSome, IsSome, None, Some, slice_get, true, ℕ};
ghost use Rattle.vt_spec.specs.Machine.Layers.{shown};
ghost use Rattle.vt_births.specs.Births.{slot_above};
ghost use Rattle.vt_copyup.specs.Plans.{CopiesAreThere, IsReady, many};
ghost use Rattle.vt_fs.specs.FilesystemsValue.{promising, with_changed};
ghost use Rattle.vt_location.specs.Locations.{is_small_node, number_of};
ghost use Rattle.vt_overlay.specs.Merge.LayerValue.{layers_of};
ghost use Rattle.vt_upper.specs.Copies.{AreCopiesOf};
ghost use Rattle.vt_upper_overlay.specs.MergedAbove.{number_at, object_shown, upper_count};
ghost use Rattle.vt_upper_overlay.specs.Standing.{StandsAbove};

use std::alloc::{AllocError, Global};
use vt_copyup::{Plan, Source, plan};
use vt_fs::Filesystems;
use vt_location::{Birth, InodeRef, NodeRef};
use vt_node::{EntryRoom, NodeId};
use vt_overlay::{LayerRef, WayDown, way_down};
use vt_upper_overlay::UpperOverlay;

/// An object that is copied, a file with its bytes or, where it is to be written whole, without them.
#[derive(Clone, Copy, Debug)]
pub(crate) struct CopiedObject {
    pub(crate) node: NodeRef,
    pub(crate) with_bytes: bool,
}

/// Plans the copies of an object that is shown, if it is in a lower layer, with those of its missing parents.
pub(crate) fn plan_copies(
    alloc: Global,
    trees: &Filesystems,
    overlay: &UpperOverlay,
    room: &mut EntryRoom,
    object: CopiedObject,
) -> Result<Plan, AllocError>
    requires standing { StandsAbove trees.now overlay.now }
    requires own { object.node.filesystem ≡ overlay.now.layers.number }
    requires shown { IsSome (object_shown trees.now overlay.now (number_of object.node)) }
    ensures copies { IfOk result (AreCopiesOf object.with_bytes trees.now overlay.now object.node) }
    ensures filesystem { IfOk result (λ plan. plan.directory.filesystem.count ≡ upper_count overlay.now) }
    ensures small { IfOk result (λ plan. is_small_node object.node ≡ true) }
    ensures room { room.old ≤ room.new }
    ensures ready { (inodes more : ℕ) → CopiesAreThere trees.now (upper_count overlay.now) overlay.now.nodes.births
        → IfOk result (λ plan. many plan ≤ inodes → many plan ≤ more → IsReady plan
        (with_changed plan.directory.filesystem.count (promising inodes) trees.now)
        (record overlay.now.nodes.births { promised = overlay.now.nodes.births.promised + more }) room.new) }
{
    let CopiedObject { node, with_bytes } = object;
    let Some(real) = overlay.real(node) else {
        unreachable!();
    };
    if real.layer == 0 {
        return Ok(Plan::nothing(alloc, real.inode));
    }
    let Some(place) = born_at(trees, overlay, node) else {
        unreachable!();
    };
    let path = place.way.under(place.name);
    let source = Source {
        trees,
        layers: overlay.layers(),
        overlay: node.filesystem,
        with_bytes,
    };
    plan(alloc, source, room, &path)
}

// Where a node was born: the way to a directory, and a name there.
#[derive(Debug, Drop)]
struct Birthplace<'a> {
    way: WayDown<'a>,
    name: &'a [u8],
}

// Where a node was born that is shown in a lower layer. A layer shows it there.
fn born_at<'a>(
    trees: &'a Filesystems,
    overlay: &UpperOverlay,
    node: NodeRef,
) -> Option<Birthplace<'a>>
    requires standing { StandsAbove trees.now overlay.now }
    requires own { node.filesystem ≡ overlay.now.layers.number }
    requires shown { IsSome (object_shown trees.now overlay.now (number_of node)) }
    requires below { slot_above overlay.now.nodes.births node ≡ None }
    requires small { is_small_node node ≡ true }
    ensures some { IsSome result }
    ensures node { IfSome result (λ place.
        number_at trees.now overlay.now (place.way ++ place.name.now ∷ []) ≡ Some (number_of node)) }
    ensures shown { IfSome result (λ place.
        IsSome (shown (layers_of trees.now overlay.now.layers.lowers) (place.way ++ place.name.now ∷ []))) }
{
    let Birth::Below {
        layer,
        directory,
        rank,
    } = node.birth
    else {
        return None;
    };
    let lower = layer_at(overlay, usize::from(layer) + 1)?;
    let above = InodeRef {
        filesystem: lower.directory.filesystem,
        slot: directory,
    };
    let way = way_down(trees, lower.directory, above)?;
    let inode = trees.node(above.node_ref())?;
    let name = inode.name_ranked(NodeId::new(node.slot), rank)?;
    Some(Birthplace { way, name })
}

// The layer at a place, counted from the upper one.
fn layer_at(overlay: &UpperOverlay, place: usize) -> Option<LayerRef>
    ensures { result ≡ slice_get overlay.now.layers.lowers place }
{
    overlay.layers().get(place).copied()
}
