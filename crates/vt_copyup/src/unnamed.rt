//! The copy of an object that has lost its names while it is in use: unlink(2).
ghost use Rattle.std.specs.Prelude.{◌≡◌, ◌+◌, ◌<◌, IfOk, None, Some, if◌then◌else◌, is_some, nat_eq, true, ℕ};
ghost use Rattle.vt_spec.specs.Tree.{Node as Inode};
ghost use Rattle.vt_location.specs.Locations.{inode_of};
ghost use Rattle.vt_location.specs.SameNodes.{same_node};
ghost use Rattle.vt_location.specs.declared.locations.NodeRef.{NodeRef as Node};
ghost use Rattle.vt_fs.specs.FilesystemsValue.{ChangesInodes, files_at, inodes_promised};
ghost use Rattle.vt_fs.specs.Trees.TreeValue.{with_unnamed};
ghost use Rattle.vt_laws_worlds.specs.Merging.UpperChanges.{copy_node};
ghost use Rattle.vt_births.specs.Births.{copy_of, is_born_below, node_of};
ghost use Rattle.vt_copyup.specs.Copied.{copied};
ghost use Rattle.vt_copyup.specs.Plans.{CopiesAreThere};

use crate::copied::CopiedNode;
use std::alloc::{AllocError, Global};
use vt_births::Births;
use vt_fs::Filesystems;
use vt_location::{FilesystemId, InodeRef, NodeRef};
use vt_node::NodeId;

/// The copy of one object without a name, and the node whose copy it is. It owns all memory that the copy takes but for an
/// inode and a birth, which have to be promised before it is applied (`promise`).
#[derive(Debug, Drop)]
pub struct UnnamedPlan {
    upper: FilesystemId,
    node: CopiedNode,
    born: NodeRef,
}

/// An object of a lower layer, and the node that was born there.
#[derive(Clone, Copy, Debug)]
pub struct LowerObject {
    pub inode: InodeRef,
    pub born: NodeRef,
}

/// Plans the copy of an object of a lower layer that has no name, with all the memory that it owns. A file that is to be
/// written whole is copied without its bytes. Nothing changes.
pub fn plan_unnamed(
    alloc: Global,
    trees: &Filesystems,
    upper: FilesystemId,
    object: LowerObject,
    with_bytes: bool,
) -> Result<UnnamedPlan, AllocError>
    requires { is_some ((files_at trees.now object.inode.filesystem.count).tree.node (inode_of object.inode)) ≡ true }
    ensures node { (node : Inode ℕ)
        → (files_at trees.now object.inode.filesystem.count).tree.node (inode_of object.inode) ≡ Some node
        → IfOk result (λ plan. plan.node ≡ copied with_bytes node) }
    ensures upper { IfOk result (λ plan. plan.upper ≡ upper) }
    ensures born { IfOk result (λ plan. plan.born ≡ object.born) }
{
    let Some(found) = trees.node(object.inode.node_ref()) else {
        unreachable!();
    };
    let node = CopiedNode::of(alloc, found, with_bytes)?;
    Ok(UnnamedPlan {
        upper,
        node,
        born: object.born,
    })
}

impl UnnamedPlan {
    /// Makes the copy, which has no name and one use, and its birth. It gives its inode. It does not allocate.
    pub fn apply(self, alloc: Global, trees: &mut Filesystems, births: &mut Births) -> InodeRef
        requires there { CopiesAreThere trees.old self.upper.count births.old }
        requires inode { 0 < inodes_promised trees.old self.upper.count }
        requires birth { 0 < births.old.promised }
        requires below { is_born_below self.born ≡ true }
        requires new { copy_of births.old self.born ≡ None }
        ensures made { ChangesInodes self.upper.count (λ inodes. with_unnamed nat_eq inodes
            (inode_of result) (copy_node (inode_of result) self.node)) trees.old trees.new }
        ensures vacant { (files_at trees.old self.upper.count).tree.node (inode_of result) ≡ None }
        ensures filesystem { result.filesystem ≡ self.upper }
        ensures nodes { (slot : ℕ) → node_of births.new slot
            ≡ (if nat_eq result.slot slot then Some self.born else node_of births.old slot) }
        ensures slots { (node : Node) → copy_of births.new node
            ≡ (if same_node self.born node then Some result.slot else copy_of births.old node) }
        ensures inodes_left { inodes_promised trees.new self.upper.count + 1
            ≡ inodes_promised trees.old self.upper.count }
        ensures births_left { births.new.promised + 1 ≡ births.old.promised }
    {
        let UnnamedPlan { upper, node, born } = self;
        let next = trees.next_number(upper).unwrap();
        births.add(born, next.slot);
        let node = node.under(NodeId::new(next.slot));
        trees.create_unnamed(alloc, upper, node);
        InodeRef {
            filesystem: upper,
            slot: next.slot,
        }
    }
}
