//! What loses its last name: unlink(2), rmdir(2). It is kept while something is on it; else its birth is forgotten.
ghost use Rattle.std.specs.Prelude.{◌≡◌, ◌+◌, ◌++◌, ◌-◌, ◌<◌, ◌≤◌, ◌∷◌, [], IfOk, List, OnErr, Some, nat_lt, true, ℕ};
ghost use Rattle.vt_spec.specs.Machine.CopyUp.{whiteout_of};
ghost use Rattle.vt_spec.specs.TreeInvariant.{entry_at};
ghost use Rattle.vt_births.specs.Births.{BirthsValue};
ghost use Rattle.vt_births.specs.Kept.{uses_of};
ghost use Rattle.vt_copyup.specs.Plans.{CopiesAreThere};
ghost use Rattle.vt_fs.specs.FilesystemsValue.{giving_back, promising, with_changed};
ghost use Rattle.vt_location.specs.Locations.{number_of};
ghost use Rattle.vt_overlay.specs.declared.merge.layers.LayerRef.{LayerRef as Layer};
ghost use Rattle.vt_upper.specs.Below.{is_shown_below};
ghost use Rattle.vt_upper.specs.LastName.{IsNameAt};
ghost use Rattle.vt_upper.specs.Losing.{IsKeeping, IsLeftBy, IsLeftSo, IsLosing, IsNotKept, MayBeKept, keeps_node};
ghost use Rattle.vt_upper.specs.New.{IsPlaceOf, IsRemovalReady, IsRemoved, MayRemoveFrom, many_in, one_if, start_of};
ghost use Rattle.vt_upper_overlay.specs.MergedAbove.{directory_path, merged_above, upper_count};
ghost use Rattle.vt_upper_overlay.specs.Standing.{StandsAbove};

use crate::last_name::is_last_name;
use crate::removing::{NameOf, NameRemoval};
use std::alloc::{AllocError, Global};
use vt_births::UpperNodes;
use vt_fs::Filesystems;
use vt_location::NodeRef;
use vt_node::EntryRoom;
use vt_upper_overlay::UpperOverlay;

// A node that loses a name.
#[derive(Debug, Drop)]
pub(crate) enum Losing {
    // It has other names.
    Named,
    // It has no other name. So many locations, roots of mounts and mount points are on it.
    Last { node: NodeRef, uses: u64 },
}

impl Losing {
    // What a node that has so many uses loses with its name in a directory that is shown.
    pub(crate) fn of(
        trees: &Filesystems,
        overlay: &UpperOverlay,
        directory: NodeRef,
        node: NodeRef,
        uses: u64,
    ) -> Losing
        requires standing { StandsAbove trees.now overlay.now }
        requires own { directory.filesystem ≡ overlay.now.layers.number }
        ensures loses { (path : List (List ℕ)) (name : List ℕ) → IsNameAt trees.now overlay.now directory node path name
            → IsLosing trees.now overlay.now (path ++ name ∷ []) node uses result }
        ensures not_kept { (path : List (List ℕ)) (name : List ℕ)
            → IsNameAt trees.now overlay.now directory node path name → IsNotKept result overlay.now.nodes.kept }
    {
        if is_last_name(trees, overlay, directory, node) {
            return Losing::Last { node, uses };
        }
        Losing::Named
    }

    // Whether the node is kept: something is on it.
    fn keeps(&self) -> bool
        ensures { result ≡ keeps_node self.now }
    {
        match self {
            Losing::Named => false,
            Losing::Last { uses, .. } => *uses > 0,
        }
    }

    // Keeps the node, or forgets its birth. It does not allocate.
    fn leave(self, nodes: &mut UpperNodes)
        requires { MayBeKept self nodes.old.kept }
        ensures { IsLeftBy self nodes.old nodes.new }
    {
        match self {
            Losing::Named => {}
            Losing::Last { node, uses } => leave_last(nodes, node, uses),
        }
    }
}

// Keeps a node that has so many uses, or forgets its birth if it has none. It does not allocate.
fn leave_last(nodes: &mut UpperNodes, node: NodeRef, uses: u64)
    requires room { nat_lt 0 uses ≡ true → 0 < nodes.old.kept.promised }
    requires new { uses_of nodes.old.kept node ≡ 0 }
    ensures { IsLeftSo (nat_lt 0 uses) node uses nodes.old nodes.new }
{
    let keeps = uses > 0;
    if keeps {
        nodes.kept.keep(node, uses);
        return;
    }
    nodes.births.forget(node);
}

// How many nodes more are kept.
fn one_more(keeps: bool) -> usize
    ensures { result ≡ one_if keeps }
{
    if keeps { 1 } else { 0 }
}

/// A name that is removed, and the node that has it. So many locations, roots of mounts and mount points are on that.
#[derive(Debug, Drop)]
pub struct RemovedName {
    pub directory: NodeRef,
    pub name: Vec<u8>,
    pub node: NodeRef,
    pub uses: u64,
}

/// A name that is removed, with the copies that its directory needs, and what is left of the node that had it. It owns all
/// memory that they take; inodes, births and a kept node are promised to it. It must be applied or given back.
#[derive(Debug)]
pub struct RemovalPlan {
    removal: NameRemoval,
    losing: Losing,
}

impl RemovalPlan {
    /// Plans the removal of a name from a directory that is shown: of a file, or of a directory that shows nothing. The
    /// whiteouts in that go with it. The whiteout is made only if it has to hide something. The node is kept if that is its
    /// last name, and it has uses. Nothing changes that anyone sees. It fails if an allocation does, or if what goes has
    /// 2^64 - 1 uses.
    pub fn new(
        alloc: Global,
        trees: &mut Filesystems,
        overlay: &mut UpperOverlay,
        room: &mut EntryRoom,
        removed: RemovedName,
    ) -> Result<RemovalPlan, AllocError>
        requires standing { StandsAbove trees.old overlay.old }
        requires own { removed.directory.filesystem ≡ overlay.old.layers.number }
        requires there { CopiesAreThere trees.old (upper_count overlay.old) overlay.old.nodes.births }
        requires may_remove { MayRemoveFrom trees.old overlay.old removed.directory removed.name.items }
        requires named { entry_at (merged_above trees.old overlay.old) (number_of removed.directory) removed.name.items
            ≡ Some (number_of removed.node) }
        ensures place { IfOk result (λ plan. IsPlaceOf trees.old overlay.old removed.directory plan.removal.place) }
        ensures keeps { IfOk result (λ plan. IsKeeping (keeps_node plan.losing) plan.removal.place) }
        ensures losing { IfOk result (λ plan. (path : List (List ℕ))
            → directory_path trees.old overlay.old (number_of removed.directory) ≡ Some path
            → IsLosing trees.old overlay.old (path ++ removed.name.items ∷ []) removed.node removed.uses plan.losing) }
        ensures name { IfOk result (λ plan. plan.removal.white.name ≡ removed.name) }
        ensures white { IfOk result (λ plan. plan.removal.white.node ≡ whiteout_of overlay.old.layers.mounter) }
        ensures hidden { IfOk result (λ plan. (path : List (List ℕ)) (upper : Layer) (lowers : List Layer)
            → directory_path trees.old overlay.old (number_of removed.directory) ≡ Some path
            → overlay.old.layers.lowers ≡ upper ∷ lowers
            → plan.removal.hidden ≡ is_shown_below trees.old upper lowers (path ++ removed.name.items ∷ [])) }
        ensures ready { IfOk result (λ plan. IsRemovalReady plan.removal.hidden plan.removal.place removed.name.items
            trees.new overlay.new.nodes.births room.new) }
        ensures may_be_kept { IfOk result (λ plan. MayBeKept plan.losing overlay.new.nodes.kept) }
        ensures inodes { IfOk result (λ plan. trees.new ≡ with_changed (upper_count overlay.old)
            (promising (many_in plan.removal.place + one_if plan.removal.hidden)) trees.old) }
        ensures overlay { IfOk result (λ plan. overlay.new ≡ record overlay.old {
          nodes = record {
            births = record overlay.old.nodes.births {
              promised = overlay.old.nodes.births.promised + many_in plan.removal.place;
            };
            kept = record overlay.old.nodes.kept {
              promised = overlay.old.nodes.kept.promised + one_if (keeps_node plan.losing);
            };
          };
        }) }
        ensures room { room.old ≤ room.new }
        ensures err { OnErr result (trees.new ≡ trees.old) }
        ensures err_overlay { OnErr result (overlay.new ≡ overlay.old) }
    {
        let RemovedName {
            directory,
            name,
            node,
            uses,
        } = removed;
        let losing = Losing::of(trees, overlay, directory, node, uses);
        let removal = NameRemoval::new(alloc, trees, overlay, room, NameOf { directory, name })?;
        let keeps = losing.keeps();
        match overlay.nodes.kept.promise(one_more(keeps)) {
            Ok(()) => Ok(RemovalPlan {
                removal: removal.keeping(keeps),
                losing,
            }),
            Err(error) => {
                removal.give_back(trees, overlay);
                Err(error)
            }
        }
    }

    /// Makes the copies, with their births, and then removes the name, which a whiteout gets if it has to. What had the name
    /// is kept if something is on it; else its birth is forgotten. It does not allocate.
    pub fn apply(
        self,
        alloc: Global,
        trees: &mut Filesystems,
        overlay: &mut UpperOverlay,
        room: &mut EntryRoom,
    )
        requires ready { IsRemovalReady self.removal.hidden self.removal.place self.removal.white.name.items trees.old
            overlay.old.nodes.births room.old }
        requires may_be_kept { MayBeKept self.losing overlay.old.nodes.kept }
        ensures removed { (births : BirthsValue) × IsRemoved self.removal.hidden self.removal.place
            self.removal.white.name.items self.removal.white.node trees.old overlay.old.nodes.births trees.new births
            × IsLeftBy self.losing (record { births = births; kept = overlay.old.nodes.kept }) overlay.new.nodes }
        ensures others { overlay.new ≡ record overlay.old { nodes = overlay.new.nodes } }
    {
        let RemovalPlan { removal, losing } = self;
        removal.apply(alloc, trees, overlay, room);
        losing.leave(&mut overlay.nodes);
    }

    /// Gives back what was promised: nothing changes. It does not allocate.
    pub fn give_back(self, trees: &mut Filesystems, overlay: &mut UpperOverlay)
        ensures trees { trees.new ≡ with_changed (start_of self.removal.place).filesystem.count
            (giving_back (many_in self.removal.place + one_if self.removal.hidden)) trees.old }
        ensures overlay { overlay.new ≡ record overlay.old {
          nodes = record {
            births = record overlay.old.nodes.births {
              promised = overlay.old.nodes.births.promised - many_in self.removal.place;
            };
            kept = record overlay.old.nodes.kept {
              promised = overlay.old.nodes.kept.promised - one_if (keeps_node self.losing);
            };
          };
        } }
    {
        let RemovalPlan { removal, losing } = self;
        removal.give_back(trees, overlay);
        overlay.nodes.kept.give_back(one_more(losing.keeps()));
    }
}
