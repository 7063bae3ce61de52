//! Names that are removed: unlink(2), rmdir(2). A whiteout hides what lower layers show there: the kernel's overlayfs
//! document, "whiteouts and opaque directories".
ghost use Rattle.std.specs.Prelude.{◌≡◌, ◌+◌, ◌++◌, ◌-◌, ◌≤◌, ◌∷◌, [], IfOk, IfSome, List, OnErr, Some, ℕ};
ghost use Rattle.vt_spec.specs.Machine.CopyUp.{whiteout_of};
ghost use Rattle.vt_copyup.specs.Plans.{CopiesAreThere};
ghost use Rattle.vt_fs.specs.FilesystemsValue.{giving_back, promising, with_changed};
ghost use Rattle.vt_location.specs.Locations.{number_of};
ghost use Rattle.vt_overlay.specs.declared.merge.layers.LayerRef.{LayerRef as Layer};
ghost use Rattle.vt_upper.specs.Below.{is_shown_below};
ghost use Rattle.vt_upper.specs.New.{IsPlaceOf, IsRemovalReady, IsRemoved, MayRemoveFrom, keeping, many_in, one_if, start_of};
ghost use Rattle.vt_upper_overlay.specs.MergedAbove.{directory_path, upper_count};
ghost use Rattle.vt_upper_overlay.specs.Standing.{StandsAbove};

use crate::lowers::shown_below;
use crate::making::{NameIn, NamedNode, Place, place_for};
use std::alloc::{AllocError, Global};
use vt_copyup::{CopiedNode, give_back, promise};
use vt_fs::Filesystems;
use vt_location::NodeRef;
use vt_node::{Attr, EntryRoom, Mode};
use vt_upper_overlay::UpperOverlay;

// A name of a directory of the overlay.
#[derive(Debug, Drop)]
pub(crate) struct NameOf {
    pub(crate) directory: NodeRef,
    pub(crate) name: Vec<u8>,
}

// A name that is removed, with the copies that its directory needs. It owns all memory that they take; inodes and births
// are promised to it.
#[derive(Debug)]
pub(crate) struct NameRemoval {
    place: Place,
    // The name, and the whiteout that gets it.
    white: NamedNode,
    // Lower layers show something under the name, which a whiteout must hide.
    hidden: bool,
}

impl NameRemoval {
    // Plans the removal. What has the name is not kept.
    pub(crate) fn new(
        alloc: Global,
        trees: &mut Filesystems,
        overlay: &mut UpperOverlay,
        room: &mut EntryRoom,
        at: NameOf,
    ) -> Result<NameRemoval, AllocError>
        requires standing { StandsAbove trees.old overlay.old }
        requires own { at.directory.filesystem ≡ overlay.old.layers.number }
        requires there { CopiesAreThere trees.old (upper_count overlay.old) overlay.old.nodes.births }
        requires may_remove { MayRemoveFrom trees.old overlay.old at.directory at.name.items }
        ensures place { IfOk result (λ plan. IsPlaceOf trees.old overlay.old at.directory plan.place) }
        ensures filesystem { IfOk result (λ plan. (start_of plan.place).filesystem.count ≡ upper_count overlay.old) }
        ensures name { IfOk result (λ plan. plan.white.name ≡ at.name) }
        ensures white { IfOk result (λ plan. plan.white.node ≡ whiteout_of overlay.old.layers.mounter) }
        ensures hidden { IfOk result (λ plan. (path : List (List ℕ)) (upper : Layer) (lowers : List Layer)
            → directory_path trees.old overlay.old (number_of at.directory) ≡ Some path
            → overlay.old.layers.lowers ≡ upper ∷ lowers
            → plan.hidden ≡ is_shown_below trees.old upper lowers (path ++ at.name.items ∷ [])) }
        ensures ready { IfOk result (λ plan. IsRemovalReady plan.hidden plan.place at.name.items trees.new
            overlay.new.nodes.births room.new) }
        ensures inodes { IfOk result (λ plan. trees.new ≡ with_changed (upper_count overlay.old)
            (promising (many_in plan.place + one_if plan.hidden)) trees.old) }
        ensures births { IfOk result (λ plan. overlay.new.nodes.births
            ≡ record overlay.old.nodes.births {
              promised = overlay.old.nodes.births.promised + many_in plan.place;
            }) }
        ensures others { overlay.new ≡ record overlay.old {
          nodes = record overlay.old.nodes { births = overlay.new.nodes.births };
        } }
        ensures room { room.old ≤ room.new }
        ensures err { OnErr result (trees.new ≡ trees.old) }
        ensures err_overlay { OnErr result (overlay.new ≡ overlay.old) }
    {
        let NameOf { directory, name } = at;
        let hidden = hides_something(trees, overlay, directory, &name);
        let removed = NameIn {
            directory,
            name: &name,
        };
        let place = place_for(alloc, trees, overlay, room, removed)?;
        let copies = place.copies();
        let Some(inodes) = inodes_for(copies, hidden) else {
            return Err(AllocError);
        };
        promise(
            trees,
            &mut overlay.nodes.births,
            place.filesystem(),
            inodes,
            copies,
        )?;
        Ok(NameRemoval {
            place,
            white: white_under(overlay, name),
            hidden,
        })
    }

    // The same removal, where what has the name is kept, or is not.
    pub(crate) fn keeping(self, keeps: bool) -> NameRemoval
        ensures { result ≡ record self { place = keeping keeps self.place } }
    {
        let NameRemoval {
            place,
            white,
            hidden,
        } = self;
        NameRemoval {
            place: place.keeping(keeps),
            white,
            hidden,
        }
    }

    // Makes the copies, with their births, and then removes the name, which a whiteout gets if it has to. It does not
    // allocate.
    pub(crate) fn apply(
        self,
        alloc: Global,
        trees: &mut Filesystems,
        overlay: &mut UpperOverlay,
        room: &mut EntryRoom,
    )
        requires { IsRemovalReady self.hidden self.place self.white.name.items trees.old overlay.old.nodes.births
            room.old }
        ensures removed { IsRemoved self.hidden self.place self.white.name.items self.white.node trees.old
            overlay.old.nodes.births trees.new overlay.new.nodes.births }
        ensures others { overlay.new ≡ record overlay.old {
          nodes = record overlay.old.nodes { births = overlay.new.nodes.births };
        } }
    {
        let NameRemoval {
            place,
            white,
            hidden,
        } = self;
        if hidden {
            place.make(alloc, trees, &mut overlay.nodes.births, room, white);
            return;
        }
        place.leave(alloc, trees, &mut overlay.nodes.births, room, &white.name);
    }

    // Gives back what was promised: nothing changes. It does not allocate.
    pub(crate) fn give_back(self, trees: &mut Filesystems, overlay: &mut UpperOverlay)
        ensures trees { trees.new ≡ with_changed (start_of self.place).filesystem.count
            (giving_back (many_in self.place + one_if self.hidden)) trees.old }
        ensures overlay { overlay.new ≡ record overlay.old {
          nodes = record overlay.old.nodes {
            births = record overlay.old.nodes.births {
              promised = overlay.old.nodes.births.promised - many_in self.place;
            };
          };
        } }
    {
        let NameRemoval {
            place,
            white: _white,
            hidden,
        } = self;
        let copies = place.copies();
        let upper = place.filesystem();
        give_back(trees, &mut overlay.nodes.births, upper, copies, copies);
        if !hidden {
            return;
        }
        give_back(trees, &mut overlay.nodes.births, upper, 1, 0);
    }
}

// A whiteout of the mounter, under a name.
fn white_under(overlay: &UpperOverlay, name: Vec<u8>) -> NamedNode
    ensures name { result.name ≡ name }
    ensures node { result.node ≡ whiteout_of overlay.now.layers.mounter }
{
    let mounter = overlay.mounter();
    let attr = Attr {
        uid: mounter.uid(),
        gid: mounter.gid(),
        mode: Mode::new(0).unwrap(),
    };
    NamedNode {
        name,
        node: CopiedNode::whiteout(attr),
    }
}

// How many inodes copies need, and one more.
fn inodes_for(copies: usize, more: bool) -> Option<usize>
    ensures { IfSome result (λ inodes. inodes ≡ copies + one_if more) }
{
    if more {
        copies.checked_add(1)
    } else {
        Some(copies)
    }
}

// Whether lower layers show something under a name of a directory, which a whiteout must hide.
fn hides_something(
    trees: &Filesystems,
    overlay: &UpperOverlay,
    directory: NodeRef,
    name: &[u8],
) -> bool
    requires standing { StandsAbove trees.now overlay.now }
    requires own { directory.filesystem ≡ overlay.now.layers.number }
    ensures { (path : List (List ℕ)) (upper : Layer) (lowers : List Layer)
        → directory_path trees.now overlay.now (number_of directory) ≡ Some path
        → overlay.now.layers.lowers ≡ upper ∷ lowers
        → result ≡ is_shown_below trees.now upper lowers (path ++ name.now ∷ []) }
{
    let Some(way) = overlay.way(trees, directory) else {
        return false;
    };
    shown_below(trees, overlay.layers(), &way.under(name))
}
