//! New overlays: what `mount overlay` makes where it is handed the numbers by which code knows inodes.
//!
//! | words | meaning |
//! |---|---|
//! | handed (`handed_in`) | counts from the overlay's own on, and at every fourth place the number of an inode, by its birth |
//! | made (`overlay_made`) | the filesystem that the definitions make of an overlay with that supply |
//! | shown (`overlay_shown`) | the overlay's number, with the tree and the real objects that plain trees show along its layers |
//! | new (`IsNew`) | no node of the overlay has a number in use, and all that is counted was counted before it |
ghost use Rattle.vt_world.specs.OverlaysMade.Made.{InodesGetTheirNumbers, MadeObjectsAreShown, MadeOverlaysAreSame, MadeTreesAreShown, MountsGetCounts, NewOverlaysAreSame, OverlaysGetTheirCount, SuppliesForOverlaysServe};

/// The supply for an overlay gives it the number of its `count`, each object shown the number of its birth (`inodes`),
/// and mounts and peer groups later counts (`mounts`).
///
/// Objects are those that its layers show, in the order in which they are gone through.
pub fn numbers_for_an_overlay_have_their_places()
    ensures count { OverlaysGetTheirCount }
    ensures inodes { InodesGetTheirNumbers }
    ensures mounts { MountsGetCounts }
{}

/// By distinct numbers, in a world with all invariants, an overlay made over directories of plain trees has the `tree`
/// and the real `objects` that they show. The trees are kept as the world has them.
///
/// So it is the `same` but for the order of the numbers beside its tree.
pub fn overlays_that_are_made_are_shown()
    ensures tree { MadeTreesAreShown }
    ensures objects { MadeObjectsAreShown }
    ensures same { MadeOverlaysAreSame }
{}

/// In a world with all invariants, the supply for a new overlay of at most 128 layers, directories of kept trees,
/// serves (`serves`). If those are kept as the world has them, the made overlay is the shown one (`same`).
///
/// The numbers of births are even, no two numbers are equal, and none is in use. For `same`, the trees are plain, and
/// the order of the numbers beside the overlay's tree may differ.
pub fn numbers_for_a_new_overlay_serve()
    ensures serves { SuppliesForOverlaysServe }
    ensures same { NewOverlaysAreSame }
{}
