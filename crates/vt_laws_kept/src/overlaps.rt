//! What lies or counts under layers, found from directories, inodes of several names and kept ones, without a look at a
//! whole tree.
ghost use Rattle.vt_laws_kept.specs.Overlaps.{CountsUnderWhereKept, FilesLieByTheirNames, IsLockedWhereKept, OverlapsAreFound, OverlapsWithLiveAreFound};
ghost use Rattle.vt_spec.specs.Machine.Locked.{live_layers, live_upper_and_work};

/// What counts as `under` a layer lies there, or is kept by an overlay whose upper directory lies there. So an inode is
/// `locked` just if it lies in a layer of a live overlay, or an overlay keeps it.
pub fn what_counts_under_a_layer_is_kept()
    ensures under { CountsUnderWhereKept }
    ensures locked { IsLockedWhereKept }
{}

/// A layer overlaps others just if the directory of one lies in another, or an inode lies or counts under both that an
/// overlay keeps, or that has names in two directories (`overlaps`).
///
/// - `live`, `changed`: with the layers of live overlays, or with those that changes write to, it overlaps just if they
///   are nested so, one with names in two directories lies in both, or a kept one lies in it.
/// - `files`: what is no directory lies under one just if a directory there has a name for it; any directories show
///   that, among them all that have one. It is so of any listed tree.
///
/// Layers are directories of plain trees.
pub fn overlaps_are_found_by_directories()
    ensures files { FilesLieByTheirNames }
    ensures overlaps { OverlapsAreFound }
    ensures live { OverlapsWithLiveAreFound live_layers }
    ensures changed { OverlapsWithLiveAreFound live_upper_and_work }
{}
