//! Looks at counted inodes.
ghost use Rattle.vt_laws_mounts.specs.Counts.Looking.{CountedTreeIsTheTree, DirectoriesLieAlike};

/// Counted inodes, uses aside, are the `tree`. If that is one, and directories without a name are their own parents,
/// one directory lies `under` another in both or neither.
pub fn counted_inodes_show_the_tree()
    ensures tree { CountedTreeIsTheTree }
    ensures under { DirectoriesLieAlike }
{}
