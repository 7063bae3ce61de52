//! Changes that follow one another.
ghost use Rattle.vt_laws_trees.specs.Overlays.LayersApart.{LayersStayApart, OverlayInvariantsStay, TreeInvariantsStay, TreesStay};
ghost use Rattle.vt_laws_trees.specs.Overlays.WholeStays.{ChangesFollowOneAnother, ChangesKeepWhole, LinkKeepsWhole, MakeKeepsWhole};
ghost use Rattle.vt_laws_trees.specs.Overlays.WholeStays.{MergedTreesStay, MoveKeepsWhole, NamesLeadToOwn, ObjectsAreOwn, RemoveKeepsWhole};
ghost use Rattle.vt_laws_trees.specs.Overlays.WholeStays.{SizesStay, UpperTreesStay};

/// A whole overlay stays whole in the steps `made`, `linked`, `removed` and `moved`, in a good change (`changes`), and
/// in any number of these (`rows`).
pub fn changes_keep_overlays_whole()
    ensures made { MakeKeepsWhole }
    ensures linked { LinkKeepsWhole }
    ensures removed { RemoveKeepsWhole }
    ensures moved { MoveKeepsWhole }
    ensures changes { ChangesKeepWhole }
    ensures rows { ChangesFollowOneAnother }
{}

/// After a good change the trees of the `upper` layer and of the overlay (`merged`) are file trees, if they were. They
/// are within their limits, if they were and what the change gives is (`sizes`).
///
/// Each of the `names` of the upper tree leads where it led, to a handed-in number, or to an upper object: a
/// non-directory, or one reached from the upper directory. The upper object of an inode is the old one, or handed in
/// (`objects`).
pub fn changes_keep_both_trees()
    ensures upper { UpperTreesStay }
    ensures merged { MergedTreesStay }
    ensures names { NamesLeadToOwn }
    ensures objects { ObjectsAreOwn }
    ensures sizes { SizesStay }
{}

/// After a good change in a world all invariants of `overlays` hold, layers lie `apart`, and filesystems are file trees
/// (`trees`). All invariants of trees hold, if what the change gives is within limits (`files`).
///
/// Upper and work directories lie apart from each other and from live lower layers. Filesystems have their own numbers,
/// and the upper directory is reached (`trees`).
pub fn changes_keep_overlay_invariants()
    ensures apart { LayersStayApart }
    ensures overlays { OverlayInvariantsStay }
    ensures trees { TreesStay }
    ensures files { TreeInvariantsStay }
{}
