//! Trees stay trees. A *file tree* (`IsFileTree`) is one with the numbers of its inodes beside it, in which directories
//! without a name are their own parents.
ghost use Rattle.vt_laws_trees.specs.Trees.{ChangesKeepNumbers, ChangesKeepOwnParents, ChangesKeepTrees};
ghost use Rattle.vt_laws_trees.specs.Trees.Calls.{CallsKeepTrees, OpeningHasTrees, WorldsAreStanding};
ghost use Rattle.vt_laws_trees.specs.Trees.Limits.{CallsKeepSmallTasks, OpeningHasSmallTasks};
ghost use Rattle.vt_laws_trees.specs.Trees.Settling.{ForgettingKeepsTrees, LocatedStays, NamedIsUsed, NamedStays, SettlingKeepsTrees, UnusedIsGone, UsedStays};
ghost use Rattle.vt_laws_trees.specs.Trees.Sizes.{CallsKeepSizes, ChangesKeepSizes, OpeningIsFit, SettlingKeepsSizes};

/// A proper change of a tree (`IsProper`) leaves a tree (`trees`), in which directories without a name stay their own
/// parents (`own_parents`). Any change keeps that the `numbers` beside a tree are those of its inodes.
///
/// A proper change is one that the rules of its call let pass.
pub fn changes_keep_trees()
    ensures trees { ChangesKeepTrees }
    ensures numbers { ChangesKeepNumbers }
    ensures own_parents { ChangesKeepOwnParents }
{}

/// Names, texts and files stay within their limits in a change whose new ones are (`changes`), and in the sweep
/// (`settling`).
pub fn changes_keep_sizes()
    ensures changes { ChangesKeepSizes }
    ensures settling { SettlingKeepsSizes }
{}

/// Where filesystems are file trees, the sweep frees unused inodes (`unused`) and leaves used ones as they were
/// (`used`), the root and named ones among them (`named`). File trees are left (`trees`, `worlds`).
///
/// `used` and `locations` ask for no file trees. An inode with a name is as it was, if a mount that is left shows its
/// filesystem (`names`). So is what is at a root, working directory or descriptor on an existing mount (`locations`).
pub fn settling_keeps_trees()
    ensures trees { ForgettingKeepsTrees }
    ensures worlds { SettlingKeepsTrees }
    ensures named { NamedIsUsed }
    ensures used { UsedStays }
    ensures unused { UnusedIsGone }
    ensures names { NamedStays }
    ensures locations { LocatedStays }
{}

/// In a world of file trees, a plain call leaves file trees and no overlay (`calls`). No inode has a handed-in number,
/// and the root and the mount point of each mount are directories.
///
/// The latter are in every world with all invariants (`standing`). The `opening` world has such trees and mounts.
pub fn calls_keep_trees()
    ensures opening { OpeningHasTrees }
    ensures standing { WorldsAreStanding }
    ensures calls { CallsKeepTrees }
{}

/// Every call keeps tasks within their limits (descriptors, forks, names, groups, umask), but for a `fork` that names
/// more than 32 groups (`calls`). In the `opening` world they are.
pub fn calls_keep_small_tasks()
    ensures opening { OpeningHasSmallTasks }
    ensures calls { CallsKeepSmallTasks }
{}

/// A plain call keeps names, texts and files within their limits (`calls`). In the `opening` world they are.
pub fn calls_keep_sizes()
    ensures opening { OpeningIsFit }
    ensures calls { CallsKeepSizes }
{}
