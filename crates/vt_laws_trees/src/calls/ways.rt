//! Each directory on the way of a walk is searched, in every world, with mounts, symlinks and overlays. On the *way* of
//! a path (`Way`), defined apart from walks, each word is looked up where those before it lead. After a symlink it goes
//! on where the words of its text lead. A location is *passed* if a word is looked up there.
ghost use Rattle.vt_laws_trees.specs.Calls.Searched.{DestinationWaysAreSearched, DirectoryWaysAreSearched, EachLastWordIsLookedUpByRight, EachWordIsLookedUpByRight, FileWaysAreSearched, NewLeafWaysAreSearched, NewNameWaysAreSearched, ObjectWaysAreSearched, OldLeafWaysAreSearched, OldNameWaysAreSearched, PlaceWaysAreSearched, RenamedWaysAreSearched, SourceWaysAreSearched, SymlinkWaysAreSearched, WaysAreOne};

/// A walk to one of `objects`, `directories`, `sources` or `destinations` that is not refused went the way of its path.
/// It passed only directories that the task, and on an overlay its mounter, may search.
///
/// A walk to `destinations` then goes on to the topmost mount. A word is looked up in such a directory, or the walk is
/// refused (`words`). So is the last word, if a call takes the name itself (`last_words`). Words have `one` way at
/// most.
pub fn each_directory_on_the_way_is_searched()
    ensures words { EachWordIsLookedUpByRight }
    ensures last_words { EachLastWordIsLookedUpByRight }
    ensures objects { ObjectWaysAreSearched }
    ensures directories { DirectoryWaysAreSearched }
    ensures sources { SourceWaysAreSearched }
    ensures destinations { DestinationWaysAreSearched }
    ensures one { WaysAreOne }
{}

/// The same holds of a walk that follows no final symlink (`symlinks`), of walks to names (`places`, `new_names`,
/// `new_leaves`, `old_names`, `old_leaves`, `renamed`), and of those to `files` opened or made.
///
/// The names are made, moved, replaced or removed. The last word is looked up in such a directory, too. A walk to
/// `files` goes through texts of final symlinks.
pub fn each_directory_on_the_way_to_a_name_is_searched()
    ensures symlinks { SymlinkWaysAreSearched }
    ensures places { PlaceWaysAreSearched }
    ensures new_names { NewNameWaysAreSearched }
    ensures new_leaves { NewLeafWaysAreSearched }
    ensures old_names { OldNameWaysAreSearched }
    ensures old_leaves { OldLeafWaysAreSearched }
    ensures renamed { RenamedWaysAreSearched }
    ensures files { FileWaysAreSearched }
{}
