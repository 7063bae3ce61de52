//! Counts in worlds with overlays.
ghost use Rattle.vt_laws_mounts.specs.Counts.BesideOverlays.{CountedChangesAreSweptOf, CountsFollowChangesOf, IsChangeInUse, NamesKeepAllOf, OnlyFilesChangeOf, OtherCountsStayOf, WorldsAreInUse};
ghost use Rattle.vt_laws_mounts.specs.Counts.BesideOverlays.{AnySameWorldsCountAlike, CountedChangesAreSweptBesideOverlays, CountsFollowChangesBesideOverlays, NamesKeepAllBesideOverlays, NewTreeIsCountedBesideOverlays, NoUpperIsInAny, OnlyFilesChangeBesideOverlays, OtherCountsStayBesideOverlays, OverlaysAreUses, OverlaysTakeTheirUses, PlainOnesUseNothing, UsesAreExchangedBesideOverlays, UsesAreSweptBesideOverlays};
ghost use Rattle.vt_laws_mounts.specs.Counts.Rows.{CountedRowsAreSwept, CountsFollowRows, OnlyFilesChangeInRows, OtherCountsStayInRows};
ghost use Rattle.vt_laws_mounts.specs.Counts.OverlaysStay.{AllLayersAreMounted, FilesystemGoesAtZeroBesideOverlays, LayersLeftAreMounted, LivesWhileCounted, LivesWhileMounted, NamedOverlayStays, NamedOverlaysStay, OverlaysAreMounted, OverlaysAreNoLayers, OverlaysUseFilesystems};

/// `uses_are_exchanged` (`one_by_one`, `swept`) holds with overlays, none of which has its upper layer in the
/// filesystem afterwards. If no overlay has an upper layer, none has one in any (`none`).
pub fn uses_are_exchanged_beside_overlays()
    ensures one_by_one { UsesAreExchangedBesideOverlays }
    ensures swept { UsesAreSweptBesideOverlays }
    ensures none { NoUpperIsInAny }
{}

/// If mounts and locations stay, overlays that come and go exchange the directories of their layers and their upper
/// objects in a filesystem that stays (`lists`, `test`). If `plain` filesystems alone come and go, nothing is
/// exchanged.
///
/// The overlays of `test` are those that a test takes away.
pub fn overlays_are_uses()
    ensures lists { OverlaysAreUses }
    ensures test { OverlaysTakeTheirUses }
    ensures plain { PlainOnesUseNothing }
{}

/// Overlays that come and go are as many layers more and less in the counts of layers (`layers`). If just the mounted
/// ones are left, the count is that of layers of mounted ones before (`left`).
pub fn overlays_count_as_layers()
    ensures layers { OverlaysUseFilesystems }
    ensures left { LayersLeftAreMounted }
{}

/// `changes_are_counted` (`only`, `counts`, `others`, `named`) and `counted_inodes_are_the_world` (`world`) hold of a
/// plain filesystem in any world in which all is in use, and filesystems are trees with numbers of their own
/// (`IsChangeInUse`).
pub fn changes_in_use_are_counted()
    ensures only { OnlyFilesChangeOf IsChangeInUse }
    ensures counts { CountsFollowChangesOf IsChangeInUse }
    ensures others { OtherCountsStayOf IsChangeInUse }
    ensures named { NamesKeepAllOf IsChangeInUse }
    ensures world { CountedChangesAreSweptOf IsChangeInUse }
{}

/// So they hold in any world with all invariants (`IsChangeOfPlain`), which is one of those (`in_use`).
pub fn changes_beside_overlays_are_counted()
    ensures in_use { WorldsAreInUse }
    ensures only { OnlyFilesChangeBesideOverlays }
    ensures counts { CountsFollowChangesBesideOverlays }
    ensures others { OtherCountsStayBesideOverlays }
    ensures named { NamesKeepAllBesideOverlays }
    ensures world { CountedChangesAreSweptBesideOverlays }
{}

/// `changes_in_use_are_counted` holds of a row of changes that is swept once, after the last of them (`only`, `counts`,
/// `others`, `world`). Each fits the counted inodes in its turn, and a new inode's number is new in the tree, in which
/// what lost its last name still is.
pub fn rows_are_counted()
    ensures only { OnlyFilesChangeInRows }
    ensures counts { CountsFollowRows }
    ensures others { OtherCountsStayInRows }
    ensures world { CountedRowsAreSwept }
{}

/// `same_worlds_count_alike` holds with overlays.
pub fn any_same_worlds_count_alike()
    ensures { AnySameWorldsCountAlike }
{}

/// `shown` of `a_new_tree_is_counted` holds with overlays, none of which has a layer in that tree.
pub fn a_new_tree_is_counted_beside_overlays()
    ensures { NewTreeIsCountedBesideOverlays }
{}

/// A filesystem lives just while mounts show it or mounted overlays have layers in it (`lives`); a look frees it if
/// both counts are zero (`goes`). Without layers in it, mounts alone count (`mounted`).
pub fn filesystems_live_while_counted()
    ensures lives { LivesWhileCounted }
    ensures goes { FilesystemGoesAtZeroBesideOverlays }
    ensures mounted { LivesWhileMounted }
{}

/// In a world with all invariants no overlay has a layer in another (`no_layers`), each is `mounted`, and all layers
/// are of mounted ones (`all`).
pub fn overlays_of_worlds_are_mounted()
    ensures no_layers { OverlaysAreNoLayers }
    ensures mounted { OverlaysAreMounted }
    ensures all { AllLayersAreMounted }
{}

/// If each inode of each overlay is the root or has a name, the sweep frees unused overlays alone. It leaves the others
/// as they are, in order (`all`), and each by its number (`one`).
pub fn overlays_whose_inodes_have_names_stay()
    ensures all { NamedOverlaysStay }
    ensures one { NamedOverlayStays }
{}
