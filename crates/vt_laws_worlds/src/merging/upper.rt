//! What a change of a whole overlay (`IsWhole`) makes of its upper layer. New numbers are different, and no inode's of
//! that tree. A *place* is a path, or the real object of an object without a name.
ghost use Rattle.vt_laws_worlds.specs.Merging.UpperChanges.{AttrIsSetAbove, BytesAreSetAbove, CopiesAreOfFronts, CopiesHideNothing, FrontsHaveTheirCopies, FrontsLeadToCopies};
ghost use Rattle.vt_laws_worlds.specs.Merging.UpperChanges.{HeldHaveTheirCopies, LinkedAbove, MadeAbove, MarkIsSetAbove, MovedAbove, OpenedIsCopied, RemovedAbove};
ghost use Rattle.vt_laws_worlds.specs.Merging.BelowChanges.{BelowEnds, BelowNames, BelowNew, BelowStays};
ghost use Rattle.vt_laws_worlds.specs.Merging.UpperCalls.{AskedChangesHavePlaces, ChangesAreByLayers, UpperLayersAfterCalls, UpperLayersAfterWholeCalls};

/// The copy of what a path leads to copies what is shown at each prefix where the upper layer has nothing (`copies`).
/// Each prefix then leads to what it led to, or to its copy (`lead`).
///
/// A copy has the new number for its prefix's length. Every other path leads where it led. An object without a name is
/// copied alone. Inodes at prefixes have what these lead to for real objects, all others keep theirs (`real`; `held`
/// without a name).
///
/// What lower layers show at a name of a directory, and whether it is a directory, stays (`below`).
pub fn copies_are_of_prefixes()
    ensures copies { CopiesAreOfFronts }
    ensures lead { FrontsLeadToCopies }
    ensures real { FrontsHaveTheirCopies }
    ensures held { HeldHaveTheirCopies }
    ensures below { CopiesHideNothing }
{}

/// Layers and places say what a change of existing objects, at places, makes of the upper layer's tree. Directories of
/// names are at paths, and what moves may move (`MayMove`).
///
/// The change sets `bytes`, owner and mode (`attr`) or the `mark`, copies for an `open` (`opened`), or something is
/// `made`, `linked`, `removed` or `moved`.
///
/// What is made or moved is marked opaque where lower layers show a directory before the change. A name that is removed
/// or left gets a whiteout where they show something. A directory that is removed or replaced loses its whiteouts.
pub fn changes_of_the_upper_layer_are_by_layers()
    ensures bytes { BytesAreSetAbove }
    ensures attr { AttrIsSetAbove }
    ensures mark { MarkIsSetAbove }
    ensures opened { OpenedIsCopied }
    ensures made { MadeAbove }
    ensures linked { LinkedAbove }
    ensures removed { RemovedAbove }
    ensures moved { MovedAbove }
{}

/// One function (`changed_above`) says what any change at places (`Asks`) makes of the upper layer (`changes`), also by
/// a permit (`calls`) or a granted call (`whole`), before the sweep.
///
/// A change that is asked well (`IsAskedWell`) is at some `places`.
pub fn calls_change_the_upper_layer_by_layers()
    ensures changes { ChangesAreByLayers }
    ensures places { AskedChangesHavePlaces }
    ensures calls { UpperLayersAfterCalls }
    ensures whole { UpperLayersAfterWholeCalls }
{}

/// A change at places that is asked well leaves what lower layers show (`stays`), but at paths that go on from a
/// removed name or either name of a move.
///
/// The upper layer is left out at the path. Whether lower layers show a directory there stays, too. At these `names`
/// both stay; at paths that go on from them lower layers show nothing afterwards (`ends`).
///
/// At paths that go on from a `new` name, of a new or linked object, they show nothing before and afterwards.
pub fn changes_leave_what_is_below()
    ensures stays { BelowStays }
    ensures names { BelowNames }
    ensures ends { BelowEnds }
    ensures new { BelowNew }
{}
