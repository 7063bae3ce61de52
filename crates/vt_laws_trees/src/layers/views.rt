//! What a change of a plain tree is on the view of a layer in it: the inode to which each path leads, and each inode. A
//! name is *taken over* (`TakesName`) if it is free, or of what has no names in it.
ghost use Rattle.vt_laws_trees.specs.Layers.Layers.ShownAfter.{LinkIsShown, MovedShowsBelow, NewNameIsShown, RemovedShowsBelow};
ghost use Rattle.vt_laws_trees.specs.Layers.Layers.ShownAfter.{ShownByFronts, ShownElsewhereStays};
ghost use Rattle.vt_laws_trees.specs.Layers.Layers.Views.{AddNameAddsPath, AddNameIsSeen, AttrChangesOneInode, BytesChangeOneInode};
ghost use Rattle.vt_laws_trees.specs.Layers.Layers.Views.{ElsewhereKeepsView, MakeAddsInode, MakeAddsPath, MakeEndsPaths, MakeIsSeen};
ghost use Rattle.vt_laws_trees.specs.Layers.Layers.Views.{MarkChangesOneInode, MovedLeadsOn, NamesLeaveInodes, NewLeadsAsOld};
ghost use Rattle.vt_laws_trees.specs.Layers.Layers.Views.{OldLeadsNowhere, RemoveEndsPaths, RemoveIsSeen, RemoveTakesPath, ShownByViews};
ghost use Rattle.vt_laws_trees.specs.Layers.Layers.Views.{ThroughIsSplit};

/// A new object without names in it, by a new number, takes over a name: it adds the one path that ends in that entry
/// (`made`). A further name of a non-directory does the same (`linked`, `linked_seen`).
///
/// Others lead where they led. The new `inode` is as asked for, others are alike, in a tree at their paths, too
/// (`made_seen`). If what had the name has names in it, none back to the directory, paths through it lead nowhere
/// (`over`).
pub fn new_names_add_a_path()
    ensures made { MakeAddsPath }
    ensures inode { MakeAddsInode }
    ensures made_seen { MakeIsSeen }
    ensures over { MakeEndsPaths }
    ensures linked { AddNameAddsPath }
    ensures linked_seen { AddNameIsSeen }
{}

/// If a name is taken from an object without names in it, the one path that ends in it leads nowhere (`removed`).
/// Others lead where they led, to what is alike (`seen`).
///
/// Whatever had the name, just the paths through it lead nowhere (`under`).
pub fn removed_names_take_a_path()
    ensures removed { RemoveTakesPath }
    ensures seen { RemoveIsSeen }
    ensures under { RemoveEndsPaths }
{}

/// In a tree, an object takes over a name of a directory not under it: that name leads where the old one led (`on`,
/// `as_old`). `others` through the old name lead nowhere, the rest where they led.
///
/// What follows the new name leads where the object led by it (`on`). A path through a name is a way to its directory,
/// the name, and a rest (`split`). `others` and `split` ask for no tree.
pub fn moves_take_all_along()
    ensures on { MovedLeadsOn }
    ensures as_old { NewLeadsAsOld }
    ensures others { OldLeadsNowhere }
    ensures split { ThroughIsSplit }
{}

/// `bytes`, attributes (`attr`) and a `mark` move no path and change one inode; changes of `names` alone leave inodes
/// alike. In a tree, a change of inodes to which no path leads leaves the view alike (`elsewhere`).
///
/// What `elsewhere` makes has a new number.
pub fn views_change_there_alone()
    ensures bytes { BytesChangeOneInode }
    ensures attr { AttrChangesOneInode }
    ensures mark { MarkChangesOneInode }
    ensures names { NamesLeaveInodes }
    ensures elsewhere { ElsewhereKeepsView }
{}

/// Layers whose views lead alike, to alike inodes, show the same object of the same layer `everywhere`. They do
/// `at_a_path`, if they lead there to one number of one kind, and at prefixes to one kind and mark.
pub fn views_say_what_is_shown()
    ensures everywhere { ShownByViews }
    ensures at_a_path { ShownByFronts }
{}

/// In a tree, a change of the upper layer whose new names are taken over (`IsPlainChange`) leaves what is shown
/// `elsewhere`. That is at paths not through its names, nor to or through a directory whose mark it sets.
///
/// What is made has a new number and no names in it, what is linked is no directory, and what moves goes to no
/// directory under it. At a new name the new object is shown (`made`), or the `linked` one, unless a whiteout. At a
/// name `removed` or `left` is shown what would be if the upper layer had nothing there.
pub fn changes_of_the_upper_layer_show_there_alone()
    ensures elsewhere { ShownElsewhereStays }
    ensures made { NewNameIsShown }
    ensures linked { LinkIsShown }
    ensures removed { RemovedShowsBelow }
    ensures left { MovedShowsBelow }
{}
