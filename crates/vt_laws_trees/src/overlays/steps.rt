//! The steps of a change.
ghost use Rattle.vt_laws_trees.specs.Overlays.WhatIsShown.{AttrKeepsWhole, BytesKeepWhole, CopiesKeepWhole, CopyKeepsWhole};
ghost use Rattle.vt_laws_trees.specs.Overlays.WhatIsShown.{LinkKeepsShown, MakeKeepsShown, MarkKeepsWhole, MarkOfTheTreeIsNotShown, MoveKeepsShown, RemoveKeepsShown};

/// By new numbers, a whole overlay stays whole in the steps `bytes`, `attr`, `mark`, `copy` and `copies`. It shows its
/// layers after `made`, `linked`, `removed` and `moved`, and not with a mark in its own tree (`tree_mark`).
///
/// - `bytes`, `attr`: bytes, or owner and mode, of what stands in the upper layer are set.
/// - `mark`: a directory's mark is set or taken in the upper layer, where no lower layer that is not cut has a
///   directory.
/// - `copy`, `copies`: what lies only below is copied up, under its name in a directory of the upper layer or none; or
///   with the directories above it.
/// - `made`: a new object, no whiteout (O4), gets a free name, with an opaque mark over a lower directory.
/// - `linked`: a non-directory gets a further name.
/// - `removed`: an object without names in it loses a name, with a whiteout over what lower layers show.
/// - `moved`: an object moves as the rules of `rename` let pass, a directory by O1.
///
/// Directories of the last four, and what is linked or moved, stand in the upper layer.
pub fn steps_keep_what_is_shown()
    ensures bytes { BytesKeepWhole }
    ensures attr { AttrKeepsWhole }
    ensures mark { MarkKeepsWhole }
    ensures tree_mark { MarkOfTheTreeIsNotShown }
    ensures copy { CopyKeepsWhole }
    ensures copies { CopiesKeepWhole }
    ensures made { MakeKeepsShown }
    ensures linked { LinkKeepsShown }
    ensures removed { RemoveKeepsShown }
    ensures moved { MoveKeepsShown }
{}
