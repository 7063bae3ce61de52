//! What lies in a layer of a live overlay is changed by that overlay alone, in its upper layer. Calls are on files,
//! granted or refused, by a task of a world with all invariants.
ghost use Rattle.vt_laws_trees.specs.Layers.Layers.Locked.{CallsGoThroughOne, LowerLayersAreLocked, LowerPathsAreLocked, OtherPathsStay, UpperObjectsCount};

/// What lies or counts under a lower layer of a live overlay is kept, if not handed in (`calls`). So is what does under
/// upper and work directories of overlays that the call does not go through (`others`).
///
/// A call goes through one filesystem at most, and leaves all but that and the one of its upper layer. Upper `objects`,
/// with or without a name, count under the upper directory. From a lower layer's directory each path leads where it
/// led, to what is kept, if no inode of that filesystem is handed in (`paths`). The same is so from upper and work
/// directories of overlays that the call does not go through (`other_paths`).
pub fn lower_layers_are_locked()
    ensures calls { LowerLayersAreLocked }
    ensures others { CallsGoThroughOne }
    ensures objects { UpperObjectsCount }
    ensures paths { LowerPathsAreLocked }
    ensures other_paths { OtherPathsStay }
{}
