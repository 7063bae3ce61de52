//! Counts of uses beside upper layers. A world is *lowered* if its overlays have their upper and work directories, and
//! what they *pin* in their upper layers, among the lower layers (`lowered`).
//!
//! Upper objects are pinned (`ArePinned`) if each, unless something else uses it, is a pin, and each pin is one of
//! them. So counts beside upper layers are counts beside read-only overlays.
ghost use Rattle.vt_laws_upper_layers.specs.Lowered.{FilesystemsGoAlike, FilesystemsUseTheSame, InodesGoAlike, InodesUseTheSame, LoweredHaveNoUpper, MountsGoAlike, PinsAreExchanged, PinsAreUses, ReadOnlyWorldsStay, SweptAlike};
ghost use Rattle.vt_laws_upper_layers.specs.UnnamedPins.{LoweredAreInUse, UnnamedAreSweptAlike, UnnamedArePinned};

/// A lowered world has no upper layer (`none`). In any world, its overlays have layers in the same `filesystems` if
/// they pin only where they have layers. If upper objects are pinned, the same `inodes` are in use.
pub fn lowered_worlds_use_the_same()
    ensures none { LoweredHaveNoUpper }
    ensures filesystems { FilesystemsUseTheSame }
    ensures inodes { InodesUseTheSame }
{}

/// From a lowered world `mounts` that nothing uses go as from the world; so do `filesystems`, if overlays pin only
/// where they have layers, and `inodes`, if upper objects are pinned. So the sweep leaves the lowered world of what it
/// leaves (`whole`).
///
/// Upper objects in plain trees are those of inodes that the sweep of overlays leaves.
pub fn lowered_worlds_are_swept_alike()
    ensures mounts { MountsGoAlike }
    ensures filesystems { FilesystemsGoAlike }
    ensures inodes { InodesGoAlike }
    ensures whole { SweptAlike }
{}

/// A pin is one more use of its inode (`one`). Pins that come and go exchange uses in a plain filesystem
/// (`exchanged`). A world of read-only overlays that pin nothing is itself lowered (`read_only`).
pub fn pins_are_uses()
    ensures one { PinsAreUses }
    ensures exchanged { PinsAreExchanged }
    ensures read_only { ReadOnlyWorldsStay }
{}

/// In a world with all invariants, upper objects are pinned if overlays pin those of their inodes without a name
/// (`unnamed`), and these pin only where they have layers. If upper objects are pinned and all is in use, all is in use
/// in the lowered world (`in_use`).
///
/// A world under way that has the invariants of overlays, and pins what has no name after the sweep, is swept to the
/// lowered world of what the sweep leaves (`swept`).
pub fn what_has_no_name_is_pinned()
    ensures unnamed { UnnamedArePinned }
    ensures in_use { LoweredAreInUse }
    ensures swept { UnnamedAreSweptAlike }
{}
