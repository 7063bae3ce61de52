//! Calls of members that make and take names through overlays.
ghost use Rattle.vt_laws_members.specs.OverlayNames.OverlayNames.{AllOpaquesEndAlike, AllWhiteoutsEndAlike, OverlayLinksEndAlike, OverlayMkdirsEndAlike, OverlayNewFilesEndAlike, OverlayNewOpensEndAlike, OverlayRenamesEndAlike, OverlayRmdirsEndAlike, OverlaySymlinksEndAlike, OverlayUnlinksEndAlike};

/// Each `opaque` ends alike, and each `whiteout` does by one supply.
pub fn calls_of_theirs_that_hide_lower_layers_end_alike()
    ensures opaque { AllOpaquesEndAlike }
    ensures whiteout { AllWhiteoutsEndAlike }
{}

/// Through an overlay, each granted `mkdir`, `symlink`, `link`, and `write` or `open` that makes the file ends alike by
/// one supply.
pub fn calls_of_theirs_that_make_names_through_overlays_end_alike()
    ensures mkdir { OverlayMkdirsEndAlike }
    ensures symlink { OverlaySymlinksEndAlike }
    ensures write { OverlayNewFilesEndAlike }
    ensures open { OverlayNewOpensEndAlike }
    ensures link { OverlayLinksEndAlike }
{}

/// Through an overlay, each granted `unlink`, `rmdir` and `rename` ends alike by one supply, whatever mounts stand on
/// what goes.
///
/// Of a `rename` of two names of one object this says nothing.
pub fn calls_of_theirs_that_take_names_through_overlays_end_alike()
    ensures unlink { OverlayUnlinksEndAlike }
    ensures rmdir { OverlayRmdirsEndAlike }
    ensures rename { OverlayRenamesEndAlike }
{}
