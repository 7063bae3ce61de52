//! Calls of members that edit files through overlays.
ghost use Rattle.vt_laws_members.specs.Changes.OverlayEdits.{OverlayChmodsEndAlike, OverlayChownsEndAlike, OverlayOpensEndAlike, OverlayPartWritesEndAlike, OverlayWritesEndAlike};

/// Through an overlay, each granted `write` to an existing file, `chmod`, `chown`, `pwrite` of one byte or more, and
/// `open` that copies up the file ends alike by one supply.
pub fn calls_of_theirs_that_edit_files_through_overlays_end_alike()
    ensures write { OverlayWritesEndAlike }
    ensures chmod { OverlayChmodsEndAlike }
    ensures chown { OverlayChownsEndAlike }
    ensures pwrite { OverlayPartWritesEndAlike }
    ensures open { OverlayOpensEndAlike }
{}
