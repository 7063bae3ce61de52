//! Calls of members that change files.
ghost use Rattle.vt_laws_members.specs.Changes.Changes.{ChmodsEndAlike, ChownsEndAlike, OpaquesEndAlike, PartWritesEndAlike, WritesEndAlike};

/// On a plain filesystem, each granted `write` to an existing file, `chmod`, `chown`, `opaque`, and `pwrite` of one
/// byte or more ends alike.
pub fn calls_of_theirs_that_edit_files_end_alike()
    ensures write { WritesEndAlike }
    ensures chmod { ChmodsEndAlike }
    ensures chown { ChownsEndAlike }
    ensures opaque { OpaquesEndAlike }
    ensures pwrite { PartWritesEndAlike }
{}
