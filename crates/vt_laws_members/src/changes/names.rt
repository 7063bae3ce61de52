//! Calls of members that make and take names.
ghost use Rattle.vt_laws_members.specs.Changes.NameChanges.{LinksEndAlike, MkdirsEndAlike, NewFilesEndAlike, NewOpensEndAlike, SymlinksEndAlike, UnlinksEndAlike, WhiteoutsEndAlike};

/// On a plain filesystem, each granted `mkdir`, `symlink`, `whiteout`, and `write` or `open` that makes the file ends
/// alike by one supply. Each granted `link` there ends alike.
pub fn calls_of_theirs_that_make_names_end_alike()
    ensures mkdir { MkdirsEndAlike }
    ensures symlink { SymlinksEndAlike }
    ensures whiteout { WhiteoutsEndAlike }
    ensures write { NewFilesEndAlike }
    ensures open { NewOpensEndAlike }
    ensures link { LinksEndAlike }
{}

/// Each granted `unlink` on a plain filesystem ends alike.
pub fn calls_of_theirs_that_take_names_end_alike()
    ensures unlink { UnlinksEndAlike }
{}
