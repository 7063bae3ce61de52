//! Calls of members on files.
ghost use Rattle.vt_laws_members.specs.OverlayNames.EachCalls.{EachChmodEndsAlike, EachChownEndsAlike, EachLinkEndsAlike, EachMkdirEndsAlike, EachOpenEndsAlike, EachPartWriteEndsAlike, EachSymlinkEndsAlike, EachUnlinkEndsAlike, EachWriteEndsAlike};

/// Each `write`, `mkdir`, `symlink`, `link`, `unlink`, `chmod`, `chown`, `open` and `pwrite` ends alike by one supply.
pub fn each_call_of_theirs_on_files_ends_alike()
    ensures write { EachWriteEndsAlike }
    ensures mkdir { EachMkdirEndsAlike }
    ensures symlink { EachSymlinkEndsAlike }
    ensures link { EachLinkEndsAlike }
    ensures unlink { EachUnlinkEndsAlike }
    ensures chmod { EachChmodEndsAlike }
    ensures chown { EachChownEndsAlike }
    ensures open { EachOpenEndsAlike }
    ensures pwrite { EachPartWriteEndsAlike }
{}
