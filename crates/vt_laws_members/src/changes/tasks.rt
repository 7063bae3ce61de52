//! Calls of members that change tasks alone and let nothing go.
ghost use Rattle.vt_laws_members.specs.Changes.Changes.{DropsEndAlike, EmptyWritesEndAlike, ForksEndAlike, OpensEndAlike, RenamesOfOneEndAlike, UmasksEndAlike};

/// Each `umask` and `drop` ends alike, and each granted `fork`, `open` that makes and copies up nothing, `rename` of
/// one object's names (`rename_of_one`) and `pwrite` of no bytes (`empty_write`).
pub fn calls_of_theirs_that_let_nothing_go_end_alike()
    ensures umask { UmasksEndAlike }
    ensures drop { DropsEndAlike }
    ensures open { OpensEndAlike }
    ensures fork { ForksEndAlike }
    ensures rename_of_one { RenamesOfOneEndAlike }
    ensures empty_write { EmptyWritesEndAlike }
{}
