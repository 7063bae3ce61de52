//! Every call of members.
ghost use Rattle.vt_laws_members.specs.EachCall.EachCall.{EachCallEndsAlike};

/// Each call, any of the 39, ends alike by one supply (`each`).
pub fn each_call_of_theirs_ends_alike()
    ensures each { EachCallEndsAlike }
{}
