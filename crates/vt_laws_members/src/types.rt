//! Calls of members that change propagation types.
ghost use Rattle.vt_laws_members.specs.Types.TypeChanges.{OtherTypesEndAlike, TypesEndAlike};

/// Each `type`, to any type, of one mount or of a tree, ends alike by one supply (`types`). To slave, private or
/// unbindable, it does by any numbers unused in the world of their run (`other_types`).
pub fn calls_of_theirs_that_change_types_end_alike()
    ensures types { TypesEndAlike }
    ensures other_types { OtherTypesEndAlike }
{}
