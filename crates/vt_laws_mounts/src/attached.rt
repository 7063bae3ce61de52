//! What attached mounts keep.
ghost use Rattle.vt_laws_mounts.specs.Mounts.Attached.{BindsKeepGroups, BindsKeepNowhere, MovesKeepGroups, MovesKeepNowhere, NewMountsKeepGroups, NewMountsKeepNowhere};

/// To a destination in a namespace, a `bind`, a `new_mount` and a move (`moves`) keep mounts nowhere outside.
pub fn attaching_keeps_mounts_nowhere()
    ensures bind { BindsKeepNowhere }
    ensures new_mount { NewMountsKeepNowhere }
    ensures moves { MovesKeepNowhere }
{}

/// By new numbers, a `bind`, a `new_mount` and a move (`moves`) of an existing mount keep groups living. For bind and
/// move mounts are numbered and standing.
pub fn attaching_keeps_groups_living()
    ensures bind { BindsKeepGroups }
    ensures new_mount { NewMountsKeepGroups }
    ensures moves { MovesKeepGroups }
{}
