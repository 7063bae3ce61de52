//! Room for the mounts that a call attaches. Numbers handed in are any, and a `bind` is in any world.
ghost use Rattle.vt_laws_later_calls.specs.Limits.Made.{GrantedCallsMakeFew, NamespacesHaveTasks};
ghost use Rattle.vt_laws_later_calls.specs.Limits.Room.{BindNeedsRoom, BindsAskForRoom, MoveNeedsRoom, MovesAskForRoom, NewMountNeedsRoom, NewMountsAskForRoom, OverlaysAskForRoom};

/// M9 fails for a `new_mount`, `overlay` or `bind`, or a move of an existing mount (`moves`), just if some namespace is
/// over the limit with the mounts added there (`lacks_room`).
///
/// For each part in the namespace a new mount adds one, a `bind` as many as it copies. A move adds its tree for each
/// part, less those of the tree that are there already.
pub fn full_namespaces_are_counted()
    ensures new_mount { NewMountsAskForRoom }
    ensures overlay { OverlaysAskForRoom }
    ensures bind { BindsAskForRoom }
    ensures moves { MovesAskForRoom }
{}

/// If walks succeed and no other rule fails, a `new_mount`, `bind` or move (`moves`) of an existing task with
/// CAP_SYS_ADMIN is granted if namespaces have room, else refused by M9.
///
/// The other rules are those of the last table. If M9 refuses, the world stays. Of `mount overlay` this says nothing.
pub fn a_full_namespace_refuses_attachments()
    ensures new_mount { NewMountNeedsRoom }
    ensures bind { BindNeedsRoom }
    ensures moves { MoveNeedsRoom }
{}

/// What a granted call makes, moves, gives a type or copies is at most 4,096 mounts for each namespace (`granted`). There
/// are no more namespaces than tasks (`namespaces`).
///
/// So a script makes mounts no faster than by the square of its lines.
pub fn granted_calls_make_few_mounts()
    ensures granted { GrantedCallsMakeFew }
    ensures namespaces { NamespacesHaveTasks }
{}
