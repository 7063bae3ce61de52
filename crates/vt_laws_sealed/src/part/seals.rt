//! By what a set of tasks is sealed off. Worlds have all invariants.
ghost use Rattle.vt_laws_sealed.specs.Part.Seals.{FewerFootholdsSealToo, SealedIsByPartAndFootholds, TheirOverlaysAreInThePart};

/// By the first three conditions of `sealed`, a set is sealed off just if each filesystem used in its part is locked
/// whole or has no foothold of others (`by_part`).
///
/// These conditions are `holds_all_tasks`, `shares_no_events` and `no_outsider_on_mounts` (`IsApart`). A filesystem is
/// locked whole if its root is a lower layer of an overlay of the part without such a foothold, and each other inode
/// has a name.
///
/// Each overlay on which others have no foothold is in the part (`overlays`).
///
/// By these conditions, the set is sealed off if it is in a second world with the same part (`fewer`). Others have a
/// foothold there on each filesystem of the set on which they have one here.
pub fn sealed_is_decided_by_part_and_footholds()
    ensures by_part { SealedIsByPartAndFootholds }
    ensures overlays { TheirOverlaysAreInThePart }
    ensures fewer { FewerFootholdsSealToo }
{}
