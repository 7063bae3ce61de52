//! Uses of nodes without a name in a store, which are the locations on them: open(2), close(2), umount(2).
ghost use Rattle.vt_kept_nodes.specs.Counted.{PinsAreCounted, UnpinsAreCounted};
ghost use Rattle.vt_kept_nodes.specs.Left.{LeavingGoesOn, PinsLeaveOverlays, UnpinsLeaveOverlays};

/// The overlays of a store count the locations on their nodes without a name, if they did, where one location comes and its
/// node is pinned (`pins`), and where one goes and its node is unpinned (`unpins`).
///
/// So an event's pins and unpins are counted in turn, with any counts between.
pub fn locations_are_counted_in_turn()
    ensures pins { PinsAreCounted }
    ensures unpins { UnpinsAreCounted }
{}

/// A pin (`pins`) and an unpin (`unpins`) leave overlays with their layers, and forget nodes at the most. So it goes on
/// (`on`).
pub fn overlays_are_left_in_turn()
    ensures pins { PinsLeaveOverlays }
    ensures unpins { UnpinsLeaveOverlays }
    ensures on { LeavingGoesOn }
{}
