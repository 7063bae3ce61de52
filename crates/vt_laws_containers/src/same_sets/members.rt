//! The world has all invariants, and the set need not be sealed off.
ghost use Rattle.vt_laws_containers.specs.SameSets.Members.{CallsEndAlikeInSameWorlds};

/// A call that ends alike in a world and in the part of a set has that answer in each world that is the same, and
/// leaves the same part.
///
/// The call is handed the same numbers. Each world that is the same as the one left there has the same part, of the set
/// that the call leaves, as what it leaves in the part.
pub fn calls_of_theirs_end_alike_in_same_worlds()
    ensures { CallsEndAlikeInSameWorlds }
{}
