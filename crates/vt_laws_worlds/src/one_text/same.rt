//! Worlds that are the same have the same invariants and numbers.
ghost use Rattle.vt_laws_worlds.specs.OneText.Same.{AnySameWorldsAreUnderWay, AnySameWorldsAreWorlds, AnySameWorldsKeepToNumbers};

/// If one of two worlds that are the same has all invariants, so has the other (`worlds`), also `under_way`. With any
/// invariants both keep to the same `numbers`.
pub fn any_same_worlds_are_worlds()
    ensures worlds { AnySameWorldsAreWorlds }
    ensures under_way { AnySameWorldsAreUnderWay }
    ensures numbers { AnySameWorldsKeepToNumbers }
{}
