//! Worlds that are the same have the same invariants and numbers.
ghost use Rattle.vt_laws_worlds.specs.Permits.Same.{SameWorldsAreUnderWay, SameWorldsAreWorlds, SameWorldsKeepToNumbers};

/// If one of two worlds that are the same is plain and has all invariants, so is the other (`worlds`), also
/// `under_way`. With any invariants, both keep to the same `numbers`.
pub fn same_worlds_are_worlds()
    ensures worlds { SameWorldsAreWorlds }
    ensures under_way { SameWorldsAreUnderWay }
    ensures numbers { SameWorldsKeepToNumbers }
{}
