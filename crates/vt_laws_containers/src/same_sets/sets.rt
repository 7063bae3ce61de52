//! Worlds that are the same have the same sealed sets.
ghost use Rattle.vt_laws_containers.specs.SameSets.Sets.{SameWorldsAreSealedAlike, SameWorldsGiveFootholdsAlike, SameWorldsHaveSameParts};

/// In any two worlds that are the same, a set is `sealed` off in both or neither, others have the same `footholds`, and
/// its `parts` are the same.
pub fn same_worlds_have_same_sealed_sets()
    ensures sealed { SameWorldsAreSealedAlike }
    ensures footholds { SameWorldsGiveFootholdsAlike }
    ensures parts { SameWorldsHaveSameParts }
{}
