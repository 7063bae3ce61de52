//! What a script writes for the calls of a sealed set, as `run_as` has it.
ghost use Rattle.vt_containers.specs.Scripts.{SealedSetsAreToldAsIfAlone, TextsAreWrittenByLines};

/// While a set stays sealed off, what a script writes for its calls is what it writes where each line with a call of
/// others is made empty (`alone`).
///
/// If no allocation fails, the text of a script is what its lines write, one after the other (`lines`). From a line on
/// where the set is sealed off (`IsSealedOffAt`), the second script has an empty line for each call of others. The set
/// grows by the children of its tasks, and is sealed off after each of its calls, if these are made alone; no `setns`
/// changes sides (`StaysSealed`).
pub fn sealed_sets_are_told_as_if_alone()
    ensures lines { TextsAreWrittenByLines }
    ensures alone { SealedSetsAreToldAsIfAlone }
{}
