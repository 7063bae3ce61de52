//! The answers to the calls of a sealed set over scripts.
//!
//! From some line of a script on, the world has all invariants, the set is sealed off, and each of its names is the
//! name of a task. The world has no number that is handed to this or a later line (`IsSealedOffAt`). Each line is
//! handed its row of `numbers_for`; no allocation fails.
//!
//! The set changes with each of its calls (`grown`). If its calls are made alone, it is sealed off after each. With the
//! calls of others, no `setns` of the set enters a namespace of others, and none of others one of theirs
//! (`StaysSealed`).
ghost use Rattle.vt_laws_containers.specs.Scripts.{SealedSetsStandSo};
ghost use Rattle.vt_laws_containers.specs.SealedScripts.AsIfAlone.{SealedSetsAreAnsweredAsIfAlone};

/// The calls of the set have the answers that they have without the calls of others (`as_if_alone`).
///
/// After any lines of a script, `IsSealedOffAt` holds of a set that is sealed off, if each of its names is the name of
/// a task (`after_lines`).
pub fn sealed_sets_are_answered_as_if_alone()
    ensures as_if_alone { SealedSetsAreAnsweredAsIfAlone }
    ensures after_lines { SealedSetsStandSo }
{}
