//! The set need not be sealed off, and calls under way hold what their tasks see (`HasCallsUnderWay`).
ghost use Rattle.vt_laws_containers.specs.SealedTurns.MembersTurns.{OutsidersOvertakeNoCallOfTheirs, TheirAnswersAreOfTheGrownPart, TheirAnswersAreOfTheirPart, TheirCallsAreOvertakenAlike, TheirExitsAreOfTheGrownPart, TheirForksAreOfTheGrownPart, TheirRefusalsAreOfTheirPart, TheirTurnsAnswerAlike, TheirWordsAreOfTheirPart};

/// A turn of a task of the set has a reply just if it has one where the state is its part (`answers`). If its call ends
/// alike, the reply and the part left are the same (`grown`).
///
/// A call under way of an existing task of the set is overtaken in the world just if it is in the part (`overtaken`). A
/// turn without a reply leaves the same part of the state as there (`words`).
///
/// For `grown`, numbers are handed in, by which the call ends alike. The part of the state is that of the set that the
/// call leaves, which may be the set itself (`answered`). Each `fork`, each `exit` and each refused call (`refused`)
/// does this with the premises of `vt_laws_members` (`IsCallOfTheirs`) in place of ending alike.
///
/// If `HasItSealed` holds, any number of turns of others leave each call under way of an existing task of the set,
/// overtaken or not as it was (`others`).
pub fn turns_of_theirs_are_of_their_part()
    ensures overtaken { TheirCallsAreOvertakenAlike }
    ensures answers { TheirTurnsAnswerAlike }
    ensures words { TheirWordsAreOfTheirPart }
    ensures answered { TheirAnswersAreOfTheirPart }
    ensures refused { TheirRefusalsAreOfTheirPart }
    ensures grown { TheirAnswersAreOfTheGrownPart }
    ensures fork { TheirForksAreOfTheGrownPart }
    ensures exit { TheirExitsAreOfTheGrownPart }
    ensures others { OutsidersOvertakeNoCallOfTheirs }
{}
