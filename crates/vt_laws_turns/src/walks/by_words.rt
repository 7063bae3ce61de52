//! Walks by words lead where whole walks lead.
ghost use Rattle.vt_laws_turns.specs.Walks.Asked.{TurnsCheckWhatIsAsked};
ghost use Rattle.vt_laws_turns.specs.Walks.ByWords.{AllWordsAreTheWalk, FirstWordsAreOfTheWalk};
ghost use Rattle.vt_laws_turns.specs.Walks.Routes.{RoutesAreWalks};

/// If a task's root and working directory are directories, what is left of a walk after any number of words leads where
/// the whole walk leads (`first_words`).
///
/// It goes through the same filesystems, or is refused with the whole walk. After as many words as the walk has steps,
/// nothing is left of it (`all_words`).
///
/// For any task, the words that turns count of a call, and the filesystems that they meet, are those of such walks, one
/// for each of its paths (`routes`).
pub fn walks_go_word_by_word()
    ensures first_words { FirstWordsAreOfTheWalk }
    ensures all_words { AllWordsAreTheWalk }
    ensures routes { RoutesAreWalks }
{}

/// The first turn of a call with a path checks the S and K rules that the call asks before it walks, and no others.
pub fn turns_check_what_calls_ask()
    ensures { TurnsCheckWhatIsAsked }
{}
