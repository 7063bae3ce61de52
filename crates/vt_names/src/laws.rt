//! Laws of names that are kept.
ghost use Rattle.vt_names.specs.Answers.{AnswersLeftWereThere, ForgottenNamesAreNotAnswered, KeptNamesAreAnswered, LooksChangeNoAnswer, OtherAnswersWereThere};
ghost use Rattle.vt_names.specs.Says.{AnswersAreShown, ChangedNamesAreForgotten, LooksLeaveWhatIsSaid, OneMountShows, ShownNamesMayBeKept, WorldsShowByFilesystem};

/// A cache says only what it was told. What was kept last is answered (`kept`), unless nothing may be kept; what was
/// forgotten last is not (`forgotten`). All other answers are those of before (`told`, `left`). A look changes none
/// (`looked`).
pub fn only_what_was_kept_is_answered()
    ensures looked { LooksChangeNoAnswer }
    ensures kept { KeptNamesAreAnswered }
    ensures told { OtherAnswersWereThere }
    ensures forgotten { ForgottenNamesAreNotAnswered }
    ensures left { AnswersLeftWereThere }
{}

/// A cache that says what a world shows answers so (`answers`), and says so after a look (`looked`), after a name is
/// kept that the world shows (`kept`), and after the one name is forgotten that leads elsewhere in a new world
/// (`forgotten`).
pub fn kept_names_say_what_worlds_show()
    ensures answers { AnswersAreShown }
    ensures looked { LooksLeaveWhatIsSaid }
    ensures kept { ShownNamesMayBeKept }
    ensures forgotten { ChangedNamesAreForgotten }
{}

/// What one mount of a filesystem shows under a name all its mounts show (`mounts`), in every world (`worlds`).
pub fn mounts_of_a_filesystem_show_the_same()
    ensures mounts { OneMountShows }
    ensures worlds { WorldsShowByFilesystem }
{}
