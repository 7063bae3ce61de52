//! Runs that go on from worlds that are the same.
ghost use Rattle.vt_laws_trees.specs.Runs.Runs.{RunsHaveOneText};

/// A run without overlays goes on from any same world after each line, by numbers in hand unused there. It writes its
/// script's one text, if infinitely many are not in hand, and four for the opening world are.
///
/// Unused are numbers that the world does not keep to; they may come again. The four are different.
pub fn runs_have_one_text()
    ensures { RunsHaveOneText }
{}
