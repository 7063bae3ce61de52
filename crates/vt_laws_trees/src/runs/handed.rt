//! The numbers that a program hands to a call.
ghost use Rattle.vt_laws_trees.specs.Runs.Handed.{AllottedNumbersOpen, AllottedNumbersServe, AllottedNumbersServeNamed, CountsAreAllotted, CountsServe, CountsServeNamed, NumbersAreAllotted, ProgramsHaveOneText};

/// Counts from the next on, `4·c + 1` for the count `c`, are a supply with room (`allotted`). They serve a world that
/// keeps to even numbers and earlier counts (`serves`), or has no others (`named`).
///
/// The numbers `4·c + 3` are left over, all others are kept.
pub fn counts_are_allotted()
    ensures allotted { CountsAreAllotted }
    ensures serves { CountsServe }
    ensures named { CountsServeNamed }
{}

/// With an inode's even number in place of one count they are, too (`allotted`). They serve a world that keeps to other
/// even numbers and earlier counts (`serves`), or has no others (`named`).
pub fn counts_and_an_inode_are_allotted()
    ensures allotted { NumbersAreAllotted }
    ensures serves { AllottedNumbersServe }
    ensures named { AllottedNumbersServeNamed }
{}

/// The latter have the four numbers of an `opening` world. A run without overlays that hands out any numbers but
/// `4·c + 3`, which its world does not keep to, writes the one `text` of its script.
pub fn programs_have_one_text()
    ensures opening { AllottedNumbersOpen }
    ensures text { ProgramsHaveOneText }
{}
