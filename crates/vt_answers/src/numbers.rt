//! The change number that a call leaves, and how far calls count.
ghost use Rattle.vt_answers.specs.Counters.{CallsCountBySquares, CountsAreFarFromTheirEnds};
ghost use Rattle.vt_answers.specs.Numbers.{RaisesTheChangeNumber};

/// A call that the written policy grants leaves the world's change number as the trait says (`change_after`).
pub fn the_change_number_is_the_policys()
    ensures { RaisesTheChangeNumber }
{}

/// After `n` calls, as the trait says how far each counts (`CountsFew`), at most 8,192·(n + 1)² numbers were given out, and
/// at most `n + 1` tasks were born (`squares`).
///
/// So it takes 47 million calls to come near the end of a count, 2^64 - 1, where a call is S5 (`far`).
pub fn calls_count_by_squares()
    ensures squares { CallsCountBySquares }
    ensures far { CountsAreFarFromTheirEnds }
{}
