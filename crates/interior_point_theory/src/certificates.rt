//! What shows by a few numbers whether there is an interior point.
ghost use Rattle.interior_point_theory.specs.Laws.{RefutersRefute, SurroundedTailsConfirm, SurroundedPoints};

/// A linear function that isn't 0 and is nonnegative on the tails refutes an interior point.
pub fn refuters_refute()
    ensures { RefutersRefute }
{}

/// Tails that are surrounded confirm it.
pub fn surrounded_tails_confirm()
    ensures { SurroundedTailsConfirm }
{}

/// On points that are surrounded only 0 is nonnegative, of the linear functions.
pub fn surrounded_points()
    ensures { SurroundedPoints }
{}
