//! What holds of the problems of numbers, as the contract of a function that does nothing.

ghost use Rattle.rf_grow.specs.Laws.{GrownIsOne};

/// A number has one problem.
pub fn one_problem_law()
    ensures { GrownIsOne }
{}
