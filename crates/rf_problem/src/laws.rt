//! What holds of problems, each law as the contract of a function that does nothing.

ghost use Rattle.rf_problem.specs.Follows.{PredicatesCarryOver};
ghost use Rattle.rf_problem.specs.Laws.{BelowIsComputed, DepthOfAllIsEnough, DepthPastRankIsEnough, HoldsInIsComputed, MeaningsAreUnique, MeaningsExist, ProblemIsItsLists};

/// A class is below another exactly where the computed test says so.
pub fn below_law()
    ensures { BelowIsComputed }
{}

/// No more depth than there are predicates is needed to say whether one holds.
pub fn depth_law()
    ensures past_rank { DepthPastRankIsEnough }
    ensures of_all { DepthOfAllIsEnough }
{}

/// Two problems with the same lists are the same.
pub fn problem_law()
    ensures { ProblemIsItsLists }
{}

/// What a predicate says of elements in a pair of readings it says of related ones in each pair that
/// follows.
pub fn following_law()
    ensures { PredicatesCarryOver }
{}

/// Predicates have one meaning in each pair of readings, and the computed test finds what holds in it.
pub fn meaning_law()
    ensures computed { HoldsInIsComputed }
    ensures exists { MeaningsExist }
    ensures unique { MeaningsAreUnique }
{}
