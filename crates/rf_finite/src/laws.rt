//! What the computing definitions mean, each law as the contract of a function that does nothing.

ghost use Rattle.rf_finite.specs.Firsts.{FirstIsNoneWhereNonePasses, FirstIsUnique, FirstOfEitherIsEarlier};
ghost use Rattle.rf_finite.specs.Passing.{PassingIsAll, PassingIsInOrder};
ghost use Rattle.rf_finite.specs.Range.{SomeBelowIsSome, AllBelowIsEach, CountBelowIsLength, FirstBelowIsLeast, FirstBelowIsNone};
ghost use Rattle.rf_finite.specs.Sums.{SumIsMonotone, SumIsPointwise, SumIsSplit, SumIsTermAndOthers, SumIsWithinEnds};
ghost use Rattle.rf_finite.specs.Sums.{EndsAreEndAndOthers, EndsAreMonotone, EndsArePointwise, EndsAreSplit, EndsAreUnboundedWhereOneIs, EndsSumAsNumbers};
ghost use Rattle.rf_finite.specs.Tuples.{FirstTupleIsFirst};
ghost use Rattle.rf_finite.specs.Walks.{WalkBelowFindsWalks, NoCycleIsRank};

/// Some number below a bound passes exactly where one can be named.
pub fn some_below_law()
    ensures { SomeBelowIsSome }
{}

/// All numbers below a bound pass exactly where each does.
pub fn all_below_law()
    ensures { AllBelowIsEach }
{}

/// The count of the numbers below a bound that pass is how many a list of them has.
pub fn count_below_law()
    ensures { CountBelowIsLength }
{}

/// The first value below a bound is that of the least number that has one.
pub fn first_below_law<V>()
    ensures least { FirstBelowIsLeast V }
    ensures none { FirstBelowIsNone V }
{}

/// A sum is determined by the test and the terms of what passes. It is that of one number and the
/// others, and that of what passes another test and what doesn't, and it grows with the test and the
/// terms.
pub fn sum_below_law()
    ensures others { SumIsTermAndOthers }
    ensures split { SumIsSplit }
    ensures monotone { SumIsMonotone }
    ensures pointwise { SumIsPointwise }
{}

/// Ends sum as numbers do, and to none where one of them is none.
pub fn ends_below_law()
    ensures unbounded { EndsAreUnboundedWhereOneIs }
    ensures numbers { EndsSumAsNumbers }
    ensures others { EndsAreEndAndOthers }
    ensures split { EndsAreSplit }
    ensures monotone { EndsAreMonotone }
    ensures pointwise { EndsArePointwise }
    ensures within { SumIsWithinEnds }
{}

/// In an order there is one first of what passes, and none exactly where nothing passes. The first of
/// what passes either of two tests is the earlier of their firsts.
pub fn first_law<V>()
    ensures unique { FirstIsUnique V }
    ensures none { FirstIsNoneWhereNonePasses V }
    ensures either { FirstOfEitherIsEarlier V }
{}

/// The first tuple by a search through its numbers, one in another, is the first in the order of tuples.
pub fn first_tuple_law()
    ensures { FirstTupleIsFirst }
{}

/// Walks by recursion on the bound of their inner vertices are walks by the list of them.
pub fn walk_law()
    ensures { WalkBelowFindsWalks }
{}

/// There is no cycle exactly where vertices can be ranked so that each edge leads to a lower rank.
pub fn no_cycle_law()
    ensures { NoCycleIsRank }
{}

/// The numbers that pass stand in their list in order, each once.
pub fn passing_law()
    ensures all { PassingIsAll }
    ensures in_order { PassingIsInOrder }
{}
