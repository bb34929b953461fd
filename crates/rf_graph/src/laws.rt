//! What holds of graphs, each law as the contract of a function that does nothing.

ghost use Rattle.rf_graph.specs.Laws.{FirstViolationIsComputed, HoldsIsComputed, MeaningExists, MeaningIsUnique, NoneIsComputedWhereSat, SatIsSatisfies};

/// The predicates of a problem have one meaning in each graph, and the computed test finds what holds.
pub fn holds_law()
    ensures computed { HoldsIsComputed }
    ensures exists { MeaningExists }
    ensures unique { MeaningIsUnique }
{}

/// The first violation is computed kind by kind.
pub fn first_violation_law()
    ensures some { FirstViolationIsComputed }
    ensures none { NoneIsComputedWhereSat }
{}

/// A graph satisfies a problem where what is to hold of each kind does.
pub fn satisfied_law()
    ensures { SatIsSatisfies }
{}
