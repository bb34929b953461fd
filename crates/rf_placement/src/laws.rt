//! What holds of graphs and the states that stand for them, each law as the contract of a function that does
//! nothing.

ghost use Rattle.rf_placement.specs.Laws.{AddedIsEnough, RootIsConcretised, ValuesAreKept};

/// The root of a problem stands for each graph that satisfies the problem.
pub fn root_law()
    ensures { RootIsConcretised }
{}

/// What is known of a predicate at some objects is so at each tuple of nodes of them.
pub fn value_law()
    ensures { ValuesAreKept }
{}

/// Of a graph that satisfies the problem only what was added to a state can be wrong.
pub fn added_law()
    ensures { AddedIsEnough }
{}
