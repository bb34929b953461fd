//! What holds of final states and their graphs, each law as the contract of a function that does nothing.

ghost use Rattle.rf_final.specs.Laws.{FinalIsConcretised, FinalSatisfies, NodesAreSingles};

/// The graph of a final state that is reached satisfies the problem.
pub fn final_law()
    ensures { FinalSatisfies }
{}

/// It is a graph that the state stands for.
pub fn concretised_law()
    ensures { FinalIsConcretised }
{}

/// The graph of a state has a node for each object that is one node, and no other.
pub fn size_law()
    ensures { NodesAreSingles }
{}
