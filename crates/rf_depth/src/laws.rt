//! What holds of the depth, each law as the contract of a function that does nothing.

ghost use Rattle.rf_depth.specs.Laws.{DecisionsAreFew, DepthIsNone, LeftFalls, LinesAreWithin, LinesTellLongest, LongestIsGreatest, LongestIsWithin, LowsAreWithin, NodeEndIsLeast, SettledRises, TightStays};

/// At a saturated state the lower ends add up to at most the bound on all nodes. What is settled is never lost, each
/// side of a decision adds to it, and where a decision is taken it is less than the depth.
pub fn settled_law()
    ensures lows { LowsAreWithin }
    ensures tight { TightStays }
    ensures rises { SettledRises }
    ensures left { LeftFalls }
{}

/// The longest way of a tree is one of its ways, no other is longer, its lines tell it, and the tree has fewer
/// decisions than two to the power of it.
pub fn longest_law()
    ensures greatest { LongestIsGreatest }
    ensures lines { LinesTellLongest }
    ensures few { DecisionsAreFew }
{}

/// The bound is the least of those of the scopes that count all nodes, and a problem has a depth exactly where there is
/// one. Where each decision stands at a saturated state, no way holds more decisions than the depth, and there are fewer than two to the power of it.
pub fn depth_law()
    ensures bound { NodeEndIsLeast }
    ensures unbounded { DepthIsNone }
    ensures tree { LongestIsWithin }
    ensures lines { LinesAreWithin }
{}
