//! What holds of states and of edits of them, each law as the contract of a function that does nothing.

ghost use Rattle.rf_state.specs.Laws.{FreshIsOneNode, KeepingIsOfCandidates, MayValueIsInWords, MergeIsAtEdge, MergeIsAtOpposite, MergeIsNowhereElse, MergeKeepsObjects, MustValueIsInWords, NarrowingIsOfCount, OppositesAreMirrored, RootIsUnique};

/// The root of a problem is one state.
pub fn root_law()
    ensures { RootIsUnique }
{}

/// The value of a predicate says in which words it holds: by what has to hold, and by what can.
pub fn value_law()
    ensures must { MustValueIsInWords }
    ensures may { MayValueIsInWords }
{}

/// A merge goes into what is known of an edge and of the edge back of the opposite, which are the same,
/// and nowhere else. It changes no object.
pub fn fact_law()
    ensures mirrored { OppositesAreMirrored }
    ensures edge { MergeIsAtEdge }
    ensures opposite { MergeIsAtOpposite }
    ensures nowhere_else { MergeIsNowhereElse }
    ensures objects { MergeKeepsObjects }
{}

/// Narrowing a count changes that count alone.
pub fn narrow_law()
    ensures { NarrowingIsOfCount }
{}

/// Narrowing candidates changes the candidates of that object, and facts only at it.
pub fn keep_law()
    ensures { KeepingIsOfCandidates }
{}

/// A fresh object of another is one of its nodes, of which is known what was known of it.
pub fn fresh_law()
    ensures { FreshIsOneNode }
{}
