//! What holds of all walks, each law as the contract of a function that does nothing.

ghost use Rattle.rf_closure.specs.Laws.{WalksSplit, WalksJoin, WalksReverse, WalksNeedNoRepeats, WalksAreMonotone};

/// An inner vertex of a walk splits it into two walks.
pub fn split_law()
    ensures { WalksSplit }
{}

/// Two walks that meet at a vertex that may be passed through are one walk.
pub fn join_law()
    ensures { WalksJoin }
{}

/// A walk read backwards goes over the edges backwards.
pub fn reverse_law()
    ensures { WalksReverse }
{}

/// Where there is a walk, there is one that visits no inner vertex twice.
pub fn no_repeats_law()
    ensures { WalksNeedNoRepeats }
{}

/// More edges and more vertices that may be passed through keep each walk.
pub fn monotone_law()
    ensures { WalksAreMonotone }
{}
