//! What holds of values that are kept over an edit, each law as the contract of a function that does nothing.

ghost use Rattle.rf_renewal.specs.Laws.{
  CandidatesAreCovered,
  CountIsCovered,
  EdgeIsCovered,
  FactsCoverNothingDone,
  FreshIsCovered,
  GrownLeadsTheSame,
  GrownSaysTheSame,
  ParametersAreEnough,
  PredicateIsCovered,
  RenewedIsRight,
  RenewedOverFreshIsRight,
  SymbolIsCovered,
  UnrelatedValuesStay,
  UnrelatedWalksStay,
  ValuesStay,
  WalksStay,
};

/// Where the changes cover what is known otherwise than before, a predicate says the same as before at each
/// tuple that the filter leaves out, and walks from an element that it leaves out lead to the same.
pub fn kept_law()
    ensures values { ValuesStay }
    ensures walks { WalksStay }
{}

/// The changes come to cover predicate after predicate, and symbol after symbol, as what is let through is
/// compared, each after what it asks for.
pub fn compare_law()
    ensures first { FactsCoverNothingDone }
    ensures predicate { PredicateIsCovered }
    ensures symbol { SymbolIsCovered }
{}

/// So values and walks that were kept are right again once those are renewed that the filter lets through.
pub fn table_law()
    ensures { RenewedIsRight }
{}

/// What a predicate says depends on the elements of its parameters alone, so that a value is kept for these.
pub fn parameter_law()
    ensures { ParametersAreEnough }
{}

/// What an edit changes of what is known of objects and edges: a merge two edges, and what is narrowed, one
/// object.
pub fn edit_law()
    ensures edge { EdgeIsCovered }
    ensures count { CountIsCovered }
    ensures candidates { CandidatesAreCovered }
{}

/// A fresh object is an element more, which wasn't present: with it alone nothing is said otherwise of the others,
/// and a table that was right is right again once what is said of it, and what the filters let through, is renewed.
pub fn fresh_law()
    ensures values { GrownSaysTheSame }
    ensures walks { GrownLeadsTheSame }
    ensures covered { FreshIsCovered }
    ensures table { RenewedOverFreshIsRight }
{}

/// Predicates that don't rest on what changed say the same as before.
pub fn rest_law()
    ensures values { UnrelatedValuesStay }
    ensures walks { UnrelatedWalksStay }
{}
