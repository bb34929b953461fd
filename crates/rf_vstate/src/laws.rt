//! What holds of maps, each law as the contract of a function that does nothing.

ghost use Rattle.rf_vstate.specs.Laws.{LookUpIsEntry};

/// A look-up in a map gives exactly what its entries have.
pub fn look_up_law()
    ensures { LookUpIsEntry }
{}
