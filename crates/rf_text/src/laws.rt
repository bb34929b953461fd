//! What holds of names and of how they are written, each law as the contract of a function that does
//! nothing.
ghost use Rattle.rf_text.specs.Laws.{IdentifiersAreTold, WrittenNamesDiffer, WrittenNamesEnd};

/// The test for identifiers tells them.
pub fn identifiers_law()
    ensures { IdentifiersAreTold }
{}

/// Names that differ are written in different ways.
pub fn written_differ_law()
    ensures { WrittenNamesDiffer }
{}

/// Where a written name ends shows in the bytes.
pub fn written_end_law()
    ensures { WrittenNamesEnd }
{}
