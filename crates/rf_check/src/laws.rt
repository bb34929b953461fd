//! What holds of verdicts, each law as the contract of a function that does nothing.

ghost use Rattle.rf_check.specs.Laws.{JudgedMeetsNone, MetIsRejected, RejectedStays, VerdictIsOfLines, VerdictIsOne};

/// Bytes are one thing as a tree of a problem, and the verdict on a document says what its lines are.
pub fn verdict_law()
    ensures one { VerdictIsOne }
    ensures lines { VerdictIsOfLines }
{}

/// A rejected line that is met stays the one, whatever bytes come after it. Where a verifier met none, none is met in its
/// bytes.
pub fn rejected_law()
    ensures met { RejectedStays }
    ensures rejected { MetIsRejected }
    ensures none { JudgedMeetsNone }
{}
