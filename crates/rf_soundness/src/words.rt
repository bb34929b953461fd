//! The words of the rule of forced literals, as the contract of a function that does nothing.

ghost use Rattle.rf_soundness.specs.Forced.{ForcedEffectIsInWords, GivenIsInWords, LiteralIsInWords};

/// What the rule of forced literals speaks of and forces, in words: which objects stand for variables, when a
/// literal has to hold at them, and which edge is settled.
pub fn forced_law()
    ensures given { GivenIsInWords }
    ensures literals { LiteralIsInWords }
    ensures forced { ForcedEffectIsInWords }
{}
