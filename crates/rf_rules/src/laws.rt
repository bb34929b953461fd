//! What holds of rules, effects and decisions, each law as the contract of a function that does nothing.

ghost use Rattle.rf_rules.specs.Applying.{EffectIsApplicable};
ghost use Rattle.rf_rules.specs.Laws.{ClosingCloses, EffectChangesOne, EffectFits, EffectIsChange, FiresIsInWords, RulesAreOrdered, SidesDiffer};

/// What an effect changes, and that it has one exactly where the state after it is another.
pub fn effect_law()
    ensures change { EffectIsChange }
    ensures one { EffectChangesOne }
{}

/// When a rule fires, in words; what it does is done to what is there, and can be done where it fires;
/// and rules have one order.
pub fn rule_law()
    ensures words { FiresIsInWords }
    ensures there { EffectFits }
    ensures applicable { EffectIsApplicable }
    ensures closings { ClosingCloses }
    ensures ordered { RulesAreOrdered }
{}

/// Each side of an allowed decision is another state.
pub fn decision_law()
    ensures { SidesDiffer }
{}
