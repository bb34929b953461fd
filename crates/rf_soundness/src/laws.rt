//! That rules, decisions, trees and lines lose no graph, each law as the contract of a function that does
//! nothing.

ghost use Rattle.rf_soundness.specs.Conditions.{ConditionIsInWords};
ghost use Rattle.rf_soundness.specs.Laws.{
  ClosedStatesHaveNoGraph,
  DecisionsLoseNoGraph,
  EffectsLoseNoGraph,
  RulesAreSound,
  ValidIsSound,
};

/// What each rule asks for, in words.
pub fn condition_law()
    ensures { ConditionIsInWords }
{}

/// What a rule says is so of each graph that concretises a state in which its condition holds.
pub fn rule_sound_law()
    ensures { RulesAreSound }
{}

/// A graph of which an effect says what is so concretises the state after it.
pub fn effect_sound_law()
    ensures { EffectsLoseNoGraph }
{}

/// A graph that concretises a state concretises one of the sides of each allowed decision.
pub fn decision_sound_law()
    ensures { DecisionsLoseNoGraph }
{}

/// No graph concretises a state that a tree without a hole fits.
pub fn tree_sound_law()
    ensures { ClosedStatesHaveNoGraph }
{}

/// No graph satisfies a problem that has valid lines.
pub fn valid_sound_law()
    ensures { ValidIsSound }
{}
