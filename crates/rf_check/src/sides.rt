//! What lines do to one state.

ghost use Rattle.std.specs.Prelude.{◌≡◌, ◌&&◌, not, true, false, None, Ok, Some, IfOk};
ghost use Rattle.rf_rules.specs.Decisions.{allowed};
ghost use Rattle.rf_rules.specs.Rules.{after, fires, is_closing};
ghost use Rattle.rf_eval.specs.declared.scratch.Scratch.{Scratch as ScratchValue};
ghost use Rattle.rf_check.specs.Steps.{IsSplit, problem_of};
ghost use Rattle.rf_check.specs.Kept.{state_of};

use rf_eval::Scratch;
use rf_rules::{Decision, Rule, allowed, apply, decide, fires};
use std::alloc::{AllocError, Global};

/// Does what a rule does, where it is no closing and fires; the answer tells whether.
pub fn narrow(alloc: Global, state: &mut Scratch, rule: &Rule) -> Result<bool, AllocError>
    ensures problem { problem_of state.new ≡ problem_of state.old }
    ensures fired { IfOk result (λ fired.
        fired ≡ (not (is_closing rule.now) && fires (problem_of state.old) (state_of state.old) rule.now)) }
    ensures after { result ≡ Ok true → state_of state.new ≡ after (problem_of state.old) (state_of state.old) rule.now }
{
    if rule.is_closing() || !fires(alloc, state, rule)? {
        return Ok(false);
    }
    apply(alloc, state, rule)?;
    Ok(true)
}

/// Makes a state that of one side of a decision and gives the other side, where the decision is allowed.
pub fn split<'p>(
    alloc: Global,
    state: &mut Scratch<'p>,
    decision: &Decision,
    first: bool,
) -> Result<Option<Scratch<'p>>, AllocError>
    ensures refused { result ≡ Ok None → allowed (problem_of state.old) (state_of state.old) decision.now ≡ false }
    ensures split { (other : ScratchValue) → result ≡ Ok (Some other)
        → IsSplit state.old decision.now first state.new other }
{
    if !allowed(state, decision) {
        return Ok(None);
    }
    let mut other = state.copy(alloc)?;
    decide(alloc, &mut other, decision, !first)?;
    decide(alloc, state, decision, first)?;
    Ok(Some(other))
}

/// Whether a closing closes a state.
pub fn closes(alloc: Global, state: &Scratch, rule: &Rule) -> Result<bool, AllocError>
    ensures { IfOk result (λ closes.
        closes ≡ (is_closing rule.now && fires (problem_of state.now) (state_of state.now) rule.now)) }
{
    if !rule.is_closing() {
        return Ok(false);
    }
    fires(alloc, state, rule)
}
