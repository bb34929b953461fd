ghost use Rattle.std.specs.Prelude.{◌≡◌, ℕ, IfOk, List};
ghost use Rattle.rf_state.specs.State.{IsRoot, State};
ghost use Rattle.rf_valuation.specs.Valuation.{IsValuation};

use crate::lines::push_valuation;
use rf_problem::Problem;
use rf_text::Text;
use std::alloc::{AllocError, Global};

/// The values of the predicates of a problem in its root, as a document: for each predicate and each
/// tuple of objects that may have a node, in order, a line, where the value isn't false.
pub fn valuation_of(alloc: Global, problem: &Problem) -> Result<Text, AllocError>
    ensures some { IfOk result (λ text. (s : State) × IsRoot problem.now s × IsValuation problem.now s text) }
    ensures right { (s : State) → IsRoot problem.now s → IfOk result (λ text. IsValuation problem.now s text) }
    ensures alone { (s : State) (other : List ℕ) → IsRoot problem.now s → IsValuation problem.now s other → IfOk result (λ text. text ≡ other) }
{
    let root = rf_state::State::root(alloc, problem)?;
    let mut text = Text::new(alloc);
    push_valuation(alloc, &mut text, &root)?;
    Ok(text)
}
