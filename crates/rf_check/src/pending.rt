//! The states that are left to close.

ghost use Rattle.std.specs.Prelude.{◌≡◌, ◌↔◌, ◌∷◌, [], true, false, Ok};
ghost use Rattle.rf_problem.specs.declared.problem.Problem.{Problem as ProblemValue};
ghost use Rattle.rf_tree.specs.Pending.{left_after};
ghost use Rattle.rf_check.specs.Kept.{AreOf, IsOf, left_of, state_of};
ghost use Rattle.rf_check.specs.Steps.{TakesLine};

use crate::sides::{closes, narrow, split};
use rf_eval::Scratch;
use rf_tree::Line;
use std::alloc::{AllocError, Global};

/// The states that are left to close.
#[derive(Drop)]
pub struct Pending<'p> {
    // The first of them; None where none is left.
    current: Option<Scratch<'p>>,
    // Those of the other sides of the decisions on the way to it, the latest last.
    others: Vec<Scratch<'p>>,
}

impl<'p> Pending<'p> {
    /// This state alone.
    pub fn new(alloc: Global, root: Scratch<'p>) -> Pending<'p>
        ensures left { left_of result ≡ state_of root.entry ∷ [] }
        ensures kept { (p : ProblemValue) → IsOf p root.entry → AreOf p result }
    {
        Pending {
            current: Some(root),
            others: Vec::new(alloc),
        }
    }

    /// Whether none is left.
    pub fn is_empty(&self) -> bool
        ensures { (result ≡ true) ↔ (left_of self.now ≡ []) }
    {
        self.current.is_none()
    }

    /// Goes over a line; the answer tells whether it can stand.
    pub fn take(&mut self, alloc: Global, line: &Line) -> Result<bool, AllocError>
        ensures taken { result ≡ Ok true → (p : ProblemValue) → AreOf p self.old
            → TakesLine p self.old line.now self.new }
        ensures refused { result ≡ Ok false → (p : ProblemValue) → AreOf p self.old
            → left_after p (line.now ∷ []) (left_of self.old) ≡ None }
    {
        let Some(state) = &mut self.current else {
            return Ok(false);
        };
        match line {
            Line::Step(rule) => narrow(alloc, state, rule),
            Line::Decide(decision, first) => match split(alloc, state, decision, *first)? {
                None => Ok(false),
                Some(other) => {
                    self.others.push(other)?;
                    Ok(true)
                }
            },
            Line::Close(rule) => {
                let closed = closes(alloc, state, rule)?;
                if closed {
                    self.current = self.others.pop();
                }
                Ok(closed)
            }
        }
    }
}
