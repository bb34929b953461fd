//! What a search for a graph ends with.

ghost use Rattle.std.specs.Prelude.{◌≡◌, ◌≤◌, IfOk};
ghost use Rattle.rf_bounds.specs.declared.TheConstants.{MOST_DECISIONS};
ghost use Rattle.rf_tree.specs.Outcomes.{IsRightOutcome};

use crate::Line;
use rf_graph::Graph;
use rf_problem::Problem;
use rf_text::Items;
use std::alloc::{AllocError, Global};

/// What a search for a graph of a problem ends with.
#[derive(Debug, Drop)]
pub enum Outcome {
    /// A graph that satisfies the problem.
    Found(Graph),
    /// The lines of a tree that closes all that the problem leaves: no graph satisfies it.
    Refuted(Items<Line>),
    /// The lines of a tree to which more would have to come, with as many decisions as were allowed.
    Unfinished(Items<Line>),
}

/// Who searches for a graph of a problem.
pub trait Solver {
    ghost use Rattle.std.specs.Prelude.{ℕ};
    ghost use Rattle.rf_problem.specs.declared.problem.Problem.{Problem};
    ghost use Rattle.rf_tree.specs.declared.outcome.Outcome.{Outcome};

    /// What a search ends with, by the problem, the seed and the budget alone, whoever of this type searches.
    ghost ends: { Problem → ℕ → ℕ → Outcome → Type 0 };

    /// Searches by a seed, with at most `budget` decisions, of which there may be 1 to 1,000,000. Where memory runs
    /// out, the answer is an `AllocError`.
    fn solve(
        &mut self,
        alloc: Global,
        problem: &Problem,
        seed: u64,
        budget: u32,
    ) -> Result<Outcome, AllocError>
        requires some { 1 ≤ budget }
        requires most { budget ≤ MOST_DECISIONS }
        ensures outcome { IfOk result (Self.ends problem.now seed budget) }
        ensures right { IfOk result (IsRightOutcome problem.now budget) };
}
