//! The search for a graph of a problem.

ghost use Rattle.std.specs.Prelude.{◌≡◌, ◌≤◌, IfOk};
ghost use Rattle.rf_bounds.specs.declared.TheConstants.{MOST_DECISIONS};
ghost use Rattle.rf_tree.specs.Outcomes.{IsRightOutcome};
ghost use Rattle.rf_depth.specs.Outcomes.{IsEnough, IsFinished, IsShallow};
ghost use Rattle.rf_search.specs.Outcome.{IsOutcome};

use crate::search;
use rf_mirror::Mirrored;
use rf_problem::Problem;
use rf_tree::{Outcome, Solver};
use std::alloc::{AllocError, Global};

/// Searches for a graph of a problem by a seed, with at most `budget` decisions. Where a scope bounds all nodes, no way of
/// the tree of a refutation, or of an unfinished one, holds more decisions than the depth of the problem (`depth`), and
/// with a budget of two to the power of it the search ends with a graph or a refutation.
pub fn generate(
    alloc: Global,
    problem: &Problem,
    seed: u64,
    budget: u32,
) -> Result<Outcome, AllocError>
    requires some { 1 ≤ budget }
    requires most { budget ≤ MOST_DECISIONS }
    ensures outcome { IfOk result (IsOutcome problem.now seed budget) }
    ensures right { IfOk result (IsRightOutcome problem.now budget) }
    ensures shallow { IfOk result (IsShallow problem.now) }
    ensures enough { IsEnough problem.now budget → IfOk result IsFinished }
{
    let mut state = Mirrored::root(alloc, problem)?;
    search(alloc, &mut state, seed, budget)
}

/// Who searches by `generate`.
#[derive(Clone, Copy, Debug)]
pub struct Search;

impl Solver for Search {
    ghost use Rattle.rf_search.specs.Outcome.{IsOutcome};

    ghost ends = { IsOutcome };

    fn solve(
        &mut self,
        alloc: Global,
        problem: &Problem,
        seed: u64,
        budget: u32,
    ) -> Result<Outcome, AllocError> {
        generate(alloc, problem, seed, budget)
    }
}
