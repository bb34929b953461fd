//! The search for a graph: rules, then a decision, and back to the latest one that has an untried side.

ghost use Rattle.std.specs.Prelude.{◌≡◌, ◌≤◌, ◌∷◌, [], IfOk, OnErr};
ghost use Rattle.rf_bounds.specs.declared.TheConstants.{MOST_DECISIONS};
ghost use Rattle.rf_state.specs.State.{IsRoot};
ghost use Rattle.rf_tree.specs.Outcomes.{IsRightOutcome};
ghost use Rattle.rf_search.specs.Outcome.{Ends};
ghost use Rattle.rf_search.specs.Stack.{IsRooted};

use crate::knowledge::Knowledge;
use crate::settling::settle_known;
use crate::sides::{go_back, go_on};
use crate::untried::Untried;
use rf_decide::Words;
use rf_final::{final_law, graph_of};
use rf_text::Items;
use rf_tree::{Line, Outcome};
use rf_vstate::Versions;
use std::alloc::{AllocError, Global};

// Searches from the root, which stays the first of the kept states.
fn rounds<T: Versions>(
    alloc: Global,
    t: &mut T,
    seed: u64,
    budget: u32,
) -> Result<Outcome, AllocError>
    requires root { IsRoot (T.problem t.old) (T.state t.old) }
    requires kept { T.kept t.old ≡ T.state t.old ∷ [] }
    requires most { budget ≤ MOST_DECISIONS }
    ensures problem { T.problem t.new ≡ T.problem t.old }
    ensures ends { IfOk result (λ outcome. Ends (T.problem t.old) seed budget (T.state t.old) outcome (T.state t.new) (T.kept t.new)) }
    ensures rooted { IsRooted (T.state t.old) (T.kept t.new) }
{
    let mut words = Words::new(seed);
    let mut knowledge = Knowledge::nothing(alloc, t)?;
    let mut lines = Vec::new(alloc);
    let mut untried: Vec<Untried> = Vec::new(alloc);
    let mut made: u32 = 0;
    loop {
        if settle_known(alloc, t, &mut knowledge, &mut lines)? {
            let Some(latest) = untried.pop() else {
                return Ok(Outcome::Refuted(Items::from_vec(lines)));
            };
            knowledge = go_back(alloc, t, latest)?;
        } else {
            let Some((decision, first)) = knowledge.choose(t, words.next()) else {
                let graph = graph_of(alloc, t)?;
                return Ok(Outcome::Found(graph));
            };
            if made == budget {
                return Ok(Outcome::Unfinished(Items::from_vec(lines)));
            }
            let latest = go_on(alloc, t, &mut knowledge, &decision, first)?;
            untried.push(latest)?;
            lines.push(Line::Decide(decision, first))?;
            made += 1;
        }
    }
}

/// Searches for a graph from the root of a problem, which alone is kept, by a seed, with at most `budget` decisions.
/// What it ends with, and in which state, are told by the course of the problem and the seed alone. Where memory runs
/// out, the state and what is kept are as before.
pub fn search<T: Versions>(
    alloc: Global,
    t: &mut T,
    seed: u64,
    budget: u32,
) -> Result<Outcome, AllocError>
    requires root { IsRoot (T.problem t.old) (T.state t.old) }
    requires kept { T.kept t.old ≡ T.state t.old ∷ [] }
    requires some { 1 ≤ budget }
    requires most { budget ≤ MOST_DECISIONS }
    ensures problem { T.problem t.new ≡ T.problem t.old }
    ensures ends { IfOk result (λ outcome. Ends (T.problem t.old) seed budget (T.state t.old) outcome (T.state t.new) (T.kept t.new)) }
    ensures right { IfOk result (IsRightOutcome (T.problem t.old) budget) }
    ensures state { OnErr result (T.state t.new ≡ T.state t.old) }
    ensures unchanged { OnErr result (T.kept t.new ≡ T.kept t.old) }
{
    match rounds(alloc, t, seed, budget) {
        Ok(outcome) => {
            final_law();
            Ok(outcome)
        }
        Err(error) => {
            t.prune(0);
            Err(error)
        }
    }
}
