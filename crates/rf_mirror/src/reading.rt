//! What the cells have.

ghost use Rattle.std.specs.Prelude.{◌≡◌, ◌<◌, ◌≤◌, ◌==◌, if◌then◌else◌, ℕ, length, IfSome};
ghost use Rattle.rf_values.specs.Truth.{merge};
ghost use Rattle.rf_state.specs.State.{State, merged_at, told};
ghost use Rattle.rf_trail.specs.Trail.{HaveNoMore, items, kept};
ghost use Rattle.rf_mirror.specs.Mirror.{AreTold, truth_at};

use crate::cells::cell;
use rf_problem::Problem;
use rf_trail::Trail;
use rf_values::Truth;

/// What is told of an edge, where it has a cell.
pub fn told_at(problem: &Problem, cells: &Trail<Truth>, r: u32, a: u64, b: u64) -> Option<Truth>
    requires { r < length problem.now.references }
    ensures { (s : State) → AreTold problem.now s (items cells.now) → a < length s.objects → b < length s.objects
        → IfSome result (λ t. t ≡ told problem.now s r a b) }
{
    let references = problem.references.len() as u32;
    match cell(references, r, a, b) {
        Some(k) => cells.get(k),
        None => None,
    }
}

// Merges a truth into a cell, if it is there.
fn put_merged(cells: &mut Trail<Truth>, k: usize, v: Truth)
    ensures few { length (items cells.new) ≤ length (items cells.old) }
    ensures merged { (i : ℕ) → i < length (items cells.new) → truth_at (items cells.new) i
        ≡ (if i == k then merge (truth_at (items cells.old) i) v else truth_at (items cells.old) i) }
    ensures kept { HaveNoMore (kept cells.old) (kept cells.new) }
{
    if let Some(before) = cells.get(k) {
        let after = before.merge(v);
        if after != before {
            cells.put(k, after);
        }
    }
}

/// Merges a truth into the cell of an edge.
pub fn merge_at(problem: &Problem, cells: &mut Trail<Truth>, r: u32, a: u64, b: u64, v: Truth)
    requires { r < length problem.now.references }
    ensures told { (s : State) → AreTold problem.now s (items cells.old) → a < length s.objects → b < length s.objects
        → AreTold problem.now (merged_at s r a b v) (items cells.new) }
    ensures kept { HaveNoMore (kept cells.old) (kept cells.new) }
{
    let references = problem.references.len() as u32;
    match cell(references, r, a, b) {
        Some(k) => put_merged(cells, k, v),
        None => cells.clear(),
    }
}
