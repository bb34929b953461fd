//! What a change concerns.

ghost use Rattle.std.specs.Prelude.{◌≡◌, ◌<◌, length};
ghost use Rattle.rf_pending.specs.Changes.{FitsChange};
ghost use Rattle.rf_prop_contain.specs.Touching.{concerns, contains_back, contains_either, does_hold, must_hold_some, renews_walks};

use rf_finite::within;
use rf_pending::{Change, Standing};
use rf_problem::Problem;
use rf_state::Facts;

// Whether the opposite of a reference contains.
fn contains_back(problem: &Problem, r: u32) -> bool
    requires { r < length problem.now.references }
    ensures { result ≡ contains_back problem.now r }
{
    match problem.reference(r).opposite {
        Some(q) => problem.reference(q).kind.is_contains(),
        None => false,
    }
}

/// Whether a reference contains, or its opposite does.
pub fn contains_either(problem: &Problem, r: u32) -> bool
    requires { r < length problem.now.references }
    ensures { result ≡ contains_either problem.now r }
{
    problem.reference(r).kind.is_contains() || contains_back(problem, r)
}

// Whether an object can contain another, or has to.
fn does_hold<F: Facts>(view: &F, standing: Standing, x: u64, y: u64) -> bool
    requires from { x < length (F.state view.now).objects }
    requires to { y < length (F.state view.now).objects }
    ensures { result ≡ does_hold (F.problem view.now) (F.state view.now) standing x y }
{
    for reference in 0..view.problem().references.len() as u32 {
        let contains = view.problem().reference(reference).kind.is_contains();
        if contains && standing.counts(view.fact(reference, x, y)) {
            return true;
        }
    }
    false
}

// Whether an object has to contain something.
fn must_hold_some<F: Facts>(view: &F, x: u64) -> bool
    requires { x < length (F.state view.now).objects }
    ensures { result ≡ must_hold_some (F.problem view.now) (F.state view.now) x }
{
    for other in 0..view.objects() {
        if does_hold(view, Standing::Must, x, other) {
            return true;
        }
    }
    false
}

/// Whether a change can concern the possible containers of an object.
pub fn concerns<F: Facts>(view: &F, change: Change, b: u64) -> bool
    requires fits { FitsChange (F.problem view.now) (F.state view.now) change }
    requires object { b < length (F.state view.now).objects }
    ensures { result ≡ concerns (F.problem view.now) (F.state view.now) change b }
{
    match change {
        Change::Fact(q, x, y) => {
            let problem = view.problem();
            problem.reference(q).kind.is_contains() && y == b || contains_back(problem, q) && x == b
        }
        Change::Count(o) => {
            o == b || !within(1, view.count(o).hi) && does_hold(view, Standing::May, o, b)
        }
        Change::Candidates(_) | Change::Fresh(_) => true,
    }
}

/// Whether there can be new walks of containment after a change.
pub fn renews_walks<F: Facts>(view: &F, change: Change) -> bool
    requires { FitsChange (F.problem view.now) (F.state view.now) change }
    ensures { result ≡ renews_walks (F.problem view.now) (F.state view.now) change }
{
    match change {
        Change::Fact(q, x, y) => contains_either(view.problem(), q) && view.fact(q, x, y).must(),
        Change::Count(o) => view.count(o).lo >= 1 && must_hold_some(view, o),
        Change::Candidates(_) | Change::Fresh(_) => false,
    }
}
