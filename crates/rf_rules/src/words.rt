//! The words of the rules, over what is read of a state.

ghost use Rattle.std.specs.Prelude.{◌≡◌, ◌<◌, ℕ, ◌&&◌, nat_lt, true, length};
ghost use Rattle.std.specs.FinSet.{contains};
ghost use Rattle.rf_rules.specs.Words.{any_candidate, classes_below, each_candidate, hi, is_error, is_false, is_less, is_one, is_unknown, lo, may, must, reaches};
ghost use Rattle.rf_state.specs.State.{all_candidates, some_candidate};

use rf_problem::Problem;
use rf_state::Facts;
use rf_values::{ClassSet, Truth};

/// The lower end of an object's count.
pub fn lo<F: Facts>(view: &F, o: u64) -> u64
    requires { o < length (F.state view.now).objects }
    ensures { result ≡ lo (F.state view.now) o }
{
    view.count(o).lo
}

/// The upper end of it.
pub fn hi<F: Facts>(view: &F, o: u64) -> Option<u64>
    requires { o < length (F.state view.now).objects }
    ensures { result ≡ hi (F.state view.now) o }
{
    view.count(o).hi
}

/// Whether an object is one node, come what may.
pub fn is_one<F: Facts>(view: &F, o: u64) -> bool
    requires { o < length (F.state view.now).objects }
    ensures { result ≡ is_one (F.state view.now) o }
{
    view.count(o).is_single()
}

/// Whether an edge has to lead from one object to another.
pub fn must<F: Facts>(view: &F, r: u32, a: u64, b: u64) -> bool
    requires reference { r < length (F.problem view.now).references }
    requires from { a < length (F.state view.now).objects }
    requires to { b < length (F.state view.now).objects }
    ensures { result ≡ must (F.problem view.now) (F.state view.now) r a b }
{
    view.fact(r, a, b).must()
}

/// Whether one can.
pub fn may<F: Facts>(view: &F, r: u32, a: u64, b: u64) -> bool
    requires reference { r < length (F.problem view.now).references }
    requires from { a < length (F.state view.now).objects }
    requires to { b < length (F.state view.now).objects }
    ensures { result ≡ may (F.problem view.now) (F.state view.now) r a b }
{
    view.fact(r, a, b).may()
}

pub fn is_unknown(truth: Truth) -> bool
    ensures { result ≡ is_unknown truth }
{
    matches!(truth, Truth::Unknown)
}

pub fn is_error(truth: Truth) -> bool
    ensures { result ≡ is_error truth }
{
    matches!(truth, Truth::Error)
}

pub fn is_false(truth: Truth) -> bool
    ensures { result ≡ is_false truth }
{
    matches!(truth, Truth::False)
}

/// Whether an end is less than `n`.
pub fn is_less(end: Option<u128>, n: u64) -> bool
    ensures { result ≡ is_less end n }
{
    match end {
        None => false,
        Some(end) => end < n as u128,
    }
}

/// Whether `n` is at least an end that is finite.
pub fn reaches(n: u128, end: Option<u64>) -> bool
    ensures { result ≡ reaches n end }
{
    match end {
        None => false,
        Some(end) => end as u128 <= n,
    }
}

/// Whether each candidate of an object is in a set.
pub fn each_candidate<F: Facts>(view: &F, o: u64, classes: ClassSet) -> bool
    requires { o < length (F.state view.now).objects }
    ensures { result ≡ each_candidate (F.problem view.now) (F.state view.now) o (contains classes) }
{
    view.candidates(o).without(classes).is_empty()
}

/// Whether some is.
pub fn any_candidate<F: Facts>(view: &F, o: u64, classes: ClassSet) -> bool
    requires { o < length (F.state view.now).objects }
    ensures { result ≡ any_candidate (F.problem view.now) (F.state view.now) o (contains classes) }
{
    !view.candidates(o).both(classes).is_empty()
}

/// Whether an object has a candidate.
pub fn has_candidate<F: Facts>(view: &F, o: u64) -> bool
    requires { o < length (F.state view.now).objects }
    ensures { result ≡ any_candidate (F.problem view.now) (F.state view.now) o (λ c. true) }
{
    !view.candidates(o).is_empty()
}

/// The classes that are class `top` or extend it.
pub fn classes_below(problem: &Problem, top: u32) -> ClassSet
    requires { top < length problem.now.classes }
    ensures { result ≡ classes_below problem.now top }
{
    problem.classes.below(top)
}

/// Whether each candidate of an object is below a class.
pub fn all_below<F: Facts>(view: &F, o: u64, top: u32) -> bool
    requires object { o < length (F.state view.now).objects }
    requires class { top < length (F.problem view.now).classes }
    ensures { result ≡ all_candidates (F.problem view.now) (F.state view.now) o top }
{
    each_candidate(view, o, view.problem().classes.below(top))
}

/// Whether some is.
pub fn some_below<F: Facts>(view: &F, o: u64, top: u32) -> bool
    requires object { o < length (F.state view.now).objects }
    requires class { top < length (F.problem view.now).classes }
    ensures { result ≡ some_candidate (F.problem view.now) (F.state view.now) o top }
{
    any_candidate(view, o, view.problem().classes.below(top))
}
