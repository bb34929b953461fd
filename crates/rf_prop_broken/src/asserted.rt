//! What is asserted of predicates at objects, and the objects at which an assertion can break one.

ghost use Rattle.std.specs.Prelude.{◌≡◌, ◌<◌, ◌≤◌, ◌+◌, ◌++◌, ◌∷◌, ℕ, All, [], false, true, length, OnOk};
ghost use Rattle.std.specs.List.{list_any};
ghost use Rattle.rf_problem.specs.Asserted.{asserted, matches};
ghost use Rattle.rf_problem.specs.Parts.{predicate_at};
ghost use Rattle.rf_problem.specs.declared.symbol.Symbol.TheVariants.{Predicate as Defined};
ghost use Rattle.rf_evaluate.specs.Elements.{AreBelow, includes};
ghost use Rattle.rf_rules.specs.Predicates.{origins_of};
ghost use Rattle.rf_state.specs.State.{object_of};
ghost use Rattle.rf_prop_broken.specs.Asserting.{Matches, affirms, denies, is_affirmed, is_deniable, speaks};
ghost use Rattle.rf_prop_broken.specs.Best.{Improves, fires_at};
ghost use Rattle.rf_prop_broken.specs.declared.instances.Instances.TheVariants.{Broken};

use crate::instances::{Instances, consider, with};
use rf_evaluate::Elements;
use rf_problem::{Assertion, Problem, Symbol};
use rf_state::{Facts, View};
use rf_values::{Objects, Truth, Tuple};
use std::alloc::{AllocError, Global};

// The objects of the problem that these come from.
fn origins_of<F: Facts>(view: &F, objects: &[u64]) -> Tuple
    requires objects { All (λ o. o < length (F.state view.now).objects) objects.now }
    requires few { length objects.now ≤ 4 }
    ensures { result ≡ origins_of (F.state view.now) objects.now }
{
    let mut origins = Tuple::of(&[]);
    for o in objects {
        origins = origins.with(view.origin(*o));
    }
    origins
}

/// What is asserted of a predicate at the origins of objects.
pub fn asserted_at<F: Facts>(view: &F, q: u32, objects: &[u64]) -> Truth
    requires objects { All (λ o. o < length (F.state view.now).objects) objects.now }
    requires arity { length objects.now ≡ (predicate_at (F.problem view.now).predicates q).arity }
    ensures { result ≡ asserted (F.problem view.now) (Defined q) (origins_of (F.state view.now) objects.now) }
{
    let origins = origins_of(view, objects);
    view.problem()
        .asserted(Symbol::Predicate(q), origins.as_slice())
}

// Whether an assertion speaks of a predicate.
fn speaks(assertion: &Assertion, q: u32) -> bool
    ensures { result ≡ speaks q assertion.now }
{
    match assertion.symbol {
        Symbol::Predicate(predicate) => predicate == q,
        _ => false,
    }
}

// Whether it says that the predicate holds, perhaps among other things.
fn affirms(assertion: &Assertion, q: u32) -> bool
    ensures { result ≡ affirms q assertion.now }
{
    speaks(assertion, q) && matches!(assertion.value, Truth::True | Truth::Error)
}

// Whether it says that the predicate doesn't hold, and nothing else.
fn denies(assertion: &Assertion, q: u32) -> bool
    ensures { result ≡ denies q assertion.now }
{
    speaks(assertion, q) && assertion.value == Truth::False
}

// Whether some of these says that the predicate doesn't hold.
fn some_denies(assertions: &[Assertion], q: u32) -> bool
    ensures { result ≡ list_any (denies q) assertions.now }
{
    assertions.iter().any(|a| denies(a, q))
}

/// Whether it can be asserted somewhere that a predicate doesn't hold.
pub fn is_deniable(problem: &Problem, q: u32) -> bool
    requires { q < length problem.now.predicates }
    ensures { result ≡ is_deniable problem.now q }
{
    problem.predicate(q).is_error || some_denies(problem.assertions.as_slice(), q)
}

// The objects that an argument of an assertion matches, perhaps among others.
fn elements_of<F: Facts>(view: &F, arg: Option<u64>) -> Elements<'_>
    ensures complete { (o : ℕ) → o < length (F.state view.now).objects → matches arg (object_of (F.state view.now) o).origin ≡ true → includes result o ≡ true }
    ensures below { AreBelow (length (F.state view.now).objects) result }
{
    match arg {
        None => Elements::Below(view.objects()),
        Some(origin) => view.from_origin(origin),
    }
}

/// Considers `broken` at all lists that go on from these objects with objects that the arguments match.
pub fn consider_matching<V: View>(
    alloc: Global,
    view: &V,
    q: u32,
    args: &[Option<u64>],
    objects: Objects,
    best: &mut Option<Objects>,
) -> Result<(), AllocError>
    requires { length objects + length args.now ≤ 4 }
    ensures { OnOk result (Improves (fires_at (V.problem view.now) (V.state view.now) (Broken q))
        (Matches (V.state view.now) objects args.now) best.old best.new) }
{
    let Some((arg, others)) = args.split_first() else {
        return consider(alloc, view, Instances::Broken(q), objects, best);
    };
    let elements = elements_of(view, *arg);
    for number in 0..elements.count() {
        let o = elements.at(number);
        consider_matching(alloc, view, q, others, with(objects, o), best)?;
    }
    Ok(())
}

/// Considers `broken` where some assertion says that the predicate holds.
pub fn consider_affirmed<V: View>(
    alloc: Global,
    view: &V,
    q: u32,
    best: &mut Option<Objects>,
) -> Result<(), AllocError>
    requires { q < length (V.problem view.now).predicates }
    ensures { OnOk result (Improves (fires_at (V.problem view.now) (V.state view.now) (Broken q))
        (λ t. is_affirmed (V.problem view.now) q (origins_of (V.state view.now) t) ≡ true) best.old best.new) }
{
    for assertion in view.problem().assertions.as_slice() {
        if affirms(assertion, q) && assertion.args.len() <= 4 {
            let args = assertion.args.as_slice();
            consider_matching(alloc, view, q, args, Objects::of(&[]), best)?;
        }
    }
    Ok(())
}
