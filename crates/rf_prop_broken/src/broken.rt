//! The first tuple at which a predicate is broken.

ghost use Rattle.std.specs.Prelude.{◌≡◌, ◌≢◌, ◌<◌, ◌≤◌, ℕ, All, IfOk, OnOk, false, true, length};
ghost use Rattle.rf_values.specs.Truth.{merge};
ghost use Rattle.rf_values.specs.declared.truth.Truth.TheVariants.{False};
ghost use Rattle.rf_problem.specs.Asserted.{asserted};
ghost use Rattle.rf_problem.specs.Parts.{predicate_at};
ghost use Rattle.rf_problem.specs.declared.symbol.Symbol.TheVariants.{Predicate as Defined};
ghost use Rattle.rf_rules.specs.Predicates.{origins_of};
ghost use Rattle.rf_rules.specs.Words.{is_error};
ghost use Rattle.rf_state.specs.StateKnown.{value};
ghost use Rattle.rf_prop_broken.specs.Asserting.{is_affirmed};
ghost use Rattle.rf_prop_broken.specs.Best.{Improves, fires_at};
ghost use Rattle.rf_prop_broken.specs.Looking.{MayBeThere};
ghost use Rattle.rf_prop_broken.specs.Pending.{first_broken};
ghost use Rattle.rf_prop_broken.specs.declared.instances.Instances.TheVariants.{Broken};

use crate::asserted::{asserted_at, consider_affirmed, consider_matching};
use crate::instances::{Instances, consider};
use rf_finite::within;
use rf_rules::Rule;
use rf_state::{Evaluator, Facts, View};
use rf_values::{Objects, Truth, Tuple};
use std::alloc::{AllocError, Global};

// Whether each object that has to have a node may have one.
fn may_be_there<F: Facts>(view: &F) -> bool
    ensures { result ≡ true → MayBeThere (F.state view.now) }
{
    for o in 0..view.objects() {
        let count = view.count(o);
        if count.lo >= 1 && !within(1, count.hi) {
            return false;
        }
    }
    true
}

// Whether what is asserted of a predicate at a tuple contradicts its value there.
fn is_contradicted<F: Facts>(view: &F, q: u32, tuple: &Tuple, value: Truth) -> bool
    requires objects { All (λ o. o < length (F.state view.now).objects) tuple.now }
    requires arity { length tuple.now ≡ (predicate_at (F.problem view.now).predicates q).arity }
    ensures { result ≡ is_error (merge (asserted (F.problem view.now) (Defined q) (origins_of (F.state view.now) tuple.now)) value) }
{
    asserted_at(view, q, tuple.as_slice()).merge(value) == Truth::Error
}

// Considers `broken` at the tuples where the value of the predicate isn't false.
fn consider_listed<V: View>(
    alloc: Global,
    view: &V,
    q: u32,
    best: &mut Option<Objects>,
) -> Result<(), AllocError>
    requires predicate { q < length (V.problem view.now).predicates }
    requires nodes { MayBeThere (V.state view.now) }
    ensures { OnOk result (Improves (fires_at (V.problem view.now) (V.state view.now) (Broken q))
        (λ t. value (V.problem view.now) (V.state view.now) q t ≢ False) best.old best.new) }
{
    let mut evaluator = Evaluator::new(alloc, view);
    let values = evaluator.values(q)?;
    for i in 0..values.len() {
        let (tuple, value) = values[i];
        if is_contradicted(view, q, &tuple, value) {
            let objects = Objects::of(tuple.as_slice());
            consider(alloc, view, Instances::Broken(q), objects, best)?;
        }
    }
    Ok(())
}

// Considers `broken` at all tuples of so many objects.
fn consider_all<V: View>(
    alloc: Global,
    view: &V,
    q: u32,
    arity: usize,
    best: &mut Option<Objects>,
) -> Result<(), AllocError>
    requires { arity ≤ 4 }
    ensures { OnOk result (Improves (fires_at (V.problem view.now) (V.state view.now) (Broken q)) (λ t. length t ≡ arity) best.old best.new) }
{
    let any = [None; 4];
    consider_matching(alloc, view, q, &any[..arity], Objects::of(&[]), best)
}

// Considers `broken` wherever it may fire. Where an object that has to have a node can have none, values don't
// tell where, and all tuples are gone over.
fn consider_broken<V: View>(
    alloc: Global,
    view: &V,
    q: u32,
    best: &mut Option<Objects>,
) -> Result<(), AllocError>
    requires { q < length (V.problem view.now).predicates }
    ensures { OnOk result (Improves (fires_at (V.problem view.now) (V.state view.now) (Broken q))
        (λ t. length t ≡ (predicate_at (V.problem view.now).predicates q).arity) best.old best.new) }
{
    if !may_be_there(view) {
        let arity = view.problem().predicate(q).arity as usize;
        return consider_all(alloc, view, q, arity, best);
    }
    consider_listed(alloc, view, q, best)?;
    consider_affirmed(alloc, view, q, best)
}

/// The first tuple at which a predicate is broken.
pub fn first_broken<V: View>(alloc: Global, view: &V, q: u32) -> Result<Option<Rule>, AllocError>
    requires { q < length (V.problem view.now).predicates }
    ensures { IfOk result (λ rule. rule ≡ first_broken (V.problem view.now) (V.state view.now) q) }
{
    let mut best = None;
    consider_broken(alloc, view, q, &mut best)?;
    Ok(Instances::Broken(q).rule_at_best(best))
}
