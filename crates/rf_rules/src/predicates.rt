//! The rules of predicates.

ghost use Rattle.std.specs.Prelude.{◌≡◌, ◌<◌, ◌≤◌, ◌==◌, ◌&&◌, ◌||◌, ◌∷◌, ℕ, All, IfOk, IfNone, IfSome, [], false, length, max, slice_index, take};
ghost use Rattle.rf_finite.specs.Ends.{within};
ghost use Rattle.rf_problem.specs.Asserted.{asserted};
ghost use Rattle.rf_problem.specs.Parts.{predicate_at};
ghost use Rattle.rf_problem.specs.declared.predicate.Literal.TheVariants.{Call};
ghost use Rattle.rf_problem.specs.declared.symbol.Symbol.TheVariants.{Predicate, Reference};
ghost use Rattle.rf_state.specs.State.{State, fact};
ghost use Rattle.rf_rules.specs.Effects.{is_ready};
ghost use Rattle.rf_rules.specs.Forcing.{HasReference, IsNoEdgeCall};
ghost use Rattle.rf_rules.specs.Predicates.{are_there, broken, clause_at, forced, free_count, given, is_open, literal_at, literal_known, may_be_forced, object_of_term, origins_of, others_hold};
ghost use Rattle.rf_rules.specs.Words.{hi, is_false, is_unknown};
ghost use Rattle.rf_values.specs.Truth.{must as has_to};

use crate::Effect;
use crate::words::{hi, is_error, is_false, is_unknown, lo};
use rf_finite::within;
use rf_problem::{Clause, Literal, Problem, Symbol, Term};
use rf_state::{Evaluator, Facts, View};
use rf_values::{Objects, Truth, Tuple};
use std::alloc::{AllocError, Global};

/// Whether each of some objects has a node, come what may.
fn are_there<F: Facts>(view: &F, objects: &[u64]) -> bool
    requires { All (λ o. o < length (F.state view.now).objects) objects.now }
    ensures { result ≡ are_there (F.state view.now) objects.now }
{
    objects.iter().all(|o| lo(view, *o) >= 1)
}

/// The objects of the problem that these come from.
fn origins_of<F: Facts>(view: &F, objects: &[u64]) -> Tuple
    requires objects { All (λ o. o < length (F.state view.now).objects) objects.now }
    requires few { length objects.now ≤ 4 }
    ensures { result ≡ origins_of (F.state view.now) objects.now }
{
    let mut origins = Tuple::of(&[]);
    for o in objects {
        origins = origins.with(view.origin(*o));
    }
    origins
}

/// What is asserted of a predicate at the origins of objects.
fn asserted_at<F: Facts>(view: &F, q: u32, objects: &[u64]) -> Truth
    requires objects { All (λ o. o < length (F.state view.now).objects) objects.now }
    requires arity { length objects.now ≡ (predicate_at (F.problem view.now).predicates q).arity }
    ensures { result ≡ asserted (F.problem view.now) (Predicate q) (origins_of (F.state view.now) objects.now) }
{
    let origins = origins_of(view, objects);
    view.problem()
        .asserted(Symbol::Predicate(q), origins.as_slice())
}

/// Whether `broken` fires at a predicate and a tuple of objects. Where memory runs out, the answer is an
/// `AllocError`.
pub fn broken<V: View>(alloc: Global, view: &V, q: u32, tuple: Tuple) -> Result<bool, AllocError>
    requires predicate { q < length (V.problem view.now).predicates }
    requires arity { length tuple ≡ (predicate_at (V.problem view.now).predicates q).arity }
    requires objects { All (λ o. o < length (V.state view.now).objects) tuple }
    ensures { IfOk result (λ fires. fires ≡ is_ready (V.state view.now) (broken (V.problem view.now) (V.state view.now) q tuple)) }
{
    if !are_there(view, tuple.as_slice()) {
        return Ok(false);
    }
    let asserted = asserted_at(view, q, tuple.as_slice());
    let value = view.value(alloc, q, tuple)?;
    Ok(is_error(asserted.merge(value)))
}

/// The objects of a clause's variables: those that range over it have the given ones, in order.
fn given(variables: &[Option<u8>], objects: &[u64]) -> [u64; 8]
    requires { length variables.now ≤ 8 }
    ensures { slice_index result ≡ given variables.now objects.now }
{
    let mut places = [0; 8];
    let mut used = 0;
    for (v, entry) in variables.iter().enumerate() {
        if entry.is_none() && used < objects.len() {
            places[v] = objects[used];
            used += 1;
        }
    }
    places
}

/// The object that a term stands for.
fn object_of_term(places: [u64; 8], term: Term) -> u64
    ensures { result ≡ object_of_term (slice_index places) term }
{
    match term {
        Term::Var(v) => match places.get(v as usize) {
            Some(o) => *o,
            None => 0,
        },
        Term::Atom(o) => o,
    }
}

/// Whether a term may stand in the literal that is forced.
fn may_be_forced<F: Facts>(view: &F, variables: &[Option<u8>], negated: bool, term: Term) -> bool
    ensures { result ≡ may_be_forced (F.state view.now) variables.now negated term }
{
    match term {
        Term::Var(v) => match variables.get(v as usize) {
            Some(entry) => entry.is_none(),
            None => true,
        },
        Term::Atom(o) => !negated && o < view.objects(),
    }
}

/// Whether an object may have two nodes; where there is no such object, it has none.
fn may_be_two<F: Facts>(view: &F, o: u64) -> bool
    ensures { result ≡ within 2 (hi (F.state view.now) o) }
{
    o < view.objects() && within(2, hi(view, o))
}

/// Whether nothing is known of an edge.
fn is_edge_open<F: Facts>(view: &F, r: u32, a: u64, b: u64) -> bool
    requires { r < length (F.problem view.now).references }
    ensures { result ≡ is_unknown (fact (F.problem view.now) (F.state view.now) r a b) }
{
    a < view.objects() && b < view.objects() && is_unknown(view.fact(r, a, b))
}

/// A call of a reference without closure, as it stands in a clause.
#[derive(Clone, Copy)]
struct EdgeCall {
    negated: bool,
    reference: u32,
    from: Term,
    to: Term,
}

/// The call that a literal is, if it is such a call.
fn edge_call_of(literal: &Literal) -> Option<EdgeCall>
    ensures call { IfSome result (λ call. literal.now ≡ Call call.negated false (Reference call.reference) (call.from ∷ call.to ∷ [])) }
    ensures none { IfNone result (IsNoEdgeCall literal.now) }
{
    let Literal::Call {
        negated,
        closure: false,
        symbol: Symbol::Reference(reference),
        args,
    } = literal
    else {
        return None;
    };
    let &[from, to] = args.as_slice() else {
        return None;
    };
    Some(EdgeCall {
        negated: *negated,
        reference: *reference,
        from,
        to,
    })
}

/// Whether a literal is a call that may be forced, of an edge of which nothing is known.
fn is_open<F: Facts>(
    view: &F,
    variables: &[Option<u8>],
    places: [u64; 8],
    literal: &Literal,
) -> bool
    requires { HasReference (F.problem view.now) literal.now }
    ensures { result ≡ is_open (F.problem view.now) (F.state view.now) variables.now (slice_index places) literal.now }
{
    let Some(call) = edge_call_of(literal) else {
        return false;
    };
    let from = object_of_term(places, call.from);
    let to = object_of_term(places, call.to);
    may_be_forced(view, variables, call.negated, call.from)
        && may_be_forced(view, variables, call.negated, call.to)
        && (call.from != call.to || !may_be_two(view, from))
        && is_edge_open(view, call.reference, from, to)
}

/// A clause of a predicate.
fn clause_of(problem: &Problem, q: u32, k: u32) -> &Clause
    requires predicate { q < length problem.now.predicates }
    requires clause { k < length (predicate_at problem.now.predicates q).clauses }
    ensures { result.now ≡ clause_at problem.now q k }
{
    &problem.predicate(q).clauses[k as usize]
}

/// A literal of a clause.
fn literal_of(clause: &Clause, j: u32) -> &Literal
    requires { j < length clause.now.literals }
    ensures { result.now ≡ literal_at clause.now j }
{
    &clause.literals[j as usize]
}

/// Whether a literal of a clause is literal `j`, or has to hold.
fn holds_beside<F: Facts>(
    evaluator: &mut Evaluator<'_, F>,
    q: u32,
    k: u32,
    j: u32,
    i: usize,
    places: [u64; 8],
) -> Result<bool, AllocError>
    requires predicate { q < length (F.problem evaluator.old.facts.now).predicates }
    requires clause { k < length (predicate_at (F.problem evaluator.old.facts.now).predicates q).clauses }
    requires literal { i < length (clause_at (F.problem evaluator.old.facts.now) q k).literals }
    requires objects { (v : ℕ) → slice_index places v < max 1 (length (F.state evaluator.old.facts.now).objects) }
    ensures facts { evaluator.new.facts.now ≡ evaluator.old.facts.now }
    ensures holds { IfOk result (λ holds. holds ≡ (i == j || has_to (literal_known (F.problem evaluator.old.facts.now) (F.state evaluator.old.facts.now)
        (clause_at (F.problem evaluator.old.facts.now) q k).variables i (slice_index places)
        (literal_at (clause_at (F.problem evaluator.old.facts.now) q k) i)))) }
{
    if i == j as usize {
        return Ok(true);
    }
    Ok(evaluator.literal(q, k as usize, i, places)?.must())
}

/// Whether the literals of a clause but literal `j` have to hold.
fn others_hold<F: Facts>(
    alloc: Global,
    view: &F,
    q: u32,
    k: u32,
    j: u32,
    places: [u64; 8],
) -> Result<bool, AllocError>
    requires predicate { q < length (F.problem view.now).predicates }
    requires clause { k < length (predicate_at (F.problem view.now).predicates q).clauses }
    requires objects { (v : ℕ) → slice_index places v < max 1 (length (F.state view.now).objects) }
    ensures { IfOk result (λ hold. hold ≡ others_hold (F.problem view.now) (F.state view.now)
        (clause_at (F.problem view.now) q k).variables j 0 (slice_index places) (clause_at (F.problem view.now) q k).literals) }
{
    let literals = clause_of(view.problem(), q, k).literals.len();
    let mut evaluator = Evaluator::new(alloc, view);
    for i in 0..literals {
        if !holds_beside(&mut evaluator, q, k, j, i, places)? {
            return Ok(false);
        }
    }
    Ok(true)
}

/// Whether what is said before any literal is evaluated holds: it is asserted that the predicate doesn't
/// hold, the objects are there, and the literal is open.
fn may_force<F: Facts>(view: &F, q: u32, k: u32, j: u32, objects: &[u64], places: [u64; 8]) -> bool
    requires predicate { q < length (F.problem view.now).predicates }
    requires clause { k < length (predicate_at (F.problem view.now).predicates q).clauses }
    requires literal { j < length (clause_at (F.problem view.now) q k).literals }
    requires many { length objects.now ≡ free_count (clause_at (F.problem view.now) q k).variables }
    requires objects { All (λ o. o < length (F.state view.now).objects) objects.now }
    ensures { result ≡ (is_false (asserted (F.problem view.now) (Predicate q) (origins_of (F.state view.now) (take (predicate_at (F.problem view.now).predicates q).arity objects.now)))
        && (are_there (F.state view.now) objects.now
        && is_open (F.problem view.now) (F.state view.now) (clause_at (F.problem view.now) q k).variables (slice_index places) (literal_at (clause_at (F.problem view.now) q k) j))) }
{
    let problem = view.problem();
    let clause = clause_of(problem, q, k);
    let parameters = &objects[..problem.predicate(q).arity as usize];
    is_false(asserted_at(view, q, parameters))
        && are_there(view, objects)
        && is_open(
            view,
            clause.variables.as_slice(),
            places,
            literal_of(clause, j),
        )
}

/// Whether `forced` fires at a predicate, a clause, a literal of it, and objects for the variables that
/// range over the clause. Where memory runs out, the answer is an `AllocError`.
pub fn forced<V: View>(
    alloc: Global,
    view: &V,
    q: u32,
    k: u32,
    j: u32,
    objects: Objects,
) -> Result<bool, AllocError>
    requires predicate { q < length (V.problem view.now).predicates }
    requires clause { k < length (predicate_at (V.problem view.now).predicates q).clauses }
    requires literal { j < length (clause_at (V.problem view.now) q k).literals }
    requires many { length objects ≡ free_count (clause_at (V.problem view.now) q k).variables }
    requires objects { All (λ o. o < length (V.state view.now).objects) objects }
    ensures { IfOk result (λ fires. fires ≡ is_ready (V.state view.now) (forced (V.problem view.now) (V.state view.now) q k j objects)) }
{
    let clause = clause_of(view.problem(), q, k);
    let places = given(clause.variables.as_slice(), objects.as_slice());
    if !may_force(view, q, k, j, objects.as_slice(), places) {
        return Ok(false);
    }
    others_hold(alloc, view, q, k, j, places)
}

/// What `forced` does there.
pub fn forced_effect(problem: &Problem, q: u32, k: u32, j: u32, objects: Objects) -> Effect
    requires predicate { q < length problem.now.predicates }
    requires clause { k < length (predicate_at problem.now.predicates q).clauses }
    requires literal { j < length (clause_at problem.now q k).literals }
    ensures { (s : State) → result ≡ (forced problem.now s q k j objects).effect }
{
    let clause = clause_of(problem, q, k);
    let places = given(clause.variables.as_slice(), objects.as_slice());
    match edge_call_of(literal_of(clause, j)) {
        None => Effect::Merge(0, 0, 0, Truth::Unknown),
        Some(call) => Effect::Merge(
            call.reference,
            object_of_term(places, call.from),
            object_of_term(places, call.to),
            if call.negated {
                Truth::True
            } else {
                Truth::False
            },
        ),
    }
}
