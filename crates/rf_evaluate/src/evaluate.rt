//! What is known of symbols at elements.

ghost use Rattle.std.specs.Prelude.{◌≡◌, ◌<◌, ◌≤◌, ◌∷◌, ℕ, All, IfOk, IsTrue, false, true, Some, None, [], drop, length, max, slice_get, slice_index, slice_index_or, suc};
ghost use Rattle.rf_values.specs.declared.truth.Truth.TheVariants.{False};
ghost use Rattle.rf_problem.specs.Parts.{arity_of, predicate_at};
ghost use Rattle.rf_problem.specs.Reading.{atoms_among};
ghost use Rattle.rf_problem.specs.declared.predicate.Clause.{Clause as ClauseOf};
ghost use Rattle.rf_problem.specs.declared.predicate.Literal.{Literal as LiteralOf};
ghost use Rattle.rf_problem.specs.declared.symbol.Symbol.TheVariants.{Predicate as Defined};
ghost use Rattle.rf_evaluate.specs.Elements.{AreBelow, includes};
ghost use Rattle.rf_evaluate.specs.Evaluating.{AreCandidates, ClaimIsWithin, IsSoundBody, IsSoundClause, IsValueFor, IsWithin, claim_true, claim_value, clause_value, completed_value, completed_with, is_sound_claim, literal_value, some_clause_value, presence_from, some_truth, with_element};
ghost use Rattle.rf_evaluate.specs.Kept.{AreKept};
ghost use Rattle.rf_evaluate.specs.Known.{declares, in_both, value_of, walk_of};
ghost use Rattle.rf_evaluate.specs.Steps.{AreStepsOf, IsRowOf};
ghost use Rattle.rf_evaluate.specs.Terms.{AreElements};

use crate::assignment::{element_of, of_tuple};
use crate::claim::{Claim, elements_of_variables, with_atom};
use crate::closures::Closures;
use crate::elements::Elements;
use crate::knowledge::Knowledge;
use crate::next::next_variable;
use crate::stage::{Body, Stage};
use crate::steps::{Row, Steps};
use rf_problem::{Clause, Literal, Symbol, Term};
use rf_values::Truth;
use std::alloc::AllocError;

/// The value of a symbol at a tuple of as many elements as it has arguments.
///
/// A literal is evaluated as soon as each variable that it names has its element. A variable gets the
/// elements that are listed at one end of an edge that a literal asks for, where the other end has its
/// element, or else all. Walks that were searched are kept in `closures`, up to a bound. Where memory
/// runs out, the answer is an `AllocError`.
pub fn value<K: Knowledge>(
    known: &K,
    closures: &mut Closures,
    symbol: Symbol,
    tuple: &[u64],
) -> Result<Truth, AllocError>
    requires declared { IsTrue (declares (K.known known.now).problem symbol) }
    requires arity { length tuple.now ≡ arity_of (K.known known.now).problem.predicates symbol }
    requires elements { All (λ x. x < (K.known known.now).size) tuple.now }
    requires kept { AreKept (K.known known.now) closures.old }
    ensures kept { AreKept (K.known known.now) closures.new }
    ensures value { IfOk result (λ v. v ≡ value_of (K.known known.now) symbol tuple.now) }
{
    let depth = known.problem().predicates.len();
    symbol_value(known, closures, depth, symbol, of_tuple(tuple))
}

/// The value of a symbol.
#[cycle(evaluate)]
pub fn symbol_value<K: Knowledge>(
    known: &K,
    closures: &mut Closures,
    depth: usize,
    symbol: Symbol,
    elements: [u64; 8],
) -> Result<Truth, AllocError>
    requires declared { IsTrue (declares (K.known known.now).problem symbol) }
    requires depth { IsWithin (K.known known.now).problem.predicates depth symbol }
    requires elements { AreElements (K.known known.now).size elements }
    requires kept { AreKept (K.known known.now) closures.old }
    ensures kept { AreKept (K.known known.now) closures.new }
    ensures value { IfOk result (λ v. v ≡ value_of (K.known known.now) symbol elements) }
{
    let x = element_of(elements, 0);
    match symbol {
        Symbol::Class(c) => Ok(known.has_class(c, x)),
        Symbol::Reference(r) => Ok(known.has_edge(r, x, element_of(elements, 1))),
        Symbol::Predicate(q) => predicate_value(known, closures, depth, q, elements),
        Symbol::Exists => Ok(Truth::False),
        Symbol::Equals => Ok(Truth::False),
    }
}

/// The value of a predicate: that of some clause.
#[cycle(evaluate)]
fn predicate_value<K: Knowledge>(
    known: &K,
    closures: &mut Closures,
    depth: usize,
    q: u32,
    elements: [u64; 8],
) -> Result<Truth, AllocError>
    requires declared { q < length (K.known known.now).problem.predicates }
    requires depth { IsWithin (K.known known.now).problem.predicates depth (Defined q) }
    requires elements { AreElements (K.known known.now).size elements }
    requires kept { AreKept (K.known known.now) closures.old }
    ensures kept { AreKept (K.known known.now) closures.new }
    ensures value { IfOk result (λ v. v ≡ value_of (K.known known.now) (Defined q) elements) }
{
    if let Some(value) = known.kept_value(q, &elements) {
        return Ok(value);
    }
    let predicate = known.problem().predicate(q);
    some_clause(
        known,
        closures,
        depth - 1,
        predicate.arity as usize,
        predicate.clauses.as_slice(),
        elements,
    )
}

/// The value of one of the clauses holding.
#[cycle(evaluate)]
fn some_clause<K: Knowledge>(
    known: &K,
    closures: &mut Closures,
    depth: usize,
    arity: usize,
    clauses: &[Clause],
    elements: [u64; 8],
) -> Result<Truth, AllocError>
    requires sound { All (IsSoundClause (K.known known.now) depth) clauses.now }
    requires elements { AreElements (K.known known.now).size elements }
    requires kept { AreKept (K.known known.now) closures.old }
    ensures kept { AreKept (K.known known.now) closures.new }
    ensures value { IfOk result (λ v. v ≡ some_clause_value (K.known known.now) arity elements clauses.now) }
{
    let mut found = Truth::False;
    for clause in clauses {
        let body = body_of(clause, depth);
        let stage = Stage::of_clause(arity, &body, elements);
        found = found.or(completed(known, closures, &body, stage)?);
        if found == Truth::True {
            return Ok(found);
        }
    }
    Ok(found)
}

/// The literals of a clause.
pub fn body_of(clause: &Clause, depth: usize) -> Body<'_>
    ensures variables { result.variables.now ≡ clause.now.variables }
    ensures literals { result.literals.now ≡ clause.now.literals }
    ensures inner { result.is_inner ≡ false }
    ensures depth { result.depth ≡ depth }
{
    Body {
        variables: clause.variables.as_slice(),
        literals: clause.literals.as_slice(),
        is_inner: false,
        depth,
    }
}

/// The value of the literals that are left, for some elements for the unassigned variables.
#[cycle(evaluate)]
pub fn completed<K: Knowledge>(
    known: &K,
    closures: &mut Closures,
    body: &Body<'_>,
    stage: Stage,
) -> Result<Truth, AllocError>
    requires sound { IsSoundBody (K.known known.now) body.now }
    requires elements { AreElements (K.known known.now).size stage.elements }
    requires kept { AreKept (K.known known.now) closures.old }
    ensures kept { AreKept (K.known known.now) closures.new }
    ensures value { IfOk result (λ v. v ≡ completed_value (K.known known.now) body.now stage) }
{
    if let Some(i) = stage.first_ground(body) {
        let value = literal_value(known, closures, body, i, stage.elements)?;
        if value == Truth::False {
            return Ok(value);
        }
        return Ok(value.and(completed(known, closures, body, stage.without(i))?));
    }
    match next_variable(known, body, &stage, 0) {
        Some(next) => some_element(known, closures, body, stage, next.variable, next.elements),
        None => Ok(Truth::True),
    }
}

/// The same for one of these elements for a variable, and some for the other unassigned ones.
#[cycle(evaluate)]
fn some_element<K: Knowledge>(
    known: &K,
    closures: &mut Closures,
    body: &Body<'_>,
    stage: Stage,
    v: usize,
    elements: Elements<'_>,
) -> Result<Truth, AllocError>
    requires sound { IsSoundBody (K.known known.now) body.now }
    requires elements { AreElements (K.known known.now).size stage.elements }
    requires candidates { AreCandidates (K.known known.now) body.now stage v elements }
    requires kept { AreKept (K.known known.now) closures.old }
    ensures kept { AreKept (K.known known.now) closures.new }
    ensures value { IfOk result (λ value. value ≡ completed_value (K.known known.now) body.now stage) }
{
    let mut found = Truth::False;
    for number in 0..elements.count() {
        let x = elements.at(number);
        found = found.or(with_element(known, closures, body, stage, v, x)?);
        if found == Truth::True {
            return Ok(found);
        }
    }
    Ok(found)
}

/// The same for this element, where it is present.
#[cycle(evaluate)]
fn with_element<K: Knowledge>(
    known: &K,
    closures: &mut Closures,
    body: &Body<'_>,
    stage: Stage,
    v: usize,
    x: u64,
) -> Result<Truth, AllocError>
    requires sound { IsSoundBody (K.known known.now) body.now }
    requires elements { AreElements (K.known known.now).size stage.elements }
    requires variable { v < 8 }
    requires there { x < (K.known known.now).size }
    requires kept { AreKept (K.known known.now) closures.old }
    ensures kept { AreKept (K.known known.now) closures.new }
    ensures value { IfOk result (λ value. value ≡ completed_with (K.known known.now) body.now stage v x) }
{
    let presence = known.is_present(x);
    if presence == Truth::False {
        return Ok(presence);
    }
    Ok(presence.and(completed(known, closures, body, stage.with(v, x))?))
}

/// The value of literal number `i`.
#[cycle(evaluate)]
pub fn literal_value<K: Knowledge>(
    known: &K,
    closures: &mut Closures,
    body: &Body<'_>,
    i: usize,
    elements: [u64; 8],
) -> Result<Truth, AllocError>
    requires sound { IsSoundBody (K.known known.now) body.now }
    requires elements { AreElements (K.known known.now).size elements }
    requires literal { i < length body.now.literals.now }
    requires kept { AreKept (K.known known.now) closures.old }
    ensures kept { AreKept (K.known known.now) closures.new }
    ensures value { IfOk result (λ v. (l : LiteralOf) → slice_get body.now.literals.now i ≡ Some l
        → v ≡ literal_value (K.known known.now) body.now i l (slice_index elements)) }
{
    match &body.literals[i] {
        Literal::Call {
            negated,
            closure,
            symbol,
            args,
        } => {
            if *negated && !body.is_inner {
                let inner = inner_of(body);
                let stage = Stage::inside(i, &inner, elements);
                return Ok(completed(known, closures, &inner, stage)?.negate());
            }
            let claim = Claim::Holds {
                closure: *closure,
                symbol: *symbol,
            };
            claim_value(
                known,
                closures,
                body.depth,
                claim,
                args.as_slice(),
                elements,
            )
        }
        Literal::Same(a, b) => claim_value(
            known,
            closures,
            body.depth,
            Claim::Same,
            &[*a, *b],
            elements,
        ),
        Literal::Differ(a, b) => claim_value(
            known,
            closures,
            body.depth,
            Claim::Differ,
            &[*a, *b],
            elements,
        ),
    }
}

/// What stands inside the negation of one of the literals.
fn inner_of<'b>(body: &Body<'b>) -> Body<'b>
    ensures { result ≡ record { variables = body.now.variables; literals = body.now.literals; is_inner = true; depth = body.now.depth } }
{
    Body {
        variables: body.variables,
        literals: body.literals,
        is_inner: true,
        depth: body.depth,
    }
}

/// The value of a claim at its terms, for some elements for the atoms among them.
#[cycle(evaluate)]
fn claim_value<K: Knowledge>(
    known: &K,
    closures: &mut Closures,
    depth: usize,
    claim: Claim,
    terms: &[Term],
    elements: [u64; 8],
) -> Result<Truth, AllocError>
    requires sound { IsTrue (is_sound_claim (K.known known.now).problem claim) }
    requires depth { ClaimIsWithin (K.known known.now).problem.predicates depth claim }
    requires few_terms { length terms.now ≤ 8 }
    requires elements { AreElements (K.known known.now).size elements }
    requires kept { AreKept (K.known known.now) closures.old }
    ensures kept { AreKept (K.known known.now) closures.new }
    ensures value { IfOk result (λ v. v ≡ claim_value (K.known known.now) claim terms.now (slice_index elements)) }
{
    let places = elements_of_variables(elements, terms);
    claim_for_atoms(known, closures, depth, claim, terms, 0, places)
}

/// The same, but at these elements of its terms, and for some elements for the atoms among the terms
/// from number `n` on.
#[cycle(evaluate)]
fn claim_for_atoms<K: Knowledge>(
    known: &K,
    closures: &mut Closures,
    depth: usize,
    claim: Claim,
    terms: &[Term],
    n: usize,
    places: [u64; 8],
) -> Result<Truth, AllocError>
    requires sound { IsTrue (is_sound_claim (K.known known.now).problem claim) }
    requires depth { ClaimIsWithin (K.known known.now).problem.predicates depth claim }
    requires few_terms { length terms.now ≤ 8 }
    requires places { AreElements (K.known known.now).size places }
    requires kept { AreKept (K.known known.now) closures.old }
    ensures kept { AreKept (K.known known.now) closures.new }
    ensures value { IfOk result (IsValueFor (K.known known.now) claim terms.now places (atoms_among (drop n terms.now))) }
{
    if n >= terms.len() {
        return claim_at(known, closures, depth, claim, places);
    }
    match terms[n] {
        Term::Var(_) => claim_for_atoms(known, closures, depth, claim, terms, n + 1, places),
        Term::Atom(atom) => {
            claim_for_atom(known, closures, depth, claim, terms, n, atom, places)
        }
    }
}

/// The same for some element for this atom, which is term number `n`, and some for those after it.
#[cycle(evaluate)]
fn claim_for_atom<K: Knowledge>(
    known: &K,
    closures: &mut Closures,
    depth: usize,
    claim: Claim,
    terms: &[Term],
    n: usize,
    atom: u64,
    places: [u64; 8],
) -> Result<Truth, AllocError>
    requires sound { IsTrue (is_sound_claim (K.known known.now).problem claim) }
    requires depth { ClaimIsWithin (K.known known.now).problem.predicates depth claim }
    requires few_terms { length terms.now ≤ 8 }
    requires places { AreElements (K.known known.now).size places }
    requires place { n < length terms.now }
    requires kept { AreKept (K.known known.now) closures.old }
    ensures kept { AreKept (K.known known.now) closures.new }
    ensures value { IfOk result (IsValueFor (K.known known.now) claim terms.now places (atom ∷ atoms_among (drop (suc n) terms.now))) }
{
    let elements = known.from_object(atom);
    let mut found = Truth::False;
    for number in 0..elements.count() {
        let x = elements.at(number);
        let presence = presence_from(known, atom, x);
        if presence != Truth::False {
            let more = with_atom(places, terms, atom, x);
            let value = claim_for_atoms(known, closures, depth, claim, terms, n + 1, more)?;
            found = found.or(presence.and(value));
            if found == Truth::True {
                return Ok(found);
            }
        }
    }
    Ok(found)
}

/// Whether an element is present and comes from an object.
fn presence_from<K: Knowledge>(known: &K, object: u64, x: u64) -> Truth
    ensures { result ≡ presence_from (K.known known.now) object x }
{
    if known.origin(x) == object {
        known.is_present(x)
    } else {
        Truth::False
    }
}

/// The value of a claim at these elements.
#[cycle(evaluate)]
fn claim_at<K: Knowledge>(
    known: &K,
    closures: &mut Closures,
    depth: usize,
    claim: Claim,
    places: [u64; 8],
) -> Result<Truth, AllocError>
    requires sound { IsTrue (is_sound_claim (K.known known.now).problem claim) }
    requires depth { ClaimIsWithin (K.known known.now).problem.predicates depth claim }
    requires places { AreElements (K.known known.now).size places }
    requires kept { AreKept (K.known known.now) closures.old }
    ensures kept { AreKept (K.known known.now) closures.new }
    ensures value { IfOk result (λ v. v ≡ in_both (K.known known.now) (claim_true (K.known known.now) claim places)) }
{
    let x = element_of(places, 0);
    let y = element_of(places, 1);
    match claim {
        Claim::Holds { closure, symbol } => {
            if closure {
                return walk_value(known, closures, depth, symbol, x, y);
            }
            symbol_value(known, closures, depth, symbol, places)
        }
        Claim::Same => Ok(known.is_same(x, y)),
        Claim::Differ => Ok(known.is_different(x, y)),
    }
}

/// The value of a walk of one or more steps of a symbol.
#[cycle(evaluate)]
fn walk_value<K: Knowledge>(
    known: &K,
    closures: &mut Closures,
    depth: usize,
    symbol: Symbol,
    x: u64,
    y: u64,
) -> Result<Truth, AllocError>
    requires declared { IsTrue (declares (K.known known.now).problem symbol) }
    requires depth { IsWithin (K.known known.now).problem.predicates depth symbol }
    requires from { x < max 1 (K.known known.now).size }
    requires to { y < max 1 (K.known known.now).size }
    requires kept { AreKept (K.known known.now) closures.old }
    ensures kept { AreKept (K.known known.now) closures.new }
    ensures value { IfOk result (λ v. v ≡ walk_of (K.known known.now) symbol x y) }
{
    if let Some(value) = known.kept_walk(symbol, x, y) {
        return Ok(value);
    }
    if known.size() == 0 {
        return symbol_value(known, closures, depth, symbol, of_tuple(&[x, y]));
    }
    if !closures.has(symbol) {
        let steps = steps_of(known, closures, depth, symbol)?;
        closures.put(symbol, steps)?;
    }
    closures.walk(symbol, x, y)
}

/// The steps of a symbol.
#[cycle(evaluate)]
fn steps_of<K: Knowledge>(
    known: &K,
    closures: &mut Closures,
    depth: usize,
    symbol: Symbol,
) -> Result<Steps, AllocError>
    requires declared { IsTrue (declares (K.known known.now).problem symbol) }
    requires depth { IsWithin (K.known known.now).problem.predicates depth symbol }
    requires kept { AreKept (K.known known.now) closures.old }
    ensures kept { AreKept (K.known known.now) closures.new }
    ensures value { IfOk result (AreStepsOf (K.known known.now) symbol (K.known known.now).size) }
{
    let mut steps = Steps::new(closures.alloc());
    for x in 0..known.size() {
        let row = row_of(known, closures, depth, symbol, x)?;
        steps.push(row, known.is_present(x))?;
    }
    Ok(steps)
}

/// The steps of a symbol from element `x`.
#[cycle(evaluate)]
fn row_of<K: Knowledge>(
    known: &K,
    closures: &mut Closures,
    depth: usize,
    symbol: Symbol,
    x: u64,
) -> Result<Row, AllocError>
    requires declared { IsTrue (declares (K.known known.now).problem symbol) }
    requires depth { IsWithin (K.known known.now).problem.predicates depth symbol }
    requires from { x < (K.known known.now).size }
    requires kept { AreKept (K.known known.now) closures.old }
    ensures kept { AreKept (K.known known.now) closures.new }
    ensures value { IfOk result (IsRowOf (K.known known.now) symbol x) }
{
    let mut row = Row::new(closures.alloc());
    let ends = step_ends(known, symbol, x);
    for number in 0..ends.count() {
        let y = ends.at(number);
        let value = symbol_value(known, closures, depth, symbol, of_tuple(&[x, y]))?;
        row.add(y, value)?;
    }
    Ok(row)
}

/// The elements to which steps of a symbol can lead.
fn step_ends<'k, K: Knowledge>(known: &'k K, symbol: Symbol, x: u64) -> Elements<'k>
    requires declared { IsTrue (declares (K.known known.now).problem symbol) }
    ensures complete { (y : ℕ) → y < (K.known known.now).size → includes result y ≡ false → value_of (K.known known.now) symbol (x ∷ y ∷ []) ≡ False }
    ensures below { AreBelow (K.known known.now).size result }
{
    match symbol {
        Symbol::Reference(r) => known.ends_from(r, x),
        _ => Elements::Below(known.size()),
    }
}
