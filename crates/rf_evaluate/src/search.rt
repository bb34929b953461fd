//! The tuples at which a predicate isn't known to be false and a test passes.

ghost use Rattle.std.specs.Prelude.{◌≡◌, ◌<◌, ◌≤◌, ◌↔◌, ℕ, List, IfOk, OnOk, IsTrue, length};
ghost use Rattle.std.specs.Cmp.Lexicographic.{slice_cmp};
ghost use Rattle.std.specs.Ordering.{nat_cmp};
ghost use Rattle.rf_finite.specs.Firsts.{IsFirstOf};
ghost use Rattle.rf_problem.specs.Valid.{FitsClause};
ghost use Rattle.rf_evaluate.specs.Evaluating.{IsSoundBody, IsSoundClause};
ghost use Rattle.rf_evaluate.specs.Gathering.{Column, HasGathered};
ghost use Rattle.rf_evaluate.specs.Hunts.{AreClosed, GoesOn, IsFoundAt, IsMet, IsPlaced, IsReached, value_with};
ghost use Rattle.rf_evaluate.specs.Kept.{AreKept};
ghost use Rattle.rf_evaluate.specs.Search.{AreValuesFound, IsFound};

use crate::closures::Closures;
use crate::evaluate::{body_of, completed, literal_value};
use crate::gather::Gather;
use crate::knowledge::Knowledge;
use crate::next::next_variable;
use crate::stage::{Body, Stage};
use rf_problem::Clause;
use rf_values::{Truth, Tuple};
use std::alloc::AllocError;
use std::collections::BTreeMap;

/// A test of tuples.
pub trait TupleTest {
    ghost use Rattle.std.specs.Prelude.{ℕ, Bool, List, ◌≡◌};

    ghost passes: { Self → List ℕ → Bool };

    /// Whether a tuple passes.
    fn passes(&self, tuple: &[u64]) -> bool
        ensures { result ≡ passes self.now tuple.now };
}

/// What is looked for: tuples of so many numbers, at which the body isn't false and the test passes.
#[derive(Drop)]
struct Hunt<'h, T> {
    body: Body<'h>,
    arity: usize,
    test: &'h T,
}

/// Whether no tuple that goes on from this stage need be added any more.
fn is_covered<G: Gather>(gathered: &G, stage: &Stage, arity: usize) -> bool
    ensures { IsTrue result → (t : List ℕ) → length t ≡ arity → GoesOn stage.now t → (c : Column) → G.covers gathered.now t c }
{
    arity > 0 && !stage.unassigned[0] && gathered.covers_from(stage.elements[0])
}

/// Whether each parameter has its element.
fn are_closed(stage: &Stage, arity: usize) -> bool
    requires { arity ≤ 4 }
    ensures { IsTrue result ↔ AreClosed arity stage.now }
{
    for v in 0..arity {
        if stage.unassigned[v] {
            return false;
        }
    }
    true
}

/// Adds the tuple of the parameters' elements with the truth of the body there, where it is one that is
/// looked for.
fn judge<K: Knowledge, T: TupleTest, G: Gather>(
    known: &K,
    closures: &mut Closures,
    hunt: &Hunt<'_, T>,
    stage: Stage,
    value: Truth,
    gathered: &mut G,
) -> Result<(), AllocError>
    requires sound { IsSoundBody (K.known known.now) hunt.now.body }
    requires few { hunt.now.arity ≤ 4 }
    requires placed { IsPlaced (K.known known.now) hunt.now.arity stage }
    requires closed { AreClosed hunt.now.arity stage }
    requires kept { AreKept (K.known known.now) closures.old }
    ensures kept { AreKept (K.known known.now) closures.new }
    ensures gathered { OnOk result (HasGathered G.has G.covers
        (IsReached (K.known known.now) hunt.now.body (T.passes hunt.now.test.now) hunt.now.arity stage value)
        gathered.old gathered.new) }
{
    let tuple = Tuple::of(&stage.elements[..hunt.arity]);
    if gathered.is_settled(tuple, value) {
        return Ok(());
    }
    if !hunt.test.passes(tuple.as_slice()) {
        return Ok(());
    }
    let rest = completed(known, closures, &hunt.body, stage)?;
    let met = value.and(rest);
    if met == Truth::False {
        return Ok(());
    }
    gathered.add(tuple, met)
}

/// Adds the tuples that are looked for and go on from this stage with the truths of the body there, where
/// what was evaluated so far has this value.
#[cycle(search)]
fn search<K: Knowledge, T: TupleTest, G: Gather>(
    known: &K,
    closures: &mut Closures,
    hunt: &Hunt<'_, T>,
    stage: Stage,
    value: Truth,
    gathered: &mut G,
) -> Result<(), AllocError>
    requires sound { IsSoundBody (K.known known.now) hunt.now.body }
    requires few { hunt.now.arity ≤ 4 }
    requires placed { IsPlaced (K.known known.now) hunt.now.arity stage }
    requires kept { AreKept (K.known known.now) closures.old }
    ensures kept { AreKept (K.known known.now) closures.new }
    ensures gathered { OnOk result (HasGathered G.has G.covers
        (IsReached (K.known known.now) hunt.now.body (T.passes hunt.now.test.now) hunt.now.arity stage value)
        gathered.old gathered.new) }
{
    if value == Truth::False || is_covered(gathered, &stage, hunt.arity) {
        return Ok(());
    }
    if let Some(i) = stage.first_ground(&hunt.body) {
        let own = literal_value(known, closures, &hunt.body, i, stage.elements)?;
        return search(
            known,
            closures,
            hunt,
            stage.without(i),
            value.and(own),
            gathered,
        );
    }
    if are_closed(&stage, hunt.arity) {
        return judge(known, closures, hunt, stage, value, gathered);
    }
    search_on(known, closures, hunt, stage, value, gathered)
}

/// The same with the next variable's elements one by one.
#[cycle(search)]
fn search_on<K: Knowledge, T: TupleTest, G: Gather>(
    known: &K,
    closures: &mut Closures,
    hunt: &Hunt<'_, T>,
    stage: Stage,
    value: Truth,
    gathered: &mut G,
) -> Result<(), AllocError>
    requires sound { IsSoundBody (K.known known.now) hunt.now.body }
    requires few { hunt.now.arity ≤ 4 }
    requires placed { IsPlaced (K.known known.now) hunt.now.arity stage }
    requires left { AreClosed hunt.now.arity stage → ⊥ }
    requires kept { AreKept (K.known known.now) closures.old }
    ensures kept { AreKept (K.known known.now) closures.new }
    ensures gathered { OnOk result (HasGathered G.has G.covers
        (IsReached (K.known known.now) hunt.now.body (T.passes hunt.now.test.now) hunt.now.arity stage value)
        gathered.old gathered.new) }
{
    let Some(next) = next_variable(known, &hunt.body, &stage, hunt.arity) else {
        return Ok(());
    };
    let v = next.variable;
    for number in 0..next.elements.count() {
        let x = next.elements.at(number);
        let more = value_with(known, hunt.arity, v, value, x);
        search(known, closures, hunt, stage.with(v, x), more, gathered)?;
    }
    Ok(())
}

/// What was evaluated so far, with this element for a variable: a parameter ranges over all elements,
/// another variable over those that are present.
fn value_with<K: Knowledge>(known: &K, arity: usize, v: usize, value: Truth, x: u64) -> Truth
    ensures { result ≡ value_with (K.known known.now) arity v value x }
{
    if v < arity {
        value
    } else {
        value.and(known.is_present(x))
    }
}

/// Adds the tuples at which a clause isn't false and a test passes, with truths that together are its value.
fn search_clause<K: Knowledge, T: TupleTest, G: Gather>(
    known: &K,
    closures: &mut Closures,
    clause: &Clause,
    arity: usize,
    test: &T,
    gathered: &mut G,
) -> Result<(), AllocError>
    requires sound { IsSoundClause (K.known known.now) (length (K.known known.now).problem.predicates) clause.now }
    requires few { arity ≤ 4 }
    requires parameters { FitsClause (length (K.known known.now).problem.classes) (length (K.known known.now).problem.references)
        (K.known known.now).problem.objects (K.known known.now).problem.predicates arity clause.now }
    requires kept { AreKept (K.known known.now) closures.old }
    ensures kept { AreKept (K.known known.now) closures.new }
    ensures gathered { OnOk result (HasGathered G.has G.covers
        (IsFoundAt (K.known known.now) (T.passes test.now) arity clause.now) gathered.old gathered.new) }
{
    let hunt = Hunt {
        body: body_of(clause, known.problem().predicates.len()),
        arity,
        test,
    };
    let stage = Stage::of_clause(0, &hunt.body, [0; 8]);
    search(known, closures, &hunt, stage, Truth::True, gathered)
}

/// Adds the tuples of as many elements as a predicate has parameters, at which its value isn't false
/// and a test passes, with truths that together are the value.
fn search_predicate<K: Knowledge, T: TupleTest, G: Gather>(
    known: &K,
    closures: &mut Closures,
    predicate: u32,
    test: &T,
    gathered: &mut G,
) -> Result<(), AllocError>
    requires declared { predicate < length (K.known known.now).problem.predicates }
    requires kept { AreKept (K.known known.now) closures.old }
    ensures kept { AreKept (K.known known.now) closures.new }
    ensures gathered { OnOk result (HasGathered G.has G.covers
        (IsMet (K.known known.now) predicate (T.passes test.now)) gathered.old gathered.new) }
{
    let declared = known.problem().predicate(predicate);
    let arity = declared.arity as usize;
    for clause in declared.clauses.iter() {
        search_clause(known, closures, clause, arity, test, gathered)?;
    }
    Ok(())
}

/// The first tuple of as many elements as a predicate has parameters, at which its value isn't false
/// and a test passes.
///
/// What can make the predicate hold is gone over, not all tuples: where a literal of a clause asks for
/// an edge whose one end has its element, its other end goes over the elements that are listed there.
pub fn first_tuple<K: Knowledge, T: TupleTest>(
    known: &K,
    closures: &mut Closures,
    predicate: u32,
    test: &T,
) -> Result<Option<Tuple>, AllocError>
    requires declared { predicate < length (K.known known.now).problem.predicates }
    requires kept { AreKept (K.known known.now) closures.old }
    ensures kept { AreKept (K.known known.now) closures.new }
    ensures first { IfOk result (IsFirstOf (slice_cmp nat_cmp) (IsFound (K.known known.now) predicate (T.passes test.now))) }
{
    let mut first = None;
    search_predicate(known, closures, predicate, test, &mut first)?;
    Ok(first)
}

/// The values of a predicate that aren't false, at the tuples of as many elements as it has parameters
/// that pass a test, in lexicographic order of the tuples. What can make the predicate hold is gone
/// over, as by `first_tuple`.
pub fn values<K: Knowledge, T: TupleTest>(
    known: &K,
    closures: &mut Closures,
    predicate: u32,
    test: &T,
) -> Result<Vec<(Tuple, Truth)>, AllocError>
    requires declared { predicate < length (K.known known.now).problem.predicates }
    requires kept { AreKept (K.known known.now) closures.old }
    ensures kept { AreKept (K.known known.now) closures.new }
    ensures found { IfOk result (λ values. AreValuesFound (K.known known.now) predicate (T.passes test.now) values.items) }
{
    let alloc = closures.alloc();
    let mut values = BTreeMap::new(alloc);
    search_predicate(known, closures, predicate, test, &mut values)?;
    values.into_iter().collect(alloc)
}
