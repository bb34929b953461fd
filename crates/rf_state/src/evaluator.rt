//! The values of predicates in a state.

ghost use Rattle.std.specs.Prelude.{◌≡◌, ◌<◌, ℕ, All, IfOk, length, max, nat_lt, slice_index};
ghost use Rattle.std.specs.FinSet.{contains};
ghost use Rattle.rf_problem.specs.Parts.{predicate_at};
ghost use Rattle.rf_evaluate.specs.Kept.{AreKept};
ghost use Rattle.rf_evaluate.specs.Literals.{clause_at, literal_at, literal_known};
ghost use Rattle.rf_state.specs.StateKnown.{state_known, value};
ghost use Rattle.rf_state.specs.Values.{AreValues};

use crate::Facts;
use crate::class_sets::class_numbers;
use crate::stated::{Stated, may_have_node};
use rf_evaluate::{Closures, TupleTest};
use rf_problem::{Problem, Symbol};
use rf_values::{ClassSet, Truth, Tuple};
use std::alloc::{AllocError, Global};

/// Whether each object of a tuple may have a node.
#[derive(Drop)]
struct HaveNodes<'f, F: Facts> {
    facts: &'f F,
}

impl<F: Facts> TupleTest for HaveNodes<'_, F> {
    ghost use Rattle.std.specs.List.{list_all};
    ghost use Rattle.rf_state.specs.Values.{may_have_node};

    ghost passes = { λ test tuple. list_all (may_have_node (F.state test.facts.now)) tuple };

    fn passes(&self, tuple: &[u64]) -> bool {
        tuple.iter().all(|o| may_have_node(self.facts, *o))
    }
}

/// What evaluates predicates in a state, for as long as the state stays as it is. The walks that it
/// searched serve the values that follow.
#[derive(Drop)]
pub struct Evaluator<'f, F: Facts> {
    facts: &'f F,
    // The numbers of the problem's classes.
    numbers: ClassSet,
    closures: Closures,
    ghost all: { (c : ℕ) → contains numbers c ≡ nat_lt c (length (F.problem facts.now).classes) },
    ghost kept: { AreKept (state_known (F.problem facts.now) (F.state facts.now)) closures },
}

impl<'f, F: Facts> Evaluator<'f, F> {
    /// One that has searched no walks yet.
    pub fn new(alloc: Global, facts: &'f F) -> Evaluator<'f, F>
        ensures { result.facts.now ≡ facts.now }
    {
        Evaluator {
            facts,
            numbers: class_numbers(facts.problem()),
            closures: Closures::new(alloc),
        }
    }

    /// The problem.
    pub fn problem(&self) -> &Problem
        ensures { result.now ≡ F.problem self.now.facts.now }
    {
        self.facts.problem()
    }

    fn stated(&self) -> Stated<'f, F>
        ensures { result.facts.now ≡ self.now.facts.now }
    {
        Stated {
            facts: self.facts,
            numbers: self.numbers,
        }
    }

    /// The value of a predicate at a tuple of objects. Where memory runs out, the answer is an `AllocError`.
    pub fn value(&mut self, predicate: u32, tuple: Tuple) -> Result<Truth, AllocError>
        requires declared { predicate < length (F.problem self.old.facts.now).predicates }
        requires arity { length tuple ≡ (predicate_at (F.problem self.old.facts.now).predicates predicate).arity }
        requires objects { All (λ o. o < length (F.state self.old.facts.now).objects) tuple }
        ensures facts { self.new.facts.now ≡ self.old.facts.now }
        ensures value { IfOk result (λ v. v ≡ value (F.problem self.old.facts.now) (F.state self.old.facts.now) predicate tuple) }
    {
        let stated = self.stated();
        let symbol = Symbol::Predicate(predicate);
        rf_evaluate::value(&stated, &mut self.closures, symbol, tuple.as_slice())
    }

    /// The value of a literal of a clause of a predicate, where the clause's variables stand for these
    /// objects. Where memory runs out, the answer is an `AllocError`.
    pub fn literal(
        &mut self,
        predicate: u32,
        clause: usize,
        literal: usize,
        objects: [u64; 8],
    ) -> Result<Truth, AllocError>
        requires predicate { predicate < length (F.problem self.old.facts.now).predicates }
        requires clause { clause < length (predicate_at (F.problem self.old.facts.now).predicates predicate).clauses }
        requires literal { literal < length (clause_at (F.problem self.old.facts.now) predicate clause).literals }
        requires objects { (v : ℕ) → slice_index objects v < max 1 (length (F.state self.old.facts.now).objects) }
        ensures facts { self.new.facts.now ≡ self.old.facts.now }
        ensures value { IfOk result (λ v. v ≡ literal_known (state_known (F.problem self.old.facts.now) (F.state self.old.facts.now))
            (clause_at (F.problem self.old.facts.now) predicate clause).variables literal (slice_index objects)
            (literal_at (clause_at (F.problem self.old.facts.now) predicate clause) literal)) }
    {
        let stated = self.stated();
        rf_evaluate::literal(
            &stated,
            &mut self.closures,
            predicate,
            clause,
            literal,
            objects,
        )
    }

    /// The values of a predicate that aren't false, at the tuples of objects that may have nodes, in
    /// lexicographic order of the tuples. What can make it other than false is gone over, not all tuples.
    /// Where memory runs out, the answer is an `AllocError`.
    pub fn values(&mut self, predicate: u32) -> Result<Vec<(Tuple, Truth)>, AllocError>
        requires { predicate < length (F.problem self.old.facts.now).predicates }
        ensures facts { self.new.facts.now ≡ self.old.facts.now }
        ensures values { IfOk result (λ values. AreValues (F.problem self.old.facts.now) (F.state self.old.facts.now) predicate values.items) }
    {
        let stated = self.stated();
        let test = HaveNodes { facts: self.facts };
        rf_evaluate::values(&stated, &mut self.closures, predicate, &test)
    }
}

/// The value of a predicate at a tuple of objects. Where memory runs out, the answer is an `AllocError`.
pub fn evaluate<F: Facts>(
    alloc: Global,
    facts: &F,
    predicate: u32,
    tuple: Tuple,
) -> Result<Truth, AllocError>
    requires declared { predicate < length (F.problem facts.now).predicates }
    requires arity { length tuple ≡ (predicate_at (F.problem facts.now).predicates predicate).arity }
    requires objects { All (λ o. o < length (F.state facts.now).objects) tuple }
    ensures { IfOk result (λ v. v ≡ value (F.problem facts.now) (F.state facts.now) predicate tuple) }
{
    let mut evaluator = Evaluator::new(alloc, facts);
    evaluator.value(predicate, tuple)
}
