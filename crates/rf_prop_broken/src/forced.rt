//! The first objects at which a literal of a clause is forced.

ghost use Rattle.std.specs.Prelude.{◌≡◌, ◌<◌, ◌≤◌, ℕ, List, IfOk, IfSome, None, OnOk, false, true, length, max, slice_index, slice_index_or};
ghost use Rattle.rf_problem.specs.Parts.{predicate_at};
ghost use Rattle.rf_evaluate.specs.Elements.{AreBelow, includes};
ghost use Rattle.rf_rules.specs.Predicates.{clause_at, literal_at};
ghost use Rattle.rf_prop_broken.specs.Best.{Improves, fires_at};
ghost use Rattle.rf_prop_broken.specs.Looking.{GoesOn, IsLiteral, IsNext, fails_at};
ghost use Rattle.rf_prop_broken.specs.Pending.{first_at_literal};
ghost use Rattle.rf_prop_broken.specs.declared.instances.Instances.TheVariants.{Forced};

use crate::asserted::is_deniable;
use crate::choice::{Choice, collected};
use crate::edge::{Next, can_be_forced, edge_of};
use crate::instances::{Instances, consider};
use rf_evaluate::Elements;
use rf_problem::{Clause, Literal};
use rf_rules::Rule;
use rf_state::{Evaluator, View};
use rf_values::Objects;
use std::alloc::{AllocError, Global};

/// A literal of a clause of a predicate.
#[derive(Drop)]
struct Target<'v, V: View> {
    view: &'v V,
    predicate: u32,
    clause: u32,
    literal: u32,
    ghost is_there: { IsLiteral (V.problem view.now) predicate clause literal },
}

impl<'v, V: View> Target<'v, V> {
    fn instances(&self) -> Instances
        ensures { result ≡ Forced self.now.predicate self.now.clause self.now.literal }
    {
        Instances::Forced(self.predicate, self.clause, self.literal)
    }

    // The clause.
    fn clause(&self) -> &'v Clause
        ensures { result.now ≡ clause_at (V.problem self.now.view.now) self.now.predicate self.now.clause }
    {
        &self.view.problem().predicate(self.predicate).clauses[self.clause as usize]
    }

    // A literal of the clause.
    fn literal_at(&self, i: usize) -> &'v Literal
        requires { i < length (clause_at (V.problem self.now.view.now) self.now.predicate self.now.clause).literals }
        ensures { result.now ≡ literal_at (clause_at (V.problem self.now.view.now) self.now.predicate self.now.clause) i }
    {
        &self.clause().literals[i]
    }

    // Whether, with what is chosen, literal number `i` fails: literal `j` is known, or another needn't hold.
    fn fails(
        &self,
        evaluator: &mut Evaluator<'v, V>,
        choice: &Choice,
        i: usize,
    ) -> Result<bool, AllocError>
        requires literal { i < length (clause_at (V.problem self.now.view.now) self.now.predicate self.now.clause).literals }
        requires view { evaluator.old.facts.now ≡ self.now.view.now }
        requires objects { (v : ℕ) → slice_index choice.now.places v < max 1 (length (V.state self.now.view.now).objects) }
        ensures view { evaluator.new.facts.now ≡ evaluator.old.facts.now }
        ensures fails { IfOk result (λ fails. fails ≡ true → fails_at (V.problem self.now.view.now) (V.state self.now.view.now)
            self.now.predicate self.now.clause self.now.literal i (slice_index choice.now.places) ≡ true) }
    {
        if i == self.literal as usize {
            return Ok(match edge_of(self.literal_at(i)) {
                Some(edge) => edge.is_known(self.view, choice),
                None => false,
            });
        }
        let value = evaluator.literal(self.predicate, self.clause as usize, i, choice.places)?;
        Ok(!value.must())
    }

    // Whether, with what is chosen last, some literal fails.
    fn is_hopeless(
        &self,
        evaluator: &mut Evaluator<'v, V>,
        choice: &Choice,
    ) -> Result<bool, AllocError>
        requires view { evaluator.old.facts.now ≡ self.now.view.now }
        requires objects { (v : ℕ) → slice_index choice.now.places v < max 1 (length (V.state self.now.view.now).objects) }
        ensures view { evaluator.new.facts.now ≡ evaluator.old.facts.now }
        ensures hopeless { IfOk result (λ hopeless. hopeless ≡ true → (t : List ℕ) → GoesOn (clause_at (V.problem self.now.view.now) self.now.predicate self.now.clause).variables choice.now t
            → fires_at (V.problem self.now.view.now) (V.state self.now.view.now) (Forced self.now.predicate self.now.clause self.now.literal) t ≡ false) }
    {
        for i in 0..self.clause().literals.len() {
            if choice.is_due(self.literal_at(i)) && self.fails(evaluator, choice, i)? {
                return Ok(true);
            }
        }
        Ok(false)
    }

    // A variable that literal number `i` leads to.
    fn along(&self, choice: &Choice, i: usize) -> Option<Next<'v>>
        requires { i < length (clause_at (V.problem self.now.view.now) self.now.predicate self.now.clause).literals }
        ensures { IfSome result (λ next. IsNext (V.problem self.now.view.now) (V.state self.now.view.now)
            self.now.predicate self.now.clause self.now.literal choice.now next.variable next.elements) }
    {
        let edge = edge_of(self.literal_at(i))?;
        if edge.negated && i != self.literal as usize {
            return None;
        }
        edge.next(self.view, choice)
    }

    // The variable that gets its object next: one that a literal leads to, or else the first that waits.
    fn next(&self, choice: &Choice) -> Option<Next<'v>>
        requires { 0 < length (V.state self.now.view.now).objects }
        ensures next { IfSome result (λ next. IsNext (V.problem self.now.view.now) (V.state self.now.view.now)
            self.now.predicate self.now.clause self.now.literal choice.now next.variable next.elements) }
        ensures none { result ≡ None → (v : ℕ) → v < 8 → slice_index_or choice.now.waiting v false ≡ false }
    {
        for i in 0..self.clause().literals.len() {
            let next = self.along(choice, i);
            if next.is_some() {
                return next;
            }
        }
        let variable = choice.first_waiting()?;
        let elements = Elements::Below(self.view.objects());
        Some(Next { variable, elements })
    }

    // Considers the literal at all objects with which the clause's variables can go on from what is chosen.
    fn search(
        &self,
        alloc: Global,
        evaluator: &mut Evaluator<'v, V>,
        choice: &Choice,
        best: &mut Option<Objects>,
    ) -> Result<(), AllocError>
        requires view { evaluator.old.facts.now ≡ self.now.view.now }
        requires some { 0 < length (V.state self.now.view.now).objects }
        requires objects { (v : ℕ) → slice_index choice.now.places v < max 1 (length (V.state self.now.view.now).objects) }
        ensures view { evaluator.new.facts.now ≡ evaluator.old.facts.now }
        ensures improves { OnOk result (Improves (fires_at (V.problem self.now.view.now) (V.state self.now.view.now)
            (Forced self.now.predicate self.now.clause self.now.literal))
            (GoesOn (clause_at (V.problem self.now.view.now) self.now.predicate self.now.clause).variables choice.now) best.old best.new) }
    {
        if self.is_hopeless(evaluator, choice)? {
            return Ok(());
        }
        let Some(next) = self.next(choice) else {
            let objects = collected(self.clause().variables.as_slice(), &choice.places);
            return consider(alloc, self.view, self.instances(), objects, best);
        };
        for number in 0..next.elements.count() {
            let chosen = choice.with(next.variable, next.elements.at(number));
            self.search(alloc, evaluator, &chosen, best)?;
        }
        Ok(())
    }

    // Whether the literal may be forced at all: an edge can be, where it can be asserted that the predicate doesn't hold.
    fn may_be_forced(&self) -> bool
        ensures { result ≡ false → (t : List ℕ) → fires_at (V.problem self.now.view.now) (V.state self.now.view.now)
            (Forced self.now.predicate self.now.clause self.now.literal) t ≡ false }
    {
        if !can_be_forced(self.literal_at(self.literal as usize)) {
            return false;
        }
        is_deniable(self.view.problem(), self.predicate)
    }

    // Considers the literal wherever it may be forced.
    fn consider(&self, alloc: Global, best: &mut Option<Objects>) -> Result<(), AllocError>
        ensures { OnOk result (Improves (fires_at (V.problem self.now.view.now) (V.state self.now.view.now)
            (Forced self.now.predicate self.now.clause self.now.literal)) (λ t. Unit {0}) best.old best.new) }
    {
        if !self.may_be_forced() {
            return Ok(());
        }
        if self.view.objects() == 0 {
            return consider(alloc, self.view, self.instances(), Objects::of(&[]), best);
        }
        let mut evaluator = Evaluator::new(alloc, self.view);
        let choice = Choice::of(self.clause().variables.as_slice());
        self.search(alloc, &mut evaluator, &choice, best)
    }
}

/// The first objects at which a literal is forced.
pub fn first_at_literal<V: View>(
    alloc: Global,
    view: &V,
    q: u32,
    k: u32,
    j: u32,
) -> Result<Option<Rule>, AllocError>
    requires predicate { q < length (V.problem view.now).predicates }
    requires clause { k < length (predicate_at (V.problem view.now).predicates q).clauses }
    requires literal { j < length (clause_at (V.problem view.now) q k).literals }
    ensures { IfOk result (λ rule. rule ≡ first_at_literal (V.problem view.now) (V.state view.now) q k j) }
{
    let target = Target {
        view,
        predicate: q,
        clause: k,
        literal: j,
    };
    let mut best = None;
    target.consider(alloc, &mut best)?;
    Ok(target.instances().rule_at_best(best))
}
