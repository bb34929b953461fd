//! The rows of each kind of rule, which are the predicates.

ghost use Rattle.std.specs.Prelude.{◌≡◌, ◌<◌, IfOk, length};
ghost use Rattle.rf_problem.specs.Parts.{predicate_at};
ghost use Rattle.rf_pending.specs.Rows.{Covers};
ghost use Rattle.rf_rules.specs.Predicates.{clause_at, free_count};
ghost use Rattle.rf_prop_broken.specs.Kinds.{first_of_predicate, least_of_predicates};
ghost use Rattle.rf_prop_broken.specs.Pending.{first_at_literal, first_broken, first_forced, first_in_clause};

use crate::broken::first_broken;
use crate::forced::first_at_literal;
use rf_pending::{Marks, Rows};
use rf_problem::{Clause, Problem};
use rf_rules::Rule;
use rf_state::View;
use std::alloc::{AllocError, Global};

/// A kind of rule.
#[derive(Clone, Copy, Debug)]
pub enum Kind {
    Broken,
    Forced,
}

#[derive(Drop)]
struct Predicates<'v, V: View> {
    view: &'v V,
    kind: Kind,
}

// A clause of a predicate.
fn clause_of(problem: &Problem, q: u32, k: u32) -> &Clause
    requires predicate { q < length problem.now.predicates }
    requires clause { k < length (predicate_at problem.now.predicates q).clauses }
    ensures { result.now ≡ clause_at problem.now q k }
{
    &problem.predicate(q).clauses[k as usize]
}

// The first literal of a clause that is forced.
fn first_in_clause<V: View>(
    alloc: Global,
    view: &V,
    q: u32,
    k: u32,
) -> Result<Option<Rule>, AllocError>
    requires predicate { q < length (V.problem view.now).predicates }
    requires clause { k < length (predicate_at (V.problem view.now).predicates q).clauses }
    ensures { IfOk result (λ rule. rule ≡ first_in_clause (V.problem view.now) (V.state view.now) q k) }
{
    for j in 0..clause_of(view.problem(), q, k).literals.len() as u32 {
        if let Some(rule) = first_at_literal(alloc, view, q, k, j)? {
            return Ok(Some(rule));
        }
    }
    Ok(None)
}

// The first literal of a predicate that is forced.
fn first_forced<V: View>(alloc: Global, view: &V, q: u32) -> Result<Option<Rule>, AllocError>
    requires { q < length (V.problem view.now).predicates }
    ensures { IfOk result (λ rule. rule ≡ first_forced (V.problem view.now) (V.state view.now) q) }
{
    for k in 0..view.problem().predicate(q).clauses.len() as u32 {
        if let Some(rule) = first_in_clause(alloc, view, q, k)? {
            return Ok(Some(rule));
        }
    }
    Ok(None)
}

impl<V: View> Rows for Predicates<'_, V> {
    ghost use Rattle.std.specs.Prelude.{length};
    ghost use Rattle.rf_prop_broken.specs.Kinds.{first_of_predicate};

    ghost many = { λ rows. length (V.problem rows.view.now).predicates };

    ghost found = { λ rows q. first_of_predicate (V.problem rows.view.now) (V.state rows.view.now) rows.kind q };

    fn find(&self, alloc: Global, row: u64) -> Result<Option<Rule>, AllocError> {
        match self.kind {
            Kind::Broken => first_broken(alloc, self.view, row as u32),
            Kind::Forced => first_forced(alloc, self.view, row as u32),
        }
    }
}

/// The least rule of a kind that fires.
pub fn least_of<V: View>(
    alloc: Global,
    view: &V,
    kind: Kind,
    marks: &mut Marks,
) -> Result<Option<Rule>, AllocError>
    requires { Covers (length (V.problem view.now).predicates) (first_of_predicate (V.problem view.now) (V.state view.now) kind) marks.old }
    ensures least { IfOk result (λ rule. rule ≡ least_of_predicates (V.problem view.now) (V.state view.now) kind) }
    ensures covers { Covers (length (V.problem view.now).predicates) (first_of_predicate (V.problem view.now) (V.state view.now) kind) marks.new }
{
    rf_pending::least(alloc, &Predicates { view, kind }, marks)
}
