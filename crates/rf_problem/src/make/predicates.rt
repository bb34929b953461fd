//! What the predicates of every problem keep.

ghost use Rattle.std.specs.Prelude.{◌≡◌, ◌≤◌, ◌↔◌, All, IsTrue, length, take};
ghost use Rattle.std.specs.FinSet.{contains};
ghost use Rattle.std.specs.List.{list_all, list_any};
ghost use Rattle.rf_bounds.specs.declared.TheConstants.{MOST_CLAUSES, MOST_PARAMETERS};
ghost use Rattle.rf_text.specs.Written.{CanBeQuoted};
ghost use Rattle.rf_finite.specs.Walks.{HasNoCycle};
ghost use Rattle.rf_problem.specs.Calling.{calls_one_of, clause_calls_one_of};
ghost use Rattle.rf_problem.specs.Parts.{predicate_at};
ghost use Rattle.rf_problem.specs.Valid.{ArePredicates, FitsClause, calls, is_free};

use super::cycles::{Edges, has_no_cycle};
use super::literals::{fit_literals, is_free};
use super::symbols::Declared;
use crate::{Class, Clause, Literal, ObjectDecl, Predicate, Reference, Symbol};
use rf_bounds::{MOST_CLAUSES, MOST_LITERALS, MOST_PARAMETERS, MOST_PREDICATES, MOST_VARIABLES};
use rf_text::can_be_quoted;
use rf_values::ClassSet;

// From each predicate an edge leads to each that it calls directly.
#[derive(Drop)]
struct Calling<'a> {
    predicates: &'a [Predicate],
}

fn calls_one_of(literal: &Literal, set: ClassSet) -> bool
    ensures { result ≡ calls_one_of (contains set) literal.now }
{
    match literal {
        Literal::Call {
            symbol: Symbol::Predicate(called),
            ..
        } => set.has(*called),
        _ => false,
    }
}

fn clause_calls_one_of(clause: &Clause, set: ClassSet) -> bool
    ensures { result ≡ clause_calls_one_of (contains set) clause.now }
{
    clause
        .literals
        .iter()
        .any(|literal| calls_one_of(literal, set))
}

fn predicate_calls_one_of(predicate: &Predicate, set: ClassSet) -> bool
    ensures { result ≡ list_any (clause_calls_one_of (contains set)) predicate.now.clauses }
{
    predicate
        .clauses
        .iter()
        .any(|clause| clause_calls_one_of(clause, set))
}

impl Edges for Calling<'_> {
    ghost size = { λ c. length c.predicates.now };

    ghost edge = { λ c. calls c.predicates.now };

    fn leads_into(&self, from: u32, ends: ClassSet) -> bool {
        predicate_calls_one_of(&self.predicates[from as usize], ends)
    }
}

fn call_no_cycle(predicates: &[Predicate]) -> bool
    requires { length predicates.now ≤ 256 }
    ensures { IsTrue result ↔ HasNoCycle (calls predicates.now) (length predicates.now) }
{
    has_no_cycle(&Calling { predicates }, predicates.len() as u32)
}

fn are_named(predicates: &[Predicate]) -> bool
    ensures { IsTrue result ↔ All (λ p. CanBeQuoted p.name) predicates.now }
{
    predicates.iter().all(|predicate| can_be_quoted(predicate.name.as_str().as_bytes()))
}

fn have_few_parameters(predicates: &[Predicate]) -> bool
    ensures { IsTrue result ↔ All (λ p. p.arity ≤ MOST_PARAMETERS) predicates.now }
{
    predicates
        .iter()
        .all(|predicate| predicate.arity as usize <= MOST_PARAMETERS)
}

fn have_few_clauses(predicates: &[Predicate]) -> bool
    ensures { IsTrue result ↔ All (λ p. length p.clauses ≤ MOST_CLAUSES) predicates.now }
{
    predicates
        .iter()
        .all(|predicate| predicate.clauses.len() <= MOST_CLAUSES)
}

fn are_free(entries: &[Option<u8>]) -> bool
    ensures { result ≡ list_all is_free entries.now }
{
    entries.iter().all(|entry| is_free(*entry))
}

fn fits_clause(declared: &Declared, arity: u8, clause: &Clause) -> bool
    ensures { IsTrue result ↔ FitsClause declared.now.classes declared.now.references declared.now.objects.now declared.now.predicates.now arity clause.now }
{
    if clause.variables.len() > MOST_VARIABLES {
        return false;
    }
    if clause.literals.len() > MOST_LITERALS + arity as usize {
        return false;
    }
    if arity as usize > clause.variables.len() {
        return false;
    }
    are_free(&clause.variables[..arity as usize])
        && fit_literals(declared, &clause.variables, &clause.literals)
}

fn has_fitting_clauses(declared: &Declared, predicate: &Predicate) -> bool
    ensures { IsTrue result ↔ All (FitsClause declared.now.classes declared.now.references declared.now.objects.now declared.now.predicates.now predicate.now.arity) predicate.now.clauses }
{
    predicate
        .clauses
        .iter()
        .all(|clause| fits_clause(declared, predicate.arity, clause))
}

fn have_fitting_clauses(declared: &Declared) -> bool
    ensures { IsTrue result ↔ All (λ p. All (FitsClause declared.now.classes declared.now.references declared.now.objects.now declared.now.predicates.now p.arity) p.clauses) declared.now.predicates.now }
{
    declared
        .predicates
        .iter()
        .all(|predicate| has_fitting_clauses(declared, predicate))
}

/// Whether they are what the predicates of every problem of these classes, references and objects are.
pub fn are_predicates(
    classes: &[Class],
    references: &[Reference],
    objects: &[ObjectDecl],
    predicates: &[Predicate],
) -> bool
    ensures { IsTrue result ↔ ArePredicates classes.now references.now objects.now predicates.now }
{
    if predicates.len() > MOST_PREDICATES {
        return false;
    }
    if !are_named(predicates) || !have_few_parameters(predicates) {
        return false;
    }
    let declared = Declared {
        classes: classes.len(),
        references: references.len(),
        objects,
        predicates,
    };
    if !have_few_clauses(predicates) || !have_fitting_clauses(&declared) {
        return false;
    }
    call_no_cycle(predicates)
}
