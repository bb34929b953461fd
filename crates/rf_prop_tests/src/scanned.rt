//! The least rules that fire, found by asking each rule whether it does.

use crate::kinds::{Kind, Numbers, rule_at};
use rf_problem::Problem;
use rf_rules::{Rule, fires};
use rf_state::View;
use std::alloc::{AllocError, Global};

const TYPES: [Kind; 5] = [
    Kind::Empty,
    Kind::NoClass,
    Kind::Src,
    Kind::Tgt,
    Kind::Clash,
];

const DEGREES: [Kind; 5] = [
    Kind::Full,
    Kind::Room,
    Kind::Need,
    Kind::NeedCount,
    Kind::TypeLow,
];

const CONTAINMENT: [Kind; 6] = [
    Kind::OneContainer,
    Kind::Alone,
    Kind::MustContain,
    Kind::ContainCount,
    Kind::NoContainer,
    Kind::Acyclic,
];

const SCOPES: [Kind; 5] = [
    Kind::Under,
    Kind::ScopeTop,
    Kind::ScopeBottom,
    Kind::ScopeOut,
    Kind::ScopeIn,
];

// The list of numbers at a place among all lists of numbers below these ends, in order.
fn numbers_at(row: [u32; 3], ends: &[u64], place: u64) -> Numbers {
    let many = ends.len().min(8);
    let mut others = [0; 8];
    let mut rest = place;
    for k in (0..many).rev() {
        let end = ends[k].max(1);
        others[k] = rest % end;
        rest /= end;
    }
    Numbers { row, others, many }
}

// How many lists of numbers below these ends there are.
fn lists_below(ends: &[u64]) -> u64 {
    let mut many: u64 = 1;
    for end in ends {
        many = many.saturating_mul(*end);
    }
    many
}

// The least rule of a row that fires.
fn first_in_row<V: View>(
    alloc: Global,
    view: &V,
    kind: Kind,
    row: [u32; 3],
    ends: &[u64],
) -> Result<Option<Rule>, AllocError> {
    for place in 0..lists_below(ends) {
        let rule = rule_at(kind, &numbers_at(row, ends, place));
        if fires(alloc, view, &rule)? {
            return Ok(Some(rule));
        }
    }
    Ok(None)
}

// How many rows of a kind there are.
fn rows_of(problem: &Problem, kind: Kind) -> usize {
    match kind {
        Kind::Empty | Kind::NoClass | Kind::NoContainer => 1,
        Kind::Under | Kind::ScopeTop | Kind::ScopeBottom => problem.scopes.len(),
        Kind::ScopeOut | Kind::ScopeIn => problem.scopes.len(),
        _ => problem.references.len(),
    }
}

// The ends below which the numbers in each row of a kind are, and how many there are.
fn ends_of<V: View>(view: &V, kind: Kind) -> ([u64; 4], usize) {
    let objects = view.objects();
    let references = view.problem().references.len() as u64;
    match kind {
        Kind::Under => ([0; 4], 0),
        Kind::Empty | Kind::NoClass | Kind::NoContainer => ([objects; 4], 1),
        Kind::TypeLow | Kind::ScopeTop | Kind::ScopeBottom => ([objects; 4], 1),
        Kind::ScopeOut | Kind::ScopeIn => ([objects; 4], 1),
        Kind::Clash => ([objects, objects, 2, 0], 3),
        Kind::OneContainer => ([objects, objects, references, objects], 4),
        _ => ([objects; 4], 2),
    }
}

// The least rule of a kind that fires.
fn first_of_kind<V: View>(alloc: Global, view: &V, kind: Kind) -> Result<Option<Rule>, AllocError> {
    let (ends, many) = ends_of(view, kind);
    for row in 0..rows_of(view.problem(), kind).min(1_000) as u32 {
        if let Some(rule) = first_in_row(alloc, view, kind, [row, 0, 0], &ends[..many.min(4)])? {
            return Ok(Some(rule));
        }
    }
    Ok(None)
}

// The least rule of some kinds that fires.
fn first_of_kinds<V: View>(
    alloc: Global,
    view: &V,
    kinds: &[Kind],
) -> Result<Option<Rule>, AllocError> {
    for kind in kinds {
        if let Some(rule) = first_of_kind(alloc, view, *kind)? {
            return Ok(Some(rule));
        }
    }
    Ok(None)
}

fn first_broken<V: View>(alloc: Global, view: &V) -> Result<Option<Rule>, AllocError> {
    for q in 0..view.problem().predicates.len() as u32 {
        let arity = (view.problem().predicate(q).arity as usize).min(8);
        let ends = [view.objects(); 8];
        if let Some(rule) = first_in_row(alloc, view, Kind::Broken, [q, 0, 0], &ends[..arity])? {
            return Ok(Some(rule));
        }
    }
    Ok(None)
}

// How many literals a clause of a predicate has, and how many variables range over it.
fn size_of_clause(problem: &Problem, q: u32, k: u32) -> (u32, usize) {
    if q as usize >= problem.predicates.len() {
        return (0, 0);
    }
    match problem.predicate(q).clauses.get(k as usize) {
        None => (0, 0),
        Some(clause) => {
            let ranging = clause.variables.iter().filter(|entry| entry.is_none());
            (clause.literals.len().min(1_000) as u32, ranging.count())
        }
    }
}

fn first_in_clause<V: View>(
    alloc: Global,
    view: &V,
    q: u32,
    k: u32,
) -> Result<Option<Rule>, AllocError> {
    let (literals, ranging) = size_of_clause(view.problem(), q, k);
    let ends = [view.objects(); 8];
    let ends = &ends[..ranging.min(8)];
    for j in 0..literals {
        if let Some(rule) = first_in_row(alloc, view, Kind::Forced, [q, k, j], ends)? {
            return Ok(Some(rule));
        }
    }
    Ok(None)
}

fn first_in_clauses<V: View>(alloc: Global, view: &V, q: u32) -> Result<Option<Rule>, AllocError> {
    for k in 0..64 {
        if let Some(rule) = first_in_clause(alloc, view, q, k)? {
            return Ok(Some(rule));
        }
    }
    Ok(None)
}

fn first_forced<V: View>(alloc: Global, view: &V) -> Result<Option<Rule>, AllocError> {
    for q in 0..view.problem().predicates.len() as u32 {
        if let Some(rule) = first_in_clauses(alloc, view, q)? {
            return Ok(Some(rule));
        }
    }
    Ok(None)
}

/// For each family the least rule that fires.
#[derive(Clone, Copy, Debug)]
pub struct Scanned {
    pub types: Option<Rule>,
    pub degrees: Option<Rule>,
    pub containment: Option<Rule>,
    pub scopes: Option<Rule>,
    pub predicates: Option<Rule>,
}

impl Scanned {
    /// What is found by asking each rule.
    pub fn of<V: View>(alloc: Global, view: &V) -> Result<Scanned, AllocError> {
        let predicates = match first_broken(alloc, view)? {
            None => first_forced(alloc, view)?,
            found => found,
        };
        Ok(Scanned {
            types: first_of_kinds(alloc, view, &TYPES)?,
            degrees: first_of_kinds(alloc, view, &DEGREES)?,
            containment: first_of_kinds(alloc, view, &CONTAINMENT)?,
            scopes: first_of_kinds(alloc, view, &SCOPES)?,
            predicates,
        })
    }

    /// The families, in their order.
    pub fn families(&self) -> [Option<Rule>; 5] {
        [
            self.types,
            self.degrees,
            self.containment,
            self.scopes,
            self.predicates,
        ]
    }

    /// The least rule of all families.
    pub fn least(&self) -> Option<Rule> {
        for found in self.families() {
            if found.is_some() {
                return found;
            }
        }
        None
    }
}
