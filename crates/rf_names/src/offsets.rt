//! Byte offsets at which rules are broken, and the least of them.

ghost use Rattle.std.specs.Prelude.{◌≡◌, IfOk, map};
ghost use Rattle.std.specs.List.{flat_map};
ghost use Rattle.rf_names.specs.Offsets.{least_of, lesser, offset_if, offsets_in_clauses, offsets_in_literals};

use crate::arguments::Arguments;
use crate::names::Names;
use crate::parts::{ClauseDeclaration, PredicateDeclaration};
use rf_syntax::BodyLiteral;
use std::alloc::{AllocError, Global};

/// The lesser of two offsets, where there are such.
pub fn lesser(a: Option<u64>, b: Option<u64>) -> Option<u64>
    ensures { result ≡ lesser a b }
{
    match (a, b) {
        (Some(a), Some(b)) => Some(a.min(b)),
        (Some(a), None) => Some(a),
        (None, b) => b,
    }
}

/// An offset, where a rule is broken there.
pub fn offset_if(broken: bool, at: u64) -> Option<u64>
    ensures { result ≡ least_of (offset_if broken at) }
{
    if broken { Some(at) } else { None }
}

/// A rule that is asked of each item of a kind.
pub trait OffsetRule<T> {
    ghost use Rattle.std.specs.Prelude.{List, ℕ};

    /// Where an item breaks it.
    ghost offsets: { Self → T → List ℕ };

    /// The least such offset.
    fn least_in(&self, alloc: Global, item: &T) -> Result<Option<u64>, AllocError>
        ensures { IfOk result (λ at. at ≡ least_of (offsets self.now item.now)) };
}

/// The least offset at which items break a rule.
#[tactic(auto, using(crate::proofs::LeastOffsets::least_steps))]
pub fn least_among<T, R: OffsetRule<T>>(
    alloc: Global,
    rule: &R,
    items: &[T],
) -> Result<Option<u64>, AllocError>
    ensures { IfOk result (λ at. at ≡ least_of (flat_map (R.offsets rule.now) items.now)) }
{
    let mut least = None;
    for item in items {
        least = lesser(least, rule.least_in(alloc, item)?);
    }
    Ok(least)
}

/// The same for items that are lent.
#[tactic(auto, using(crate::proofs::LeastOffsets::least_steps))]
pub fn least_among_lent<T, R: OffsetRule<T>>(
    alloc: Global,
    rule: &R,
    items: &[&T],
) -> Result<Option<u64>, AllocError>
    ensures { IfOk result (λ at.
        at ≡ least_of (flat_map (R.offsets rule.now) (map (λ i. i.now) items.now))) }
{
    let mut least = None;
    for item in items {
        least = lesser(least, rule.least_in(alloc, *item)?);
    }
    Ok(least)
}

/// A rule that is asked of each clause, with what its arguments stand for.
pub trait ClauseRule {
    ghost use Rattle.std.specs.Prelude.{List, ℕ};
    ghost use Rattle.rf_syntax.specs.declared.predicate.BodyLiteral.{BodyLiteral};
    ghost use Rattle.rf_syntax.specs.declared.predicate.Param.{Param};
    ghost use Rattle.rf_names.specs.Declarations.{Declared};

    /// Where a clause of a predicate with these parameters breaks it.
    ghost clause_offsets: { Self → Declared → List Param → List BodyLiteral → List ℕ };

    /// The least such offset.
    fn least_in_clause(
        &self,
        alloc: Global,
        arguments: &Arguments,
        clause: &ClauseDeclaration,
    ) -> Result<Option<u64>, AllocError>
        ensures { IfOk result (λ at. at ≡ least_of (clause_offsets
            self.now arguments.now.names.now.declared.now arguments.now.params.now clause.now)) };
}

// A rule of clauses, asked of the clauses of one predicate.
#[derive(Drop)]
struct OfClause<'r, 's, 'n, 'd, 'p, R> {
    rule: &'r R,
    arguments: &'s Arguments<'n, 'd, 'p>,
}

impl<'r, 's, 'n, 'd, 'p, 'a, R: ClauseRule> OffsetRule<ClauseDeclaration<'a>>
    for OfClause<'r, 's, 'n, 'd, 'p, R> {
    ghost offsets = { λ of.
        R.clause_offsets of.rule.now of.arguments.now.names.now.declared.now of.arguments.now.params.now };

    fn least_in(
        &self,
        alloc: Global,
        clause: &ClauseDeclaration<'a>,
    ) -> Result<Option<u64>, AllocError> {
        self.rule.least_in_clause(alloc, self.arguments, clause)
    }
}

// The least offset at which the clauses of one predicate break a rule.
fn least_in_bodies<R: ClauseRule>(
    alloc: Global,
    rule: &R,
    arguments: &Arguments,
    clauses: &[ClauseDeclaration],
) -> Result<Option<u64>, AllocError>
    ensures { IfOk result (λ at. at ≡ least_of (flat_map (R.clause_offsets
        rule.now arguments.now.names.now.declared.now arguments.now.params.now) clauses.now)) }
{
    least_among(alloc, &OfClause { rule, arguments }, clauses)
}

// A rule of clauses, asked of predicates.
#[derive(Drop)]
struct OfPredicate<'r, 'n, 'd, R> {
    rule: &'r R,
    names: &'n Names<'d>,
}

impl<'r, 'n, 'd, 'a, R: ClauseRule> OffsetRule<PredicateDeclaration<'a>>
    for OfPredicate<'r, 'n, 'd, R> {
    ghost offsets = { λ of p.
        flat_map (R.clause_offsets of.rule.now of.names.now.declared.now p.params) p.clauses };

    fn least_in(
        &self,
        alloc: Global,
        predicate: &PredicateDeclaration<'a>,
    ) -> Result<Option<u64>, AllocError> {
        let arguments = Arguments::of(alloc, self.names, predicate.params)?;
        least_in_bodies(alloc, self.rule, &arguments, predicate.clauses.as_slice())
    }
}

/// The least offset at which the clauses of the predicates break a rule.
pub fn least_in_clauses<R: ClauseRule>(
    alloc: Global,
    rule: &R,
    names: &Names,
) -> Result<Option<u64>, AllocError>
    ensures { IfOk result (λ at. at ≡ least_of (offsets_in_clauses
        (λ n. R.clause_offsets rule.now names.now.declared.now) 0 names.now.declared.now.predicates)) }
{
    let declared = names.declared;
    least_among(
        alloc,
        &OfPredicate { rule, names },
        declared.predicates.as_slice(),
    )
}

// A rule of literals, asked of clauses.
#[derive(Drop)]
struct OfLiterals<'r, R> {
    rule: &'r R,
}

impl<'r, R: OffsetRule<BodyLiteral>> ClauseRule for OfLiterals<'r, R> {
    ghost clause_offsets = { λ of d params clause. flat_map (R.offsets of.rule.now) clause };

    fn least_in_clause(
        &self,
        alloc: Global,
        _arguments: &Arguments,
        clause: &ClauseDeclaration,
    ) -> Result<Option<u64>, AllocError> {
        least_among_lent(alloc, self.rule, clause.literals.as_slice())
    }
}

/// The least offset at which the literals of the predicates break a rule.
pub fn least_in_literals<R: OffsetRule<BodyLiteral>>(
    alloc: Global,
    rule: &R,
    names: &Names,
) -> Result<Option<u64>, AllocError>
    ensures { IfOk result (λ at.
        at ≡ least_of (offsets_in_literals (λ n. R.offsets rule.now) names.now.declared.now.predicates)) }
{
    least_in_clauses(alloc, &OfLiterals { rule }, names)
}
