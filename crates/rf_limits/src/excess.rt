//! The first offsets past the limits.

ghost use Rattle.std.specs.Prelude.{◌≡◌, ◌++◌, IfOk, OnOk, map};
ghost use Rattle.std.specs.List.{flat_map};
ghost use Rattle.std.specs.Option.{option_map};
ghost use Rattle.rf_names.specs.Bodies.{clause_variables, first_name};
ghost use Rattle.rf_names.specs.Offsets.{least_of};
ghost use Rattle.rf_limits.specs.Limits.{clause_name, earlier, earliest, excess_at, first_past, limit_kinds, limit_offsets};

use crate::LimitKind;
use crate::named::{Named, past, past_lent};
use crate::variables::variables_past;
use rf_bounds::{
    MOST_ASSERTIONS, MOST_CLASSES, MOST_CLAUSES, MOST_LITERALS, MOST_OBJECTS, MOST_PARAMETERS,
    MOST_PREDICATES, MOST_REFERENCES, MOST_SCOPES, MOST_VARIABLES,
};
use rf_names::{
    Arguments, ClauseDeclaration, ClauseRule, Names, OffsetRule, PredicateDeclaration, least_among,
    least_in_clauses,
};
use rf_syntax::Name;
use std::alloc::{AllocError, Global};
use std::marker::Model;

// The parameters of a predicate.
#[derive(Clone, Copy)]
struct PastParameters {}

impl<'a> OffsetRule<PredicateDeclaration<'a>> for PastParameters {
    ghost use Rattle.rf_bounds.specs.declared.TheConstants.{MOST_PARAMETERS};

    ghost offsets = { λ rule p. first_past MOST_PARAMETERS (λ param. param.name) p.params };

    fn least_in(
        &self,
        _alloc: Global,
        predicate: &PredicateDeclaration<'a>,
    ) -> Result<Option<u64>, AllocError> {
        Ok(past(MOST_PARAMETERS, predicate.params))
    }
}

fn push_clause_name<'a>(
    out: &mut Vec<&'a Name>,
    clause: &ClauseDeclaration<'a>,
) -> Result<(), AllocError>
    ensures { OnOk result (map (λ n. n.now) out.new.items ≡ map (λ n. n.now) out.old.items
        ++ clause_name clause.now) }
{
    if let Some(literal) = clause.literals.first() {
        out.push(literal.name())?;
    }
    Ok(())
}

fn names_of_clauses<'a>(
    alloc: Global,
    clauses: &[ClauseDeclaration<'a>],
) -> Result<Vec<&'a Name>, AllocError>
    ensures { IfOk result (λ v. map (λ n. n.now) v.items ≡ flat_map clause_name clauses.now) }
{
    let mut names = Vec::new(alloc);
    for clause in clauses {
        push_clause_name(&mut names, clause)?;
    }
    Ok(names)
}

// The clauses of a predicate.
#[derive(Clone, Copy)]
struct PastClauses {}

impl<'a> OffsetRule<PredicateDeclaration<'a>> for PastClauses {
    ghost use Rattle.rf_bounds.specs.declared.TheConstants.{MOST_CLAUSES};

    ghost offsets = { λ rule p. first_past MOST_CLAUSES (λ name. name) (flat_map clause_name p.clauses) };

    fn least_in(
        &self,
        alloc: Global,
        predicate: &PredicateDeclaration<'a>,
    ) -> Result<Option<u64>, AllocError> {
        let names = names_of_clauses(alloc, predicate.clauses.as_slice())?;
        Ok(past_lent(MOST_CLAUSES, names.as_slice()))
    }
}

// The literals of a clause.
#[derive(Clone, Copy)]
struct PastLiterals {}

impl ClauseRule for PastLiterals {
    ghost use Rattle.rf_bounds.specs.declared.TheConstants.{MOST_LITERALS};

    ghost clause_offsets = { λ rule d params clause. first_past MOST_LITERALS first_name clause };

    fn least_in_clause(
        &self,
        _alloc: Global,
        _arguments: &Arguments,
        clause: &ClauseDeclaration,
    ) -> Result<Option<u64>, AllocError> {
        Ok(past_lent(MOST_LITERALS, clause.literals.as_slice()))
    }
}

// The variables of a clause. Atoms aren't among them.
#[derive(Clone, Copy)]
struct PastVariables {}

impl ClauseRule for PastVariables {
    ghost use Rattle.rf_bounds.specs.declared.TheConstants.{MOST_VARIABLES};

    ghost clause_offsets = { λ rule d params clause.
        first_past MOST_VARIABLES (λ name. name) (clause_variables d params clause) };

    fn least_in_clause(
        &self,
        alloc: Global,
        arguments: &Arguments,
        clause: &ClauseDeclaration,
    ) -> Result<Option<u64>, AllocError> {
        variables_past(alloc, MOST_VARIABLES, arguments, clause)
    }
}

// The limits together.

/// An offset past a limit.
#[derive(Drop)]
pub struct PastLimit {
    pub at: u64,
    pub kind: LimitKind,
}

impl Model for PastLimit {
    ghost use Rattle.rf_limits.specs.Limits.{Excess};

    ghost Value = { Excess };

    ghost view = { λ p. record { at = p.at; kind = p.kind } };
}

fn earlier(first: Option<PastLimit>, second: Option<PastLimit>) -> Option<PastLimit>
    ensures { result ≡ earlier first second }
{
    match (first, second) {
        (Some(a), Some(b)) => { if b.at < a.at { Some(b) } else { Some(a) } }
        (Some(a), None) => Some(a),
        (None, b) => b,
    }
}

fn of_kind(kind: LimitKind, at: Option<u64>) -> Option<PastLimit>
    ensures { result ≡ option_map (excess_at kind) at }
{
    match at {
        Some(at) => Some(PastLimit { at, kind }),
        None => None,
    }
}

fn offset_past(alloc: Global, names: &Names<'_>, kind: LimitKind) -> Result<Option<u64>, AllocError>
    ensures { IfOk result (λ at. at ≡ least_of (limit_offsets names.now.declared.now kind)) }
{
    let declared = names.declared;
    let predicates = declared.predicates.as_slice();
    Ok(match kind {
        LimitKind::Classes => past(MOST_CLASSES, declared.classes.as_slice()),
        LimitKind::References => past(MOST_REFERENCES, declared.references.as_slice()),
        LimitKind::Predicates => past(MOST_PREDICATES, predicates),
        LimitKind::Scopes => past_lent(MOST_SCOPES, declared.bounds.as_slice()),
        LimitKind::Parameters => least_among(alloc, &PastParameters {}, predicates)?,
        LimitKind::Clauses => least_among(alloc, &PastClauses {}, predicates)?,
        LimitKind::Literals => least_in_clauses(alloc, &PastLiterals {}, names)?,
        LimitKind::Variables => least_in_clauses(alloc, &PastVariables {}, names)?,
        LimitKind::Objects => past_lent(MOST_OBJECTS, names.objects()),
        LimitKind::Assertions => past(MOST_ASSERTIONS, declared.assertions.as_slice()),
    })
}

fn earliest_of(
    alloc: Global,
    names: &Names<'_>,
    kinds: &[LimitKind],
) -> Result<Option<PastLimit>, AllocError>
    ensures { IfOk result (λ past. past ≡ earliest names.now.declared.now kinds.now) }
{
    match kinds {
        [] => Ok(None),
        [kind, rest @ ..] => {
            let here = of_kind(*kind, offset_past(alloc, names, *kind)?);
            Ok(earlier(here, earliest_of(alloc, names, rest)?))
        }
    }
}

/// The earliest offset past a limit.
pub fn limits(alloc: Global, names: &Names<'_>) -> Result<Option<PastLimit>, AllocError>
    ensures { IfOk result (λ past. past ≡ earliest names.now.declared.now limit_kinds) }
{
    earliest_of(
        alloc,
        names,
        &[
            LimitKind::Classes,
            LimitKind::References,
            LimitKind::Predicates,
            LimitKind::Scopes,
            LimitKind::Parameters,
            LimitKind::Clauses,
            LimitKind::Literals,
            LimitKind::Variables,
            LimitKind::Objects,
            LimitKind::Assertions,
        ],
    )
}
