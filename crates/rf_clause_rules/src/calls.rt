//! The calls of predicates in clauses.

ghost use Rattle.std.specs.Prelude.{◌≡◌, ◌++◌, IfOk, OnOk, map};
ghost use Rattle.std.specs.List.{flat_map};
ghost use Rattle.rf_names.specs.Bodies.{predicate_of};
ghost use Rattle.rf_clause_rules.specs.Calls.{calls_among, calls_in, calls_of};
ghost use Rattle.rf_names.specs.LookUp.{literal_symbols, sense_of};

use rf_names::{ClauseDeclaration, Names, PredicateDeclaration, Sense};
use rf_problem::Symbol;
use rf_syntax::{BodyLiteral, SymbolName};
use std::alloc::{AllocError, Global};

/// A call of a predicate, at the offset of its symbol.
#[derive(Clone, Copy, Debug)]
pub struct PredicateCall {
    pub predicate: u64,
    pub at: u64,
}

fn predicate_of(sense: Sense) -> Option<u64>
    ensures { result ≡ predicate_of sense }
{
    match sense {
        Sense::One(Symbol::Predicate(number)) => Some(number as u64),
        _ => None,
    }
}

fn called(alloc: Global, names: &Names, symbol: &SymbolName) -> Result<Option<u64>, AllocError>
    ensures { IfOk result (λ q. q
        ≡ predicate_of (sense_of (literal_symbols names.now.declared.now symbol.now))) }
{
    let sense = names.literal_sense(alloc, symbol)?;
    Ok(predicate_of(sense))
}

fn push_call(
    alloc: Global,
    names: &Names,
    calls: &mut Vec<PredicateCall>,
    literal: &BodyLiteral,
) -> Result<(), AllocError>
    ensures { OnOk result (calls.new.items ≡ calls.old.items
        ++ calls_in names.now.declared.now literal.now) }
{
    match literal {
        BodyLiteral::Call { symbol, .. } => {
            if let Some(predicate) = called(alloc, names, symbol)? {
                calls.push(PredicateCall {
                    predicate,
                    at: symbol.name.at,
                })?;
            }
            Ok(())
        }
        BodyLiteral::Same(_, _) | BodyLiteral::Differ(_, _) => Ok(()),
    }
}

fn push_calls(
    alloc: Global,
    names: &Names,
    calls: &mut Vec<PredicateCall>,
    literals: &[&BodyLiteral],
) -> Result<(), AllocError>
    ensures { OnOk result (calls.new.items ≡ calls.old.items
        ++ flat_map (calls_in names.now.declared.now) (map (λ l. l.now) literals.now)) }
{
    for literal in literals {
        push_call(alloc, names, calls, *literal)?;
    }
    Ok(())
}

fn push_clause_calls(
    alloc: Global,
    names: &Names,
    calls: &mut Vec<PredicateCall>,
    clause: &ClauseDeclaration,
) -> Result<(), AllocError>
    ensures { OnOk result (calls.new.items ≡ calls.old.items
        ++ calls_among names.now.declared.now clause.now) }
{
    push_calls(alloc, names, calls, clause.literals.as_slice())
}

fn calls_in_clauses(
    alloc: Global,
    names: &Names,
    clauses: &[ClauseDeclaration],
) -> Result<Vec<PredicateCall>, AllocError>
    ensures { IfOk result (λ v. v.items
        ≡ flat_map (calls_among names.now.declared.now) clauses.now) }
{
    let mut calls = Vec::new(alloc);
    for clause in clauses {
        push_clause_calls(alloc, names, &mut calls, clause)?;
    }
    Ok(calls)
}

/// The calls in a predicate.
pub fn calls_of(
    alloc: Global,
    names: &Names,
    predicate: &PredicateDeclaration,
) -> Result<Vec<PredicateCall>, AllocError>
    ensures { IfOk result (λ v. v.items ≡ calls_of names.now.declared.now predicate.now) }
{
    calls_in_clauses(alloc, names, predicate.clauses.as_slice())
}

/// The calls in each predicate.
pub fn calls_of_each(
    alloc: Global,
    names: &Names,
    predicates: &[PredicateDeclaration],
) -> Result<Vec<Vec<PredicateCall>>, AllocError>
    ensures { IfOk result (λ v. map (λ list. list.items) v.items
        ≡ map (calls_of names.now.declared.now) predicates.now) }
{
    let mut lists = Vec::new(alloc);
    for predicate in predicates {
        lists.push(calls_of(alloc, names, predicate)?)?;
    }
    Ok(lists)
}
