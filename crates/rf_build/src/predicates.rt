//! The predicates of a problem.

ghost use Rattle.std.specs.Prelude.{◌≡◌, ◌≤◌, ◌++◌, All, IfOk, OnOk, length, map};
ghost use Rattle.rf_bounds.specs.declared.TheConstants.{MOST_PARAMETERS, MOST_VARIABLES};
ghost use Rattle.rf_names.specs.Bodies.{clause_names, literal_names, with_variables};
ghost use Rattle.rf_build.specs.Resolved.{class_literal, class_literals, resolved_clause, resolved_literal, resolved_literals, resolved_predicate};
ghost use Rattle.rf_build.specs.Small.{IsSmallClause, IsSmallPredicate};

use crate::assertions::the_symbol;
use crate::classes::class_number;
use crate::entries::entries;
use crate::terms::{sides, terms_of};
use crate::variables::Variables;
use rf_names::{Arguments, ClauseDeclaration, Names, PredicateDeclaration};
use rf_problem::{Clause, Literal, Predicate, Symbol, Term};
use rf_syntax::{BodyLiteral, Name, Param};
use rf_text::Items;
use std::alloc::{AllocError, Global};

fn literal_of<'a>(
    alloc: Global,
    arguments: &Arguments,
    known: &mut Variables<'a>,
    literal: &'a BodyLiteral,
) -> Result<Literal, AllocError>
    requires { length (with_variables known.old (literal_names arguments.now.names.now.declared.now
        arguments.now.params.now literal.now)) ≤ MOST_VARIABLES }
    ensures literal { IfOk result (λ l. l ≡ resolved_literal arguments.now.names.now.declared.now
        arguments.now.params.now known.old literal.now) }
    ensures known { OnOk result (known.new ≡ with_variables known.old (literal_names
        arguments.now.names.now.declared.now arguments.now.params.now literal.now)) }
{
    match literal {
        BodyLiteral::Call {
            negated,
            symbol,
            closure,
            args,
        } => {
            let sense = arguments.names.literal_sense(alloc, symbol)?;
            let terms = terms_of(alloc, arguments, known, args.as_slice())?;
            Ok(Literal::Call {
                negated: *negated,
                closure: *closure,
                symbol: the_symbol(sense),
                args: Items::from_vec(terms),
            })
        }
        BodyLiteral::Same(a, b) => {
            let (left, right) = sides(arguments, known, a, b)?;
            Ok(Literal::Same(left, right))
        }
        BodyLiteral::Differ(a, b) => {
            let (left, right) = sides(arguments, known, a, b)?;
            Ok(Literal::Differ(left, right))
        }
    }
}

// The literals as they are written.
fn written<'a>(
    alloc: Global,
    arguments: &Arguments,
    known: &mut Variables<'a>,
    literals: &[&'a BodyLiteral],
) -> Result<Vec<Literal>, AllocError>
    requires { length (with_variables known.old (clause_names arguments.now.names.now.declared.now
        arguments.now.params.now (map (λ l. l.now) literals.now))) ≤ MOST_VARIABLES }
    ensures literals { IfOk result (λ v. v.items
        ≡ resolved_literals arguments.now.names.now.declared.now arguments.now.params.now known.old
        (map (λ l. l.now) literals.now)) }
    ensures known { OnOk result (known.new
        ≡ with_variables known.old (clause_names arguments.now.names.now.declared.now
        arguments.now.params.now (map (λ l. l.now) literals.now))) }
{
    let mut written = Vec::new(alloc);
    for literal in literals {
        let resolved = literal_of(alloc, arguments, known, *literal)?;
        written.push(resolved)?;
    }
    Ok(written)
}

// The literal of a parameter that has a class.
fn push_class_literal(
    alloc: Global,
    names: &Names,
    literals: &mut Vec<Literal>,
    number: u8,
    class: &Option<Name>,
) -> Result<(), AllocError>
    ensures { OnOk result (literals.new.items ≡ literals.old.items
        ++ class_literal names.now.declared.now number class.now) }
{
    if let Some(name) = class {
        let class = class_number(names, name);
        let mut args = Vec::new(alloc);
        args.push(Term::Var(number))?;
        literals.push(Literal::Call {
            negated: false,
            closure: false,
            symbol: Symbol::Class(class),
            args: Items::from_vec(args),
        })?;
    }
    Ok(())
}

// The literals of typed parameters.
fn push_class_literals(
    alloc: Global,
    names: &Names,
    literals: &mut Vec<Literal>,
    params: &[Param],
) -> Result<(), AllocError>
    requires { length params.now ≤ MOST_PARAMETERS }
    ensures { OnOk result (literals.new.items ≡ literals.old.items
        ++ class_literals names.now.declared.now 0 params.now) }
{
    for (number, param) in params.iter().enumerate() {
        push_class_literal(alloc, names, literals, number as u8, &param.class)?;
    }
    Ok(())
}

#[tactic(auto, using(crate::proofs::LiteralCounts::few_literals))]
fn clause_of(
    alloc: Global,
    arguments: &Arguments,
    clause: &ClauseDeclaration,
) -> Result<Clause, AllocError>
    requires { IsSmallClause arguments.now.names.now.declared.now arguments.now.params.now clause.now }
    ensures { IfOk result (λ c. c ≡ resolved_clause arguments.now.names.now.declared.now
        arguments.now.params.now clause.now) }
{
    let params = arguments.params;
    let mut variables = Variables::of_params(alloc, params)?;
    let mut literals = written(alloc, arguments, &mut variables, clause.literals.as_slice())?;
    push_class_literals(alloc, arguments.names, &mut literals, params)?;
    let count = variables.len() as u8;
    let entries = entries(alloc, params.len() as u64, literals.as_slice(), count)?;
    Ok(Clause {
        variables: Items::from_vec(entries),
        literals: Items::from_vec(literals),
    })
}

fn clauses_of(
    alloc: Global,
    arguments: &Arguments,
    clauses: &[ClauseDeclaration],
) -> Result<Vec<Clause>, AllocError>
    requires { All (IsSmallClause arguments.now.names.now.declared.now arguments.now.params.now) clauses.now }
    ensures { IfOk result (λ v. v.items
        ≡ map (resolved_clause arguments.now.names.now.declared.now arguments.now.params.now) clauses.now) }
{
    let mut resolved = Vec::new(alloc);
    for clause in clauses {
        resolved.push(clause_of(alloc, arguments, clause)?)?;
    }
    Ok(resolved)
}

fn predicate_of(
    alloc: Global,
    names: &Names,
    predicate: &PredicateDeclaration,
) -> Result<Predicate, AllocError>
    requires { IsSmallPredicate names.now.declared.now predicate.now }
    ensures { IfOk result (λ p. p ≡ resolved_predicate names.now.declared.now predicate.now) }
{
    let name = predicate.name;
    let arguments = Arguments::of(alloc, names, predicate.params)?;
    let clauses = clauses_of(alloc, &arguments, predicate.clauses.as_slice())?;
    Ok(Predicate {
        name: name.text.clone()?,
        is_error: predicate.is_error,
        arity: predicate.params.len() as u8,
        clauses: Items::from_vec(clauses),
    })
}

fn predicates_of(
    alloc: Global,
    names: &Names,
    predicates: &[PredicateDeclaration],
) -> Result<Vec<Predicate>, AllocError>
    requires { All (IsSmallPredicate names.now.declared.now) predicates.now }
    ensures { IfOk result (λ v. v.items
        ≡ map (resolved_predicate names.now.declared.now) predicates.now) }
{
    let mut resolved = Vec::new(alloc);
    for predicate in predicates {
        resolved.push(predicate_of(alloc, names, predicate)?)?;
    }
    Ok(resolved)
}

/// The predicates that are declared.
pub fn resolved_predicates(alloc: Global, names: &Names) -> Result<Vec<Predicate>, AllocError>
    requires { All (IsSmallPredicate names.now.declared.now) names.now.declared.now.predicates }
    ensures { IfOk result (λ ps. ps.items
        ≡ map (resolved_predicate names.now.declared.now) names.now.declared.now.predicates) }
{
    let declared = names.declared;
    predicates_of(alloc, names, declared.predicates.as_slice())
}
