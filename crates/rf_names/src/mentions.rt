//! The names at which statements speak of named objects.

ghost use Rattle.std.specs.Prelude.{◌≡◌, ◌++◌, IfOk, OnOk, map, filter};
ghost use Rattle.std.specs.List.{flat_map};
ghost use Rattle.std.specs.Option.{option_map};
ghost use Rattle.rf_names.specs.Declarations.{argument_names, atoms_in_clause, items_of, mentions_in, object_in, object_name};
ghost use Rattle.rf_names.specs.Gathering.{atoms_among, is_atom_among};

use crate::arguments::{is_atom_among, numbered_params};
use crate::bodies::{push_argument_names, reads};
use crate::gather::{atom_of, push_list, push_listed, push_names_of_items};
use crate::numbering::Numbering;
use rf_syntax::{Arg, BodyLiteral, Name, NonEmpty, Param, Statement, SymbolName};
use std::alloc::{AllocError, Global};

// Arguments of assertions.

/// The name of the object that an argument speaks of; None where that is the new object of a class.
pub fn object_name(symbol: &SymbolName) -> Option<&Name>
    ensures { option_map (λ n. n.now) result ≡ object_name symbol.now.name symbol.now.member }
{
    match &symbol.member {
        None => Some(&symbol.name),
        Some(member) => {
            if reads("new", member) {
                None
            } else {
                Some(member)
            }
        }
    }
}

fn push_object<'a>(out: &mut Vec<&'a Name>, arg: &'a Arg) -> Result<(), AllocError>
    ensures { OnOk result (map (λ n. n.now) out.new.items ≡ map (λ n. n.now) out.old.items
        ++ object_in arg.now) }
{
    if let Arg::Symbol(symbol) = arg {
        if let Some(name) = object_name(symbol) {
            out.push(name)?;
        }
    }
    Ok(())
}

fn push_objects<'a>(out: &mut Vec<&'a Name>, args: &'a [Arg]) -> Result<(), AllocError>
    ensures { OnOk result (map (λ n. n.now) out.new.items ≡ map (λ n. n.now) out.old.items
        ++ flat_map object_in args.now) }
{
    for arg in args {
        push_object(out, arg)?;
    }
    Ok(())
}

// Arguments of bodies.

// The names that the literals of a clause have as arguments, in order.
fn names_of_clause<'a>(
    alloc: Global,
    clause: &'a NonEmpty<BodyLiteral>,
) -> Result<Vec<&'a Name>, AllocError>
    ensures { IfOk result (λ v. map (λ n. n.now) v.items
        ≡ flat_map argument_names (items_of clause.now)) }
{
    let mut names = Vec::new(alloc);
    push_argument_names(&mut names, &clause.first)?;
    for literal in clause.rest.as_slice() {
        push_argument_names(&mut names, literal)?;
    }
    Ok(names)
}

// Appends those of the names that stand for atoms.
fn push_atoms_among<'a>(
    out: &mut Vec<&'a Name>,
    atoms: &Numbering,
    params: &Numbering,
    names: &[&'a Name],
) -> Result<(), AllocError>
    ensures { OnOk result (map (λ n. n.now) out.new.items ≡ map (λ n. n.now) out.old.items
        ++ filter
        (is_atom_among (map (λ n. n.now) atoms.now.names.items) (map (λ n. n.now) params.now.names.items))
        (map (λ n. n.now) names.now)) }
{
    for name in names {
        if is_atom_among(atoms, params, *name) {
            out.push(*name)?;
        }
    }
    Ok(())
}

fn push_clause_atoms<'a>(
    alloc: Global,
    out: &mut Vec<&'a Name>,
    atoms: &Numbering,
    params: &Numbering,
    clause: &'a NonEmpty<BodyLiteral>,
) -> Result<(), AllocError>
    ensures { OnOk result (map (λ n. n.now) out.new.items ≡ map (λ n. n.now) out.old.items
        ++ atoms_among
        (map (λ n. n.now) atoms.now.names.items)
        (map (λ n. n.now) params.now.names.items)
        (items_of clause.now)) }
{
    let names = names_of_clause(alloc, clause)?;
    push_atoms_among(out, atoms, params, names.as_slice())
}

fn push_clauses_atoms<'a>(
    alloc: Global,
    out: &mut Vec<&'a Name>,
    atoms: &Numbering,
    params: &Numbering,
    clauses: &'a [NonEmpty<BodyLiteral>],
) -> Result<(), AllocError>
    ensures { OnOk result (map (λ n. n.now) out.new.items ≡ map (λ n. n.now) out.old.items
        ++ flat_map (λ clause. atoms_among
        (map (λ n. n.now) atoms.now.names.items)
        (map (λ n. n.now) params.now.names.items)
        (items_of clause)) clauses.now) }
{
    for clause in clauses {
        push_clause_atoms(alloc, out, atoms, params, clause)?;
    }
    Ok(())
}

// Appends the atoms that the clauses of a predicate name.
#[tactic(auto, using(crate::proofs::AtomLemmas::body_atoms))]
fn push_body_atoms<'a>(
    alloc: Global,
    out: &mut Vec<&'a Name>,
    atoms: &Numbering,
    params: &[Param],
    clauses: &'a NonEmpty<NonEmpty<BodyLiteral>>,
) -> Result<(), AllocError>
    ensures { OnOk result (map (λ n. n.now) out.new.items ≡ map (λ n. n.now) out.old.items
        ++ flat_map (λ clause. atoms_in_clause
        (map (λ n. n.now) atoms.now.names.items) params.now (items_of clause))
        (items_of clauses.now)) }
{
    let known = numbered_params(alloc, params)?;
    push_clause_atoms(alloc, out, atoms, &known, &clauses.first)?;
    push_clauses_atoms(alloc, out, atoms, &known, clauses.rest.as_slice())
}

/// Appends the names at which a statement of a text with these atoms speaks of named objects.
pub fn push_mentions<'a>(
    alloc: Global,
    out: &mut Vec<&'a Name>,
    atoms: &Numbering,
    statement: &'a Statement,
) -> Result<(), AllocError>
    ensures { OnOk result (map (λ n. n.now) out.new.items ≡ map (λ n. n.now) out.old.items
        ++ mentions_in (map (λ n. n.now) atoms.now.names.items) statement.now) }
{
    match statement {
        Statement::Class { .. } | Statement::Scope(_) => Ok(()),
        Statement::Enum { literals, .. } => push_listed(out, literals),
        Statement::Predicate {
            params,
            clauses,
            ..
        } => push_body_atoms(alloc, out, atoms, params.as_slice(), clauses),
        Statement::Declare(names) | Statement::Atoms(names) => push_list(out, names),
        Statement::Multi(items) => push_names_of_items(out, items),
        Statement::Assert { assertion, .. } => {
            push_objects(out, atom_of(assertion).args.as_slice())
        }
    }
}
