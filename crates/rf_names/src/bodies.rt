//! The names in clauses.

ghost use Rattle.std.specs.Prelude.{◌≡◌, ◌++◌, IfOk, OnOk, map, filter, not};
ghost use Rattle.std.specs.List.{flat_map};
ghost use Rattle.rf_names.specs.Bodies.{clause_names, literal_names};
ghost use Rattle.rf_names.specs.Declarations.{argument_names, is_atom_argument, param_names};
ghost use Rattle.rf_names.specs.Texts.{is_blank, reads};

use crate::arguments::Arguments;
use crate::gather::push_all;
use crate::named::names_of;
use rf_syntax::{BodyLiteral, Name, Param};
use std::alloc::{AllocError, Global};

/// Whether a name is this text.
pub fn reads(text: &str, name: &Name) -> bool
    ensures { result ≡ reads text.now name.now }
{
    name.text.as_str() == text
}

/// Whether a name stands for a variable of its own each time.
pub fn is_blank(name: &Name) -> bool
    ensures { result ≡ is_blank name.now }
{
    reads("_", name)
}

/// The names of parameters.
pub fn names_of_params<'a>(alloc: Global, params: &'a [Param]) -> Result<Vec<&'a Name>, AllocError>
    ensures { IfOk result (λ v. map (λ n. n.now) v.items ≡ param_names params.now) }
{
    names_of(alloc, params)
}

/// Appends the names that a literal has as arguments.
pub fn push_argument_names<'a>(
    out: &mut Vec<&'a Name>,
    literal: &'a BodyLiteral,
) -> Result<(), AllocError>
    ensures { OnOk result (map (λ n. n.now) out.new.items ≡ map (λ n. n.now) out.old.items
        ++ argument_names literal.now) }
{
    match literal {
        BodyLiteral::Call { args, .. } => push_all(out, args.as_slice()),
        BodyLiteral::Same(first, second) | BodyLiteral::Differ(first, second) => {
            out.push(first)?;
            out.push(second)?;
            Ok(())
        }
    }
}

/// The names that a literal has as arguments, in order.
pub fn names_of_arguments<'a>(
    alloc: Global,
    literal: &'a BodyLiteral,
) -> Result<Vec<&'a Name>, AllocError>
    ensures { IfOk result (λ v. map (λ n. n.now) v.items ≡ argument_names literal.now) }
{
    let mut names = Vec::new(alloc);
    push_argument_names(&mut names, literal)?;
    Ok(names)
}

// Appends those of the names that aren't atoms.
fn push_variables<'a>(
    out: &mut Vec<&'a Name>,
    arguments: &Arguments,
    names: &[&'a Name],
) -> Result<(), AllocError>
    ensures { OnOk result (map (λ n. n.now) out.new.items ≡ map (λ n. n.now) out.old.items
        ++ filter
        (λ n. not (is_atom_argument arguments.now.names.now.declared.now.atoms arguments.now.params.now n))
        (map (λ n. n.now) names.now)) }
{
    for name in names {
        if !arguments.is_atom(*name) {
            out.push(*name)?;
        }
    }
    Ok(())
}

/// The names of the variables that a literal names, in order.
pub fn names_of_literal<'a>(
    alloc: Global,
    arguments: &Arguments,
    literal: &'a BodyLiteral,
) -> Result<Vec<&'a Name>, AllocError>
    ensures { IfOk result (λ v. map (λ n. n.now) v.items ≡ literal_names
        arguments.now.names.now.declared.now arguments.now.params.now literal.now) }
{
    let all = names_of_arguments(alloc, literal)?;
    let mut names = Vec::new(alloc);
    push_variables(&mut names, arguments, all.as_slice())?;
    Ok(names)
}

/// The names of the variables that literals name, in order.
pub fn names_of_literals<'a>(
    alloc: Global,
    arguments: &Arguments,
    literals: &[&'a BodyLiteral],
) -> Result<Vec<&'a Name>, AllocError>
    ensures { IfOk result (λ v. map (λ n. n.now) v.items ≡ clause_names
        arguments.now.names.now.declared.now arguments.now.params.now (map (λ l. l.now) literals.now)) }
{
    let mut names = Vec::new(alloc);
    for literal in literals {
        let more = names_of_literal(alloc, arguments, literal)?;
        names.extend_from_slice(more.as_slice())?;
    }
    Ok(names)
}
