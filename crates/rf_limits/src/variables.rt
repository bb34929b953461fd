//! The first variable of a clause past a limit.

ghost use Rattle.std.specs.Prelude.{◌≡◌, IfOk, OnOk, map};
ghost use Rattle.std.specs.List.{list_any};
ghost use Rattle.rf_names.specs.Bodies.{clause_variables, is_variable_of, with_variable, with_variables};
ghost use Rattle.rf_names.specs.Texts.{reads};
ghost use Rattle.rf_names.specs.Offsets.{least_of};
ghost use Rattle.rf_limits.specs.Limits.{first_past};

use crate::named::{past, past_lent};
use rf_names::{Arguments, ClauseDeclaration, names_of_literals, names_of_params};
use rf_syntax::Name;
use std::alloc::{AllocError, Global};

fn is_named(known: &[&Name], name: &Name) -> bool
    ensures { result ≡ list_any (reads name.now.text) (map (λ n. n.now) known.now) }
{
    for other in known {
        if other.text.as_str() == name.text.as_str() {
            return true;
        }
    }
    false
}

fn is_variable_of(known: &[&Name], name: &Name) -> bool
    ensures { result ≡ is_variable_of (map (λ n. n.now) known.now) name.now }
{
    name.text.as_str() != "_" && is_named(known, name)
}

fn add_variable<'a>(known: &mut Vec<&'a Name>, name: &'a Name) -> Result<(), AllocError>
    ensures { OnOk result (map (λ n. n.now) known.new.items
        ≡ with_variable (map (λ n. n.now) known.old.items) name.now) }
{
    if !is_variable_of(known.as_slice(), name) {
        known.push(name)?;
    }
    Ok(())
}

// The offset of the first variable past a limit, after variables that are known. It keeps no more
// variables than show that.
fn past_known<'a>(
    limit: usize,
    known: Vec<&'a Name>,
    names: &[&'a Name],
) -> Result<Option<u64>, AllocError>
    ensures { IfOk result (λ at. at
        ≡ least_of (first_past limit (λ name. name) (with_variables (map
        (λ n. n.now) known.entry.items) (map (λ n. n.now) names.now)))) }
{
    let mut variables = known;
    for name in names {
        if variables.len() > limit {
            return Ok(past_lent(limit, variables.as_slice()));
        }
        add_variable(&mut variables, name)?;
    }
    Ok(past_lent(limit, variables.as_slice()))
}

/// The offset of the first variable of a clause past a limit.
pub fn variables_past(
    alloc: Global,
    limit: usize,
    arguments: &Arguments,
    clause: &ClauseDeclaration,
) -> Result<Option<u64>, AllocError>
    ensures { IfOk result (λ at. at
        ≡ least_of (first_past limit (λ name. name) (clause_variables arguments.now.names.now.declared.now
        arguments.now.params.now clause.now))) }
{
    let params = arguments.params;
    if params.len() > limit {
        return Ok(past(limit, params));
    }
    let known = names_of_params(alloc, params)?;
    let names = names_of_literals(alloc, arguments, clause.literals.as_slice())?;
    past_known(limit, known, names.as_slice())
}
