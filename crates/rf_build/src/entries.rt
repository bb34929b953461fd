//! Where the variables of a clause are quantified.

ghost use Rattle.std.specs.Prelude.{◌≡◌, ◌+◌, ◌≤◌, IfOk, length, count_by, map, position};
ghost use Rattle.std.specs.List.{list_any, range_with_len};
ghost use Rattle.rf_bounds.specs.declared.TheConstants.{MOST_LITERALS, MOST_PARAMETERS};
ghost use Rattle.rf_names.specs.LookUp.{numbers_where};
ghost use Rattle.rf_build.specs.Resolved.{entry_of, is_variable, mentions, negates, negation_around, only_one};

use rf_problem::{Literal, Term};
use std::alloc::{AllocError, Global};

fn is_variable(term: Term, variable: u8) -> bool
    ensures { result ≡ is_variable variable term }
{
    match term {
        Term::Var(number) => number == variable,
        Term::Atom(_) => false,
    }
}

fn is_among(args: &[Term], variable: u8) -> bool
    ensures { result ≡ list_any (is_variable variable) args.now }
{
    args.iter().any(|term| is_variable(*term, variable))
}

fn mentions(literal: &Literal, variable: u8) -> bool
    ensures { result ≡ mentions variable literal.now }
{
    match literal {
        Literal::Call { args, .. } => is_among(args.as_slice(), variable),
        Literal::Same(a, b) | Literal::Differ(a, b) => {
            is_variable(*a, variable) || is_variable(*b, variable)
        }
    }
}

fn negates(literal: &Literal, variable: u8) -> bool
    ensures { result ≡ negates variable literal.now }
{
    match literal {
        Literal::Call { negated, args, .. } => *negated && is_among(args.as_slice(), variable),
        Literal::Same(_, _) | Literal::Differ(_, _) => false,
    }
}

// How many literals name a variable.
fn mentions_count(literals: &[Literal], variable: u8) -> u64
    ensures { result ≡ count_by (mentions variable) literals.now }
{
    literals
        .iter()
        .filter(|literal| mentions(*literal, variable))
        .count() as u64
}

// The first literal that names a variable.
fn first_mention(literals: &[Literal], variable: u8) -> Option<usize>
    ensures { result ≡ position (mentions variable) literals.now }
{
    literals
        .iter()
        .position(|literal| mentions(literal, variable))
}

fn is_negated(literals: &[Literal], variable: u8) -> bool
    ensures { result ≡ list_any (negates variable) literals.now }
{
    literals.iter().any(|literal| negates(literal, variable))
}

// The one literal that names a variable, where there is one alone.
#[tactic(auto, using(crate::proofs::EntryLemmas::only_one_cases))]
fn only_mention(literals: &[Literal], variable: u8) -> Option<u8>
    requires { length literals.now ≤ MOST_LITERALS + MOST_PARAMETERS }
    ensures { result ≡ only_one (numbers_where 0 (mentions variable) literals.now) }
{
    if mentions_count(literals, variable) != 1 {
        return None;
    }
    match first_mention(literals, variable) {
        Some(at) => Some(at as u8),
        None => None,
    }
}

// The literal inside whose negation a variable ranges.
fn negation_around(literals: &[Literal], variable: u8) -> Option<u8>
    requires { length literals.now ≤ MOST_LITERALS + MOST_PARAMETERS }
    ensures { result ≡ negation_around literals.now variable }
{
    if is_negated(literals, variable) {
        only_mention(literals, variable)
    } else {
        None
    }
}

fn entry_of(arity: u64, literals: &[Literal], variable: u8) -> Option<u8>
    requires { length literals.now ≤ MOST_LITERALS + MOST_PARAMETERS }
    ensures { result ≡ entry_of arity literals.now variable }
{
    if (variable as u64) < arity {
        return None;
    }
    negation_around(literals, variable)
}

/// The entries of the variables of a clause, of which the first are the parameters.
#[tactic(auto, using(crate::proofs::EntryLemmas::entries_more))]
pub fn entries(
    alloc: Global,
    arity: u64,
    literals: &[Literal],
    count: u8,
) -> Result<Vec<Option<u8>>, AllocError>
    requires { length literals.now ≤ MOST_LITERALS + MOST_PARAMETERS }
    ensures { IfOk result (λ v. v.items
        ≡ map (entry_of arity literals.now) (range_with_len 0 count)) }
{
    let mut entries = Vec::new(alloc);
    for variable in 0..count {
        entries.push(entry_of(arity, literals, variable))?;
    }
    Ok(entries)
}
