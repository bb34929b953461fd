//! Whether literals fit in their clause.

ghost use Rattle.std.specs.Prelude.{◌≡◌, None, slice_index_or};
ghost use Rattle.std.specs.List.{list_all};
ghost use Rattle.rf_problem.specs.Valid.{fit_literals, fits_literal, fits_term, is_free, may_stand, ranges_over};

use super::symbols::Declared;
use crate::{Literal, Term};

/// Whether a variable with this entry ranges over the clause.
pub fn is_free(entry: Option<u8>) -> bool
    ensures { result ≡ is_free entry }
{
    entry.is_none()
}

// Whether a variable with this entry may stand in literal `number`.
fn ranges_over(entry: Option<u8>, number: usize, negated: bool) -> bool
    ensures { result ≡ ranges_over entry number negated }
{
    match entry {
        None => true,
        Some(literal) => negated && number == literal as usize,
    }
}

fn entry_of(variables: &[Option<u8>], variable: u8) -> Option<u8>
    ensures { result ≡ slice_index_or variables.now variable None }
{
    match variables.get(variable as usize) {
        Some(entry) => *entry,
        None => None,
    }
}

fn may_stand(variables: &[Option<u8>], number: usize, negated: bool, variable: u8) -> bool
    ensures { result ≡ may_stand variables.now number negated variable }
{
    (variable as usize) < variables.len()
        && ranges_over(entry_of(variables, variable), number, negated)
}

// A literal of a clause with these variables, as its terms see it.
#[derive(Drop)]
struct Place<'a> {
    variables: &'a [Option<u8>],
    // The number of the literal.
    number: usize,
    negated: bool,
}

fn fits_term(declared: &Declared, place: &Place, term: Term) -> bool
    ensures { result ≡ fits_term declared.now.objects.now place.now.variables.now place.now.number place.now.negated term }
{
    match term {
        Term::Var(variable) => may_stand(place.variables, place.number, place.negated, variable),
        Term::Atom(object) => declared.is_atom(object),
    }
}

fn fit_terms(declared: &Declared, place: &Place, terms: &[Term]) -> bool
    ensures { result ≡ list_all (fits_term declared.now.objects.now place.now.variables.now place.now.number place.now.negated) terms.now }
{
    terms.iter().all(|term| fits_term(declared, place, *term))
}

// Whether literal `number` fits.
fn fits_literal(
    declared: &Declared,
    variables: &[Option<u8>],
    number: usize,
    literal: &Literal,
) -> bool
    ensures { result ≡ fits_literal declared.now.classes declared.now.references declared.now.objects.now declared.now.predicates.now variables.now number literal.now }
{
    match literal {
        Literal::Call {
            negated,
            closure,
            symbol,
            args,
        } => {
            let place = Place {
                variables,
                number,
                negated: *negated,
            };
            declared.is_declared(*symbol)
                && args.len() == declared.arity_of(*symbol)
                && (!*closure || declared.has_steps(*symbol))
                && fit_terms(declared, &place, args)
        }
        Literal::Same(a, b) | Literal::Differ(a, b) => {
            let place = Place {
                variables,
                number,
                negated: false,
            };
            fits_term(declared, &place, *a) && fits_term(declared, &place, *b)
        }
    }
}

/// Whether the literals of a clause with these variables fit.
pub fn fit_literals(declared: &Declared, variables: &[Option<u8>], literals: &[Literal]) -> bool
    ensures { result ≡ fit_literals declared.now.classes declared.now.references declared.now.objects.now declared.now.predicates.now variables.now 0 literals.now }
{
    for number in 0..literals.len() {
        if !fits_literal(declared, variables, number, &literals[number]) {
            return false;
        }
    }
    true
}
