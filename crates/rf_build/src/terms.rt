//! The terms that arguments of literals stand for.

ghost use Rattle.std.specs.Prelude.{◌≡◌, ◌≤◌, ◌∷◌, [], IfOk, OnOk, length};
ghost use Rattle.rf_bounds.specs.declared.TheConstants.{MOST_VARIABLES};
ghost use Rattle.rf_names.specs.Bodies.{term_of, terms_of, with_argument};
ghost use Rattle.rf_build.specs.Arguments.{with_arguments};

use crate::objects::object_number;
use crate::variables::Variables;
use rf_names::Arguments;
use rf_problem::Term;
use rf_syntax::Name;
use std::alloc::{AllocError, Global};

/// The term that an argument stands for. If that is a variable, it is known from then on.
pub fn term_of<'a>(
    arguments: &Arguments,
    known: &mut Variables<'a>,
    name: &'a Name,
) -> Result<Term, AllocError>
    requires { length (with_argument arguments.now.names.now.declared.now arguments.now.params.now
        known.old name.now) ≤ MOST_VARIABLES }
    ensures term { IfOk result (λ t. t ≡ term_of arguments.now.names.now.declared.now
        arguments.now.params.now known.old name.now) }
    ensures known { OnOk result (known.new ≡ with_argument arguments.now.names.now.declared.now
        arguments.now.params.now known.old name.now) }
{
    if arguments.is_atom(name) {
        return Ok(Term::Atom(object_number(arguments.names, name)));
    }
    let number = known.number(name)?;
    Ok(Term::Var(number))
}

/// The terms that arguments stand for, one after another.
#[tactic(auto, using(crate::proofs::TermLemmas::term_steps))]
pub fn terms_of<'a>(
    alloc: Global,
    arguments: &Arguments,
    known: &mut Variables<'a>,
    names: &'a [Name],
) -> Result<Vec<Term>, AllocError>
    requires { length (with_arguments arguments.now.names.now.declared.now arguments.now.params.now
        known.old names.now) ≤ MOST_VARIABLES }
    ensures terms { IfOk result (λ v. v.items ≡ terms_of arguments.now.names.now.declared.now
        arguments.now.params.now known.old names.now) }
    ensures known { OnOk result (known.new ≡ with_arguments arguments.now.names.now.declared.now
        arguments.now.params.now known.old names.now) }
{
    let mut terms = Vec::new(alloc);
    for name in names {
        let term = term_of(arguments, known, name)?;
        terms.push(term)?;
    }
    Ok(terms)
}

/// The terms at both sides of a comparison.
#[tactic(auto, using(crate::proofs::TermLemmas::side_steps))]
pub fn sides<'a>(
    arguments: &Arguments,
    known: &mut Variables<'a>,
    a: &'a Name,
    b: &'a Name,
) -> Result<(Term, Term), AllocError>
    requires { length (with_arguments arguments.now.names.now.declared.now arguments.now.params.now
        known.old (a.now ∷ b.now ∷ [])) ≤ MOST_VARIABLES }
    ensures left { IfOk result (λ sides. sides.0 ≡ term_of arguments.now.names.now.declared.now
        arguments.now.params.now known.old a.now) }
    ensures right { IfOk result (λ sides. sides.1 ≡ term_of arguments.now.names.now.declared.now
        arguments.now.params.now (with_argument arguments.now.names.now.declared.now
        arguments.now.params.now known.old a.now) b.now) }
    ensures known { OnOk result (known.new ≡ with_arguments arguments.now.names.now.declared.now
        arguments.now.params.now known.old (a.now ∷ b.now ∷ [])) }
{
    let left = term_of(arguments, known, a)?;
    let right = term_of(arguments, known, b)?;
    Ok((left, right))
}
