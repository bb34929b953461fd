//! What a literal says of the elements of its terms, and those elements.

ghost use Rattle.std.specs.Prelude.{◌≡◌, ◌≤◌, ℕ, if◌then◌else◌, length, map, slice_index, slice_index_or};
ghost use Rattle.rf_problem.specs.Reading.{element_of};
ghost use Rattle.rf_problem.specs.declared.predicate.Term.TheVariants.{Var};
ghost use Rattle.rf_evaluate.specs.Terms.{is_atom};

use crate::assignment::element_of;
use rf_problem::{Symbol, Term};

/// What a literal says of the elements of its terms, but for a negation.
#[derive(Clone, Copy)]
pub enum Claim {
    /// The symbol holds at them or, with closure, a walk of one or more of its steps leads from the
    /// first to the second.
    Holds { closure: bool, symbol: Symbol },
    /// They are the same.
    Same,
    /// They are different.
    Differ,
}

/// Whether a term is this atom.
fn is_atom(term: Term, atom: u64) -> bool
    ensures { result ≡ is_atom atom term }
{
    match term {
        Term::Var(_) => false,
        Term::Atom(own) => own == atom,
    }
}

/// The element of a term, or 0 for an atom.
fn element_of_variable(assignment: [u64; 8], term: Term) -> u64
    ensures { result ≡ element_of (slice_index assignment) (λ o. 0) term }
{
    match term {
        Term::Var(v) => element_of(assignment, v),
        Term::Atom(_) => 0,
    }
}

/// The elements of the terms, with 0 for each atom among them.
pub fn elements_of_variables(assignment: [u64; 8], terms: &[Term]) -> [u64; 8]
    requires { length terms.now ≤ 8 }
    ensures { slice_index result ≡ slice_index (map (element_of (slice_index assignment) (λ o. 0)) terms.now) }
{
    let mut elements = [0; 8];
    for (i, term) in terms.iter().enumerate() {
        elements[i] = element_of_variable(assignment, *term);
    }
    elements
}

/// The elements of the terms, but `x` at each place of the atom.
pub fn with_atom(elements: [u64; 8], terms: &[Term], atom: u64, x: u64) -> [u64; 8]
    requires { length terms.now ≤ 8 }
    ensures { (k : ℕ) → slice_index result k
        ≡ (if is_atom atom (slice_index_or terms.now k (Var 0)) then x else slice_index elements k) }
{
    let mut changed = elements;
    for (i, term) in terms.iter().enumerate() {
        if is_atom(*term, atom) {
            changed[i] = x;
        }
    }
    changed
}
