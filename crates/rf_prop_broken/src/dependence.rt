//! Which predicates depend on a reference.

ghost use Rattle.std.specs.Prelude.{◌≡◌, ◌<◌, ℕ, IfOk, length, map};
ghost use Rattle.rf_prop_broken.specs.Dependence.{asks_for, clause_asks, depends_on, is_found, is_of, pair_of, predicate_asks};

use rf_problem::{Clause, Literal, Predicate, Problem, Symbol};
use std::alloc::{AllocError, Global};

/// A reference and its opposite.
#[derive(Clone, Copy, Debug)]
pub struct Pair {
    pub reference: u32,
    pub opposite: Option<u32>,
}

impl Pair {
    fn of(problem: &Problem, reference: u32) -> Pair
        requires { reference < length problem.now.references }
        ensures { result ≡ pair_of problem.now reference }
    {
        Pair {
            reference,
            opposite: problem.reference(reference).opposite,
        }
    }

    // Whether a reference is one of them.
    fn has(self, reference: u32) -> bool
        ensures { result ≡ is_of self reference }
    {
        self.reference == reference
            || match self.opposite {
                Some(opposite) => opposite == reference,
                None => false,
            }
    }
}

// Whether a predicate is marked.
fn is_found(marked: &[bool], predicate: u32) -> bool
    ensures { result ≡ is_found marked.now predicate }
{
    match marked.get(predicate as usize) {
        Some(found) => *found,
        None => false,
    }
}

// Whether a literal asks for edges of one of the references, or calls a marked predicate.
fn asks_for(pair: Pair, marked: &[bool], literal: &Literal) -> bool
    ensures { result ≡ asks_for pair (is_found marked.now) literal.now }
{
    match literal {
        Literal::Call {
            symbol: Symbol::Reference(r),
            ..
        } => pair.has(*r),
        Literal::Call {
            symbol: Symbol::Predicate(q),
            ..
        } => is_found(marked, *q),
        _ => false,
    }
}

// Whether some literal of a clause does.
fn clause_asks(pair: Pair, marked: &[bool], clause: &Clause) -> bool
    ensures { result ≡ clause_asks pair (is_found marked.now) clause.now }
{
    clause.literals.iter().any(|l| asks_for(pair, marked, l))
}

// Whether some literal of a predicate does.
fn predicate_asks(pair: Pair, marked: &[bool], predicate: &Predicate) -> bool
    ensures { result ≡ predicate_asks pair (is_found marked.now) predicate.now }
{
    predicate
        .clauses
        .iter()
        .any(|c| clause_asks(pair, marked, c))
}

// The predicates that ask for edges of the references or call a marked predicate.
fn asking(
    alloc: Global,
    problem: &Problem,
    pair: Pair,
    marked: &[bool],
) -> Result<Vec<bool>, AllocError>
    ensures { IfOk result (λ next. next.items ≡ map (predicate_asks pair (is_found marked.now)) problem.now.predicates) }
{
    let mut next = Vec::new(alloc);
    for predicate in problem.predicates.iter() {
        next.push(predicate_asks(pair, marked, predicate))?;
    }
    Ok(next)
}

/// The predicates that depend on a reference.
pub fn dependents(alloc: Global, problem: &Problem, reference: u32) -> Result<Vec<bool>, AllocError>
    requires { reference < length problem.now.references }
    ensures { IfOk result (λ found. (q : ℕ) → is_found found.items q ≡ depends_on problem.now reference q) }
{
    let pair = Pair::of(problem, reference);
    let mut found = Vec::new(alloc);
    for _ in 0..problem.predicates.len() + 1 {
        let next = asking(alloc, problem, pair, found.as_slice())?;
        if next == found {
            return Ok(found);
        }
        found = next;
    }
    Ok(found)
}
