//! Objects that are chosen for the variables of a clause, one after the other.

ghost use Rattle.std.specs.Prelude.{◌≡◌, ◌<◌, ◌≤◌, ◌&&◌, ℕ, Bool, IfSome, None, nat_lt, false, true, length, slice_index, slice_index_or, slice_set};
ghost use Rattle.std.specs.List.{list_any};
ghost use Rattle.rf_evaluate.specs.Terms.{is_unassigned, names_unassigned};
ghost use Rattle.rf_problem.specs.Valid.{is_free};
ghost use Rattle.rf_prop_broken.specs.Looking.{collected};

use crate::instances::with;
use rf_problem::{Literal, Term};
use rf_values::Objects;

/// The objects that are chosen, and the variables that wait for one: now, and before the last one was chosen. A
/// variable that waits, or ranges inside a negation, has object 0 in its place.
#[derive(Clone, Copy)]
pub struct Choice {
    pub places: [u64; 8],
    pub waiting: [bool; 8],
    pub before: [bool; 8],
}

// The variables that range over a clause.
fn ranging(variables: &[Option<u8>]) -> [bool; 8]
    requires { length variables.now ≤ 8 }
    ensures { (v : ℕ) → slice_index_or result v false ≡ (nat_lt v (length variables.now) && is_free (slice_index_or variables.now v None)) }
{
    let mut waiting = [false; 8];
    for v in 0..variables.len() {
        waiting[v] = variables[v].is_none();
    }
    waiting
}

// Whether a term is a marked variable.
fn is_marked(marks: &[bool], term: Term) -> bool
    ensures { result ≡ is_unassigned marks.now term }
{
    match term {
        Term::Var(v) => match marks.get(v as usize) {
            Some(is_marked) => *is_marked,
            None => false,
        },
        Term::Atom(_) => false,
    }
}

// Whether some term is a marked variable.
fn some_marked(marks: &[bool], terms: &[Term]) -> bool
    ensures { result ≡ list_any (is_unassigned marks.now) terms.now }
{
    terms.iter().any(|term| is_marked(marks, *term))
}

// Whether a literal names a marked variable.
fn names_marked(marks: &[bool], literal: &Literal) -> bool
    ensures { result ≡ names_unassigned marks.now literal.now }
{
    match literal {
        Literal::Call { args, .. } => some_marked(marks, args.as_slice()),
        Literal::Same(a, b) => is_marked(marks, *a) || is_marked(marks, *b),
        Literal::Differ(a, b) => is_marked(marks, *a) || is_marked(marks, *b),
    }
}

impl Choice {
    /// None is chosen.
    pub fn of(variables: &[Option<u8>]) -> Choice
        requires { length variables.now ≤ 8 }
        ensures places { (v : ℕ) → slice_index result.places v ≡ 0 }
        ensures waiting { (v : ℕ) → slice_index_or result.waiting v false
            ≡ (nat_lt v (length variables.now) && is_free (slice_index_or variables.now v None)) }
    {
        Choice {
            places: [0; 8],
            waiting: ranging(variables),
            before: [true; 8],
        }
    }

    /// The same with an object for a variable.
    pub fn with(&self, variable: usize, object: u64) -> Choice
        requires { variable < 8 }
        ensures { result ≡ record {
          places = slice_set self.now.places variable object;
          waiting = slice_set self.now.waiting variable false;
          before = self.now.waiting;
        } }
    {
        let mut places = self.places;
        let mut waiting = self.waiting;
        places[variable] = object;
        waiting[variable] = false;
        Choice {
            places,
            waiting,
            before: self.waiting,
        }
    }

    /// Whether a literal names no variable that waits, and named one before the last object was chosen.
    pub fn is_due(&self, literal: &Literal) -> bool
        ensures { result ≡ true → names_unassigned self.now.waiting literal.now ≡ false }
    {
        names_marked(&self.before, literal) && !names_marked(&self.waiting, literal)
    }

    /// The object of a variable that doesn't wait.
    pub fn place(&self, v: u8) -> Option<u64>
        ensures { IfSome result (λ o. (slice_index_or self.now.waiting v false ≡ false) × (o ≡ slice_index self.now.places v)) }
    {
        let v = v as usize;
        if v < 8 && !self.waiting[v] {
            Some(self.places[v])
        } else {
            None
        }
    }

    /// The number of a variable that waits.
    pub fn waiting(&self, v: u8) -> Option<usize>
        ensures { IfSome result (λ u. (u ≡ v) × ((u < 8) × (slice_index_or self.now.waiting u false ≡ true))) }
    {
        let v = v as usize;
        if v < 8 && self.waiting[v] {
            Some(v)
        } else {
            None
        }
    }

    /// The first variable that waits.
    pub fn first_waiting(&self) -> Option<usize>
        ensures few { IfSome result (λ v. v < 8) }
        ensures waiting { IfSome result (λ v. slice_index_or self.now.waiting v false ≡ true) }
        ensures none { result ≡ None → (v : ℕ) → v < 8 → slice_index_or self.now.waiting v false ≡ false }
    {
        for v in 0..8 {
            if self.waiting[v] {
                return Some(v);
            }
        }
        None
    }
}

/// The objects of the variables that range over a clause, in order.
pub fn collected(variables: &[Option<u8>], places: &[u64; 8]) -> Objects
    requires { length variables.now ≤ 8 }
    ensures { result ≡ collected variables.now (slice_index places.now) }
{
    let mut objects = Objects::of(&[]);
    for v in 0..variables.len() {
        if variables[v].is_none() {
            objects = with(objects, places[v]);
        }
    }
    objects
}
