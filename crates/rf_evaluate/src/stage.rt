//! How far the evaluation of a clause has come.

ghost use Rattle.std.specs.Prelude.{◌≡◌, ◌<◌, ◌≤◌, ◌&&◌, ◌==◌, not, nat_le, nat_lt, ℕ, Bool, false, true, None, Some, length, slice_get, slice_index_or, slice_index, IfSome};
ghost use Rattle.std.specs.List.{list_any};
ghost use Rattle.rf_problem.specs.Reading.{is_entry};
ghost use Rattle.rf_problem.specs.Valid.{is_free};
ghost use Rattle.rf_problem.specs.declared.predicate.Literal.{Literal};
ghost use Rattle.rf_evaluate.specs.Terms.{is_unassigned, names_unassigned};
ghost use Rattle.rf_evaluate.specs.Evaluating.{with_element, without_literal};

use rf_problem::{Literal, Term};

/// Literals that are to hold together: those of a clause, or one of them without its negation.
#[derive(Clone, Copy)]
pub struct Body<'b> {
    /// The entries of the clause's variables, at most 8.
    pub variables: &'b [Option<u8>],
    /// The literals of the clause, at most 36.
    pub literals: &'b [Literal],
    /// Whether they stand inside the negation of one of them.
    pub is_inner: bool,
    /// The predicates that they call go less deep than this.
    pub depth: usize,
}

/// Which variables have an element, and which literals are still to be evaluated.
#[derive(Clone, Copy)]
pub struct Stage {
    /// The element of each variable that has one.
    pub elements: [u64; 8],
    /// The variables that are to get one.
    pub unassigned: [bool; 8],
    /// The literals that are to be evaluated.
    pub pending: [bool; 36],
}

/// The variables that range over a clause after so many parameters.
fn ranging_after(arity: usize, variables: &[Option<u8>]) -> [bool; 8]
    requires { length variables.now ≤ 8 }
    ensures { (v : ℕ) → slice_index_or result v false
        ≡ (nat_le arity v && (nat_lt v (length variables.now) && is_free (slice_index_or variables.now v None))) }
{
    let mut unassigned = [false; 8];
    for v in arity..variables.len() {
        unassigned[v] = variables[v].is_none();
    }
    unassigned
}

/// The variables that range inside the negation of literal `i`.
fn ranging_inside(i: usize, variables: &[Option<u8>]) -> [bool; 8]
    requires { length variables.now ≤ 8 }
    ensures { (v : ℕ) → slice_index_or result v false ≡ is_entry i (slice_index_or variables.now v None) }
{
    let mut unassigned = [false; 8];
    for (v, entry) in variables.iter().enumerate() {
        unassigned[v] = match entry {
            None => false,
            Some(j) => *j as usize == i,
        };
    }
    unassigned
}

impl Stage {
    /// Where the elements of the parameters are known alone.
    pub fn of_clause(arity: usize, body: &Body<'_>, elements: [u64; 8]) -> Stage
        requires few_variables { length body.now.variables.now ≤ 8 }
        requires few_literals { length body.now.literals.now ≤ 36 }
        ensures elements { result.elements ≡ elements }
        ensures unassigned { (v : ℕ) → slice_index_or result.unassigned v false
            ≡ (nat_le arity v && (nat_lt v (length body.now.variables.now) && is_free (slice_index_or body.now.variables.now v None))) }
        ensures pending { (i : ℕ) → i < length body.now.literals.now → slice_index_or result.pending i false ≡ true }
    {
        let mut pending = [false; 36];
        for i in 0..body.literals.len() {
            pending[i] = true;
        }
        Stage {
            elements,
            unassigned: ranging_after(arity, body.variables),
            pending,
        }
    }

    /// Where what stands inside the negation of literal `i` is begun.
    pub fn inside(i: usize, body: &Body<'_>, elements: [u64; 8]) -> Stage
        requires literal { i < 36 }
        requires few_variables { length body.now.variables.now ≤ 8 }
        ensures elements { result.elements ≡ elements }
        ensures unassigned { (v : ℕ) → slice_index_or result.unassigned v false ≡ is_entry i (slice_index_or body.now.variables.now v None) }
        ensures pending { (j : ℕ) → slice_index_or result.pending j false ≡ (j == i) }
    {
        let mut pending = [false; 36];
        pending[i] = true;
        Stage {
            elements,
            unassigned: ranging_inside(i, body.variables),
            pending,
        }
    }

    /// The same with element `x` for variable `v`.
    pub fn with(&self, v: usize, x: u64) -> Stage
        requires { v < 8 }
        ensures { result ≡ with_element self.now v x }
    {
        let mut elements = self.elements;
        let mut unassigned = self.unassigned;
        elements[v] = x;
        unassigned[v] = false;
        Stage {
            elements,
            unassigned,
            pending: self.pending,
        }
    }

    /// The same after literal `i` was evaluated.
    pub fn without(&self, i: usize) -> Stage
        requires { i < 36 }
        ensures { result ≡ without_literal self.now i }
    {
        let mut pending = self.pending;
        pending[i] = false;
        Stage {
            elements: self.elements,
            unassigned: self.unassigned,
            pending,
        }
    }

    /// Whether a term is a variable that is to get its element.
    fn is_unassigned(&self, term: Term) -> bool
        ensures { result ≡ is_unassigned self.now.unassigned term }
    {
        match term {
            Term::Var(v) => match self.unassigned.get(v as usize) {
                Some(is_unassigned) => *is_unassigned,
                None => false,
            },
            Term::Atom(_) => false,
        }
    }

    /// Whether some term is a variable that is to get its element.
    fn some_unassigned(&self, terms: &[Term]) -> bool
        ensures { result ≡ list_any (is_unassigned self.now.unassigned) terms.now }
    {
        terms.iter().any(|term| self.is_unassigned(*term))
    }

    /// Whether a literal names no variable that is to get its element.
    fn is_ground(&self, literal: &Literal) -> bool
        ensures { result ≡ not (names_unassigned self.now.unassigned literal.now) }
    {
        match literal {
            Literal::Call { args, .. } => !self.some_unassigned(args.as_slice()),
            Literal::Same(a, b) => !self.is_unassigned(*a) && !self.is_unassigned(*b),
            Literal::Differ(a, b) => !self.is_unassigned(*a) && !self.is_unassigned(*b),
        }
    }

    /// The first literal that is to be evaluated and can be.
    pub fn first_ground(&self, body: &Body<'_>) -> Option<usize>
        requires { length body.now.literals.now ≤ 36 }
        ensures found { IfSome result (λ i. i < length body.now.literals.now) }
        ensures pending { IfSome result (λ i. slice_index_or self.now.pending i false ≡ true) }
        ensures ground { IfSome result (λ i. (l : Literal) → slice_get body.now.literals.now i ≡ Some l → names_unassigned self.now.unassigned l ≡ false) }
        ensures none { result ≡ None → (i : ℕ) (l : Literal) → slice_get body.now.literals.now i ≡ Some l
            → slice_index_or self.now.pending i false ≡ true → names_unassigned self.now.unassigned l ≡ true }
    {
        for (i, literal) in body.literals.iter().enumerate() {
            if self.pending[i] && self.is_ground(literal) {
                return Some(i);
            }
        }
        None
    }
}
