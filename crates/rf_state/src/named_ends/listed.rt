//! What is listed.

ghost use Rattle.std.specs.Prelude.{◌≡◌, ◌≢◌, ◌<◌, ◌↔◌, ℕ, All, IfSome, IsTrue, None, Some, false, true, length, vec_len};
ghost use Rattle.rf_values.specs.declared.truth.Truth.TheVariants.{False};
ghost use Rattle.rf_evaluate.specs.Elements.{AreBelow, includes};
ghost use Rattle.rf_state.specs.Lists.{is_listed};
ghost use Rattle.rf_state.specs.NamedEnds.{asserted_both};

use super::NamedEnds;
use crate::lists::listed_at;
use rf_evaluate::Elements;
use rf_problem::{Problem, Symbol};
use rf_values::Truth;
use std::slice;

/// Whether it is asserted, of an edge or of the edge back, that there is none.
fn is_denied(problem: &Problem, r: u32, a: u64, b: u64) -> bool
    requires { r < length problem.now.references }
    ensures { IsTrue result ↔ asserted_both problem.now r a b ≡ False }
{
    let there = problem.asserted(Symbol::Reference(r), &[a, b]);
    let back = match problem.reference(r).opposite {
        Some(q) => problem.asserted(Symbol::Reference(q), &[b, a]),
        None => Truth::Unknown,
    };
    there.merge(back) == Truth::False
}

impl NamedEnds {
    /// The object of this number, where there is one.
    pub fn object(&self, number: u64) -> Elements<'_>
        ensures complete { number < vec_len self.now.numbers → includes result number ≡ true }
        ensures below { AreBelow (vec_len self.now.numbers) result }
    {
        match self.numbers.get(number as usize) {
            Some(number) => Elements::Listed(slice::from_ref(number)),
            None => Elements::Below(0),
        }
    }

    /// The objects to which an edge may lead from an object, where they are known: those that are named
    /// with it, where it is asserted that there is no other edge.
    pub fn from(&self, problem: &Problem, r: u32, a: u64) -> Elements<'_>
        requires { r < length problem.now.references }
        ensures listed { (b : ℕ) → b < vec_len self.now.numbers → includes result b ≡ false → is_listed self.now.from r (Some a) b ≡ false }
        ensures alone { (b : ℕ) → b < vec_len self.now.numbers → includes result b ≡ false → is_listed self.now.from r None b ≡ false }
        ensures denied { (b : ℕ) → b < vec_len self.now.numbers → includes result b ≡ false
            → asserted_both problem.now r a (vec_len self.now.numbers) ≡ False }
        ensures below { AreBelow (vec_len self.now.numbers) result }
    {
        let size = self.numbers.len() as u64;
        if listed_at(&self.from, r, None).is_empty() && is_denied(problem, r, a, size) {
            Elements::Listed(listed_at(&self.from, r, Some(a)))
        } else {
            Elements::Below(size)
        }
    }

    /// The objects from which an edge may lead to an object, where they are known.
    pub fn into(&self, problem: &Problem, r: u32, b: u64) -> Elements<'_>
        requires { r < length problem.now.references }
        ensures listed { (a : ℕ) → a < vec_len self.now.numbers → includes result a ≡ false → is_listed self.now.into r (Some b) a ≡ false }
        ensures alone { (a : ℕ) → a < vec_len self.now.numbers → includes result a ≡ false → is_listed self.now.into r None a ≡ false }
        ensures denied { (a : ℕ) → a < vec_len self.now.numbers → includes result a ≡ false
            → asserted_both problem.now r (vec_len self.now.numbers) b ≡ False }
        ensures below { AreBelow (vec_len self.now.numbers) result }
    {
        let size = self.numbers.len() as u64;
        if listed_at(&self.into, r, None).is_empty() && is_denied(problem, r, size, b) {
            Elements::Listed(listed_at(&self.into, r, Some(b)))
        } else {
            Elements::Below(size)
        }
    }
}
