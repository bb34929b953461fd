//! How ends are named.

ghost use Rattle.std.specs.Prelude.{◌≡◌, ◌<◌, ◌∷◌, ◌++◌, [], ℕ, List, length, vec_len, IfOk, OnOk};
ghost use Rattle.std.specs.Option.{ForSome};
ghost use Rattle.rf_problem.specs.Valid.{FitsAssertion};
ghost use Rattle.rf_problem.specs.declared.assertion.Assertion.{Assertion as Statement};
ghost use Rattle.rf_state.specs.Added.{Added};
ghost use Rattle.rf_state.specs.Lists.{AreNumbers, AreSameLists};
ghost use Rattle.rf_state.specs.NamedEnds.{AreStated, IsEdgeNamed, IsGrown, IsNamedToo};

use super::NamedEnds;
use crate::lists::{copy, put};
use rf_problem::{Assertion, Problem, Symbol};
use std::alloc::{AllocError, Global};
use std::collections::BTreeMap;

/// The numbers below this one, in order.
fn numbers(alloc: Global, end: u64) -> Result<Vec<u64>, AllocError>
    ensures many { IfOk result (λ numbers. vec_len numbers ≡ end) }
    ensures each { IfOk result (λ numbers. AreNumbers end numbers.items) }
{
    let mut numbers = Vec::new(alloc);
    for number in 0..end {
        numbers.push(number)?;
    }
    Ok(numbers)
}

impl NamedEnds {
    /// Those that the assertions of a problem name.
    pub fn of(alloc: Global, problem: &Problem) -> Result<NamedEnds, AllocError>
        ensures numbers { IfOk result (λ named. vec_len named.numbers ≡ length problem.now.objects) }
        ensures stated { IfOk result (λ named. AreStated problem.now problem.now.assertions named) }
    {
        let mut named = NamedEnds {
            numbers: numbers(alloc, problem.objects.len() as u64)?,
            from: BTreeMap::new(alloc),
            into: BTreeMap::new(alloc),
        };
        for assertion in problem.assertions.as_slice() {
            named.name_stated(problem, assertion)?;
        }
        Ok(named)
    }

    /// The same once more.
    pub fn copy(&self, alloc: Global) -> Result<NamedEnds, AllocError>
        ensures numbers { IfOk result (λ named. vec_len named.numbers ≡ vec_len self.now.numbers) }
        ensures from { IfOk result (λ named. AreSameLists self.now.from named.from) }
        ensures into { IfOk result (λ named. AreSameLists self.now.into named.into) }
    {
        let numbers = Vec::from_slice(alloc, &self.numbers)?;
        let from = copy(&self.from)?;
        let into = copy(&self.into)?;
        Ok(NamedEnds {
            numbers,
            from,
            into,
        })
    }

    // Names these, of which each is an object or `*`, as the first and the second end of an edge.
    fn name(&mut self, r: u32, x: Option<u64>, y: Option<u64>) -> Result<(), AllocError>
        requires first { ForSome x (λ a. a < vec_len self.old.numbers) }
        requires second { ForSome y (λ b. b < vec_len self.old.numbers) }
        ensures numbers { self.new.numbers ≡ self.old.numbers }
        ensures named { OnOk result (IsNamedToo self.old r x y self.new) }
        ensures grown { IsGrown self.old self.new }
    {
        let alloc = *self.numbers.allocator();
        if let Some(b) = y {
            put(alloc, &mut self.from, (r, x), b)?;
        }
        if let Some(a) = x {
            put(alloc, &mut self.into, (r, y), a)?;
        }
        Ok(())
    }

    /// Names these as the ends of an edge, and the other way round as those of the edge back.
    pub fn name_edge(
        &mut self,
        problem: &Problem,
        r: u32,
        x: Option<u64>,
        y: Option<u64>,
    ) -> Result<(), AllocError>
        requires reference { r < length problem.now.references }
        requires first { ForSome x (λ a. a < vec_len self.old.numbers) }
        requires second { ForSome y (λ b. b < vec_len self.old.numbers) }
        ensures numbers { self.new.numbers ≡ self.old.numbers }
        ensures named { OnOk result (IsEdgeNamed problem.now self.old r x y self.new) }
        ensures grown { IsGrown self.old self.new }
    {
        self.name(r, x, y)?;
        match problem.reference(r).opposite {
            Some(q) => self.name(q, y, x),
            None => Ok(()),
        }
    }

    // Names what an assertion names.
    fn name_stated(&mut self, problem: &Problem, assertion: &Assertion) -> Result<(), AllocError>
        requires numbers { vec_len self.old.numbers ≡ length problem.now.objects }
        requires fits { FitsAssertion (length problem.now.classes) (length problem.now.references)
            problem.now.predicates (length problem.now.objects) assertion.now }
        ensures numbers { self.new.numbers ≡ self.old.numbers }
        ensures stated { OnOk result ((xs : List Statement) → AreStated problem.now xs self.old
            → AreStated problem.now (xs ++ assertion.now ∷ []) self.new) }
    {
        let Symbol::Reference(r) = assertion.symbol else {
            return Ok(());
        };
        let &[x, y] = assertion.args.as_slice() else {
            return Ok(());
        };
        self.name_edge(problem, r, x, y)
    }
}
