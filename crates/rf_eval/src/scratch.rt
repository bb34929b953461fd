//! A state whose predicates are evaluated anew for each value.

ghost use Rattle.std.specs.Prelude.{◌≡◌, IfOk};
ghost use Rattle.rf_state.specs.Meaning.{meaning};

use rf_evaluate::Elements;
use rf_problem::Problem;
use rf_state::{Edit, Facts, State, View, evaluate};
use rf_values::{ClassSet, Count, Truth, Tuple};
use std::alloc::{AllocError, Global};

/// A state as what is edited and what tells the values of predicates. It keeps no value, and no states.
#[derive(Drop)]
pub struct Scratch<'p> {
    state: State<'p>,
}

impl<'p> Scratch<'p> {
    /// This state.
    pub fn new(state: State<'p>) -> Scratch<'p>
        ensures { result.state ≡ state.entry }
    {
        Scratch { state }
    }

    /// The same state once more.
    pub fn copy(&self, alloc: Global) -> Result<Scratch<'p>, AllocError>
        ensures problem { IfOk result (λ s. s.state.problem.now ≡ self.now.state.problem.now) }
        ensures same { IfOk result (λ s. meaning s.state ≡ meaning self.now.state) }
    {
        let state = self.state.copy(alloc)?;
        Ok(Scratch { state })
    }
}

impl Facts for Scratch<'_> {
    ghost problem = { λ s. s.state.problem.now };

    ghost state = { λ s. meaning s.state };

    fn problem(&self) -> &Problem {
        Facts::problem(&self.state)
    }

    fn objects(&self) -> u64 {
        self.state.objects()
    }

    fn origin(&self, o: u64) -> u64 {
        self.state.origin(o)
    }

    fn count(&self, o: u64) -> Count {
        self.state.count(o)
    }

    fn candidates(&self, o: u64) -> ClassSet {
        self.state.candidates(o)
    }

    fn fact(&self, r: u32, a: u64, b: u64) -> Truth {
        self.state.fact(r, a, b)
    }

    fn from_origin(&self, origin: u64) -> Elements<'_> {
        self.state.from_origin(origin)
    }

    fn ends_from(&self, r: u32, a: u64) -> Elements<'_> {
        self.state.ends_from(r, a)
    }

    fn ends_into(&self, r: u32, b: u64) -> Elements<'_> {
        self.state.ends_into(r, b)
    }
}

impl View for Scratch<'_> {
    fn value(&self, alloc: Global, predicate: u32, tuple: Tuple) -> Result<Truth, AllocError> {
        evaluate(alloc, &self.state, predicate, tuple)
    }
}

impl Edit for Scratch<'_> {
    ghost use Rattle.std.specs.Prelude.{[]};

    ghost kept = { λ s. [] };

    fn merge(&mut self, alloc: Global, r: u32, a: u64, b: u64, v: Truth) -> Result<(), AllocError> {
        self.state.merge(r, a, b, v)
    }

    fn narrow(&mut self, alloc: Global, o: u64, count: Count) -> Result<(), AllocError> {
        self.state.narrow(o, count);
        Ok(())
    }

    fn keep(&mut self, alloc: Global, o: u64, set: ClassSet) -> Result<(), AllocError> {
        self.state.keep(o, set);
        Ok(())
    }

    fn fresh(&mut self, alloc: Global, o: u64) -> Result<u64, AllocError> {
        self.state.fresh(o)
    }
}
