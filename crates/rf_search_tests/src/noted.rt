//! A state with versions that notes what is done to it.

use rf_evaluate::Elements;
use rf_problem::Problem;
use rf_state::{Edit, Facts, View};
use rf_values::{ClassSet, Count, Truth, Tuple};
use rf_vstate::{Versioned, Versions};
use std::alloc::{AllocError, Global};

/// A call that changes a state or its versions.
#[derive(Clone, Copy, Debug, PartialEq, Eq)]
pub enum Call {
    Merge,
    Narrow(u64),
    Keep(u64),
    Fresh(u64),
    Commit,
    Restore(u64),
    Prune(u64),
}

/// A `Versioned`, to which each call is passed on, with the calls that change it, as far as there is room for them.
/// Where it is `mute`, it answers for each value that memory ran out.
#[derive(Drop)]
pub struct Noted<'p> {
    inner: Versioned<'p>,
    calls: Vec<Call>,
    mute: bool,
}

impl<'p> Noted<'p> {
    ghost use Rattle.std.specs.Prelude.{◌≡◌, ◌<◌, ◌^◌, ◌∷◌, [], IfOk};
    ghost use Rattle.rf_state.specs.State.{IsRoot};
    ghost use Rattle.rf_vstate.specs.Meaning.{current, kept};

    /// The root of a problem, with room for so many calls.
    pub fn root(
        alloc: Global,
        problem: &'p Problem,
        mute: bool,
        room: usize,
    ) -> Result<Noted<'p>, AllocError>
        requires { room < 2 ^ 16 }
        ensures problem { IfOk result (λ n. n.inner.problem.now ≡ problem.now) }
        ensures root { IfOk result (λ n. IsRoot problem.now (current n.inner)) }
        ensures kept { IfOk result (λ n. kept n.inner ≡ current n.inner ∷ []) }
    {
        let inner = Versioned::root(alloc, problem)?;
        let calls = Vec::with_capacity(alloc, room)?;
        Ok(Noted { inner, calls, mute })
    }

    /// What was called, the first call first.
    pub fn calls(&self) -> &[Call] {
        self.calls.as_slice()
    }

    fn note(&mut self, call: Call)
        ensures inner { self.new.inner ≡ self.old.inner }
    {
        if self.calls.len() < self.calls.capacity() {
            let _ = self.calls.push(call);
        }
    }
}

impl Facts for Noted<'_> {
    ghost use Rattle.rf_vstate.specs.Meaning.{current};

    ghost problem = { λ n. n.inner.problem.now };

    ghost state = { λ n. current n.inner };

    fn problem(&self) -> &Problem {
        self.inner.problem()
    }

    fn objects(&self) -> u64 {
        self.inner.objects()
    }

    fn origin(&self, o: u64) -> u64 {
        self.inner.origin(o)
    }

    fn count(&self, o: u64) -> Count {
        self.inner.count(o)
    }

    fn candidates(&self, o: u64) -> ClassSet {
        self.inner.candidates(o)
    }

    fn fact(&self, r: u32, a: u64, b: u64) -> Truth {
        self.inner.fact(r, a, b)
    }

    fn from_origin(&self, origin: u64) -> Elements<'_> {
        self.inner.from_origin(origin)
    }

    fn ends_from(&self, r: u32, a: u64) -> Elements<'_> {
        self.inner.ends_from(r, a)
    }

    fn ends_into(&self, r: u32, b: u64) -> Elements<'_> {
        self.inner.ends_into(r, b)
    }
}

impl View for Noted<'_> {
    fn value(&self, alloc: Global, predicate: u32, tuple: Tuple) -> Result<Truth, AllocError> {
        if self.mute {
            return Err(AllocError);
        }
        self.inner.value(alloc, predicate, tuple)
    }
}

impl Edit for Noted<'_> {
    ghost use Rattle.rf_vstate.specs.Meaning.{kept};

    ghost kept = { λ n. kept n.inner };

    fn merge(&mut self, alloc: Global, r: u32, a: u64, b: u64, v: Truth) -> Result<(), AllocError> {
        self.note(Call::Merge);
        self.inner.merge(alloc, r, a, b, v)
    }

    fn narrow(&mut self, alloc: Global, o: u64, count: Count) -> Result<(), AllocError> {
        self.note(Call::Narrow(o));
        self.inner.narrow(alloc, o, count)
    }

    fn keep(&mut self, alloc: Global, o: u64, set: ClassSet) -> Result<(), AllocError> {
        self.note(Call::Keep(o));
        self.inner.keep(alloc, o, set)
    }

    fn fresh(&mut self, alloc: Global, o: u64) -> Result<u64, AllocError> {
        self.note(Call::Fresh(o));
        self.inner.fresh(alloc, o)
    }
}

impl Versions for Noted<'_> {
    fn commit(&mut self) -> Result<u64, AllocError> {
        self.note(Call::Commit);
        self.inner.commit()
    }

    fn restore(&mut self, v: u64) {
        self.note(Call::Restore(v));
        self.inner.restore(v);
    }

    fn prune(&mut self, v: u64) {
        self.note(Call::Prune(v));
        self.inner.prune(v);
    }

    fn kept(&self) -> u64 {
        self.inner.kept()
    }
}
