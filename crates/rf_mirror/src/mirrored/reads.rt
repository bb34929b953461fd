//! What is read of a state in lists.

ghost use Rattle.std.specs.Prelude.{◌≡◌, ◌<◌, length, IfSome};
ghost use Rattle.rf_values.specs.Truth.{merge};
ghost use Rattle.rf_problem.specs.Parts.{reference_at};
ghost use Rattle.rf_state.specs.Root.{FitsObject};
ghost use Rattle.rf_state.specs.State.{by_classes, object_of, some_candidate, told, told_back};
ghost use Rattle.rf_mirror.specs.Meaning.{current};

use super::Mirrored;
use crate::objects::object_of;
use crate::reading::told_at;
use rf_evaluate::Elements;
use rf_problem::Problem;
use rf_state::{Facts, Object, View, evaluate};
use rf_values::{ClassSet, Count, Truth, Tuple};
use std::alloc::{AllocError, Global};

impl Mirrored<'_> {
    pub(super) fn object(&self, o: u64) -> Object
        requires { o < length (current self.now).objects }
        ensures object { result ≡ object_of (current self.now) o }
        ensures fits { FitsObject self.now.inner.problem.now result }
    {
        match self.objects.get(o as usize) {
            Some(object) => object,
            None => object_of(&self.inner, o),
        }
    }

    // What is told of an edge, and of the edge back of the opposite, where there are cells of both.
    fn told(&self, r: u32, a: u64, b: u64) -> Option<Truth>
        requires reference { r < length self.now.inner.problem.now.references }
        requires from { a < length (current self.now).objects }
        requires to { b < length (current self.now).objects }
        ensures { let p = self.now.inner.problem.now in let s = current self.now in
            IfSome result (λ t. t ≡ merge (told p s r a b) (told_back p s (reference_at p.references r).opposite a b)) }
    {
        let problem = self.inner.problem();
        let onward = told_at(problem, &self.cells, r, a, b)?;
        match problem.reference(r).opposite {
            Some(q) => Some(onward.merge(told_at(problem, &self.cells, q, b, a)?)),
            None => Some(onward),
        }
    }

    // Whether some class that the nodes of an object may have is below this class.
    fn some_candidate(&self, o: u64, class: u32) -> bool
        requires object { o < length (current self.now).objects }
        requires class { class < length self.now.inner.problem.now.classes }
        ensures { result ≡ some_candidate self.now.inner.problem.now (current self.now) o class }
    {
        let below = self.inner.problem().classes.below(class);
        !self.object(o).candidates.both(below).is_empty()
    }

    // What is known of an edge by the classes of both objects.
    fn by_classes(&self, r: u32, a: u64, b: u64) -> Truth
        requires reference { r < length self.now.inner.problem.now.references }
        requires from { a < length (current self.now).objects }
        requires to { b < length (current self.now).objects }
        ensures { result ≡ by_classes self.now.inner.problem.now (current self.now) r a b }
    {
        let reference = self.inner.problem().reference(r);
        if self.some_candidate(a, reference.source) && self.some_candidate(b, reference.target) {
            Truth::Unknown
        } else {
            Truth::False
        }
    }

    // What is told of an edge, with what is known of it by the classes of both objects: where there is told that there is
    // none, these tell nothing more.
    fn with_classes(&self, told: Truth, r: u32, a: u64, b: u64) -> Truth
        requires reference { r < length self.now.inner.problem.now.references }
        requires from { a < length (current self.now).objects }
        requires to { b < length (current self.now).objects }
        ensures { result ≡ merge told (by_classes self.now.inner.problem.now (current self.now) r a b) }
    {
        match told {
            Truth::False | Truth::Error => told,
            Truth::True | Truth::Unknown => told.merge(self.by_classes(r, a, b)),
        }
    }
}

impl Facts for Mirrored<'_> {
    ghost problem = { λ m. m.inner.problem.now };

    ghost state = { current };

    fn problem(&self) -> &Problem {
        self.inner.problem()
    }

    fn objects(&self) -> u64 {
        self.number
    }

    fn origin(&self, o: u64) -> u64 {
        self.object(o).origin
    }

    fn count(&self, o: u64) -> Count {
        self.object(o).count
    }

    fn candidates(&self, o: u64) -> ClassSet {
        self.object(o).candidates
    }

    fn fact(&self, r: u32, a: u64, b: u64) -> Truth {
        match self.told(r, a, b) {
            Some(told) => self.with_classes(told, r, a, b),
            None => self.inner.fact(r, a, b),
        }
    }

    fn from_origin(&self, origin: u64) -> Elements<'_> {
        Elements::Below(self.number)
    }

    fn ends_from(&self, r: u32, a: u64) -> Elements<'_> {
        Elements::Below(self.number)
    }

    fn ends_into(&self, r: u32, b: u64) -> Elements<'_> {
        Elements::Below(self.number)
    }
}

impl View for Mirrored<'_> {
    fn value(&self, alloc: Global, predicate: u32, tuple: Tuple) -> Result<Truth, AllocError> {
        evaluate(alloc, self, predicate, tuple)
    }
}
