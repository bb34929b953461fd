//! What is read of a state in a map.

ghost use Rattle.std.specs.Prelude.{◌≡◌, ◌<◌, ◌&&◌, ℕ, length};
ghost use Rattle.rf_state.specs.State.{by_classes, fact, object_of, some_candidate, told, told_back};
ghost use Rattle.rf_vstate.specs.Meaning.{current};

use super::Versioned;
use crate::rows;
use rf_evaluate::Elements;
use rf_problem::{Problem, Symbol};
use rf_state::{Facts, Object, View, evaluate};
use rf_values::{ClassSet, Count, Truth, Tuple};
use std::alloc::{AllocError, Global};

// An object at an end of an edge.
#[derive(Drop)]
struct End {
    number: u64,
    object: Object,
}

impl Versioned<'_> {
    pub(super) fn object(&self, o: u64) -> Object
        requires { o < length (current self.now).objects }
        ensures { result ≡ object_of (current self.now) o }
    {
        rows::object_at(&self.store, o)
    }

    fn end(&self, o: u64) -> End
        requires { o < length (current self.now).objects }
        ensures number { result.number ≡ o }
        ensures object { result.object ≡ object_of (current self.now) o }
    {
        End {
            number: o,
            object: self.object(o),
        }
    }

    // What is known of an edge by assertions and by what was added.
    fn told(&self, r: u32, from: &End, to: &End) -> Truth
        requires from { from.now.object ≡ object_of (current self.now) from.now.number }
        requires to { to.now.object ≡ object_of (current self.now) to.now.number }
        ensures { result ≡ told self.now.problem.now (current self.now) r from.now.number to.now.number }
    {
        let origins = [from.object.origin, to.object.origin];
        let asserted = self.problem.asserted(Symbol::Reference(r), &origins);
        asserted.merge(rows::added_at(&self.store, r, from.number, to.number))
    }

    // What is known of it by the opposite.
    fn told_back(&self, opposite: Option<u32>, from: &End, to: &End) -> Truth
        requires from { from.now.object ≡ object_of (current self.now) from.now.number }
        requires to { to.now.object ≡ object_of (current self.now) to.now.number }
        ensures { result ≡ told_back self.now.problem.now (current self.now) opposite from.now.number to.now.number }
    {
        match opposite {
            Some(q) => self.told(q, to, from),
            None => Truth::Unknown,
        }
    }

    // Whether some class that the nodes of an object may have is below this class.
    fn some_candidate(&self, end: &End, class: u32) -> bool
        requires object { end.now.object ≡ object_of (current self.now) end.now.number }
        requires class { class < length self.now.problem.now.classes }
        ensures { result ≡ some_candidate self.now.problem.now (current self.now) end.now.number class }
    {
        let below = self.problem.classes.below(class);
        !end.object.candidates.both(below).is_empty()
    }

    // What is known of an edge by the classes of both objects.
    fn by_classes(&self, r: u32, from: &End, to: &End) -> Truth
        requires reference { r < length self.now.problem.now.references }
        requires from { from.now.object ≡ object_of (current self.now) from.now.number }
        requires to { to.now.object ≡ object_of (current self.now) to.now.number }
        ensures { result ≡ by_classes self.now.problem.now (current self.now) r from.now.number to.now.number }
    {
        let reference = self.problem.reference(r);
        if self.some_candidate(from, reference.source)
            && self.some_candidate(to, reference.target)
        {
            Truth::Unknown
        } else {
            Truth::False
        }
    }
}

impl Facts for Versioned<'_> {
    ghost problem = { λ v. v.problem.now };

    ghost state = { current };

    fn problem(&self) -> &Problem {
        self.problem
    }

    fn objects(&self) -> u64 {
        rows::number(&self.store)
    }

    fn origin(&self, o: u64) -> u64 {
        self.object(o).origin
    }

    fn count(&self, o: u64) -> Count {
        rows::count_at(&self.store, o)
    }

    fn candidates(&self, o: u64) -> ClassSet {
        self.object(o).candidates
    }

    fn fact(&self, r: u32, a: u64, b: u64) -> Truth {
        let opposite = self.problem.reference(r).opposite;
        let from = self.end(a);
        let to = self.end(b);
        let told = self.told(r, &from, &to);
        let back = self.told_back(opposite, &from, &to);
        told.merge(back.merge(self.by_classes(r, &from, &to)))
    }

    fn from_origin(&self, origin: u64) -> Elements<'_> {
        Elements::Below(self.objects())
    }

    fn ends_from(&self, r: u32, a: u64) -> Elements<'_> {
        Elements::Below(self.objects())
    }

    fn ends_into(&self, r: u32, b: u64) -> Elements<'_> {
        Elements::Below(self.objects())
    }
}

impl View for Versioned<'_> {
    fn value(&self, alloc: Global, predicate: u32, tuple: Tuple) -> Result<Truth, AllocError> {
        evaluate(alloc, self, predicate, tuple)
    }
}
