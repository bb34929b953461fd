//! What is read of a state.

ghost use Rattle.std.specs.Prelude.{◌≡◌, ◌<◌, length};
ghost use Rattle.rf_state.specs.Added.{added_at};
ghost use Rattle.rf_state.specs.Meaning.{meaning};
ghost use Rattle.rf_state.specs.State.{by_classes, object_of, some_candidate, told, told_back};

use super::State;
use crate::class_sets::some_below;
use crate::{Facts, Object};
use rf_evaluate::Elements;
use rf_problem::{Problem, Symbol};
use rf_values::{ClassSet, Count, Truth};
use std::collections::BTreeMap;

/// What a map has of a reference and two objects.
pub fn added_at(added: &BTreeMap<(u32, u64, u64), Truth>, r: u32, a: u64, b: u64) -> Truth
    ensures { result ≡ added_at added.now r a b }
{
    match added.get(&(r, a, b)) {
        Some(truth) => *truth,
        None => Truth::Unknown,
    }
}

impl State<'_> {
    pub(super) fn object(&self, o: u64) -> &Object
        requires { o < length self.now.objects.items }
        ensures { result.now ≡ object_of (meaning self.now) o }
    {
        &self.objects[o as usize]
    }

    // What is known of an edge by assertions and by what was added.
    fn told(&self, r: u32, a: u64, b: u64) -> Truth
        requires from { a < length self.now.objects.items }
        requires to { b < length self.now.objects.items }
        ensures { result ≡ told self.now.problem.now (meaning self.now) r a b }
    {
        let origins = [self.object(a).origin, self.object(b).origin];
        let asserted = self.problem.asserted(Symbol::Reference(r), &origins);
        asserted.merge(added_at(&self.added, r, a, b))
    }

    // What is known of it by the opposite.
    fn told_back(&self, opposite: Option<u32>, a: u64, b: u64) -> Truth
        requires from { a < length self.now.objects.items }
        requires to { b < length self.now.objects.items }
        ensures { result ≡ told_back self.now.problem.now (meaning self.now) opposite a b }
    {
        match opposite {
            Some(q) => self.told(q, b, a),
            None => Truth::Unknown,
        }
    }

    // Whether some class that the nodes of an object may have is below this class.
    fn some_candidate(&self, o: u64, class: u32) -> bool
        requires object { o < length self.now.objects.items }
        requires class { class < length self.now.problem.now.classes }
        ensures { result ≡ some_candidate self.now.problem.now (meaning self.now) o class }
    {
        some_below(self.problem, self.object(o).candidates, class)
    }

    // What is known of an edge by the classes of both objects.
    fn by_classes(&self, r: u32, a: u64, b: u64) -> Truth
        requires reference { r < length self.now.problem.now.references }
        requires from { a < length self.now.objects.items }
        requires to { b < length self.now.objects.items }
        ensures { result ≡ by_classes self.now.problem.now (meaning self.now) r a b }
    {
        let reference = self.problem.reference(r);
        if self.some_candidate(a, reference.source) && self.some_candidate(b, reference.target) {
            Truth::Unknown
        } else {
            Truth::False
        }
    }
}

impl Facts for State<'_> {
    ghost problem = { λ s. s.problem.now };

    ghost state = { meaning };

    fn problem(&self) -> &Problem {
        self.problem
    }

    fn objects(&self) -> u64 {
        self.objects.len() as u64
    }

    fn origin(&self, o: u64) -> u64 {
        self.object(o).origin
    }

    fn count(&self, o: u64) -> Count {
        self.object(o).count
    }

    fn candidates(&self, o: u64) -> ClassSet {
        self.object(o).candidates
    }

    fn fact(&self, r: u32, a: u64, b: u64) -> Truth {
        let opposite = self.problem.reference(r).opposite;
        let back = self.told_back(opposite, a, b);
        let told = self.told(r, a, b);
        told.merge(back.merge(self.by_classes(r, a, b)))
    }

    fn from_origin(&self, origin: u64) -> Elements<'_> {
        match &self.named {
            Some(named) => named.object(origin),
            None => Elements::Below(self.objects.len() as u64),
        }
    }

    fn ends_from(&self, r: u32, a: u64) -> Elements<'_> {
        match &self.named {
            Some(named) => named.from(self.problem, r, a),
            None => Elements::Below(self.objects.len() as u64),
        }
    }

    fn ends_into(&self, r: u32, b: u64) -> Elements<'_> {
        match &self.named {
            Some(named) => named.into(self.problem, r, b),
            None => Elements::Below(self.objects.len() as u64),
        }
    }
}
