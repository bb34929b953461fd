//! A state as what is known of its objects.

ghost use Rattle.std.specs.Prelude.{◌≡◌, nat_lt, ℕ, length};
ghost use Rattle.std.specs.FinSet.{contains};
ghost use Rattle.rf_state.specs.State.{object_of};
ghost use Rattle.rf_state.specs.Values.{may_have_node};

use crate::Facts;
use crate::class_sets::{all_below, some_below};
use rf_evaluate::{Elements, Knowledge};
use rf_finite::within;
use rf_problem::{Problem, Symbol};
use rf_values::{ClassSet, Count, Truth};

/// How many nodes an object stands for; where there is no such object, none.
fn count_of<F: Facts>(facts: &F, o: u64) -> Count
    ensures { result ≡ (object_of (F.state facts.now) o).count }
{
    if o < facts.objects() {
        facts.count(o)
    } else {
        Count { lo: 0, hi: Some(0) }
    }
}

/// Whether it may have one.
pub fn may_have_node<F: Facts>(facts: &F, o: u64) -> bool
    ensures { result ≡ may_have_node (F.state facts.now) o }
{
    within(1, count_of(facts, o).hi)
}

/// The classes that its nodes may have.
fn candidates_of<F: Facts>(facts: &F, o: u64) -> ClassSet
    ensures { result ≡ (object_of (F.state facts.now) o).candidates }
{
    if o < facts.objects() {
        facts.candidates(o)
    } else {
        ClassSet::empty()
    }
}

/// A state, as what is known of its objects.
#[derive(Drop)]
pub struct Stated<'f, F: Facts> {
    pub facts: &'f F,
    // The numbers of the problem's classes.
    pub numbers: ClassSet,
    ghost all: { (c : ℕ) → contains numbers c ≡ nat_lt c (length (F.problem facts.now).classes) },
}

impl<F: Facts> Knowledge for Stated<'_, F> {
    ghost use Rattle.rf_state.specs.StateKnown.{state_known};

    ghost known = { λ stated. state_known (F.problem stated.facts.now) (F.state stated.facts.now) };

    fn problem(&self) -> &Problem {
        self.facts.problem()
    }

    fn size(&self) -> u64 {
        self.facts.objects()
    }

    fn is_present(&self, x: u64) -> Truth {
        let count = count_of(self.facts, x);
        Truth::of(1 <= count.lo, within(1, count.hi))
    }

    fn has_class(&self, class: u32, x: u64) -> Truth {
        let problem = self.facts.problem();
        let candidates = candidates_of(self.facts, x);
        let every = all_below(problem, self.numbers, candidates, class);
        let some = some_below(problem, candidates, class);
        Truth::of(every, some)
    }

    fn has_edge(&self, reference: u32, x: u64, y: u64) -> Truth {
        if x < self.facts.objects() && y < self.facts.objects() {
            self.facts.fact(reference, x, y)
        } else {
            Truth::False
        }
    }

    fn is_same(&self, x: u64, y: u64) -> Truth {
        let single = !within(2, count_of(self.facts, x).hi);
        Truth::of(x == y && single, x == y)
    }

    fn is_different(&self, x: u64, y: u64) -> Truth {
        let multiple = within(2, count_of(self.facts, x).hi);
        Truth::of(x != y, x != y || multiple)
    }

    fn origin(&self, x: u64) -> u64 {
        if x < self.facts.objects() {
            self.facts.origin(x)
        } else {
            0
        }
    }

    fn from_object(&self, object: u64) -> Elements<'_> {
        self.facts.from_origin(object)
    }

    fn ends_from(&self, reference: u32, x: u64) -> Elements<'_> {
        if x < self.facts.objects() {
            self.facts.ends_from(reference, x)
        } else {
            Elements::Below(0)
        }
    }

    fn ends_into(&self, reference: u32, y: u64) -> Elements<'_> {
        if y < self.facts.objects() {
            self.facts.ends_into(reference, y)
        } else {
            Elements::Below(0)
        }
    }

    fn kept_value(&self, predicate: u32, elements: &[u64]) -> Option<Truth> {
        None
    }

    fn kept_walk(&self, symbol: Symbol, x: u64, y: u64) -> Option<Truth> {
        None
    }
}
