//! Edits of a small problem, after each of which the value of its predicate was worked out by hand.

use rf_source::read_source;
use rf_state::{Edit, Facts, View};
use rf_values::{ClassSet, Count, Truth, Tuple};
use rf_vstate::{Versioned, Versions};
use std::alloc::Global;
use std::process::Abort;

const TEXT: &str =
    "class A { A[] r } class B. default !r(*, *). declare o. A(a). r(o, a). pred p(x) <-> A(x).";

// The value of the predicate at an object.
fn value_at(rt: &impl Abort, alloc: Global, state: &Versioned<'_>, o: u64) -> Truth {
    assert!(rt; o < state.objects() && state.problem().predicates.len() > 0);
    assert!(rt; state.problem().predicate(0).arity == 1);
    let Ok(value) = state.value(alloc, 0, Tuple::of(&[o])) else {
        panic!(rt; "there is memory for a value");
    };
    value
}

// Leaves object 0 the classes in a set.
fn keep(rt: &impl Abort, alloc: Global, state: &mut Versioned<'_>, set: ClassSet) {
    assert!(rt; state.objects() > 0 && state.keep(alloc, 0, set).is_ok());
}

#[test]
fn values_follow_the_candidates(rt: HostRuntime) {
    let alloc = rt.alloc();
    let Ok(problem) = read_source(alloc, TEXT.as_bytes()) else {
        panic!(rt; "the problem is read");
    };
    let Ok(mut state) = Versioned::root(alloc, &problem) else {
        panic!(rt; "there is memory for the root");
    };
    let class_a = ClassSet::empty().adding(0);
    assert!(rt; value_at(&rt, alloc, &state, 0) == Truth::Unknown);
    keep(&rt, alloc, &mut state, class_a);
    assert!(rt; value_at(&rt, alloc, &state, 0) == Truth::True);
    let few = Count { lo: 0, hi: Some(1) };
    assert!(rt; state.objects() == 4 && state.narrow(alloc, 2, few).is_ok());
    assert!(rt; state.count(2).hi == Some(1) && state.fresh(alloc, 2) == Ok(4));
    assert!(rt; value_at(&rt, alloc, &state, 4) == Truth::True);
    let others = state.candidates(0).without(class_a);
    keep(&rt, alloc, &mut state, others);
    assert!(rt; value_at(&rt, alloc, &state, 0) == Truth::Error);
    assert!(rt; state.kept() == 1);
    state.restore(0);
    assert!(rt; value_at(&rt, alloc, &state, 0) == Truth::Unknown && state.objects() == 4);
}
