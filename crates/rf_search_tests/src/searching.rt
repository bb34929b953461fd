//! What a search does to the state that it is lent, worked out by hand.

use crate::noted::{Call, Noted};
use rf_problem::Problem;
use rf_rules::{Decision, Rule};
use rf_search::search;
use rf_source::read_source;
use rf_state::Facts;
use rf_tree::{Line, Outcome};
use rf_vstate::Versions;
use std::alloc::Global;
use std::process::Abort;

fn read(rt: &impl Abort, alloc: Global, text: &str) -> Problem {
    let bytes = text.as_bytes();
    assert!(rt; bytes.len() < 65_536);
    let Ok(problem) = read_source(alloc, bytes) else {
        panic!(rt; "the problem is read");
    };
    problem
}

// Each of two nodes would have to contain the other: what is decided is whether there is one more node.
#[test]
fn the_state_is_edited_and_gone_back_to(rt: HostRuntime) {
    let alloc = rt.alloc();
    let problem = read(&rt, alloc, "class A { contains A[] xs } scope node = 2.");
    let Ok(mut noted) = Noted::root(alloc, &problem, false, 64) else {
        panic!(rt; "there is memory for the root");
    };
    let Ok(outcome) = search(alloc, &mut noted, 0, 10_000) else {
        panic!(rt; "there is memory for the search");
    };
    let wanted = [
        Line::Step(Rule::ScopeTop(0, 0)),
        Line::Step(Rule::ScopeBottom(0, 0)),
        Line::Decide(Decision::Fresh(0), true),
        Line::Step(Rule::Acyclic(0, 0, 0)),
        Line::Step(Rule::MustContain(0, 1, 0)),
        Line::Step(Rule::Acyclic(0, 0, 1)),
        Line::Step(Rule::MustContain(0, 1, 1)),
        Line::Step(Rule::Acyclic(0, 1, 1)),
        Line::Step(Rule::Clash(0, 1, 1, rf_rules::End::Target)),
        Line::Close(Rule::Empty(1)),
        Line::Close(Rule::Empty(0)),
    ];
    match outcome {
        Outcome::Refuted(lines) => assert!(rt; lines.as_slice() == wanted.as_slice()),
        _ => panic!(rt; "the problem is refuted"),
    }
    let called = [
        Call::Narrow(0),
        Call::Narrow(0),
        Call::Commit,
        Call::Fresh(0),
        Call::Merge,
        Call::Merge,
        Call::Merge,
        Call::Merge,
        Call::Merge,
        Call::Narrow(1),
        Call::Prune(1),
        Call::Narrow(0),
    ];
    assert!(rt; noted.calls() == called.as_slice());
    assert!(rt; noted.kept() == 2);
}

// The one rule that could fire is one of a predicate, whose value can't be had.
#[test]
fn without_memory_for_values_the_state_is_as_before(rt: HostRuntime) {
    let alloc = rt.alloc();
    let text =
        "class A { A[] next } default !next(*, *). next(a, b). next(b, c). next(c, a). error e(x) <-> next+(x, x).";
    let problem = read(&rt, alloc, text);
    let Ok(mut noted) = Noted::root(alloc, &problem, true, 64) else {
        panic!(rt; "there is memory for the root");
    };
    let objects = noted.objects();
    assert!(rt; search(alloc, &mut noted, 0, 10_000).is_err());
    assert!(rt; noted.kept() == 1 && noted.objects() == objects);
}
