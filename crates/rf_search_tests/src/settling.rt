//! What is settled at the root of a problem, worked out by hand from the table of rules.

use rf_eval::Scratch;
use rf_rules::Rule;
use rf_search::settle;
use rf_source::read_source;
use rf_state::State;
use rf_tree::Line;
use std::alloc::Global;
use std::process::Abort;

// The lines at the root of a problem, and whether the last one is a closing.
fn settled(rt: &impl Abort, alloc: Global, text: &str) -> (Vec<Line>, bool) {
    let bytes = text.as_bytes();
    assert!(rt; bytes.len() < 65_536);
    let Ok(problem) = read_source(alloc, bytes) else {
        panic!(rt; "the problem is read");
    };
    let Ok(root) = State::root(alloc, &problem) else {
        panic!(rt; "there is memory for the root");
    };
    let mut scratch = Scratch::new(root);
    let mut lines = Vec::new(alloc);
    let Ok(closed) = settle(alloc, &mut scratch, &mut lines) else {
        panic!(rt; "there is memory for the rules");
    };
    (lines, closed)
}

#[test]
fn a_scope_without_objects_closes_at_once(rt: HostRuntime) {
    let (lines, closed) = settled(&rt, rt.alloc(), "abstract class A. scope A = 1.");
    assert!(rt; closed && lines.as_slice() == [Line::Close(Rule::Under(0))].as_slice());
}

#[test]
fn an_object_without_a_class_closes(rt: HostRuntime) {
    let (lines, closed) = settled(&rt, rt.alloc(), "class A. A(a). !A(a).");
    assert!(rt;
        closed
            && lines.as_slice()
                == [Line::Step(Rule::NoClass(0)), Line::Close(Rule::Empty(0))].as_slice()
    );
}

#[test]
fn two_nodes_where_a_scope_has_one_close(rt: HostRuntime) {
    let text = "class A. multi m = 2. A(m). !exists(A::new). scope node = 1.";
    let want = [
        Line::Step(Rule::ScopeTop(0, 0)),
        Line::Close(Rule::Empty(0)),
    ];
    let (lines, closed) = settled(&rt, rt.alloc(), text);
    assert!(rt; closed && lines.as_slice() == want.as_slice());
}

#[test]
fn edges_that_are_needed_are_there(rt: HostRuntime) {
    let text = "class A { B[2] r } class B. A(a). B(b). B(c). scope node = 3.";
    let (lines, closed) = settled(&rt, rt.alloc(), text);
    assert!(rt; !closed && lines.contains(&Line::Step(Rule::Need(0, 0, 1))));
    assert!(rt; lines.contains(&Line::Step(Rule::Need(0, 0, 2))));
}
