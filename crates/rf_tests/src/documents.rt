//! Documents that are printed as they were read.

use rf_graph::{print_graph, read_graph};
use rf_problem::Problem;
use rf_source::read_source;
use rf_text::Text;
use std::alloc::{AllocError, Global};
use std::process::Abort;

// The graph of a document, printed.
fn printed(
    rt: &impl Abort,
    alloc: Global,
    problem: &Problem,
    document: &str,
) -> Result<Text, AllocError> {
    let Ok(graph) = read_graph(alloc, problem, document.as_bytes()) else {
        panic!(rt; "the graph is read");
    };
    print_graph(alloc, problem, &graph)
}

fn is_printed_as_read(rt: &impl Abort, alloc: Global, problem: &Problem, document: &str) {
    let Ok(text) = printed(rt, alloc, problem, document) else {
        panic!(rt; "memory suffices");
    };
    assert_eq!(rt; text.as_str(), document);
}

#[test]
fn a_document_is_printed_as_it_was_read(rt: HostRuntime) {
    let alloc = rt.alloc();
    let Ok(problem) = read_source(alloc, b"class A { A[] r } class B. A(a).".as_slice()) else {
        panic!(rt; "the problem is read");
    };
    let document = "graph 1\nnode B A::new\nnode A a\nedge A::r 1 0\nend\n";
    is_printed_as_read(&rt, alloc, &problem, document);
}
