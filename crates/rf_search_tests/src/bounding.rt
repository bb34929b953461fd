//! The depths of problems, worked out by hand.

use rf_search::depth;
use rf_source::read_source;
use std::alloc::Global;
use std::process::Abort;

fn depth_of(rt: &impl Abort, alloc: Global, text: &str) -> Option<u64> {
    let bytes = text.as_bytes();
    assert!(rt; bytes.len() < 65_536);
    let Ok(problem) = read_source(alloc, bytes) else {
        panic!(rt; "the problem is read");
    };
    depth(&problem)
}

#[test]
fn a_bound_on_all_nodes_gives_a_depth(rt: HostRuntime) {
    let alloc = rt.alloc();
    let one = depth_of(&rt, alloc, "class A. scope node = 1.");
    assert!(rt; one == Some(3));
    let two = depth_of(&rt, alloc, "class A { contains A[] xs } scope node = 2.");
    assert!(rt; two == Some(9));
    let at_most_one = depth_of(&rt, alloc, "class A. scope node = 0..1.");
    assert!(rt; at_most_one == Some(3));
    let of_a_class = depth_of(&rt, alloc, "abstract class A. scope A = 1.");
    assert!(rt; of_a_class == None);
}
