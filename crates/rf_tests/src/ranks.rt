//! Small lists of edges that can be ranked. Where they can't, the contract says that no ranks are found.

use rf_names::has_ranks;
use std::alloc::{AllocError, Global};

/// The edges from each place.
type Edges<'a> = &'a [&'a [u64]];

fn has_ranks_of(alloc: Global, edges: Edges<'_>) -> Result<bool, AllocError> {
    let mut lists = Vec::new(alloc);
    for list in edges {
        lists.push(list.to_vec(alloc)?)?;
    }
    has_ranks(alloc, lists.as_slice())
}

#[test]
fn ranks_are_found_where_there_are_some(rt: HostRuntime) {
    let ranked: [(&str, Edges<'_>); 7] = [
        ("no place", &[]),
        ("no edge", &[&[], &[]]),
        ("a chain", &[&[1], &[2], &[]]),
        ("a chain turned round", &[&[], &[0], &[1]]),
        ("two ways", &[&[3, 1], &[2], &[], &[2]]),
        ("an edge twice", &[&[1, 1], &[]]),
        ("an edge to no place", &[&[2, 1], &[9]]),
    ];
    for (name, edges) in ranked {
        assert!(rt; has_ranks_of(rt.alloc(), edges) == Ok(true), "{name}");
    }
}
