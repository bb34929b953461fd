//! Documents of trees, however their bytes are cut into pieces.

use rf_tree::{Line, TreeReader};
use std::alloc::Global;
use std::process::Abort;

const DOCUMENT: &str =
    "tree 1\nscope-top 0 0\nscope-bottom 0 0\nnew 0 first\nacyclic 0 0 0\nmust-contain 0 1 0\nacyclic 0 0 1\nmust-contain 0 1 1\nacyclic 0 1 1\nclash 0 1 1 target\nempty 1\nempty 0\nend\n";

// The lines of a document, read in two pieces with an empty one between them.
fn lines_of(rt: &impl Abort, alloc: Global, first: &[u8], second: &[u8]) -> Vec<Line> {
    assert!(rt; first.len() <= 1000 && second.len() <= 1000);
    let mut reader = TreeReader::new();
    let Ok(mut lines) = reader.feed(alloc, first) else {
        panic!(rt; "the first piece is read");
    };
    let Ok(between) = reader.feed(alloc, &[]) else {
        panic!(rt; "an empty piece is read");
    };
    let Ok(rest) = reader.feed(alloc, second) else {
        panic!(rt; "the second piece is read");
    };
    assert!(rt; reader.finish().is_ok() && between.is_empty());
    assert!(rt; lines.extend_from_slice(rest.as_slice()).is_ok());
    lines
}

#[test]
fn a_document_has_the_same_lines_in_each_two_pieces(rt: HostRuntime) {
    let alloc = rt.alloc();
    let bytes = DOCUMENT.as_bytes();
    let whole = lines_of(&rt, alloc, bytes, &[]);
    assert_eq!(rt; whole.len(), 11);
    for at in 0..bytes.len() {
        let lines = lines_of(&rt, alloc, &bytes[..at], &bytes[at..]);
        assert!(rt; lines.as_slice() == whole.as_slice());
    }
}
