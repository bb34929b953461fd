//! The search from one vertex over all edges.

ghost use Rattle.std.specs.Prelude.{◌≡◌, ◌==◌, ℕ, ◌<◌, ◌&&◌, ◌↔◌, not, Bool, false, IsTrue, IfOk, OnOk, vec_len, length, replicate, slice_index_or};
ghost use Rattle.rf_finite.specs.Walks.{IsReachable, walk_below};
ghost use Rattle.rf_closure.specs.Marking.{Marking};

use std::alloc::{AllocError, Global};

/// Numbered vertices, the edges between them, and which of them a walk may pass through.
pub trait Edges {
    ghost size: { Self → ℕ };

    ghost edge: { Self → ℕ → ℕ → Bool };

    ghost through: { Self → ℕ → Bool };

    /// The number of vertices.
    fn size(&self) -> u64
        ensures { result ≡ size self.now };

    /// Whether an edge leads from vertex `a` to vertex `b`.
    fn edge(&self, a: u64, b: u64) -> bool
        requires from { a < size self.now }
        requires to { b < size self.now }
        ensures { result ≡ edge self.now a b };

    /// Whether a walk may pass through vertex `a` on its way to another.
    fn through(&self, a: u64) -> bool
        requires { a < size self.now }
        ensures { result ≡ through self.now a };
}

/// Whether vertex `b` is not marked yet and an edge leads to it from vertex `c`.
fn is_new_end<E: Edges>(e: &E, c: u64, b: u64, marks: &[bool]) -> bool
    requires from { c < E.size e.now }
    requires to { b < E.size e.now }
    requires marks { length marks.now ≡ E.size e.now }
    ensures { result ≡ (not (slice_index_or marks.now b false) && E.edge e.now c b) }
{
    !marks[b as usize] && e.edge(c, b)
}

/// Marks each vertex to which an edge leads from `c`, and puts those that were not marked on the stack.
fn expand<E: Edges>(
    e: &E,
    c: u64,
    marks: &mut Vec<bool>,
    stack: &mut Vec<u64>,
) -> Result<(), AllocError>
    requires from { c < E.size e.now }
    requires marks { vec_len marks.old ≡ E.size e.now }
    ensures len { vec_len marks.new ≡ vec_len marks.old }
    ensures marks { OnOk result (Marking (E.size e.now) (E.edge e.now c) marks.old.items stack.old.items
        marks.new.items stack.new.items) }
{
    for b in 0..e.size() {
        if is_new_end(e, c, b, marks) {
            marks[b as usize] = true;
            stack.push(b)?;
        }
    }
    Ok(())
}

/// Whether vertex `c` is still to be expanded when it is found: the start is expanded already, and
/// nothing is found through a vertex that no walk may pass through.
fn is_passed<E: Edges>(e: &E, from: u64, c: u64) -> bool
    requires { c < E.size e.now }
    ensures { result ≡ (not (c == from) && E.through e.now c) }
{
    c != from && e.through(c)
}

/// Marks for `size` vertices, none of them set. Where memory runs out, the answer is
/// an `AllocError`.
pub(crate) fn no_marks(alloc: Global, size: u64) -> Result<Vec<bool>, AllocError>
    ensures { IfOk result (λ marks. marks.items ≡ replicate size false) }
{
    vec![in alloc; false; size as usize]
}

/// Marks each vertex to which a walk of one or more edges leads from `from` over inner vertices that may
/// be passed through. So `from` itself is marked only where a walk leads back to it.
///
/// Each vertex is expanded at most once, by asking for the edges that lead from it to vertices that are
/// not marked yet: at most `size` edges. The stack holds each vertex at most once. Where memory runs
/// out, the answer is an `AllocError`.
pub fn reach<E: Edges>(alloc: Global, e: &E, from: u64) -> Result<Vec<bool>, AllocError>
    requires { from < E.size e.now }
    ensures len { IfOk result (λ marks. vec_len marks ≡ E.size e.now) }

    // A vertex is marked exactly where a list of inner vertices is a walk to it.
    ensures marks { IfOk result (λ marks. (b : ℕ) → b < E.size e.now
        → IsTrue (slice_index_or marks.items b false)
        ↔ IsReachable (E.edge e.now) (E.through e.now) (E.size e.now) from b) }

    // The same as an equation, for callers that compute with walks.
    ensures value { IfOk result (λ marks. (b : ℕ) → b < E.size e.now
        → slice_index_or marks.items b false
        ≡ walk_below (E.edge e.now) (E.through e.now) (E.size e.now) from b) }
{
    let mut marks = no_marks(alloc, e.size())?;
    let mut stack = Vec::new(alloc);
    expand(e, from, &mut marks, &mut stack)?;
    while let Some(c) = stack.pop() {
        if is_passed(e, from, c) {
            expand(e, c, &mut marks, &mut stack)?;
        }
    }
    Ok(marks)
}
