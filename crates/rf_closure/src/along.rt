//! The search from one vertex along lists of the vertices to which each vertex leads.

ghost use Rattle.std.specs.Prelude.{◌≡◌, ◌==◌, ℕ, ◌<◌, ◌&&◌, not, nat_lt, true, false, IfOk, OnOk, vec_len, length, map, slice_index_or};
ghost use Rattle.std.specs.List.{list_any};
ghost use Rattle.rf_finite.specs.Walks.{walk_below};
ghost use Rattle.rf_closure.specs.Along.{leads};
ghost use Rattle.rf_closure.specs.Marking.{Marking, passes};

use crate::search::no_marks;
use std::alloc::{AllocError, Global};

/// Whether number `b` is a vertex that is not marked yet.
fn is_unmarked(marks: &[bool], b: u64) -> bool
    ensures { result ≡ (nat_lt b (length marks.now) && not (slice_index_or marks.now b false)) }
{
    (b as usize) < marks.len() && !marks[b as usize]
}

/// Marks each vertex of the list, and puts those that were not marked on the stack. A number that isn't
/// a vertex is passed over.
fn mark_listed(
    vertices: &[u64],
    marks: &mut Vec<bool>,
    stack: &mut Vec<u64>,
) -> Result<(), AllocError>
    ensures len { vec_len marks.new ≡ vec_len marks.old }
    ensures marks { OnOk result (Marking (vec_len marks.old)
        (λ b. list_any (λ c. c == b) vertices.now)
        marks.old.items stack.old.items marks.new.items stack.new.items) }
{
    for b in vertices {
        if is_unmarked(marks, *b) {
            marks[*b as usize] = true;
            stack.push(*b)?;
        }
    }
    Ok(())
}

/// Marks each vertex to which vertex `c` leads directly, and puts those that were not marked on the
/// stack.
fn expand_along(
    successors: &[Vec<u64>],
    c: u64,
    marks: &mut Vec<bool>,
    stack: &mut Vec<u64>,
) -> Result<(), AllocError>
    requires from { c < length successors.now }
    requires marks { vec_len marks.old ≡ length successors.now }
    ensures len { vec_len marks.new ≡ vec_len marks.old }
    ensures marks { OnOk result (Marking (length successors.now)
        (leads (map (λ list. list.items) successors.now) c)
        marks.old.items stack.old.items marks.new.items stack.new.items) }
{
    mark_listed(&successors[c as usize], marks, stack)
}

/// Whether a walk may pass through vertex `c`. Where nothing is said it may through each.
fn is_open(through: Option<&[bool]>, c: u64) -> bool
    ensures { result ≡ passes through.entry c }
{
    match through {
        None => true,
        Some(marks) => match marks.get(c as usize) {
            Some(mark) => *mark,
            None => false,
        },
    }
}

/// Whether vertex `c` is still to be expanded when it is found: the start is expanded already, and
/// nothing is found through a vertex that no walk may pass through.
fn is_passed(through: Option<&[bool]>, from: u64, c: u64) -> bool
    ensures { result ≡ (not (c == from) && passes through.entry c) }
{
    c != from && is_open(through, c)
}

/// Marks each vertex to which a walk of one or more steps leads from `from`.
fn search(
    alloc: Global,
    successors: &[Vec<u64>],
    through: Option<&[bool]>,
    from: u64,
) -> Result<Vec<bool>, AllocError>
    requires { from < length successors.now }
    ensures len { IfOk result (λ marks. vec_len marks ≡ length successors.now) }
    ensures value { IfOk result (λ marks. (b : ℕ) → b < length successors.now
        → slice_index_or marks.items b false
        ≡ walk_below (leads (map (λ list. list.items) successors.now)) (passes through.entry)
        (length successors.now) from b) }
{
    let mut marks = no_marks(alloc, successors.len() as u64)?;
    let mut stack = Vec::new(alloc);
    expand_along(successors, from, &mut marks, &mut stack)?;
    while let Some(c) = stack.pop() {
        if is_passed(through, from, c) {
            expand_along(successors, c, &mut marks, &mut stack)?;
        }
    }
    Ok(marks)
}

/// Marks each vertex to which a walk of one or more steps leads from `from`, where each vertex leads
/// to the vertices of its list. So `from` itself is marked only where a walk leads back to it. A
/// number that isn't a vertex counts for nothing.
///
/// The list of each vertex is read at most once, so the time grows with the number of vertices and the
/// lengths of their lists together. The memory is a mark for each vertex and a stack that holds each
/// vertex at most once; where memory runs out, the answer is an `AllocError`.
pub fn reach_along(
    alloc: Global,
    successors: &[Vec<u64>],
    from: u64,
) -> Result<Vec<bool>, AllocError>
    requires { from < length successors.now }
    ensures len { IfOk result (λ marks. vec_len marks ≡ length successors.now) }

    // A vertex is marked exactly where a walk leads to it.
    ensures value { IfOk result (λ marks. (b : ℕ) → b < length successors.now
        → slice_index_or marks.items b false
        ≡ walk_below (leads (map (λ list. list.items) successors.now)) (λ _. true)
        (length successors.now) from b) }
{
    search(alloc, successors, None, from)
}

/// The same where a walk may pass only through the vertices that are marked.
pub fn reach_through(
    alloc: Global,
    successors: &[Vec<u64>],
    through: &[bool],
    from: u64,
) -> Result<Vec<bool>, AllocError>
    requires { from < length successors.now }
    ensures len { IfOk result (λ marks. vec_len marks ≡ length successors.now) }
    ensures value { IfOk result (λ marks. (b : ℕ) → b < length successors.now
        → slice_index_or marks.items b false
        ≡ walk_below (leads (map (λ list. list.items) successors.now)) (λ c. slice_index_or through.now c false)
        (length successors.now) from b) }
{
    search(alloc, successors, Some(through), from)
}
