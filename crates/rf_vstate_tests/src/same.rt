//! Whether two states are the same, by what is read of them.

ghost use Rattle.std.specs.Prelude.{◌≤◌, ◌<◌, length};

use rf_random_edits::Random;
use rf_state::{Facts, View};
use rf_values::{Truth, Tuple};
use std::alloc::{AllocError, Global};

fn same_object<V: Facts, W: Facts>(v: &V, w: &W, o: u64) -> bool
    requires first { o < length (V.state v.now).objects }
    requires second { o < length (W.state w.now).objects }
{
    v.origin(o) == w.origin(o) && v.count(o) == w.count(o) && v.candidates(o) == w.candidates(o)
}

// Whether what is known of the edges of a reference from an object is the same.
fn same_row<V: Facts, W: Facts>(v: &V, w: &W, r: u32, a: u64) -> bool
    requires first_reference { r < length (V.problem v.now).references }
    requires second_reference { r < length (W.problem w.now).references }
    requires first { a < length (V.state v.now).objects }
    requires second { a < length (W.state w.now).objects }
{
    let objects = v.objects().min(w.objects());
    for b in 0..objects {
        if v.fact(r, a, b) != w.fact(r, a, b) {
            return false;
        }
    }
    true
}

// Whether object `a`, and what is known of the edges from it, is the same.
fn same_from<V: Facts, W: Facts>(v: &V, w: &W, a: u64) -> bool
    requires first { a < length (V.state v.now).objects }
    requires second { a < length (W.state w.now).objects }
{
    let first = v.problem().references.len();
    let second = w.problem().references.len();
    for r in 0..first.min(second) as u32 {
        if !same_row(v, w, r, a) {
            return false;
        }
    }
    same_object(v, w, a)
}

/// Whether all objects, and what is known of all edges, is the same.
pub fn same<V: Facts, W: Facts>(v: &V, w: &W) -> bool {
    if v.objects() != w.objects() {
        return false;
    }
    for a in 0..v.objects().min(w.objects()) {
        if !same_from(v, w, a) {
            return false;
        }
    }
    true
}

/// The value of a predicate of at most two parameters at some objects.
pub fn some_value<V: View>(alloc: Global, v: &V, random: &mut Random) -> Result<Truth, AllocError> {
    let objects = v.objects();
    let predicates = v.problem().predicates.len() as u64;
    if objects == 0 || predicates == 0 {
        return Ok(Truth::Unknown);
    }
    let p = random.below(predicates) as u32;
    let a = random.below(objects);
    let b = random.below(objects);
    match v.problem().predicate(p).arity {
        0 => v.value(alloc, p, Tuple::of(&[])),
        1 => v.value(alloc, p, Tuple::of(&[a])),
        2 => v.value(alloc, p, Tuple::of(&[a, b])),
        _ => Ok(Truth::Unknown),
    }
}
