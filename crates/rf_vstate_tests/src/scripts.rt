//! Scripts of edits, commits and goings back, in no order that one can see.

use crate::both::Both;
use rf_problem::Problem;
use rf_random_edits::Random;
use rf_source::read_source;
use std::alloc::{AllocError, Global};
use std::process::Abort;

// Objects of several nodes, and opposites that lead between two classes.
const OPPOSITES: &str = "
abstract class N. class A extends N { B[] r opposite s N[] t } class B extends N { A[0..2] s opposite r }
A(a). B(b). N(n). multi m = 0..3. B(m). r(a, b): error. ?r(a, m). default !t(*, *). t(a, a).
pred p(x, y) <-> r(x, y), !t(y, x). pred q(x) <-> t+(x, x); r(x, y), s(y, x). error e(x, y) <-> p(x, y), q(x), x != y.";

// Literals of an enum, and references that contain.
const ENUMS: &str = "
enum E { red, blue } class R { contains C[] c E[1] e } class C { C[] next E[0..1] own }
R(x). C(y). C(z). multi k = 1..4. C(k). e(x, red). !own(y, blue). next(y, z). !next(z, y).
pred far(C u, C v) <-> next+(u, v). error bad(u) <-> own(u, w), w == red, !next(u, u). error none() <-> c(u, v), far(v, v).";

// Makes steps, and compares what both come to after each.
fn run(
    rt: &impl Abort,
    alloc: Global,
    problem: &Problem,
    seed: u64,
    steps: u64,
) -> Result<(), AllocError> {
    let mut both = Both::root(alloc, problem)?;
    let mut random = Random { word: seed };
    for _ in 0..steps {
        both.step(alloc, rt, &mut random)?;
        both.compare(alloc, rt, &mut random)?;
    }
    Ok(())
}

fn run_text(rt: &impl Abort, alloc: Global, text: &str) {
    let bytes = text.as_bytes();
    assert!(rt; bytes.len() < 65_536);
    let Ok(problem) = read_source(alloc, bytes) else {
        panic!(rt; "the problem is read");
    };
    for seed in 0..4 {
        assert!(rt; run(rt, alloc, &problem, seed, 500).is_ok());
    }
}

#[test]
fn opposites_are_edited_and_gone_back_to(rt: HostRuntime) {
    run_text(&rt, rt.alloc(), OPPOSITES);
}

#[test]
fn enums_are_edited_and_gone_back_to(rt: HostRuntime) {
    run_text(&rt, rt.alloc(), ENUMS);
}
