//! Scripts of edits in no order that one can see, after each of which the propagators are compared with a scan.

ghost use Rattle.std.specs.Prelude.{OnOk};
ghost use Rattle.rf_search.specs.Pending.{Covers};

use crate::compared::{compare_families, compare_least, compare_next};
use crate::scanned::Scanned;
use crate::steps::step;
use rf_eval::Scratch;
use rf_problem::Problem;
use rf_random_edits::Random;
use rf_search::Pending;
use rf_source::read_source;
use rf_state::{Edit, State};
use rf_vstate::Versioned;
use std::alloc::{AllocError, Global};
use std::process::Abort;

// Classes that extend others, opposites, ranges, scopes and objects of several nodes.
const OPPOSITES: &str = "
abstract class N. class A extends N { B[1..2] r opposite s N[] t }
class B extends N { A[0..1] s opposite r refers A[2..*] u }
A(a). B(b). N(n). multi m = 0..3. B(m). r(a, b). ?r(a, m). !t(a, n).
scope node = 3..7, A = 1..2, B += 1..3.
error e(x) <-> r(x, y), !t(x, y).";

// References that contain, one of them both ways.
const CONTAINMENT: &str = "
class R { contains C[1..2] c opposite o }
class C { container R o opposite c contains C[0..1] next C[] back opposite back }
class D extends C, R. R(x). C(y). multi k = 0..2. C(k). !next(y, y). scope R = 1..2, D = 0.";

// Predicates: negated, called, with closures of references and of predicates, and asserted.
const PREDICATES: &str = "
class A { A[] r A[0..1] s } A(a). A(b). multi m = 1..2. A(m). ?s(a, *). r(a, b).
pred p(x, y) <-> r(x, y), !s(y, x); s(x, y). pred q(x) <-> p+(x, x). !q(a). p(b, a).
error e(x) <-> r+(x, x). error f(x, y) <-> p(x, y), q(y), x != y. error g() <-> s(x, y), !r(x, _), !r(y, x).";

// Literals of an enum, an atom, and references that contain.
const ENUMS: &str = "
enum E { red, blue } atom zed. class C { E[1] e contains C[] c } C(x). C(zed). e(x, red). !c(x, zed).
error bad(x) <-> e(x, red), c(x, y), !e(y, blue). error lone(x) <-> C(x), !c(_, x), x != zed.
pred w(C x) <-> e(x, w), w == red.";

// Compares, and makes a step.
fn turn<E: Edit>(
    rt: &impl Abort,
    alloc: Global,
    e: &mut E,
    pending: &mut Pending,
    random: &mut Random,
) -> Result<(), AllocError>
    requires { Covers (E.problem e.old) (E.state e.old) pending.old }
    ensures { OnOk result (Covers (E.problem e.new) (E.state e.new) pending.new) }
{
    let scanned = Scanned::of(alloc, e)?;
    compare_next(rt, alloc, e, &scanned)?;
    if random.below(2) == 0 {
        compare_families(rt, alloc, e, pending, &scanned)?;
    }
    compare_least(rt, alloc, e, pending, &scanned)?;
    step(alloc, e, pending, &scanned, random)
}

// Makes steps from a state of which nothing is known to be done.
fn run<E: Edit>(
    rt: &impl Abort,
    alloc: Global,
    e: &mut E,
    random: &mut Random,
    steps: u64,
) -> Result<(), AllocError> {
    let mut pending = Pending::all(alloc, e)?;
    for _ in 0..steps {
        turn(rt, alloc, e, &mut pending, random)?;
    }
    Ok(())
}

fn read(rt: &impl Abort, alloc: Global, text: &str) -> Problem {
    let bytes = text.as_bytes();
    assert!(rt; bytes.len() < 65_536);
    let Ok(problem) = read_source(alloc, bytes) else {
        panic!(rt; "the problem is read");
    };
    problem
}

// Scripts over plain states.
fn run_plain(rt: &impl Abort, alloc: Global, text: &str, scripts: u64, steps: u64) {
    let problem = read(rt, alloc, text);
    for word in 0..scripts {
        let Ok(root) = State::root(alloc, &problem) else {
            panic!(rt; "there is memory for the root");
        };
        let mut random = Random { word };
        let mut scratch = Scratch::new(root);
        assert!(rt; run(rt, alloc, &mut scratch, &mut random, steps).is_ok());
    }
}

// A script over a state with versions.
fn run_versioned(rt: &impl Abort, alloc: Global, text: &str, word: u64, steps: u64) {
    let problem = read(rt, alloc, text);
    let Ok(mut state) = Versioned::root(alloc, &problem) else {
        panic!(rt; "there is memory for the root");
    };
    let mut random = Random { word };
    assert!(rt; run(rt, alloc, &mut state, &mut random, steps).is_ok());
}

#[test]
fn opposites_and_scopes(rt: HostRuntime) {
    run_plain(&rt, rt.alloc(), OPPOSITES, 4, 40);
}

#[test]
fn containment(rt: HostRuntime) {
    run_plain(&rt, rt.alloc(), CONTAINMENT, 4, 40);
}

#[test]
fn predicates(rt: HostRuntime) {
    run_plain(&rt, rt.alloc(), PREDICATES, 4, 40);
}

#[test]
fn enums_and_atoms(rt: HostRuntime) {
    run_plain(&rt, rt.alloc(), ENUMS, 4, 40);
}

#[test]
fn states_with_versions(rt: HostRuntime) {
    for text in [OPPOSITES, CONTAINMENT, PREDICATES, ENUMS] {
        run_versioned(&rt, rt.alloc(), text, 100, 40);
    }
}
