//! Which decisions are allowed, and their sides.

ghost use Rattle.std.specs.Prelude.{◌≡◌, ◌<◌, true, length, OnOk, OnErr};
ghost use Rattle.rf_rules.specs.Decisions.{allowed, is_open, side};
ghost use Rattle.rf_rules.specs.declared.decision.Decision.TheVariants.{Fresh, Kind};

use crate::editing::apply_effect;
use crate::ranges::{is_edge, is_object};
use crate::words::{all_below, classes_below, is_one, is_unknown, some_below};
use crate::{Decision, Effect};
use rf_finite::within;
use rf_state::{Edit, Facts};
use rf_values::Truth;
use std::alloc::{AllocError, Global};

// Whether one node more can be made of an object, or none of it.
fn is_divisible<F: Facts>(view: &F, o: u64) -> bool
    requires { o < length (F.state view.now).objects }
    ensures { result ≡ is_open (F.problem view.now) (F.state view.now) (Fresh o) }
{
    let count = view.count(o);
    within(2, count.hi) || (count.lo == 0 && count.hi == Some(1))
}

// Whether an object is one node, whose class may be below this one or not.
fn is_split<F: Facts>(view: &F, o: u64, class: u32) -> bool
    requires object { o < length (F.state view.now).objects }
    requires class { class < length (F.problem view.now).classes }
    ensures { result ≡ is_open (F.problem view.now) (F.state view.now) (Kind o class) }
{
    is_one(view, o) && some_below(view, o, class) && !all_below(view, o, class)
}

/// Whether a decision is allowed. Of numbers that are out of range none is.
pub fn allowed<F: Facts>(view: &F, decision: &Decision) -> bool
    ensures { result ≡ allowed (F.problem view.now) (F.state view.now) decision.now }
{
    match *decision {
        Decision::Fresh(o) => is_object(view, o) && is_divisible(view, o),
        Decision::Kind(o, class) => {
            is_object(view, o)
                && (class as usize) < view.problem().classes.as_slice().len()
                && is_split(view, o, class)
        }
        Decision::Ref(r, a, b) => {
            is_edge(view, r, a, b)
                && is_one(view, a)
                && is_one(view, b)
                && is_unknown(view.fact(r, a, b))
        }
    }
}

/// Makes a state that of a side of a decision, by one edit.
pub fn decide<E: Edit>(
    alloc: Global,
    e: &mut E,
    decision: &Decision,
    first: bool,
) -> Result<(), AllocError>
    requires { allowed (E.problem e.old) (E.state e.old) decision.now ≡ true }
    ensures problem { E.problem e.new ≡ E.problem e.old }
    ensures kept { E.kept e.new ≡ E.kept e.old }
    ensures decided { OnOk result (E.state e.new ≡ side (E.problem e.old) (E.state e.old) decision.now first) }
    ensures unchanged { OnErr result (E.state e.new ≡ E.state e.old) }
{
    match (*decision, first) {
        (Decision::Fresh(o), true) => {
            e.fresh(alloc, o)?;
            Ok(())
        }
        (Decision::Fresh(o), false) => apply_effect(alloc, e, Effect::AtMost(o, 0)),
        (Decision::Kind(o, class), true) => {
            let classes = classes_below(e.problem(), class);
            apply_effect(alloc, e, Effect::Keep(o, classes))
        }
        (Decision::Kind(o, class), false) => {
            let classes = classes_below(e.problem(), class);
            apply_effect(alloc, e, Effect::Lose(o, classes))
        }
        (Decision::Ref(r, a, b), true) => {
            apply_effect(alloc, e, Effect::Merge(r, a, b, Truth::True))
        }
        (Decision::Ref(r, a, b), false) => {
            apply_effect(alloc, e, Effect::Merge(r, a, b, Truth::False))
        }
    }
}
