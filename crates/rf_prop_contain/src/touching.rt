//! What may fire after a change.

ghost use Rattle.std.specs.Prelude.{◌≡◌, ◌<◌, ◌+◌, ◌*◌, ◌==◌, ◌&&◌, ◌||◌, false, length, OnErr, OnOk};
ghost use Rattle.rf_state.specs.State.{State};
ghost use Rattle.rf_rules.specs.Containment.{is_only_possible};
ghost use Rattle.rf_pending.specs.Changes.{FitsChange, IsChange, is_fresh};
ghost use Rattle.rf_pending.specs.Touching.{AreEdgesTouched, AreTouched};
ghost use Rattle.rf_prop_contain.specs.Pending.{Covers};
ghost use Rattle.rf_prop_contain.specs.Touching.{is_concerned, is_from, is_near_held, is_sole_of, renews_walks};

use crate::Pending;
use crate::concerns::{concerns, contains_either, renews_walks};
use rf_pending::{Change, Marks, Standing, touch_edges};
use rf_rules::containment::{Containers, possible_containers};
use rf_state::Facts;
use std::alloc::{AllocError, Global};

// The number of the row of a reference and an object, where there are so many objects.
fn row_of(objects: u64, reference: u32, object: u64) -> u128
    ensures { result ≡ reference * objects + object }
{
    reference as u128 * objects as u128 + object as u128
}

// The rows of what has to be there.
fn touch_held<F: Facts>(view: &F, change: Change, marks: &mut Marks)
    requires { FitsChange (F.problem view.now) (F.state view.now) change }
    ensures { let p = F.problem view.now in
        let s = F.state view.now in
        AreEdgesTouched (length p.references) (length s.objects) (is_near_held p s change) marks.old marks.new }
{
    match change {
        Change::Fact(q, _, _) => {
            if contains_either(view.problem(), q) {
                touch_edges(view, Standing::Must, change, marks);
            }
        }
        Change::Count(_) => touch_edges(view, Standing::Must, change, marks),
        Change::Candidates(_) | Change::Fresh(_) => {}
    }
}

// The rows at an object.
fn touch_rows_at<F: Facts>(view: &F, o: u64, marks: &mut Marks)
    ensures { let p = F.problem view.now in
        let s = F.state view.now in
        AreEdgesTouched (length p.references) (length s.objects) (λ r a. o == a) marks.old marks.new }
{
    let objects = view.objects();
    for reference in 0..view.problem().references.len() as u32 {
        marks.touch(row_of(objects, reference, o));
    }
}

// The rows at the object whose count is changed.
fn touch_from<F: Facts>(view: &F, change: Change, marks: &mut Marks)
    ensures { let p = F.problem view.now in
        let s = F.state view.now in
        AreEdgesTouched (length p.references) (length s.objects) (λ r a. is_from change a) marks.old marks.new }
{
    match change {
        Change::Count(o) => touch_rows_at(view, o, marks),
        Change::Fact(_, _, _) | Change::Candidates(_) | Change::Fresh(_) => {}
    }
}

// The row of the only possible container of an object, where this is so.
fn touch_sole<F: Facts>(view: &F, so: bool, b: u64, marks: &mut Marks)
    requires { b < length (F.state view.now).objects }
    ensures { let p = F.problem view.now in
        let s = F.state view.now in
        AreEdgesTouched (length p.references) (length s.objects) (λ r a. so && is_only_possible p s r a b) marks.old marks.new }
{
    if !so {
        return;
    }
    match possible_containers(view, b) {
        Containers::Only(r, a) => marks.touch(row_of(view.objects(), r, a)),
        Containers::Absent | Containers::Several => {}
    }
}

// The rows of the only possible containers of what is concerned.
fn touch_soles<F: Facts>(view: &F, change: Change, marks: &mut Marks)
    requires { FitsChange (F.problem view.now) (F.state view.now) change }
    ensures { let p = F.problem view.now in
        let s = F.state view.now in
        AreEdgesTouched (length p.references) (length s.objects) (is_sole_of p s change (length s.objects)) marks.old marks.new }
{
    for b in 0..view.objects() {
        let so = concerns(view, change, b);
        touch_sole(view, so, b, marks);
    }
}

// What is concerned.
fn touch_concerned<F: Facts>(view: &F, change: Change, marks: &mut Marks)
    requires { FitsChange (F.problem view.now) (F.state view.now) change }
    ensures { let s = F.state view.now in
        AreTouched (is_concerned (F.problem view.now) s change (length s.objects)) marks.old marks.new }
{
    for b in 0..view.objects() {
        marks.touch_where(concerns(view, change, b), b as u128);
    }
}

// All rows where there can be new walks, else those at the object whose count is changed.
fn touch_walks<F: Facts>(view: &F, change: Change, marks: &mut Marks)
    requires { FitsChange (F.problem view.now) (F.state view.now) change }
    ensures { let p = F.problem view.now in
        let s = F.state view.now in
        AreEdgesTouched (length p.references) (length s.objects) (λ r a. renews_walks p s change || is_from change a) marks.old marks.new }
{
    if renews_walks(view, change) {
        marks.touch_all();
    } else {
        touch_from(view, change, marks);
    }
}

// The rows that a change of the objects at hand touches.
fn touch_rows<F: Facts>(view: &F, change: Change, pending: &mut Pending)
    requires fits { FitsChange (F.problem view.now) (F.state view.now) change }
    requires old { is_fresh change ≡ false }
    ensures { (s : State) → IsChange change s (F.state view.now) → Covers (F.problem view.now) s pending.old
        → Covers (F.problem view.now) (F.state view.now) pending.new }
{
    touch_held(view, change, &mut pending.one_container);
    touch_held(view, change, &mut pending.alone);
    touch_from(view, change, &mut pending.must_contain);
    touch_soles(view, change, &mut pending.must_contain);
    touch_soles(view, change, &mut pending.contain_count);
    touch_concerned(view, change, &mut pending.no_container);
    touch_walks(view, change, &mut pending.acyclic);
}

/// Makes pending what may fire after a change: where what was pending covered the state before, it covers the
/// state now. A fact touches only what its reference or the opposite contains, a count its object and what has to
/// contain it, candidates what has few possible containers; a new edge that has to be there touches all rows of
/// `acyclic`. For a fresh object everything is pending; that may run out of memory, and then nothing is changed.
pub fn touch<F: Facts>(
    alloc: Global,
    view: &F,
    pending: &mut Pending,
    change: Change,
) -> Result<(), AllocError>
    requires { FitsChange (F.problem view.now) (F.state view.now) change }
    ensures covers { OnOk result ((s : State) → IsChange change s (F.state view.now) → Covers (F.problem view.now) s pending.old
        → Covers (F.problem view.now) (F.state view.now) pending.new) }
    ensures unchanged { OnErr result (pending.new ≡ pending.old) }
{
    if change.is_fresh() {
        *pending = Pending::all(alloc, view)?;
    } else {
        touch_rows(view, change, pending);
    }
    Ok(())
}
