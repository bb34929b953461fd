//! Which rows a change touches.

ghost use Rattle.std.specs.Prelude.{◌≡◌, ◌<◌, ◌+◌, ◌*◌, ◌==◌, ◌||◌, ℕ, false, length};
ghost use Rattle.rf_state.specs.State.{fact};
ghost use Rattle.rf_problem.specs.declared.problem.Problem.{Problem};
ghost use Rattle.rf_pending.specs.Changes.{FitsChange};
ghost use Rattle.rf_pending.specs.Rows.{is_marked};
ghost use Rattle.rf_pending.specs.Touching.{AreEdgesTouched, AreTouched, is_at_object, is_near, stands};
ghost use Rattle.rf_pending.specs.declared.change.Change.TheVariants.{Fact, Count};

use crate::edges::row_of;
use crate::{Change, Marks, Standing};
use rf_state::Facts;

/// Marks those rows of single objects that a change touches.
pub fn touch_objects(change: Change, marks: &mut Marks)
    ensures { AreTouched (is_at_object change) marks.old marks.new }
{
    match change {
        Change::Fact(_, _, _) => {}
        Change::Count(o) | Change::Candidates(o) => marks.touch(o as u128),
        Change::Fresh(_) => marks.touch_all(),
    }
}

// The rows of a fact and of the edge back.
fn touch_fact<F: Facts>(view: &F, standing: Standing, r: u32, a: u64, b: u64, marks: &mut Marks)
    requires { FitsChange (F.problem view.now) (F.state view.now) (Fact r a b) }
    ensures { let p = F.problem view.now in
        let s = F.state view.now in
        AreEdgesTouched (length p.references) (length s.objects) (is_near p s standing (Fact r a b)) marks.old marks.new }
{
    let objects = view.objects();
    marks.touch(row_of(objects, r, a));
    if let Some(q) = view.problem().reference(r).opposite {
        marks.touch(row_of(objects, q, b));
    }
}

// The rows of one reference in which an object stands, and its own.
fn touch_rows_of<F: Facts>(view: &F, standing: Standing, r: u32, o: u64, marks: &mut Marks)
    requires reference { r < length (F.problem view.now).references }
    requires object { o < length (F.state view.now).objects }
    ensures size { length marks.new.rows.items ≡ length marks.old.rows.items }
    ensures kept { (k : ℕ) → k < length marks.new.rows.items → is_marked marks.new k ≡ false → is_marked marks.old k ≡ false }
    ensures far { let p = F.problem view.now in
        let s = F.state view.now in
        (a : ℕ) → a < length s.objects → r * length s.objects + a < length marks.new.rows.items
        → is_marked marks.new (r * length s.objects + a) ≡ false → (o == a || stands standing (fact p s r a o)) ≡ false }
{
    let objects = view.objects();
    marks.touch(row_of(objects, r, o));
    let ends = view.ends_into(r, o);
    for number in 0..ends.count() {
        let a = ends.at(number);
        let counts = standing.counts(view.fact(r, a, o));
        marks.touch_where(counts, row_of(objects, r, a));
    }
}

// The rows in which an object stands, and its own.
fn touch_count<F: Facts>(view: &F, standing: Standing, o: u64, marks: &mut Marks)
    requires { o < length (F.state view.now).objects }
    ensures { let p = F.problem view.now in
        let s = F.state view.now in
        AreEdgesTouched (length p.references) (length s.objects) (is_near p s standing (Count o)) marks.old marks.new }
{
    for reference in 0..view.problem().references.len() as u32 {
        touch_rows_of(view, standing, reference, o, marks);
    }
}

/// Marks those rows of references and objects that a change touches.
pub fn touch_edges<F: Facts>(view: &F, standing: Standing, change: Change, marks: &mut Marks)
    requires { FitsChange (F.problem view.now) (F.state view.now) change }
    ensures { let p = F.problem view.now in
        let s = F.state view.now in
        AreEdgesTouched (length p.references) (length s.objects) (is_near p s standing change) marks.old marks.new }
{
    match change {
        Change::Fact(r, a, b) => touch_fact(view, standing, r, a, b, marks),
        Change::Count(o) => touch_count(view, standing, o, marks),
        Change::Candidates(_) | Change::Fresh(_) => marks.touch_all(),
    }
}
