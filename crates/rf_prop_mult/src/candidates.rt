//! What may fire after an object lost candidates.

ghost use Rattle.std.specs.Prelude.{◌≡◌, ◌<◌, ◌+◌, ◌*◌, ℕ, true, false, length};
ghost use Rattle.rf_state.specs.State.{State};
ghost use Rattle.rf_pending.specs.Changes.{IsChange};
ghost use Rattle.rf_pending.specs.Rows.{is_marked};
ghost use Rattle.rf_pending.specs.Touching.{AreEdgesTouched};
ghost use Rattle.rf_pending.specs.declared.change.Change.TheVariants.{Candidates};
ghost use Rattle.rf_prop_mult.specs.Kinds.{is_near};
ghost use Rattle.rf_prop_mult.specs.Pending.{Covers};

use crate::Pending;
use crate::ends::some_at_target;
use rf_pending::Marks;
use rf_state::Facts;

// The number of the row of a reference and an object, where there are so many objects.
fn row_of(objects: u64, r: u32, a: u64) -> u128
    requires { a < objects }
    ensures { result ≡ r * objects + a }
{
    r as u128 * objects as u128 + a as u128
}

// Marks each row of a reference.
fn touch_reference(objects: u64, r: u32, marks: &mut Marks)
    ensures size { length marks.new.rows.items ≡ length marks.old.rows.items }
    ensures kept { (k : ℕ) → k < length marks.new.rows.items → is_marked marks.new k ≡ false
        → is_marked marks.old k ≡ false }
    ensures marked { (a : ℕ) → a < objects → r * objects + a < length marks.new.rows.items
        → is_marked marks.new (r * objects + a) ≡ true }
{
    for a in 0..objects {
        marks.touch(row_of(objects, r, a));
    }
}

// The row of a reference and the object, and each row of the reference at whose target the object is no more.
fn touch_rows_of<F: Facts>(view: &F, r: u32, o: u64, marks: &mut Marks)
    requires reference { r < length (F.problem view.now).references }
    requires object { o < length (F.state view.now).objects }
    ensures size { length marks.new.rows.items ≡ length marks.old.rows.items }
    ensures kept { (k : ℕ) → k < length marks.new.rows.items → is_marked marks.new k ≡ false
        → is_marked marks.old k ≡ false }
    ensures far { let s = F.state view.now in
        (a : ℕ) → a < length s.objects → r * length s.objects + a < length marks.new.rows.items
        → is_marked marks.new (r * length s.objects + a) ≡ false → is_near (F.problem view.now) s o r a ≡ false }
{
    let objects = view.objects();
    marks.touch(row_of(objects, r, o));
    if !some_at_target(view, r, o) {
        touch_reference(objects, r, marks);
    }
}

// The same of each reference.
fn touch_marks<F: Facts>(view: &F, o: u64, marks: &mut Marks)
    requires { o < length (F.state view.now).objects }
    ensures { let p = F.problem view.now in
        let s = F.state view.now in
        AreEdgesTouched (length p.references) (length s.objects) (is_near p s o) marks.old marks.new }
{
    for reference in 0..view.problem().references.len() as u32 {
        touch_rows_of(view, reference, o, marks);
    }
}

/// Makes pending what may fire after an object lost candidates.
pub fn touch_candidates<F: Facts>(view: &F, o: u64, pending: &mut Pending)
    requires { o < length (F.state view.now).objects }
    ensures { let p = F.problem view.now in
        let t = F.state view.now in
        (s : State) → IsChange (Candidates o) s t → Covers p s pending.old → Covers p t pending.new }
{
    touch_marks(view, o, &mut pending.full);
    touch_marks(view, o, &mut pending.room);
    touch_marks(view, o, &mut pending.need);
    touch_marks(view, o, &mut pending.need_count);
    touch_marks(view, o, &mut pending.type_low);
}
