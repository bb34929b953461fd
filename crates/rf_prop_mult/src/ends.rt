//! Which candidates of an object are at an end of a reference.

ghost use Rattle.std.specs.Prelude.{◌≡◌, ◌<◌, length};
ghost use Rattle.rf_rules.specs.Words.{source, target};
ghost use Rattle.rf_state.specs.State.{all_candidates, some_candidate};

use rf_state::Facts;

// Whether each candidate of an object is below a class.
fn all_below<F: Facts>(view: &F, o: u64, class: u32) -> bool
    requires object { o < length (F.state view.now).objects }
    requires class { class < length (F.problem view.now).classes }
    ensures { result ≡ all_candidates (F.problem view.now) (F.state view.now) o class }
{
    let below = view.problem().classes.below(class);
    view.candidates(o).without(below).is_empty()
}

// Whether some candidate is.
fn some_below<F: Facts>(view: &F, o: u64, class: u32) -> bool
    requires object { o < length (F.state view.now).objects }
    requires class { class < length (F.problem view.now).classes }
    ensures { result ≡ some_candidate (F.problem view.now) (F.state view.now) o class }
{
    let below = view.problem().classes.below(class);
    !view.candidates(o).both(below).is_empty()
}

/// Whether each candidate of an object is below the source of a reference.
pub fn all_at_source<F: Facts>(view: &F, r: u32, o: u64) -> bool
    requires reference { r < length (F.problem view.now).references }
    requires object { o < length (F.state view.now).objects }
    ensures { let p = F.problem view.now in
        result ≡ all_candidates p (F.state view.now) o (source p r) }
{
    all_below(view, o, view.problem().reference(r).source)
}

/// Whether some candidate is.
pub fn some_at_source<F: Facts>(view: &F, r: u32, o: u64) -> bool
    requires reference { r < length (F.problem view.now).references }
    requires object { o < length (F.state view.now).objects }
    ensures { let p = F.problem view.now in
        result ≡ some_candidate p (F.state view.now) o (source p r) }
{
    some_below(view, o, view.problem().reference(r).source)
}

/// Whether some candidate is below its target.
pub fn some_at_target<F: Facts>(view: &F, r: u32, o: u64) -> bool
    requires reference { r < length (F.problem view.now).references }
    requires object { o < length (F.state view.now).objects }
    ensures { let p = F.problem view.now in
        result ≡ some_candidate p (F.state view.now) o (target p r) }
{
    some_below(view, o, view.problem().reference(r).target)
}
