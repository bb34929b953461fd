//! A state in a map with versions.

ghost use Rattle.rf_vstate.specs.Rows.{AreKept, IsSound};

mod edits;
mod going_back;
mod made;
mod reads;

use rf_problem::Problem;
use rf_store::Store;

/// A state of a problem that is edited, kept and gone back to.
#[derive(Drop)]
pub struct Versioned<'p> {
    problem: &'p Problem,
    store: Store,
    // The place of each state that is kept among the versions of the store, which has more of them: one for
    // each edit of several entries.
    places: Vec<u64>,
    ghost sound: { IsSound problem.now store.current },
    ghost versions: { AreKept problem.now store.saved places.items },
}
