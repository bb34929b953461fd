//! What may fire after a change.

ghost use Rattle.std.specs.Prelude.{◌≡◌, false, OnErr, OnOk};
ghost use Rattle.rf_state.specs.State.{State};
ghost use Rattle.rf_pending.specs.Changes.{FitsChange, IsChange, is_fresh};
ghost use Rattle.rf_prop_type.specs.Pending.{Covers};

use crate::Pending;
use rf_pending::{Change, Standing, touch_edges, touch_objects};
use rf_state::Facts;
use std::alloc::{AllocError, Global};

// The rows that a change of the objects at hand touches.
fn touch_rows<F: Facts>(view: &F, change: Change, pending: &mut Pending)
    requires fits { FitsChange (F.problem view.now) (F.state view.now) change }
    requires old { is_fresh change ≡ false }
    ensures { (s : State) → IsChange change s (F.state view.now) → Covers (F.problem view.now) s pending.old
        → Covers (F.problem view.now) (F.state view.now) pending.new }
{
    touch_objects(change, &mut pending.empty);
    touch_objects(change, &mut pending.no_class);
    touch_edges(view, Standing::Must, change, &mut pending.src);
    touch_edges(view, Standing::Must, change, &mut pending.tgt);
    touch_edges(view, Standing::Must, change, &mut pending.clash);
}

/// Makes pending what may fire after a change: where what was pending covered the state before, it covers the
/// state now. A fact touches its row and that of the edge back, a count the rows of the object and those in which
/// an edge has to lead to it, candidates all rows of edges. For a fresh object everything is pending; that may run
/// out of memory, and then nothing is changed.
pub fn touch<F: Facts>(
    alloc: Global,
    view: &F,
    pending: &mut Pending,
    change: Change,
) -> Result<(), AllocError>
    requires { FitsChange (F.problem view.now) (F.state view.now) change }
    ensures covers { OnOk result ((s : State) → IsChange change s (F.state view.now) → Covers (F.problem view.now) s pending.old
        → Covers (F.problem view.now) (F.state view.now) pending.new) }
    ensures unchanged { OnErr result (pending.new ≡ pending.old) }
{
    if change.is_fresh() {
        *pending = Pending::all(alloc, view)?;
    } else {
        touch_rows(view, change, pending);
    }
    Ok(())
}
