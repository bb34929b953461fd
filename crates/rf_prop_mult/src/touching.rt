//! What may fire after a change.

ghost use Rattle.std.specs.Prelude.{◌≡◌, false, OnErr, OnOk};
ghost use Rattle.rf_state.specs.State.{State};
ghost use Rattle.rf_pending.specs.Changes.{FitsChange, IsChange, is_fresh};
ghost use Rattle.rf_prop_mult.specs.Pending.{Covers};

use crate::Pending;
use crate::candidates::touch_candidates;
use rf_pending::{Change, Standing, touch_edges};
use rf_state::Facts;
use std::alloc::{AllocError, Global};

// The rows that a fact or a count touches.
fn touch_rows<F: Facts>(view: &F, change: Change, pending: &mut Pending)
    requires fits { FitsChange (F.problem view.now) (F.state view.now) change }
    requires old { is_fresh change ≡ false }
    ensures { let p = F.problem view.now in
        let t = F.state view.now in
        (s : State) → IsChange change s t → Covers p s pending.old → Covers p t pending.new }
{
    touch_edges(view, Standing::Must, change, &mut pending.full);
    touch_edges(view, Standing::Must, change, &mut pending.room);
    touch_edges(view, Standing::May, change, &mut pending.need);
    touch_edges(view, Standing::May, change, &mut pending.need_count);
    touch_edges(view, Standing::May, change, &mut pending.type_low);
}

/// Makes pending what may fire after a change: where what was pending covered the state before, it covers the
/// state now. A fact touches its row and that of the edge back. A count touches the rows of the object, and for
/// `full` and `room` those in which an edge has to lead to it, for the others those in which one can. Candidates
/// touch the rows of the object, and all rows of the references at whose target it is no more. For a fresh object
/// everything is pending; that may run out of memory, and then nothing is changed.
pub fn touch<F: Facts>(
    alloc: Global,
    view: &F,
    pending: &mut Pending,
    change: Change,
) -> Result<(), AllocError>
    requires { FitsChange (F.problem view.now) (F.state view.now) change }
    ensures covers { let p = F.problem view.now in
        let t = F.state view.now in
        OnOk result ((s : State) → IsChange change s t → Covers p s pending.old → Covers p t pending.new) }
    ensures unchanged { OnErr result (pending.new ≡ pending.old) }
{
    match change {
        Change::Fact(_, _, _) | Change::Count(_) => touch_rows(view, change, pending),
        Change::Candidates(o) => touch_candidates(view, o, pending),
        Change::Fresh(_) => *pending = Pending::all(alloc, view)?,
    }
    Ok(())
}
