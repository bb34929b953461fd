//! What may fire after a change.

ghost use Rattle.std.specs.Prelude.{◌≡◌, OnErr, OnOk};
ghost use Rattle.rf_state.specs.State.{State};
ghost use Rattle.rf_pending.specs.Changes.{FitsChange, IsChange};
ghost use Rattle.rf_pending.specs.Touching.{AreTouched};
ghost use Rattle.rf_prop_broken.specs.Dependence.{is_found};
ghost use Rattle.rf_prop_broken.specs.Pending.{Covers};

use crate::Pending;
use crate::dependence::dependents;
use rf_pending::{Change, Marks};
use rf_state::Facts;
use std::alloc::{AllocError, Global};

// Marks the rows that are found.
fn touch_found(found: &[bool], marks: &mut Marks)
    ensures { AreTouched (is_found found.now) marks.old marks.new }
{
    for q in 0..found.len() {
        marks.touch_where(found[q], q as u128);
    }
}

/// Makes pending what may fire after a change: where what was pending covered the state before, it covers the
/// state now. A fact touches the predicates that depend on its reference or on the opposite; what else may change
/// touches each. To find the predicates that depend on a reference may run out of memory, and then nothing is
/// changed.
pub fn touch<F: Facts>(
    alloc: Global,
    view: &F,
    pending: &mut Pending,
    change: Change,
) -> Result<(), AllocError>
    requires { FitsChange (F.problem view.now) (F.state view.now) change }
    ensures covers { OnOk result ((s : State) → IsChange change s (F.state view.now) → Covers (F.problem view.now) s pending.old
        → Covers (F.problem view.now) (F.state view.now) pending.new) }
    ensures unchanged { OnErr result (pending.new ≡ pending.old) }
{
    match change {
        Change::Fact(r, _, _) => {
            let found = dependents(alloc, view.problem(), r)?;
            touch_found(found.as_slice(), &mut pending.broken);
            touch_found(found.as_slice(), &mut pending.forced);
        }
        Change::Count(_) | Change::Candidates(_) | Change::Fresh(_) => {
            pending.broken.touch_all();
            pending.forced.touch_all();
        }
    }
    Ok(())
}
