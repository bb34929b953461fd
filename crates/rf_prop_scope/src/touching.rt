//! What may fire after a change.

ghost use Rattle.rf_problem.specs.declared.problem.Problem.{Problem};
ghost use Rattle.rf_state.specs.State.{State};
ghost use Rattle.rf_pending.specs.Changes.{IsChange};
ghost use Rattle.rf_prop_scope.specs.Pending.{Covers};

use crate::Pending;
use rf_pending::Change;

/// Makes pending what may fire after a change: where what was pending covered the state before, it covers the
/// state now. A fact touches no scope; what else may change touches each.
pub fn touch(pending: &mut Pending, change: Change)
    ensures { (p : Problem) (s t : State) → IsChange change s t → Covers p s pending.old → Covers p t pending.new }
{
    match change {
        Change::Fact(_, _, _) => {}
        Change::Count(_) | Change::Candidates(_) | Change::Fresh(_) => {
            pending.under.touch_all();
            pending.top.touch_all();
            pending.bottom.touch_all();
            pending.outside.touch_all();
            pending.inside.touch_all();
        }
    }
}
