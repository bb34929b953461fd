//! What a search knows of the state where it stands, so that it needn't look at all of it in each round.

ghost use Rattle.std.specs.Prelude.{◌≡◌, ◌≤◌, None, IfOk, OnOk, length};
ghost use Rattle.rf_state.specs.State.{State};
ghost use Rattle.rf_decide.specs.Choice.{chosen};
ghost use Rattle.rf_decide.specs.Counted.{IsCounted};
ghost use Rattle.rf_decide.specs.declared.limit.TheConstants.{MOST_OBJECTS};
ghost use Rattle.rf_pending.specs.Changes.{FitsChange, IsChange};
ghost use Rattle.rf_search.specs.Knowledge.{IsKnown};
ghost use Rattle.rf_search.specs.Least.{IsLeast};

use crate::{Pending, pending};
use rf_decide::{Counted, choose_counted};
use rf_pending::Change;
use rf_rules::{Decision, Rule};
use rf_state::View;
use std::alloc::{AllocError, Global};

/// Which rules may fire, and how many decisions are allowed of each kind.
#[derive(Debug, Drop)]
pub struct Knowledge {
    pub pending: Pending,
    pub counted: Counted,
}

impl Knowledge {
    /// Of a state of which nothing is known to be done.
    pub fn nothing<V: View>(alloc: Global, view: &V) -> Result<Knowledge, AllocError>
        ensures { IfOk result (IsKnown (V.problem view.now) (V.state view.now)) }
    {
        Ok(Knowledge {
            pending: Pending::all(alloc, view)?,
            counted: Counted::none(alloc, view)?,
        })
    }

    /// Of a state in which no rule fires, and of which so much is counted.
    pub fn quiet<V: View>(
        alloc: Global,
        view: &V,
        counted: Counted,
    ) -> Result<Knowledge, AllocError>
        requires least { IsLeast (V.problem view.now) (V.state view.now) None }
        requires counted { IsCounted (V.problem view.now) (V.state view.now) counted }
        ensures { IfOk result (IsKnown (V.problem view.now) (V.state view.now)) }
    {
        Ok(Knowledge {
            pending: Pending::none(alloc, view)?,
            counted,
        })
    }

    /// The least rule that fires.
    pub fn least<V: View>(&mut self, alloc: Global, view: &V) -> Result<Option<Rule>, AllocError>
        requires { IsKnown (V.problem view.now) (V.state view.now) self.old }
        ensures least { IfOk result (IsLeast (V.problem view.now) (V.state view.now)) }
        ensures known { IsKnown (V.problem view.now) (V.state view.now) self.new }
    {
        pending::least(alloc, view, &mut self.pending)
    }

    /// Makes it what is known after a change of the state.
    pub fn touch<V: View>(
        &mut self,
        alloc: Global,
        view: &V,
        change: Change,
    ) -> Result<(), AllocError>
        requires { FitsChange (V.problem view.now) (V.state view.now) change }
        ensures { OnOk result ((s : State) → IsChange change s (V.state view.now) → IsKnown (V.problem view.now) s self.old
            → IsKnown (V.problem view.now) (V.state view.now) self.new) }
    {
        pending::touch(alloc, view, &mut self.pending, change)?;
        self.counted.touch(alloc, view, change)
    }

    /// The decision that a word takes, and whether its first side leads.
    pub fn choose<V: View>(&mut self, view: &V, word: u32) -> Option<(Decision, bool)>
        requires few { length (V.state view.now).objects ≤ MOST_OBJECTS }
        requires known { IsKnown (V.problem view.now) (V.state view.now) self.old }
        ensures chosen { result ≡ chosen (V.problem view.now) (V.state view.now) word }
        ensures known { IsKnown (V.problem view.now) (V.state view.now) self.new }
    {
        choose_counted(view, &mut self.counted, word)
    }
}
