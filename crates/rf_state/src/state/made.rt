//! How states are made.

ghost use Rattle.std.specs.Prelude.{◌≡◌, IfOk};
ghost use Rattle.std.specs.Option.{ForSome};
ghost use Rattle.rf_state.specs.Meaning.{meaning};
ghost use Rattle.rf_state.specs.NamedEnds.{IsIndex};
ghost use Rattle.rf_state.specs.State.{IsRoot};

use super::State;
use crate::named_ends::NamedEnds;
use crate::root::root_objects;
use rf_problem::Problem;
use std::alloc::{AllocError, Global};
use std::collections::BTreeMap;

impl<'p> State<'p> {
    /// The state in which nothing was added.
    pub fn root(alloc: Global, problem: &'p Problem) -> Result<State<'p>, AllocError>
        ensures problem { IfOk result (λ s. s.problem.now ≡ problem.now) }
        ensures root { IfOk result (λ s. IsRoot problem.now (meaning s)) }
    {
        let objects = root_objects(alloc, problem)?;
        let named = NamedEnds::of(alloc, problem)?;
        Ok(State {
            problem,
            objects,
            added: BTreeMap::new(alloc),
            named: Some(named),
        })
    }

    // What is named, once more.
    fn copy_named(&self, alloc: Global) -> Result<Option<NamedEnds>, AllocError>
        ensures { IfOk result (λ named. ForSome named (IsIndex self.now.problem.now self.now.objects.items self.now.added)) }
    {
        match &self.named {
            Some(named) => Ok(Some(named.copy(alloc)?)),
            None => Ok(None),
        }
    }

    /// The same state once more.
    pub fn copy(&self, alloc: Global) -> Result<State<'p>, AllocError>
        ensures problem { IfOk result (λ s. s.problem.now ≡ self.now.problem.now) }
        ensures same { IfOk result (λ s. meaning s ≡ meaning self.now) }
    {
        let mut objects = Vec::with_capacity(alloc, self.objects.len())?;
        objects.extend_from_slice(&self.objects)?;
        let added = self.added.clone()?;
        let named = self.copy_named(alloc)?;
        Ok(State {
            problem: self.problem,
            objects,
            added,
            named,
        })
    }
}
