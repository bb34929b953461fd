//! How a state in a map is made, and the map that it is.

ghost use Rattle.std.specs.Prelude.{◌≡◌, ◌<◌, ◌∷◌, [], IfOk, OnOk, length};
ghost use Rattle.rf_state.specs.Meaning.{meaning};
ghost use Rattle.rf_state.specs.Root.{FitsObject};
ghost use Rattle.rf_state.specs.State.{IsRoot, object_of};
ghost use Rattle.rf_vstate.specs.Maps.{state_of};
ghost use Rattle.rf_vstate.specs.Meaning.{current, kept};
ghost use Rattle.rf_vstate.specs.Rows.{IsSound};
ghost use Rattle.rf_vstate.specs.Table.{IsMapOf};

use super::Versioned;
use crate::keys::number_key;
use crate::rows::push_object;
use crate::values::number_value;
use rf_problem::Problem;
use rf_state::{Facts, Object, State};
use rf_store::Store;
use std::alloc::{AllocError, Global};

// The object of a number.
fn object_of(state: &State<'_>, o: u64) -> Object
    requires { o < length (meaning state.now).objects }
    ensures object { result ≡ object_of (meaning state.now) o }
    ensures fits { FitsObject state.now.problem.now result }
{
    Object {
        origin: state.origin(o),
        count: state.count(o),
        candidates: state.candidates(o),
    }
}

impl<'p> Versioned<'p> {
    /// The root of a problem, which is kept too.
    pub fn root(alloc: Global, problem: &'p Problem) -> Result<Versioned<'p>, AllocError>
        ensures problem { IfOk result (λ v. v.problem.now ≡ problem.now) }
        ensures root { IfOk result (λ v. IsRoot problem.now (current v)) }
        ensures kept { IfOk result (λ v. kept v ≡ current v ∷ []) }
    {
        let root = State::root(alloc, problem)?;
        let mut store = Store::new(alloc);
        store.put(number_key(), number_value(0))?;
        for o in 0..root.objects() {
            push_object(problem, &mut store, object_of(&root, o))?;
        }
        let place = store.commit()?;
        let mut places = Vec::new(alloc);
        places.push(place)?;
        Ok(Versioned {
            problem,
            store,
            places,
        })
    }

    /// The map of the state, in a store of more versions than are kept.
    pub fn store(&self) -> &Store
        ensures { IsMapOf (current self.now) result.now.current }
    {
        &self.store
    }
}
