//! What changes a state in a map.

ghost use Rattle.std.specs.Prelude.{◌≡◌, ◌<◌, length, OnOk};
ghost use Rattle.rf_state.specs.State.{fresh_of};
ghost use Rattle.rf_vstate.specs.Maps.{state_of};
ghost use Rattle.rf_vstate.specs.Rows.{IsSound};

use super::Versioned;
use crate::copies::{Fresh, copy_facts};
use crate::rows;
use rf_problem::Problem;
use rf_state::{Edit, Facts, Object};
use rf_store::Store;
use rf_values::{ClassSet, Count, Truth};
use std::alloc::{AllocError, Global};

// Makes a fresh object of an object. What stands after running out of memory isn't said.
fn make_fresh(problem: &Problem, store: &mut Store, o: u64) -> Result<(), AllocError>
    requires sound { IsSound problem.now store.old.current }
    requires object { o < length (state_of store.old.current).objects }
    ensures sound { OnOk result (IsSound problem.now store.new.current) }
    ensures fresh { OnOk result (state_of store.new.current ≡ fresh_of (state_of store.old.current) o) }
    ensures saved { store.new.saved ≡ store.old.saved }
{
    let number = rows::number(store);
    if number == u64::MAX {
        return Err(AllocError);
    }
    let after = number + 1;
    let object = rows::object_at(store, o);
    let rest = Object {
        count: object.count.less_one(),
        ..object
    };
    let made = Object {
        count: Count { lo: 1, hi: Some(1) },
        ..object
    };
    rows::put_object(problem, store, o, rest)?;
    rows::push_object(problem, store, made)?;
    let references = problem.references.len() as u32;
    copy_facts(
        store,
        references,
        Fresh {
            number,
            of: o,
            after,
        },
    )
}

impl Edit for Versioned<'_> {
    ghost use Rattle.rf_vstate.specs.Meaning.{kept};

    ghost kept = { kept };

    fn merge(&mut self, alloc: Global, r: u32, a: u64, b: u64, v: Truth) -> Result<(), AllocError> {
        let before = rows::added_at(&self.store, r, a, b);
        let after = before.merge(v);
        if after == before {
            return Ok(());
        }
        rows::put_fact(self.problem, &mut self.store, r, a, b, after)
    }

    fn narrow(&mut self, alloc: Global, o: u64, count: Count) -> Result<(), AllocError> {
        let object = self.object(o);
        let narrowed = Object {
            count: object.count.meet(count),
            ..object
        };
        rows::put_object(self.problem, &mut self.store, o, narrowed)
    }

    fn keep(&mut self, alloc: Global, o: u64, set: ClassSet) -> Result<(), AllocError> {
        let object = self.object(o);
        let kept = Object {
            candidates: object.candidates.both(set),
            ..object
        };
        rows::put_object(self.problem, &mut self.store, o, kept)
    }

    fn fresh(&mut self, alloc: Global, o: u64) -> Result<u64, AllocError> {
        let number = self.objects();
        let before = self.store.commit()?;
        match make_fresh(self.problem, &mut self.store, o) {
            Ok(()) => Ok(number),
            Err(error) => {
                self.store.prune(before);
                Err(error)
            }
        }
    }
}
