//! What a map has of a state, and one entry of it changed.

ghost use Rattle.std.specs.Prelude.{◌≡◌, ◌≢◌, ◌<◌, ◌++◌, ◌∷◌, [], length, slice_index, OnOk, OnErr};
ghost use Rattle.rf_values.specs.declared.truth.Truth.TheVariants.{Unknown};
ghost use Rattle.rf_state.specs.Root.{FitsObject};
ghost use Rattle.rf_state.specs.State.{with_object};
ghost use Rattle.rf_vstate.specs.Maps.{number_in, object_in, state_of, truth_in, words_at};
ghost use Rattle.rf_vstate.specs.Rows.{IsSound, with_fact, with_one_more};
ghost use Rattle.rf_vstate.specs.Words.{fact_key, object_key};

use crate::keys::{fact_key, number_key, object_key};
use crate::values::{count_in, fact_value, number_value, object_in, object_value, truth_in};
use rf_problem::Problem;
use rf_state::Object;
use rf_store::{Key, Store, Value};
use rf_values::{Count, Truth};
use std::alloc::AllocError;

fn words_at(store: &Store, key: &Key) -> Value
    ensures { result ≡ words_at store.now.current key.now }
{
    store.get(key).unwrap_or([0; 7])
}

/// How many objects there are.
pub fn number(store: &Store) -> u64
    ensures { result ≡ number_in store.now.current }
{
    words_at(store, &number_key())[0]
}

/// The object of a number.
pub fn object_at(store: &Store, o: u64) -> Object
    ensures { result ≡ object_in (words_at store.now.current (object_key o)) }
{
    object_in(&words_at(store, &object_key(o)))
}

/// The count of the object of a number.
pub fn count_at(store: &Store, o: u64) -> Count
    ensures { result ≡ (object_in (words_at store.now.current (object_key o))).count }
{
    count_in(&words_at(store, &object_key(o)))
}

/// What was added of an edge.
pub fn added_at(store: &Store, r: u32, a: u64, b: u64) -> Truth
    ensures { result ≡ (state_of store.now.current).added r a b }
{
    truth_in(words_at(store, &fact_key(r, a, b))[0])
}

/// Puts another object in the place of one.
pub fn put_object(
    problem: &Problem,
    store: &mut Store,
    o: u64,
    object: Object,
) -> Result<(), AllocError>
    requires sound { IsSound problem.now store.old.current }
    requires there { o < length (state_of store.old.current).objects }
    requires fits { FitsObject problem.now object }
    ensures sound { OnOk result (IsSound problem.now store.new.current) }
    ensures put { OnOk result (state_of store.new.current ≡ with_object (state_of store.old.current) o object) }
    ensures saved { store.new.saved ≡ store.old.saved }
    ensures err { OnErr result (store.new ≡ store.old) }
{
    let classes = problem.classes.as_slice().len() as u32;
    store.put(object_key(o), object_value(object, classes))
}

/// Makes a truth what was added of an edge.
pub fn put_fact(
    problem: &Problem,
    store: &mut Store,
    r: u32,
    a: u64,
    b: u64,
    truth: Truth,
) -> Result<(), AllocError>
    requires sound { IsSound problem.now store.old.current }
    requires reference { r < length problem.now.references }
    requires from { a < length (state_of store.old.current).objects }
    requires to { b < length (state_of store.old.current).objects }
    requires known { truth ≢ Unknown }
    ensures sound { OnOk result (IsSound problem.now store.new.current) }
    ensures put { OnOk result (state_of store.new.current ≡ with_fact (state_of store.old.current) r a b truth) }
    ensures saved { store.new.saved ≡ store.old.saved }
    ensures err { OnErr result (store.new ≡ store.old) }
{
    store.put(fact_key(r, a, b), fact_value(truth))
}

/// Adds an object after the others. What stands after running out of memory isn't said.
pub fn push_object(problem: &Problem, store: &mut Store, object: Object) -> Result<(), AllocError>
    requires sound { IsSound problem.now store.old.current }
    requires fits { FitsObject problem.now object }
    ensures sound { OnOk result (IsSound problem.now store.new.current) }
    ensures pushed { OnOk result (state_of store.new.current ≡ with_one_more (state_of store.old.current) object) }
    ensures saved { store.new.saved ≡ store.old.saved }
{
    let last = number(store);
    if last == u64::MAX {
        return Err(AllocError);
    }
    let classes = problem.classes.as_slice().len() as u32;
    store.put(object_key(last), object_value(object, classes))?;
    store.put(number_key(), number_value(last + 1))
}
