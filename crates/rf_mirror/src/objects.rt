//! The list of objects.

ghost use Rattle.std.specs.Prelude.{◌≡◌, ◌<◌, length};
ghost use Rattle.rf_state.specs.State.{State, object_of, with_object};
ghost use Rattle.rf_trail.specs.Trail.{HaveNoMore, items, kept};
ghost use Rattle.rf_mirror.specs.Mirror.{AreObjects};

use rf_state::{Facts, Object};
use rf_trail::Trail;

/// An object, as it is read.
pub fn object_of<F: Facts>(facts: &F, o: u64) -> Object
    requires { o < length (F.state facts.now).objects }
    ensures { result ≡ object_of (F.state facts.now) o }
{
    Object {
        origin: facts.origin(o),
        count: facts.count(o),
        candidates: facts.candidates(o),
    }
}

/// Puts another object in the place of one, if that is in the list.
pub fn renew(objects: &mut Trail<Object>, o: u64, object: Object)
    ensures right { (s : State) → AreObjects s (items objects.old) → AreObjects (with_object s o object) (items objects.new) }
    ensures kept { HaveNoMore (kept objects.old) (kept objects.new) }
{
    objects.put(o as usize, object);
}

/// Adds an object after the others, if it is the next and there is memory.
pub fn add(objects: &mut Trail<Object>, o: u64, object: Object)
    ensures right { (s : State) → AreObjects s (items objects.old) → o < length s.objects → object ≡ object_of s o
        → AreObjects s (items objects.new) }
    ensures kept { kept objects.new ≡ kept objects.old }
{
    if objects.len() as u64 == o {
        let _added = objects.push(object).is_ok();
    }
}
