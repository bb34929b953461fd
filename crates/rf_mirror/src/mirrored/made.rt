//! How a state and its lists are made.

ghost use Rattle.std.specs.Prelude.{◌≡◌, ◌<◌, ◌∷◌, [], length, IfOk, OnOk, OnErr};
ghost use Rattle.rf_state.specs.State.{IsRoot};
ghost use Rattle.rf_trail.specs.Trail.{items, kept as kept_lists};
ghost use Rattle.rf_vstate.specs.Meaning.{current as current_of};
ghost use Rattle.rf_mirror.specs.Meaning.{current, kept};
ghost use Rattle.rf_mirror.specs.Mirror.{AreObjects, AreTold};
ghost use Rattle.rf_mirror.specs.Sources.{IsAsserted};

use super::Mirrored;
use crate::adding::{Source, add_cells};
use crate::objects::{add, object_of};
use rf_problem::Problem;
use rf_state::{Facts, Object};
use rf_trail::Trail;
use rf_values::Truth;
use rf_vstate::Versioned;
use std::alloc::{AllocError, Global};

// Adds each object to a list, as far as there is memory.
fn add_objects(inner: &Versioned, objects: &mut Trail<Object>)
    requires { AreObjects (current_of inner.now) (items objects.old) }
    ensures right { AreObjects (current_of inner.now) (items objects.new) }
    ensures kept { kept_lists objects.new ≡ kept_lists objects.old }
{
    for o in 0..inner.objects() {
        add(objects, o, object_of(inner, o));
    }
}

// Adds the cells of each object, as far as there is memory.
fn add_all_cells(inner: &Versioned, cells: &mut Trail<Truth>)
    requires asserted { IsAsserted inner.now.problem.now (current_of inner.now) }
    requires right { AreTold inner.now.problem.now (current_of inner.now) (items cells.old) }
    ensures right { AreTold inner.now.problem.now (current_of inner.now) (items cells.new) }
    ensures kept { kept_lists cells.new ≡ kept_lists cells.old }
{
    for o in 0..inner.objects() {
        add_cells(inner.problem(), cells, Source::Asserted, o);
    }
}

impl<'p> Mirrored<'p> {
    /// The root of a problem, which is kept too.
    pub fn root(alloc: Global, problem: &'p Problem) -> Result<Mirrored<'p>, AllocError>
        ensures problem { IfOk result (λ m. m.inner.problem.now ≡ problem.now) }
        ensures root { IfOk result (λ m. IsRoot problem.now (current m)) }
        ensures kept { IfOk result (λ m. kept m ≡ current m ∷ []) }
    {
        let inner = Versioned::root(alloc, problem)?;
        let mut objects = Trail::new(alloc);
        let mut cells = Trail::new(alloc);
        add_objects(&inner, &mut objects);
        add_all_cells(&inner, &mut cells);
        objects.commit()?;
        cells.commit()?;
        let number = inner.objects();
        Ok(Mirrored {
            inner,
            number,
            objects,
            cells,
        })
    }
}
