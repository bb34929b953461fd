//! A state with versions, with lists of what is read of it.

ghost use Rattle.std.specs.Prelude.{◌≡◌, length};
ghost use Rattle.rf_trail.specs.Trail.{items, kept};
ghost use Rattle.rf_vstate.specs.Meaning.{current as current_of, kept as kept_of};
ghost use Rattle.rf_mirror.specs.Mirror.{AreMirrors, IsMirror};

mod edits;
mod going_back;
mod made;
mod reads;

use rf_state::Object;
use rf_trail::Trail;
use rf_values::Truth;
use rf_vstate::Versioned;

/// A state of a problem that is edited, kept and gone back to, as the `Versioned` that it has, with its objects and
/// what is told of edges in lists, where they are read at once.
#[derive(Drop)]
pub struct Mirrored<'p> {
    inner: Versioned<'p>,
    // How many objects there are.
    number: u64,
    // The objects, as far as there was memory for them.
    objects: Trail<Object>,
    // What is told of each edge, by its cell, as far as there was memory for it.
    cells: Trail<Truth>,
    ghost many: { number ≡ length (current_of inner).objects },
    ghost mirror: { IsMirror inner.problem.now (current_of inner) (items objects) (items cells) },
    ghost mirrors: { AreMirrors inner.problem.now (kept_of inner) (kept objects) (kept cells) },
}
