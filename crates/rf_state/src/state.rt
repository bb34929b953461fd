//! A state.

ghost use Rattle.std.specs.Prelude.{All};
ghost use Rattle.std.specs.Option.{ForSome};
ghost use Rattle.rf_state.specs.NamedEnds.{IsIndex};
ghost use Rattle.rf_state.specs.Root.{FitsObject};

mod edits;
mod made;
mod reads;

use crate::Object;
use crate::named_ends::NamedEnds;
use rf_problem::Problem;
use rf_values::Truth;
use std::collections::BTreeMap;

/// A state of a problem.
#[derive(Drop)]
pub struct State<'p> {
    problem: &'p Problem,
    objects: Vec<Object>,
    // For a reference and two objects what was added, where that isn't unknown.
    added: BTreeMap<(u32, u64, u64), Truth>,
    // The ends that assertions and added facts name together, as long as no object is fresh.
    named: Option<NamedEnds>,
    ghost index: { ForSome named (λ ends. IsIndex problem.now objects.items added ends) },
    ghost fit: { All (FitsObject problem.now) objects.items },
}
