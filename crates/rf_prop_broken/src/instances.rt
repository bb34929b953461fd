//! The rules of a predicate, or of a literal of a clause, one at each list of objects.

ghost use Rattle.std.specs.Prelude.{◌≡◌, ◌<◌, ◌≤◌, ◌++◌, ◌∷◌, [], length, OnOk};
ghost use Rattle.rf_prop_broken.specs.Best.{Improves, comes_before, fires_at, rule_of_best};
ghost use Rattle.rf_prop_broken.specs.Kinds.{most_of, rule_of};
ghost use Rattle.std.specs.Option.{ForSome};

use rf_rules::Rule;
use rf_state::View;
use rf_values::{Objects, Tuple};
use std::alloc::{AllocError, Global};
use std::cmp::Ordering;

/// The numbers that rules at all lists of objects have in common.
#[derive(Clone, Copy, Debug)]
pub enum Instances {
    /// A predicate.
    Broken(u32),
    /// A predicate, a clause and a literal of it.
    Forced(u32, u32, u32),
}

impl Instances {
    // The rule at a list of objects.
    fn rule_at(self, objects: Objects) -> Rule
        requires { length objects ≤ most_of self }
        ensures { result ≡ rule_of self objects }
    {
        match self {
            Instances::Broken(q) => Rule::Broken(q, Tuple::of(objects.as_slice())),
            Instances::Forced(q, k, j) => Rule::Forced(q, k, j, objects),
        }
    }

    /// The rule at the best list of objects, if there is one.
    pub fn rule_at_best(self, best: Option<Objects>) -> Option<Rule>
        requires { ForSome best (λ t. length t ≤ most_of self) }
        ensures { result ≡ rule_of_best self best }
    {
        match best {
            None => None,
            Some(objects) => Some(self.rule_at(objects)),
        }
    }
}

/// The list with one object more.
pub fn with(objects: Objects, o: u64) -> Objects
    requires { length objects < 8 }
    ensures { result ≡ objects ++ o ∷ [] }
{
    let items = objects.as_slice();
    let mut cells = [0; 8];
    cells[..items.len()].copy_from_slice(items);
    cells[items.len()] = o;
    Objects::of(&cells[..items.len() + 1])
}

// Whether a list of objects comes before the best one.
fn comes_before(objects: &Objects, best: &Option<Objects>) -> bool
    ensures { result ≡ comes_before objects.now best.now }
{
    match best {
        None => true,
        Some(first) => objects.as_slice().cmp(first.as_slice()) == Ordering::Less,
    }
}

/// Makes a list of objects the best one where the rule fires there and it comes before the one so far.
pub fn consider<V: View>(
    alloc: Global,
    view: &V,
    instances: Instances,
    objects: Objects,
    best: &mut Option<Objects>,
) -> Result<(), AllocError>
    requires { length objects ≤ most_of instances }
    ensures { OnOk result (Improves (fires_at (V.problem view.now) (V.state view.now) instances) (λ t. t ≡ objects) best.old best.new) }
{
    if comes_before(&objects, best) && rf_rules::fires(alloc, view, &instances.rule_at(objects))? {
        *best = Some(objects);
    }
    Ok(())
}
