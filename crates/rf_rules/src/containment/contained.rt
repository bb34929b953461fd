//! The rules of what has to have a container.

ghost use Rattle.std.specs.Prelude.{◌≡◌, ◌<◌, ◌&&◌, ℕ, length};
ghost use Rattle.rf_problem.specs.Contained.{is_contained_class};
ghost use Rattle.rf_rules.specs.Containment.{contain_count, is_contained, is_only_possible, must_contain, no_container};
ghost use Rattle.rf_rules.specs.Effects.{is_ready};
ghost use Rattle.rf_rules.specs.Rules.{least_object};
ghost use Rattle.rf_rules.specs.Words.{classes_where};
ghost use Rattle.rf_rules.specs.declared.rule.Rule.TheVariants.{ContainCount, MustContain};

use super::possible::possible_containers;
use super::references::{contained_classes, is_containing};
use crate::changes::{has_one_of, may_fall_short};
use crate::words::{each_candidate, is_one, is_unknown, lo};
use rf_finite::{Test, first_passing};
use rf_state::Facts;
use rf_values::ClassSet;

/// Whether each candidate of an object is contained.
fn is_contained<F: Facts>(view: &F, contained: ClassSet, b: u64) -> bool
    requires contained { contained ≡ classes_where (F.problem view.now) (is_contained_class (F.problem view.now)) }
    requires object { b < length (F.state view.now).objects }
    ensures { result ≡ is_contained (F.problem view.now) (F.state view.now) b }
{
    each_candidate(view, b, contained)
}

/// Whether a reference from an object is the only possible container of another, each of whose candidates is contained.
fn is_sole_container<F: Facts>(view: &F, contained: ClassSet, r: u32, a: u64, b: u64) -> bool
    requires contained { contained ≡ classes_where (F.problem view.now) (is_contained_class (F.problem view.now)) }
    requires reference { r < length (F.problem view.now).references }
    requires from { a < length (F.state view.now).objects }
    requires to { b < length (F.state view.now).objects }
    ensures { result ≡ (is_contained (F.problem view.now) (F.state view.now) b
        && is_only_possible (F.problem view.now) (F.state view.now) r a b) }
{
    is_contained(view, contained, b) && possible_containers(view, b).are_only(r, a)
}

/// Whether `must-contain` fires, by the contained classes.
fn must_contain_by<F: Facts>(view: &F, contained: ClassSet, r: u32, a: u64, b: u64) -> bool
    requires contained { contained ≡ classes_where (F.problem view.now) (is_contained_class (F.problem view.now)) }
    requires reference { r < length (F.problem view.now).references }
    requires from { a < length (F.state view.now).objects }
    requires to { b < length (F.state view.now).objects }
    ensures { result ≡ is_ready (F.state view.now) (must_contain (F.problem view.now) (F.state view.now) r a b) }
{
    is_containing(view.problem(), r)
        && is_one(view, a)
        && is_unknown(view.fact(r, a, b))
        && is_sole_container(view, contained, r, a, b)
}

/// Whether `must-contain` fires at a reference and two objects.
pub fn must_contain<F: Facts>(view: &F, r: u32, a: u64, b: u64) -> bool
    requires reference { r < length (F.problem view.now).references }
    requires from { a < length (F.state view.now).objects }
    requires to { b < length (F.state view.now).objects }
    ensures { result ≡ is_ready (F.state view.now) (must_contain (F.problem view.now) (F.state view.now) r a b) }
{
    must_contain_by(view, contained_classes(view.problem()), r, a, b)
}

#[derive(Drop)]
struct MustContainRow<'v, F: Facts> {
    view: &'v F,
    contained: ClassSet,
    reference: u32,
    from: u64,
    ghost there: { (reference < length (F.problem view.now).references) × (from < length (F.state view.now).objects) },
    ghost contained_is: { contained ≡ classes_where (F.problem view.now) (is_contained_class (F.problem view.now)) },
}

impl<F: Facts> Test for MustContainRow<'_, F> {
    ghost use Rattle.std.specs.Prelude.{length};
    ghost use Rattle.rf_rules.specs.Rules.{fires};
    ghost use Rattle.rf_rules.specs.declared.rule.Rule.TheVariants.{MustContain};

    ghost bound = { λ row. length (F.state row.view.now).objects };

    ghost passing = { λ row b. fires (F.problem row.view.now) (F.state row.view.now) (MustContain row.reference row.from b) };

    fn bound(&self) -> u64 {
        self.view.objects()
    }

    fn passes(&self, number: u64) -> bool {
        must_contain_by(self.view, self.contained, self.reference, self.from, number)
    }
}

/// The least `b` at which `must-contain r a b` fires.
pub fn must_contain_row<F: Facts>(view: &F, r: u32, a: u64) -> Option<u64>
    requires reference { r < length (F.problem view.now).references }
    requires from { a < length (F.state view.now).objects }
    ensures { result ≡ least_object (F.problem view.now) (F.state view.now) (MustContain r a) }
{
    if !is_containing(view.problem(), r) {
        return None;
    }
    first_passing(&MustContainRow {
        view,
        contained: contained_classes(view.problem()),
        reference: r,
        from: a,
    })
}

/// Whether `contain-count` fires, by the contained classes.
fn contain_count_by<F: Facts>(view: &F, contained: ClassSet, r: u32, a: u64, b: u64) -> bool
    requires contained { contained ≡ classes_where (F.problem view.now) (is_contained_class (F.problem view.now)) }
    requires reference { r < length (F.problem view.now).references }
    requires from { a < length (F.state view.now).objects }
    requires to { b < length (F.state view.now).objects }
    ensures { result ≡ is_ready (F.state view.now) (contain_count (F.problem view.now) (F.state view.now) r a b) }
{
    is_containing(view.problem(), r)
        && may_fall_short(view, a, 1)
        && lo(view, b) >= 1
        && is_sole_container(view, contained, r, a, b)
}

/// Whether `contain-count` fires at a reference and two objects.
pub fn contain_count<F: Facts>(view: &F, r: u32, a: u64, b: u64) -> bool
    requires reference { r < length (F.problem view.now).references }
    requires from { a < length (F.state view.now).objects }
    requires to { b < length (F.state view.now).objects }
    ensures { result ≡ is_ready (F.state view.now) (contain_count (F.problem view.now) (F.state view.now) r a b) }
{
    contain_count_by(view, contained_classes(view.problem()), r, a, b)
}

#[derive(Drop)]
struct ContainCountRow<'v, F: Facts> {
    view: &'v F,
    contained: ClassSet,
    reference: u32,
    from: u64,
    ghost there: { (reference < length (F.problem view.now).references) × (from < length (F.state view.now).objects) },
    ghost contained_is: { contained ≡ classes_where (F.problem view.now) (is_contained_class (F.problem view.now)) },
}

impl<F: Facts> Test for ContainCountRow<'_, F> {
    ghost use Rattle.std.specs.Prelude.{length};
    ghost use Rattle.rf_rules.specs.Rules.{fires};
    ghost use Rattle.rf_rules.specs.declared.rule.Rule.TheVariants.{ContainCount};

    ghost bound = { λ row. length (F.state row.view.now).objects };

    ghost passing = { λ row b. fires (F.problem row.view.now) (F.state row.view.now) (ContainCount row.reference row.from b) };

    fn bound(&self) -> u64 {
        self.view.objects()
    }

    fn passes(&self, number: u64) -> bool {
        contain_count_by(self.view, self.contained, self.reference, self.from, number)
    }
}

/// The least `b` at which `contain-count r a b` fires.
pub fn contain_count_row<F: Facts>(view: &F, r: u32, a: u64) -> Option<u64>
    requires reference { r < length (F.problem view.now).references }
    requires from { a < length (F.state view.now).objects }
    ensures { result ≡ least_object (F.problem view.now) (F.state view.now) (ContainCount r a) }
{
    if !is_containing(view.problem(), r) {
        return None;
    }
    first_passing(&ContainCountRow {
        view,
        contained: contained_classes(view.problem()),
        reference: r,
        from: a,
    })
}

/// Whether `no-container` fires at an object.
pub fn no_container<F: Facts>(view: &F, b: u64) -> bool
    requires { b < length (F.state view.now).objects }
    ensures { result ≡ is_ready (F.state view.now) (no_container (F.problem view.now) (F.state view.now) b) }
{
    has_one_of(view, b, contained_classes(view.problem()))
        && possible_containers(view, b).are_absent()
}
