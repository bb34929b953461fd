//! The rules of what has a container already.

ghost use Rattle.std.specs.Prelude.{◌≡◌, ◌<◌, ◌&&◌, length, true};
ghost use Rattle.rf_problem.specs.Contained.{is_containing};
ghost use Rattle.rf_rules.specs.Containers.{least_excluded, least_excluded_at, is_held, is_other};
ghost use Rattle.rf_rules.specs.Containment.{alone, one_container};
ghost use Rattle.rf_rules.specs.Effects.{is_ready};
ghost use Rattle.rf_rules.specs.Rules.{least_object};
ghost use Rattle.rf_rules.specs.declared.rule.Rule.TheVariants.{Alone, OneContainer};

use super::references::is_containing;
use super::steps::must_contain_by;
use crate::changes::may_exceed;
use crate::words::{lo, may};
use rf_finite::{Rule, Test, first_found, first_passing};
use rf_state::Facts;

/// Whether an object that has a node has to contain another by a reference.
fn is_container<F: Facts>(view: &F, r: u32, a: u64, b: u64) -> bool
    requires reference { r < length (F.problem view.now).references }
    requires from { a < length (F.state view.now).objects }
    requires to { b < length (F.state view.now).objects }
    ensures { result ≡ is_held (F.problem view.now) (F.state view.now) r a b }
{
    must_contain_by(view, r, a, b) && lo(view, a) >= 1
}

/// Whether another edge may lead to the object to which one leads.
fn may_be_other<F: Facts>(view: &F, r: u32, a: u64, b: u64, q: u32, c: u64) -> bool
    requires reference { q < length (F.problem view.now).references }
    requires from { c < length (F.state view.now).objects }
    requires to { b < length (F.state view.now).objects }
    ensures { result ≡ is_other (F.problem view.now) (F.state view.now) r a b q c }
{
    !(q == r && c == a) && may(view, q, c, b)
}

/// Whether the container of an object excludes another.
fn is_excluding<F: Facts>(view: &F, r: u32, a: u64, b: u64, q: u32, c: u64) -> bool
    requires reference { r < length (F.problem view.now).references }
    requires from { a < length (F.state view.now).objects }
    requires to { b < length (F.state view.now).objects }
    requires other_reference { q < length (F.problem view.now).references }
    requires other_from { c < length (F.state view.now).objects }
    ensures { result ≡ (is_held (F.problem view.now) (F.state view.now) r a b
        && is_other (F.problem view.now) (F.state view.now) r a b q c) }
{
    is_container(view, r, a, b) && may_be_other(view, r, a, b, q, c)
}

/// Whether `one-container` fires at two references that contain and three objects.
pub fn one_container<F: Facts>(view: &F, r: u32, a: u64, b: u64, q: u32, c: u64) -> bool
    requires reference { r < length (F.problem view.now).references }
    requires from { a < length (F.state view.now).objects }
    requires to { b < length (F.state view.now).objects }
    requires other_reference { q < length (F.problem view.now).references }
    requires other_from { c < length (F.state view.now).objects }
    ensures { result ≡ is_ready (F.state view.now) (one_container (F.problem view.now) (F.state view.now) r a b q c) }
{
    is_containing(view.problem(), q) && is_excluding(view, r, a, b, q, c)
}

/// The containers of `b` by `other` that its container by `reference` excludes.
#[derive(Drop)]
struct ExcludedBy<'v, F: Facts> {
    view: &'v F,
    reference: u32,
    from: u64,
    to: u64,
    other: u32,
    ghost there: { (reference < length (F.problem view.now).references) × (from < length (F.state view.now).objects) },
    ghost to_there: { to < length (F.state view.now).objects },
    ghost other_there: { other < length (F.problem view.now).references },
    ghost contains_other: { is_containing (F.problem view.now) other ≡ true },
    ghost container: { is_held (F.problem view.now) (F.state view.now) reference from to ≡ true },
}

impl<F: Facts> Test for ExcludedBy<'_, F> {
    ghost use Rattle.std.specs.Prelude.{length};
    ghost use Rattle.rf_rules.specs.Rules.{fires};
    ghost use Rattle.rf_rules.specs.declared.rule.Rule.TheVariants.{OneContainer};

    ghost bound = { λ row. length (F.state row.view.now).objects };

    ghost passing = { λ row c. fires (F.problem row.view.now) (F.state row.view.now)
        (OneContainer row.reference row.from row.to row.other c) };

    fn bound(&self) -> u64 {
        self.view.objects()
    }

    fn passes(&self, number: u64) -> bool {
        may_be_other(
            self.view,
            self.reference,
            self.from,
            self.to,
            self.other,
            number,
        )
    }
}

/// The references by which `b` may be contained beside its container.
#[derive(Drop)]
struct ExcludedAt<'v, F: Facts> {
    view: &'v F,
    reference: u32,
    from: u64,
    to: u64,
    ghost there: { (reference < length (F.problem view.now).references) × (from < length (F.state view.now).objects) },
    ghost to_there: { to < length (F.state view.now).objects },
    ghost container: { is_held (F.problem view.now) (F.state view.now) reference from to ≡ true },
}

impl<F: Facts> Rule<(u32, u64)> for ExcludedAt<'_, F> {
    ghost use Rattle.std.specs.Prelude.{length};
    ghost use Rattle.std.specs.Option.{option_map};
    ghost use Rattle.rf_rules.specs.Rules.{least_object};
    ghost use Rattle.rf_rules.specs.declared.rule.Rule.TheVariants.{OneContainer};

    ghost bound = { λ row. length (F.problem row.view.now).references };

    ghost found = { λ row q. option_map (λ c. (q, c))
        (least_object (F.problem row.view.now) (F.state row.view.now) (OneContainer row.reference row.from row.to q)) };

    fn bound(&self) -> u64 {
        self.view.problem().references.len() as u64
    }

    fn find(&self, number: u64) -> Option<(u32, u64)> {
        let other = number as u32;
        if !is_containing(self.view.problem(), other) {
            return None;
        }
        let from = first_passing(&ExcludedBy {
            view: self.view,
            reference: self.reference,
            from: self.from,
            to: self.to,
            other,
        })?;
        Some((other, from))
    }
}

/// The least `(q, c)` at which `one-container r a b q c` fires.
fn one_container_at<F: Facts>(view: &F, r: u32, a: u64, b: u64) -> Option<(u32, u64)>
    requires reference { r < length (F.problem view.now).references }
    requires from { a < length (F.state view.now).objects }
    requires to { b < length (F.state view.now).objects }
    ensures { result ≡ least_excluded_at (F.problem view.now) (F.state view.now) r a b }
{
    if !is_container(view, r, a, b) {
        return None;
    }
    first_found(&ExcludedAt {
        view,
        reference: r,
        from: a,
        to: b,
    })
}

#[derive(Drop)]
struct OneContainerRow<'v, F: Facts> {
    view: &'v F,
    reference: u32,
    from: u64,
    ghost there: { (reference < length (F.problem view.now).references) × (from < length (F.state view.now).objects) },
}

impl<F: Facts> Rule<(u64, u32, u64)> for OneContainerRow<'_, F> {
    ghost use Rattle.std.specs.Prelude.{length};
    ghost use Rattle.std.specs.Option.{option_map};
    ghost use Rattle.rf_rules.specs.Containers.{least_excluded_at};

    ghost bound = { λ row. length (F.state row.view.now).objects };

    ghost found = { λ row b. option_map (λ at. (b, at.0, at.1))
        (least_excluded_at (F.problem row.view.now) (F.state row.view.now) row.reference row.from b) };

    fn bound(&self) -> u64 {
        self.view.objects()
    }

    fn find(&self, number: u64) -> Option<(u64, u32, u64)> {
        let (other, from) = one_container_at(self.view, self.reference, self.from, number)?;
        Some((number, other, from))
    }
}

/// The least `(b, q, c)` at which `one-container r a b q c` fires.
pub fn one_container_row<F: Facts>(view: &F, r: u32, a: u64) -> Option<(u64, u32, u64)>
    requires reference { r < length (F.problem view.now).references }
    requires from { a < length (F.state view.now).objects }
    ensures { result ≡ least_excluded (F.problem view.now) (F.state view.now) r a }
{
    first_found(&OneContainerRow {
        view,
        reference: r,
        from: a,
    })
}

/// Whether `alone` fires at a reference and two objects.
pub fn alone<F: Facts>(view: &F, r: u32, a: u64, b: u64) -> bool
    requires reference { r < length (F.problem view.now).references }
    requires from { a < length (F.state view.now).objects }
    requires to { b < length (F.state view.now).objects }
    ensures { result ≡ is_ready (F.state view.now) (alone (F.problem view.now) (F.state view.now) r a b) }
{
    may_exceed(view, a, 1) && must_contain_by(view, r, a, b) && lo(view, b) >= 1
}

#[derive(Drop)]
struct AloneRow<'v, F: Facts> {
    view: &'v F,
    reference: u32,
    from: u64,
    ghost there: { (reference < length (F.problem view.now).references) × (from < length (F.state view.now).objects) },
}

impl<F: Facts> Test for AloneRow<'_, F> {
    ghost use Rattle.std.specs.Prelude.{length};
    ghost use Rattle.rf_rules.specs.Rules.{fires};
    ghost use Rattle.rf_rules.specs.declared.rule.Rule.TheVariants.{Alone};

    ghost bound = { λ row. length (F.state row.view.now).objects };

    ghost passing = { λ row b. fires (F.problem row.view.now) (F.state row.view.now) (Alone row.reference row.from b) };

    fn bound(&self) -> u64 {
        self.view.objects()
    }

    fn passes(&self, number: u64) -> bool {
        alone(self.view, self.reference, self.from, number)
    }
}

/// The least `b` at which `alone r a b` fires.
pub fn alone_row<F: Facts>(view: &F, r: u32, a: u64) -> Option<u64>
    requires reference { r < length (F.problem view.now).references }
    requires from { a < length (F.state view.now).objects }
    ensures { result ≡ least_object (F.problem view.now) (F.state view.now) (Alone r a) }
{
    first_passing(&AloneRow {
        view,
        reference: r,
        from: a,
    })
}
