//! The rules of scopes.

ghost use Rattle.std.specs.Prelude.{◌≡◌, ◌<◌, ◌-◌, ◌&&◌, not, length, true, unwrap_or};
ghost use Rattle.rf_finite.specs.Totals.{IsTotal};
ghost use Rattle.rf_problem.specs.Counted.{counts_origin};
ghost use Rattle.rf_problem.specs.Parts.{scope_at};
ghost use Rattle.rf_rules.specs.Effects.{is_ready};
ghost use Rattle.rf_rules.specs.Rules.{least_object};
ghost use Rattle.rf_rules.specs.declared.rule.Rule.TheVariants.{ScopeBottom, ScopeIn, ScopeOut, ScopeTop};
ghost use Rattle.rf_rules.specs.ScopeRows.{has_end, scope_rule};
ghost use Rattle.rf_rules.specs.Scopes.{is_of_scope, is_surely_counted, may_be_counted, may_count_beside, scope_bottom, scope_hi, scope_in, scope_lo, scope_out, scope_top, sure_count, sure_count_beside, under};
ghost use Rattle.rf_rules.specs.Words.{classes_where, hi};
ghost use Rattle.rf_state.specs.State.{object_of};

use crate::changes::{has_one_of, has_other, may_exceed, may_fall_short};
use crate::words::{
    any_candidate, classes_below, each_candidate, hi, is_less, is_one, lo, reaches,
};
use rf_finite::{
    EndsTotal, Parts, Test, first_passing, sum_beside, sum_of_ends, sum_of_parts, total_of_ends,
};
use rf_problem::{ObjectName, Problem, Scope};
use rf_state::Facts;
use rf_values::{ClassSet, Count};

// Each class of a problem.
fn all_classes(problem: &Problem) -> ClassSet
    ensures { result ≡ classes_where problem.now (λ c. true) }
{
    let mut classes = ClassSet::empty();
    for class in 0..problem.classes.as_slice().len() {
        classes = classes.adding(class as u32);
    }
    classes
}

/// The classes of the nodes that a scope counts.
pub fn scope_classes(problem: &Problem, z: u32) -> ClassSet
    requires { z < length problem.now.scopes }
    ensures { result ≡ classes_where problem.now (is_of_scope problem.now z) }
{
    match problem.scope(z).class {
        Some(top) => classes_below(problem, top),
        None => all_classes(problem),
    }
}

// Whether a scope counts what comes from the object of this number.
fn counts_origin(problem: &Problem, scope: &Scope, origin: u64) -> bool
    ensures { result ≡ counts_origin problem.now scope.now origin }
{
    if !scope.only_new {
        return true;
    }
    match problem.objects.get(origin as usize) {
        Some(object) => matches!(&object.name, ObjectName::NewOf(_)),
        None => true,
    }
}

// How much an end is above a sum, and 0 where it isn't.
fn less(end: u64, sum: u128) -> u64
    ensures { result ≡ end - sum }
{
    (end as u128).saturating_sub(sum) as u64
}

// What a scope may count in a state, and what it surely counts.
#[derive(Drop)]
struct Counting<'v, F: Facts> {
    view: &'v F,
    scope: u32,
    classes: ClassSet,
    ghost there: { scope < length (F.problem view.now).scopes },
    ghost classes_fit: { classes ≡ classes_where (F.problem view.now) (is_of_scope (F.problem view.now) scope) },
}

impl<'v, F: Facts> Counting<'v, F> {
    fn of(view: &'v F, z: u32) -> Counting<'v, F>
        requires { z < length (F.problem view.now).scopes }
        ensures view { result.view.now ≡ view.now }
        ensures scope { result.scope ≡ z }
    {
        Counting {
            view,
            scope: z,
            classes: scope_classes(view.problem(), z),
        }
    }

    fn scope(&self) -> &Scope
        ensures { result.now ≡ scope_at (F.problem self.now.view.now).scopes self.now.scope }
    {
        self.view.problem().scope(self.scope)
    }

    fn counts_origin_of(&self, o: u64) -> bool
        requires { o < length (F.state self.now.view.now).objects }
        ensures { let p = F.problem self.now.view.now in
            result ≡ counts_origin p (scope_at p.scopes self.now.scope) (object_of (F.state self.now.view.now) o).origin }
    {
        counts_origin(self.view.problem(), self.scope(), self.view.origin(o))
    }

    fn may_count(&self, o: u64) -> bool
        requires { o < length (F.state self.now.view.now).objects }
        ensures { result ≡ may_be_counted (F.problem self.now.view.now) (F.state self.now.view.now) self.now.scope o }
    {
        self.counts_origin_of(o) && any_candidate(self.view, o, self.classes)
    }

    fn surely_counts(&self, o: u64) -> bool
        requires { o < length (F.state self.now.view.now).objects }
        ensures { result ≡ is_surely_counted (F.problem self.now.view.now) (F.state self.now.view.now) self.now.scope o }
    {
        self.counts_origin_of(o) && each_candidate(self.view, o, self.classes)
    }
}

// The upper ends of what may be counted.
#[derive(Drop)]
struct UpperEnds<'c, 'v, F: Facts> {
    counting: &'c Counting<'v, F>,
}

impl<F: Facts> Parts<Option<u64>> for UpperEnds<'_, '_, F> {
    ghost use Rattle.std.specs.Prelude.{length};
    ghost use Rattle.rf_rules.specs.Scopes.{may_be_counted};
    ghost use Rattle.rf_rules.specs.Words.{hi};

    ghost bound = { λ ends. length (F.state ends.counting.now.view.now).objects };

    ghost counted = { λ ends o. may_be_counted (F.problem ends.counting.now.view.now) (F.state ends.counting.now.view.now) ends.counting.now.scope o };

    ghost part = { λ ends o. hi (F.state ends.counting.now.view.now) o };

    fn bound(&self) -> u64 {
        self.counting.view.objects()
    }

    fn counted(&self, number: u64) -> bool {
        self.counting.may_count(number)
    }

    fn part(&self, number: u64) -> Option<u64> {
        hi(self.counting.view, number)
    }
}

// The lower ends of what is surely counted.
#[derive(Drop)]
struct LowerEnds<'c, 'v, F: Facts> {
    counting: &'c Counting<'v, F>,
}

impl<F: Facts> Parts<u64> for LowerEnds<'_, '_, F> {
    ghost use Rattle.std.specs.Prelude.{length};
    ghost use Rattle.rf_rules.specs.Scopes.{is_surely_counted};
    ghost use Rattle.rf_rules.specs.Words.{lo};

    ghost bound = { λ ends. length (F.state ends.counting.now.view.now).objects };

    ghost counted = { λ ends o. is_surely_counted (F.problem ends.counting.now.view.now) (F.state ends.counting.now.view.now) ends.counting.now.scope o };

    ghost part = { λ ends o. lo (F.state ends.counting.now.view.now) o };

    fn bound(&self) -> u64 {
        self.counting.view.objects()
    }

    fn counted(&self, number: u64) -> bool {
        self.counting.surely_counts(number)
    }

    fn part(&self, number: u64) -> u64 {
        lo(self.counting.view, number)
    }
}

/// Whether `under` fires at a scope.
pub fn under<F: Facts>(view: &F, z: u32) -> bool
    requires { z < length (F.problem view.now).scopes }
    ensures { result ≡ is_ready (F.state view.now) (under (F.problem view.now) (F.state view.now) z) }
{
    let least = view.problem().scope(z).range.lo;
    if least == 0 {
        return false;
    }
    let counting = Counting::of(view, z);
    let most = sum_of_ends(&UpperEnds {
        counting: &counting,
    });
    is_less(most, least)
}

/// A scope at a state, with the sums of what it counts there.
#[derive(Drop)]
pub struct Scoped<'v, F: Facts> {
    counting: Counting<'v, F>,
    // How many nodes there are at least of the objects that are surely counted.
    sure: u128,
    // How many there are at most of those that may be.
    most: EndsTotal,
    ghost sure_is: { sure ≡ sure_count (F.problem counting.view.now) (F.state counting.view.now) counting.scope },
    ghost most_is: { let s = F.state counting.view.now in
        IsTotal (length s.objects) (may_be_counted (F.problem counting.view.now) s counting.scope) (hi s) most },
}

impl<'v, F: Facts> Scoped<'v, F> {
    pub fn of(view: &'v F, z: u32) -> Scoped<'v, F>
        requires { z < length (F.problem view.now).scopes }
        ensures view { result.counting.view.now ≡ view.now }
        ensures scope { result.counting.scope ≡ z }
    {
        let counting = Counting::of(view, z);
        let sure = sum_of_parts(&LowerEnds {
            counting: &counting,
        });
        let most = total_of_ends(&UpperEnds {
            counting: &counting,
        });
        Scoped {
            counting,
            sure,
            most,
        }
    }

    // How many nodes there are at least of what is surely counted beside an object.
    fn sure_beside(&self, o: u64) -> u128
        requires { o < length (F.state self.now.counting.view.now).objects }
        ensures { let view = self.now.counting.view.now in
            result ≡ sure_count_beside (F.problem view) (F.state view) self.now.counting.scope o }
    {
        let ends = LowerEnds {
            counting: &self.counting,
        };
        sum_beside(&ends, self.sure, o)
    }

    // How many there are at most of what may be counted beside it.
    fn most_beside(&self, o: u64) -> Option<u128>
        requires { o < length (F.state self.now.counting.view.now).objects }
        ensures { let view = self.now.counting.view.now in
            result ≡ may_count_beside (F.problem view) (F.state view) self.now.counting.scope o }
    {
        let ends = UpperEnds {
            counting: &self.counting,
        };
        self.most.sum_beside(&ends, o)
    }

    /// How many nodes `scope-top` leaves an object at most: the upper end less what is surely counted beside it, and 0 where
    /// there is no upper end.
    pub fn room(&self, o: u64) -> u64
        requires { o < length (F.state self.now.counting.view.now).objects }
        ensures { let view = self.now.counting.view.now in let z = self.now.counting.scope in
            result ≡ unwrap_or (scope_hi (F.problem view) z) 0 - sure_count_beside (F.problem view) (F.state view) z o }
    {
        let most = self.counting.scope().range.hi.unwrap_or(0);
        less(most, self.sure_beside(o))
    }

    /// How many `scope-bottom` leaves it at least: the lower end less what may be counted beside it.
    pub fn need(&self, o: u64) -> u64
        requires { o < length (F.state self.now.counting.view.now).objects }
        ensures { let view = self.now.counting.view.now in let z = self.now.counting.scope in
            result ≡ scope_lo (F.problem view) z - unwrap_or (may_count_beside (F.problem view) (F.state view) z o) 0 }
    {
        let beside = self.most_beside(o).unwrap_or(0);
        less(self.counting.scope().range.lo, beside)
    }

    /// Whether `scope-top` fires at an object.
    pub fn top(&self, o: u64) -> bool
        requires { o < length (F.state self.now.counting.view.now).objects }
        ensures { let view = self.now.counting.view.now in
            result ≡ is_ready (F.state view) (scope_top (F.problem view) (F.state view) self.now.counting.scope o) }
    {
        self.counting.scope().range.hi.is_some()
            && self.counting.surely_counts(o)
            && may_exceed(self.counting.view, o, self.room(o))
    }

    /// Whether `scope-bottom` fires at an object.
    pub fn bottom(&self, o: u64) -> bool
        requires { o < length (F.state self.now.counting.view.now).objects }
        ensures { let view = self.now.counting.view.now in
            result ≡ is_ready (F.state view) (scope_bottom (F.problem view) (F.state view) self.now.counting.scope o) }
    {
        self.counting.may_count(o)
            && self.most_beside(o).is_some()
            && may_fall_short(self.counting.view, o, self.need(o))
    }

    // Whether an object may be counted and isn't surely.
    fn is_open(&self, o: u64) -> bool
        requires { o < length (F.state self.now.counting.view.now).objects }
        ensures { let view = self.now.counting.view.now in let z = self.now.counting.scope in
            result ≡ (may_be_counted (F.problem view) (F.state view) z o && not (is_surely_counted (F.problem view) (F.state view) z o)) }
    {
        self.counting.may_count(o) && !self.counting.surely_counts(o)
    }

    /// Whether `scope-out` fires at an object.
    pub fn outside(&self, o: u64) -> bool
        requires { o < length (F.state self.now.counting.view.now).objects }
        ensures { let view = self.now.counting.view.now in
            result ≡ is_ready (F.state view) (scope_out (F.problem view) (F.state view) self.now.counting.scope o) }
    {
        reaches(self.sure, self.counting.scope().range.hi)
            && self.is_open(o)
            && has_one_of(self.counting.view, o, self.counting.classes)
    }

    /// Whether `scope-in` fires at an object.
    pub fn inside(&self, o: u64) -> bool
        requires { o < length (F.state self.now.counting.view.now).objects }
        ensures { let view = self.now.counting.view.now in
            result ≡ is_ready (F.state view) (scope_in (F.problem view) (F.state view) self.now.counting.scope o) }
    {
        is_one(self.counting.view, o)
            && self.is_open(o)
            && is_less(self.most_beside(o), self.counting.scope().range.lo)
            && has_other(self.counting.view, o, self.counting.classes)
    }
}

// The rules of a scope and an object.
#[derive(Clone, Copy)]
enum Kind {
    Top,
    Bottom,
    Out,
    In,
}

// Whether a range has the end without which such a rule fires at no object.
fn has_end(kind: Kind, range: Count) -> bool
    ensures { result ≡ has_end kind range }
{
    match kind {
        Kind::Top | Kind::Out => range.hi.is_some(),
        Kind::Bottom | Kind::In => range.lo > 0,
    }
}

// A row of one of them.
#[derive(Drop)]
struct Row<'v, F: Facts> {
    scoped: Scoped<'v, F>,
    kind: Kind,
}

impl<F: Facts> Test for Row<'_, F> {
    ghost use Rattle.std.specs.Prelude.{length};
    ghost use Rattle.rf_rules.specs.Rules.{fires};
    ghost use Rattle.rf_rules.specs.ScopeRows.{scope_rule};

    ghost bound = { λ row. length (F.state row.scoped.counting.view.now).objects };

    ghost passing = { λ row o.
        let view = row.scoped.counting.view.now in
        fires (F.problem view) (F.state view) (scope_rule row.kind row.scoped.counting.scope o) };

    fn bound(&self) -> u64 {
        self.scoped.counting.view.objects()
    }

    fn passes(&self, number: u64) -> bool {
        match self.kind {
            Kind::Top => self.scoped.top(number),
            Kind::Bottom => self.scoped.bottom(number),
            Kind::Out => self.scoped.outside(number),
            Kind::In => self.scoped.inside(number),
        }
    }
}

// The least object at which one of them fires.
fn least<F: Facts>(view: &F, z: u32, kind: Kind) -> Option<u64>
    requires { z < length (F.problem view.now).scopes }
    ensures { result ≡ least_object (F.problem view.now) (F.state view.now) (scope_rule kind z) }
{
    if !has_end(kind, view.problem().scope(z).range) {
        return None;
    }
    let scoped = Scoped::of(view, z);
    first_passing(&Row { scoped, kind })
}

/// The least `o` at which `scope-top z o` fires.
pub fn scope_top_row<F: Facts>(view: &F, z: u32) -> Option<u64>
    requires { z < length (F.problem view.now).scopes }
    ensures { result ≡ least_object (F.problem view.now) (F.state view.now) (ScopeTop z) }
{
    least(view, z, Kind::Top)
}

/// The least `o` at which `scope-bottom z o` fires.
pub fn scope_bottom_row<F: Facts>(view: &F, z: u32) -> Option<u64>
    requires { z < length (F.problem view.now).scopes }
    ensures { result ≡ least_object (F.problem view.now) (F.state view.now) (ScopeBottom z) }
{
    least(view, z, Kind::Bottom)
}

/// The least `o` at which `scope-out z o` fires.
pub fn scope_out_row<F: Facts>(view: &F, z: u32) -> Option<u64>
    requires { z < length (F.problem view.now).scopes }
    ensures { result ≡ least_object (F.problem view.now) (F.state view.now) (ScopeOut z) }
{
    least(view, z, Kind::Out)
}

/// The least `o` at which `scope-in z o` fires.
pub fn scope_in_row<F: Facts>(view: &F, z: u32) -> Option<u64>
    requires { z < length (F.problem view.now).scopes }
    ensures { result ≡ least_object (F.problem view.now) (F.state view.now) (ScopeIn z) }
{
    least(view, z, Kind::In)
}

/// How many nodes `scope-top z o` leaves an object at most: the scope's upper end less what is surely counted beside the
/// object, and 0 where there is no upper end.
pub fn scope_room<F: Facts>(view: &F, z: u32, o: u64) -> u64
    requires scope { z < length (F.problem view.now).scopes }
    requires object { o < length (F.state view.now).objects }
    ensures { result ≡ unwrap_or (scope_hi (F.problem view.now) z) 0 - sure_count_beside (F.problem view.now) (F.state view.now) z o }
{
    Scoped::of(view, z).room(o)
}

/// How many `scope-bottom z o` leaves it at least: the scope's lower end less what may be counted beside it.
pub fn scope_need<F: Facts>(view: &F, z: u32, o: u64) -> u64
    requires scope { z < length (F.problem view.now).scopes }
    requires object { o < length (F.state view.now).objects }
    ensures { result ≡ scope_lo (F.problem view.now) z - unwrap_or (may_count_beside (F.problem view.now) (F.state view.now) z o) 0 }
{
    Scoped::of(view, z).need(o)
}
