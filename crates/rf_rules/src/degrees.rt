//! The rules of how many edges of a reference lead from a node.

ghost use Rattle.std.specs.Prelude.{◌≡◌, ◌<◌, ◌-◌, length, unwrap_or};
ghost use Rattle.rf_finite.specs.Totals.{IsTotal};
ghost use Rattle.rf_rules.specs.Degrees.{full, may_sum_beside, must_sum, must_sum_beside, need, need_count, room, type_low};
ghost use Rattle.rf_rules.specs.Effects.{is_ready};
ghost use Rattle.rf_rules.specs.Words.{hi, may, max, min};

mod edges;
mod rows;

use crate::changes::{has_one_of, may_exceed, may_fall_short};
use crate::words::{all_below, classes_below, is_less, is_one, is_unknown, lo, may, must, reaches};
use edges::Edges;
use rf_finite::{EndsTotal, sum_of_ends, sum_of_parts, total_of_ends};
use rf_state::Facts;

/// The edges of a reference from an object, with how many nodes there are at least at the objects to which one has
/// to lead, and at most at those to which one can: what the rules ask for at each other object.
#[derive(Drop)]
pub struct Degrees<'v, F: Facts> {
    pub edges: Edges<'v, F>,
    must_total: u128,
    may_total: EndsTotal,
    ghost least: { must_total ≡ must_sum (F.problem edges.view.now) (F.state edges.view.now) edges.reference edges.from },
    ghost most: { IsTotal (length (F.state edges.view.now).objects) (may (F.problem edges.view.now) (F.state edges.view.now) edges.reference edges.from)
        (hi (F.state edges.view.now)) may_total },
}

impl<'v, F: Facts> Degrees<'v, F> {
    /// Takes the sums, in a time that grows with the number of objects.
    pub fn of(view: &'v F, r: u32, a: u64) -> Degrees<'v, F>
        requires reference { r < length (F.problem view.now).references }
        requires from { a < length (F.state view.now).objects }
        ensures view { result.edges.view.now ≡ view.now }
        ensures reference { result.edges.reference ≡ r }
        ensures from { result.edges.from ≡ a }
    {
        let edges = Edges {
            view,
            reference: r,
            from: a,
        };
        let must_total = sum_of_parts(&edges);
        let may_total = total_of_ends(&edges);
        Degrees {
            edges,
            must_total,
            may_total,
        }
    }

    /// Whether `full` fires at an object.
    pub fn full(&self, b: u64) -> bool
        requires { b < length (F.state self.now.edges.view.now).objects }
        ensures { let p = F.problem self.now.edges.view.now in
            let s = F.state self.now.edges.view.now in
            result ≡ is_ready s (full p s self.now.edges.reference self.now.edges.from b) }
    {
        let edges = &self.edges;
        reaches(self.must_total, edges.most())
            && is_unknown(edges.view.fact(edges.reference, edges.from, b))
    }

    /// Whether `room` fires at it.
    pub fn room(&self, b: u64) -> bool
        requires { b < length (F.state self.now.edges.view.now).objects }
        ensures { let p = F.problem self.now.edges.view.now in
            let s = F.state self.now.edges.view.now in
            result ≡ is_ready s (room p s self.now.edges.reference self.now.edges.from b) }
    {
        let edges = &self.edges;
        edges.most().is_some()
            && must(edges.view, edges.reference, edges.from, b)
            && lo(edges.view, edges.from) >= 1
            && may_exceed(edges.view, b, edges.room_left(self.must_total, b))
    }

    /// Whether `need` does.
    pub fn need(&self, b: u64) -> bool
        requires { b < length (F.state self.now.edges.view.now).objects }
        ensures { let p = F.problem self.now.edges.view.now in
            let s = F.state self.now.edges.view.now in
            result ≡ is_ready s (need p s self.now.edges.reference self.now.edges.from b) }
    {
        let edges = &self.edges;
        all_below(edges.view, edges.from, edges.source())
            && is_one(edges.view, b)
            && is_unknown(edges.view.fact(edges.reference, edges.from, b))
            && is_less(edges.may_sum_beside(self.may_total, b), edges.least())
    }

    /// Whether `need-count` does.
    pub fn need_count(&self, b: u64) -> bool
        requires { b < length (F.state self.now.edges.view.now).objects }
        ensures { let p = F.problem self.now.edges.view.now in
            let s = F.state self.now.edges.view.now in
            result ≡ is_ready s (need_count p s self.now.edges.reference self.now.edges.from b) }
    {
        let edges = &self.edges;
        let others = edges.may_sum_beside(self.may_total, b);
        all_below(edges.view, edges.from, edges.source())
            && lo(edges.view, edges.from) >= 1
            && may(edges.view, edges.reference, edges.from, b)
            && others.is_some()
            && may_fall_short(edges.view, b, edges.needed(others))
    }
}

/// Whether `type-low` fires at a reference and an object.
pub fn type_low<F: Facts>(view: &F, r: u32, a: u64) -> bool
    requires reference { r < length (F.problem view.now).references }
    requires from { a < length (F.state view.now).objects }
    ensures { result ≡ is_ready (F.state view.now) (type_low (F.problem view.now) (F.state view.now) r a) }
{
    let edges = Edges {
        view,
        reference: r,
        from: a,
    };
    is_less(sum_of_ends(&edges), edges.least())
        && has_one_of(view, a, classes_below(view.problem(), edges.source()))
}

/// What `room` leaves to an object: the upper end that it gives its count.
pub fn room_left<F: Facts>(view: &F, r: u32, a: u64, b: u64) -> u64
    requires reference { r < length (F.problem view.now).references }
    requires from { a < length (F.state view.now).objects }
    requires to { b < length (F.state view.now).objects }
    ensures { result ≡ unwrap_or (max (F.problem view.now) r) 0 - must_sum_beside (F.problem view.now) (F.state view.now) r a b }
{
    let edges = Edges {
        view,
        reference: r,
        from: a,
    };
    edges.room_left(sum_of_parts(&edges), b)
}

/// What `need-count` asks of an object: the lower end that it gives its count.
pub fn needed<F: Facts>(view: &F, r: u32, a: u64, b: u64) -> u64
    requires reference { r < length (F.problem view.now).references }
    requires from { a < length (F.state view.now).objects }
    requires to { b < length (F.state view.now).objects }
    ensures { result ≡ min (F.problem view.now) r - unwrap_or (may_sum_beside (F.problem view.now) (F.state view.now) r a b) 0 }
{
    let edges = Edges {
        view,
        reference: r,
        from: a,
    };
    edges.needed(edges.may_sum_beside(total_of_ends(&edges), b))
}
