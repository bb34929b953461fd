//! The edges of a reference from an object, and how many nodes are at their other ends.

ghost use Rattle.std.specs.Prelude.{◌≡◌, ◌<◌, ◌-◌, length, unwrap_or};
ghost use Rattle.rf_finite.specs.Totals.{IsTotal};
ghost use Rattle.rf_rules.specs.Degrees.{may_sum_beside, must_sum, must_sum_beside};
ghost use Rattle.rf_rules.specs.Words.{hi, may, max, min, source};

use crate::words::{hi, lo, may, must};
use rf_finite::{EndsTotal, Parts, sum_beside};
use rf_state::Facts;

/// The edges of a reference from an object to each other.
#[derive(Drop)]
pub struct Edges<'v, F: Facts> {
    pub view: &'v F,
    pub reference: u32,
    pub from: u64,
    ghost there: { (reference < length (F.problem view.now).references) × (from < length (F.state view.now).objects) },
}

/// The lower ends of the objects to which an edge has to lead.
impl<F: Facts> Parts<u64> for Edges<'_, F> {
    ghost use Rattle.std.specs.Prelude.{length};
    ghost use Rattle.rf_rules.specs.Words.{lo, must};

    ghost bound = { λ edges. length (F.state edges.view.now).objects };

    ghost counted = { λ edges b. must (F.problem edges.view.now) (F.state edges.view.now) edges.reference edges.from b };

    ghost part = { λ edges b. lo (F.state edges.view.now) b };

    fn bound(&self) -> u64 {
        self.view.objects()
    }

    fn counted(&self, number: u64) -> bool {
        must(self.view, self.reference, self.from, number)
    }

    fn part(&self, number: u64) -> u64 {
        lo(self.view, number)
    }
}

/// The upper ends of the objects to which one can lead.
impl<F: Facts> Parts<Option<u64>> for Edges<'_, F> {
    ghost use Rattle.std.specs.Prelude.{length};
    ghost use Rattle.rf_rules.specs.Words.{hi, may};

    ghost bound = { λ edges. length (F.state edges.view.now).objects };

    ghost counted = { λ edges b. may (F.problem edges.view.now) (F.state edges.view.now) edges.reference edges.from b };

    ghost part = { λ edges b. hi (F.state edges.view.now) b };

    fn bound(&self) -> u64 {
        self.view.objects()
    }

    fn counted(&self, number: u64) -> bool {
        may(self.view, self.reference, self.from, number)
    }

    fn part(&self, number: u64) -> Option<u64> {
        hi(self.view, number)
    }
}

impl<F: Facts> Edges<'_, F> {
    /// How many edges there are at least from a node of the source class.
    pub fn least(&self) -> u64
        ensures { result ≡ min (F.problem self.now.view.now) self.now.reference }
    {
        self.view.problem().reference(self.reference).range.lo
    }

    /// How many there are at most.
    pub fn most(&self) -> Option<u64>
        ensures { result ≡ max (F.problem self.now.view.now) self.now.reference }
    {
        self.view.problem().reference(self.reference).range.hi
    }

    /// The source class.
    pub fn source(&self) -> u32
        ensures source { result ≡ source (F.problem self.now.view.now) self.now.reference }
        ensures class { result < length (F.problem self.now.view.now).classes }
    {
        self.view.problem().reference(self.reference).source
    }

    /// How many nodes the greatest number of edges leaves to an object, where so many nodes are at least at the
    /// objects to which edges have to lead.
    pub fn room_left(&self, total: u128, b: u64) -> u64
        requires total { total ≡ must_sum (F.problem self.now.view.now) (F.state self.now.view.now) self.now.reference self.now.from }
        requires to { b < length (F.state self.now.view.now).objects }
        ensures { let p = F.problem self.now.view.now in
            let s = F.state self.now.view.now in
            result ≡ unwrap_or (max p self.now.reference) 0 - must_sum_beside p s self.now.reference self.now.from b }
    {
        let most = self.most().unwrap_or(0) as u128;
        most.saturating_sub(sum_beside(self, total, b)) as u64
    }

    /// How many nodes there are at most of the other objects to which edges can lead.
    pub fn may_sum_beside(&self, total: EndsTotal, b: u64) -> Option<u128>
        requires total { let p = F.problem self.now.view.now in
            let s = F.state self.now.view.now in
            IsTotal (length s.objects) (may p s self.now.reference self.now.from) (hi s) total }
        requires to { b < length (F.state self.now.view.now).objects }
        ensures { result ≡ may_sum_beside (F.problem self.now.view.now) (F.state self.now.view.now) self.now.reference self.now.from b }
    {
        total.sum_beside(self, b)
    }

    /// How many nodes an object has to have, where the other objects have at most so many.
    pub fn needed(&self, others: Option<u128>) -> u64
        ensures { result ≡ min (F.problem self.now.view.now) self.now.reference - unwrap_or others 0 }
    {
        let least = self.least() as u128;
        least.saturating_sub(others.unwrap_or(0)) as u64
    }
}
