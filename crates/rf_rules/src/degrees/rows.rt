//! The rows of these rules: for a reference and an object the first other object at which one fires.

ghost use Rattle.std.specs.Prelude.{◌≡◌};
ghost use Rattle.rf_rules.specs.Rules.{least_object};
ghost use Rattle.rf_rules.specs.declared.rule.Rule.TheVariants.{Full, Need, NeedCount, Room};

use super::Degrees;
use rf_finite::{Test, first_passing};
use rf_state::Facts;

/// Which of the rules is looked for.
#[derive(Clone, Copy, Debug)]
enum DegreeRule {
    Full,
    Room,
    Need,
    NeedCount,
}

#[derive(Drop)]
struct DegreeRow<'d, 'v, F: Facts> {
    degrees: &'d Degrees<'v, F>,
    rule: DegreeRule,
}

impl<F: Facts> Test for DegreeRow<'_, '_, F> {
    ghost use Rattle.std.specs.Prelude.{length};
    ghost use Rattle.rf_rules.specs.DegreeRows.{degree_rule};
    ghost use Rattle.rf_rules.specs.Rules.{fires};

    ghost bound = { λ row. length (F.state row.degrees.now.edges.view.now).objects };

    ghost passing = { λ row b. let edges = row.degrees.now.edges in
        fires (F.problem edges.view.now) (F.state edges.view.now) (degree_rule row.rule edges.reference edges.from b) };

    fn bound(&self) -> u64 {
        let edges = &self.degrees.edges;
        edges.view.objects()
    }

    fn passes(&self, number: u64) -> bool {
        match self.rule {
            DegreeRule::Full => self.degrees.full(number),
            DegreeRule::Room => self.degrees.room(number),
            DegreeRule::Need => self.degrees.need(number),
            DegreeRule::NeedCount => self.degrees.need_count(number),
        }
    }
}

impl<F: Facts> Degrees<'_, F> {
    /// The least `b` at which `full r a b` fires.
    pub fn full_row(&self) -> Option<u64>
        ensures { let edges = self.now.edges in
            result ≡ least_object (F.problem edges.view.now) (F.state edges.view.now) (Full edges.reference edges.from) }
    {
        first_passing(&DegreeRow {
            degrees: self,
            rule: DegreeRule::Full,
        })
    }

    /// The least `b` at which `room r a b` fires.
    pub fn room_row(&self) -> Option<u64>
        ensures { let edges = self.now.edges in
            result ≡ least_object (F.problem edges.view.now) (F.state edges.view.now) (Room edges.reference edges.from) }
    {
        first_passing(&DegreeRow {
            degrees: self,
            rule: DegreeRule::Room,
        })
    }

    /// The least `b` at which `need r a b` fires.
    pub fn need_row(&self) -> Option<u64>
        ensures { let edges = self.now.edges in
            result ≡ least_object (F.problem edges.view.now) (F.state edges.view.now) (Need edges.reference edges.from) }
    {
        first_passing(&DegreeRow {
            degrees: self,
            rule: DegreeRule::Need,
        })
    }

    /// The least `b` at which `need-count r a b` fires.
    pub fn need_count_row(&self) -> Option<u64>
        ensures { let edges = self.now.edges in
            result ≡ least_object (F.problem edges.view.now) (F.state edges.view.now) (NeedCount edges.reference edges.from) }
    {
        first_passing(&DegreeRow {
            degrees: self,
            rule: DegreeRule::NeedCount,
        })
    }
}
