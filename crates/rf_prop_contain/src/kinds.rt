//! The rows of each kind of rule.

ghost use Rattle.std.specs.Prelude.{◌≡◌, ◌<◌, IfOk, length};
ghost use Rattle.rf_pending.specs.Rows.{Covers, CoversEdges, firing, least_of_edges, least_of_objects};
ghost use Rattle.rf_rules.specs.declared.rule.Rule.TheVariants.{NoContainer};
ghost use Rattle.rf_prop_contain.specs.Kinds.{first_in_row};
ghost use Rattle.rf_prop_contain.specs.Pending.{first_excluded};

use crate::acyclic::least_acyclic;
use rf_pending::{EdgeRows, Marks, Rows};
use rf_rules::{Rule, containment};
use rf_state::Facts;
use std::alloc::{AllocError, Global};

/// A kind of which there is a row for each reference and object.
#[derive(Clone, Copy, Debug)]
pub enum EdgeKind {
    OneContainer,
    Alone,
    MustContain,
    ContainCount,
    Acyclic,
}

#[derive(Drop)]
struct Objects<'v, F: Facts> {
    view: &'v F,
}

impl<F: Facts> Rows for Objects<'_, F> {
    ghost use Rattle.std.specs.Prelude.{length};
    ghost use Rattle.rf_pending.specs.Rows.{firing};
    ghost use Rattle.rf_rules.specs.declared.rule.Rule.TheVariants.{NoContainer};

    ghost many = { λ rows. length (F.state rows.view.now).objects };

    ghost found = { λ rows b. firing (F.problem rows.view.now) (F.state rows.view.now) (NoContainer b) };

    fn find(&self, _alloc: Global, row: u64) -> Result<Option<Rule>, AllocError> {
        let fires = containment::no_container(self.view, row);
        Ok(if fires {
            Some(Rule::NoContainer(row))
        } else {
            None
        })
    }
}

#[derive(Drop)]
struct Edges<'v, F: Facts> {
    view: &'v F,
    kind: EdgeKind,
}

impl<F: Facts> EdgeRows for Edges<'_, F> {
    ghost use Rattle.std.specs.Prelude.{length};
    ghost use Rattle.rf_prop_contain.specs.Kinds.{first_in_row};

    ghost references = { λ rows. length (F.problem rows.view.now).references };

    ghost objects = { λ rows. length (F.state rows.view.now).objects };

    ghost found = { λ rows r a. first_in_row (F.problem rows.view.now) (F.state rows.view.now) rows.kind r a };

    fn objects(&self) -> u64 {
        self.view.objects()
    }

    fn references(&self) -> u32 {
        self.view.problem().references.len() as u32
    }

    fn find(&self, alloc: Global, r: u32, a: u64) -> Result<Option<Rule>, AllocError> {
        let found = match self.kind {
            EdgeKind::OneContainer => match containment::one_container_row(self.view, r, a) {
                Some((b, q, c)) => Some(Rule::OneContainer(r, a, b, q, c)),
                None => None,
            },
            EdgeKind::Alone => match containment::alone_row(self.view, r, a) {
                Some(b) => Some(Rule::Alone(r, a, b)),
                None => None,
            },
            EdgeKind::MustContain => match containment::must_contain_row(self.view, r, a) {
                Some(b) => Some(Rule::MustContain(r, a, b)),
                None => None,
            },
            EdgeKind::ContainCount => match containment::contain_count_row(self.view, r, a) {
                Some(b) => Some(Rule::ContainCount(r, a, b)),
                None => None,
            },
            EdgeKind::Acyclic => match least_acyclic(alloc, self.view, r, a)? {
                Some(b) => Some(Rule::Acyclic(r, a, b)),
                None => None,
            },
        };
        Ok(found)
    }
}

/// The least rule of those of objects that fires.
pub fn least_at_objects<F: Facts>(
    alloc: Global,
    view: &F,
    marks: &mut Marks,
) -> Result<Option<Rule>, AllocError>
    requires { Covers (length (F.state view.now).objects) (λ b. firing (F.problem view.now) (F.state view.now) (NoContainer b)) marks.old }
    ensures least { IfOk result (λ rule. rule ≡ least_of_objects (F.problem view.now) (F.state view.now) NoContainer) }
    ensures covers { Covers (length (F.state view.now).objects) (λ b. firing (F.problem view.now) (F.state view.now) (NoContainer b)) marks.new }
{
    rf_pending::least(alloc, &Objects { view }, marks)
}

/// The least rule of a kind that fires at an edge.
pub fn least_at_edges<F: Facts>(
    alloc: Global,
    view: &F,
    kind: EdgeKind,
    marks: &mut Marks,
) -> Result<Option<Rule>, AllocError>
    requires { let p = F.problem view.now in
        let s = F.state view.now in
        CoversEdges (length p.references) (length s.objects) (first_in_row p s kind) marks.old }
    ensures least { let p = F.problem view.now in
        let s = F.state view.now in
        IfOk result (λ rule. rule ≡ least_of_edges p s (first_in_row p s kind)) }
    ensures covers { let p = F.problem view.now in
        let s = F.state view.now in
        CoversEdges (length p.references) (length s.objects) (first_in_row p s kind) marks.new }
{
    rf_pending::least_of_edges(alloc, &Edges { view, kind }, marks)
}
