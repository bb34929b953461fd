//! The rows of each kind of rule.

ghost use Rattle.std.specs.Prelude.{◌≡◌, ◌<◌, IfOk, length};
ghost use Rattle.rf_pending.specs.Rows.{Covers, CoversEdges, firing, least_of_edges, least_of_objects};
ghost use Rattle.rf_prop_type.specs.Kinds.{first_in_row, object_rule};

use rf_pending::{EdgeRows, Marks, Rows};
use rf_rules::{Rule, types};
use rf_state::Facts;
use std::alloc::{AllocError, Global};

/// A kind of which there is a rule for each object.
#[derive(Clone, Copy, Debug)]
pub enum ObjectKind {
    Empty,
    NoClass,
}

/// A kind of which there is a row for each reference and object.
#[derive(Clone, Copy, Debug)]
pub enum EdgeKind {
    Src,
    Tgt,
    Clash,
}

#[derive(Drop)]
struct Objects<'v, F: Facts> {
    view: &'v F,
    kind: ObjectKind,
}

impl<F: Facts> Rows for Objects<'_, F> {
    ghost use Rattle.std.specs.Prelude.{length};
    ghost use Rattle.rf_pending.specs.Rows.{firing};
    ghost use Rattle.rf_prop_type.specs.Kinds.{object_rule};

    ghost many = { λ rows. length (F.state rows.view.now).objects };

    ghost found = { λ rows o. firing (F.problem rows.view.now) (F.state rows.view.now) (object_rule rows.kind o) };

    fn find(&self, _alloc: Global, row: u64) -> Result<Option<Rule>, AllocError> {
        let (fires, rule) = match self.kind {
            ObjectKind::Empty => (types::empty(self.view, row), Rule::Empty(row)),
            ObjectKind::NoClass => (types::no_class(self.view, row), Rule::NoClass(row)),
        };
        Ok(if fires { Some(rule) } else { None })
    }
}

#[derive(Drop)]
struct Edges<'v, F: Facts> {
    view: &'v F,
    kind: EdgeKind,
}

impl<F: Facts> EdgeRows for Edges<'_, F> {
    ghost use Rattle.std.specs.Prelude.{length};
    ghost use Rattle.rf_prop_type.specs.Kinds.{first_in_row};

    ghost references = { λ rows. length (F.problem rows.view.now).references };

    ghost objects = { λ rows. length (F.state rows.view.now).objects };

    ghost found = { λ rows r a. first_in_row (F.problem rows.view.now) (F.state rows.view.now) rows.kind r a };

    fn objects(&self) -> u64 {
        self.view.objects()
    }

    fn references(&self) -> u32 {
        self.view.problem().references.len() as u32
    }

    fn find(&self, _alloc: Global, r: u32, a: u64) -> Result<Option<Rule>, AllocError> {
        let found = match self.kind {
            EdgeKind::Src => match types::src_row(self.view, r, a) {
                Some(b) => Some(Rule::Src(r, a, b)),
                None => None,
            },
            EdgeKind::Tgt => match types::tgt_row(self.view, r, a) {
                Some(b) => Some(Rule::Tgt(r, a, b)),
                None => None,
            },
            EdgeKind::Clash => match types::clash_row(self.view, r, a) {
                Some((b, end)) => Some(Rule::Clash(r, a, b, end)),
                None => None,
            },
        };
        Ok(found)
    }
}

/// The least rule of a kind that fires at an object.
pub fn least_at_objects<F: Facts>(
    alloc: Global,
    view: &F,
    kind: ObjectKind,
    marks: &mut Marks,
) -> Result<Option<Rule>, AllocError>
    requires { Covers (length (F.state view.now).objects) (λ o. firing (F.problem view.now) (F.state view.now) (object_rule kind o)) marks.old }
    ensures least { IfOk result (λ rule. rule ≡ least_of_objects (F.problem view.now) (F.state view.now) (object_rule kind)) }
    ensures covers { Covers (length (F.state view.now).objects) (λ o. firing (F.problem view.now) (F.state view.now) (object_rule kind o)) marks.new }
{
    rf_pending::least(alloc, &Objects { view, kind }, marks)
}

/// The least rule of a kind that fires at an edge.
pub fn least_at_edges<F: Facts>(
    alloc: Global,
    view: &F,
    kind: EdgeKind,
    marks: &mut Marks,
) -> Result<Option<Rule>, AllocError>
    requires { let p = F.problem view.now in
        let s = F.state view.now in
        CoversEdges (length p.references) (length s.objects) (first_in_row p s kind) marks.old }
    ensures least { let p = F.problem view.now in
        let s = F.state view.now in
        IfOk result (λ rule. rule ≡ least_of_edges p s (first_in_row p s kind)) }
    ensures covers { let p = F.problem view.now in
        let s = F.state view.now in
        CoversEdges (length p.references) (length s.objects) (first_in_row p s kind) marks.new }
{
    rf_pending::least_of_edges(alloc, &Edges { view, kind }, marks)
}
