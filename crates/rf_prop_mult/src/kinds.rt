//! The rows of each kind of rule.

ghost use Rattle.std.specs.Prelude.{◌≡◌, ◌<◌, IfOk, length};
ghost use Rattle.rf_rules.specs.Rules.{least_object};
ghost use Rattle.rf_rules.specs.declared.rule.Rule.TheVariants.{Full, Need, NeedCount, Room};
ghost use Rattle.rf_pending.specs.Rows.{CoversEdges, least_of_edges};
ghost use Rattle.rf_prop_mult.specs.Kinds.{can_begin, first_in_row, has_end};

use crate::ends::{all_at_source, some_at_source};
use rf_pending::{EdgeRows, Marks};
use rf_rules::Rule;
use rf_rules::degrees::{Degrees, type_low};
use rf_state::Facts;
use rf_values::Count;
use std::alloc::{AllocError, Global};

/// A kind of rule.
#[derive(Clone, Copy, Debug)]
pub enum Kind {
    Full,
    Room,
    Need,
    NeedCount,
    TypeLow,
}

impl Kind {
    // Whether a range has the end without which no rule of the kind fires.
    fn has_end(self, range: Count) -> bool
        ensures { result ≡ has_end self range }
    {
        match self {
            Kind::Full | Kind::Room => range.hi.is_some(),
            Kind::Need | Kind::NeedCount | Kind::TypeLow => range.lo > 0,
        }
    }
}

// The first object of a row at which a rule fires: what is summed for the row is so once.
fn full_row<F: Facts>(view: &F, r: u32, a: u64) -> Option<u64>
    requires reference { r < length (F.problem view.now).references }
    requires from { a < length (F.state view.now).objects }
    ensures { result ≡ least_object (F.problem view.now) (F.state view.now) (Full r a) }
{
    Degrees::of(view, r, a).full_row()
}

fn room_row<F: Facts>(view: &F, r: u32, a: u64) -> Option<u64>
    requires reference { r < length (F.problem view.now).references }
    requires from { a < length (F.state view.now).objects }
    ensures { result ≡ least_object (F.problem view.now) (F.state view.now) (Room r a) }
{
    Degrees::of(view, r, a).room_row()
}

fn need_row<F: Facts>(view: &F, r: u32, a: u64) -> Option<u64>
    requires reference { r < length (F.problem view.now).references }
    requires from { a < length (F.state view.now).objects }
    ensures { result ≡ least_object (F.problem view.now) (F.state view.now) (Need r a) }
{
    Degrees::of(view, r, a).need_row()
}

fn need_count_row<F: Facts>(view: &F, r: u32, a: u64) -> Option<u64>
    requires reference { r < length (F.problem view.now).references }
    requires from { a < length (F.state view.now).objects }
    ensures { result ≡ least_object (F.problem view.now) (F.state view.now) (NeedCount r a) }
{
    Degrees::of(view, r, a).need_count_row()
}

#[derive(Drop)]
struct Edges<'v, F: Facts> {
    view: &'v F,
    kind: Kind,
}

impl<F: Facts> Edges<'_, F> {
    // Whether the object of a row has what each rule of the kind asks of it.
    fn can_begin(&self, r: u32, a: u64) -> bool
        requires reference { r < length (F.problem self.now.view.now).references }
        requires from { a < length (F.state self.now.view.now).objects }
        ensures { let view = self.now.view.now in
            result ≡ can_begin (F.problem view) (F.state view) self.now.kind r a }
    {
        match self.kind {
            Kind::Full | Kind::TypeLow => some_at_source(self.view, r, a),
            Kind::Room => self.view.count(a).lo >= 1,
            Kind::Need => all_at_source(self.view, r, a),
            Kind::NeedCount => self.view.count(a).lo >= 1 && all_at_source(self.view, r, a),
        }
    }

    // The first rule of a row.
    fn first_in_row(&self, r: u32, a: u64) -> Option<Rule>
        requires reference { r < length (F.problem self.now.view.now).references }
        requires from { a < length (F.state self.now.view.now).objects }
        ensures { let view = self.now.view.now in
            result ≡ first_in_row (F.problem view) (F.state view) self.now.kind r a }
    {
        match self.kind {
            Kind::Full => match full_row(self.view, r, a) {
                Some(b) => Some(Rule::Full(r, a, b)),
                None => None,
            },
            Kind::Room => match room_row(self.view, r, a) {
                Some(b) => Some(Rule::Room(r, a, b)),
                None => None,
            },
            Kind::Need => match need_row(self.view, r, a) {
                Some(b) => Some(Rule::Need(r, a, b)),
                None => None,
            },
            Kind::NeedCount => match need_count_row(self.view, r, a) {
                Some(b) => Some(Rule::NeedCount(r, a, b)),
                None => None,
            },
            Kind::TypeLow => {
                if type_low(self.view, r, a) {
                    Some(Rule::TypeLow(r, a))
                } else {
                    None
                }
            }
        }
    }
}

impl<F: Facts> EdgeRows for Edges<'_, F> {
    ghost use Rattle.std.specs.Prelude.{length};
    ghost use Rattle.rf_prop_mult.specs.Kinds.{first_in_row};

    ghost references = { λ rows. length (F.problem rows.view.now).references };

    ghost objects = { λ rows. length (F.state rows.view.now).objects };

    ghost found = { λ rows r a. first_in_row (F.problem rows.view.now) (F.state rows.view.now) rows.kind r a };

    fn objects(&self) -> u64 {
        self.view.objects()
    }

    fn references(&self) -> u32 {
        self.view.problem().references.len() as u32
    }

    fn find(&self, _alloc: Global, r: u32, a: u64) -> Result<Option<Rule>, AllocError> {
        let range = self.view.problem().reference(r).range;
        if !self.kind.has_end(range) {
            return Ok(None);
        }
        if !self.can_begin(r, a) {
            return Ok(None);
        }
        Ok(self.first_in_row(r, a))
    }
}

/// The least rule of a kind that fires.
pub fn least_of<F: Facts>(
    alloc: Global,
    view: &F,
    kind: Kind,
    marks: &mut Marks,
) -> Result<Option<Rule>, AllocError>
    requires { let p = F.problem view.now in
        let s = F.state view.now in
        CoversEdges (length p.references) (length s.objects) (first_in_row p s kind) marks.old }
    ensures least { let p = F.problem view.now in
        let s = F.state view.now in
        IfOk result (λ rule. rule ≡ least_of_edges p s (first_in_row p s kind)) }
    ensures covers { let p = F.problem view.now in
        let s = F.state view.now in
        CoversEdges (length p.references) (length s.objects) (first_in_row p s kind) marks.new }
{
    rf_pending::least_of_edges(alloc, &Edges { view, kind }, marks)
}
