//! Cells for the edges of an object that comes after the others.

ghost use Rattle.std.specs.Prelude.{◌≡◌, ◌<◌, length, IfSome, if◌then◌else◌, ◌==◌};
ghost use Rattle.rf_state.specs.State.{State, copied_from, told};
ghost use Rattle.rf_trail.specs.Trail.{items, kept};
ghost use Rattle.rf_mirror.specs.Mirror.{AreTold};
ghost use Rattle.rf_mirror.specs.Sources.{IsSource, StayTold};

use crate::cells::{MOST_OBJECTS, cell};
use crate::reading::told_at;
use rf_problem::{Problem, Symbol};
use rf_trail::Trail;
use rf_values::Truth;

/// How many cells there may be.
const MOST_CELLS: u64 = 4_194_304;

/// Where what is told of the edges of an object comes from.
#[derive(Clone, Copy)]
pub enum Source {
    /// From what is asserted: of an object of the same number of the problem, to which nothing was added.
    Asserted,
    /// From what is told of another object, of which this one is a fresh one.
    Copied { of: u64, number: u64 },
}

// The object whose edges an object has.
fn copied_from(of: u64, number: u64, x: u64) -> u64
    ensures { result ≡ copied_from of number x }
{
    if x == number { of } else { x }
}

impl Source {
    fn told(self, problem: &Problem, cells: &Trail<Truth>, r: u32, a: u64, b: u64) -> Option<Truth>
        requires { r < length problem.now.references }
        ensures { (s : State) → IsSource problem.now s self → AreTold problem.now s (items cells.now) → a < length s.objects
            → b < length s.objects → IfSome result (λ t. t ≡ told problem.now s r a b) }
    {
        match self {
            Source::Asserted => Some(problem.asserted(Symbol::Reference(r), &[a, b])),
            Source::Copied { of, number } => {
                let from = copied_from(of, number, a);
                let to = copied_from(of, number, b);
                told_at(problem, cells, r, from, to)
            }
        }
    }
}

// Adds the cell of an edge after the others, if it is the next and there is memory.
fn add_cell(problem: &Problem, cells: &mut Trail<Truth>, source: Source, r: u32, a: u64, b: u64)
    requires { r < length problem.now.references }
    ensures told { StayTold problem.now source a b (items cells.old) (items cells.new) }
    ensures kept { kept cells.new ≡ kept cells.old }
{
    let references = problem.references.len() as u32;
    let Some(k) = cell(references, r, a, b) else {
        return;
    };
    if k != cells.len() {
        return;
    }
    if let Some(told) = source.told(problem, cells, r, a, b) {
        let _added = cells.push(told).is_ok();
    }
}

// Adds the cells of a pair of objects.
fn add_pair(problem: &Problem, cells: &mut Trail<Truth>, source: Source, a: u64, b: u64)
    ensures told { StayTold problem.now source a b (items cells.old) (items cells.new) }
    ensures kept { kept cells.new ≡ kept cells.old }
{
    for r in 0..problem.references.len() as u32 {
        add_cell(problem, cells, source, r, a, b);
    }
}

// Adds the cells of the edges from an object to those before it.
fn add_onward(problem: &Problem, cells: &mut Trail<Truth>, source: Source, o: u64)
    ensures told { StayTold problem.now source o o (items cells.old) (items cells.new) }
    ensures kept { kept cells.new ≡ kept cells.old }
{
    for b in 0..o {
        add_pair(problem, cells, source, o, b);
    }
}

// Adds the cells of the edges to an object from those before it and from itself.
fn add_back(problem: &Problem, cells: &mut Trail<Truth>, source: Source, o: u64)
    ensures told { StayTold problem.now source o o (items cells.old) (items cells.new) }
    ensures kept { kept cells.new ≡ kept cells.old }
{
    for a in 0..o {
        add_pair(problem, cells, source, a, o);
    }
    add_pair(problem, cells, source, o, o);
}

// Whether the cells of an object come next, and are few enough.
fn is_next(references: u32, cells: &Trail<Truth>, o: u64) -> bool {
    let references = references as u64;
    o < MOST_OBJECTS
        && cells.len() as u64 == o * o * references
        && 0 < references
        && (o + 1) * (o + 1) * references <= MOST_CELLS
}

/// Adds the cells of the edges between an object and those before it and itself, if they come next, as far as there is
/// memory.
pub fn add_cells(problem: &Problem, cells: &mut Trail<Truth>, source: Source, o: u64)
    ensures told { StayTold problem.now source o o (items cells.old) (items cells.new) }
    ensures kept { kept cells.new ≡ kept cells.old }
{
    if is_next(problem.references.len() as u32, cells, o) {
        add_onward(problem, cells, source, o);
        add_back(problem, cells, source, o);
    }
}
