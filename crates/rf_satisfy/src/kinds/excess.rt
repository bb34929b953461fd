//! The first tuple at which a symbol holds, though what is asserted isn't satisfied by that.
//!
//! What holds is gone over, not all tuples: the nodes of a class, the edges of a reference, and of a
//! predicate what can make it hold.

ghost use Rattle.std.specs.Prelude.{◌≡◌, ◌<◌, ◌&&◌, ◌∷◌, [], IfOk, IsTrue, length, slice_index};
ghost use Rattle.rf_problem.specs.Parts.{arity_of};
ghost use Rattle.rf_problem.specs.declared.symbol.Symbol.TheVariants.{Class, Predicate, Reference};
ghost use Rattle.rf_graph.specs.Graph.{FitsEdge, size_of};
ghost use Rattle.rf_evaluate.specs.Kept.{AreKept};
ghost use Rattle.rf_evaluate.specs.Known.{declares};
ghost use Rattle.rf_satisfy.specs.Edges.{is_edge};
ghost use Rattle.rf_satisfy.specs.GraphKnown.{graph_known};
ghost use Rattle.rf_satisfy.specs.Suspects.{is_denied_at, is_denied_tuple, is_excess};
ghost use Rattle.rf_satisfy.specs.Tuples.{IsFirst};

use crate::index::graph_index::GraphIndex;
use crate::kinds::suspects::is_denied_at;
use rf_evaluate::{Closures, TupleTest, first_tuple};
use rf_finite::{Rule, earlier, first_found};
use rf_graph::Edge;
use rf_problem::Symbol;
use rf_values::Tuple;
use std::alloc::AllocError;

/// The rule that a node has a class only where that satisfies what is asserted.
#[derive(Drop)]
struct ClassRule<'a> {
    index: &'a GraphIndex<'a>,
    class: u32,
    ghost declared: { class < length index.now.problem.classes },
}

impl Rule<Tuple> for ClassRule<'_> {
    ghost use Rattle.std.specs.Bool.{then_some};
    ghost use Rattle.std.specs.Prelude.{◌∷◌, []};
    ghost use Rattle.rf_problem.specs.declared.symbol.Symbol.TheVariants.{Class};
    ghost use Rattle.rf_graph.specs.Graph.{size_of};
    ghost use Rattle.rf_satisfy.specs.Suspects.{is_excess};

    ghost bound = { λ s. size_of s.index.now.graph };

    ghost found = { λ s x. then_some (is_excess s.index.now.problem s.index.now.graph (Class s.class) (x ∷ [])) (x ∷ []) };

    fn bound(&self) -> u64 {
        self.index.size()
    }

    fn find(&self, x: u64) -> Option<Tuple> {
        let symbol = Symbol::Class(self.class);
        if self.index.has_class(self.class, x) && is_denied_at(self.index, symbol, &[x]) {
            Some(Tuple::of(&[x]))
        } else {
            None
        }
    }
}

/// The ends of an edge, where it is of a reference and what is asserted isn't satisfied by it.
fn denied_ends(index: &GraphIndex<'_>, reference: u32, edge: Edge) -> Option<Tuple>
    requires fits { FitsEdge index.now.problem (size_of index.now.graph) edge }
    ensures { IsFirst (size_of index.now.graph) 2 (λ t.
        is_edge reference (slice_index t 0) (slice_index t 1) edge
        && is_denied_at index.now.problem index.now.graph (Reference reference) t) result }
{
    let ends = [edge.from, edge.to];
    if edge.reference == reference && is_denied_at(index, Symbol::Reference(reference), &ends) {
        return Some(Tuple::of(&ends));
    }
    None
}

/// The first ends of an edge of a reference by which what is asserted isn't satisfied. Each edge is
/// tried once.
fn first_edge(index: &GraphIndex<'_>, reference: u32) -> Option<Tuple>
    ensures { IsFirst (size_of index.now.graph) 2 (is_excess index.now.problem index.now.graph (Reference reference)) result }
{
    let mut first = None;
    for edge in index.graph().edges.iter() {
        first = earlier(first, denied_ends(index, reference, *edge));
    }
    first
}

/// The test whether what is asserted isn't satisfied where a predicate holds.
#[derive(Drop)]
struct Denied<'a> {
    index: &'a GraphIndex<'a>,
    predicate: u32,
    ghost declared: { predicate < length index.now.problem.predicates },
}

impl TupleTest for Denied<'_> {
    ghost use Rattle.rf_problem.specs.Parts.{arity_of};
    ghost use Rattle.rf_problem.specs.declared.symbol.Symbol.TheVariants.{Predicate};
    ghost use Rattle.rf_satisfy.specs.Suspects.{is_denied_tuple};

    ghost passes = { λ s t. is_denied_tuple s.index.now.problem s.index.now.graph (Predicate s.predicate)
        (arity_of s.index.now.problem.predicates (Predicate s.predicate)) t };

    fn passes(&self, tuple: &[u64]) -> bool {
        let arity = self.index.problem().predicate(self.predicate).arity as usize;
        tuple.len() == arity && is_denied_at(self.index, Symbol::Predicate(self.predicate), tuple)
    }
}

/// The first tuple at which a symbol holds, though what is asserted isn't satisfied by that.
pub fn first_excess(
    index: &GraphIndex<'_>,
    closures: &mut Closures,
    symbol: Symbol,
) -> Result<Option<Tuple>, AllocError>
    requires declared { IsTrue (declares index.now.problem symbol) }
    requires kept { AreKept (graph_known index.now.problem index.now.graph) closures.old }
    ensures kept { AreKept (graph_known index.now.problem index.now.graph) closures.new }
    ensures first { IfOk result (IsFirst (size_of index.now.graph) (arity_of index.now.problem.predicates symbol)
        (is_excess index.now.problem index.now.graph symbol)) }
{
    match symbol {
        Symbol::Class(class) => Ok(first_found(&ClassRule { index, class })),
        Symbol::Reference(reference) => Ok(first_edge(index, reference)),
        Symbol::Predicate(predicate) => first_denied(index, closures, predicate),
        Symbol::Exists | Symbol::Equals => Ok(None),
    }
}

/// The same for a predicate.
fn first_denied(
    index: &GraphIndex<'_>,
    closures: &mut Closures,
    predicate: u32,
) -> Result<Option<Tuple>, AllocError>
    requires declared { predicate < length index.now.problem.predicates }
    requires kept { AreKept (graph_known index.now.problem index.now.graph) closures.old }
    ensures kept { AreKept (graph_known index.now.problem index.now.graph) closures.new }
    ensures first { IfOk result (IsFirst (size_of index.now.graph) (arity_of index.now.problem.predicates (Predicate predicate))
        (is_excess index.now.problem index.now.graph (Predicate predicate))) }
{
    first_tuple(index, closures, predicate, &Denied { index, predicate })
}
