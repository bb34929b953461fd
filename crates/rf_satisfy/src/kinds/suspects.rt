//! The first tuple of nodes whose origins match arguments, at which neither a value that is stated nor
//! what is asserted altogether is satisfied.

ghost use Rattle.std.specs.Prelude.{◌≡◌, ◌-◌, ◌<◌, ◌≤◌, ◌&&◌, ℕ, All, IfOk, IsTrue, true, length, map, take};
ghost use Rattle.rf_problem.specs.Asserted.{asserted, match_each, matches};
ghost use Rattle.rf_problem.specs.Parts.{arity_of};
ghost use Rattle.rf_graph.specs.Evaluate.{holds};
ghost use Rattle.rf_graph.specs.First.{breaks};
ghost use Rattle.rf_graph.specs.Graph.{origin_of, size_of};
ghost use Rattle.rf_evaluate.specs.Kept.{AreKept};
ghost use Rattle.rf_evaluate.specs.Known.{declares};
ghost use Rattle.rf_satisfy.specs.GraphKnown.{graph_known};
ghost use Rattle.rf_satisfy.specs.Suspects.{is_broken, is_denied_at, is_suspect};
ghost use Rattle.rf_satisfy.specs.Tuples.{ArePassing, first_passing};

use crate::index::graph_index::GraphIndex;
use crate::kinds::nodes::origin_of;
use rf_evaluate::{Closures, value};
use rf_problem::Symbol;
use rf_values::{Truth, Tuple};
use std::alloc::AllocError;

pub fn breaks(value: Truth, holds: bool) -> bool
    ensures { result ≡ breaks value holds }
{
    match value {
        Truth::True => !holds,
        Truth::False => holds,
        Truth::Unknown => false,
        Truth::Error => true,
    }
}

/// The objects that the nodes of a tuple come from.
fn origins(index: &GraphIndex<'_>, tuple: &[u64]) -> Tuple
    requires { length tuple.now ≤ 4 }
    ensures { result ≡ map (origin_of index.now.graph) tuple.now }
{
    let mut objects = Tuple::of(&[]);
    for x in tuple {
        objects = objects.with(origin_of(index.graph(), *x));
    }
    objects
}

/// What is asserted of a symbol at the objects that the nodes of a tuple come from.
fn asserted_at(index: &GraphIndex<'_>, symbol: Symbol, tuple: &[u64]) -> Truth
    requires arity { length tuple.now ≡ arity_of index.now.problem.predicates symbol }
    requires few { length tuple.now ≤ 4 }
    ensures { result ≡ asserted index.now.problem symbol (map (origin_of index.now.graph) tuple.now) }
{
    let objects = origins(index, tuple);
    index.problem().asserted(symbol, objects.as_slice())
}

/// Whether what is asserted of a symbol isn't satisfied where it holds at a tuple.
pub fn is_denied_at(index: &GraphIndex<'_>, symbol: Symbol, tuple: &[u64]) -> bool
    requires arity { length tuple.now ≡ arity_of index.now.problem.predicates symbol }
    requires few { length tuple.now ≤ 4 }
    ensures { result ≡ is_denied_at index.now.problem index.now.graph symbol tuple.now }
{
    breaks(asserted_at(index, symbol, tuple), true)
}

/// Whether a symbol holds at a tuple.
fn holds(
    index: &GraphIndex<'_>,
    closures: &mut Closures,
    symbol: Symbol,
    tuple: &[u64],
) -> Result<bool, AllocError>
    requires declared { IsTrue (declares index.now.problem symbol) }
    requires arity { length tuple.now ≡ arity_of index.now.problem.predicates symbol }
    requires nodes { All (λ x. x < size_of index.now.graph) tuple.now }
    requires kept { AreKept (graph_known index.now.problem index.now.graph) closures.old }
    ensures kept { AreKept (graph_known index.now.problem index.now.graph) closures.new }
    ensures value { IfOk result (λ b. b ≡ holds index.now.problem index.now.graph symbol tuple.now) }
{
    Ok(value(index, closures, symbol, tuple)?.must())
}

/// Whether neither a value that is stated nor what is asserted altogether is satisfied at a tuple.
fn is_unsatisfied(
    index: &GraphIndex<'_>,
    closures: &mut Closures,
    symbol: Symbol,
    value: Truth,
    tuple: &[u64],
) -> Result<bool, AllocError>
    requires declared { IsTrue (declares index.now.problem symbol) }
    requires arity { length tuple.now ≡ arity_of index.now.problem.predicates symbol }
    requires few { length tuple.now ≤ 4 }
    requires nodes { All (λ x. x < size_of index.now.graph) tuple.now }
    requires kept { AreKept (graph_known index.now.problem index.now.graph) closures.old }
    ensures kept { AreKept (graph_known index.now.problem index.now.graph) closures.new }
    ensures value { IfOk result (λ b.
        b ≡ (breaks value (holds index.now.problem index.now.graph symbol tuple.now) && is_broken
        index.now.problem index.now.graph symbol tuple.now)) }
{
    let holds = holds(index, closures, symbol, tuple)?;
    if !breaks(value, holds) {
        return Ok(false);
    }
    Ok(breaks(asserted_at(index, symbol, tuple), holds))
}

/// The first tuple that goes on with these nodes, whose origins match the arguments, at which neither
/// this value nor what is asserted altogether is satisfied.
#[cycle(search)]
pub fn first_from(
    index: &GraphIndex<'_>,
    closures: &mut Closures,
    symbol: Symbol,
    args: &[Option<u64>],
    value: Truth,
    prefix: Tuple,
) -> Result<Option<Tuple>, AllocError>
    requires declared { IsTrue (declares index.now.problem symbol) }
    requires arity { length args.now ≡ arity_of index.now.problem.predicates symbol }
    requires few { length args.now ≤ 4 }
    requires short { length prefix ≤ length args.now }
    requires nodes { All (λ x. x < size_of index.now.graph) prefix }
    requires matched { match_each (take (length prefix) args.now) (map (origin_of index.now.graph) prefix) ≡ true }
    requires kept { AreKept (graph_known index.now.problem index.now.graph) closures.old }
    ensures kept { AreKept (graph_known index.now.problem index.now.graph) closures.new }
    ensures value { IfOk result (λ t.
        t ≡ first_passing (size_of index.now.graph) (length args.now - length prefix) prefix
        (is_suspect index.now.problem index.now.graph symbol args.now value)) }
{
    let position = prefix.as_slice().len();
    if position == args.len() {
        let found = is_unsatisfied(index, closures, symbol, value, prefix.as_slice())?;
        return Ok(if found { Some(prefix) } else { None });
    }
    for x in index.nodes_matching(args[position]) {
        let first = first_from(index, closures, symbol, args, value, prefix.with(*x))?;
        if first.is_some() {
            return Ok(first);
        }
    }
    Ok(None)
}
