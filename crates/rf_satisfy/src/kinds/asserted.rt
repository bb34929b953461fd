//! The first tuple of nodes at which what is asserted of a symbol isn't satisfied.
//!
//! A tuple is tried only where the symbol holds (`excess`), where an assertion wants it to hold, at the
//! nodes whose origins match its arguments, and of an enum at the nodes of its literals.

ghost use Rattle.std.specs.Prelude.{◌≡◌, ◌<◌, ◌≤◌, ℕ, IfOk, IsTrue, List, false, length};
ghost use Rattle.std.specs.List.{list_any};
ghost use Rattle.rf_problem.specs.Asserted.{is_literal_of};
ghost use Rattle.rf_problem.specs.Parts.{arity_of, object_at};
ghost use Rattle.rf_graph.specs.First.{first_asserted, first_broken};
ghost use Rattle.rf_graph.specs.Graph.{size_of};
ghost use Rattle.rf_evaluate.specs.Kept.{AreKept};
ghost use Rattle.rf_evaluate.specs.Known.{declares};
ghost use Rattle.rf_satisfy.specs.GraphKnown.{graph_known};
ghost use Rattle.rf_satisfy.specs.SymbolKinds.{AreNumbered, count_of, first_of_kind, number_of, symbol_of};
ghost use Rattle.rf_satisfy.specs.Suspects.{assertion_at, is_broken, is_error_symbol, is_excess, is_lack_by, is_stray, is_stray_from, is_suspect, is_unwritten_at, speaks_at};
ghost use Rattle.rf_satisfy.specs.Tuples.{ArePassing, IsFirst};

use crate::index::graph_index::GraphIndex;
use crate::index::node_lists::{no_rows, put};
use crate::kinds::excess::first_excess;
use crate::kinds::suspects::{breaks, first_from};
use rf_evaluate::Closures;
use rf_finite::earlier;
use rf_graph::Violation;
use rf_problem::{Assertion, ObjectKind, Problem, Symbol};
use rf_values::{Truth, Tuple};
use std::alloc::{AllocError, Global};

/// The first tuple whose origins match the arguments, at which neither this value nor what is
/// asserted altogether is satisfied.
fn first_suspect(
    index: &GraphIndex<'_>,
    closures: &mut Closures,
    symbol: Symbol,
    args: &[Option<u64>],
    value: Truth,
) -> Result<Option<Tuple>, AllocError>
    requires declared { IsTrue (declares index.now.problem symbol) }
    requires arity { length args.now ≡ arity_of index.now.problem.predicates symbol }
    requires few { length args.now ≤ 4 }
    requires kept { AreKept (graph_known index.now.problem index.now.graph) closures.old }
    ensures kept { AreKept (graph_known index.now.problem index.now.graph) closures.new }
    ensures first { IfOk result (λ t.
        IsFirst (size_of index.now.graph) (arity_of index.now.problem.predicates symbol)
        (is_suspect index.now.problem index.now.graph symbol args.now value) t) }
{
    first_from(index, closures, symbol, args, value, Tuple::of(&[]))
}

/// Whether an object is a literal of the enum of this number.
fn is_literal_of(index: &GraphIndex<'_>, object: u64, class: u32) -> bool
    requires { object < length index.now.problem.objects }
    ensures { result ≡ is_literal_of (object_at index.now.problem.objects object).kind class }
{
    match index.problem().object(object).kind {
        ObjectKind::LiteralOf(own) => own == class,
        ObjectKind::Plain | ObjectKind::Atom => false,
    }
}

/// The first node of an object, where that is a literal of the class, that hasn't the class, and at
/// which what is asserted of the class isn't satisfied.
fn first_of_literal(
    index: &GraphIndex<'_>,
    closures: &mut Closures,
    class: u32,
    object: u64,
) -> Result<Option<Tuple>, AllocError>
    requires declared { class < length index.now.problem.classes }
    requires object { object < length index.now.problem.objects }
    requires kept { AreKept (graph_known index.now.problem index.now.graph) closures.old }
    ensures kept { AreKept (graph_known index.now.problem index.now.graph) closures.new }
    ensures first { IfOk result (λ t. IsFirst (size_of index.now.graph) 1
        (is_stray_from index.now.problem index.now.graph class object) t) }
{
    if !is_literal_of(index, object, class) {
        return Ok(None);
    }
    first_suspect(
        index,
        closures,
        Symbol::Class(class),
        &[Some(object)],
        Truth::True,
    )
}

/// The first node of a literal of the class, where that is an enum, that hasn't the class, and at which
/// what is asserted of the class isn't satisfied.
fn first_literal(
    index: &GraphIndex<'_>,
    closures: &mut Closures,
    class: u32,
) -> Result<Option<Tuple>, AllocError>
    requires declared { class < length index.now.problem.classes }
    requires kept { AreKept (graph_known index.now.problem index.now.graph) closures.old }
    ensures kept { AreKept (graph_known index.now.problem index.now.graph) closures.new }
    ensures first { IfOk result (λ t.
        IsFirst (size_of index.now.graph) 1
        (is_unwritten_at index.now.problem index.now.graph (Symbol.Class class)) t) }
{
    let mut first = None;
    for object in 0..index.objects() {
        first = earlier(first, first_of_literal(index, closures, class, object)?);
    }
    Ok(first)
}

/// The same where the symbol is a class.
fn first_stray(
    index: &GraphIndex<'_>,
    closures: &mut Closures,
    symbol: Symbol,
) -> Result<Option<Tuple>, AllocError>
    requires declared { IsTrue (declares index.now.problem symbol) }
    requires kept { AreKept (graph_known index.now.problem index.now.graph) closures.old }
    ensures kept { AreKept (graph_known index.now.problem index.now.graph) closures.new }
    ensures first { IfOk result (λ t.
        IsFirst (size_of index.now.graph) (arity_of index.now.problem.predicates symbol)
        (is_stray index.now.problem index.now.graph symbol) t) }
{
    match symbol {
        Symbol::Class(class) => first_literal(index, closures, class),
        _ => Ok(None),
    }
}

/// Whether a predicate is one, and must hold nowhere.
fn is_error(index: &GraphIndex<'_>, symbol: Symbol) -> bool
    requires declared { IsTrue (declares index.now.problem symbol) }
    ensures { result ≡ is_error_symbol index.now.problem symbol }
{
    match symbol {
        Symbol::Predicate(predicate) => index.problem().predicate(predicate).is_error,
        _ => false,
    }
}

/// Whether an assertion of the symbol, written or not, may be broken where the symbol holds. The
/// numbers are those of the assertions that speak of it.
fn is_denied(index: &GraphIndex<'_>, symbol: Symbol, numbers: &[u64]) -> bool
    requires declared { IsTrue (declares index.now.problem symbol) }
    requires numbers { ArePassing (length index.now.problem.assertions) (speaks_at index.now.problem symbol) numbers.now }
    ensures { result ≡ false → (t : List ℕ) → is_excess index.now.problem index.now.graph symbol t ≡ false }
{
    if is_error(index, symbol) {
        return true;
    }
    for number in numbers {
        if breaks(
            index.problem().assertions.as_slice()[*number as usize].value,
            true,
        ) {
            return true;
        }
    }
    false
}

/// The first tuple at which a symbol holds, though what is asserted isn't satisfied by that.
fn first_denied(
    index: &GraphIndex<'_>,
    closures: &mut Closures,
    symbol: Symbol,
    numbers: &[u64],
) -> Result<Option<Tuple>, AllocError>
    requires declared { IsTrue (declares index.now.problem symbol) }
    requires numbers { ArePassing (length index.now.problem.assertions) (speaks_at index.now.problem symbol) numbers.now }
    requires kept { AreKept (graph_known index.now.problem index.now.graph) closures.old }
    ensures kept { AreKept (graph_known index.now.problem index.now.graph) closures.new }
    ensures first { IfOk result (IsFirst (size_of index.now.graph) (arity_of index.now.problem.predicates symbol)
        (is_excess index.now.problem index.now.graph symbol)) }
{
    if is_denied(index, symbol, numbers) {
        first_excess(index, closures, symbol)
    } else {
        Ok(None)
    }
}

/// The first tuple at which an assertion isn't satisfied that wants the symbol to hold there.
fn first_wanted(
    index: &GraphIndex<'_>,
    closures: &mut Closures,
    symbol: Symbol,
    assertion: &Assertion,
) -> Result<Option<Tuple>, AllocError>
    requires declared { IsTrue (declares index.now.problem symbol) }
    requires arity { length assertion.now.args ≡ arity_of index.now.problem.predicates symbol }
    requires few { length assertion.now.args ≤ 4 }
    requires kept { AreKept (graph_known index.now.problem index.now.graph) closures.old }
    ensures kept { AreKept (graph_known index.now.problem index.now.graph) closures.new }
    ensures first { IfOk result (λ t.
        IsFirst (size_of index.now.graph) (arity_of index.now.problem.predicates symbol)
        (λ u. is_lack_by index.now.problem index.now.graph symbol u assertion.now) t) }
{
    if !breaks(assertion.value, false) {
        return Ok(None);
    }
    first_suspect(
        index,
        closures,
        symbol,
        assertion.args.as_slice(),
        assertion.value,
    )
}

/// The first tuple at which one of the assertions isn't satisfied that want the symbol to hold.
fn first_lack(
    index: &GraphIndex<'_>,
    closures: &mut Closures,
    symbol: Symbol,
    numbers: &[u64],
) -> Result<Option<Tuple>, AllocError>
    requires declared { IsTrue (declares index.now.problem symbol) }
    requires numbers { ArePassing (length index.now.problem.assertions) (speaks_at index.now.problem symbol) numbers.now }
    requires kept { AreKept (graph_known index.now.problem index.now.graph) closures.old }
    ensures kept { AreKept (graph_known index.now.problem index.now.graph) closures.new }
    ensures first { IfOk result (λ t.
        IsFirst (size_of index.now.graph) (arity_of index.now.problem.predicates symbol)
        (λ u. list_any (λ i. is_lack_by index.now.problem index.now.graph symbol u (assertion_at index.now.problem symbol i)) numbers.now) t) }
{
    let mut first = None;
    for number in numbers {
        let assertion = &index.problem().assertions.as_slice()[*number as usize];
        first = earlier(first, first_wanted(index, closures, symbol, assertion)?);
    }
    Ok(first)
}

/// The first tuple at which what is asserted of a symbol isn't satisfied.
fn broken_tuple(
    index: &GraphIndex<'_>,
    closures: &mut Closures,
    symbol: Symbol,
    numbers: &[u64],
) -> Result<Option<Tuple>, AllocError>
    requires declared { IsTrue (declares index.now.problem symbol) }
    requires numbers { ArePassing (length index.now.problem.assertions) (speaks_at index.now.problem symbol) numbers.now }
    requires kept { AreKept (graph_known index.now.problem index.now.graph) closures.old }
    ensures kept { AreKept (graph_known index.now.problem index.now.graph) closures.new }
    ensures first { IfOk result (λ t.
        IsFirst (size_of index.now.graph) (arity_of index.now.problem.predicates symbol)
        (is_broken index.now.problem index.now.graph symbol) t) }
{
    let denied = first_denied(index, closures, symbol, numbers)?;
    let stray = first_stray(index, closures, symbol)?;
    let lack = first_lack(index, closures, symbol, numbers)?;
    Ok(earlier(denied, earlier(stray, lack)))
}

fn first_broken(
    index: &GraphIndex<'_>,
    closures: &mut Closures,
    symbol: Symbol,
    numbers: &[u64],
) -> Result<Option<Violation>, AllocError>
    requires declared { IsTrue (declares index.now.problem symbol) }
    requires numbers { ArePassing (length index.now.problem.assertions) (speaks_at index.now.problem symbol) numbers.now }
    requires kept { AreKept (graph_known index.now.problem index.now.graph) closures.old }
    ensures kept { AreKept (graph_known index.now.problem index.now.graph) closures.new }
    ensures first { IfOk result (λ v. v ≡ first_broken index.now.problem index.now.graph symbol) }
{
    match broken_tuple(index, closures, symbol, numbers)? {
        Some(tuple) => Ok(Some(Violation::Asserted(symbol, tuple))),
        None => Ok(None),
    }
}

/// The symbols of which something is asserted of nodes, kind by kind.
#[derive(Clone, Copy)]
enum SymbolKind {
    Classes,
    References,
    Predicates,
}

/// How many symbols of a kind the problem declares.
fn count_of(problem: &Problem, kind: SymbolKind) -> usize
    ensures { result ≡ count_of problem.now kind }
{
    match kind {
        SymbolKind::Classes => problem.classes.as_slice().len(),
        SymbolKind::References => problem.references.len(),
        SymbolKind::Predicates => problem.predicates.len(),
    }
}

/// The symbol of a kind that has this number.
fn symbol_of(kind: SymbolKind, number: u32) -> Symbol
    ensures { result ≡ symbol_of kind number }
{
    match kind {
        SymbolKind::Classes => Symbol::Class(number),
        SymbolKind::References => Symbol::Reference(number),
        SymbolKind::Predicates => Symbol::Predicate(number),
    }
}

/// The number of a symbol, where it is of this kind.
fn number_of(kind: SymbolKind, symbol: Symbol) -> Option<u32>
    ensures { result ≡ number_of kind symbol }
{
    match (kind, symbol) {
        (SymbolKind::Classes, Symbol::Class(number)) => Some(number),
        (SymbolKind::References, Symbol::Reference(number)) => Some(number),
        (SymbolKind::Predicates, Symbol::Predicate(number)) => Some(number),
        _ => None,
    }
}

/// For each symbol of a kind the numbers of the assertions that speak of it, in one pass over them.
fn numbers_by_symbol(
    alloc: Global,
    problem: &Problem,
    kind: SymbolKind,
) -> Result<Vec<Vec<u64>>, AllocError>
    ensures { IfOk result (λ rows. AreNumbered problem.now kind (length problem.now.assertions) rows.items) }
{
    let mut rows = no_rows(alloc, count_of(problem, kind))?;
    for i in 0..problem.assertions.as_slice().len() {
        match number_of(kind, problem.assertions.as_slice()[i].symbol) {
            Some(number) => put(&mut rows, number as usize, i as u64)?,
            None => {}
        }
    }
    Ok(rows)
}

/// The first tuple at which what is asserted of a symbol of this kind isn't satisfied.
fn first_of_kind(
    alloc: Global,
    index: &GraphIndex<'_>,
    closures: &mut Closures,
    kind: SymbolKind,
) -> Result<Option<Violation>, AllocError>
    requires kept { AreKept (graph_known index.now.problem index.now.graph) closures.old }
    ensures kept { AreKept (graph_known index.now.problem index.now.graph) closures.new }
    ensures first { IfOk result (λ v. v ≡ first_of_kind index.now.problem index.now.graph kind) }
{
    let rows = numbers_by_symbol(alloc, index.problem(), kind)?;
    for number in 0..rows.len() {
        let symbol = symbol_of(kind, number as u32);
        let first = first_broken(index, closures, symbol, rows[number].as_slice())?;
        if first.is_some() {
            return Ok(first);
        }
    }
    Ok(None)
}

/// The first tuple of nodes at which what is asserted of a symbol isn't satisfied: of the classes, then of
/// the references, then of the predicates.
pub fn first_asserted(
    alloc: Global,
    index: &GraphIndex<'_>,
) -> Result<Option<Violation>, AllocError>
    ensures { IfOk result (λ v. v ≡ first_asserted index.now.problem index.now.graph) }
{
    let mut closures = Closures::new(alloc);
    let class = first_of_kind(alloc, index, &mut closures, SymbolKind::Classes)?;
    if class.is_some() {
        return Ok(class);
    }
    let reference = first_of_kind(alloc, index, &mut closures, SymbolKind::References)?;
    if reference.is_some() {
        return Ok(reference);
    }
    first_of_kind(alloc, index, &mut closures, SymbolKind::Predicates)
}
