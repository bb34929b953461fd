//! Which variable gets its element next, and which elements come into question for it.

ghost use Rattle.std.specs.Prelude.{◌≡◌, ◌<◌, ℕ, IfSome, IsTrue, None, false, true, length, slice_index_or};
ghost use Rattle.rf_evaluate.specs.Evaluating.{AreCandidates, IsSoundBody, standing};
ghost use Rattle.rf_evaluate.specs.Known.{declares};
ghost use Rattle.rf_evaluate.specs.Narrowing.{AwaitsElement, IsAnchor, IsOnlyElement, Narrows, declares_called};

use crate::assignment::element_of;
use crate::elements::Elements;
use crate::knowledge::Knowledge;
use crate::stage::{Body, Stage};
use rf_problem::{Literal, Symbol, Term};

/// A variable, and the elements outside of which the literals that are left can't hold.
#[derive(Clone, Copy)]
pub struct Next<'k> {
    pub variable: usize,
    pub elements: Elements<'k>,
}

/// The only element that comes from an atom, where one alone is listed.
fn only_element<K: Knowledge>(known: &K, atom: u64) -> Option<u64>
    ensures { IfSome result (IsOnlyElement (K.known known.now) atom) }
{
    match known.from_object(atom) {
        Elements::Below(_) => None,
        Elements::Listed(items) => {
            if items.len() == 1 {
                Some(items[0])
            } else {
                None
            }
        }
    }
}

/// The element that a term stands for, if it is known.
fn anchor<K: Knowledge>(known: &K, stage: &Stage, term: Term) -> Option<u64>
    ensures { IfSome result (IsAnchor (K.known known.now) stage.now term) }
{
    match term {
        Term::Var(v) => match stage.unassigned.get(v as usize) {
            Some(is_unassigned) => {
                if *is_unassigned {
                    None
                } else {
                    Some(element_of(stage.elements, v))
                }
            }
            None => None,
        },
        Term::Atom(atom) => only_element(known, atom),
    }
}

/// The number of a variable below `end` that is to get its element.
fn unassigned_variable(stage: &Stage, term: Term, end: usize) -> Option<usize>
    ensures { IfSome result (AwaitsElement stage.now term) }
{
    match term {
        Term::Var(v) => match stage.unassigned.get(v as usize) {
            Some(is_unassigned) => {
                if *is_unassigned && (v as usize) < end {
                    Some(v as usize)
                } else {
                    None
                }
            }
            None => None,
        },
        Term::Atom(_) => None,
    }
}

/// The elements, where they are listed.
fn listed<'k>(variable: usize, elements: Elements<'k>) -> Option<Next<'k>>
    ensures variable { IfSome result (λ next. next.variable ≡ variable) }
    ensures elements { IfSome result (λ next. next.elements ≡ elements.entry) }
{
    match elements {
        Elements::Below(_) => None,
        Elements::Listed(_) => Some(Next { variable, elements }),
    }
}

/// The variable below `end` that is one term, where it is to get its element, and the element that
/// another term stands for, where it is known.
fn ends<K: Knowledge>(
    known: &K,
    stage: &Stage,
    variable: Term,
    other: Term,
    end: usize,
) -> Option<(usize, u64)>
    ensures variable { IfSome result (λ ends. AwaitsElement stage.now variable ends.0) }
    ensures other { IfSome result (λ ends. IsAnchor (K.known known.now) stage.now other ends.1) }
{
    let v = unassigned_variable(stage, variable, end)?;
    let x = anchor(known, stage, other)?;
    Some((v, x))
}

/// A variable below `end` at one end of an edge of a reference, whose other end is known.
fn along_edge<'k, K: Knowledge>(
    known: &'k K,
    stage: &Stage,
    reference: u32,
    args: &[Term],
    end: usize,
) -> Option<Next<'k>>
    requires { reference < length (K.known known.now).problem.references }
    ensures { IfSome result (λ next. Narrows (K.known known.now) stage.now
        (Literal.Call false false (Symbol.Reference reference) args.now) next.variable next.elements) }
{
    if args.len() != 2 {
        return None;
    }
    if let Some((v, x)) = ends(known, stage, args[1], args[0], end) {
        return listed(v, known.ends_from(reference, x));
    }
    let (v, x) = ends(known, stage, args[0], args[1], end)?;
    listed(v, known.ends_into(reference, x))
}

/// The same for a symbol, where it is a reference.
fn along_symbol<'k, K: Knowledge>(
    known: &'k K,
    stage: &Stage,
    symbol: Symbol,
    args: &[Term],
    end: usize,
) -> Option<Next<'k>>
    requires { IsTrue (declares (K.known known.now).problem symbol) }
    ensures { IfSome result (λ next. Narrows (K.known known.now) stage.now
        (Literal.Call false false symbol args.now) next.variable next.elements) }
{
    match symbol {
        Symbol::Reference(r) => along_edge(known, stage, r, args, end),
        _ => None,
    }
}

/// The same for a literal, where it asks for an edge.
fn along_literal<'k, K: Knowledge>(
    known: &'k K,
    stage: &Stage,
    literal: &Literal,
    is_inner: bool,
    end: usize,
) -> Option<Next<'k>>
    requires { IsTrue (declares_called (K.known known.now).problem literal.now) }
    ensures { IfSome result (λ next. Narrows (K.known known.now) stage.now
        (standing is_inner literal.now) next.variable next.elements) }
{
    match literal {
        Literal::Call {
            negated,
            closure,
            symbol,
            args,
        } => {
            if *closure || (*negated && !is_inner) {
                return None;
            }
            along_symbol(known, stage, *symbol, args.as_slice(), end)
        }
        _ => None,
    }
}

/// A variable below `end` for which some literal lists elements.
fn listed_below<'k, K: Knowledge>(
    known: &'k K,
    body: &Body<'_>,
    stage: &Stage,
    end: usize,
) -> Option<Next<'k>>
    requires { IsSoundBody (K.known known.now) body.now }
    ensures { IfSome result (λ next. AreCandidates (K.known known.now) body.now stage.now next.variable next.elements) }
{
    for (i, literal) in body.literals.iter().enumerate() {
        if stage.pending[i] {
            let next = along_literal(known, stage, literal, body.is_inner, end);
            if next.is_some() {
                return next;
            }
        }
    }
    None
}

/// The first variable that is to get its element.
fn first_unassigned(stage: &Stage) -> Option<usize>
    ensures few { IfSome result (λ v. v < 8) }
    ensures unassigned { IfSome result (λ v. slice_index_or stage.now.unassigned v false ≡ true) }
    ensures none { result ≡ None → (v : ℕ) → v < 8 → slice_index_or stage.now.unassigned v false ≡ false }
{
    for v in 0..8 {
        if stage.unassigned[v] {
            return Some(v);
        }
    }
    None
}

/// The variable that gets its element next, if there is one: a parameter for which some literal lists
/// elements, else a variable for which one does, else the first.
pub fn next_variable<'k, K: Knowledge>(
    known: &'k K,
    body: &Body<'_>,
    stage: &Stage,
    arity: usize,
) -> Option<Next<'k>>
    requires { IsSoundBody (K.known known.now) body.now }
    ensures candidates { IfSome result (λ next. AreCandidates (K.known known.now) body.now stage.now next.variable next.elements) }
    ensures none { result ≡ None → (v : ℕ) → v < 8 → slice_index_or stage.now.unassigned v false ≡ false }
{
    let parameter = listed_below(known, body, stage, arity);
    if parameter.is_some() {
        return parameter;
    }
    let variable = listed_below(known, body, stage, 8);
    if variable.is_some() {
        return variable;
    }
    let variable = first_unassigned(stage)?;
    Some(Next {
        variable,
        elements: Elements::Below(known.size()),
    })
}
