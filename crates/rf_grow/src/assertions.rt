//! What the problem says of its objects.

ghost use Rattle.std.specs.Prelude.{◌≡◌, ◌≤◌, IfOk, map};
ghost use Rattle.std.specs.List.{range_with_len};
ghost use Rattle.rf_grow.specs.Grown.{contains_part, denies_others, grown_assertions, last_is_open, leads_on, states};

use rf_problem::{Assertion, Symbol};
use rf_text::Items;
use rf_values::Truth;
use std::alloc::{AllocError, Global};

fn states(value: Truth, symbol: Symbol, args: Vec<Option<u64>>) -> Assertion
    ensures { result ≡ states value symbol args.items }
{
    Assertion {
        is_default: false,
        symbol,
        args: Items::from_vec(args),
        value,
    }
}

fn denies_others(alloc: Global, reference: u32) -> Result<Assertion, AllocError>
    ensures { IfOk result (λ a. a ≡ denies_others reference) }
{
    Ok(Assertion {
        is_default: true,
        symbol: Symbol::Reference(reference),
        args: Items::from_vec(vec![in alloc; None, None]?),
        value: Truth::False,
    })
}

fn contains_part(alloc: Global, k: u32) -> Result<Assertion, AllocError>
    ensures { IfOk result (λ a. a ≡ contains_part k) }
{
    let args = vec![in alloc; Some(0), Some(u64::from(k) + 1)]?;
    Ok(states(Truth::True, Symbol::Reference(0), args))
}

fn leads_on(alloc: Global, k: u32) -> Result<Assertion, AllocError>
    ensures { IfOk result (λ a. a ≡ leads_on k) }
{
    let args = vec![in alloc; Some(u64::from(k) + 1), Some(u64::from(k) + 2)]?;
    Ok(states(Truth::True, Symbol::Reference(1), args))
}

// That each part is one of the whole.
#[tactic(auto, using(crate::proofs::Rows::row_more))]
fn contained_parts(alloc: Global, n: u32) -> Result<Vec<Assertion>, AllocError>
    ensures { IfOk result (λ said. said.items ≡ map contains_part (range_with_len 0 n)) }
{
    let mut said = Vec::new(alloc);
    for k in 0..n {
        said.push(contains_part(alloc, k)?)?;
    }
    Ok(said)
}

// That these parts lead on.
#[tactic(auto, using(crate::proofs::Rows::row_more))]
fn row(alloc: Global, n: u32) -> Result<Vec<Assertion>, AllocError>
    ensures { IfOk result (λ said. said.items ≡ map leads_on (range_with_len 0 n)) }
{
    let mut said = Vec::new(alloc);
    for k in 0..n {
        said.push(leads_on(alloc, k)?)?;
    }
    Ok(said)
}

// That it isn't known where the last part leads.
fn last_is_open(alloc: Global, n: u32) -> Result<Assertion, AllocError>
    ensures { IfOk result (λ a. a ≡ last_is_open n) }
{
    let args = vec![in alloc; Some(u64::from(n)), None]?;
    Ok(states(Truth::Unknown, Symbol::Reference(1), args))
}

/// What is said of the whole and its parts.
pub fn assertions(alloc: Global, n: u32) -> Result<Vec<Assertion>, AllocError>
    requires { 1 ≤ n }
    ensures { IfOk result (λ said. said.items ≡ grown_assertions n) }
{
    let whole = vec![in alloc; Some(0)]?;
    let mut said = vec![in alloc;
        denies_others(alloc, 0)?,
        denies_others(alloc, 1)?,
        states(Truth::True, Symbol::Class(0), whole),
    ]?;
    said.append(&mut contained_parts(alloc, n)?)?;
    said.append(&mut row(alloc, n - 1)?)?;
    said.push(last_is_open(alloc, n)?)?;
    Ok(said)
}
