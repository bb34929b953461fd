//! Numbers and truths, as cases write them.

ghost use Rattle.std.specs.Prelude.{◌≤◌, ◌<◌, All, IfOk, length};
ghost use Rattle.rf_bounds.specs.declared.TheConstants.{GREATEST_NUMBER};
ghost use Rattle.rf_problem.specs.Valid.{IsSmall};

use anyhow::{Result, bail, ensure};
use rf_bounds::GREATEST_NUMBER;
use rf_state::Facts;
use rf_values::{Count, Truth, Tuple};
use std::alloc::Global;

/// A number, written in digits.
pub fn read_number(word: &str) -> Result<u64> {
    match word.parse::<u64>() {
        Ok(number) => Ok(number),
        Err(_) => bail!("{word} isn't a number"),
    }
}

/// A number of a class, a reference, a scope, a predicate, a clause or a literal.
pub fn read_short(word: &str) -> Result<u32> {
    match word.parse::<u32>() {
        Ok(number) => Ok(number),
        Err(_) => bail!("{word} isn't a number below 4294967296"),
    }
}

/// Some numbers.
pub fn read_numbers(alloc: Global, words: &[&str]) -> Result<Vec<u64>> {
    let mut numbers = Vec::new(alloc);
    for word in words {
        numbers.push(read_number(word)?)?;
    }
    Ok(numbers)
}

/// A truth, by its name.
pub fn read_truth(word: &str) -> Result<Truth> {
    match word {
        "true" => Ok(Truth::True),
        "false" => Ok(Truth::False),
        "unknown" => Ok(Truth::Unknown),
        "error" => Ok(Truth::Error),
        _ => bail!("{word} is no truth"),
    }
}

// A number that a problem text may have.
fn read_small(word: &str) -> Result<u64>
    ensures { IfOk result (λ n. n ≤ GREATEST_NUMBER) }
{
    let number = read_number(word)?;
    ensure!(number <= GREATEST_NUMBER as u64, "{word} is too large");
    Ok(number)
}

/// A count, by its ends; `*` is none.
pub fn read_count(lo: &str, hi: &str) -> Result<Count>
    ensures { IfOk result (λ count. IsSmall count) }
{
    let lo = read_small(lo)?;
    if hi == "*" {
        return Ok(Count { lo, hi: None });
    }
    let hi = read_small(hi)?;
    Ok(Count { lo, hi: Some(hi) })
}

/// An object of a state.
pub fn read_object<F: Facts>(view: &F, word: &str) -> Result<u64>
    ensures { IfOk result (λ o. o < length (F.state view.now).objects) }
{
    let o = read_number(word)?;
    ensure!(o < view.objects(), "there is no object {word}");
    Ok(o)
}

/// A reference of its problem.
pub fn read_reference<F: Facts>(view: &F, word: &str) -> Result<u32>
    ensures { IfOk result (λ r. r < length (F.problem view.now).references) }
{
    let r = read_short(word)?;
    ensure!(
        (r as usize) < view.problem().references.len(),
        "there is no reference {word}"
    );
    Ok(r)
}

/// A class of its problem.
pub fn read_class<F: Facts>(view: &F, word: &str) -> Result<u32>
    ensures { IfOk result (λ c. c < length (F.problem view.now).classes) }
{
    let class = read_short(word)?;
    ensure!(
        (class as usize) < view.problem().classes.as_slice().len(),
        "there is no class {word}"
    );
    Ok(class)
}

/// A predicate of its problem.
pub fn read_predicate<F: Facts>(view: &F, word: &str) -> Result<u32>
    ensures { IfOk result (λ q. q < length (F.problem view.now).predicates) }
{
    let predicate = read_short(word)?;
    ensure!(
        (predicate as usize) < view.problem().predicates.len(),
        "there is no predicate {word}"
    );
    Ok(predicate)
}

/// A tuple of objects of a state.
pub fn read_tuple<F: Facts>(view: &F, words: &[&str]) -> Result<Tuple>
    ensures { IfOk result (λ t. All (λ o. o < length (F.state view.now).objects) t) }
{
    let mut tuple = Tuple::of(&[]);
    for word in words {
        ensure!(tuple.as_slice().len() < 4, "too many objects");
        tuple = tuple.with(read_object(view, word)?);
    }
    Ok(tuple)
}
