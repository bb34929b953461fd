//! The lines of the values of predicates at tuples of objects.

ghost use Rattle.std.specs.Prelude.{◌≡◌, ◌<◌, ◌++◌, ℕ, All, List, OnOk, length, map};
ghost use Rattle.rf_state.specs.Values.{AreValues};
ghost use Rattle.rf_valuation.specs.Separator.{separator};
ghost use Rattle.rf_valuation.specs.Valuation.{IsValuation, line_of, lines_of, object_names, value_line};

use rf_graph::{push_object, push_symbol};
use rf_problem::{Problem, Symbol};
use rf_state::{Evaluator, Facts};
use rf_text::Text;
use rf_values::{Truth, Tuple};
use std::alloc::{AllocError, Global};

/// Appends what stands before the name of this number in a list of names.
fn push_separator(out: &mut Text, number: usize) -> Result<(), AllocError>
    ensures { OnOk result (out.new ≡ out.old ++ separator number) }
{
    if number == 0 {
        return Ok(());
    }
    out.push_str(", ")
}

/// Appends the names of objects, a comma and a space between each two.
fn push_objects(
    alloc: Global,
    out: &mut Text,
    problem: &Problem,
    objects: &[u64],
) -> Result<(), AllocError>
    requires { All (λ o. o < length problem.now.objects) objects.now }
    ensures { OnOk result (out.new ≡ out.old ++ object_names problem.now objects.now) }
{
    for number in 0..objects.len() {
        push_separator(out, number)?;
        push_object(alloc, out, problem, objects[number])?;
    }
    Ok(())
}

/// Appends the line of a predicate at a tuple that has this word for its value.
fn push_value_line(
    alloc: Global,
    out: &mut Text,
    problem: &Problem,
    predicate: u32,
    tuple: &[u64],
    word: &str,
) -> Result<(), AllocError>
    requires declared { predicate < length problem.now.predicates }
    requires objects { All (λ o. o < length problem.now.objects) tuple.now }
    ensures { OnOk result (out.new ≡ out.old ++ value_line problem.now predicate tuple.now word.now) }
{
    push_symbol(alloc, out, problem, Symbol::Predicate(predicate))?;
    out.push_str("(")?;
    push_objects(alloc, out, problem, tuple)?;
    out.push_str("): ")?;
    out.push_str(word)?;
    out.push_str("\n")
}

/// Appends the line of a value, none where it is false.
fn push_line(
    alloc: Global,
    out: &mut Text,
    problem: &Problem,
    predicate: u32,
    tuple: &[u64],
    value: Truth,
) -> Result<(), AllocError>
    requires declared { predicate < length problem.now.predicates }
    requires objects { All (λ o. o < length problem.now.objects) tuple.now }
    ensures { OnOk result (out.new ≡ out.old ++ line_of problem.now predicate tuple.now value) }
{
    match value {
        Truth::True => push_value_line(alloc, out, problem, predicate, tuple, "true"),
        Truth::Unknown => push_value_line(alloc, out, problem, predicate, tuple, "unknown"),
        Truth::Error => push_value_line(alloc, out, problem, predicate, tuple, "error"),
        Truth::False => Ok(()),
    }
}

/// Appends the lines of values of a predicate.
fn push_values<F: Facts>(
    alloc: Global,
    out: &mut Text,
    facts: &F,
    predicate: u32,
    values: &[(Tuple, Truth)],
) -> Result<(), AllocError>
    requires declared { predicate < length (F.problem facts.now).predicates }
    requires many { length (F.state facts.now).objects ≡ length (F.problem facts.now).objects }
    requires values { AreValues (F.problem facts.now) (F.state facts.now) predicate values.now }
    ensures { OnOk result (out.new ≡ out.old ++ lines_of (F.problem facts.now) (F.state facts.now) predicate (map (λ e. e.0) values.now)) }
{
    for item in values {
        let (tuple, value) = *item;
        let problem = facts.problem();
        push_line(alloc, out, problem, predicate, tuple.as_slice(), value)?;
    }
    Ok(())
}

/// Appends the lines of all predicates, in their order.
pub fn push_valuation<F: Facts>(alloc: Global, out: &mut Text, facts: &F) -> Result<(), AllocError>
    requires { length (F.state facts.now).objects ≡ length (F.problem facts.now).objects }
    ensures { OnOk result ((text : List ℕ) × IsValuation (F.problem facts.now) (F.state facts.now) text × (out.new ≡ out.old ++ text)) }
{
    let mut evaluator = Evaluator::new(alloc, facts);
    for predicate in 0..facts.problem().predicates.len() as u32 {
        let values = evaluator.values(predicate)?;
        push_values(alloc, out, facts, predicate, values.as_slice())?;
    }
    Ok(())
}
