//! The assertions of a problem.

ghost use Rattle.std.specs.Prelude.{◌≡◌, IfOk, map};
ghost use Rattle.rf_names.specs.Declarations.{object_name};
ghost use Rattle.rf_names.specs.LookUp.{class_named, new_object_of, the_number, the_symbol};
ghost use Rattle.rf_build.specs.Resolved.{object_or_new, resolved_arg, resolved_assertion, resolved_sensed};

use crate::objects::object_number;
use rf_names::{Names, Sense, SensedAssertion, object_name};
use rf_problem::{Assertion, Symbol};
use rf_syntax::{Arg, SymbolName};
use rf_text::Items;
use std::alloc::{AllocError, Global};

/// The symbol that a name stands for. Where no rule is broken there is one.
pub fn the_symbol(sense: Sense) -> Symbol
    ensures { result ≡ the_symbol sense }
{
    match sense {
        Sense::One(symbol) => symbol,
        Sense::Nothing | Sense::Several => Symbol::Exists,
    }
}

// The number of the object that the new nodes of the class of this name come from.
fn new_object_number(names: &Names, class: &str) -> u64
    ensures { result ≡ new_object_of names.now.declared.now
        (the_number (class_named names.now.declared.now class.now)) }
{
    match names.class_named(class) {
        Some(class) => names.new_object_of(class),
        None => names.objects().len() as u64,
    }
}

// The object that an argument stands for: the named one, else the new object of its class.
fn object_or_new(names: &Names, symbol: &SymbolName) -> u64
    ensures { result ≡ object_or_new names.now.declared.now
        (object_name symbol.now.name symbol.now.member) symbol.now.name }
{
    match object_name(symbol) {
        Some(name) => object_number(names, name),
        None => new_object_number(names, symbol.name.text.as_str()),
    }
}

fn resolved_arg(names: &Names, arg: &Arg) -> Option<u64>
    ensures { result ≡ resolved_arg names.now.declared.now arg.now }
{
    match arg {
        Arg::Star => None,
        Arg::Symbol(symbol) => Some(object_or_new(names, symbol)),
    }
}

fn resolved_args(alloc: Global, names: &Names, args: &[Arg]) -> Result<Vec<Option<u64>>, AllocError>
    ensures { IfOk result (λ numbers. numbers.items
        ≡ map (resolved_arg names.now.declared.now) args.now) }
{
    let mut numbers = Vec::with_capacity(alloc, args.len())?;
    for arg in args {
        numbers.push(resolved_arg(names, arg))?;
    }
    Ok(numbers)
}

fn resolved_assertion(
    alloc: Global,
    names: &Names,
    assertion: &SensedAssertion,
) -> Result<Assertion, AllocError>
    ensures { IfOk result (λ made. made
        ≡ resolved_sensed names.now.declared.now assertion.now) }
{
    let form = assertion.form;
    let args = resolved_args(alloc, names, form.atom.args.as_slice())?;
    Ok(Assertion {
        is_default: form.is_default,
        symbol: the_symbol(assertion.sense),
        args: Items::from_vec(args),
        value: form.value,
    })
}

/// The assertions that are stated.
pub fn resolved_assertions(alloc: Global, names: &Names) -> Result<Vec<Assertion>, AllocError>
    ensures { IfOk result (λ assertions. assertions.items
        ≡ map (resolved_assertion names.now.declared.now) names.now.declared.now.assertions) }
{
    let mut assertions = Vec::new(alloc);
    for assertion in names.assertions() {
        assertions.push(resolved_assertion(alloc, names, assertion)?)?;
    }
    Ok(assertions)
}
