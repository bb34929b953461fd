//! Assertions of `equals` whose arguments aren't the same object named twice.

ghost use Rattle.std.specs.Prelude.{◌≡◌, ◌&&◌, IfOk, not};
ghost use Rattle.std.specs.Str.{bytes_eq};
ghost use Rattle.rf_names.specs.Declarations.{object_name};
ghost use Rattle.rf_names.specs.Offsets.{least_of, offset_if};
ghost use Rattle.rf_structure_rules.specs.StructureOffsets.{equals_two_offsets, is_equals, is_same_name, is_same_object, is_twice};

use rf_names::{Names, OffsetRule, Sense, SensedAssertion, least_among, object_name, offset_if};
use rf_problem::Symbol;
use rf_syntax::{Arg, SymbolName};
use std::alloc::{AllocError, Global};

/// The least offset of an `equals` of two objects.
pub fn equals_two(alloc: Global, names: &Names<'_>) -> Result<Option<u64>, AllocError>
    ensures { IfOk result (λ at. at ≡ least_of (equals_two_offsets names.now.declared.now)) }
{
    let at = least_among(alloc, &EqualsTwo {}, names.assertions())?;
    Ok(at)
}

// The rule of the arguments of `equals`.
#[derive(Clone, Copy)]
struct EqualsTwo {}

impl<'a> OffsetRule<SensedAssertion<'a>> for EqualsTwo {
    ghost offsets = { λ rule a.
        offset_if (is_equals a.sense && not (is_twice a.form.atom.args)) a.form.atom.symbol.name.at };

    fn least_in(
        &self,
        _alloc: Global,
        assertion: &SensedAssertion<'a>,
    ) -> Result<Option<u64>, AllocError> {
        let form = assertion.form;
        let atom = form.atom;
        let broken = is_equals(assertion.sense) && !is_twice(atom.args.as_slice());
        Ok(offset_if(broken, atom.symbol.name.at))
    }
}

fn is_equals(sense: Sense) -> bool
    ensures { result ≡ is_equals sense }
{
    matches!(sense, Sense::One(Symbol::Equals))
}

fn is_twice(args: &[Arg]) -> bool
    ensures { result ≡ is_twice args.now }
{
    match args {
        [first, second] => is_same_object(first, second),
        _ => false,
    }
}

fn is_same_object(first: &Arg, second: &Arg) -> bool
    ensures { result ≡ is_same_object first.now second.now }
{
    match (first, second) {
        (Arg::Symbol(s), Arg::Symbol(t)) => is_same_symbol(s, t),
        _ => false,
    }
}

// Whether two symbols stand for the same named object, or for the new object of the same class.
fn is_same_symbol(first: &SymbolName, second: &SymbolName) -> bool
    ensures { result ≡ is_same_name
        (object_name first.now.name first.now.member) (object_name second.now.name second.now.member)
        (bytes_eq first.now.name.text second.now.name.text) }
{
    match (object_name(first), object_name(second)) {
        (Some(m), Some(n)) => m.text.as_str() == n.text.as_str(),
        (None, None) => first.name.text.as_str() == second.name.text.as_str(),
        _ => false,
    }
}
