//! Numbers of arguments.

ghost use Rattle.std.specs.Prelude.{◌≡◌, IfOk, false, length};
ghost use Rattle.rf_names.specs.Offsets.{least_of};
ghost use Rattle.rf_names.specs.LookUp.{can_be_closed, parameters_of};
ghost use Rattle.rf_structure_rules.specs.StructureOffsets.{arity_offsets, bad_arity, fits_call, literal_arity};

use rf_names::{
    Names, OffsetRule, Sense, SensedAssertion, least_among, least_in_literals, lesser, offset_if,
};
use rf_problem::Symbol;
use rf_syntax::BodyLiteral;
use std::alloc::{AllocError, Global};

fn parameters_of(names: &Names, symbol: Symbol) -> usize
    ensures { result ≡ parameters_of names.now.declared.now symbol }
{
    let declared = names.declared;
    match symbol {
        Symbol::Class(_) | Symbol::Exists => 1,
        Symbol::Reference(_) | Symbol::Equals => 2,
        Symbol::Predicate(number) => match declared.predicates.get(number as usize) {
            None => 0,
            Some(predicate) => predicate.params.len(),
        },
    }
}

fn can_be_closed(names: &Names, symbol: Symbol) -> bool
    ensures { result ≡ can_be_closed names.now.declared.now symbol }
{
    match symbol {
        Symbol::Class(_) => false,
        _ => parameters_of(names, symbol) == 2,
    }
}

fn fits_call(names: &Names, symbol: Symbol, closure: bool, args: usize) -> bool
    ensures { result ≡ fits_call names.now.declared.now symbol closure args }
{
    let closable = !closure || can_be_closed(names, symbol);
    args == parameters_of(names, symbol) && closable
}

fn bad_arity(names: &Names, sense: Sense, closure: bool, args: usize, at: u64) -> Option<u64>
    ensures { result ≡ least_of (bad_arity names.now.declared.now sense closure args at) }
{
    match sense {
        Sense::Nothing | Sense::Several => None,
        Sense::One(symbol) => offset_if(!fits_call(names, symbol, closure, args), at),
    }
}

// The rule, for each kind of item in which such symbols may stand.
#[derive(Clone, Copy)]
struct Arities<'n, 'a> {
    names: &'n Names<'a>,
}

impl<'n, 'a> OffsetRule<BodyLiteral> for Arities<'n, 'a> {
    ghost offsets = { λ rule. literal_arity rule.names.now.declared.now };

    fn least_in(&self, alloc: Global, literal: &BodyLiteral) -> Result<Option<u64>, AllocError> {
        match literal {
            BodyLiteral::Call {
                symbol,
                closure,
                args,
                ..
            } => {
                let sense = self.names.literal_sense(alloc, symbol)?;
                Ok(bad_arity(self.names, sense, *closure, args.len(), symbol.name.at))
            }
            BodyLiteral::Same(_, _) | BodyLiteral::Differ(_, _) => Ok(None),
        }
    }
}

impl<'n, 'a> OffsetRule<SensedAssertion<'a>> for Arities<'n, 'a> {
    ghost offsets = { λ rule a.
        bad_arity
        rule.names.now.declared.now a.sense false (length a.form.atom.args) a.form.atom.symbol.name.at };

    fn least_in(
        &self,
        _alloc: Global,
        assertion: &SensedAssertion<'a>,
    ) -> Result<Option<u64>, AllocError> {
        let form = assertion.form;
        let atom = form.atom;
        Ok(bad_arity(
            self.names,
            assertion.sense,
            false,
            atom.args.len(),
            atom.symbol.name.at,
        ))
    }
}

/// The least offset of a symbol that doesn't fit its arguments, or the `+` after it.
#[tactic(auto, using(rf_names::proofs::LeastOffsets::least_steps))]
pub fn arity(alloc: Global, names: &Names) -> Result<Option<u64>, AllocError>
    ensures { IfOk result (λ at. at ≡ least_of (arity_offsets names.now.declared.now)) }
{
    let rule = Arities { names };
    let literals = least_in_literals(alloc, &rule, names)?;
    let assertions = least_among(alloc, &rule, names.assertions())?;
    Ok(lesser(literals, assertions))
}
