//! Symbols and members that stand for more than one.

ghost use Rattle.std.specs.Prelude.{◌≡◌, IfOk};
ghost use Rattle.rf_names.specs.Offsets.{least_of};
ghost use Rattle.rf_name_rules.specs.NameOffsets.{ambiguous_literal, ambiguous_offsets, ambiguous_opposite, ambiguous_symbol, is_ambiguous, last_offset};

use rf_names::{
    Names, OffsetRule, ReferenceDeclaration, Sense, SensedAssertion, least_among,
    least_in_literals, lesser, offset_if, opposites_named,
};
use rf_syntax::{BodyLiteral, SymbolName};
use std::alloc::{AllocError, Global};

fn is_ambiguous(sense: Sense) -> bool
    ensures { result ≡ is_ambiguous sense }
{
    matches!(sense, Sense::Several)
}

fn last_offset(symbol: &SymbolName) -> u64
    ensures { result ≡ last_offset symbol.now.name symbol.now.member }
{
    match &symbol.member {
        None => symbol.name.at,
        Some(member) => member.at,
    }
}

fn ambiguous_symbol(sense: Sense, symbol: &SymbolName) -> Option<u64>
    ensures { result ≡ least_of (ambiguous_symbol sense symbol.now) }
{
    offset_if(is_ambiguous(sense), last_offset(symbol))
}

// The rule, for each kind of item in which such symbols and members may stand.
#[derive(Clone, Copy)]
struct AmbiguousNames<'n, 'a> {
    names: &'n Names<'a>,
}

impl<'n, 'a> OffsetRule<ReferenceDeclaration<'a>> for AmbiguousNames<'n, 'a> {
    ghost offsets = { λ rule r. ambiguous_opposite rule.names.now.declared.now r r.feature.opposite };

    fn least_in(
        &self,
        alloc: Global,
        reference: &ReferenceDeclaration<'a>,
    ) -> Result<Option<u64>, AllocError> {
        match &reference.feature.opposite {
            None => Ok(None),
            Some(name) => {
                let members = opposites_named(alloc, self.names, reference, name)?;
                Ok(offset_if(members.len() > 1, name.at))
            }
        }
    }
}

impl<'n, 'a> OffsetRule<BodyLiteral> for AmbiguousNames<'n, 'a> {
    ghost offsets = { λ rule. ambiguous_literal rule.names.now.declared.now };

    fn least_in(&self, alloc: Global, literal: &BodyLiteral) -> Result<Option<u64>, AllocError> {
        match literal {
            BodyLiteral::Call { symbol, .. } => {
                let sense = self.names.literal_sense(alloc, symbol)?;
                Ok(ambiguous_symbol(sense, symbol))
            }
            BodyLiteral::Same(_, _) | BodyLiteral::Differ(_, _) => Ok(None),
        }
    }
}

impl<'n, 'a> OffsetRule<SensedAssertion<'a>> for AmbiguousNames<'n, 'a> {
    ghost offsets = { λ rule a. ambiguous_symbol a.sense a.form.atom.symbol };

    fn least_in(
        &self,
        _alloc: Global,
        assertion: &SensedAssertion<'a>,
    ) -> Result<Option<u64>, AllocError> {
        let form = assertion.form;
        Ok(ambiguous_symbol(assertion.sense, &form.atom.symbol))
    }
}

/// The least offset of a symbol or a member that stands for more than one.
pub fn ambiguous(alloc: Global, names: &Names) -> Result<Option<u64>, AllocError>
    ensures { IfOk result (λ at. at ≡ least_of (ambiguous_offsets names.now.declared.now)) }
{
    let rule = AmbiguousNames { names };
    let declared = names.declared;
    let references = least_among(alloc, &rule, declared.references.as_slice())?;
    let literals = least_in_literals(alloc, &rule, names)?;
    let assertions = least_among(alloc, &rule, names.assertions())?;
    Ok(lesser(lesser(references, literals), assertions))
}
