//! Names that stand for nothing of the kind that is needed where they stand.

ghost use Rattle.std.specs.Prelude.{◌≡◌, ◌++◌, IfOk, slice_index_or};
ghost use Rattle.std.specs.List.{flat_map};
ghost use Rattle.rf_names.specs.LookUp.{has_new, no_class_decl};
ghost use Rattle.rf_names.specs.Texts.{is_text_of};
ghost use Rattle.rf_names.specs.Offsets.{least_of, offset_if};
ghost use Rattle.rf_name_rules.specs.NameOffsets.{can_be_extended, has_no_new, is_no_object, is_unknown, reserved_names, unknown_arg, unknown_bound, unknown_class, unknown_literal, unknown_member, unknown_object, unknown_offsets, unknown_opposite, unknown_param_class, unknown_reference, unknown_super, unknown_symbol};

use rf_names::{
    ClassDeclaration, Names, OffsetRule, PredicateDeclaration, ReferenceDeclaration, Sense,
    SensedAssertion, least_among, least_among_lent, least_in_literals, lesser, offset_if,
    opposites_named,
};
use rf_syntax::{Arg, BodyLiteral, Bound, Name, Param, SymbolName};
use std::alloc::{AllocError, Global};

/// The least offset of a name that stands for nothing of the kind that is needed there.
pub fn unknown(alloc: Global, names: &Names) -> Result<Option<u64>, AllocError>
    ensures { IfOk result (λ at. at ≡ least_of (unknown_offsets names.now.declared.now)) }
{
    let rule = UnknownNames { names };
    let declared = names.declared;
    let classes = least_among(alloc, &rule, declared.classes.as_slice())?;
    let references = least_among(alloc, &rule, declared.references.as_slice())?;
    let predicates = least_among(alloc, &rule, declared.predicates.as_slice())?;
    let bounds = least_among_lent(alloc, &rule, declared.bounds.as_slice())?;
    let literals = least_in_literals(alloc, &rule, names)?;
    let assertions = least_among(alloc, &rule, names.assertions())?;
    let earlier = lesser(lesser(lesser(classes, references), predicates), bounds);
    Ok(lesser(lesser(earlier, literals), assertions))
}

// The rule, for each kind of item in which such names may stand.
#[derive(Clone, Copy)]
struct UnknownNames<'n, 'a> {
    names: &'n Names<'a>,
}

// A name after `extends`.
impl<'n, 'a> OffsetRule<Name> for UnknownNames<'n, 'a> {
    ghost offsets = { λ rule. unknown_super rule.names.now.declared.now };

    fn least_in(&self, _alloc: Global, name: &Name) -> Result<Option<u64>, AllocError> {
        Ok(unknown_super(self.names, name))
    }
}

impl<'n, 'a> OffsetRule<ClassDeclaration<'a>> for UnknownNames<'n, 'a> {
    ghost offsets = { λ rule c. flat_map (unknown_super rule.names.now.declared.now) c.supers };

    fn least_in(
        &self,
        alloc: Global,
        class: &ClassDeclaration<'a>,
    ) -> Result<Option<u64>, AllocError> {
        least_among_lent(alloc, self, class.supers.as_slice())
    }
}

impl<'n, 'a> OffsetRule<ReferenceDeclaration<'a>> for UnknownNames<'n, 'a> {
    ghost offsets = { λ rule. unknown_reference rule.names.now.declared.now };

    fn least_in(
        &self,
        alloc: Global,
        reference: &ReferenceDeclaration<'a>,
    ) -> Result<Option<u64>, AllocError> {
        unknown_reference(alloc, self.names, reference)
    }
}

impl<'n, 'a> OffsetRule<Param> for UnknownNames<'n, 'a> {
    ghost offsets = { λ rule param. unknown_param_class rule.names.now.declared.now param.class };

    fn least_in(&self, _alloc: Global, param: &Param) -> Result<Option<u64>, AllocError> {
        match &param.class {
            None => Ok(None),
            Some(name) => Ok(unknown_class(self.names, name)),
        }
    }
}

// The classes of parameters.
impl<'n, 'a> OffsetRule<PredicateDeclaration<'a>> for UnknownNames<'n, 'a> {
    ghost offsets = { λ rule p.
        flat_map (λ param. unknown_param_class rule.names.now.declared.now param.class) p.params };

    fn least_in(
        &self,
        alloc: Global,
        predicate: &PredicateDeclaration<'a>,
    ) -> Result<Option<u64>, AllocError> {
        least_among(alloc, self, predicate.params)
    }
}

impl<'n, 'a> OffsetRule<Bound> for UnknownNames<'n, 'a> {
    ghost offsets = { λ rule b. unknown_bound rule.names.now.declared.now b.name };

    fn least_in(&self, _alloc: Global, bound: &Bound) -> Result<Option<u64>, AllocError> {
        Ok(unknown_bound(self.names, &bound.name))
    }
}

impl<'n, 'a> OffsetRule<BodyLiteral> for UnknownNames<'n, 'a> {
    ghost offsets = { λ rule. unknown_literal rule.names.now.declared.now };

    fn least_in(&self, alloc: Global, literal: &BodyLiteral) -> Result<Option<u64>, AllocError> {
        match literal {
            BodyLiteral::Call { symbol, .. } => {
                let sense = self.names.literal_sense(alloc, symbol)?;
                Ok(unknown_symbol(self.names, sense, symbol))
            }
            BodyLiteral::Same(_, _) | BodyLiteral::Differ(_, _) => Ok(None),
        }
    }
}

impl<'n, 'a> OffsetRule<Arg> for UnknownNames<'n, 'a> {
    ghost offsets = { λ rule. unknown_arg rule.names.now.declared.now };

    fn least_in(&self, _alloc: Global, arg: &Arg) -> Result<Option<u64>, AllocError> {
        match arg {
            Arg::Star => Ok(None),
            Arg::Symbol(symbol) => Ok(unknown_object(self.names, symbol)),
        }
    }
}

impl<'n, 'a> OffsetRule<SensedAssertion<'a>> for UnknownNames<'n, 'a> {
    ghost offsets = { λ rule a.
        unknown_symbol
        rule.names.now.declared.now a.sense a.form.atom.symbol.name a.form.atom.symbol.member
        ++ flat_map (unknown_arg rule.names.now.declared.now) a.form.atom.args };

    fn least_in(
        &self,
        alloc: Global,
        assertion: &SensedAssertion<'a>,
    ) -> Result<Option<u64>, AllocError> {
        let form = assertion.form;
        let atom = form.atom;
        let symbol = unknown_symbol(self.names, assertion.sense, &atom.symbol);
        let args = least_among(alloc, self, atom.args.as_slice())?;
        Ok(lesser(symbol, args))
    }
}

fn unknown_class(names: &Names, name: &Name) -> Option<u64>
    ensures { result ≡ least_of (unknown_class names.now.declared.now name.now) }
{
    offset_if(names.class_named(name.text.as_str()).is_none(), name.at)
}

fn is_enum_at(classes: &[ClassDeclaration], number: u32) -> bool
    ensures { result ≡ (slice_index_or classes.now number no_class_decl).is_enum }
{
    match classes.get(number as usize) {
        None => false,
        Some(class) => class.is_enum,
    }
}

fn can_be_extended(names: &Names, class: Option<u32>) -> bool
    ensures { result ≡ can_be_extended names.now.declared.now class }
{
    let declared = names.declared;
    match class {
        None => false,
        Some(number) => !is_enum_at(declared.classes.as_slice(), number),
    }
}

fn unknown_super(names: &Names, name: &Name) -> Option<u64>
    ensures { result ≡ least_of (unknown_super names.now.declared.now name.now) }
{
    let class = names.class_named(name.text.as_str());
    offset_if(!can_be_extended(names, class), name.at)
}

fn unknown_opposite(
    alloc: Global,
    names: &Names,
    reference: &ReferenceDeclaration,
) -> Result<Option<u64>, AllocError>
    ensures { IfOk result (λ at.
        at ≡ least_of (
        unknown_opposite names.now.declared.now reference.now reference.now.feature.opposite)) }
{
    match &reference.feature.opposite {
        None => Ok(None),
        Some(name) => {
            let members = opposites_named(alloc, names, reference, name)?;
            Ok(offset_if(members.is_empty(), name.at))
        }
    }
}

#[tactic(auto, using(rf_names::proofs::LeastOffsets::least_steps))]
fn unknown_reference(
    alloc: Global,
    names: &Names,
    reference: &ReferenceDeclaration,
) -> Result<Option<u64>, AllocError>
    ensures { IfOk result (λ at.
        at ≡ least_of (unknown_reference names.now.declared.now reference.now)) }
{
    let target = unknown_class(names, &reference.feature.target);
    Ok(lesser(target, unknown_opposite(alloc, names, reference)?))
}

fn unknown_bound(names: &Names, name: &Name) -> Option<u64>
    ensures { result ≡ least_of (unknown_bound names.now.declared.now name.now) }
{
    let text = name.text.as_str();
    offset_if(names.class_named(text).is_none() && text != "node", name.at)
}

fn is_unknown(sense: Sense) -> bool
    ensures { result ≡ is_unknown sense }
{
    matches!(sense, Sense::Nothing)
}

#[tactic(auto, using(rf_names::proofs::LeastOffsets::least_steps))]
fn unknown_symbol(names: &Names, sense: Sense, symbol: &SymbolName) -> Option<u64>
    ensures { result ≡ least_of (
        unknown_symbol names.now.declared.now sense symbol.now.name symbol.now.member) }
{
    let unknown = is_unknown(sense);
    match &symbol.member {
        None => offset_if(unknown, symbol.name.at),
        Some(member) => lesser(
            unknown_class(names, &symbol.name),
            offset_if(unknown, member.at),
        ),
    }
}

fn is_reserved(name: &Name) -> bool
    ensures { result ≡ is_text_of reserved_names name.now }
{
    let text = name.text.as_str();
    text == "node" || text == "exists" || text == "equals"
}

fn is_no_object(names: &Names, name: &Name) -> bool
    ensures { result ≡ is_no_object names.now.declared.now name.now }
{
    let text = name.text.as_str();
    names.class_named(text).is_some()
        || names.predicate_named(text).is_some()
        || text == "_"
        || is_reserved(name)
}

fn has_new_at(classes: &[ClassDeclaration], number: u32) -> bool
    ensures { result ≡ has_new (slice_index_or classes.now number no_class_decl) }
{
    match classes.get(number as usize) {
        None => true,
        Some(class) => !class.is_abstract && !class.is_enum,
    }
}

fn has_no_new(names: &Names, class: Option<u32>) -> bool
    ensures { result ≡ has_no_new names.now.declared.now class }
{
    let declared = names.declared;
    match class {
        None => false,
        Some(number) => !has_new_at(declared.classes.as_slice(), number),
    }
}

// What follows the class of this name.
fn unknown_member(names: &Names, name: &Name, member: &Name) -> Option<u64>
    ensures { result ≡ least_of (unknown_member names.now.declared.now name.now member.now) }
{
    let class = names.class_named(name.text.as_str());
    let text = member.text.as_str();
    if text == "new" {
        offset_if(has_no_new(names, class), name.at)
    } else {
        offset_if(!names.is_literal_of(class, text), member.at)
    }
}

#[tactic(auto, using(rf_names::proofs::LeastOffsets::least_steps))]
fn unknown_object(names: &Names, symbol: &SymbolName) -> Option<u64>
    ensures { result ≡ least_of (
        unknown_object names.now.declared.now symbol.now.name symbol.now.member) }
{
    match &symbol.member {
        None => offset_if(is_no_object(names, &symbol.name), symbol.name.at),
        Some(member) => lesser(
            unknown_class(names, &symbol.name),
            unknown_member(names, &symbol.name, member),
        ),
    }
}
