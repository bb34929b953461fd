//! Names that are declared earlier in their space, or are reserved there.

ghost use Rattle.std.specs.Prelude.{◌≡◌, [], IfOk, map, filter, not};
ghost use Rattle.rf_names.specs.Declarations.{param_names};
ghost use Rattle.rf_names.specs.Offsets.{least_of};
ghost use Rattle.rf_names.specs.Texts.{is_blank, is_text_of};
ghost use Rattle.rf_name_rules.specs.NameOffsets.{feature_names, params_apart, repeated, reserved_members, reserved_names, twice_offsets};

use rf_names::{
    ClassDeclaration, Declarations, OffsetRule, PredicateDeclaration, is_blank, least_among,
    lesser, offset_if,
};
use rf_syntax::{Feature, Name, Param};
use std::alloc::{AllocError, Global};
use std::collections::BTreeSet;

/// The least offset of a name that is declared twice.
#[tactic(auto, using(rf_names::proofs::LeastOffsets::least_steps))]
pub fn twice(alloc: Global, declared: &Declarations<'_>) -> Result<Option<u64>, AllocError>
    ensures { IfOk result (λ at. at ≡ least_of (twice_offsets declared.now)) }
{
    let names = twice_names(alloc, declared.names.as_slice())?;
    let members = least_among(alloc, &RepeatedNames {}, declared.classes.as_slice())?;
    let params = least_among(alloc, &RepeatedNames {}, declared.predicates.as_slice())?;
    Ok(lesser(names, lesser(members, params)))
}

// The rule, for each kind of item that has a space of names of its own.
#[derive(Clone, Copy)]
struct RepeatedNames {}

impl<'a> OffsetRule<ClassDeclaration<'a>> for RepeatedNames {
    ghost offsets = { λ rule c. repeated reserved_members (feature_names c) };

    fn least_in(
        &self,
        alloc: Global,
        class: &ClassDeclaration<'a>,
    ) -> Result<Option<u64>, AllocError> {
        let names = names_of_features(alloc, class.features)?;
        repeated(alloc, &["new"], names.as_slice())
    }
}

impl<'a> OffsetRule<PredicateDeclaration<'a>> for RepeatedNames {
    ghost offsets = { λ rule p. repeated [] (params_apart p) };

    fn least_in(
        &self,
        alloc: Global,
        predicate: &PredicateDeclaration<'a>,
    ) -> Result<Option<u64>, AllocError> {
        let names = names_apart(alloc, predicate.params)?;
        repeated(alloc, &[], names.as_slice())
    }
}

fn is_reserved(reserved: &[&str], name: &Name) -> bool
    ensures { result ≡ is_text_of (map (λ t. t.now) reserved.now) name.now }
{
    for text in reserved {
        if name.text.as_str() == *text {
            return true;
        }
    }
    false
}

// The least offset of a name that is one of those reserved, or has the text of one before it.
fn repeated(alloc: Global, reserved: &[&str], names: &[&Name]) -> Result<Option<u64>, AllocError>
    ensures { IfOk result (λ at. at
        ≡ least_of (repeated (map (λ t. t.now) reserved.now) (map (λ n. n.now) names.now))) }
{
    let mut seen = BTreeSet::new(alloc);
    let mut least = None;
    for name in names {
        let is_new = seen.insert(name.text.as_str().as_bytes())?;
        least = lesser(
            least,
            offset_if(is_reserved(reserved, name) || !is_new, name.at),
        );
    }
    Ok(least)
}

fn twice_names(alloc: Global, names: &[&Name]) -> Result<Option<u64>, AllocError>
    ensures { IfOk result (λ at. at ≡ least_of (repeated reserved_names (map (λ n. n.now) names.now))) }
{
    repeated(alloc, &["node", "exists", "equals"], names)
}

fn names_of_features<'a>(
    alloc: Global,
    features: &'a [Feature],
) -> Result<Vec<&'a Name>, AllocError>
    ensures { IfOk result (λ v. map (λ n. n.now) v.items ≡ map (λ f. f.name) features.now) }
{
    let mut names = Vec::new(alloc);
    for feature in features {
        names.push(&feature.name)?;
    }
    Ok(names)
}

// The parameters but for each `_`.
fn names_apart<'a>(alloc: Global, params: &'a [Param]) -> Result<Vec<&'a Name>, AllocError>
    ensures { IfOk result (λ v. map (λ n. n.now) v.items
        ≡ filter (λ n. not (is_blank n)) (param_names params.now)) }
{
    let mut names = Vec::new(alloc);
    for param in params {
        if !is_blank(&param.name) {
            names.push(&param.name)?;
        }
    }
    Ok(names)
}
