//! Variables that can't be quantified.

ghost use Rattle.std.specs.Prelude.{◌≡◌, ◌&&◌, ℕ, List, IfOk, OnOk, map, not};
ghost use Rattle.rf_names.specs.Bodies.{loose_variables};
ghost use Rattle.rf_names.specs.Declarations.{is_among, param_names};
ghost use Rattle.rf_names.specs.Offsets.{least_of, offset_if};
ghost use Rattle.rf_names.specs.Texts.{is_blank};
ghost use Rattle.rf_clause_rules.specs.Occurrences.{after_literals, is_loose_occurrence, occurrence_in, occurrence_of};
ghost use Rattle.rf_clause_rules.specs.ClauseOffsets.{loose_offsets};

use crate::occurrence::{Occurrence, add_literal, is_loose, occurrence_in};
use rf_names::{
    Arguments, ClauseDeclaration, ClauseRule, Names, Numbering, OffsetRule, is_blank,
    least_among_lent, least_in_clauses, names_of_literals, offset_if,
};
use rf_syntax::{BodyLiteral, Name};
use std::alloc::{AllocError, Global};
use std::collections::BTreeMap;

fn add_literals<'a>(
    arguments: &Arguments,
    occurrences: &mut BTreeMap<&'a str, Occurrence>,
    literals: &[&'a BodyLiteral],
) -> Result<(), AllocError>
    ensures { OnOk result ((text : List ℕ) → occurrence_in occurrences.new text
        ≡ after_literals arguments.now.names.now.declared.now arguments.now.params.now
        0 (map (λ l. l.now) literals.now) text (occurrence_in occurrences.old text)) }
{
    for (number, literal) in literals.iter().enumerate() {
        add_literal(arguments, occurrences, number as u64, *literal)?;
    }
    Ok(())
}

// How each variable occurs in a clause.
fn occurrences_of<'a>(
    alloc: Global,
    arguments: &Arguments,
    literals: &[&'a BodyLiteral],
) -> Result<BTreeMap<&'a str, Occurrence>, AllocError>
    ensures { IfOk result (λ occurrences. (text : List ℕ) → occurrence_in occurrences text
        ≡ occurrence_of arguments.now.names.now.declared.now arguments.now.params.now
        (map (λ l. l.now) literals.now) text) }
{
    let mut occurrences = BTreeMap::new(alloc);
    add_literals(arguments, &mut occurrences, literals)?;
    Ok(occurrences)
}

// The rule of names, by how they occur in a clause.
#[derive(Drop)]
struct LooseNames<'o, 'n, 'd, 'p, 'a> {
    arguments: &'o Arguments<'n, 'd, 'p>,
    occurrences: &'o BTreeMap<&'a str, Occurrence>,
}

impl<'o, 'n, 'd, 'p, 'a> OffsetRule<Name> for LooseNames<'o, 'n, 'd, 'p, 'a> {
    ghost offsets = { λ rule n.
        offset_if
        (not (is_blank n)
        && (not (is_among (param_names rule.arguments.now.params.now) n)
        && is_loose_occurrence (occurrence_in rule.occurrences.now n.text)))
        n.at };

    fn least_in(&self, _alloc: Global, name: &Name) -> Result<Option<u64>, AllocError> {
        let occurrence = occurrence_in(self.occurrences, name.text.as_str());
        let broken = !is_blank(name) && !self.arguments.is_param(name) && is_loose(occurrence);
        Ok(offset_if(broken, name.at))
    }
}

// The rule of clauses.
#[derive(Clone, Copy)]
struct LooseVariables {}

impl ClauseRule for LooseVariables {
    ghost clause_offsets = { λ rule d params clause.
        map (λ v. v.at) (loose_variables d params clause) };

    fn least_in_clause(
        &self,
        alloc: Global,
        arguments: &Arguments,
        clause: &ClauseDeclaration,
    ) -> Result<Option<u64>, AllocError> {
        let literals = clause.literals.as_slice();
        let names = names_of_literals(alloc, arguments, literals)?;
        let firsts = Numbering::of_first(alloc, names.as_slice())?;
        let occurrences = occurrences_of(alloc, arguments, literals)?;
        let rule = LooseNames {
            arguments,
            occurrences: &occurrences,
        };
        let least = least_among_lent(alloc, &rule, firsts.names.as_slice())?;
        Ok(least)
    }
}

/// The least offset of a variable that isn't a parameter and stands in negated literals alone, and in
/// several of them. The names of a clause are looked up in a map.
pub fn loose_variable(alloc: Global, names: &Names) -> Result<Option<u64>, AllocError>
    ensures { IfOk result (λ at. at ≡ least_of (loose_offsets names.now.declared.now)) }
{
    least_in_clauses(alloc, &LooseVariables {}, names)
}
