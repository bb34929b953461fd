//! How variables occur in the literals of a clause.

ghost use Rattle.std.specs.Prelude.{◌≡◌, ◌∷◌, [], ℕ, List, OnOk, false, if◌then◌else◌};
ghost use Rattle.rf_names.specs.Texts.{reads};
ghost use Rattle.rf_clause_rules.specs.Occurrences.{after_arguments, after_literal, is_loose_occurrence, named_in, occurrence_in};

use rf_names::Arguments;
use rf_syntax::{BodyLiteral, Name};
use std::alloc::AllocError;
use std::collections::BTreeMap;

/// How a variable occurs in literals.
#[derive(Clone, Copy, Debug)]
pub enum Occurrence {
    /// In none.
    Nowhere,
    /// In one alone, which is negated.
    Inside(u64),
    /// In several, which are negated.
    Loose,
    /// In one that isn't negated.
    Bound,
}

fn named_in(literal: u64, negated: bool, occurrence: Occurrence) -> Occurrence
    ensures { result ≡ named_in literal negated occurrence }
{
    if !negated {
        return Occurrence::Bound;
    }
    match occurrence {
        Occurrence::Nowhere => Occurrence::Inside(literal),
        Occurrence::Inside(first) if first == literal => Occurrence::Inside(first),
        Occurrence::Inside(_) | Occurrence::Loose => Occurrence::Loose,
        Occurrence::Bound => Occurrence::Bound,
    }
}

/// Whether a variable stands in several negated literals alone.
pub fn is_loose(occurrence: Occurrence) -> bool
    ensures { result ≡ is_loose_occurrence occurrence }
{
    match occurrence {
        Occurrence::Loose => true,
        Occurrence::Nowhere | Occurrence::Inside(_) | Occurrence::Bound => false,
    }
}

/// How the variable of this name occurs.
pub fn occurrence_in(occurrences: &BTreeMap<&str, Occurrence>, text: &str) -> Occurrence
    ensures { result ≡ occurrence_in occurrences.now text.now }
{
    match occurrences.get(text) {
        Some(occurrence) => *occurrence,
        None => Occurrence::Nowhere,
    }
}

fn add_name<'a>(
    occurrences: &mut BTreeMap<&'a str, Occurrence>,
    literal: u64,
    negated: bool,
    name: &'a Name,
) -> Result<(), AllocError>
    ensures { OnOk result ((text : List ℕ) → occurrence_in occurrences.new text
        ≡ (if reads text name.now
        then named_in literal negated (occurrence_in occurrences.old text)
        else occurrence_in occurrences.old text)) }
{
    let text = name.text.as_str();
    let occurrence = named_in(literal, negated, occurrence_in(occurrences, text));
    occurrences.insert(text, occurrence)?;
    Ok(())
}

// Adds an argument. One that stands for an atom is no variable.
fn add_argument<'a>(
    arguments: &Arguments,
    occurrences: &mut BTreeMap<&'a str, Occurrence>,
    literal: u64,
    negated: bool,
    name: &'a Name,
) -> Result<(), AllocError>
    ensures { OnOk result ((text : List ℕ) → occurrence_in occurrences.new text
        ≡ after_arguments arguments.now.names.now.declared.now arguments.now.params.now
        literal negated (name.now ∷ []) text (occurrence_in occurrences.old text)) }
{
    if arguments.is_atom(name) {
        return Ok(());
    }
    add_name(occurrences, literal, negated, name)
}

fn add_arguments<'a>(
    arguments: &Arguments,
    occurrences: &mut BTreeMap<&'a str, Occurrence>,
    literal: u64,
    negated: bool,
    names: &'a [Name],
) -> Result<(), AllocError>
    ensures { OnOk result ((text : List ℕ) → occurrence_in occurrences.new text
        ≡ after_arguments arguments.now.names.now.declared.now arguments.now.params.now
        literal negated names.now text (occurrence_in occurrences.old text)) }
{
    for name in names {
        add_argument(arguments, occurrences, literal, negated, name)?;
    }
    Ok(())
}

// Adds the two sides of a comparison.
fn add_sides<'a>(
    arguments: &Arguments,
    occurrences: &mut BTreeMap<&'a str, Occurrence>,
    literal: u64,
    a: &'a Name,
    b: &'a Name,
) -> Result<(), AllocError>
    ensures { OnOk result ((text : List ℕ) → occurrence_in occurrences.new text
        ≡ after_arguments arguments.now.names.now.declared.now arguments.now.params.now
        literal false (a.now ∷ b.now ∷ []) text (occurrence_in occurrences.old text)) }
{
    add_argument(arguments, occurrences, literal, false, a)?;
    add_argument(arguments, occurrences, literal, false, b)
}

/// Adds the variables that the literal of this number names.
pub fn add_literal<'a>(
    arguments: &Arguments,
    occurrences: &mut BTreeMap<&'a str, Occurrence>,
    number: u64,
    literal: &'a BodyLiteral,
) -> Result<(), AllocError>
    ensures { OnOk result ((text : List ℕ) → occurrence_in occurrences.new text
        ≡ after_literal arguments.now.names.now.declared.now arguments.now.params.now
        number literal.now text (occurrence_in occurrences.old text)) }
{
    match literal {
        BodyLiteral::Call { negated, args, .. } => {
            add_arguments(arguments, occurrences, number, *negated, args.as_slice())
        }
        BodyLiteral::Same(a, b) | BodyLiteral::Differ(a, b) => {
            add_sides(arguments, occurrences, number, a, b)
        }
    }
}
