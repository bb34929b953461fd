//! What names stand for, from what stands under them.

ghost use Rattle.std.specs.Prelude.{◌≡◌, map};
ghost use Rattle.rf_names.specs.LookUp.{own_symbols, sense_of, symbol_of_some};
ghost use Rattle.rf_names.specs.Tables.{joined};

use crate::Sense;
use rf_problem::Symbol;

/// What stands for one thing or another.
pub fn joined(a: Sense, b: Sense) -> Sense
    ensures { result ≡ joined a b }
{
    match (a, b) {
        (Sense::Nothing, _) => b,
        (Sense::One(_), Sense::Nothing) => a,
        _ => Sense::Several,
    }
}

/// What stands for a class that may be missing.
pub fn sense_of_class(class: Option<u32>) -> Sense
    ensures { result ≡ sense_of (symbol_of_some Symbol.Class class) }
{
    match class {
        Some(number) => Sense::One(Symbol::Class(number)),
        None => Sense::Nothing,
    }
}

/// What stands for a predicate that may be missing.
pub fn sense_of_predicate(predicate: Option<u32>) -> Sense
    ensures { result ≡ sense_of (symbol_of_some Symbol.Predicate predicate) }
{
    match predicate {
        Some(number) => Sense::One(Symbol::Predicate(number)),
        None => Sense::Nothing,
    }
}

/// What stands for these references.
pub fn sense_of_references(references: &[u32]) -> Sense
    ensures { result ≡ sense_of (map Symbol.Reference references.now) }
{
    match references {
        [] => Sense::Nothing,
        [number] => Sense::One(Symbol::Reference(*number)),
        _ => Sense::Several,
    }
}

/// What a name stands for that assertions have of their own.
pub fn own_sense(text: &str) -> Sense
    ensures { result ≡ sense_of (own_symbols text.now) }
{
    if text == "exists" {
        Sense::One(Symbol::Exists)
    } else if text == "equals" {
        Sense::One(Symbol::Equals)
    } else {
        Sense::Nothing
    }
}
