//! What the assertions of a problem say together.

ghost use Rattle.std.specs.Prelude.{◌≡◌, ◌<◌, length};
ghost use Rattle.rf_problem.specs.Asserted.{admitted, asserted, unwritten, when, with_equals, with_exists};
ghost use Rattle.rf_values.specs.declared.truth.Truth.TheVariants.{True};
ghost use Rattle.rf_problem.specs.Unwritten.{listed};
ghost use Rattle.rf_problem.specs.declared.symbol.Symbol.TheVariants.{Class};
ghost use Rattle.rf_problem.specs.Parts.{arity_of, predicate_at};

use crate::heard::joined;
use crate::{ObjectKind, Problem, Symbol};
use rf_values::{Count, Truth};

fn with_exists(known: Truth, count: Count) -> Count
    ensures { result ≡ with_exists known count }
{
    let lo = match known {
        Truth::True | Truth::Error => count.lo.max(1),
        Truth::False | Truth::Unknown => count.lo,
    };
    let hi = match known {
        Truth::True | Truth::Unknown => count.hi,
        Truth::False | Truth::Error => Some(0),
    };
    Count { lo, hi }
}

fn with_equals(known: Truth, count: Count) -> Count
    ensures { result ≡ with_equals known count }
{
    let hi = match known {
        Truth::True => Some(count.hi.map_or(1, |end| end.min(1))),
        Truth::Unknown => count.hi,
        Truth::False | Truth::Error => Some(0),
    };
    Count { lo: count.lo, hi }
}

impl Problem {
    fn is_error(&self, predicate: u32) -> bool
        ensures { result ≡ (predicate_at self.now.predicates predicate).is_error }
    {
        (predicate as usize) < self.predicates.len() && self.predicate(predicate).is_error
    }

    // Whether these are one object, a literal of this enum.
    fn is_literal_of(&self, class: u32, tuple: &[u64]) -> bool
        ensures { when result True ≡ unwritten self.now (Class class) tuple.now }
    {
        let &[object] = tuple else {
            return false;
        };
        match self.objects.get(object as usize) {
            Some(object) => object.kind == ObjectKind::LiteralOf(class),
            None => false,
        }
    }

    // What is asserted though no assertion is written, if anything is.
    fn unwritten(&self, symbol: Symbol, tuple: &[u64]) -> Option<Truth>
        ensures { listed result ≡ unwritten self.now symbol tuple.now }
    {
        match symbol {
            Symbol::Class(class) if self.is_literal_of(class, tuple) => Some(Truth::True),
            Symbol::Predicate(predicate) if self.is_error(predicate) => Some(Truth::False),
            _ => None,
        }
    }

    /// What is asserted of a symbol at a tuple of objects, of as many as it has arguments.
    pub fn asserted(&self, symbol: Symbol, tuple: &[u64]) -> Truth
        requires { length tuple.now ≡ arity_of self.now.predicates symbol }
        ensures { result ≡ asserted self.now symbol tuple.now }
    {
        let heard = self.assertions.heard(symbol, tuple);
        let ordinary = joined(heard.ordinary, self.unwritten(symbol, tuple));
        ordinary.or(heard.default).unwrap_or(Truth::Unknown)
    }

    /// How many nodes may come from an object.
    pub fn admitted(&self, object: u64) -> Count
        requires { object < length self.now.objects }
        ensures { result ≡ admitted self.now object }
    {
        let exists = self.asserted(Symbol::Exists, &[object]);
        let equals = self.asserted(Symbol::Equals, &[object, object]);
        with_equals(equals, with_exists(exists, self.object(object).count))
    }
}
