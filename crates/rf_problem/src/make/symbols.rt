//! Which symbols there are.

ghost use Rattle.std.specs.Prelude.{◌≡◌, ◌&&◌, length, nat_lt};
ghost use Rattle.rf_problem.specs.Parts.{arity_of, object_at, predicate_at};
ghost use Rattle.rf_problem.specs.Valid.{has_steps, is_asserted, is_atom, is_declared};

use crate::{ObjectDecl, ObjectKind, Predicate, Symbol};

/// How many classes and references there are, the objects and the predicates.
#[derive(Drop)]
pub struct Declared<'a> {
    pub classes: usize,
    pub references: usize,
    pub objects: &'a [ObjectDecl],
    pub predicates: &'a [Predicate],
}

fn is_atom(kind: ObjectKind) -> bool
    ensures { result ≡ is_atom kind }
{
    match kind {
        ObjectKind::Plain => false,
        ObjectKind::Atom | ObjectKind::LiteralOf(_) => true,
    }
}

impl Declared<'_> {
    /// Whether an object is there and may be named in bodies.
    pub fn is_atom(&self, object: u64) -> bool
        ensures { result ≡ (nat_lt object (length self.now.objects.now) && is_atom (object_at self.now.objects.now object).kind) }
    {
        match self.objects.get(object as usize) {
            Some(object) => is_atom(object.kind),
            None => false,
        }
    }

    /// Whether a symbol stands for a class, a reference or a predicate that is there.
    pub fn is_declared(&self, symbol: Symbol) -> bool
        ensures { result ≡ is_declared self.now.classes self.now.references (length self.now.predicates.now) symbol }
    {
        match symbol {
            Symbol::Class(class) => (class as usize) < self.classes,
            Symbol::Reference(reference) => (reference as usize) < self.references,
            Symbol::Predicate(predicate) => (predicate as usize) < self.predicates.len(),
            Symbol::Exists | Symbol::Equals => false,
        }
    }

    /// Whether an assertion may speak of a symbol.
    pub fn is_asserted(&self, symbol: Symbol) -> bool
        ensures { result ≡ is_asserted self.now.classes self.now.references (length self.now.predicates.now) symbol }
    {
        match symbol {
            Symbol::Class(class) => (class as usize) < self.classes,
            Symbol::Reference(reference) => (reference as usize) < self.references,
            Symbol::Predicate(predicate) => (predicate as usize) < self.predicates.len(),
            Symbol::Exists | Symbol::Equals => true,
        }
    }

    // The number of parameters of a predicate, 0 of one that isn't there.
    fn parameters(&self, predicate: u32) -> u8
        ensures { result ≡ (predicate_at self.now.predicates.now predicate).arity }
    {
        match self.predicates.get(predicate as usize) {
            Some(predicate) => predicate.arity,
            None => 0,
        }
    }

    /// How many arguments a symbol has.
    pub fn arity_of(&self, symbol: Symbol) -> usize
        ensures { result ≡ arity_of self.now.predicates.now symbol }
    {
        match symbol {
            Symbol::Class(_) | Symbol::Exists => 1,
            Symbol::Reference(_) | Symbol::Equals => 2,
            Symbol::Predicate(predicate) => self.parameters(predicate) as usize,
        }
    }

    /// Whether a symbol has steps: it has two arguments and is no class.
    pub fn has_steps(&self, symbol: Symbol) -> bool
        ensures { result ≡ has_steps self.now.predicates.now symbol }
    {
        match symbol {
            Symbol::Reference(_) => true,
            Symbol::Predicate(predicate) => self.parameters(predicate) == 2,
            Symbol::Class(_) | Symbol::Exists | Symbol::Equals => false,
        }
    }
}
