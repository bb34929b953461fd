//! What a tree declares, lent from it.

ghost use Rattle.std.specs.Prelude.{◌≡◌};

use rf_syntax::{AtomForm, BodyLiteral, Feature, Name, Param};
use rf_values::Truth;
use std::marker::Model;

/// A class, or an enum.
#[derive(Drop)]
pub struct ClassDeclaration<'a> {
    pub name: &'a Name,
    pub is_abstract: bool,
    pub is_enum: bool,
    /// The names after `extends`.
    pub supers: Vec<&'a Name>,
    pub features: &'a [Feature],
    /// The literals of an enum.
    pub literals: &'a [Name],
}

impl<'a> Model for ClassDeclaration<'a> {
    ghost use Rattle.std.specs.Prelude.{map};
    ghost use Rattle.rf_names.specs.Declarations.{ClassDecl};

    ghost Value = { ClassDecl };

    ghost view = { λ c. record {
      name = c.name.now;
      is_abstract = c.is_abstract;
      is_enum = c.is_enum;
      supers = map (λ s. s.now) c.supers.items;
      features = c.features.now;
      literals = c.literals.now;
    } };
}

/// A reference.
#[derive(Drop)]
pub struct ReferenceDeclaration<'a> {
    /// The number of the class that declares it.
    pub source: u64,
    pub feature: &'a Feature,
}

impl<'a> Model for ReferenceDeclaration<'a> {
    ghost use Rattle.rf_names.specs.Declarations.{ReferenceDecl};

    ghost Value = { ReferenceDecl };

    ghost view = { λ r. record { source = r.source; feature = r.feature.now } };
}

/// The literals of a clause.
#[derive(Drop)]
pub struct ClauseDeclaration<'a> {
    pub literals: Vec<&'a BodyLiteral>,
}

impl<'a> Model for ClauseDeclaration<'a> {
    ghost use Rattle.std.specs.Prelude.{List, map};
    ghost use Rattle.rf_syntax.specs.declared.predicate.BodyLiteral.{BodyLiteral};

    ghost Value = { List BodyLiteral };

    ghost view = { λ c. map (λ l. l.now) c.literals.items };
}

/// A predicate.
#[derive(Drop)]
pub struct PredicateDeclaration<'a> {
    pub is_error: bool,
    pub name: &'a Name,
    pub params: &'a [Param],
    pub clauses: Vec<ClauseDeclaration<'a>>,
}

impl<'a> Model for PredicateDeclaration<'a> {
    ghost use Rattle.rf_names.specs.Declarations.{PredicateDecl};

    ghost Value = { PredicateDecl };

    ghost view = { λ p. record { is_error = p.is_error; name = p.name.now; params = p.params.now; clauses = p.clauses.items } };
}

/// An assertion.
#[derive(Drop)]
pub struct AssertDeclaration<'a> {
    pub is_default: bool,
    pub atom: &'a AtomForm,
    pub value: Truth,
}

impl<'a> Model for AssertDeclaration<'a> {
    ghost use Rattle.rf_names.specs.Declarations.{AssertDecl};

    ghost Value = { AssertDecl };

    ghost view = { λ a. record { is_default = a.is_default; atom = a.atom.now; value = a.value } };
}
