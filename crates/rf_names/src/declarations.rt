//! What a tree declares and states, in lists.

ghost use Rattle.std.specs.Prelude.{◌≡◌, [], IfOk, OnOk, map};
ghost use Rattle.std.specs.List.{flat_map};
ghost use Rattle.rf_names.specs.Declarations.{atoms_in, declared_in};
ghost use Rattle.rf_names.specs.Gathering.{gathered_by, with_statement};

use crate::gather::{
    push_assertion, push_atoms, push_bounds, push_class, push_items, push_names, push_predicate,
    references_of,
};
use crate::mentions::push_mentions;
use crate::numbering::Numbering;
use crate::parts::{
    AssertDeclaration, ClassDeclaration, PredicateDeclaration, ReferenceDeclaration,
};
use rf_syntax::{Ast, Bound, Item, Name, Statement};
use std::alloc::{AllocError, Global};
use std::marker::Model;

/// All that a tree declares and states, each list in the order of the text.
#[derive(Drop)]
pub struct Declarations<'a> {
    /// The names declared in the space of classes, predicates and objects.
    pub names: Vec<&'a Name>,
    pub classes: Vec<ClassDeclaration<'a>>,
    pub references: Vec<ReferenceDeclaration<'a>>,
    pub predicates: Vec<PredicateDeclaration<'a>>,
    /// The items of `multi`.
    pub items: Vec<&'a Item>,
    pub bounds: Vec<&'a Bound>,
    pub assertions: Vec<AssertDeclaration<'a>>,
    /// The literals of enums and the names of `atom` statements.
    pub atoms: Numbering<'a>,
    /// The names at which the text speaks of named objects.
    pub mentions: Vec<&'a Name>,
}

impl<'a> Model for Declarations<'a> {
    ghost use Rattle.std.specs.Prelude.{map};
    ghost use Rattle.rf_names.specs.Declarations.{Declared};

    ghost Value = { Declared };

    ghost view = { λ d. record {
      names = map (λ n. n.now) d.names.items;
      classes = d.classes.items;
      references = d.references.items;
      predicates = d.predicates.items;
      items = map (λ i. i.now) d.items.items;
      bounds = map (λ b. b.now) d.bounds.items;
      assertions = d.assertions.items;
      atoms = map (λ n. n.now) d.atoms.names.items;
      mentions = map (λ n. n.now) d.mentions.items;
    } };
}

// The atoms that the statements declare.
fn atoms_of<'a>(alloc: Global, statements: &'a [Statement]) -> Result<Numbering<'a>, AllocError>
    ensures { IfOk result (λ atoms. map (λ n. n.now) atoms.names.items
        ≡ flat_map atoms_in statements.now) }
{
    let mut names = Vec::new(alloc);
    for statement in statements {
        push_atoms(&mut names, statement)?;
    }
    Numbering::of(alloc, names.as_slice())
}

impl<'a> Declarations<'a> {
    fn new(alloc: Global, atoms: Numbering<'a>) -> Declarations<'a>
        ensures { result ≡ gathered_by (map (λ n. n.now) atoms.entry.names.items) [] }
    {
        Declarations {
            names: Vec::new(alloc),
            classes: Vec::new(alloc),
            references: Vec::new(alloc),
            predicates: Vec::new(alloc),
            items: Vec::new(alloc),
            bounds: Vec::new(alloc),
            assertions: Vec::new(alloc),
            atoms,
            mentions: Vec::new(alloc),
        }
    }

    // Appends what a statement declares and states, but for the references and the atoms.
    fn add(&mut self, alloc: Global, statement: &'a Statement) -> Result<(), AllocError>
        ensures { OnOk result (self.new ≡ with_statement self.old statement.now) }
    {
        push_names(&mut self.names, statement)?;
        push_class(alloc, &mut self.classes, statement)?;
        push_predicate(alloc, &mut self.predicates, statement)?;
        push_items(&mut self.items, statement)?;
        push_bounds(&mut self.bounds, statement)?;
        push_assertion(&mut self.assertions, statement)?;
        push_mentions(alloc, &mut self.mentions, &self.atoms, statement)
    }

    // What the statements declare and state, with these atoms, but for the references.
    fn gathered(
        alloc: Global,
        atoms: Numbering<'a>,
        statements: &'a [Statement],
    ) -> Result<Declarations<'a>, AllocError>
        ensures { IfOk result (λ d.
            d ≡ gathered_by (map (λ n. n.now) atoms.entry.names.items) statements.now) }
    {
        let mut declarations = Declarations::new(alloc, atoms);
        for statement in statements {
            declarations.add(alloc, statement)?;
        }
        Ok(declarations)
    }

    /// What the tree declares and states.
    pub fn of(alloc: Global, ast: &'a Ast) -> Result<Declarations<'a>, AllocError>
        ensures { IfOk result (λ d. d ≡ declared_in ast.now) }
    {
        let statements = ast.statements.as_slice();
        let atoms = atoms_of(alloc, statements)?;
        let mut declarations = Declarations::gathered(alloc, atoms, statements)?;
        declarations.references = references_of(alloc, declarations.classes.as_slice())?;
        Ok(declarations)
    }
}
