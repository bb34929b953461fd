//! What has a name, and names in the order of what has them.

ghost use Rattle.std.specs.Prelude.{◌≡◌, ◌++◌, IfOk, OnOk, map};

use crate::numbering::Numbering;
use crate::parts::{ClassDeclaration, PredicateDeclaration};
use rf_syntax::{Item, Name, Param};
use std::alloc::{AllocError, Global};

/// What has a name.
pub trait Named {
    ghost use Rattle.rf_syntax.specs.declared.name.Name.{Name};

    ghost name: { Self → Name };

    fn name(&self) -> &Name
        ensures { result.now ≡ name self.now };
}

impl<'a> Named for ClassDeclaration<'a> {
    ghost name = { λ class. class.name };

    fn name(&self) -> &Name {
        self.name
    }
}

impl<'a> Named for PredicateDeclaration<'a> {
    ghost name = { λ predicate. predicate.name };

    fn name(&self) -> &Name {
        self.name
    }
}

impl Named for Item {
    ghost name = { λ item. item.name };

    fn name(&self) -> &Name {
        &self.name
    }
}

impl<'a> Named for &'a Item {
    ghost name = { λ item. item.now.name };

    fn name(&self) -> &Name {
        &self.name
    }
}

impl Named for Param {
    ghost name = { λ param. param.name };

    fn name(&self) -> &Name {
        &self.name
    }
}

/// Appends the names of these.
pub fn push_names_of<'a, T: Named>(
    out: &mut Vec<&'a Name>,
    items: &'a [T],
) -> Result<(), AllocError>
    ensures { OnOk result (map (λ n. n.now) out.new.items ≡ map (λ n. n.now) out.old.items
        ++ map T.name items.now) }
{
    for item in items {
        out.push(item.name())?;
    }
    Ok(())
}

/// The names of these.
pub fn names_of<'a, T: Named>(alloc: Global, items: &'a [T]) -> Result<Vec<&'a Name>, AllocError>
    ensures { IfOk result (λ names. map (λ n. n.now) names.items ≡ map T.name items.now) }
{
    let mut names = Vec::new(alloc);
    push_names_of(&mut names, items)?;
    Ok(names)
}

/// The names of these, with numbers.
pub fn numbered<'a, T: Named>(alloc: Global, items: &'a [T]) -> Result<Numbering<'a>, AllocError>
    ensures { IfOk result (λ numbering. map (λ n. n.now) numbering.names.items
        ≡ map T.name items.now) }
{
    let names = names_of(alloc, items)?;
    Numbering::of(alloc, names.as_slice())
}
