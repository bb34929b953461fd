//! The enums by their literals.

ghost use Rattle.std.specs.Prelude.{◌≡◌, ◌<◌, ◌^◌, ◌++◌, IfOk, OnOk, map, length};
ghost use Rattle.std.specs.List.{flat_map, list_any};
ghost use Rattle.rf_names.specs.LookUp.{enum_of, is_literal_of};
ghost use Rattle.rf_names.specs.Tables.{owners_from, passes_at};
ghost use Rattle.rf_names.specs.Texts.{reads};

use crate::both::both;
use crate::declarations::Declarations;
use crate::gather::push_all;
use crate::numbering::Numbering;
use crate::parts::ClassDeclaration;
use rf_syntax::Name;
use std::alloc::{AllocError, Global};

/// The tables of the enums.
#[derive(Drop)]
pub struct EnumTables<'a> {
    pub declared: &'a Declarations<'a>,
    // The literals of all classes, in order.
    literals: Numbering<'a>,
    // For each of them the number of its class.
    owners: Vec<u32>,
    // For each class its literals.
    by_class: Vec<Numbering<'a>>,
    ghost of_literals: { map (λ n. n.now) literals.names.items
        ≡ flat_map (λ c. c.literals) declared.now.classes },
    ghost of_owners: { owners.items ≡ owners_from 0 declared.now.classes },
    ghost of_classes: { map (λ own. map (λ n. n.now) own.names.items) by_class.items
        ≡ map (λ c. c.literals) declared.now.classes },
}

// The literals of all classes, in order.
fn literals_of<'a>(
    alloc: Global,
    classes: &[ClassDeclaration<'a>],
) -> Result<Vec<&'a Name>, AllocError>
    ensures { IfOk result (λ names. map (λ n. n.now) names.items
        ≡ flat_map (λ c. c.literals) classes.now) }
{
    let mut names = Vec::new(alloc);
    for class in classes {
        push_all(&mut names, class.literals)?;
    }
    Ok(names)
}

// The literals of all classes, with numbers.
fn numbered_literals<'a>(
    alloc: Global,
    classes: &[ClassDeclaration<'a>],
) -> Result<Numbering<'a>, AllocError>
    ensures { IfOk result (λ numbering. map (λ n. n.now) numbering.names.items
        ≡ flat_map (λ c. c.literals) classes.now) }
{
    let names = literals_of(alloc, classes)?;
    Numbering::of(alloc, names.as_slice())
}

// The number of a class, once for each of its literals.
fn push_owner(
    owners: &mut Vec<u32>,
    number: u32,
    class: &ClassDeclaration,
) -> Result<(), AllocError>
    ensures { OnOk result (owners.new.items ≡ owners.old.items
        ++ map (λ l. number) class.now.literals) }
{
    for _literal in class.literals {
        owners.push(number)?;
    }
    Ok(())
}

// For each of the literals of all classes the number of its class.
fn owners_of(alloc: Global, classes: &[ClassDeclaration]) -> Result<Vec<u32>, AllocError>
    requires { length classes.now < 2 ^ 32 }
    ensures { IfOk result (λ owners. owners.items ≡ owners_from 0 classes.now) }
{
    let mut owners = Vec::new(alloc);
    for (number, class) in classes.iter().enumerate() {
        push_owner(&mut owners, number as u32, class)?;
    }
    Ok(owners)
}

fn numbered<'a>(alloc: Global, names: &'a [Name]) -> Result<Numbering<'a>, AllocError>
    ensures { IfOk result (λ numbering. map (λ n. n.now) numbering.names.items ≡ names.now) }
{
    let mut lent = Vec::new(alloc);
    push_all(&mut lent, names)?;
    Numbering::of(alloc, lent.as_slice())
}

// For each class its literals.
fn literals_by_class<'a>(
    alloc: Global,
    classes: &[ClassDeclaration<'a>],
) -> Result<Vec<Numbering<'a>>, AllocError>
    ensures { IfOk result (λ lists. map (λ own. map (λ n. n.now) own.names.items) lists.items
        ≡ map (λ c. c.literals) classes.now) }
{
    let mut lists = Vec::new(alloc);
    for class in classes {
        lists.push(numbered(alloc, class.literals)?)?;
    }
    Ok(lists)
}

// Whether one of the names of this list reads so.
fn is_listed(lists: &[Numbering], list: u32, text: &str) -> bool
    ensures { result ≡ passes_at
        (λ own. list_any (reads text.now) (map (λ n. n.now) own.names.items)) lists.now list }
{
    match lists.get(list as usize) {
        Some(own) => own.contains(text),
        None => false,
    }
}

impl<'a> EnumTables<'a> {
    pub fn of(alloc: Global, declared: &'a Declarations<'a>) -> Result<EnumTables<'a>, AllocError>
        requires { length declared.now.classes < 2 ^ 32 }
        ensures { IfOk result (λ tables. tables.declared.now ≡ declared.now) }
    {
        let classes = declared.classes.as_slice();
        let (literals, (owners, by_class)) = both(
            numbered_literals(alloc, classes),
            both(owners_of(alloc, classes), literals_by_class(alloc, classes)),
        )?;
        Ok(EnumTables {
            declared,
            literals,
            owners,
            by_class,
        })
    }

    /// The number of the first enum that has this literal.
    pub fn of_literal(&self, text: &str) -> Option<u32>
        ensures { result ≡ enum_of self.now.declared.now text.now }
    {
        match self.literals.find(text) {
            Some(number) => Some(self.owners[number as usize]),
            None => None,
        }
    }

    /// Whether the class of this number has this literal.
    pub fn has_literal(&self, class: Option<u32>, text: &str) -> bool
        ensures { result ≡ is_literal_of self.now.declared.now class text.now }
    {
        match class {
            Some(class) => is_listed(self.by_class.as_slice(), class, text),
            None => false,
        }
    }
}
