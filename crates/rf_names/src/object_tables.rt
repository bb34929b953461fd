//! The named objects, and the items that name them.

ghost use Rattle.std.specs.Prelude.{◌≡◌, IfOk, map};
ghost use Rattle.std.specs.Option.{option_map};
ghost use Rattle.rf_names.specs.LookUp.{item_named, named_objects, object_named};

use crate::both::both;
use crate::declarations::Declarations;
use crate::named::numbered;
use crate::numbering::Numbering;
use rf_syntax::{Item, Name};
use std::alloc::{AllocError, Global};

/// The tables of the named objects.
#[derive(Drop)]
pub struct ObjectTables<'a> {
    pub declared: &'a Declarations<'a>,
    // Each by the name at which it occurs first.
    objects: Numbering<'a>,
    items: Numbering<'a>,
    ghost of_objects: { map (λ n. n.now) objects.names.items ≡ named_objects declared.now },
    ghost of_items: { map (λ n. n.now) items.names.items ≡ map (λ i. i.name) declared.now.items },
}

impl<'a> ObjectTables<'a> {
    pub fn of(alloc: Global, declared: &'a Declarations<'a>) -> Result<ObjectTables<'a>, AllocError>
        ensures { IfOk result (λ tables. tables.declared.now ≡ declared.now) }
    {
        let (objects, items) = both(
            Numbering::of_first(alloc, declared.mentions.as_slice()),
            numbered(alloc, declared.items.as_slice()),
        )?;
        Ok(ObjectTables {
            declared,
            objects,
            items,
        })
    }

    /// The named objects, each by the name at which it occurs first.
    pub fn names(&self) -> &[&'a Name]
        ensures { map (λ n. n.now) result.now ≡ named_objects self.now.declared.now }
    {
        self.objects.names.as_slice()
    }

    /// The number of the object of this name.
    pub fn named(&self, text: &str) -> Option<u64>
        ensures { result ≡ object_named self.now.declared.now text.now }
    {
        self.objects.find(text)
    }

    /// The item of a `multi` that names this object.
    pub fn item_named(&self, text: &str) -> Option<&'a Item>
        ensures { option_map (λ i. i.now) result ≡ item_named self.now.declared.now text.now }
    {
        let declared = self.declared;
        match self.items.find(text) {
            Some(number) => Some(declared.items[number as usize]),
            None => None,
        }
    }
}
