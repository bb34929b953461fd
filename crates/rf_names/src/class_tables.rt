//! The classes by their names, what they extend, and their objects for new nodes.

ghost use Rattle.std.specs.Prelude.{◌≡◌, ◌<◌, ◌^◌, ℕ, IfOk, IsTrue, map, length, slice_index_or, false};
ghost use Rattle.rf_names.specs.LookUp.{class_named, extends_somehow};
ghost use Rattle.rf_names.specs.Tables.{AreCounts, new_before, numbers_among};

use crate::both::both;
use crate::counts::new_before;
use crate::declarations::Declarations;
use crate::named::numbered;
use crate::numbering::Numbering;
use crate::ranks::has_ranks;
use crate::supers::supers_of;
use rf_closure::reach_along;
use std::alloc::{AllocError, Global};

/// The tables of the classes.
#[derive(Drop)]
pub struct ClassTables<'a> {
    pub declared: &'a Declarations<'a>,
    names: Numbering<'a>,
    // For each class the numbers of those that it extends directly.
    supers: Vec<Vec<u64>>,
    // For each class how many classes before it have an object for their new nodes.
    new_before: Vec<u64>,
    ghost of_names: { map (λ n. n.now) names.names.items ≡ map (λ c. c.name) declared.now.classes },
    ghost of_supers: { map (λ list. list.items) supers.items
        ≡ map (λ c. numbers_among (map (λ x. x.name) declared.now.classes) c.supers)
        declared.now.classes },
    ghost counted: { AreCounts declared.now.classes (length declared.now.classes) new_before.items },
    ghost few: { length declared.now.classes < 2 ^ 32 },
}

impl<'a> ClassTables<'a> {
    pub fn of(alloc: Global, declared: &'a Declarations<'a>) -> Result<ClassTables<'a>, AllocError>
        requires { length declared.now.classes < 2 ^ 32 }
        ensures { IfOk result (λ tables. tables.declared.now ≡ declared.now) }
    {
        let classes = declared.classes.as_slice();
        let names = numbered(alloc, classes)?;
        let (supers, new_before) = both(
            supers_of(alloc, &names, classes),
            new_before(alloc, classes),
        )?;
        Ok(ClassTables {
            declared,
            names,
            supers,
            new_before,
        })
    }

    /// The number of the class of this name.
    pub fn named(&self, text: &str) -> Option<u32>
        ensures { result ≡ class_named self.now.declared.now text.now }
    {
        match self.names.find(text) {
            Some(number) => Some(number as u32),
            None => None,
        }
    }

    /// For each class, whether this class extends it, directly or through others.
    pub fn above(&self, alloc: Global, class: u32) -> Result<Vec<bool>, AllocError>
        requires { class < length self.now.declared.now.classes }
        ensures len { IfOk result (λ marks. length marks.items
            ≡ length self.now.declared.now.classes) }
        ensures value { IfOk result (λ marks. (k : ℕ) → k < length self.now.declared.now.classes
            → slice_index_or marks.items k false ≡ extends_somehow self.now.declared.now class k) }
    {
        let marks = reach_along(alloc, self.supers.as_slice(), class as u64)?;
        Ok(marks)
    }

    /// Whether ranks show that no class extends itself.
    pub fn has_ranks(&self, alloc: Global) -> Result<bool, AllocError>
        ensures { IfOk result (λ yes. IsTrue yes
            → (c : ℕ) → extends_somehow self.now.declared.now c c ≡ false) }
    {
        let yes = has_ranks(alloc, self.supers.as_slice())?;
        Ok(yes)
    }

    /// How many classes before this one have an object for their new nodes.
    pub fn new_before(&self, class: u32) -> u64
        requires { class < length self.now.declared.now.classes }
        ensures value { result ≡ new_before self.now.declared.now.classes class }
        ensures few { result < 2 ^ 32 }
    {
        self.new_before[class as usize]
    }
}
