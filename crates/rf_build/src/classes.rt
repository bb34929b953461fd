//! The classes of a problem.

ghost use Rattle.std.specs.Prelude.{◌≡◌, IfOk, map};
ghost use Rattle.rf_names.specs.LookUp.{class_named, the_number};
ghost use Rattle.rf_build.specs.Resolved.{resolved_class};

use rf_names::{ClassDeclaration, Names};
use rf_problem::Class;
use rf_syntax::Name;
use rf_text::Items;
use std::alloc::{AllocError, Global};

/// The number of the class that a name stands for. Where no rule is broken there is one.
pub fn class_number(names: &Names, name: &Name) -> u32
    ensures { result ≡ the_number (class_named names.now.declared.now name.now.text) }
{
    names.class_named(name.text.as_str()).unwrap_or(0)
}

fn class_numbers(alloc: Global, names: &Names, supers: &[&Name]) -> Result<Vec<u32>, AllocError>
    ensures { IfOk result (λ numbers. numbers.items
        ≡ map (λ s. the_number (class_named names.now.declared.now s.text))
        (map (λ s. s.now) supers.now)) }
{
    let mut numbers = Vec::new(alloc);
    for name in supers {
        numbers.push(class_number(names, name))?;
    }
    Ok(numbers)
}

fn resolved_class(
    alloc: Global,
    names: &Names,
    form: &ClassDeclaration,
) -> Result<Class, AllocError>
    ensures { IfOk result (λ class. class ≡ resolved_class names.now.declared.now form.now) }
{
    let name = form.name.text.clone()?;
    let supers = class_numbers(alloc, names, form.supers.as_slice())?;
    Ok(Class {
        name,
        is_abstract: form.is_abstract,
        is_enum: form.is_enum,
        supers: Items::from_vec(supers),
    })
}

/// The classes that are declared.
pub fn resolved_classes(alloc: Global, names: &Names) -> Result<Vec<Class>, AllocError>
    ensures { IfOk result (λ classes. classes.items
        ≡ map (resolved_class names.now.declared.now) names.now.declared.now.classes) }
{
    let declared = names.declared;
    let mut classes = Vec::new(alloc);
    for form in declared.classes.as_slice() {
        classes.push(resolved_class(alloc, names, form)?)?;
    }
    Ok(classes)
}
