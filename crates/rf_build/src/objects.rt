//! The objects of a problem: the named ones, and after them those that new nodes come from.

ghost use Rattle.std.specs.Prelude.{◌≡◌, ◌≤◌, IfOk, length, map};
ghost use Rattle.rf_bounds.specs.declared.TheConstants.{MOST_CLASSES};
ghost use Rattle.std.specs.Option.{option_map};
ghost use Rattle.rf_names.specs.LookUp.{named_objects, object_named, the_number};
ghost use Rattle.rf_build.specs.Resolved.{count_of_item, kind_by_atom, kind_of_object, resolved_object, resolved_objects};

use crate::counts::count_or_any;
use rf_names::Names;
use rf_problem::{Class, ObjectDecl, ObjectKind, ObjectName, new_objects};
use rf_syntax::{Item, Name};
use rf_values::Count;
use std::alloc::{AllocError, Global};

fn count_of_item(item: Option<&Item>) -> Count
    ensures { result ≡ count_of_item (option_map (λ i. i.now) item.entry) }
{
    match item {
        Some(item) => count_or_any(item.range),
        None => Count { lo: 1, hi: Some(1) },
    }
}

fn kind_by_atom(is_atom: bool) -> ObjectKind
    ensures { result ≡ kind_by_atom is_atom }
{
    if is_atom {
        ObjectKind::Atom
    } else {
        ObjectKind::Plain
    }
}

fn kind_of_object(names: &Names, text: &str) -> ObjectKind
    ensures { result ≡ kind_of_object names.now.declared.now text.now }
{
    match names.enum_of(text) {
        Some(class) => ObjectKind::LiteralOf(class),
        None => kind_by_atom(names.is_atom(text)),
    }
}

/// The number of the object of this name. Where no rule is broken there is one.
pub fn object_number(names: &Names, name: &Name) -> u64
    ensures { result ≡ the_number (object_named names.now.declared.now name.now.text) }
{
    names.object_named(name.text.as_str()).unwrap_or(0)
}

fn resolved_object(names: &Names, name: &Name) -> Result<ObjectDecl, AllocError>
    ensures { IfOk result (λ object. object ≡ resolved_object names.now.declared.now name.now) }
{
    let text = name.text.clone()?;
    let count = count_of_item(names.item_named(name.text.as_str()));
    let kind = kind_of_object(names, name.text.as_str());
    Ok(ObjectDecl {
        name: ObjectName::Named(text),
        count,
        kind,
    })
}

fn resolved_names(alloc: Global, names: &Names) -> Result<Vec<ObjectDecl>, AllocError>
    ensures { IfOk result (λ objects. objects.items
        ≡ map (resolved_object names.now.declared.now) (named_objects names.now.declared.now)) }
{
    let mut objects = Vec::new(alloc);
    for name in names.objects() {
        objects.push(resolved_object(names, name)?)?;
    }
    Ok(objects)
}

/// The named objects, and after them those that the new nodes of these classes come from.
pub fn resolved_objects(
    alloc: Global,
    names: &Names,
    classes: &[Class],
) -> Result<Vec<ObjectDecl>, AllocError>
    requires { length classes.now ≤ MOST_CLASSES }
    ensures { IfOk result (λ objects. objects.items
        ≡ resolved_objects names.now.declared.now classes.now) }
{
    let mut objects = resolved_names(alloc, names)?;
    let mut stock = new_objects(alloc, classes)?;
    objects.append(&mut stock)?;
    Ok(objects)
}
