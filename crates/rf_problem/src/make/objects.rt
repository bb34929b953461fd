//! What the objects of every problem keep.

ghost use Rattle.std.specs.Prelude.{◌≡◌, ◌≤◌, ◌++◌, ◌∷◌, [], ◌↔◌, ◌&&◌, nat_lt, All, AllPairs, IfOk, IsTrue, List, length, map};
ghost use Rattle.rf_text.specs.Written.{CanBeQuoted};
ghost use Rattle.rf_problem.specs.Classes.{class_at};
ghost use Rattle.rf_problem.specs.Noted.{AreNamedApart, AreNoted};
ghost use Rattle.rf_problem.specs.declared.object.ObjectDecl.{ObjectDecl as ObjectValue};
ghost use Rattle.rf_problem.specs.Valid.{AreObjects, HasName, FitsCount, IsSmall, fits_kind, has_new, is_named, named_objects, new_numbers, new_object};

use super::counts::is_small;
use crate::stock::has_new;
use crate::{Class, ObjectDecl, ObjectKind, ObjectName};
use rf_bounds::MOST_OBJECTS;
use rf_text::can_be_quoted;
use rf_values::Count;
use std::alloc::{AllocError, Global};
use std::collections::BTreeSet;

fn is_named(object: &ObjectDecl) -> bool
    ensures { result ≡ is_named object.now.name }
{
    match object.name {
        ObjectName::Named(_) => true,
        ObjectName::NewOf(_) => false,
    }
}

fn count_named(objects: &[ObjectDecl]) -> usize
    ensures count { result ≡ length (named_objects objects.now) }
    ensures within { result ≤ length objects.now }
{
    objects.iter().filter(|object| is_named(*object)).count()
}

fn can_be_named(object: &ObjectDecl) -> bool
    ensures { IsTrue result ↔ HasName object.now.name CanBeQuoted }
{
    match &object.name {
        ObjectName::Named(name) => can_be_quoted(name.as_str().as_bytes()),
        ObjectName::NewOf(_) => true,
    }
}

fn have_names(objects: &[ObjectDecl]) -> bool
    ensures { IsTrue result ↔ All (λ o. HasName o.name CanBeQuoted) objects.now }
{
    objects.iter().all(can_be_named)
}

// Notes the name of an object, if it has one. Whether no object before has the same.
fn note<'a>(seen: &mut BTreeSet<&'a [u8]>, object: &'a ObjectDecl) -> Result<bool, AllocError>
    ensures { IfOk result (λ is_new. (objects : List ObjectValue) → AreNoted objects seen.old →
        AreNoted (objects ++ object.now ∷ []) seen.new
        × (IsTrue is_new ↔ All (λ o. AreNamedApart o object.now) objects)) }
{
    match &object.name {
        ObjectName::Named(name) => Ok(seen.insert(name.as_str().as_bytes())?),
        ObjectName::NewOf(_) => Ok(true),
    }
}

// Whether no two of the objects have the same name.
fn have_names_apart(alloc: Global, objects: &[ObjectDecl]) -> Result<bool, AllocError>
    ensures { IfOk result (λ apart. IsTrue apart ↔ AllPairs AreNamedApart objects.now) }
{
    let mut seen = BTreeSet::new(alloc);
    for object in objects {
        if !note(&mut seen, object)? {
            return Ok(false);
        }
    }
    Ok(true)
}

fn have_small_counts(objects: &[ObjectDecl]) -> bool
    ensures { IsTrue result ↔ All (λ o. IsSmall o.count) objects.now }
{
    objects.iter().all(|object| is_small(object.count))
}

fn is_enum(classes: &[Class], class: u32) -> bool
    ensures { result ≡ (nat_lt class (length classes.now) && (class_at classes.now class).is_enum) }
{
    match classes.get(class as usize) {
        Some(class) => class.is_enum,
        None => false,
    }
}

// Whether an object of this name may be of this kind.
fn has_kind(classes: &[Class], object: &ObjectDecl) -> bool
    ensures { result ≡ fits_kind classes.now object.now.name object.now.kind }
{
    match object.kind {
        ObjectKind::Plain => true,
        ObjectKind::Atom => is_named(object),
        ObjectKind::LiteralOf(class) => is_named(object) && is_enum(classes, class),
    }
}

fn have_kinds(classes: &[Class], objects: &[ObjectDecl]) -> bool
    ensures { IsTrue result ↔ All (λ o. IsTrue (fits_kind classes.now o.name o.kind)) objects.now }
{
    objects.iter().all(|object| has_kind(classes, object))
}

// Whether an object has the count of its kind.
fn has_count(object: &ObjectDecl) -> bool
    ensures { IsTrue result ↔ FitsCount object.now.kind object.now.count }
{
    let one = Count { lo: 1, hi: Some(1) };
    match object.kind {
        ObjectKind::Plain => true,
        ObjectKind::Atom | ObjectKind::LiteralOf(_) => object.count == one,
    }
}

fn have_counts(objects: &[ObjectDecl]) -> bool
    ensures { IsTrue result ↔ All (λ o. FitsCount o.kind o.count) objects.now }
{
    objects.iter().all(has_count)
}

fn is_new_object(object: &ObjectDecl, class: u32) -> bool
    ensures { IsTrue result ↔ (object.now ≡ new_object class) }
{
    match object.name {
        ObjectName::Named(_) => false,
        ObjectName::NewOf(number) => {
            number == class
                && object.count == Count { lo: 0, hi: None }
                && object.kind == ObjectKind::Plain
        }
    }
}

// Whether they are the objects that the new nodes of these classes come from.
fn are_stock(classes: &[Class], objects: &[ObjectDecl]) -> bool
    requires { length classes.now ≤ 256 }
    ensures { IsTrue result ↔ (objects.now ≡ map new_object (new_numbers 0 classes.now)) }
{
    let mut rest = objects;
    for (number, class) in classes.iter().enumerate() {
        if has_new(class) {
            let Some((first, others)) = rest.split_first() else {
                return false;
            };
            if !is_new_object(first, number as u32) {
                return false;
            }
            rest = others;
        }
    }
    rest.is_empty()
}

// Whether after the named objects come those that the new nodes come from, and nothing else.
fn are_stocked(classes: &[Class], objects: &[ObjectDecl]) -> bool
    requires { length classes.now ≤ 256 }
    ensures { IsTrue result ↔ (objects.now ≡ named_objects objects.now ++ map new_object (new_numbers 0 classes.now)) }
{
    are_stock(classes, &objects[count_named(objects)..])
}

/// Whether they are what the objects of every problem of these classes are.
pub fn are_objects(
    alloc: Global,
    classes: &[Class],
    objects: &[ObjectDecl],
) -> Result<bool, AllocError>
    requires { length classes.now ≤ 256 }
    ensures { IfOk result (λ fit. IsTrue fit ↔ AreObjects classes.now objects.now) }
{
    if count_named(objects) > MOST_OBJECTS || !have_names(objects) {
        return Ok(false);
    }
    if !have_names_apart(alloc, objects)? {
        return Ok(false);
    }
    if !have_small_counts(objects) || !have_kinds(classes, objects) {
        return Ok(false);
    }
    Ok(have_counts(objects) && are_stocked(classes, objects))
}
