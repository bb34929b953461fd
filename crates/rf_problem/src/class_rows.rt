//! Which classes are below which, in a row for each class.

ghost use Rattle.std.specs.Prelude.{◌≡◌, ◌<◌, ◌≤◌, ◌||◌, ℕ, false, length, IfOk};
ghost use Rattle.std.specs.FinSet.{contains};
ghost use Rattle.std.specs.List.{list_any};
ghost use Rattle.rf_problem.specs.Above.{AreAbove, AreBelow, AreSelves, row};
ghost use Rattle.rf_problem.specs.Classes.{class_at, is_below, is_concrete};
ghost use Rattle.rf_problem.specs.Raised.{AreSound, AreWithin, HaveThrough};

use crate::Class;
use rf_values::ClassSet;
use std::alloc::{AllocError, Global};

fn class_at(classes: &[Class], class: u32) -> &Class
    requires { class < length classes.now }
    ensures { result.now ≡ class_at classes.now class }
{
    &classes[class as usize]
}

// The row of a class, empty where there is none.
fn row(rows: &[ClassSet], class: u32) -> ClassSet
    ensures { result ≡ row rows.now class }
{
    match rows.get(class as usize) {
        Some(row) => *row,
        None => ClassSet::empty(),
    }
}

// The row of a class and those of the classes that it extends, together.
fn joined_row(classes: &[Class], rows: &[ClassSet], class: u32) -> ClassSet
    requires { class < length classes.now }
    ensures { (d : ℕ) → contains result d ≡
        (contains (row rows.now class) d
        || list_any (λ s. contains (row rows.now s) d) (class_at classes.now class).supers) }
{
    let mut joined = row(rows, class);
    for super_class in class_at(classes, class).supers.iter() {
        joined = joined.either(row(rows, *super_class));
    }
    joined
}

// Adds to each row those of the classes that its class extends, and says whether any grew.
fn raise(classes: &[Class], rows: &mut [ClassSet]) -> bool
    requires few { length classes.now ≤ 256 }
    requires rows { length rows.old ≡ length classes.now }
    ensures same_length { length rows.new ≡ length classes.now }
    ensures kept { AreWithin rows.old rows.new }
    ensures through { HaveThrough classes.now (length classes.now) rows.old rows.new }
    ensures sound { AreSound classes.now rows.old → AreSound classes.now rows.new }
    ensures settled { result ≡ false → AreWithin rows.new rows.old }
{
    let mut grew = false;
    for class in 0..classes.len() as u32 {
        let joined = joined_row(classes, rows, class);
        if !joined.without(row(rows, class)).is_empty() {
            rows[class as usize] = joined;
            grew = true;
        }
    }
    grew
}

// Completes rows that have their classes alone.
fn complete(classes: &[Class], rows: &mut [ClassSet])
    requires few { length classes.now ≤ 256 }
    requires rows { AreSelves classes.now rows.old }
    ensures { AreAbove classes.now rows.new }
{
    for _round in 0..classes.len() + 1 {
        if !raise(classes, rows) {
            return;
        }
    }
}

// The rows that have their classes alone.
fn own_rows(alloc: Global, classes: &[Class]) -> Result<Vec<ClassSet>, AllocError>
    requires { length classes.now ≤ 256 }
    ensures { IfOk result (λ rows. AreSelves classes.now rows.items) }
{
    let mut rows = Vec::with_capacity(alloc, classes.len())?;
    for class in 0..classes.len() as u32 {
        rows.push(ClassSet::empty().adding(class))?;
    }
    Ok(rows)
}

// The rows of the classes that each class is below.
fn rows_above(alloc: Global, classes: &[Class]) -> Result<Vec<ClassSet>, AllocError>
    requires { length classes.now ≤ 256 }
    ensures { IfOk result (λ rows. AreAbove classes.now rows.items) }
{
    let mut rows = own_rows(alloc, classes)?;
    complete(classes, rows.as_mut_slice());
    Ok(rows)
}

// The classes below a class, by the rows of those above each.
fn row_below(classes: &[Class], above: &[ClassSet], top: u32) -> ClassSet
    requires few { length classes.now ≤ 256 }
    requires rows { AreAbove classes.now above.now }
    requires there { top < length classes.now }
    ensures { (c : ℕ) → contains result c ≡ is_below classes.now c top }
{
    let mut below = ClassSet::empty();
    for class in 0..classes.len() as u32 {
        if row(above, class).has(top) {
            below = below.adding(class);
        }
    }
    below
}

/// The rows of the classes below each class.
pub fn rows_below(alloc: Global, classes: &[Class]) -> Result<Vec<ClassSet>, AllocError>
    requires { length classes.now ≤ 256 }
    ensures { IfOk result (λ rows. AreBelow classes.now (length classes.now) rows.items) }
{
    let above = rows_above(alloc, classes)?;
    let mut rows = Vec::with_capacity(alloc, classes.len())?;
    for top in 0..classes.len() as u32 {
        rows.push(row_below(classes, &above, top))?;
    }
    Ok(rows)
}

/// The classes that nodes may have.
pub fn concrete_classes(classes: &[Class]) -> ClassSet
    requires { length classes.now ≤ 256 }
    ensures { (c : ℕ) → contains result c ≡ is_concrete classes.now c }
{
    let mut concrete = ClassSet::empty();
    for class in 0..classes.len() as u32 {
        if !class_at(classes, class).is_abstract {
            concrete = concrete.adding(class);
        }
    }
    concrete
}
