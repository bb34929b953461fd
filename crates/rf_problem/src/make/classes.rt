//! What the classes of every problem keep.

ghost use Rattle.std.specs.Prelude.{not, ◌≡◌, ◌≢◌, ◌<◌, ◌≤◌, ◌↔◌, All, IsTrue, length};
ghost use Rattle.std.specs.FinSet.{contains};
ghost use Rattle.std.specs.List.{list_any};
ghost use Rattle.rf_text.specs.Written.{CanBeQuoted};
ghost use Rattle.rf_problem.specs.Classes.{class_at, extends};
ghost use Rattle.rf_finite.specs.Walks.{HasNoCycle};
ghost use Rattle.rf_problem.specs.Valid.{AreClasses, extends_no_enum, fits_enum};

use super::apart::{Apart, are_apart};
use super::cycles::{Edges, has_no_cycle};
use crate::Class;
use rf_bounds::MOST_CLASSES;
use rf_text::can_be_quoted;
use rf_values::ClassSet;

fn extends_some(class: &Class, set: ClassSet) -> bool
    ensures { result ≡ list_any (contains set) class.now.supers }
{
    class.supers.iter().any(|super_class| set.has(*super_class))
}

// From each class an edge leads to each that it extends directly.
#[derive(Drop)]
struct Extending<'a> {
    classes: &'a [Class],
}

impl Edges for Extending<'_> {
    ghost size = { λ e. length e.classes.now };

    ghost edge = { λ e. extends e.classes.now };

    fn leads_into(&self, from: u32, ends: ClassSet) -> bool {
        extends_some(&self.classes[from as usize], ends)
    }
}

impl Apart for Class {
    ghost AreApart = { λ c d. c.name ≢ d.name };

    fn is_apart(&self, other: &Class) -> bool {
        self.name.as_str() != other.name.as_str()
    }
}

fn are_named(classes: &[Class]) -> bool
    ensures { IsTrue result ↔ All (λ c. CanBeQuoted c.name) classes.now }
{
    classes
        .iter()
        .all(|class| can_be_quoted(class.name.as_str().as_bytes()))
}

fn extends_below(class: &Class, count: usize) -> bool
    ensures { IsTrue result ↔ All (λ s. s < count) class.now.supers }
{
    class
        .supers
        .iter()
        .all(|super_class| (*super_class as usize) < count)
}

fn extend_classes(classes: &[Class]) -> bool
    ensures { IsTrue result ↔ All (λ c. All (λ s. s < length classes.now) c.supers) classes.now }
{
    classes
        .iter()
        .all(|class| extends_below(class, classes.len()))
}

fn fits_enum(class: &Class) -> bool
    ensures { result ≡ fits_enum class.now }
{
    !class.is_enum || !class.is_abstract && class.supers.is_empty()
}

fn are_enums(classes: &[Class]) -> bool
    ensures { IsTrue result ↔ All (λ c. IsTrue (fits_enum c)) classes.now }
{
    classes.iter().all(fits_enum)
}

fn is_extendable(classes: &[Class], class: u32) -> bool
    ensures { result ≡ not (class_at classes.now class).is_enum }
{
    match classes.get(class as usize) {
        Some(class) => !class.is_enum,
        None => true,
    }
}

fn extends_no_enum(classes: &[Class], class: &Class) -> bool
    ensures { result ≡ extends_no_enum classes.now class.now }
{
    class
        .supers
        .iter()
        .all(|super_class| is_extendable(classes, *super_class))
}

fn extend_no_enum(classes: &[Class]) -> bool
    ensures { IsTrue result ↔ All (λ c. IsTrue (extends_no_enum classes.now c)) classes.now }
{
    classes.iter().all(|class| extends_no_enum(classes, class))
}

fn extend_no_cycle(classes: &[Class]) -> bool
    requires { length classes.now ≤ 256 }
    ensures { IsTrue result ↔ HasNoCycle (extends classes.now) (length classes.now) }
{
    has_no_cycle(&Extending { classes }, classes.len() as u32)
}

/// Whether they are what the classes of every problem are.
pub fn are_classes(classes: &[Class]) -> bool
    ensures { IsTrue result ↔ AreClasses classes.now }
{
    if classes.len() > MOST_CLASSES {
        return false;
    }
    if !are_named(classes) || !are_apart(classes) {
        return false;
    }
    if !are_enums(classes) || !extend_no_enum(classes) {
        return false;
    }
    extend_classes(classes) && extend_no_cycle(classes)
}
