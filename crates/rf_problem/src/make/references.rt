//! What the references of every problem keep.

ghost use Rattle.std.specs.Prelude.{◌≡◌, ◌≢◌, ◌<◌, ◌≤◌, ◌↔◌, ℕ, Some, All, IsTrue, length};
ghost use Rattle.std.specs.Option.{ForSome};
ghost use Rattle.rf_text.specs.Written.{CanBeQuoted};
ghost use Rattle.rf_problem.specs.Parts.{reference_at};
ghost use Rattle.rf_problem.specs.Valid.{AreMirrored, AreReferences, IsSmall};

use super::apart::{Apart, are_apart};
use super::counts::is_small;
use crate::{Class, Reference};
use rf_bounds::MOST_REFERENCES;
use rf_text::can_be_quoted;

impl Apart for Reference {
    ghost AreApart = { λ r s. r.source ≡ s.source → r.name ≢ s.name };

    fn is_apart(&self, other: &Reference) -> bool {
        self.source != other.source || self.name.as_str() != other.name.as_str()
    }
}

fn are_named(references: &[Reference]) -> bool
    ensures { IsTrue result ↔ All (λ r. CanBeQuoted r.name) references.now }
{
    references.iter().all(|reference| can_be_quoted(reference.name.as_str().as_bytes()))
}

fn have_sources(references: &[Reference], classes: usize) -> bool
    ensures { IsTrue result ↔ All (λ r. r.source < classes) references.now }
{
    references
        .iter()
        .all(|reference| (reference.source as usize) < classes)
}

fn have_targets(references: &[Reference], classes: usize) -> bool
    ensures { IsTrue result ↔ All (λ r. r.target < classes) references.now }
{
    references
        .iter()
        .all(|reference| (reference.target as usize) < classes)
}

fn have_small_ranges(references: &[Reference]) -> bool
    ensures { IsTrue result ↔ All (λ r. IsSmall r.range) references.now }
{
    references.iter().all(|reference| is_small(reference.range))
}

// Whether reference `own` is the opposite of reference `other`, with its ends exchanged.
fn are_mirrored(references: &[Reference], own: u32, other: u32) -> bool
    requires { own < length references.now }
    ensures { IsTrue result ↔ AreMirrored references.now own other }
{
    if other as usize >= references.len() {
        return false;
    }
    let (there, back) = (&references[own as usize], &references[other as usize]);
    back.opposite == Some(own) && back.source == there.target && back.target == there.source
}

fn has_mirror(references: &[Reference], number: u32) -> bool
    requires { number < length references.now }
    ensures { IsTrue result ↔ ForSome (reference_at references.now number).opposite (AreMirrored references.now number) }
{
    match references[number as usize].opposite {
        None => true,
        Some(other) => are_mirrored(references, number, other),
    }
}

fn have_mirrors(references: &[Reference]) -> bool
    requires { length references.now ≤ 512 }
    ensures { IsTrue result ↔ ((r : ℕ) → r < length references.now → ForSome (reference_at references.now r).opposite (AreMirrored references.now r)) }
{
    for number in 0..references.len() as u32 {
        if !has_mirror(references, number) {
            return false;
        }
    }
    true
}

/// Whether they are what the references of every problem of these classes are.
pub fn are_references(classes: &[Class], references: &[Reference]) -> bool
    ensures { IsTrue result ↔ AreReferences classes.now references.now }
{
    if references.len() > MOST_REFERENCES {
        return false;
    }
    if !are_named(references) || !are_apart(references) {
        return false;
    }
    if !have_sources(references, classes.len()) || !have_targets(references, classes.len()) {
        return false;
    }
    have_small_ranges(references) && have_mirrors(references)
}
