//! The possible containers of an object.

ghost use Rattle.std.specs.Prelude.{◌≡◌, ◌<◌, ℕ, true, not, length};
ghost use Rattle.rf_rules.specs.Containers.{AreContainers, Covers, are_absent, are_only, covers, with_container};
ghost use Rattle.rf_rules.specs.Containment.{has_possible, is_only_possible, is_possible};

use super::references::is_containing;
use crate::words::{hi, may};
use rf_finite::within;
use rf_state::Facts;

/// From where an object may be contained: by no edge, by the edges of one reference from one object, or by others too.
#[derive(Clone, Copy, Debug, PartialEq, Eq)]
pub enum Containers {
    Absent,
    Only(u32, u64),
    Several,
}

impl Containers {
    /// Whether there is none.
    pub fn are_absent(self) -> bool
        ensures { result ≡ are_absent self }
    {
        self == Containers::Absent
    }

    /// Whether a reference and an object are the only one.
    pub fn are_only(self, reference: u32, object: u64) -> bool
        ensures { result ≡ are_only self reference object }
    {
        self == Containers::Only(reference, object)
    }

    /// These and one more.
    fn with(self, reference: u32, object: u64) -> Containers
        ensures { result ≡ with_container self reference object }
    {
        if self.are_absent() || self.are_only(reference, object) {
            Containers::Only(reference, object)
        } else {
            Containers::Several
        }
    }
}

/// Whether a reference and an object are a possible container of another.
fn is_possible<F: Facts>(view: &F, b: u64, q: u32, c: u64) -> bool
    requires reference { q < length (F.problem view.now).references }
    requires from { c < length (F.state view.now).objects }
    requires to { b < length (F.state view.now).objects }
    ensures { result ≡ is_possible (F.problem view.now) (F.state view.now) b q c }
{
    is_containing(view.problem(), q) && may(view, q, c, b) && within(1, hi(view, c))
}

/// The possible containers that were found and one more, if it is possible.
fn with_possible<F: Facts>(view: &F, b: u64, q: u32, c: u64, found: Containers) -> Containers
    requires reference { q < length (F.problem view.now).references }
    requires from { c < length (F.state view.now).objects }
    requires to { b < length (F.state view.now).objects }
    requires possible { AreContainers (F.problem view.now) (F.state view.now) b found }
    ensures possible { AreContainers (F.problem view.now) (F.state view.now) b result }
    ensures kept { Covers found result }
    ensures here { is_possible (F.problem view.now) (F.state view.now) b q c ≡ true → covers result q c ≡ true }
{
    if is_possible(view, b, q, c) {
        found.with(q, c)
    } else {
        found
    }
}

/// The possible containers that were found and those by a reference.
fn with_those_by<F: Facts>(view: &F, b: u64, q: u32, found: Containers) -> Containers
    requires reference { q < length (F.problem view.now).references }
    requires to { b < length (F.state view.now).objects }
    requires possible { AreContainers (F.problem view.now) (F.state view.now) b found }
    ensures possible { AreContainers (F.problem view.now) (F.state view.now) b result }
    ensures kept { Covers found result }
    ensures all { (c : ℕ) → c < length (F.state view.now).objects
        → is_possible (F.problem view.now) (F.state view.now) b q c ≡ true → covers result q c ≡ true }
{
    let mut found = found;
    if !is_containing(view.problem(), q) {
        return found;
    }
    let ends = view.ends_into(q, b);
    for number in 0..ends.count() {
        found = with_possible(view, b, q, ends.at(number), found);
        if found == Containers::Several {
            return found;
        }
    }
    found
}

/// The possible containers of an object.
pub fn possible_containers<F: Facts>(view: &F, b: u64) -> Containers
    requires { b < length (F.state view.now).objects }
    ensures absent { not (has_possible (F.problem view.now) (F.state view.now) b) ≡ are_absent result }
    ensures only { (r a : ℕ) → r < length (F.problem view.now).references → a < length (F.state view.now).objects
        → is_only_possible (F.problem view.now) (F.state view.now) r a b ≡ are_only result r a }
{
    let mut found = Containers::Absent;
    for reference in 0..view.problem().references.len() as u32 {
        found = with_those_by(view, b, reference, found);
    }
    found
}
