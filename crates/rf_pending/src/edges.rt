//! Rows of references and objects.

ghost use Rattle.std.specs.Prelude.{◌≡◌, ◌<◌, ◌+◌, ◌*◌, IfOk};
ghost use Rattle.rf_finite.specs.Range.{first_below};
ghost use Rattle.rf_pending.specs.Rows.{CoversEdges};

use crate::Marks;
use crate::rows::{Rows, least};
use rf_rules::Rule;
use std::alloc::{AllocError, Global};

/// Rows of rules, one for each reference and object.
pub trait EdgeRows {
    ghost use Rattle.std.specs.Prelude.{◌≡◌, ◌<◌, ℕ, Option, IfOk};
    ghost use Rattle.rf_rules.specs.declared.rule.Rule.{Rule};

    ghost references: { Self → ℕ };

    ghost objects: { Self → ℕ };

    ghost found: { Self → ℕ → ℕ → Option Rule };

    /// How many objects there are.
    fn objects(&self) -> u64
        ensures { result ≡ objects self.now };

    /// How many references there are.
    fn references(&self) -> u32
        ensures { result ≡ references self.now };

    /// The least rule of a row that fires. Where memory runs out, the answer is an `AllocError`.
    fn find(&self, alloc: Global, reference: u32, object: u64) -> Result<Option<Rule>, AllocError>
        requires reference { reference < references self.now }
        requires object { object < objects self.now }
        ensures { IfOk result (λ rule. rule ≡ found self.now reference object) };
}

// The same rows, numbered reference by reference.
#[derive(Drop)]
struct Numbered<'r, R: EdgeRows> {
    edges: &'r R,
}

impl<R: EdgeRows> Rows for Numbered<'_, R> {
    ghost use Rattle.std.specs.Prelude.{◌*◌, ◌/◌, ◌%◌};

    ghost many = { λ rows. R.references rows.edges.now * R.objects rows.edges.now };

    ghost found = { λ rows k. R.found rows.edges.now (k / R.objects rows.edges.now) (k % R.objects rows.edges.now) };

    fn find(&self, alloc: Global, row: u64) -> Result<Option<Rule>, AllocError> {
        let objects = self.edges.objects();
        let reference = row / objects;
        // No row is past those of the last reference.
        if reference >= self.edges.references() as u64 {
            return Ok(None);
        }
        self.edges.find(alloc, reference as u32, row % objects)
    }
}

/// The number of the row of a reference and an object, where there are so many objects.
pub fn row_of(objects: u64, reference: u32, object: u64) -> u128
    requires { object < objects }
    ensures { result ≡ reference * objects + object }
{
    reference as u128 * objects as u128 + object as u128
}

/// The least rule of all rows that fires, as [`least`] finds it.
pub fn least_of_edges<R: EdgeRows>(
    alloc: Global,
    edges: &R,
    marks: &mut Marks,
) -> Result<Option<Rule>, AllocError>
    requires { CoversEdges (R.references edges.now) (R.objects edges.now) (R.found edges.now) marks.old }
    ensures least { IfOk result (λ rule. rule ≡ first_below (R.references edges.now) (λ r. first_below (R.objects edges.now) (R.found edges.now r))) }
    ensures covers { CoversEdges (R.references edges.now) (R.objects edges.now) (R.found edges.now) marks.new }
{
    least(alloc, &Numbered { edges }, marks)
}
