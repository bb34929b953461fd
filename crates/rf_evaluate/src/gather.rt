//! What is done with the tuples that a search meets.

ghost use Rattle.std.specs.Prelude.{◌≡◌};
ghost use Rattle.rf_evaluate.specs.Gathering.{AreKeeping, IsFirst, IsNotAfter, truth_at};

use rf_finite::earlier;
use rf_values::{Truth, Tuple};
use std::alloc::AllocError;
use std::collections::BTreeMap;

/// What is done with the tuples that a search meets, each with a truth that goes into its value.
pub trait Gather {
    ghost use Rattle.std.specs.Prelude.{ℕ, List, ◌≡◌, ◌≢◌, IsTrue, OnOk, true, slice_index};
    ghost use Rattle.rf_values.specs.declared.truth.Truth.TheVariants.{False};
    ghost use Rattle.rf_evaluate.specs.Gathering.{Column, HasGathered, tells};

    // what is told of the tuples that are there
    ghost has: { Self → List ℕ → Column → Type 0 };

    // what need not be told of tuples any more
    ghost covers: { Self → List ℕ → Column → Type 0 };

    /// Whether no tuple with this first number need be added any more.
    fn covers_from(&self, first: u64) -> bool
        ensures { IsTrue result → (t : List ℕ) → slice_index t 0 ≡ first
            → (c : Column) → covers self.now t c };

    /// Whether nothing that this truth of a tuple tells need be added any more.
    fn is_settled(&self, tuple: Tuple, value: Truth) -> bool
        ensures { IsTrue result → (c : Column) → tells c value ≡ true → covers self.now tuple c };

    /// Adds a truth of a tuple, where it is wanted.
    fn add(&mut self, tuple: Tuple, value: Truth) -> Result<(), AllocError>
        requires { value ≢ False }
        ensures { OnOk result (HasGathered has covers (λ t c. (t ≡ tuple) × (tells c value ≡ true))
            self.old self.new) };
}

/// The first of the tuples alone.
impl Gather for Option<Tuple> {
    ghost has = { IsFirst };

    ghost covers = { IsNotAfter };

    fn covers_from(&self, first: u64) -> bool {
        let Some(tuple) = self else {
            return false;
        };
        let items = tuple.as_slice();
        !items.is_empty() && items[0] < first
    }

    fn is_settled(&self, tuple: Tuple, _value: Truth) -> bool {
        match self {
            Some(first) => tuple >= *first,
            None => false,
        }
    }

    fn add(&mut self, tuple: Tuple, _value: Truth) -> Result<(), AllocError> {
        *self = earlier(*self, Some(tuple));
        Ok(())
    }
}

/// The value that is kept for a tuple.
fn truth_at(values: &BTreeMap<Tuple, Truth>, tuple: Tuple) -> Truth
    ensures { result ≡ truth_at values.now tuple }
{
    match values.get(&tuple) {
        Some(truth) => *truth,
        None => Truth::False,
    }
}

/// The values of all of the tuples.
impl Gather for BTreeMap<Tuple, Truth> {
    ghost has = { AreKeeping };

    ghost covers = { AreKeeping };

    fn covers_from(&self, _first: u64) -> bool {
        false
    }

    fn is_settled(&self, tuple: Tuple, value: Truth) -> bool {
        let kept = truth_at(self, tuple);
        kept.or(value) == kept
    }

    fn add(&mut self, tuple: Tuple, value: Truth) -> Result<(), AllocError> {
        let more = truth_at(self, tuple).or(value);
        self.insert(tuple, more)?;
        Ok(())
    }
}
