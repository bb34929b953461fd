//! The steps of a symbol from each element, for walks of one or more.

ghost use Rattle.std.specs.Prelude.{◌≡◌, ◌++◌, ◌∷◌, [], ◌+◌, ℕ, if◌then◌else◌, IfOk, OnOk};
ghost use Rattle.rf_values.specs.Truth.{may, must};
ghost use Rattle.rf_evaluate.specs.Known.{Known};
ghost use Rattle.rf_evaluate.specs.Steps.{AreStepsOf, IsRowOf};
ghost use Rattle.rf_problem.specs.declared.symbol.Symbol.{Symbol};

use rf_values::Truth;
use std::alloc::{AllocError, Global};

/// The elements to which a step leads from one element.
#[derive(Drop)]
pub struct Row {
    pub must: Vec<u64>,
    pub may: Vec<u64>,
}

impl Row {
    pub fn new(alloc: Global) -> Row
        ensures must { result.must.items ≡ [] }
        ensures may { result.may.items ≡ [] }
    {
        Row {
            must: Vec::new(alloc),
            may: Vec::new(alloc),
        }
    }

    /// Adds what is known of a step to an element.
    pub fn add(&mut self, y: u64, value: Truth) -> Result<(), AllocError>
        ensures must { OnOk result (self.new.must.items ≡ (if must value then self.old.must.items ++ y ∷ [] else self.old.must.items)) }
        ensures may { OnOk result (self.new.may.items ≡ (if may value then self.old.may.items ++ y ∷ [] else self.old.may.items)) }
    {
        if value.must() {
            self.must.push(y)?;
        }
        if value.may() {
            self.may.push(y)?;
        }
        Ok(())
    }
}

/// One side of the steps: what has to hold, or what can.
#[derive(Drop)]
pub struct Side {
    /// For each element those to which a step leads.
    pub successors: Vec<Vec<u64>>,
    /// Whether a walk may pass through an element.
    pub through: Vec<bool>,
}

impl Side {
    fn new(alloc: Global) -> Side
        ensures successors { result.successors.items ≡ [] }
        ensures through { result.through.items ≡ [] }
    {
        Side {
            successors: Vec::new(alloc),
            through: Vec::new(alloc),
        }
    }

    fn push(&mut self, successors: Vec<u64>, through: bool) -> Result<(), AllocError>
        ensures successors { OnOk result (self.new.successors.items ≡ self.old.successors.items ++ successors ∷ []) }
        ensures through { OnOk result (self.new.through.items ≡ self.old.through.items ++ through ∷ []) }
    {
        self.successors.push(successors)?;
        self.through.push(through)?;
        Ok(())
    }
}

/// The steps of a symbol.
#[derive(Drop)]
pub struct Steps {
    pub must: Side,
    pub may: Side,
}

impl Steps {
    pub fn new(alloc: Global) -> Steps
        ensures { (k : Known) (symbol : Symbol) → AreStepsOf k symbol 0 result }
    {
        Steps {
            must: Side::new(alloc),
            may: Side::new(alloc),
        }
    }

    /// Adds the steps from the next element.
    pub fn push(&mut self, row: Row, presence: Truth) -> Result<(), AllocError>
        ensures { OnOk result ((k : Known) (symbol : Symbol) (n : ℕ) → AreStepsOf k symbol n self.old → IsRowOf k symbol n row
            → presence ≡ k.presence n → AreStepsOf k symbol (n + 1) self.new) }
    {
        self.must.push(row.must, presence.must())?;
        self.may.push(row.may, presence.may())?;
        Ok(())
    }
}
