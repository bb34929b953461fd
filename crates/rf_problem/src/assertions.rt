//! The assertions of a problem.

ghost use Rattle.std.specs.Prelude.{◌≡◌, ◌+◌, ◌≤◌, length, IfOk};
ghost use Rattle.rf_bounds.specs.declared.TheConstants.{MOST_PARAMETERS};
ghost use Rattle.rf_problem.specs.Asserted.{heard};
ghost use Rattle.rf_problem.specs.Patterns.{fits};
ghost use Rattle.rf_problem.specs.Spoken.{heard_by, is_at};

use crate::heard::Heard;
use crate::pattern::Pattern;
use crate::table::Table;
use crate::{Assertion, Symbol};
use rf_text::Items;
use std::alloc::{AllocError, Global};
use std::fmt;
use std::marker::Model;
use std::ops::DerefSlice;

/// A list of assertions, and what they say in a table. Contracts see the list.
#[derive(Drop)]
pub struct Assertions {
    list: Items<Assertion>,
    table: Table,
}

impl Model for Assertions {
    ghost use Rattle.std.specs.Prelude.{List};
    ghost use Rattle.rf_problem.specs.declared.assertion.Assertion.{Assertion as Statement};
    ghost use Rattle.rf_problem.specs.Table.{IsTable};

    ghost Value = { List Statement };

    ghost view = { λ a. a.list };

    ghost invariant = { λ a. IsTable a.list a.table.heard a.table.stars };
}

impl fmt::Debug for Assertions {
    fn fmt<W: fmt::Write>(&self, f: &mut fmt::Formatter<W>) -> fmt::Result {
        fmt::Debug::fmt(&self.list, f)
    }
}

impl DerefSlice for Assertions {
    type Elem = Assertion;

    ghost deref_gives = { λ it xs. xs ≡ it };

    fn deref(&self) -> &[Assertion]
        ensures { result.now ≡ self.now }
    {
        self.list.as_slice()
    }
}

impl Assertions {
    /// These assertions, with their table. It takes a step for each of them, each in the logarithm of their number.
    pub fn of(alloc: Global, assertions: Vec<Assertion>) -> Result<Assertions, AllocError>
        ensures { IfOk result (λ made. made ≡ assertions.items) }
    {
        let table = Table::of(alloc, &assertions)?;
        Ok(Assertions {
            list: Items::from_vec(assertions),
            table,
        })
    }

    pub fn as_slice(&self) -> &[Assertion]
        ensures { result.now ≡ self.now }
    {
        self.list.as_slice()
    }

    // What is said of a symbol by the assertions with just these arguments.
    fn heard_at(&self, symbol: Symbol, args: &[Option<u64>]) -> Heard
        requires { length args.now ≤ MOST_PARAMETERS }
        ensures { result ≡ heard_by (is_at symbol args.now) self.now }
    {
        self.table.heard_at(symbol, args)
    }

    // What is said of a symbol by the assertions whose first arguments are these, and of whose other ones each is
    // the object at its place, or `*`.
    fn heard_from(&self, symbol: Symbol, first: &Pattern, rest: &[u64]) -> Heard
        requires { length first.now + length rest.now ≤ MOST_PARAMETERS }
        ensures { result ≡ heard_by (fits symbol first.now rest.now) self.now }
    {
        let Some((object, others)) = rest.split_first() else {
            return self.heard_at(symbol, first.as_slice());
        };
        let told = self.heard_from(symbol, &first.with(Some(*object)), others);
        told.join(self.heard_from(symbol, &first.with(None), others))
    }

    /// What they say of a symbol at a tuple of objects. It takes no memory, and looks up each list of arguments
    /// that an assertion which speaks of the tuple can have, once.
    pub fn heard(&self, symbol: Symbol, tuple: &[u64]) -> Heard
        requires { length tuple.now ≤ MOST_PARAMETERS }
        ensures { result ≡ heard self.now symbol tuple.now }
    {
        self.heard_from(symbol, &Pattern::empty(), tuple)
    }
}
