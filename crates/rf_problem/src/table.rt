//! A table of what is heard of each symbol at each list of arguments that is written.

ghost use Rattle.std.specs.Prelude.{◌≡◌, if◌then◌else◌, ℕ, IfOk, OnOk};
ghost use Rattle.rf_bounds.specs.declared.TheConstants.{MOST_PARAMETERS};
ghost use Rattle.rf_problem.specs.Keys.{is_key, key_of};
ghost use Rattle.rf_problem.specs.Spoken.{join};
ghost use Rattle.rf_problem.specs.Table.{IsTable, heard_at, may_have, nothing};
ghost use Rattle.rf_problem.specs.declared.key.Key.{Key};

use crate::heard::Heard;
use crate::key::{Key, key_of, stars_of};
use crate::{Assertion, Symbol};
use rf_bounds::MOST_PARAMETERS;
use std::alloc::{AllocError, Global};
use std::collections::BTreeMap;

/// What is heard at each key, and for each choice of places, by its number, whether an assertion may have `*` at
/// just those.
#[derive(Drop)]
pub struct Table {
    heard: BTreeMap<Key, Heard>,
    stars: [bool; 16],
}

// What the map has at a key.
fn heard_at(heard: &BTreeMap<Key, Heard>, key: Key) -> Heard
    ensures { result ≡ heard_at heard.now key }
{
    match heard.get(&key) {
        Some(heard) => *heard,
        None => Heard::nothing(),
    }
}

// Joins what one more assertion says to what the map has at its key.
fn put(table: &mut BTreeMap<Key, Heard>, key: Key, told: Heard) -> Result<(), AllocError>
    ensures { OnOk result ((q : Key) → heard_at table.new q
        ≡ (if is_key key q then join (heard_at table.old key) told else heard_at table.old q)) }
{
    let heard = table.entry(key)?.or_insert(Heard::nothing());
    *heard = heard.join(told);
    Ok(())
}

impl Table {
    /// The table of some assertions. Those of more arguments than predicates have aren't in it.
    pub fn of(alloc: Global, assertions: &[Assertion]) -> Result<Table, AllocError>
        ensures { IfOk result (λ table. IsTable assertions.now table.heard table.stars) }
    {
        let mut heard = BTreeMap::new(alloc);
        let mut stars = [false; 16];
        for assertion in assertions {
            if assertion.args.len() <= MOST_PARAMETERS {
                let key = key_of(assertion.symbol, &assertion.args);
                put(&mut heard, key, Heard::of(assertion))?;
                stars[stars_of(&assertion.args)] = true;
            }
        }
        Ok(Table { heard, stars })
    }

    /// What the table has of a symbol at a list of arguments. It looks only where something may be.
    pub fn heard_at(&self, symbol: Symbol, args: &[Option<u64>]) -> Heard
        ensures { result ≡ (if may_have self.now.stars args.now then heard_at self.now.heard (key_of symbol args.now) else nothing) }
    {
        if self.stars[stars_of(args)] {
            heard_at(&self.heard, key_of(symbol, args))
        } else {
            Heard::nothing()
        }
    }
}
