//! The store: the current map, its saved versions, and what each call does to them.

ghost use Rattle.std.specs.Prelude.{◌≡◌, ◌+◌, ◌*◌, ◌<◌, ◌≤◌, ◌++◌, ◌∷◌, [], ℕ, length, take, All, slice_get, IfSome, IfOk, OnOk, OnErr, MatchOption};
ghost use Rattle.rf_store.specs.Entries.{IsInOrder, value_at, with_entry};
ghost use Rattle.rf_store.specs.Contents.{SetsOnly, IsBelow, IsLeastFrom, IsGreatestHeight};

use crate::compare::{Key, Value};
use crate::table::Table;
use crate::tree::{find, find_from, insert};
use std::alloc::{AllocError, Global};
use std::marker::Model;

/// A saved version: its root, and how many rows the table had at its commit.
#[derive(Clone, Copy)]
struct Saved {
    root: u64,
    rows: u64,
}

/// A map from keys to values with saved versions. `restore` and `prune` go back to one at once.
#[derive(Drop)]
pub struct Store {
    table: Table,
    root: u64,
    saved: Vec<Saved>,
}

impl Model for Store {
    ghost use Rattle.rf_store.specs.Contents.{Contents};

    ghost Value = { Contents };

    ghost use Rattle.rf_store.specs.Store.{contents_of, IsStore};

    ghost view = { λ s. contents_of s.table.parts s.root s.saved.items };

    ghost invariant = { λ s. IsStore s.table.parts s.root s.saved.items };
}

impl Store {
    /// An empty map, with no saved version. Takes no memory.
    pub fn new(alloc: Global) -> Store
        ensures current { result.current ≡ [] }
        ensures saved { result.saved ≡ [] }
        ensures rows { result.rows ≡ 0 }
    {
        Store {
            table: Table::new(alloc),
            root: 0,
            saved: Vec::new(alloc),
        }
    }

    /// The value at a key.
    pub fn get(&self, key: &Key) -> Option<Value>
        ensures { result ≡ value_at self.now.current key.now }
    {
        find(&self.table, self.root, key)
    }

    /// The entry with the least key that is not below the given one.
    pub fn after(&self, key: &Key) -> Option<(Key, Value)>
        ensures least { MatchOption result
            (All (λ e. IsBelow e.0 key.now) self.now.current)
            (IsLeastFrom self.now.current key.now) }
        ensures in_order { IsInOrder self.now.current }
    {
        find_from(&self.table, self.root, key)
    }

    /// Puts a value at a key. Takes its memory first.
    pub fn put(&mut self, key: Key, value: Value) -> Result<(), AllocError>
        ensures entries { OnOk result (self.new.current ≡ with_entry self.old.current key value) }
        ensures sets { OnOk result (SetsOnly self.old.current self.new.current key value) }
        ensures saved { self.new.saved ≡ self.old.saved }

        // About two rows for each level of the tree.
        ensures few_rows { (h : ℕ) → IsGreatestHeight (length self.old.current) h → self.new.rows ≤ self.old.rows + (2 * h + 2) }
        ensures no_fewer_rows { self.old.rows ≤ self.new.rows }
        ensures err { OnErr result (self.new ≡ self.old) }
    {
        let height = self.table.height(self.root);
        self.table.reserve(2 * height + 3)?;
        self.root = insert(&mut self.table, self.root, &key, &value);
        Ok(())
    }

    /// Keeps the current map as a version, and answers its place.
    pub fn commit(&mut self) -> Result<u64, AllocError>
        ensures place { IfOk result (λ v. v ≡ length self.old.saved) }
        ensures saved { OnOk result (self.new.saved ≡ self.old.saved ++ record { entries = self.old.current; rows = self.old.rows } ∷ []) }
        ensures current { self.new.current ≡ self.old.current }
        ensures rows { self.new.rows ≡ self.old.rows }
        ensures err { OnErr result (self.new.saved ≡ self.old.saved) }
    {
        let place = self.saved.len() as u64;
        let rows = self.table.len();
        self.saved.push(Saved {
            root: self.root,
            rows,
        })?;
        Ok(place)
    }

    /// Makes a saved version the current map.
    pub fn restore(&mut self, v: u64)
        requires { v < length self.old.saved }
        ensures current { IfSome (slice_get self.old.saved v) (λ version. self.new.current ≡ version.entries) }
        ensures saved { self.new.saved ≡ self.old.saved }
        ensures rows { self.new.rows ≡ self.old.rows }
    {
        self.root = self.saved[v as usize].root;
    }

    /// Makes a saved version the current map, and forgets the later versions with the rows since its commit.
    /// The memory stays for rows to come.
    pub fn prune(&mut self, v: u64)
        requires { v < length self.old.saved }
        ensures current { IfSome (slice_get self.old.saved v) (λ version. self.new.current ≡ version.entries) }
        ensures saved { self.new.saved ≡ take (v + 1) self.old.saved }
        ensures rows { IfSome (slice_get self.old.saved v) (λ version. self.new.rows ≡ version.rows) }
    {
        let version = self.saved[v as usize];
        self.root = version.root;
        self.saved.truncate(v as usize + 1);
        self.table.truncate(version.rows);
    }

    /// The number of saved versions.
    pub fn kept(&self) -> u64
        ensures { result ≡ length self.now.saved }
    {
        self.saved.len() as u64
    }

    /// The number of rows in the table.
    pub fn rows(&self) -> u64
        ensures { result ≡ self.now.rows }
    {
        self.table.len()
    }
}
