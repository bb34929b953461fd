//! The table of rows, each the root of a balanced search tree.

ghost use Rattle.std.specs.Prelude.{◌≡◌, ◌+◌, ◌^◌, ◌<◌, ◌≤◌, ◌∷◌, [], length, take, OnOk, IfNone, IfSome};
ghost use Rattle.rf_store.specs.Part.{empty_part, part_at};
ghost use Rattle.rf_store.specs.Tree.{CanJoin, IsPushed};

use crate::compare::{Key, Value};
use std::alloc::{AllocError, Global};
use std::marker::Model;

/// One node. Its sides are rows before it, by their place counted from 1; 0 is an empty side.
/// What a search reads stands first, in one line of the cache.
#[derive(Clone, Copy)]
pub(crate) struct Row {
    pub(crate) key: Key,
    pub(crate) left: u64,
    pub(crate) right: u64,
    pub(crate) value: Value,
    pub(crate) height: u64,
}

/// The rows, oldest first.
#[derive(Drop)]
pub(crate) struct Table {
    rows: Vec<Row>,
}

impl Model for Table {
    ghost use Rattle.std.specs.Prelude.{◌-◌, vec_len, vec_capacity};
    ghost use Rattle.rf_store.specs.Part.{Parts};

    ghost Value = { Parts };

    ghost use Rattle.rf_store.specs.Rows.{parts_of, IsSound};

    ghost view = { λ t. record { parts = parts_of t.rows.items; room = vec_capacity t.rows - vec_len t.rows } };

    ghost invariant = { λ t. IsSound t.rows.items };
}

impl Table {
    ghost use Rattle.rf_store.specs.Rows.{IsNode, IsTree};

    /// No rows. Takes no memory.
    pub(crate) fn new(alloc: Global) -> Table
        ensures { result.parts ≡ empty_part ∷ [] }
    {
        Table {
            rows: Vec::new(alloc),
        }
    }

    /// The number of rows.
    pub(crate) fn len(&self) -> u64
        ensures { result + 1 ≡ length self.now.parts }
    {
        self.rows.len() as u64
    }

    /// The row of a tree that is not empty.
    pub(crate) fn node(&self, link: u64) -> &Row
        requires some { 0 < link }
        requires in_table { link < length self.now.parts }
        ensures node { IsNode self.now.parts link result.now }
        ensures tree { IsTree link (part_at self.now.parts link) }
    {
        &self.rows[link as usize - 1]
    }

    /// The row of a tree, or `None` where it is empty.
    pub(crate) fn root(&self, link: u64) -> Option<&Row>
        requires { link < length self.now.parts }
        ensures zero { IfNone result (link ≡ 0) }
        ensures empty { IfNone result (part_at self.now.parts link ≡ empty_part) }
        ensures node { IfSome result (λ row. IsNode self.now.parts link row.now) }
        ensures tree { IsTree link (part_at self.now.parts link) }
    {
        let _ = &self.rows;
        if link == 0 {
            return None;
        }
        Some(self.node(link))
    }

    /// The height of a tree, 0 where it is empty.
    pub(crate) fn height(&self, link: u64) -> u64
        requires { link < length self.now.parts }
        ensures height { result ≡ (part_at self.now.parts link).height }
        ensures tree { IsTree link (part_at self.now.parts link) }
        ensures low { result ≤ link }
        ensures small { result < 2 ^ 56 }
    {
        let rows = self.rows.as_slice();
        if link == 0 {
            0
        } else {
            rows[link as usize - 1].height
        }
    }

    /// Takes the memory for `count` more rows.
    pub(crate) fn reserve(&mut self, count: u64) -> Result<(), AllocError>
        ensures parts { self.new.parts ≡ self.old.parts }
        ensures room { OnOk result (count ≤ self.new.room) }
    {
        self.rows.reserve(count as usize)
    }

    /// Adds the node over two trees.
    pub(crate) fn push(&mut self, left: u64, entry: (Key, Value), right: u64) -> u64
        requires room { 0 < self.old.room }
        requires sides { CanJoin 1 self.old left entry right }
        ensures { IsPushed self.old self.new left entry right result }
    {
        let height = self.height(left).max(self.height(right)) + 1;
        let (key, value) = entry;
        let row = Row {
            key,
            left,
            right,
            value,
            height,
        };
        let link = self.rows.len() as u64 + 1;
        let _ = self.rows.push(row);
        link
    }

    /// Cuts the table to its first `count` rows. The capacity stays.
    pub(crate) fn truncate(&mut self, count: u64)
        requires { count < length self.old.parts }
        ensures { self.new.parts ≡ take (count + 1) self.old.parts }
    {
        self.rows.truncate(count as usize);
    }
}
