//! Search trees over the rows: look-ups, insertion and rebalancing.

ghost use Rattle.std.specs.Prelude.{◌≡◌, ◌+◌, ◌*◌, ◌-◌, ◌<◌, ◌≤◌, ◌++◌, ◌∷◌, [], length, max};
ghost use Rattle.rf_store.specs.Entries.{IsInOrder, value_at, first_from};
ghost use Rattle.rf_store.specs.Part.{part_at};
ghost use Rattle.rf_store.specs.Tree.{CanJoin, IsJoined, IsPut};

use crate::compare::{Key, Value, compare};
use crate::table::{Row, Table};
use std::cmp::Ordering;

/// The entry of a row.
fn entry_of(row: &Row) -> (Key, Value)
    ensures { result ≡ (row.now.key, row.now.value) }
{
    let key = row.key;
    let value = row.value;
    (key, value)
}

/// The value at a key.
pub(crate) fn find(table: &Table, root: u64, key: &Key) -> Option<Value>
    requires { root < length table.now.parts }
    ensures { result ≡ value_at (part_at table.now.parts root).entries key.now }
{
    let mut link = root;
    while let Some(row) = table.root(link) {
        match compare(key, &row.key) {
            Ordering::Less => link = row.left,
            Ordering::Equal => return Some(row.value),
            Ordering::Greater => link = row.right,
        }
    }
    None
}

/// The first entry whose key is not below the given one.
pub(crate) fn find_from(table: &Table, link: u64, key: &Key) -> Option<(Key, Value)>
    requires { link < length table.now.parts }
    ensures first { result ≡ first_from (part_at table.now.parts link).entries key.now }
    ensures in_order { IsInOrder (part_at table.now.parts link).entries }
{
    let row = table.root(link)?;
    match compare(key, &row.key) {
        Ordering::Less => match find_from(table, row.left, key) {
            Some(entry) => Some(entry),
            None => Some(entry_of(row)),
        },
        Ordering::Equal => Some(entry_of(row)),
        Ordering::Greater => find_from(table, row.right, key),
    }
}

/// Adds the rows of a tree with a value put at a key, and answers its root.
pub(crate) fn insert(table: &mut Table, link: u64, key: &Key, value: &Value) -> u64
    requires in_table { link < length table.old.parts }
    requires room { 2 * (part_at table.old.parts link).height + 3 ≤ table.old.room }
    ensures { IsPut table.old table.new link key.now value.now result }
{
    let Some(&row) = table.root(link) else {
        return table.push(0, (*key, *value), 0);
    };
    let here = entry_of(&row);
    match compare(key, &row.key) {
        Ordering::Less => {
            let left = insert(table, row.left, key, value);
            join(table, left, here, row.right)
        }
        Ordering::Equal => table.push(row.left, (*key, *value), row.right),
        Ordering::Greater => {
            let right = insert(table, row.right, key, value);
            join(table, row.left, here, right)
        }
    }
}

/// Adds the rows of a balanced tree with an entry between two trees whose heights differ by at most 2.
fn join(table: &mut Table, left: u64, entry: (Key, Value), right: u64) -> u64
    requires room { 3 ≤ table.old.room }
    requires sides { CanJoin 2 table.old left entry right }
    ensures { IsJoined table.old table.new left entry right result }
{
    let left_height = table.height(left);
    let right_height = table.height(right);
    if left_height.saturating_sub(right_height) > 1 {
        lower_left(table, left, entry, right)
    } else if right_height.saturating_sub(left_height) > 1 {
        lower_right(table, left, entry, right)
    } else {
        table.push(left, entry, right)
    }
}

/// Joins where the left tree is higher by 2: one rotation to the right, or a double one.
fn lower_left(table: &mut Table, left: u64, entry: (Key, Value), right: u64) -> u64
    requires room { 3 ≤ table.old.room }
    requires sides { CanJoin 2 table.old left entry right }
    requires some { 0 < left }
    requires higher { (part_at table.old.parts left).height ≡ (part_at table.old.parts right).height + 2 }
    ensures { IsJoined table.old table.new left entry right result }
{
    let row = *table.node(left);
    let below = entry_of(&row);
    if table.height(row.left) >= table.height(row.right) {
        let lowered = table.push(row.right, entry, right);
        return table.push(row.left, below, lowered);
    }
    let inner = *table.node(row.right);
    let middle = entry_of(&inner);
    let lower = table.push(row.left, below, inner.left);
    let upper = table.push(inner.right, entry, right);
    table.push(lower, middle, upper)
}

/// Joins where the right tree is higher by 2: one rotation to the left, or a double one.
fn lower_right(table: &mut Table, left: u64, entry: (Key, Value), right: u64) -> u64
    requires room { 3 ≤ table.old.room }
    requires sides { CanJoin 2 table.old left entry right }
    requires some { 0 < right }
    requires higher { (part_at table.old.parts right).height ≡ (part_at table.old.parts left).height + 2 }
    ensures { IsJoined table.old table.new left entry right result }
{
    let row = *table.node(right);
    let below = entry_of(&row);
    if table.height(row.right) >= table.height(row.left) {
        let lowered = table.push(left, entry, row.left);
        return table.push(lowered, below, row.right);
    }
    let inner = *table.node(row.left);
    let middle = entry_of(&inner);
    let lower = table.push(left, entry, inner.left);
    let upper = table.push(inner.right, below, row.right);
    table.push(lower, middle, upper)
}
