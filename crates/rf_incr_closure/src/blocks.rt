//! A block of a row: as many marks as a value has bits, written at its key.

ghost use Rattle.rf_store.specs.Entries.{value_at};
ghost use Rattle.std.specs.Prelude.{◌≡◌, ◌≢◌, ◌==◌, ℕ, ◌+◌, ◌*◌, ◌/◌, ◌%◌, ◌^◌, ◌<◌, ◌≤◌, if◌then◌else◌, List, length, slice_index, OnOk};
ghost use Rattle.std.specs.Int.{bit_at};
ghost use Rattle.rf_incr_closure.specs.Entries.{block_size, row_key, words_at};
ghost use Rattle.rf_incr_closure.specs.Words.{block_words, word_of};
ghost use Rattle.rf_incr_closure.specs.Writes.{Writes, mark_at};

use rf_store::{Key, Store, Value};
use std::alloc::AllocError;

/// How many vertices a block is of.
pub(crate) const BLOCK_SIZE: u64 = 448;

/// Where a block of the row of a vertex stands.
pub(crate) fn row_key(tag: u64, from: u64, block: u64) -> Key
    ensures { result ≡ row_key tag from block }
{
    [tag, from, block, 0, 0, 0]
}

/// How many blocks the vertices below `size` take.
pub(crate) fn block_count(size: u64) -> u64
    ensures all { size ≤ result * block_size }
    ensures no_more { (block : ℕ) → block < result → block * block_size < size }
{
    size.div_ceil(BLOCK_SIZE)
}

/// The words at a key, zeros where there is no entry.
pub(crate) fn words_at(store: &Store, key: &Key) -> Value
    ensures { result ≡ words_at store.now.current key.now }
{
    store.get(key).unwrap_or([0; 7])
}

/// The mark of a vertex as a bit. One beyond the marks has none.
fn bit_of(marks: &[bool], vertex: usize) -> u64
    ensures { result ≡ (if mark_at marks.now vertex then 1 else 0) }
{
    match marks.get(vertex) {
        Some(mark) => *mark as u64,
        None => 0,
    }
}

/// The marks of 64 vertices from `first` on as the bits of a word.
fn word_of(marks: &[bool], first: usize) -> u64
    requires { first < 2 ^ 63 + 384 }
    ensures { result ≡ word_of (mark_at marks.now) first 64 }
{
    let mut word = 0;
    for done in 0..64 {
        word = 2 * word + bit_of(marks, first + (63 - done));
    }
    word
}

/// The marks of a block's vertices as a value.
pub(crate) fn block_value(marks: &[bool], block: u64) -> Value
    requires { block * block_size < length marks.now }
    ensures { result ≡ block_words (mark_at marks.now) (block * block_size) }
{
    let first = (block * BLOCK_SIZE) as usize;
    [
        word_of(marks, first),
        word_of(marks, first + 64),
        word_of(marks, first + 128),
        word_of(marks, first + 192),
        word_of(marks, first + 256),
        word_of(marks, first + 320),
        word_of(marks, first + 384),
    ]
}

/// Writes words at a key. Where they stand there already nothing is put, so that takes no room.
pub(crate) fn write(store: &mut Store, key: Key, words: Value) -> Result<(), AllocError>
    ensures words { OnOk result (Writes store.old.current store.new.current key words) }
    ensures others { (k : List ℕ) → k ≢ key
        → value_at store.new.current k ≡ value_at store.old.current k }
    ensures same { words_at store.old.current key ≡ words → store.new ≡ store.old }
    ensures saved { store.new.saved ≡ store.old.saved }
{
    if words_at(store, &key) == words {
        return Ok(());
    }
    store.put(key, words)
}

/// Whether the bit of a vertex is 1 in the words of its block.
pub(crate) fn has_bit(words: &Value, vertex: u64) -> bool
    ensures { result ≡ (bit_at (slice_index words.now (vertex % block_size / 64)) (vertex % 64) == 1) }
{
    words[(vertex % BLOCK_SIZE / 64) as usize] >> (vertex % 64) & 1 == 1
}
