//! Keys, values, and the order of keys.

ghost use Rattle.std.specs.Prelude.{◌≡◌};
ghost use Rattle.rf_store.specs.Entries.{key_cmp};

use std::cmp::Ordering;

/// Six words, compared word by word, the first word first.
pub type Key = [u64; 6];

/// Seven words that the store does not read.
pub type Value = [u64; 7];

/// The order of two keys.
pub(crate) fn compare(a: &Key, b: &Key) -> Ordering
    ensures { result ≡ key_cmp a.now b.now }
{
    for i in 0..6 {
        if a[i] < b[i] {
            return Ordering::Less;
        }
        if b[i] < a[i] {
            return Ordering::Greater;
        }
    }
    Ordering::Equal
}
