//! How many decisions lists have, as far as it is known.

ghost use Rattle.std.specs.Prelude.{◌≡◌, ◌<◌, ◌≤◌, ℕ, false, List, IfOk, IfSome, length, slice_index};
ghost use Rattle.rf_rules.specs.declared.decision.Decision.{Decision};
ghost use Rattle.rf_pending.specs.Rows.{is_marked};
ghost use Rattle.rf_decide.specs.Counted.{AreSizes};

use crate::lists::Lists;
use rf_pending::Marks;
use std::alloc::{AllocError, Global};

/// How many decisions each of some lists has, but for those that are marked as uncounted.
#[derive(Debug, Drop)]
pub struct Sizes {
    pub numbers: Vec<u64>,
    pub uncounted: Marks,
}

impl Sizes {
    /// So many lists, none of which is counted.
    pub fn none(alloc: Global, many: u128) -> Result<Sizes, AllocError>
        ensures { IfOk result (λ sizes. (most : ℕ) (list : ℕ → List Decision) → AreSizes many most list sizes) }
    {
        if many > usize::MAX as u128 {
            return Err(AllocError);
        }
        Ok(Sizes {
            numbers: vec![in alloc; 0u64; many as usize]?,
            uncounted: Marks::all(alloc, many)?,
        })
    }

    /// A copy of the sizes.
    pub fn copied(&self, alloc: Global) -> Result<Sizes, AllocError>
        ensures { IfOk result (λ copy. (many most : ℕ) (list : ℕ → List Decision) → AreSizes many most list self.now
            → AreSizes many most list copy) }
    {
        Ok(Sizes {
            numbers: self.numbers.as_slice().to_vec(alloc)?,
            uncounted: self.uncounted.copied(alloc)?,
        })
    }

    /// The size of a list, where it is known.
    pub fn known(&self, k: u64) -> Option<u64>
        requires number { k < length self.now.numbers.items }
        requires mark { k < length self.now.uncounted.rows.items }
        ensures { IfSome result (λ size.
            (is_marked self.now.uncounted k ≡ false) × (size ≡ slice_index self.now.numbers.items k)) }
    {
        let k = k as usize;
        if k >= self.uncounted.start && self.uncounted.rows[k] {
            None
        } else {
            Some(self.numbers[k])
        }
    }

    // A list is counted.
    fn put(&mut self, k: usize, size: u64)
        requires number { k < length self.old.numbers.items }
        requires mark { k < length self.old.uncounted.rows.items }
        ensures { (many most : ℕ) (list : ℕ → List Decision) → AreSizes many most list self.old
            → size ≡ length (list k) → size ≤ most → AreSizes many most list self.new }
    {
        self.numbers[k] = size;
        self.uncounted.rows[k] = false;
    }

    /// Counts the lists that are marked.
    pub fn count<L: Lists>(&mut self, lists: &L)
        requires { AreSizes (L.many lists.now) (L.most lists.now) (L.list lists.now) self.old }
        ensures { AreSizes (L.many lists.now) (L.most lists.now) (L.list lists.now) self.new }
    {
        for k in 0..self.uncounted.rows.len() {
            if self.uncounted.rows[k] {
                let size = lists.size(k as u64);
                self.put(k, size);
            }
        }
    }
}
