//! Marks of rows.

ghost use Rattle.std.specs.Prelude.{◌≡◌, ◌<◌, ℕ, Bool, true, false, ◌==◌, ◌&&◌, IfOk, length, replicate};
ghost use Rattle.rf_pending.specs.Rows.{is_marked};
ghost use Rattle.rf_pending.specs.Touching.{AreTouched};

use std::alloc::{AllocError, Global};

/// Which rows are marked. Those before `start` aren't.
#[derive(Debug, Drop)]
pub struct Marks {
    pub start: usize,
    pub rows: Vec<bool>,
}

// So many flags, all of them the same.
fn flags(alloc: Global, many: u128, flag: bool) -> Result<Vec<bool>, AllocError>
    ensures { IfOk result (λ flags. flags.items ≡ replicate many flag) }
{
    if many > usize::MAX as u128 {
        return Err(AllocError);
    }
    vec![in alloc; flag; many as usize]
}

impl Marks {
    /// Marks of so many rows, all of which are marked.
    pub fn all(alloc: Global, many: u128) -> Result<Marks, AllocError>
        ensures size { IfOk result (λ marks. length marks.rows.items ≡ many) }
        ensures marked { IfOk result (λ marks. (k : ℕ) → k < many → is_marked marks k ≡ true) }
    {
        Ok(Marks {
            start: 0,
            rows: flags(alloc, many, true)?,
        })
    }

    /// Marks of so many rows, none of which is marked.
    pub fn none(alloc: Global, many: u128) -> Result<Marks, AllocError>
        ensures size { IfOk result (λ marks. length marks.rows.items ≡ many) }
        ensures marked { IfOk result (λ marks. (k : ℕ) → is_marked marks k ≡ false) }
    {
        Ok(Marks {
            start: 0,
            rows: flags(alloc, many, false)?,
        })
    }

    /// A copy of the marks.
    pub fn copied(&self, alloc: Global) -> Result<Marks, AllocError>
        ensures start { IfOk result (λ copy. copy.start ≡ self.now.start) }
        ensures rows { IfOk result (λ copy. copy.rows.items ≡ self.now.rows.items) }
    {
        Ok(Marks {
            start: self.start,
            rows: self.rows.as_slice().to_vec(alloc)?,
        })
    }

    /// Marks a row, if there is one of this number.
    pub fn touch(&mut self, row: u128)
        ensures { AreTouched (λ k. row == k) self.old self.new }
    {
        if row < self.rows.len() as u128 {
            let k = row as usize;
            self.rows[k] = true;
            if k < self.start {
                self.start = k;
            }
        }
    }

    /// Marks a row where this is so.
    pub fn touch_where(&mut self, so: bool, row: u128)
        ensures { AreTouched (λ k. so && row == k) self.old self.new }
    {
        if so {
            self.touch(row);
        }
    }

    /// Marks each row.
    pub fn touch_all(&mut self)
        ensures { AreTouched (λ k. true) self.old self.new }
    {
        for k in 0..self.rows.len() {
            self.rows[k] = true;
        }
        self.start = 0;
    }
}
