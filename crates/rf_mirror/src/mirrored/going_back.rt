//! The states that are kept, with their lists.

use super::Mirrored;
use crate::lists::commit_both;
use rf_state::Facts;
use rf_vstate::Versions;
use std::alloc::AllocError;

impl Versions for Mirrored<'_> {
    fn commit(&mut self) -> Result<u64, AllocError> {
        let many = self.inner.kept() as usize;
        commit_both(&mut self.objects, &mut self.cells, many)?;
        match self.inner.commit() {
            Ok(number) => Ok(number),
            Err(error) => {
                self.objects.forget(many);
                self.cells.forget(many);
                Err(error)
            }
        }
    }

    fn restore(&mut self, v: u64) {
        self.inner.restore(v);
        self.objects.clear();
        self.cells.clear();
        self.number = self.inner.objects();
    }

    fn prune(&mut self, v: u64) {
        self.inner.prune(v);
        self.objects.prune(v as usize);
        self.cells.prune(v as usize);
        self.number = self.inner.objects();
    }

    fn kept(&self) -> u64 {
        self.inner.kept()
    }
}
