//! The states that are kept.

use super::Versioned;
use crate::Versions;
use std::alloc::AllocError;

impl Versions for Versioned<'_> {
    fn commit(&mut self) -> Result<u64, AllocError> {
        let number = self.places.len() as u64;
        let place = self.store.commit()?;
        self.places.push(place)?;
        Ok(number)
    }

    fn restore(&mut self, v: u64) {
        self.store.restore(self.places[v as usize]);
    }

    fn prune(&mut self, v: u64) {
        self.store.prune(self.places[v as usize]);
        self.places.truncate(v as usize + 1);
    }

    fn kept(&self) -> u64 {
        self.places.len() as u64
    }
}
