//! A state in a map with versions, and one with lists beside it, beside a state of which each version is a copy.

use crate::same::{same, some_value};
use rf_eval::Scratch;
use rf_mirror::Mirrored;
use rf_problem::Problem;
use rf_random_edits::{Random, edit};
use rf_state::State;
use rf_vstate::{Versioned, Versions};
use std::alloc::{AllocError, Global};
use std::process::Abort;

// The most objects that a state is given.
const MOST: u64 = 12;

/// The same state three times.
#[derive(Drop)]
pub struct Both<'p> {
    versioned: Versioned<'p>,
    mirrored: Mirrored<'p>,
    plain: Scratch<'p>,
    kept: Vec<Scratch<'p>>,
}

impl<'p> Both<'p> {
    /// The root, which is kept.
    pub fn root(alloc: Global, problem: &'p Problem) -> Result<Both<'p>, AllocError> {
        let plain = Scratch::new(State::root(alloc, problem)?);
        let mut kept = Vec::new(alloc);
        kept.push(plain.copy(alloc)?)?;
        Ok(Both {
            versioned: Versioned::root(alloc, problem)?,
            mirrored: Mirrored::root(alloc, problem)?,
            plain,
            kept,
        })
    }

    fn commit(&mut self, alloc: Global, rt: &impl Abort) -> Result<(), AllocError> {
        let place = self.versioned.commit()?;
        assert_eq!(rt; place, self.kept.len() as u64);
        assert_eq!(rt; self.mirrored.commit()?, place);
        self.kept.push(self.plain.copy(alloc)?)?;
        Ok(())
    }

    fn restore(
        &mut self,
        alloc: Global,
        rt: &impl Abort,
        random: &mut Random,
    ) -> Result<(), AllocError> {
        let many = self.kept.len() as u64;
        assert!(rt; 0 < many);
        let place = random.below(many);
        assert!(rt; place < self.versioned.kept() && place < self.mirrored.kept());
        self.versioned.restore(place);
        self.mirrored.restore(place);
        self.plain = self.kept[place as usize].copy(alloc)?;
        Ok(())
    }

    fn prune(
        &mut self,
        alloc: Global,
        rt: &impl Abort,
        random: &mut Random,
    ) -> Result<(), AllocError> {
        let many = self.kept.len() as u64;
        assert!(rt; 0 < many);
        let place = random.below(many);
        assert!(rt; place < self.versioned.kept() && place < self.mirrored.kept());
        self.versioned.prune(place);
        self.mirrored.prune(place);
        self.plain = self.kept[place as usize].copy(alloc)?;
        self.kept.truncate(place as usize + 1);
        Ok(())
    }

    /// Makes an edit, keeps the state, or goes back.
    pub fn step(
        &mut self,
        alloc: Global,
        rt: &impl Abort,
        random: &mut Random,
    ) -> Result<(), AllocError> {
        match random.below(20) {
            0 => self.restore(alloc, rt, random),
            1 => self.prune(alloc, rt, random),
            2 | 3 | 4 | 5 => self.commit(alloc, rt),
            _ => {
                let mut again = *random;
                let mut once_more = *random;
                edit(alloc, &mut self.versioned, random, MOST)?;
                edit(alloc, &mut self.plain, &mut again, MOST)?;
                edit(alloc, &mut self.mirrored, &mut once_more, MOST)?;
                Ok(())
            }
        }
    }

    /// Looks whether the three are the same.
    pub fn compare(
        &self,
        alloc: Global,
        rt: &impl Abort,
        random: &mut Random,
    ) -> Result<(), AllocError> {
        assert_eq!(rt; self.versioned.kept(), self.kept.len() as u64);
        assert!(rt; same(&self.versioned, &self.plain));
        assert!(rt; same(&self.mirrored, &self.plain));
        let mut again = *random;
        let mut once_more = *random;
        let value = some_value(alloc, &self.versioned, random)?;
        assert_eq!(rt; some_value(alloc, &self.plain, &mut again)?, value);
        assert_eq!(rt; some_value(alloc, &self.mirrored, &mut once_more)?, value);
        Ok(())
    }
}
