//! What changes a state and its lists.

use super::Mirrored;
use crate::adding::{Source, add_cells};
use crate::objects::{add, renew};
use crate::reading::merge_at;
use rf_state::{Edit, Facts, Object};
use rf_values::{ClassSet, Count, Truth};
use std::alloc::{AllocError, Global};

impl Edit for Mirrored<'_> {
    ghost use Rattle.rf_mirror.specs.Meaning.{kept};

    ghost kept = { kept };

    fn merge(&mut self, alloc: Global, r: u32, a: u64, b: u64, v: Truth) -> Result<(), AllocError> {
        self.inner.merge(alloc, r, a, b, v)?;
        merge_at(self.inner.problem(), &mut self.cells, r, a, b, v);
        Ok(())
    }

    fn narrow(&mut self, alloc: Global, o: u64, count: Count) -> Result<(), AllocError> {
        let object = self.object(o);
        self.inner.narrow(alloc, o, count)?;
        let narrowed = Object {
            count: object.count.meet(count),
            ..object
        };
        renew(&mut self.objects, o, narrowed);
        Ok(())
    }

    fn keep(&mut self, alloc: Global, o: u64, set: ClassSet) -> Result<(), AllocError> {
        let object = self.object(o);
        self.inner.keep(alloc, o, set)?;
        let kept = Object {
            candidates: object.candidates.both(set),
            ..object
        };
        renew(&mut self.objects, o, kept);
        Ok(())
    }

    fn fresh(&mut self, alloc: Global, o: u64) -> Result<u64, AllocError> {
        let object = self.object(o);
        let number = self.inner.fresh(alloc, o)?;
        let rest = Object {
            count: object.count.less_one(),
            ..object
        };
        let made = Object {
            count: Count { lo: 1, hi: Some(1) },
            ..object
        };
        renew(&mut self.objects, o, rest);
        add(&mut self.objects, number, made);
        let source = Source::Copied { of: o, number };
        add_cells(self.inner.problem(), &mut self.cells, source, number);
        self.number = self.inner.objects();
        Ok(number)
    }
}
