//! What changes a state.

ghost use Rattle.std.specs.Prelude.{◌≡◌, ◌≢◌, ◌<◌, Some, length, IfOk, OnOk, OnErr};
ghost use Rattle.std.specs.Option.{ForSome};
ghost use Rattle.rf_problem.specs.Valid.{IsSmall};
ghost use Rattle.rf_state.specs.Added.{Added, added_at};
ghost use Rattle.rf_state.specs.NamedEnds.{AreAdded, AreSameBut};
ghost use Rattle.rf_state.specs.Meaning.{meaning};
ghost use Rattle.rf_state.specs.State.{fresh_of, kept_to, merged_at, narrowed, object_of};

use super::State;
use super::reads::added_at;
use crate::Object;
use crate::copies::{Fresh, copies};
use rf_values::{ClassSet, Count, Truth};
use std::alloc::AllocError;

impl State<'_> {
    // Names the ends of an edge, of which this was added.
    fn name(&mut self, r: u32, a: u64, b: u64, before: Truth) -> Result<(), AllocError>
        requires reference { r < length self.old.problem.now.references }
        requires from { a < length (meaning self.old).objects }
        requires to { b < length (meaning self.old).objects }
        requires before { before ≡ added_at self.old.added r a b }
        ensures problem { self.new.problem.now ≡ self.old.problem.now }
        ensures objects { self.new.objects ≡ self.old.objects }
        ensures added { self.new.added ≡ self.old.added }
        ensures named { OnOk result (ForSome self.new.named (λ ends. (after : Added)
            → AreSameBut r a b self.old.added after → AreAdded self.old.problem.now after ends)) }
    {
        if before == Truth::Unknown {
            if let Some(named) = &mut self.named {
                named.name_edge(self.problem, r, Some(a), Some(b))?;
            }
        }
        Ok(())
    }

    /// Merges a truth into what was added of an edge.
    pub fn merge(&mut self, r: u32, a: u64, b: u64, v: Truth) -> Result<(), AllocError>
        requires reference { r < length self.old.problem.now.references }
        requires from { a < length (meaning self.old).objects }
        requires to { b < length (meaning self.old).objects }
        ensures problem { self.new.problem.now ≡ self.old.problem.now }
        ensures merged { OnOk result (meaning self.new ≡ merged_at (meaning self.old) r a b v) }
        ensures unchanged { OnErr result (meaning self.new ≡ meaning self.old) }
    {
        let before = added_at(&self.added, r, a, b);
        let after = before.merge(v);
        if after != before {
            self.name(r, a, b, before)?;
            self.added.insert((r, a, b), after)?;
        }
        Ok(())
    }

    /// Leaves an object those of its numbers of nodes that a count allows too, whose ends are at most the greatest number of
    /// a problem text.
    pub fn narrow(&mut self, o: u64, count: Count)
        requires object { o < length (meaning self.old).objects }
        requires small { IsSmall count }
        ensures problem { self.new.problem.now ≡ self.old.problem.now }
        ensures narrowed { meaning self.new ≡ narrowed (meaning self.old) o count }
    {
        let object = *self.object(o);
        self.objects[o as usize] = Object {
            count: object.count.meet(count),
            ..object
        };
    }

    /// Leaves an object those of its candidates that are in a set.
    pub fn keep(&mut self, o: u64, set: ClassSet)
        requires { o < length (meaning self.old).objects }
        ensures problem { self.new.problem.now ≡ self.old.problem.now }
        ensures kept { meaning self.new ≡ kept_to (meaning self.old) o set }
    {
        let object = *self.object(o);
        self.objects[o as usize] = Object {
            candidates: object.candidates.both(set),
            ..object
        };
    }

    /// Makes a fresh object of an object, which stands for one of its nodes and in each added fact in which that one
    /// stands. The answer is its number.
    pub fn fresh(&mut self, o: u64) -> Result<u64, AllocError>
        requires object { o < length (meaning self.old).objects }
        requires node { (object_of (meaning self.old) o).count.hi ≢ Some 0 }
        ensures problem { self.new.problem.now ≡ self.old.problem.now }
        ensures number { IfOk result (λ n. n ≡ length (meaning self.old).objects) }
        ensures fresh { OnOk result (meaning self.new ≡ fresh_of (meaning self.old) o) }
        ensures unchanged { OnErr result (meaning self.new ≡ meaning self.old) }
    {
        let number = self.objects.len() as u64;
        let added = copies(
            *self.objects.allocator(),
            &self.added,
            Fresh { number, of: o },
        )?;
        let object = *self.object(o);
        self.named = None;
        self.objects.push(Object {
            count: Count { lo: 1, hi: Some(1) },
            ..object
        })?;
        self.objects[o as usize] = Object {
            count: object.count.less_one(),
            ..object
        };
        self.added = added;
        Ok(number)
    }
}
